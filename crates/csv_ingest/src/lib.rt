//! The keys of a file of delimited records, read chunk by chunk or as a whole.
//!
//! It promises:
//! - A `KeySink` takes the keys of a chunk as they are read, one after another (`take_chunk`). They
//!   are the keys of a column, with their topics or without, or the first fault, exactly as the
//!   definition by records says (`taken_of`), however the file is split (`pieces_of`). The only
//!   other error is running out of memory.
//! - `read_keys` returns the keys of a whole file, a vector for each: the reference implementation.
//! - `column_named_in` returns the column of the header's first field with a name, by the first
//!   bytes of a file, once `has_header` sees the header in them.
//! - `records_of` and `next_record` read a file's records one by one.
//! - Laws: when a file can be split at a line feed, how the records and keys of a file follow from
//!   those of its chunks, and where its records begin.
//!
//! Tests: `log_tests`.
#![tactic(auto)]

mod byte_search;
mod chunk;
mod cuts;
mod field_ends;
mod header;
mod lack;
mod laws;
mod piece;
mod records;
mod scan;
mod sink;
mod stand;
mod wanted;
mod whole;

pub use chunk::{take_chunk, width_behind};
pub use cuts::{Sizes, mark_length, pieces_of};
pub use header::{column_named_in, field_named, has_header};
pub use lack::Lack;
pub use laws::{
    a_key_a_record, a_start_a_record, cut_before_a_line_feed, cut_behind_a_record, cut_file,
    cut_without_quotes, keys_later, keys_of_pieces, keys_of_two_chunks, keys_of_two_pieces,
    line_feed_ends_a_record, outside_without_quotes, records_begin_at_starts, records_of_pieces,
    stand_after_two,
};
pub use records::{next_record, records_of};
pub use sink::KeySink;
pub use stand::{Stand, is_line_end, is_plain};
pub use wanted::Wanted;
pub use whole::read_keys;
