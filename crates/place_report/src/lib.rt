//! The report of places: where the records of a file go, and how evenly. Promises:
//! - `place_text` appends to the sink the table that the file's bytes and the options define: all
//!   of it, a prefix of it after `WriteFailed`, and nothing after any other refusal. A fault is the
//!   first one by that definition. It returns whether a record is not where its key belongs.
//! - A failed read or write is reported only if the device failed during the call.
//!
//! Tests: `report_tests`.
#![tactic(auto)]

mod given;
mod ids;
mod in_memory;
mod key_rows;
mod partition_rows;
mod place;
mod record_list;
mod tally;
mod topic_counts;

pub use place::place_text;
