//! The keys of one chunk of a file that is read chunk by chunk.

ghost use Rattle.std.specs.Prelude.{◌≡◌, IfOk};
ghost use Rattle.csv_ingest.specs.Pieces.{file_records};
ghost use Rattle.csv_ingest.specs.Rounds.{chunk_keys, width_after};
ghost use Rattle.csv_ingest.specs.Private.Wanted.{taking};
ghost use Rattle.csv_ingest.specs.Sinks.{TakesFound};

use crate::piece::first_width;
use crate::scan::{take_first_keys, take_keys};
use crate::sink::KeySink;
use crate::wanted::Wanted;
use lane_words::{Memory, Refusal};
use std::alloc::Global;

/// How many fields the first record of a file has, if it was read. `width` says so before this
/// chunk, the result behind it.
pub fn width_behind(
    alloc: Global,
    chunk: &[u8],
    delimiter: u8,
    width: Option<usize>,
) -> Result<Option<usize>, Memory>
    ensures { IfOk result (λ found. found ≡ width_after width (file_records delimiter chunk.now)) }
{
    match width {
        Some(width) => Ok(Some(width)),
        None => first_width(alloc, chunk, delimiter),
    }
}

/// Takes the keys of a chunk, before which the first record was `width` fields long, if it was
/// read, and returns how many there are. Of a fault the number counts from the chunk's own first
/// record.
pub fn take_chunk<K: KeySink>(
    alloc: Global,
    keys: &mut K,
    chunk: &[u8],
    delimiter: u8,
    wanted: &Wanted<'_>,
    header: bool,
    width: Option<usize>,
) -> Result<u64, Refusal>
    ensures { TakesFound K.Takes (chunk_keys delimiter (taking wanted.now) header width chunk.now)
        keys.old keys.new result }
{
    if let Some(width) = width {
        return take_keys(alloc, keys, chunk, delimiter, wanted, width);
    }
    match first_width(alloc, chunk, delimiter)? {
        Some(width) => take_first_keys(alloc, keys, chunk, delimiter, wanted, header, width),
        None => Ok(0),
    }
}
