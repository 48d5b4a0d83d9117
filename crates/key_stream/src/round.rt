//! What was read of a file before a round, and within it.

ghost use Rattle.std.specs.Prelude.{◌≡◌, ◌+◌, IfOk, length, vec_len};
ghost use Rattle.key_stream.specs.Layouts.{HasWidths};

use csv_ingest::width_behind;
use lane_words::Memory;
use std::alloc::Global;

/// How long the first record of a file is, if it was read: before each of these chunks, and behind
/// the last.
pub fn widths_of(
    alloc: Global,
    chunks: &[&[u8]],
    delimiter: u8,
    width: Option<usize>,
) -> Result<Vec<Option<usize>>, Memory>
    ensures len { IfOk result (λ widths. vec_len widths ≡ length chunks.now + 1) }
    ensures widths { IfOk result
        (λ widths. HasWidths delimiter width chunks.now widths.items) }
{
    let mut widths = Vec::with_capacity(alloc, chunks.len() + 1)?;
    let mut width = width;
    widths.push(width)?;
    for i in 0..chunks.len() {
        width = width_behind(alloc, chunks[i], delimiter, width)?;
        widths.push(width)?;
    }
    Ok(widths)
}

/// What a round found.
#[derive(Clone, Copy)]
pub struct Round {
    /// How many fields the first record of the file has, if it was read.
    pub width: Option<usize>,
    /// The number of records with a key so far.
    pub keys: u64,
}
