//! The CSV writer that every report uses, and the row of the totals.

ghost use Rattle.std.specs.Prelude.{◌≡◌, [], ℕ, List, IfOk, OnOk, map};
ghost use Rattle.csv.specs.Writing.{row_text};
ghost use Rattle.report_rows.specs.Rows.{AddsRows, HasText, row_writer, total_row};

use csv::{Writer, WriterBuilder};
use itoa::Buffer;
use lane_words::Memory;
use std::alloc::Global;

/// A writer of rows into memory, empty at first.
pub fn new_writer(alloc: Global) -> Writer<Vec<u8>>
    ensures { HasText result [] }
{
    WriterBuilder::new()
        .flexible(true)
        .from_writer(Vec::new(alloc))
}

/// A writer of rows into memory, empty at first, with memory for a text of this length.
pub fn writer_for(alloc: Global, len: usize) -> Result<Writer<Vec<u8>>, Memory>
    ensures { IfOk result (λ writer. HasText writer []) }
{
    let text = Vec::with_capacity(alloc, len)?;
    Ok(WriterBuilder::new().flexible(true).from_writer(text))
}

/// Writes a row. The writer is flexible and in memory, so only an allocation can fail.
pub fn write_row(writer: &mut Writer<Vec<u8>>, fields: &[&[u8]]) -> Result<(), Memory>
    ensures { OnOk result
        (AddsRows writer.old writer.new (row_text row_writer (map (λ f. f.now) fields.now))) }
{
    if writer.write_fields(fields).is_err() {
        return Err(Memory);
    }
    Ok(())
}

/// Writes the row of the totals: records committed, and records appended.
pub fn write_total(
    writer: &mut Writer<Vec<u8>>,
    committed: u64,
    appended: u64,
) -> Result<(), Memory>
    ensures { OnOk result (AddsRows writer.old writer.new (total_row committed appended)) }
{
    let (mut first, mut second) = (Buffer::new(), Buffer::new());
    write_row(
        writer,
        &[
            b"total",
            first.format(committed).as_bytes(),
            second.format(appended).as_bytes(),
        ],
    )
}

/// The text that the writer has written. The flush of its buffer allocates, so this can fail too.
pub fn text_of(writer: Writer<Vec<u8>>) -> Result<Vec<u8>, Memory>
    ensures { (text : List ℕ) → HasText writer text → IfOk result (λ all. all.items ≡ text) }
{
    let Ok(text) = writer.into_inner() else {
        return Err(Memory);
    };
    Ok(text)
}
