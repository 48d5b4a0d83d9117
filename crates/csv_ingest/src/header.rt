//! The columns that the header of a file names.

ghost use Rattle.std.specs.Prelude.{◌≡◌, ◌≤◌, ◌<◌, false, true, IfOk, IfErr, IfSome, take};
ghost use Rattle.std.specs.List.{position_from};
ghost use Rattle.std.specs.Str.{bytes_eq};
ghost use Rattle.csv.specs.Records.{fields_of};
ghost use Rattle.csv_ingest.specs.Header.{HasHeader, column_at, column_named};
ghost use Rattle.csv_ingest.specs.KeyFile.{IsFileFault};
ghost use Rattle.csv_ingest.specs.Pieces.{file_records};
ghost use Rattle.csv_ingest.specs.Private.Header.{BeginsWith};
ghost use Rattle.csv_ingest.specs.Stand.{is_line_end};
ghost use Rattle.lane_words.specs.Answers.{Answers};

use crate::cuts::{Sizes, pieces_of};
use crate::piece::first_width;
use crate::records::{next_record, records_of};
use csv::ByteRecord;
use lane_words::{Memory, Refusal};
use std::alloc::Global;

/// Reads the first record of a piece, and tells whether there was one.
fn read_first(
    alloc: Global,
    piece: &[u8],
    delimiter: u8,
    row: &mut ByteRecord,
) -> Result<bool, Memory>
    ensures { IfOk result
        (λ found. BeginsWith found (fields_of row.new) (file_records delimiter piece.now)) }
{
    let mut reader = records_of(alloc, piece, delimiter);
    next_record(&mut reader, row)
}

/// The index of the first field with this name, among the first `most` fields of a record.
pub fn field_named(row: &ByteRecord, name: &[u8], most: u32) -> Option<u32>
    ensures value { result ≡ position_from (bytes_eq name.now) 0 (take most (fields_of row.now)) }
    ensures bound { IfSome result (λ index. index < most) }
{
    let fields = row.len().min(most as usize);
    for i in 0..fields {
        let Some(field) = row.get(i) else {
            return None;
        };
        if name == field {
            return Some(i as u32);
        }
    }
    None
}

/// The column of the first field of a header with this name, among the first `most` fields.
fn column_among(header: &ByteRecord, name: &[u8], most: u32) -> Result<u32, Refusal>
    ensures value { result
        ≡ column_at (position_from (bytes_eq name.now) 0 (take most (fields_of header.now))) }
    ensures range { IfOk result (λ column. 1 ≤ column) }
    ensures kind { IfErr result IsFileFault }
{
    match field_named(header, name, most) {
        Some(index) => Ok(index + 1),
        None => Err(Refusal::NoSuchColumn { nth: 1 }),
    }
}

/// The column of the first field of a file's header with this name, byte for byte, among the first
/// `most` fields, by the first bytes of the file, which have the header whole. Columns are counted
/// from 1. The header is the first record; where there is none, the column is the first.
///
/// Errors: `NoSuchColumn` for record 1 if no field has this name, and `Memory`.
pub fn column_named_in(
    alloc: Global,
    text: &[u8],
    delimiter: u8,
    name: &[u8],
    most: u32,
) -> Result<u32, Refusal>
    ensures answer { Answers
        (column_named most name.now (file_records delimiter text.now)) result }
    ensures range { IfOk result (λ column. 1 ≤ column) }
    ensures kind { IfErr result IsFileFault }
{
    let mut row = ByteRecord::new(alloc);
    if !read_first(alloc, text, delimiter, &mut row)? {
        return Ok(1);
    }
    column_among(&row, name, most)
}

/// Whether the first bytes of a file are seen to have its header, whatever comes behind them: a
/// split point is found among them, and a record before it.
pub fn has_header(alloc: Global, text: &[u8], delimiter: u8) -> Result<bool, Memory>
    requires { is_line_end delimiter ≡ false }
    ensures { IfOk result (λ has. has ≡ true → HasHeader delimiter text.now) }
{
    let halves = Sizes {
        most: 2,
        step: text.len() / 2,
        left: 0,
    };
    let pieces = pieces_of(alloc, text, delimiter, halves, false)?;
    if pieces.len() < 2 {
        return Ok(false);
    }
    let width = first_width(alloc, pieces[0], delimiter)?;
    Ok(width.is_some())
}
