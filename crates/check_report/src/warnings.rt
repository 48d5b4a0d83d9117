//! What may be wrong with a file that can be read.

ghost use Rattle.std.specs.Prelude.{◌≡◌, ◌≤◌, ◌++◌, false, true, IfNone, IfOk, IfSome, List, OnOk, if◌then◌else◌, length, nat_lt, option_map};
ghost use Rattle.std.specs.Option.{option_to_list};
ghost use Rattle.csv.specs.Records.{fields_of};
ghost use Rattle.csv_ingest.specs.KeyFile.{Record};
ghost use Rattle.csv_ingest.specs.Stand.{in_quotes, stand_after};
ghost use Rattle.csv_ingest.specs.declared.stand.Stand.TheVariants as stand;
ghost use Rattle.check_report.specs.Warnings.{delimiter_words, ends_field, first_warnings, format_words, has_byte, last_field, last_number, none_words, quote_warnings, unmarked, warning, warnings_of};
ghost use Rattle.check_report.specs.declared.places.Place.{Place};

use crate::findings::Finding;
use crate::places::{Place, Places, line_of};
use crate::record_findings::found_at;
use crate::records::Records;
use csv::ByteRecord;
use csv_ingest::{Stand, is_line_end, mark_length};
use lane_words::Memory;
use std::alloc::Global;

/// What a file begins with that is compressed by gzip.
const GZIP: [u8; 2] = [0x1F, 0x8B];

/// What a file begins with that is compressed by Zstandard.
const ZSTD: [u8; 4] = [0x28, 0xB5, 0x2F, 0xFD];

/// The byte order marks of UTF-16.
const UTF_16: [[u8; 2]; 2] = [[0xFF, 0xFE], [0xFE, 0xFF]];

/// A warning about no record.
fn warning(alloc: Global, byte: Option<u64>, words: &str) -> Result<Finding, Memory>
    ensures { IfOk result (λ found. found ≡ warning byte words.now) }
{
    Ok(Finding {
        in_script: false,
        code: None,
        nth: None,
        line: byte.map(|_| 1),
        byte,
        words: words.as_bytes().to_vec(alloc)?,
    })
}

/// Adds a warning about no record, if there are words.
fn warn(
    alloc: Global,
    found: &mut Vec<Finding>,
    byte: Option<u64>,
    words: Option<&str>,
) -> Result<(), Memory>
    ensures { OnOk result (found.new.items ≡ found.old.items
        ++ option_to_list (option_map (warning byte) (option_map (λ w. w.now) words.entry))) }
{
    if let Some(words) = words {
        found.push(warning(alloc, byte, words)?)?;
    }
    Ok(())
}

/// What a file is that begins like no CSV.
fn format_words(file: &[u8]) -> Option<&'static str>
    ensures { option_map (λ w. w.now) result ≡ format_words file.now }
{
    if file.starts_with(&GZIP) {
        Some("the file begins like a gzip file")
    } else if file.starts_with(&ZSTD) {
        Some("the file begins like a zstd file")
    } else if file.starts_with(&UTF_16[0]) || file.starts_with(&UTF_16[1]) {
        Some("the file begins like UTF-16 text")
    } else {
        None
    }
}

/// Whether a byte of this value is in a field.
fn has_byte(field: &[u8], byte: u8) -> bool
    ensures { result ≡ has_byte byte field.now }
{
    field.iter().any(|b| *b == byte)
}

/// What may be the delimiter of a record of one field.
fn delimiter_words(row: &ByteRecord) -> Option<&'static str>
    ensures { option_map (λ w. w.now) result ≡ delimiter_words (fields_of row.now) }
{
    if row.len() != 1 {
        return None;
    }
    let Some(field) = row.get(0) else {
        return None;
    };
    if has_byte(field, b'\t') {
        Some("one field with a tab in it: is the delimiter a tab?")
    } else if has_byte(field, b';') {
        Some("one field with a semicolon in it: is the delimiter a semicolon?")
    } else {
        None
    }
}

/// What is said of a file that has no record.
fn none_words(file: &[u8], has_record: bool) -> Option<&'static str>
    ensures { (records : List (Place × Record)) → has_record ≡ nat_lt 0 (length records)
        → option_map (λ w. w.now) result ≡ none_words file.now records }
{
    if file.is_empty() {
        Some("the file is empty")
    } else if has_record {
        None
    } else {
        Some("the file has no record")
    }
}

/// Adds the warnings about no record, about another format than CSV, and about the first record.
fn add_first_warnings(
    alloc: Global,
    found: &mut Vec<Finding>,
    file: &[u8],
    delimiter: u8,
) -> Result<(), Memory>
    ensures { OnOk result (found.new.items ≡ found.old.items ++ first_warnings delimiter file.now) }
{
    let mut records = Records::of(alloc, file, delimiter);
    let first = records.next()?;
    warn(alloc, found, None, none_words(file, first.is_some()))?;
    warn(alloc, found, Some(0), format_words(file))?;
    if let Some(place) = first
        && let Some(words) = delimiter_words(&records.row)
    {
        found.push(found_at(None, place, words.as_bytes().to_vec(alloc)?))?;
    }
    Ok(())
}

/// The number of the last record; 0 if there is none.
fn last_number(places: Places<'_>) -> u64
    ensures { result ≡ last_number places.entry }
{
    let mut places = places;
    let mut last = 0;
    'places: while let Some(place) = places.next() {
        last = place.nth;
    }
    last
}

/// The first byte of a file's last field, if it is in quotes that are never closed.
fn open_quote(file: &[u8], delimiter: u8) -> Option<usize>
    ensures found { IfSome result (λ byte. (byte ≡ last_field delimiter file.now)
        × (in_quotes (stand_after delimiter stand.Record (unmarked file.now)) ≡ true)) }
    ensures range { IfSome result (λ byte. byte ≤ length file.now) }
    ensures none { IfNone result
        (in_quotes (stand_after delimiter stand.Record (unmarked file.now)) ≡ false) }
{
    let mark = mark_length(file);
    let mut stand = Stand::Record;
    let mut start = mark;
    for i in mark..file.len() {
        start = field_start(stand, delimiter, file[i], start, i + 1);
        stand = stand.next(file[i], delimiter);
    }
    if stand.is_quoted() { Some(start) } else { None }
}

/// Whether a byte ends the field that a reader is in.
fn ends_field(stand: Stand, delimiter: u8, byte: u8) -> bool
    ensures { result ≡ ends_field delimiter stand byte }
{
    !stand.is_quoted() && (byte == delimiter || is_line_end(byte))
}

/// Where the field begins that a reader is in behind a byte, if before it that was at `start`.
fn field_start(stand: Stand, delimiter: u8, byte: u8, start: usize, behind: usize) -> usize
    ensures { result ≡ (if ends_field delimiter stand byte then behind else start) }
{
    if ends_field(stand, delimiter, byte) {
        behind
    } else {
        start
    }
}

/// Adds the warning about quotes that are never closed.
fn add_quote_warning(
    alloc: Global,
    found: &mut Vec<Finding>,
    file: &[u8],
    delimiter: u8,
) -> Result<(), Memory>
    ensures { OnOk result (found.new.items ≡ found.old.items ++ quote_warnings delimiter file.now) }
{
    if let Some(byte) = open_quote(file, delimiter) {
        let place = Place {
            nth: last_number(Places::of(file, delimiter)),
            line: line_of(file, 1, 0, byte),
            byte: byte as u64,
        };
        let words = b"the quotes that open here are never closed".to_vec(alloc)?;
        found.push(found_at(None, place, words))?;
    }
    Ok(())
}

/// Adds the warnings about a file.
#[tactic(auto, unfolding(crate::specs::Warnings::warnings_of))]
pub fn add_warnings(
    alloc: Global,
    found: &mut Vec<Finding>,
    file: &[u8],
    delimiter: u8,
) -> Result<(), Memory>
    ensures { OnOk result (found.new.items ≡ found.old.items ++ warnings_of delimiter file.now) }
{
    add_first_warnings(alloc, found, file, delimiter)?;
    add_quote_warning(alloc, found, file, delimiter)
}
