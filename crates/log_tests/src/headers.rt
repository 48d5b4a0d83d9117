//! Columns that a header names.

ghost use Rattle.std.specs.Prelude.{◌≤◌};

use csv_ingest::{column_named_in, has_header};
use lane_words::Refusal;
use std::alloc::Global;

/// A name, how many fields it is looked for in, and the answer.
type Row = (&'static [u8], u32, Result<u32, Refusal>);

/// A file, whose header ends before byte 24.
const FILE: &[u8] = b"\n\r\n\n\n\"i\nd\",name,id,name\n1,2,3,4\n";

/// The names of its columns.
const ROWS: [Row; 7] = [
    (b"i\nd", 1, Ok(1)),
    (b"name", 9, Ok(2)),
    (b"id", 9, Ok(3)),
    (b"id", 3, Ok(3)),
    (b"id", 2, Err(Refusal::NoSuchColumn { nth: 1 })),
    (b"1", 9, Err(Refusal::NoSuchColumn { nth: 1 })),
    (b"", 9, Err(Refusal::NoSuchColumn { nth: 1 })),
];

/// The column of a name, by the first bytes of that file.
fn column_in(alloc: Global, text: &[u8], row: &Row) -> Result<u32, Refusal> {
    column_named_in(alloc, text, b',', row.0, row.1)
}

#[test]
fn a_header_is_read_from_its_first_bytes(rt: HostRuntime) {
    let mut seen = 0_usize;
    for size in 0..=FILE.len() {
        let text = &FILE[..size];
        if has_header(rt.alloc(), text, b',') == Ok(true) {
            seen = seen.saturating_add(1);
            for row in &ROWS {
                assert_eq!(rt; column_in(rt.alloc(), text, row), row.2);
            }
        }
    }
    // With each byte behind the line feed of the header it is seen.
    assert!(rt; seen > 0);
}
