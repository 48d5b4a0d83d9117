//! The lines of the script, over their columns.

ghost use Rattle.std.specs.Prelude.{◌≡◌, ◌++◌, OnOk};
ghost use Rattle.script.specs.Grammar.{lines_from};
ghost use Rattle.timeline_svg.specs.Headings.{column_of, heading_front, heading_of, heading_shape, headings};

use crate::layout::{column_x, lane_y};
use crate::pieces::Piece::{Escaped, Number, Text};
use crate::pieces::put;
use lane_words::Memory;
use script::first_line;
use timeline::Column;

/// The most bytes of a line's text that are shown.
const LONGEST_HEADING: usize = 20;

fn heading_front(text: &[u8]) -> &[u8]
    ensures { result.now ≡ heading_front text.now }
{
    &text[..text.len().min(LONGEST_HEADING)]
}

/// Appends the number and the text of a line over its first column.
fn put_heading(
    out: &mut Vec<u8>,
    lanes: usize,
    column: usize,
    line: u64,
    text: &[u8],
) -> Result<(), Memory>
    ensures { OnOk result (out.new.items
        ≡ out.old.items ++ heading_shape lanes column line text.now) }
{
    put(
        out,
        &[
            Text(b"<g class=\"line\" data-line=\""),
            Number(line as u128),
            Text(b"\" data-column=\""),
            Number(column as u128),
            Text(b"\"><title>"),
            Escaped(text),
            Text(b"</title><path class=\"rule\" d=\"M"),
            Number(column_x(column)),
            Text(b" 152V"),
            Number(lane_y(lanes)),
            Text(b"\"/><text transform=\"translate("),
            Number(column_x(column) + 8),
            Text(b" 148) rotate(-45)\"><tspan class=\"number\">"),
            Number(line as u128),
            Text(b"</tspan> "),
            Escaped(heading_front(text)),
            Text(b"</text></g>\n"),
        ],
    )
}

/// The first column of a line, if it has one.
fn column_of(columns: &[Column], line: u64) -> Option<usize>
    ensures { result ≡ column_of columns.now line }
{
    columns.iter().position(|column| column.line == line)
}

fn put_heading_of(
    out: &mut Vec<u8>,
    columns: &[Column],
    lanes: usize,
    line: u64,
    text: &[u8],
) -> Result<(), Memory>
    ensures { OnOk result (out.new.items
        ≡ out.old.items ++ heading_of columns.now lanes (line, text.now)) }
{
    match column_of(columns, line) {
        Some(column) => put_heading(out, lanes, column, line, text),
        None => Ok(()),
    }
}

/// Appends the headings of a script's lines over a picture of so many lanes.
pub fn put_headings(
    out: &mut Vec<u8>,
    columns: &[Column],
    lanes: usize,
    script: &[u8],
) -> Result<(), Memory>
    ensures { OnOk result (out.new.items
        ≡ out.old.items ++ headings columns.now lanes (lines_from 1 script.now)) }
{
    let mut number = 1u64;
    let mut rest = script;
    while !rest.is_empty() {
        let (line, more) = first_line(rest);
        put_heading_of(out, columns, lanes, number, line)?;
        number += 1;
        rest = more;
    }
    Ok(())
}
