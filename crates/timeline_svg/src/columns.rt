//! The columns: what begins or happens in each.

ghost use Rattle.std.specs.Prelude.{◌≡◌, ◌++◌, OnOk};
ghost use Rattle.timeline_svg.specs.Columns.{column_at, column_open, column_shapes, columns, generation_line, generation_text};

use crate::layout::{column_x, lane_y};
use crate::marks::put_mark;
use crate::pieces::Piece::{Number, Text};
use crate::pieces::put;
use lane_words::Memory;
use partitioner::Topic;
use timeline::{Column, Timeline};

/// Appends the begin of a column's group.
#[tactic(auto, unfolding(crate::specs::Columns::column_open))]
fn put_column_open(out: &mut Vec<u8>, i: usize, line: u64, step: u64) -> Result<(), Memory>
    ensures { OnOk result (out.new.items ≡ out.old.items ++ column_open i line step) }
{
    put(
        out,
        &[
            Text(b"<g class=\"column\" data-column=\""),
            Number(i as u128),
            Text(b"\" data-line=\""),
            Number(line as u128),
            Text(b"\" data-step=\""),
            Number(step as u128),
            Text(b"\">"),
        ],
    )
}

/// Appends the line of a new generation, through so many lanes.
fn put_generation_line(
    out: &mut Vec<u8>,
    lanes: usize,
    i: usize,
    generation: u32,
) -> Result<(), Memory>
    ensures { OnOk result (out.new.items ≡ out.old.items ++ generation_line lanes i generation) }
{
    put(
        out,
        &[
            Text(b"<path class=\"generation\" d=\"M"),
            Number(column_x(i)),
            Text(b" 152V"),
            Number(lane_y(lanes)),
            Text(b"\"/><text class=\"offsets\" x=\""),
            Number(column_x(i)),
            Text(b"\" y=\""),
            Number(lane_y(lanes) + 16),
            Text(b"\">"),
            Number(generation as u128),
            Text(b"</text>"),
        ],
    )
}

fn put_generation(
    out: &mut Vec<u8>,
    lanes: usize,
    i: usize,
    generation: Option<u32>,
) -> Result<(), Memory>
    ensures { OnOk result (out.new.items ≡ out.old.items ++ generation_text lanes i generation) }
{
    match generation {
        Some(number) => put_generation_line(out, lanes, i, number),
        None => Ok(()),
    }
}

fn put_column(
    out: &mut Vec<u8>,
    topics: &[Topic],
    timeline: &Timeline,
    starts: &[usize],
    i: usize,
    column: &Column,
) -> Result<(), Memory>
    ensures { OnOk result (out.new.items ≡ out.old.items
        ++ column_shapes topics.now timeline.now starts.now i column.now) }
{
    put_column_open(out, i, column.line, column.step)?;
    put_generation(out, starts.len(), i, column.generation)?;
    put_mark(out, topics, timeline, starts, i, column.mark)?;
    out.extend_from_slice(b"</g>\n")?;
    Ok(())
}

fn put_column_at(
    out: &mut Vec<u8>,
    topics: &[Topic],
    timeline: &Timeline,
    starts: &[usize],
    i: usize,
) -> Result<(), Memory>
    ensures { OnOk result (out.new.items
        ≡ out.old.items ++ column_at topics.now timeline.now starts.now i) }
{
    match timeline.columns().get(i) {
        Some(column) => put_column(out, topics, timeline, starts, i, column),
        None => Ok(()),
    }
}

/// Appends the columns of a timeline whose lanes begin with these partitions.
#[tactic(auto, using(crate::proofs::Below::below_more))]
pub fn put_columns(
    out: &mut Vec<u8>,
    topics: &[Topic],
    timeline: &Timeline,
    starts: &[usize],
) -> Result<(), Memory>
    ensures { OnOk result (out.new.items
        ≡ out.old.items ++ columns topics.now timeline.now starts.now) }
{
    for i in 0..timeline.columns().len() {
        put_column_at(out, topics, timeline, starts, i)?;
    }
    Ok(())
}
