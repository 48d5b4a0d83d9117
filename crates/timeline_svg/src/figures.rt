//! The figures below the lanes.

ghost use Rattle.std.specs.Prelude.{◌≡◌, ◌++◌, ◌<◌, OnOk, length};
ghost use Rattle.timeline_svg.specs.Figures.{figures_text, first_read, follows_unread, is_never_unread, is_unread_at, line_of, sums_text, unread_at, unread_figure, unread_figure_at, unread_head, unread_lines, unread_text};
ghost use Rattle.timeline_svg.specs.Markup.{texts_below};

use crate::layout::row_y;
use crate::pieces::Piece::{Number, Range, Text};
use crate::pieces::put;
use crate::places::{last_of, place_of, space_after};
use lane_words::Memory;
use partitioner::Topic;
use timeline::{Column, Figures, Span, Timeline, is_read};

/// The line of a column; 0 if there is none.
fn line_of(columns: &[Column], i: usize) -> u64
    ensures { result ≡ line_of columns.now i }
{
    match columns.get(i) {
        Some(column) => column.line,
        None => 0,
    }
}

/// Whether nobody reads in a span.
fn is_unread_at(spans: &[Span], i: usize) -> bool
    ensures { result ≡ is_unread_at spans.now i }
{
    match spans.get(i) {
        Some(span) => !is_read(span.holder),
        None => false,
    }
}

/// Whether there is a span before this one in which nobody reads.
fn follows_unread(spans: &[Span], i: usize) -> bool
    ensures { result ≡ follows_unread spans.now i }
{
    i > 0 && is_unread_at(spans, i - 1)
}

/// The column of the first of these spans that somebody reads; if there is none, that after the
/// last.
fn first_read(spans: &[Span], columns: usize) -> usize
    ensures { result ≡ first_read spans.now columns }
{
    let mut rest = spans;
    while let [span, more @ ..] = rest {
        if is_read(span.holder) {
            return span.from;
        }
        rest = more;
    }
    columns
}

/// Whether somebody reads in each of these spans.
fn is_never_unread(spans: &[Span]) -> bool
    ensures { result ≡ is_never_unread spans.now }
{
    let mut rest = spans;
    while let [span, more @ ..] = rest {
        if !is_read(span.holder) {
            return false;
        }
        rest = more;
    }
    true
}

/// Appends the lines of a time in which nobody reads, which begins with this span.
fn put_unread_lines(
    out: &mut Vec<u8>,
    columns: &[Column],
    spans: &[Span],
    i: usize,
    span: &Span,
) -> Result<(), Memory>
    requires { i < length spans.now }
    ensures { OnOk result (out.new.items
        ≡ out.old.items ++ unread_lines columns.now spans.now i span.now) }
{
    let end = first_read(&spans[i..], columns.len());
    let first = line_of(columns, span.from) as u128;
    let last = line_of(columns, end.saturating_sub(1)) as u128;
    put(out, &[Text(b" "), Range(first, last)])
}

/// Appends the lines of the time in which nobody reads, if one begins with span `i`.
fn put_unread_at(
    out: &mut Vec<u8>,
    columns: &[Column],
    spans: &[Span],
    i: usize,
) -> Result<(), Memory>
    requires { i < length spans.now }
    ensures { OnOk result (out.new.items ≡ out.old.items ++ unread_at columns.now spans.now i) }
{
    if !is_unread_at(spans, i) || follows_unread(spans, i) {
        return Ok(());
    }
    match spans.get(i) {
        Some(span) => put_unread_lines(out, columns, spans, i, span),
        None => Ok(()),
    }
}

/// Appends the lines of all times in which nobody reads.
#[tactic(auto, using(crate::proofs::Below::below_more))]
fn put_unread_times(out: &mut Vec<u8>, columns: &[Column], spans: &[Span]) -> Result<(), Memory>
    ensures { OnOk result (out.new.items
        ≡ out.old.items ++ texts_below (length spans.now) (unread_at columns.now spans.now)) }
{
    for i in 0..spans.len() {
        put_unread_at(out, columns, spans, i)?;
    }
    Ok(())
}

/// Appends the lines in which nobody reads, or that there are none.
fn put_unread(out: &mut Vec<u8>, columns: &[Column], spans: &[Span]) -> Result<(), Memory>
    ensures { OnOk result (out.new.items ≡ out.old.items ++ unread_text columns.now spans.now) }
{
    if is_never_unread(spans) {
        out.extend_from_slice(b": never")?;
        return Ok(());
    }
    out.extend_from_slice(b": lines")?;
    put_unread_times(out, columns, spans)
}

/// Appends the begin of a lane's figure.
fn put_unread_head(
    out: &mut Vec<u8>,
    row: usize,
    topic: &[u8],
    first: usize,
    last: usize,
) -> Result<(), Memory>
    ensures { OnOk result (out.new.items ≡ out.old.items ++ unread_head row topic.now first last) }
{
    put(
        out,
        &[
            Text(b"<text class=\"figure unread-lines\" data-topic=\""),
            Text(topic),
            Text(b"\" data-first=\""),
            Number(first as u128),
            Text(b"\" data-last=\""),
            Number(last as u128),
            Text(b"\" y=\""),
            Number(row_y(row)),
            Text(b"\">No reader of "),
            Text(topic),
            Text(space_after(topic)),
            Range(first as u128, last as u128),
        ],
    )
}

/// Appends the lines in which nobody read the partitions from one on, up to another.
fn put_unread_figure(
    out: &mut Vec<u8>,
    topics: &[Topic],
    timeline: &Timeline,
    row: usize,
    first: usize,
    last: usize,
) -> Result<(), Memory>
    ensures { OnOk result (out.new.items
        ≡ out.old.items ++ unread_figure topics.now timeline.now row first last) }
{
    let place = place_of(topics, first);
    let course = timeline.course(first);
    put_unread_head(
        out,
        row,
        place.topic,
        place.number,
        place_of(topics, last).number,
    )?;
    put_unread(out, timeline.columns(), course)?;
    out.extend_from_slice(b"</text>\n")?;
    Ok(())
}

fn put_unread_figure_at(
    out: &mut Vec<u8>,
    topics: &[Topic],
    timeline: &Timeline,
    starts: &[usize],
    row: usize,
) -> Result<(), Memory>
    ensures { OnOk result (out.new.items
        ≡ out.old.items ++ unread_figure_at topics.now timeline.now starts.now row) }
{
    match starts.get(row) {
        Some(first) => {
            let last = last_of(starts, timeline.partitions(), row);
            put_unread_figure(out, topics, timeline, row, *first, last)
        }
        None => Ok(()),
    }
}

#[tactic(auto, using(crate::proofs::Below::below_more))]
fn put_unread_figures(
    out: &mut Vec<u8>,
    topics: &[Topic],
    timeline: &Timeline,
    starts: &[usize],
) -> Result<(), Memory>
    ensures { OnOk result (out.new.items ≡ out.old.items
        ++ texts_below (length starts.now)
        (unread_figure_at topics.now timeline.now starts.now)) }
{
    for row in 0..starts.len() {
        put_unread_figure_at(out, topics, timeline, starts, row)?;
    }
    Ok(())
}

/// Appends the sums of all, from a row on.
fn put_sums(out: &mut Vec<u8>, row: usize, figures: &Figures) -> Result<(), Memory>
    ensures { OnOk result (out.new.items ≡ out.old.items ++ sums_text row figures.now) }
{
    let y = row_y(row);
    put(
        out,
        &[
            Text(b"<text class=\"figure read-again\" y=\""),
            Number(y),
            Text(b"\">Records read more than once: "),
            Number(figures.read_again),
            Text(b"</text>\n<text class=\"figure counted\" y=\""),
            Number(y + 18),
            Text(b"\">Records counted: "),
            Number(figures.counted as u128),
            Text(b" of "),
            Number(figures.appended as u128),
            Text(b", none twice</text>\n<text class=\"figure moves\" y=\""),
            Number(y + 36),
            Text(b"\">Moves: "),
            Number(figures.moves as u128),
            Text(b"</text>\n"),
        ],
    )
}

/// Appends the figures of a timeline whose lanes begin with these partitions.
pub fn put_figures(
    out: &mut Vec<u8>,
    topics: &[Topic],
    timeline: &Timeline,
    starts: &[usize],
) -> Result<(), Memory>
    ensures { OnOk result (out.new.items
        ≡ out.old.items ++ figures_text topics.now timeline.now starts.now) }
{
    put_unread_figures(out, topics, timeline, starts)?;
    put_sums(out, starts.len(), &timeline.figures())
}
