//! The bands of a lane.

ghost use Rattle.std.specs.Prelude.{◌≡◌, ◌++◌, ◌<◌, OnOk, length};
ghost use Rattle.timeline_svg.specs.Bands.{band_shape, bands, cover_of, end_of, front_of, name_in_band, name_shape, span_at, span_shapes, state_words};

use crate::layout::{column_x, lane_y};
use crate::pieces::Piece::{Number, Text};
use crate::pieces::put;
use crate::words::{colour_of, member_of, name_of};
use lane_words::Memory;
use partitioner::Name;
use timeline::{Holder, Span};

/// What covers the colour of a band: a hatching where nobody reads.
fn cover_of(holder: Holder) -> &'static [u8]
    ensures { result.now ≡ cover_of holder }
{
    match holder {
        Holder::Reading(_) => b"",
        _ => b" unread",
    }
}

fn state_words(holder: Holder) -> &'static [u8]
    ensures { result.now ≡ state_words holder }
{
    match holder {
        Holder::Nobody => b"nobody reads",
        Holder::Granted(_) => b"nobody reads, granted to ",
        Holder::Reading(_) => b"read by ",
    }
}

/// Appends the band of a lane from a column up to another.
fn put_band(
    out: &mut Vec<u8>,
    names: &[Name],
    lane: usize,
    from: usize,
    to: usize,
    holder: Holder,
) -> Result<(), Memory>
    ensures { OnOk result (out.new.items
        ≡ out.old.items ++ band_shape names.now lane from to holder) }
{
    let member = member_of(holder);
    let name = name_of(names, member);
    put(
        out,
        &[
            Text(b"<rect class=\"span m"),
            Number(colour_of(member)),
            Text(cover_of(holder)),
            Text(b"\" data-from=\""),
            Number(from as u128),
            Text(b"\" data-to=\""),
            Number(to as u128),
            Text(b"\" data-member=\""),
            Text(name),
            Text(b"\" x=\""),
            Number(column_x(from)),
            Text(b"\" y=\""),
            Number(lane_y(lane)),
            Text(b"\" width=\""),
            Number(column_x(to.saturating_sub(from))),
            Text(b"\" height=\"20\"><title>"),
            Text(state_words(holder)),
            Text(name),
            Text(b"</title></rect>\n"),
        ],
    )
}

/// The front of a name that has room in so many columns.
fn front_of(name: &[u8], columns: usize) -> &[u8]
    ensures { result.now ≡ front_of name.now columns }
{
    let room = (4 * columns as u128).saturating_sub(1);
    if room < name.len() as u128 {
        &name[..room as usize]
    } else {
        name
    }
}

/// Appends a name in a band, as far as it has room.
fn put_name(
    out: &mut Vec<u8>,
    name: &[u8],
    lane: usize,
    from: usize,
    to: usize,
    holder: Holder,
) -> Result<(), Memory>
    ensures { OnOk result (out.new.items
        ≡ out.old.items ++ name_shape name.now lane from to holder) }
{
    put(
        out,
        &[
            Text(b"<text class=\"name on"),
            Number(colour_of(member_of(holder))),
            Text(cover_of(holder)),
            Text(b"\" x=\""),
            Number(column_x(from) + 4),
            Text(b"\" y=\""),
            Number(lane_y(lane) + 14),
            Text(b"\">"),
            Text(front_of(name, to.saturating_sub(from))),
            Text(b"</text>\n"),
        ],
    )
}

fn put_name_in_band(
    out: &mut Vec<u8>,
    names: &[Name],
    lane: usize,
    from: usize,
    to: usize,
    holder: Holder,
) -> Result<(), Memory>
    ensures { OnOk result (out.new.items
        ≡ out.old.items ++ name_in_band names.now lane from to holder) }
{
    match holder {
        Holder::Nobody => Ok(()),
        Holder::Granted(member) | Holder::Reading(member) => {
            put_name(out, name_of(names, member), lane, from, to, holder)
        }
    }
}

/// Where a span ends: where the next one begins, and the last one with the last column.
pub fn end_of(spans: &[Span], columns: usize, i: usize) -> usize
    requires { i < length spans.now }
    ensures { result ≡ end_of spans.now columns i }
{
    match spans.get(i + 1) {
        Some(next) => next.from,
        None => columns,
    }
}

fn put_span(
    out: &mut Vec<u8>,
    names: &[Name],
    lane: usize,
    to: usize,
    span: &Span,
) -> Result<(), Memory>
    ensures { OnOk result (out.new.items
        ≡ out.old.items ++ span_shapes names.now lane to span.now) }
{
    put_band(out, names, lane, span.from, to, span.holder)?;
    put_name_in_band(out, names, lane, span.from, to, span.holder)
}

fn put_span_at(
    out: &mut Vec<u8>,
    names: &[Name],
    lane: usize,
    columns: usize,
    spans: &[Span],
    i: usize,
) -> Result<(), Memory>
    ensures { OnOk result (out.new.items
        ≡ out.old.items ++ span_at names.now lane columns spans.now i) }
{
    match spans.get(i) {
        Some(span) => put_span(out, names, lane, end_of(spans, columns, i), span),
        None => Ok(()),
    }
}

/// Appends the bands of a lane, in a picture of so many columns.
#[tactic(auto, using(crate::proofs::Below::below_more))]
pub fn put_bands(
    out: &mut Vec<u8>,
    names: &[Name],
    lane: usize,
    columns: usize,
    spans: &[Span],
) -> Result<(), Memory>
    ensures { OnOk result (out.new.items
        ≡ out.old.items ++ bands names.now lane columns spans.now) }
{
    for i in 0..spans.len() {
        put_span_at(out, names, lane, columns, spans, i)?;
    }
    Ok(())
}
