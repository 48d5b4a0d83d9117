//! The lanes: a label and bands for the partitions that share one.

ghost use Rattle.std.specs.Prelude.{◌≡◌, ◌++◌, OnOk};
ghost use Rattle.timeline_svg.specs.Lanes.{lane_at, lane_head, lane_shapes, lanes};

use crate::bands::put_bands;
use crate::layout::lane_y;
use crate::pieces::Piece::{Number, Range, Text};
use crate::pieces::put;
use crate::places::{last_of, place_of, space_after};
use lane_words::Memory;
use partitioner::Topic;
use timeline::Timeline;

/// Appends the begin of a lane's group, and its label.
fn put_lane_head(
    out: &mut Vec<u8>,
    lane: usize,
    topic: &[u8],
    first: usize,
    last: usize,
) -> Result<(), Memory>
    ensures { OnOk result (out.new.items ≡ out.old.items ++ lane_head lane topic.now first last) }
{
    put(
        out,
        &[
            Text(b"<g class=\"lane\" data-topic=\""),
            Text(topic),
            Text(b"\" data-first=\""),
            Number(first as u128),
            Text(b"\" data-last=\""),
            Number(last as u128),
            Text(b"\">\n<text class=\"label\" x=\"-8\" y=\""),
            Number(lane_y(lane) + 15),
            Text(b"\">"),
            Text(topic),
            Text(space_after(topic)),
            Range(first as u128, last as u128),
            Text(b"</text>\n"),
        ],
    )
}

/// Appends the lane of the partitions from one on, up to another.
fn put_lane(
    out: &mut Vec<u8>,
    topics: &[Topic],
    timeline: &Timeline,
    lane: usize,
    first: usize,
    last: usize,
) -> Result<(), Memory>
    ensures { OnOk result (out.new.items
        ≡ out.old.items ++ lane_shapes topics.now timeline.now lane first last) }
{
    let place = place_of(topics, first);
    let course = timeline.course(first);
    put_lane_head(
        out,
        lane,
        place.topic,
        place.number,
        place_of(topics, last).number,
    )?;
    put_bands(
        out,
        timeline.names(),
        lane,
        timeline.columns().len(),
        course,
    )?;
    out.extend_from_slice(b"</g>\n")?;
    Ok(())
}

fn put_lane_at(
    out: &mut Vec<u8>,
    topics: &[Topic],
    timeline: &Timeline,
    starts: &[usize],
    lane: usize,
) -> Result<(), Memory>
    ensures { OnOk result (out.new.items
        ≡ out.old.items ++ lane_at topics.now timeline.now starts.now lane) }
{
    match starts.get(lane) {
        Some(first) => {
            let last = last_of(starts, timeline.partitions(), lane);
            put_lane(out, topics, timeline, lane, *first, last)
        }
        None => Ok(()),
    }
}

/// Appends all lanes, by the partitions that begin one.
#[tactic(auto, using(crate::proofs::Below::below_more))]
pub fn put_lanes(
    out: &mut Vec<u8>,
    topics: &[Topic],
    timeline: &Timeline,
    starts: &[usize],
) -> Result<(), Memory>
    ensures { OnOk result (out.new.items
        ≡ out.old.items ++ lanes topics.now timeline.now starts.now) }
{
    for lane in 0..starts.len() {
        put_lane_at(out, topics, timeline, starts, lane)?;
    }
    Ok(())
}
