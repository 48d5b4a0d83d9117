//! Partitions by their topics, and the lanes that they share.

ghost use Rattle.std.specs.Prelude.{◌≡◌, ◌<◌, IfOk, length};
ghost use Rattle.timeline_svg.specs.Places.{begins_lane, lane_of, lane_starts, last_of, place_of, space_after};

use lane_words::Memory;
use partitioner::Topic;
use std::alloc::Global;
use timeline::{Timeline, are_same_spans};

/// A partition, by its topic.
#[derive(Clone, Copy)]
pub struct Place<'a> {
    /// The name of the topic; empty without topics.
    pub topic: &'a [u8],
    /// The number of the partition there.
    pub number: usize,
}

/// A partition by its topic.
pub fn place_of(topics: &[Topic], partition: usize) -> Place<'_>
    ensures topic { result.topic.now ≡ (place_of topics.now partition).topic }
    ensures number { result.number ≡ (place_of topics.now partition).number }
{
    let mut number = partition;
    let mut rest = topics;
    while let [topic, more @ ..] = rest {
        if number < topic.partitions as usize {
            return Place {
                topic: topic.name.text(),
                number,
            };
        }
        number -= topic.partitions as usize;
        rest = more;
    }
    Place { topic: b"", number }
}

/// A space, where there is a name before it.
pub fn space_after(name: &[u8]) -> &'static [u8]
    ensures { result.now ≡ space_after name.now }
{
    if name.is_empty() { b"" } else { b" " }
}

/// Whether a partition begins a lane.
fn begins_lane(topics: &[Topic], timeline: &Timeline, partition: usize) -> bool
    ensures { result ≡ begins_lane topics.now timeline.now.lanes partition }
{
    let before = timeline.course(partition.saturating_sub(1));
    place_of(topics, partition).number == 0 || !are_same_spans(before, timeline.course(partition))
}

/// The first partition of each lane.
#[tactic(auto, using(crate::proofs::Below::starts_more))]
pub fn lane_starts(
    alloc: Global,
    topics: &[Topic],
    timeline: &Timeline,
) -> Result<Vec<usize>, Memory>
    ensures { IfOk result (λ starts. starts.items ≡ lane_starts topics.now timeline.now.lanes) }
{
    let mut starts = Vec::new(alloc);
    for p in 0..timeline.partitions() {
        if begins_lane(topics, timeline, p) {
            starts.push(p)?;
        }
    }
    Ok(starts)
}

/// The lane of a partition.
pub fn lane_of(starts: &[usize], partition: usize) -> usize
    ensures value { result ≡ lane_of starts.now partition }
{
    let lanes = starts.iter().filter(|start| **start <= partition).count();
    lanes.saturating_sub(1)
}

/// The last partition of a lane, of this many partitions.
pub fn last_of(starts: &[usize], partitions: usize, lane: usize) -> usize
    requires { lane < length starts.now }
    ensures { result ≡ last_of starts.now partitions lane }
{
    match starts.get(lane + 1) {
        Some(start) => start.saturating_sub(1),
        None => partitions.saturating_sub(1),
    }
}
