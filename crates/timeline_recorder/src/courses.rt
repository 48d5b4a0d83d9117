//! The courses of partitions.

ghost use Rattle.std.specs.Prelude.{◌≡◌, ◌<◌, ◌^◌, OnOk, length, map, vec_items};
ghost use Rattle.timeline_recorder.specs.Courses.{extended, extended_courses, holder_in, is_changed, is_held_by, is_still};

use lane_words::Memory;
use timeline::{Holder, Span, is_same_holder};
use world::World;

fn is_held_by(world: &World, member: u32, partition: u32) -> bool
    ensures { result ≡ is_held_by world.now member partition }
{
    match world.consumer(member) {
        Some(consumer) => consumer.holds(partition),
        None => false,
    }
}

/// Who holds a partition.
#[tactic(auto, unfolding(crate::specs::Courses::holder_in))]
fn holder_in(world: &World, partition: u32) -> Holder
    ensures { result ≡ holder_in world.now partition }
{
    match world.cluster().owner(partition) {
        None => Holder::Nobody,
        Some(member) => {
            if is_held_by(world, member, partition) {
                Holder::Reading(member)
            } else {
                Holder::Granted(member)
            }
        }
    }
}

/// Whether the last span of a course has this holder.
fn is_still(spans: &[Span], holder: Holder) -> bool
    ensures { result ≡ is_still spans.now holder }
{
    match spans.last() {
        Some(span) => is_same_holder(span.holder, holder),
        None => false,
    }
}

/// Goes on with a course, with a new span from a column on if it has another holder.
#[tactic(auto, unfolding(crate::specs::Courses::extended))]
fn extend(lane: &mut Vec<Span>, column: usize, holder: Holder) -> Result<(), Memory>
    ensures { OnOk result (lane.new.items ≡ extended column holder lane.old.items) }
{
    if !is_still(lane, holder) {
        lane.push(Span {
            from: column,
            holder,
        })?;
    }
    Ok(())
}

/// Whether some partition has another holder than its course says.
#[tactic(auto, using(crate::proofs::Counting::changed_more))]
pub fn is_changed(lanes: &[Vec<Span>], world: &World) -> bool
    requires { length lanes.now < 2 ^ 32 }
    ensures { result ≡ is_changed world.now (map vec_items lanes.now) }
{
    let mut changed = false;
    for p in 0..lanes.len() {
        changed = changed || !is_still(&lanes[p], holder_in(world, p as u32));
    }
    changed
}

/// Goes on with all courses, in the world after a step.
pub fn extend_courses(lanes: &mut [Vec<Span>], column: usize, world: &World) -> Result<(), Memory>
    requires { length lanes.old < 2 ^ 32 }
    ensures { OnOk result (map vec_items lanes.new
        ≡ extended_courses column world.now (map vec_items lanes.old)) }
{
    for p in 0..lanes.len() {
        extend(&mut lanes[p], column, holder_in(world, p as u32))?;
    }
    Ok(())
}
