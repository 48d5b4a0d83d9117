//! What a step marks in its column.

ghost use Rattle.std.specs.Prelude.{◌≡◌, ◌++◌, OnOk};
ghost use Rattle.replay_steps.specs.Steps.{taken};
ghost use Rattle.report_rows.specs.ReplayRows.{committed_total};
ghost use Rattle.world.specs.World.{WorldState};
ghost use Rattle.timeline_recorder.specs.Marks.{base_in, counted_by, delivery_mark, end_of, is_sent, joined_by, lost_end, mark_of, name_if, poll_mark, position_in, records_read, records_sent, refusal_mark, send_mark, sent_in};

use lane_words::{Memory, Refusal};
use partitioner::Name;
use replay_steps::{Step, StepEvent};
use report_rows::replay_rows::committed_total;
use timeline::{End, Mark, Records, Sent};
use world::{Reply, World};

fn base_in(world: &World, member: u32, partition: u32) -> u32
    ensures { result ≡ base_in world.now member partition }
{
    match world.consumer(member) {
        Some(consumer) => consumer.base(partition),
        None => 0,
    }
}

fn position_in(world: &World, member: u32, partition: u32) -> u32
    ensures { result ≡ position_in world.now member partition }
{
    match world.consumer(member) {
        Some(consumer) => consumer.position(partition),
        None => 0,
    }
}

/// The last records before the position of a member's consumer, of this number.
fn records_read(world: &World, member: u32, partition: u32, count: u32) -> Records
    ensures { result ≡ records_read world.now member partition count }
{
    let to = position_in(world, member, partition);
    Records {
        member,
        partition,
        from: to.saturating_sub(count),
        to,
    }
}

/// All that is pending of a partition.
fn records_sent(world: &World, member: u32, partition: u32) -> Records
    ensures { result ≡ records_sent world.now member partition }
{
    Records {
        member,
        partition,
        from: base_in(world, member, partition),
        to: position_in(world, member, partition),
    }
}

fn refusal_mark(answer: Result<(), Refusal>) -> Mark
    ensures { result ≡ refusal_mark answer }
{
    match answer {
        Ok(()) => Mark::Empty,
        Err(why) => Mark::Refused(why),
    }
}

fn poll_mark(step: &Step<'_>, world: &World, partition: u32) -> Mark
    ensures { result ≡ poll_mark (taken step.now world.now) partition step.now.reply }
{
    match step.reply {
        Some(Reply::Polled(count)) => {
            Mark::Poll(records_read(world, step.member, partition, count))
        }
        _ => refusal_mark(step.answer),
    }
}

fn send_mark(step: &Step<'_>) -> Mark
    ensures { (world : WorldState) → result ≡ send_mark (taken step.now world) step.now.reply }
{
    match step.reply {
        Some(Reply::Sent(number)) => Mark::Send(number),
        _ => refusal_mark(step.answer),
    }
}

/// How an answered delivery ended.
fn end_of(answer: Result<(), Refusal>) -> End
    ensures { result ≡ end_of answer }
{
    match answer {
        Ok(()) => End::Accepted,
        Err(why) => End::Refused(why),
    }
}

/// How a delivery whose reply was lost ended, by how many records were counted before and are now.
fn lost_end(before: u64, now: u64) -> End
    ensures { result ≡ lost_end before now }
{
    if before < now {
        End::AcceptedUnanswered
    } else {
        End::RefusedUnanswered
    }
}

/// Whether there is a commit of this number.
fn is_sent(world: &World, number: u32) -> bool
    ensures { result ≡ is_sent world.now number }
{
    number > 0 && world.mail().get(number as usize - 1).is_some()
}

fn delivery_mark(step: &Step<'_>, world: &World, number: u32, end: End) -> Mark
    ensures { result ≡ delivery_mark (taken step.now world.now) number end }
{
    if is_sent(world, number) {
        Mark::Delivery {
            commit: number,
            end,
        }
    } else {
        refusal_mark(step.answer)
    }
}

/// What a step marks. So many records were counted before it.
#[tactic(auto, unfolding(crate::specs::Marks::mark_of))]
pub fn mark_of(counted: u64, step: &Step<'_>, world: &World) -> Mark
    ensures { result ≡ mark_of counted (taken step.now world.now) }
{
    match step.event {
        StepEvent::Poll { partition } => poll_mark(step, world, partition),
        StepEvent::Send { .. } => send_mark(step),
        StepEvent::Deliver(number) => delivery_mark(step, world, number, end_of(step.answer)),
        StepEvent::Unanswered(number) => {
            let end = lost_end(counted, committed_total(world.cluster()));
            delivery_mark(step, world, number, end)
        }
        _ => refusal_mark(step.answer),
    }
}

/// Adds the commit that a step sent, in a column.
#[tactic(auto, unfolding(crate::specs::Marks::sent_in))]
pub fn add_sent(
    commits: &mut Vec<Sent>,
    column: usize,
    step: &Step<'_>,
    world: &World,
) -> Result<(), Memory>
    ensures { OnOk result (commits.new.items
        ≡ commits.old.items ++ sent_in column (taken step.now world.now)) }
{
    if let StepEvent::Send { partition } = step.event
        && let Some(Reply::Sent(_)) = step.reply
    {
        let records = records_sent(world, step.member, partition);
        commits.push(Sent { column, records })?;
    }
    Ok(())
}

fn add_name(names: &mut Vec<Name>, name: &[u8]) -> Result<(), Memory>
    ensures { OnOk result (names.new.items ≡ names.old.items ++ name_if name.now) }
{
    if let Some(name) = Name::new(name) {
        names.push(name)?;
    }
    Ok(())
}

/// Adds the name of the member that joined in a step.
pub fn add_joined(names: &mut Vec<Name>, step: &Step<'_>) -> Result<(), Memory>
    ensures { OnOk result (names.new.items
        ≡ names.old.items ++ joined_by step.now.name.now step.now.reply) }
{
    match step.reply {
        Some(Reply::Joined(_)) | Some(Reply::TakenOver(_)) => add_name(names, step.name),
        _ => Ok(()),
    }
}

/// How many records are counted after a step.
pub fn counted_by(counted: u64, step: &Step<'_>, world: &World) -> u64
    ensures { result ≡ counted_by counted (taken step.now world.now) step.now.event }
{
    match step.event {
        StepEvent::Deliver(_) | StepEvent::Unanswered(_) => committed_total(world.cluster()),
        _ => counted,
    }
}
