//! The cells of a step besides those that name sets of partitions.

ghost use Rattle.std.specs.Prelude.{◌≡◌, ◌∷◌, [], ◌++◌, decimal, drop, IfNone, IfSome, MatchOption, None, OnOk, Some};
ghost use Rattle.replay_steps.specs.Steps.{taken};
ghost use Rattle.trace_report.specs.Cells.{append_details, commit_details, details_of, event_word, lag, number_cell, partition_cells, phase_word, poll_details, position_in, reason_cell, send_details, waiting_cell, waiting_text};
ghost use Rattle.group_machine.specs.State.{members};
ghost use Rattle.world.specs.World.{commit_at};

use crate::texts::{self, SPACE};
use group_machine::{Cluster, Commit, Phase};
use lane_words::{Memory, Refusal};
use partitioner::Topic;
use replay_steps::{Step, StepEvent, name_of_member, reason_of};
use report_rows::replay_rows;
use world::{Reply, World};

/// What a step has besides its event: a partition, offsets and a commit.
#[derive(Clone, Copy, Debug)]
pub struct Details {
    /// The partition, which may be none of the cluster's.
    pub partition: Option<u32>,
    /// The offset from which on it reads, commits or appends.
    pub from: Option<u64>,
    /// The offset after the last.
    pub to: Option<u64>,
    /// The number of the commit.
    pub commit: Option<u64>,
}

/// The word of a script for what happens.
#[tactic(auto, unfolding(crate::specs::Cells::event_word))]
pub fn event_word(event: StepEvent) -> &'static [u8]
    ensures { result.now ≡ event_word event }
{
    match event {
        StepEvent::Append => b"append",
        StepEvent::Join => b"join",
        StepEvent::Keep => b"keep",
        StepEvent::Return => b"return",
        StepEvent::Rejoin => b"rejoin",
        StepEvent::Sync => b"sync",
        StepEvent::Leave => b"leave",
        StepEvent::Lose => b"lose",
        StepEvent::Poll { .. } => b"poll",
        StepEvent::Send { .. } => b"send",
        StepEvent::Deliver(_) => b"deliver",
        StepEvent::Unanswered(_) => b"unanswered",
        StepEvent::Settle => b"settle",
        StepEvent::Drain => b"drain",
    }
}

/// The details of an append: its partition and offset, if it was accepted.
fn append_details(reply: Option<Reply>) -> Details
    ensures { result ≡ append_details reply }
{
    match reply {
        Some(Reply::Appended(partition, offset)) => Details {
            partition: Some(partition),
            from: Some(u64::from(offset)),
            to: Some(u64::from(offset) + 1),
            commit: None,
        },
        _ => Details {
            partition: None,
            from: None,
            to: None,
            commit: None,
        },
    }
}

/// The position of a member's consumer in a partition; 0 if it does not hold it.
fn position_in(world: &World, member: u32, partition: u32) -> u64
    ensures { result ≡ position_in world.now member partition }
{
    match world.consumer(member) {
        Some(consumer) => u64::from(consumer.position(partition)),
        None => 0,
    }
}

/// The details of a poll: the positions before and after it, if it was accepted.
fn poll_details(world: &World, member: u32, partition: u32, reply: Option<Reply>) -> Details
    ensures { result ≡ poll_details world.now member partition reply }
{
    let Some(Reply::Polled(count)) = reply else {
        return Details {
            partition: Some(partition),
            from: None,
            to: None,
            commit: None,
        };
    };
    let position = position_in(world, member, partition);
    Details {
        partition: Some(partition),
        from: Some(position.saturating_sub(u64::from(count))),
        to: Some(position),
        commit: None,
    }
}

/// A commit of the mail, by its number.
fn commit_at(world: &World, number: u32) -> Option<&Commit>
    ensures { MatchOption result (commit_at world.now number ≡ None)
        (λ commit. commit_at world.now number ≡ Some commit.now) }
{
    if number == 0 {
        return None;
    }
    world.mail().get(number as usize - 1)
}

/// The details of a commit, by its number: its partition and its offsets, if there is one.
fn commit_details(world: &World, number: u32) -> Details
    ensures { result ≡ commit_details world.now number }
{
    let Some(commit) = commit_at(world, number) else {
        return Details {
            partition: None,
            from: None,
            to: None,
            commit: Some(u64::from(number)),
        };
    };
    let from = u64::from(commit.from());
    Details {
        partition: Some(commit.partition()),
        from: Some(from),
        to: Some(from + commit.partial().ids().len() as u64),
        commit: Some(u64::from(number)),
    }
}

/// The details of a send: those of its commit, if it was accepted.
fn send_details(world: &World, partition: u32, reply: Option<Reply>) -> Details
    ensures { result ≡ send_details world.now partition reply }
{
    match reply {
        Some(Reply::Sent(number)) => Details {
            partition: Some(partition),
            ..commit_details(world, number)
        },
        _ => Details {
            partition: Some(partition),
            from: None,
            to: None,
            commit: None,
        },
    }
}

/// The details of a step.
#[tactic(auto, unfolding(crate::specs::Cells::details_of))]
pub fn details_of(step: &Step<'_>, world: &World) -> Details
    ensures { result ≡ details_of (taken step.now world.now) }
{
    match step.event {
        StepEvent::Append => append_details(step.reply),
        StepEvent::Poll { partition } => poll_details(world, step.member, partition, step.reply),
        StepEvent::Send { partition } => send_details(world, partition, step.reply),
        StepEvent::Deliver(number) => commit_details(world, number),
        StepEvent::Unanswered(number) => commit_details(world, number),
        _ => Details {
            partition: None,
            from: None,
            to: None,
            commit: None,
        },
    }
}

/// The words of a refusal, or nothing.
pub fn reason_cell(answer: &Result<(), Refusal>) -> &'static [u8]
    ensures { result.now ≡ reason_cell answer.now }
{
    match answer {
        Err(why) => reason_of(why),
        Ok(()) => b"",
    }
}

/// The cells of a partition: its topic, and its number there. Without topics there is no cell for
/// the topic. Both are empty if there is no partition, or none of this number.
#[tactic(auto, unfolding(crate::specs::Cells::partition_cells))]
pub fn partition_cells(
    topics: &[Topic],
    partitions: u32,
    partition: Option<u32>,
) -> (Option<&[u8]>, Option<u64>)
    ensures found { IfSome result.0 (λ topic. partition_cells topics.now partitions partition
        ≡ topic.now ∷ number_cell result.1 ∷ []) }
    ensures none { IfNone result.0
        (partition_cells topics.now partitions partition ≡ number_cell result.1 ∷ []) }
{
    match partition {
        Some(p) if p < partitions => {
            let (topic, number) = replay_rows::partition_among(topics, p);
            (topic, Some(u64::from(number)))
        }
        _ if topics.is_empty() => (None, None),
        _ => (Some(b""), None),
    }
}

/// The word for a phase.
pub fn phase_word(phase: Phase) -> &'static [u8]
    ensures { result.now ≡ phase_word phase }
{
    match phase {
        Phase::Empty => b"empty",
        Phase::Preparing => b"preparing",
        Phase::Stable => b"stable",
    }
}

/// Appends the name of a member that has not joined, after a space.
fn push_if_waiting(text: &mut Vec<u8>, world: &World, member: u32) -> Result<(), Memory>
    ensures { OnOk result
        (text.new.items ≡ text.old.items ++ waiting_text world.now (member ∷ [])) }
{
    if world.cluster().is_joined(member) {
        return Ok(());
    }
    texts::push_after(text, SPACE, name_of_member(world, member))
}

/// Appends the names of the present members that have not joined, each after a space.
fn push_waiting(text: &mut Vec<u8>, world: &World) -> Result<(), Memory>
    ensures { OnOk result (text.new.items
        ≡ text.old.items ++ waiting_text world.now (members world.now.cluster.group)) }
{
    for member in world.cluster().members() {
        push_if_waiting(text, world, member)?;
    }
    Ok(())
}

/// Writes the cell of those for whom the group waits, with a space before it.
#[tactic(auto, unfolding(crate::specs::Cells::waiting_cell))]
pub fn write_waiting(text: &mut Vec<u8>, world: &World) -> Result<(), Memory>
    ensures { OnOk result (drop 1 text.new.items ≡ waiting_cell world.now) }
{
    text.clear();
    match world.cluster().phase() {
        Phase::Preparing => push_waiting(text, world),
        Phase::Empty | Phase::Stable => Ok(()),
    }
}

/// The number of records that are appended and not committed.
pub fn lag(cluster: &Cluster) -> u64
    ensures { result ≡ lag cluster.now }
{
    replay_rows::appended_total(cluster).saturating_sub(replay_rows::committed_total(cluster))
}
