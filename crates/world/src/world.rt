//! A world, whose invariant holds under any schedule.

ghost use Rattle.std.specs.Prelude.{◌≡◌, ◌≤◌, ◌∷◌, [], ℕ, None, Some, IfOk, MatchOption, OnErr, OnOk, length, map, zip};
ghost use Rattle.std.specs.List.{sum};
ghost use Rattle.group_machine.specs.Cluster.{AreCounts, committed_at};
ghost use Rattle.partitioner.specs.Place.{AreTopics};
ghost use Rattle.partition_log.specs.Appends.{lent};
ghost use Rattle.partition_log.specs.Keys.{of_first};
ghost use Rattle.world.specs.World.{consumer_of};
ghost use Rattle.world.specs.Steps.{NeverFaults, Step};
ghost use Rattle.world.specs.Runs.{AppendsRecords, IsOpening, Loads, Run, appended_by, appended_in, appends_in, appends_of, world_over};
ghost use Rattle.world.specs.Valid.{IsValidWorld};

mod drain;
mod settle;

use crate::event::{Event, Reply};
use crate::parts::{Parts, index_of};
use consumer::Consumer;
use group_machine::{Cluster, Commit};
use lane_words::{MOST_PARTITIONS, Memory, Refusal};
use partition_log::Logs;
use std::alloc::Global;
use std::marker::Model;
use std::random::RandomSource;
use std::thread::Threads;

/// A cluster, a consumer for each member that ever joined, and the commits that were sent.
///
/// Events may come in any order: appends, joins, returns, rejoins, syncs, leaves and losses of
/// members, polls, and commits that are sent and then delivered late, repeatedly or without an
/// answer. After each event no partition is granted to two present members, a settled assignment is
/// balanced, and each key's count is the number of its records below the committed offsets.
#[derive(Drop)]
pub struct World {
    alloc: Global,
    parts: Parts,
}

impl Model for World {
    ghost use Rattle.world.specs.World.{WorldState};
    ghost use Rattle.world.specs.Valid.{IsValidWorld};
    ghost use Rattle.world.specs.Private.View.{world_view};

    ghost Value = { WorldState };

    ghost view = { λ a. world_view a.parts };

    ghost invariant = { λ a. IsValidWorld (world_view a.parts) };
}

impl World {
    /// A world of 1 to 4096 partitions of one topic, with no members and empty logs. Fails if
    /// memory runs out, or if the random source of the keys' hasher fails.
    pub fn new(rt: &impl RandomSource, alloc: Global, partitions: u32) -> Result<World, Memory>
        requires { (1 ≤ partitions) × (partitions ≤ MOST_PARTITIONS) }
        ensures state { IfOk result (IsOpening partitions) }
        ensures counts { IfOk result (λ w. w.cluster.logs.counts ≡ partitions ∷ []) }
        ensures offsets { IfOk result (λ w. (p : ℕ) → committed_at w.cluster.store p ≡ 0) }
        ensures valid { IfOk result IsValidWorld }
    {
        let logs = Logs::new(rt, alloc, partitions)?;
        World::over(alloc, logs)
    }

    /// A world of 1 to 8 topics, with the number of partitions of each.
    pub fn with_topics(
        rt: &impl RandomSource,
        alloc: Global,
        counts: &[u32],
    ) -> Result<World, Memory>
        requires { AreCounts counts.now }
        ensures state { IfOk result (IsOpening (sum counts.now)) }
        ensures counts { IfOk result (λ w. w.cluster.logs.counts ≡ counts.now) }
        ensures offsets { IfOk result (λ w. (p : ℕ) → committed_at w.cluster.store p ≡ 0) }
        ensures valid { IfOk result IsValidWorld }
    {
        let logs = Logs::with_topics(rt, alloc, counts)?;
        World::over(alloc, logs)
    }

    /// A world over the given logs, with no members and nothing committed. It fails only when out
    /// of memory.
    pub fn over(alloc: Global, logs: Logs) -> Result<World, Memory>
        ensures state { IfOk result (λ w. w ≡ world_over logs) }
        ensures valid { IfOk result IsValidWorld }
    {
        let cluster = Cluster::over(alloc, logs)?;
        Ok(World {
            alloc,
            parts: Parts {
                cluster,
                consumers: Vec::new(alloc),
                mail: Vec::new(alloc),
            },
        })
    }

    /// Makes one event, and returns the reply to it.
    ///
    /// A refused event changes nothing, with two exceptions: a consumer that learns that its member
    /// is not present drops everything, and one that learns the committed offset realigns itself.
    /// An event that takes memory may be refused with `Memory`; then nothing has changed.
    pub fn step(&mut self, event: Event<'_>) -> Reply
        ensures step { Step self.old event.entry result self.new }
        ensures kind { NeverFaults self.old event.entry }
        ensures history { AppendsRecords (appended_by event.entry result) self.old self.new }
        ensures valid { IsValidWorld self.new }
    {
        self.parts.step(self.alloc, event)
    }

    /// Makes all events in order, even after refusals, and returns the replies. Fails only if there
    /// is no memory for the replies; then nothing has changed.
    pub fn run(&mut self, events: &[Event<'_>]) -> Result<Vec<Reply>, Memory>
        ensures run { IfOk result (λ replies. Run self.old events.now replies.items self.new) }
        ensures history { IfOk result (λ replies. AppendsRecords
            (appended_in events.now replies.items) self.old self.new) }
        ensures valid { IsValidWorld self.new }
        ensures err { OnErr result (self.new ≡ self.old) }
    {
        let mut replies = Vec::with_capacity(self.alloc, events.len())?;
        for event in events {
            replies.push_reserved(self.step(*event));
        }
        Ok(replies)
    }

    /// Appends a record of each key to the first topic, in order, as `Event::Append` does.
    ///
    /// Stops at the first record that is refused, and returns the number of records before it,
    /// which stay, and the refusal. If memory for the keys' partitions runs out, that number is 0.
    pub fn load<R: Threads + Sync>(&mut self, rt: &R, keys: &[&[u8]]) -> Result<(), (u64, Refusal)>
        ensures step { Loads self.old (appends_of keys.now) result self.new }
        ensures history { OnOk result (AppendsRecords (map (λ key. of_first key.now) keys.now)
            self.old self.new) }
        ensures valid { IsValidWorld self.new }
    {
        self.parts.load(rt, keys)
    }

    /// Like `load`, with the index of a topic for each key, as `Event::AppendIn` does.
    pub fn load_in<R: Threads + Sync>(
        &mut self,
        rt: &R,
        topics: &[u8],
        keys: &[&[u8]],
    ) -> Result<(), (u64, Refusal)>
        requires { AreTopics (length self.old.cluster.logs.counts) (length keys.now) topics.now }
        ensures step { Loads self.old (appends_in topics.now keys.now) result self.new }
        ensures history { OnOk result (AppendsRecords (zip topics.now (lent keys.now))
            self.old self.new) }
        ensures valid { IsValidWorld self.new }
    {
        self.parts.load_in(rt, topics, keys)
    }

    /// The cluster.
    pub fn cluster(&self) -> &Cluster
        ensures cluster { result.now ≡ self.now.cluster }
        ensures valid { IsValidWorld self.now }
    {
        &self.parts.cluster
    }

    /// The consumer of a member that ever joined, present or not.
    pub fn consumer(&self, member: u32) -> Option<&Consumer>
        ensures value { MatchOption result (consumer_of self.now member ≡ None)
            (λ consumer. consumer_of self.now member ≡ Some consumer.now) }
        ensures valid { IsValidWorld self.now }
    {
        let index = index_of(member, self.parts.consumers.len())?;
        Some(&self.parts.consumers[index])
    }

    /// The commits that were sent, in order.
    pub fn mail(&self) -> &[Commit]
        ensures mail { result.now ≡ self.now.mail }
        ensures valid { IsValidWorld self.now }
    {
        &self.parts.mail
    }
}
