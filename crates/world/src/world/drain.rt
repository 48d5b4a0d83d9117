//! Drains a world: its members read and commit all logs to their ends.

ghost use Rattle.std.specs.Prelude.{◌≡◌, ◌≢◌, ◌≤◌, ◌<◌, Err, OnOk, true};
ghost use Rattle.lane_words.specs.declared.Refusal.TheVariants as refusal;
ghost use Rattle.bit_planes.specs.PartitionSet.{elements};
ghost use Rattle.commit_store.specs.Commits.{AreEndsCommitted};
ghost use Rattle.group_laws.specs.Rounds.{without_flags, rebalance_result};
ghost use Rattle.group_machine.specs.Settled.{is_settled};
ghost use Rattle.world.specs.Courses.{Follows, for_each};
ghost use Rattle.world.specs.Observing.{FollowsObserved};
ghost use Rattle.world.specs.Draining.{drain_log, drain_member, drain_members, draining, held_by, is_read_up, read_on};
ghost use Rattle.world.specs.Valid.{IsValidWorld};

use super::World;
use crate::event::Event;
use crate::observer::{Observer, Unobserved};
use bit_planes::Plane;
use lane_words::Refusal;
use partition_log::LogRead;

impl World {
    /// Settles the world. Then each present member, in rising order of numbers, reads each
    /// partition that it holds, in rising order, to the end of its log. It reads at most `batch`
    /// records at a time, and commits them before it reads on.
    ///
    /// Fails as `settle` does, or with the first event that is refused; earlier events stand.
    pub fn drain(&mut self, batch: u32) -> Result<(), Refusal>
        requires { 1 ≤ batch }
        ensures step { Follows self.old (draining batch self.old) result self.new }
        ensures kind { result ≢ Err refusal.NotSettled }
        ensures end { OnOk result (without_flags self.new.cluster.group
            ≡ rebalance_result self.old.cluster.group) }
        ensures settled { OnOk result (is_settled self.new.cluster.group ≡ true) }
        ensures committed { OnOk result (AreEndsCommitted self.new.cluster.store
            self.new.cluster.logs) }
        ensures valid { IsValidWorld self.new }
    {
        self.drain_observed(batch, &mut Unobserved)
    }

    /// The same. The observer sees each event, as that of `settle_observed` does.
    pub fn drain_observed<O: Observer>(
        &mut self,
        batch: u32,
        observer: &mut O,
    ) -> Result<(), Refusal>
        requires { 1 ≤ batch }
        ensures step { FollowsObserved O.Sees self.old observer.old (draining batch self.old)
            result self.new observer.new }
        ensures kind { result ≢ Err refusal.NotSettled }
        ensures end { OnOk result (without_flags self.new.cluster.group
            ≡ rebalance_result self.old.cluster.group) }
        ensures settled { OnOk result (is_settled self.new.cluster.group ≡ true) }
        ensures committed { OnOk result (AreEndsCommitted self.new.cluster.store
            self.new.cluster.logs) }
        ensures valid { IsValidWorld self.new }
    {
        self.settle_observed(observer)?;
        self.drain_members(batch, observer)
    }

    /// Each present member reads and commits the partitions that it holds.
    fn drain_members<O: Observer>(&mut self, batch: u32, observer: &mut O) -> Result<(), Refusal>
        ensures { FollowsObserved O.Sees self.old observer.old (drain_members batch self.old)
            result self.new observer.new }
    {
        for index in 0..self.last_member() {
            if self.cluster().is_present(index + 1) {
                self.drain_member(batch, index + 1, observer)?;
            }
        }
        Ok(())
    }

    /// One member reads and commits the partitions that it holds.
    fn drain_member<O: Observer>(
        &mut self,
        batch: u32,
        member: u32,
        observer: &mut O,
    ) -> Result<(), Refusal>
        ensures { FollowsObserved O.Sees self.old observer.old (drain_member batch member self.old)
            result self.new observer.new }
    {
        for p in self.held_by(member).iter() {
            self.drain_log(batch, member, p, observer)?;
        }
        Ok(())
    }

    /// The partitions that a member's consumer holds.
    fn held_by(&self, member: u32) -> Plane
        ensures { result ≡ held_by self.now member }
    {
        let partitions = self.cluster().partitions();
        let mut held = Plane::new(partitions);
        if let Some(consumer) = self.consumer(member) {
            for p in 0..partitions {
                if consumer.holds(p) {
                    held.insert(p);
                }
            }
        }
        held
    }

    /// Reads and commits a log to its end. Each round commits at least one more record.
    fn drain_log<O: Observer>(
        &mut self,
        batch: u32,
        member: u32,
        p: u32,
        observer: &mut O,
    ) -> Result<(), Refusal>
        requires { p < self.old.cluster.group.partitions }
        ensures { FollowsObserved O.Sees self.old observer.old (drain_log batch member p self.old)
            result self.new observer.new }
    {
        for _ in 0..self.cluster().logs().len(p) {
            if self.is_read_up(member, p) {
                return Ok(());
            }
            self.read_on(batch, member, p, observer)?;
        }
        Ok(())
    }

    /// Whether a log is committed to its end, as far as a member's consumer has learnt.
    fn is_read_up(&self, member: u32, p: u32) -> bool
        requires { p < self.now.cluster.group.partitions }
        ensures { result ≡ is_read_up self.now member p }
    {
        let end = self.cluster().logs().len(p);
        self.consumer(member)
            .is_some_and(|consumer| consumer.base(p) == end)
    }

    /// Polls once, and commits what is pending.
    fn read_on<O: Observer>(
        &mut self,
        batch: u32,
        member: u32,
        p: u32,
        observer: &mut O,
    ) -> Result<(), Refusal>
        ensures { FollowsObserved O.Sees self.old observer.old (read_on batch member p self.old)
            result self.new observer.new }
    {
        let poll = Event::Poll {
            member,
            partition: p,
            records: batch,
        };
        self.attempt(poll, observer)?;
        self.commit_or_realign(member, p, observer)
    }
}
