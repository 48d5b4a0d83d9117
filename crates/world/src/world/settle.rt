//! Settles a world: brings each member to the end of the rebalance.

ghost use Rattle.std.specs.Prelude.{◌≡◌, ◌≢◌, ◌||◌, Err, MatchOption, OnOk, length, true, false};
ghost use Rattle.std.specs.List.{list_all};
ghost use Rattle.lane_words.specs.declared.Refusal.TheVariants as refusal;
ghost use Rattle.bit_planes.specs.PartitionSet.{elements};
ghost use Rattle.group_machine.specs.NextSteps.{has_to_rejoin};
ghost use Rattle.group_machine.specs.State.{is_joined, is_present, is_synced, members};
ghost use Rattle.group_laws.specs.Rounds.{without_flags, rebalance_result};
ghost use Rattle.group_laws.specs.Passes.{is_settled_and_synced};
ghost use Rattle.world.specs.Courses.{Follows, for_each, happens};
ghost use Rattle.world.specs.Observing.{FollowsObserved};
ghost use Rattle.world.specs.Settling.{commit_pending, flush, forgiven, is_pending, pass, passes, rejoin_if_due, settling, sync_if_new, turn};
ghost use Rattle.world.specs.Valid.{IsValidWorld};
ghost use Rattle.world.specs.Private.Turns.{GivesUp};

use super::World;
use crate::event::{Event, Reply};
use crate::observer::{Observer, Unobserved};
use bit_planes::Plane;
use group_machine::{NextStep, Phase};
use lane_words::Refusal;

/// The most passes that it takes to settle: two completions, and what comes before and after them.
const MOST_PASSES: usize = 4;

impl World {
    /// Brings the group to the end of its rebalance, in at most four passes. In each, every present
    /// member, in rising order of numbers, takes its next step: it syncs if it is new to the
    /// generation, and rejoins if it has partitions to give up or a generation is being prepared.
    /// Before it rejoins, it commits what is pending of the partitions that it gives up.
    ///
    /// Fails with `NobodyPresent`, and then nothing has changed; or with the first event that is
    /// refused (`MailFull`, `GenerationsOver` or `Memory`), where earlier events stand.
    pub fn settle(&mut self) -> Result<(), Refusal>
        ensures step { Follows self.old (settling self.old) result self.new }
        ensures kind { result ≢ Err refusal.NotSettled }
        ensures settled { OnOk result (is_settled_and_synced self.new.cluster.group ≡ true) }
        ensures end { OnOk result (without_flags self.new.cluster.group
            ≡ rebalance_result self.old.cluster.group) }
        ensures valid { IsValidWorld self.new }
    {
        self.settle_observed(&mut Unobserved)
    }

    /// The same. The observer sees each event after it came about, a refused one too. If it fails,
    /// so does the call, with `Memory`, and the events so far stand.
    pub fn settle_observed<O: Observer>(&mut self, observer: &mut O) -> Result<(), Refusal>
        ensures step { FollowsObserved O.Sees self.old observer.old (settling self.old) result
            self.new observer.new }
        ensures kind { result ≢ Err refusal.NotSettled }
        ensures settled { OnOk result (is_settled_and_synced self.new.cluster.group ≡ true) }
        ensures end { OnOk result (without_flags self.new.cluster.group
            ≡ rebalance_result self.old.cluster.group) }
        ensures valid { IsValidWorld self.new }
    {
        match self.cluster().phase() {
            Phase::Empty => Err(Refusal::NobodyPresent),
            Phase::Preparing | Phase::Stable => self.make_passes(observer),
        }
    }

    /// Makes passes until the group is settled and synced.
    fn make_passes<O: Observer>(&mut self, observer: &mut O) -> Result<(), Refusal>
        ensures { FollowsObserved O.Sees self.old observer.old (passes 4 self.old)
            result self.new observer.new }
    {
        for _ in 0..MOST_PASSES {
            if self.is_settled_and_synced() {
                return Ok(());
            }
            self.make_pass(observer)?;
        }
        if self.is_settled_and_synced() {
            return Ok(());
        }
        Err(Refusal::NotSettled)
    }

    /// Whether the group is settled, and each member has synced.
    fn is_settled_and_synced(&self) -> bool
        ensures { result ≡ is_settled_and_synced self.now.cluster.group }
    {
        self.cluster().is_settled() && self.has_everybody_synced()
    }

    /// Whether each present member has synced.
    fn has_everybody_synced(&self) -> bool
        ensures { result ≡ list_all (is_synced self.now.cluster.group)
            (members self.now.cluster.group) }
    {
        let cluster = self.cluster();
        for member in cluster.members() {
            if !cluster.is_synced(member) {
                return false;
            }
        }
        true
    }

    /// Each present member takes a turn.
    fn make_pass<O: Observer>(&mut self, observer: &mut O) -> Result<(), Refusal>
        ensures { FollowsObserved O.Sees self.old observer.old (pass self.old)
            result self.new observer.new }
    {
        for index in 0..self.last_member() {
            if self.cluster().is_present(index + 1) {
                self.take_turn(index + 1, observer)?;
            }
        }
        Ok(())
    }

    /// The highest number of a member.
    pub(super) fn last_member(&self) -> u32
        ensures { result ≡ length self.now.cluster.group.slots }
    {
        self.parts.consumers.len() as u32
    }

    /// One member takes a turn.
    fn take_turn<O: Observer>(&mut self, member: u32, observer: &mut O) -> Result<(), Refusal>
        requires { is_present self.old.cluster.group member ≡ true }
        ensures { FollowsObserved O.Sees self.old observer.old (turn member self.old)
            result self.new observer.new }
    {
        self.sync_if_new(member, observer)?;
        self.rejoin_if_due(member, observer)
    }

    /// Syncs a member that has neither joined nor synced.
    fn sync_if_new<O: Observer>(&mut self, member: u32, observer: &mut O) -> Result<(), Refusal>
        ensures { FollowsObserved O.Sees self.old observer.old (sync_if_new member self.old)
            result self.new observer.new }
    {
        match self.cluster().next_step(member) {
            NextStep::Sync => self.attempt(Event::Sync(member), observer),
            NextStep::Rejoin | NextStep::Read => Ok(()),
        }
    }

    /// Rejoins a member that has to, after it committed what is pending of what it gives up.
    fn rejoin_if_due<O: Observer>(&mut self, member: u32, observer: &mut O) -> Result<(), Refusal>
        requires present { is_present self.old.cluster.group member ≡ true }
        requires state { (is_joined self.old.cluster.group member
            || is_synced self.old.cluster.group member) ≡ true }
        ensures { FollowsObserved O.Sees self.old observer.old (rejoin_if_due member self.old)
            result self.new observer.new }
    {
        let Some(given) = self.given_up_by(member) else {
            return Ok(());
        };
        self.flush_all(member, &given, observer)?;
        self.attempt(Event::Rejoin(member), observer)
    }

    /// The partitions that a present member gives up by its rejoin, if it has to rejoin.
    fn given_up_by(&self, member: u32) -> Option<Plane>
        requires present { is_present self.now.cluster.group member ≡ true }
        requires state { (is_joined self.now.cluster.group member
            || is_synced self.now.cluster.group member) ≡ true }
        ensures { MatchOption result (has_to_rejoin self.now.cluster.group member ≡ false)
            (GivesUp self.now.cluster.group member) }
    {
        let cluster = self.cluster();
        match cluster.next_step(member) {
            NextStep::Rejoin => {
                let granted = cluster.granted(member)?;
                Some(granted.minus(cluster.assigned(member)?))
            }
            NextStep::Sync | NextStep::Read => None,
        }
    }

    /// Commits what is pending of some partitions, one after the other.
    fn flush_all<O: Observer>(
        &mut self,
        member: u32,
        given: &Plane,
        observer: &mut O,
    ) -> Result<(), Refusal>
        ensures { FollowsObserved O.Sees self.old observer.old
            (for_each (elements given.now) (flush member) self.old)
            result self.new observer.new }
    {
        for p in given.iter() {
            self.flush(member, p, observer)?;
        }
        Ok(())
    }

    /// Commits what is pending of a partition, and after a mismatch once more what is left.
    fn flush<O: Observer>(&mut self, member: u32, p: u32, observer: &mut O) -> Result<(), Refusal>
        ensures { FollowsObserved O.Sees self.old observer.old (flush member p self.old)
            result self.new observer.new }
    {
        self.commit_or_realign(member, p, observer)?;
        self.commit_pending(member, p, observer)
    }

    /// Commits what is pending of a partition. Another committed offset is no failure: it realigns
    /// the consumer.
    pub(super) fn commit_or_realign<O: Observer>(
        &mut self,
        member: u32,
        p: u32,
        observer: &mut O,
    ) -> Result<(), Refusal>
        ensures { FollowsObserved O.Sees self.old observer.old
            (forgiven (commit_pending member p self.old))
            result self.new observer.new }
    {
        match self.commit_pending(member, p, observer) {
            Err(Refusal::OffsetMismatch { .. }) => Ok(()),
            answer => answer,
        }
    }

    /// Sends what is pending of a partition, and delivers the commit.
    fn commit_pending<O: Observer>(
        &mut self,
        member: u32,
        p: u32,
        observer: &mut O,
    ) -> Result<(), Refusal>
        ensures { FollowsObserved O.Sees self.old observer.old (commit_pending member p self.old)
            result self.new observer.new }
    {
        if !self.is_pending(member, p) {
            return Ok(());
        }
        let send = Event::Send {
            member,
            partition: p,
        };
        self.attempt(send, observer)?;
        self.attempt(Event::Deliver(self.mail().len() as u32), observer)
    }

    /// Whether a member's consumer has something pending of a partition.
    fn is_pending(&self, member: u32, p: u32) -> bool
        ensures { result ≡ is_pending self.now member p }
    {
        self.consumer(member)
            .is_some_and(|consumer| consumer.sendable(p).is_ok())
    }

    /// Makes one event, which the observer sees, and returns its refusal, if it is refused.
    pub(super) fn attempt<O: Observer>(
        &mut self,
        event: Event<'_>,
        observer: &mut O,
    ) -> Result<(), Refusal>
        ensures { FollowsObserved O.Sees self.old observer.old (happens event.entry self.old)
            result self.new observer.new }
    {
        let reply = self.step(event);
        if reply == Reply::Refused(Refusal::Memory) {
            return Err(Refusal::Memory);
        }
        observer.see(event, reply, self)?;
        reply.answer()
    }
}
