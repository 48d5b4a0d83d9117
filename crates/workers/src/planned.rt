//! A cluster and the plan that is applied to it.

ghost use Rattle.std.specs.Prelude.{◌≡◌, ℕ, Ok, Err, IfErr, IfOk, IsTrue, OnErr, OnOk, length, replicate};
ghost use Rattle.lane_words.specs.Answers.{Answers};
ghost use Rattle.lane_words.specs.declared.Refusal.TheVariants as refusal;
ghost use Rattle.commit_store.specs.Commits.{AreEndsCommitted};
ghost use Rattle.group_machine.specs.State.{opening};
ghost use Rattle.group_machine.specs.Steps.{rejoin_answer, rejoined_by, synced_by};
ghost use Rattle.group_machine.specs.Cluster.{IsValidCluster, cluster_commit_answer, cluster_sync_answer, committed_at, committed_by, with_group};
ghost use Rattle.workers.specs.Plans.{changed_by, number_of};
ghost use Rattle.workers.specs.Private.Applied.{IsFinished, change_answer};
ghost use Rattle.workers.specs.Private.Turns.{IsTaskOf};
ghost use Rattle.workers.specs.Progress.{IsValidProgress, advanced, is_at_rest, is_due, regrouped};
ghost use Rattle.workers.specs.Runs.{IsRunOf};

use crate::fault::Fault;
use bit_planes::Plane;
use group_machine::{Cluster, Commit, Lease, Name, NextStep, Phase};
use lane_words::{Memory, Refusal};
use partition_log::{LogRead, Logs, SealedLogs};
use script::{Change, Plan};
use std::alloc::Global;
use std::marker::Model;
use std::thread::Threads;

/// A cluster and a plan of joins, leaves and losses, of which the first lines are applied.
///
/// Invariant: whenever the members sync, rejoin and commit, the rebalance ends in the state that
/// the applied lines determine. So any number of threads may share a `Planned` under a lock, and
/// the order in which they take the lock does not matter.
#[derive(Drop)]
pub struct Planned {
    cluster: Cluster,
    plan: Plan,
    /// The number of lines of the plan that were applied.
    applied: usize,
    /// The number of changes that a worker may have waited for.
    changes: u64,
    /// The result of the run, once it has ended.
    end: Option<Result<(), Fault>>,
}

impl Model for Planned {
    ghost use Rattle.workers.specs.Private.View.{IsValidPlanned, planned_view};
    ghost use Rattle.workers.specs.Progress.{Progress};

    ghost Value = { Progress };

    ghost view = { planned_view };

    ghost invariant = { IsValidPlanned };
}

impl Planned {
    /// A cluster over these logs, with nothing committed and nobody present, and a plan of which no
    /// line is applied yet. Fails only if memory runs out.
    pub fn new(alloc: Global, logs: Logs, plan: Plan) -> Result<Planned, Memory>
        ensures group { IfOk result (λ s. s.cluster.group ≡ opening logs.partitions) }
        ensures logs { IfOk result (λ s. s.cluster.logs ≡ logs) }
        ensures counters { IfOk result
            (λ s. s.cluster.store.counts ≡ replicate (length logs.keys) 0) }
        ensures offsets { IfOk result (λ s. (p : ℕ) → committed_at s.cluster.store p ≡ 0) }
        ensures plan { IfOk result (λ s. s.plan ≡ plan) }
        ensures applied { IfOk result (λ s. s.applied ≡ 0) }
        ensures valid { IfOk result IsValidProgress }
    {
        let cluster = Cluster::over(alloc, logs)?;
        Ok(Planned {
            cluster,
            plan,
            applied: 0,
            changes: 0,
            end: None,
        })
    }

    /// Applies the next line of the plan if one is left and no rebalance is under way, and returns
    /// whether it did. Fails only if memory runs out; then nothing has changed.
    pub fn advance(&mut self) -> Result<bool, Refusal>
        ensures answer { Answers (Ok (is_due self.old)) result }
        ensures ok { OnOk result (self.new ≡ advanced self.old) }
        ensures err { OnErr result (self.new ≡ self.old) }
        ensures valid { IsValidProgress self.new }
    {
        let Some(change) = self.plan.lines().get(self.applied) else {
            return Ok(false);
        };
        if !is_at_rest(&self.cluster) {
            return Ok(false);
        }
        apply(&mut self.cluster, change)?;
        self.applied += 1;
        self.changes = self.changes.wrapping_add(1);
        Ok(true)
    }

    /// A member syncs, see `Cluster::sync`.
    pub fn sync(&mut self, member: u32) -> Result<Lease, Refusal>
        ensures answer { Answers (cluster_sync_answer self.old.cluster member) result }
        ensures ok { OnOk result (self.new
            ≡ regrouped self.old (synced_by self.old.cluster.group member)) }
        ensures err { OnErr result (self.new ≡ self.old) }
    {
        self.cluster.sync(member)
    }

    /// A member rejoins, see `Cluster::rejoin`.
    pub fn rejoin(&mut self, member: u32, generation: u32, claim: &Plane) -> Result<(), Refusal>
        ensures answer { Answers
            (rejoin_answer self.old.cluster.group member generation claim.now) result }
        ensures ok { OnOk result (self.new
            ≡ regrouped self.old (rejoined_by self.old.cluster.group member)) }
        ensures err { OnErr result (self.new ≡ self.old) }
    {
        self.rejoin_announced(member, generation, claim)?;
        Ok(())
    }

    /// A member commits, see `Cluster::commit`. Takes no memory.
    pub fn commit(&mut self, commit: &Commit) -> Result<u32, Refusal>
        ensures answer { result ≡ cluster_commit_answer self.old.cluster commit.now }
        ensures ok { OnOk result (self.new
            ≡ record self.old { cluster = committed_by self.old.cluster commit.now }) }
        ensures err { OnErr result (self.new ≡ self.old) }
    {
        self.cluster.commit(commit)
    }

    /// The cluster.
    pub fn cluster(&self) -> &Cluster
        ensures cluster { result.now ≡ self.now.cluster }
        ensures valid { IsValidProgress self.now }
    {
        &self.cluster
    }

    /// The number of lines of the plan that were applied.
    pub fn applied(&self) -> u32
        ensures { result ≡ self.now.applied }
    {
        self.applied as u32
    }
}

/// What a worker does in a turn.
#[derive(Clone, Copy, Debug, PartialEq, Eq)]
pub enum Task {
    /// It waits: its member has not joined yet.
    Wait,
    /// It takes its member's next step.
    Step(NextStep),
    /// It ends: its member is gone, or the run has ended.
    End,
}

/// How a worker's turn starts.
#[derive(Clone, Copy, Debug, PartialEq, Eq)]
pub struct TurnStart {
    /// Whether a line of the plan was applied.
    pub is_advanced: bool,
    /// What the worker does.
    pub task: Task,
    /// The number of changes up to now.
    pub seen: u64,
}

/// What an idle worker does.
#[derive(Clone, Copy, Debug, PartialEq, Eq)]
pub enum IdleStep {
    /// It waits until something changes.
    Wait,
    /// It takes another turn: something has changed meanwhile.
    Retry,
    /// It wakes the others: the run has ended.
    Finished,
}

impl Planned {
    /// Starts a turn of a member's worker: applies the next line of the plan if it is due.
    pub(crate) fn start_turn(&mut self, member: u32) -> Result<TurnStart, Refusal>
        ensures is_advanced { IfOk result (λ start. start.is_advanced ≡ is_due self.old) }
        ensures task { IfOk result
            (λ start. IsTaskOf self.new.cluster.group member start.task) }
        ensures kind { IfErr result (λ why. why ≡ refusal.Memory) }
        ensures ok { OnOk result (self.new ≡ advanced self.old) }
        ensures err { OnErr result (self.new ≡ self.old) }
    {
        let is_advanced = self.advance()?;
        Ok(TurnStart {
            is_advanced,
            task: self.task(member),
            seen: self.changes,
        })
    }

    /// What a member's worker does next.
    fn task(&self, member: u32) -> Task
        ensures { IsTaskOf self.now.cluster.group member result }
    {
        if self.end.is_some() {
            Task::End
        } else if self.cluster.is_present(member) {
            Task::Step(self.cluster.next_step(member))
        } else if self.cluster.name(member).is_some() {
            Task::End
        } else {
            Task::Wait
        }
    }

    /// A member rejoins. Returns whether other workers may have waited for that: a rebalance has
    /// begun, or a generation is complete.
    pub(crate) fn rejoin_announced(
        &mut self,
        member: u32,
        generation: u32,
        claim: &Plane,
    ) -> Result<bool, Refusal>
        ensures value { OnOk result
            (rejoin_answer self.old.cluster.group member generation claim.now ≡ Ok tt) }
        ensures fault { IfErr result (λ why. Answers
            (rejoin_answer self.old.cluster.group member generation claim.now) (Err why)) }
        ensures ok { OnOk result (self.new
            ≡ regrouped self.old (rejoined_by self.old.cluster.group member)) }
        ensures err { OnErr result (self.new ≡ self.old) }
    {
        let before = (self.cluster.phase(), self.cluster.generation());
        self.cluster.rejoin(member, generation, claim)?;
        let is_announced = (self.cluster.phase(), self.cluster.generation()) != before;
        if is_announced {
            self.changes = self.changes.wrapping_add(1);
        }
        Ok(is_announced)
    }

    /// What a worker does that found nothing to do at `seen` changes. It ends a finished run.
    pub(crate) fn idle_step(&mut self, seen: u64) -> IdleStep
        ensures same { self.new ≡ self.old }
    {
        if self.end.is_some() || self.changes != seen {
            return IdleStep::Retry;
        }
        if !self.is_finished() {
            return IdleStep::Wait;
        }
        self.end = Some(Ok(()));
        self.changes = self.changes.wrapping_add(1);
        IdleStep::Finished
    }

    /// Ends the run with a fault, unless it has ended already.
    pub(crate) fn stop(&mut self, fault: Fault)
        ensures same { self.new ≡ self.old }
    {
        if self.end.is_none() {
            self.end = Some(Err(fault));
            self.changes = self.changes.wrapping_add(1);
        }
    }

    /// The cluster at the end of the run, if the run finished with these logs and this plan.
    pub(crate) fn outcome<R: Threads + Sync>(
        self,
        rt: &R,
        logs: &SealedLogs,
        plan: &Plan,
    ) -> Result<Cluster, Fault>
        ensures value { IfOk result (IsRunOf logs.now plan.now) }
        ensures valid { IfOk result IsValidCluster }
    {
        let came = self.run_result(rt, logs, plan);
        came.and(Ok(self.cluster))
    }

    /// Whether the run finished with these logs and this plan, or why not.
    fn run_result<R: Threads + Sync>(
        &self,
        rt: &R,
        logs: &SealedLogs,
        plan: &Plan,
    ) -> Result<(), Fault>
        ensures { OnOk result (IsRunOf logs.now plan.now self.now.cluster) }
    {
        if let Some(Err(fault)) = self.end {
            return Err(fault);
        }
        if !self.is_finished() || !self.plan.same(plan) || !logs.same(rt, self.cluster.logs()) {
            return Err(Fault::Differs);
        }
        Ok(())
    }

    /// Whether the run is finished: each line of the plan is applied, the group is settled, and
    /// each log is committed to its end.
    fn is_finished(&self) -> bool
        ensures { IsTrue result → IsFinished self.now }
    {
        self.applied == self.plan.lines().len()
            && self.cluster.is_settled()
            && are_ends_committed(&self.cluster)
    }
}

/// Whether each log is committed to its end.
fn are_ends_committed(cluster: &Cluster) -> bool
    ensures { IsTrue result → AreEndsCommitted cluster.now.store cluster.now.logs }
{
    for p in 0..cluster.partitions() {
        if cluster.store().committed(p) != cluster.logs().len(p) {
            return false;
        }
    }
    true
}

/// Whether no rebalance is under way: the group is empty or settled.
fn is_at_rest(cluster: &Cluster) -> bool
    ensures { result ≡ is_at_rest cluster.now.group }
{
    cluster.phase() == Phase::Empty || cluster.is_settled()
}

/// The number of the member that joined under a name; 0, which no member has, if none did.
fn number_of(cluster: &Cluster, name: &Name) -> u32
    ensures { result ≡ number_of cluster.now.group name.now }
{
    cluster.member_named(name).unwrap_or(0)
}

/// Applies one line of a plan.
fn apply(cluster: &mut Cluster, change: &Change) -> Result<(), Refusal>
    ensures answer { Answers (change_answer cluster.old.group change.now) result }
    ensures ok { OnOk result (cluster.new
        ≡ with_group cluster.old (changed_by cluster.old.group change.now)) }
    ensures err { OnErr result (cluster.new ≡ cluster.old) }
{
    match change {
        Change::Join(name) => {
            cluster.join(name.copy())?;
            Ok(())
        }
        Change::Leave(name) => cluster.leave(number_of(cluster, name)),
        Change::Lose(name) => cluster.lose(number_of(cluster, name)),
    }
}
