//! A run: one worker thread for each member of a plan, over one cluster.

ghost use Rattle.std.specs.Prelude.{◌≡◌, ◌≤◌, IfErr, IfOk};
ghost use Rattle.group_machine.specs.Cluster.{IsValidCluster};
ghost use Rattle.workers.specs.Runs.{IsRunOf, IsRunRefusal};

use crate::fault::Fault;
use crate::gate::{Gate, GateAnswer};
use crate::planned::{IdleStep, Planned, Task, TurnStart};
use crate::reader::Reader;
use bit_planes::Plane;
use group_machine::{Cluster, NextStep};
use lane_words::Refusal;
use partition_log::{LogRead, SealedLogs};
use script::Plan;
use std::alloc::Global;
use std::marker::Model;
use std::random::RandomSource;
use std::sync::{Condvar, Mutex, MutexGuard, Wait};
use std::thread::Threads;
use std::{hint, thread};

/// The result of a run.
#[derive(Drop)]
pub struct Outcome {
    cluster: Cluster,
}

impl Model for Outcome {
    ghost use Rattle.group_machine.specs.Cluster.{ClusterState};

    ghost Value = { ClusterState };

    ghost view = { λ o. o.cluster };
}

impl Outcome {
    /// The cluster at the end of the run.
    pub fn cluster(&self) -> &Cluster
        ensures { result.now ≡ self.now }
    {
        &self.cluster
    }
}

/// How often a thread tries the lock before it sleeps. The tries take longer than a commit of
/// `ENOUGH_RECORDS` records does, since sleeping and waking up takes longer still.
const SPIN_LIMIT: u32 = 4000;

/// The most polls that share one commit.
const MOST_POLLS: u32 = 32;

/// Once this many records are read, a commit takes no further poll and a turn no further partition.
const ENOUGH_RECORDS: u32 = 16_000;

/// How many polls of at most `batch` records share one commit. Batches of one record are committed
/// one by one, larger ones together.
///
/// A commit writes each counter once, however many of its records have that key, and counters that
/// another member wrote last are what the members wait for.
fn polls_together(batch: u32) -> u32
    requires { 1 ≤ batch }
{
    batch.min(MOST_POLLS).min(ENOUGH_RECORDS / batch).max(1)
}

/// What the threads of a run share.
#[derive(Drop)]
struct Shared<'a, G> {
    alloc: Global,
    planned: &'a Mutex<Planned>,
    /// Wakes workers that wait, after something changed.
    changed: &'a Condvar,
    logs: &'a SealedLogs,
    gate: &'a G,
    /// The most records of one poll.
    batch: u32,
    /// How many polls share one commit.
    polls: u32,
}

/// Runs a plan with one worker thread for each of its members, until each line is applied, the last
/// rebalance has ended and each log is committed to its end.
///
/// The workers share one lock on the cluster, which holds a copy of the logs, and read `logs`
/// without the lock. A worker polls at most `batch` records of a partition at a time (at least 1),
/// commits the records of several polls together, and asks `gate` before each commit. Owners,
/// moves, generation and counts do not depend on how the threads are scheduled.
///
/// It fails with `Memory` if memory or a thread cannot be had, `GateLimit` if the gate answers
/// `Stop`, and `Differs` if the logs or the plan under the lock differ from `logs` and `plan`.
pub fn run_cluster<R: Threads + Wait + RandomSource + Sync, G: Gate + Sync>(
    rt: &R,
    alloc: Global,
    logs: &SealedLogs,
    plan: &Plan,
    batch: u32,
    gate: &G,
) -> Result<Outcome, Refusal>
    requires { 1 ≤ batch }
    ensures value { IfOk result (IsRunOf logs.now plan.now) }
    ensures valid { IfOk result IsValidCluster }
    ensures fault { IfErr result IsRunRefusal }
{
    let planned = Planned::new(alloc, logs.copy(rt, alloc)?, plan.copy(alloc)?)?;
    let lock = Mutex::new(planned);
    let changed = Condvar::new();
    let shared = Shared {
        alloc,
        planned: &lock,
        changed: &changed,
        logs,
        gate,
        batch,
        polls: polls_together(batch),
    };
    start_all(rt, &shared, plan.members());
    match lock.into_inner().outcome(rt, logs, plan) {
        Ok(cluster) => Ok(Outcome { cluster }),
        Err(fault) => Err(fault.refusal()),
    }
}

/// Starts a worker for each member, and returns once all have ended.
fn start_all<R: Threads + Wait + Sync, G: Gate + Sync>(
    rt: &R,
    shared: &Shared<'_, G>,
    members: u32,
) {
    thread::scope(thread::scope_env(), rt, |scope| {
        for index in 0..members {
            if scope.spawn(move || work(rt, shared, index + 1)).is_err() {
                shared.stop(rt, Fault::Memory);
                break;
            }
        }
    });
}

/// What a worker's turn did.
enum Turn {
    /// It made some progress.
    Worked,
    /// There was nothing to do at this number of changes.
    Idle(u64),
    /// There is nothing left to do.
    Finished,
}

/// Takes a member's turns until the member is gone or the run has ended.
fn work<R: Wait, G: Gate>(rt: &R, shared: &Shared<'_, G>, member: u32) {
    let Ok(mut reader) = Reader::new(shared.alloc, shared.logs, member) else {
        return shared.stop(rt, Fault::Memory);
    };
    for _ in rt.forever() {
        match shared.take_turn(rt, &mut reader) {
            Ok(Turn::Worked) => {}
            Ok(Turn::Idle(seen)) => shared.wait_for_change(rt, seen),
            Ok(Turn::Finished) => break,
            Err(fault) => {
                shared.stop(rt, fault);
                break;
            }
        }
    }
}

impl<'a, G: Gate> Shared<'a, G> {
    /// Takes one turn of a member.
    fn take_turn<R: Wait>(&self, rt: &R, reader: &mut Reader<'_>) -> Result<Turn, Fault> {
        let start = self.start_turn(rt, reader.member())?;
        match start.task {
            Task::Wait => return Ok(Turn::Idle(start.seen)),
            Task::Step(NextStep::Sync) => self.sync(rt, reader)?,
            Task::Step(NextStep::Rejoin) => self.rejoin(rt, reader)?,
            Task::Step(NextStep::Read) => {
                if !self.read(rt, reader)? {
                    return Ok(Turn::Idle(start.seen));
                }
            }
            Task::End => return Ok(Turn::Finished),
        }
        Ok(Turn::Worked)
    }

    /// Starts a turn under one lock, and wakes the others if a line of the plan was applied.
    fn start_turn<R: Wait>(&self, rt: &R, member: u32) -> Result<TurnStart, Fault> {
        let start = self.lock(rt).start_turn(member);
        let Ok(start) = start else {
            return Err(Fault::Memory);
        };
        if start.is_advanced {
            self.changed.notify_all();
        }
        Ok(start)
    }

    /// A member takes its lease. If the group has moved on meanwhile, the sync is refused, and the
    /// next turn sees the new state.
    fn sync<R: Wait>(&self, rt: &R, reader: &mut Reader<'_>) -> Result<(), Fault> {
        let lease = self.lock(rt).sync(reader.member());
        match lease {
            Ok(lease) => reader.take(&lease),
            Err(Refusal::Memory) => Err(Fault::Memory),
            Err(_) => Ok(()),
        }
    }

    /// A member commits what is pending of the partitions that it gives up, and rejoins. If the
    /// group has moved on meanwhile, the rejoin is refused, and the next turn sees the new state.
    fn rejoin<R: Wait>(&self, rt: &R, reader: &mut Reader<'_>) -> Result<(), Fault> {
        let claim = reader.claim();
        self.commit_surplus(rt, reader, &claim)?;
        let answer = self
            .lock(rt)
            .rejoin_announced(reader.member(), reader.generation(), &claim);
        match answer {
            Ok(is_announced) => {
                reader.give_up();
                if is_announced {
                    self.changed.notify_all();
                }
            }
            Err(Refusal::Memory) => return Err(Fault::Memory),
            Err(_) => {}
        }
        Ok(())
    }

    /// Commits what is pending of the partitions that a member holds and does not claim.
    fn commit_surplus<R: Wait>(
        &self,
        rt: &R,
        reader: &mut Reader<'_>,
        claim: &Plane,
    ) -> Result<(), Fault> {
        for p in 0..self.logs.partitions() {
            if reader.holds(p) && !claim.contains(p) {
                self.commit_pending(rt, reader, p)?;
            }
        }
        Ok(())
    }

    /// Reads the partitions that a member claims, one after the other, and commits what it read.
    /// Stops once that is enough for a turn, so that a rebalance does not wait for this member for
    /// long. Returns whether there was anything to commit.
    fn read<R: Wait>(&self, rt: &R, reader: &mut Reader<'_>) -> Result<bool, Fault> {
        let (mut is_any_read, mut read) = (false, 0_u32);
        for p in reader.claim().iter() {
            read = read.saturating_add(reader.read_on(p, self.polls, self.batch));
            is_any_read |= self.commit_pending(rt, reader, p)?;
            if read >= ENOUGH_RECORDS {
                break;
            }
        }
        Ok(is_any_read)
    }

    /// Commits what is pending of a partition if the gate lets it. Returns whether anything was
    /// pending.
    fn commit_pending<R: Wait>(
        &self,
        rt: &R,
        reader: &mut Reader<'_>,
        p: u32,
    ) -> Result<bool, Fault> {
        let Some(commit) = reader.pending(p)? else {
            return Ok(false);
        };
        match self.gate.ask(reader.member(), reader.generation()) {
            GateAnswer::Go => {
                let reply = self.lock(rt).commit(&commit);
                reader.learn(p, reply)?;
            }
            GateAnswer::NotNow => {}
            GateAnswer::Stop => return Err(Fault::GateLimit),
        }
        Ok(true)
    }

    /// Waits until something changes, unless it has changed since `seen`. The worker that finds the
    /// run finished wakes the others.
    fn wait_for_change<R: Wait>(&self, rt: &R, seen: u64) {
        let mut planned = self.lock(rt);
        match planned.idle_step(seen) {
            IdleStep::Wait => {
                let _woken = self.changed.wait(rt, planned);
            }
            IdleStep::Retry => {}
            IdleStep::Finished => self.changed.notify_all(),
        }
    }

    /// Locks the shared state. It is held for less time than it takes to put a thread to sleep and
    /// wake it, so a thread that finds the lock taken spins for a while.
    fn lock<R: Wait>(&self, rt: &R) -> MutexGuard<'_, Planned> {
        for _ in 0..SPIN_LIMIT {
            if let Some(planned) = self.planned.try_lock() {
                return planned;
            }
            hint::spin_loop();
        }
        self.planned.lock(rt)
    }

    /// Ends the run with a fault, and wakes all workers.
    fn stop<R: Wait>(&self, rt: &R, fault: Fault) {
        self.lock(rt).stop(fault);
        self.changed.notify_all();
    }
}
