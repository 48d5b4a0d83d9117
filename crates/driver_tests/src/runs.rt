//! Tests of runs: worked rows, gates that hold workers back, and the largest group.

ghost use Rattle.std.specs.Prelude.{◌≤◌};

use crate::groups::five_sealed;
use crate::plans::plan_of;
use group_machine::{Cluster, Move};
use lane_words::{MOST_MEMBERS, Refusal};
use partition_log::{Logs, SealedLogs};
use script::Plan;
use std::alloc::{AllocError, Global};
use std::random::RandomSource;
use std::sync::Wait;
use std::sync::atomic::{AtomicBool, AtomicU32, Ordering};
use std::thread::Threads;
use workers::GateAnswer::{Go, NotNow, Stop};
use workers::{Gate, GateAnswer, Outcome, Planned, run_cluster};

// A function that owns logs, a plan or an outcome makes few calls: each `?` and each assertion is
// proved together with the code that drops these.

/// A run of a plan, without the contract of the call.
fn run<R: Threads + Wait + RandomSource + Sync, G: Gate + Sync>(
    rt: &R,
    alloc: Global,
    logs: &SealedLogs,
    plan: &Plan,
    batch: u32,
    gate: &G,
) -> Result<Outcome, Refusal>
    requires { 1 ≤ batch }
{
    run_cluster(rt, alloc, logs, plan, batch, gate)
}

/// A gate that is always open.
#[derive(Drop)]
struct Open;

impl Gate for Open {
    fn ask(&self, _member: u32, _generation: u32) -> GateAnswer {
        Go
    }
}

/// A gate that answers the first questions in one way, and the rest in another.
#[derive(Drop)]
struct Counting {
    asked: AtomicU32,
    first: u32,
    before: GateAnswer,
    after: GateAnswer,
}

impl Counting {
    fn new(first: u32, before: GateAnswer, after: GateAnswer) -> Counting {
        Counting {
            asked: AtomicU32::new(0),
            first,
            before,
            after,
        }
    }
}

impl Gate for Counting {
    fn ask(&self, _member: u32, _generation: u32) -> GateAnswer {
        if self.asked.fetch_add(1, Ordering::SeqCst) < self.first {
            self.before
        } else {
            self.after
        }
    }
}

/// A move of the first generation, in which the first member gets all partitions.
fn taken(partition: u32) -> Move {
    Move {
        generation: 1,
        partition,
        last: None,
        holder: 1,
    }
}

/// A move between members.
fn moved(generation: u32, partition: u32, last: u32, holder: u32) -> Move {
    Move {
        generation,
        partition,
        last: Some(last),
        holder,
    }
}

/// Whether these are the owners of the partitions, in order.
fn owners_are(cluster: &Cluster, owners: &[u32]) -> bool {
    for (p, owner) in (0..).zip(owners) {
        if cluster.owner(p) != Some(*owner) {
            return false;
        }
    }
    true
}

/// Whether all five records are committed and counted, in a group of this generation with these
/// owners.
fn ends_with(outcome: &Outcome, generation: u32, owners: &[u32]) -> bool {
    let cluster = outcome.cluster();
    cluster.generation() == generation
        && owners_are(cluster, owners)
        && cluster.store().offsets() == [2, 1, 1, 1].as_slice()
        && cluster.store().counts() == [2, 1, 1, 1].as_slice()
}

/// The moves by which two of four partitions go from the first member to the second.
fn two_members_moves() -> [Move; 6] {
    [
        taken(0),
        taken(1),
        taken(2),
        taken(3),
        moved(3, 2, 1, 2),
        moved(3, 3, 1, 2),
    ]
}

/// The plan of two joins.
const TWO_JOINS: &[u8] = b"join A\njoin B\n";

/// Whether a run ended as the plan of two joins does.
fn is_two_members(outcome: &Outcome) -> bool {
    ends_with(outcome, 3, &[1, 1, 2, 2])
        && outcome.cluster().moves() == two_members_moves().as_slice()
}

/// Whether the first member went in the end, and the second has all partitions.
fn is_one_left(outcome: &Outcome) -> bool {
    let moves = outcome.cluster().moves();
    ends_with(outcome, 4, &[2, 2, 2, 2])
        && moves.starts_with(&two_members_moves())
        && moves.ends_with(&[moved(4, 0, 1, 2), moved(4, 1, 1, 2)])
        && moves.len() == 8
}

/// Whether the largest possible number of members is present.
fn is_full(cluster: &Cluster) -> bool {
    for member in 1..MOST_MEMBERS as u32 + 1 {
        if !cluster.is_present(member) {
            return false;
        }
    }
    true
}

/// Whether all members are present at the end of a run.
fn are_all_present(outcome: &Outcome) -> bool {
    let cluster = outcome.cluster();
    ends_with(outcome, cluster.generation(), &[1, 4, 2, 3]) && is_full(cluster)
}

/// The end of a run.
#[derive(Clone, Copy)]
enum End {
    /// Two members have two partitions each.
    TwoMembers,
    /// The first of them went, and the second has all partitions.
    OneLeft,
    /// The largest possible number of members is present.
    AllPresent,
}

/// Whether a run ended so.
fn is_end(outcome: &Outcome, end: End) -> bool {
    match end {
        End::TwoMembers => is_two_members(outcome),
        End::OneLeft => is_one_left(outcome),
        End::AllPresent => are_all_present(outcome),
    }
}

/// A run of a test: its script, its batch, its gate, and the end that is expected.
#[derive(Drop)]
struct Case<'a, G> {
    script: &'a [u8],
    batch: u32,
    gate: &'a G,
    end: End,
}

/// Whether a run of this plan over these logs ends as expected. No other function owns an outcome.
fn plan_ends<R: Threads + Wait + RandomSource + Sync, G: Gate + Sync>(
    rt: &R,
    alloc: Global,
    logs: &SealedLogs,
    plan: &Plan,
    case: &Case<'_, G>,
) -> Result<bool, Refusal>
    requires { 1 ≤ case.now.batch }
{
    let outcome = run(rt, alloc, logs, plan, case.batch, case.gate)?;
    Ok(is_end(&outcome, case.end))
}

/// Whether a run over these logs ends as expected.
fn case_ends_over<R: Threads + Wait + RandomSource + Sync, G: Gate + Sync>(
    rt: &R,
    alloc: Global,
    logs: &SealedLogs,
    case: &Case<'_, G>,
) -> Result<bool, Refusal>
    requires { 1 ≤ case.now.batch }
{
    let plan = plan_of(alloc, case.script)?;
    plan_ends(rt, alloc, logs, &plan, case)
}

/// Whether a run over the five records ends as expected.
fn case_ends<R: Threads + Wait + RandomSource + Sync, G: Gate + Sync>(
    rt: &R,
    alloc: Global,
    case: &Case<'_, G>,
) -> Result<bool, Refusal>
    requires { 1 ≤ case.now.batch }
{
    let logs = five_sealed(rt, alloc)?;
    case_ends_over(rt, alloc, &logs, case)
}

/// Whether the plan of two joins ends as expected.
fn two_join<R: Threads + Wait + RandomSource + Sync, G: Gate + Sync>(
    rt: &R,
    alloc: Global,
    batch: u32,
    gate: &G,
) -> Result<bool, Refusal>
    requires { 1 ≤ batch }
{
    let case = Case {
        script: TWO_JOINS,
        batch,
        gate,
        end: End::TwoMembers,
    };
    case_ends(rt, alloc, &case)
}

#[test]
fn two_members(rt: HostRuntime) {
    let one_by_one = two_join(&rt, rt.alloc(), 1, &Open);
    let by_many = two_join(&rt, rt.alloc(), 500, &Open);
    assert_eq!(rt; (one_by_one, by_many), (Ok(true), Ok(true)));
}

/// Whether one member is left at the end of a plan.
fn leaves_one<R: Threads + Wait + RandomSource + Sync>(
    rt: &R,
    alloc: Global,
    script: &[u8],
    batch: u32,
) -> Result<bool, Refusal>
    requires { 1 ≤ batch }
{
    let case = Case {
        script,
        batch,
        gate: &Open,
        end: End::OneLeft,
    };
    case_ends(rt, alloc, &case)
}

#[test]
fn one_leaves(rt: HostRuntime) {
    let leave = b"join A\njoin B\nleave A\n";
    let one_by_one = leaves_one(&rt, rt.alloc(), leave, 1);
    let by_many = leaves_one(&rt, rt.alloc(), leave, 500);
    assert_eq!(rt; (one_by_one, by_many), (Ok(true), Ok(true)));
    let lose = b"join A\njoin B\nlose A\n";
    assert_eq!(rt; leaves_one(&rt, rt.alloc(), lose, 1), Ok(true));
}

/// What a gate has seen of one of two members.
#[derive(Drop)]
struct Side {
    asked: AtomicU32,
    flag: AtomicBool,
}

impl Side {
    fn new() -> Side {
        Side {
            asked: AtomicU32::new(0),
            flag: AtomicBool::new(false),
        }
    }

    /// The number of this question, from 0. The second raises the flag.
    fn question(&self) -> u32 {
        let question = self.asked.fetch_add(1, Ordering::SeqCst);
        if question == 1 {
            self.flag.store(true, Ordering::SeqCst);
        }
        question
    }

    fn is_up(&self) -> bool {
        self.flag.load(Ordering::SeqCst)
    }

    /// Goes once the flag is up.
    fn wait(&self) -> GateAnswer {
        for _ in 0..1_000_000_000u64 {
            if self.is_up() {
                return Go;
            }
        }
        Stop
    }
}

/// A gate that holds each of two members back until the other has gone on. Below generation 3
/// nobody commits. Then a member's second question raises its flag; the second member's first
/// question waits for the first member's flag, and the first member's second question for the
/// second member's flag.
#[derive(Drop)]
struct Handshake {
    first: Side,
    second: Side,
}

impl Gate for Handshake {
    fn ask(&self, member: u32, generation: u32) -> GateAnswer {
        if generation < 3 {
            return NotNow;
        }
        if member == 1 && self.first.question() == 1 {
            return self.second.wait();
        }
        if member == 2 && self.second.question() == 0 {
            return self.first.wait();
        }
        Go
    }
}

/// Whether two members join under this gate, and whether both flags are up then.
fn both_go_on<R: Threads + Wait + RandomSource + Sync>(
    rt: &R,
    alloc: Global,
    gate: &Handshake,
) -> Result<(bool, bool), Refusal> {
    let joined = two_join(rt, alloc, 500, gate)?;
    Ok((joined, gate.first.is_up() && gate.second.is_up()))
}

#[test]
fn other_worker_held(rt: HostRuntime) {
    let gate = Handshake {
        first: Side::new(),
        second: Side::new(),
    };
    assert_eq!(rt; both_go_on(&rt, rt.alloc(), &gate), Ok((true, true)));
}

/// Whether a run was stopped by its gate, or ended as expected after all five commits.
fn is_stopped(came_to_end: Result<bool, Refusal>, asked_before: u32) -> bool {
    match came_to_end {
        Ok(is_end) => asked_before >= 5 && is_end,
        Err(why) => why == Refusal::GateLimit,
    }
}

/// Whether a run is stopped by a gate that lets `before` questions pass.
fn stops_after<R: Threads + Wait + RandomSource + Sync>(
    rt: &R,
    alloc: Global,
    before: u32,
) -> bool {
    let gate = Counting::new(before, Go, Stop);
    is_stopped(two_join(rt, alloc, 1, &gate), before)
}

#[test]
fn a_gate_that_stops(rt: HostRuntime) {
    for before in 0..8 {
        assert!(rt; stops_after(&rt, rt.alloc(), before));
    }
}

/// Whether two members join under a gate that holds the first `first` questions back.
fn joins_after<R: Threads + Wait + RandomSource + Sync>(
    rt: &R,
    alloc: Global,
    first: u32,
) -> Result<bool, Refusal> {
    let gate = Counting::new(first, NotNow, Go);
    two_join(rt, alloc, 500, &gate)
}

#[test]
fn a_gate_that_holds_back(rt: HostRuntime) {
    for first in 0..51 {
        assert_eq!(rt; joins_after(&rt, rt.alloc(), first), Ok(true));
    }
}

/// This plan over these logs, with no line applied.
fn planned_of(alloc: Global, logs: Logs, plan: Plan) -> Result<Planned, Refusal> {
    Ok(Planned::new(alloc, logs, plan)?)
}

/// The plan of two joins, over these logs.
fn planned_over(alloc: Global, logs: Logs) -> Result<Planned, Refusal> {
    let plan = plan_of(alloc, TWO_JOINS)?;
    planned_of(alloc, logs, plan)
}

/// The same, over a copy of the five records.
fn planned<R: Threads + Sync + RandomSource>(rt: &R, alloc: Global) -> Result<Planned, Refusal> {
    let logs = five_copied(rt, alloc)?;
    planned_over(alloc, logs)
}

/// A copy of the logs with the five records.
fn five_copied<R: Threads + Sync + RandomSource>(rt: &R, alloc: Global) -> Result<Logs, Refusal> {
    let logs = five_sealed(rt, alloc)?;
    Ok(logs.copy(rt, alloc)?)
}

/// A call on a `Planned`, or a check of it.
#[derive(Clone, Copy)]
enum Step {
    /// Exactly this many more lines can be applied now, and are.
    Advance(u32),
    /// A member syncs and rejoins.
    Rejoin(u32),
    /// The group is settled in this generation, with this many lines applied.
    Settled(u32, u32),
}

/// Applies lines, and returns whether exactly `lines` of them could be applied.
fn advances_by(planned: &mut Planned, lines: u32) -> Result<bool, Refusal> {
    for _ in 0..lines {
        if !planned.advance()? {
            return Ok(false);
        }
    }
    Ok(!planned.advance()?)
}

/// A member syncs and rejoins.
fn rejoin(planned: &mut Planned, member: u32) -> Result<(), Refusal> {
    let lease = planned.sync(member)?;
    planned.rejoin(member, lease.generation(), lease.assigned())
}

/// Whether the group is settled in this generation.
fn is_settled_in(planned: &Planned, generation: u32) -> bool {
    planned.cluster().is_settled() && planned.cluster().generation() == generation
}

/// Makes a step, and returns whether it goes as expected.
fn goes(planned: &mut Planned, step: Step) -> Result<bool, Refusal> {
    match step {
        Step::Advance(lines) => advances_by(planned, lines),
        Step::Rejoin(member) => {
            rejoin(planned, member)?;
            Ok(true)
        }
        Step::Settled(generation, lines) => {
            Ok(is_settled_in(planned, generation) && planned.applied() == lines)
        }
    }
}

/// The index of the first step that does not go as expected.
fn first_other(planned: &mut Planned, steps: &[Step]) -> Result<Option<usize>, Refusal> {
    for (index, step) in steps.iter().enumerate() {
        if !goes(planned, *step)? {
            return Ok(Some(index));
        }
    }
    Ok(None)
}

/// The same, on the plan of two joins.
fn first_other_of_two<R: Threads + Sync + RandomSource>(
    rt: &R,
    alloc: Global,
    steps: &[Step],
) -> Result<Option<usize>, Refusal> {
    let mut planned = planned(rt, alloc)?;
    first_other(&mut planned, steps)
}

/// The lines of the plan of two joins are applied one after the other.
const EACH_LINE: [Step; 7] = [
    Step::Advance(2),
    Step::Rejoin(1),
    Step::Advance(0),
    Step::Rejoin(1),
    Step::Rejoin(2),
    Step::Settled(3, 2),
    Step::Advance(0),
];

#[test]
fn lines_are_applied_one_by_one(rt: HostRuntime) {
    assert_eq!(rt; first_other_of_two(&rt, rt.alloc(), &EACH_LINE), Ok(None));
}

fn digit(n: u32) -> u8 {
    b'0'.wrapping_add((n % 10) as u8)
}

/// Adds a join for each possible member.
fn add_joins(script: &mut Vec<u8>) -> Result<(), AllocError> {
    for n in 0..MOST_MEMBERS as u32 {
        script.extend_from_slice(b"join ")?;
        script.extend_from_slice(&[digit(n / 100), digit(n / 10), digit(n), b'\n'])?;
    }
    Ok(())
}

/// A script of these joins.
fn all_join(alloc: Global) -> Result<Vec<u8>, AllocError> {
    let mut script = Vec::new(alloc);
    let done = add_joins(&mut script);
    done.and(Ok(script))
}

/// Whether all members are present at the end of its run.
fn most_join<R: Threads + Wait + RandomSource + Sync>(
    rt: &R,
    alloc: Global,
) -> Result<bool, Refusal> {
    let script = all_join(alloc)?;
    let case = Case {
        script: &script,
        batch: 500,
        gate: &Open,
        end: End::AllPresent,
    };
    case_ends(rt, alloc, &case)
}

#[test]
fn the_most_members_join(rt: HostRuntime) {
    assert_eq!(rt; most_join(&rt, rt.alloc()), Ok(true));
}
