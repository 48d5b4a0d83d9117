//! Tests of the cluster: worked rows, each call once, and the most members and partitions.

ghost use Rattle.std.specs.Prelude.{◌≤◌};

use bit_planes::Plane;
use group_machine::{Cluster, Commit, Move, Name, Phase};
use keyed_table::Partial;
use lane_words::{MOST_MEMBERS, MOST_PARTITIONS, Memory, Refusal};
use partition_log::{LogRead, Logs, SealedLogs};
use std::alloc::Global;
use std::process::Abort;
use std::random::RandomSource;
use std::thread::Threads;

// The calls, without their contracts.

fn take_over(cluster: &mut Cluster, name: &Name) -> Result<u32, Refusal> {
    cluster.take_over(name)
}

/// A cluster over these logs.
fn over(alloc: Global, logs: Logs) -> Result<Cluster, Refusal> {
    Ok(Cluster::over(alloc, logs)?)
}

/// Whether a set has these elements and no others.
fn is(set: &Plane, list: &[u32]) -> bool {
    for q in list {
        if !set.contains(*q) {
            return false;
        }
    }
    set.count() as usize == list.len()
}

/// A move: generation, partition, last holder and holder.
type Moved = (u32, u32, Option<u32>, u32);

/// A call on a cluster of four partitions with its answer, or a check of the cluster.
///
/// A test is a list of steps that one loop makes: a sequence of calls would be proved over the
/// contracts of all of them, which takes minutes.
#[derive(Clone, Copy)]
enum Step<'a> {
    /// A member joins under this name.
    Join(&'a [u8], Result<u32, Refusal>),
    /// A static member joins under this name.
    JoinKept(&'a [u8], Result<u32, Refusal>),
    /// A new member takes over the seat of this name.
    TakeOver(&'a [u8], Result<u32, Refusal>),
    /// A member syncs, and is leased these partitions in this generation.
    Lease(u32, u32, &'a [u32]),
    /// A member rejoins in a generation with this claim.
    Rejoin(u32, u32, &'a [u32], Result<(), Refusal>),
    /// A member leaves.
    Leave(u32, Result<(), Refusal>),
    /// A member is lost.
    Lose(u32, Result<(), Refusal>),
    /// A record of this key is appended.
    Append(&'a [u8], Result<(u32, u32), Refusal>),
    /// A record of this key is appended, wherever it goes.
    AppendedAnywhere(&'a [u8]),
    /// A member commits in a generation, of a partition from an offset on, records of these keys.
    Commit(Terms, &'a [u32], Result<u32, Refusal>),
    /// The generation, the phase, and whether the group is settled.
    GroupIs(u32, Phase, bool),
    /// A member is granted these partitions, and assigned those.
    Has(u32, &'a [u32], &'a [u32]),
    /// Whether a member is present, has joined and has synced.
    Is(u32, bool, bool, bool),
    /// Whether a member is static.
    IsStatic(u32, bool),
    /// The member of a name.
    Named(&'a [u8], Option<u32>),
    /// The committed offsets.
    Offsets(&'a [u32]),
    /// The largest number of members joins, under names of three digits. The first one is static.
    Fill,
    /// The seat of this name is taken over by each number from 2 on.
    TakeOverAll(&'a [u8]),
    /// A member syncs and rejoins with its lease, of this many partitions.
    Renew(u32, u32),
    /// The number of moves.
    Moves(usize),
    /// The last moves, the last one first.
    LastMoves(&'a [Moved]),
    /// The owner of a partition.
    Owned(u32, Option<u32>),
    /// Only this member is present.
    Alone(u32),
    /// The name of a member, present or not.
    Called(u32, &'a [u8]),
    /// The number of partitions, and the number of records in this one.
    Records(u32, u32, u32),
    /// The counts of the keys.
    Counts(&'a [u64]),
    /// Over the five records nobody is present and nothing is committed.
    Nothing,
    /// There is a counter for each of this many keys, with the most partitions.
    Counters(u32),
}

/// Makes a step, and returns whether its answer is the expected one.
fn is_answered(rt: &impl Abort, alloc: Global, cluster: &mut Cluster, step: &Step<'_>) -> bool {
    match step {
        Step::Join(text, answer) => cluster.join(name(rt, text)) == *answer,
        Step::JoinKept(text, answer) => cluster.join_kept(name(rt, text)) == *answer,
        Step::TakeOver(text, answer) => cluster.take_over(&name(rt, text)) == *answer,
        Step::Lease(member, generation, list) => leases(cluster, *member, *generation, list),
        Step::Rejoin(member, generation, claim, answer) => {
            cluster.rejoin(*member, *generation, &set_of(claim)) == *answer
        }
        Step::Leave(member, answer) => cluster.leave(*member) == *answer,
        Step::Lose(member, answer) => cluster.lose(*member) == *answer,
        Step::Append(key, answer) => cluster.append(key) == *answer,
        Step::AppendedAnywhere(key) => cluster.append(key).is_ok(),
        Step::Commit(terms, ids, answer) => commit(alloc, cluster, *terms, ids) == *answer,
        Step::Fill => first_not_joined(rt, cluster).is_none(),
        Step::TakeOverAll(text) => first_refused(cluster, &name(rt, text)).is_none(),
        Step::Renew(member, count) => leased(cluster, *member) == Some(*count),
        step => check_holds(rt, cluster, step),
    }
}

/// Whether a check of the cluster, which changes nothing, holds.
fn check_holds(rt: &impl Abort, cluster: &Cluster, step: &Step<'_>) -> bool {
    match step {
        Step::GroupIs(generation, phase, settled) => {
            cluster.generation() == *generation
                && cluster.phase() == *phase
                && cluster.is_settled() == *settled
        }
        Step::Has(member, granted, assigned) => has(cluster, *member, granted, assigned),
        Step::Is(member, present, joined, synced) => {
            cluster.is_present(*member) == *present
                && cluster.is_joined(*member) == *joined
                && cluster.is_synced(*member) == *synced
        }
        Step::IsStatic(member, is_static) => cluster.is_kept(*member) == *is_static,
        Step::Named(text, member) => cluster.member_named(&name(rt, text)) == *member,
        Step::Offsets(offsets) => cluster.store().offsets() == *offsets,
        step => check_of_all_holds(cluster, step),
    }
}

/// The same for checks of moves, members and logs.
fn check_of_all_holds(cluster: &Cluster, step: &Step<'_>) -> bool {
    match step {
        Step::Moves(count) => cluster.moves().len() == *count,
        Step::LastMoves(rows) => moves_end_with(cluster, rows),
        Step::Owned(p, owner) => cluster.owner(*p) == *owner,
        Step::Alone(member) => cluster.members().eq([*member]),
        Step::Called(member, text) => is_called(cluster, *member, text),
        Step::Records(partitions, p, records) => {
            cluster.partitions() == *partitions && has_records(cluster.logs(), *p, *records)
        }
        step => check_of_counts_holds(cluster, step),
    }
}

/// The same for checks of counts and of all logs.
fn check_of_counts_holds(cluster: &Cluster, step: &Step<'_>) -> bool {
    match step {
        Step::Counts(counts) => cluster.store().counts() == *counts,
        Step::Nothing => has_nothing_committed(cluster),
        Step::Counters(keys) => counts_each(cluster, *keys),
        _ => false,
    }
}

fn is_called(cluster: &Cluster, member: u32, text: &[u8]) -> bool {
    match cluster.name(member) {
        Some(name) => name.text() == text,
        None => false,
    }
}

fn has_records(logs: &Logs, p: u32, records: u32) -> bool {
    p < logs.partitions() && logs.len(p) == records
}

/// The index of the first step that does not go as expected.
fn first_other(
    rt: &impl Abort,
    alloc: Global,
    cluster: &mut Cluster,
    steps: &[Step<'_>],
) -> Option<usize> {
    for (index, step) in steps.iter().enumerate() {
        if !is_answered(rt, alloc, cluster, step) {
            return Some(index);
        }
    }
    None
}

/// The same, on this cluster. Few functions own a cluster: each `?` and each assertion is proved
/// together with the code that drops it.
fn first_other_in(
    rt: &impl Abort,
    alloc: Global,
    cluster: Result<Cluster, Refusal>,
    steps: &[Step<'_>],
) -> Result<Option<usize>, Refusal> {
    let mut cluster = cluster?;
    Ok(first_other(rt, alloc, &mut cluster, steps))
}

/// A cluster of this many partitions.
fn cluster_of(rt: &impl RandomSource, alloc: Global, partitions: u32) -> Result<Cluster, Refusal>
    requires { (1 ≤ partitions) × (partitions ≤ MOST_PARTITIONS) }
{
    Ok(Cluster::new(rt, alloc, partitions)?)
}

/// The index of the first step that does not go as expected, on a cluster of this many partitions.
fn first_other_of<R: Abort + RandomSource>(
    rt: &R,
    alloc: Global,
    partitions: u32,
    steps: &[Step<'_>],
) -> Result<Option<usize>, Refusal>
    requires { (1 ≤ partitions) × (partitions ≤ MOST_PARTITIONS) }
{
    first_other_in(rt, alloc, cluster_of(rt, alloc, partitions), steps)
}

/// The set of these partitions, out of four.
fn set_of(list: &[u32]) -> Plane {
    let mut set = Plane::new(4);
    for q in list {
        if *q < set.partitions() {
            set.insert(*q);
        }
    }
    set
}

/// Whether a member is present with these sets.
fn has(cluster: &Cluster, member: u32, granted: &[u32], assigned: &[u32]) -> bool {
    match (cluster.granted(member), cluster.assigned(member)) {
        (Some(may), Some(assigns)) => is(may, granted) && is(assigns, assigned),
        _ => false,
    }
}

/// The name of this text, which is a valid one.
fn name(rt: &impl Abort, text: &[u8]) -> Name {
    Name::new(text).expect(rt, "a name")
}

fn digit(n: u32) -> u8 {
    b'0'.wrapping_add((n % 10) as u8)
}

/// A name of three digits.
fn numbered(rt: &impl Abort, n: u32) -> Name {
    name(rt, &[digit(n / 100), digit(n / 10), digit(n)])
}

/// A member syncs and rejoins with its lease. Returns the number of partitions of the lease.
fn sync_and_rejoin(cluster: &mut Cluster, member: u32) -> Result<u32, Refusal> {
    let lease = cluster.sync(member)?;
    cluster.rejoin(member, lease.generation(), lease.assigned())?;
    Ok(lease.assigned().count())
}

/// Whether a member's lease is of these partitions in this generation.
fn leases(cluster: &mut Cluster, member: u32, generation: u32, list: &[u32]) -> bool {
    match cluster.sync(member) {
        Ok(lease) => {
            lease.member() == member
                && lease.generation() == generation
                && is(lease.assigned(), list)
        }
        Err(_) => false,
    }
}

/// The terms of a commit: member, generation, partition, and first offset.
type Terms = (u32, u32, u32, u32);

/// The partial counts of the records of these keys.
fn partial_of(alloc: Global, ids: &[u32]) -> Result<Partial, Refusal> {
    let ids = Vec::from_slice(alloc, ids)?;
    Ok(Partial::of(ids))
}

/// A commit of these terms.
fn commit_of(alloc: Global, terms: Terms, ids: &[u32]) -> Result<Commit, Refusal> {
    let (member, generation, partition, from) = terms;
    let partial = partial_of(alloc, ids)?;
    Ok(Commit::new(member, generation, partition, from, partial))
}

/// A cluster's answer to a commit of these terms.
fn commit(alloc: Global, cluster: &mut Cluster, terms: Terms, ids: &[u32]) -> Result<u32, Refusal> {
    let sent = commit_of(alloc, terms, ids)?;
    cluster.commit(&sent)
}

/// Whether a move is this one.
fn is_moved(moved: &Move, row: &Moved) -> bool {
    let (generation, partition, last, holder) = *row;
    moved.generation == generation
        && moved.partition == partition
        && moved.last == last
        && moved.holder == holder
}

/// Whether these are the last moves, the last one first.
fn moves_end_with(cluster: &Cluster, rows: &[Moved]) -> bool {
    for (moved, row) in cluster.moves().iter().rev().zip(rows) {
        if !is_moved(moved, row) {
            return false;
        }
    }
    true
}

// A function that names a table is proved with each row and each list in it, at each of its
// statements: so a function that names one does nothing else.

/// A second member joins, and is granted what the first one gives up.
const MOVES_ONCE_REVOKED: &[Step<'static>] = &[
    Step::Join(b"A", Ok(1)),
    Step::Join(b"B", Ok(2)),
    Step::GroupIs(1, Phase::Preparing, false),
    Step::Is(1, true, false, false),
    Step::Is(2, true, true, false),
    Step::Lease(1, 1, &[0, 1, 2, 3]),
    Step::Is(1, true, false, true),
    Step::Rejoin(1, 1, &[0, 1, 2, 3], Ok(())),
    Step::GroupIs(2, Phase::Stable, false),
    Step::Has(1, &[0, 1, 2, 3], &[0, 1]),
    Step::Has(2, &[], &[]),
    Step::Lease(1, 2, &[0, 1]),
    Step::Rejoin(1, 2, &[0, 1], Ok(())),
    Step::Lease(2, 2, &[]),
    Step::Rejoin(2, 2, &[], Ok(())),
    Step::GroupIs(3, Phase::Stable, true),
    Step::Moves(6),
    Step::LastMoves(&[(3, 3, Some(1), 2), (3, 2, Some(1), 2), (1, 3, None, 1)]),
    Step::Owned(3, Some(2)),
];

fn moves_once_revoked() -> &'static [Step<'static>] {
    MOVES_ONCE_REVOKED
}

#[test]
fn a_partition_moves_once_it_is_revoked(rt: HostRuntime) {
    let other = first_other_of(&rt, rt.alloc(), 4, moves_once_revoked());
    assert_eq!(rt; other, Ok(None));
}

/// The answer to a commit from another offset, with nothing committed.
const NONE_YET: Result<u32, Refusal> = Err(Refusal::OffsetMismatch { committed: 0 });
/// The same with two records committed.
const TWO_COMMITTED: Result<u32, Refusal> = Err(Refusal::OffsetMismatch { committed: 2 });

/// Commits of members that are unknown, late or not owners, and commits that fit.
const FENCED_COMMITS: &[Step<'static>] = &[
    Step::Append(b"21", Ok((0, 0))),
    Step::Append(b"21", Ok((0, 1))),
    Step::Join(b"A", Ok(1)),
    Step::Rejoin(1, 1, &[], Err(Refusal::SyncFirst)),
    Step::Lease(1, 1, &[0, 1, 2, 3]),
    Step::Join(b"B", Ok(2)),
    Step::Rejoin(1, 1, &[0, 1], Err(Refusal::ClaimDiffers)),
    Step::Commit((9, 1, 0, 0), &[0], Err(Refusal::UnknownMember)),
    Step::Commit((1, 0, 0, 0), &[0], Err(Refusal::StaleGeneration)),
    Step::Commit((1, 1, 7, 0), &[0], Err(Refusal::NotOwner)),
    Step::Commit((1, 1, 0, 0), &[], Err(Refusal::EmptyCommit)),
    Step::Commit((1, 1, 0, 1), &[0], NONE_YET),
    Step::Commit((1, 1, 0, 0), &[0, 0, 0], Err(Refusal::PastEnd)),
    Step::Commit((1, 1, 0, 0), &[0, 1], Err(Refusal::WrongRecords)),
    Step::Commit((1, 1, 0, 0), &[0, 0], Ok(2)),
    Step::Commit((1, 1, 0, 0), &[0, 0], TWO_COMMITTED),
    Step::Offsets(&[2, 0, 0, 0]),
    Step::Records(4, 0, 2),
];

fn fenced_commits() -> &'static [Step<'static>] {
    FENCED_COMMITS
}

#[test]
fn commits_are_fenced_and_accepted_once(rt: HostRuntime) {
    let other = first_other_of(&rt, rt.alloc(), 4, fenced_commits());
    assert_eq!(rt; other, Ok(None));
}

/// A member is lost, and the other one commits.
const ONE_IS_LOST: &[Step<'static>] = &[
    Step::Append(b"21", Ok((0, 0))),
    Step::Join(b"A", Ok(1)),
    Step::Join(b"B", Ok(2)),
    Step::Join(b"B", Err(Refusal::NameUsed)),
    Step::Lose(1, Ok(())),
    Step::Leave(1, Err(Refusal::UnknownMember)),
    Step::Is(1, false, false, false),
    Step::Is(2, true, false, false),
    Step::GroupIs(2, Phase::Stable, true),
    Step::Commit((1, 1, 0, 0), &[0], Err(Refusal::UnknownMember)),
    Step::Commit((2, 2, 0, 0), &[0], Ok(1)),
    Step::Alone(2),
    // A name is never used again.
    Step::Called(1, b"A"),
];

fn one_is_lost() -> &'static [Step<'static>] {
    ONE_IS_LOST
}

#[test]
fn a_lost_member_is_fenced_off(rt: HostRuntime) {
    let other = first_other_of(&rt, rt.alloc(), 4, one_is_lost());
    assert_eq!(rt; other, Ok(None));
}

/// Texts, and whether they are names.
const NAMES: [(&[u8], bool); 6] = [
    (b"", false),
    (b"worker-1_B", true),
    (b"a.b", false),
    (b"a name", false),
    (b"12345678901234567890123456789012", true),
    (b"123456789012345678901234567890123", false),
];

/// The index of the first text for which this is wrong.
fn first_other_name() -> Option<&'static [u8]> {
    for (text, is_name) in &NAMES {
        if Name::new(text).is_some() != *is_name {
            return Some(*text);
        }
    }
    None
}

#[test]
fn names_have_letters_digits_dashes_and_underscores(rt: HostRuntime) {
    assert_eq!(rt; first_other_name(), None);
}

/// The first number that a member does not get that joins under its three digits. The first member
/// is static.
fn first_not_joined(rt: &impl Abort, cluster: &mut Cluster) -> Option<u32> {
    for member in 1..MOST_MEMBERS as u32 + 1 {
        if join_nth(cluster, member, numbered(rt, member)) != Ok(member) {
            return Some(member);
        }
    }
    None
}

/// A member joins under this name. The first one is static.
fn join_nth(cluster: &mut Cluster, member: u32, name: Name) -> Result<u32, Refusal> {
    if member == 1 {
        cluster.join_kept(name)
    } else {
        cluster.join(name)
    }
}

/// The answers of a full group, whose first member alone is static.
const WHERE_FULL: &[Step<'static>] = &[
    Step::Fill,
    Step::Join(b"late", Err(Refusal::TooManyMembers)),
    Step::Join(b"007", Err(Refusal::NameUsed)),
    Step::JoinKept(b"late", Err(Refusal::TooManyMembers)),
    Step::TakeOver(b"007", Err(Refusal::NotKept)),
    Step::TakeOver(b"001", Err(Refusal::TooManyMembers)),
    Step::Is(1, true, false, false),
    Step::IsStatic(1, true),
    Step::Named(b"001", Some(1)),
];

fn where_full() -> &'static [Step<'static>] {
    WHERE_FULL
}

#[test]
fn at_most_512_members_join(rt: HostRuntime) {
    let other = first_other_of(&rt, rt.alloc(), MOST_PARTITIONS, where_full());
    assert_eq!(rt; other, Ok(None));
}

/// The first number, from 2 on, that does not take over the seat of A.
fn first_refused(cluster: &mut Cluster, name: &Name) -> Option<u32> {
    for number in 2..MOST_MEMBERS as u32 + 1 {
        if take_over(cluster, name) != Ok(number) {
            return Some(number);
        }
    }
    None
}

/// The seat of a static member has had all numbers.
const NUMBERS_ARE_OVER: &[Step<'static>] = &[
    Step::JoinKept(b"A", Ok(1)),
    Step::TakeOverAll(b"A"),
    Step::TakeOver(b"A", Err(Refusal::TooManyMembers)),
    Step::GroupIs(1, Phase::Stable, true),
    Step::Is(511, false, false, false),
    Step::Is(512, true, false, false),
    Step::Has(512, &[0, 1, 2, 3], &[0, 1, 2, 3]),
    Step::Lease(512, 1, &[0, 1, 2, 3]),
];

fn numbers_are_over() -> &'static [Step<'static>] {
    NUMBERS_ARE_OVER
}

#[test]
fn a_seat_is_taken_over_until_numbers_run_out(rt: HostRuntime) {
    let other = first_other_of(&rt, rt.alloc(), 4, numbers_are_over());
    assert_eq!(rt; other, Ok(None));
}

/// The lease of a member that syncs and rejoins.
fn leased(cluster: &mut Cluster, member: u32) -> Option<u32> {
    sync_and_rejoin(cluster, member).ok()
}

/// A group at its limits goes on to its second generation, and the last member leaves.
const AT_ITS_LIMITS: &[Step<'static>] = &[
    Step::Fill,
    Step::Renew(1, MOST_PARTITIONS),
    Step::Renew(1, 8),
    Step::Renew(512, 0),
    Step::Moves(4096),
    Step::Has(1, &[0, 1, 2, 3, 4, 5, 6, 7], &[0, 1, 2, 3, 4, 5, 6, 7]),
    Step::Leave(512, Ok(())),
    Step::Leave(512, Err(Refusal::UnknownMember)),
    Step::GroupIs(2, Phase::Preparing, false),
    Step::Is(511, true, false, false),
    Step::Is(512, false, false, false),
];

fn at_its_limits() -> &'static [Step<'static>] {
    AT_ITS_LIMITS
}

#[test]
fn a_cluster_at_its_limits(rt: HostRuntime) {
    let other = first_other_of(&rt, rt.alloc(), MOST_PARTITIONS, at_its_limits());
    assert_eq!(rt; other, Ok(None));
}

/// Appends records of these keys.
fn append_each(logs: &mut Logs, keys: &[&[u8]]) -> Result<(), Refusal> {
    for key in keys {
        logs.append(key)?;
    }
    Ok(())
}

/// The five records of most rows.
pub const FIVE: [&[u8]; 5] = [b"21", b"4", b"foobar", b"abc", b"21"];

/// Logs of five records of four keys, each of which has a partition of its own among four.
pub fn five_records(rt: &impl RandomSource, alloc: Global) -> Result<Logs, Refusal> {
    let mut logs = Logs::new(rt, alloc, 4)?;
    let done = append_each(&mut logs, &FIVE);
    done.and(Ok(logs))
}

/// The same, sealed.
pub fn five_sealed(rt: &impl RandomSource, alloc: Global) -> Result<SealedLogs, Refusal> {
    Ok(five_records(rt, alloc)?.seal())
}

/// A cluster over them.
fn over_five(rt: &impl RandomSource, alloc: Global) -> Result<Cluster, Refusal> {
    over(alloc, five_records(rt, alloc)?)
}

/// Whether nobody is present in a cluster over the five records, and nothing is committed.
fn has_nothing_committed(cluster: &Cluster) -> bool {
    cluster.phase() == Phase::Empty
        && cluster.generation() == 0
        && !cluster.is_present(1)
        && cluster.moves().is_empty()
        && cluster.store().offsets() == [0; 4].as_slice()
        && cluster.store().counts() == [0; 4].as_slice()
}

#[test]
fn a_cluster_over_logs_has_nothing_committed(rt: HostRuntime) {
    let cluster = over_five(&rt, rt.alloc());
    let other = first_other_in(&rt, rt.alloc(), cluster, &[Step::Nothing]);
    assert_eq!(rt; other, Ok(None));
}

/// A member commits three of the five records, which are then counted.
const THREE_OF_FIVE: &[Step<'static>] = &[
    Step::Join(b"A", Ok(1)),
    Step::Lease(1, 1, &[0, 1, 2, 3]),
    Step::Commit((1, 1, 0, 0), &[0, 0], Ok(2)),
    Step::Commit((1, 1, 2, 0), &[2], Ok(1)),
    Step::Offsets(&[2, 0, 1, 0]),
    Step::Counts(&[2, 0, 1, 0]),
];

fn three_of_five() -> &'static [Step<'static>] {
    THREE_OF_FIVE
}

/// Whether a cluster over the five records counts three of them, and still has its logs.
fn counts_three<R: Abort + Threads + Sync>(
    rt: &R,
    alloc: Global,
    cluster: &mut Cluster,
    logs: &SealedLogs,
) -> bool {
    first_other(rt, alloc, cluster, three_of_five()).is_none() && logs.same(rt, cluster.logs())
}

/// The same, for a new cluster over the five records.
fn new_counts_three<R: Abort + RandomSource + Threads + Sync>(
    rt: &R,
    alloc: Global,
    logs: &SealedLogs,
) -> Result<bool, Refusal> {
    let mut cluster = over_five(rt, alloc)?;
    Ok(counts_three(rt, alloc, &mut cluster, logs))
}

/// The same, compared with logs of the same records.
fn still_has_five<R: Abort + RandomSource + Threads + Sync>(
    rt: &R,
    alloc: Global,
) -> Result<bool, Refusal> {
    let logs = five_sealed(rt, alloc)?;
    new_counts_three(rt, alloc, &logs)
}

#[test]
fn a_cluster_over_logs_retains_them(rt: HostRuntime) {
    assert_eq!(rt; still_has_five(&rt, rt.alloc()), Ok(true));
}

/// Appends this many records of four bytes, each of a new key.
fn append_many(logs: &mut Logs, records: u32) -> Result<(), Refusal> {
    for i in 0..records {
        logs.append(&i.to_le_bytes())?;
    }
    Ok(())
}

/// Logs of this many records of four bytes, each of a new key.
fn many_records(rt: &impl RandomSource, alloc: Global, records: u32) -> Result<Logs, Refusal> {
    let mut logs = Logs::new(rt, alloc, MOST_PARTITIONS)?;
    let done = append_many(&mut logs, records);
    done.and(Ok(logs))
}

/// Whether a cluster with the most partitions has a counter for each of this many keys.
fn counts_each(cluster: &Cluster, keys: u32) -> bool {
    cluster.partitions() == MOST_PARTITIONS
        && cluster.logs().keys() == keys
        && cluster.store().offsets().len() == 4096
        && cluster.store().counts().len() == keys as usize
}

/// A cluster over 100,000 records of different keys.
fn over_many(rt: &impl RandomSource, alloc: Global) -> Result<Cluster, Refusal> {
    over(alloc, many_records(rt, alloc, 100_000)?)
}

/// It has a counter for each key, and one more for a new key.
const ONE_MORE: &[Step<'static>] = &[
    Step::Counters(100_000),
    Step::AppendedAnywhere(b"new"),
    Step::Counters(100_001),
];

#[test]
fn a_cluster_over_many_keys_counts_each(rt: HostRuntime) {
    let cluster = over_many(&rt, rt.alloc());
    let other = first_other_in(&rt, rt.alloc(), cluster, ONE_MORE);
    assert_eq!(rt; other, Ok(None));
}

/// Names before and after their members join and leave.
const NAMED: &[Step<'static>] = &[
    Step::Named(b"A", None),
    Step::Join(b"A", Ok(1)),
    Step::Join(b"B", Ok(2)),
    Step::Leave(1, Ok(())),
    Step::Named(b"A", Some(1)),
    Step::Named(b"B", Some(2)),
    Step::Named(b"a", None),
    Step::Named(b"AB", None),
];

fn named() -> &'static [Step<'static>] {
    NAMED
}

#[test]
fn a_name_has_the_newest_number(rt: HostRuntime) {
    assert_eq!(rt; first_other_of(&rt, rt.alloc(), 4, named()), Ok(None));
}

/// A seat that is taken over in each phase of a rebalance.
const RETURNS: &[Step<'static>] = &[
    Step::JoinKept(b"A", Ok(1)),
    Step::IsStatic(1, true),
    Step::Join(b"B", Ok(2)),
    Step::TakeOver(b"B", Err(Refusal::NotKept)),
    Step::TakeOver(b"C", Err(Refusal::NotKept)),
    Step::JoinKept(b"A", Err(Refusal::NameUsed)),
    Step::Lease(1, 1, &[0, 1, 2, 3]),
    Step::TakeOver(b"A", Ok(3)),
    Step::GroupIs(1, Phase::Preparing, false),
    Step::Is(1, false, false, false),
    Step::IsStatic(1, false),
    Step::Is(3, true, false, false),
    Step::IsStatic(3, true),
    Step::Has(3, &[0, 1, 2, 3], &[0, 1, 2, 3]),
    Step::Named(b"A", Some(3)),
    Step::Commit((1, 1, 0, 0), &[], Err(Refusal::UnknownMember)),
    Step::Rejoin(3, 1, &[0, 1, 2, 3], Err(Refusal::SyncFirst)),
    Step::Lease(3, 1, &[0, 1, 2, 3]),
    Step::Rejoin(3, 1, &[0, 1, 2, 3], Ok(())),
    Step::GroupIs(2, Phase::Stable, false),
    Step::TakeOver(b"A", Ok(4)),
    Step::GroupIs(2, Phase::Stable, false),
    Step::Has(4, &[0, 1, 2, 3], &[0, 1]),
    Step::Lease(4, 2, &[0, 1]),
    Step::Rejoin(4, 2, &[0, 1], Ok(())),
    Step::TakeOver(b"A", Ok(5)),
    Step::Is(5, true, true, false),
    Step::Rejoin(5, 2, &[0, 1], Err(Refusal::AlreadyJoined)),
    Step::Lease(2, 2, &[]),
    Step::Rejoin(2, 2, &[], Ok(())),
    Step::Has(5, &[0, 1], &[0, 1]),
    Step::Has(2, &[2, 3], &[2, 3]),
    Step::GroupIs(3, Phase::Stable, true),
    Step::TakeOver(b"A", Ok(6)),
    Step::GroupIs(3, Phase::Stable, true),
    Step::Leave(6, Ok(())),
    Step::TakeOver(b"A", Err(Refusal::NotKept)),
    // What member 4 had given up was last its own, and not the member's that took over its seat.
    Step::LastMoves(&[(3, 3, Some(4), 2), (3, 2, Some(4), 2)]),
];

fn returns() -> &'static [Step<'static>] {
    RETURNS
}

#[test]
fn a_static_seat_is_taken_over(rt: HostRuntime) {
    assert_eq!(rt; first_other_of(&rt, rt.alloc(), 4, returns()), Ok(None));
}
