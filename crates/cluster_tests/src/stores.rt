//! Commits, in the order of their refusals.

ghost use Rattle.std.specs.Prelude.{◌≤◌};

use crate::{are_zeros, with_last};
use commit_store::Store;
use keyed_table::Partial;
use lane_words::{MOST_PARTITIONS, Memory, Refusal};
use partition_log::{LogRead, Logs};
use std::alloc::Global;
use std::process::Abort;
use std::random::RandomSource;

/// Appends a record with the only key, and returns whether it is in the first log.
fn is_appended(logs: &mut Logs) -> bool {
    matches!(logs.append(b"21"), Ok((0, _)))
}

/// Appends this many records of one key to the first log.
fn append_each(rt: &impl Abort, logs: &mut Logs, records: usize) {
    for _ in 0..records {
        assert!(rt; is_appended(logs));
    }
}

/// Logs without records, of this many partitions.
fn no_records(rt: &impl RandomSource, alloc: Global, partitions: u32) -> Result<Logs, Memory>
    requires { (1 ≤ partitions) × (partitions ≤ MOST_PARTITIONS) }
{
    Logs::new(rt, alloc, partitions)
}

/// Logs of which the first has this many records of one key.
fn one_key(
    rt: &(impl Abort + RandomSource),
    alloc: Global,
    partitions: u32,
    records: usize,
) -> Result<Logs, Memory>
    requires { (1 ≤ partitions) × (partitions ≤ MOST_PARTITIONS) }
{
    let mut logs = no_records(rt, alloc, partitions)?;
    append_each(rt, &mut logs, records);
    Ok(logs)
}

/// Makes a counter for each of this many keys.
fn add_keys(store: &mut Store, keys: u32) -> Result<(), Memory> {
    for _ in 0..keys {
        store.reserve_key()?;
        store.add_key();
    }
    Ok(())
}

/// A list of key numbers, counted.
fn counted(alloc: Global, ids: &[u32]) -> Result<Partial, Memory> {
    Ok(Partial::of(Vec::from_slice(alloc, ids)?))
}

/// The answer to a commit of the first log from an offset on.
fn answer(
    rt: &impl Abort,
    store: &mut Store,
    logs: &Logs,
    from: u32,
    partial: &Partial,
) -> Result<u32, Refusal> {
    assert!(rt; logs.keys() as usize <= store.keys());
    assert!(rt; logs.partitions() > 0 && store.partitions() > 0);
    store.commit(logs, 0, from, partial)
}

/// A commit of these key numbers of the first log from an offset on.
fn commit(
    rt: &impl Abort,
    alloc: Global,
    store: &mut Store,
    logs: &Logs,
    from: u32,
    ids: &[u32],
) -> Result<Result<u32, Refusal>, Memory> {
    let partial = counted(alloc, ids)?;
    Ok(answer(rt, store, logs, from, &partial))
}

/// Commits of a log with two records of one key: offset, key numbers, and the answer.
const COMMITS: [(u32, &[u32], Result<u32, Refusal>); 8] = [
    (0, &[], Err(Refusal::EmptyCommit)),
    (1, &[0], Err(Refusal::OffsetMismatch { committed: 0 })),
    (0, &[0, 0, 0], Err(Refusal::PastEnd)),
    (0, &[0, 1], Err(Refusal::WrongRecords)),
    (0, &[0], Ok(1)),
    (0, &[0], Err(Refusal::OffsetMismatch { committed: 1 })),
    (1, &[0], Ok(2)),
    (2, &[0], Err(Refusal::PastEnd)),
];

/// The first of these commits with another answer.
fn first_other(
    rt: &impl Abort,
    alloc: Global,
    store: &mut Store,
    logs: &Logs,
) -> Result<Option<usize>, Memory> {
    for (index, (from, ids, answer)) in COMMITS.iter().enumerate() {
        if commit(rt, alloc, store, logs, *from, ids)? != *answer {
            return Ok(Some(index));
        }
    }
    Ok(None)
}

/// Whether both records are committed, and no others.
fn has_both(store: &Store) -> bool {
    store.partitions() == 4
        && store.keys() == 1
        && store.committed(0) == 2
        && store.committed(3) == 0
        && store.count(0) == 2
}

/// A store of four partitions and one key.
fn of_one_key(alloc: Global) -> Result<Store, Memory> {
    let mut store = Store::new(alloc, 4)?;
    let added = add_keys(&mut store, 1);
    added.and(Ok(store))
}

/// The first of these commits with another answer, and whether both records are committed then.
fn committed_each(
    rt: &impl Abort,
    alloc: Global,
    logs: &Logs,
) -> Result<(Option<usize>, bool), Memory> {
    let mut store = of_one_key(alloc)?;
    let other = first_other(rt, alloc, &mut store, logs)?;
    Ok((other, has_both(&store)))
}

/// The same for logs with two records of one key.
fn committed_two(
    rt: &(impl Abort + RandomSource),
    alloc: Global,
) -> Result<(Option<usize>, bool), Memory> {
    let logs = one_key(rt, alloc, 4, 2)?;
    committed_each(rt, alloc, &logs)
}

#[test]
fn a_commit_is_accepted_exactly_when_it_fits(rt: HostRuntime) {
    assert_eq!(rt; committed_two(&rt, rt.alloc()), Ok((None, true)));
}

/// The answer to a commit, and the two counters after it.
type Committed = (Result<u32, Refusal>, u64, u64);

/// A store of one partition and two keys.
fn of_two_keys(alloc: Global) -> Result<Store, Memory> {
    Store::over(alloc, 1, 2)
}

/// The counters of the two keys.
fn two_counts(rt: &impl Abort, store: &Store) -> (u64, u64) {
    assert!(rt; store.keys() == 2);
    (store.count(0), store.count(1))
}

/// A commit of these key numbers at the start of the log, and the two counters after it.
fn committed(
    rt: &impl Abort,
    alloc: Global,
    logs: &Logs,
    ids: &[u32],
) -> Result<Committed, Memory> {
    let mut store = of_two_keys(alloc)?;
    let answer = commit(rt, alloc, &mut store, logs, 0, ids)?;
    let (first, second) = two_counts(rt, &store);
    Ok((answer, first, second))
}

/// A commit of these key numbers, with another one in place of the last.
fn committed_but_last(
    rt: &impl Abort,
    alloc: Global,
    logs: &Logs,
    ids: &[u32],
) -> Result<Committed, Memory> {
    assert!(rt; !ids.is_empty());
    let other = with_last(alloc, ids, 1)?;
    committed(rt, alloc, logs, &other)
}

/// A commit of this many records of one key with another one in place of the last, and one of
/// exactly these records.
fn last_differs(
    rt: &impl Abort,
    alloc: Global,
    logs: &Logs,
    len: usize,
) -> Result<(Committed, Committed), Memory> {
    let ids = vec![in alloc; 0; len]?;
    let refused = committed_but_last(rt, alloc, logs, &ids)?;
    Ok((refused, committed(rt, alloc, logs, &ids)?))
}

/// The same for a log of this many records of one key.
fn last_of_log_differs(
    rt: &(impl Abort + RandomSource),
    alloc: Global,
    len: usize,
) -> Result<(Committed, Committed), Memory> {
    let logs = one_key(rt, alloc, 1, len)?;
    last_differs(rt, alloc, &logs, len)
}

#[test]
fn the_last_of_the_records_alone_differs(rt: HostRuntime) {
    for len in [17, 1000] {
        let returned = last_of_log_differs(&rt, rt.alloc(), len);
        let refused = (Err(Refusal::WrongRecords), 0, 0);
        let taken = (Ok(len as u32), len as u64, 0);
        assert_eq!(rt; returned, Ok((refused, taken)), "{len}");
    }
}

/// The numbers of partitions of a store, and of its offsets and counters once keys are added.
fn most_sizes(alloc: Global) -> Result<(u32, usize, usize), Memory> {
    let mut store = Store::new(alloc, MOST_PARTITIONS)?;
    let partitions = store.partitions();
    add_keys(&mut store, 70_000)?;
    Ok((partitions, store.offsets().len(), store.counts().len()))
}

#[test]
fn has_an_offset_for_each_of_the_most_partitions(rt: HostRuntime) {
    assert_eq!(rt; most_sizes(rt.alloc()), Ok((MOST_PARTITIONS, 4096, 70_000)));
}

/// Whether all offsets and counters of a store of three partitions and many keys are 0, and how
/// many keys it has.
fn zeros_of_many(alloc: Global) -> Result<(bool, usize, bool), Memory> {
    let store = Store::over(alloc, 3, 70_000)?;
    let are_new = store.offsets() == [0; 3].as_slice();
    Ok((are_new, store.keys(), are_zeros(store.counts())))
}

#[test]
fn makes_a_counter_for_each_of_many_keys(rt: HostRuntime) {
    assert_eq!(rt; zeros_of_many(rt.alloc()), Ok((true, 70_000, true)));
}
