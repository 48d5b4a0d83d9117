//! Counts of key numbers and tables of counters, alone and against the reference implementation.

ghost use Rattle.std.specs.Prelude.{◌≡◌, ◌+◌, ◌<◌, ◌^◌, ℕ, IfOk, IsTrue, length, slice_index_or};
ghost use Rattle.keyed_table.specs.Counts.{HaveCounters, SumsFit};

use crate::are_zeros;
use crate::reference_partial::{ReferencePartial, raise};
use keyed_table::{Partial, Table};
use lane_words::Memory;
use std::alloc::{AllocError, Global};
use std::process::Abort;
use std::test::Fail;

/// A list of numbers, counted.
fn partial(alloc: Global, ids: &[u32]) -> Result<Partial, Memory>
    ensures { IfOk result (λ partial. partial ≡ ids.now) }
{
    Ok(Partial::of(Vec::from_slice(alloc, ids)?))
}

/// One list in several orders.
const ORDERS: [&[u32]; 4] = [
    &[8, 0, 8, 17],
    &[0, 8, 8, 17],
    &[17, 8, 0, 8],
    &[8, 8, 17, 0],
];

/// Numbers, and their counts in that list.
const COUNTS: [(u32, u64); 5] = [(0, 1), (8, 2), (9, 0), (17, 1), (u32::MAX, 0)];

/// The first of these numbers, spaced by `spacing`, with another count, and its count.
fn first_other(partial: &Partial, counts: &[(u32, u64)], spacing: u32) -> Option<(u32, u64)> {
    for (number, count) in counts {
        let id = number.saturating_mul(spacing);
        let counted = partial.get(id);
        if counted != *count {
            return Some((id, counted));
        }
    }
    None
}

/// Whether the list is returned in this order, and the first number with another count.
fn counted_in(alloc: Global, ids: &[u32]) -> Result<(bool, Option<(u32, u64)>), Memory> {
    let counted = partial(alloc, ids)?;
    Ok((counted.ids() == ids, first_other(&counted, &COUNTS, 1)))
}

#[test]
fn counts_a_list_whatever_its_order(rt: HostRuntime) {
    for ids in ORDERS {
        assert_eq!(rt; counted_in(rt.alloc(), ids), Ok((true, None)), "{ids:?}");
    }
}

/// The length of an empty list, counted, and the count of a number in it.
fn counted_of_none(alloc: Global) -> Result<(usize, u64), Memory> {
    let none = partial(alloc, &[])?;
    Ok((none.ids().len(), none.get(0)))
}

#[test]
fn counts_nothing_of_an_empty_list(rt: HostRuntime) {
    assert_eq!(rt; counted_of_none(rt.alloc()), Ok((0, 0)));
}

/// Adds n keys to a table.
fn add_keys(table: &mut Table, keys: u32) -> Result<(), Memory> {
    for _ in 0..keys {
        table.reserve()?;
        table.add_key();
    }
    Ok(())
}

/// Whether a table has a counter at 0 for each of two keys.
fn has_two_zeros(table: &Table) -> bool {
    table.len() == 2 && table.get(1) == 0 && table.counts() == [0, 0].as_slice()
}

/// Whether a table has no counters, and one at 0 for each of two keys once they are added.
fn has_counters_of_two(alloc: Global) -> Result<(bool, bool), Memory> {
    let mut table = Table::new(alloc);
    let was_empty = table.len() == 0;
    add_keys(&mut table, 2)?;
    Ok((was_empty, has_two_zeros(&table)))
}

#[test]
fn a_table_has_a_counter_for_each_key(rt: HostRuntime) {
    assert_eq!(rt; has_counters_of_two(rt.alloc()), Ok((true, true)));
}

/// The number of counters of a table of zeros, and whether they are 0.
fn zeros_of_many(alloc: Global) -> Result<(usize, bool), Memory> {
    let table = Table::zeros(alloc, 70_000)?;
    Ok((table.len(), are_zeros(table.counts())))
}

#[test]
fn a_table_of_zeros_has_as_many_counters_as_keys(rt: HostRuntime) {
    assert_eq!(rt; zeros_of_many(rt.alloc()), Ok((70_000, true)));
}

/// A list of 200,000 numbers spaced by `spacing`: the first 60,000 three times, then 10,000 twice.
fn many(alloc: Global, spacing: u32) -> Result<Vec<u32>, AllocError> {
    let mut ids = Vec::new(alloc);
    for i in 0..200_000_u32 {
        ids.push((i % 70_000).saturating_mul(spacing))?;
    }
    Ok(ids)
}

/// Samples of that list and of other numbers, and their counts.
const MANY_COUNTS: [(u32, u64); 5] = [(0, 3), (59_999, 3), (60_000, 2), (69_999, 2), (70_000, 0)];

/// The length of that list, counted, and the first sample with another count.
fn counted_of_many(alloc: Global, spacing: u32) -> Result<(usize, Option<(u32, u64)>), Memory> {
    let counted = Partial::of(many(alloc, spacing)?);
    Ok((
        counted.ids().len(),
        first_other(&counted, &MANY_COUNTS, spacing),
    ))
}

#[test]
fn counts_a_list_of_many_numbers(rt: HostRuntime) {
    // About as many records as counters, and far fewer.
    for spacing in [1, 9] {
        assert_eq!(rt; counted_of_many(rt.alloc(), spacing), Ok((200_000, None)));
    }
}

/// A table that grew key by key.
fn grown(alloc: Global, keys: u32) -> Result<Table, Memory> {
    let mut table = Table::new(alloc);
    let added = add_keys(&mut table, keys);
    added.and(Ok(table))
}

/// The number of counters of a table that grew by n keys.
fn grown_len(alloc: Global, keys: u32) -> Result<usize, Memory> {
    let table = grown(alloc, keys)?;
    Ok(table.len())
}

#[test]
fn a_table_grows_to_many_counters(rt: HostRuntime) {
    assert_eq!(rt; grown_len(rt.alloc(), 200_000), Ok(200_000));
}

/// Pseudo-random numbers below a bound, from a linear congruential generator.
fn drawn(alloc: Global, len: usize, bound: u32, seed: u64) -> Result<Vec<u32>, AllocError>
    requires { 0 < bound }
{
    let mut state = seed;
    let mut ids = Vec::with_capacity(alloc, len)?;
    for _ in 0..len {
        state = state
            .wrapping_mul(6_364_136_223_846_793_005)
            .wrapping_add(1_442_695_040_888_963_407);
        ids.push(((state >> 33) % u64::from(bound)) as u32)?;
    }
    Ok(ids)
}

/// Whether each number of a list is below a bound.
fn are_below(ids: &[u32], bound: usize) -> bool
    ensures { IsTrue result → (i : ℕ) → i < length ids.now → slice_index_or ids.now i 0 < bound }
{
    for id in ids {
        if *id as usize >= bound {
            return false;
        }
    }
    true
}

/// Whether each counter can take this much more.
fn can_grow(counts: &[u64], more: usize) -> bool
    ensures { IsTrue result → (i : ℕ) → slice_index_or counts.now i 0 + more < 2 ^ 64 }
{
    for count in counts {
        if count.checked_add(more as u64).is_none() {
            return false;
        }
    }
    true
}

/// Whether each number of a list has a counter that can take the length of the list.
fn can_take(counts: &[u64], ids: &[u32]) -> bool
    ensures numbers { IsTrue result → HaveCounters counts.now ids.now }
    ensures sums { IsTrue result → SumsFit counts.now ids.now }
{
    are_below(ids, counts.len()) && can_grow(counts, ids.len())
}

fn merge(rt: &impl Abort, table: &mut Table, partial: &Partial) {
    assert!(rt; can_take(table.counts(), partial.ids()));
    table.merge(partial);
}

/// Adds a list to counters, one by one.
fn merge_reference(rt: &impl Abort, counts: &mut [u64], partial: &ReferencePartial) {
    assert!(rt; can_take(counts, partial.ids()));
    raise(counts, partial);
}

/// Compares the counts of all numbers below a bound.
fn check_gets(rt: &impl Abort, partial: &Partial, plain: &ReferencePartial, bound: u32) {
    for id in 0..bound {
        assert_eq!(rt; partial.get(id), plain.get(id), "{id}");
    }
}

/// Every ninth number below a bound, in rising order.
fn each_ninth(alloc: Global, bound: u32) -> Result<Vec<u32>, AllocError> {
    let mut ids = Vec::new(alloc);
    for id in 0..bound {
        if id % 9 == 0 {
            ids.push(id)?;
        }
    }
    Ok(ids)
}

/// The same list, counted by the reference implementation.
fn reference_partial(alloc: Global, ids: &[u32]) -> Result<ReferencePartial, Memory> {
    let list = Vec::from_slice(alloc, ids)?;
    ReferencePartial::of(alloc, list)
}

/// Compares both counts of one more list, and merges them into a table of n keys and into plain
/// counters.
fn check_both(
    rt: &impl Abort,
    keys: u32,
    table: &mut Table,
    counts: &mut [u64],
    counted: &Partial,
    plain: &ReferencePartial,
) {
    check_gets(rt, counted, plain, keys.saturating_add(9));
    merge(rt, table, counted);
    merge_reference(rt, counts, plain);
    assert!(rt;
        table.counts() == &*counts,
        "{keys} {}",
        counted.ids().len()
    );
}

/// Compares one more list in a table of n keys.
fn check_list(
    rt: &impl Abort,
    alloc: Global,
    keys: u32,
    table: &mut Table,
    counts: &mut [u64],
    ids: &[u32],
) -> Result<(), Memory> {
    let plain = reference_partial(alloc, ids)?;
    let counted = partial(alloc, ids)?;
    check_both(rt, keys, table, counts, &counted, &plain);
    Ok(())
}

/// Compares two drawn lists of this length in a table of n keys.
fn check_drawn(
    rt: &impl Abort,
    alloc: Global,
    keys: u32,
    len: usize,
    table: &mut Table,
    counts: &mut [u64],
) -> Result<(), Memory>
    requires { 0 < keys }
{
    for seed in 0..2 {
        let ids = drawn(alloc, len, keys, seed)?;
        check_list(rt, alloc, keys, table, counts, &ids)?;
    }
    Ok(())
}

/// Compares a rising list in a table of n keys.
fn check_rising(
    rt: &impl Abort,
    alloc: Global,
    keys: u32,
    table: &mut Table,
    counts: &mut [u64],
) -> Result<(), Memory> {
    let rising = each_ninth(alloc, keys)?;
    check_list(rt, alloc, keys, table, counts, &rising)
}

/// Compares two drawn lists of this length and a rising one in a table of n keys.
fn check_lists(rt: &impl Abort, alloc: Global, keys: u32, len: usize) -> Result<(), Memory>
    requires { 0 < keys }
{
    let mut counts = vec![in alloc; 0; keys as usize]?;
    let mut table = Table::zeros(alloc, keys)?;
    check_drawn(rt, alloc, keys, len, &mut table, &mut counts)?;
    check_rising(rt, alloc, keys, &mut table, &mut counts)
}

#[test]
fn counts_and_merges_equal_the_reference(rt: HostRuntime) -> Result<(), Fail> {
    for (keys, len) in [(1, 100), (7, 500), (8, 500), (9, 500), (17, 3000)] {
        check_lists(&rt, rt.alloc(), keys, len)?;
    }
    for (keys, len) in [(1000, 500), (1000, 5000), (9000, 8000), (70_000, 500)] {
        check_lists(&rt, rt.alloc(), keys, len)?;
    }
    Ok(())
}

/// A list with the last of n keys twice; empty if there is none.
fn last_twice(alloc: Global, keys: u32) -> Result<Partial, Memory> {
    match keys.checked_sub(1) {
        Some(last) => partial(alloc, &[last, last]),
        None => partial(alloc, &[]),
    }
}

/// Whether there are this many counters, all at 0 except that of the last of n keys, which is 2.
fn has_last_twice(counts: &[u64], keys: u32, len: usize) -> bool {
    for id in 0..counts.len() {
        let expected = if id + 1 == keys as usize { 2 } else { 0 };
        if counts[id] != expected {
            return false;
        }
    }
    counts.len() == len
}

/// Counts the last key of a table twice, and then adds one more key.
fn check_last_key(
    rt: &impl Abort,
    table: &mut Table,
    twice: &Partial,
    keys: u32,
) -> Result<(), Memory> {
    merge(rt, table, twice);
    assert!(rt;
        has_last_twice(table.counts(), keys, keys as usize),
        "{keys}"
    );
    add_keys(table, 1)?;
    assert!(rt;
        has_last_twice(table.counts(), keys, keys as usize + 1),
        "{keys}"
    );
    Ok(())
}

/// The same for a table of n keys, made of zeros.
fn check_zeros(rt: &impl Abort, alloc: Global, twice: &Partial, keys: u32) -> Result<(), Memory> {
    let mut table = Table::zeros(alloc, keys)?;
    check_last_key(rt, &mut table, twice, keys)
}

/// The same for a table of n keys that grew key by key.
fn check_grown(rt: &impl Abort, alloc: Global, twice: &Partial, keys: u32) -> Result<(), Memory> {
    let mut table = grown(alloc, keys)?;
    check_last_key(rt, &mut table, twice, keys)
}

/// The same for both tables.
fn check_tables(rt: &impl Abort, alloc: Global, keys: u32) -> Result<(), Memory> {
    let twice = last_twice(alloc, keys)?;
    check_zeros(rt, alloc, &twice, keys)?;
    check_grown(rt, alloc, &twice, keys)
}

#[test]
fn tables_of_any_length_count_their_last_key(rt: HostRuntime) -> Result<(), Fail> {
    for keys in [0, 1, 7, 8, 9, 17] {
        check_tables(&rt, rt.alloc(), keys)?;
    }
    Ok(())
}
