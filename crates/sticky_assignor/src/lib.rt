//! The sticky assignment: which member gets which partition, so that the sizes are even and as many
//! partitions as possible stay with their owners, as Kafka's StickyAssignor documents it.
//!
//! [`assign`] returns exactly the target that `specs/Target.antt` defines. It is balanced, no
//! balanced assignment over the same members leaves more partitions with their owners, and an
//! assignment that is balanced already does not change. Tests: `cluster_tests`.
#![tactic(auto)]

ghost use Rattle.std.specs.Prelude.{◌≡◌, ◌<◌, ◌≤◌, length, IfOk, IsSome};
ghost use Rattle.std.specs.List.Sorted.{IsStrictlyIncreasing};
ghost use Rattle.bit_planes.specs.PartitionSet.{partitions_of, size, union, minus, lowest};
ghost use Rattle.bit_planes.specs.SetRows.{IsValidRows, members as members_of, row_of, set_of, sets_of};
ghost use Rattle.sticky_assignor.specs.Assigned.{assigned, HaveRows};
ghost use Rattle.sticky_assignor.specs.Balanced.{AreDisjoint, IsBalanced};
ghost use Rattle.sticky_assignor.specs.Retained.{RetainsMost};
ghost use Rattle.sticky_assignor.specs.Private.Filling.{filled_rows, free_of, given_of, heavies_by, retaining, one_of, quotas_by, shares_by, sizes};

mod laws;

use bit_planes::{Plane, PlaneRows};
use lane_words::{MOST_PARTITIONS, Memory};
pub use laws::{balanced_target_is_unchanged, target_is_balanced, target_retains_most};
use std::alloc::Global;

/// The target: of all balanced assignments, one that leaves the most partitions with their owners.
///
/// There is at least one member and the member numbers rise. `owned`, over the same number of
/// partitions, has a row for each member, and these rows are disjoint; rows of other members are
/// ignored. It fails only when out of memory. The cost is linear in members times partitions.
pub fn assign(
    alloc: Global,
    partitions: u32,
    members: &[u32],
    owned: &PlaneRows,
) -> Result<PlaneRows, Memory>
    requires partitions { owned.now.partitions ≡ partitions }
    requires nonempty { 0 < length members.now }
    requires sorted { IsStrictlyIncreasing members.now }
    requires rows { HaveRows owned.now members.now }
    requires disjoint { AreDisjoint (sets_of owned.now members.now) }
    ensures value { IfOk result (λ rows. rows ≡ assigned partitions members.now owned.now) }
    ensures members { IfOk result (λ rows. members_of rows ≡ members.now) }
    ensures balanced { IfOk result (λ rows. IsBalanced partitions (sets_of rows members.now)) }
    ensures sticky { IfOk result (λ rows.
        RetainsMost partitions (sets_of owned.now members.now) (sets_of rows members.now)) }
    ensures valid { IfOk result IsValidRows }
{
    prove!(owned.partitions() == partitions);
    let counts = counts_of(alloc, members, owned)?;
    let quotas = quotas_of(alloc, partitions, &counts)?;
    let free = free_partitions(&counts, &quotas, members, owned);
    fill(alloc, free, &counts, &quotas, members, owned)
}

/// The number of partitions that each member owns.
fn counts_of(alloc: Global, members: &[u32], owned: &PlaneRows) -> Result<Vec<u32>, Memory>
    requires { HaveRows owned.now members.now }
    ensures { IfOk result (λ ns. ns.items ≡ sizes (sets_of owned.now members.now)) }
{
    let mut counts = Vec::with_capacity(alloc, members.len())?;
    for member in members {
        counts.push(row_of(owned, *member).count())?;
    }
    Ok(counts)
}

/// The number of partitions that each member is to own, from the number that each owns now.
fn quotas_of(alloc: Global, partitions: u32, counts: &[u32]) -> Result<Vec<u32>, Memory>
    requires bound { partitions ≤ MOST_PARTITIONS }
    requires nonempty { 0 < length counts.now }
    ensures { IfOk result (λ qs. qs.items ≡ quotas_by partitions counts.now) }
{
    let share = (partitions as usize / counts.len()) as u32;
    let more = partitions as usize % counts.len();
    let heavy = count_heavy(share, counts);
    let for_heavy = more.min(heavy);
    shares_of(alloc, share, for_heavy, more - for_heavy, counts)
}

/// The number of members that own more than an even share.
fn count_heavy(share: u32, counts: &[u32]) -> usize
    ensures { result ≡ heavies_by share counts.now }
{
    let mut heavy = 0;
    for count in counts {
        if share < *count {
            heavy += 1;
        }
    }
    heavy
}

/// An even share for each member, plus one for the first `for_heavy` members above the share and
/// for the first `for_others` of the rest.
fn shares_of(
    alloc: Global,
    share: u32,
    for_heavy: usize,
    for_others: usize,
    counts: &[u32],
) -> Result<Vec<u32>, Memory>
    requires bound { share ≤ MOST_PARTITIONS }
    ensures { IfOk result (λ qs. qs.items ≡ shares_by share for_heavy for_others counts.now) }
{
    let mut quotas = Vec::with_capacity(alloc, counts.len())?;
    let mut heavy_left = for_heavy;
    let mut others_left = for_others;
    for count in counts {
        if share < *count {
            quotas.push(share + one_of(heavy_left))?;
            heavy_left = heavy_left.saturating_sub(1);
        } else {
            quotas.push(share + one_of(others_left))?;
            others_left = others_left.saturating_sub(1);
        }
    }
    Ok(quotas)
}

/// One while some are left, then zero.
fn one_of(left: usize) -> u32
    ensures value { result ≡ one_of left }
    ensures bound { result ≤ 1 }
{
    if left == 0 { 0 } else { 1 }
}

/// The partitions that no member retains.
fn free_partitions(counts: &[u32], quotas: &[u32], members: &[u32], owned: &PlaneRows) -> Plane
    requires counts { counts.now ≡ sizes (sets_of owned.now members.now) }
    requires len { length quotas.now ≡ length members.now }
    requires rows { HaveRows owned.now members.now }
    ensures free { result
        ≡ free_of owned.now.partitions (retaining quotas.now (sets_of owned.now members.now)) }
    ensures partitions { partitions_of result ≡ owned.now.partitions }
{
    let mut free = Plane::full(owned.partitions());
    for i in 0..members.len() {
        remove_retained(&mut free, row_of(owned, members[i]), counts[i], quotas[i]);
    }
    free
}

/// Removes what a member retains of its row of `count` elements: the lowest, up to its quota.
fn remove_retained(free: &mut Plane, row: &Plane, count: u32, quota: u32)
    requires partitions { partitions_of free.old ≡ partitions_of row.now }
    requires counts { count ≡ size row.now }
    ensures value { free.new ≡ minus free.old (lowest quota row.now) }
    ensures partitions { partitions_of free.new ≡ partitions_of free.old }
{
    if count <= quota {
        free.remove_all(row);
    } else {
        free.remove_all(&row.lowest(quota));
    }
}

/// The rows: what each member retains, filled up to its quota with free partitions in rising order.
fn fill(
    alloc: Global,
    all_free: Plane,
    counts: &[u32],
    quotas: &[u32],
    members: &[u32],
    owned: &PlaneRows,
) -> Result<PlaneRows, Memory>
    requires partitions { partitions_of all_free ≡ owned.now.partitions }
    requires counts { counts.now ≡ sizes (sets_of owned.now members.now) }
    requires len { length quotas.now ≡ length members.now }
    requires sorted { IsStrictlyIncreasing members.now }
    requires rows { HaveRows owned.now members.now }
    ensures { IfOk result (λ rows. rows ≡ filled_rows all_free quotas.now members.now owned.now) }
{
    let mut rows = PlaneRows::with_row_capacity(alloc, owned.partitions(), members.len())?;
    let mut free = all_free;
    for i in 0..members.len() {
        let row = filled_row(&mut free, row_of(owned, members[i]), counts[i], quotas[i]);
        rows.put(members[i], row)?;
    }
    Ok(rows)
}

/// What a member retains of its row, which has `count` elements, filled up to its quota from the
/// free partitions.
fn filled_row(free: &mut Plane, row: &Plane, count: u32, quota: u32) -> Plane
    requires partitions { partitions_of free.old ≡ partitions_of row.now }
    requires counts { count ≡ size row.now }
    ensures row { result ≡ union (lowest quota row.now) (given_of quota row.now free.old) }
    ensures free { free.new ≡ minus free.old (given_of quota row.now free.old) }
    ensures partitions { partitions_of result ≡ partitions_of row.now }
    ensures free_partitions { partitions_of free.new ≡ partitions_of free.old }
{
    if quota < count {
        return row.lowest(quota);
    }
    let mut filled = row.copy();
    if count < quota {
        let given = free.lowest(quota - count);
        filled.insert_all(&given);
        free.remove_all(&given);
    }
    filled
}

/// The row of a member, which has one.
fn row_of(owned: &PlaneRows, member: u32) -> &Plane
    requires { IsSome (row_of owned.now member) }
    ensures value { result.now ≡ set_of owned.now member }
    ensures partitions { partitions_of result.now ≡ owned.now.partitions }
{
    owned.get(member).unwrap()
}
