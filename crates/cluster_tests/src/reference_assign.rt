//! Reference implementation of the assignor: each step makes new sets and counts anew.

ghost use Rattle.std.specs.Prelude.{◌≡◌, ◌<◌, ◌≤◌, length, IfOk, IsSome};
ghost use Rattle.std.specs.List.Sorted.{IsStrictlyIncreasing};
ghost use Rattle.bit_planes.specs.PartitionSet.{partitions_of};
ghost use Rattle.bit_planes.specs.SetRows.{row_of, set_of, sets_of};
ghost use Rattle.sticky_assignor.specs.Assigned.{assigned, HaveRows};
ghost use Rattle.sticky_assignor.specs.Private.Filling.{filled_rows, free_of, retaining, one_of, quotas, shares};
ghost use Rattle.sticky_assignor.specs.Target.{heavies};

use bit_planes::{Plane, PlaneRows};
use lane_words::{MOST_PARTITIONS, Memory};
use std::alloc::Global;

/// The target assignment.
pub fn assign(
    alloc: Global,
    partitions: u32,
    members: &[u32],
    owned: &PlaneRows,
) -> Result<PlaneRows, Memory>
    requires partitions { owned.now.partitions ≡ partitions }
    requires nonempty { 0 < length members.now }
    requires sorted { IsStrictlyIncreasing members.now }
    requires rows { HaveRows owned.now members.now }
    ensures { IfOk result (λ rows. rows ≡ assigned partitions members.now owned.now) }
{
    let quotas = quotas_of(alloc, members, owned)?;
    let free = free_partitions(&quotas, members, owned);
    fill(alloc, free, &quotas, members, owned)
}

/// The number of partitions that each member is to own.
fn quotas_of(alloc: Global, members: &[u32], owned: &PlaneRows) -> Result<Vec<u32>, Memory>
    requires nonempty { 0 < length members.now }
    requires rows { HaveRows owned.now members.now }
    ensures { IfOk result (λ qs.
        qs.items ≡ quotas owned.now.partitions (sets_of owned.now members.now)) }
{
    let partitions = owned.partitions() as usize;
    let share = (partitions / members.len()) as u32;
    let more = partitions % members.len();
    let heavy = count_heavy(share, members, owned);
    let for_heavy = more.min(heavy);
    shares_of(alloc, share, for_heavy, more - for_heavy, members, owned)
}

/// The number of members that own more than an even share.
fn count_heavy(share: u32, members: &[u32], owned: &PlaneRows) -> usize
    requires { HaveRows owned.now members.now }
    ensures { result ≡ heavies share (sets_of owned.now members.now) }
{
    let mut heavy = 0;
    for member in members {
        if share < row_of(owned, *member).count() {
            heavy += 1;
        }
    }
    heavy
}

/// An even share for each member, plus one for the first heavy members and for the first others.
fn shares_of(
    alloc: Global,
    share: u32,
    for_heavy: usize,
    for_others: usize,
    members: &[u32],
    owned: &PlaneRows,
) -> Result<Vec<u32>, Memory>
    requires bound { share ≤ MOST_PARTITIONS }
    requires rows { HaveRows owned.now members.now }
    ensures { IfOk result (λ qs.
        qs.items ≡ shares share for_heavy for_others (sets_of owned.now members.now)) }
{
    let mut quotas = Vec::with_capacity(alloc, members.len())?;
    let mut heavy_left = for_heavy;
    let mut others_left = for_others;
    for member in members {
        if share < row_of(owned, *member).count() {
            quotas.push(share + one_of(heavy_left))?;
            heavy_left = heavy_left.saturating_sub(1);
        } else {
            quotas.push(share + one_of(others_left))?;
            others_left = others_left.saturating_sub(1);
        }
    }
    Ok(quotas)
}

/// The partitions that no member retains.
fn free_partitions(quotas: &[u32], members: &[u32], owned: &PlaneRows) -> Plane
    requires len { length quotas.now ≡ length members.now }
    requires rows { HaveRows owned.now members.now }
    ensures free { result
        ≡ free_of owned.now.partitions (retaining quotas.now (sets_of owned.now members.now)) }
    ensures partitions { partitions_of result ≡ owned.now.partitions }
{
    let mut free = Plane::full(owned.partitions());
    for (member, quota) in members.iter().zip(quotas) {
        free = free.minus(&row_of(owned, *member).lowest(*quota));
    }
    free
}

/// The rows: what each member retains, filled up to its quota with free partitions in rising order.
fn fill(
    alloc: Global,
    all_free: Plane,
    quotas: &[u32],
    members: &[u32],
    owned: &PlaneRows,
) -> Result<PlaneRows, Memory>
    requires partitions { partitions_of all_free ≡ owned.now.partitions }
    requires len { length quotas.now ≡ length members.now }
    requires sorted { IsStrictlyIncreasing members.now }
    requires rows { HaveRows owned.now members.now }
    ensures { IfOk result (λ rows. rows ≡ filled_rows all_free quotas.now members.now owned.now) }
{
    let mut rows = PlaneRows::new(alloc, owned.partitions());
    let mut free = all_free;
    for (member, quota) in members.iter().zip(quotas) {
        let retained = row_of(owned, *member).lowest(*quota);
        let given = free.lowest(quota - retained.count());
        rows.put(*member, retained.union(&given))?;
        free = free.minus(&given);
    }
    Ok(rows)
}

/// One while some are left, then zero.
fn one_of(left: usize) -> u32
    ensures value { result ≡ one_of left }
    ensures bound { result ≤ 1 }
{
    if left == 0 { 0 } else { 1 }
}

/// The row of a member, which has one.
pub fn row_of(owned: &PlaneRows, member: u32) -> &Plane
    requires { IsSome (row_of owned.now member) }
    ensures value { result.now ≡ set_of owned.now member }
    ensures partitions { partitions_of result.now ≡ owned.now.partitions }
{
    owned.get(member).unwrap()
}
