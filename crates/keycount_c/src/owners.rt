//! Who is to have each partition. No handle is needed.
//!
//! Lists of owners have the number of a member for each partition. Where it is not the number of
//! one of the given members, such as 0, nobody owns the partition.

ghost use Rattle.std.specs.Prelude.{◌≡◌, ◌<◌, ◌≤◌, ◌↔◌, length, IfOk, IsTrue};
ghost use Rattle.bit_planes.specs.PartitionSet.{is_in};
ghost use Rattle.bit_planes.specs.SetRows.{set_of};
ghost use Rattle.sticky_assignor.specs.Assigned.{assigned};
ghost use Rattle.coop_rebalance.specs.Withheld.{withheld};
ghost use Rattle.keycount_c.specs.Owners.{AreHeld, AreMembers, Assigns, MayOwn, Withholds, holder_in, row_in, rows_in};
ghost use Rattle.keycount_c.specs.Places.{AreFew};

use crate::answers::{BAD_ARGUMENT, DONE, MEMORY};
use bit_planes::{Plane, PlaneRows};
use coop_rebalance::withhold_in_place;
use lane_words::{MOST_PARTITIONS, Memory};
use std::alloc::Global;
use sticky_assignor::assign;

/// Assigns each partition to a member, as `sticky_assignor::assign`: evenly, and so that as many as
/// possible stay with their owners. `assigned` gets the member of each partition at its front.
///
/// Not done: there is no member, or their numbers do not rise from 1 on; there are not 1 to 4096
/// partitions; `assigned` has less room (103); out of memory (90).
#[unsafe(no_mangle)]
pub extern "C" fn keycount_assign(
    alloc: Global,
    members: &[u32],
    owners: &[u32],
    assigned: &mut [u32],
) -> u32
    ensures { Assigns members.now owners.now assigned.old result assigned.new }
{
    if !may_own(members, owners, assigned.len()) {
        return BAD_ARGUMENT;
    }
    let Ok(rows) = assigned_rows(alloc, members, owners) else {
        return MEMORY;
    };
    put_holders(&rows, members, assigned);
    DONE
}

/// Assigns the partitions of a target that nobody else owns, as `coop_rebalance::withhold`.
/// `assigned` gets the member of each partition at its front, or 0 if its owner has to give it up
/// first.
///
/// Not done: as `keycount_assign` is not; the target is of another number of partitions (103).
#[unsafe(no_mangle)]
pub extern "C" fn keycount_withhold(
    alloc: Global,
    members: &[u32],
    target: &[u32],
    owners: &[u32],
    assigned: &mut [u32],
) -> u32
    ensures { Withholds members.now target.now owners.now assigned.old result assigned.new }
{
    if !may_own(members, owners, assigned.len()) || target.len() != owners.len() {
        return BAD_ARGUMENT;
    }
    let Ok(rows) = withheld_rows(alloc, members, target, owners) else {
        return MEMORY;
    };
    put_holders(&rows, members, assigned);
    DONE
}

/// Whether there can be such members and owners, and so much room for a list of owners.
fn may_own(members: &[u32], owners: &[u32], room: usize) -> bool
    ensures { IsTrue result ↔ MayOwn members.now (length owners.now) room }
{
    if owners.is_empty() || owners.len() > MOST_PARTITIONS as usize || room < owners.len() {
        return false;
    }
    !members.is_empty() && are_members(members)
}

/// Whether numbers rise from 1 on.
fn are_members(numbers: &[u32]) -> bool
    ensures { IsTrue result ↔ AreMembers numbers.now }
{
    let mut last = 0;
    for i in 0..numbers.len() {
        if numbers[i] <= last {
            return false;
        }
        last = numbers[i];
    }
    true
}

/// The assignment of each member.
fn assigned_rows(alloc: Global, members: &[u32], owners: &[u32]) -> Result<PlaneRows, Memory>
    requires partitions { AreFew (length owners.now) }
    requires nonempty { 0 < length members.now }
    requires members { AreMembers members.now }
    ensures value { IfOk result (λ rows.
        rows ≡ assigned (length owners.now) members.now (rows_in members.now owners.now)) }
    ensures partitions { IfOk result (λ rows. rows.partitions ≡ length owners.now) }
{
    let owned = rows_in(alloc, members, owners)?;
    assign(alloc, owners.len() as u32, members, &owned)
}

/// What each member is assigned of a target.
fn withheld_rows(
    alloc: Global,
    members: &[u32],
    target: &[u32],
    owners: &[u32],
) -> Result<PlaneRows, Memory>
    requires partitions { AreFew (length owners.now) }
    requires len { length target.now ≡ length owners.now }
    requires members { AreMembers members.now }
    ensures value { IfOk result (λ rows.
        rows ≡ withheld (rows_in members.now target.now) (rows_in members.now owners.now)) }
    ensures partitions { IfOk result (λ rows. rows.partitions ≡ length target.now) }
{
    let owned = rows_in(alloc, members, owners)?;
    let mut rows = rows_in(alloc, members, target)?;
    withhold_in_place(&mut rows, &owned);
    Ok(rows)
}

/// What each of these members owns.
fn rows_in(alloc: Global, members: &[u32], owners: &[u32]) -> Result<PlaneRows, Memory>
    requires partitions { AreFew (length owners.now) }
    requires members { AreMembers members.now }
    ensures value { IfOk result (λ rows. rows ≡ rows_in members.now owners.now) }
    ensures partitions { IfOk result (λ rows. rows.partitions ≡ length owners.now) }
{
    let partitions = owners.len() as u32;
    let mut rows = PlaneRows::with_row_capacity(alloc, partitions, members.len())?;
    for i in 0..members.len() {
        rows.put(members[i], row_in(owners, members[i]))?;
    }
    Ok(rows)
}

/// What a member owns.
fn row_in(owners: &[u32], member: u32) -> Plane
    requires { AreFew (length owners.now) }
    ensures { result ≡ row_in owners.now member }
{
    let mut row = Plane::new(owners.len() as u32);
    for q in 0..owners.len() {
        if owners[q] == member {
            row.insert(q as u32);
        }
    }
    row
}

/// Writes the holder of each partition to its index.
fn put_holders(rows: &PlaneRows, members: &[u32], out: &mut [u32])
    requires { rows.now.partitions ≤ length out.old }
    ensures { AreHeld rows.now members.now out.old out.new }
{
    for q in 0..rows.partitions() {
        out[q as usize] = holder_in(rows, members, q);
    }
}

/// The first of these members whose row has a partition, or 0.
fn holder_in(rows: &PlaneRows, members: &[u32], q: u32) -> u32
    ensures { result ≡ holder_in rows.now members.now q }
{
    for i in 0..members.len() {
        if has(rows, members[i], q) {
            return members[i];
        }
    }
    0
}

/// Whether the row of a member has a partition.
fn has(rows: &PlaneRows, member: u32, q: u32) -> bool
    ensures { result ≡ is_in (set_of rows.now member) q }
{
    match rows.get(member) {
        Some(row) => row.contains(q),
        None => false,
    }
}
