//! Cooperative rebalancing: partitions that move to another member, and the largest groups.

ghost use Rattle.std.specs.Prelude.{◌≡◌, ◌≤◌, ◌∷◌, [], length, IfOk};
ghost use Rattle.bit_planes.specs.PartitionSet.{partitions_of};
ghost use Rattle.bit_planes.specs.SetRows.{members};

use crate::assignments::{most_members, round_robin, rows_by};
use crate::planes::is_empty;
use crate::reference_grants::grants_of;
use bit_planes::{Plane, PlaneRows};
use coop_rebalance::{added, is_final, to_give, withhold, withhold_in_place};
use lane_words::{MOST_MEMBERS, MOST_PARTITIONS, Memory};
use std::alloc::Global;

/// All partitions for each of the members 0 to 512.
fn full_rows(alloc: Global, partitions: u32) -> Result<PlaneRows, Memory>
    requires { (1 ≤ partitions) × (partitions ≤ MOST_PARTITIONS) }
    ensures { IfOk result (λ rows. rows.partitions ≡ partitions) }
{
    let mut rows = PlaneRows::new(alloc, partitions);
    for member in 0..MOST_MEMBERS as u32 + 1 {
        rows.put(member, Plane::full(partitions))?;
    }
    Ok(rows)
}

/// Whether a member is granted a partition.
fn is_granted(granted: &PlaneRows, member: u32, q: u32) -> bool {
    match granted.get(member) {
        Some(own) => own.contains(q),
        None => false,
    }
}

/// Whether a member whose target is all partitions is left with those that no other is granted,
/// from what it is granted, what at least one member is, and what at least two are.
fn is_left(
    member: u32,
    row: &Plane,
    granted: &PlaneRows,
    (some, several): &(Plane, Plane),
) -> bool {
    for q in 0..granted.partitions() {
        let is_own = is_granted(granted, member, q);
        let is_others = several.contains(q) || (some.contains(q) && !is_own);
        if row.contains(q) == is_others {
            return false;
        }
    }
    true
}

/// The same for all members.
fn are_left(rows: &PlaneRows, granted: &PlaneRows, grants: &(Plane, Plane)) -> bool {
    for (member, row) in rows.iter() {
        if !is_left(member, row, granted, grants) {
            return false;
        }
    }
    rows.len() == MOST_MEMBERS + 1
}

/// What members are left with.
fn left(alloc: Global, target: &PlaneRows, granted: &PlaneRows) -> Result<PlaneRows, Memory>
    requires { target.now.partitions ≡ granted.now.partitions }
    ensures { IfOk result (λ rows. rows.partitions ≡ target.now.partitions) }
{
    withhold(alloc, target, granted)
}

/// Whether the reference implementation collects the same grants. Member 0, which is granted
/// nothing, shows those of at least one member; the others show those of at least two.
fn has_reference_grants(alloc: Global, granted: &PlaneRows) -> Result<bool, Memory> {
    let target = full_rows(alloc, granted.partitions())?;
    let rows = left(alloc, &target, granted)?;
    Ok(are_left(&rows, granted, &grants_of(granted)))
}

/// The same for two rows.
fn have_reference_grants(
    alloc: Global,
    one: &PlaneRows,
    other: &PlaneRows,
) -> Result<bool, Memory> {
    Ok(has_reference_grants(alloc, one)? && has_reference_grants(alloc, other)?)
}

/// Rows of the members 1 and 2, over four partitions.
fn two_rows(alloc: Global, first: Plane, second: Plane) -> Result<PlaneRows, Memory>
    requires { (partitions_of first ≡ 4) × (partitions_of second ≡ 4) }
    ensures partitions { IfOk result (λ rows. rows.partitions ≡ 4) }
    ensures members { IfOk result (λ rows. members rows ≡ 1 ∷ 2 ∷ []) }
{
    let mut rows = PlaneRows::new(alloc, 4);
    rows.put(1, first)?;
    rows.put(2, second)?;
    Ok(rows)
}

/// Two partitions for each of the members 1 and 2.
fn two_each(alloc: Global) -> Result<PlaneRows, Memory>
    ensures partitions { IfOk result (λ rows. rows.partitions ≡ 4) }
    ensures members { IfOk result (λ rows. members rows ≡ 1 ∷ 2 ∷ []) }
{
    two_rows(alloc, Plane::of(4, &[0, 1]), Plane::of(4, &[2, 3]))
}

/// Whether a member's row is exactly the first two partitions.
fn has_first_two(rows: &PlaneRows, member: u32) -> bool {
    match rows.get(member) {
        Some(row) => row.iter().eq([0, 1]),
        None => false,
    }
}

/// Whether member 1 retains two partitions and member 2 gets none yet, so one more round follows.
fn are_revoked(rows: &PlaneRows, granted: &PlaneRows) -> bool
    requires { rows.now.partitions ≡ granted.now.partitions }
{
    has_first_two(rows, 1) && is_empty(rows, 2) && !is_final(granted, rows) && is_final(rows, rows)
}

/// Whether withholding in place leaves these rows.
fn is_left_in_place(alloc: Global, granted: &PlaneRows, rows: &PlaneRows) -> Result<bool, Memory>
    requires partitions { (granted.now.partitions ≡ 4) × (rows.now.partitions ≡ 4) }
    requires members { members granted.now ≡ 1 ∷ 2 ∷ [] }
{
    let mut in_place = two_each(alloc)?;
    withhold_in_place(&mut in_place, granted);
    Ok(is_final(&in_place, rows))
}

/// Whether a member revokes two partitions first, whether this is so in place, whether the other
/// member has them then, and whether the reference implementation collects the same grants.
fn are_moved(alloc: Global, target: &PlaneRows, granted: &PlaneRows) -> Result<[bool; 4], Memory>
    requires partitions { (target.now.partitions ≡ 4) × (granted.now.partitions ≡ 4) }
    requires members { members granted.now ≡ 1 ∷ 2 ∷ [] }
{
    let rows = left(alloc, target, granted)?;
    Ok([
        are_revoked(&rows, granted),
        is_left_in_place(alloc, granted, &rows)?,
        is_given(alloc, target, &rows)?,
        have_reference_grants(alloc, target, granted)?,
    ])
}

/// The same for two partitions that move from member 1 to member 2.
fn are_two_moved(alloc: Global) -> Result<[bool; 4], Memory> {
    let target = two_each(alloc)?;
    let granted = two_rows(alloc, Plane::of(4, &[0, 1, 2, 3]), Plane::of(4, &[]))?;
    are_moved(alloc, &target, &granted)
}

#[test]
fn moves_two_partitions(rt: HostRuntime) {
    assert_eq!(rt; are_two_moved(rt.alloc()), Ok([true; 4]));
}

/// Whether these are the last two of four partitions.
fn are_last_two(set: &Plane) -> bool {
    set.iter().eq([2, 3])
}

#[test]
fn moves_partitions_in_two_rounds(rt: HostRuntime) {
    let give = to_give(&Plane::of(4, &[0, 1, 2, 3]), &Plane::of(4, &[0, 1]));
    assert!(rt; are_last_two(&give));
    let new = added(&Plane::of(4, &[2, 3]), &Plane::of(4, &[]));
    assert!(rt; are_last_two(&new));
}

/// The rows of members 1 to 512, by the owner of each partition.
fn most_rows(alloc: Global, owners: &[u32]) -> Result<PlaneRows, Memory>
    requires { length owners.now ≡ MOST_PARTITIONS }
    ensures { IfOk result (λ rows. rows.partitions ≡ MOST_PARTITIONS) }
{
    let members = most_members(alloc)?;
    rows_by(alloc, &members, owners)
}

// A function that owns rows makes few calls: each `?` and each assertion is proved together with
// the drops of all that it owns.

/// Rows over the most partitions, whose owners are the members 1 to 512, round-robin.
fn round_robin_rows(alloc: Global) -> Result<PlaneRows, Memory>
    ensures { IfOk result (λ rows. rows.partitions ≡ MOST_PARTITIONS) }
{
    let owners = round_robin(alloc)?;
    most_rows(alloc, &owners)
}

/// The same owners, except that the upper half of the partitions is with the next member.
fn with_the_next(alloc: Global) -> Result<Vec<u32>, Memory>
    ensures { IfOk result (λ owners. length owners.items ≡ MOST_PARTITIONS) }
{
    let mut owners = round_robin(alloc)?;
    for q in MOST_PARTITIONS / 2..MOST_PARTITIONS {
        owners[q as usize] = (q + 1) % MOST_MEMBERS as u32 + 1;
    }
    Ok(owners)
}

/// The rows by these owners.
fn rows_with_the_next(alloc: Global) -> Result<PlaneRows, Memory>
    ensures { IfOk result (λ rows. rows.partitions ≡ MOST_PARTITIONS) }
{
    let owners = with_the_next(alloc)?;
    most_rows(alloc, &owners)
}

/// Whether a row is its member's share of the lower half.
fn is_lower_half(member: u32, row: &Plane) -> bool {
    let members = MOST_MEMBERS as u32;
    for q in row.iter() {
        if q >= MOST_PARTITIONS / 2 || q % members + 1 != member {
            return false;
        }
    }
    row.count() == MOST_PARTITIONS / 2 / members
}

/// Whether each member is left with its share of the lower half alone.
fn are_lower_halves(rows: &PlaneRows) -> bool {
    for (member, row) in rows.iter() {
        if !is_lower_half(member, row) {
            return false;
        }
    }
    rows.len() == MOST_MEMBERS
}

/// Whether the members are left with their lower halves.
fn withholds_halves(alloc: Global, target: &PlaneRows, granted: &PlaneRows) -> Result<bool, Memory>
    requires { target.now.partitions ≡ granted.now.partitions }
{
    let rows = left(alloc, target, granted)?;
    Ok(are_lower_halves(&rows) && !is_final(&rows, target) && !is_final(target, granted))
}

/// Whether nothing is withheld once nobody else has it.
fn is_given(alloc: Global, target: &PlaneRows, rows: &PlaneRows) -> Result<bool, Memory>
    requires { target.now.partitions ≡ rows.now.partitions }
{
    let given = left(alloc, target, rows)?;
    Ok(is_final(&given, target))
}

/// Whether the reference implementation collects the same grants, only the lower halves are left,
/// and nothing is withheld once nobody else has it.
fn are_withheld(alloc: Global, target: &PlaneRows, granted: &PlaneRows) -> Result<[bool; 3], Memory>
    requires { target.now.partitions ≡ granted.now.partitions }
{
    Ok([
        have_reference_grants(alloc, target, granted)?,
        withholds_halves(alloc, target, granted)?,
        is_given(alloc, target, target)?,
    ])
}

/// The same for the most partitions, whose upper half moves to the next member.
fn are_halves_withheld(alloc: Global) -> Result<[bool; 3], Memory> {
    let target = round_robin_rows(alloc)?;
    let granted = rows_with_the_next(alloc)?;
    are_withheld(alloc, &target, &granted)
}

#[test]
fn withholds_among_the_most(rt: HostRuntime) {
    assert_eq!(rt; are_halves_withheld(rt.alloc()), Ok([true; 3]));
}

/// What three members are granted of 70 partitions, some of them granted to two members or to all.
fn granted_to_several(alloc: Global) -> Result<PlaneRows, Memory>
    ensures { IfOk result (λ rows. rows.partitions ≡ 70) }
{
    let mut rows = PlaneRows::new(alloc, 70);
    rows.put(1, Plane::of(70, &[0, 1, 69]))?;
    rows.put(2, Plane::of(70, &[1, 2, 69]))?;
    rows.put(4, Plane::of(70, &[2, 3, 69]))?;
    Ok(rows)
}

/// All of 70 partitions for the members 1 and 3.
fn all_for_two(alloc: Global) -> Result<PlaneRows, Memory>
    ensures { IfOk result (λ rows. rows.partitions ≡ 70) }
{
    let mut rows = PlaneRows::new(alloc, 70);
    rows.put(1, Plane::full(70))?;
    rows.put(3, Plane::full(70))?;
    Ok(rows)
}

/// Whether member 1 is left with what is granted to it alone or to nobody, and member 3 with what
/// is granted to nobody.
fn are_unshared(rows: &PlaneRows) -> bool {
    match (rows.get(1), rows.get(3)) {
        (Some(first), Some(third)) => {
            first.contains(0)
                && !first.contains(1)
                && !first.contains(69)
                && first.count() == 66
                && third.count() == 65
                && !third.contains(0)
        }
        _ => false,
    }
}

/// Whether what several members are granted is withheld from all.
fn is_withheld_from_all(alloc: Global, granted: &PlaneRows) -> Result<bool, Memory>
    requires { granted.now.partitions ≡ 70 }
{
    let target = all_for_two(alloc)?;
    let rows = left(alloc, &target, granted)?;
    Ok(are_unshared(&rows))
}

/// Whether the reference implementation collects what several members are granted, and this is
/// withheld from all.
fn is_several_collected(alloc: Global) -> Result<[bool; 2], Memory> {
    let granted = granted_to_several(alloc)?;
    Ok([
        has_reference_grants(alloc, &granted)?,
        is_withheld_from_all(alloc, &granted)?,
    ])
}

#[test]
fn collects_what_several_are_granted(rt: HostRuntime) {
    assert_eq!(rt; is_several_collected(rt.alloc()), Ok([true; 2]));
}
