//! The sticky assignor. An assignment is a list of owners, 0 for a partition that nobody owns.

ghost use Rattle.std.specs.Prelude.{◌≡◌, ◌<◌, ◌≤◌, length, IfOk, IsTrue};
ghost use Rattle.std.specs.List.Sorted.{IsStrictlyIncreasing};
ghost use Rattle.bit_planes.specs.PartitionSet.{partitions_of};
ghost use Rattle.bit_planes.specs.SetRows.{sets_of};
ghost use Rattle.sticky_assignor.specs.Assigned.{HaveRows};
ghost use Rattle.sticky_assignor.specs.Balanced.{AreDisjoint};

use crate::reference_assign;
use bit_planes::{Plane, PlaneRows};
use lane_words::{MOST_MEMBERS, MOST_PARTITIONS, Memory};
use std::alloc::Global;
use std::process::Abort;
use std::test::Fail;
use sticky_assignor::assign;

/// The rows of these members.
pub fn rows_by(alloc: Global, members: &[u32], owners: &[u32]) -> Result<PlaneRows, Memory>
    requires { (1 ≤ length owners.now) × (length owners.now ≤ MOST_PARTITIONS) }
    ensures { IfOk result (λ rows. rows.partitions ≡ length owners.now) }
{
    let mut rows = PlaneRows::new(alloc, owners.len() as u32);
    for member in members {
        rows.put(*member, row_by(*member, owners))?;
    }
    Ok(rows)
}

/// The partitions of one owner.
fn row_by(member: u32, owners: &[u32]) -> Plane
    requires { (1 ≤ length owners.now) × (length owners.now ≤ MOST_PARTITIONS) }
    ensures { partitions_of result ≡ length owners.now }
{
    let partitions = owners.len() as u32;
    let mut row = Plane::new(partitions);
    for q in 0..partitions {
        if owners[q as usize] == member {
            row.insert(q);
        }
    }
    row
}

/// The owner of a partition: 0 if it is in no row, and the largest number if it is in two.
fn owner_of(q: u32, rows: &PlaneRows) -> u32 {
    let mut owner = 0;
    for (member, row) in rows.iter() {
        if row.contains(q) {
            owner = if owner == 0 { member } else { u32::MAX };
        }
    }
    owner
}

/// The owners of all partitions.
fn owners_by(alloc: Global, rows: &PlaneRows) -> Result<Vec<u32>, Memory> {
    let mut owners = Vec::new(alloc);
    for q in 0..rows.partitions() {
        owners.push(owner_of(q, rows))?;
    }
    Ok(owners)
}

fn is_rising(members: &[u32]) -> bool
    ensures { IsTrue result → IsStrictlyIncreasing members.now }
{
    for i in 1..members.len() {
        if members[i] <= members[i - 1] {
            return false;
        }
    }
    true
}

fn have_rows(owned: &PlaneRows, members: &[u32]) -> bool
    ensures { IsTrue result → HaveRows owned.now members.now }
{
    for member in members {
        let Some(_) = owned.get(*member) else {
            return false;
        };
    }
    true
}

fn are_disjoint(owned: &PlaneRows, members: &[u32]) -> bool
    requires { HaveRows owned.now members.now }
    ensures { IsTrue result → AreDisjoint (sets_of owned.now members.now) }
{
    let mut seen = Plane::new(owned.partitions());
    for member in members {
        let row = reference_assign::row_of(owned, *member);
        if seen.meets(row) {
            return false;
        }
        seen.insert_all(row);
    }
    true
}

/// Whether these members and rows meet what `assign` requires.
fn can_assign(members: &[u32], owned: &PlaneRows) -> bool
    ensures nonempty { IsTrue result → 0 < length members.now }
    ensures sorted { IsTrue result → IsStrictlyIncreasing members.now }
    ensures rows { IsTrue result → HaveRows owned.now members.now }
    ensures disjoint { IsTrue result → AreDisjoint (sets_of owned.now members.now) }
{
    !members.is_empty()
        && is_rising(members)
        && have_rows(owned, members)
        && are_disjoint(owned, members)
}

/// The owners by `assign`.
fn owners_assigned(alloc: Global, members: &[u32], owned: &PlaneRows) -> Result<Vec<u32>, Memory>
    requires nonempty { 0 < length members.now }
    requires sorted { IsStrictlyIncreasing members.now }
    requires rows { HaveRows owned.now members.now }
    requires disjoint { AreDisjoint (sets_of owned.now members.now) }
{
    let rows = assign(alloc, owned.partitions(), members, owned)?;
    owners_by(alloc, &rows)
}

/// The owners by the reference implementation.
fn reference_owners(alloc: Global, members: &[u32], owned: &PlaneRows) -> Result<Vec<u32>, Memory>
    requires nonempty { 0 < length members.now }
    requires sorted { IsStrictlyIncreasing members.now }
    requires rows { HaveRows owned.now members.now }
{
    let rows = reference_assign::assign(alloc, owned.partitions(), members, owned)?;
    owners_by(alloc, &rows)
}

/// Checks that the reference implementation returns the same owners.
fn check_reference(
    rt: &impl Abort,
    alloc: Global,
    members: &[u32],
    owned: &PlaneRows,
    given: &[u32],
) -> Result<(), Memory>
    requires nonempty { 0 < length members.now }
    requires sorted { IsStrictlyIncreasing members.now }
    requires rows { HaveRows owned.now members.now }
{
    let reference = reference_owners(alloc, members, owned)?;
    assert_eq!(rt; given, reference.as_slice());
    Ok(())
}

/// The owners by `assign`, from rows, checked against the reference implementation.
fn assigned_of(
    rt: &impl Abort,
    alloc: Global,
    members: &[u32],
    owned: &PlaneRows,
) -> Result<Vec<u32>, Memory> {
    assert!(rt; can_assign(members, owned));
    let given = owners_assigned(alloc, members, owned)?;
    let checked = check_reference(rt, alloc, members, owned, &given);
    checked.and(Ok(given))
}

/// The owners by `assign`, from a list of owners.
fn assigned(
    rt: &impl Abort,
    alloc: Global,
    members: &[u32],
    owners: &[u32],
) -> Result<Vec<u32>, Memory>
    requires { (1 ≤ length owners.now) × (length owners.now ≤ MOST_PARTITIONS) }
{
    let owned = rows_by(alloc, members, owners)?;
    assigned_of(rt, alloc, members, &owned)
}

/// The number of partitions that stay with their owners.
fn retained(owners: &[u32], others: &[u32]) -> usize {
    let mut retained: usize = 0;
    for (owner, other) in owners.iter().zip(others) {
        if *owner != 0 && owner == other {
            retained = retained.saturating_add(1);
        }
    }
    retained
}

/// The number of partitions that a member owns.
fn size_of(member: u32, owners: &[u32]) -> usize {
    let mut size: usize = 0;
    for owner in owners {
        if *owner == member {
            size = size.saturating_add(1);
        }
    }
    size
}

/// Whether each partition is owned by one of the members 1 to n.
fn are_owned(n: u32, owners: &[u32]) -> bool {
    for owner in owners {
        if *owner < 1 || n < *owner {
            return false;
        }
    }
    true
}

/// Checks the new owners, and how many partitions stay.
fn check_owners(rt: &impl Abort, owners: &[u32], given: &[u32], expected: &[u32], stay: usize) {
    assert_eq!(rt; (given, retained(owners, given)), (expected, stay));
}

/// Checks one example: members, owners, expected owners, and how many partitions stay.
fn check_example(
    rt: &impl Abort,
    alloc: Global,
    members: &[u32],
    owners: &[u32],
    expected: &[u32],
    stay: usize,
) -> Result<(), Memory>
    requires { (1 ≤ length owners.now) × (length owners.now ≤ MOST_PARTITIONS) }
{
    let given = assigned(rt, alloc, members, owners)?;
    check_owners(rt, owners, &given, expected, stay);
    Ok(())
}

/// Worked examples: members, owners, expected owners, and how many partitions stay.
const EXAMPLES: [(&[u32], &[u32], &[u32], usize); 6] = [
    (&[1, 2, 3], &[1, 1, 1, 1, 1], &[1, 1, 2, 2, 3], 2),
    (&[2, 7], &[7, 2, 7], &[7, 2, 7], 3),
    (&[1, 2, 3], &[1, 1, 2, 2], &[1, 1, 2, 3], 3),
    (&[1, 2, 3], &[0, 0], &[1, 2], 0),
    (
        &[3, 5, 9],
        &[3, 3, 5, 5, 5, 5, 5],
        &[3, 3, 5, 5, 5, 9, 9],
        5,
    ),
    (&[1, 2, 3], &[1, 1, 1, 1, 2], &[1, 1, 2, 3, 2], 3),
];

#[test]
fn worked_examples(rt: HostRuntime) -> Result<(), Fail> {
    for (members, owners, expected, stay) in EXAMPLES {
        check_example(&rt, rt.alloc(), members, owners, expected, stay)?;
    }
    Ok(())
}

/// The assignment with this code: its digits in base 4.
fn owners_of(code: u32) -> [u32; 4] {
    let mut owners = [0; 4];
    let mut rest = code;
    for owner in &mut owners {
        *owner = rest % 4;
        rest /= 4;
    }
    owners
}

/// Whether each partition is owned by one of the members 1 to n, and no member owns two more than
/// another.
fn is_balanced(n: u32, owners: &[u32]) -> bool {
    let (mut least, mut most) = (usize::MAX, 0);
    for member in 1..=n {
        let size = size_of(member, owners);
        least = least.min(size);
        most = most.max(size);
    }
    most.saturating_sub(least) <= 1 && are_owned(n, owners)
}

/// The most partitions that a balanced assignment to the members 1 to n leaves with their owners.
fn most_retained(n: u32, owners: &[u32]) -> usize
    requires { length owners.now ≤ 4 }
{
    let mut most = 0;
    for code in 0..256 {
        let others = owners_of(code);
        let others = &others[..owners.len()];
        if is_balanced(n, others) {
            most = most.max(retained(owners, others));
        }
    }
    most
}

/// Whether no partition is owned by a member above n.
fn are_at_most(n: u32, owners: &[u32]) -> bool {
    for owner in owners {
        if n < *owner {
            return false;
        }
    }
    true
}

/// Checks the assignment to the members 1 to n against all balanced assignments.
fn check_best(rt: &impl Abort, alloc: Global, n: u32, owners: &[u32]) -> Result<(), Memory>
    requires members { n ≤ 3 }
    requires partitions { (1 ≤ length owners.now) × (length owners.now ≤ 4) }
{
    let given = assigned(rt, alloc, &[1, 2, 3][..n as usize], owners)?;
    assert_eq!(rt;
        (is_balanced(n, &given), retained(owners, &given)),
        (true, most_retained(n, owners)),
        "{owners:?}"
    );
    Ok(())
}

/// The same for all that the members 1 to n can own of this many partitions, by code.
fn check_codes(
    rt: &impl Abort,
    alloc: Global,
    n: u32,
    partitions: usize,
    codes: u32,
) -> Result<(), Memory>
    requires members { n ≤ 3 }
    requires partitions { (1 ≤ partitions) × (partitions ≤ 4) }
{
    for code in 0..codes {
        let owners = owners_of(code);
        let owners = &owners[..partitions];
        if are_at_most(n, owners) {
            check_best(rt, alloc, n, owners)?;
        }
    }
    Ok(())
}

#[test]
fn no_balanced_assignment_retains_more(rt: HostRuntime) -> Result<(), Fail> {
    for n in 1..=3 {
        for (partitions, codes) in [(1, 4), (2, 16), (3, 64), (4, 256)] {
            check_codes(&rt, rt.alloc(), n, partitions, codes)?;
        }
    }
    Ok(())
}

/// The most members, from 1 on.
pub fn most_members(alloc: Global) -> Result<Vec<u32>, Memory> {
    Ok((1..MOST_MEMBERS as u32 + 1).collect(alloc)?)
}

/// The first member without exactly eight partitions, and how many it has.
fn first_uneven(members: &[u32], owners: &[u32]) -> Option<(u32, usize)> {
    for member in members {
        let size = size_of(*member, owners);
        if size != MOST_PARTITIONS as usize / MOST_MEMBERS {
            return Some((*member, size));
        }
    }
    None
}

/// The owners after an assignment to these members, the most that there can be. Checks that each
/// has eight partitions.
fn spread_over(
    rt: &impl Abort,
    alloc: Global,
    members: &[u32],
    owners: &[u32],
) -> Result<Vec<u32>, Memory>
    requires { length owners.now ≡ MOST_PARTITIONS }
{
    let given = assigned(rt, alloc, members, owners)?;
    assert_eq!(rt; first_uneven(members, &given), None);
    Ok(given)
}

/// The same for the members 1 to 512.
fn spread(rt: &impl Abort, alloc: Global, owners: &[u32]) -> Result<Vec<u32>, Memory>
    requires { length owners.now ≡ MOST_PARTITIONS }
{
    let members = most_members(alloc)?;
    spread_over(rt, alloc, &members, owners)
}

/// How many partitions stay with their owners when they are spread.
fn retained_by_spread(rt: &impl Abort, alloc: Global, owners: &[u32]) -> Result<usize, Memory>
    requires { length owners.now ≡ MOST_PARTITIONS }
{
    let given = spread(rt, alloc, owners)?;
    Ok(retained(owners, &given))
}

/// Whether spreading changes no owner.
fn stays_by_spread(rt: &impl Abort, alloc: Global, owners: &[u32]) -> Result<bool, Memory>
    requires { length owners.now ≡ MOST_PARTITIONS }
{
    let given = spread(rt, alloc, owners)?;
    Ok(given.as_slice() == owners)
}

/// Owners for the most partitions, round-robin.
pub fn round_robin(alloc: Global) -> Result<Vec<u32>, Memory>
    ensures { IfOk result (λ owners. length owners.items ≡ MOST_PARTITIONS) }
{
    let mut owners = vec![in alloc; 0; MOST_PARTITIONS as usize]?;
    for q in 0..MOST_PARTITIONS {
        owners[q as usize] = q % MOST_MEMBERS as u32 + 1;
    }
    Ok(owners)
}

/// How many partitions stay with a member that owned all of the most.
fn retained_of_all(rt: &impl Abort, alloc: Global) -> Result<usize, Memory> {
    let owners = vec![in alloc; 1; MOST_PARTITIONS as usize]?;
    retained_by_spread(rt, alloc, &owners)
}

/// Whether round-robin owners stay as they are.
fn round_robin_stays(rt: &impl Abort, alloc: Global) -> Result<bool, Memory> {
    let owners = round_robin(alloc)?;
    stays_by_spread(rt, alloc, &owners)
}

/// How many partitions stay with a member that owned all, and whether round-robin owners stay.
fn spread_most(rt: &impl Abort, alloc: Global) -> Result<(usize, bool), Memory> {
    Ok((retained_of_all(rt, alloc)?, round_robin_stays(rt, alloc)?))
}

#[test]
fn spreads_the_most_partitions(rt: HostRuntime) {
    // One member owns all and retains eight; an even assignment does not change.
    let share = MOST_PARTITIONS as usize / MOST_MEMBERS;
    assert_eq!(rt; spread_most(&rt, rt.alloc()), Ok((share, true)));
}

/// Owners for the most partitions: the first 1366 are with member 1, then runs of 1365 with the
/// members 2 and 3.
fn in_runs(alloc: Global) -> Result<Vec<u32>, Memory> {
    let mut owners = vec![in alloc; 3; MOST_PARTITIONS as usize]?;
    for q in 0..2731 {
        owners[q] = if q < 1366 { 1 } else { 2 };
    }
    Ok(owners)
}

#[test]
fn spreads_what_one_owned_over_three(rt: HostRuntime) -> Result<(), Fail> {
    // 4096 is 1366 plus twice 1365: the owner retains its first 1366, and the others take runs.
    let owners = vec![in rt.alloc(); 1; MOST_PARTITIONS as usize]?;
    let expected = in_runs(rt.alloc())?;
    check_example(&rt, rt.alloc(), &[1, 2, 3], &owners, &expected, 1366)?;
    Ok(())
}
