//! Sets of partitions and tables of them: each call once, from one partition to the most.

ghost use Rattle.std.specs.Prelude.{◌≡◌, ◌<◌, ◌≤◌, IfOk};
ghost use Rattle.bit_planes.specs.PartitionSet.{partitions_of};

use crate::reference_plane::ReferencePlane;
use bit_planes::{Plane, PlaneRows};
use lane_words::{MOST_MEMBERS, MOST_PARTITIONS, Memory};
use std::alloc::Global;
use std::process::Abort;
use std::test::Fail;

// Functions compute what is asserted, and tests assert once: each assertion is proved together with
// all drops that its message needs and all facts from the calls before it.

/// Whether a set over this many partitions has its first and its last number, and none past them.
fn has_edges(set: &Plane, partitions: u32) -> bool {
    set.contains(0)
        && set.contains(partitions.saturating_sub(1))
        && !set.contains(partitions)
        && !set.contains(u32::MAX)
        && set.count() == if partitions == 1 { 1 } else { 2 }
}

/// Whether a set can add its first and last number, and remove the last one, but not one past it.
fn adds_and_removes_edges(partitions: u32) -> bool
    requires { (1 ≤ partitions) × (partitions ≤ MOST_PARTITIONS) }
{
    let mut set = Plane::new(partitions);
    let was_empty = set.count() == 0;
    set.insert(0);
    set.insert(partitions - 1);
    let had_edges = has_edges(&set, partitions);
    set.remove(partitions);
    set.remove(partitions - 1);
    was_empty && had_edges && !set.contains(partitions - 1)
}

/// Whether a full set has each of its partitions.
fn is_full(set: &Plane, partitions: u32) -> bool {
    set.count() == partitions
        && set.iter().count() == partitions as usize
        && set.partitions() == partitions
}

#[test]
fn has_first_and_last(rt: HostRuntime) {
    for partitions in [1, 4, 513, 4096] {
        assert!(rt; adds_and_removes_edges(partitions), "{partitions}");
        assert!(rt;
            is_full(&Plane::full(partitions), partitions),
            "{partitions}"
        );
    }
}

/// Whether the sets of the first of 513 partitions, of the last, and of both are distinguished.
fn are_listed(first: &Plane, last: &Plane, both: &Plane) -> bool
    requires last { partitions_of last.now ≡ partitions_of first.now }
    requires both { partitions_of both.now ≡ partitions_of first.now }
{
    last.meets(both)
        && !first.meets(last)
        && first.within(both)
        && !both.within(first)
        && !first.within(last)
        && !first.same(last)
        && both.count() == 2
}

/// Whether union and difference lead from the two sets to both and back.
fn are_parts(first: &Plane, last: &Plane, both: &Plane) -> bool
    requires last { partitions_of last.now ≡ partitions_of first.now }
    requires both { partitions_of both.now ≡ partitions_of first.now }
{
    first.union(last).same(both)
        && both.minus(last).same(first)
        && both.lowest(1).same(first)
        && both.lowest(9).copy().same(both)
}

/// Whether a set returns its elements, and prints them.
fn is_both(alloc: Global, both: &Plane) -> Result<bool, Memory> {
    let text = format!(in alloc; "{both:?}")?;
    Ok(both.iter().eq([0, 512]) && text.as_str() == "{0, 512}")
}

/// Whether all of this holds for sets of more than one word.
fn are_distinguished(first: &Plane, last: &Plane, both: &Plane) -> bool
    requires last { partitions_of last.now ≡ partitions_of first.now }
    requires both { partitions_of both.now ≡ partitions_of first.now }
{
    are_listed(first, last, both) && are_parts(first, last, both)
}

#[test]
fn sets_of_many_words(rt: HostRuntime) {
    let (first, last) = (Plane::of(513, &[0]), Plane::of(513, &[512]));
    let both = Plane::of(513, &[512, 0]);
    assert!(rt; are_distinguished(&first, &last, &both));
    assert_eq!(rt; is_both(rt.alloc(), &both), Ok(true));
}

/// Puts rows unordered, the first one twice.
fn put_each(rows: &mut PlaneRows) -> Result<(), Memory>
    requires { rows.old.partitions ≡ 4 }
{
    rows.put(7, Plane::of(4, &[0]))?;
    rows.put(2, Plane::of(4, &[1]))?;
    rows.put(4_000_000_000, Plane::of(4, &[2]))?;
    rows.put(7, Plane::of(4, &[3]))
}

/// Whether a member's row is this one partition.
fn is_of(rows: &PlaneRows, member: u32, q: u32) -> bool {
    match rows.get(member) {
        Some(set) => set.iter().eq([q]),
        None => false,
    }
}

/// Whether the rows are those that were put last.
fn are_put(rows: &PlaneRows) -> bool {
    rows.partitions() == 4
        && rows.len() == 3
        && rows.members().eq([2, 7, 4_000_000_000])
        && is_of(rows, 7, 3)
        && is_of(rows, 2, 1)
        && rows.get(3).is_none()
}

/// Whether the next row of an iterator is this member's, with this partition.
fn is_given(row: Option<(u32, &Plane)>, member: u32, q: u32) -> bool {
    match row {
        Some((other, set)) => other == member && set.contains(q),
        None => false,
    }
}

/// Whether iteration over the rows begins with the first two.
fn is_walked(rows: &PlaneRows) -> bool {
    let mut walk = rows.iter();
    let first = walk.next();
    let second = walk.next();
    walk.count() == 1 && is_given(first, 2, 1) && is_given(second, 7, 3)
}

#[test]
fn has_a_row_for_each_member(rt: HostRuntime) -> Result<(), Fail> {
    let mut rows = PlaneRows::new(rt.alloc(), 4);
    assert!(rt; rows.get(7).is_none());
    put_each(&mut rows)?;
    assert!(rt; are_put(&rows) && is_walked(&rows));
    Ok(())
}

/// The set of one element, over the most partitions.
fn one_of_most(q: u32) -> Plane
    requires { q < MOST_PARTITIONS }
    ensures { partitions_of result ≡ MOST_PARTITIONS }
{
    let mut set = Plane::new(MOST_PARTITIONS);
    set.insert(q);
    set
}

/// Rows of the most members, each with the set of its own number, put in no order.
fn most_rows(alloc: Global) -> Result<PlaneRows, Memory> {
    let mut rows = PlaneRows::new(alloc, MOST_PARTITIONS);
    for i in 0..MOST_MEMBERS as u32 {
        let member = i * 5 % MOST_MEMBERS as u32;
        rows.put(member, one_of_most(member))?;
    }
    Ok(rows)
}

/// The first member whose row is not the set of its own number.
fn first_other(rows: &PlaneRows) -> Option<u32> {
    for (member, set) in rows.iter() {
        if !set.iter().eq([member]) {
            return Some(member);
        }
    }
    None
}

/// The number of these rows, whether all members have one, and the first member whose row is not
/// the set of its own number.
fn summary_of_most(alloc: Global) -> Result<(usize, bool, Option<u32>), Memory> {
    let rows = most_rows(alloc)?;
    let are_all = rows.members().eq(0..MOST_MEMBERS as u32);
    Ok((rows.len(), are_all, first_other(&rows)))
}

#[test]
fn has_the_most_rows(rt: HostRuntime) {
    assert_eq!(rt; summary_of_most(rt.alloc()), Ok((MOST_MEMBERS, true, None)));
}

/// Rows of the members 3 to 10 whose bit is set, each with the set of its own number, put in rising
/// or in falling order.
fn rows_of(alloc: Global, bits: u32, rising: bool) -> Result<PlaneRows, Memory>
    ensures { IfOk result (λ rows. rows.partitions ≡ 16) }
{
    let mut rows = PlaneRows::with_row_capacity(alloc, 16, 4)?;
    for i in 0..8 {
        let member = if rising { 3 + i } else { 10 - i };
        if bits >> (member - 3) & 1 == 1 {
            rows.put(member, Plane::of(16, &[member]))?;
        }
    }
    Ok(rows)
}

/// Whether a member's row is empty.
pub fn is_empty(rows: &PlaneRows, member: u32) -> bool {
    match rows.get(member) {
        Some(set) => set.count() == 0,
        None => false,
    }
}

/// Removes a member's own number from its row, if it has one, and returns whether the row is empty
/// then.
fn is_emptied(rows: &mut PlaneRows, member: u32) -> bool
    requires { (rows.old.partitions ≡ 16) × (member < 16) }
    ensures { rows.new.partitions ≡ 16 }
{
    rows.remove_from(member, &Plane::of(16, &[1, member]));
    is_empty(rows, member)
}

/// The first member that is found without its bit, or not found with it, and how: by the set of its
/// own number in the rising rows and in the falling ones, and by the empty set once that number is
/// removed.
fn first_unfound(rising: &mut PlaneRows, falling: &PlaneRows, bits: u32) -> Option<(u32, [bool; 3])>
    requires { rising.old.partitions ≡ 16 }
{
    for member in 0..14 {
        let there = 3 <= member && member < 11 && bits >> (member - 3) & 1 == 1;
        let found = is_of(rising, member, member);
        let found_falling = is_of(falling, member, member);
        let emptied = is_emptied(rising, member);
        if found != there || found_falling != there || emptied != there {
            return Some((member, [found, found_falling, emptied]));
        }
    }
    None
}

/// Checks the rows of the members whose bits are set, put in rising and in falling order.
fn check_rows(rt: &impl Abort, bits: u32, rising: &mut PlaneRows, falling: &PlaneRows)
    requires { rising.old.partitions ≡ 16 }
{
    let are_same = rising.members().eq(falling.members());
    let unfound = first_unfound(rising, falling, bits);
    assert_eq!(rt;
        (are_same, unfound, rising.len()),
        (true, None, bits.count_ones() as usize),
        "{bits}"
    );
}

/// The same for these bits.
fn check_bits(rt: &impl Abort, alloc: Global, bits: u32) -> Result<(), Memory> {
    let mut rising = rows_of(alloc, bits, true)?;
    let falling = rows_of(alloc, bits, false)?;
    check_rows(rt, bits, &mut rising, &falling);
    Ok(())
}

#[test]
fn finds_rows_next_to_gaps(rt: HostRuntime) -> Result<(), Fail> {
    for bits in 0..256 {
        check_bits(&rt, rt.alloc(), bits)?;
    }
    Ok(())
}

/// The numbers of partitions at which both implementations are compared: around one word, eight
/// words and the most.
const COUNTS: [u32; 9] = [1, 63, 64, 65, 511, 512, 513, 4095, 4096];

/// The number of kinds of sets that are compared.
const KINDS: u32 = 6;

/// Whether a number is in the set of this kind.
fn is_of_kind(kind: u32, partitions: u32, q: u32) -> bool
    requires { 1 ≤ partitions }
{
    match kind {
        0 => q == partitions - 1,
        1 => q == 0,
        2 => q % 3 == 1,
        3 => q / 64 % 2 == 0,
        4 => true,
        _ => false,
    }
}

/// The set of a kind, in both implementations.
fn in_both(kind: u32, partitions: u32) -> (Plane, ReferencePlane)
    requires { (1 ≤ partitions) × (partitions ≤ MOST_PARTITIONS) }
    ensures { (partitions_of result.0 ≡ partitions) × (partitions_of result.1 ≡ partitions) }
{
    let mut set = Plane::new(partitions);
    let mut plain = ReferencePlane::new(partitions);
    for q in 0..partitions {
        if is_of_kind(kind, partitions, q) {
            set.insert(q);
            plain.insert(q);
        }
    }
    (set, plain)
}

/// Whether both have the same elements, by `contains` and by `iter`.
fn are_equal(set: &Plane, plain: &ReferencePlane) -> bool {
    let mut elements = set.iter();
    let mut alike = true;
    for q in 0..set.partitions() + 1 {
        let there = plain.contains(q);
        alike &= set.contains(q) == there;
        if there {
            alike &= elements.next() == Some(q);
        }
    }
    alike && elements.next().is_none()
}

/// The first n for which the n lowest elements of a set differ.
fn first_lowest(set: &Plane, plain: &ReferencePlane) -> Option<u32> {
    let most = set.count().saturating_sub(1);
    for n in [0, 1, 63, 64, 65, 512, most, set.partitions()] {
        if !are_equal(&set.lowest(n), &plain.lowest(n)) {
            return Some(n);
        }
    }
    None
}

/// Compares each call on one set.
fn check_one(rt: &impl Abort, kind: u32, set: &Plane, plain: &ReferencePlane) {
    assert_eq!(rt;
        (are_equal(set, plain), set.count(), first_lowest(set, plain)),
        (true, plain.count(), None),
        "{kind} of {}",
        set.partitions()
    );
}

/// Whether the unions of two sets are equal, both as a new set and in place.
fn unions_are_equal(s: &Plane, t: &Plane, plain: &ReferencePlane) -> bool
    requires { partitions_of s.now ≡ partitions_of t.now }
{
    let mut all = s.copy();
    all.insert_all(t);
    are_equal(&s.union(t), plain) && are_equal(&all, plain)
}

/// Whether the differences of two sets are equal, both as a new set and in place.
fn differences_are_equal(s: &Plane, t: &Plane, plain: &ReferencePlane) -> bool
    requires { partitions_of s.now ≡ partitions_of t.now }
{
    let mut rest = s.copy();
    rest.remove_all(t);
    are_equal(&s.minus(t), plain) && are_equal(&rest, plain)
}

/// Whether two sets meet, whether the first is within the second, and whether they are equal.
fn answers(s: &Plane, t: &Plane) -> (bool, bool, bool)
    requires { partitions_of s.now ≡ partitions_of t.now }
{
    (s.meets(t), s.within(t), s.same(t))
}

/// The same by the reference implementation.
fn reference_answers(s: &ReferencePlane, t: &ReferencePlane) -> (bool, bool, bool)
    requires { partitions_of s.now ≡ partitions_of t.now }
{
    (s.meets(t), s.within(t), s.same(t))
}

/// Compares each call on two sets.
fn check_two(rt: &impl Abort, one: &(Plane, ReferencePlane), other: &(Plane, ReferencePlane))
    requires words { partitions_of one.now.0 ≡ partitions_of other.now.0 }
    requires plain { partitions_of one.now.1 ≡ partitions_of other.now.1 }
{
    let (s, plain_s) = one;
    let (t, plain_t) = other;
    assert!(rt; unions_are_equal(s, t, &plain_s.union(plain_t)));
    assert!(rt; differences_are_equal(s, t, &plain_s.minus(plain_t)));
    assert_eq!(rt; answers(s, t), reference_answers(plain_s, plain_t));
}

/// Compares each call on a set of this kind, and on this set with one of each kind.
fn check_kind(rt: &impl Abort, kind: u32, partitions: u32)
    requires { (1 ≤ partitions) × (partitions ≤ MOST_PARTITIONS) }
{
    let one = in_both(kind, partitions);
    check_one(rt, kind, &one.0, &one.1);
    for other in 0..KINDS {
        check_two(rt, &one, &in_both(other, partitions));
    }
}

#[test]
fn each_call_equals_the_reference(rt: HostRuntime) {
    for partitions in COUNTS {
        for kind in 0..KINDS {
            check_kind(&rt, kind, partitions);
        }
    }
}

#[test]
fn full_sets_lose_one_element(rt: HostRuntime) {
    for partitions in COUNTS {
        let (mut set, mut plain) = (Plane::full(partitions), ReferencePlane::full(partitions));
        assert!(rt; are_equal(&set, &plain), "{partitions}");
        set.remove(partitions / 2);
        plain.remove(partitions / 2);
        assert!(rt; are_equal(&set, &plain.copy()), "{partitions}");
    }
}
