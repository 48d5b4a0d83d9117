//! What members get at once, and what others have to revoke first.

ghost use Rattle.std.specs.Prelude.{◌≡◌, ◌&&◌, ◌||◌, ◌↔◌, ℕ, not, IfOk, IsTrue};
ghost use Rattle.bit_planes.specs.PartitionSet.{partitions_of, is_in, minus};
ghost use Rattle.bit_planes.specs.SetRows.{HaveSameRows, IsValidRows, members};
ghost use Rattle.coop_rebalance.specs.Private.Grants.{AreGrants};
ghost use Rattle.coop_rebalance.specs.Private.Final.{HasRowsOf};
ghost use Rattle.coop_rebalance.specs.Withheld.{AreWithoutOthers, granted_to_other, withheld};

use bit_planes::{Plane, PlaneRows};
use lane_words::Memory;
use std::alloc::Global;

/// Each member's target row without what any other member is granted. Both are over the same number
/// of partitions. So nobody gets a partition before its present owner has revoked it (KIP-429). The
/// cost is linear in members times partitions. It fails only when out of memory.
pub fn withhold(alloc: Global, target: &PlaneRows, granted: &PlaneRows) -> Result<PlaneRows, Memory>
    requires { target.now.partitions ≡ granted.now.partitions }
    ensures value { IfOk result (λ rows. rows ≡ withheld target.now granted.now) }
    ensures elements { IfOk result (λ rows. AreWithoutOthers rows target.now granted.now) }
    ensures members { IfOk result (λ rows. members rows ≡ members target.now) }
    ensures partitions { IfOk result (λ rows. rows.partitions ≡ target.now.partitions) }
    ensures valid { IfOk result IsValidRows }
{
    let grants = Grants::of(granted);
    let mut rows = PlaneRows::with_row_capacity(alloc, target.partitions(), target.len())?;
    for (member, row) in target.iter() {
        let mut given = row.copy();
        given.remove_all(&grants.of_others(granted, member));
        rows.put(member, given)?;
    }
    Ok(rows)
}

/// `withhold` in place, where `granted` has rows of the same members, over the same number of
/// partitions. It allocates nothing.
pub fn withhold_in_place(rows: &mut PlaneRows, granted: &PlaneRows)
    requires partitions { rows.old.partitions ≡ granted.now.partitions }
    requires members { members rows.old ≡ members granted.now }
    ensures value { rows.new ≡ withheld rows.old granted.now }
    ensures elements { AreWithoutOthers rows.new rows.old granted.now }
    ensures members { members rows.new ≡ members rows.old }
    ensures partitions { rows.new.partitions ≡ rows.old.partitions }
{
    let grants = Grants::of(granted);
    for (member, own) in granted.iter() {
        rows.remove_from(member, &grants.to_others(own));
    }
}

/// What a member has to revoke: what is granted and not assigned to it. Both sets are over the same
/// number of partitions. It allocates nothing.
pub fn to_give(granted: &Plane, assigned: &Plane) -> Plane
    requires { partitions_of granted.now ≡ partitions_of assigned.now }
    ensures value { result ≡ minus granted.now assigned.now }
    ensures elements { (q : ℕ)
        → is_in result q ≡ (is_in granted.now q && not (is_in assigned.now q)) }
    ensures partitions { partitions_of result ≡ partitions_of granted.now }
{
    granted.minus(assigned)
}

/// What a member gains: what is assigned and not granted to it. Both sets are over the same number
/// of partitions. It allocates nothing.
pub fn added(assigned: &Plane, granted: &Plane) -> Plane
    requires { partitions_of assigned.now ≡ partitions_of granted.now }
    ensures value { result ≡ minus assigned.now granted.now }
    ensures elements { (q : ℕ)
        → is_in result q ≡ (is_in assigned.now q && not (is_in granted.now q)) }
    ensures partitions { partitions_of result ≡ partitions_of assigned.now }
{
    assigned.minus(granted)
}

/// Whether each member is granted exactly what it is assigned. Both are over the same number of
/// partitions. It is false if a member has a row on one side only, even an empty one. It allocates
/// nothing.
pub fn is_final(granted: &PlaneRows, assigned: &PlaneRows) -> bool
    requires { granted.now.partitions ≡ assigned.now.partitions }
    ensures rows { IsTrue result ↔ HaveSameRows granted.now assigned.now }
    ensures iff { IsTrue result ↔ (granted.now ≡ assigned.now) }
{
    has_rows_of(granted, assigned) && has_rows_of(assigned, granted)
}

/// Whether these rows contain each row of the other table.
fn has_rows_of(rows: &PlaneRows, others: &PlaneRows) -> bool
    requires { rows.now.partitions ≡ others.now.partitions }
    ensures rows { IsTrue result ↔ HasRowsOf rows.now others.now }
    ensures valid { IsValidRows others.now }
{
    for (member, row) in others.iter() {
        let Some(own) = rows.get(member) else {
            return false;
        };
        if !own.same(row) {
            return false;
        }
    }
    true
}

/// The partitions that are granted to at least one member, and to at least two.
#[derive(Debug, Drop)]
struct Grants {
    /// Granted to one or more members.
    some: Plane,
    /// Granted to two or more members.
    several: Plane,
}

impl Grants {
    /// Collects both sets from the granted rows.
    fn of(granted: &PlaneRows) -> Grants
        ensures { AreGrants result.some result.several granted.now }
    {
        let mut some = Plane::new(granted.partitions());
        let mut several = Plane::new(granted.partitions());
        for (_, row) in granted.iter() {
            // In a group the rows are disjoint, so this is rare.
            if row.meets(&some) {
                several.insert_all(&row.minus(&row.minus(&some)));
            }
            some.insert_all(row);
        }
        Grants { some, several }
    }

    /// What all members other than this one are granted.
    fn of_others(&self, granted: &PlaneRows, member: u32) -> Plane
        requires { AreGrants self.now.some self.now.several granted.now }
        ensures elements { (q : ℕ) → is_in result q ≡ granted_to_other granted.now.rows member q }
        ensures partitions { partitions_of result ≡ granted.now.partitions }
    {
        match granted.get(member) {
            Some(own) => self.to_others(own),
            None => self.some.copy(),
        }
    }

    /// What all members other than the one with this row are granted.
    fn to_others(&self, own: &Plane) -> Plane
        requires nonempty { partitions_of self.now.some ≡ partitions_of own.now }
        requires several { partitions_of self.now.several ≡ partitions_of own.now }
        ensures elements { (q : ℕ) → is_in result q
            ≡ ((is_in self.now.some q && not (is_in own.now q)) || is_in self.now.several q) }
        ensures partitions { partitions_of result ≡ partitions_of own.now }
    {
        let mut others = self.some.copy();
        others.remove_all(own);
        others.insert_all(&self.several);
        others
    }
}
