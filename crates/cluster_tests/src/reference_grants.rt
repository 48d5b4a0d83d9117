//! Reference implementation of collecting grants: it makes a new set in each step.

ghost use Rattle.coop_rebalance.specs.Private.Grants.{AreGrants};

use bit_planes::{Plane, PlaneRows};

/// What is granted to one or more members, and what to two or more.
pub fn grants_of(granted: &PlaneRows) -> (Plane, Plane)
    ensures { AreGrants result.0 result.1 granted.now }
{
    let mut some = Plane::new(granted.partitions());
    let mut several = Plane::new(granted.partitions());
    for (_, row) in granted.iter() {
        let fresh = row.minus(&some);
        several = several.union(&row.minus(&fresh));
        some = some.union(&fresh);
    }
    (some, several)
}
