//! Laws of the rounds of a rebalance.

ghost use Rattle.bit_planes.specs.SetRows.{SetRows};
ghost use Rattle.coop_rebalance.specs.Rounds.{AreDisjoint, AreGranted, next_rows, together, LiesInTarget, Settles};

/// Two rounds settle: once each member is granted what the first round assigned to it, the target
/// of the second retains all of that, and withholds nothing.
pub fn second_round_settles()
    ensures { (granted : SetRows) → AreGranted granted → Settles (next_rows granted) }
{}

/// What a round assigns lies within a balanced assignment: its target.
pub fn round_lies_in_balanced()
    ensures { (granted : SetRows) → AreGranted granted → LiesInTarget granted (next_rows granted) }
{}

/// What the members are granted, together with what a round assigns to them, stays disjoint.
pub fn assigned_stays_disjoint()
    ensures { (granted : SetRows)
        → AreGranted granted → AreDisjoint (together granted (next_rows granted)) }
{}
