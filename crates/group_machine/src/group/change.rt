//! The change of a step, and what members have after it, computed before it is made.

ghost use Rattle.std.specs.Prelude.{◌≡◌, ◌≤◌, ℕ, List, None, Some, MatchOption, IfOk, length};
ghost use Rattle.std.specs.Option.{option_map};
ghost use Rattle.group_machine.specs.Slots.{granted_in, is_ready_in};
ghost use Rattle.group_machine.specs.Private.Walks.{AreSeatsOver};
ghost use Rattle.group_machine.specs.Private.Changes.{HasGranted, seat_after, slots_after};

use super::Slot;
use bit_planes::{Plane, PlaneRows};
use lane_words::{MOST_MEMBERS, MOST_PARTITIONS, Memory};
use std::alloc::Global;

/// The change that a step makes to the members.
#[derive(Clone, Copy)]
pub enum Change {
    /// A new member joins under the next number.
    Joins,
    /// This member revokes what it is not assigned and rejoins.
    Rejoins(u32),
    /// This member leaves.
    Leaves(u32),
}

impl Change {
    /// What an old member is granted after the change, if it is present then.
    fn granted(self, member: u32, slot: &Slot) -> Option<&Plane>
        ensures { MatchOption result (seat_after self member slot.now.seat ≡ None)
            (λ plane. HasGranted self member slot.now.seat plane.now) }
    {
        let seat = slot.seat.as_ref()?;
        match self {
            Change::Rejoins(changed) if changed == member => Some(&seat.assigned),
            Change::Leaves(changed) if changed == member => None,
            _ => Some(&seat.granted),
        }
    }

    /// Whether an old member has joined after the change, if it is present then.
    fn joined(self, member: u32, slot: &Slot) -> Option<bool>
        ensures { result ≡ option_map (λ x. x.joined) (seat_after self member slot.now.seat) }
    {
        let seat = slot.seat.as_ref()?;
        match self {
            Change::Rejoins(changed) if changed == member => Some(true),
            Change::Leaves(changed) if changed == member => None,
            _ => Some(seat.joined),
        }
    }
}

/// Whether the change leaves at least one member, and all have joined.
pub fn is_ready_after(slots: &[Slot], change: Change) -> bool
    requires { length slots.now ≤ MOST_MEMBERS }
    ensures { (partitions : ℕ) (name : List ℕ)
        → result ≡ is_ready_in (slots_after partitions name change slots.now) }
{
    let mut anybody = matches!(change, Change::Joins);
    for (index, slot) in slots.iter().enumerate() {
        if let Some(joined) = change.joined(index as u32 + 1, slot) {
            if !joined {
                return false;
            }
            anybody = true;
        }
    }
    anybody
}

/// What each member is granted after the change.
pub fn granted_rows(
    alloc: Global,
    partitions: u32,
    slots: &[Slot],
    change: Change,
) -> Result<PlaneRows, Memory>
    requires partitions { (1 ≤ partitions) × (partitions ≤ MOST_PARTITIONS) }
    requires bound { length slots.now ≤ MOST_MEMBERS }
    requires valid { AreSeatsOver partitions slots.now }
    ensures { (name : List ℕ) → IfOk result (λ rows.
        rows ≡ granted_in partitions (slots_after partitions name change slots.now)) }
{
    let mut rows = PlaneRows::with_row_capacity(alloc, partitions, slots.len() + 1)?;
    for (index, slot) in slots.iter().enumerate() {
        let member = index as u32 + 1;
        if let Some(granted) = change.granted(member, slot) {
            rows.put(member, granted.copy())?;
        }
    }
    if let Change::Joins = change {
        rows.put(slots.len() as u32 + 1, Plane::new(partitions))?;
    }
    Ok(rows)
}
