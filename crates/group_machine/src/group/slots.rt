//! Steps on single seats. Slot k is member k + 1.

ghost use Rattle.std.specs.Prelude.{◌≡◌, Some, None, MatchOption, true, is_some, ℕ};
ghost use Rattle.std.specs.List.{list_any, list_all};
ghost use Rattle.std.specs.Option.{option_map, option_map_or};
ghost use Rattle.std.specs.Str.{bytes_eq};
ghost use Rattle.group_machine.specs.Slots.{is_anybody_in, seat_of, one_changed, without_seat};
ghost use Rattle.group_machine.specs.Steps.{handed_seat, static_seat, phase_left, rejoined_seat, synced_seat};
ghost use Rattle.group_machine.specs.State.{is_static_as};
ghost use Rattle.group_machine.specs.Settled.{agrees};
ghost use Rattle.group_machine.specs.Private.Walks.{AreSeatsOver};

use super::{Phase, Seat, Slot};
use partitioner::Name;

/// Whether a member, present or not, has this name.
pub fn is_used(slots: &[Slot], name: &Name) -> bool
    ensures { result ≡ list_any (λ s. bytes_eq s.name name.now) slots.now }
{
    slots.iter().any(|slot| slot.name.text() == name.text())
}

/// The seat of a member, while it is present.
pub fn seat_of(slots: &[Slot], member: u32) -> Option<&Seat>
    ensures { MatchOption result (seat_of slots.now member ≡ None)
        (λ seat. seat_of slots.now member ≡ Some seat.now) }
{
    let index = member.checked_sub(1)?;
    slots.get(index as usize)?.seat.as_ref()
}

/// Whether a member is present.
pub fn is_present(slots: &[Slot], member: u32) -> bool
    ensures { result ≡ is_some (seat_of slots.now member) }
{
    seat_of(slots, member).is_some()
}

/// A present member revokes what it is not assigned and rejoins.
pub fn rejoin(slots: &mut [Slot], member: u32)
    requires { is_some (seat_of slots.old member) ≡ true }
    ensures { slots.new ≡ one_changed rejoined_seat slots.old member }
{
    if let Some(seat) = &mut slots[member as usize - 1].seat {
        seat.joined = true;
        seat.granted = seat.assigned.copy();
    }
}

/// Removes a present member's seat.
pub fn remove(slots: &mut [Slot], member: u32)
    requires { is_some (seat_of slots.old member) ≡ true }
    ensures { slots.new ≡ without_seat slots.old member }
{
    slots[member as usize - 1].seat = None;
}

/// Marks a present member as synced.
pub fn mark_synced(slots: &mut [Slot], member: u32)
    requires { is_some (seat_of slots.old member) ≡ true }
    ensures { slots.new ≡ one_changed synced_seat slots.old member }
{
    if let Some(seat) = &mut slots[member as usize - 1].seat {
        seat.synced = true;
    }
}

/// Makes a present member static.
pub fn make_static(slots: &mut [Slot], member: u32)
    requires { is_some (seat_of slots.old member) ≡ true }
    ensures { slots.new ≡ one_changed static_seat slots.old member }
{
    if let Some(seat) = &mut slots[member as usize - 1].seat {
        seat.is_static = true;
    }
}

/// Removes a present member's seat and returns it, unsynced, for its successor.
pub fn hand_out(slots: &mut [Slot], member: u32) -> Option<Seat>
    requires { is_some (seat_of slots.old member) ≡ true }
    ensures seat { result ≡ option_map handed_seat (seat_of slots.old member) }
    ensures slots { slots.new ≡ without_seat slots.old member }
{
    let mut taken = slots[member as usize - 1].seat.take();
    if let Some(seat) = &mut taken {
        seat.synced = false;
    }
    taken
}

/// Whether a slot is of a present static member of this name.
pub fn is_static_as(slot: &Slot, name: &Name) -> bool
    ensures { result ≡ is_static_as name.now slot.now }
{
    slot.name.text() == name.text() && slot.seat.as_ref().is_some_and(|seat| seat.is_static)
}

/// Whether any member is present.
pub fn is_anybody(slots: &[Slot]) -> bool
    ensures { result ≡ is_anybody_in slots.now }
{
    slots.iter().any(|slot| slot.seat.is_some())
}

/// The phase of a group after a member has left.
pub fn phase_left(slots: &[Slot]) -> Phase
    ensures { result ≡ phase_left slots.now }
{
    if is_anybody(slots) {
        Phase::Preparing
    } else {
        Phase::Empty
    }
}

/// Whether no member has anything to revoke.
pub fn all_agree(slots: &[Slot]) -> bool
    requires { (partitions : ℕ) × AreSeatsOver partitions slots.now }
    ensures { result ≡ list_all (λ s. option_map_or agrees s.seat true) slots.now }
{
    for slot in slots {
        if let Some(seat) = &slot.seat {
            if !seat.granted.same(&seat.assigned) {
                return false;
            }
        }
    }
    true
}
