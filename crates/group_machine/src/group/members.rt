//! Look-ups over slots.

ghost use Rattle.std.specs.Prelude.{◌≡◌, ◌<◌, ◌≤◌, length, position, Some, None, IfSome, MatchOption};
ghost use Rattle.std.specs.Iterator.{YieldsFirst, item_count};
ghost use Rattle.group_machine.specs.Slots.{members_in, owner_in};
ghost use Rattle.group_machine.specs.State.{is_static_as, static_in, name_at, number_in};

use super::{Slot, slots};
use lane_words::MOST_MEMBERS;
use partitioner::Name;
use std::marker::Model;

/// An iterator over the present members, in rising order.
#[derive(Drop)]
pub struct Members<'a> {
    /// All slots.
    slots: &'a [Slot],
    /// The slots before this index have been visited.
    index: usize,
}

impl<'a> Model for Members<'a> {
    ghost use Rattle.std.specs.Prelude.{List, ℕ};

    ghost Value = { List ℕ };

    ghost use Rattle.group_machine.specs.Private.MembersLeft.{members_left, IsValidMembers};

    ghost view = { members_left };

    ghost invariant = { IsValidMembers };
}

impl<'a> Members<'a> {
    /// Starts at the lowest member.
    pub(crate) fn new(slots: &'a [Slot]) -> Members<'a>
        requires { length slots.now ≤ MOST_MEMBERS }
        ensures { result ≡ members_in slots.now }
    {
        Members { slots, index: 0 }
    }
}

impl<'a> Iterator for Members<'a> {
    type Item = u32;

    ghost next_gives = { YieldsFirst (λ s. s) };

    ghost remaining = { item_count (λ s. s) };

    fn next(&mut self) -> Option<u32> {
        let slots = self.slots;
        for index in self.index..slots.len() {
            if slots[index].seat.is_some() {
                self.index = index + 1;
                return Some(index as u32 + 1);
            }
        }
        self.index = slots.len();
        None
    }
}

/// The present member that a partition is granted to.
pub fn owner_of(slots: &[Slot], q: u32) -> Option<u32>
    requires { length slots.now ≤ MOST_MEMBERS }
    ensures { result ≡ owner_in slots.now q }
{
    for (index, slot) in slots.iter().enumerate() {
        if let Some(seat) = &slot.seat {
            if seat.granted.contains(q) {
                return Some(index as u32 + 1);
            }
        }
    }
    None
}

/// The name of a member number that was given out, present or not.
pub fn name_of(slots: &[Slot], member: u32) -> Option<&Name>
    ensures { MatchOption result (name_at slots.now member ≡ None)
        (λ name. name_at slots.now member ≡ Some name.now) }
{
    let index = member.checked_sub(1)?;
    let slot = slots.get(index as usize)?;
    Some(&slot.name)
}

/// The newest member number that has this name, present or not.
pub fn number_named(slots: &[Slot], name: &Name) -> Option<u32>
    requires { length slots.now ≤ MOST_MEMBERS }
    ensures { result ≡ number_in slots.now name.now }
{
    let mut number = None;
    for (index, slot) in slots.iter().enumerate() {
        if slot.name.text() == name.text() {
            number = Some(index as u32 + 1);
        }
    }
    number
}

/// The present static member of this name.
pub fn static_member(slots: &[Slot], name: &Name) -> Option<u32>
    requires { length slots.now ≤ MOST_MEMBERS }
    ensures { result ≡ static_in slots.now name.now }
{
    let index = static_index(slots, name)?;
    Some(index as u32 + 1)
}

/// The index of the slot of the present static member of this name.
fn static_index(slots: &[Slot], name: &Name) -> Option<usize>
    ensures value { result ≡ position (is_static_as name.now) slots.now }
    ensures bound { IfSome result (λ k. k < length slots.now) }
{
    slots
        .iter()
        .position(|slot| slots::is_static_as(slot, name))
}
