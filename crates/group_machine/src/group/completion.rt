//! Planning and applying a completion: the rows that it assigns, and the seats after it.

ghost use Rattle.std.specs.Prelude.{◌≡◌, ◌≤◌, length, false, IfOk};
ghost use Rattle.bit_planes.specs.PartitionSet.{partitions_of, union};
ghost use Rattle.bit_planes.specs.SetRows.{set_of};
ghost use Rattle.coop_rebalance.specs.Rounds.{AreGranted, next_rows};
ghost use Rattle.group_machine.specs.Slots.{each_changed};
ghost use Rattle.group_machine.specs.Completion.{completed_seat};
ghost use Rattle.group_machine.specs.Private.Walks.{AreSeatsOver};

use super::{Move, Seat, Slot};
use bit_planes::{Plane, PlaneRows};
use coop_rebalance::withhold_in_place;
use lane_words::{MOST_MEMBERS, Memory};
use std::alloc::Global;
use sticky_assignor::assign;

/// A planned completion. It has all that it needs before anything changes.
#[derive(Drop)]
pub struct Completion {
    /// What each member is assigned.
    pub next: PlaneRows,
    /// The member that takes each partition.
    pub takers: Vec<Option<u32>>,
    /// The moves that it makes.
    pub moves: Vec<Move>,
}

/// The rows to assign: each member's part of the sticky target that no other member is granted.
pub fn next_rows(alloc: Global, granted: &PlaneRows) -> Result<PlaneRows, Memory>
    requires { AreGranted granted.now }
    ensures { IfOk result (λ rows. rows ≡ next_rows granted.now) }
{
    let members: Vec<u32> = granted.members().collect(alloc)?;
    let mut rows = assign(alloc, granted.partitions(), &members, granted)?;
    withhold_in_place(&mut rows, granted);
    Ok(rows)
}

/// Gives each present member its row, and clears its flags.
pub fn give(slots: &mut [Slot], next: &PlaneRows)
    requires bound { length slots.old ≤ MOST_MEMBERS }
    requires valid { AreSeatsOver next.now.partitions slots.old }
    ensures { slots.new ≡ each_changed (completed_seat next.now) slots.old }
{
    for index in 0..slots.len() {
        if let Some(seat) = &mut slots[index].seat {
            complete_seat(seat, row_for(next, index as u32 + 1));
        }
    }
}

/// A member's row, which is empty if it has none.
fn row_for(next: &PlaneRows, member: u32) -> Plane
    ensures row { result ≡ set_of next.now member }
    ensures partitions { partitions_of result ≡ next.now.partitions }
{
    match next.get(member) {
        Some(row) => row.copy(),
        None => Plane::new(next.partitions()),
    }
}

/// Assigns a row to a member and adds it to what it is granted.
fn complete_seat(seat: &mut Seat, row: Plane)
    requires { partitions_of seat.old.granted ≡ partitions_of row }
    ensures { seat.new
        ≡ record {
          joined = false;
          synced = false;
          is_static = seat.old.is_static;
          granted = union seat.old.granted row;
          assigned = row;
        } }
{
    seat.joined = false;
    seat.synced = false;
    seat.granted.insert_all(&row);
    seat.assigned = row;
}
