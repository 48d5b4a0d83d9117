//! The moves of a completion: which member takes which partition.

ghost use Rattle.std.specs.Prelude.{◌≡◌, ◌^◌, ◌+◌, ◌++◌, ◌<◌, ◌≤◌, ℕ, Some, None, true, length, slice_index_or, IfOk};
ghost use Rattle.std.specs.Vec.{vec_len, vec_capacity};
ghost use Rattle.bit_planes.specs.PartitionSet.{is_in, partitions_of};
ghost use Rattle.bit_planes.specs.SetRows.{set_of};
ghost use Rattle.group_machine.specs.Moves.{held_by, takers_in, moves_by, last_by};
ghost use Rattle.group_machine.specs.Private.Walks.{taken_by};

use super::Move;
use bit_planes::{Plane, PlaneRows};
use coop_rebalance::added;
use lane_words::Memory;
use std::alloc::Global;

/// The member that takes each partition, which is in its next row and not granted to it yet.
pub fn takers_of(
    alloc: Global,
    granted: &PlaneRows,
    next: &PlaneRows,
) -> Result<Vec<Option<u32>>, Memory>
    requires partitions { next.now.partitions ≡ granted.now.partitions }
    requires disjoint { (m n q : ℕ) → is_in (set_of next.now m) q ≡ true
        → is_in (set_of next.now n) q ≡ true → m ≡ n }
    ensures { IfOk result (λ takers. takers.items ≡ takers_in granted.now next.now) }
{
    let mut takers: Vec<Option<u32>> = vec![in alloc; None; granted.partitions() as usize]?;
    for (member, plane) in granted.iter() {
        if let Some(row) = next.get(member) {
            take_added(&mut takers, member, &added(row, plane));
        }
    }
    Ok(takers)
}

/// Records a member as the taker of these partitions.
fn take_added(takers: &mut [Option<u32>], member: u32, added: &Plane)
    requires { partitions_of added.now ≡ length takers.old }
    ensures value { (q : ℕ) → q < length takers.old
        → slice_index_or takers.new q None ≡ taken_by member added.now takers.old q }
    ensures len { length takers.new ≡ length takers.old }
{
    for q in added.iter() {
        takers[q as usize] = Some(member);
    }
}

/// A move for each partition that is taken, in rising order.
pub fn moves_of(
    alloc: Global,
    generation: u32,
    takers: &[Option<u32>],
    last: &[Option<u32>],
) -> Result<Vec<Move>, Memory>
    requires bound { length takers.now < 2 ^ 32 }
    requires len { length takers.now ≡ length last.now }
    ensures { IfOk result (λ moves. moves.items ≡ moves_by generation takers.now last.now) }
{
    let mut moves = Vec::new(alloc);
    for (partition, taker) in takers.iter().enumerate() {
        if let Some(holder) = taker {
            moves.push(Move {
                generation,
                partition: partition as u32,
                last: last[partition],
                holder: *holder,
            })?;
        }
    }
    Ok(moves)
}

/// Makes each taker the last holder of its partition.
pub fn hold(last: &mut [Option<u32>], takers: &[Option<u32>])
    requires { length takers.now ≡ length last.old }
    ensures { last.new ≡ last_by takers.now last.old }
{
    for (partition, taker) in takers.iter().enumerate() {
        if let Some(holder) = taker {
            last[partition] = Some(*holder);
        }
    }
}

/// Makes a member the last holder of these partitions.
pub fn take(last: &mut [Option<u32>], member: u32, granted: &Plane)
    requires { partitions_of granted.now ≡ length last.old }
    ensures { last.new ≡ held_by member granted.now last.old }
{
    take_added(last, member, granted);
}

/// Appends moves, for which capacity is reserved.
pub fn append(moves: &mut Vec<Move>, new: &[Move])
    requires { vec_len moves.old + length new.now ≤ vec_capacity moves.old }
    ensures { moves.new.items ≡ moves.old.items ++ new.now }
{
    for made in new {
        moves.push_reserved(*made);
    }
}
