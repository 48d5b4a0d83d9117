//! Lists that are written into the caller's memory.

ghost use Rattle.std.specs.Prelude.{◌≡◌, ◌≤◌, length, map};
ghost use Rattle.bit_planes.specs.PartitionSet.{elements};
ghost use Rattle.group_machine.specs.Cluster.{start_of};
ghost use Rattle.group_machine.specs.State.{members};
ghost use Rattle.keycount_c.specs.Lists.{IsListed, with_front};
ghost use Rattle.keycount_c.specs.Moves.{row_of_move};

use crate::answers::{DONE, TOO_SHORT};
use bit_planes::Plane;
use group_machine::{Cluster, Lease, Move};

/// Lists the elements of a set, in rising order.
pub fn list_elements(set: &Plane, out: &mut [u32], count: &mut usize) -> u32
    ensures { IsListed (elements set.now) out.old result out.new count.new }
{
    *count = set.count() as usize;
    if out.len() < *count {
        return TOO_SHORT;
    }
    put_elements(set, out);
    DONE
}

/// Lists the present members of a cluster, in rising order.
pub fn list_members(cluster: &Cluster, out: &mut [u32], count: &mut usize) -> u32
    ensures { IsListed (members cluster.now.group) out.old result out.new count.new }
{
    // The call gives the proof the cluster's invariant: it has at most 512 members.
    let _ = cluster.partitions();
    *count = cluster.members().count();
    if out.len() < *count {
        return TOO_SHORT;
    }
    put_members(cluster, out);
    DONE
}

/// A partition that a completion granted to a member that did not have it.
#[repr(C)]
#[derive(Clone, Copy)]
pub struct MoveRow {
    /// The completed generation.
    pub generation: u32,
    /// The partition, from 0.
    pub partition: u32,
    /// The member that had it last, present or not; 0 if none had it.
    pub last: u32,
    /// The member that has it now.
    pub holder: u32,
}

/// Lists moves, in order.
pub fn list_moves(moves: &[Move], out: &mut [MoveRow], count: &mut usize) -> u32
    ensures { IsListed (map row_of_move moves.now) out.old result out.new count.new }
{
    *count = moves.len();
    if out.len() < moves.len() {
        return TOO_SHORT;
    }
    put_moves(moves, out);
    DONE
}

/// Lists bytes.
pub fn list_bytes(bytes: &[u8], out: &mut [u8], count: &mut usize) -> u32
    ensures { IsListed bytes.now out.old result out.new count.new }
{
    *count = bytes.len();
    if out.len() < bytes.len() {
        return TOO_SHORT;
    }
    out[..bytes.len()].copy_from_slice(bytes);
    DONE
}

/// Writes the elements of a set to the front of an output, which has room for them. Returns how
/// many they are.
pub fn put_elements(set: &Plane, out: &mut [u32]) -> usize
    requires { length (elements set.now) ≤ length out.old }
    ensures out { out.new ≡ with_front (elements set.now) out.old }
    ensures count { result ≡ length (elements set.now) }
{
    let mut count = 0;
    for q in set.iter() {
        out[count] = q;
        count += 1;
    }
    count
}

/// Writes the present members to the front of an output, which has room for them.
fn put_members(cluster: &Cluster, out: &mut [u32])
    requires { length (members cluster.now.group) ≤ length out.old }
    ensures { out.new ≡ with_front (members cluster.now.group) out.old }
{
    let mut count = 0;
    for member in cluster.members() {
        out[count] = member;
        count += 1;
    }
}

/// Writes moves to the front of an output, which has room for them.
fn put_moves(moves: &[Move], out: &mut [MoveRow])
    requires { length moves.now ≤ length out.old }
    ensures { out.new ≡ with_front (map row_of_move moves.now) out.old }
{
    for i in 0..moves.len() {
        out[i] = row_of_move(moves[i]);
    }
}

/// A move as C has it.
fn row_of_move(made: Move) -> MoveRow
    ensures { result ≡ row_of_move made }
{
    MoveRow {
        generation: made.generation,
        partition: made.partition,
        last: made.last.unwrap_or(0),
        holder: made.holder,
    }
}

/// Writes the offsets of the partitions of a lease, in their order, to the front of an output,
/// which has room for them.
pub fn put_starts(lease: &Lease, out: &mut [u32])
    requires { length (elements lease.now.assigned) ≤ length out.old }
    ensures { out.new
        ≡ with_front (map (start_of lease.now) (elements lease.now.assigned)) out.old }
{
    let mut count = 0;
    for q in lease.assigned().iter() {
        out[count] = lease.start(q);
        count += 1;
    }
}
