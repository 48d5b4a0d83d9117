//! What can be read of a cluster.

ghost use Rattle.std.specs.Prelude.{◌≡◌, ◌<◌, ◌≤◌, drop, map, nat_lt, length, unwrap_or};
ghost use Rattle.bit_planes.specs.PartitionSet.{elements};
ghost use Rattle.partitioner.specs.Name.{is_name};
ghost use Rattle.partition_log.specs.Logs.{log_at};
ghost use Rattle.commit_store.specs.Commits.{committed_at, count_at};
ghost use Rattle.group_machine.specs.State.{assigned_of, granted_of, is_kept, member_named, members as members_of, name_of, owner_of};
ghost use Rattle.group_machine.specs.NextSteps.{next_step};
ghost use Rattle.group_machine.specs.Settled.{is_settled};
ghost use Rattle.keycount_c.specs.Answers.{number_of_phase, number_of_step, number_of_truth};
ghost use Rattle.keycount_c.specs.Calls.{Lists, ListsIfAny, ListsKey, ListsOf, Reads, ReadsIf, ReadsRecords};
ghost use Rattle.keycount_c.specs.Held.{cluster_in};
ghost use Rattle.keycount_c.specs.Lists.{IsCopied};
ghost use Rattle.keycount_c.specs.Moves.{row_of_move};

use super::access::{put, take};
use super::handle::ClusterHandle;
use crate::answers::{BAD_ARGUMENT, DONE, NO_VALUE, UNKNOWN_MEMBER};
use crate::lists::{MoveRow, list_bytes, list_elements, list_members, list_moves};
use group_machine::{Move, Name, NextStep, Phase};
use partition_log::{LogRead, Logs};
use std::alloc::Global;

/// The generation: 0 until the first completion.
#[unsafe(no_mangle)]
pub extern "C" fn keycount_cluster_generation(
    alloc: Global,
    cluster: &mut ClusterHandle,
    generation: &mut u32,
) -> u32
    ensures answer { Reads (λ s. s.group.generation)
        (cluster_in cluster.old) generation.old result generation.new }
    ensures same { cluster_in cluster.new ≡ cluster_in cluster.old }
{
    let Some(held) = take(cluster, alloc) else {
        return NO_VALUE;
    };
    *generation = held.generation();
    put(cluster, held);
    DONE
}

/// The phase of the group: 0 empty, 1 preparing a generation, 2 stable.
#[unsafe(no_mangle)]
pub extern "C" fn keycount_cluster_phase(
    alloc: Global,
    cluster: &mut ClusterHandle,
    phase: &mut u32,
) -> u32
    ensures answer { Reads (λ s. number_of_phase s.group.phase)
        (cluster_in cluster.old) phase.old result phase.new }
    ensures same { cluster_in cluster.new ≡ cluster_in cluster.old }
{
    let Some(held) = take(cluster, alloc) else {
        return NO_VALUE;
    };
    *phase = number_of_phase(held.phase());
    put(cluster, held);
    DONE
}

/// What a member does next: 0 it syncs, 1 it rejoins, 2 it reads.
#[unsafe(no_mangle)]
pub extern "C" fn keycount_cluster_next_step(
    alloc: Global,
    cluster: &mut ClusterHandle,
    member: u32,
    step: &mut u32,
) -> u32
    ensures answer { Reads (λ s. number_of_step (next_step s.group member))
        (cluster_in cluster.old) step.old result step.new }
    ensures same { cluster_in cluster.new ≡ cluster_in cluster.old }
{
    let Some(held) = take(cluster, alloc) else {
        return NO_VALUE;
    };
    *step = number_of_step(held.next_step(member));
    put(cluster, held);
    DONE
}

/// Whether the group is settled: 1, or 0.
#[unsafe(no_mangle)]
pub extern "C" fn keycount_cluster_settled(
    alloc: Global,
    cluster: &mut ClusterHandle,
    settled: &mut u32,
) -> u32
    ensures answer { Reads (λ s. number_of_truth (is_settled s.group))
        (cluster_in cluster.old) settled.old result settled.new }
    ensures same { cluster_in cluster.new ≡ cluster_in cluster.old }
{
    let Some(held) = take(cluster, alloc) else {
        return NO_VALUE;
    };
    *settled = u32::from(held.is_settled());
    put(cluster, held);
    DONE
}

/// The number of partitions of all topics.
#[unsafe(no_mangle)]
pub extern "C" fn keycount_cluster_partitions(
    alloc: Global,
    cluster: &mut ClusterHandle,
    partitions: &mut u32,
) -> u32
    ensures answer { Reads (λ s. s.group.partitions)
        (cluster_in cluster.old) partitions.old result partitions.new }
    ensures same { cluster_in cluster.new ≡ cluster_in cluster.old }
{
    let Some(held) = take(cluster, alloc) else {
        return NO_VALUE;
    };
    *partitions = held.partitions();
    put(cluster, held);
    DONE
}

/// The number of different keys.
#[unsafe(no_mangle)]
pub extern "C" fn keycount_cluster_keys(
    alloc: Global,
    cluster: &mut ClusterHandle,
    keys: &mut u32,
) -> u32
    ensures answer { Reads (λ s. length s.logs.keys)
        (cluster_in cluster.old) keys.old result keys.new }
    ensures same { cluster_in cluster.new ≡ cluster_in cluster.old }
{
    let Some(held) = take(cluster, alloc) else {
        return NO_VALUE;
    };
    *keys = held.logs().keys();
    put(cluster, held);
    DONE
}

/// Whether a member is static: 1, or 0. It is 0 if the member is not present.
#[unsafe(no_mangle)]
pub extern "C" fn keycount_cluster_kept(
    alloc: Global,
    cluster: &mut ClusterHandle,
    member: u32,
    kept: &mut u32,
) -> u32
    ensures answer { Reads (λ s. number_of_truth (is_kept s.group member))
        (cluster_in cluster.old) kept.old result kept.new }
    ensures same { cluster_in cluster.new ≡ cluster_in cluster.old }
{
    let Some(held) = take(cluster, alloc) else {
        return NO_VALUE;
    };
    *kept = u32::from(held.is_kept(member));
    put(cluster, held);
    DONE
}

/// The newest member number that has this name, present or not, or 0. Not done: it is not a name
/// (103).
#[unsafe(no_mangle)]
pub extern "C" fn keycount_cluster_member_named(
    alloc: Global,
    cluster: &mut ClusterHandle,
    name: &[u8],
    member: &mut u32,
) -> u32
    ensures answer { ReadsIf (λ s. is_name name.now)
        (λ s. unwrap_or (member_named s.group name.now) 0)
        (cluster_in cluster.old) member.old result member.new }
    ensures same { cluster_in cluster.new ≡ cluster_in cluster.old }
{
    let Some(held) = take(cluster, alloc) else {
        return NO_VALUE;
    };
    let Some(name) = Name::new(name) else {
        put(cluster, held);
        return BAD_ARGUMENT;
    };
    *member = held.member_named(&name).unwrap_or(0);
    put(cluster, held);
    DONE
}

/// The member that a partition is granted to, or 0.
#[unsafe(no_mangle)]
pub extern "C" fn keycount_cluster_owner(
    alloc: Global,
    cluster: &mut ClusterHandle,
    partition: u32,
    member: &mut u32,
) -> u32
    ensures answer { Reads (λ s. unwrap_or (owner_of s.group partition) 0)
        (cluster_in cluster.old) member.old result member.new }
    ensures same { cluster_in cluster.new ≡ cluster_in cluster.old }
{
    let Some(held) = take(cluster, alloc) else {
        return NO_VALUE;
    };
    *member = held.owner(partition).unwrap_or(0);
    put(cluster, held);
    DONE
}

/// The offset of the next record of a partition. Not done: there is no such partition (103).
#[unsafe(no_mangle)]
pub extern "C" fn keycount_cluster_end(
    alloc: Global,
    cluster: &mut ClusterHandle,
    partition: u32,
    offset: &mut u32,
) -> u32
    ensures answer { ReadsIf (λ s. nat_lt partition s.group.partitions)
        (λ s. length (log_at s.logs partition))
        (cluster_in cluster.old) offset.old result offset.new }
    ensures same { cluster_in cluster.new ≡ cluster_in cluster.old }
{
    let Some(held) = take(cluster, alloc) else {
        return NO_VALUE;
    };
    if held.partitions() <= partition {
        put(cluster, held);
        return BAD_ARGUMENT;
    }
    *offset = held.logs().len(partition);
    put(cluster, held);
    DONE
}

/// The committed offset of a partition. Not done: there is no such partition (103).
#[unsafe(no_mangle)]
pub extern "C" fn keycount_cluster_committed(
    alloc: Global,
    cluster: &mut ClusterHandle,
    partition: u32,
    offset: &mut u32,
) -> u32
    ensures answer { ReadsIf (λ s. nat_lt partition s.group.partitions)
        (λ s. committed_at s.store partition)
        (cluster_in cluster.old) offset.old result offset.new }
    ensures same { cluster_in cluster.new ≡ cluster_in cluster.old }
{
    let Some(held) = take(cluster, alloc) else {
        return NO_VALUE;
    };
    if held.partitions() <= partition {
        put(cluster, held);
        return BAD_ARGUMENT;
    }
    *offset = held.store().committed(partition);
    put(cluster, held);
    DONE
}

/// How often the key with this number is among the committed records. Not done: there is no such
/// key (103).
#[unsafe(no_mangle)]
pub extern "C" fn keycount_cluster_count(
    alloc: Global,
    cluster: &mut ClusterHandle,
    number: u32,
    count: &mut u64,
) -> u32
    ensures answer { ReadsIf (λ s. nat_lt number (length s.logs.keys))
        (λ s. count_at s.store number)
        (cluster_in cluster.old) count.old result count.new }
    ensures same { cluster_in cluster.new ≡ cluster_in cluster.old }
{
    let Some(held) = take(cluster, alloc) else {
        return NO_VALUE;
    };
    if held.logs().keys() <= number {
        put(cluster, held);
        return BAD_ARGUMENT;
    }
    *count = held.store().count(number);
    put(cluster, held);
    DONE
}

/// The present members, in rising order. Not done: they have no room (104).
#[unsafe(no_mangle)]
pub extern "C" fn keycount_cluster_members(
    alloc: Global,
    cluster: &mut ClusterHandle,
    members: &mut [u32],
    count: &mut usize,
) -> u32
    ensures answer { Lists (λ s. members_of s.group)
        (cluster_in cluster.old) (members.old, count.old) result (members.new, count.new) }
    ensures same { cluster_in cluster.new ≡ cluster_in cluster.old }
{
    let Some(held) = take(cluster, alloc) else {
        return NO_VALUE;
    };
    let answer = list_members(&held, members, count);
    put(cluster, held);
    answer
}

/// The partitions that a member may read and commit. Not done: the member is not present (1); they
/// have no room (104).
#[unsafe(no_mangle)]
pub extern "C" fn keycount_cluster_granted(
    alloc: Global,
    cluster: &mut ClusterHandle,
    member: u32,
    partitions: &mut [u32],
    count: &mut usize,
) -> u32
    ensures answer { ListsOf member (λ s. elements (granted_of s.group member))
        (cluster_in cluster.old) (partitions.old, count.old) result (partitions.new, count.new) }
    ensures same { cluster_in cluster.new ≡ cluster_in cluster.old }
{
    let Some(held) = take(cluster, alloc) else {
        return NO_VALUE;
    };
    let answer = match held.granted(member) {
        Some(set) => list_elements(set, partitions, count),
        None => UNKNOWN_MEMBER,
    };
    put(cluster, held);
    answer
}

/// The partitions that a member retains. It fails as `keycount_cluster_granted` does.
#[unsafe(no_mangle)]
pub extern "C" fn keycount_cluster_assigned(
    alloc: Global,
    cluster: &mut ClusterHandle,
    member: u32,
    partitions: &mut [u32],
    count: &mut usize,
) -> u32
    ensures answer { ListsOf member (λ s. elements (assigned_of s.group member))
        (cluster_in cluster.old) (partitions.old, count.old) result (partitions.new, count.new) }
    ensures same { cluster_in cluster.new ≡ cluster_in cluster.old }
{
    let Some(held) = take(cluster, alloc) else {
        return NO_VALUE;
    };
    let answer = match held.assigned(member) {
        Some(set) => list_elements(set, partitions, count),
        None => UNKNOWN_MEMBER,
    };
    put(cluster, held);
    answer
}

/// The bytes of the name of a member number that was given out, present or not. Not done: none was
/// (1); they have no room (104).
#[unsafe(no_mangle)]
pub extern "C" fn keycount_cluster_name(
    alloc: Global,
    cluster: &mut ClusterHandle,
    member: u32,
    name: &mut [u8],
    count: &mut usize,
) -> u32
    ensures answer { ListsIfAny (λ s. name_of s.group member)
        (cluster_in cluster.old) (name.old, count.old) result (name.new, count.new) }
    ensures same { cluster_in cluster.new ≡ cluster_in cluster.old }
{
    let Some(held) = take(cluster, alloc) else {
        return NO_VALUE;
    };
    let answer = match held.name(member) {
        Some(text) => list_bytes(text.text(), name, count),
        None => UNKNOWN_MEMBER,
    };
    put(cluster, held);
    answer
}

/// The bytes of the key with this number. Not done: there is no such key (103); they have no room
/// (104).
#[unsafe(no_mangle)]
pub extern "C" fn keycount_cluster_key(
    alloc: Global,
    cluster: &mut ClusterHandle,
    number: u32,
    key: &mut [u8],
    count: &mut usize,
) -> u32
    ensures answer { ListsKey number (cluster_in cluster.old) (key.old, count.old) result
        (key.new, count.new) }
    ensures same { cluster_in cluster.new ≡ cluster_in cluster.old }
{
    let Some(held) = take(cluster, alloc) else {
        return NO_VALUE;
    };
    if held.logs().keys() <= number {
        put(cluster, held);
        return BAD_ARGUMENT;
    }
    let answer = list_bytes(held.logs().key(number), key, count);
    put(cluster, held);
    answer
}

/// The moves so far, in order, but for as many of the first. Not done: they have no room (104).
#[unsafe(no_mangle)]
pub extern "C" fn keycount_cluster_moves(
    alloc: Global,
    cluster: &mut ClusterHandle,
    from: usize,
    moves: &mut [MoveRow],
    count: &mut usize,
) -> u32
    ensures answer { Lists (λ s. map row_of_move (drop from s.group.moves))
        (cluster_in cluster.old) (moves.old, count.old) result (moves.new, count.new) }
    ensures same { cluster_in cluster.new ≡ cluster_in cluster.old }
{
    let Some(held) = take(cluster, alloc) else {
        return NO_VALUE;
    };
    let answer = list_moves(rest_from(held.moves(), from), moves, count);
    put(cluster, held);
    answer
}

/// The records of a partition from an offset on, by their key numbers, as many as there are and as
/// have room. Not done: there is no such partition, or the offset is past its end (103).
#[unsafe(no_mangle)]
pub extern "C" fn keycount_cluster_read(
    alloc: Global,
    cluster: &mut ClusterHandle,
    partition: u32,
    from: u32,
    keys: &mut [u32],
    count: &mut usize,
) -> u32
    ensures answer { ReadsRecords partition from
        (cluster_in cluster.old) (keys.old, count.old) result (keys.new, count.new) }
    ensures same { cluster_in cluster.new ≡ cluster_in cluster.old }
{
    let Some(held) = take(cluster, alloc) else {
        return NO_VALUE;
    };
    if held.partitions() <= partition || held.logs().len(partition) < from {
        put(cluster, held);
        return BAD_ARGUMENT;
    }
    *count = copy_records(held.logs(), partition, from, keys);
    put(cluster, held);
    DONE
}

/// The number of a phase.
fn number_of_phase(phase: Phase) -> u32
    ensures { result ≡ number_of_phase phase }
{
    match phase {
        Phase::Empty => 0,
        Phase::Preparing => 1,
        Phase::Stable => 2,
    }
}

/// The number of what a member does next.
fn number_of_step(step: NextStep) -> u32
    ensures { result ≡ number_of_step step }
{
    match step {
        NextStep::Sync => 0,
        NextStep::Rejoin => 1,
        NextStep::Read => 2,
    }
}

/// The moves but for as many of the first.
fn rest_from(moves: &[Move], from: usize) -> &[Move]
    ensures { result.now ≡ drop from moves.now }
{
    &moves[from.min(moves.len())..]
}

/// Copies the records of a partition from an offset on to the front of an output, as many as there
/// are and as have room. Returns how many these are.
fn copy_records(logs: &Logs, partition: u32, from: u32, keys: &mut [u32]) -> usize
    requires partition { partition < logs.now.partitions }
    requires range { from ≤ length (log_at logs.now partition) }
    ensures { IsCopied (drop from (log_at logs.now partition)) keys.old keys.new result }
{
    let left = (logs.len(partition) - from) as usize;
    let n = left.min(keys.len());
    keys[..n].copy_from_slice(logs.ids(partition, from, from + n as u32));
    n
}
