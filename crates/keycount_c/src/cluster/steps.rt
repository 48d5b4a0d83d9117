//! The steps of a cluster.

ghost use Rattle.std.specs.Prelude.{◌≡◌, ◌≢◌, ◌<◌, ◌≤◌, ◌↔◌, All, IfOk, IsTrue, None, length};
ghost use Rattle.std.specs.List.{sum};
ghost use Rattle.group_machine.specs.Steps.{join_answer, joined_by, joined_static_by, take_over_answer, taken_over_by};
ghost use Rattle.group_machine.specs.Cluster.{AreCounts};
ghost use Rattle.keycount_c.specs.Calls.{Appends, Begins, Commits, Frees, KeepsLeased, Leaves, Rejoins, StepsByName, Syncs, WritesLease, commit_of};
ghost use Rattle.keycount_c.specs.Held.{cluster_in};
ghost use Rattle.keycount_c.specs.declared.answers.TheConstants.{DONE};

use super::access::{put, take};
use super::handle::ClusterHandle;
use crate::answers::{BAD_ARGUMENT, DONE, HAS_VALUE, MEMORY, NO_VALUE, TOO_SHORT, number_of};
use crate::lists::{put_elements, put_starts};
use crate::seed::Seed;
use bit_planes::Plane;
use group_machine::{Cluster, Commit, Name};
use keyed_table::Partial;
use lane_words::{MOST_PARTITIONS, MOST_TOPICS, Memory, Refusal};
use std::alloc::Global;

/// Puts a new cluster behind a handle that has none. `partitions` has the number of partitions of
/// each topic, and `seed` 32 bytes, which the hash seeds of keys are drawn from.
///
/// Not done: the handle has a cluster (102); there are not 1 to 8 topics with at least a partition
/// each and at most 4096 in total, or not 32 bytes (103); out of memory (90).
#[unsafe(no_mangle)]
pub extern "C" fn keycount_cluster_new(
    alloc: Global,
    cluster: &mut ClusterHandle,
    partitions: &[u32],
    seed: &[u8],
) -> u32
    ensures { Begins partitions.now seed.now (cluster_in cluster.old) result
        (cluster_in cluster.new) }
{
    if let Some(held) = take(cluster, alloc) {
        put(cluster, held);
        return HAS_VALUE;
    }
    if !are_counts(partitions) {
        return BAD_ARGUMENT;
    }
    let Ok(bytes) = <[u8; 32]>::try_from(seed) else {
        return BAD_ARGUMENT;
    };
    let Ok(made) = Cluster::with_topics(&Seed::new(bytes), alloc, partitions) else {
        return MEMORY;
    };
    match Box::new(alloc, made) {
        Ok(made) => {
            put(cluster, made);
            DONE
        }
        Err(_) => MEMORY,
    }
}

/// Frees the cluster. The handle has none afterwards, and another may be put behind it.
#[unsafe(no_mangle)]
pub extern "C" fn keycount_cluster_free(alloc: Global, cluster: &mut ClusterHandle) -> u32
    ensures answer { Frees (cluster_in cluster.old) result }
    ensures none { cluster_in cluster.new ≡ None }
{
    match take(cluster, alloc) {
        Some(held) => {
            drop(held);
            DONE
        }
        None => NO_VALUE,
    }
}

/// Appends a record to the topic of this index, from 0, as `Cluster::append_in`.
#[unsafe(no_mangle)]
pub extern "C" fn keycount_cluster_append(
    alloc: Global,
    cluster: &mut ClusterHandle,
    topic: u32,
    key: &[u8],
    partition: &mut u32,
    offset: &mut u32,
) -> u32
    ensures { Appends topic key.now (cluster_in cluster.old) (partition.old, offset.old) result
        (partition.new, offset.new) (cluster_in cluster.new) }
{
    let Some(mut held) = take(cluster, alloc) else {
        return NO_VALUE;
    };
    if topic as usize >= held.topics() {
        put(cluster, held);
        return BAD_ARGUMENT;
    }
    let answer = held.append_in(topic as u8, key);
    put(cluster, held);
    match answer {
        Ok((place, at)) => {
            *partition = place;
            *offset = at;
            DONE
        }
        Err(refusal) => number_of(refusal),
    }
}

/// A member joins under this name, as `Cluster::join`.
#[unsafe(no_mangle)]
pub extern "C" fn keycount_cluster_join(
    alloc: Global,
    cluster: &mut ClusterHandle,
    name: &[u8],
    member: &mut u32,
) -> u32
    ensures { StepsByName join_answer joined_by name.now
        (cluster_in cluster.old) member.old result member.new (cluster_in cluster.new) }
{
    let Some(mut held) = take(cluster, alloc) else {
        return NO_VALUE;
    };
    let Some(name) = Name::new(name) else {
        put(cluster, held);
        return BAD_ARGUMENT;
    };
    let answer = held.join(name);
    put(cluster, held);
    match answer {
        Ok(number) => {
            *member = number;
            DONE
        }
        Err(refusal) => number_of(refusal),
    }
}

/// A static member joins under this name, as `Cluster::join_kept`.
#[unsafe(no_mangle)]
pub extern "C" fn keycount_cluster_join_kept(
    alloc: Global,
    cluster: &mut ClusterHandle,
    name: &[u8],
    member: &mut u32,
) -> u32
    ensures { StepsByName join_answer joined_static_by name.now
        (cluster_in cluster.old) member.old result member.new (cluster_in cluster.new) }
{
    let Some(mut held) = take(cluster, alloc) else {
        return NO_VALUE;
    };
    let Some(name) = Name::new(name) else {
        put(cluster, held);
        return BAD_ARGUMENT;
    };
    let answer = held.join_kept(name);
    put(cluster, held);
    match answer {
        Ok(number) => {
            *member = number;
            DONE
        }
        Err(refusal) => number_of(refusal),
    }
}

/// A static member comes back under its name, as `Cluster::take_over`.
#[unsafe(no_mangle)]
pub extern "C" fn keycount_cluster_take_over(
    alloc: Global,
    cluster: &mut ClusterHandle,
    name: &[u8],
    member: &mut u32,
) -> u32
    ensures { StepsByName take_over_answer taken_over_by name.now
        (cluster_in cluster.old) member.old result member.new (cluster_in cluster.new) }
{
    let Some(mut held) = take(cluster, alloc) else {
        return NO_VALUE;
    };
    let Some(name) = Name::new(name) else {
        put(cluster, held);
        return BAD_ARGUMENT;
    };
    let answer = held.take_over(&name);
    put(cluster, held);
    match answer {
        Ok(number) => {
            *member = number;
            DONE
        }
        Err(refusal) => number_of(refusal),
    }
}

/// A member leaves, as `Cluster::leave`.
#[unsafe(no_mangle)]
pub extern "C" fn keycount_cluster_leave(
    alloc: Global,
    cluster: &mut ClusterHandle,
    member: u32,
) -> u32
    ensures { Leaves member (cluster_in cluster.old) result (cluster_in cluster.new) }
{
    let Some(mut held) = take(cluster, alloc) else {
        return NO_VALUE;
    };
    let answer = held.leave(member);
    put(cluster, held);
    match answer {
        Ok(()) => DONE,
        Err(refusal) => number_of(refusal),
    }
}

/// A member is lost, as `Cluster::lose`.
#[unsafe(no_mangle)]
pub extern "C" fn keycount_cluster_lose(
    alloc: Global,
    cluster: &mut ClusterHandle,
    member: u32,
) -> u32
    ensures { Leaves member (cluster_in cluster.old) result (cluster_in cluster.new) }
{
    let Some(mut held) = take(cluster, alloc) else {
        return NO_VALUE;
    };
    let answer = held.lose(member);
    put(cluster, held);
    match answer {
        Ok(()) => DONE,
        Err(refusal) => number_of(refusal),
    }
}

/// A member tells what it retains, as the numbers of partitions, and rejoins, as `Cluster::rejoin`.
///
/// Not done: as `Cluster::rejoin` refuses; there is no partition of one of the numbers (103).
#[unsafe(no_mangle)]
pub extern "C" fn keycount_cluster_rejoin(
    alloc: Global,
    cluster: &mut ClusterHandle,
    member: u32,
    generation: u32,
    claim: &[u32],
) -> u32
    ensures { Rejoins member generation claim.now (cluster_in cluster.old) result
        (cluster_in cluster.new) }
{
    let Some(mut held) = take(cluster, alloc) else {
        return NO_VALUE;
    };
    let partitions = held.partitions();
    if !are_below(claim, partitions) {
        put(cluster, held);
        return BAD_ARGUMENT;
    }
    let claim = Plane::of(partitions, claim);
    let answer = held.rejoin(member, generation, &claim);
    put(cluster, held);
    match answer {
        Ok(()) => DONE,
        Err(refusal) => number_of(refusal),
    }
}

/// A member syncs, as `Cluster::sync`: its lease goes to `generation`, the partitions to the front
/// of `partitions` and the offset to read each from to the front of `offsets`, and to `count` how
/// many these are.
///
/// Not done: as `Cluster::sync` refuses; one of the two has not room for all partitions (104).
#[unsafe(no_mangle)]
pub extern "C" fn keycount_cluster_sync(
    alloc: Global,
    cluster: &mut ClusterHandle,
    member: u32,
    generation: &mut u32,
    partitions: &mut [u32],
    offsets: &mut [u32],
    count: &mut usize,
) -> u32
    ensures answer { Syncs member (cluster_in cluster.old) (partitions.old, offsets.old) result
        (cluster_in cluster.new) }
    ensures ok { result ≡ DONE → WritesLease member (cluster_in cluster.old)
        (partitions.old, offsets.old) (generation.new, partitions.new, offsets.new, count.new) }
    ensures err { result ≢ DONE → KeepsLeased
        (generation.old, partitions.old, offsets.old, count.old)
        (generation.new, partitions.new, offsets.new, count.new) }
{
    let Some(mut held) = take(cluster, alloc) else {
        return NO_VALUE;
    };
    let room = held.partitions() as usize;
    if partitions.len() < room || offsets.len() < room {
        put(cluster, held);
        return TOO_SHORT;
    }
    let answer = held.sync(member);
    put(cluster, held);
    match answer {
        Ok(lease) => {
            *generation = lease.generation();
            *count = put_elements(lease.assigned(), partitions);
            put_starts(&lease, offsets);
            DONE
        }
        Err(refusal) => number_of(refusal),
    }
}

/// Applies a commit as a whole, as `Cluster::commit`: of the records of a partition from an offset
/// on, by their key numbers. `committed` is the committed offset of the partition afterwards, also
/// where the commit does not begin at it (11).
#[unsafe(no_mangle)]
pub extern "C" fn keycount_cluster_commit(
    alloc: Global,
    cluster: &mut ClusterHandle,
    member: u32,
    generation: u32,
    partition: u32,
    from: u32,
    keys: &[u32],
    committed: &mut u32,
) -> u32
    ensures { Commits (commit_of member generation partition from keys.now)
        (cluster_in cluster.old) committed.old result committed.new (cluster_in cluster.new) }
{
    let Some(mut held) = take(cluster, alloc) else {
        return NO_VALUE;
    };
    let Ok(partial) = partial_of(alloc, keys) else {
        put(cluster, held);
        return MEMORY;
    };
    let answer = held.commit(&Commit::new(member, generation, partition, from, partial));
    put(cluster, held);
    match answer {
        Ok(offset) => {
            *committed = offset;
            DONE
        }
        Err(refusal) => {
            if let Refusal::OffsetMismatch { committed: offset } = refusal {
                *committed = offset;
            }
            number_of(refusal)
        }
    }
}

/// Whether there can be topics with these numbers of partitions.
fn are_counts(counts: &[u32]) -> bool
    ensures { IsTrue result ↔ AreCounts counts.now }
{
    if counts.is_empty() || counts.len() > MOST_TOPICS || counts.iter().any(|n| *n == 0) {
        return false;
    }
    total_of(counts) <= u64::from(MOST_PARTITIONS)
}

/// The sum of the partitions of at most 8 topics.
fn total_of(counts: &[u32]) -> u64
    requires { length counts.now ≤ MOST_TOPICS }
    ensures { result ≡ sum counts.now }
{
    let mut total = 0;
    for i in 0..counts.len() {
        total += u64::from(counts[i]);
    }
    total
}

/// Whether each of these numbers is that of a partition.
fn are_below(numbers: &[u32], partitions: u32) -> bool
    ensures { IsTrue result ↔ All (λ q. q < partitions) numbers.now }
{
    numbers.iter().all(|q| *q < partitions)
}

/// A list of key numbers, counted.
fn partial_of(alloc: Global, keys: &[u32]) -> Result<Partial, Memory>
    ensures { IfOk result (λ partial. partial ≡ keys.now) }
{
    Ok(Partial::of(Vec::from_slice(alloc, keys)?))
}
