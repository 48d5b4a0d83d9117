//! What a consumer does with its cluster.

ghost use Rattle.std.specs.Prelude.{◌≡◌, ◌↔◌, IsTrue};
ghost use Rattle.consumer.specs.Consumer.{IsValidConsumer};
ghost use Rattle.keycount_c.specs.Held.{cluster_in, consumer_in};
ghost use Rattle.keycount_c.specs.Members.{IfBoth, IsAtWork, Polls, PollsOn, Rejoins, Syncs};

use super::access::{put, take};
use super::handle::ConsumerHandle;
use crate::answers::{BAD_ARGUMENT, DONE, NO_VALUE, number_of};
use crate::cluster::access as group;
use crate::cluster::handle::ClusterHandle;
use consumer::Consumer;
use group_machine::Cluster;
use lane_words::Refusal;
use partition_log::LogRead;
use std::alloc::Global;

/// It takes the lease of its member from the cluster, as `Cluster::sync` and then
/// `Consumer::take_lease`.
///
/// Not done: one of the handles is empty (101); the cluster has another number of partitions (103);
/// it is out of the group (16); as `Cluster::sync` refuses.
#[unsafe(no_mangle)]
pub extern "C" fn keycount_consumer_sync(
    alloc: Global,
    consumer: &mut ConsumerHandle,
    cluster: &mut ClusterHandle,
) -> u32
    ensures { IfBoth Syncs (consumer_in consumer.old) (cluster_in cluster.old) result
        (consumer_in consumer.new) (cluster_in cluster.new) }
{
    let Some(mut member) = take(consumer, alloc) else {
        return NO_VALUE;
    };
    let Some(mut held) = group::take(cluster, alloc) else {
        put(consumer, member);
        return NO_VALUE;
    };
    let answer = sync(&mut member, &mut held);
    put(consumer, member);
    group::put(cluster, held);
    answer
}

/// It claims the partitions of its lease and gives up all others, with their pending records, as
/// `Cluster::rejoin` and then `Consumer::give_up`.
///
/// Not done: one of the handles is empty (101); it is out of the group (16); as `Cluster::rejoin`
/// refuses.
#[unsafe(no_mangle)]
pub extern "C" fn keycount_consumer_rejoin(
    alloc: Global,
    consumer: &mut ConsumerHandle,
    cluster: &mut ClusterHandle,
) -> u32
    ensures { IfBoth Rejoins (consumer_in consumer.old) (cluster_in cluster.old) result
        (consumer_in consumer.new) (cluster_in cluster.new) }
{
    let Some(mut member) = take(consumer, alloc) else {
        return NO_VALUE;
    };
    let Some(mut held) = group::take(cluster, alloc) else {
        put(consumer, member);
        return NO_VALUE;
    };
    let answer = rejoin(&mut member, &mut held);
    put(consumer, member);
    group::put(cluster, held);
    answer
}

/// It reads at most `most` records of a partition, as `Consumer::poll`: `count` of them, from the
/// offset `from` on. The cluster has their key numbers.
///
/// Not done: one of the handles is empty (101); the cluster is not that of the consumer, which has
/// another number of partitions or has read further than its logs go (103); as `Consumer::poll`
/// refuses (16, 15).
#[unsafe(no_mangle)]
pub extern "C" fn keycount_consumer_poll(
    alloc: Global,
    consumer: &mut ConsumerHandle,
    cluster: &mut ClusterHandle,
    partition: u32,
    most: u32,
    from: &mut u32,
    count: &mut u32,
) -> u32
    ensures step { Polls partition most (consumer_in consumer.old) (cluster_in cluster.old)
        (from.old, count.old) result (from.new, count.new) (consumer_in consumer.new) }
    ensures same { cluster_in cluster.new ≡ cluster_in cluster.old }
{
    let Some(mut member) = take(consumer, alloc) else {
        return NO_VALUE;
    };
    let Some(held) = group::take(cluster, alloc) else {
        put(consumer, member);
        return NO_VALUE;
    };
    let answer = poll(&mut member, &held, partition, most, from, count);
    put(consumer, member);
    group::put(cluster, held);
    answer
}

/// It reads at most `most` records of a partition.
fn poll(
    consumer: &mut Consumer,
    cluster: &Cluster,
    partition: u32,
    most: u32,
    from: &mut u32,
    count: &mut u32,
) -> u32
    ensures { PollsOn partition most consumer.old cluster.now (from.old, count.old) result
        (from.new, count.new) consumer.new }
{
    if !is_at_work(consumer, cluster) {
        return BAD_ARGUMENT;
    }
    let position = consumer.position(partition);
    match consumer.poll(cluster.logs(), partition, most) {
        Ok(read) => {
            *from = position;
            *count = read;
            DONE
        }
        Err(refusal) => number_of(refusal),
    }
}

/// Whether a consumer is over the partitions of a cluster, and has read no further than its logs
/// go.
fn is_at_work(consumer: &Consumer, cluster: &Cluster) -> bool
    ensures iff { IsTrue result ↔ IsAtWork consumer.now cluster.now }
    ensures valid { IsValidConsumer consumer.now }
{
    let partitions = cluster.partitions();
    if consumer.partitions() != partitions {
        return false;
    }
    for p in 0..partitions {
        if cluster.logs().len(p) < consumer.position(p) {
            return false;
        }
    }
    true
}

/// It takes the lease of its member.
fn sync(consumer: &mut Consumer, cluster: &mut Cluster) -> u32
    ensures { Syncs consumer.old cluster.old result consumer.new cluster.new }
{
    if consumer.partitions() != cluster.partitions() {
        return BAD_ARGUMENT;
    }
    let Some(member) = consumer.member() else {
        return number_of(Refusal::OutOfGroup);
    };
    match cluster.sync(member) {
        Ok(lease) => {
            consumer.take_lease(&lease);
            DONE
        }
        Err(refusal) => number_of(refusal),
    }
}

/// It rejoins, and gives up what it is not assigned.
fn rejoin(consumer: &mut Consumer, cluster: &mut Cluster) -> u32
    ensures { Rejoins consumer.old cluster.old result consumer.new cluster.new }
{
    let Some(member) = consumer.member() else {
        return number_of(Refusal::OutOfGroup);
    };
    match cluster.rejoin(member, consumer.generation(), &consumer.claim()) {
        Ok(()) => {
            consumer.give_up();
            DONE
        }
        Err(refusal) => number_of(refusal),
    }
}
