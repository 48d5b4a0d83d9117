//! What a consumer does by itself.

ghost use Rattle.std.specs.Prelude.{◌≡◌, None, Some, unwrap_or};
ghost use Rattle.bit_planes.specs.PartitionSet.{elements};
ghost use Rattle.consumer.specs.Consumer.{answered_by, base_of, given_up, joined_as, out_of_group, position_of};
ghost use Rattle.keycount_c.specs.Consumers.{BeginsConsumer, Changes, FreesConsumer, ListsConsumer, ReadsConsumer, ReadsCommit, held_by, reply_of};
ghost use Rattle.keycount_c.specs.Held.{consumer_in};

use super::access::{put, take};
use super::handle::ConsumerHandle;
use crate::answers::{BAD_ARGUMENT, DONE, HAS_VALUE, MEMORY, NO_VALUE, number_of};
use crate::lists::list_elements;
use consumer::Consumer;
use lane_words::{MOST_PARTITIONS, Refusal};
use std::alloc::Global;

/// Puts a new consumer of 1 to 4096 partitions, out of the group, behind a handle that has none.
///
/// Not done: the handle has a consumer (102); it is another number of partitions (103); out of
/// memory (90).
#[unsafe(no_mangle)]
pub extern "C" fn keycount_consumer_new(
    alloc: Global,
    consumer: &mut ConsumerHandle,
    partitions: u32,
) -> u32
    ensures { BeginsConsumer partitions (consumer_in consumer.old) result
        (consumer_in consumer.new) }
{
    if let Some(held) = take(consumer, alloc) {
        put(consumer, held);
        return HAS_VALUE;
    }
    if partitions < 1 || MOST_PARTITIONS < partitions {
        return BAD_ARGUMENT;
    }
    let Ok(made) = Consumer::new(alloc, partitions) else {
        return MEMORY;
    };
    match Box::new(alloc, made) {
        Ok(made) => {
            put(consumer, made);
            DONE
        }
        Err(_) => MEMORY,
    }
}

/// Frees the consumer. The handle has none afterwards.
#[unsafe(no_mangle)]
pub extern "C" fn keycount_consumer_free(alloc: Global, consumer: &mut ConsumerHandle) -> u32
    ensures answer { FreesConsumer (consumer_in consumer.old) result }
    ensures none { consumer_in consumer.new ≡ None }
{
    match take(consumer, alloc) {
        Some(held) => {
            drop(held);
            DONE
        }
        None => NO_VALUE,
    }
}

/// Records that it has joined as this member, as `Consumer::joined`.
#[unsafe(no_mangle)]
pub extern "C" fn keycount_consumer_joined(
    alloc: Global,
    consumer: &mut ConsumerHandle,
    member: u32,
) -> u32
    ensures { Changes (λ c. joined_as c member) (consumer_in consumer.old) result
        (consumer_in consumer.new) }
{
    let Some(mut held) = take(consumer, alloc) else {
        return NO_VALUE;
    };
    held.joined(member);
    put(consumer, held);
    DONE
}

/// It drops everything and is out of the group, as by `Consumer::drop_all`.
#[unsafe(no_mangle)]
pub extern "C" fn keycount_consumer_drop_all(alloc: Global, consumer: &mut ConsumerHandle) -> u32
    ensures { Changes (λ c. out_of_group c.partitions) (consumer_in consumer.old) result
        (consumer_in consumer.new) }
{
    let Some(mut held) = take(consumer, alloc) else {
        return NO_VALUE;
    };
    held.drop_all();
    put(consumer, held);
    DONE
}

/// It drops what it holds and is not assigned, as by `Consumer::give_up`.
#[unsafe(no_mangle)]
pub extern "C" fn keycount_consumer_give_up(alloc: Global, consumer: &mut ConsumerHandle) -> u32
    ensures { Changes given_up (consumer_in consumer.old) result (consumer_in consumer.new) }
{
    let Some(mut held) = take(consumer, alloc) else {
        return NO_VALUE;
    };
    held.give_up();
    put(consumer, held);
    DONE
}

/// Its member number, or 0 if it is out of the group.
#[unsafe(no_mangle)]
pub extern "C" fn keycount_consumer_member(
    alloc: Global,
    consumer: &mut ConsumerHandle,
    member: &mut u32,
) -> u32
    ensures answer { ReadsConsumer (λ c. unwrap_or c.member 0) (consumer_in consumer.old)
        member.old result member.new }
    ensures same { consumer_in consumer.new ≡ consumer_in consumer.old }
{
    let Some(held) = take(consumer, alloc) else {
        return NO_VALUE;
    };
    *member = held.member().unwrap_or(0);
    put(consumer, held);
    DONE
}

/// The generation of its last lease; 0 before the first one, and if it is out of the group.
#[unsafe(no_mangle)]
pub extern "C" fn keycount_consumer_generation(
    alloc: Global,
    consumer: &mut ConsumerHandle,
    generation: &mut u32,
) -> u32
    ensures answer { ReadsConsumer (λ c. c.generation) (consumer_in consumer.old)
        generation.old result generation.new }
    ensures same { consumer_in consumer.new ≡ consumer_in consumer.old }
{
    let Some(held) = take(consumer, alloc) else {
        return NO_VALUE;
    };
    *generation = held.generation();
    put(consumer, held);
    DONE
}

/// The partitions that it holds, in rising order. Not done: the handle is empty (101); they have no
/// room (104).
#[unsafe(no_mangle)]
pub extern "C" fn keycount_consumer_holding(
    alloc: Global,
    consumer: &mut ConsumerHandle,
    partitions: &mut [u32],
    count: &mut usize,
) -> u32
    ensures answer { ListsConsumer (λ c. elements (held_by c)) (consumer_in consumer.old)
        (partitions.old, count.old) result (partitions.new, count.new) }
    ensures same { consumer_in consumer.new ≡ consumer_in consumer.old }
{
    let Some(held) = take(consumer, alloc) else {
        return NO_VALUE;
    };
    let answer = list_elements(held.holding(), partitions, count);
    put(consumer, held);
    answer
}

/// The offset of the next record of a partition that it reads; 0 if it does not hold it.
#[unsafe(no_mangle)]
pub extern "C" fn keycount_consumer_position(
    alloc: Global,
    consumer: &mut ConsumerHandle,
    partition: u32,
    offset: &mut u32,
) -> u32
    ensures answer { ReadsConsumer (λ c. position_of c partition) (consumer_in consumer.old)
        offset.old result offset.new }
    ensures same { consumer_in consumer.new ≡ consumer_in consumer.old }
{
    let Some(held) = take(consumer, alloc) else {
        return NO_VALUE;
    };
    *offset = held.position(partition);
    put(consumer, held);
    DONE
}

/// The offset below which the records of a partition are known to be committed; 0 if it does not
/// hold it.
#[unsafe(no_mangle)]
pub extern "C" fn keycount_consumer_base(
    alloc: Global,
    consumer: &mut ConsumerHandle,
    partition: u32,
    offset: &mut u32,
) -> u32
    ensures answer { ReadsConsumer (λ c. base_of c partition) (consumer_in consumer.old)
        offset.old result offset.new }
    ensures same { consumer_in consumer.new ≡ consumer_in consumer.old }
{
    let Some(held) = take(consumer, alloc) else {
        return NO_VALUE;
    };
    *offset = held.base(partition);
    put(consumer, held);
    DONE
}

/// The commit of all pending records of a partition, as `Consumer::send` makes it: its member, its
/// generation, and the offsets from which and up to which its records are. The cluster has their
/// key numbers.
///
/// Not done: the handle is empty (101); as `Consumer::sendable` refuses (16, 15, 14).
#[unsafe(no_mangle)]
pub extern "C" fn keycount_consumer_pending(
    alloc: Global,
    consumer: &mut ConsumerHandle,
    partition: u32,
    member: &mut u32,
    generation: &mut u32,
    from: &mut u32,
    to: &mut u32,
) -> u32
    ensures answer { ReadsCommit partition (consumer_in consumer.old)
        (member.old, generation.old, from.old, to.old) result
        (member.new, generation.new, from.new, to.new) }
    ensures same { consumer_in consumer.new ≡ consumer_in consumer.old }
{
    let Some(held) = take(consumer, alloc) else {
        return NO_VALUE;
    };
    let answer = pending(&held, partition, member, generation, from, to);
    put(consumer, held);
    answer
}

/// Takes the reply to a commit of a partition: what it returned, and the committed offset. As
/// `Consumer::answered`.
#[unsafe(no_mangle)]
pub extern "C" fn keycount_consumer_answered(
    alloc: Global,
    consumer: &mut ConsumerHandle,
    partition: u32,
    answer: u32,
    committed: u32,
) -> u32
    ensures { Changes (λ c. answered_by c partition (reply_of answer committed))
        (consumer_in consumer.old) result (consumer_in consumer.new) }
{
    let Some(mut held) = take(consumer, alloc) else {
        return NO_VALUE;
    };
    held.answered(partition, reply_of(answer, committed));
    put(consumer, held);
    DONE
}

/// The commit of all pending records of a partition.
fn pending(
    consumer: &Consumer,
    partition: u32,
    member: &mut u32,
    generation: &mut u32,
    from: &mut u32,
    to: &mut u32,
) -> u32
    ensures { ReadsCommit partition (Some consumer.now)
        (member.old, generation.old, from.old, to.old) result
        (member.new, generation.new, from.new, to.new) }
{
    match consumer.sendable(partition) {
        Ok(()) => {
            *member = consumer.member().unwrap_or(0);
            *generation = consumer.generation();
            *from = consumer.base(partition);
            *to = consumer.position(partition);
            DONE
        }
        Err(refusal) => number_of(refusal),
    }
}

/// The reply that a commit got. Which other refusal it was makes no difference to a consumer.
fn reply_of(answer: u32, committed: u32) -> Result<u32, Refusal>
    ensures { result ≡ reply_of answer committed }
{
    if answer == 0 {
        Ok(committed)
    } else if answer == 1 {
        Err(Refusal::UnknownMember)
    } else if answer == 11 {
        Err(Refusal::OffsetMismatch { committed })
    } else {
        Err(Refusal::Memory)
    }
}
