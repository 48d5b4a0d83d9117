//! The reference implementation of placement: keys one by one, and in sequential batches.

ghost use Rattle.std.specs.Prelude.{length};
ghost use Rattle.partitioner.specs.Place.{AreTopics};

use lane_words::Memory;
use partitioner::Partitions;
use std::alloc::Global;
use std::thread::Threads;

/// The number of keys in a batch, which is too few to start a thread.
const BATCH: usize = 4096;

/// The partition of each of some keys, in their order.
pub fn place_all(
    partitions: Partitions,
    alloc: Global,
    keys: &[&[u8]],
) -> Result<Vec<u32>, Memory> {
    Ok(keys.iter().map(|key| partitions.place(key)).collect(alloc)?)
}

/// The same, with a call for each batch.
pub fn place_sequential<R: Threads + Sync>(
    partitions: Partitions,
    rt: &R,
    alloc: Global,
    keys: &[&[u8]],
) -> Result<Vec<u32>, Memory> {
    let mut places = Vec::with_capacity(alloc, keys.len())?;
    let mut from = 0;
    while from < keys.len() {
        let to = keys.len().min(from + BATCH);
        let batch = partitions.place_all(rt, alloc, &keys[from..to])?;
        places.extend_from_slice(&batch)?;
        from = to;
    }
    Ok(places)
}

/// The partition of each of some keys in its topic, in their order.
pub fn place_all_in(
    partitions: Partitions,
    alloc: Global,
    topics: &[u8],
    keys: &[&[u8]],
) -> Result<Vec<u32>, Memory>
    requires { AreTopics (length partitions) (length keys.now) topics.now }
{
    let mut places = Vec::with_capacity(alloc, keys.len())?;
    for i in 0..keys.len() {
        places.push(partitions.place_in(topics[i], keys[i]))?;
    }
    Ok(places)
}
