//! How often each key of a file occurs.

ghost use Rattle.std.specs.Prelude.{◌≡◌, IfOk, List, drop, length, map};
ghost use Rattle.key_index.specs.Keys.{Key, distinct};
ghost use Rattle.key_stream.specs.Counting.{occurrences};
ghost use Rattle.key_stream.specs.Rounds.{entries_in};
ghost use Rattle.key_stream.specs.Tally.{AreCountersOf, HaveCounted};

use crate::counting::Counting;
use crate::worker::Worker;
use key_counts::{KeyCounts, Merging, Segment, are_counted};
use lane_words::Memory;
use std::alloc::Global;
use std::hash::RandomState;
use std::thread::Threads;

/// The counters of all workers, and which entries and records each chunk brought.
#[derive(Drop)]
pub struct Counters {
    /// The counters.
    pub workers: Vec<KeyCounts>,
    /// The entries, in the order in which chunks brought them.
    pub segments: Vec<Segment>,
    /// The records, in the order of the chunks, if their codes are kept.
    pub chunks: Vec<Segment>,
}

/// The counters of workers.
fn counters_of(alloc: Global, workers: Vec<Worker>) -> Result<Vec<KeyCounts>, Memory>
    ensures { IfOk result (λ counters. counters.items ≡ entries_in workers.items) }
{
    let mut counters = Vec::with_capacity(alloc, workers.len())?;
    for worker in workers {
        let Worker { counter, .. } = worker;
        counters.push(counter.into_counts())?;
    }
    Ok(counters)
}

impl Counters {
    /// The counters of what was counted.
    pub fn of(alloc: Global, counting: Counting) -> Result<Counters, Memory>
        ensures { IfOk result (AreCountersOf counting) }
    {
        let Counting {
            workers,
            segments,
            chunks,
            ..
        } = counting;
        Ok(Counters {
            workers: counters_of(alloc, workers)?,
            segments,
            chunks,
        })
    }

    /// What was counted, prepared to be merged: its distinct keys, in the order of their first
    /// appearance, and how often each occurs. The first `skip` bytes of each key are left out. Keys
    /// are hashed by this hasher, which a stranger must not know. Fails if an allocation failed, or
    /// with more than `MOST_RECORDS` entries.
    pub fn into_merging<R: Threads + Sync>(
        self,
        rt: &R,
        alloc: Global,
        hasher: RandomState,
        skip: usize,
    ) -> Result<Merging, Memory>
        requires { (keys : List Key) × HaveCounted keys self }
        ensures keys { (keys : List Key) → HaveCounted keys self
            → IfOk result (λ merging. merging.keys ≡ distinct (map (drop skip) keys)) }
        ensures counts { (keys : List Key) → HaveCounted keys self
            → IfOk result (λ merging. merging.counts ≡ occurrences (map (drop skip) keys)) }
        ensures left { IfOk result (λ merging. merging.left ≡ length merging.ends) }
    {
        are_counted(self.workers.as_slice());
        let Counters {
            workers,
            segments,
            ..
        } = self;
        Merging::new(rt, alloc, hasher, workers, segments, skip)
    }
}
