//! The partitions of several keys.

ghost use Rattle.std.specs.Prelude.{◌≡◌, ◌<◌, length, map, zip, IfOk, OnErr};
ghost use Rattle.partitioner.specs.Place.{AreTopics};
ghost use Rattle.partition_log.specs.Keys.{of_first};
ghost use Rattle.partition_log.specs.Logs.{IsValidLogs, place_in};

use crate::Logs;
use lane_words::Memory;
use std::thread::Threads;

impl Logs {
    /// The partition in the first topic of each of some keys, in order, computed in parallel. Fails
    /// only if memory runs out, and not if there are no keys.
    pub fn places_of<R: Threads + Sync>(&self, rt: &R, keys: &[&[u8]]) -> Result<Vec<u32>, Memory>
        ensures partitions { IfOk result (λ places. places.items
            ≡ map (λ key. place_in self.now (of_first key.now)) keys.now) }
        ensures fault { OnErr result (0 < length keys.now) }
        ensures valid { IsValidLogs self.now }
    {
        let alloc = *self.logs.allocator();
        if keys.is_empty() {
            return Ok(Vec::new(alloc));
        }
        self.partitions.place_all(rt, alloc, keys)
    }

    /// The same, in the topic of each.
    pub fn places_of_in<R: Threads + Sync>(
        &self,
        rt: &R,
        topics: &[u8],
        keys: &[&[u8]],
    ) -> Result<Vec<u32>, Memory>
        requires { AreTopics (length self.now.counts) (length keys.now) topics.now }
        ensures partitions { IfOk result (λ places. places.items
            ≡ map (λ keyed. place_in self.now (keyed.0, keyed.1.now)) (zip topics.now keys.now)) }
        ensures fault { OnErr result (0 < length keys.now) }
        ensures valid { IsValidLogs self.now }
    {
        let alloc = *self.logs.allocator();
        if keys.is_empty() {
            return Ok(Vec::new(alloc));
        }
        self.partitions.place_all_in(rt, alloc, topics, keys)
    }
}
