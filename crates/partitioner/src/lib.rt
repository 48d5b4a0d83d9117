//! Which partition a keyed record goes to.
//!
//! It promises:
//! - `Partitions::place_in` is the key's murmur2 hash without its highest bit, modulo the number of
//!   the topic's partitions, plus the number of partitions of the topics before it. `place` is the
//!   same in the first topic.
//! - `place_all` and `place_all_in` return the partitions of a list of keys, in order. Long lists
//!   are hashed on several threads, and on each of them eight keys of the same length at once.
//!
//! Tests: `log_tests`.
#![tactic(auto)]

ghost use Rattle.std.specs.Prelude.{◌≡◌, ◌≤◌, ◌<◌, ◌+◌, ◌∷◌, ◌↔◌, [], ℕ, All, length, map, slice_index_or, zip, IfOk, IsTrue};
ghost use Rattle.std.specs.List.{sum};
ghost use Rattle.partitioner.specs.Place.{AreCounts, AreTopics, partitions_before, place_in_topic};
ghost use Rattle.partitioner.specs.Private.Counts.{ArePlaces, place_of_hash};
ghost use Rattle.partitioner.specs.Private.Groups.{ArePlacedFrom, AreUnhashed};

mod hashing;
mod name;
mod topic;

use hashing::{UNHASHED, hash_key, hash_keys};
use lane_words::{MOST_PARTITIONS, MOST_TOPICS, Memory};
pub use name::Name;
use parallel::LEAST_KEYS;
use rayon::prelude::*;
use std::alloc::Global;
use std::marker::Model;
use std::thread::Threads;
pub use topic::Topic;

/// The numbers of partitions of 1 to 8 topics, 1 to 4096 in total.
///
/// Partitions are numbered from 0 over all topics: those of a topic follow those of the topics
/// before it.
#[derive(Clone, Copy, Debug)]
pub struct Partitions {
    /// The number of partitions of each topic, followed by zeros.
    counts: [u32; MOST_TOPICS],
    /// The number of topics.
    topics: usize,
}

impl Model for Partitions {
    ghost use Rattle.std.specs.Prelude.{ℕ, ◌++◌, ◌-◌, List, length, replicate, take};
    ghost use Rattle.partitioner.specs.Place.{AreCounts};
    ghost use Rattle.partitioner.specs.Private.Counts.{IsPadded};

    ghost Value = { List ℕ };

    ghost view = { λ p. take p.topics p.counts };

    ghost invariant = { λ p. IsPadded p.counts p.topics × AreCounts (take p.topics p.counts) };

    ghost inverse = { λ counts. record {
      counts = counts ++ replicate (8 - length counts) 0;
      topics = length counts;
    } };

    ghost inverse_ok = { λ p h i. record { counts = h.0.padded i; topics = h.0.many i } };
}

impl Partitions {
    /// A single topic with `count` partitions.
    pub fn new(count: u32) -> Partitions
        requires { (1 ≤ count) × (count ≤ MOST_PARTITIONS) }
        ensures { result ≡ count ∷ [] }
    {
        Partitions {
            counts: [count, 0, 0, 0, 0, 0, 0, 0],
            topics: 1,
        }
    }

    /// Topics with these numbers of partitions. It allocates nothing.
    pub fn with_topics(counts: &[u32]) -> Partitions
        requires { AreCounts counts.now }
        ensures { result ≡ counts.now }
    {
        let mut padded = [0; MOST_TOPICS];
        padded[..counts.len()].copy_from_slice(counts);
        Partitions {
            counts: padded,
            topics: counts.len(),
        }
    }

    /// The number of partitions of all topics together.
    pub fn count(&self) -> u32
        ensures count { result ≡ sum self.now }
        ensures range { (1 ≤ sum self.now) × (sum self.now ≤ MOST_PARTITIONS) }
        ensures valid { AreCounts self.now }
    {
        self.before(self.topics)
    }

    /// The number of topics.
    pub fn topics(&self) -> usize
        ensures topics { result ≡ length self.now }
        ensures valid { AreCounts self.now }
    {
        self.topics
    }

    /// Whether both have the same number of partitions, topic by topic.
    pub fn same(&self, other: &Partitions) -> bool
        ensures { IsTrue result ↔ (self.now ≡ other.now) }
    {
        self.counts[..self.topics] == other.counts[..other.topics]
    }

    /// The number of partitions of the topics before this one.
    fn before(&self, topic: usize) -> u32
        requires { topic ≤ length self.now }
        ensures { result ≡ partitions_before self.now topic }
    {
        let mut before = 0;
        for i in 0..topic {
            before += self.counts[i];
        }
        before
    }

    /// The partition of a key in the first topic, as by `place_in`. It allocates nothing.
    pub fn place(&self, key: &[u8]) -> u32
        ensures partition { result ≡ place_in_topic self.now 0 key.now }
        ensures bound { result < sum self.now }
    {
        // Reading a field makes the invariant available: there is a first topic.
        let _ = &self.counts;
        self.place_in(0, key)
    }

    /// The partition of a key of any bytes in the topic with this index, numbered over all topics:
    /// its murmur2 hash without the highest bit, modulo the number of the topic's partitions, plus
    /// the number of partitions of the topics before it. It allocates nothing.
    pub fn place_in(&self, topic: u8, key: &[u8]) -> u32
        requires { topic < length self.now }
        ensures partition { result ≡ place_in_topic self.now topic key.now }
        ensures bound { result < sum self.now }
    {
        self.place_of_hash(topic as usize, hash_key(key))
    }

    /// The partition in a topic of a key with this hash, whose highest bit is clear.
    fn place_of_hash(&self, topic: usize, hash: u32) -> u32
        requires { topic < length self.now }
        ensures partition { result ≡ place_of_hash self.now topic hash }
        ensures bound { result < sum self.now }
    {
        let counts = &self.counts;
        self.before(topic) + hash % counts[topic]
    }

    /// The partition of each key in the first topic, in order. Fails only if memory runs out.
    ///
    /// Keys are processed in batches of 4,096 in parallel, on at most two threads a processor. A
    /// single batch starts no thread, and where no thread can be started the calling thread does
    /// the work.
    pub fn place_all<R: Threads + Sync>(
        &self,
        rt: &R,
        alloc: Global,
        keys: &[&[u8]],
    ) -> Result<Vec<u32>, Memory>
        ensures { IfOk result (λ places.
            places.items ≡ map (λ key. place_in_topic self.now 0 key.now) keys.now) }
    {
        let mut places = vec![in alloc; UNHASHED; keys.len()]?;
        self.place_batches(rt, keys, &mut places);
        Ok(places)
    }

    /// As `place_all`, with a topic for each key.
    pub fn place_all_in<R: Threads + Sync>(
        &self,
        rt: &R,
        alloc: Global,
        topics: &[u8],
        keys: &[&[u8]],
    ) -> Result<Vec<u32>, Memory>
        requires topics { AreTopics (length self.now) (length keys.now) topics.now }
        ensures { IfOk result (λ places. places.items ≡ map
            (λ keyed. place_in_topic self.now keyed.0 keyed.1.now) (zip topics.now keys.now)) }
    {
        let mut places = vec![in alloc; UNHASHED; keys.len()]?;
        self.place_batches_in(rt, topics, keys, &mut places);
        Ok(places)
    }

    /// Finds the partitions of the keys in batches. No key may be hashed yet.
    fn place_batches<R: Threads + Sync>(&self, rt: &R, keys: &[&[u8]], places: &mut [u32])
        requires len { length places.old ≡ length keys.now }
        requires empty { AreUnhashed places.old }
        ensures { places.new ≡ map (λ key. place_in_topic self.now 0 key.now) keys.now }
    {
        let partitions = *self;
        par_chunks_mut_for_each(
            rt,
            places,
            LEAST_KEYS,
            |from: usize, batch: &mut [u32]|
                requires { (from + length batch.now ≤ length keys.now) × AreUnhashed batch.now }
                ensures { ArePlacedFrom partitions (λ i. 0) keys.entry.now from
                    (length batch.entry.now) batch.exit.now }
            { partitions.place_batch(keys, from, batch) },
        );
    }

    /// Finds the partitions of the keys from this index on, one for each element of `places`.
    fn place_batch(&self, keys: &[&[u8]], from: usize, places: &mut [u32])
        requires range { from + length places.old ≤ length keys.now }
        requires empty { AreUnhashed places.old }
        ensures { ArePlacedFrom self.now (λ i. 0) keys.now from (length places.old) places.new }
    {
        hash_keys(&keys[from..from + places.len()], places);
        self.place_hashes(places);
    }

    /// Replaces each hash by the key's partition in the first topic.
    fn place_hashes(&self, hashes: &mut [u32])
        ensures { ArePlaces self.now (λ i. 0) hashes.old hashes.new }
    {
        // Reading a field makes the invariant available: there is a first topic.
        let _ = &self.counts;
        for i in 0..hashes.len() {
            hashes[i] = self.place_of_hash(0, hashes[i]);
        }
    }

    /// Finds the partitions of the keys in their topics in batches. No key may be hashed yet.
    fn place_batches_in<R: Threads + Sync>(
        &self,
        rt: &R,
        topics: &[u8],
        keys: &[&[u8]],
        places: &mut [u32],
    )
        requires len { length places.old ≡ length keys.now }
        requires topics { AreTopics (length self.now) (length keys.now) topics.now }
        requires empty { AreUnhashed places.old }
        ensures { places.new
            ≡ map (λ keyed. place_in_topic self.now keyed.0 keyed.1.now) (zip topics.now keys.now) }
    {
        let partitions = *self;
        par_chunks_mut_for_each(
            rt,
            places,
            LEAST_KEYS,
            |from: usize, batch: &mut [u32]|
                requires batch { (from + length batch.now ≤ length keys.now)
                    × AreUnhashed batch.now }
                requires topics { AreTopics (length partitions) (length keys.now) topics.now }
                ensures { ArePlacedFrom partitions (λ i. slice_index_or topics.entry.now i 0)
                    keys.entry.now from (length batch.entry.now) batch.exit.now }
            { partitions.place_batch_in(topics, keys, from, batch) },
        );
    }

    /// Finds the partitions of the keys from this index on in their topics, one for each place.
    fn place_batch_in(&self, topics: &[u8], keys: &[&[u8]], from: usize, places: &mut [u32])
        requires range { from + length places.old ≤ length keys.now }
        requires topics { AreTopics (length self.now) (length keys.now) topics.now }
        requires empty { AreUnhashed places.old }
        ensures { ArePlacedFrom self.now (λ i. slice_index_or topics.now i 0) keys.now from
            (length places.old) places.new }
    {
        let topics = &topics[from..from + places.len()];
        hash_keys(&keys[from..from + places.len()], places);
        self.place_hashes_in(topics, places);
    }

    /// Replaces each hash by the key's partition in its topic.
    fn place_hashes_in(&self, topics: &[u8], hashes: &mut [u32])
        requires topics { AreTopics (length self.now) (length hashes.old) topics.now }
        ensures { ArePlaces self.now (λ i. slice_index_or topics.now i 0) hashes.old hashes.new }
    {
        for i in 0..hashes.len() {
            hashes[i] = self.place_of_hash(topics[i] as usize, hashes[i]);
        }
    }
}
