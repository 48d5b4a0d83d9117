//! Keys counted as they are read.

ghost use Rattle.std.specs.Prelude.{◌≡◌, ◌∷◌, [], IfOk, OnOk, length};
ghost use Rattle.key_counts.specs.Counts.{Takes, TakesLater, no_entries};
ghost use Rattle.key_counts.specs.Private.TakingLaws.{later-more, later-nothing};

use crate::counts::KeyCounts;
use crate::waiting::{MOST_WAITING, WaitingKey, count_all};
use csv_ingest::KeySink;
use key_index::LONGEST_INLINE;
use lane_words::Memory;
use std::alloc::Global;
use std::hash::RandomState;
use std::marker::Model;

/// How many words keep counters apart: a processor fetches lines of 64 bytes in pairs.
const PADDING: usize = 16;

/// Counts keys. Short ones wait until several can be looked up together: a processor that waits for
/// the memory of one key goes on with the next.
#[derive(Drop)]
pub struct KeyCounter {
    /// The keys that were looked up, counted.
    counts: KeyCounts,
    /// The keys behind them.
    waiting: Vec<WaitingKey>,
    /// The allocator of keys behind the indices of their topics.
    alloc: Global,
    /// Space that keeps what one thread writes for each key off the cache lines with the hash of the
    /// next thread's counter, which lies behind.
    _padding: [u64; PADDING],
}

impl Model for KeyCounter {
    ghost use Rattle.key_counts.specs.Counts.{CounterState};

    ghost Value = { CounterState };

    ghost view = { λ s. record { entries = s.counts; waiting = s.waiting.items } };
}

impl KeyCounter {
    /// No keys. They are hashed by this hasher, which a stranger must not know. If `coded`, the code
    /// of each record's entry is kept.
    pub fn new(alloc: Global, hasher: RandomState, coded: bool) -> Result<KeyCounter, Memory>
        ensures { IfOk result (λ counter. counter
            ≡ record { entries = no_entries coded; waiting = [] }) }
    {
        let counts = KeyCounts::new(alloc, hasher, coded)?;
        Ok(KeyCounter {
            counts,
            waiting: Vec::new(alloc),
            alloc,
            _padding: [0; PADDING],
        })
    }

    /// How many entries there are.
    pub fn len(&self) -> usize
        ensures { result ≡ length self.now.entries.keys }
    {
        self.counts.len()
    }

    /// The counters, without the keys that wait.
    pub fn counts(&self) -> &KeyCounts
        ensures { result.now ≡ self.now.entries }
    {
        &self.counts
    }

    /// The counters, without the keys that wait, and without the memory that look-ups need.
    pub fn into_counts(self) -> KeyCounts
        ensures { result ≡ self.entries }
    {
        let KeyCounter { counts, .. } = self;
        counts.without_slots()
    }

    /// Makes room for more keys before a round, in which several threads take keys and at whose end
    /// they wait for each other. `most` is how many entries the counter with most of them has. All
    /// then grow in one round, side by side. Fails with `Memory` if an allocation failed.
    pub fn prepare(&mut self, most: usize) -> Result<(), Memory>
        ensures { self.new ≡ self.old }
    {
        self.counts.prepare(most)
    }

    /// Forgets the keys that wait.
    pub fn forget_waiting(&mut self)
        ensures entries { self.new.entries ≡ self.old.entries }
        ensures waiting { self.new.waiting ≡ [] }
    {
        self.waiting.clear();
    }

    /// Counts the keys that wait. Fails with `Memory` if an allocation failed, and if a key came
    /// 2^64 times or there are 2^32 - 1 entries.
    pub fn settle(&mut self) -> Result<(), Memory>
        ensures entries { OnOk result (Takes self.old.entries self.new.entries self.old.waiting) }
        ensures waiting { OnOk result (self.new.waiting ≡ []) }
    {
        count_all(&mut self.counts, self.waiting.as_slice())?;
        self.waiting.clear();
        Ok(())
    }

    /// Takes a key that is too long to wait.
    fn take_long(&mut self, key: &[u8]) -> Result<(), Memory>
        ensures { OnOk result (TakesLater self.old (key.now ∷ []) self.new) }
    {
        self.settle()?;
        self.counts.take_long(key)
    }

    /// Takes a key.
    #[inline(always)]
    fn take_key(&mut self, key: &[u8]) -> Result<(), Memory>
        ensures { OnOk result (TakesLater self.old (key.now ∷ []) self.new) }
    {
        if key.len() > LONGEST_INLINE {
            return self.take_long(key);
        }
        let key = self.counts.prepared(key);
        self.waiting.push(key)?;
        if self.waiting.len() < MOST_WAITING {
            return Ok(());
        }
        self.settle()
    }

    /// Takes a key behind the index of its topic.
    fn take_behind(&mut self, index: u8, key: &[u8]) -> Result<(), Memory>
        ensures { OnOk result (TakesLater self.old ((index ∷ key.now) ∷ []) self.new) }
    {
        let mut item = Vec::with_capacity(self.alloc, key.len().saturating_add(1))?;
        item.push(index)?;
        item.extend_from_slice(key)?;
        self.take_key(item.as_slice())
    }
}

impl KeySink for KeyCounter {
    ghost Takes = { λ a keys b. TakesLater a keys b };

    #[inline(always)]
    fn take(&mut self, topic: Option<u8>, key: &[u8]) -> Result<(), Memory> {
        match topic {
            Some(index) => self.take_behind(index, key),
            None => self.take_key(key),
        }
    }

    ghost takes_nothing = { later-nothing };

    ghost takes_more = { λ a b c first second x y. later-more a b c first second x y };
}
