//! The key dictionary of all logs: keys numbered in the order of their first appearance.

ghost use Rattle.std.specs.Prelude.{◌≡◌, ◌<◌, ◌≤◌, ◌↔◌, [], IfOk, IfSome, IfNone, IsOk, IsTrue, OnErr, OnOk, length, map, true, false};
ghost use Rattle.key_index.specs.Interned.{IsDictionaryOf};
ghost use Rattle.key_index.specs.Keys.{IsIdOf, IsWithoutRepeats, id_of, is_interned, key_at, lent_lists, with_key};

use crate::key_hash::KeyHash;
use crate::key_map::KeyMap;
use crate::shards::{Interned, ShardedMap};
use crate::stored_key::LONGEST_INLINE;
use lane_words::{MOST_RECORDS, Memory};
use rayon::prelude::*;
use std::alloc::Global;
use std::hash::RandomState;
use std::marker::Model;
use std::random::RandomSource;
use std::thread::Threads;

/// A dictionary of keys. Each has a hash with fresh random seeds, since the keys may be chosen by
/// an attacker.
#[derive(Drop)]
pub struct KeyDictionary {
    /// The allocator of the keys.
    alloc: Global,
    /// The hash of the keys.
    hasher: KeyHash,
    /// The keys that were interned in parallel: the first ones, or none.
    shards: ShardedMap,
    /// The keys after them, numbered from 0.
    table: KeyMap,
}

impl Model for KeyDictionary {
    ghost use Rattle.std.specs.Prelude.{List, ℕ, length, ◌≤◌, ◌+◌, ◌++◌};
    ghost use Rattle.lane_words.specs.declared.limits.TheConstants.{MOST_RECORDS};

    ghost Value = { List (List ℕ) };

    ghost view = { λ k. k.shards ++ k.table };

    ghost invariant = { λ k. length k.shards + length k.table ≤ MOST_RECORDS };
}

/// A hash with seeds that were just drawn. Fails if the random source fails.
fn fresh_hash(rt: &impl RandomSource) -> Result<KeyHash, Memory> {
    let Ok(hasher) = RandomState::new(rt) else {
        return Err(Memory);
    };
    Ok(KeyHash::of(hasher))
}

impl KeyDictionary {
    /// An empty dictionary. Fails if the random source fails.
    pub fn new(rt: &impl RandomSource, alloc: Global) -> Result<KeyDictionary, Memory>
        ensures { IfOk result (λ keys. keys ≡ []) }
    {
        let hasher = fresh_hash(rt)?;
        Ok(KeyDictionary {
            alloc,
            hasher,
            shards: ShardedMap::none(alloc, hasher),
            table: KeyMap::hashed_by(alloc, hasher),
        })
    }

    /// The same keys with the same numbers: many are copied in parallel. Keys that are added get a
    /// hash of the copy's own. Fails if memory runs out or the random source fails.
    pub fn copy<R: Threads + RandomSource + Sync>(&self, rt: &R) -> Result<KeyDictionary, Memory>
        requires { IsWithoutRepeats self.now }
        ensures { IfOk result (λ copy. copy ≡ self.now) }
    {
        let hasher = fresh_hash(rt)?;
        Ok(KeyDictionary {
            alloc: self.alloc,
            hasher,
            shards: self.shards.copy(rt, self.alloc)?,
            table: self.table.copy(hasher)?,
        })
    }

    /// Interns the keys of these lists: returns the distinct keys in the order of their first
    /// appearance, and the key number of each record, one list after another. It does not change
    /// the dictionary. Fails only if memory runs out. `capacity` is the number of distinct keys for
    /// which it reserves memory up front.
    ///
    /// While one thread assigns the key numbers, another runs `overlapped`, whose result is
    /// returned as well.
    pub fn intern_all<R: Threads + Sync, T: Send + Drop, F: FnOnce() -> T + Send + Drop>(
        &self,
        rt: &R,
        lists: &[&[&[u8]]],
        capacity: usize,
        overlapped: F,
    ) -> Result<(Interned, T), Memory>
        requires bound { length (lent_lists lists.now) ≤ MOST_RECORDS }
        requires overlapped { F.pre overlapped }
        ensures value { IfOk result (λ r. IsDictionaryOf (lent_lists lists.now) r.0) }
        ensures overlapped { IfOk result (λ r. F.post overlapped r.1) }
    {
        ShardedMap::of(rt, self.alloc, self.hasher, lists, capacity, overlapped)
    }

    /// Makes these the keys of an empty dictionary.
    pub fn begin_with(&mut self, shards: ShardedMap)
        requires empty { self.old ≡ [] }
        requires bound { length shards ≤ MOST_RECORDS }
        ensures { self.new ≡ shards }
    {
        self.shards = shards;
    }

    /// Drops the dictionary, many keys on several threads.
    pub fn drop_parallel<R: Threads + Sync>(self, rt: &R) {
        let KeyDictionary { shards, .. } = self;
        shards.drop_parallel(rt);
    }

    /// Whether both have the same keys with the same numbers, which several threads compare.
    pub fn same<R: Threads + Sync>(&self, rt: &R, other: &KeyDictionary) -> bool
        ensures { IsTrue result ↔ (self.now ≡ other.now) }
    {
        self.count() == other.count()
            && (0..self.count()).into_par_iter().all(
                rt,
                |number: u32| -> bool
                    requires { (number < length self.now) × (number < length other.now) }
                    ensures { IsTrue result
                        ↔ (key_at self.entry.now number ≡ key_at other.entry.now number) }
                { self.key(number) == other.key(number) },
            )
    }

    /// The number of keys.
    pub fn count(&self) -> u32
        ensures { result ≡ length self.now }
    {
        self.shards.count() + self.table.count()
    }

    /// The key with this number.
    pub fn key(&self, number: u32) -> &[u8]
        requires { number < length self.now }
        ensures { result.now ≡ key_at self.now number }
    {
        let first = self.shards.count();
        if number < first {
            self.shards.key(number)
        } else {
            self.table.key(number - first)
        }
    }

    /// The number of a key, or none if the key is not in the dictionary. Only a key longer than
    /// `LONGEST_INLINE` can need memory, and only if it is longer than any sought before.
    pub fn find(&mut self, key: &[u8]) -> Result<Option<u32>, Memory>
        ensures found { IfOk result (λ found. IfSome found (IsIdOf self.old key.now)) }
        ensures absent { IfOk result
            (λ found. IfNone found (is_interned self.old key.now ≡ false)) }
        ensures accepts { length key.now ≤ LONGEST_INLINE → IsOk result }
        ensures same { self.new ≡ self.old }
    {
        if let Some(number) = self.shards.find(key)? {
            return Ok(Some(number));
        }
        let Some(number) = self.table.find(key)? else {
            return Ok(None);
        };
        Ok(Some(self.shards.count() + number))
    }

    /// Gives a new key the next number. Its bytes are stored once.
    pub fn add(&mut self, key: &[u8]) -> Result<u32, Memory>
        requires capacity { length self.old < MOST_RECORDS }
        requires absent { is_interned self.old key.now ≡ false }
        ensures ok { IfOk result (λ n. (n ≡ id_of self.old key.now)
            × (self.new ≡ with_key self.old key.now)) }
        ensures err { OnErr result (self.new ≡ self.old) }
    {
        let number = self.table.add(key)?;
        Ok(self.shards.count() + number)
    }
}
