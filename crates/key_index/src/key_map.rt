//! A map of keys to their numbers, in the order of first appearance.

ghost use Rattle.std.specs.Prelude.{◌≡◌, ◌<◌, ◌≤◌, [], IfOk, IfSome, IfNone, IsOk, OnErr, length, true, false};
ghost use Rattle.key_index.specs.Keys.{IsIdOf, distinct, id_of, is_interned, key_at, with_key};
ghost use Rattle.key_index.specs.Private.StoredKey.{bytes_of};

use crate::key_hash::KeyHash;
use crate::stored_key::{LONGEST_INLINE, ShortKey, StoredKey};
use indexmap::IndexSet;
use lane_words::{MOST_RECORDS, Memory};
use std::alloc::Global;
use std::hash::RandomState;
use std::marker::Model;

/// Distinct keys by number, at most 2^32 - 1 of them.
#[derive(Drop)]
pub struct KeyMap {
    /// The allocator of the keys.
    alloc: Global,
    /// The keys, each at the index of its number.
    set: IndexSet<StoredKey, KeyHash>,
    /// The buffer that a long key is looked up with, once there was one. It keeps its memory between
    /// lookups.
    query: Option<Box<Vec<u8>>>,
}

impl Model for KeyMap {
    ghost use Rattle.std.specs.Prelude.{List, ℕ, length, ◌≤◌};
    ghost use Rattle.lane_words.specs.declared.limits.TheConstants.{MOST_RECORDS};

    ghost Value = { List (List ℕ) };

    ghost view = { λ k. k.set.keys };

    ghost invariant = { λ k. length k.set.keys ≤ MOST_RECORDS };
}

impl KeyMap {
    /// An empty map. Its hash seeds are drawn from this hasher.
    pub fn new(alloc: Global, hasher: RandomState) -> KeyMap
        ensures { result ≡ [] }
    {
        KeyMap::hashed_by(alloc, KeyHash::of(hasher))
    }

    /// An empty map that hashes keys by this.
    pub(crate) fn hashed_by(alloc: Global, hasher: KeyHash) -> KeyMap
        ensures { result ≡ [] }
    {
        KeyMap {
            alloc,
            set: IndexSet::with_hasher(alloc, hasher),
            query: None,
        }
    }

    /// An empty map that hashes keys by this, with capacity for this many.
    pub(crate) fn with_capacity(
        alloc: Global,
        hasher: KeyHash,
        capacity: usize,
    ) -> Result<KeyMap, Memory>
        ensures { IfOk result (λ keys. keys ≡ []) }
    {
        let set = IndexSet::with_capacity_and_hasher(alloc, capacity, hasher)?;
        Ok(KeyMap {
            alloc,
            set,
            query: None,
        })
    }

    /// The distinct keys of this map, in a map whose keys are hashed by this hasher.
    pub(crate) fn copy(&self, hasher: KeyHash) -> Result<KeyMap, Memory>
        ensures { IfOk result (λ copy. copy ≡ distinct self.now) }
    {
        let mut copy = KeyMap::with_capacity(self.alloc, hasher, self.count() as usize)?;
        for number in 0..self.count() {
            copy.intern(self.key(number))?;
        }
        Ok(copy)
    }

    /// The number of keys.
    pub fn count(&self) -> u32
        ensures { result ≡ length self.now }
    {
        self.set.len() as u32
    }

    /// The key with this number.
    pub fn key(&self, number: u32) -> &[u8]
        requires { number < length self.now }
        ensures { result.now ≡ key_at self.now number }
    {
        self.set.as_slice()[number as usize].as_slice()
    }

    /// The number of a key, or none if the key is not in the map. Only a key longer than
    /// `LONGEST_INLINE` can need memory, and only if it is longer than any sought before.
    pub fn find(&mut self, key: &[u8]) -> Result<Option<u32>, Memory>
        ensures found { IfOk result (λ found. IfSome found (IsIdOf self.old key.now)) }
        ensures absent { IfOk result
            (λ found. IfNone found (is_interned self.old key.now ≡ false)) }
        ensures accepts { length key.now ≤ LONGEST_INLINE → IsOk result }
        ensures same { self.new ≡ self.old }
    {
        if key.len() <= LONGEST_INLINE {
            return Ok(find_in(&self.set, &StoredKey::short(&ShortKey::of(key))));
        }
        let query = long_query(self.alloc, &mut self.query, key)?;
        let found = find_in(&self.set, &query);
        self.query = query.into_text();
        Ok(found)
    }

    /// Gives a new key the next number. Its bytes are stored once.
    pub fn add(&mut self, key: &[u8]) -> Result<u32, Memory>
        requires capacity { length self.old < MOST_RECORDS }
        requires absent { is_interned self.old key.now ≡ false }
        ensures ok { IfOk result (λ n. (n ≡ id_of self.old key.now)
            × (self.new ≡ with_key self.old key.now)) }
        ensures err { OnErr result (self.new ≡ self.old) }
    {
        let stored = StoredKey::of(self.alloc, key)?;
        let (number, _) = self.set.insert_full(stored)?;
        Ok(number as u32)
    }

    /// Interns a short key: returns its number, a new one if the key is new.
    pub(crate) fn intern_short(&mut self, key: &ShortKey) -> Result<u32, Memory>
        requires capacity { length self.old < MOST_RECORDS }
        requires size { key.now.size ≤ LONGEST_INLINE }
        ensures ok { IfOk result (λ n. (n ≡ id_of self.old (bytes_of key.now))
            × (self.new ≡ with_key self.old (bytes_of key.now))) }
        ensures err { OnErr result (self.new ≡ self.old) }
    {
        let (number, _) = self.set.insert_full(StoredKey::short(key))?;
        Ok(number as u32)
    }

    /// Interns a key: returns its number, a new one if the key is new.
    pub fn intern(&mut self, key: &[u8]) -> Result<u32, Memory>
        requires { length self.old < MOST_RECORDS }
        ensures ok { IfOk result (λ n. (n ≡ id_of self.old key.now)
            × (self.new ≡ with_key self.old key.now)) }
        ensures err { OnErr result (self.new ≡ self.old) }
    {
        if key.len() <= LONGEST_INLINE {
            return self.intern_short(&ShortKey::of(key));
        }
        if let Some(number) = self.find(key)? {
            return Ok(number);
        }
        self.add(key)
    }
}

/// The number of a key in a set, if it is there.
fn find_in(set: &IndexSet<StoredKey, KeyHash>, key: &StoredKey) -> Option<u32>
    requires { length set.now.keys ≤ MOST_RECORDS }
    ensures found { IfSome result (IsIdOf set.now.keys key.now) }
    ensures absent { IfNone result (is_interned set.now.keys key.now ≡ false) }
{
    let Some(number) = set.get_index_of(key) else {
        return None;
    };
    Some(number as u32)
}

/// A long key to look up, in the buffer of the last one.
fn long_query(
    alloc: Global,
    last: &mut Option<Box<Vec<u8>>>,
    key: &[u8],
) -> Result<StoredKey, Memory>
    ensures { IfOk result (λ query. query ≡ key.now) }
{
    let Some(text) = last.take() else {
        let text = Box::new(alloc, Vec::from_slice(alloc, key)?)?;
        return Ok(StoredKey::long(text));
    };
    let mut text = text;
    text.clear();
    text.extend_from_slice(key)?;
    Ok(StoredKey::long(text))
}
