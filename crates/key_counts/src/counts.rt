//! Keys and how often each came.

ghost use Rattle.std.specs.Prelude.{◌≡◌, ◌<◌, ◌≤◌, ◌^◌, ◌∷◌, [], All, IfOk, IfSome, OnErr, OnOk, length, slice_index_or, take};
ghost use Rattle.key_index.specs.Keys.{key_at};
ghost use Rattle.key_counts.specs.Counts.{Takes, no_entries};
ghost use Rattle.key_counts.specs.Private.Codes.{with_code};
ghost use Rattle.key_counts.specs.Private.Entry.{stored_keys};

use crate::entry::{Entry, is_copy_of, is_key_of, raise};
use crate::slots::Slots;
use crate::waiting::WaitingKey;
use key_index::{KeyHash, KeyWords, LONGEST_INLINE, StoredKey};
use lane_words::Memory;
use std::alloc::Global;
use std::hash::RandomState;
use std::marker::Model;

/// Counted keys.
#[derive(Drop)]
pub struct KeyCounts {
    /// The allocator of the keys.
    alloc: Global,
    /// The hash of the keys.
    hasher: KeyHash,
    /// Which entries may have a key.
    slots: Slots,
    /// The entries.
    entries: Vec<Entry>,
    /// No key is longer.
    longest: usize,
    /// Whether the code of each record's entry is kept.
    coded: bool,
    /// If so, these codes, in the order of the records.
    codes: Vec<u32>,
}

impl Model for KeyCounts {
    ghost use Rattle.std.specs.Prelude.{◌≡◌, ◌<◌, ◌≤◌, ◌^◌, All, length};
    ghost use Rattle.key_counts.specs.Counts.{Entries};
    ghost use Rattle.key_counts.specs.Private.Entry.{stored_counts, stored_keys};

    ghost Value = { Entries };

    ghost view = { λ s. record {
      keys = stored_keys s.entries.items;
      counts = stored_counts s.entries.items;
      coded = s.coded;
      codes = s.codes.items;
    } };

    ghost invariant = { λ s. All (λ code. code < length s.entries.items) s.codes.items
        × (length s.entries.items < 2 ^ 32)
        × All (λ key. length key ≤ s.longest) (stored_keys s.entries.items) };
}

/// 32 bits of a key's hash, mixed by a bijection: of keys that count up, a sum of products alone
/// puts many next to each other.
#[inline(always)]
fn half_of(hash: u64) -> u32 {
    let half = (hash / 2 % (1 << 32)) as u32;
    let mixed = (half ^ half >> 16).wrapping_mul(0x85eb_ca6b);
    mixed ^ mixed >> 15
}

/// The code of an entry that has this short key, if the slots lead to one.
#[inline(always)]
fn find_short(slots: &Slots, entries: &[Entry], hash: u32, key: &KeyWords) -> Option<usize>
    ensures { IfSome result (λ code. (code < length entries.now)
        × (key_at (stored_keys entries.now) code ≡ key.now)) }
{
    let mut index = hash as usize;
    for _ in 0..slots.len() {
        let code = slots.get(index, hash)? as usize;
        if is_copy_of(entries, code, key) {
            return Some(code);
        }
        index = index.wrapping_add(1);
    }
    None
}

/// The code of an entry that has this key, if the slots lead to one.
fn find_long(slots: &Slots, entries: &[Entry], hash: u32, key: &[u8]) -> Option<usize>
    ensures { IfSome result (λ code. (code < length entries.now)
        × (key_at (stored_keys entries.now) code ≡ key.now)) }
{
    let mut index = hash as usize;
    for _ in 0..slots.len() {
        let code = slots.get(index, hash)? as usize;
        if is_key_of(entries, code, key) {
            return Some(code);
        }
        index = index.wrapping_add(1);
    }
    None
}

/// Keeps the code of one more record's entry, if codes are kept.
#[inline(always)]
fn keep_code(codes: &mut Vec<u32>, coded: bool, code: usize) -> Result<(), Memory>
    requires { code < 2 ^ 32 }
    ensures ok { OnOk result (codes.new.items ≡ with_code coded codes.old.items code) }
    ensures err { OnErr result (codes.new.items ≡ codes.old.items) }
{
    if coded {
        codes.push(code as u32)?;
    }
    Ok(())
}

impl KeyCounts {
    /// No entries. Keys are hashed by this hasher, which a stranger must not know. If `coded`, the
    /// code of each record's entry is kept.
    pub fn new(alloc: Global, hasher: RandomState, coded: bool) -> Result<KeyCounts, Memory>
        ensures { IfOk result (λ counts. counts ≡ no_entries coded) }
    {
        Ok(KeyCounts {
            alloc,
            hasher: KeyHash::of(hasher),
            slots: Slots::new(alloc)?,
            entries: Vec::new(alloc),
            longest: 0,
            coded,
            codes: Vec::new(alloc),
        })
    }

    /// The number of entries, each of which has a key and a count.
    pub fn len(&self) -> usize
        ensures keys { result ≡ length self.now.keys }
        ensures counts { result ≡ length self.now.counts }
    {
        self.entries.len()
    }

    /// The key of the entry of this code.
    pub fn key(&self, code: usize) -> &[u8]
        requires { code < length self.now.keys }
        ensures { result.now ≡ key_at self.now.keys code }
    {
        self.entries[code].key.as_slice()
    }

    /// The same entries, without the memory of the slots. A key that is taken then has a new entry.
    pub(crate) fn without_slots(self) -> KeyCounts
        ensures { result ≡ self }
    {
        let KeyCounts {
            alloc,
            hasher,
            entries,
            longest,
            coded,
            codes,
            ..
        } = self;
        KeyCounts {
            alloc,
            hasher,
            slots: Slots::none(alloc),
            entries,
            longest,
            coded,
            codes,
        }
    }

    /// Makes room in the slots before a round, as `Slots::prepare` says.
    pub(crate) fn prepare(&mut self, most: usize) -> Result<(), Memory>
        ensures { self.new ≡ self.old }
    {
        self.slots.prepare(self.alloc, most)
    }

    /// Leaves the first of the entries, so many at most, and frees the memory of the others. What
    /// the records' codes were is forgotten.
    pub(crate) fn truncate(&mut self, len: usize)
        ensures keys { self.new.keys ≡ take len self.old.keys }
        ensures counts { self.new.counts ≡ take len self.old.counts }
    {
        self.codes.clear();
        self.entries.truncate(len);
        self.entries.shrink_to_fit();
    }

    /// A length that no key exceeds.
    pub fn longest(&self) -> usize
        ensures { All (λ key. length key ≤ result) self.now.keys }
    {
        self.longest
    }

    /// How many records the entry of this code took.
    pub fn count(&self, code: usize) -> u64
        requires { code < length self.now.keys }
        ensures { result ≡ slice_index_or self.now.counts code 0 }
    {
        self.entries[code].count
    }

    /// The code of each record's entry, in the order of the records, if codes are kept.
    pub fn codes(&self) -> &[u32]
        ensures value { result.now ≡ self.now.codes }
        ensures range { All (λ code. code < length self.now.keys) self.now.codes }
    {
        self.codes.as_slice()
    }

    /// Counts one more record of an entry.
    #[inline(always)]
    fn count_one(&mut self, code: usize) -> Result<(), Memory>
        requires { code < length self.old.keys }
        ensures { OnOk result (Takes self.old self.new (key_at self.old.keys code ∷ [])) }
    {
        raise(&mut self.entries, code)?;
        keep_code(&mut self.codes, self.coded, code)
    }

    /// Adds an entry for a key, which took one record. Fails with `Memory` if an allocation failed,
    /// and if there are 2^32 - 1 entries.
    #[inline(never)]
    fn add(&mut self, hash: u32, key: StoredKey) -> Result<(), Memory>
        ensures { OnOk result (Takes self.old self.new (key ∷ [])) }
    {
        let code = self.entries.len();
        if code >= u32::MAX as usize {
            return Err(Memory);
        }
        self.longest = self.longest.max(key.as_slice().len());
        self.slots.insert(self.alloc, hash, code as u32)?;
        self.entries.push(Entry { key, count: 1 })?;
        keep_code(&mut self.codes, self.coded, code)
    }

    /// A short key, prepared to be looked up.
    #[inline(always)]
    pub(crate) fn prepared(&self, key: &[u8]) -> WaitingKey
        requires { length key.now ≤ LONGEST_INLINE }
        ensures { result ≡ key.now }
    {
        let words = KeyWords::of(key);
        let hash = half_of(self.hasher.hash_of_words(&words));
        WaitingKey::new(words, hash)
    }

    /// The first slot that may lead to a key of this hash.
    #[inline(always)]
    pub(crate) fn first_slot(&self, hash: u32) -> u32 {
        self.slots.first(hash)
    }

    /// The bits of a slot that have a code.
    #[inline(always)]
    pub(crate) fn code_bits(&self) -> u32 {
        self.slots.code_bits()
    }

    /// Takes a record of this short key, whose hash is prepared. Most likely the entry of this code
    /// has it.
    #[inline(always)]
    pub(crate) fn take_short(
        &mut self,
        hash: u32,
        likely: u32,
        key: &KeyWords,
    ) -> Result<(), Memory>
        ensures { OnOk result (Takes self.old self.new (key.now ∷ [])) }
    {
        let code = likely as usize;
        if is_copy_of(self.entries.as_slice(), code, key) {
            return self.count_one(code);
        }
        self.seek_short(hash, key)
    }

    /// Takes a record of this short key, whose hash is prepared.
    #[inline(never)]
    fn seek_short(&mut self, hash: u32, key: &KeyWords) -> Result<(), Memory>
        ensures { OnOk result (Takes self.old self.new (key.now ∷ [])) }
    {
        match find_short(&self.slots, self.entries.as_slice(), hash, key) {
            Some(code) => self.count_one(code),
            None => self.add(hash, StoredKey::of_words(key)),
        }
    }

    /// Takes a record of this key.
    pub(crate) fn take_long(&mut self, key: &[u8]) -> Result<(), Memory>
        ensures { OnOk result (Takes self.old self.new (key.now ∷ [])) }
    {
        let hash = half_of(self.hasher.hash_of(key));
        match find_long(&self.slots, self.entries.as_slice(), hash, key) {
            Some(code) => self.count_one(code),
            None => {
                let stored = StoredKey::of(self.alloc, key)?;
                self.add(hash, stored)
            }
        }
    }
}
