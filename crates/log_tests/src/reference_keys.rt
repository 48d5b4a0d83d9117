//! The reference implementation of the key dictionary `KeyDictionary`: a vector for each key.

ghost use Rattle.std.specs.Prelude.{◌≡◌, ◌<◌, ◌≤◌, [], IfOk, IfSome, IfNone, OnOk, OnErr, MatchOption, length, true, false};
ghost use Rattle.key_index.specs.Keys.{IsIdOf, id_of, is_interned, key_at, with_key};

use indexmap::IndexSet;
use lane_words::{MOST_RECORDS, Memory};
use std::alloc::Global;
use std::hash::RandomState;
use std::marker::Model;
use std::random::RandomSource;

/// A dictionary of keys.
#[derive(Drop)]
pub struct ReferenceKeys {
    alloc: Global,
    /// The keys, each at the index of its number.
    set: IndexSet<Vec<u8>, RandomState>,
}

impl Model for ReferenceKeys {
    ghost use Rattle.std.specs.Prelude.{List, ℕ, map, vec_items, length, ◌≤◌};
    ghost use Rattle.lane_words.specs.declared.limits.TheConstants.{MOST_RECORDS};

    ghost Value = { List (List ℕ) };

    ghost view = { λ k. map vec_items k.set.keys };

    ghost invariant = { λ k. length k.set.keys ≤ MOST_RECORDS };
}

impl ReferenceKeys {
    /// An empty dictionary. Fails if the random source fails.
    pub fn new(rt: &impl RandomSource, alloc: Global) -> Result<ReferenceKeys, Memory>
        ensures { IfOk result (λ keys. keys ≡ []) }
    {
        let Ok(hasher) = RandomState::new(rt) else {
            return Err(Memory);
        };
        Ok(ReferenceKeys {
            alloc,
            set: IndexSet::with_hasher(alloc, hasher),
        })
    }

    /// The number of keys.
    pub fn count(&self) -> u32
        ensures { result ≡ length self.now }
    {
        self.set.len() as u32
    }

    /// The key with this number.
    pub fn key(&self, number: u32) -> &[u8]
        requires { number < length self.now }
        ensures { result.now ≡ key_at self.now number }
    {
        self.set.as_slice()[number as usize].as_slice()
    }

    /// The number of a key, or none if the key is not in the dictionary. It allocates nothing.
    pub fn find(&self, key: &[u8]) -> Option<u32>
        ensures found { IfSome result (IsIdOf self.now key.now) }
        ensures absent { IfNone result (is_interned self.now key.now ≡ false) }
    {
        let Some(number) = self.set.get_index_of(key) else {
            return None;
        };
        Some(number as u32)
    }

    /// Gives a new key the next number. Its bytes are stored once.
    pub fn add(&mut self, key: &[u8]) -> Result<u32, Memory>
        requires capacity { length self.old < MOST_RECORDS }
        requires absent { is_interned self.old key.now ≡ false }
        ensures ok { IfOk result (λ n. (n ≡ id_of self.old key.now)
            × (self.new ≡ with_key self.old key.now)) }
        ensures err { OnErr result (self.new ≡ self.old) }
    {
        let copy = Vec::from_slice(self.alloc, key)?;
        let (number, _) = self.set.insert_full(copy)?;
        Ok(number as u32)
    }
}
