//! A key as the key map stores it.

ghost use Rattle.std.specs.Prelude.{◌≡◌, ◌≤◌, ◌+◌, length, Some, IfOk, IfSome, slice_range, true, vec_capacity};
ghost use Rattle.std.proofs.Common.{rules};
ghost use Rattle.std.specs.Cmp as compare;
ghost use Rattle.std.specs.Cmp.Lexicographic.{nat_list_eq_equiv};
ghost use Rattle.std.specs.Cmp.Rules.{comparing, hashing};
ghost use Rattle.std.specs.Str.{bytes_eq};
ghost use Rattle.key_index.specs.Private.StoredKey.{IsCopyOf, bytes_of};

use crate::key_words::KeyWords;
use lane_words::Memory;
use std::alloc::Global;
use std::hash::{Hash, Hasher};
use std::marker::Model;

/// The longest key stored inline, in bytes: it, its size and the variant tag fill 24 bytes.
pub const LONGEST_INLINE: usize = 22;

/// Where the bytes of a key are.
#[derive(Drop)]
enum Storage {
    /// The first `size` of these bytes.
    Inline {
        bytes: [u8; LONGEST_INLINE],
        size: u8,
    },
    /// On the heap. A `Vec` here would make every key eight bytes longer.
    Heap(Box<Vec<u8>>),
}

/// A copy of a key of up to `LONGEST_INLINE` bytes.
#[derive(Clone, Copy)]
pub struct ShortKey {
    /// The bytes of the key, followed by zeros.
    bytes: [u8; LONGEST_INLINE],
    /// The length of the key.
    size: u8,
}

impl ShortKey {
    /// A copy of a key.
    #[inline(always)]
    pub fn of(key: &[u8]) -> ShortKey
        requires { length key.now ≤ LONGEST_INLINE }
        ensures { IsCopyOf key.now result }
    {
        let words = KeyWords::of(key);
        ShortKey {
            bytes: words.to_bytes(),
            size: words.len(),
        }
    }
}

/// A key. A short one is stored inline, so that a lookup follows no pointer to it.
#[derive(Drop)]
pub struct StoredKey {
    storage: Storage,
}

impl Model for StoredKey {
    ghost use Rattle.std.specs.Prelude.{List, ℕ};

    ghost Value = { List ℕ };

    ghost use Rattle.key_index.specs.Private.StoredKey.{bytes_in, IsValidStoredKey};

    ghost view = { λ k. bytes_in k.storage };

    ghost invariant = { λ k. IsValidStoredKey k.storage };
}

impl StoredKey {
    /// A short key. It allocates nothing.
    pub(crate) fn short(key: &ShortKey) -> StoredKey
        requires { key.now.size ≤ LONGEST_INLINE }
        ensures { result ≡ bytes_of key.now }
    {
        StoredKey {
            storage: Storage::Inline {
                bytes: key.bytes,
                size: key.size,
            },
        }
    }

    /// A key on the heap.
    pub(crate) fn long(text: Box<Vec<u8>>) -> StoredKey
        ensures { result ≡ text.value.items }
    {
        StoredKey {
            storage: Storage::Heap(text),
        }
    }

    /// A copy of a key. A short one allocates nothing.
    pub fn of(alloc: Global, key: &[u8]) -> Result<StoredKey, Memory>
        ensures { IfOk result (λ stored. stored ≡ key.now) }
    {
        if key.len() <= LONGEST_INLINE {
            return Ok(StoredKey::of_words(&KeyWords::of(key)));
        }
        let text = Box::new(alloc, Vec::from_slice(alloc, key)?)?;
        Ok(StoredKey::long(text))
    }

    /// A short key, from its words. It allocates nothing.
    pub fn of_words(key: &KeyWords) -> StoredKey
        ensures { result ≡ key.now }
    {
        StoredKey {
            storage: Storage::Inline {
                bytes: key.to_bytes(),
                size: key.len(),
            },
        }
    }

    /// Whether it is this short key. The bytes behind it have to be zeros, as they are in a key that
    /// was stored from its words.
    #[inline(always)]
    pub fn is_words(&self, key: &KeyWords) -> bool
        ensures { result ≡ true → self.now ≡ key.now }
    {
        match &self.storage {
            Storage::Inline { bytes, size } => key.is_in(bytes, *size),
            Storage::Heap(_) => false,
        }
    }

    /// The bytes of the key.
    #[inline(always)]
    pub fn as_slice(&self) -> &[u8]
        ensures { result.now ≡ self.now }
    {
        match &self.storage {
            Storage::Inline { bytes, size } => &bytes[..*size as usize],
            Storage::Heap(text) => text.as_slice(),
        }
    }
}

impl StoredKey {
    /// The memory of a long key, to be used again.
    pub(crate) fn into_text(self) -> Option<Box<Vec<u8>>>
        ensures { IfSome result (λ text. text.value.items ≡ self) }
    {
        let StoredKey { storage } = self;
        match storage {
            Storage::Inline { .. } => None,
            Storage::Heap(text) => Some(text),
        }
    }
}

impl PartialEq for StoredKey {
    ghost eq = { bytes_eq };

    ghost laws = { compare.partial_equiv_from_equiv nat_list_eq_equiv };

    fn eq(&self, other: &StoredKey) -> bool {
        self.as_slice() == other.as_slice()
    }
}

impl Eq for StoredKey {
    ghost laws = { nat_list_eq_equiv };
}

// One write of all bytes: a slice's own hash would make a write a byte.
impl Hash for StoredKey {
    ghost use Rattle.std.specs.Prelude.{[], ◌∷◌};

    ghost hash_input = { λ k. k ∷ [] };

    ghost respects_eq = { Prim.search (hashing, rules) };

    #[inline(always)]
    fn hash<H: Hasher>(&self, state: &mut H) {
        state.write(self.as_slice());
    }
}
