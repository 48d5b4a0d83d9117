//! The hash of keys. It is keyed by random seeds, since the keys may be chosen by an attacker.

ghost use Rattle.std.specs.Prelude.{◌≡◌, ◌≤◌, ◌<◌, ◌+◌, ◌/◌, ◌^◌, ◌∷◌, [], bit_xor, length};
ghost use Rattle.std.specs.Hash.DefaultHasher.{finish, write};
ghost use Rattle.std.specs.Int.{to_le_bytes, w64};
ghost use Rattle.std.specs.RandomState.{initial_hasher};
ghost use Rattle.key_index.specs.Private.KeyHash.{IsDrawn, hash_of, sum_of, with_product, with_products, word_from};

use crate::key_words::KeyWords;
use crate::stored_key::LONGEST_INLINE;
use std::hash::{BuildHasher, Hasher, RandomState};

/// The number of seeds: one for each four bytes of a short key, and two more.
const SEEDS: usize = 8;

/// The index of the seed that multiplies the key's length.
const OF_LENGTH: usize = 6;

/// The index of the seed that is added.
const ADDED: usize = 7;

/// Hashes keys.
///
/// The hash of a short key is a sum of products of its 32-bit words and seeds. The hashes of any two
/// different keys are as if drawn at random, so whoever does not know the seeds cannot find keys
/// that collide more often (Lemire and Kaser, Strongly universal string hashing is fast, The
/// Computer Journal 57, 2014). It takes a quarter of SipHash's instructions. Long keys are hashed
/// by SipHash.
#[derive(Clone, Copy)]
pub struct KeyHash {
    /// The multipliers of the 32-bit words of a short key and of its length, and the number that is
    /// added.
    seeds: [u64; SEEDS],
    /// The hasher of long keys.
    long: RandomState,
}

/// The hash of the bytes that are written: usually those of one key, in one write.
#[derive(Clone, Copy)]
pub struct KeyHasher {
    /// What keys are hashed by.
    by: KeyHash,
    /// The xor of the hashes of all writes.
    hash: u64,
}

/// A sum plus one more product.
#[inline(always)]
fn with_product(sum: u64, seed: u64, word: u32) -> u64
    ensures { result ≡ with_product sum seed word }
{
    sum.wrapping_add(seed.wrapping_mul(u64::from(word)))
}

/// A sum plus the products of both halves of a word.
#[inline(always)]
fn with_both(sum: u64, even: u64, odd: u64, word: u64) -> u64
    ensures { result ≡ with_products sum (even ∷ odd ∷ []) (to_le_bytes w64 word) }
{
    let low = (word % (1 << 32)) as u32;
    let high = (word >> 32) as u32;
    with_product(with_product(sum, even, low), odd, high)
}

/// The same of a word behind the first. It is 0 where the key ends before it, as most do.
#[inline(always)]
fn with_later(sum: u64, even: u64, odd: u64, word: u64) -> u64
    ensures { result ≡ with_products sum (even ∷ odd ∷ []) (to_le_bytes w64 word) }
{
    if word == 0 {
        return sum;
    }
    with_both(sum, even, odd, word)
}

/// The sum of all products of a short key, from its words.
#[inline(always)]
fn sum_of(seeds: &[u64; SEEDS], key: &KeyWords) -> u64
    ensures value { result ≡ sum_of seeds.now key.now (length key.now) }
    ensures short { length key.now ≤ LONGEST_INLINE }
{
    let (first, second, third) = key.words();
    let sum = with_product(seeds[ADDED], seeds[OF_LENGTH], u32::from(key.len()));
    let sum = with_both(sum, seeds[0], seeds[1], first);
    let sum = with_later(sum, seeds[2], seeds[3], second);
    with_later(sum, seeds[4], seeds[5], third)
}

/// The hash of a long key.
fn sip_hash_of(hasher: RandomState, key: &[u8]) -> u64
    ensures { result ≡ finish (write (initial_hasher hasher) key.now) }
{
    let mut state = hasher.build_hasher();
    state.write(key);
    state.finish()
}

impl KeyHash {
    /// A hash of keys by this hasher: seed i is its hash of i, and long keys are hashed by it.
    pub fn of(hasher: RandomState) -> KeyHash
        ensures { IsDrawn hasher result }
    {
        let mut seeds = [0; SEEDS];
        for i in 0..SEEDS {
            seeds[i] = hasher.hash_one(i);
        }
        KeyHash {
            seeds,
            long: hasher,
        }
    }

    /// The hash of a key. That of a short key has 33 bits.
    #[inline(always)]
    #[tactic(auto, unfolding(crate::specs::Private::KeyHash::hash_of))]
    pub fn hash_of(&self, key: &[u8]) -> u64
        ensures { result ≡ hash_of self.now key.now }
    {
        if key.len() <= LONGEST_INLINE {
            self.hash_of_words(&KeyWords::of(key))
        } else {
            sip_hash_of(self.long, key)
        }
    }

    /// The hash of a short key, from its words.
    #[inline(always)]
    #[tactic(auto, unfolding(crate::specs::Private::KeyHash::hash_of))]
    pub fn hash_of_words(&self, key: &KeyWords) -> u64
        ensures { result ≡ hash_of self.now key.now }
    {
        sum_of(&self.seeds, key) >> 31
    }
}

impl BuildHasher for KeyHash {
    type Hasher = KeyHasher;

    ghost build_hasher = { λ by. record { by = by; hash = 0 } };

    #[inline(always)]
    fn build_hasher(&self) -> KeyHasher {
        KeyHasher { by: *self, hash: 0 }
    }
}

impl Hasher for KeyHasher {
    ghost write = { λ s bytes. record { by = s.by; hash = bit_xor s.hash (hash_of s.by bytes) } };

    ghost finish = { λ s. s.hash };

    #[inline(always)]
    fn finish(&self) -> u64 {
        self.hash
    }

    #[inline(always)]
    fn write(&mut self, bytes: &[u8]) {
        self.hash ^= self.by.hash_of(bytes);
    }
}
