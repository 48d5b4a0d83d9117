//! Short keys in words: a key that was stored from its words is found by them, and by no others.
//! And the longest of counted keys.

ghost use Rattle.std.specs.Prelude.{◌≤◌, ◌<◌, length};
ghost use Rattle.key_index.specs.declared.stored_key.TheConstants.{LONGEST_INLINE};

use csv_ingest::KeySink;
use key_counts::KeyCounter;
use key_index::{KeyHash, KeyWords, LONGEST_INLINE, StoredKey};
use lane_words::Memory;
use std::alloc::Global;
use std::hash::RandomState;
use std::random::RandomSource;

/// Bytes that are all different, the first of them zero.
const BYTES: [u8; LONGEST_INLINE] = [
    0, 1, 2, 3, 4, 5, 6, 7, 128, 129, 130, 131, 132, 133, 134, 135, 255, 254, 253, 252, 251, 250,
];

/// Whether a key is found where it was stored, with its bytes and its hash.
fn is_found(hash: &KeyHash, key: &[u8]) -> bool
    requires { length key.now ≤ LONGEST_INLINE }
{
    let words = KeyWords::of(key);
    let stored = StoredKey::of_words(&words);
    stored.is_words(&words)
        && stored.as_slice() == key
        && hash.hash_of_words(&words) == hash.hash_of(key)
}

/// Whether a key of this length differs from the same with another byte in one place.
fn differs_at(len: usize, at: usize) -> bool
    requires { (at < len) × (len ≤ LONGEST_INLINE) }
{
    let mut other = BYTES;
    other[at] ^= 1;
    let stored = StoredKey::of_words(&KeyWords::of(&BYTES[..len]));
    !stored.is_words(&KeyWords::of(&other[..len]))
}

/// Whether a key of this length differs from each that has another byte in one place.
fn differs(len: usize) -> bool
    requires { len ≤ LONGEST_INLINE }
{
    for at in 0..len {
        if !differs_at(len, at) {
            return false;
        }
    }
    true
}

/// Whether a key of zeros differs from the one that is a byte longer.
fn differs_by_length(len: usize) -> bool
    requires { len < LONGEST_INLINE }
{
    let zeros = [0; LONGEST_INLINE];
    let stored = StoredKey::of_words(&KeyWords::of(&zeros[..len]));
    !stored.is_words(&KeyWords::of(&zeros[..len + 1]))
}

/// Whether all this holds of keys of all lengths.
fn hold_for_all(rt: &impl RandomSource) -> Result<bool, Memory> {
    let Ok(hasher) = RandomState::new(rt) else {
        return Err(Memory);
    };
    let hash = KeyHash::of(hasher);
    for len in 0..LONGEST_INLINE + 1 {
        if !is_found(&hash, &BYTES[..len]) || !differs(len) {
            return Ok(false);
        }
    }
    for len in 0..LONGEST_INLINE {
        if !differs_by_length(len) {
            return Ok(false);
        }
    }
    Ok(true)
}

/// The longest of no keys, and of keys of 3, 22, 24 and 9 bytes.
fn longest_of(rt: &impl RandomSource, alloc: Global) -> Result<(usize, usize), Memory> {
    let Ok(hasher) = RandomState::new(rt) else {
        return Err(Memory);
    };
    let mut counter = KeyCounter::new(alloc, hasher, false)?;
    let none = counter.counts().longest();
    counter.take(None, b"abc")?;
    counter.take(None, &BYTES)?;
    counter.take(None, b"a key of 24 bytes in all")?;
    counter.take(None, b"nine more")?;
    counter.settle()?;
    Ok((none, counter.counts().longest()))
}

#[test]
fn the_longest_key_is_known(rt: HostRuntime) {
    assert_eq!(rt; longest_of(&rt, rt.alloc()), Ok((0, 24)));
}

#[test]
fn keys_are_found_by_their_words_alone(rt: HostRuntime) {
    assert_eq!(rt; hold_for_all(&rt), Ok(true));
}
