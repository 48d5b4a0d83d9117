//! The hash of keys: its seeds differ each time, and every byte of a key counts. Two different keys
//! have the same hash once in 2^33 draws.

ghost use Rattle.std.specs.Prelude.{◌≤◌, ◌+◌};

use key_index::KeyHash;
use lane_words::Memory;
use std::hash::RandomState;
use std::random::RandomSource;

/// The longest key that is tried: almost twice the longest that is stored inline.
const LONGEST: usize = 40;

/// A hash of keys with fresh seeds.
fn new_hash(rt: &impl RandomSource) -> Result<KeyHash, Memory> {
    match RandomState::new(rt) {
        Ok(hasher) => Ok(KeyHash::of(hasher)),
        Err(_) => Err(Memory),
    }
}

/// Whether the hash of a key of this length changes with each of its bytes.
fn counts_each_byte(hash: &KeyHash, len: usize) -> bool
    requires { len ≤ LONGEST }
{
    let whole = hash.hash_of(&[b'a'; LONGEST][..len]);
    for at in 0..len {
        let mut bytes = [b'a'; LONGEST];
        bytes[at] = b'b';
        if hash.hash_of(&bytes[..len]) == whole {
            return false;
        }
    }
    true
}

/// Whether a key of zeros has a different hash than the one that is a byte longer.
fn counts_length(hash: &KeyHash, len: usize) -> bool
    requires { len + 1 ≤ LONGEST }
{
    let bytes = [0; LONGEST];
    hash.hash_of(&bytes[..len]) != hash.hash_of(&bytes[..len + 1])
}

/// Whether every byte and the length count, for keys of all lengths.
fn takes_all_in(rt: &impl RandomSource) -> Result<bool, Memory> {
    let hash = new_hash(rt)?;
    for len in 0..LONGEST {
        if !counts_each_byte(&hash, len) || !counts_length(&hash, len) {
            return Ok(false);
        }
    }
    Ok(true)
}

/// Whether two hashes differ on keys of all lengths.
fn is_keyed(rt: &impl RandomSource) -> Result<bool, Memory> {
    let (one, other) = (new_hash(rt)?, new_hash(rt)?);
    let bytes = [b'a'; LONGEST];
    for len in 0..LONGEST {
        if one.hash_of(&bytes[..len]) == other.hash_of(&bytes[..len]) {
            return Ok(false);
        }
    }
    Ok(true)
}

/// How many of 4096 numbers, as keys, fall into each 32nd part by the bits that decide the shard.
fn spread(hash: &KeyHash) -> [u32; 32] {
    let mut counts: [u32; 32] = [0; 32];
    for n in 0..4096_u32 {
        let part = (hash.hash_of(&n.to_le_bytes()) / (1 << 19) % 32) as usize;
        counts[part] = counts[part].saturating_add(1);
    }
    counts
}

/// Whether each part has between half and twice the average.
fn is_even(rt: &impl RandomSource) -> Result<bool, Memory> {
    let counts = spread(&new_hash(rt)?);
    for count in counts {
        if count < 64 || count > 256 {
            return Ok(false);
        }
    }
    Ok(true)
}

#[test]
fn all_of_a_key_counts(rt: HostRuntime) {
    assert_eq!(rt; takes_all_in(&rt), Ok(true));
}

#[test]
fn hashes_are_keyed(rt: HostRuntime) {
    assert_eq!(rt; is_keyed(&rt), Ok(true));
}

#[test]
fn keys_are_spread_evenly(rt: HostRuntime) {
    assert_eq!(rt; is_even(&rt), Ok(true));
}
