//! The key dictionary compared with its reference implementation.

use crate::reference_keys::ReferenceKeys;
use key_index::KeyDictionary;
use lane_words::Memory;
use std::alloc::Global;
use std::random::RandomSource;

/// Whether a key has the same number in both, or is new to both and gets the same number.
fn is_interned_alike(
    keys: &mut KeyDictionary,
    plain: &mut ReferenceKeys,
    key: &[u8],
) -> Result<bool, Memory> {
    match (keys.find(key)?, plain.find(key)) {
        (None, None) if keys.count() < 1000 && plain.count() < 1000 => {
            Ok(keys.add(key)? == plain.add(key)?)
        }
        (found, expected) => Ok(found == expected),
    }
}

/// The key of a step: each length up to 40 occurs twice, including those around the longest that is
/// stored inline, and then once more with a different last byte.
fn key_of(alloc: Global, turn: usize) -> Result<Vec<u8>, Memory> {
    let bytes = [0x80_u8; 41];
    let mut key = Vec::from_slice(alloc, &bytes[..turn % 41])?;
    if turn >= 82 {
        key.push(b'x')?;
    }
    Ok(key)
}

/// The first step whose key is not numbered alike.
fn first_other(
    alloc: Global,
    keys: &mut KeyDictionary,
    plain: &mut ReferenceKeys,
) -> Result<Option<usize>, Memory> {
    for turn in 0..123 {
        let key = key_of(alloc, turn)?;
        if !is_interned_alike(keys, plain, key.as_slice())? {
            return Ok(Some(turn));
        }
    }
    Ok(None)
}

/// Whether both have the same keys.
fn are_keys_alike(keys: &KeyDictionary, plain: &ReferenceKeys) -> bool {
    for number in 0..keys.count().min(plain.count()) {
        if keys.key(number) != plain.key(number) {
            return false;
        }
    }
    keys.count() == plain.count()
}

/// Whether both number the keys of those steps alike, and then have the same keys.
fn are_alike(
    alloc: Global,
    keys: &mut KeyDictionary,
    plain: &mut ReferenceKeys,
) -> Result<bool, Memory> {
    Ok(first_other(alloc, keys, plain)?.is_none() && are_keys_alike(keys, plain))
}

/// The same with a new reference dictionary.
fn is_alike_plain(
    rt: &impl RandomSource,
    alloc: Global,
    keys: &mut KeyDictionary,
) -> Result<bool, Memory> {
    let mut plain = ReferenceKeys::new(rt, alloc)?;
    are_alike(alloc, keys, &mut plain)
}

/// The same with two new dictionaries.
fn are_new_alike(rt: &impl RandomSource, alloc: Global) -> Result<bool, Memory> {
    let mut keys = KeyDictionary::new(rt, alloc)?;
    is_alike_plain(rt, alloc, &mut keys)
}

#[test]
fn keys_get_the_reference_numbers(rt: HostRuntime) {
    assert_eq!(rt; are_new_alike(&rt, rt.alloc()), Ok(true));
}
