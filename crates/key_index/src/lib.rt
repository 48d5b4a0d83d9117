//! The key index: keys interned as 32-bit key numbers, in the order of their first appearance.
//!
//! It promises:
//! - `KeyDictionary` is a dictionary of distinct keys. Its `intern_all` interns whole lists in
//!   parallel, shard by shard, with the same result as one record after another.
//! - `KeyList` is a list of keys by number: a dictionary, or references to keys stored elsewhere.
//! - `KeyMap` is the map below it: at most as many distinct keys as there are key numbers.
//! - `KeyWords` is a short key in words, which is hashed and compared without a wait for memory.
//! - `KeyHash` is a keyed hash: multilinear for short keys, SipHash for long ones. Other crates
//!   rely on no more than that equal keys have the same hash.
//!
//! Tests: `log_tests`.
#![tactic(auto)]

mod interning;
mod key_hash;
mod key_list;
mod key_map;
mod key_words;
mod keys;
mod scattered_key;
mod scattering;
mod shards;
mod stored_key;

pub use key_hash::KeyHash;
pub use key_list::KeyList;
pub use key_map::KeyMap;
pub use key_words::KeyWords;
pub use keys::KeyDictionary;
pub use scattering::split_keys;
pub use shards::{Interned, ShardedMap};
pub use stored_key::{LONGEST_INLINE, StoredKey};
