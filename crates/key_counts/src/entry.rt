//! An entry: a key with its count.

ghost use Rattle.std.specs.Prelude.{◌≡◌, ◌<◌, ◌+◌, OnOk, length, slice_index_or, slice_set, true};
ghost use Rattle.key_index.specs.Keys.{key_at};
ghost use Rattle.key_counts.specs.Private.Entry.{stored_counts, stored_keys};

use key_index::{KeyWords, StoredKey};
use lane_words::Memory;

/// A key, and how many records it has. Both lie in 32 bytes, so that a processor that waits for one
/// has the other, too.
#[derive(Drop)]
pub struct Entry {
    /// The key.
    pub key: StoredKey,
    /// How many records the entry took.
    pub count: u64,
}

/// Whether the entry of this code has this short key.
#[inline(always)]
pub fn is_copy_of(entries: &[Entry], code: usize, key: &KeyWords) -> bool
    ensures { result ≡ true
        → (code < length entries.now) × (key_at (stored_keys entries.now) code ≡ key.now) }
{
    match entries.get(code) {
        Some(entry) => entry.key.is_words(key),
        None => false,
    }
}

/// Whether the entry of this code has this key.
pub fn is_key_of(entries: &[Entry], code: usize, key: &[u8]) -> bool
    ensures { result ≡ true
        → (code < length entries.now) × (key_at (stored_keys entries.now) code ≡ key.now) }
{
    match entries.get(code) {
        Some(entry) => entry.key.as_slice() == key,
        None => false,
    }
}

/// Counts one more record of an entry.
#[inline(always)]
pub fn raise(entries: &mut Vec<Entry>, code: usize) -> Result<(), Memory>
    requires { code < length entries.old.items }
    ensures counts { OnOk result (stored_counts entries.new.items
        ≡ slice_set (stored_counts entries.old.items) code
        (slice_index_or (stored_counts entries.old.items) code 0 + 1)) }
    ensures keys { stored_keys entries.new.items ≡ stored_keys entries.old.items }
{
    let Some(count) = entries[code].count.checked_add(1) else {
        return Err(Memory);
    };
    entries[code].count = count;
    Ok(())
}
