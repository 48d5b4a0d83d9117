//! A key scattered to its shard.

ghost use Rattle.std.specs.Prelude.{◌≡◌, ◌<◌, IfOk, length};
ghost use Rattle.key_index.specs.Keys.{id_of, with_key};

use crate::key_map::KeyMap;
use crate::stored_key::{LONGEST_INLINE, ShortKey};
use lane_words::{MOST_RECORDS, Memory};
use std::marker::Model;

/// Where the bytes of a scattered key are.
#[derive(Drop)]
enum KeyBytes<'a> {
    /// In a copy.
    Short(ShortKey),
    /// Where they were found.
    Long(&'a [u8]),
}

/// A key scattered to its shard. A short key is copied while its bytes are read anyway: the keys of
/// one shard are scattered over memory, and whoever interns them would wait for each.
#[derive(Drop)]
pub struct ScatteredKey<'a> {
    /// Its bytes.
    bytes: KeyBytes<'a>,
}

impl<'a> Model for ScatteredKey<'a> {
    ghost use Rattle.std.specs.Prelude.{List, ℕ};
    ghost use Rattle.key_index.specs.Private.ScatteredKey.{IsValidScattered, scattered_bytes};

    ghost Value = { List ℕ };

    ghost view = { λ k. scattered_bytes k.bytes };

    ghost invariant = { λ k. IsValidScattered k.bytes };
}

impl<'a> ScatteredKey<'a> {
    /// This key.
    pub fn of(key: &'a [u8]) -> ScatteredKey<'a>
        ensures { result ≡ key.now }
    {
        let bytes = if key.len() <= LONGEST_INLINE {
            KeyBytes::Short(ShortKey::of(key))
        } else {
            KeyBytes::Long(key)
        };
        ScatteredKey { bytes }
    }

    /// Interns the key in a table: returns its number there, a new one if the key is new.
    pub fn intern_in(&self, table: &mut KeyMap) -> Result<u32, Memory>
        requires { length table.old < MOST_RECORDS }
        ensures { IfOk result
            (λ n. (n ≡ id_of table.old self.now) × (table.new ≡ with_key table.old self.now)) }
    {
        match &self.bytes {
            KeyBytes::Short(copy) => table.intern_short(copy),
            KeyBytes::Long(key) => table.intern(key),
        }
    }
}
