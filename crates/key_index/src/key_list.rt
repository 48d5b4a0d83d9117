//! Keys by number.

ghost use Rattle.std.specs.Prelude.{◌≡◌, ◌<◌, List, ℕ, length};
ghost use Rattle.key_index.specs.Keys.{key_at, lent};

use crate::keys::KeyDictionary;

/// Keys that are numbered from 0, wherever they are stored.
pub trait KeyList {
    /// The keys, by number.
    ghost keys: { Self → List (List ℕ) };

    /// The key with this number.
    fn key(&self, number: usize) -> &[u8]
        requires { number < length (keys self.now) }
        ensures { result.now ≡ key_at (keys self.now) number };
}

impl KeyList for KeyDictionary {
    ghost keys = { λ dictionary. dictionary };

    fn key(&self, number: usize) -> &[u8] {
        // The count has 32 bits, and so has each number below it.
        let _count = self.count();
        KeyDictionary::key(self, number as u32)
    }
}

impl<'a> KeyList for Vec<&'a [u8]> {
    ghost keys = { λ slices. lent slices.items };

    fn key(&self, number: usize) -> &[u8] {
        self[number]
    }
}
