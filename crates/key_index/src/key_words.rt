//! A short key in words, as it is looked up.

ghost use Rattle.std.specs.Int.{to_le_bytes, w64};
ghost use Rattle.std.specs.Prelude.{◌≡◌, ◌≤◌, ◌<◌, ◌+◌, ◌-◌, ◌∷◌, ◌++◌, [], length, slice_range, take, true};
ghost use Rattle.key_index.specs.Private.KeyHash.{word_from};
ghost use Rattle.key_index.specs.Private.KeyWords.{all_bytes, zeros};

use crate::stored_key::LONGEST_INLINE;
use std::marker::Model;

/// A key of up to `LONGEST_INLINE` bytes, in words.
///
/// A processor that reads bytes in other portions than it has just written them waits for memory,
/// but words stay in registers while a key is hashed. Each field is a word, so that a copy moves
/// just these words.
#[derive(Drop)]
pub struct KeyWords {
    /// The first eight bytes of the key and of the zeros behind it, little-endian.
    first: u64,
    /// The next eight bytes.
    second: u64,
    /// The last eight bytes.
    third: u64,
    /// The length of the key.
    size: u64,
}

impl Model for KeyWords {
    ghost use Rattle.std.specs.Prelude.{List, ℕ, take};
    ghost use Rattle.key_index.specs.Private.KeyWords.{IsPadded, all_bytes};

    ghost Value = { List ℕ };

    ghost view = { λ s. take s.size (all_bytes s.first s.second s.third) };

    ghost invariant = { λ s. IsPadded (all_bytes s.first s.second s.third) s.size };
}

/// Four bytes from an index on, as a little-endian number.
#[inline(always)]
fn half_word_at(bytes: &[u8], at: usize) -> u32
    requires { at + 4 ≤ length bytes.now }
    ensures { result ≡ word_from bytes.now at }
{
    u32::from_le_bytes([bytes[at], bytes[at + 1], bytes[at + 2], bytes[at + 3]])
}

/// Eight bytes from an index on, as a little-endian word.
#[inline(always)]
fn word_at(bytes: &[u8], at: usize) -> u64
    requires { at + 8 ≤ length bytes.now }
    ensures { to_le_bytes w64 result ≡ slice_range bytes.now at (at + 8) }
{
    u64::from_le_bytes([
        bytes[at],
        bytes[at + 1],
        bytes[at + 2],
        bytes[at + 3],
        bytes[at + 4],
        bytes[at + 5],
        bytes[at + 6],
        bytes[at + 7],
    ])
}

/// Four to seven bytes as a word: their first four, and those of the last four that are not among
/// these.
#[inline(always)]
fn word_of_most(rest: &[u8]) -> u64
    requires least { 4 ≤ length rest.now }
    requires most { length rest.now < 8 }
    ensures { to_le_bytes w64 result ≡ rest.now ++ zeros (8 - length rest.now) }
{
    let first = u64::from(half_word_at(rest, 0));
    let last = u64::from(half_word_at(rest, rest.len() - 4));
    first + (last >> (8 * (8 - rest.len())) << 32)
}

/// Up to three bytes as a word.
#[inline(always)]
fn word_of_few(rest: &[u8]) -> u64
    requires { length rest.now < 4 }
    ensures { to_le_bytes w64 result ≡ rest.now ++ zeros (8 - length rest.now) }
{
    match *rest {
        [a, b, c] => u64::from_le_bytes([a, b, c, 0, 0, 0, 0, 0]),
        [a, b] => u64::from_le_bytes([a, b, 0, 0, 0, 0, 0, 0]),
        [a] => u64::from_le_bytes([a, 0, 0, 0, 0, 0, 0, 0]),
        _ => 0,
    }
}

/// Up to seven bytes as a word.
#[inline(always)]
fn word_of(rest: &[u8]) -> u64
    requires { length rest.now < 8 }
    ensures { to_le_bytes w64 result ≡ rest.now ++ zeros (8 - length rest.now) }
{
    if rest.len() < 4 {
        word_of_few(rest)
    } else {
        word_of_most(rest)
    }
}

/// The last six bytes of an array as a word.
#[inline(always)]
fn last_word(bytes: &[u8; LONGEST_INLINE]) -> u64
    ensures { to_le_bytes w64 result ≡ slice_range bytes.now 16 22 ++ 0 ∷ 0 ∷ [] }
{
    u64::from_le_bytes([
        bytes[16], bytes[17], bytes[18], bytes[19], bytes[20], bytes[21], 0, 0,
    ])
}

impl KeyWords {
    /// The words of a key.
    #[inline(always)]
    pub fn of(key: &[u8]) -> KeyWords
        requires { length key.now ≤ LONGEST_INLINE }
        ensures { result ≡ key.now }
    {
        let size = key.len() as u64;
        if key.len() < 8 {
            return KeyWords {
                first: word_of(key),
                second: 0,
                third: 0,
                size,
            };
        }
        let first = word_at(key, 0);
        if key.len() < 16 {
            return KeyWords {
                first,
                second: word_of(&key[8..]),
                third: 0,
                size,
            };
        }
        KeyWords {
            first,
            second: word_at(key, 8),
            third: word_of(&key[16..]),
            size,
        }
    }

    /// The key's bytes and the zeros behind it, in three words.
    #[inline(always)]
    pub(crate) fn words(&self) -> (u64, u64, u64)
        ensures { all_bytes result.0 result.1 result.2
            ≡ self.now ++ zeros (24 - length self.now) }
    {
        (self.first, self.second, self.third)
    }

    /// The length of the key.
    #[inline(always)]
    pub(crate) fn len(&self) -> u8
        ensures value { result ≡ length self.now }
        ensures bound { result ≤ LONGEST_INLINE }
    {
        self.size as u8
    }

    /// The key's bytes and zeros behind it.
    #[inline(always)]
    pub(crate) fn to_bytes(&self) -> [u8; LONGEST_INLINE]
        ensures { take (length self.now) result ≡ self.now }
    {
        let a = self.first.to_le_bytes();
        let b = self.second.to_le_bytes();
        let c = self.third.to_le_bytes();
        [
            a[0], a[1], a[2], a[3], a[4], a[5], a[6], a[7], b[0], b[1], b[2], b[3], b[4], b[5],
            b[6], b[7], c[0], c[1], c[2], c[3], c[4], c[5],
        ]
    }

    /// Whether the first bytes of an array are the key, and zeros follow it there.
    #[inline(always)]
    pub(crate) fn is_in(&self, bytes: &[u8; LONGEST_INLINE], size: u8) -> bool
        ensures { result ≡ true → take size bytes.now ≡ self.now }
    {
        self.size == u64::from(size)
            && self.first == word_at(bytes, 0)
            && self.second == word_at(bytes, 8)
            && self.third == last_word(bytes)
    }
}
