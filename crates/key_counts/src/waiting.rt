//! Short keys that wait to be looked up together.

ghost use Rattle.std.specs.Prelude.{◌≡◌, ◌∷◌, [], OnOk};
ghost use Rattle.key_counts.specs.Counts.{Takes};

use crate::counts::KeyCounts;
use crate::slots::likely_code;
use key_index::KeyWords;
use lane_words::Memory;
use std::marker::Model;

/// How many keys are looked up together.
pub const MOST_WAITING: usize = 32;

/// A short key that waits to be looked up.
#[derive(Drop)]
pub struct WaitingKey {
    /// The key.
    key: KeyWords,
    /// 32 bits of its hash.
    hash: u32,
}

impl Model for WaitingKey {
    ghost use Rattle.std.specs.Prelude.{ℕ, List};

    ghost Value = { List ℕ };

    ghost view = { λ s. s.key };
}

impl WaitingKey {
    /// A key and 32 bits of its hash.
    #[inline(always)]
    pub fn new(key: KeyWords, hash: u32) -> WaitingKey
        ensures { result ≡ key }
    {
        WaitingKey { key, hash }
    }

    /// The first slot that may lead to the key.
    #[inline(always)]
    fn first_slot(&self, counts: &KeyCounts) -> u32 {
        counts.first_slot(self.hash)
    }

    /// The code of the entry that most likely has the key, from its first slot.
    #[inline(always)]
    fn likely_code(&self, slot: u32, code_bits: u32) -> u32 {
        likely_code(slot, self.hash, code_bits)
    }

    /// Counts a record of the key, which the entry of this code most likely has.
    #[inline(always)]
    fn count_in(&self, counts: &mut KeyCounts, likely: u32) -> Result<(), Memory>
        ensures { OnOk result (Takes counts.old counts.new (self.now ∷ [])) }
    {
        counts.take_short(self.hash, likely, &self.key)
    }
}

/// Reads the first slots that may lead to the first of these keys. They are written where the caller
/// wants them: an array that is returned is copied, some 128 bytes twice.
#[inline(always)]
fn read_first_slots(counts: &KeyCounts, waiting: &[WaitingKey], slots: &mut [u32; MOST_WAITING]) {
    for i in 0..waiting.len().min(MOST_WAITING) {
        slots[i] = waiting[i].first_slot(counts);
    }
}

/// Reads from these slots the codes of the entries that most likely have the first of these keys.
#[inline(always)]
fn read_likely_codes(
    code_bits: u32,
    waiting: &[WaitingKey],
    slots: &[u32; MOST_WAITING],
    codes: &mut [u32; MOST_WAITING],
) {
    for i in 0..waiting.len().min(MOST_WAITING) {
        codes[i] = waiting[i].likely_code(slots[i], code_bits);
    }
}

/// Counts a record of each of these keys.
#[inline(never)]
pub fn count_all(counts: &mut KeyCounts, waiting: &[WaitingKey]) -> Result<(), Memory>
    ensures { OnOk result (Takes counts.old counts.new waiting.now) }
{
    // All slots are read before any entry, so that a processor need not wait for one before it asks
    // for the next. They are read in a loop of few instructions, of which many turns are under way
    // at once.
    let mut slots = [0; MOST_WAITING];
    read_first_slots(counts, waiting, &mut slots);
    let mut codes = [u32::MAX; MOST_WAITING];
    read_likely_codes(counts.code_bits(), waiting, &slots, &mut codes);
    for i in 0..waiting.len() {
        waiting[i].count_in(counts, codes[i % MOST_WAITING])?;
    }
    Ok(())
}
