//! The slots of a hash table: which entries may have a key of a hash. Whoever follows one compares
//! the keys, so nothing is proved of what slots say.

use lane_words::Memory;
use std::alloc::Global;

/// The number of slots of a new table.
const FIRST_SLOTS: usize = 1 << 12;

/// For how many rounds slots must have room if they are not to grow with those of other threads.
const ROUNDS: usize = 4;

/// Slots with linear probing. One is 0 if it is empty. Otherwise its low bits have the code of the
/// key's entry, plus 1: as many bits as the index of a slot has. Its high bits are those of the key's
/// hash.
#[derive(Debug, Drop)]
pub struct Slots {
    /// The slots, a power of two of them.
    slots: Vec<u32>,
    /// The hash of the key of each entry, by its code: slots that grow need more of its bits.
    hashes: Vec<u32>,
    /// How many entries the thread with most of them had when `prepare` was last called.
    most: usize,
}

/// The slot of this index, counted round from the first; an empty one if there are no slots.
#[inline(always)]
fn slot_at(slots: &[u32], index: usize) -> u32 {
    match slots.get(index & slots.len().wrapping_sub(1)) {
        Some(slot) => *slot,
        None => 0,
    }
}

/// The bits of a slot that have a code, of so many slots.
#[inline(always)]
fn code_bits(slots: usize) -> u32 {
    u32::try_from(slots.wrapping_sub(1)).unwrap_or(u32::MAX)
}

/// The code in a slot, or the largest number if the slot is empty or has another hash. `code_bits`
/// are the bits that have the code. This has no branch that a processor could guess wrong.
#[inline(always)]
pub fn likely_code(slot: u32, hash: u32, code_bits: u32) -> u32 {
    let code = (slot & code_bits).wrapping_sub(1);
    if (slot ^ hash) & !code_bits == 0 {
        code
    } else {
        u32::MAX
    }
}

/// Fills the first empty slot from its home on.
fn put(slots: &mut [u32], hash: u32, code: u32) {
    let bits = code_bits(slots.len());
    let slot = (hash & !bits) | (code.wrapping_add(1) & bits);
    let mut index = hash as usize;
    for _ in 0..slots.len() {
        let here = index & (slots.len() - 1);
        if here < slots.len() && slots[here] == 0 {
            slots[here] = slot;
            return;
        }
        index = index.wrapping_add(1);
    }
}

impl Slots {
    /// Empty slots.
    pub fn new(alloc: Global) -> Result<Slots, Memory> {
        Ok(Slots {
            slots: vec![in alloc; 0u32; FIRST_SLOTS]?,
            hashes: Vec::new(alloc),
            most: 0,
        })
    }

    /// No slots, so that none leads to an entry.
    pub fn none(alloc: Global) -> Slots {
        Slots {
            slots: Vec::new(alloc),
            hashes: Vec::new(alloc),
            most: 0,
        }
    }

    /// The number of slots.
    pub fn len(&self) -> usize {
        self.slots.len()
    }

    /// The bits of a slot that have a code.
    #[inline(always)]
    pub fn code_bits(&self) -> u32 {
        code_bits(self.slots.len())
    }

    /// The code in the slot of this index, counted round from the first, as `likely_code` says;
    /// nothing if the slot is empty.
    #[inline(always)]
    pub fn get(&self, index: usize, hash: u32) -> Option<u32> {
        let slot = slot_at(self.slots.as_slice(), index);
        if slot == 0 {
            return None;
        }
        Some(likely_code(slot, hash, self.code_bits()))
    }

    /// The first slot for this hash.
    #[inline(always)]
    pub fn first(&self, hash: u32) -> u32 {
        slot_at(self.slots.as_slice(), hash as usize)
    }

    /// How many slots may be filled. A quarter of them stays empty.
    fn limit(&self) -> usize {
        self.slots.len() / 4 * 3
    }

    /// Makes room before a round, in which several threads fill slots of their own and at whose end
    /// they wait for each other. `most` is how many entries the thread with most of them has.
    ///
    /// While the slots of one thread grow, it takes no keys, and in the end the others wait for it.
    /// If that came to each thread in another round, they would wait as often as there are threads.
    /// So the slots of all grow in one round, side by side: before the first of them are full, if as
    /// many entries come as in the last round, and an eighth more. Slots that have room for `ROUNDS`
    /// rounds do not grow: their thread hardly gets new keys.
    pub fn prepare(&mut self, alloc: Global, most: usize) -> Result<(), Memory> {
        let came = most.saturating_sub(self.most);
        self.most = most;
        let soon = most.saturating_add(came).saturating_add(came / 8);
        let later = self
            .hashes
            .len()
            .saturating_add(came.saturating_mul(ROUNDS));
        if soon > self.limit() && later > self.limit() {
            self.grow(alloc)?;
        }
        Ok(())
    }

    /// Twice as many slots.
    #[inline(never)]
    fn grow(&mut self, alloc: Global) -> Result<(), Memory> {
        let bits = self.code_bits();
        let mut slots = vec![in alloc; 0u32; self.slots.len().saturating_mul(2)]?;
        for i in 0..self.slots.len() {
            let code = (self.slots[i] & bits).wrapping_sub(1);
            if let Some(hash) = self.hashes.get(code as usize) {
                put(slots.as_mut_slice(), *hash, code);
            }
        }
        self.slots = slots;
        Ok(())
    }

    /// Says that the entry of this code, the next one, has a key of this hash.
    pub fn insert(&mut self, alloc: Global, hash: u32, code: u32) -> Result<(), Memory> {
        if self.hashes.len() >= self.limit() {
            self.grow(alloc)?;
        }
        put(self.slots.as_mut_slice(), hash, code);
        self.hashes.push(hash)?;
        Ok(())
    }
}
