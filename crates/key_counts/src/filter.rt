//! The marks of cells: which keys may have a twin.

ghost use Rattle.std.specs.Prelude.{◌≡◌, ◌≢◌, ◌≤◌, ◌+◌, ◌++◌, ◌∷◌, ◌%◌, [], IfOk, List, ℕ, min};
ghost use Rattle.key_counts.specs.Private.Filter.{AreMarked, AreMarkedIn, IsFilterOf, cell_of, cells_in, mark_at, mark_in, part_of};
ghost use Rattle.key_counts.specs.Private.Results.{AreMade, list_of};

use crate::hashes::{Placed, list_in};
use key_index::KeyHash;
use lane_words::{MOST_RECORDS, Memory};
use parallel::{LEAST_KEYS, collect_each};
use std::alloc::Global;
use std::thread::Threads;

/// Into how many parts the cells are divided. The marks of one part fit a processor's cache.
pub const PARTS: usize = 64;

/// How many threads mark parts.
const MARKING_THREADS: usize = 4;

/// The fewest cells of a part.
const LEAST_CELLS: usize = 4;

/// The mark of a cell that several keys have. A mark takes two bits.
const SEVERAL: u8 = 2;

/// A byte whose four cells have several keys each.
const ALL_SEVERAL: u8 = 0b10101010;

/// How keys are placed in cells.
#[derive(Clone, Copy)]
pub struct Place {
    /// The hash of the keys.
    pub hasher: KeyHash,
    /// The number of cells of a part, a power of two, less 1.
    mask: u32,
}

impl Place {
    /// How the keys of so many entries are placed: in eight cells for each entry, or more. It only
    /// decides how many keys share a cell.
    pub fn of(hasher: KeyHash, entries: usize) -> Place
        requires { entries ≤ MOST_RECORDS }
    {
        let cells = 8 * entries.next_power_of_two() / PARTS;
        Place {
            hasher,
            mask: (cells.max(LEAST_CELLS) - 1) as u32,
        }
    }
}

/// A filter of keys. Whoever has a cell of its own has no twin.
#[derive(Drop)]
pub struct Filter {
    /// How keys are placed in cells.
    place: Place,
    /// The marks of the cells of each part, four in a byte: how many keys have the cell, 2 for two
    /// and more.
    parts: Vec<Vec<u8>>,
}

/// The part of the cell of a hash.
#[inline(always)]
pub fn part_of(hash: u64) -> usize
    ensures { result ≡ part_of hash }
{
    (hash >> 27) as usize % PARTS
}

/// The index of the cell of a hash in its part.
#[inline(always)]
pub fn cell_of(place: &Place, hash: u64) -> u32
    ensures { result ≡ cell_of place.now hash }
{
    (hash & u64::from(place.mask)) as u32
}

/// The mark of a cell in the byte that has it.
#[inline(always)]
fn mark_in(byte: u8, cell: usize) -> u8
    ensures { result ≡ mark_in byte cell }
{
    (byte >> (2 * (cell % 4))) % 4
}

/// The byte that has a cell, after one more key has the cell.
#[inline(always)]
fn with_mark(byte: u8, cell: usize) -> u8
    ensures own { mark_in byte cell ≤ 2 → mark_in result cell ≡ min 2 (mark_in byte cell + 1) }
    ensures others { (other : ℕ) → other % 4 ≢ cell % 4
        → mark_in result other ≡ mark_in byte other }
{
    if mark_in(byte, cell) >= SEVERAL {
        return byte;
    }
    byte + (1 << (2 * (cell % 4)))
}

/// Marks the cell of one more entry.
#[inline(always)]
fn mark_cell(bytes: &mut [u8], cell: usize)
    ensures { (cells : List ℕ) → AreMarked cells bytes.old
        → AreMarked (cells ++ cell ∷ []) bytes.new }
{
    let at = cell / 4;
    if at < bytes.len() {
        bytes[at] = with_mark(bytes[at], cell);
    }
}

/// Marks the cells of the entries of a part.
fn mark_cells(bytes: &mut [u8], list: &[Placed])
    ensures { (cells : List ℕ) → AreMarked cells bytes.old
        → AreMarked (cells ++ cells_in list.now) bytes.new }
{
    for i in 0..list.len() {
        mark_cell(bytes, list[i].cell as usize);
    }
}

/// The marks of the cells of a part, from the entries of each worker.
fn marks_of(
    alloc: Global,
    place: &Place,
    workers: &[Vec<Vec<Placed>>],
    part: usize,
) -> Result<Vec<u8>, Memory>
    ensures { IfOk result (λ bytes. AreMarkedIn workers.now part bytes.items) }
{
    let mut bytes = vec![in alloc; 0u8; place.mask as usize / 4 + 1]?;
    for w in 0..workers.len() {
        mark_cells(&mut bytes, list_in(workers[w].as_slice(), part));
    }
    Ok(bytes)
}

/// The marks of the cells of each part, in so many threads at most.
fn marked<R: Threads + Sync>(
    rt: &R,
    alloc: Global,
    place: &Place,
    workers: &[Vec<Vec<Placed>>],
    threads: usize,
) -> Result<Vec<Vec<u8>>, Memory>
    ensures { IfOk result (λ parts. AreMade PARTS (AreMarkedIn workers.now) parts.items) }
{
    collect_each(
        rt,
        alloc,
        PARTS,
        threads,
        &|part| { marks_of(alloc, place, workers, part) },
    )
}

/// In how many threads work on so many pieces is done. Few entries are not worth a thread.
pub fn threads_for(place: &Place, pieces: usize) -> usize {
    // All parts together have eight times as many cells as there are entries, or more.
    if place.mask as usize * PARTS / 8 < LEAST_KEYS {
        return 1;
    }
    pieces
}

/// The mark of a cell of a part. A cell that is not there counts as one of several keys.
#[inline(always)]
pub fn mark_at(bytes: &[u8], cell: usize) -> u8
    ensures { result ≡ mark_at bytes.now cell }
{
    match bytes.get(cell / 4) {
        Some(byte) => mark_in(*byte, cell),
        None => mark_in(ALL_SEVERAL, cell),
    }
}

impl Filter {
    /// The filter of the keys of all workers' entries.
    pub fn of<R: Threads + Sync>(
        rt: &R,
        alloc: Global,
        place: Place,
        workers: &[Vec<Vec<Placed>>],
    ) -> Result<Filter, Memory>
        ensures { IfOk result (IsFilterOf place workers.now) }
    {
        let threads = threads_for(&place, MARKING_THREADS);
        let parts = marked(rt, alloc, &place, workers, threads)?;
        Ok(Filter { place, parts })
    }

    /// The marks of the cells of a part.
    #[inline(always)]
    pub fn marks_in(&self, part: usize) -> &[u8]
        ensures { result.now ≡ list_of self.now.parts.items part }
    {
        match self.parts.get(part) {
            Some(bytes) => bytes.as_slice(),
            None => &[],
        }
    }
}
