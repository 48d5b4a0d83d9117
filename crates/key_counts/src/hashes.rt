//! The entries of several workers, each in the part of its key's cell. Each key is hashed once.

ghost use Rattle.std.specs.Prelude.{◌≡◌, ◌<◌, IfOk, ℕ, length};
ghost use Rattle.key_counts.specs.Counts.{Entries};
ghost use Rattle.key_counts.specs.Private.Hashes.{ArePlaced, ArePlacedIn, ArePlacedTo};
ghost use Rattle.key_counts.specs.Private.Results.{list_of};

use crate::counts::KeyCounts;
use crate::filter::{PARTS, Place, cell_of, part_of};
use crate::merging::behind;
use lane_words::Memory;
use parallel::collect_each;
use std::alloc::Global;
use std::thread::Threads;

/// An entry with the cell of its key.
#[derive(Clone, Copy)]
pub struct Placed {
    /// The index of the cell in its part.
    pub cell: u32,
    /// The code of the entry.
    pub code: u32,
}

/// A list for each part, with memory for its share of so many entries and an eighth more.
fn empty_lists(alloc: Global, entries: usize) -> Result<Vec<Vec<Placed>>, Memory>
    ensures { IfOk result (λ lists. (place : Place) (skip : ℕ) (entries : Entries)
        → ArePlacedTo place skip entries 0 lists.items) }
{
    let share = entries / PARTS;
    let mut lists = Vec::with_capacity(alloc, PARTS)?;
    for _part in 0..PARTS {
        lists.push(Vec::with_capacity(alloc, share + share / 8)?)?;
    }
    Ok(lists)
}

/// Places entries by their keys, each without its first `skip` bytes.
fn placed_entries(
    alloc: Global,
    place: &Place,
    entries: &KeyCounts,
    skip: usize,
) -> Result<Vec<Vec<Placed>>, Memory>
    ensures { IfOk result (λ lists. ArePlacedTo place.now skip entries.now
        (length entries.now.keys) lists.items) }
{
    let Ok(count) = u32::try_from(entries.len()) else {
        return Err(Memory);
    };
    let mut lists = empty_lists(alloc, entries.len())?;
    for code in 0..count {
        let hash = place
            .hasher
            .hash_of(behind(entries.key(code as usize), skip));
        let cell = cell_of(place, hash);
        lists[part_of(hash)].push(Placed { cell, code })?;
    }
    Ok(lists)
}

/// The entries of the worker of this index, placed.
fn placed_by(
    alloc: Global,
    place: &Place,
    workers: &[KeyCounts],
    skip: usize,
    w: usize,
) -> Result<Vec<Vec<Placed>>, Memory>
    requires { w < length workers.now }
    ensures { IfOk result
        (λ placed. ArePlacedIn place.now skip workers.now w placed.items) }
{
    placed_entries(alloc, place, &workers[w], skip)
}

/// The entries of each worker, placed by their keys without the first `skip` bytes in so many
/// threads at most.
pub fn placed_of<R: Threads + Sync>(
    rt: &R,
    alloc: Global,
    place: &Place,
    workers: &[KeyCounts],
    skip: usize,
    threads: usize,
) -> Result<Vec<Vec<Vec<Placed>>>, Memory>
    ensures { IfOk result (λ placed. ArePlaced place.now skip workers.now placed.items) }
{
    collect_each(
        rt,
        alloc,
        workers.len(),
        threads,
        &|w| { placed_by(alloc, place, workers, skip, w) },
    )
}

/// The entries of one part.
#[inline(always)]
pub fn list_in(lists: &[Vec<Placed>], part: usize) -> &[Placed]
    ensures { result.now ≡ list_of lists.now part }
{
    match lists.get(part) {
        Some(list) => list.as_slice(),
        None => &[],
    }
}
