//! Which entries may have a twin: another entry of the same key. They fall into classes.

ghost use Rattle.std.specs.Prelude.{◌≡◌, ◌<◌, ◌≤◌, All, IfOk, ℕ, length};
ghost use Rattle.key_counts.specs.Partition.{AreAll, lens_of};
ghost use Rattle.key_counts.specs.Private.Hashes.{AreBelow};
ghost use Rattle.key_counts.specs.Private.Results.{AreMade, list_of};
ghost use Rattle.key_counts.specs.Private.Twins.{AreClassesBy, AreClassesIn, AreWithin, AreWritten, HasClasses, IsOnce, class_at, class_in};
ghost use Rattle.key_counts.specs.Segments.{IsSegment, keys_behind};
ghost use Rattle.key_index.specs.Keys.{Key};

use crate::counts::KeyCounts;
use crate::filter::{Filter, PARTS, Place, mark_at, threads_for};
use crate::hashes::{Placed, list_in, placed_of};
use crate::merging::Segment;
use lane_words::Memory;
use parallel::collect_each;
use std::alloc::Global;
use std::snapshot::Snapshot;
use std::thread::Threads;

/// In how many classes, each merged in a thread of its own, the keys that may have a twin fall.
pub const CLASSES: usize = 4;

/// The classes of entries, by which of them may have a twin.
#[derive(Drop)]
pub struct Twins {
    /// The filter as it was, for contracts alone: it takes no memory.
    filter: Snapshot<Filter>,
    /// The class of each entry of each worker, from 1, or 0 if it has no twin.
    classes: Vec<Vec<u8>>,
}

/// The class of a cell of a part, from the marks of this: that of the part if several keys have the
/// cell.
#[inline(always)]
fn class_at(class: u8, bytes: &[u8], cell: usize) -> u8
    ensures { result ≡ class_at class bytes.now cell }
{
    // A processor that had to guess the mark would wait for the memory of one cell after another.
    let by_mark = [0, 0, class, 0];
    by_mark[mark_at(bytes, cell) as usize]
}

/// Writes the classes of the entries of a part, from the marks of this.
fn write_classes(classes: &mut [u8], class: u8, bytes: &[u8], list: &[Placed])
    requires { All (λ e. e.code < length classes.old) list.now }
    ensures { (right : ℕ → ℕ)
        → All (λ e. class_at class bytes.now e.cell ≡ right e.code) list.now
        → AreWritten right list.now classes.old classes.new }
{
    for i in 0..list.len() {
        let Placed { cell, code } = list[i];
        classes[code as usize] = class_at(class, bytes, cell as usize);
    }
}

/// The classes of so many entries, from where they were placed.
fn classes_of(
    alloc: Global,
    filter: &Filter,
    lists: &[Vec<Placed>],
    entries: usize,
) -> Result<Vec<u8>, Memory>
    requires { AreBelow entries lists.now }
    ensures { IfOk result (λ classes. AreClassesBy filter.now lists.now entries classes.items) }
{
    let mut classes = vec![in alloc; 0u8; entries]?;
    for part in 0..PARTS {
        let class = (1 + part % CLASSES) as u8;
        write_classes(
            &mut classes,
            class,
            filter.marks_in(part),
            list_in(lists, part),
        );
    }
    Ok(classes)
}

/// The classes of one worker's entries.
fn classes_of_worker(
    alloc: Global,
    filter: &Filter,
    workers: &[KeyCounts],
    placed: &[Vec<Vec<Placed>>],
    w: usize,
) -> Result<Vec<u8>, Memory>
    requires within { AreWithin workers.now placed.now }
    requires worker { w < length workers.now }
    ensures { IfOk result (λ classes.
        AreClassesIn filter.now workers.now placed.now w classes.items) }
{
    classes_of(alloc, filter, placed[w].as_slice(), workers[w].len())
}

/// The classes of each worker's entries, found in so many threads at most.
fn classed<R: Threads + Sync>(
    rt: &R,
    alloc: Global,
    filter: &Filter,
    workers: &[KeyCounts],
    placed: &[Vec<Vec<Placed>>],
    threads: usize,
) -> Result<Vec<Vec<u8>>, Memory>
    requires { AreWithin workers.now placed.now }
    ensures { IfOk result (λ lists. AreMade (length workers.now)
        (AreClassesIn filter.now workers.now placed.now) lists.items) }
{
    collect_each(
        rt,
        alloc,
        workers.len(),
        threads,
        &|w| { classes_of_worker(alloc, filter, workers, placed, w) },
    )
}

impl Twins {
    /// Which entries of these workers may have a twin, where each key stands without its first
    /// `skip` bytes. The segments have all entries.
    pub fn of<R: Threads + Sync>(
        rt: &R,
        alloc: Global,
        place: Place,
        workers: &[KeyCounts],
        segments: &[Segment],
        skip: usize,
    ) -> Result<Twins, Memory>
        requires segments { All (IsSegment workers.now) segments.now }
        requires all { AreAll (lens_of workers.now) segments.now }
        ensures once { IfOk result (λ twins.
            IsOnce (class_in twins) (keys_behind skip workers.now segments.now)) }
        ensures classes { IfOk result (λ twins. HasClasses twins skip workers.now) }
        ensures bound { IfOk result (λ twins. (x : Key) → class_in twins x ≤ CLASSES) }
    {
        let threads = threads_for(&place, workers.len());
        let placed = placed_of(rt, alloc, &place, workers, skip, threads)?;
        let filter = Filter::of(rt, alloc, place, placed.as_slice())?;
        let classes = classed(rt, alloc, &filter, workers, placed.as_slice(), threads)?;
        Ok(Twins {
            filter: Snapshot::of(&filter),
            classes,
        })
    }

    /// The class of each of one worker's entries, from 1, or 0 if it has no twin.
    #[inline(always)]
    pub fn classes_in(&self, worker: usize) -> &[u8]
        requires { worker < length self.now.classes.items }
        ensures { result.now ≡ list_of self.now.classes.items worker }
    {
        self.classes[worker].as_slice()
    }
}
