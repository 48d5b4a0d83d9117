//! The entries of several workers, merged: their distinct keys, and the totals of these.

ghost use Rattle.std.specs.Prelude.{◌≡◌, ◌<◌, ◌≤◌, ◌+◌, ◌-◌, ◌^◌, ◌++◌, All, IfOk, drop, length, min};
ghost use Rattle.key_counts.specs.Counts.{total};
ghost use Rattle.key_counts.specs.Partition.{AreAll, HasCounts, lens_of};
ghost use Rattle.key_counts.specs.Merging.{IsDivided, part_at};
ghost use Rattle.key_counts.specs.Private.Prepared.{AreBounds, ArePositionsAt, HasLeft, HoldsFirst, IsBound, IsPrepared, IsSameBut, keys_before, totals_before};
ghost use Rattle.key_counts.specs.Segments.{IsSegment, counts_of, is_key, keys_behind, keys_of, merged_counts};
ghost use Rattle.key_index.specs.Keys.{Key, distinct, lent};

use crate::classes::{Class, Origin, classes_of};
use crate::counts::KeyCounts;
use crate::filter::{Place, threads_for};
use crate::twins::{CLASSES, Twins};
use crate::walk::{Position, Walk};
use key_index::KeyHash;
use lane_words::{MOST_RECORDS, Memory};
use parallel::{LEAST_DROPS, LEAST_KEYS, for_each_mut};
use std::alloc::Global;
use std::hash::RandomState;
use std::marker::Model;
use std::snapshot::Snapshot;
use std::thread::Threads;

/// The new entries of one chunk: those of a worker from code `from` on, below `to`.
#[derive(Clone, Copy, Debug)]
pub struct Segment {
    /// The index of the worker.
    pub worker: usize,
    /// The code of the first new entry.
    pub from: usize,
    /// The code after the last new entry.
    pub to: usize,
}

/// Entries merged by key.
#[derive(Debug, Drop)]
pub struct Merged<'a> {
    /// The distinct keys, in the order of their first appearance.
    pub keys: Vec<&'a [u8]>,
    /// How many records each key has.
    pub counts: Vec<u64>,
}

/// A key without its first bytes, of which there are so many.
#[inline(always)]
pub fn behind(key: &[u8], skip: usize) -> &[u8]
    ensures { result.now ≡ drop skip key.now }
{
    &key[skip.min(key.len())..]
}

/// How many entries these segments have. Fails with more than `MOST_RECORDS`.
fn len_of(workers: &[KeyCounts], segments: &[Segment]) -> Result<usize, Memory>
    requires { All (IsSegment workers.now) segments.now }
    ensures value { IfOk result (λ n. n ≡ length (keys_of workers.now segments.now)) }
    ensures bound { IfOk result (λ n. n ≤ MOST_RECORDS) }
{
    let mut entries: usize = 0;
    for i in 0..segments.len() {
        let Segment { from, to, .. } = segments[i];
        let new = to - from;
        if new > MOST_RECORDS as usize - entries {
            return Err(Memory);
        }
        entries += new;
    }
    Ok(entries)
}

/// Where a part of the segments begins.
#[derive(Clone, Copy, Debug)]
pub struct Start {
    /// The index of its first segment.
    segment: usize,
    /// How many entries stand before. It only decides where parts begin, and how much memory is
    /// reserved.
    entries: usize,
}

/// How many of a worker's entries the first segments have.
fn entries_before(segments: &[Segment], end: usize, worker: usize) -> usize
    ensures { HoldsFirst segments.now end worker result }
{
    let mut len = 0;
    for i in 0..end.min(segments.len()) {
        if segments[i].worker == worker {
            len = len.max(segments[i].to);
        }
    }
    len
}

/// Entries of workers, and what a walk over them needs.
#[derive(Drop)]
pub struct Prepared {
    /// The workers, each with the first of its entries.
    workers: Vec<KeyCounts>,
    /// The workers with all entries, for contracts alone: it takes no memory.
    whole: Snapshot<Vec<KeyCounts>>,
    /// The segments, in their order.
    segments: Vec<Segment>,
    /// How many bytes of each key are left out.
    skip: usize,
    /// Which entries may have a twin, and in which class.
    twins: Twins,
    /// The entries of each class, merged.
    classes: Vec<Class>,
}

impl Prepared {
    /// Finds what a walk over the entries of these segments needs.
    fn new<R: Threads + Sync>(
        rt: &R,
        alloc: Global,
        hasher: RandomState,
        place: Place,
        workers: Vec<KeyCounts>,
        segments: Vec<Segment>,
        skip: usize,
    ) -> Result<Prepared, Memory>
        requires segments { All (IsSegment workers.items) segments.items }
        requires all { AreAll (lens_of workers.items) segments.items }
        requires sums { (x : Key) → total (is_key x) (keys_behind skip workers.items segments.items)
            (counts_of workers.items segments.items) < 2 ^ 64 }
        ensures prepared { IfOk result IsPrepared }
        ensures left { IfOk result (λ m. HasLeft m (length m.segments.items)) }
        ensures workers { IfOk result (λ m. m.whole.value.items ≡ workers.items) }
        ensures segments { IfOk result (λ m. m.segments.items ≡ segments.items) }
        ensures skip { IfOk result (λ m. m.skip ≡ skip) }
    {
        are_counted(workers.as_slice());
        let threads = threads_for(&place, CLASSES);
        let twins = Twins::of(
            rt,
            alloc,
            place,
            workers.as_slice(),
            segments.as_slice(),
            skip,
        )?;
        let origin = Origin {
            twins: &twins,
            workers: workers.as_slice(),
            skip,
        };
        let classes = classes_of(rt, alloc, hasher, &origin, segments.as_slice(), threads)?;
        let whole = Snapshot::of(&workers);
        Ok(Prepared {
            workers,
            whole,
            segments,
            skip,
            twins,
            classes,
        })
    }

    /// Where parts of `LEAST_KEYS` entries or more begin, and after them where the last one ends.
    /// The lists of a part of this size stay in a processor's cache, and their memory is used again.
    fn bounds(&self, alloc: Global) -> Result<Vec<Start>, Memory>
        requires { IsPrepared self.now }
        ensures { IfOk result (λ bounds. AreBounds self.now bounds.items) }
    {
        let mut bounds: Vec<Start> = Vec::new(alloc);
        let mut entries: usize = 0;
        let mut begun: usize = 0;
        for segment in 0..self.segments.len() {
            if segment == 0 || entries.saturating_sub(begun) >= LEAST_KEYS {
                begun = entries;
                bounds.push(Start { segment, entries })?;
            }
            let Segment { from, to, .. } = self.segments[segment];
            entries = entries.saturating_add(to.saturating_sub(from));
        }
        let segment = self.segments.len();
        bounds.push(Start { segment, entries })?;
        Ok(bounds)
    }

    /// How far the entries of each class are merged before a segment.
    fn positions_at(&self, segment: usize) -> [Position; CLASSES]
        requires prepared { IsPrepared self.now }
        requires segment { segment ≤ length self.now.segments.items }
        ensures { ArePositionsAt self.now segment result }
    {
        let mut positions = [Position { at: 0, next: 0 }; CLASSES];
        for class in 0..CLASSES {
            positions[class] = self.classes[class].starts[segment];
        }
        positions
    }

    /// Forgets the entries of all segments but the first ones, in so many threads at most.
    fn forget_from<R: Threads + Sync>(&mut self, rt: &R, end: usize, threads: usize)
        requires prepared { IsPrepared self.old }
        requires left { HasLeft self.old end }
        ensures left { HasLeft self.new end }
        ensures same { IsSameBut self.old self.new }
    {
        let segments = self.segments.as_slice();
        for_each_mut(
            rt,
            &mut self.workers,
            threads,
            &|w, own: &mut KeyCounts| {
                own.truncate(entries_before(segments, end, w));
            },
        );
    }

    /// Merges the entries of the segments from one start on, up to another.
    fn walked(&self, alloc: Global, start: Start, end: Start) -> Result<Merged<'_>, Memory>
        requires prepared { IsPrepared self.now }
        requires start { IsBound self.now start }
        requires end { IsBound self.now end }
        requires order { start.segment ≤ end.segment }
        requires left { HasLeft self.now end.segment }
        ensures keys { IfOk result (λ m.
            keys_before self.now start ++ lent m.keys.items ≡ keys_before self.now end) }
        ensures counts { IfOk result (λ m.
            totals_before self.now start ++ m.counts.items ≡ totals_before self.now end) }
        ensures len { IfOk result (λ m. length (lent m.keys.items) ≡ length m.counts.items) }
    {
        let capacity = end.entries.saturating_sub(start.entries);
        let mut walk = Walk::new(alloc, capacity, self.positions_at(start.segment))?;
        for i in start.segment..end.segment {
            let segment = self.segments[i];
            let entries = &self.workers[segment.worker];
            walk.take_segment(&self.twins, &self.classes, entries, segment, self.skip)?;
        }
        let Walk { keys, counts, .. } = walk;
        Ok(Merged { keys, counts })
    }
}

/// The entries of segments, prepared to be merged by key, in parts or as a whole.
#[derive(Drop)]
pub struct Merging {
    /// The entries.
    prepared: Prepared,
    /// Where each part begins, and after them where the last one ends.
    bounds: Vec<Start>,
    /// How many of the parts still have their entries.
    left: usize,
}

impl Model for Merging {
    ghost use Rattle.std.specs.Prelude.{◌<◌, drop, map, length, slice_index_or};
    ghost use Rattle.key_index.specs.Keys.{distinct};
    ghost use Rattle.key_counts.specs.Merging.{Parted};
    ghost use Rattle.key_counts.specs.Private.Prepared.{AreBounds, HasLeft, IsPrepared, all_keys, keys_before};
    ghost use Rattle.key_counts.specs.Segments.{merged_counts};
    ghost use Rattle.key_counts.specs.declared.merging.Start.{Start};

    ghost Value = { Parted };

    ghost view = { λ s. record {
      keys = distinct (all_keys s.prepared);
      counts = merged_counts s.prepared.skip s.prepared.whole.value.items s.prepared.segments.items;
      ends = drop 1 (map (λ b. length (keys_before s.prepared b)) s.bounds.items);
      left = s.left;
    } };

    ghost invariant = { λ s. IsPrepared s.prepared × AreBounds s.prepared s.bounds.items
        × (s.left < length s.bounds.items)
        × ((d : Start) → HasLeft s.prepared (slice_index_or s.bounds.items s.left d).segment) };
}

impl Merging {
    /// Prepares the entries of these segments to be merged by key, in the order of the segments.
    /// The first `skip` bytes of each key are left out: what stands before a key does not make it
    /// another. Keys are hashed by this hasher, which a stranger must not know. Fails with `Memory`
    /// if an allocation failed, and if there are more than `MOST_RECORDS` entries.
    pub fn new<R: Threads + Sync>(
        rt: &R,
        alloc: Global,
        hasher: RandomState,
        workers: Vec<KeyCounts>,
        segments: Vec<Segment>,
        skip: usize,
    ) -> Result<Merging, Memory>
        requires segments { All (IsSegment workers.items) segments.items }
        requires all { AreAll (lens_of workers.items) segments.items }
        requires sums { (x : Key) → total (is_key x) (keys_behind skip workers.items segments.items)
            (counts_of workers.items segments.items) < 2 ^ 64 }
        ensures keys { IfOk result
            (λ m. m.keys ≡ distinct (keys_behind skip workers.items segments.items)) }
        ensures counts { IfOk result
            (λ m. m.counts ≡ merged_counts skip workers.items segments.items) }
        ensures left { IfOk result (λ m. m.left ≡ length m.ends) }
    {
        let entries = len_of(workers.as_slice(), segments.as_slice())?;
        let place = Place::of(KeyHash::of(hasher), entries);
        let prepared = Prepared::new(rt, alloc, hasher, place, workers, segments, skip)?;
        let bounds = prepared.bounds(alloc)?;
        let left = bounds.len() - 1;
        Ok(Merging {
            prepared,
            bounds,
            left,
        })
    }

    /// How many parts there are, each of which can be merged by itself.
    pub fn parts(&self) -> usize
        ensures value { result ≡ length self.now.ends }
        ensures divided { IsDivided self.now }
    {
        self.bounds.len() - 1
    }

    /// Merges one part that still has its entries: its keys are those that no part before it has,
    /// in the order of their first appearance.
    pub fn part(&self, alloc: Global, i: usize) -> Result<Merged<'_>, Memory>
        requires within { i < length self.now.ends }
        requires left { i < self.now.left }
        ensures keys { IfOk result
            (λ m. lent m.keys.items ≡ part_at self.now.ends i self.now.keys) }
        ensures counts { IfOk result
            (λ m. m.counts.items ≡ part_at self.now.ends i self.now.counts) }
        ensures len { IfOk result (λ m. length (lent m.keys.items) ≡ length m.counts.items) }
    {
        self.prepared
            .walked(alloc, self.bounds[i], self.bounds[i + 1])
    }

    /// Forgets the entries of all parts from one on, whose memory is freed.
    pub fn forget_from<R: Threads + Sync>(&mut self, rt: &R, part: usize)
        ensures keys { self.new.keys ≡ self.old.keys }
        ensures counts { self.new.counts ≡ self.old.counts }
        ensures ends { self.new.ends ≡ self.old.ends }
        ensures left { self.new.left ≡ min part self.old.left }
    {
        if part >= self.left {
            return;
        }
        let Start { segment, entries } = self.bounds[part];
        let forgotten = self.bounds[self.left].entries.saturating_sub(entries);
        let threads = if forgotten < LEAST_DROPS { 1 } else { CLASSES };
        self.prepared.forget_from(rt, segment, threads);
        self.left = part;
    }

    /// Merges all parts together.
    pub fn all(&self, alloc: Global) -> Result<Merged<'_>, Memory>
        requires { self.now.left ≡ length self.now.ends }
        ensures keys { IfOk result (λ m. lent m.keys.items ≡ self.now.keys) }
        ensures counts { IfOk result (λ m. m.counts.items ≡ self.now.counts) }
        ensures len { IfOk result (λ m. length (lent m.keys.items) ≡ length m.counts.items) }
    {
        self.prepared
            .walked(alloc, self.bounds[0], self.bounds[self.bounds.len() - 1])
    }
}

/// Each of these workers' entries has a count.
pub fn are_counted(workers: &[KeyCounts])
    ensures { All HasCounts workers.now }
{
    for w in 0..workers.len() {
        let _len = workers[w].len();
    }
}
