//! Entries merged in their order.

ghost use Rattle.std.specs.Prelude.{◌≡◌, ◌≤◌, ◌<◌, ◌+◌, ℕ, List, IfOk, OnOk, length};
ghost use Rattle.key_counts.specs.Private.Parts.{IsPartOf};
ghost use Rattle.key_counts.specs.Private.Twins.{HasClassesOf, class_in};
ghost use Rattle.key_counts.specs.Private.Walks.{IsStart, Passes, WalksOn, WalksOver};
ghost use Rattle.key_counts.specs.declared.classes.Class.{Class};
ghost use Rattle.key_index.specs.Keys.{Key};

use crate::classes::{Class, Totals};
use crate::counts::KeyCounts;
use crate::merging::{Segment, behind};
use crate::twins::{CLASSES, Twins};
use lane_words::Memory;
use std::alloc::Global;

/// How far the entries of a class are merged.
#[derive(Clone, Copy, Debug)]
pub struct Position {
    /// How many of them came.
    pub at: usize,
    /// How many distinct keys these have.
    pub next: usize,
}

impl Position {
    /// Passes an entry of the class. Returns the total of its key if it is new: then its number is
    /// the next.
    #[inline(always)]
    fn pass(&mut self, shared: &Totals) -> Option<u64>
        ensures { Passes shared.now self.old self.new result }
    {
        if self.at >= shared.ids.len() {
            return None;
        }
        let id = shared.ids[self.at] as usize;
        self.at += 1;
        if id != self.next || id >= shared.totals.len() {
            return None;
        }
        self.next += 1;
        Some(shared.totals[id])
    }
}

/// Entries merged so far.
#[derive(Debug, Drop)]
pub struct Walk<'a> {
    /// The distinct keys, in the order of their first appearance.
    pub keys: Vec<&'a [u8]>,
    /// How many records each key has.
    pub counts: Vec<u64>,
    /// How far the entries of each class are merged.
    positions: [Position; CLASSES],
}

impl<'a> Walk<'a> {
    /// Nothing from these positions on yet, with memory for so many keys.
    pub fn new(
        alloc: Global,
        capacity: usize,
        positions: [Position; CLASSES],
    ) -> Result<Walk<'a>, Memory>
        ensures { IfOk result (IsStart positions) }
    {
        Ok(Walk {
            keys: Vec::with_capacity(alloc, capacity)?,
            counts: Vec::with_capacity(alloc, capacity)?,
            positions,
        })
    }

    /// Takes an entry that shares its key with no other.
    #[inline(always)]
    fn take_unique(&mut self, key: &'a [u8], count: u64) -> Result<(), Memory>
        ensures { OnOk result ((classes : List Class)
            → WalksOn 0 classes key.now count self.old self.new) }
    {
        self.keys.push(key)?;
        self.counts.push(count)?;
        Ok(())
    }

    /// Takes an entry of a class.
    #[inline(always)]
    fn take_shared(&mut self, key: &'a [u8], class: usize, classes: &[Class]) -> Result<(), Memory>
        requires class { class < CLASSES }
        requires classes { length classes.now ≡ CLASSES }
        ensures { OnOk result ((n : ℕ)
            → WalksOn (class + 1) classes.now key.now n self.old self.new) }
    {
        let mut position = self.positions[class];
        let found = position.pass(&classes[class].totals);
        self.positions[class] = position;
        if let Some(total) = found {
            self.keys.push(key)?;
            self.counts.push(total)?;
        }
        Ok(())
    }

    /// Takes the entries of a segment.
    pub fn take_segment(
        &mut self,
        twins: &Twins,
        classes: &[Class],
        entries: &'a KeyCounts,
        segment: Segment,
        skip: usize,
    ) -> Result<(), Memory>
        requires part { IsPartOf entries.now segment }
        requires own { HasClassesOf twins.now skip entries.now segment.worker }
        requires bound { (x : Key) → class_in twins.now x ≤ CLASSES }
        requires classes { length classes.now ≡ CLASSES }
        ensures { OnOk result (WalksOver (class_in twins.now) classes.now skip entries.now
            segment self.old self.new) }
    {
        let own = twins.classes_in(segment.worker);
        for code in segment.from..segment.to {
            let key = behind(entries.key(code), skip);
            let class = usize::from(own[code]);
            if class == 0 {
                self.take_unique(key, entries.count(code))?;
            } else {
                self.take_shared(key, class - 1, classes)?;
            }
        }
        Ok(())
    }
}
