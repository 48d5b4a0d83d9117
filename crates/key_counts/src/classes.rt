//! The entries whose key may have a twin, merged in classes: the distinct keys of each, and the
//! totals of these.

ghost use Rattle.std.specs.Prelude.{◌≡◌, ◌<◌, ◌≤◌, ◌+◌, ◌++◌, ◌∷◌, ◌^◌, [], ℕ, All, IfOk, OnOk, length};
ghost use Rattle.key_counts.specs.Counts.{total};
ghost use Rattle.key_counts.specs.Private.Classes.{AreAllMembers, AreClassesMade, AreMembers, IsClass, IsNoMember, IsOrigin, TakesMember, TakesMembers};
ghost use Rattle.key_counts.specs.Private.Parts.{IsPartOf};
ghost use Rattle.key_counts.specs.Private.Totals.{AreAddable, AreAdded, AreTotals, added};
ghost use Rattle.key_counts.specs.Private.Twins.{HasClassesOf, class_in};
ghost use Rattle.key_counts.specs.Segments.{counts_of, is_key, keys_behind};
ghost use Rattle.key_index.specs.Keys.{Key};

use crate::counts::KeyCounts;
use crate::merging::{Segment, behind};
use crate::twins::{CLASSES, Twins};
use crate::walk::Position;
use key_index::KeyMap;
use lane_words::{MOST_RECORDS, Memory};
use parallel::collect_each;
use std::alloc::Global;
use std::hash::RandomState;
use std::thread::Threads;

/// The totals of the entries of a class.
#[derive(Debug, Drop)]
pub struct Totals {
    /// The key number of each entry.
    pub ids: Vec<u32>,
    /// How many records each key has, by key number.
    pub totals: Vec<u64>,
}

/// The entries of a class, merged.
#[derive(Debug, Drop)]
pub struct Class {
    /// Their totals.
    pub totals: Totals,
    /// How far they are merged before each segment, and after all.
    pub starts: Vec<Position>,
}

/// The entries of a class, as far as they came.
#[derive(Drop)]
pub struct Members {
    /// Their distinct keys.
    pub keys: KeyMap,
    /// The key number of each.
    pub ids: Vec<u32>,
    /// How many records each took.
    pub counts: Vec<u64>,
    /// How far they were merged before each segment.
    pub starts: Vec<Position>,
}

/// Where the entries of a class are looked for.
#[derive(Clone, Copy)]
pub struct Origin<'t> {
    /// The class of each entry's key.
    pub twins: &'t Twins,
    /// The workers.
    pub workers: &'t [KeyCounts],
    /// How many bytes of each key are left out.
    pub skip: usize,
}

impl Members {
    /// No entries yet. Keys are hashed by this hasher.
    fn new(alloc: Global, hasher: RandomState) -> Members
        ensures { IsNoMember result }
    {
        Members {
            keys: KeyMap::new(alloc, hasher),
            ids: Vec::new(alloc),
            counts: Vec::new(alloc),
            starts: Vec::new(alloc),
        }
    }

    /// Notes how far the entries are merged.
    fn note(&mut self) -> Result<(), Memory>
        ensures ok { OnOk result (self.new.starts.items ≡ self.old.starts.items
            ++ record { at = length self.old.ids.items; next = length self.old.keys } ∷ []) }
        ensures same { OnOk result ((self.new.keys ≡ self.old.keys)
            × (self.new.ids ≡ self.old.ids) × (self.new.counts ≡ self.old.counts)) }
    {
        self.starts.push(Position {
            at: self.ids.len(),
            next: self.keys.count() as usize,
        })?;
        Ok(())
    }

    /// Takes an entry.
    fn take(&mut self, key: &[u8], count: u64) -> Result<(), Memory>
        ensures { OnOk result (TakesMember key.now count self.old self.new) }
    {
        if self.keys.count() >= MOST_RECORDS {
            return Err(Memory);
        }
        let id = self.keys.intern(key)?;
        self.ids.push(id)?;
        self.counts.push(count)?;
        Ok(())
    }

    /// Takes those entries of a segment that are of this class.
    fn take_segment(
        &mut self,
        twins: &Twins,
        class: usize,
        entries: &KeyCounts,
        segment: Segment,
        skip: usize,
    ) -> Result<(), Memory>
        requires class { class < CLASSES }
        requires part { IsPartOf entries.now segment }
        requires classes { HasClassesOf twins.now skip entries.now segment.worker }
        ensures members { OnOk result (TakesMembers (class_in twins.now) class skip entries.now
            segment self.old self.new) }
        ensures same { OnOk result (self.new.starts ≡ self.old.starts) }
    {
        let classes = twins.classes_in(segment.worker);
        for code in segment.from..segment.to {
            if usize::from(classes[code]) == class + 1 {
                let key = behind(entries.key(code), skip);
                self.take(key, entries.count(code))?;
            }
        }
        Ok(())
    }
}

/// The entries of a class in these segments.
fn members_of(
    alloc: Global,
    hasher: RandomState,
    origin: &Origin<'_>,
    segments: &[Segment],
    class: usize,
) -> Result<Members, Memory>
    requires class { class < CLASSES }
    requires origin { IsOrigin origin.now segments.now }
    ensures { IfOk result (AreAllMembers origin.now segments.now class) }
{
    let Origin {
        twins,
        workers,
        skip,
    } = *origin;
    let mut members = Members::new(alloc, hasher);
    for i in 0..segments.len() {
        let segment = segments[i];
        let entries = &workers[segment.worker];
        members.note()?;
        members.take_segment(twins, class, entries, segment, skip)?;
    }
    members.note()?;
    Ok(members)
}

/// Adds each count to the total of its key number.
fn add_counts(totals: &mut [u64], ids: &[u32], counts: &[u64])
    requires len { length ids.now ≡ length counts.now }
    requires ids { All (λ id. id < length totals.old) ids.now }
    requires sums { AreAddable totals.old ids.now counts.now }
    ensures { AreAdded totals.old ids.now counts.now totals.new }
{
    for k in 0..ids.len() {
        totals[ids[k] as usize] += counts[k];
    }
}

/// The sum of the counts of each of this number of keys, from the key number of each count.
fn totals_of_ids(
    alloc: Global,
    ids: &[u32],
    counts: &[u64],
    keys: usize,
) -> Result<Vec<u64>, Memory>
    requires len { length ids.now ≡ length counts.now }
    requires ids { All (λ id. id < keys) ids.now }
    requires sums { (id : ℕ) → id < keys → added ids.now counts.now id < 2 ^ 64 }
    ensures { IfOk result (λ totals. AreTotals keys ids.now counts.now totals.items) }
{
    let mut totals = vec![in alloc; 0u64; keys]?;
    add_counts(&mut totals, ids, counts);
    Ok(totals)
}

/// The entries of a class in these segments, merged.
fn class_of(
    alloc: Global,
    hasher: RandomState,
    origin: &Origin<'_>,
    segments: &[Segment],
    class: usize,
) -> Result<Class, Memory>
    requires class { class < CLASSES }
    requires origin { IsOrigin origin.now segments.now }
    requires sums { (x : Key) → total (is_key x)
        (keys_behind origin.now.skip origin.now.workers.now segments.now)
        (counts_of origin.now.workers.now segments.now) < 2 ^ 64 }
    ensures { IfOk result (IsClass (class_in origin.now.twins.now) origin.now.skip
        origin.now.workers.now segments.now class) }
{
    let Members {
        keys,
        ids,
        counts,
        starts,
    } = members_of(alloc, hasher, origin, segments, class)?;
    let totals = totals_of_ids(
        alloc,
        ids.as_slice(),
        counts.as_slice(),
        keys.count() as usize,
    )?;
    Ok(Class {
        totals: Totals { ids, totals },
        starts,
    })
}

/// The entries of each class in these segments, merged: each class in a thread of its own, if there
/// may be so many.
pub fn classes_of<R: Threads + Sync>(
    rt: &R,
    alloc: Global,
    hasher: RandomState,
    origin: &Origin<'_>,
    segments: &[Segment],
    threads: usize,
) -> Result<Vec<Class>, Memory>
    requires origin { IsOrigin origin.now segments.now }
    requires sums { (x : Key) → total (is_key x)
        (keys_behind origin.now.skip origin.now.workers.now segments.now)
        (counts_of origin.now.workers.now segments.now) < 2 ^ 64 }
    ensures len { IfOk result (λ classes. length classes.items ≡ CLASSES) }
    ensures classes { IfOk result (λ classes. AreClassesMade (class_in origin.now.twins.now)
        origin.now.skip origin.now.workers.now segments.now classes.items) }
{
    collect_each(
        rt,
        alloc,
        CLASSES,
        threads,
        &|class| { class_of(alloc, hasher, origin, segments, class) },
    )
}
