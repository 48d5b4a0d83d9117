//! Reference implementation of partial counts: an ordered map, counter by counter.

ghost use Rattle.std.specs.Prelude.{◌≡◌, ◌≢◌, ◌+◌, ◌<◌, ◌^◌, ℕ, Some, IfOk, OnOk, true, false, length, slice_index};
ghost use Rattle.std.specs.BTreeMap.{IsFromIterResult};
ghost use Rattle.std.specs.List.Sorted.{IsNonDecreasing};
ghost use Rattle.std.specs.Ordering.{nat_cmp};
ghost use Rattle.cluster_tests.specs.ReferencePartial.{IsValidPlainPartial, counted, value_in};
ghost use Rattle.keyed_table.specs.Counts.{HaveCounters, SumsFit, plain, raised};

use lane_words::Memory;
use std::alloc::{AllocError, Global};
use std::collections::BTreeMap;
use std::marker::Model;

/// A list of key numbers, with the count of each number in an ordered map.
#[derive(Debug, Drop)]
pub struct ReferencePartial {
    /// The list, in its own order.
    ids: Vec<u32>,
    /// The count of each number in the list; other numbers have no entry.
    counts: BTreeMap<u32, u64>,
}

impl Model for ReferencePartial {
    ghost use Rattle.std.specs.Prelude.{List, ℕ};
    ghost use Rattle.cluster_tests.specs.ReferencePartial.{IsValidPlainPartial};

    ghost Value = { List ℕ };

    ghost view = { λ p. p.ids.items };

    ghost invariant = { λ p. IsValidPlainPartial p.ids.items p.counts };
}

impl ReferencePartial {
    /// Counts a list. It fails only when out of memory.
    pub fn of(alloc: Global, ids: Vec<u32>) -> Result<ReferencePartial, Memory>
        ensures { IfOk result (λ partial. partial ≡ ids.items) }
    {
        let mut sorted = Vec::from_slice(alloc, ids.as_slice())?;
        sorted.sort_unstable();
        let counts = counts_of(alloc, sorted.as_slice())?;
        Ok(ReferencePartial { ids, counts })
    }

    /// The list.
    pub fn ids(&self) -> &[u32]
        ensures { result.now ≡ self.now }
    {
        self.ids.as_slice()
    }

    /// The count of a number in the list.
    pub fn get(&self, id: u32) -> u64
        ensures { result ≡ plain self.now id }
    {
        match self.counts.get(&id) {
            Some(n) => *n,
            None => 0,
        }
    }

    /// The counts, by number.
    fn counts(&self) -> &BTreeMap<u32, u64>
        ensures { IsValidPlainPartial self.now result.now }
    {
        &self.counts
    }
}

/// The count of each number in a sorted list.
fn counts_of(alloc: Global, ids: &[u32]) -> Result<BTreeMap<u32, u64>, Memory>
    requires { IsNonDecreasing ids.now }
    ensures { IfOk result (IsValidPlainPartial ids.now) }
{
    let runs = runs_of(alloc, ids)?;
    Ok(map_of(alloc, runs)?)
}

/// Each number of a sorted list with its count.
fn runs_of(alloc: Global, ids: &[u32]) -> Result<Vec<(u32, u64)>, Memory>
    requires { IsNonDecreasing ids.now }
    ensures { IfOk result (λ runs. (x : ℕ) → value_in runs.items x ≡ counted (plain ids.now x)) }
{
    let mut runs = Vec::new(alloc);
    let mut start = 0;
    for at in 0..ids.len() {
        if ends_run(ids, at) {
            runs.push((ids[at], (at + 1 - start) as u64))?;
            start = at + 1;
        }
    }
    Ok(runs)
}

/// A map of pairs that are sorted by key, built at once.
fn map_of(alloc: Global, pairs: Vec<(u32, u64)>) -> Result<BTreeMap<u32, u64>, AllocError>
    ensures { IfOk result (IsFromIterResult nat_cmp pairs.items) }
{
    pairs.into_iter().collect(alloc)
}

/// Whether a run of equal numbers ends at this index.
fn ends_run(ids: &[u32], at: usize) -> bool
    requires { at < length ids.now }
    ensures if_false { result ≡ false → (at + 1 < length ids.now)
        × (slice_index ids.now (at + 1) ≡ slice_index ids.now at) }
    ensures if_true { result ≡ true → at + 1 < length ids.now
        → slice_index ids.now (at + 1) ≢ slice_index ids.now at }
{
    at + 1 == ids.len() || ids[at + 1] != ids[at]
}

/// Adds the count of its number to each counter.
pub fn raise(counts: &mut [u64], partial: &ReferencePartial)
    requires numbers { HaveCounters counts.old partial.now }
    requires sums { SumsFit counts.old partial.now }
    ensures { counts.new ≡ raised counts.old partial.now }
{
    for (id, n) in partial.counts() {
        counts[*id as usize] += *n;
    }
}
