//! Reference implementation of a set of partitions: a truth value for each number.

ghost use Rattle.std.specs.Prelude.{◌≡◌, ◌<◌, ◌≤◌, ◌==◌, ◌&&◌, ◌||◌, ◌↔◌, ℕ, false, true, not, nat_lt, min, length, IsTrue, All};
ghost use Rattle.std.specs.List.{list_any};
ghost use Rattle.cluster_tests.specs.ReferencePlane.{IsCombined, IsSomePass};
ghost use Rattle.bit_planes.specs.PartitionSet.{partitions_of, is_in, any_below, rank, size, elements, empty_set, full_set, with_one, without_one, union, minus, lowest, meets, is_within, is_same};

use lane_words::MOST_PARTITIONS;
use std::marker::Model;

/// The limit of partitions, as a length.
const MOST: usize = MOST_PARTITIONS as usize;

/// A set of partitions, of which there are 1 to 4096.
#[derive(Drop)]
pub struct ReferencePlane {
    partitions: u32,
    /// Whether each number is in the set; false from `partitions` on.
    flags: [bool; MOST],
}

impl Model for ReferencePlane {
    ghost use Rattle.bit_planes.specs.PartitionSet.{PartitionSet};
    ghost use Rattle.cluster_tests.specs.ReferencePlane.{flags_view, AreValidFlags};

    ghost Value = { PartitionSet };

    ghost view = { λ a. flags_view a.partitions a.flags };

    ghost invariant = { λ a. AreValidFlags a.partitions a.flags };
}

impl ReferencePlane {
    /// The empty set over this many partitions, 1 to 4096.
    pub fn new(partitions: u32) -> ReferencePlane
        requires { (1 ≤ partitions) × (partitions ≤ MOST_PARTITIONS) }
        ensures value { result ≡ empty_set partitions }
        ensures elements { (q : ℕ) → is_in result q ≡ false }
        ensures partitions { partitions_of result ≡ partitions }
    {
        ReferencePlane {
            partitions,
            flags: [false; MOST],
        }
    }

    /// The set of all partitions, of which there are this many, 1 to 4096.
    pub fn full(partitions: u32) -> ReferencePlane
        requires { (1 ≤ partitions) × (partitions ≤ MOST_PARTITIONS) }
        ensures value { result ≡ full_set partitions }
        ensures elements { (q : ℕ) → is_in result q ≡ nat_lt q partitions }
        ensures partitions { partitions_of result ≡ partitions }
    {
        let mut flags = [false; MOST];
        for q in 0..partitions as usize {
            flags[q] = true;
        }
        ReferencePlane { partitions, flags }
    }

    /// A copy of the set.
    pub fn copy(&self) -> ReferencePlane
        ensures { result ≡ self.now }
    {
        ReferencePlane {
            partitions: self.partitions,
            flags: self.flags,
        }
    }

    /// The number of partitions. All elements are below it.
    pub fn partitions(&self) -> u32
        ensures value { result ≡ partitions_of self.now }
        ensures bound { (1 ≤ result) × (result ≤ MOST_PARTITIONS) }
    {
        self.partitions
    }

    /// Adds a partition to the set.
    pub fn insert(&mut self, q: u32)
        requires { q < partitions_of self.old }
        ensures value { self.new ≡ with_one self.old q }
        ensures elements { (n : ℕ) → is_in self.new n ≡ (is_in self.old n || (n == q)) }
        ensures partitions { partitions_of self.new ≡ partitions_of self.old }
    {
        self.flags[q as usize] = true;
    }

    /// Removes a number from the set, which stays as it was if the number is not in it.
    pub fn remove(&mut self, q: u32)
        ensures value { self.new ≡ without_one self.old q }
        ensures elements { (n : ℕ) → is_in self.new n ≡ (is_in self.old n && not (n == q)) }
        ensures partitions { partitions_of self.new ≡ partitions_of self.old }
    {
        if q < self.partitions {
            self.flags[q as usize] = false;
        }
    }

    /// Whether a number is in the set.
    pub fn contains(&self, q: u32) -> bool
        ensures value { result ≡ is_in self.now q }
        ensures bound { IsTrue result → q < partitions_of self.now }
    {
        q < self.partitions && self.flags[q as usize]
    }

    /// The union with a set over the same number of partitions.
    pub fn union(&self, other: &ReferencePlane) -> ReferencePlane
        requires { partitions_of self.now ≡ partitions_of other.now }
        ensures value { result ≡ union self.now other.now }
        ensures elements { (q : ℕ) → is_in result q ≡ (is_in self.now q || is_in other.now q) }
        ensures partitions { partitions_of result ≡ partitions_of self.now }
    {
        self.combined(other, |mine, theirs| mine || theirs)
    }

    /// The difference with a set over the same number of partitions.
    pub fn minus(&self, other: &ReferencePlane) -> ReferencePlane
        requires { partitions_of self.now ≡ partitions_of other.now }
        ensures value { result ≡ minus self.now other.now }
        ensures elements { (q : ℕ)
            → is_in result q ≡ (is_in self.now q && not (is_in other.now q)) }
        ensures partitions { partitions_of result ≡ partitions_of self.now }
    {
        self.combined(other, |mine, theirs| mine && !theirs)
    }

    /// The `n` lowest elements; all of them where there are fewer.
    pub fn lowest(&self, n: u32) -> ReferencePlane
        ensures value { result ≡ lowest n self.now }
        ensures elements { (q : ℕ)
            → is_in result q ≡ (is_in self.now q && nat_lt (rank self.now q) n) }
        ensures partitions { partitions_of result ≡ partitions_of self.now }
        ensures size { size result ≡ min n (size self.now) }
    {
        if n == 0 {
            return ReferencePlane::new(self.partitions);
        }
        if self.count() <= n {
            return self.copy();
        }
        let mut flags = self.flags;
        let mut left = n;
        for q in 0..self.partitions as usize {
            if flags[q] {
                flags[q] = left > 0;
                left = left.saturating_sub(1);
            }
        }
        ReferencePlane {
            partitions: self.partitions,
            flags,
        }
    }

    /// Whether the set shares an element with the other, which is over the same number of
    /// partitions.
    pub fn meets(&self, other: &ReferencePlane) -> bool
        requires { partitions_of self.now ≡ partitions_of other.now }
        ensures value { result ≡ meets self.now other.now }
        ensures elements { (result ≡ false)
            ↔ ((q : ℕ) → (is_in self.now q && is_in other.now q) ≡ false) }
    {
        self.some_pass(other, |mine, theirs| mine && theirs)
    }

    /// Whether each element is in the other set, which is over the same number of partitions.
    pub fn within(&self, other: &ReferencePlane) -> bool
        requires { partitions_of self.now ≡ partitions_of other.now }
        ensures value { result ≡ is_within self.now other.now }
        ensures elements { IsTrue result
            ↔ ((q : ℕ) → is_in self.now q ≡ true → is_in other.now q ≡ true) }
    {
        !self.some_pass(other, |mine, theirs| mine && !theirs)
    }

    /// Whether the other set, which is over the same number of partitions, is equal.
    pub fn same(&self, other: &ReferencePlane) -> bool
        requires { partitions_of self.now ≡ partitions_of other.now }
        ensures value { result ≡ is_same self.now other.now }
        ensures iff { IsTrue result ↔ (self.now ≡ other.now) }
    {
        !self.some_pass(other, |mine, theirs| mine != theirs)
    }

    /// The number of elements.
    pub fn count(&self) -> u32
        ensures value { result ≡ size self.now }
        ensures bound { result ≤ partitions_of self.now }
    {
        let mut count = 0;
        for q in 0..self.partitions as usize {
            if self.flags[q] {
                count += 1;
            }
        }
        count
    }

    /// The partitions for which a test holds, of whether they are in this set and in the other.
    fn combined<F: Fn(bool, bool) -> bool>(&self, other: &ReferencePlane, test: F) -> ReferencePlane
        requires test { F.IsAlwaysCallable test }
        requires partitions { partitions_of self.now ≡ partitions_of other.now }
        ensures elements { IsCombined (F.post test) self.now other.now result }
        ensures partitions { partitions_of result ≡ partitions_of self.now }
    {
        let mut flags = self.flags;
        for q in 0..self.partitions as usize {
            flags[q] = test(flags[q], other.flags[q]);
        }
        ReferencePlane {
            partitions: self.partitions,
            flags,
        }
    }

    /// Whether a test holds for some partition, of whether it is in this set and in the other. It
    /// tests all of them, since the compiler does not vectorize a loop that can exit early.
    fn some_pass<F: Fn(bool, bool) -> bool>(&self, other: &ReferencePlane, test: F) -> bool
        requires test { F.IsAlwaysCallable test }
        requires partitions { partitions_of self.now ≡ partitions_of other.now }
        ensures { IsSomePass (F.post test) self.now other.now result }
    {
        let mut passed = false;
        for q in 0..self.partitions as usize {
            passed |= test(self.flags[q], other.flags[q]);
        }
        passed
    }
}
