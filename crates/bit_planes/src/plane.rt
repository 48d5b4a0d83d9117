//! A set of partitions.

ghost use Rattle.std.specs.Prelude.{◌≡◌, ◌<◌, ◌≤◌, ◌==◌, ◌&&◌, ◌||◌, ◌↔◌, ℕ, false, true, not, nat_lt, min, length, IsTrue, IfSome, MatchOption, All};
ghost use Rattle.std.specs.List.{list_any};
ghost use Rattle.bit_planes.specs.Private.ElementsFrom.{IsLowestElement};
ghost use Rattle.bit_planes.specs.PartitionSet.{partitions_of, is_in, rank, size, elements, empty_set, full_set, with_one, without_one, union, minus, lowest, meets, is_within, is_same};

use crate::bits::{self, WORD_BITS};
use crate::elements::Elements;
use lane_words::MOST_PARTITIONS;
use std::fmt;
use std::marker::Model;

/// The number of words for the most partitions.
const WORDS: usize = (MOST_PARTITIONS / WORD_BITS) as usize;

/// A set over 1 to 4096 partitions. It is stored inline: no call on it allocates.
#[derive(Drop)]
pub struct Plane {
    /// The number of partitions.
    partitions: u32,
    /// A bit for each element. No bit is set at or above `partitions`.
    words: [u64; WORDS],
}

impl Model for Plane {
    ghost use Rattle.bit_planes.specs.PartitionSet.{PartitionSet};
    ghost use Rattle.bit_planes.specs.Private.View.{plane_view, IsValidPlane};

    ghost Value = { PartitionSet };

    ghost view = { plane_view };

    ghost invariant = { IsValidPlane };
}

impl Plane {
    /// The empty set over this many partitions, 1 to 4096.
    pub fn new(partitions: u32) -> Plane
        requires { (1 ≤ partitions) × (partitions ≤ MOST_PARTITIONS) }
        ensures value { result ≡ empty_set partitions }
        ensures elements { (q : ℕ) → is_in result q ≡ false }
        ensures partitions { partitions_of result ≡ partitions }
    {
        Plane {
            partitions,
            words: [0; WORDS],
        }
    }

    /// The set of all partitions, of which there are this many, 1 to 4096.
    pub fn full(partitions: u32) -> Plane
        requires { (1 ≤ partitions) × (partitions ≤ MOST_PARTITIONS) }
        ensures value { result ≡ full_set partitions }
        ensures elements { (q : ℕ) → is_in result q ≡ nat_lt q partitions }
        ensures partitions { partitions_of result ≡ partitions }
    {
        let mut words = [0; WORDS];
        bits::fill_below(&mut words, partitions);
        Plane { partitions, words }
    }

    /// The set of these elements, over this many partitions, 1 to 4096.
    pub fn of(partitions: u32, elements: &[u32]) -> Plane
        requires partitions { (1 ≤ partitions) × (partitions ≤ MOST_PARTITIONS) }
        requires bound { All (λ q. q < partitions) elements.now }
        ensures elements { (q : ℕ)
            → is_in result q ≡ list_any (λ element. q == element) elements.now }
        ensures partitions { partitions_of result ≡ partitions }
    {
        let mut set = Plane::new(partitions);
        for element in elements {
            set.insert(*element);
        }
        set
    }

    /// A copy of the set.
    pub fn copy(&self) -> Plane
        ensures { result ≡ self.now }
    {
        Plane {
            partitions: self.partitions,
            words: self.words,
        }
    }

    /// The number of partitions. All elements are below it.
    pub fn partitions(&self) -> u32
        ensures value { result ≡ partitions_of self.now }
        ensures bound { (1 ≤ result) × (result ≤ MOST_PARTITIONS) }
    {
        self.partitions
    }

    /// Adds a partition to the set.
    pub fn insert(&mut self, q: u32)
        requires { q < partitions_of self.old }
        ensures value { self.new ≡ with_one self.old q }
        ensures elements { (n : ℕ) → is_in self.new n ≡ (is_in self.old n || (n == q)) }
        ensures partitions { partitions_of self.new ≡ partitions_of self.old }
    {
        bits::set(&mut self.words, q);
    }

    /// Removes a number, if it is in the set. It may be at or above the number of partitions.
    pub fn remove(&mut self, q: u32)
        ensures value { self.new ≡ without_one self.old q }
        ensures elements { (n : ℕ) → is_in self.new n ≡ (is_in self.old n && not (n == q)) }
        ensures partitions { partitions_of self.new ≡ partitions_of self.old }
    {
        if q < self.partitions {
            bits::clear(&mut self.words, q);
        }
    }

    /// Whether a number is in the set. No number at or above the number of partitions is.
    pub fn contains(&self, q: u32) -> bool
        ensures value { result ≡ is_in self.now q }
        ensures bound { IsTrue result → q < partitions_of self.now }
    {
        q < self.partitions && bits::is_set(&self.words, q)
    }

    /// Adds all elements of the other set, which is over the same number of partitions.
    pub fn insert_all(&mut self, other: &Plane)
        requires { partitions_of self.old ≡ partitions_of other.now }
        ensures value { self.new ≡ union self.old other.now }
        ensures elements { (q : ℕ) → is_in self.new q ≡ (is_in self.old q || is_in other.now q) }
        ensures partitions { partitions_of self.new ≡ partitions_of self.old }
    {
        let used = bits::words_for(self.partitions);
        bits::or_into(&mut self.words[..used], &other.words[..used]);
    }

    /// Removes all elements of the other set, which is over the same number of partitions.
    pub fn remove_all(&mut self, other: &Plane)
        requires { partitions_of self.old ≡ partitions_of other.now }
        ensures value { self.new ≡ minus self.old other.now }
        ensures elements { (q : ℕ)
            → is_in self.new q ≡ (is_in self.old q && not (is_in other.now q)) }
        ensures partitions { partitions_of self.new ≡ partitions_of self.old }
    {
        let used = bits::words_for(self.partitions);
        bits::and_not_into(&mut self.words[..used], &other.words[..used]);
    }

    /// The union with a set over the same number of partitions.
    pub fn union(&self, other: &Plane) -> Plane
        requires { partitions_of self.now ≡ partitions_of other.now }
        ensures value { result ≡ union self.now other.now }
        ensures elements { (q : ℕ) → is_in result q ≡ (is_in self.now q || is_in other.now q) }
        ensures partitions { partitions_of result ≡ partitions_of self.now }
    {
        let mut all = self.copy();
        all.insert_all(other);
        all
    }

    /// The elements that are not in the other set, which is over the same number of partitions.
    pub fn minus(&self, other: &Plane) -> Plane
        requires { partitions_of self.now ≡ partitions_of other.now }
        ensures value { result ≡ minus self.now other.now }
        ensures elements { (q : ℕ)
            → is_in result q ≡ (is_in self.now q && not (is_in other.now q)) }
        ensures partitions { partitions_of result ≡ partitions_of self.now }
    {
        let mut rest = self.copy();
        rest.remove_all(other);
        rest
    }

    /// The `n` lowest elements; all of them where there are fewer.
    pub fn lowest(&self, n: u32) -> Plane
        ensures value { result ≡ lowest n self.now }
        ensures elements { (q : ℕ)
            → is_in result q ≡ (is_in self.now q && nat_lt (rank self.now q) n) }
        ensures partitions { partitions_of result ≡ partitions_of self.now }
        ensures size { size result ≡ min n (size self.now) }
    {
        let mut words = self.words;
        bits::retain_lowest(&mut words[..bits::words_for(self.partitions)], n);
        Plane {
            partitions: self.partitions,
            words,
        }
    }

    /// Whether it shares an element with a set over the same number of partitions.
    pub fn meets(&self, other: &Plane) -> bool
        requires { partitions_of self.now ≡ partitions_of other.now }
        ensures value { result ≡ meets self.now other.now }
        ensures elements { (result ≡ false)
            ↔ ((q : ℕ) → (is_in self.now q && is_in other.now q) ≡ false) }
    {
        let used = bits::words_for(self.partitions);
        bits::any_and(&self.words[..used], &other.words[..used])
    }

    /// Whether each element is in the other set, which is over the same number of partitions.
    pub fn within(&self, other: &Plane) -> bool
        requires { partitions_of self.now ≡ partitions_of other.now }
        ensures value { result ≡ is_within self.now other.now }
        ensures elements { IsTrue result
            ↔ ((q : ℕ) → is_in self.now q ≡ true → is_in other.now q ≡ true) }
    {
        let used = bits::words_for(self.partitions);
        bits::is_within(&self.words[..used], &other.words[..used])
    }

    /// Whether the other set, which is over the same number of partitions, is equal.
    pub fn same(&self, other: &Plane) -> bool
        requires { partitions_of self.now ≡ partitions_of other.now }
        ensures value { result ≡ is_same self.now other.now }
        ensures iff { IsTrue result ↔ (self.now ≡ other.now) }
    {
        let used = bits::words_for(self.partitions);
        bits::are_equal(&self.words[..used], &other.words[..used])
    }

    /// The number of elements.
    pub fn count(&self) -> u32
        ensures value { result ≡ size self.now }
        ensures bound { result ≤ partitions_of self.now }
    {
        bits::count(&self.words[..bits::words_for(self.partitions)])
    }

    /// The elements, in rising order.
    pub fn iter(&self) -> Elements<'_>
        ensures value { result ≡ elements self.now }
        ensures bound { length result ≤ MOST_PARTITIONS }
    {
        Elements::new(self)
    }

    /// The lowest element at or above `from`, if there is one.
    pub(crate) fn lowest_from(&self, from: u32) -> Option<u32>
        ensures value { MatchOption result
            ((q : ℕ) → from ≤ q → is_in self.now q ≡ false)
            (IsLowestElement self.now from) }
        ensures bound { IfSome result (λ q. q < MOST_PARTITIONS) }
    {
        bits::lowest_from(&self.words[..bits::words_for(self.partitions)], from)
    }
}

/// Prints the set as its elements.
impl fmt::Debug for Plane {
    fn fmt<W: fmt::Write>(&self, f: &mut fmt::Formatter<W>) -> fmt::Result {
        f.debug_set().entries(self.iter()).finish()
    }
}
