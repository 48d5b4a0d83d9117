//! A table of sets by member number.

ghost use Rattle.std.specs.Prelude.{◌≡◌, ◌≢◌, ◌<◌, ◌≤◌, ℕ, [], length, None, Some, IsTrue, MatchOption, IfSome, IfOk, IfErr, OnOk, OnErr};
ghost use Rattle.std.specs.Iterator.{YieldsFirst, YieldsFirstBy, item_count};
ghost use Rattle.std.specs.Option.{option_map};
ghost use Rattle.bit_planes.specs.PartitionSet.{partitions_of, minus};
ghost use Rattle.bit_planes.specs.Private.Indices.{IsGapFor, IsIndexOf};
ghost use Rattle.bit_planes.specs.SetRows.{SetRows, IsValidRows, no_rows, members, row_of, with_less, with_row};

use crate::plane::Plane;
use lane_words::{MOST_PARTITIONS, Memory};
use std::alloc::Global;
use std::marker::Model;

/// A map from member numbers to sets of partitions. All sets are over the same number of
/// partitions, 1 to 4096, which an empty table has too.
#[derive(Debug, Drop)]
pub struct PlaneRows {
    /// The number of partitions.
    partitions: u32,
    /// The sets, in rising order of the members.
    rows: Vec<(u32, Plane)>,
}

impl Model for PlaneRows {
    ghost use Rattle.bit_planes.specs.SetRows.{SetRows, IsValidRows};

    ghost Value = { SetRows };

    ghost view = { λ a. record { partitions = a.partitions; rows = a.rows.items } };

    ghost invariant = { λ a.
        IsValidRows (record { partitions = a.partitions; rows = a.rows.items }) };
}

impl PlaneRows {
    /// A table without rows, for sets over this many partitions, 1 to 4096. It allocates nothing.
    pub fn new(alloc: Global, partitions: u32) -> PlaneRows
        requires { (1 ≤ partitions) × (partitions ≤ MOST_PARTITIONS) }
        ensures value { result ≡ no_rows partitions }
        ensures valid { IsValidRows result }
    {
        PlaneRows {
            partitions,
            rows: Vec::new(alloc),
        }
    }

    /// As `new`, with capacity for this many rows. Fails only if memory runs out.
    pub fn with_row_capacity(
        alloc: Global,
        partitions: u32,
        rows: usize,
    ) -> Result<PlaneRows, Memory>
        requires { (1 ≤ partitions) × (partitions ≤ MOST_PARTITIONS) }
        ensures value { IfOk result (λ r. r ≡ no_rows partitions) }
        ensures valid { IfOk result IsValidRows }
    {
        Ok(PlaneRows {
            partitions,
            rows: Vec::with_capacity(alloc, rows)?,
        })
    }

    /// The number of partitions. All elements of each set are below it.
    pub fn partitions(&self) -> u32
        ensures value { result ≡ self.now.partitions }
        ensures valid { IsValidRows self.now }
    {
        self.partitions
    }

    /// Sets the row of a member, over the same number of partitions, and leaves every other row as
    /// it was. It fails only when out of memory, and then changes nothing.
    pub fn put(&mut self, member: u32, plane: Plane) -> Result<(), Memory>
        requires { partitions_of plane ≡ self.old.partitions }
        ensures value { OnOk result (self.new ≡ with_row self.old member plane) }
        ensures row { OnOk result (row_of self.new member ≡ Some plane) }
        ensures others { OnOk result ((m : ℕ)
            → m ≢ member → row_of self.new m ≡ row_of self.old m) }
        ensures err { OnErr result (self.new ≡ self.old) }
        ensures partitions { self.new.partitions ≡ self.old.partitions }
        ensures valid { IsValidRows self.new }
    {
        if self.is_above_all(member) {
            return Ok(self.rows.push((member, plane))?);
        }
        match self.search(member) {
            Ok(index) => {
                self.rows[index] = (member, plane);
                Ok(())
            }
            Err(index) => Ok(self.rows.insert(index, (member, plane))?),
        }
    }

    /// Removes the elements of a set, over the same number of partitions, from a member's row if it
    /// has one, and leaves every other row as it was. It allocates nothing.
    pub fn remove_from(&mut self, member: u32, plane: &Plane)
        requires { partitions_of plane.now ≡ self.old.partitions }
        ensures value { self.new ≡ with_less self.old member plane.now }
        ensures row { row_of self.new member
            ≡ option_map (λ row. minus row plane.now) (row_of self.old member) }
        ensures others { (m : ℕ) → m ≢ member → row_of self.new m ≡ row_of self.old m }
        ensures partitions { self.new.partitions ≡ self.old.partitions }
        ensures valid { IsValidRows self.new }
    {
        if let Ok(index) = self.search(member) {
            self.rows[index].1.remove_all(plane);
        }
    }

    /// The row of a member, or nothing if it has none. It allocates nothing.
    pub fn get(&self, member: u32) -> Option<&Plane>
        ensures value { MatchOption result
            (row_of self.now member ≡ None)
            (λ plane. row_of self.now member ≡ Some plane.now) }
        ensures partitions { IfSome result (λ plane.
            partitions_of plane.now ≡ self.now.partitions) }
        ensures valid { IsValidRows self.now }
    {
        match self.search(member) {
            Ok(index) => Some(&self.rows[index].1),
            Err(_) => None,
        }
    }

    /// The member numbers, in rising order. It allocates nothing.
    pub fn members(&self) -> Members<'_>
        ensures { result ≡ members self.now }
    {
        Members { rows: &self.rows }
    }

    /// The member numbers with their sets, in rising order. It allocates nothing.
    pub fn iter(&self) -> Rows<'_>
        ensures value { result ≡ self.now.rows }
        ensures valid { IsValidRows self.now }
    {
        Rows { rows: &self.rows }
    }

    /// The number of rows.
    pub fn len(&self) -> usize
        ensures { result ≡ length self.now.rows }
    {
        self.rows.len()
    }

    /// Whether a member number is above all that have a row.
    fn is_above_all(&self, member: u32) -> bool
        ensures { IsTrue result → IsGapFor self.now.rows member (length self.now.rows) }
    {
        match self.rows.last() {
            Some(last) => last.0 < member,
            None => true,
        }
    }

    /// The index of a member's row, or the index at which to insert one.
    fn search(&self, member: u32) -> Result<usize, usize>
        ensures found { IfOk result (IsIndexOf self.now.rows member) }
        ensures absent { IfErr result (IsGapFor self.now.rows member) }
    {
        if let Some(index) = usual_index(self.rows.as_slice(), member) {
            return Ok(index);
        }
        self.rows.binary_search_by_key(&member, |row| row.0)
    }
}

/// The index of a member's row, if it has one and no number is missing between it and the first or
/// the last row. In most tables none is missing, so this needs no search.
fn usual_index(rows: &[(u32, Plane)], member: u32) -> Option<usize>
    ensures { IfSome result (IsIndexOf rows.now member) }
{
    let first = rows.first()?.0;
    let ahead = member.checked_sub(first)? as usize;
    if has_at(rows, ahead, member) {
        return Some(ahead);
    }
    index_before_last(rows, member)
}

/// The index of a member's row, if it has one and no number is missing between it and the last row.
fn index_before_last(rows: &[(u32, Plane)], member: u32) -> Option<usize>
    ensures { IfSome result (IsIndexOf rows.now member) }
{
    let last = rows.last()?.0;
    let behind = last.checked_sub(member)? as usize;
    let index = (rows.len() - 1).checked_sub(behind)?;
    if has_at(rows, index, member) {
        return Some(index);
    }
    None
}

/// Whether a member's row is at this index.
fn has_at(rows: &[(u32, Plane)], index: usize, member: u32) -> bool
    ensures { IsTrue result → IsIndexOf rows.now member index }
{
    index < rows.len() && rows[index].0 == member
}

/// An iterator over the member numbers, in rising order.
#[derive(Debug, Drop)]
pub struct Members<'a> {
    /// The rows whose members have not been returned.
    rows: &'a [(u32, Plane)],
}

impl<'a> Model for Members<'a> {
    ghost use Rattle.std.specs.Prelude.{List, ℕ, map};

    ghost Value = { List ℕ };

    ghost view = { λ a. map (λ row. row.0) a.rows.now };
}

/// An iterator over the rows, in rising order of the members.
#[derive(Debug, Drop)]
pub struct Rows<'a> {
    /// The rows that have not been returned.
    rows: &'a [(u32, Plane)],
}

impl<'a> Model for Rows<'a> {
    ghost use Rattle.std.specs.Prelude.{List, ℕ};
    ghost use Rattle.bit_planes.specs.PartitionSet.{PartitionSet};

    ghost Value = { List (ℕ × PartitionSet) };

    ghost view = { λ a. a.rows.now };
}

impl<'a> Iterator for Rows<'a> {
    type Item = (u32, &'a Plane);

    ghost next_gives = { YieldsFirstBy (λ row. (row.0, row.1.now)) (λ s. s) };

    ghost remaining = { item_count (λ s. s) };

    fn next(&mut self) -> Option<(u32, &'a Plane)> {
        let (first, others) = self.rows.split_first()?;
        self.rows = others;
        Some((first.0, &first.1))
    }
}

impl<'a> Iterator for Members<'a> {
    type Item = u32;

    ghost next_gives = { YieldsFirst (λ s. s) };

    ghost remaining = { item_count (λ s. s) };

    fn next(&mut self) -> Option<u32> {
        let (first, others) = self.rows.split_first()?;
        self.rows = others;
        Some(first.0)
    }
}
