//! Counters by key number.

ghost use Rattle.std.specs.Prelude.{◌≡◌, ◌≤◌, ◌<◌, ◌+◌, ◌-◌, ◌++◌, ◌∷◌, [], IfOk, OnOk, length, replicate};
ghost use Rattle.keyed_table.specs.Counts.{Counters, HaveCounters, SumsFit, counter_of, raised};

use crate::Partial;
use lane_words::Memory;
use std::alloc::Global;
use std::marker::Model;

/// How many counters a table reserves at once.
const RESERVED: usize = 8;

/// A counter for each key number, from 0 on.
///
/// Those past the last key are zero: they are the capacity for more keys.
#[derive(Debug, Drop)]
pub struct Table {
    /// The number of keys.
    keys: usize,
    /// The counters, indexed by key number, and those past the keys.
    cells: Vec<u64>,
}

impl Model for Table {
    ghost use Rattle.keyed_table.specs.Counts.{Counters};
    ghost use Rattle.keyed_table.specs.Private.Table.{IsValidTable, table_view};

    ghost Value = { Counters };

    ghost view = { λ t. table_view t.keys t.cells.items };

    ghost invariant = { λ t. IsValidTable t.keys t.cells.items };
}

impl Table {
    /// An empty table. It allocates nothing.
    pub fn new(alloc: Global) -> Table
        ensures { result.counts ≡ [] }
    {
        Table {
            keys: 0,
            cells: Vec::new(alloc),
        }
    }

    /// A table with `keys` counters, all of them zero. Fails only if memory runs out.
    pub fn zeros(alloc: Global, keys: u32) -> Result<Table, Memory>
        ensures { IfOk result (λ table. table.counts ≡ replicate keys 0) }
    {
        let keys = keys as usize;
        let cells = vec![in alloc; 0; keys]?;
        Ok(Table { keys, cells })
    }

    /// Reserves capacity for at least one more counter. Fails if memory runs out, changing nothing.
    pub fn reserve(&mut self) -> Result<(), Memory>
        ensures counts { self.new.counts ≡ self.old.counts }
        ensures capacity { OnOk result (1 ≤ self.new.capacity) }
        ensures bound { self.old.capacity ≤ self.new.capacity }
    {
        if self.keys == self.cells.len() {
            self.cells.extend_from_slice(&[0; RESERVED])?;
        }
        Ok(())
    }

    /// Adds a counter at zero for the next key number, in reserved capacity. It allocates nothing.
    pub fn add_key(&mut self)
        requires { 1 ≤ self.old.capacity }
        ensures { self.new ≡ record
            { counts = self.old.counts ++ 0 ∷ []; capacity = self.old.capacity - 1 } }
    {
        self.keys += 1;
    }

    /// Adds how often each number is in a partial count to its counter. It allocates nothing.
    pub fn merge(&mut self, partial: &Partial)
        requires numbers { HaveCounters self.old.counts partial.now }
        requires sums { SumsFit self.old.counts partial.now }
        ensures { self.new ≡ record
            { counts = raised self.old.counts partial.now; capacity = self.old.capacity } }
    {
        self.add_list(partial.ids());
    }

    /// Adds how often each number occurs in a list to its counter. It allocates nothing.
    pub fn add_list(&mut self, ids: &[u32])
        requires numbers { HaveCounters self.old.counts ids.now }
        requires sums { SumsFit self.old.counts ids.now }
        ensures { self.new ≡ record
            { counts = raised self.old.counts ids.now; capacity = self.old.capacity } }
    {
        add_each(&mut self.cells, ids);
    }

    /// The number of counters.
    pub fn len(&self) -> usize
        ensures { result ≡ length self.now.counts }
    {
        self.keys
    }

    /// The counter of a key number.
    pub fn get(&self, id: u32) -> u64
        requires { id < length self.now.counts }
        ensures { result ≡ counter_of self.now.counts id }
    {
        self.cells[id as usize]
    }

    /// All counters, in the order of their key numbers.
    pub fn counts(&self) -> &[u64]
        ensures { result.now ≡ self.now.counts }
    {
        &self.cells[..self.keys]
    }
}

/// Raises each counter, by number, by how often its number occurs in the list.
fn add_each(cells: &mut [u64], ids: &[u32])
    requires numbers { HaveCounters cells.old ids.now }
    requires sums { SumsFit cells.old ids.now }
    ensures { cells.new ≡ raised cells.old ids.now }
{
    for at in 0..ids.len() {
        cells[ids[at] as usize] += 1;
    }
}
