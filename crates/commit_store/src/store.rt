//! The store of committed offsets and counts.

ghost use Rattle.std.specs.Prelude.{◌≡◌, ℕ, ◌≤◌, ◌<◌, ◌+◌, ◌-◌, ◌++◌, ◌∷◌, [], Ok, IsOk, IfOk, OnOk, OnErr, length, replicate};
ghost use Rattle.commit_store.specs.Commits.{IsValidLogs, Commits, Fits, IsExact, PartitionLogs, commit_answer, committed_at, count_at, log_at, offset_answer, with_commit};

use keyed_table::{Partial, Table};
use lane_words::{MOST_PARTITIONS, Memory, Refusal, equal32};
use partition_log::LogRead;
use std::alloc::Global;
use std::marker::Model;

/// The committed offset of each of 1 to 4096 partitions, which is the offset of the next record to
/// read, and for each key number the count of that key in the committed records.
///
/// Offsets and counts change together: after each call the counters add up to the committed
/// offsets.
#[derive(Debug, Drop)]
pub struct Store {
    /// The committed offsets, in the order of the partitions.
    committed: Vec<u32>,
    /// The counters, by key number.
    counts: Table,
}

impl Model for Store {
    ghost use Rattle.commit_store.specs.Commits.{Commits, IsValidStore};
    ghost use Rattle.commit_store.specs.View.{store_view};

    ghost Value = { Commits };

    ghost view = { store_view };

    ghost invariant = { λ s. IsValidStore (store_view s) };
}

impl Store {
    /// An empty store for this many partitions, without counters. Fails only if memory runs out.
    pub fn new(alloc: Global, partitions: u32) -> Result<Store, Memory>
        requires { (1 ≤ partitions) × (partitions ≤ MOST_PARTITIONS) }
        ensures partitions { IfOk result (λ store. length store.offsets ≡ partitions) }
        ensures offsets { IfOk result (λ store. (p : ℕ) → committed_at store p ≡ 0) }
        ensures counts { IfOk result (λ store. store.counts ≡ []) }
        ensures valid { IfOk result (λ store. (l : PartitionLogs) → IsExact store l) }
    {
        Store::over(alloc, partitions, 0)
    }

    /// As `new`, but with a counter at 0 for each of `keys` key numbers.
    pub fn over(alloc: Global, partitions: u32, keys: u32) -> Result<Store, Memory>
        requires { (1 ≤ partitions) × (partitions ≤ MOST_PARTITIONS) }
        ensures partitions { IfOk result (λ store. length store.offsets ≡ partitions) }
        ensures offsets { IfOk result (λ store. (p : ℕ) → committed_at store p ≡ 0) }
        ensures counts { IfOk result (λ store. store.counts ≡ replicate keys 0) }
        ensures valid { IfOk result (λ store. (l : PartitionLogs) → IsExact store l) }
    {
        let committed = zeros(alloc, partitions as usize)?;
        let counts = Table::zeros(alloc, keys)?;
        Ok(Store { committed, counts })
    }

    /// Reserves capacity for at least one more counter. Fails if memory runs out, changing nothing.
    pub fn reserve_key(&mut self) -> Result<(), Memory>
        ensures same { self.new ≡ record self.old { capacity = self.new.capacity } }
        ensures capacity { OnOk result (1 ≤ self.new.capacity) }
        ensures bound { self.old.capacity ≤ self.new.capacity }
    {
        self.counts.reserve()
    }

    /// Adds a counter at 0 for the next key number, in reserved capacity. It allocates nothing.
    pub fn add_key(&mut self)
        requires { 1 ≤ self.old.capacity }
        ensures value { self.new ≡ record self.old
            { counts = self.old.counts ++ 0 ∷ []; capacity = self.old.capacity - 1 } }
        ensures valid { (l : PartitionLogs) → IsExact self.old l → IsExact self.new l }
    {
        self.counts.add_key();
    }

    /// Commits the records of log `p` from offset `from` on, whose key numbers `partial` lists, and
    /// returns the new committed offset, which is the one after them. Each counter rises by the
    /// number of times its key is among them. It allocates nothing.
    ///
    /// It fails, and then changes nothing, with the first of these that applies: the list is empty
    /// (`EmptyCommit`); `from` is not the committed offset, which the refusal reports
    /// (`OffsetMismatch`); the records end past the log (`PastEnd`); the key numbers differ from
    /// the log's (`WrongRecords`).
    pub fn commit<L: LogRead>(
        &mut self,
        logs: &L,
        p: u32,
        from: u32,
        partial: &Partial,
    ) -> Result<u32, Refusal>
        requires partition { (p < length self.old.offsets)
            × (p < (L.contents logs.now).partitions) }
        requires counters { length (L.contents logs.now).keys ≤ length self.old.counts }
        ensures answer { result ≡ commit_answer self.old (L.contents logs.now) p from partial.now }
        ensures accepts { Fits self.old (L.contents logs.now) p from partial.now
            → result ≡ Ok (from + length partial.now) }
        ensures accepted { OnOk result (Fits self.old (L.contents logs.now) p from partial.now) }
        ensures ok { OnOk result (self.new ≡ with_commit self.old p partial.now) }
        ensures err { OnErr result (self.new ≡ self.old) }
        ensures valid { IsExact self.old (L.contents logs.now)
            → IsExact self.new (L.contents logs.now) }
    {
        let end = next_offset(logs, p, self.committed(p), from, partial.ids())?;
        self.counts.merge(partial);
        self.committed[p as usize] = end;
        Ok(end)
    }

    /// The committed offset of a partition.
    pub fn committed(&self, p: u32) -> u32
        requires { p < length self.now.offsets }
        ensures { result ≡ committed_at self.now p }
    {
        self.committed[p as usize]
    }

    /// The committed offsets, in the order of the partitions.
    pub fn offsets(&self) -> &[u32]
        ensures { result.now ≡ self.now.offsets }
    {
        self.committed.as_slice()
    }

    /// The count of a key, by its number, in the committed records.
    pub fn count(&self, id: u32) -> u64
        requires { id < length self.now.counts }
        ensures { result ≡ count_at self.now id }
    {
        self.counts.get(id)
    }

    /// The counters, in order of their key numbers.
    pub fn counts(&self) -> &[u64]
        ensures { result.now ≡ self.now.counts }
    {
        self.counts.counts()
    }

    /// The number of partitions.
    pub fn partitions(&self) -> u32
        ensures { result ≡ length self.now.offsets }
    {
        self.committed.len() as u32
    }

    /// The number of counters.
    pub fn keys(&self) -> usize
        ensures { result ≡ length self.now.counts }
    {
        self.counts.len()
    }
}

/// A list of this many offsets, all 0.
fn zeros(alloc: Global, count: usize) -> Result<Vec<u32>, Memory>
    ensures { IfOk result (λ zeros. zeros.items ≡ replicate count 0) }
{
    let zeros = vec![in alloc; 0; count]?;
    Ok(zeros)
}

/// The offset after the records of a commit, or why it is refused.
fn next_offset<L: LogRead>(
    logs: &L,
    p: u32,
    committed: u32,
    from: u32,
    ids: &[u32],
) -> Result<u32, Refusal>
    requires { p < (L.contents logs.now).partitions }
    ensures answer { result ≡ offset_answer (L.contents logs.now) p committed from ids.now }
    ensures valid { OnOk result (IsValidLogs (L.contents logs.now)) }
{
    if ids.is_empty() {
        return Err(Refusal::EmptyCommit);
    }
    if from != committed {
        return Err(Refusal::OffsetMismatch { committed });
    }
    let end = from as u64 + ids.len() as u64;
    if end > logs.len(p) as u64 {
        return Err(Refusal::PastEnd);
    }
    if !equal32(logs.ids(p, from, end as u32), ids) {
        return Err(Refusal::WrongRecords);
    }
    Ok(end as u32)
}
