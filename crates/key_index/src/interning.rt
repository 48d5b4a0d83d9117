//! Keys interned shard by shard, in parallel.

ghost use Rattle.std.specs.Prelude.{◌≡◌, ◌≤◌, ◌<◌, ◌+◌, ◌++◌, [], IfOk, OnOk, length, map, replicate, vec_items, vec_len};
ghost use Rattle.key_index.specs.Keys.{distinct, id_of, lent_lists};
ghost use Rattle.key_index.specs.Private.Sharded.{AreAssignable, AreScattered, AreFrom, AreGlobal, AreInterned, AreLocalIds, AreOrdered, AreSeenCounts, AreTables, HaveReadableIds, IsAssignment, IsInternedShard, ids_after, is_first, keys_in, local_ids_in, order_after, shard_by, shard_of, with_first, with_keys};

use crate::key_hash::KeyHash;
use crate::key_map::KeyMap;
use crate::scattered_key::ScatteredKey;
use crate::scattering::{SLICES, Scattered, all_shards, records_of, scatter_lists};
use crate::shards::{KeyLocation, SHARDS};
use lane_words::{MOST_RECORDS, Memory};
use parallel::{LEAST_KEYS, collect_each, processors};
use std::alloc::Global;
use std::thread;
use std::thread::Threads;

/// Interned keys.
#[derive(Drop)]
pub struct InternedKeys {
    /// The keys of each shard.
    pub tables: Vec<KeyMap>,
    /// The key numbers of the keys of each shard.
    pub ids: Vec<Vec<u32>>,
    /// The shard and the number there of each key.
    pub order: Vec<KeyLocation>,
    /// The key number of each record, in order.
    pub numbers: Vec<u32>,
}

/// Interns keys in order of first appearance, with memory reserved for `capacity` distinct ones.
pub fn intern_keys<R: Threads + Sync, T: Send + Drop, F: FnOnce() -> T + Send + Drop>(
    rt: &R,
    alloc: Global,
    hasher: KeyHash,
    lists: &[&[&[u8]]],
    capacity: usize,
    overlapped: F,
) -> Result<(InternedKeys, T), Memory>
    requires bound { length (lent_lists lists.now) ≤ MOST_RECORDS }
    requires overlapped { F.pre overlapped }
    ensures tables { IfOk result (λ r.
        AreTables (shard_of hasher) SHARDS (lent_lists lists.now) r.0.tables.items) }
    ensures len { IfOk result (λ r. vec_len r.0.ids ≡ SHARDS) }
    ensures ids { IfOk result (λ r.
        AreGlobal (shard_of hasher) (lent_lists lists.now) (map vec_items r.0.ids.items)) }
    ensures order { IfOk result (λ r. AreOrdered (shard_of hasher) (lent_lists lists.now)
        (distinct (lent_lists lists.now)) SHARDS r.0.order.items) }
    ensures numbers { IfOk result (λ r. r.0.numbers.items
        ≡ map (id_of (distinct (lent_lists lists.now))) (lent_lists lists.now)) }
    ensures overlapped { IfOk result (λ r. F.post overlapped r.1) }
{
    let scattered = scatter_lists(rt, alloc, hasher, lists)?;
    let InternedShards {
        shards,
        tables,
        local_ids,
    } = intern_in_shards(rt, alloc, hasher, lists, &scattered, capacity)?;
    let records = ShardedRecords {
        hasher,
        lists,
        shards: &shards,
        local_ids: &local_ids,
    };
    let (assigned, zeros, other) = assign_global_ids(
        rt, alloc, &records, scattered, &tables, overlapped,
    );
    let numbered = numbered(rt, &records, tables, assigned, zeros)?;
    Ok((numbered, other))
}

/// The interned keys, from the key numbers of each shard and a zero for each record.
fn numbered<R: Threads + Sync>(
    rt: &R,
    records: &ShardedRecords<'_>,
    tables: Vec<KeyMap>,
    assigned: Result<(Vec<Vec<u32>>, Vec<KeyLocation>), Memory>,
    zeros: Result<Vec<u32>, Memory>,
) -> Result<InternedKeys, Memory>
    requires shards { records.now.shards.now ≡ map (shard_by records.now) (keys_in records.now) }
    requires local_ids { AreLocalIds (shard_by records.now) SHARDS (keys_in records.now)
        (local_ids_in records.now) }
    requires assigned { IfOk assigned (IsAssignment (shard_by records.now) (keys_in records.now)) }
    requires zeros { IfOk zeros (λ zeros. length zeros.items ≡ length (keys_in records.now)) }
    ensures tables { IfOk result (λ r. r.tables ≡ tables) }
    ensures assigned { IfOk result (λ r.
        IsAssignment (shard_by records.now) (keys_in records.now) (r.ids, r.order)) }
    ensures numbers { IfOk result (λ r. r.numbers.items
        ≡ map (id_of (distinct (keys_in records.now))) (keys_in records.now)) }
{
    let (ids, order) = assigned?;
    let mut numbers = zeros?;
    read_slices(rt, records, &ids, &mut numbers);
    Ok(InternedKeys {
        tables,
        ids,
        order,
        numbers,
    })
}

/// Interned shards.
#[derive(Drop)]
pub struct InternedShards {
    /// The shard of each record, one list after another.
    shards: Vec<u8>,
    /// The keys of each shard.
    tables: Vec<KeyMap>,
    /// The numbers in each shard of its records.
    local_ids: Vec<Vec<u32>>,
}

/// Interns the records in their shards.
fn intern_in_shards<R: Threads + Sync>(
    rt: &R,
    alloc: Global,
    hasher: KeyHash,
    lists: &[&[&[u8]]],
    scattered: &[Scattered<'_>],
    capacity: usize,
) -> Result<InternedShards, Memory>
    requires bound { length (lent_lists lists.now) ≤ MOST_RECORDS }
    requires scattered { AreScattered (shard_of hasher) lists.now scattered.now }
    ensures shards { IfOk result (λ r.
        r.shards.items ≡ map (shard_of hasher) (lent_lists lists.now)) }
    ensures tables { IfOk result (λ r.
        AreTables (shard_of hasher) SHARDS (lent_lists lists.now) r.tables.items) }
    ensures local_ids { IfOk result (λ r. AreLocalIds (shard_of hasher) SHARDS
        (lent_lists lists.now) (map vec_items r.local_ids.items)) }
{
    let shards = all_shards(alloc, hasher, lists, scattered)?;
    let interned = intern_shards(rt, alloc, hasher, lists, scattered, capacity)?;
    let (tables, local_ids) = tables_of(alloc, hasher, lists, interned)?;
    Ok(InternedShards {
        shards,
        tables,
        local_ids,
    })
}

/// An interned shard.
#[derive(Drop)]
pub struct InternedShard {
    /// Its keys, by their numbers in the shard.
    table: KeyMap,
    /// The number in the shard of each of its records, in order.
    local_ids: Vec<u32>,
}

/// Interns more records of a shard.
fn intern_row(
    table: &mut KeyMap,
    local_ids: &mut Vec<u32>,
    row: &[ScatteredKey<'_>],
) -> Result<(), Memory>
    requires { length table.old + length row.now ≤ MOST_RECORDS }
    ensures table { OnOk result (table.new ≡ with_keys table.old row.now) }
    ensures local_ids { OnOk result (local_ids.new.items ≡ local_ids.old.items
        ++ map (id_of (with_keys table.old row.now)) row.now) }
{
    for k in 0..row.len() {
        let number = row[k].intern_in(table)?;
        local_ids.push(number)?;
    }
    Ok(())
}

/// Interns the records of one shard, list by list, with memory reserved for `capacity` of its keys.
fn intern_shard(
    alloc: Global,
    hasher: KeyHash,
    lists: &[&[&[u8]]],
    scattered: &[Scattered<'_>],
    shard: usize,
    capacity: usize,
) -> Result<InternedShard, Memory>
    requires bound { length (lent_lists lists.now) ≤ MOST_RECORDS }
    requires shard { shard < SHARDS }
    requires scattered { AreScattered (shard_of hasher) lists.now scattered.now }
    ensures { IfOk result (IsInternedShard (shard_of hasher) (lent_lists lists.now) shard) }
{
    let local_ids = Vec::with_capacity(alloc, capacity)?;
    let table = KeyMap::with_capacity(alloc, hasher, capacity)?;
    let mut interned = InternedShard { table, local_ids };
    intern_rows(&mut interned, hasher, lists, scattered, shard).and(Ok(interned))
}

/// Interns the records of one shard, list by list.
fn intern_rows(
    interned: &mut InternedShard,
    hasher: KeyHash,
    lists: &[&[&[u8]]],
    scattered: &[Scattered<'_>],
    shard: usize,
) -> Result<(), Memory>
    requires table { interned.old.table ≡ [] }
    requires local_ids { interned.old.local_ids.items ≡ [] }
    requires bound { length (lent_lists lists.now) ≤ MOST_RECORDS }
    requires shard { shard < SHARDS }
    requires scattered { AreScattered (shard_of hasher) lists.now scattered.now }
    ensures { OnOk result
        (IsInternedShard (shard_of hasher) (lent_lists lists.now) shard interned.new) }
{
    for i in 0..scattered.len() {
        let row = &scattered[i].rows[shard];
        intern_row(&mut interned.table, &mut interned.local_ids, row.as_slice())?;
    }
    Ok(())
}

/// Interns all shards, those of many records in as many threads as there are processors.
fn intern_shards<R: Threads + Sync>(
    rt: &R,
    alloc: Global,
    hasher: KeyHash,
    lists: &[&[&[u8]]],
    scattered: &[Scattered<'_>],
    capacity: usize,
) -> Result<Vec<InternedShard>, Memory>
    requires bound { length (lent_lists lists.now) ≤ MOST_RECORDS }
    requires scattered { AreScattered (shard_of hasher) lists.now scattered.now }
    ensures len { IfOk result (λ shards. length shards.items ≡ SHARDS) }
    ensures shards { IfOk result
        (λ shards. AreInterned (shard_of hasher) (lent_lists lists.now) SHARDS shards.items) }
{
    // Slightly more than the average shard gets.
    let each = capacity / (SHARDS as usize - 1);
    let threads = if records_of(scattered) < LEAST_KEYS {
        1
    } else {
        processors(rt)
    };
    collect_each(
        rt,
        alloc,
        SHARDS as usize,
        threads,
        &|shard| { intern_shard(alloc, hasher, lists, scattered, shard, each) },
    )
}

/// The keys of each shard, and the numbers there of its records.
fn tables_of(
    alloc: Global,
    hasher: KeyHash,
    lists: &[&[&[u8]]],
    shards: Vec<InternedShard>,
) -> Result<(Vec<KeyMap>, Vec<Vec<u32>>), Memory>
    requires len { length shards.items ≡ SHARDS }
    requires shards { AreInterned (shard_of hasher) (lent_lists lists.now) SHARDS shards.items }
    ensures tables { IfOk result (λ r.
        AreTables (shard_of hasher) SHARDS (lent_lists lists.now) r.0.items) }
    ensures local_ids { IfOk result (λ r. AreLocalIds (shard_of hasher) SHARDS
        (lent_lists lists.now) (map vec_items r.1.items)) }
{
    let mut tables = Vec::with_capacity(alloc, shards.len())?;
    let mut local_ids = Vec::with_capacity(alloc, shards.len())?;
    for shard in shards {
        tables.push(shard.table)?;
        local_ids.push(shard.local_ids)?;
    }
    Ok((tables, local_ids))
}

/// Takes one more record of a shard. The first record of a key gives it the next key number.
fn assign_id(
    ids: &mut Vec<Vec<u32>>,
    order: &mut Vec<KeyLocation>,
    shard: u8,
    local_id: u32,
) -> Result<(), Memory>
    requires shard { shard < vec_len ids.old }
    requires capacity { vec_len order.old < MOST_RECORDS }
    ensures ids { OnOk result (map vec_items ids.new.items
        ≡ ids_after (map vec_items ids.old.items) shard local_id (vec_len order.old)) }
    ensures order { OnOk result (order.new.items
        ≡ order_after order.old.items (map vec_items ids.old.items) shard local_id) }
{
    let next = order.len() as u32;
    let of_shard = &mut ids[shard as usize];
    if push_first(of_shard, local_id, next)? {
        order.push(KeyLocation {
            shard,
            number: local_id,
        })?;
    }
    Ok(())
}

/// Takes one more record of this shard, and returns whether it is the first of its key.
fn push_first(ids: &mut Vec<u32>, local_id: u32, next: u32) -> Result<bool, Memory>
    ensures first { IfOk result (λ first. first ≡ is_first ids.old.items local_id) }
    ensures ids { OnOk result (ids.new.items ≡ with_first ids.old.items local_id next) }
{
    let first = local_id as usize == ids.len();
    if first {
        ids.push(next)?;
    }
    Ok(first)
}

/// Records that are interned in their shards.
#[derive(Clone, Copy)]
pub struct ShardedRecords<'a> {
    /// What decides the shard of a key.
    pub hasher: KeyHash,
    /// The keys of the records, in lists.
    pub lists: &'a [&'a [&'a [u8]]],
    /// The shard of each record, one list after another.
    pub shards: &'a [u8],
    /// The numbers in each shard of its records.
    pub local_ids: &'a [Vec<u32>],
}

/// The key numbers of each shard, and the shard and the number there of each key.
fn assign_in_order(
    alloc: Global,
    records: &ShardedRecords<'_>,
    tables: &[KeyMap],
) -> Result<(Vec<Vec<u32>>, Vec<KeyLocation>), Memory>
    requires bound { length (keys_in records.now) ≤ MOST_RECORDS }
    requires shards { records.now.shards.now ≡ map (shard_by records.now) (keys_in records.now) }
    requires tables { length tables.now ≡ SHARDS }
    requires local_ids { AreLocalIds (shard_by records.now) SHARDS (keys_in records.now)
        (local_ids_in records.now) }
    ensures len { IfOk result (λ w. vec_len w.0 ≡ SHARDS) }
    ensures ids { IfOk result (λ w.
        AreGlobal (shard_by records.now) (keys_in records.now) (map vec_items w.0.items)) }
    ensures order { IfOk result (λ w. AreOrdered (shard_by records.now) (keys_in records.now)
        (distinct (keys_in records.now)) SHARDS w.1.items) }
{
    let ShardedRecords {
        shards,
        local_ids,
        ..
    } = *records;
    let mut ids = no_ids(alloc, tables)?;
    let mut order = Vec::with_capacity(alloc, keys_of(tables))?;
    let mut seen = [0; SHARDS as usize];
    for i in 0..shards.len() {
        let shard = shards[i] as usize;
        let local_id = local_ids[shard][seen[shard]];
        seen[shard] += 1;
        assign_id(&mut ids, &mut order, shards[i], local_id)?;
    }
    Ok((ids, order))
}

/// Runs `assign_in_order` while another thread drops the scattered keys, allocates a number for
/// each record, and runs `overlapped`.
fn assign_global_ids<R: Threads + Sync, T: Send, F: FnOnce() -> T + Send>(
    rt: &R,
    alloc: Global,
    records: &ShardedRecords<'_>,
    scattered: Vec<Scattered<'_>>,
    tables: &[KeyMap],
    overlapped: F,
) -> (
    Result<(Vec<Vec<u32>>, Vec<KeyLocation>), Memory>,
    Result<Vec<u32>, Memory>,
    T,
)
    requires bound { length (keys_in records.now) ≤ MOST_RECORDS }
    requires shards { records.now.shards.now ≡ map (shard_by records.now) (keys_in records.now) }
    requires tables { length tables.now ≡ SHARDS }
    requires local_ids { AreLocalIds (shard_by records.now) SHARDS (keys_in records.now)
        (local_ids_in records.now) }
    requires overlapped { F.pre overlapped }
    ensures len { IfOk result.0 (λ w. vec_len w.0 ≡ SHARDS) }
    ensures ids { IfOk result.0 (λ w.
        AreGlobal (shard_by records.now) (keys_in records.now) (map vec_items w.0.items)) }
    ensures order { IfOk result.0 (λ w. AreOrdered (shard_by records.now) (keys_in records.now)
        (distinct (keys_in records.now)) SHARDS w.1.items) }
    ensures zeros { IfOk result.1 (λ zeros. length zeros.items ≡ length (keys_in records.now)) }
    ensures overlapped { F.post overlapped result.2 }
{
    let ShardedRecords {
        hasher,
        lists,
        shards,
        local_ids,
    } = *records;
    let len = shards.len();
    let ((zeros, other), assigned) = thread::join(
        rt,
        move || -> (Result<Vec<u32>, Memory>, T)
            requires { F.pre overlapped }
            ensures { IfOk result.0 (λ zeros. length zeros.items ≡ len)
                × F.post overlapped result.1 }
        { (zeros_after(alloc, scattered, len), overlapped()) },
        || -> Result<(Vec<Vec<u32>>, Vec<KeyLocation>), Memory>
            requires { AreAssignable (shard_of hasher) (lent_lists lists.now) shards.now
                (map vec_items local_ids.now) tables.now }
            ensures { IfOk result (IsAssignment (shard_of hasher) (lent_lists lists.entry.now)) }
        {
            let records = ShardedRecords {
                hasher,
                lists,
                shards,
                local_ids,
            };
            assign_in_order(alloc, &records, tables)
        },
    );
    (assigned, zeros, other)
}

/// A zero for each record, allocated after the scattered keys are dropped.
fn zeros_after(
    alloc: Global,
    scattered: Vec<Scattered<'_>>,
    records: usize,
) -> Result<Vec<u32>, Memory>
    ensures { IfOk result (λ zeros. length zeros.items ≡ records) }
{
    drop(scattered);
    let zeros = vec![in alloc; 0; records]?;
    Ok(zeros)
}

/// An empty list of key numbers for each shard, with capacity for its keys.
fn no_ids(alloc: Global, tables: &[KeyMap]) -> Result<Vec<Vec<u32>>, Memory>
    requires { length tables.now ≡ SHARDS }
    ensures { IfOk result (λ ids. map vec_items ids.items ≡ replicate SHARDS []) }
{
    let mut ids = Vec::with_capacity(alloc, SHARDS as usize)?;
    for s in 0..SHARDS as usize {
        ids.push(Vec::with_capacity(alloc, tables[s].count() as usize)?)?;
    }
    Ok(ids)
}

/// The number of keys of all tables. It only decides how much memory is reserved.
fn keys_of(tables: &[KeyMap]) -> usize {
    let mut keys: usize = 0;
    for s in 0..tables.len() {
        keys = keys.saturating_add(tables[s].count() as usize);
    }
    keys
}

/// Fills in the key numbers of the records, in slices and in parallel.
fn read_slices<R: Threads + Sync>(
    rt: &R,
    records: &ShardedRecords<'_>,
    ids: &[Vec<u32>],
    numbers: &mut [u32],
)
    requires len { length numbers.old ≡ length (keys_in records.now) }
    requires valid { HaveReadableIds records.now (map vec_items ids.now) }
    ensures { numbers.new ≡ map (id_of (distinct (keys_in records.now))) (keys_in records.now) }
{
    thread::for_each_chunk_mut(
        rt,
        numbers,
        (records.shards.len() / SLICES + 1).max(LEAST_KEYS),
        &|from: usize, slice: &mut [u32]|
            requires { (from + length slice.now ≤ length (keys_in records.now))
                × HaveReadableIds records.now (map vec_items ids.now) }
            ensures { AreFrom (id_of (distinct (keys_in records.entry.now)))
                (keys_in records.entry.now) from (length slice.entry.now) slice.exit.now }
        { read_numbers(from, records, ids, slice) },
    );
}

/// Fills in the key numbers of the records from this index on.
fn read_numbers(from: usize, records: &ShardedRecords<'_>, ids: &[Vec<u32>], numbers: &mut [u32])
    requires range { from + length numbers.old ≤ length (keys_in records.now) }
    requires valid { HaveReadableIds records.now (map vec_items ids.now) }
    ensures { AreFrom (id_of (distinct (keys_in records.now))) (keys_in records.now) from
        (length numbers.old) numbers.new }
{
    let ShardedRecords {
        hasher,
        lists,
        shards,
        local_ids,
    } = *records;
    let mut seen = seen_before(from, hasher, lists, shards);
    for k in 0..numbers.len() {
        let shard = shards[from + k] as usize;
        let local_id = local_ids[shard][seen[shard]];
        seen[shard] += 1;
        numbers[k] = ids[shard][local_id as usize];
    }
}

/// The number of records of each shard before this index.
fn seen_before(
    from: usize,
    hasher: KeyHash,
    lists: &[&[&[u8]]],
    shards: &[u8],
) -> [usize; SHARDS as usize]
    requires range { from ≤ length (lent_lists lists.now) }
    requires shards { shards.now ≡ map (shard_of hasher) (lent_lists lists.now) }
    ensures { AreSeenCounts (shard_of hasher) SHARDS (lent_lists lists.now) from result }
{
    let mut seen = [0; SHARDS as usize];
    for i in 0..from {
        seen[shards[i] as usize] += 1;
    }
    seen
}
