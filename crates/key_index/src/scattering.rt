//! Keys scattered to their shards, several lists side by side.

ghost use Rattle.std.specs.Prelude.{◌≡◌, ◌≤◌, ◌+◌, [], IfOk, length, map, replicate, vec_items, ◌<◌, slice_index_or};
ghost use Rattle.key_index.specs.Keys.{lent, lent_lists};
ghost use Rattle.key_index.specs.Private.Sharded.{AreScattered, IsScattered, shard_of, start_of};

use crate::key_hash::KeyHash;
use crate::scattered_key::ScatteredKey;
use crate::shards::{SHARDS, shard_of};
use lane_words::{MOST_RECORDS, Memory};
use parallel::{LEAST_KEYS, collect_each, processors};
use std::alloc::Global;
use std::thread::Threads;

/// How many slices the keys of one list are scattered in, and the key numbers are read in.
pub const SLICES: usize = 8;

/// The keys of a list, scattered to their shards.
#[derive(Drop)]
pub struct Scattered<'a> {
    /// The shard of each key, in order.
    pub shards: Vec<u8>,
    /// The keys of each shard, in order.
    pub rows: Vec<Vec<ScatteredKey<'a>>>,
}

/// An empty row for each shard, with capacity for `each` keys.
fn no_keys<'a>(alloc: Global, each: usize) -> Result<Vec<Vec<ScatteredKey<'a>>>, Memory>
    ensures { IfOk result (λ rows. map vec_items rows.items ≡ replicate SHARDS []) }
{
    let mut rows = Vec::with_capacity(alloc, SHARDS as usize)?;
    for _s in 0..SHARDS as usize {
        rows.push(Vec::with_capacity(alloc, each)?)?;
    }
    Ok(rows)
}

/// Scatters keys to their shards.
fn scatter<'a>(alloc: Global, hasher: KeyHash, keys: &[&'a [u8]]) -> Result<Scattered<'a>, Memory>
    ensures { IfOk result (IsScattered (shard_of hasher) (lent keys.now)) }
{
    let mut shards = Vec::with_capacity(alloc, keys.len())?;
    // Slightly more than the average shard gets.
    let mut rows = no_keys(alloc, keys.len() / (SHARDS as usize - 1))?;
    for i in 0..keys.len() {
        let shard = shard_of(&hasher, keys[i]);
        shards.push(shard)?;
        let row = &mut rows[shard as usize];
        row.push(ScatteredKey::of(keys[i]))?;
    }
    Ok(Scattered { shards, rows })
}

/// Scatters the keys of the list of this index to their shards.
fn scatter_list<'a>(
    alloc: Global,
    hasher: KeyHash,
    lists: &[&'a [&'a [u8]]],
    i: usize,
) -> Result<Scattered<'a>, Memory>
    requires { i < length lists.now }
    ensures { IfOk result (λ scattered. (e : _)
        → IsScattered (shard_of hasher) (lent (slice_index_or lists.now i e).now) scattered) }
{
    scatter(alloc, hasher, lists[i])
}

/// Scatters the keys of each list to their shards, in as many threads as there are processors. Fails
/// only if memory runs out.
pub fn scatter_lists<'a, R: Threads + Sync>(
    rt: &R,
    alloc: Global,
    hasher: KeyHash,
    lists: &'a [&'a [&'a [u8]]],
) -> Result<Vec<Scattered<'a>>, Memory>
    ensures { IfOk result (λ scattered. AreScattered (shard_of hasher) lists.now scattered.items) }
{
    collect_each(
        rt,
        alloc,
        lists.len(),
        processors(rt),
        &|i| { scatter_list(alloc, hasher, lists, i) },
    )
}

/// The shards of the keys of all lists, concatenated.
pub fn all_shards(
    alloc: Global,
    hasher: KeyHash,
    lists: &[&[&[u8]]],
    scattered: &[Scattered<'_>],
) -> Result<Vec<u8>, Memory>
    requires { AreScattered (shard_of hasher) lists.now scattered.now }
    ensures { IfOk result (λ shards. shards.items ≡ map (shard_of hasher) (lent_lists lists.now)) }
{
    let mut shards = Vec::with_capacity(alloc, records_of(scattered))?;
    for i in 0..scattered.len() {
        shards.extend_from_slice(scattered[i].shards.as_slice())?;
    }
    Ok(shards)
}

/// The number of scattered keys. It only decides how much memory is reserved, and whether threads
/// are started.
pub fn records_of(scattered: &[Scattered<'_>]) -> usize {
    let mut records: usize = 0;
    for i in 0..scattered.len() {
        records = records.saturating_add(scattered[i].shards.len());
    }
    records
}

/// The index at which slice `p` of these keys begins.
fn start_of(keys: &[&[u8]], p: usize) -> usize
    requires slice { p ≤ SLICES }
    requires bound { length keys.now ≤ MOST_RECORDS }
    ensures { result ≡ start_of p (lent keys.now) }
{
    (p * (keys.len() / SLICES + 1)).min(keys.len())
}

/// Splits keys into slices that can be interned in parallel; few keys are one slice. Fails only if
/// memory runs out.
pub fn split_keys<'a>(alloc: Global, keys: &'a [&'a [u8]]) -> Result<Vec<&'a [&'a [u8]]>, Memory>
    requires { length keys.now ≤ MOST_RECORDS }
    ensures { IfOk result (λ slices. lent_lists slices.items ≡ lent keys.now) }
{
    if keys.len() < LEAST_KEYS {
        return Ok(Vec::from_slice(alloc, &[keys])?);
    }
    let mut slices = Vec::with_capacity(alloc, SLICES)?;
    for p in 0..SLICES {
        let from = start_of(keys, p);
        let to = start_of(keys, p + 1);
        slices.push(&keys[from..to])?;
    }
    Ok(slices)
}
