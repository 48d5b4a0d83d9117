//! What the entries of workers have: each key is hashed and placed once for each of its entries.

ghost use Rattle.std.specs.Prelude.{◌≡◌, ◌<◌, ◌≤◌, ◌++◌, ℕ, All, IfOk, OnOk, length, map, slice_range, zip};
ghost use Rattle.std.specs.Thread.{IsSync};
ghost use Rattle.csv_ingest.specs.KeyFile.{key_behind, topic_of};
ghost use Rattle.key_counts.specs.Segments.{IsSegment};
ghost use Rattle.key_index.specs.Interned.{IsDictionaryOf};
ghost use Rattle.key_index.specs.Keys.{Key, distinct, lent};
ghost use Rattle.partitioner.specs.Place.{AreTopics};
ghost use Rattle.partition_log.specs.Keys.{keys_in};
ghost use Rattle.partition_log.specs.Logs.{IsOfTopic, place_in};
ghost use Rattle.partition_log.specs.Private.Tables.{AreTablesOf, entry_keys, key_taken, number_taken, own_values, place_taken, topic_taken};
ghost use Rattle.partition_log.specs.Taken.{AreTaken, taken_records};

use crate::Logs;
use crate::shares::Tables;
use crate::taken::TakenRecords;
use key_counts::{KeyCounts, Segment};
use key_index::{Interned, ShardedMap, split_keys};
use lane_words::{MOST_RECORDS, Memory};
use parallel::{LEAST_KEYS, collect_each, processors};
use std::alloc::Global;
use std::thread::Threads;

/// What the entries of workers have, and the distinct keys of the records, in the order of their
/// first appearance. Fails with `Memory` if an allocation failed, and with more than `MOST_RECORDS`
/// entries.
pub fn entry_tables<R: Threads + Sync>(
    rt: &R,
    alloc: Global,
    logs: &Logs,
    taken: &TakenRecords<'_>,
) -> Result<(ShardedMap, Tables), Memory>
    requires taken { AreTaken taken.now }
    requires topics { All (IsOfTopic logs.now) (taken_records taken.now) }
    ensures keys { IfOk result (λ r. r.0 ≡ distinct (keys_in (taken_records taken.now))) }
    ensures places { IfOk result (λ r. AreTablesOf (place_taken logs.now taken.now.has_topics)
        taken.now.workers.now r.1.places.items) }
    ensures numbers { IfOk result (λ r. AreTablesOf (number_taken taken.now)
        taken.now.workers.now r.1.numbers.items) }
{
    let (interned, places) = interned_entries(rt, alloc, logs, taken)?;
    let tables = both_tables(rt, alloc, taken, &places, &interned.ids)?;
    Ok((interned.keys, tables))
}

/// Of the partitions and the numbers that all entries have in the order of the segments, what those
/// of each worker have, by code.
fn both_tables<R: Threads + Sync>(
    rt: &R,
    alloc: Global,
    taken: &TakenRecords<'_>,
    places: &[u32],
    numbers: &[u32],
) -> Result<Tables, Memory>
    requires taken { AreTaken taken.now }
    requires places { length places.now ≡ length (entry_keys taken.now) }
    requires numbers { length numbers.now ≡ length (entry_keys taken.now) }
    ensures places { IfOk result (λ r. (f : Key → ℕ) → places.now ≡ map f (entry_keys taken.now)
        → AreTablesOf f taken.now.workers.now r.places.items) }
    ensures numbers { IfOk result (λ r. (f : Key → ℕ) → numbers.now ≡ map f (entry_keys taken.now)
        → AreTablesOf f taken.now.workers.now r.numbers.items) }
{
    let places = tables_of(rt, alloc, taken, places)?;
    let numbers = tables_of(rt, alloc, taken, numbers)?;
    Ok(Tables { places, numbers })
}

/// The keys of all entries interned, and the partition of each, in the order of the segments.
fn interned_entries<R: Threads + Sync>(
    rt: &R,
    alloc: Global,
    logs: &Logs,
    taken: &TakenRecords<'_>,
) -> Result<(Interned, Vec<u32>), Memory>
    requires taken { AreTaken taken.now }
    requires topics { All (IsOfTopic logs.now) (taken_records taken.now) }
    ensures keys { IfOk result (λ r. IsDictionaryOf
        (map (key_taken taken.now.has_topics) (entry_keys taken.now)) r.0) }
    ensures places { IfOk result (λ r. r.1.items
        ≡ map (place_taken logs.now taken.now.has_topics) (entry_keys taken.now)) }
{
    let mut keys = keys_of_entries(alloc, taken)?;
    if keys.len() > MOST_RECORDS as usize {
        return Err(Memory);
    }
    let topics = take_topics(alloc, taken.has_topics, &mut keys)?;
    let (interned, places) = intern_and_place(rt, alloc, logs, &topics, &keys)?;
    Ok((interned, places?))
}

/// These keys interned, and the partition of each in its topic. Partitions are found while one
/// thread puts the keys in order; either is refused for want of memory.
fn intern_and_place<R: Threads + Sync>(
    rt: &R,
    alloc: Global,
    logs: &Logs,
    topics: &[u8],
    keys: &[&[u8]],
) -> Result<(Interned, Result<Vec<u32>, Memory>), Memory>
    requires bound { length keys.now ≤ MOST_RECORDS }
    requires topics { AreTopics (length logs.now.counts) (length keys.now) topics.now }
    ensures keys { IfOk result (λ r. IsDictionaryOf (lent keys.now) r.0) }
    ensures places { IfOk result (λ r. IfOk r.1 (λ places. places.items
        ≡ map (λ keyed. place_in logs.now (keyed.0, keyed.1.now)) (zip topics.now keys.now))) }
{
    let lists = split_keys(alloc, &*keys)?;
    logs.keys.intern_all(
        rt,
        &lists,
        keys.len(),
        || -> Result<Vec<u32>, Memory>
            requires sync { IsSync R.row }
            requires topics { AreTopics (length logs.now.counts) (length keys.now) topics.now }
            ensures { IfOk result (λ places. places.items
                ≡ map (λ keyed. place_in logs.entry.now (keyed.0, keyed.1.now))
                (zip topics.entry.now keys.entry.now)) }
        { logs.places_of_in(rt, topics, keys) },
    )
}

/// The keys of all entries, as they were read, in the order of the segments.
fn keys_of_entries<'a>(alloc: Global, taken: &TakenRecords<'a>) -> Result<Vec<&'a [u8]>, Memory>
    requires { All (IsSegment taken.now.workers.now) taken.now.segments.now }
    ensures { IfOk result (λ keys. lent keys.items ≡ entry_keys taken.now) }
{
    let mut keys = Vec::with_capacity(alloc, entries_among(taken.workers))?;
    for i in 0..taken.segments.len() {
        let segment = taken.segments[i];
        add_keys(&mut keys, &taken.workers[segment.worker], segment)?;
    }
    Ok(keys)
}

/// Adds the keys of the entries of a segment.
fn add_keys<'a>(
    keys: &mut Vec<&'a [u8]>,
    entries: &'a KeyCounts,
    segment: Segment,
) -> Result<(), Memory>
    requires range { segment.from ≤ segment.to }
    requires within { segment.to ≤ length entries.now.keys }
    ensures { OnOk result (lent keys.new.items
        ≡ lent keys.old.items ++ slice_range entries.now.keys segment.from segment.to) }
{
    for code in segment.from..segment.to {
        keys.push(entries.key(code))?;
    }
    Ok(())
}

/// How many entries workers have: it only says how much memory is taken.
fn entries_among(workers: &[KeyCounts]) -> usize {
    let mut entries: usize = 0;
    for w in 0..workers.len() {
        entries = entries.saturating_add(workers[w].len());
    }
    entries
}

/// The topic of each of these keys, which are left without it. Without topics it is the first, and
/// the keys stay as they are.
fn take_topics(alloc: Global, has_topics: bool, keys: &mut [&[u8]]) -> Result<Vec<u8>, Memory>
    ensures topics { IfOk result
        (λ topics. topics.items ≡ map (topic_taken has_topics) (lent keys.old)) }
    ensures keys { OnOk result (lent keys.new ≡ map (key_taken has_topics) (lent keys.old)) }
{
    if !has_topics {
        return Ok(vec![in alloc; 0; keys.len()]?);
    }
    let topics = topics_of(alloc, keys)?;
    drop_topics(keys);
    Ok(topics)
}

/// The index of the topic that each of these keys stands behind.
fn topics_of(alloc: Global, keys: &[&[u8]]) -> Result<Vec<u8>, Memory>
    ensures { IfOk result (λ topics. topics.items ≡ map topic_of (lent keys.now)) }
{
    let mut topics = Vec::with_capacity(alloc, keys.len())?;
    for i in 0..keys.len() {
        topics.push(topic_of(keys[i]))?;
    }
    Ok(topics)
}

/// The index of the topic that a key stands behind.
fn topic_of(key: &[u8]) -> u8
    ensures { result ≡ topic_of key.now }
{
    if key.is_empty() { 0 } else { key[0] }
}

/// Leaves of each key what stands behind the index of its topic.
fn drop_topics(keys: &mut [&[u8]])
    ensures { lent keys.new ≡ map key_behind (lent keys.old) }
{
    for i in 0..keys.len() {
        keys[i] = key_behind(keys[i]);
    }
}

/// The key that stands behind the index of its topic.
fn key_behind(key: &[u8]) -> &[u8]
    ensures { result.now ≡ key_behind key.now }
{
    if key.is_empty() { key } else { &key[1..] }
}

/// Of what all entries have in the order of the segments, what those of each worker have, by code.
fn tables_of<R: Threads + Sync>(
    rt: &R,
    alloc: Global,
    taken: &TakenRecords<'_>,
    all: &[u32],
) -> Result<Vec<Vec<u32>>, Memory>
    requires taken { AreTaken taken.now }
    requires len { length all.now ≡ length (entry_keys taken.now) }
    ensures { IfOk result (λ tables. (f : Key → ℕ) → all.now ≡ map f (entry_keys taken.now)
        → AreTablesOf f taken.now.workers.now tables.items) }
{
    let threads = if all.len() < LEAST_KEYS {
        1
    } else {
        processors(rt)
    };
    collect_each(
        rt,
        alloc,
        taken.workers.len(),
        threads,
        &|w| { table_for(alloc, taken, w, all) },
    )
}

/// The same of one worker.
fn table_for(
    alloc: Global,
    taken: &TakenRecords<'_>,
    w: usize,
    all: &[u32],
) -> Result<Vec<u32>, Memory>
    requires worker { w < length taken.now.workers.now }
    requires segments { All (IsSegment taken.now.workers.now) taken.now.segments.now }
    requires len { length all.now ≡ length (entry_keys taken.now) }
    ensures { IfOk result (λ table. table.items ≡ own_values w taken.now.segments.now all.now) }
{
    let mut table = Vec::with_capacity(alloc, taken.workers[w].len())?;
    let mut at = 0;
    for i in 0..taken.segments.len() {
        let Segment { worker, from, to } = taken.segments[i];
        let next = at + (to - from);
        if worker == w {
            table.extend_from_slice(&all[at..next])?;
        }
        at = next;
    }
    Ok(table)
}
