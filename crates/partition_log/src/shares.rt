//! Logs that are filled in parallel, each thread with the records of some chunks.

ghost use Rattle.std.specs.Fork.{slice_chunk};
ghost use Rattle.std.specs.Prelude.{◌≡◌, ◌<◌, ◌≤◌, ◌*◌, [], ℕ, All, IfOk, List, OnOk, length, map, replicate, slice_index_or, vec_items, vec_len};
ghost use Rattle.key_counts.specs.Counts.{Entries};
ghost use Rattle.key_counts.specs.Recorded.{all_records};
ghost use Rattle.key_counts.specs.Segments.{IsSegment};
ghost use Rattle.partition_log.specs.Private.Filled.{filled};
ghost use Rattle.partition_log.specs.Private.Shares.{AreFilled, AreMerged, AreTables, HasTables, IsFillable, filled_by, flattened, numbers_in, places_in, read_all, read_chunk};

use crate::taken::TakenRecords;
use key_counts::{KeyCounts, Segment};
use lane_words::Memory;
use parallel::{LEAST_KEYS, collect_each, processors};
use std::alloc::Global;
use std::thread::Threads;

/// What the entries of workers have: a list for each worker, by code.
#[derive(Drop)]
pub struct Tables {
    /// Of each entry the partition.
    pub places: Vec<Vec<u32>>,
    /// Of each entry the key number.
    pub numbers: Vec<Vec<u32>>,
}

/// What the records of a chunk are filled from.
#[derive(Drop)]
pub struct CodedChunk<'a> {
    /// Of each record the code of its entry.
    pub codes: &'a [u32],
    /// Of each entry of the chunk's worker the partition.
    pub places: &'a [u32],
    /// Of each of these entries the key number.
    pub numbers: &'a [u32],
}

/// The codes of a chunk's records, and what its worker's entries have.
fn coded_chunk<'a>(workers: &'a [KeyCounts], tables: &'a Tables, chunk: Segment) -> CodedChunk<'a>
    requires chunk { IsSegment (all_records workers.now) chunk }
    requires tables { HasTables workers.now tables.now }
    ensures places { places_in result ≡ read_chunk tables.now.places.items workers.now chunk }
    ensures numbers { numbers_in result ≡ read_chunk tables.now.numbers.items workers.now chunk }
    ensures valid { (partitions : ℕ) → AreTables partitions workers.now tables.now
        → IsFillable partitions result }
{
    let codes = workers[chunk.worker].codes();
    CodedChunk {
        codes: &codes[chunk.from..chunk.to],
        places: tables.places[chunk.worker].as_slice(),
        numbers: tables.numbers[chunk.worker].as_slice(),
    }
}

/// Counts the records of a chunk, each for its partition.
fn count_chunk(counts: &mut Vec<usize>, chunk: &CodedChunk<'_>)
    requires { IsFillable (vec_len counts.old) chunk.now }
    ensures { vec_len counts.new ≡ vec_len counts.old }
{
    for k in 0..chunk.codes.len() {
        let p = chunk.places[chunk.codes[k] as usize] as usize;
        // They only say how much memory is taken.
        counts[p] = counts[p].saturating_add(1);
    }
}

/// One chunk in so many is counted to learn how much memory the logs need.
const SAMPLING: usize = 8;

/// About how many records of these chunks each partition has: a sixteenth more than one chunk in
/// `SAMPLING` makes likely.
fn counts_in(
    alloc: Global,
    partitions: usize,
    workers: &[KeyCounts],
    tables: &Tables,
    chunks: &[Segment],
) -> Result<Vec<usize>, Memory>
    requires chunks { All (IsSegment (all_records workers.now)) chunks.now }
    requires tables { AreTables partitions workers.now tables.now }
    ensures { IfOk result (λ counts. vec_len counts ≡ partitions) }
{
    let mut counts = vec![in alloc; 0_usize; partitions]?;
    for i in 0..chunks.len() {
        if i % SAMPLING == 0 {
            count_chunk(&mut counts, &coded_chunk(workers, tables, chunks[i]));
        }
    }
    scale(&mut counts, chunks.len());
    Ok(counts)
}

/// Scales what a sample of so many chunks has to all of them.
fn scale(counts: &mut Vec<usize>, chunks: usize)
    ensures { vec_len counts.new ≡ vec_len counts.old }
{
    let sampled = chunks.div_ceil(SAMPLING).max(1);
    for p in 0..counts.len() {
        let all = counts[p].saturating_mul(chunks) / sampled;
        counts[p] = all.saturating_add(all / 16);
    }
}

/// Empty logs, one for each of these counts, with room for so many records.
fn logs_with_capacity(alloc: Global, counts: &[usize]) -> Result<Vec<Vec<u32>>, Memory>
    ensures { IfOk result (λ logs. map vec_items logs.items ≡ replicate (length counts.now) []) }
{
    let mut logs = Vec::with_capacity(alloc, counts.len())?;
    for p in 0..counts.len() {
        logs.push(Vec::with_capacity(alloc, counts[p])?)?;
    }
    Ok(logs)
}

/// Adds the records of a chunk, each to the log of its partition.
fn fill_chunk(logs: &mut Vec<Vec<u32>>, chunk: &CodedChunk<'_>) -> Result<(), Memory>
    requires { IsFillable (vec_len logs.old) chunk.now }
    ensures { OnOk result (map vec_items logs.new.items ≡ filled (map vec_items logs.old.items)
        (places_in chunk.now) (numbers_in chunk.now)) }
{
    for k in 0..chunk.codes.len() {
        let code = chunk.codes[k] as usize;
        let log = &mut logs[chunk.places[code] as usize];
        log.push(chunk.numbers[code])?;
    }
    Ok(())
}

/// The logs of the records of these chunks.
fn fill_share(
    alloc: Global,
    partitions: usize,
    workers: &[KeyCounts],
    tables: &Tables,
    chunks: &[Segment],
) -> Result<Vec<Vec<u32>>, Memory>
    requires chunks { All (IsSegment (all_records workers.now)) chunks.now }
    requires tables { AreTables partitions workers.now tables.now }
    ensures { IfOk result (λ logs. map vec_items logs.items
        ≡ filled_by partitions workers.now tables.now chunks.now) }
{
    let counts = counts_in(alloc, partitions, workers, tables, chunks)?;
    let mut logs = logs_with_capacity(alloc, &counts)?;
    for i in 0..chunks.len() {
        fill_chunk(&mut logs, &coded_chunk(workers, tables, chunks[i]))?;
    }
    Ok(logs)
}

/// The chunks of share `i`: `size` of them, or what is left.
fn share_at(chunks: &[Segment], size: usize, i: usize) -> &[Segment]
    requires { i * size ≤ length chunks.now }
    ensures value { result.now ≡ slice_chunk chunks.now size i }
    ensures all { (workers : List Entries)
        → All (IsSegment workers) chunks.now → All (IsSegment workers) result.now }
{
    let others = &chunks[i * size..];
    &others[..size.min(others.len())]
}

/// The logs of share `i`.
fn logs_of_share(
    alloc: Global,
    partitions: usize,
    taken: &TakenRecords<'_>,
    tables: &Tables,
    size: usize,
    i: usize,
) -> Result<Vec<Vec<u32>>, Memory>
    requires chunks { All (IsSegment (all_records taken.now.workers.now)) taken.now.chunks.now }
    requires tables { AreTables partitions taken.now.workers.now tables.now }
    requires share { i * size ≤ length taken.now.chunks.now }
    ensures { IfOk result (λ logs. map vec_items logs.items
        ≡ filled_by partitions taken.now.workers.now tables.now
        (slice_chunk taken.now.chunks.now size i)) }
{
    let chunks = share_at(taken.chunks, size, i);
    fill_share(alloc, partitions, taken.workers, tables, chunks)
}

/// The logs of all shares, each filled in a thread of its own: a share has `size` chunks that follow
/// one another, and the last what is left.
fn fill_shares<R: Threads + Sync>(
    rt: &R,
    alloc: Global,
    partitions: usize,
    taken: &TakenRecords<'_>,
    tables: &Tables,
    size: usize,
) -> Result<Vec<Vec<Vec<u32>>>, Memory>
    requires chunks { All (IsSegment (all_records taken.now.workers.now)) taken.now.chunks.now }
    requires tables { AreTables partitions taken.now.workers.now tables.now }
    requires nonempty { 1 ≤ size }
    ensures { IfOk result (λ parts. AreFilled partitions taken.now.workers.now tables.now size
        taken.now.chunks.now (map (λ part. map vec_items part.items) parts.items)) }
{
    let shares = taken.chunks.len().div_ceil(size);
    collect_each(
        rt,
        alloc,
        shares,
        shares,
        &|i| { logs_of_share(alloc, partitions, taken, tables, size, i) },
    )
}

/// How many records parts have in one partition: it only says how much memory is taken.
fn len_at(parts: &[Vec<Vec<u32>>], p: usize) -> usize
    requires { All (λ part. p < length part.items) parts.now }
{
    let mut len: usize = 0;
    for i in 0..parts.len() {
        len = len.saturating_add(parts[i][p].len());
    }
    len
}

/// The log of one partition: those of all parts, one after another.
fn merged_log(alloc: Global, parts: &[Vec<Vec<u32>>], p: usize) -> Result<Vec<u32>, Memory>
    requires { All (λ part. p < length part.items) parts.now }
    ensures { IfOk result (λ log. log.items ≡ flattened
        (map (λ part. slice_index_or (map vec_items part.items) p []) parts.now)) }
{
    let mut log = Vec::with_capacity(alloc, len_at(parts, p))?;
    for i in 0..parts.len() {
        log.extend_from_slice(parts[i][p].as_slice())?;
    }
    Ok(log)
}

/// The logs of all partitions, merged in as many threads as there are parts.
fn merged_logs<R: Threads + Sync>(
    rt: &R,
    alloc: Global,
    partitions: usize,
    parts: &[Vec<Vec<u32>>],
) -> Result<Vec<Vec<u32>>, Memory>
    requires { All (λ part. length part.items ≡ partitions) parts.now }
    ensures { IfOk result (λ logs. AreMerged partitions
        (map (λ part. map vec_items part.items) parts.now) (map vec_items logs.items)) }
{
    collect_each(
        rt,
        alloc,
        partitions,
        parts.len(),
        &|p| { merged_log(alloc, parts, p) },
    )
}

/// How many records chunks have: it only says how the work is shared.
fn records_in(chunks: &[Segment]) -> usize {
    let mut records: usize = 0;
    for i in 0..chunks.len() {
        let Segment { from, to, .. } = chunks[i];
        records = records.saturating_add(to.saturating_sub(from));
    }
    records
}

/// How many chunks a share has: as many as give each processor one share. Few records are one
/// share, and so are all where it can't be told how many processors there are.
fn share_size(rt: &impl Threads, chunks: &[Segment]) -> usize
    ensures nonempty { 1 ≤ result }
{
    if records_in(chunks) < LEAST_KEYS {
        return chunks.len().max(1);
    }
    chunks.len().div_ceil(processors(rt)).max(1)
}

/// The logs of the records of these chunks, each record in the log of its entry's partition, with
/// its entry's key number. Fails only if memory runs out.
pub fn logs_of_chunks<R: Threads + Sync>(
    rt: &R,
    alloc: Global,
    partitions: usize,
    taken: &TakenRecords<'_>,
    tables: &Tables,
) -> Result<Vec<Vec<u32>>, Memory>
    requires chunks { All (IsSegment (all_records taken.now.workers.now)) taken.now.chunks.now }
    requires tables { AreTables partitions taken.now.workers.now tables.now }
    ensures { IfOk result (λ logs. map vec_items logs.items ≡ filled (replicate partitions [])
        (read_all tables.now.places.items taken.now)
        (read_all tables.now.numbers.items taken.now)) }
{
    let size = share_size(rt, taken.chunks);
    if taken.chunks.len() <= size {
        return fill_share(alloc, partitions, taken.workers, tables, taken.chunks);
    }
    let parts = fill_shares(rt, alloc, partitions, taken, tables, size)?;
    merged_logs(rt, alloc, partitions, &parts)
}
