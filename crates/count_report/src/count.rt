//! A count, from a source to a sink.

ghost use Rattle.std.specs.Prelude.{◌≡◌, ◌<◌, ◌≤◌, ◌+◌, ◌^◌, ◌++◌, List, None, Ok, IfErr, IfOk, IfSome, OnErr, OnOk, flat_map, length, vec_items, vec_len};
ghost use Rattle.count_report.specs.CountReport.{report_of_count};
ghost use Rattle.count_report.specs.Private.Counted.{AreTextsOfParts, IsTextOfPart, ReportsCounted, TellsCounters, skipped};
ghost use Rattle.report_rows.specs.CountRows.{count_rows, listed_rows, top_rows};
ghost use Rattle.report_rows.specs.Rows.{total_row};
ghost use Rattle.byte_io.specs.Devices.{CanStillFail};
ghost use Rattle.key_counts.specs.Merging.{IsDivided};
ghost use Rattle.key_index.specs.Keys.{Key};
ghost use Rattle.key_stream.specs.Tally.{HaveCounted};
ghost use Rattle.ingest.specs.Counted.{CountsFile};
ghost use Rattle.ingest.specs.Records.{names_topics};
ghost use Rattle.lane_words.specs.declared.Refusal.TheVariants as refusal;
ghost use Rattle.ingest.specs.Reports.{AreInRange, IsFaultOf, IsNoWrite, WritesAtEndAlone, WritesIfFileKnown, failed_reads, failed_writes};

use byte_io::{Sink, Source, write_texts};
use command_line::Options;
use ingest::{count_file, window_for};
use key_counts::Merging;
use key_stream::{Counters, Counting};
use lane_words::{Memory, Refusal};
use parallel::{LEAST_BYTES, collect_each, drop_each, processors};
use report_rows::count_rows::{count_rows_text, with_total};
use report_rows::top_rows::top_text;
use std::alloc::Global;
use std::hash::RandomState;
use std::random::RandomSource;
use std::thread::Threads;

/// Of how many parts rows are made before their entries are forgotten. A part has some 4,096.
const PARTS_TOGETHER: usize = 128;

/// The rows of the keys of part i of those from one on.
fn rows_of_part(alloc: Global, merging: &Merging, from: usize, i: usize) -> Result<Vec<u8>, Memory>
    requires bound { from + i < 2 ^ 64 }
    requires within { from + i < length merging.now.ends }
    requires left { from + i < merging.now.left }
    ensures { IfOk result (IsTextOfPart merging.now (from + i)) }
{
    let merged = merging.part(alloc, from + i)?;
    count_rows_text(alloc, &merged.keys, merged.counts.as_slice())
}

/// The rows of so many parts from one on, which still have their entries, in texts to be written one
/// after another. They are made in as many threads as there are processors; few entries are one part,
/// whose rows one thread makes.
fn rows_between<R: Threads + Sync>(
    rt: &R,
    alloc: Global,
    merging: &Merging,
    from: usize,
    count: usize,
) -> Result<Vec<Vec<u8>>, Memory>
    requires bound { from + count < 2 ^ 64 }
    requires within { from + count ≤ length merging.now.ends }
    requires left { from + count ≤ merging.now.left }
    requires divided { IsDivided merging.now }
    ensures { IfOk result (AreTextsOfParts merging.now from (from + count)) }
{
    collect_each(
        rt,
        alloc,
        count,
        processors(rt),
        &|i| { rows_of_part(alloc, merging, from, i) },
    )
}

/// The rows of the first parts, which are those that still have their entries, in texts to be
/// written one after another. The last rows are made first: then the entries that they are made of
/// are forgotten, so that memory does not hold all entries and all rows.
fn first_rows<R: Threads + Sync>(
    rt: &R,
    alloc: Global,
    merging: &mut Merging,
    count: usize,
) -> Result<Vec<Vec<u8>>, Memory>
    requires within { count ≤ length merging.old.ends }
    requires left { merging.old.left ≡ count }
    requires divided { IsDivided merging.old }
    ensures { IfOk result (AreTextsOfParts merging.old 0 count) }
{
    let from = count.saturating_sub(PARTS_TOGETHER);
    let mut last = rows_between(rt, alloc, merging, from, count - from)?;
    if from == 0 {
        return Ok(last);
    }
    merging.forget_from(rt, from);
    let mut texts = first_rows(rt, alloc, merging, from)?;
    texts.append(&mut last)?;
    Ok(texts)
}

/// The rows of all keys, in texts to be written one after another.
fn rows_parallel<R: Threads + Sync>(
    rt: &R,
    alloc: Global,
    merging: &mut Merging,
) -> Result<Vec<Vec<u8>>, Memory>
    requires { merging.old.left ≡ length merging.old.ends }
    ensures { IfOk result (λ texts. flat_map vec_items texts.items
        ≡ count_rows merging.old.keys merging.old.counts) }
{
    let parts = merging.parts();
    let texts = first_rows(rt, alloc, merging, parts)?;
    merging.forget_from(rt, 0);
    Ok(texts)
}

/// The text of a count of which only the top has rows.
fn top_texts<R: Threads + Sync>(
    rt: &R,
    alloc: Global,
    merging: &mut Merging,
    most: u32,
    records: u64,
) -> Result<Vec<Vec<u8>>, Memory>
    requires { merging.old.left ≡ length merging.old.ends }
    ensures { IfOk result (λ texts. flat_map vec_items texts.items
        ≡ top_rows most merging.old.keys merging.old.counts ++ total_row records records) }
{
    let merged = merging.all(alloc)?;
    let counts = merged.counts.as_slice();
    let text = top_text(alloc, &merged.keys, counts, most, records, records)?;
    let mut texts = Vec::new(alloc);
    texts.push(text)?;
    drop(merged);
    merging.forget_from(rt, 0);
    Ok(texts)
}

/// The text of a count: the rows of all keys or of the top, and the number of records as both
/// totals.
fn texts_of_count<R: Threads + Sync>(
    rt: &R,
    alloc: Global,
    merging: &mut Merging,
    records: u64,
    top: Option<u32>,
) -> Result<Vec<Vec<u8>>, Memory>
    requires { merging.old.left ≡ length merging.old.ends }
    ensures { IfOk result (λ texts. flat_map vec_items texts.items
        ≡ listed_rows top merging.old.keys merging.old.counts ++ total_row records records) }
{
    let Some(most) = top else {
        let texts = rows_parallel(rt, alloc, merging)?;
        return with_total(alloc, texts, records, records);
    };
    top_texts(rt, alloc, merging, most, records)
}

/// How many bytes stand before each key: with topics the index of its topic.
fn bytes_before_keys(options: &Options) -> usize
    ensures { result ≡ skipped (names_topics options.now) }
{
    if options.topics.as_slice().is_empty() {
        0
    } else {
        1
    }
}

/// The text of what these counters counted, of so many records, in texts to be written one after
/// another.
fn texts_of_counters<R: Threads + Sync>(
    rt: &R,
    alloc: Global,
    hasher: RandomState,
    counters: Counters,
    records: u64,
    options: &Options,
) -> Result<Vec<Vec<u8>>, Memory>
    requires { (keys : List Key) × HaveCounted keys counters }
    ensures { IfOk result (TellsCounters options.now counters records) }
{
    let skip = bytes_before_keys(options);
    let mut merging = counters.into_merging(rt, alloc, hasher, skip)?;
    texts_of_count(rt, alloc, &mut merging, records, options.top)
}

/// The report of what was counted of a file, in texts to be written one after another.
fn counted_report<R: Threads + Sync>(
    rt: &R,
    alloc: Global,
    hasher: RandomState,
    counting: Counting,
    options: &Options,
) -> Result<Vec<Vec<u8>>, Memory>
    requires { (left left2 : _) × CountsFile options.now left left2 counting None }
    ensures { IfOk result (ReportsCounted options.now counting) }
{
    let records = counting.round.keys;
    let counters = Counters::of(alloc, counting)?;
    texts_of_counters(rt, alloc, hasher, counters, records, options)
}

/// The report of a file, in texts to be written one after another.
fn file_report<R: Threads + Sync + RandomSource, S: Source>(
    rt: &R,
    alloc: Global,
    file: &mut S,
    options: &Options,
) -> Result<Vec<Vec<u8>>, Refusal>
    requires source { CanStillFail (S.failures file.old) }
    requires options { AreInRange options.now }
    ensures report { IfOk result (λ texts. IfSome (S.left file.old) (λ bytes.
        report_of_count options.now bytes ≡ Ok (flat_map vec_items texts.items))) }
    ensures fault { IfErr result (λ e. IfSome (S.left file.old)
        (λ bytes. IsFaultOf (report_of_count options.now bytes) e)) }
    ensures kind { IfErr result IsNoWrite }
    ensures reads { S.failures file.new ≡ S.failures file.old + failed_reads result }
{
    let Ok(hasher) = RandomState::new(rt) else {
        return Err(Refusal::Memory);
    };
    let workers = processors(rt);
    let mut counting = Counting::new(alloc, hasher, workers, LEAST_BYTES, false)?;
    match count_file(rt, alloc, file, options, window_for(workers), &mut counting) {
        Ok(None) => Ok(counted_report(rt, alloc, hasher, counting, options)?),
        Ok(Some(refusal)) => Err(refusal),
        Err(fault) => Err(fault),
    }
}

/// Drops texts, in parallel if there are several: one is not worth a thread.
fn drop_texts<R: Threads + Sync>(rt: &R, texts: Vec<Vec<u8>>) {
    if texts.len() > 1 {
        drop_each(rt, texts);
    }
}

/// Counts how often each key occurs in a CSV file, and writes a row for each key, in the order of
/// first appearance, and a row of the totals. With `top`, only so many keys have rows: those with
/// the most records, most first, and of equal counts the one that came first.
///
/// The file is read as a stream, to its end, and the whole text is made before the first write. So
/// after `WriteFailed` a prefix of the text is written, and after any other refusal nothing. In
/// memory are the distinct keys of each thread, and of the file a few megabytes, or its longest
/// record.
///
/// Errors, in this order:
/// - `ReadFailed`: a read failed.
/// - The first bad record: `BadCsv` if it has another number of fields than the first record,
///   `NoSuchColumn` if it lacks a column, `NoSuchTopic` if its topic is none of those given.
/// - The first record that can't be appended: `KeyTooLong`, `LogFull`.
/// - `WriteFailed`: a write failed.
/// - `Memory`, at any point: an allocation failed, or the system had no random bytes.
pub fn count_text<R: Threads + Sync + RandomSource, S: Source, K: Sink>(
    rt: &R,
    alloc: Global,
    file: &mut S,
    options: &Options,
    out: &mut K,
) -> Result<(), Refusal>
    requires source { CanStillFail (S.failures file.old) }
    requires sink { CanStillFail (K.failures out.old) }
    requires options { AreInRange options.now }
    ensures report { WritesIfFileKnown (report_of_count options.now)
        (S.left file.old) (K.written out.old) (K.written out.new) result }
    ensures end { WritesAtEndAlone (K.written out.old) (K.written out.new) result }
    ensures reads { S.failures file.new ≡ S.failures file.old + failed_reads result }
    ensures writes { K.failures out.new ≡ K.failures out.old + failed_writes result }
{
    let texts = file_report(rt, alloc, file, options)?;
    let written = write_texts(out, texts.as_slice());
    drop_texts(rt, texts);
    written
}
