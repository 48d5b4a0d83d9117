//! A file that is counted to its end, within the limits of its logs.

ghost use Rattle.std.specs.Prelude.{◌≡◌, ◌⊎◌, ◌+◌, ◌<◌, ◌≤◌, true, false, Err, IfErr, IfOk, List, None, OnOk, length, vec_len};
ghost use Rattle.std.specs.Io.KnownBytes.{IsAtEnd};
ghost use Rattle.byte_io.specs.Devices.{CanStillFail, IsReadFault};
ghost use Rattle.csv_ingest.specs.Private.Wanted.{taking};
ghost use Rattle.csv_ingest.specs.Stand.{is_line_end};
ghost use Rattle.key_counts.specs.Counts.{Entries};
ghost use Rattle.key_counts.specs.Segments.{keys_of};
ghost use Rattle.key_stream.specs.Counting.{HasMarks};
ghost use Rattle.key_stream.specs.Rounds.{entries_in};
ghost use Rattle.lane_words.specs.declared.Refusal.TheVariants as refusal;
ghost use Rattle.lane_words.specs.declared.limits.TheConstants.{MOST_RECORDS};
ghost use Rattle.partitioner.specs.Place.{AreCounts};
ghost use Rattle.ingest.specs.Counted.{CountsFile, HasCountedNothing};
ghost use Rattle.ingest.specs.Limits.{AreEntriesOfTopics};
ghost use Rattle.ingest.specs.Private.Counted.{BeginsCheckBy, ChecksFound, ChecksRoundBy, Concludes, CountsColumns, CountsSourceBy, HasFaultBy, IsCheckedBy, IsColumnsFault, IsCountFault, IsFaultOfSourceBy, IsFirstFault, StartsBy, TakesTopics, keys_in_chunk};
ghost use Rattle.ingest.specs.Private.Columns.{IsRecordsFault};
ghost use Rattle.ingest.specs.Reports.{AreInRange, IsNoStop, IsNoWrite, failed_reads};

use crate::columns::{Columns, find_columns};
use crate::limits;
use crate::limits::LimitCheck;
use crate::reading::{names_of, partition_counts, wanted_among};
use crate::windows::Windows;
use byte_io::Source;
use command_line::Options;
use csv_ingest::take_chunk;
use key_counts::Segment;
use key_stream::{Counting, Layout, take_and_read};
use lane_words::{MOST_RECORDS, Memory, Refusal};
use std::alloc::Global;
use std::mem;
use std::thread::Threads;

/// How a file is counted.
#[derive(Clone, Copy)]
struct CountPlan<'a> {
    /// How its records are read.
    pub layout: Layout<'a>,
    /// The number of partitions of each topic.
    pub counts: &'a [u32],
    /// Whether each key stands behind the index of its topic.
    pub has_topics: bool,
}

/// Whether the entries of segments are fewer than the keys that a table can have.
fn are_few(segments: &[Segment]) -> bool
    ensures { result ≡ true → (workers : List Entries)
        → length (keys_of workers segments.now) < MOST_RECORDS }
{
    let mut entries: u64 = 0;
    for i in 0..segments.len() {
        let Segment { from, to, .. } = segments[i];
        entries = entries.saturating_add(to.saturating_sub(from) as u64);
    }
    entries < MOST_RECORDS as u64
}

/// Begins a check of the limits, unless no log can be full after so many more records.
fn begin_check(
    alloc: Global,
    counting: &Counting,
    check: &mut Option<LimitCheck>,
    more: usize,
    plan: &CountPlan<'_>,
) -> Result<(), Memory>
    requires counts { AreCounts plan.now.counts.now }
    requires topics { AreEntriesOfTopics plan.now.counts.now plan.now.has_topics
        (entries_in counting.now.workers.items) }
    ensures { OnOk result
        (BeginsCheckBy plan.now counting.now more check.old check.new) }
{
    if check.is_some() {
        return Ok(());
    }
    let total = counting.round.keys.saturating_add(more as u64);
    if total <= MOST_RECORDS as u64 {
        return Ok(());
    }
    let workers = counting.workers.as_slice();
    *check = Some(LimitCheck::of(alloc, plan.counts, plan.has_topics, workers)?);
    Ok(())
}

/// Gives the keys of a chunk to a check, if there is one. `width` is how long the first record of
/// the file is, if it was read.
fn check_chunk(
    alloc: Global,
    check: &mut Option<LimitCheck>,
    chunk: &[u8],
    width: Option<usize>,
    layout: &Layout<'_>,
) -> Result<(), Refusal>
    ensures ok { OnOk result
        (ChecksFound (keys_in_chunk layout.now width chunk.now) check.old check.new) }
    ensures err { IfErr result (λ e. (e ≡ refusal.Memory)
        ⊎ (keys_in_chunk layout.now width chunk.now ≡ Err e)) }
{
    let Some(check) = check else {
        return Ok(());
    };
    match take_chunk(
        alloc,
        check,
        chunk,
        layout.delimiter,
        layout.wanted,
        layout.header,
        width,
    ) {
        Ok(_) => Ok(()),
        Err(fault) => Err(fault),
    }
}

/// Counts a window's first chunks, and gives their keys to a check, if there is one. Meanwhile the
/// next window is filled from the source. Returns whether nothing is left of the file.
fn count_window<R: Threads + Sync, S: Source>(
    rt: &R,
    alloc: Global,
    source: &mut S,
    counting: &mut Counting,
    check: &mut Option<LimitCheck>,
    windows: &mut Windows,
    layout: &Layout<'_>,
) -> Result<bool, Refusal>
    requires failures { CanStillFail (S.failures source.old) }
    requires delimiter { is_line_end layout.now.delimiter ≡ false }
    requires marks { HasMarks counting.old }
    ensures coded { counting.new.coded ≡ counting.old.coded }
    ensures marks { OnOk result (HasMarks counting.new) }
    ensures ok { IfOk result (λ done. ChecksRoundBy layout.now windows.old windows.new done
        (S.left source.old) (S.left source.new) counting.old counting.new check.old check.new) }
    ensures no_failures { OnOk result (S.failures source.new ≡ S.failures source.old) }
    ensures err { IfErr result (λ e. IsReadFault (S.failures source.old) (S.failures source.new) e
        ⊎ ((S.failures source.new ≡ S.failures source.old)
        × ((e ≡ refusal.Memory) ⊎ HasFaultBy layout.now windows.old counting.old e))) }
{
    let width = counting.round.width;
    let Windows {
        window,
        spare,
        at_end,
    } = windows;
    let text = window.text();
    let plain = window.is_plain();
    let split = counting.split(alloc, text, *at_end, layout.delimiter, plain)?;
    let end = match take_and_read(rt, alloc, counting, &split, layout, source, spare) {
        Ok(end) => end,
        Err(fault) => return Err(fault),
    };
    match check_chunk(alloc, check, &text[..split.taken], width, layout) {
        Ok(()) => {}
        Err(fault) => return Err(fault),
    }
    let done = *at_end && split.taken == text.len();
    drop(split);
    mem::swap(window, spare);
    *at_end = end;
    Ok(done)
}

/// Counts the bytes of a window and what a source has behind them, window by window, and checks the
/// limits from where a log could be full.
fn count_windows<R: Threads + Sync, S: Source>(
    rt: &R,
    alloc: Global,
    source: &mut S,
    counting: &mut Counting,
    check: &mut Option<LimitCheck>,
    windows: &mut Windows,
    plan: &CountPlan<'_>,
) -> Result<(), Refusal>
    requires failures { CanStillFail (S.failures source.old) }
    requires delimiter { is_line_end plan.now.layout.delimiter ≡ false }
    requires counts { AreCounts plan.now.counts.now }
    requires topics { TakesTopics (taking plan.now.layout.wanted.now) plan.now.counts.now
        plan.now.has_topics }
    requires start { StartsBy plan.now counting.old }
    requires check { check.old ≡ None }
    requires end { windows.old.at_end ≡ true → IsAtEnd (S.left source.old) }
    ensures coded { counting.new.coded ≡ counting.old.coded }
    ensures ok { OnOk result (IsCheckedBy plan.now windows.old
        (S.left source.old) (S.left source.new) counting.new check.new) }
    ensures err { IfErr result (λ e. (e ≡ refusal.Memory) ⊎ ((e ≡ refusal.ReadFailed)
        ⊎ IsFaultOfSourceBy plan.now windows.old (S.left source.old) e)) }
    ensures kind { IfErr result IsCountFault }
    ensures reads { S.failures source.new ≡ S.failures source.old + failed_reads result }
{
    match windows.read_on(source) {
        Ok(()) => {}
        Err(fault) => return Err(fault),
    }
    for _ in 0..u64::MAX {
        let more = windows.window.text().len();
        let Ok(()) = begin_check(alloc, counting, check, more, plan) else {
            return Err(Refusal::Memory);
        };
        match count_window(rt, alloc, source, counting, check, windows, &plan.layout) {
            Ok(true) => return Ok(()),
            Ok(false) => {}
            Err(fault) => return Err(fault),
        }
    }
    Err(Refusal::Memory)
}

/// Why the first record that can't be appended can't, once all are counted, if a table has room for
/// their keys. Without a check no log can be full, and only the lengths of keys matter.
fn first_fault(
    counting: &Counting,
    check: &Option<LimitCheck>,
    plan: &CountPlan<'_>,
) -> Option<Refusal>
    ensures { IsFirstFault plan.now.counts.now plan.now.has_topics
        (entries_in counting.now.workers.items) counting.now.segments.items check.now result }
{
    match check {
        Some(check) => check.fault(),
        None => limits::long_fault(counting.workers.as_slice(), plan.has_topics),
    }
}

/// Why the first record that can't be appended can't, once all are counted. Fails with `Memory` if
/// a table has no room for their keys.
fn conclude(
    counting: &Counting,
    check: &Option<LimitCheck>,
    plan: &CountPlan<'_>,
) -> Result<Option<Refusal>, Memory>
    ensures { Concludes plan.now.counts.now plan.now.has_topics
        (entries_in counting.now.workers.items) counting.now.segments.items check.now result }
{
    if !are_few(counting.segments.as_slice()) {
        return Err(Memory);
    }
    Ok(first_fault(counting, check, plan))
}

/// Counts the bytes of a window and what a source has behind them to its end. Returns why the first
/// record that can't be appended can't, if there is one.
fn count_source<R: Threads + Sync, S: Source>(
    rt: &R,
    alloc: Global,
    source: &mut S,
    counting: &mut Counting,
    windows: &mut Windows,
    plan: &CountPlan<'_>,
) -> Result<Option<Refusal>, Refusal>
    requires failures { CanStillFail (S.failures source.old) }
    requires delimiter { is_line_end plan.now.layout.delimiter ≡ false }
    requires counts { AreCounts plan.now.counts.now }
    requires topics { TakesTopics (taking plan.now.layout.wanted.now) plan.now.counts.now
        plan.now.has_topics }
    requires start { StartsBy plan.now counting.old }
    requires end { windows.old.at_end ≡ true → IsAtEnd (S.left source.old) }
    ensures coded { counting.new.coded ≡ counting.old.coded }
    ensures ok { IfOk result (CountsSourceBy plan.now windows.old
        (S.left source.old) (S.left source.new) counting.new) }
    ensures err { IfErr result (λ e. (e ≡ refusal.Memory) ⊎ ((e ≡ refusal.ReadFailed)
        ⊎ IsFaultOfSourceBy plan.now windows.old (S.left source.old) e)) }
    ensures kind { IfErr result IsCountFault }
    ensures reads { S.failures source.new ≡ S.failures source.old + failed_reads result }
{
    let mut check = None;
    match count_windows(rt, alloc, source, counting, &mut check, windows, plan) {
        Ok(()) => Ok(conclude(counting, &check, plan)?),
        Err(fault) => Err(fault),
    }
}

/// The same of a file whose columns are known.
fn count_columns<R: Threads + Sync, S: Source>(
    rt: &R,
    alloc: Global,
    source: &mut S,
    counting: &mut Counting,
    windows: &mut Windows,
    columns: Columns,
    options: &Options,
) -> Result<Option<Refusal>, Refusal>
    requires failures { CanStillFail (S.failures source.old) }
    requires options { AreInRange options.now }
    requires columns { (1 ≤ columns.key) × (1 ≤ columns.topic) }
    requires start { HasCountedNothing counting.old }
    requires end { windows.old.at_end ≡ true → IsAtEnd (S.left source.old) }
    ensures coded { counting.new.coded ≡ counting.old.coded }
    ensures ok { IfOk result (CountsColumns options.now columns windows.old.window
        windows.old.at_end (S.left source.old) (S.left source.new) counting.new) }
    ensures err { IfErr result (λ e. (e ≡ refusal.Memory) ⊎ ((e ≡ refusal.ReadFailed)
        ⊎ IsColumnsFault options.now columns windows.old.window (S.left source.old) e)) }
    ensures kind { IfErr result IsCountFault }
    ensures reads { S.failures source.new ≡ S.failures source.old + failed_reads result }
{
    let topics = options.topics.as_slice();
    let names = names_of(alloc, topics)?;
    let counts = partition_counts(alloc, options)?;
    let wanted = wanted_among(options, columns.key, columns.topic, names.as_slice());
    let plan = CountPlan {
        layout: Layout {
            delimiter: options.delimiter,
            wanted: &wanted,
            header: options.header,
        },
        counts: counts.as_slice(),
        has_topics: !topics.is_empty(),
    };
    count_source(rt, alloc, source, counting, windows, &plan)
}

/// Counts the records of a source to its end, `window` bytes at a time, or as many as a record that
/// is longer needs. Returns why the first record that can't be appended to a log can't
/// (`KeyTooLong`, `LogFull`), if there is one. Fails with the fault of the first bad record of the
/// file; with `ReadFailed` if a read failed, and only then; and with `Memory` if an allocation
/// failed, and if the workers have `MOST_RECORDS` entries or more.
pub fn count_file<R: Threads + Sync, S: Source>(
    rt: &R,
    alloc: Global,
    source: &mut S,
    options: &Options,
    window: usize,
    counting: &mut Counting,
) -> Result<Option<Refusal>, Refusal>
    requires failures { CanStillFail (S.failures source.old) }
    requires options { AreInRange options.now }
    requires start { HasCountedNothing counting.old }
    ensures coded { counting.new.coded ≡ counting.old.coded }
    ensures ok { IfOk result
        (CountsFile options.now (S.left source.old) (S.left source.new) counting.new) }
    ensures err { IfErr result (λ e. (e ≡ refusal.Memory) ⊎ ((e ≡ refusal.ReadFailed)
        ⊎ IsRecordsFault options.now (S.left source.old) e)) }
    ensures kind { IfErr result IsNoWrite }
    ensures unstopped { IfErr result IsNoStop }
    ensures reads { S.failures source.new ≡ S.failures source.old + failed_reads result }
{
    let mut windows = Windows::new(alloc, window.max(1));
    match find_columns(alloc, source, &mut windows, options) {
        Ok(columns) => count_columns(rt, alloc, source, counting, &mut windows, columns, options),
        Err(fault) => Err(fault),
    }
}
