//! A table of places, from a source to a sink.

ghost use Rattle.std.specs.Prelude.{◌≡◌, ◌≤◌, ◌<◌, ◌+◌, ◌-◌, false, Some, None, Ok, IfOk, IfErr, IfSome, List};
ghost use Rattle.byte_io.specs.Devices.{CanStillFail};
ghost use Rattle.command_line.specs.declared.options.TheConstants.{LAST_COLUMN};
ghost use Rattle.ingest.specs.Counted.{AreReadFor};
ghost use Rattle.ingest.specs.RecordFaults.{IsKeyFault};
ghost use Rattle.ingest.specs.Records.{partition_counts, records_in};
ghost use Rattle.ingest.specs.Reports.{AreInRange, IsFaultOf, IsNoWrite, WritesAtEndAlone, WritesIfFileKnown, failed_reads, failed_writes, text_seen, written};
ghost use Rattle.lane_words.specs.Answers.{Answers};
ghost use Rattle.partition_log.specs.Keys.{Keyed};
ghost use Rattle.partition_log.specs.Logs.{AreLogsOf, IsValidLogs};
ghost use Rattle.command_line.specs.Options.{IsPlaceInRange};
ghost use Rattle.place_report.specs.Given.{has_misplaced, report_of_given};
ghost use Rattle.place_report.specs.PlaceReport.{report_of_place, report_with, table_of, table_of_records};

use crate::given::{Told, told_of_file};
use crate::key_rows::keys_text;
use crate::partition_rows::partitions_text;
use byte_io::{Sink, Source, read_all, write_all};
use command_line::{Options, PlaceOptions};
use ingest::{FileRecords, file_records, logs_of, partition_counts};
use lane_words::{Memory, Refusal};
use partition_log::Logs;
use std::alloc::Global;
use std::random::RandomSource;
use std::thread::Threads;

/// The table of the keys of these logs, or of their partitions.
fn table_of_logs(
    alloc: Global,
    logs: &Logs,
    options: &Options,
    keys: bool,
) -> Result<Vec<u8>, Memory>
    requires options { AreInRange options.now }
    requires valid { IsValidLogs logs.now }
    requires counts { logs.now.counts ≡ partition_counts options.now }
    ensures { (records : List Keyed) → AreLogsOf records logs.now
        → IfOk result (λ text. text.items ≡ table_of keys options.now records) }
{
    let topics = options.topics.as_slice();
    if keys {
        let counts = partition_counts(alloc, options)?;
        return keys_text(alloc, topics, logs, counts.as_slice());
    }
    partitions_text(alloc, topics, logs)
}

/// The same of these records.
fn table_of_records<R: Threads + Sync + RandomSource>(
    rt: &R,
    alloc: Global,
    records: FileRecords,
    options: &Options,
    keys: bool,
) -> Result<Vec<u8>, Refusal>
    requires options { AreInRange options.now }
    requires topics { AreReadFor options.now records }
    ensures answer { Answers (table_of_records keys options.now (records_in records))
        (text_seen result) }
    ensures kind { IfErr result IsKeyFault }
{
    let logs = logs_of(rt, alloc, &records, options)?;
    // The records can go: the logs have a copy of each key.
    drop(records);
    let text = table_of_logs(alloc, &logs, options, keys)?;
    logs.drop_parallel(rt);
    Ok(text)
}

/// The same of the records of a file.
fn table_of_file<R: Threads + Sync + RandomSource, S: Source>(
    rt: &R,
    alloc: Global,
    file: &mut S,
    options: &Options,
    keys: bool,
) -> Result<Told, Refusal>
    requires source { CanStillFail (S.failures file.old) }
    requires options { AreInRange options.now }
    ensures report { IfOk result (λ told. IfSome (S.left file.old)
        (λ bytes. report_with None keys options.now bytes ≡ Ok told.text.items)) }
    ensures misplaced { IfOk result (λ told. told.misplaced ≡ false) }
    ensures fault { IfErr result (λ e. IfSome (S.left file.old)
        (λ bytes. IsFaultOf (report_with None keys options.now bytes) e)) }
    ensures kind { IfErr result IsNoWrite }
    ensures reads { S.failures file.new ≡ S.failures file.old + failed_reads result }
{
    let records = file_records(rt, alloc, file, options)?;
    let text = table_of_records(rt, alloc, records, options, keys)?;
    Ok(Told {
        text,
        misplaced: false,
    })
}

/// The table of the misplaced records of a file, by its given column.
fn misplaced_of_file<R: Threads + Sync + RandomSource, S: Source>(
    rt: &R,
    alloc: Global,
    file: &mut S,
    options: &Options,
    given: u32,
) -> Result<Told, Refusal>
    requires source { CanStillFail (S.failures file.old) }
    requires options { AreInRange options.now }
    requires given { (1 ≤ given) × (given ≤ LAST_COLUMN) }
    ensures report { IfOk result (λ told. IfSome (S.left file.old)
        (λ bytes. report_of_given options.now given bytes ≡ Ok told.text.items)) }
    ensures misplaced { IfOk result (λ told. IfSome (S.left file.old)
        (λ bytes. told.misplaced ≡ has_misplaced options.now (Some given) bytes)) }
    ensures fault { IfErr result (λ e. IfSome (S.left file.old)
        (λ bytes. IsFaultOf (report_of_given options.now given bytes) e)) }
    ensures kind { IfErr result IsNoWrite }
    ensures reads { S.failures file.new ≡ S.failures file.old + failed_reads result }
{
    // Memory has the whole file: it is read again for its given column.
    let bytes = read_all(alloc, file)?;
    told_of_file(rt, alloc, bytes.as_slice(), options, given)
}

/// The table that the options ask for.
fn told_of<R: Threads + Sync + RandomSource, S: Source>(
    rt: &R,
    alloc: Global,
    file: &mut S,
    options: &Options,
    place: &PlaceOptions,
) -> Result<Told, Refusal>
    requires source { CanStillFail (S.failures file.old) }
    requires options { AreInRange options.now }
    requires place { IsPlaceInRange place.now }
    ensures report { IfOk result (λ told. IfSome (S.left file.old)
        (λ bytes. report_of_place options.now place.now bytes ≡ Ok told.text.items)) }
    ensures misplaced { IfOk result (λ told. IfSome (S.left file.old)
        (λ bytes. told.misplaced ≡ has_misplaced options.now place.now.given bytes)) }
    ensures fault { IfErr result (λ e. IfSome (S.left file.old)
        (λ bytes. IsFaultOf (report_of_place options.now place.now bytes) e)) }
    ensures kind { IfErr result IsNoWrite }
    ensures reads { S.failures file.new ≡ S.failures file.old + failed_reads result }
{
    match place.given {
        Some(given) => misplaced_of_file(rt, alloc, file, options, given),
        None => table_of_file(rt, alloc, file, options, place.keys),
    }
}

/// Tells where the records of a CSV file go, and how evenly: writes a header, and a row for each
/// partition, or for each key. With a given column, writes the first rows of the records that do
/// not lie in the partitions of their keys, and returns whether there is one.
///
/// The whole file is read and the whole text is made before the first write. So after `WriteFailed`
/// a prefix of the text is written, and after any other refusal nothing.
///
/// Errors, in this order:
/// - `ReadFailed`: a read failed.
/// - The first bad record: `BadCsv` if it has another number of fields than the first record,
///   `NoSuchColumn` if it lacks a column, `NoSuchTopic` if its topic is none of those given.
/// - The first record that can't be appended: `KeyTooLong`, `LogFull`.
/// - `WriteFailed`: a write failed.
/// - `Memory`, at any point: an allocation failed, or the system had no random bytes.
pub fn place_text<R: Threads + Sync + RandomSource, S: Source, K: Sink>(
    rt: &R,
    alloc: Global,
    file: &mut S,
    options: &Options,
    place: &PlaceOptions,
    out: &mut K,
) -> Result<bool, Refusal>
    requires source { CanStillFail (S.failures file.old) }
    requires sink { CanStillFail (K.failures out.old) }
    requires options { AreInRange options.now }
    requires place { IsPlaceInRange place.now }
    ensures report { WritesIfFileKnown (report_of_place options.now place.now)
        (S.left file.old) (K.written out.old) (K.written out.new) (written result) }
    ensures misplaced { IfOk result (λ misplaced. IfSome (S.left file.old)
        (λ bytes. misplaced ≡ has_misplaced options.now place.now.given bytes)) }
    ensures end { WritesAtEndAlone (K.written out.old) (K.written out.new) (written result) }
    ensures reads { S.failures file.new ≡ S.failures file.old + failed_reads result }
    ensures writes { K.failures out.new ≡ K.failures out.old + failed_writes (written result) }
{
    let told = told_of(rt, alloc, file, options, place)?;
    write_all(out, told.text.as_slice())?;
    Ok(told.misplaced)
}
