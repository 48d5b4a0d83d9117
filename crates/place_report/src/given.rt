//! The table of the records that do not lie in the partitions of their keys.

ghost use Rattle.std.specs.Prelude.{◌≡◌, ◌<◌, ◌≤◌, ◌+◌, ◌-◌, ◌^◌, ◌++◌, ℕ, List, Some, IfOk, IfErr, OnOk, bytes_eq, flat_map, length, map, nat_lt, not, take};
ghost use Rattle.std.specs.Result.{result_map_both};
ghost use Rattle.command_line.specs.declared.options.TheConstants.{LAST_COLUMN};
ghost use Rattle.csv_ingest.specs.KeyFile.{keys_of};
ghost use Rattle.lane_words.specs.Answers.{Answers};
ghost use Rattle.ingest.specs.Counted.{AreReadFor};
ghost use Rattle.ingest.specs.RecordFaults.{IsKeyFault};
ghost use Rattle.ingest.specs.Records.{AreOfTopics, records_in, records_of};
ghost use Rattle.ingest.specs.Reports.{AreInRange, IsNoDeviceFault};
ghost use Rattle.partition_log.specs.Appends.{in_first};
ghost use Rattle.partition_log.specs.Keys.{keys_in};
ghost use Rattle.partition_log.specs.Logs.{IsValidLogs, place_in};
ghost use Rattle.report_rows.specs.Rows.{AddsRows};
ghost use Rattle.place_report.specs.Given.{both, earlier_fault, first_number, given_header, given_of_records, given_table, has_misplaced, misplaced_of, misplaced_row, number_text, record_number, records_and_given, report_of_given};
ghost use Rattle.place_report.specs.Private.Given.{AreAsMany, both_seen, misplaced_in, records_seen, row_at, text_told, texts_in, texts_seen};

use crate::in_memory::InMemory;
use crate::record_list::{RecordList, list_of};
use command_line::{Column, Options};
use csv::Writer;
use ingest::{FileRecords, file_records, logs_of};
use itoa::Buffer;
use lane_words::{Memory, Refusal};
use partition_log::Logs;
use partitioner::Topic;
use report_rows::replay_rows::partition_among;
use report_rows::rows;
use std::alloc::Global;
use std::random::RandomSource;
use std::thread::Threads;

/// How many misplaced records are told.
pub const MOST_TOLD: u64 = 20;

/// The number of the record that is at fault; 0 if no record is.
fn record_number(fault: &Refusal) -> u64
    ensures { result ≡ record_number fault.now }
{
    match fault {
        Refusal::NoSuchColumn { nth } => *nth,
        Refusal::BadCsv { nth } => *nth,
        Refusal::NoSuchTopic { nth } => *nth,
        _ => 0,
    }
}

/// The fault of the earlier record, and of one record the first.
fn earlier_fault(first: Refusal, second: Refusal) -> Refusal
    ensures { result ≡ earlier_fault first second }
{
    if record_number(&second) < record_number(&first) {
        second
    } else {
        first
    }
}

/// Both that were read, or the fault of the first bad record.
fn both(
    records: Result<FileRecords, Refusal>,
    texts: Result<FileRecords, Refusal>,
) -> Result<(FileRecords, FileRecords), Refusal>
    ensures value { both_seen result ≡ both (records_seen records) (texts_seen texts) }
    ensures topics { (options : Options) → IfOk records (AreReadFor options)
        → IfOk result (λ read. AreReadFor options read.0) }
    ensures kind { IfErr records IsNoDeviceFault → IfErr texts IsNoDeviceFault
        → IfErr result IsNoDeviceFault }
{
    match records {
        Ok(records) => match texts {
            Ok(texts) => Ok((records, texts)),
            Err(fault) => Err(fault),
        },
        Err(fault) => match texts {
            Ok(_) => Err(fault),
            Err(other) => Err(earlier_fault(fault, other)),
        },
    }
}

/// The records of a file that is in memory.
fn records_in_memory<R: Threads + Sync + RandomSource>(
    rt: &R,
    alloc: Global,
    file: &[u8],
    options: &Options,
) -> Result<FileRecords, Refusal>
    requires options { AreInRange options.now }
    ensures answer { Answers (records_of options.now file.now) (records_seen result) }
    ensures topics { IfOk result (AreReadFor options.now) }
    ensures kind { IfErr result IsNoDeviceFault }
{
    file_records(rt, alloc, &mut InMemory { left: file }, options)
}

/// Options that read the given column as the key.
fn options_for(alloc: Global, options: &Options, given: u32) -> Options
    requires options { AreInRange options.now }
    requires given { (1 ≤ given) × (given ≤ LAST_COLUMN) }
    ensures valid { AreInRange result }
    ensures records { (file : List ℕ) → records_of result file
        ≡ result_map_both in_first (λ fault. fault)
        (keys_of options.now.delimiter given options.now.header file) }
{
    Options {
        partitions: options.partitions,
        column: Column::Number(given),
        header: options.header,
        delimiter: options.delimiter,
        batch: options.batch,
        topics: Vec::new(alloc),
        topic_column: Column::Number(1),
        top: options.top,
    }
}

/// The records of a file that is in memory, and what the given column of each has.
fn read_both<R: Threads + Sync + RandomSource>(
    rt: &R,
    alloc: Global,
    file: &[u8],
    options: &Options,
    given: u32,
) -> Result<(FileRecords, FileRecords), Refusal>
    requires options { AreInRange options.now }
    requires given { (1 ≤ given) × (given ≤ LAST_COLUMN) }
    ensures answer { Answers (records_and_given options.now given file.now) (both_seen result) }
    ensures topics { IfOk result (λ read. AreReadFor options.now read.0) }
    ensures len { IfOk result (λ read. length (texts_in read.1) ≡ length (records_in read.0)) }
    ensures kind { IfErr result IsNoDeviceFault }
{
    let records = records_in_memory(rt, alloc, file, options);
    let texts = records_in_memory(rt, alloc, file, &options_for(alloc, options, given));
    both(records, texts)
}

/// The partition and the key of each of these records, in order.
fn places_and_keys<'a, R: Threads + Sync>(
    rt: &R,
    alloc: Global,
    logs: &Logs,
    records: &'a FileRecords,
) -> Result<(Vec<u32>, Vec<&'a [u8]>), Memory>
    requires { AreOfTopics logs.now.counts (records_in records.now) }
    ensures places { IfOk result
        (λ parts. parts.0.items ≡ map (place_in logs.now) (records_in records.now)) }
    ensures keys { IfOk result
        (λ parts. map (λ key. key.now) parts.1.items ≡ keys_in (records_in records.now)) }
{
    let RecordList { topics, keys } = list_of(alloc, &records.taken())?;
    let places = logs.places_of_in(rt, topics.as_slice(), keys.as_slice())?;
    Ok((places, keys))
}

/// The texts of the given column, in order.
fn texts_of<'a>(alloc: Global, texts: &'a FileRecords) -> Result<Vec<&'a [u8]>, Memory>
    ensures { IfOk result
        (λ slices. map (λ text. text.now) slices.items ≡ texts_in texts.now) }
{
    let RecordList { keys, .. } = list_of(alloc, &texts.taken())?;
    Ok(keys)
}

/// Records next to what their given column has.
#[derive(Clone, Copy)]
pub struct Given<'a> {
    /// The partition of each record, over all topics.
    pub places: &'a [u32],
    /// Its key.
    pub keys: &'a [&'a [u8]],
    /// The text of its given column.
    pub texts: &'a [&'a [u8]],
    /// The number of the first record.
    pub first: u64,
}

/// Writes the first row.
#[tactic(auto, unfolding(crate::specs::Given::given_header))]
fn write_header(writer: &mut Writer<Vec<u8>>, topics: &[Topic]) -> Result<(), Memory>
    ensures { OnOk result (AddsRows writer.old writer.new (given_header topics.now)) }
{
    if topics.is_empty() {
        rows::write_row(writer, &[b"record", b"key", b"given", b"place"])
    } else {
        rows::write_row(writer, &[b"record", b"key", b"given", b"topic", b"place"])
    }
}

/// Whether this text is the number of the partition in its topic.
fn is_number_of(topics: &[Topic], p: u32, text: &[u8]) -> bool
    ensures { result ≡ bytes_eq text.now (number_text topics.now p) }
{
    let mut digits = Buffer::new();
    let (_, number) = partition_among(topics, p);
    text == digits.format(number).as_bytes()
}

/// Writes the row of record number nth of partition `p`.
fn write_misplaced<'a>(
    writer: &mut Writer<Vec<u8>>,
    topics: &'a [Topic],
    nth: u64,
    key: &'a [u8],
    text: &'a [u8],
    p: u32,
) -> Result<(), Memory>
    ensures { OnOk result (AddsRows writer.old writer.new
        (misplaced_row topics.now nth key.now text.now p)) }
{
    let (mut first, mut second) = (Buffer::new(), Buffer::new());
    let (topic, number) = partition_among(topics, p);
    let nth = first.format(nth).as_bytes();
    let place = second.format(number).as_bytes();
    match topic {
        Some(name) => rows::write_row(writer, &[nth, key, text, name, place]),
        None => rows::write_row(writer, &[nth, key, text, place]),
    }
}

/// Writes the row of record i if it is misplaced, and returns whether it is.
fn tell(
    writer: &mut Writer<Vec<u8>>,
    topics: &[Topic],
    given: &Given<'_>,
    i: usize,
) -> Result<bool, Memory>
    requires len { AreAsMany given.now }
    requires among { i < length given.now.places.now }
    ensures ok { OnOk result (AddsRows writer.old writer.new
        (flat_map (λ row. row) (row_at topics.now given.now i))) }
    ensures value { IfOk result
        (λ told. told ≡ nat_lt 0 (length (row_at topics.now given.now i))) }
{
    let (p, key, text) = (given.places[i], given.keys[i], given.texts[i]);
    if is_number_of(topics, p, text) {
        return Ok(false);
    }
    write_misplaced(writer, topics, given.first + i as u64, key, text, p)?;
    Ok(true)
}

/// Writes the rows of the first misplaced records, and returns whether there is one.
fn tell_all(
    writer: &mut Writer<Vec<u8>>,
    topics: &[Topic],
    given: &Given<'_>,
) -> Result<bool, Memory>
    requires len { AreAsMany given.now }
    ensures ok { OnOk result (AddsRows writer.old writer.new
        (flat_map (λ row. row) (take MOST_TOLD (misplaced_in topics.now given.now)))) }
    ensures value { IfOk result
        (λ told. told ≡ nat_lt 0 (length (misplaced_in topics.now given.now))) }
{
    let mut told = 0;
    for i in 0..given.places.len() {
        if told == MOST_TOLD {
            return Ok(true);
        }
        let misplaced = tell(writer, topics, given, i)?;
        if misplaced {
            told += 1;
        }
    }
    Ok(told > 0)
}

/// A table, and whether it tells of a misplaced record.
#[derive(Debug, Drop)]
pub struct Told {
    /// The text of the table.
    pub text: Vec<u8>,
    /// Whether a record is misplaced.
    pub misplaced: bool,
}

/// The table of the misplaced records among these.
fn table_of_given(alloc: Global, topics: &[Topic], given: &Given<'_>) -> Result<Told, Memory>
    requires { AreAsMany given.now }
    ensures text { IfOk result (λ told. told.text.items
        ≡ given_table topics.now (misplaced_in topics.now given.now)) }
    ensures misplaced { IfOk result (λ told. told.misplaced
        ≡ nat_lt 0 (length (misplaced_in topics.now given.now))) }
{
    let mut writer = rows::new_writer(alloc);
    write_header(&mut writer, topics)?;
    let misplaced = tell_all(&mut writer, topics, given)?;
    let text = rows::text_of(writer)?;
    Ok(Told { text, misplaced })
}

/// The number of the first record that has a key.
fn first_number(header: bool) -> u64
    ensures { result ≡ first_number header }
{
    if header { 2 } else { 1 }
}

/// The table of the misplaced ones of these records, next to their given column.
fn told_of_records<R: Threads + Sync + RandomSource>(
    rt: &R,
    alloc: Global,
    records: &FileRecords,
    texts: &FileRecords,
    options: &Options,
) -> Result<Told, Refusal>
    requires options { AreInRange options.now }
    requires topics { AreReadFor options.now records.now }
    requires len { length (texts_in texts.now) ≡ length (records_in records.now) }
    ensures answer { Answers
        (given_of_records options.now (records_in records.now, texts_in texts.now))
        (text_told result) }
    ensures misplaced { IfOk result (λ told. told.misplaced ≡ nat_lt 0
        (length (misplaced_of options.now (records_in records.now, texts_in texts.now)))) }
    ensures kind { IfErr result IsKeyFault }
{
    let logs = logs_of(rt, alloc, records, options)?;
    let (places, keys) = places_and_keys(rt, alloc, &logs, records)?;
    logs.drop_parallel(rt);
    let texts = texts_of(alloc, texts)?;
    let given = Given {
        places: places.as_slice(),
        keys: keys.as_slice(),
        texts: texts.as_slice(),
        first: first_number(options.header),
    };
    Ok(table_of_given(alloc, options.topics.as_slice(), &given)?)
}

/// The table of the misplaced records of a file that is in memory, by its given column.
pub fn told_of_file<R: Threads + Sync + RandomSource>(
    rt: &R,
    alloc: Global,
    file: &[u8],
    options: &Options,
    given: u32,
) -> Result<Told, Refusal>
    requires options { AreInRange options.now }
    requires given { (1 ≤ given) × (given ≤ LAST_COLUMN) }
    ensures answer { Answers (report_of_given options.now given file.now) (text_told result) }
    ensures misplaced { IfOk result
        (λ told. told.misplaced ≡ has_misplaced options.now (Some given) file.now) }
    ensures kind { IfErr result IsNoDeviceFault }
{
    let (records, texts) = read_both(rt, alloc, file, options, given)?;
    told_of_records(rt, alloc, &records, &texts, options)
}
