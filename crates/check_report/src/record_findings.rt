//! The records of a file that are bad, or whose key is too long.

ghost use Rattle.std.specs.Prelude.{◌≡◌, ◌≤◌, ◌++◌, Err, IfErr, IfOk, IfSome, OnOk, codes, decimal, length, take};
ghost use Rattle.std.specs.List.{filter_map, list_any};
ghost use Rattle.std.specs.Option.{option_to_list};
ghost use Rattle.std.specs.Str.{bytes_eq};
ghost use Rattle.csv.specs.Records.{fields_of};
ghost use Rattle.lane_words.specs.declared.limits.TheConstants.{LONGEST_KEY};
ghost use Rattle.command_line.specs.Options.{IsColumnIn};
ghost use Rattle.ingest.specs.Reports.{AreInRange};
ghost use Rattle.check_report.specs.Findings.{fields_word, shown};
ghost use Rattle.check_report.specs.Private.PlacedRecords.{IsReading, records_left};
ghost use Rattle.check_report.specs.Private.RecordFindings.{HasKeyOf, column_among, column_found, findings_behind, taken, topic_column_among};
ghost use Rattle.check_report.specs.RecordFindings.{field_in, findings_among, findings_of_file, found_at, lacking, record_finding, record_refusal, record_words, unnamed};

use crate::findings::{Finding, with_shown};
use crate::places::Place;
use crate::records::Records;
use command_line::{Column, LAST_COLUMN, Options};
use csv::ByteRecord;
use csv_ingest::{Lack, field_named};
use lane_words::{LONGEST_KEY, Memory, Refusal};
use partitioner::Topic;
use std::alloc::Global;
use std::marker::Model;

/// Where a record has its key, and with topics the name of its topic.
#[derive(Drop)]
struct Wants<'a> {
    /// The topics; empty without `--topics`.
    topics: &'a [Topic],
    /// The column of the key, from 1.
    column: u32,
    /// The column of the topic's name, from 1.
    topic_column: u32,
}

impl<'a> Model for Wants<'a> {
    ghost use Rattle.std.specs.Prelude.{◌≤◌};
    ghost use Rattle.check_report.specs.RecordFindings.{Wants};

    ghost Value = { Wants };

    ghost view = { λ s. record {
      topics = s.topics.now;
      column = s.column;
      topic_column = s.topic_column;
    } };

    ghost invariant = { λ s. (1 ≤ s.column) × (1 ≤ s.topic_column) };
}

/// A finding at the place of a record.
pub fn found_at(code: Option<u64>, place: Place, words: Vec<u8>) -> Finding
    ensures { result ≡ found_at code place words.items }
{
    Finding {
        in_script: false,
        code,
        nth: Some(place.nth),
        line: Some(place.line),
        byte: Some(place.byte),
        words,
    }
}

/// Whether a topic has this name.
fn is_topic(topics: &[Topic], name: &[u8]) -> bool
    ensures { result ≡ list_any (λ t. bytes_eq name.now t.name) topics.now }
{
    topics.iter().any(|topic| name == topic.name.text())
}

impl<'a> Wants<'a> {
    /// The field in this column, or nothing.
    fn field<'r>(row: &'r ByteRecord, column: u32) -> &'r [u8]
        requires { 1 ≤ column }
        ensures { result.now ≡ field_in column (fields_of row.now) }
    {
        match row.get(column as usize - 1) {
            Some(field) => field,
            None => b"",
        }
    }

    /// The length of a record's key, or what the record lacks.
    fn key_length(&self, row: &ByteRecord) -> Result<usize, Lack>
        ensures ok { IfOk result (λ n. HasKeyOf self.now (fields_of row.now) n) }
        ensures err { IfErr result (λ lack. taken self.now (fields_of row.now) ≡ Err lack) }
    {
        let Some(key) = row.get(self.column as usize - 1) else {
            return Err(Lack::Column);
        };
        if self.topics.is_empty() {
            return Ok(key.len());
        }
        let Some(name) = row.get(self.topic_column as usize - 1) else {
            return Err(Lack::Column);
        };
        if is_topic(self.topics, name) {
            Ok(key.len())
        } else {
            Err(Lack::Topic)
        }
    }

    /// The fault of record number nth, were it the first that has one; it is to have `width`
    /// fields.
    fn refusal(&self, row: &ByteRecord, width: usize, nth: u64) -> Option<Refusal>
        ensures { result ≡ record_refusal self.now width nth (fields_of row.now) }
    {
        if row.len() != width {
            return Some(Refusal::BadCsv { nth });
        }
        match self.key_length(row) {
            Err(Lack::Column) => Some(Refusal::NoSuchColumn { nth }),
            Err(Lack::Topic) => Some(Refusal::NoSuchTopic { nth }),
            Ok(bytes) => {
                if bytes > LONGEST_KEY {
                    Some(Refusal::KeyTooLong)
                } else {
                    None
                }
            }
        }
    }

    /// The column that so many fields lack: that of the key if they lack it, or else the topic's.
    fn lacking(&self, fields: usize) -> u32
        ensures { result ≡ lacking self.now fields }
    {
        if fields < self.column as usize {
            self.column
        } else {
            self.topic_column
        }
    }

    /// What is wrong with a record of this fault, in words.
    fn words(
        &self,
        alloc: Global,
        row: &ByteRecord,
        width: usize,
        refusal: &Refusal,
    ) -> Result<Vec<u8>, Memory>
        ensures { IfOk result (λ words. words.items
            ≡ record_words self.now width (fields_of row.now) refusal.now) }
    {
        match refusal {
            Refusal::BadCsv { .. } => width_words(alloc, row.len(), width),
            Refusal::NoSuchColumn { .. } => {
                column_words(alloc, self.lacking(row.len()), row.len())
            }
            Refusal::NoSuchTopic { .. } => with_shown(
                alloc,
                b"no topic of that name: ",
                Wants::field(row, self.topic_column),
            ),
            Refusal::KeyTooLong => key_words(alloc, Wants::field(row, self.column).len()),
            _ => Ok(Vec::new(alloc)),
        }
    }

    /// Adds the finding of a record at its place, if it has a fault; it is to have `width` fields.
    fn check(
        &self,
        alloc: Global,
        found: &mut Vec<Finding>,
        place: Place,
        row: &ByteRecord,
        width: usize,
    ) -> Result<(), Memory>
        ensures { OnOk result (found.new.items ≡ found.old.items
            ++ option_to_list (record_finding self.now width (place, fields_of row.now))) }
    {
        if let Some(refusal) = self.refusal(row, width, place.nth) {
            let words = self.words(alloc, row, width, &refusal)?;
            found.push(found_at(Some(u64::from(refusal.code())), place, words))?;
        }
        Ok(())
    }
}

/// What fields are called, by their number.
fn fields_word(fields: usize) -> &'static str
    ensures { result.now ≡ fields_word fields }
{
    if fields == 1 { "field" } else { "fields" }
}

/// A record of another length than the first, in words.
fn width_words(alloc: Global, fields: usize, width: usize) -> Result<Vec<u8>, Memory>
    ensures { IfOk result (λ words. words.items ≡ decimal fields ++ codes " "
        ++ fields_word fields ++ codes ", the first record has " ++ decimal width) }
{
    let word = fields_word(fields);
    let text = format!(in alloc; "{fields} {word}, the first record has {width}")?;
    Ok(text.into_bytes())
}

/// A record of so many fields that lacks this column, in words.
fn column_words(alloc: Global, column: u32, fields: usize) -> Result<Vec<u8>, Memory>
    ensures { IfOk result (λ words. words.items ≡ codes "no column " ++ decimal column
        ++ codes ": it has " ++ decimal fields ++ codes " " ++ fields_word fields) }
{
    let word = fields_word(fields);
    let text = format!(in alloc; "no column {column}: it has {fields} {word}")?;
    Ok(text.into_bytes())
}

/// A key of so many bytes, which are too many, in words.
fn key_words(alloc: Global, bytes: usize) -> Result<Vec<u8>, Memory>
    ensures { IfOk result (λ words. words.items ≡ codes "the key has " ++ decimal bytes
        ++ codes " bytes, " ++ decimal LONGEST_KEY ++ codes " are the most") }
{
    let text = format!(in alloc; "the key has {bytes} bytes, {LONGEST_KEY} are the most")?;
    Ok(text.into_bytes())
}

/// A column of the file whose first record this is, if its header names it.
fn column_among(row: &ByteRecord, column: &Column, header: bool) -> Option<u32>
    requires { IsColumnIn header column.now }
    ensures value { column_found result ≡ column_among (fields_of row.now) column.now }
    ensures range { IfSome result (λ column. 1 ≤ column) }
{
    match column {
        Column::Number(number) => Some(*number),
        Column::Named(name) => {
            let index = field_named(row, name.as_slice(), LAST_COLUMN)?;
            Some(index + 1)
        }
    }
}

/// The column of the topic, likewise; without topics none is read, and it is the first.
fn topic_column_among(row: &ByteRecord, options: &Options) -> Option<u32>
    requires { AreInRange options.now }
    ensures value { column_found result ≡ topic_column_among (fields_of row.now)
        options.now.topics.items options.now.topic_column }
    ensures range { IfSome result (λ column. 1 ≤ column) }
{
    if options.topics.is_empty() {
        return Some(1);
    }
    column_among(row, &options.topic_column, options.header)
}

/// The finding of a header that does not name a column.
fn unnamed(alloc: Global, column: &Column, place: Place) -> Result<Vec<Finding>, Memory>
    ensures { IfOk result (λ found. found.items ≡ unnamed column.now place) }
{
    let mut found = Vec::new(alloc);
    if let Column::Named(name) = column {
        let words = with_shown(alloc, b"the header has no field ", name.as_slice())?;
        let code = u64::from(Refusal::NoSuchColumn { nth: 1 }.code());
        found.push(found_at(Some(code), place, words))?;
    }
    Ok(found)
}

/// Adds the findings of the records that are left, as long as there are fewer than `most`.
fn check_rest(
    alloc: Global,
    found: &mut Vec<Finding>,
    wants: &Wants<'_>,
    width: usize,
    records: &mut Records<'_>,
    most: usize,
) -> Result<(), Memory>
    requires reads { IsReading records.old }
    requires bound { length found.old.items ≤ most }
    ensures { OnOk result (found.new.items ≡ take most (found.old.items
        ++ filter_map (record_finding wants.now width) (records_left records.old))) }
{
    'records: while found.len() < most {
        let Some(place) = records.next()? else {
            return Ok(());
        };
        wants.check(alloc, found, place, &records.row, width)?;
    }
    Ok(())
}

/// The findings of a file with key and topic in these columns, of which the first record was read.
fn findings_among(
    alloc: Global,
    wants: &Wants<'_>,
    header: bool,
    first: Place,
    records: &mut Records<'_>,
    most: usize,
) -> Result<Vec<Finding>, Memory>
    requires reads { IsReading records.old }
    requires most { 1 ≤ most }
    ensures { IfOk result (λ found. found.items ≡ take most (findings_among wants.now header
        (first, fields_of records.old.row) (records_left records.old))) }
{
    let mut found = Vec::new(alloc);
    let width = records.row.len();
    if !header {
        wants.check(alloc, &mut found, first, &records.row, width)?;
    }
    check_rest(alloc, &mut found, wants, width, records, most)?;
    Ok(found)
}

/// The findings of a file of which the first record was read.
fn findings_behind(
    alloc: Global,
    options: &Options,
    first: Place,
    records: &mut Records<'_>,
    most: usize,
) -> Result<Vec<Finding>, Memory>
    requires options { AreInRange options.now }
    requires reads { IsReading records.old }
    requires most { 1 ≤ most }
    ensures { IfOk result (λ found. found.items ≡ take most (findings_behind options.now first
        (fields_of records.old.row) (records_left records.old))) }
{
    let Some(column) = column_among(&records.row, &options.column, options.header) else {
        return unnamed(alloc, &options.column, first);
    };
    let Some(topic_column) = topic_column_among(&records.row, options) else {
        return unnamed(alloc, &options.topic_column, first);
    };
    let wants = Wants {
        topics: options.topics.as_slice(),
        column,
        topic_column,
    };
    findings_among(alloc, &wants, options.header, first, records, most)
}

/// The first findings of a file's records, at most `most`.
#[tactic(auto, unfolding(crate::specs::RecordFindings::findings_of_file))]
pub fn findings_of_file(
    alloc: Global,
    file: &[u8],
    options: &Options,
    most: usize,
) -> Result<Vec<Finding>, Memory>
    requires options { AreInRange options.now }
    requires most { 1 ≤ most }
    ensures { IfOk result
        (λ found. found.items ≡ take most (findings_of_file options.now file.now)) }
{
    let mut records = Records::of(alloc, file, options.delimiter);
    match records.next()? {
        Some(first) => findings_behind(alloc, options, first, &mut records, most),
        None => Ok(Vec::new(alloc)),
    }
}
