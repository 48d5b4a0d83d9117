//! The table of the keys: a row for each, and with topics one for each topic that has it.

ghost use Rattle.std.specs.Prelude.{◌≡◌, ◌<◌, ◌++◌, IfOk, OnOk, length};
ghost use Rattle.partition_log.specs.Logs.{IsValidLogs};
ghost use Rattle.report_rows.specs.Rows.{AddsRows};
ghost use Rattle.place_report.specs.PlaceRows.{key_header, key_row};
ghost use Rattle.place_report.specs.Private.KeyCounts.{HaveTopicCounts, all_key_rows, rows_of_key};

use crate::topic_counts::topic_counts;
use csv::Writer;
use itoa::Buffer;
use keyed_table::Table;
use lane_words::Memory;
use partition_log::{LogRead, Logs};
use partitioner::Topic;
use report_rows::replay_rows::partition_among;
use report_rows::rows;
use std::alloc::Global;

/// Writes the first row.
#[tactic(auto, unfolding(crate::specs::PlaceRows::key_header))]
fn write_header(writer: &mut Writer<Vec<u8>>, topics: &[Topic]) -> Result<(), Memory>
    ensures { OnOk result (AddsRows writer.old writer.new (key_header topics.now)) }
{
    if topics.is_empty() {
        rows::write_row(writer, &[b"key", b"partition", b"records"])
    } else {
        rows::write_row(writer, &[b"key", b"topic", b"partition", b"records"])
    }
}

/// Writes the row of a key and a partition that has so many records of it; nothing if it has none.
fn write_key(
    writer: &mut Writer<Vec<u8>>,
    topics: &[Topic],
    key: &[u8],
    p: u32,
    records: u64,
) -> Result<(), Memory>
    ensures { OnOk result
        (AddsRows writer.old writer.new (key_row topics.now key.now p records)) }
{
    if records == 0 {
        return Ok(());
    }
    let (mut first, mut second) = (Buffer::new(), Buffer::new());
    let (topic, number) = partition_among(topics, p);
    let partition = first.format(number).as_bytes();
    let records = second.format(records).as_bytes();
    match topic {
        Some(name) => rows::write_row(writer, &[key, name, partition, records]),
        None => rows::write_row(writer, &[key, partition, records]),
    }
}

/// Writes the rows of the key of this number.
fn write_rows_of_key(
    writer: &mut Writer<Vec<u8>>,
    topics: &[Topic],
    logs: &Logs,
    tables: &[Table],
    id: u32,
) -> Result<(), Memory>
    requires valid { IsValidLogs logs.now }
    requires tables { HaveTopicCounts logs.now tables.now }
    requires key { id < length logs.now.keys }
    ensures { OnOk result (AddsRows writer.old writer.new (rows_of_key topics.now logs.now id)) }
{
    let key = logs.key(id);
    for t in 0..tables.len() {
        let p = logs.place_of_in(t as u8, key);
        write_key(writer, topics, key, p, tables[t].get(id))?;
    }
    Ok(())
}

/// Writes the rows of all keys.
fn write_keys(
    writer: &mut Writer<Vec<u8>>,
    topics: &[Topic],
    logs: &Logs,
    tables: &[Table],
) -> Result<(), Memory>
    requires valid { IsValidLogs logs.now }
    requires tables { HaveTopicCounts logs.now tables.now }
    ensures { OnOk result (AddsRows writer.old writer.new (all_key_rows topics.now logs.now)) }
{
    for id in 0..logs.keys() {
        write_rows_of_key(writer, topics, logs, tables, id)?;
    }
    Ok(())
}

/// The table of the keys, given the number of partitions of each topic.
pub fn keys_text(
    alloc: Global,
    topics: &[Topic],
    logs: &Logs,
    counts: &[u32],
) -> Result<Vec<u8>, Memory>
    requires valid { IsValidLogs logs.now }
    requires counts { counts.now ≡ logs.now.counts }
    ensures { IfOk result
        (λ text. text.items ≡ key_header topics.now ++ all_key_rows topics.now logs.now) }
{
    let tables = topic_counts(alloc, logs, counts)?;
    let mut writer = rows::new_writer(alloc);
    write_header(&mut writer, topics)?;
    write_keys(&mut writer, topics, logs, tables.as_slice())?;
    rows::text_of(writer)
}
