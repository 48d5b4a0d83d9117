//! The table of the partitions: a row for each.

ghost use Rattle.std.specs.Prelude.{◌≡◌, ◌<◌, ◌++◌, [], IfOk, IfSome, OnOk, decimal, length, option_map, replicate, unwrap_or};
ghost use Rattle.partition_log.specs.Keys.{key_at};
ghost use Rattle.partition_log.specs.Logs.{keys_of_log};
ghost use Rattle.report_rows.specs.Rows.{AddsRows};
ghost use Rattle.place_report.specs.PlaceRows.{partition_header, partition_row};
ghost use Rattle.place_report.specs.Private.Tallies.{AreCountsOf, IsTallyOf, partition_rows};

use crate::ids::all_ids;
use crate::tally::{Tally, tally_of};
use csv::Writer;
use itoa::Buffer;
use lane_words::Memory;
use partition_log::LogRead;
use partitioner::Topic;
use report_rows::replay_rows::partition_among;
use report_rows::rows;
use std::alloc::Global;

/// Writes the first row.
#[tactic(auto, unfolding(crate::specs::PlaceRows::partition_header))]
fn write_header(writer: &mut Writer<Vec<u8>>, topics: &[Topic]) -> Result<(), Memory>
    ensures { OnOk result (AddsRows writer.old writer.new (partition_header topics.now)) }
{
    if topics.is_empty() {
        rows::write_row(
            writer,
            &[
                b"partition",
                b"records",
                b"keys",
                b"largest",
                b"records_of_largest",
            ],
        )
    } else {
        rows::write_row(
            writer,
            &[
                b"topic",
                b"partition",
                b"records",
                b"keys",
                b"largest",
                b"records_of_largest",
            ],
        )
    }
}

/// The key of this number, or nothing without one.
fn key_or_empty<L: LogRead>(logs: &L, id: Option<u32>) -> &[u8]
    requires { IfSome id (λ id. id < length (L.contents logs.now).keys) }
    ensures { result.now ≡ unwrap_or (option_map (key_at (L.contents logs.now).keys) id) [] }
{
    match id {
        Some(id) => logs.key(id),
        None => b"",
    }
}

/// Writes the row of a partition, whose log has so many records and this tally.
fn write_partition<L: LogRead>(
    writer: &mut Writer<Vec<u8>>,
    topics: &[Topic],
    logs: &L,
    p: u32,
    tally: &Tally,
) -> Result<(), Memory>
    requires partition { p < (L.contents logs.now).partitions }
    requires tally { IsTallyOf (L.contents logs.now).keys
        (keys_of_log (L.contents logs.now) p) tally.now }
    ensures { OnOk result (AddsRows writer.old writer.new
        (partition_row topics.now p (keys_of_log (L.contents logs.now) p))) }
{
    let (mut first, mut second, mut third) = (Buffer::new(), Buffer::new(), Buffer::new());
    let mut fourth = Buffer::new();
    let (topic, number) = partition_among(topics, p);
    let partition = first.format(number).as_bytes();
    let records = second.format(logs.len(p)).as_bytes();
    let keys = third.format(tally.keys).as_bytes();
    let largest = key_or_empty(logs, tally.largest);
    let most = fourth.format(tally.most).as_bytes();
    match topic {
        Some(name) => rows::write_row(writer, &[name, partition, records, keys, largest, most]),
        None => rows::write_row(writer, &[partition, records, keys, largest, most]),
    }
}

/// Writes the rows of all partitions. There is a counter for each key, at zero.
fn write_partitions<L: LogRead>(
    writer: &mut Writer<Vec<u8>>,
    topics: &[Topic],
    logs: &L,
    counters: &mut [u32],
) -> Result<(), Memory>
    requires len { length counters.old ≡ length (L.contents logs.now).keys }
    requires zeros { AreCountsOf [] counters.old }
    ensures { OnOk result (AddsRows writer.old writer.new
        (partition_rows topics.now (L.contents logs.now))) }
{
    for p in 0..logs.partitions() {
        let tally = tally_of(counters, all_ids(logs, p));
        write_partition(writer, topics, logs, p, &tally)?;
    }
    Ok(())
}

/// The table of the partitions.
pub fn partitions_text<L: LogRead>(
    alloc: Global,
    topics: &[Topic],
    logs: &L,
) -> Result<Vec<u8>, Memory>
    ensures { IfOk result (λ text. text.items ≡ partition_header topics.now
        ++ partition_rows topics.now (L.contents logs.now)) }
{
    let mut counters = vec![in alloc; 0_u32; logs.keys() as usize]?;
    let mut writer = rows::new_writer(alloc);
    write_header(&mut writer, topics)?;
    write_partitions(&mut writer, topics, logs, counters.as_mut_slice())?;
    rows::text_of(writer)
}
