//! The records of a file as lists of their topics and keys.

ghost use Rattle.std.specs.Prelude.{◌≡◌, ◌≤◌, IfOk, OnOk, length, slice_range};
ghost use Rattle.key_counts.specs.Counts.{records_of};
ghost use Rattle.partition_log.specs.Taken.{AreTaken, record_taken, records_taken, taken_records};
ghost use Rattle.place_report.specs.Private.RecordList.{AddsRecords, IsListOf};

use key_counts::{KeyCounts, Segment};
use lane_words::Memory;
use partition_log::TakenRecords;
use std::alloc::Global;

/// Records, in order.
#[derive(Drop)]
pub struct RecordList<'a> {
    /// The topic of each.
    pub topics: Vec<u8>,
    /// Its key.
    pub keys: Vec<&'a [u8]>,
}

/// The topic and the key of a record, of its key as it was read.
fn record_of(has_topics: bool, key: &[u8]) -> (u8, &[u8])
    ensures topic { result.0 ≡ (record_taken has_topics key.now).0 }
    ensures key { result.1.now ≡ (record_taken has_topics key.now).1 }
{
    if !has_topics || key.is_empty() {
        return (0, key);
    }
    (key[0], &key[1..])
}

/// Adds the records of a chunk.
fn add_chunk<'a>(
    list: &mut RecordList<'a>,
    entries: &'a KeyCounts,
    chunk: Segment,
    has_topics: bool,
) -> Result<(), Memory>
    requires range { chunk.from ≤ chunk.to }
    requires within { chunk.to ≤ length entries.now.codes }
    ensures { OnOk result (AddsRecords list.old list.new
        (records_taken has_topics (slice_range (records_of entries.now) chunk.from chunk.to))) }
{
    let codes = entries.codes();
    for i in chunk.from..chunk.to {
        let (topic, key) = record_of(has_topics, entries.key(codes[i] as usize));
        list.topics.push(topic)?;
        list.keys.push(key)?;
    }
    Ok(())
}

/// The records that workers took.
pub fn list_of<'a>(alloc: Global, taken: &TakenRecords<'a>) -> Result<RecordList<'a>, Memory>
    requires { AreTaken taken.now }
    ensures { IfOk result (IsListOf (taken_records taken.now)) }
{
    let mut list = RecordList {
        topics: Vec::new(alloc),
        keys: Vec::new(alloc),
    };
    for i in 0..taken.chunks.len() {
        let chunk = taken.chunks[i];
        let entries = &taken.workers[chunk.worker];
        add_chunk(&mut list, entries, chunk, taken.has_topics)?;
    }
    Ok(list)
}
