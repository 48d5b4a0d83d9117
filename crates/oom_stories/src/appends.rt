//! Stories of appends to logs, and of keys and their partitions.

use crate::stage::Stage;
use crate::state;
use anyhow::Result;
use partition_log::Logs;
use partitioner::Partitions;
use std::alloc::Global;
use std::io::Write;
use std::random::RandomSource;
use std::thread::Threads;

/// The number of keys in two chunks of work, and a few more.
const MANY: usize = 5_000;

/// New keys and interned ones. One key is too long to be stored in the key table itself, and one is
/// appended so often that its log grows again.
const KEYS: [&str; 15] = [
    "21",
    "4",
    "foobar",
    "abc",
    "21",
    "a key with memory of its own",
    "a key with memory of its own",
    "21",
    "21",
    "21",
    "21",
    "21",
    "21",
    "21",
    "21",
];

/// Appends records one by one, and prints the logs.
pub fn report_appends<R: RandomSource, W: Write>(rt: &R, stage: &mut Stage<W>) -> Result<()> {
    let mut logs = Logs::new(rt, stage.alloc, 4)?;
    report_appends_to(stage, &mut logs);
    Ok(())
}

/// Appends records to new logs.
fn report_appends_to<W: Write>(stage: &mut Stage<W>, logs: &mut Logs) {
    for key in &KEYS {
        stage.call(
            format_args!("append {key}"),
            logs,
            |logs| logs.append(key.as_bytes()),
        );
    }
    state::report_logs(stage, logs);
}

/// Finds the partitions of keys of two lengths.
pub fn report_partitions<R: Threads + Sync, W: Write>(rt: &R, stage: &mut Stage<W>) -> Result<()> {
    let keys: [&[u8]; 10] = [
        b"21", b"34", b"21", b"34", b"", b"21", b"34", b"21", b"34", b"21",
    ];
    report_partitions_of(rt, stage, &keys);
    Ok(())
}

/// Finds the partitions of the numbers from 0 on, more keys than one chunk of work has.
pub fn report_chunks<R: Threads + Sync, W: Write>(rt: &R, stage: &mut Stage<W>) -> Result<()> {
    let alloc = stage.alloc;
    let texts = numbers(alloc)?;
    let keys = keys_of(alloc, &texts)?;
    report_partitions_of(rt, stage, &keys);
    Ok(())
}

/// The texts of the numbers from 0 on.
fn numbers(alloc: Global) -> Result<Vec<String>> {
    let mut texts = Vec::with_capacity(alloc, MANY)?;
    for number in 0..MANY {
        texts.push(format!(in alloc; "{number}")?)?;
    }
    Ok(texts)
}

fn keys_of<'a>(alloc: Global, texts: &'a [String]) -> Result<Vec<&'a [u8]>> {
    let mut keys = Vec::with_capacity(alloc, texts.len())?;
    for text in texts {
        keys.push(text.as_bytes())?;
    }
    Ok(keys)
}

/// Finds the partitions of keys, among four.
fn report_partitions_of<R: Threads + Sync, W: Write>(rt: &R, stage: &mut Stage<W>, keys: &[&[u8]]) {
    let mut alloc = stage.alloc;
    let partitions = Partitions::new(4);
    stage.call("place_all", &mut alloc, |alloc| {
        Ok(partitions.place_all(rt, *alloc, keys)?)
    });
}
