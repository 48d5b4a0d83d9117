//! Files counted as streams, in windows of a few bytes, and logs of files that are read in parallel,
//! compared with logs to which records are appended one by one.

ghost use Rattle.std.specs.Prelude.{◌≡◌, ◌<◌, List, None, length};
ghost use Rattle.ingest.specs.Counted.{CountsFile};
ghost use Rattle.ingest.specs.Reports.{AreInRange};
ghost use Rattle.key_index.specs.Keys.{Key};
ghost use Rattle.key_stream.specs.Tally.{HaveCounted};

use crate::options;
use byte_io::FromRead;
use command_line::Options;
use csv_ingest::{Wanted, read_keys};
use ingest::{count_file, file_records, logs_of};
use key_counts::{Merged, Merging};
use key_stream::{Counters, Counting};
use lane_words::{Memory, Refusal};
use partition_log::{LogRead, Logs};
use std::alloc::Global;
use std::hash::RandomState;
use std::random::RandomSource;
use std::test::Fail;
use std::thread::Threads;

/// Numbers of threads that count, and sizes of windows in bytes.
const STREAMS: [(usize, usize); 6] = [(1, 1), (1, 8), (2, 3), (3, 21), (4, 0), (4, 200)];

/// Adds a key and its count to a text.
fn add_count(text: &mut Vec<u8>, key: &[u8], count: u64) -> Result<(), Memory> {
    text.extend_from_slice(&(key.len() as u64).to_le_bytes())?;
    text.extend_from_slice(key)?;
    text.extend_from_slice(&count.to_le_bytes())?;
    Ok(())
}

/// How many of these key numbers are this one.
fn occurrences(ids: &[u32], id: u32) -> u64 {
    let mut count: u64 = 0;
    for other in ids {
        count = count.wrapping_add(u64::from(*other == id));
    }
    count
}

/// How often a key occurs in all logs.
fn occurrences_in(logs: &Logs, id: u32) -> u64 {
    let mut count: u64 = 0;
    for p in 0..logs.partitions() {
        count = count.wrapping_add(occurrences(logs.ids(p, 0, logs.len(p)), id));
    }
    count
}

/// The keys of logs and how often each occurs, in one text.
fn text_of_logs(alloc: Global, logs: &Logs) -> Result<Vec<u8>, Memory> {
    let mut text = Vec::new(alloc);
    for id in 0..logs.keys() {
        add_count(&mut text, logs.key(id), occurrences_in(logs, id))?;
    }
    Ok(text)
}

/// The logs of a file whose records are read and appended one by one.
fn logs_by_appends<R: Threads + Sync + RandomSource>(
    rt: &R,
    alloc: Global,
    file: &[u8],
    options: &Options,
) -> Result<Logs, Refusal>
    requires { AreInRange options.now }
{
    let keys = read_keys(
        alloc,
        file,
        options.delimiter,
        &Wanted::key(1),
        options.header,
    )?;
    let mut logs = Logs::new(rt, alloc, options.partitions)?;
    for key in &keys {
        logs.append(key.as_slice())?;
    }
    Ok(logs)
}

/// The keys of such a file and how often each occurs, in one text.
fn text_by_logs<R: Threads + Sync + RandomSource>(
    rt: &R,
    alloc: Global,
    file: &[u8],
    options: &Options,
) -> Result<Vec<u8>, Refusal>
    requires { AreInRange options.now }
{
    let logs = logs_by_appends(rt, alloc, file, options)?;
    Ok(text_of_logs(alloc, &logs)?)
}

/// Keys and their counts, in one text.
fn text_of_merged(alloc: Global, merged: &Merged<'_>) -> Result<Vec<u8>, Memory> {
    let mut text = Vec::new(alloc);
    for i in 0..merged.keys.len().min(merged.counts.len()) {
        add_count(&mut text, merged.keys[i], merged.counts[i])?;
    }
    Ok(text)
}

/// The keys that counters counted and how often each occurs, in one text, merged part by part.
fn text_of_parts(alloc: Global, merging: &Merging) -> Result<Vec<u8>, Memory>
    requires { merging.now.left ≡ length merging.now.ends }
{
    let mut text = Vec::new(alloc);
    for i in 0..merging.parts() {
        let merged = merging.part(alloc, i)?;
        let part = text_of_merged(alloc, &merged)?;
        text.extend_from_slice(part.as_slice())?;
    }
    Ok(text)
}

/// The same text of the whole, and whether that of the parts is equal.
fn text_of_merging(alloc: Global, merging: &Merging) -> Result<(Vec<u8>, bool), Memory>
    requires { merging.now.left ≡ length merging.now.ends }
{
    let merged = merging.all(alloc)?;
    let whole = text_of_merged(alloc, &merged)?;
    let alike = text_of_parts(alloc, merging)? == whole;
    Ok((whole, alike))
}

/// The keys of what counters counted and how often each occurs, in one text; nothing if the parts
/// have other keys or counts than the whole.
fn text_of_counters<R: Threads + Sync + RandomSource>(
    rt: &R,
    alloc: Global,
    hasher: RandomState,
    counters: Counters,
    skip: usize,
) -> Result<Vec<u8>, Memory>
    requires { (keys : List Key) × HaveCounted keys counters }
{
    let merging = counters.into_merging(rt, alloc, hasher, skip)?;
    let (whole, alike) = text_of_merging(alloc, &merging)?;
    if alike {
        Ok(whole)
    } else {
        Ok(Vec::new(alloc))
    }
}

/// The same of what was counted of a file.
fn text_of_counting<R: Threads + Sync + RandomSource>(
    rt: &R,
    alloc: Global,
    hasher: RandomState,
    counting: Counting,
    options: &Options,
) -> Result<Vec<u8>, Memory>
    requires { (left left2 : _) × CountsFile options.now left left2 counting None }
{
    let skip = usize::from(options.topics.len() != 0);
    let counters = Counters::of(alloc, counting)?;
    text_of_counters(rt, alloc, hasher, counters, skip)
}

/// The same of a file that this many threads count, in windows of this size.
fn text_by_stream<R: Threads + Sync + RandomSource>(
    rt: &R,
    alloc: Global,
    file: &[u8],
    options: &Options,
    stream: (usize, usize),
) -> Result<Vec<u8>, Refusal>
    requires { AreInRange options.now }
{
    let Ok(hasher) = RandomState::new(rt) else {
        return Err(Refusal::Memory);
    };
    let mut counting = Counting::new(alloc, hasher, stream.0, 1, false)?;
    // With an estimate the calling thread reads, and else one of its own.
    let mut source = FromRead::expecting(file, stream.1 % 2);
    match count_file(rt, alloc, &mut source, options, stream.1, &mut counting)? {
        None => Ok(text_of_counting(rt, alloc, hasher, counting, options)?),
        Some(refusal) => Err(refusal),
    }
}

/// Whether a file has the same counts, or the same fault, in all these ways.
fn is_counted_alike<R: Threads + Sync + RandomSource>(
    rt: &R,
    alloc: Global,
    file: &[u8],
    options: &Options,
) -> bool
    requires { AreInRange options.now }
{
    let whole = text_by_logs(rt, alloc, file, options);
    for stream in STREAMS {
        if text_by_stream(rt, alloc, file, options, stream) != whole {
            return false;
        }
    }
    true
}

/// Whether a file has the same counts where threads merge the entries of several workers.
fn is_merged_alike<R: Threads + Sync + RandomSource>(
    rt: &R,
    alloc: Global,
    file: &[u8],
    options: &Options,
) -> bool
    requires { AreInRange options.now }
{
    let whole = text_by_logs(rt, alloc, file, options);
    text_by_stream(rt, alloc, file, options, (4, 1 << 20)) == whole
}

/// The logs of a file that is read in parallel.
fn logs_by_records<R: Threads + Sync + RandomSource>(
    rt: &R,
    alloc: Global,
    file: &[u8],
    options: &Options,
) -> Result<Logs, Refusal>
    requires { AreInRange options.now }
{
    let mut source = FromRead::new(file);
    let records = file_records(rt, alloc, &mut source, options)?;
    logs_of(rt, alloc, &records, options)
}

/// Whether a file has the same logs, or the same fault, in both ways.
fn is_logged_alike<R: Threads + Sync + RandomSource>(
    rt: &R,
    alloc: Global,
    file: &[u8],
    options: &Options,
) -> bool
    requires { AreInRange options.now }
{
    let appended = logs_by_appends(rt, alloc, file, options);
    let read = logs_by_records(rt, alloc, file, options);
    match (appended, read) {
        (Ok(appended), Ok(read)) => appended.seal().same(rt, &read),
        (Err(fault), Err(other)) => fault == other,
        _ => false,
    }
}

/// Pseudo-random numbers, from a linear congruential generator.
#[derive(Drop)]
struct Random {
    state: u64,
}

impl Random {
    /// A number below a bound.
    fn below(&mut self, bound: u64) -> u64
        requires { 0 < bound }
        ensures { result < bound }
    {
        self.state = self
            .state
            .wrapping_mul(6_364_136_223_846_793_005)
            .wrapping_add(1_442_695_040_888_963_407);
        (self.state >> 33) % bound
    }
}

/// The pieces of text that files are made of. The last ones are bad records.
fn piece(n: u64) -> &'static str {
    match n {
        0..8 => "a,b\n",
        8..16 => "b,a\r\n",
        16..24 => "\"c\n,d\",b\n",
        24..32 => "\"e\"\"\n\"\"\",a\r",
        32..40 => "\n\r\n\n,b\n",
        40..48 => "k,a\n",
        48..56 => "\u{feff},\"b\"\n",
        56 => "g\n",
        57 => "h,i,j\n",
        _ => "k,\"",
    }
}

/// A file of drawn pieces.
fn file_of(alloc: Global, random: &mut Random, pieces: u64) -> Result<Vec<u8>, Memory> {
    let mut file = Vec::from_slice(alloc, b"\r\nk,b\n")?;
    for _ in 0..pieces {
        file.extend_from_slice(piece(random.below(59)).as_bytes())?;
    }
    Ok(file)
}

/// Whether a drawn file is counted alike.
fn is_drawn_alike<R: Threads + Sync + RandomSource>(
    rt: &R,
    alloc: Global,
    random: &mut Random,
) -> Result<bool, Memory> {
    let pieces = random.below(30);
    let file = file_of(alloc, random, pieces)?;
    let options = options(alloc, 4);
    let is_counted = is_counted_alike(rt, alloc, &file, &options);
    Ok(is_counted && is_logged_alike(rt, alloc, &file, &options))
}

#[test]
fn any_file_is_counted_alike(rt: HostRuntime) -> Result<(), Fail> {
    let mut random = Random { state: 1 };
    for _ in 0..60 {
        assert!(rt; is_drawn_alike(&rt, rt.alloc(), &mut random)?);
    }
    Ok(())
}

/// A file whose second record has a key of this length, with line feeds in it, and whose last has
/// these fields.
fn file_with_key(alloc: Global, len: usize, last: &[u8]) -> Result<Vec<u8>, Memory> {
    let mut file = Vec::from_slice(alloc, b"a,b\n\"")?;
    for _ in 0..len {
        file.push(b'\n')?;
    }
    file.extend_from_slice(b"\",b\na,c\n")?;
    file.extend_from_slice(last)?;
    Ok(file)
}

/// Whether such a file is counted alike.
fn is_key_alike<R: Threads + Sync + RandomSource>(
    rt: &R,
    alloc: Global,
    len: usize,
    last: &[u8],
) -> Result<bool, Memory> {
    let file = file_with_key(alloc, len, last)?;
    let options = options(alloc, 4);
    let is_counted = is_counted_alike(rt, alloc, &file, &options);
    Ok(is_counted && is_logged_alike(rt, alloc, &file, &options))
}

#[test]
fn long_keys_are_counted_alike(rt: HostRuntime) -> Result<(), Fail> {
    for len in [22, 23, 65_535, 65_536] {
        for last in [b"a,d\n", b"a,\"d", b"a\na\n"] {
            assert!(rt; is_key_alike(&rt, rt.alloc(), len, last)?);
        }
    }
    Ok(())
}

/// Adds a record, whose key has so many letters.
fn add_letters(file: &mut Vec<u8>, random: &mut Random, letters: u32) -> Result<(), Memory> {
    for _ in 0..letters {
        file.push(b'a' + random.below(20) as u8)?;
    }
    file.push(b'\n')?;
    Ok(())
}

/// A file of this many records, most of whose keys several threads meet.
fn file_of_many_keys(
    alloc: Global,
    random: &mut Random,
    letters: u32,
    records: u32,
) -> Result<Vec<u8>, Memory> {
    let mut file = Vec::new(alloc);
    for _ in 0..records {
        add_letters(&mut file, random, letters)?;
    }
    Ok(file)
}

#[test]
fn many_keys_are_counted_alike(rt: HostRuntime) -> Result<(), Fail> {
    let mut random = Random { state: 3 };
    let file = file_of_many_keys(rt.alloc(), &mut random, 3, 10_000)?;
    assert!(rt; is_counted_alike(&rt, rt.alloc(), &file, &options(rt.alloc(), 4)));
    Ok(())
}

#[test]
fn many_entries_are_merged_alike(rt: HostRuntime) -> Result<(), Fail> {
    let mut random = Random { state: 4 };
    // Each worker meets some 87,000 of 160,000 keys, so that most are met by several.
    let file = file_of_many_keys(rt.alloc(), &mut random, 4, 500_000)?;
    assert!(rt; is_merged_alike(&rt, rt.alloc(), &file, &options(rt.alloc(), 4)));
    Ok(())
}

#[test]
fn several_chunks_are_logged_alike(rt: HostRuntime) -> Result<(), Fail> {
    let mut random = Random { state: 5 };
    for records in [3_000, 10_000, 1_500_000] {
        let file = file_of_many_keys(rt.alloc(), &mut random, 3, records)?;
        assert!(rt; is_logged_alike(&rt, rt.alloc(), &file, &options(rt.alloc(), 4)));
    }
    Ok(())
}
