//! The records of a file, and their logs.

ghost use Rattle.std.specs.Prelude.{◌≡◌, ◌+◌, Ok, true, IfOk, IfErr, IfSome};
ghost use Rattle.byte_io.specs.Devices.{CanStillFail};
ghost use Rattle.partition_log.specs.Logs.{AreLogsOf, IsValidLogs};
ghost use Rattle.partition_log.specs.Taken.{AreTaken, taken_records};
ghost use Rattle.ingest.specs.Counted.{AreReadFor, CountsFile, IsReadFrom};
ghost use Rattle.ingest.specs.RecordFaults.{TakesRecords};
ghost use Rattle.ingest.specs.Records.{AreLogsWith, partition_counts, records_in, records_of};
ghost use Rattle.ingest.specs.Reports.{AreInRange, IsFaultOf, IsNoStop, IsNoWrite, failed_reads};

use crate::counted::count_file;
use crate::reading::partition_counts;
use byte_io::Source;
use command_line::Options;
use key_counts::{KeyCounts, Segment};
use key_stream::{Counters, Counting};
use lane_words::{Memory, Refusal};
use parallel::{LEAST_BYTES, LEAST_DROPS, drop_each, processors};
use partition_log::{Logs, TakenRecords};
use std::alloc::Global;
use std::hash::RandomState;
use std::marker::Model;
use std::random::RandomSource;
use std::thread::Threads;

/// How many bytes of a file are read at once for each thread.
const WINDOW: usize = 1 << 20;

/// How many bytes of a file so many threads read at once.
pub fn window_for(workers: usize) -> usize {
    workers.saturating_mul(WINDOW)
}

/// The records read from a file: the keys that threads found, each mostly once, and of each record
/// four bytes.
#[derive(Drop)]
pub struct FileRecords {
    /// The entries of the threads, with the code of each record's entry.
    workers: Vec<KeyCounts>,
    /// The entries, in the order in which chunks brought them.
    segments: Vec<Segment>,
    /// The records, in the order of the chunks.
    chunks: Vec<Segment>,
    /// Whether each key stands behind the index of its topic.
    has_topics: bool,
    /// Why the first record that can't be appended can't.
    refusal: Option<Refusal>,
}

impl Model for FileRecords {
    ghost use Rattle.ingest.specs.Limits.{records_taken};
    ghost use Rattle.ingest.specs.Private.Records.{AreKept, keys_kept};
    ghost use Rattle.ingest.specs.Records.{ReadRecords};

    ghost Value = { ReadRecords };

    ghost view = { λ s. record {
      records = records_taken s.has_topics (keys_kept s.workers.items s.chunks.items);
      refusal = s.refusal;
    } };

    ghost invariant = { λ s. AreKept s.workers.items s.segments.items s.chunks.items };
}

impl FileRecords {
    /// The records of what was counted of a file, with the code of each.
    fn of(
        alloc: Global,
        counting: Counting,
        options: &Options,
        refusal: Option<Refusal>,
    ) -> Result<FileRecords, Memory>
        requires counted { (left left2 : _) × CountsFile options.now left left2 counting refusal }
        requires coded { counting.coded ≡ true }
        ensures { IfOk result (IsReadFrom options.now counting refusal) }
    {
        let Counters {
            workers,
            segments,
            chunks,
        } = Counters::of(alloc, counting)?;
        Ok(FileRecords {
            workers,
            segments,
            chunks,
            has_topics: !options.topics.as_slice().is_empty(),
            refusal,
        })
    }

    /// The records, by their codes.
    pub fn taken(&self) -> TakenRecords<'_>
        ensures valid { AreTaken result }
        ensures records { taken_records result ≡ self.now.records }
    {
        TakenRecords {
            workers: self.workers.as_slice(),
            segments: self.segments.as_slice(),
            chunks: self.chunks.as_slice(),
            has_topics: self.has_topics,
        }
    }

    /// Drops the records, many keys on several threads.
    pub fn drop_parallel<R: Threads + Sync>(self, rt: &R) {
        let FileRecords { workers, .. } = self;
        let mut entries: usize = 0;
        for w in 0..workers.len() {
            entries = entries.saturating_add(workers[w].len());
        }
        if entries >= LEAST_DROPS {
            drop_each(rt, workers);
        }
    }

    /// Why the first record that can't be appended can't, if there is one.
    fn refusal(&self) -> Option<Refusal>
        ensures { result ≡ self.now.refusal }
    {
        self.refusal
    }
}

/// Reads a file to its end and returns its records. A long file is parsed in parallel. Fails with
/// `ReadFailed` if a read failed, with the fault of the first bad record (`BadCsv`, `NoSuchColumn`,
/// `NoSuchTopic`), and with `Memory` if an allocation failed or the system had no random bytes.
pub fn file_records<R: Threads + Sync + RandomSource, S: Source>(
    rt: &R,
    alloc: Global,
    file: &mut S,
    options: &Options,
) -> Result<FileRecords, Refusal>
    requires source { CanStillFail (S.failures file.old) }
    requires options { AreInRange options.now }
    ensures records { IfOk result (λ records. IfSome (S.left file.old)
        (λ bytes. records_of options.now bytes ≡ Ok (records_in records))) }
    ensures topics { IfOk result (AreReadFor options.now) }
    ensures fault { IfErr result (λ e. IfSome (S.left file.old)
        (λ bytes. IsFaultOf (records_of options.now bytes) e)) }
    ensures kind { IfErr result IsNoWrite }
    ensures unstopped { IfErr result IsNoStop }
    ensures reads { S.failures file.new ≡ S.failures file.old + failed_reads result }
{
    let Ok(hasher) = RandomState::new(rt) else {
        return Err(Refusal::Memory);
    };
    let workers = processors(rt);
    let mut counting = Counting::new(alloc, hasher, workers, LEAST_BYTES, true)?;
    match count_file(rt, alloc, file, options, window_for(workers), &mut counting) {
        Ok(refusal) => Ok(FileRecords::of(alloc, counting, options, refusal)?),
        Err(fault) => Err(fault),
    }
}

/// The logs of a file's records, in the order of the file. Fails with the fault of the first record
/// that can't be appended (`KeyTooLong`, `LogFull`), and with `Memory` if an allocation failed or
/// the system had no random bytes.
pub fn logs_of<R: Threads + Sync + RandomSource>(
    rt: &R,
    alloc: Global,
    records: &FileRecords,
    options: &Options,
) -> Result<Logs, Refusal>
    requires options { AreInRange options.now }
    requires topics { AreReadFor options.now records.now }
    ensures value { IfOk result
        (AreLogsWith (partition_counts options.now) (records_in records.now)) }
    ensures logs { IfOk result (AreLogsOf (records_in records.now)) }
    ensures counts { IfOk result (λ logs. logs.counts ≡ partition_counts options.now) }
    ensures valid { IfOk result IsValidLogs }
    ensures answer { TakesRecords (partition_counts options.now) (records_in records.now) result }
{
    if let Some(fault) = records.refusal() {
        return Err(fault);
    }
    let counts = partition_counts(alloc, options)?;
    Ok(Logs::of_taken(rt, alloc, counts.as_slice(), &records.taken())?)
}
