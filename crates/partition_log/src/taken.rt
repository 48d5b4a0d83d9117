//! Logs of the records that workers took from a file.

ghost use Rattle.std.specs.Prelude.{◌≡◌, [], All, IfOk, OnOk};
ghost use Rattle.partition_log.specs.Appends.{AreAccepted, AreAppended, GrowByRecords, placed};
ghost use Rattle.partition_log.specs.Logs.{AreCounts, AreLogsOf, IsOfTopic, IsValidLogs};
ghost use Rattle.partition_log.specs.Private.Tables.{AreWithin};
ghost use Rattle.partition_log.specs.Taken.{AreLogsWith, AreOfTopics, AreTaken, empty_logs, taken_records};

use crate::Logs;
use crate::shares::logs_of_chunks;
use crate::tables::entry_tables;
use key_counts::{KeyCounts, Segment};
use lane_words::Memory;
use std::alloc::Global;
use std::random::RandomSource;
use std::thread::Threads;

/// Records that workers took.
#[derive(Clone, Copy)]
pub struct TakenRecords<'a> {
    /// The workers' entries, with the code of each record's entry.
    pub workers: &'a [KeyCounts],
    /// The entries, in the order in which chunks brought them.
    pub segments: &'a [Segment],
    /// The records, in the order of the chunks.
    pub chunks: &'a [Segment],
    /// Whether each key stands behind the index of its topic.
    pub has_topics: bool,
}

impl Logs {
    /// Logs of topics with these numbers of partitions, with a record of each that workers took, in
    /// their order. Each key is hashed and placed once for each of its entries. Fails with `Memory`
    /// if an allocation or the random source failed, and with more than `MOST_RECORDS` entries.
    pub fn of_taken<R: Threads + Sync + RandomSource>(
        rt: &R,
        alloc: Global,
        counts: &[u32],
        taken: &TakenRecords<'_>,
    ) -> Result<Logs, Memory>
        requires counts { AreCounts counts.now }
        requires taken { AreTaken taken.now }
        requires topics { AreOfTopics counts.now (taken_records taken.now) }
        requires accepted { AreAccepted (empty_logs counts.now)
            (placed (empty_logs counts.now) (taken_records taken.now)) }
        ensures value { IfOk result (AreLogsWith counts.now (taken_records taken.now)) }
        ensures logs { IfOk result (AreLogsOf (taken_records taken.now)) }
        ensures counts { IfOk result (λ logs. logs.counts ≡ counts.now) }
        ensures valid { IfOk result IsValidLogs }
    {
        let mut logs = Logs::with_topics(rt, alloc, counts)?;
        logs.fill(rt, alloc, taken)?;
        Ok(logs)
    }

    /// Fills empty logs with the records that workers took, all of which are accepted.
    fn fill<R: Threads + Sync>(
        &mut self,
        rt: &R,
        alloc: Global,
        taken: &TakenRecords<'_>,
    ) -> Result<(), Memory>
        requires empty { self.old.keys ≡ [] }
        requires taken { AreTaken taken.now }
        requires topics { All (IsOfTopic self.old) (taken_records taken.now) }
        requires accepted { AreAccepted self.old (placed self.old (taken_records taken.now)) }
        ensures ok { OnOk result
            (AreAppended self.old (placed self.old (taken_records taken.now)) self.new) }
        ensures history { OnOk result
            (GrowByRecords (taken_records taken.now) self.old self.new) }
        ensures valid { IsValidLogs self.new }
    {
        are_within(taken.workers);
        let (keys, tables) = entry_tables(rt, alloc, self, taken)?;
        let partitions = self.partitions.count() as usize;
        let logs = logs_of_chunks(rt, alloc, partitions, taken, &tables)?;
        self.keys.begin_with(keys);
        self.logs = logs;
        Ok(())
    }
}

/// The codes of records are those of entries.
fn are_within(workers: &[KeyCounts])
    ensures { AreWithin workers.now }
{
    for w in 0..workers.len() {
        let _codes = workers[w].codes();
    }
}
