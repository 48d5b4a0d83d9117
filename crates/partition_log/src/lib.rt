//! Append-only logs of keyed records, one for each partition.
//!
//! It promises:
//! - An append adds the record at the end of its log and changes nothing else, or returns the first
//!   refusal that applies, in a fixed order, and changes nothing.
//! - `of_taken` makes the logs of records that workers took, in parallel: those that appends of the
//!   same records make.
//! - A law: over all logs of a list of records, each key occurs as often as in the list.
//!
//! Tests: `log_tests`.
#![tactic(auto)]

ghost use Rattle.std.specs.Prelude.{◌≡◌, ◌<◌, ◌≤◌, ◌↔◌, ◌++◌, ◌∷◌, [], ℕ, Ok, Err, List, map, length, vec_items, vec_len, slice_set, slice_range, replicate, slice_index_or, IfOk, IsTrue, OnOk, OnErr, if◌then◌else◌};
ghost use Rattle.std.specs.List.{sum};
ghost use Rattle.lane_words.specs.Answers.{Answers};
ghost use Rattle.lane_words.specs.declared.Refusal.TheVariants as refusal;
ghost use Rattle.partition_log.specs.Appends.{GrowByRecords, GrowsByKeyAt};
ghost use Rattle.partition_log.specs.Keys.{key_at, of_first, with_key};
ghost use Rattle.partition_log.specs.Private.Appends.{log_answer, with_id, with_id_at};
ghost use Rattle.partition_log.specs.Logs.{AreCounts, AreLogsOf, IsOfTopic, IsPlaceOf, IsValidLogs, PartitionLogs, answer_at, append_answer, log_at, place_in, with_record, with_record_at};

mod laws;
mod places;
mod sealed;
mod shares;
mod tables;
mod taken;

use key_index::KeyDictionary;
use lane_words::{LONGEST_KEY, MOST_PARTITIONS, MOST_RECORDS, Memory, Refusal};
pub use laws::each_record_is_in_one_log;
use parallel::copy_lists;
use partitioner::Partitions;
use rayon::prelude::*;
pub use sealed::SealedLogs;
use std::alloc::Global;
use std::marker::Model;
use std::random::RandomSource;
use std::thread::Threads;
pub use taken::TakenRecords;

/// Append-only logs of keyed records, one for each of 1 to 4096 partitions of 1 to 8 topics.
///
/// Partitions are numbered over all topics: those of a topic follow those of the topics before it.
/// Keys are numbered from 0 over all topics, in the order of first appearance. A record is a key in
/// a topic; its log stores the number of its key. A key has 0 to 65,535 bytes of any value. A log
/// holds up to 4,294,967,295 records, and there are up to 4,294,967,295 keys.
#[derive(Drop)]
pub struct Logs {
    /// The number of partitions of each topic.
    partitions: Partitions,
    /// The keys of all logs.
    keys: KeyDictionary,
    /// The records of each log, as key numbers.
    logs: Vec<Vec<u32>>,
}

impl Model for Logs {
    ghost use Rattle.partition_log.specs.Logs.{IsValidLogs, PartitionLogs};
    ghost use Rattle.partition_log.specs.View.{logs_view};

    ghost Value = { PartitionLogs };

    ghost view = { logs_view };

    ghost invariant = { λ l. IsValidLogs (logs_view l) };
}

/// Logs that can be read.
pub trait LogRead {
    // The present contents.
    ghost contents: { Self → PartitionLogs };

    /// The number of partitions.
    fn partitions(&self) -> u32
        ensures count { result ≡ (contents self.now).partitions }
        ensures valid { IsValidLogs (contents self.now) };

    /// The number of records in the log of partition `p`, which is the offset of its next record.
    fn len(&self, p: u32) -> u32
        requires { p < (contents self.now).partitions }
        ensures { result ≡ length (log_at (contents self.now) p) };

    /// The key numbers of the records of partition `p` with offsets from `from` up to but not
    /// including `to`.
    fn ids(&self, p: u32, from: u32, to: u32) -> &[u32]
        requires partition { p < (contents self.now).partitions }
        requires range { (from ≤ to) × (to ≤ length (log_at (contents self.now) p)) }
        ensures ids { result.now ≡ slice_range (log_at (contents self.now) p) from to }
        ensures valid { IsValidLogs (contents self.now) };

    /// The key with this number.
    fn key(&self, id: u32) -> &[u8]
        requires { id < length (contents self.now).keys }
        ensures { result.now ≡ key_at (contents self.now).keys id };

    /// The number of keys.
    fn keys(&self) -> u32
        ensures { result ≡ length (contents self.now).keys };
}

impl LogRead for Logs {
    ghost contents = { λ l. l };

    fn partitions(&self) -> u32 {
        self.partitions.count()
    }

    fn len(&self, p: u32) -> u32 {
        self.logs[p as usize].len() as u32
    }

    fn ids(&self, p: u32, from: u32, to: u32) -> &[u32] {
        &self.logs[p as usize][from as usize..to as usize]
    }

    fn key(&self, id: u32) -> &[u8] {
        self.keys.key(id)
    }

    fn keys(&self) -> u32 {
        self.keys.count()
    }
}

impl Logs {
    /// Empty logs of a single topic with this many partitions. Fails if memory runs out, or if the
    /// random source fails that the hash seeds of the keys are drawn from.
    pub fn new(rt: &impl RandomSource, alloc: Global, partitions: u32) -> Result<Logs, Memory>
        requires { (1 ≤ partitions) × (partitions ≤ MOST_PARTITIONS) }
        ensures counts { IfOk result (λ logs. logs.counts ≡ partitions ∷ []) }
        ensures partitions { IfOk result (λ logs. logs.partitions ≡ partitions) }
        ensures empty { IfOk result (AreLogsOf []) }
        ensures valid { IfOk result IsValidLogs }
    {
        Logs::of(rt, alloc, Partitions::new(partitions))
    }

    /// Empty logs of topics with these numbers of partitions. Fails as `new` does.
    pub fn with_topics(
        rt: &impl RandomSource,
        alloc: Global,
        counts: &[u32],
    ) -> Result<Logs, Memory>
        requires { AreCounts counts.now }
        ensures counts { IfOk result (λ logs. logs.counts ≡ counts.now) }
        ensures partitions { IfOk result (λ logs. logs.partitions ≡ sum counts.now) }
        ensures empty { IfOk result (AreLogsOf []) }
        ensures valid { IfOk result IsValidLogs }
    {
        Logs::of(rt, alloc, Partitions::with_topics(counts))
    }

    /// Empty logs of these partitions.
    fn of(rt: &impl RandomSource, alloc: Global, partitions: Partitions) -> Result<Logs, Memory>
        ensures counts { IfOk result (λ logs. logs.counts ≡ partitions) }
        ensures partitions { IfOk result (λ logs. logs.partitions ≡ sum partitions) }
        ensures empty { IfOk result (AreLogsOf []) }
        ensures valid { IfOk result IsValidLogs }
    {
        let keys = KeyDictionary::new(rt, alloc)?;
        let logs = empty_logs(alloc, partitions.count() as usize)?;
        Ok(Logs {
            partitions,
            keys,
            logs,
        })
    }

    /// The number of topics.
    pub fn topics(&self) -> usize
        ensures topics { result ≡ length self.now.counts }
        ensures valid { IsValidLogs self.now }
    {
        self.partitions.topics()
    }

    /// The keys, by their numbers.
    pub fn dictionary(&self) -> &KeyDictionary
        ensures { result.now ≡ self.now.keys }
    {
        &self.keys
    }

    /// The partition of a key, appended or not, in the first topic. It allocates nothing.
    pub fn place_of(&self, key: &[u8]) -> u32
        ensures partition { result ≡ place_in self.now (of_first key.now) }
        ensures topic { IsPlaceOf self.now key.now result }
        ensures bound { result < self.now.partitions }
    {
        // Reading a field makes the invariant available: there is a first topic.
        let _ = &self.partitions;
        self.place_of_in(0, key)
    }

    /// The same in the topic with this index. Partitions are numbered over all topics.
    pub fn place_of_in(&self, topic: u8, key: &[u8]) -> u32
        requires { IsOfTopic self.now (topic, key.now) }
        ensures partition { result ≡ place_in self.now (topic, key.now) }
        ensures topic { IsPlaceOf self.now key.now result }
        ensures bound { result < self.now.partitions }
    {
        self.partitions.place_in(topic, key)
    }

    /// Appends a record of this key to the first topic, and returns its partition and offset.
    ///
    /// Refused, with nothing changed: a key longer than 65,535 bytes (`KeyTooLong`); a full log, or
    /// a new key when the keys are at their limit (`LogFull`); out of memory (`Memory`). A key that
    /// is already interned takes four bytes of its log.
    pub fn append(&mut self, key: &[u8]) -> Result<(u32, u32), Refusal>
        ensures answer { Answers (append_answer self.old (of_first key.now)) result }
        ensures ok { OnOk result (self.new ≡ with_record self.old (of_first key.now)) }
        ensures err { OnErr result (self.new ≡ self.old) }
        ensures valid { OnOk result (IsValidLogs self.new) }
        ensures history { OnOk result
            (GrowByRecords (of_first key.now ∷ []) self.old self.new) }
    {
        // Reading a field makes the invariant available: there is a first topic.
        let _ = &self.partitions;
        self.append_in(0, key)
    }

    /// The same, to the topic with this index. Partitions are numbered over all topics.
    pub fn append_in(&mut self, topic: u8, key: &[u8]) -> Result<(u32, u32), Refusal>
        requires { IsOfTopic self.old (topic, key.now) }
        ensures answer { Answers (append_answer self.old (topic, key.now)) result }
        ensures ok { OnOk result (self.new ≡ with_record self.old (topic, key.now)) }
        ensures err { OnErr result (self.new ≡ self.old) }
        ensures valid { OnOk result (IsValidLogs self.new) }
        ensures history { OnOk result
            (GrowByRecords ((topic, key.now) ∷ []) self.old self.new) }
    {
        let place = self.place_of_in(topic, key);
        self.append_at(place, key)
    }

    /// The same, to the partition that some topic assigns to the key.
    pub fn append_at(&mut self, place: u32, key: &[u8]) -> Result<(u32, u32), Refusal>
        requires { IsPlaceOf self.old key.now place }
        ensures answer { Answers (answer_at self.old place key.now) result }
        ensures ok { OnOk result (self.new ≡ with_record_at self.old place key.now) }
        ensures err { OnErr result (self.new ≡ self.old) }
        ensures valid { OnOk result (IsValidLogs self.new) }
        ensures history { OnOk result (GrowsByKeyAt key.now place self.old self.new) }
    {
        if key.len() > LONGEST_KEY {
            return Err(Refusal::KeyTooLong);
        }
        let offset = append_id(&mut self.keys, &mut self.logs, place as usize, key)?;
        Ok((place, offset))
    }

    /// Drops the logs, many keys on several threads.
    pub fn drop_parallel<R: Threads + Sync>(self, rt: &R) {
        let Logs { keys, .. } = self;
        keys.drop_parallel(rt);
    }

    /// The same logs, now read-only. It allocates nothing.
    pub fn seal(self) -> SealedLogs
        ensures same { result ≡ self }
        ensures valid { IsValidLogs self }
    {
        SealedLogs { logs: self }
    }

    /// Whether both logs are equal.
    fn same<R: Threads + Sync>(&self, rt: &R, other: &Logs) -> bool
        ensures { IsTrue result ↔ (self.now ≡ other.now) }
    {
        self.partitions.same(&other.partitions)
            && self.keys.same(rt, &other.keys)
            && same_logs(rt, &self.logs, &other.logs)
    }

    /// An equal copy, with hash seeds of its own.
    fn copy<R: Threads + Sync + RandomSource>(&self, rt: &R, alloc: Global) -> Result<Logs, Memory>
        ensures value { IfOk result (λ logs. logs ≡ self.now) }
        ensures valid { IfOk result IsValidLogs }
    {
        let keys = self.keys.copy(rt)?;
        let logs = copy_lists(rt, alloc, self.logs.as_slice())?;
        Ok(Logs {
            partitions: self.partitions,
            keys,
            logs,
        })
    }
}

/// Empty logs.
fn empty_logs(alloc: Global, count: usize) -> Result<Vec<Vec<u32>>, Memory>
    ensures { IfOk result (λ logs. map vec_items logs.items ≡ replicate count []) }
{
    let mut logs = Vec::with_capacity(alloc, count)?;
    for _ in 0..count {
        logs.push(Vec::new(alloc))?;
    }
    Ok(logs)
}

/// Whether logs have the same key numbers. They are compared in parallel.
fn same_logs<R: Threads + Sync>(rt: &R, logs: &[Vec<u32>], others: &[Vec<u32>]) -> bool
    ensures { IsTrue result ↔ (map vec_items logs.now ≡ map vec_items others.now) }
{
    logs.len() == others.len()
        && (0..logs.len()).into_par_iter().all(
            rt,
            |p: usize| -> bool
                requires { (p < length logs.now) × (p < length others.now) }
                ensures { IsTrue result
                    ↔ (slice_index_or (map vec_items logs.entry.now) p []
                    ≡ slice_index_or (map vec_items others.entry.now) p []) }
            { same_log(logs, others, p) },
        )
}

/// Whether the logs of this index have the same key numbers.
fn same_log(logs: &[Vec<u32>], others: &[Vec<u32>], p: usize) -> bool
    requires within { p < length logs.now }
    requires within_others { p < length others.now }
    ensures { IsTrue result ↔ (slice_index_or (map vec_items logs.now) p []
        ≡ slice_index_or (map vec_items others.now) p []) }
{
    logs[p] == others[p]
}

/// Appends the number of a key, interned if new, to the log of this index. Returns its offset.
fn append_id(
    keys: &mut KeyDictionary,
    logs: &mut Vec<Vec<u32>>,
    place: usize,
    key: &[u8],
) -> Result<u32, Refusal>
    requires { place < vec_len logs.old }
    ensures answer { Answers
        (log_answer keys.old (slice_index_or (map vec_items logs.old.items) place []) key.now)
        result }
    ensures keys { OnOk result (keys.new ≡ with_key keys.old key.now) }
    ensures logs { OnOk result (map vec_items logs.new.items
        ≡ with_id_at keys.old (map vec_items logs.old.items) place key.now) }
    ensures same_keys { OnErr result (keys.new ≡ keys.old) }
    ensures same_logs { OnErr result (map vec_items logs.new.items ≡ map vec_items logs.old.items) }
{
    let log = &mut logs[place];
    push_id(keys, log, key)
}

/// Appends the number of a key to this log, and returns its offset.
fn push_id(keys: &mut KeyDictionary, log: &mut Vec<u32>, key: &[u8]) -> Result<u32, Refusal>
    ensures answer { Answers (log_answer keys.old log.old.items key.now) result }
    ensures keys { OnOk result (keys.new ≡ with_key keys.old key.now) }
    ensures log { OnOk result (log.new.items ≡ with_id keys.old log.old.items key.now) }
    ensures same_keys { OnErr result (keys.new ≡ keys.old) }
    ensures same_log { OnErr result (log.new.items ≡ log.old.items) }
{
    let offset = log.len();
    if offset >= MOST_RECORDS as usize {
        return Err(Refusal::LogFull);
    }
    if let Some(number) = keys.find(key)? {
        log.push(number)?;
        return Ok(offset as u32);
    }
    if keys.count() >= MOST_RECORDS {
        return Err(Refusal::LogFull);
    }
    log.reserve(1)?;
    let number = keys.add(key)?;
    log.push_reserved(number);
    Ok(offset as u32)
}
