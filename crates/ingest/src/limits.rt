//! The limits on records that are counted and not kept.

ghost use Rattle.std.specs.Prelude.{◌≡◌, ◌<◌, ◌*◌, ◌∷◌, [], false, IfNone, IfOk, OnOk, None, Some, if◌then◌else◌, length};
ghost use Rattle.std.specs.List.{sum};
ghost use Rattle.key_counts.specs.Counts.{total_of};
ghost use Rattle.key_stream.specs.Rounds.{entries_in};
ghost use Rattle.partitioner.specs.Place.{AreCounts};
ghost use Rattle.ingest.specs.Limits.{AreEntriesOfTopics, BeginsAfter, ChecksKeys, GoesOn, is_too_long, record_taken, records_taken};
ghost use Rattle.ingest.specs.Private.Limits.{Adds, fault_at, has_long_key, have_long_keys, long_fault_of, no_records, raised, with_one};
ghost use Rattle.ingest.specs.Private.LimitLaws.{checks-more, checks-nothing};
ghost use Rattle.ingest.specs.Records.{AreOfTopics, partition_of_record};
ghost use Rattle.key_index.specs.Keys.{Key};

use csv_ingest::KeySink;
use key_counts::KeyCounts;
use key_stream::Worker;
use lane_words::{LONGEST_KEY, MOST_RECORDS, Memory, Refusal};
use partitioner::Partitions;
use std::alloc::Global;
use std::marker::Model;

/// Finds the first record that can't be appended, by the numbers of records alone.
#[derive(Debug, Drop)]
pub struct LimitCheck {
    /// The allocator of what is put before a key.
    alloc: Global,
    /// The number of partitions of each topic.
    partitions: Partitions,
    /// Whether each key stands behind the index of its topic.
    has_topics: bool,
    /// How many records each partition has. They are not read once there is a fault.
    lens: Vec<u64>,
    /// Why the first record that can't be appended can't.
    fault: Option<Refusal>,
}

impl Model for LimitCheck {
    ghost use Rattle.std.specs.Prelude.{◌≡◌, length};
    ghost use Rattle.std.specs.List.{sum};
    ghost use Rattle.ingest.specs.Limits.{Limits};

    ghost Value = { Limits };

    ghost view = { λ s. record {
      counts = s.partitions;
      has_topics = s.has_topics;
      lens = s.lens.items;
      fault = s.fault;
    } };

    ghost invariant = { λ s. length s.lens.items ≡ sum s.partitions };
}

/// The topic and the key of the record of a key that was read.
fn record_of(key: &[u8], has_topics: bool) -> (u8, &[u8])
    ensures topic { result.0 ≡ (record_taken has_topics key.now).0 }
    ensures key { result.1.now ≡ (record_taken has_topics key.now).1 }
{
    if has_topics && !key.is_empty() {
        (key[0], &key[1..])
    } else {
        (0, key)
    }
}

/// Adds a record to its partition, or tells why it can't be appended.
fn append(partitions: &Partitions, lens: &mut Vec<u64>, topic: u8, key: &[u8]) -> Option<Refusal>
    requires topic { topic < length partitions.now }
    requires lens { length lens.old.items ≡ sum partitions.now }
    ensures len { length lens.new.items ≡ length lens.old.items }
    ensures range { partition_of_record partitions.now (topic, key.now) < sum partitions.now }
    ensures fault { result ≡ fault_at partitions.now lens.old.items (topic, key.now) }
    ensures none { IfNone result (lens.new.items
        ≡ with_one lens.old.items (partition_of_record partitions.now (topic, key.now))) }
{
    let p = partitions.place_in(topic, key) as usize;
    if key.len() > LONGEST_KEY {
        return Some(Refusal::KeyTooLong);
    }
    if lens[p] >= MOST_RECORDS as u64 {
        return Some(Refusal::LogFull);
    }
    lens[p] += 1;
    None
}

/// Adds records to a partition.
fn raise(lens: &mut Vec<u64>, p: usize, records: u64)
    requires { p < length lens.old.items }
    ensures lens { lens.new.items ≡ raised lens.old.items p records }
    ensures len { length lens.new.items ≡ length lens.old.items }
{
    lens[p] = lens[p].saturating_add(records);
}

/// The fault, if a key is too long.
fn fault_with(fault: Option<Refusal>, key: &[u8]) -> Option<Refusal>
    ensures { result ≡ (if is_too_long key.now then Some Refusal.KeyTooLong else fault) }
{
    if key.len() > LONGEST_KEY {
        Some(Refusal::KeyTooLong)
    } else {
        fault
    }
}

/// Whether the record of a key that was read has too long a key.
fn has_long_key(key: &[u8], has_topics: bool) -> bool
    ensures { result ≡ has_long_key has_topics key.now }
{
    let (_, key) = record_of(key, has_topics);
    key.len() > LONGEST_KEY
}

/// The same, of a worker's entries.
fn have_long_keys(worker: &KeyCounts, has_topics: bool) -> bool
    ensures { result ≡ have_long_keys has_topics worker.now.keys }
{
    if worker.longest() <= LONGEST_KEY {
        return false;
    }
    for code in 0..worker.len() {
        if has_long_key(worker.key(code), has_topics) {
            return true;
        }
    }
    false
}

/// The fault, if a key of the workers' entries is too long.
pub fn long_fault(workers: &[Worker], has_topics: bool) -> Option<Refusal>
    ensures { result ≡ long_fault_of has_topics (entries_in workers.now) }
{
    for worker in workers {
        if have_long_keys(worker.counter.counts(), has_topics) {
            return Some(Refusal::KeyTooLong);
        }
    }
    None
}

impl LimitCheck {
    /// No records.
    fn new(alloc: Global, partitions: Partitions, has_topics: bool) -> Result<LimitCheck, Memory>
        ensures { IfOk result (λ check. check ≡ no_records partitions has_topics) }
    {
        Ok(LimitCheck {
            alloc,
            partitions,
            has_topics,
            lens: vec![in alloc; 0u64; partitions.count() as usize]?,
            fault: None,
        })
    }

    /// The limits after the records that workers counted, with these numbers of partitions of each
    /// topic.
    pub fn of(
        alloc: Global,
        counts: &[u32],
        has_topics: bool,
        workers: &[Worker],
    ) -> Result<LimitCheck, Memory>
        requires counts { AreCounts counts.now }
        requires topics { AreEntriesOfTopics counts.now has_topics (entries_in workers.now) }
        ensures state { IfOk result (BeginsAfter counts.now has_topics (entries_in workers.now)) }
        ensures same_counts { IfOk result (λ check. check.counts ≡ counts.now) }
        ensures same_topics { IfOk result (λ check. check.has_topics ≡ has_topics) }
    {
        let mut check = LimitCheck::new(alloc, Partitions::with_topics(counts), has_topics)?;
        for worker in workers {
            check.add_entries(worker.counter.counts());
        }
        Ok(check)
    }

    /// Adds the records of an entry.
    fn add_entry(&mut self, key: &[u8], records: u64)
        requires { (record_taken self.old.has_topics key.now).0 < length self.old.counts }
        ensures { Adds self.old (λ f. records * f key.now)
            (has_long_key self.old.has_topics key.now) self.new }
    {
        let (topic, key) = record_of(key, self.has_topics);
        let p = self.partitions.place_in(topic, key) as usize;
        raise(&mut self.lens, p, records);
        self.fault = fault_with(self.fault, key);
    }

    /// Adds the records of a worker's entries.
    fn add_entries(&mut self, worker: &KeyCounts)
        requires { AreOfTopics self.old.counts
            (records_taken self.old.has_topics worker.now.keys) }
        ensures { Adds self.old (λ f. total_of f worker.now)
            (have_long_keys self.old.has_topics worker.now.keys) self.new }
    {
        for code in 0..worker.len() {
            self.add_entry(worker.key(code), worker.count(code));
        }
    }

    /// Goes on with the record of a key, unless its topic is none of those that there are.
    fn take_one(&mut self, topic: u8, key: &[u8])
        ensures state { (item : Key) → record_taken self.old.has_topics item ≡ (topic, key.now)
            → topic < length self.old.counts → GoesOn self.old (item ∷ []) self.new }
        ensures same_counts { self.new.counts ≡ self.old.counts }
        ensures same_topics { self.new.has_topics ≡ self.old.has_topics }
    {
        if topic as usize >= self.partitions.topics() {
            return;
        }
        if self.fault.is_none() {
            self.fault = append(&self.partitions, &mut self.lens, topic, key);
        }
    }

    /// Goes on with the record of a key that has a byte before it.
    fn take_behind(&mut self, index: u8, key: &[u8]) -> Result<(), Memory>
        requires { self.old.has_topics ≡ false }
        ensures { OnOk result (ChecksKeys self.old ((index ∷ key.now) ∷ []) self.new) }
    {
        let mut item = Vec::with_capacity(self.alloc, key.len().saturating_add(1))?;
        item.push(index)?;
        item.extend_from_slice(key)?;
        self.take_one(0, item.as_slice());
        Ok(())
    }

    /// Why the first record that can't be appended can't, if there is one.
    pub fn fault(&self) -> Option<Refusal>
        ensures { result ≡ self.now.fault }
    {
        self.fault
    }
}

/// Goes on with the records of keys that are read, as far as they are of its topics.
impl KeySink for LimitCheck {
    ghost Takes = { λ a keys b. ChecksKeys a keys b };

    fn take(&mut self, topic: Option<u8>, key: &[u8]) -> Result<(), Memory> {
        let Some(index) = topic else {
            let (topic, key) = record_of(key, self.has_topics);
            self.take_one(topic, key);
            return Ok(());
        };
        if !self.has_topics {
            return self.take_behind(index, key);
        }
        self.take_one(index, key);
        Ok(())
    }

    ghost takes_nothing = { checks-nothing };

    ghost takes_more = { λ a b c first second x y. checks-more a b c first second x y };
}
