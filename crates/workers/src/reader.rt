//! How a member of a run reads: its consumer, and the logs that the run was given.

ghost use Rattle.std.specs.Prelude.{◌≡◌, ◌≤◌, IsTrue, length};
ghost use Rattle.bit_planes.specs.PartitionSet.{is_in, partitions_of};
ghost use Rattle.partition_log.specs.Logs.{log_at};
ghost use Rattle.consumer.specs.Consumer.{IsWithinLogs};
ghost use Rattle.workers.specs.Private.Reading.{BeginsWithin, IsLeaseOver, IsReplyWithin};

use crate::fault::Fault;
use bit_planes::Plane;
use consumer::Consumer;
use group_machine::{Commit, Lease};
use lane_words::{Memory, Refusal};
use partition_log::{LogRead, SealedLogs};
use std::alloc::Global;

/// A member's consumer and the logs that it reads. Invariant: no position is past its log's end.
#[derive(Drop)]
pub struct Reader<'a> {
    member: u32,
    logs: &'a SealedLogs,
    consumer: Consumer,
    ghost partitions: { logs.now.partitions ≡ consumer.partitions },
    ghost within: { IsWithinLogs consumer logs.now },
}

impl<'a> Reader<'a> {
    /// A reader for a member that holds no partition yet.
    pub fn new(alloc: Global, logs: &'a SealedLogs, member: u32) -> Result<Reader<'a>, Memory> {
        let mut consumer = Consumer::new(alloc, logs.partitions())?;
        consumer.joined(member);
        Ok(Reader {
            member,
            logs,
            consumer,
        })
    }

    /// Takes a lease. Fails with `Differs` if the lease does not fit the logs.
    pub fn take(&mut self, lease: &Lease) -> Result<(), Fault> {
        if !self.may_take(lease) {
            return Err(Fault::Differs);
        }
        self.consumer.take_lease(lease);
        Ok(())
    }

    /// Whether a lease is this member's, is over the same number of partitions as the logs, and
    /// starts at no offset past the end of a log.
    fn may_take(&self, lease: &Lease) -> bool
        ensures { IsTrue result → IsLeaseOver self.now.consumer self.now.logs.now lease.now }
    {
        self.consumer.member() == Some(lease.member())
            && lease.assigned().partitions() == self.logs.partitions()
            && begins_within(self.logs, lease)
    }

    /// Reads on in a partition by `polls` polls of at most `records` records each, if it is held,
    /// and returns how many records were read.
    pub fn read_on(&mut self, p: u32, polls: u32, records: u32) -> u32 {
        let mut read = 0_u32;
        for _ in 0..polls {
            read = read.saturating_add(self.poll(p, records));
        }
        read
    }

    /// Reads on in a partition by at most `records` records, if it is held, and returns how many
    /// were read.
    fn poll(&mut self, p: u32, records: u32) -> u32 {
        self.consumer.poll(self.logs, p, records).unwrap_or(0)
    }

    /// The commit of what is pending of a partition, if anything is.
    pub fn pending(&self, p: u32) -> Result<Option<Commit>, Memory> {
        match self.consumer.send(self.logs, p) {
            Ok(commit) => Ok(Some(commit)),
            Err(Refusal::Memory) => Err(Memory),
            Err(_) => Ok(None),
        }
    }

    /// Takes the reply to a commit of a partition. Fails with `Differs` if the committed offset in
    /// the reply is past the end of the log.
    pub fn learn(&mut self, p: u32, reply: Result<u32, Refusal>) -> Result<(), Fault> {
        if !is_reply_within(self.logs, p, &reply) {
            return Err(Fault::Differs);
        }
        self.consumer.answered(p, reply);
        Ok(())
    }

    /// The member's number.
    pub fn member(&self) -> u32 {
        self.member
    }

    /// The partitions of the last lease.
    pub fn claim(&self) -> Plane {
        self.consumer.claim()
    }

    /// The generation of the last lease.
    pub fn generation(&self) -> u32 {
        self.consumer.generation()
    }

    /// Whether a partition is held.
    pub fn holds(&self, p: u32) -> bool {
        self.consumer.holds(p)
    }

    /// Drops the held partitions that are not of the last lease.
    pub fn give_up(&mut self) {
        self.consumer.give_up();
    }
}

/// Whether a lease starts at no offset past the end of a log.
fn begins_within(logs: &SealedLogs, lease: &Lease) -> bool
    requires { partitions_of lease.now.assigned ≡ logs.now.partitions }
    ensures { IsTrue result → BeginsWithin lease.now logs.now }
{
    for p in lease.assigned().iter() {
        if lease.start(p) > logs.len(p) {
            return false;
        }
    }
    true
}

/// Whether the committed offset in a reply, if any, is at most the end of the partition's log.
fn is_reply_within(logs: &SealedLogs, p: u32, reply: &Result<u32, Refusal>) -> bool
    ensures { IsTrue result → IsReplyWithin p reply.now logs.now }
{
    match reply {
        Ok(committed) => is_within(logs, p, *committed),
        Err(Refusal::OffsetMismatch { committed }) => is_within(logs, p, *committed),
        Err(_) => true,
    }
}

/// Whether an offset is at most the end of a partition's log; false past the last partition.
fn is_within(logs: &SealedLogs, p: u32, offset: u32) -> bool
    ensures { IsTrue result → offset ≤ length (log_at logs.now p) }
{
    p < logs.partitions() && offset <= logs.len(p)
}
