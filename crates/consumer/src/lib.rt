//! One consumer of a group: it reads the partitions that it holds and sends commits.
//!
//! - Each call is exactly the step that `specs/Consumer.antt` defines: what it returns and the
//!   state after it. A refusal is the first that applies, in order, and changes nothing.
//! - The invariant of `Consumer`: no base is past its position, and a consumer that is out of the
//!   group is the same as a new one.
//! - `send` makes the commit of exactly the log's records from the base to the position. Only `new`
//!   and `send` allocate.
//!
//! Tests: `cluster_tests` for single calls, `driver_tests` for schedules.
#![tactic(auto)]

ghost use Rattle.std.specs.Prelude.{◌≡◌, ◌≤◌, ℕ, Some, Ok, Err, IfOk, IfErr, OnOk, OnErr};
ghost use Rattle.lane_words.specs.Answers.{Answers};
ghost use Rattle.bit_planes.specs.PartitionSet.{is_in, partitions_of};
ghost use Rattle.consumer.specs.Private.Hold.{IsHold};
ghost use Rattle.consumer.specs.Consumer.{IsValidConsumer, IsWithinLogs, answered_by, base_of, given_up, held_at, hold_answer, is_held, joined_as, leased, out_of_group, poll_answer, polled, position_of, realigned, send_answer, sendable_answer};

mod held;

use bit_planes::Plane;
use group_machine::{Commit, Lease};
pub use held::Held;
use keyed_table::Partial;
use lane_words::{MOST_PARTITIONS, Memory, Refusal};
use partition_log::LogRead;
use std::alloc::Global;
use std::marker::Model;

/// The state of one consumer, as it knows it.
///
/// Each partition that it holds has a base and a position. Records below the base are known to be
/// committed, reading continues at the position, and the records between them are pending. This
/// takes at most 16 bytes a partition.
///
/// It can lag behind the cluster: a consumer that is lost goes on until a reply says so.
#[derive(Debug, Drop)]
pub struct Consumer {
    alloc: Global,
    partitions: u32,
    member: Option<u32>,
    generation: u32,
    assigned: Plane,
    held: Vec<Option<Held>>,
    /// The partitions that are held.
    holding: Plane,
}

impl Model for Consumer {
    ghost use Rattle.consumer.specs.Consumer.{ConsumerState};
    ghost use Rattle.consumer.specs.Private.View.{consumer_view, IsValidInside};

    ghost Value = { ConsumerState };

    ghost view = { consumer_view };

    ghost invariant = { IsValidInside };
}

impl Consumer {
    /// A consumer of 1 to 4096 partitions, out of the group. It fails only when out of memory; no
    /// other call but `send` allocates.
    pub fn new(alloc: Global, partitions: u32) -> Result<Consumer, Memory>
        requires { (1 ≤ partitions) × (partitions ≤ MOST_PARTITIONS) }
        ensures value { IfOk result (λ consumer. consumer ≡ out_of_group partitions) }
        ensures valid { IfOk result IsValidConsumer }
    {
        let held = vec![in alloc; None; partitions as usize]?;
        Ok(Consumer {
            alloc,
            partitions,
            member: None,
            generation: 0,
            assigned: Plane::new(partitions),
            held,
            holding: Plane::new(partitions),
        })
    }

    /// Records that it has joined as this member: it is in generation 0 and holds nothing.
    pub fn joined(&mut self, member: u32)
        ensures { self.new ≡ joined_as self.old member }
    {
        self.drop_all();
        self.member = Some(member);
    }

    /// Takes a lease of its member. It reads newly leased partitions from their committed offsets
    /// on, and holds all others until it gives them up.
    pub fn take_lease(&mut self, lease: &Lease)
        requires member { self.old.member ≡ Some lease.now.member }
        requires partitions { partitions_of lease.now.assigned ≡ self.old.partitions }
        ensures { self.new ≡ leased self.old lease.now }
    {
        held::lease(&mut self.held, &mut self.holding, lease);
        self.generation = lease.generation();
        self.assigned = lease.assigned().copy();
    }

    /// Reads at most `n` records of a partition from its position on. Returns the number read.
    ///
    /// Errors, which change nothing: it is out of the group (`OutOfGroup`); it does not hold the
    /// partition, or the partition does not exist (`NotHeld`).
    pub fn poll<L: LogRead>(&mut self, logs: &L, p: u32, n: u32) -> Result<u32, Refusal>
        requires partitions { (L.contents logs.now).partitions ≡ self.old.partitions }
        requires bound { IsWithinLogs self.old (L.contents logs.now) }
        ensures answer { result ≡ poll_answer self.old (L.contents logs.now) p n }
        ensures ok { OnOk result (self.new ≡ polled self.old (L.contents logs.now) p n) }
        ensures err { OnErr result (self.new ≡ self.old) }
    {
        let (_, held) = self.hold(p)?;
        let count = n.min(logs.len(p) - held.position);
        self.held[p as usize] = Some(Held {
            base: held.base,
            position: held.position + count,
        });
        Ok(count)
    }

    /// Whether a partition has pending records.
    ///
    /// Errors: it is out of the group (`OutOfGroup`); it does not hold the partition (`NotHeld`);
    /// nothing is pending (`EmptyCommit`).
    pub fn sendable(&self, p: u32) -> Result<(), Refusal>
        ensures { result ≡ sendable_answer self.now p }
    {
        self.pending(p)?;
        Ok(())
    }

    /// The commit of all pending records of a partition, by its member in the generation of its
    /// lease. It fails as `sendable` does, and when out of memory.
    pub fn send<L: LogRead>(&self, logs: &L, p: u32) -> Result<Commit, Refusal>
        requires partitions { (L.contents logs.now).partitions ≡ self.now.partitions }
        requires bound { IsWithinLogs self.now (L.contents logs.now) }
        ensures { Answers (send_answer self.now (L.contents logs.now) p) result }
    {
        let (member, held) = self.pending(p)?;
        let ids = Vec::from_slice(self.alloc, logs.ids(p, held.base, held.position))?;
        let partial = Partial::of(ids);
        Ok(Commit::new(member, self.generation, p, held.base, partial))
    }

    /// Takes the reply to a commit of this partition. If its member is unknown, it drops everything
    /// and is out of the group. If the reply has an offset, of an accepted commit or of a mismatch,
    /// the base becomes that offset, and so does the position if it is lower or if the base was
    /// past that offset. Any other reply changes nothing.
    pub fn answered(&mut self, p: u32, reply: Result<u32, Refusal>)
        ensures { self.new ≡ answered_by self.old p reply }
    {
        match reply {
            Ok(committed) => self.realign(p, committed),
            Err(Refusal::OffsetMismatch { committed }) => self.realign(p, committed),
            Err(Refusal::UnknownMember) => self.drop_all(),
            Err(_) => {}
        }
    }

    /// What it claims when it rejoins: the partitions of its last lease. None if it is out.
    pub fn claim(&self) -> Plane
        ensures value { result ≡ self.now.assigned }
        ensures valid { IsValidConsumer self.now }
    {
        self.assigned.copy()
    }

    /// Drops what it holds and is not assigned, with its pending records.
    pub fn give_up(&mut self)
        ensures { self.new ≡ given_up self.old }
    {
        held::give_up(&mut self.held, &mut self.holding, &self.assigned);
    }

    /// Drops everything and leaves the group.
    pub fn drop_all(&mut self)
        ensures { self.new ≡ out_of_group self.old.partitions }
    {
        self.member = None;
        self.generation = 0;
        self.assigned = Plane::new(self.partitions);
        self.held.fill(None);
        self.holding = Plane::new(self.partitions);
    }

    /// The number of partitions.
    pub fn partitions(&self) -> u32
        ensures value { result ≡ self.now.partitions }
        ensures valid { IsValidConsumer self.now }
    {
        self.partitions
    }

    /// Its member number; nothing if it is out.
    pub fn member(&self) -> Option<u32>
        ensures { result ≡ self.now.member }
    {
        self.member
    }

    /// The generation of its last lease; 0 before the first one, and if it is out.
    pub fn generation(&self) -> u32
        ensures { result ≡ self.now.generation }
    {
        self.generation
    }

    /// Whether it holds a partition.
    pub fn holds(&self, p: u32) -> bool
        ensures { result ≡ is_held self.now p }
    {
        self.held_at(p).is_some()
    }

    /// The partitions that it holds.
    pub fn holding(&self) -> &Plane
        ensures partitions { partitions_of result.now ≡ self.now.partitions }
        ensures elements { (p : ℕ) → is_in result.now p ≡ is_held self.now p }
        ensures valid { IsValidConsumer self.now }
    {
        &self.holding
    }

    /// The base of a partition: all records below it are known to be committed. It is 0 if the
    /// partition is not held.
    pub fn base(&self, p: u32) -> u32
        ensures { result ≡ base_of self.now p }
    {
        self.held_at(p).map_or(0, |held| held.base)
    }

    /// The offset of the next record to read; 0 if the partition is not held.
    pub fn position(&self, p: u32) -> u32
        ensures { result ≡ position_of self.now p }
    {
        self.held_at(p).map_or(0, |held| held.position)
    }

    /// The offsets of a partition, if it is held.
    fn held_at(&self, p: u32) -> Option<Held>
        ensures { result ≡ held_at self.now p }
    {
        match self.held.get(p as usize) {
            Some(held) => *held,
            None => None,
        }
    }

    /// Its member number, and the offsets of a partition that it holds.
    fn hold(&self, p: u32) -> Result<(u32, Held), Refusal>
        ensures value { IfOk result (IsHold self.now p) }
        ensures fault { IfErr result (λ why. hold_answer self.now p ≡ Err why) }
    {
        let Some(member) = self.member else {
            return Err(Refusal::OutOfGroup);
        };
        let Some(held) = self.held_at(p) else {
            return Err(Refusal::NotHeld);
        };
        Ok((member, held))
    }

    /// The same, if the partition has pending records.
    fn pending(&self, p: u32) -> Result<(u32, Held), Refusal>
        ensures value { IfOk result (IsHold self.now p) }
        ensures sendable { IfOk result (λ h. sendable_answer self.now p ≡ Ok tt) }
        ensures fault { IfErr result (λ why. sendable_answer self.now p ≡ Err why) }
    {
        let (member, held) = self.hold(p)?;
        if held.base == held.position {
            return Err(Refusal::EmptyCommit);
        }
        Ok((member, held))
    }

    /// Realigns a partition to an offset that is known to be committed.
    fn realign(&mut self, p: u32, committed: u32)
        ensures { self.new ≡ realigned self.old p committed }
    {
        if let Some(held) = self.held_at(p) {
            self.held[p as usize] = Some(held.realigned(committed));
        }
    }
}
