//! The cluster: a group of members, the logs that they read, and the committed offsets and counts.

ghost use Rattle.std.specs.Prelude.{◌≡◌, ◌+◌, ◌≤◌, ◌∷◌, ℕ, [], Ok, Some, None, MatchOption, IfOk, IfSome, OnOk, OnErr, is_some, length, replicate};
ghost use Rattle.std.specs.List.{sum};
ghost use Rattle.lane_words.specs.Answers.{Answers};
ghost use Rattle.group_machine.specs.State.{assigned_of, granted_of, is_joined, is_kept, is_present, is_synced, member_named, member_of, members, name_of, opening, owner_of};
ghost use Rattle.group_machine.specs.Steps.{join_answer, joined_by, joined_static_by, leave_answer, left_by, rejoin_answer, rejoined_by, synced_by, take_over_answer, taken_over_by};
ghost use Rattle.group_machine.specs.Settled.{is_settled};
ghost use Rattle.group_machine.specs.Cluster.{AreCounts, AreLogsOf, ClusterState, GrowByRecords, GrowsByKeyAt, IsDue, IsOfTopic, IsPlaceOf, IsValidCluster, answer_at, append_answer, appended_at, appended_to, cluster_commit_answer, cluster_sync_answer, committed_at, committed_by, fence, of_first, with_group, without_capacity};

mod next_step;

use crate::commit::Commit;
use crate::group::{Group, Members, Move, Phase, Seat, members, slots};
use crate::lease::Lease;
use bit_planes::Plane;
use commit_store::Store;
use lane_words::{MOST_PARTITIONS, Memory, Refusal};
pub use next_step::NextStep;
use partition_log::{LogRead, Logs};
use partitioner::Name;
use std::alloc::Global;
use std::marker::Model;
use std::random::RandomSource;

/// One consumer group over partitioned logs: who reads which partition, and what is committed.
///
/// The group rebalances cooperatively (KIP-429), with the balance of Kafka's sticky assignor. After
/// each call no partition is granted to two present members, and the counter of each key is the
/// number of times that the key is in the records below the committed offsets.
#[derive(Drop)]
pub struct Cluster {
    alloc: Global,
    group: Group,
    logs: Logs,
    store: Store,
}

impl Model for Cluster {
    ghost use Rattle.group_machine.specs.Cluster.{ClusterState};
    ghost use Rattle.group_machine.specs.Private.ClusterView.{IsValidClusterInside, cluster_view};

    ghost Value = { ClusterState };

    ghost view = { cluster_view };

    ghost invariant = { IsValidClusterInside };
}

impl Cluster {
    /// A cluster of one topic with 1 to 4096 partitions, without members and records. It fails when
    /// out of memory, or if the random source, which seeds the hasher of the keys, fails.
    pub fn new(rt: &impl RandomSource, alloc: Global, partitions: u32) -> Result<Cluster, Memory>
        requires { (1 ≤ partitions) × (partitions ≤ MOST_PARTITIONS) }
        ensures group { IfOk result (λ cluster. cluster.group ≡ opening partitions) }
        ensures counts { IfOk result (λ cluster. cluster.logs.counts ≡ partitions ∷ []) }
        ensures logs { IfOk result (λ cluster. AreLogsOf [] cluster.logs) }
        ensures counters { IfOk result (λ cluster. cluster.store.counts ≡ []) }
        ensures capacity { IfOk result (λ cluster. cluster.store.capacity ≡ 0) }
        ensures offsets { IfOk result (λ cluster. (p : ℕ) → committed_at cluster.store p ≡ 0) }
        ensures valid { IfOk result IsValidCluster }
    {
        let logs = Logs::new(rt, alloc, partitions)?;
        Cluster::over(alloc, logs)
    }

    /// A cluster of several topics, with these numbers of partitions.
    pub fn with_topics(
        rt: &impl RandomSource,
        alloc: Global,
        counts: &[u32],
    ) -> Result<Cluster, Memory>
        requires { AreCounts counts.now }
        ensures group { IfOk result (λ cluster. cluster.group ≡ opening (sum counts.now)) }
        ensures counts { IfOk result (λ cluster. cluster.logs.counts ≡ counts.now) }
        ensures logs { IfOk result (λ cluster. AreLogsOf [] cluster.logs) }
        ensures counters { IfOk result (λ cluster. cluster.store.counts ≡ []) }
        ensures capacity { IfOk result (λ cluster. cluster.store.capacity ≡ 0) }
        ensures offsets { IfOk result (λ cluster. (p : ℕ) → committed_at cluster.store p ≡ 0) }
        ensures valid { IfOk result IsValidCluster }
    {
        let logs = Logs::with_topics(rt, alloc, counts)?;
        Cluster::over(alloc, logs)
    }

    /// A cluster over the given logs, without members, with nothing committed and a counter at 0
    /// for each key. It fails only when out of memory.
    pub fn over(alloc: Global, logs: Logs) -> Result<Cluster, Memory>
        ensures group { IfOk result (λ cluster. cluster.group ≡ opening logs.partitions) }
        ensures logs { IfOk result (λ cluster. cluster.logs ≡ logs) }
        ensures counters { IfOk result (λ cluster.
            cluster.store.counts ≡ replicate (length logs.keys) 0) }
        ensures capacity { IfOk result (λ cluster. cluster.store.capacity ≡ 0) }
        ensures offsets { IfOk result (λ cluster. (p : ℕ) → committed_at cluster.store p ≡ 0) }
        ensures valid { IfOk result IsValidCluster }
    {
        let partitions = logs.partitions();
        let group = Group::new(alloc, partitions)?;
        let store = Store::over(alloc, partitions, logs.keys())?;
        Ok(Cluster {
            alloc,
            group,
            logs,
            store,
        })
    }

    /// A new member joins. Returns its number, which is the next one, from 1 on.
    ///
    /// Errors, which change nothing: the name was used before (`NameUsed`); 512 numbers were given
    /// out (`TooManyMembers`); the step would complete a generation past the last
    /// (`GenerationsOver`); out of memory.
    pub fn join(&mut self, name: Name) -> Result<u32, Refusal>
        ensures answer { Answers (join_answer self.old.group name) result }
        ensures ok { OnOk result (self.new ≡ with_group self.old (joined_by self.old.group name)) }
        ensures err { OnErr result (self.new ≡ self.old) }
    {
        self.group.join(self.alloc, name)
    }

    /// A new static member joins as by `join`. If its process ends unnoticed, `take_over` gives its
    /// seat to another member number. It fails as `join` does.
    pub fn join_kept(&mut self, name: Name) -> Result<u32, Refusal>
        ensures answer { Answers (join_answer self.old.group name) result }
        ensures ok { OnOk result (self.new
            ≡ with_group self.old (joined_static_by self.old.group name)) }
        ensures err { OnErr result (self.new ≡ self.old) }
    {
        self.group.join_kept(self.alloc, name)
    }

    /// A static member comes back under its name (KIP-345). Its seat goes to the next member
    /// number, which is returned; the old number is no longer present. The new one has the granted
    /// and the assigned partitions of the old, and has not synced. Generation, phase and moves do
    /// not change: this starts no rebalance.
    ///
    /// Errors, which change nothing: no present static member has this name (`NotKept`); 512
    /// numbers were given out (`TooManyMembers`); out of memory.
    pub fn take_over(&mut self, name: &Name) -> Result<u32, Refusal>
        ensures answer { Answers (take_over_answer self.old.group name.now) result }
        ensures ok { OnOk result (self.new
            ≡ with_group self.old (taken_over_by self.old.group name.now)) }
        ensures err { OnErr result (self.new ≡ self.old) }
    {
        self.group.take_over(name)
    }

    /// A member revokes what it is not assigned and rejoins, claiming what it retains.
    ///
    /// Errors, which change nothing, in this order: the member is not present (`UnknownMember`);
    /// the generation is not the group's (`StaleGeneration`); the member has rejoined already
    /// (`AlreadyJoined`) or has not synced (`SyncFirst`); the group is stable and the member has
    /// nothing to revoke (`NothingToGive`); the claim is not what it is assigned, or is over
    /// another number of partitions (`ClaimDiffers`); the step would complete a generation past the
    /// last (`GenerationsOver`); out of memory.
    pub fn rejoin(&mut self, member: u32, generation: u32, claim: &Plane) -> Result<(), Refusal>
        ensures answer { Answers (rejoin_answer self.old.group member generation claim.now) result }
        ensures ok { OnOk result (self.new
            ≡ with_group self.old (rejoined_by self.old.group member)) }
        ensures err { OnErr result (self.new ≡ self.old) }
    {
        self.group.rejoin(self.alloc, member, generation, claim)
    }

    /// A member syncs. Returns its lease: its assigned partitions, and the offsets to read from.
    ///
    /// Errors, which change nothing: the member is not present (`UnknownMember`); it has joined the
    /// pending rebalance (`RebalanceInProgress`); out of memory.
    pub fn sync(&mut self, member: u32) -> Result<Lease, Refusal>
        ensures answer { Answers (cluster_sync_answer self.old member) result }
        ensures ok { OnOk result (self.new
            ≡ with_group self.old (synced_by self.old.group member)) }
        ensures err { OnErr result (self.new ≡ self.old) }
    {
        let lease = self.lease(member)?;
        self.group.mark_synced(member);
        Ok(lease)
    }

    /// A member leaves and frees its partitions.
    ///
    /// Errors, which change nothing: the member is not present (`UnknownMember`); the step would
    /// complete a generation past the last (`GenerationsOver`); out of memory.
    pub fn leave(&mut self, member: u32) -> Result<(), Refusal>
        ensures answer { Answers (leave_answer self.old.group member) result }
        ensures ok { OnOk result (self.new ≡ with_group self.old (left_by self.old.group member)) }
        ensures err { OnErr result (self.new ≡ self.old) }
    {
        self.group.leave(self.alloc, member)
    }

    /// A member is lost: the group treats it as if it had left. It fails as `leave` does.
    pub fn lose(&mut self, member: u32) -> Result<(), Refusal>
        ensures answer { Answers (leave_answer self.old.group member) result }
        ensures ok { OnOk result (self.new ≡ with_group self.old (left_by self.old.group member)) }
        ensures err { OnErr result (self.new ≡ self.old) }
    {
        self.leave(member)
    }

    /// Applies a commit as a whole, and returns the new committed offset. It allocates nothing.
    ///
    /// Errors, which change nothing, in this order: the member is not present (`UnknownMember`);
    /// the commit is of another generation (`StaleGeneration`); the partition is not granted to the
    /// member, or does not exist (`NotOwner`); the commit has no records (`EmptyCommit`); it does
    /// not begin at the committed offset (`OffsetMismatch`); it ends past the log (`PastEnd`); its
    /// key numbers differ from the log's (`WrongRecords`).
    pub fn commit(&mut self, commit: &Commit) -> Result<u32, Refusal>
        ensures answer { result ≡ cluster_commit_answer self.old commit.now }
        ensures accepts { IsDue self.old commit.now
            → result ≡ Ok (commit.now.from + length commit.now.ids) }
        ensures accepted { OnOk result (IsDue self.old commit.now) }
        ensures ok { OnOk result (self.new ≡ committed_by self.old commit.now) }
        ensures err { OnErr result (self.new ≡ self.old) }
    {
        self.may_commit(commit)?;
        self.store.commit(
            &self.logs,
            commit.partition(),
            commit.from(),
            commit.partial(),
        )
    }

    /// Appends a record with this key to the first topic. Returns the partition of the key and the
    /// offset of the record. A new key gets a counter at 0.
    ///
    /// It fails as `Logs::append` does, and then changes nothing: `KeyTooLong`, `LogFull`, and out
    /// of memory.
    pub fn append(&mut self, key: &[u8]) -> Result<(u32, u32), Refusal>
        ensures answer { Answers (append_answer self.old.logs (of_first key.now)) result }
        ensures ok { OnOk result (self.new ≡ appended_to self.old (of_first key.now)) }
        ensures err { OnErr result (self.new ≡ self.old) }
        ensures valid { OnOk result (IsValidCluster self.new) }
        ensures history { OnOk result
            (GrowByRecords (of_first key.now ∷ []) self.old.logs self.new.logs) }
    {
        // Reading the field gives the proof its invariant: there is a first topic.
        let _ = &self.logs;
        self.append_in(0, key)
    }

    /// Appends to the topic of this index. Partitions are numbered over all topics.
    pub fn append_in(&mut self, topic: u8, key: &[u8]) -> Result<(u32, u32), Refusal>
        requires { IsOfTopic self.old.logs (topic, key.now) }
        ensures answer { Answers (append_answer self.old.logs (topic, key.now)) result }
        ensures ok { OnOk result (self.new ≡ appended_to self.old (topic, key.now)) }
        ensures err { OnErr result (self.new ≡ self.old) }
        ensures valid { OnOk result (IsValidCluster self.new) }
        ensures history { OnOk result
            (GrowByRecords ((topic, key.now) ∷ []) self.old.logs self.new.logs) }
    {
        let place = self.logs.place_of_in(topic, key);
        self.append_at(place, key)
    }

    /// Appends to the partition of the key in some topic, which the caller has computed.
    pub fn append_at(&mut self, place: u32, key: &[u8]) -> Result<(u32, u32), Refusal>
        requires { IsPlaceOf self.old.logs key.now place }
        ensures answer { Answers (answer_at self.old.logs place key.now) result }
        ensures ok { OnOk result (self.new ≡ appended_at self.old place key.now) }
        ensures err { OnErr result (self.new ≡ self.old) }
        ensures valid { OnOk result (IsValidCluster self.new) }
        ensures history { OnOk result (GrowsByKeyAt key.now place self.old.logs self.new.logs) }
    {
        self.store.reserve_key()?;
        let at = self.logs.append_at(place, key)?;
        if self.store.keys() < self.logs.keys() as usize {
            self.store.add_key();
        }
        Ok(at)
    }

    /// The generation: 0 until the first completion.
    pub fn generation(&self) -> u32
        ensures { result ≡ self.now.group.generation }
    {
        self.group.generation
    }

    /// Whether the group is empty, prepares a generation or is stable.
    pub fn phase(&self) -> Phase
        ensures { result ≡ self.now.group.phase }
    {
        self.group.phase
    }

    /// The number of topics.
    pub fn topics(&self) -> usize
        ensures topics { result ≡ length self.now.logs.counts }
        ensures valid { IsValidCluster self.now }
    {
        self.logs.topics()
    }

    /// The number of partitions of all topics.
    pub fn partitions(&self) -> u32
        ensures count { result ≡ self.now.group.partitions }
        ensures valid { IsValidCluster self.now }
    {
        self.logs.partitions()
    }

    /// Whether a member is present.
    pub fn is_present(&self, member: u32) -> bool
        ensures { result ≡ is_present self.now.group member }
    {
        self.seat(member).is_some()
    }

    /// Whether a member has joined the pending rebalance; false if it is not present.
    pub fn is_joined(&self, member: u32) -> bool
        ensures { result ≡ is_joined self.now.group member }
    {
        self.seat(member).is_some_and(|seat| seat.joined)
    }

    /// Whether a member has synced since the last completion; false if it is not present.
    pub fn is_synced(&self, member: u32) -> bool
        ensures { result ≡ is_synced self.now.group member }
    {
        self.seat(member).is_some_and(|seat| seat.synced)
    }

    /// Whether a member is static; false if it is not present.
    pub fn is_kept(&self, member: u32) -> bool
        ensures { result ≡ is_kept self.now.group member }
    {
        self.seat(member).is_some_and(|seat| seat.is_static)
    }

    /// The partitions that a member may read and commit; nothing if it is not present.
    pub fn granted(&self, member: u32) -> Option<&Plane>
        ensures present { is_some result ≡ is_present self.now.group member }
        ensures granted { IfSome result (λ plane. plane.now ≡ granted_of self.now.group member) }
    {
        let seat = self.seat(member)?;
        Some(&seat.granted)
    }

    /// The partitions that a member retains; nothing if it is not present.
    pub fn assigned(&self, member: u32) -> Option<&Plane>
        ensures present { is_some result ≡ is_present self.now.group member }
        ensures assigned { IfSome result (λ plane. plane.now ≡ assigned_of self.now.group member) }
    {
        let seat = self.seat(member)?;
        Some(&seat.assigned)
    }

    /// The present member that a partition is granted to.
    pub fn owner(&self, partition: u32) -> Option<u32>
        ensures { result ≡ owner_of self.now.group partition }
    {
        members::owner_of(&self.group.slots, partition)
    }

    /// The name of a member number that was given out, present or not.
    pub fn name(&self, member: u32) -> Option<&Name>
        ensures { MatchOption result (name_of self.now.group member ≡ None)
            (λ name. name_of self.now.group member ≡ Some name.now) }
    {
        members::name_of(&self.group.slots, member)
    }

    /// The newest member number that has this name, present or not; none if nobody joined under it.
    pub fn member_named(&self, name: &Name) -> Option<u32>
        ensures { result ≡ member_named self.now.group name.now }
    {
        members::number_named(&self.group.slots, name)
    }

    /// The present members, in rising order.
    pub fn members(&self) -> Members<'_>
        ensures { result ≡ members self.now.group }
    {
        Members::new(&self.group.slots)
    }

    /// The moves so far, in order.
    pub fn moves(&self) -> &[Move]
        ensures { result.now ≡ self.now.group.moves }
    {
        &self.group.moves
    }

    /// Whether the group is stable and no member has anything to revoke.
    pub fn is_settled(&self) -> bool
        ensures { result ≡ is_settled self.now.group }
    {
        self.group.is_settled()
    }

    /// The logs.
    pub fn logs(&self) -> &Logs
        ensures logs { result.now ≡ self.now.logs }
        ensures valid { IsValidCluster self.now }
    {
        &self.logs
    }

    /// The committed offsets and the counts.
    pub fn store(&self) -> &Store
        ensures store { without_capacity result.now ≡ self.now.store }
        ensures valid { IsValidCluster self.now }
    {
        &self.store
    }

    /// The seat of a present member.
    fn seat(&self, member: u32) -> Option<&Seat>
        ensures { MatchOption result (member_of self.now.group member ≡ None)
            (λ seat. member_of self.now.group member ≡ Some seat.now) }
    {
        slots::seat_of(&self.group.slots, member)
    }

    /// The lease of a member, or why it gets none.
    fn lease(&self, member: u32) -> Result<Lease, Refusal>
        ensures { Answers (cluster_sync_answer self.now member) result }
    {
        let assigned = self.group.leasable(member)?.copy();
        let starts = Vec::from_slice(self.alloc, self.store.offsets())?;
        Ok(Lease {
            member,
            generation: self.group.generation,
            assigned,
            starts,
        })
    }

    /// Whether the group accepts a commit, or why not. It fences members that are lost or behind.
    fn may_commit(&self, commit: &Commit) -> Result<(), Refusal>
        ensures { result ≡ fence self.now.group commit.now }
    {
        let Some(seat) = self.seat(commit.member()) else {
            return Err(Refusal::UnknownMember);
        };
        if commit.generation() != self.group.generation {
            return Err(Refusal::StaleGeneration);
        }
        if !seat.granted.contains(commit.partition()) {
            return Err(Refusal::NotOwner);
        }
        Ok(())
    }
}
