//! The group and its steps.

ghost use Rattle.std.specs.Prelude.{◌≡◌, ◌+◌, ◌<◌, ◌≤◌, ℕ, List, true, length, IfOk, IfErr, OnOk, OnErr, Ok, Err, Some, None};
ghost use Rattle.std.specs.Vec.{vec_len, vec_capacity};
ghost use Rattle.lane_words.specs.Answers.{Answers};
ghost use Rattle.bit_planes.specs.PartitionSet.{is_same};
ghost use Rattle.group_machine.specs.State.{opening, is_present, member_of, is_anybody};
ghost use Rattle.group_machine.specs.Completion.{complete, completed};
ghost use Rattle.group_machine.specs.Settled.{is_settled, is_stable};
ghost use Rattle.group_machine.specs.Steps.{newcomer, join_answer, joined_by, joined_static_by, handing_on, take_over_answer, taken_over_by, rejoin_refusal, rejoin_answer, rejoined_by, sync_answer, synced_by, leave_answer, left_by};
ghost use Rattle.group_machine.specs.Valid.{IsValidGroup};
ghost use Rattle.group_machine.specs.Private.Changes.{after, HasCapacity, IsChanged, IsCompletion, IsLeasable, IsPlanned, IsRefused};
ghost use Rattle.group_machine.specs.Private.GroupView.{group_view};

mod change;
mod completion;
pub mod members;
mod moves;
pub mod slots;

use bit_planes::Plane;
use change::Change;
use completion::Completion;
use lane_words::{LAST_GENERATION, MOST_MEMBERS, MOST_PARTITIONS, Memory, Refusal};
pub use members::Members;
use partitioner::Name;
use std::alloc::Global;

/// Whether a group is empty, prepares a generation or is stable.
#[derive(Clone, Copy, Debug, PartialEq, Eq)]
pub enum Phase {
    /// Nobody is present.
    Empty,
    /// A rebalance is pending: members rejoin before the next generation.
    Preparing,
    /// A generation is complete.
    Stable,
}

/// A partition that a completion granted to a member that did not have it.
#[derive(Clone, Copy, Debug, PartialEq, Eq)]
pub struct Move {
    /// The completed generation.
    pub generation: u32,
    /// The partition, from 0.
    pub partition: u32,
    /// The member that had it last, present or not; none at first.
    pub last: Option<u32>,
    /// The member that has it now.
    pub holder: u32,
}

/// The seat of a present member: its flags and its partitions.
#[derive(Debug, Drop)]
pub struct Seat {
    /// Whether it has joined the pending rebalance.
    pub joined: bool,
    /// Whether it has synced in this generation.
    pub synced: bool,
    /// Whether it is static: another member number can take its seat over by name.
    pub is_static: bool,
    /// The partitions that it may read and commit.
    pub granted: Plane,
    /// The partitions that the last completion assigned to it.
    pub assigned: Plane,
}

/// A member number that was given out: its name, and its seat while it is present.
#[derive(Debug, Drop)]
pub struct Slot {
    /// Its name. A later number has the same name if it took this one's seat over.
    pub name: Name,
    /// Its seat, while it is present.
    pub seat: Option<Seat>,
}

/// The group: which members are present, what each may read, and what each is assigned.
///
/// It rebalances as KIP-429 says: a member that joins gets nothing that another still holds, and a
/// partition moves once its holder has rejoined without it. Each step requires a valid group and
/// leaves one; `Cluster` has the invariant.
#[derive(Debug, Drop)]
pub struct Group {
    /// The generation: 0 until the first completion.
    pub generation: u32,
    /// The phase.
    pub phase: Phase,
    /// The number of partitions.
    pub partitions: u32,
    /// The members by number: slot k is member k + 1.
    pub slots: Vec<Slot>,
    /// The last holder of each partition.
    pub last: Vec<Option<u32>>,
    /// The moves so far, in order.
    pub moves: Vec<Move>,
}

impl Group {
    /// A group without members. It fails only when out of memory.
    pub fn new(alloc: Global, partitions: u32) -> Result<Group, Memory>
        requires { (1 ≤ partitions) × (partitions ≤ MOST_PARTITIONS) }
        ensures state { IfOk result (λ g. group_view g ≡ opening partitions) }
    {
        Ok(Group {
            generation: 0,
            phase: Phase::Empty,
            partitions: partitions,
            slots: Vec::new(alloc),
            last: vec![in alloc; None; partitions as usize]?,
            moves: Vec::new(alloc),
        })
    }

    /// A member joins under a name that was never used. Returns its number, which is the next one.
    pub fn join(&mut self, alloc: Global, name: Name) -> Result<u32, Refusal>
        requires { IsValidGroup (group_view self.old) }
        ensures answer { Answers (join_answer (group_view self.old) name) result }
        ensures ok { OnOk result (group_view self.new ≡ joined_by (group_view self.old) name) }
        ensures err { OnErr result (group_view self.new ≡ group_view self.old) }
        ensures valid { IsValidGroup (group_view self.new) }
    {
        if slots::is_used(&self.slots, &name) {
            return Err(Refusal::NameUsed);
        }
        if self.slots.len() >= MOST_MEMBERS {
            return Err(Refusal::TooManyMembers);
        }
        let number = self.slots.len() as u32 + 1;
        let planned = self.plan_completion(alloc, Change::Joins)?;
        self.slots.reserve(1)?;
        self.slots.push_reserved(newcomer(self.partitions, name));
        self.phase = Phase::Preparing;
        self.complete(planned);
        Ok(number)
    }

    /// A static member joins as by `join`.
    pub fn join_kept(&mut self, alloc: Global, name: Name) -> Result<u32, Refusal>
        requires { IsValidGroup (group_view self.old) }
        ensures answer { Answers (join_answer (group_view self.old) name) result }
        ensures ok { OnOk result
            (group_view self.new ≡ joined_static_by (group_view self.old) name) }
        ensures err { OnErr result (group_view self.new ≡ group_view self.old) }
        ensures valid { IsValidGroup (group_view self.new) }
    {
        let number = self.join(alloc, name)?;
        slots::make_static(&mut self.slots, number);
        Ok(number)
    }

    /// The next number takes the seat of the static member of this name over, and is returned.
    pub fn take_over(&mut self, name: &Name) -> Result<u32, Refusal>
        requires { IsValidGroup (group_view self.old) }
        ensures answer { Answers (take_over_answer (group_view self.old) name.now) result }
        ensures ok { OnOk result
            (group_view self.new ≡ taken_over_by (group_view self.old) name.now) }
        ensures err { OnErr result (group_view self.new ≡ group_view self.old) }
        ensures valid { IsValidGroup (group_view self.new) }
    {
        let Some(member) = members::static_member(&self.slots, name) else {
            return Err(Refusal::NotKept);
        };
        if self.slots.len() >= MOST_MEMBERS {
            return Err(Refusal::TooManyMembers);
        }
        self.slots.reserve(1)?;
        let number = self.slots.len() as u32 + 1;
        self.hand_on(name, member);
        Ok(number)
    }

    /// A member revokes what it is not assigned and rejoins, claiming what it retains.
    pub fn rejoin(
        &mut self,
        alloc: Global,
        member: u32,
        generation: u32,
        claim: &Plane,
    ) -> Result<(), Refusal>
        requires { IsValidGroup (group_view self.old) }
        ensures answer { Answers
            (rejoin_answer (group_view self.old) member generation claim.now) result }
        ensures ok { OnOk result (group_view self.new ≡ rejoined_by (group_view self.old) member) }
        ensures err { OnErr result (group_view self.new ≡ group_view self.old) }
        ensures valid { IsValidGroup (group_view self.new) }
    {
        if let Some(why) = self.why_no_rejoin(member, generation, claim) {
            return Err(why);
        }
        let planned = self.plan_completion(alloc, Change::Rejoins(member))?;
        slots::rejoin(&mut self.slots, member);
        self.phase = Phase::Preparing;
        self.complete(planned);
        Ok(())
    }

    /// The partitions that a member is assigned, if it may sync.
    pub fn leasable(&self, member: u32) -> Result<&Plane, Refusal>
        ensures ok { IfOk result
            (λ assigned. IsLeasable (group_view self.now) member assigned.now) }
        ensures fault { IfErr result (λ why. sync_answer (group_view self.now) member ≡ Err why) }
    {
        let Some(seat) = slots::seat_of(&self.slots, member) else {
            return Err(Refusal::UnknownMember);
        };
        if seat.joined {
            return Err(Refusal::RebalanceInProgress);
        }
        Ok(&seat.assigned)
    }

    /// Marks a present member as synced.
    pub fn mark_synced(&mut self, member: u32)
        requires present { is_present (group_view self.old) member ≡ true }
        requires valid { IsValidGroup (group_view self.old) }
        ensures state { group_view self.new ≡ synced_by (group_view self.old) member }
        ensures valid { IsValidGroup (group_view self.new) }
    {
        slots::mark_synced(&mut self.slots, member);
    }

    /// A member leaves or is lost, which is the same.
    pub fn leave(&mut self, alloc: Global, member: u32) -> Result<(), Refusal>
        requires { IsValidGroup (group_view self.old) }
        ensures answer { Answers (leave_answer (group_view self.old) member) result }
        ensures ok { OnOk result (group_view self.new ≡ left_by (group_view self.old) member) }
        ensures err { OnErr result (group_view self.new ≡ group_view self.old) }
        ensures valid { IsValidGroup (group_view self.new) }
    {
        if !slots::is_present(&self.slots, member) {
            return Err(Refusal::UnknownMember);
        }
        let planned = self.plan_completion(alloc, Change::Leaves(member))?;
        slots::remove(&mut self.slots, member);
        self.phase = slots::phase_left(&self.slots);
        self.complete(planned);
        Ok(())
    }

    /// Whether the group is stable and no member has anything to revoke.
    pub fn is_settled(&self) -> bool
        requires { IsValidGroup (group_view self.now) }
        ensures { result ≡ is_settled (group_view self.now) }
    {
        is_stable(self.phase) && slots::all_agree(&self.slots)
    }

    /// Moves the seat of a member to the next number, under this name. It allocates nothing.
    fn hand_on(&mut self, name: &Name, member: u32)
        requires valid { IsValidGroup (group_view self.old) }
        requires present { is_present (group_view self.old) member ≡ true }
        requires bound { length self.old.slots.items < MOST_MEMBERS }
        requires capacity { vec_len self.old.slots + 1 ≤ vec_capacity self.old.slots }
        ensures { group_view self.new ≡ handing_on (group_view self.old) name.now member }
    {
        let number = self.slots.len() as u32 + 1;
        if let Some(seat) = slots::seat_of(&self.slots, member) {
            moves::take(&mut self.last, number, &seat.granted);
        }
        let seat = slots::hand_out(&mut self.slots, member);
        let name = name.copy();
        self.slots.push_reserved(Slot { name, seat });
    }

    /// Why a rejoin is refused, apart from the limit of generations.
    fn why_no_rejoin(&self, member: u32, generation: u32, claim: &Plane) -> Option<Refusal>
        requires { IsValidGroup (group_view self.now) }
        ensures { result ≡ rejoin_refusal (group_view self.now) generation claim.now
            (member_of (group_view self.now) member) }
    {
        let Some(seat) = slots::seat_of(&self.slots, member) else {
            return Some(Refusal::UnknownMember);
        };
        if generation != self.generation {
            return Some(Refusal::StaleGeneration);
        }
        if seat.joined {
            return Some(Refusal::AlreadyJoined);
        }
        if !seat.synced {
            return Some(Refusal::SyncFirst);
        }
        if is_stable(self.phase) && seat.granted.same(&seat.assigned) {
            return Some(Refusal::NothingToGive);
        }
        if !is_equal(claim, &seat.assigned) {
            return Some(Refusal::ClaimDiffers);
        }
        None
    }

    /// Plans the completion that a change leads to, if it leads to one: allocates all that it
    /// needs, reserves capacity for the moves, and changes nothing. Errors: the generation would
    /// pass the last (`GenerationsOver`); out of memory.
    fn plan_completion(
        &mut self,
        alloc: Global,
        change: Change,
    ) -> Result<Option<Completion>, Refusal>
        requires valid { IsValidGroup (group_view self.old) }
        requires state { (name : List ℕ) → IsChanged (after change name (group_view self.old)) }
        ensures ok { (name : List ℕ)
            → IfOk result (IsPlanned (after change name (group_view self.old))) }
        ensures capacity { IfOk result (λ planned.
            HasCapacity planned (vec_len self.new.moves) (vec_capacity self.new.moves)) }
        ensures err { (name : List ℕ)
            → IfErr result (IsRefused (after change name (group_view self.old))) }
        ensures same { group_view self.new ≡ group_view self.old }
        ensures valid { IsValidGroup (group_view self.new) }
    {
        if !change::is_ready_after(&self.slots, change) {
            return Ok(None);
        }
        if self.generation == LAST_GENERATION {
            return Err(Refusal::GenerationsOver);
        }
        let completion = self.completion_after(alloc, change)?;
        self.moves.reserve(completion.moves.len())?;
        Ok(Some(completion))
    }

    /// The completion that a change leads to.
    fn completion_after(&self, alloc: Global, change: Change) -> Result<Completion, Memory>
        requires valid { IsValidGroup (group_view self.now) }
        requires state { (name : List ℕ) → IsChanged (after change name (group_view self.now)) }
        requires nonempty { (name : List ℕ) → is_anybody (after change name (group_view self.now))
            ≡ true }
        requires bound { self.now.generation < LAST_GENERATION }
        ensures { (name : List ℕ)
            → IfOk result (IsCompletion (after change name (group_view self.now))) }
    {
        let granted = change::granted_rows(alloc, self.partitions, &self.slots, change)?;
        let next = completion::next_rows(alloc, &granted)?;
        let takers = moves::takers_of(alloc, &granted, &next)?;
        let moves = moves::moves_of(alloc, self.generation + 1, &takers, &self.last)?;
        Ok(Completion {
            next,
            takers,
            moves,
        })
    }

    /// Applies the planned completion, if there is one. It allocates nothing.
    fn complete(&mut self, planned: Option<Completion>)
        requires state { IsChanged (group_view self.old) }
        requires planned { IsPlanned (group_view self.old) planned }
        requires capacity { HasCapacity planned
            (vec_len self.old.moves) (vec_capacity self.old.moves) }
        ensures state { group_view self.new ≡ completed (group_view self.old) }
        ensures valid { IsValidGroup (group_view self.new) }
    {
        if let Some(completion) = planned {
            self.make(&completion);
        }
    }

    /// Applies the planned completion. It allocates nothing.
    fn make(&mut self, completion: &Completion)
        requires state { IsChanged (group_view self.old) }
        requires bound { self.old.generation < LAST_GENERATION }
        requires completion { IsCompletion (group_view self.old) completion.now }
        requires capacity { vec_len self.old.moves + length completion.now.moves.items
            ≤ vec_capacity self.old.moves }
        requires nonempty { is_anybody (group_view self.old) ≡ true }
        ensures { group_view self.new ≡ complete (group_view self.old) }
    {
        moves::append(&mut self.moves, &completion.moves);
        moves::hold(&mut self.last, &completion.takers);
        completion::give(&mut self.slots, &completion.next);
        self.generation += 1;
        self.phase = Phase::Stable;
    }
}

/// The slot of a member that has just joined, without partitions.
fn newcomer(partitions: u32, name: Name) -> Slot
    requires { (1 ≤ partitions) × (partitions ≤ MOST_PARTITIONS) }
    ensures { result ≡ newcomer partitions name }
{
    Slot {
        name,
        seat: Some(Seat {
            joined: true,
            synced: false,
            is_static: false,
            granted: Plane::new(partitions),
            assigned: Plane::new(partitions),
        }),
    }
}

/// Whether a generation is complete.
fn is_stable(phase: Phase) -> bool
    ensures { result ≡ is_stable phase }
{
    match phase {
        Phase::Empty | Phase::Preparing => false,
        Phase::Stable => true,
    }
}

/// Whether two sets are equal. They may be over different numbers of partitions.
fn is_equal(claim: &Plane, assigned: &Plane) -> bool
    ensures { result ≡ is_same claim.now assigned.now }
{
    claim.partitions() == assigned.partitions() && claim.same(assigned)
}
