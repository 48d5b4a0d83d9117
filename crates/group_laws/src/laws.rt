//! The laws. The end of a rebalance is the group in which it ends, whatever the order of its calls.

ghost use Rattle.std.specs.Prelude.{◌≡◌, ◌≤◌, ◌+◌, ◌++◌, ◌∷◌, [], ℕ, List, true, false, Ok, Some, length, slice_get};
ghost use Rattle.group_machine.specs.State.{GroupState, is_anybody, is_kept, is_present};
ghost use Rattle.group_machine.specs.Completion.{next_rows_of};
ghost use Rattle.group_machine.specs.Moves.{takes, taker};
ghost use Rattle.group_machine.specs.Settled.{is_settled};
ghost use Rattle.group_machine.specs.Steps.{joined_by, joined_static_by, leave_answer, left_by, rejoined_by, synced_by, taken_over_by};
ghost use Rattle.group_machine.specs.Valid.{IsValidGroup};
ghost use Rattle.group_laws.specs.Names.{HasNumber, names};
ghost use Rattle.group_laws.specs.Rounds.{final_generation, without_flags, round, rebalance_result, IsSound};
ghost use Rattle.group_laws.specs.Passes.{after_turn, after_pass, is_settled_and_synced};
ghost use Rattle.group_laws.specs.Others.{IsAcceptedJoin, IsAcceptedRejoin, IsAcceptedTakeOver, IsTakenOver, IsNewcomer, LeavesOthers, LeavesRejoined, LeavesSynced};

/// Two rounds settle a group with a member, if no partition is granted to two members and each
/// member's seat is consistent.
pub fn two_rounds_settle()
    ensures { (g : GroupState) → IsSound g → is_settled (round (round g)) ≡ true }
{}

/// A sync does not change the end of a rebalance, including moves and last holders.
pub fn sync_preserves_result()
    ensures { (g : GroupState) (member : ℕ)
        → rebalance_result (synced_by g member) ≡ rebalance_result g }
{}

/// An accepted rejoin does not change the end of a rebalance, including moves and last holders.
pub fn rejoin_preserves_result()
    ensures { (g : GroupState) (member : ℕ) → IsAcceptedRejoin g member
        → rebalance_result (rejoined_by g member) ≡ rebalance_result g }
{}

/// A member's turn does not change the end of a rebalance, including moves and last holders.
pub fn turn_preserves_result()
    ensures { (g : GroupState) (member : ℕ) → IsValidGroup g → is_present g member ≡ true
        → rebalance_result (after_turn g member) ≡ rebalance_result g }
{}

/// Four passes settle any valid group with a member, and all members have synced then.
pub fn four_passes_settle()
    ensures { (g : GroupState) → IsValidGroup g → is_anybody g ≡ true
        → is_settled_and_synced (after_pass (after_pass (after_pass (after_pass g)))) ≡ true }
{}

/// A completion moves no partition to two members: its taker is the member that the moves name.
pub fn each_partition_has_one_taker()
    ensures { (g : GroupState) → IsSound g → (q member : ℕ)
        → takes g (next_rows_of g) q member ≡ true → taker g (next_rows_of g) q ≡ Some member }
{}

/// A join leaves all other members.
pub fn join_preserves_others()
    ensures { (g : GroupState) (name : List ℕ) (a : IsAcceptedJoin g name)
        → LeavesOthers g (joined_by g name) a.number }
{}

/// The member that joins is new and has not synced.
pub fn join_adds_a_member()
    ensures { (g : GroupState) (name : List ℕ) (a : IsAcceptedJoin g name)
        → IsNewcomer g (joined_by g name) a.number }
{}

/// Both hold when a static member joins, and it is static then.
pub fn static_join_is_a_join()
    ensures others { (g : GroupState) (name : List ℕ) (a : IsAcceptedJoin g name)
        → LeavesOthers g (joined_static_by g name) a.number }
    ensures newcomer { (g : GroupState) (name : List ℕ) (a : IsAcceptedJoin g name)
        → IsNewcomer g (joined_static_by g name) a.number }
    ensures value { (g : GroupState) (name : List ℕ) (a : IsAcceptedJoin g name)
        → is_kept (joined_static_by g name) a.number ≡ true }
{}

/// A take-over moves the seat of a static member to the next number.
pub fn take_over_moves_the_seat()
    ensures { (g : GroupState) (name : List ℕ) (a : IsAcceptedTakeOver g name)
        → IsTakenOver g (taken_over_by g name) a.member a.number }
{}

/// A take-over does not change whether the group is settled, and does not depend on the flags.
pub fn take_over_starts_no_rebalance()
    ensures settled { (g : GroupState) (name : List ℕ)
        → is_settled (taken_over_by g name) ≡ is_settled g }
    ensures flags { (g : GroupState) (name : List ℕ)
        → without_flags (taken_over_by g name) ≡ taken_over_by (without_flags g) name }
{}

/// The end of a rebalance after a take-over: for a settled group, the group with the seat taken
/// over; for any other, its generation is the same. Free partitions may go to other members than
/// without the take-over, since they go by the order of the numbers, and the new number is the
/// last.
pub fn take_over_preserves_result()
    ensures settled { (g : GroupState) (name : List ℕ) → is_settled g ≡ true
        → rebalance_result (taken_over_by g name) ≡ taken_over_by (rebalance_result g) name }
    ensures generation { (g : GroupState) (name : List ℕ) → IsAcceptedTakeOver g name
        → final_generation (taken_over_by g name) ≡ final_generation g }
{}

/// An accepted rejoin leaves all other members.
pub fn rejoin_preserves_others()
    ensures { (g : GroupState) (member : ℕ) → IsAcceptedRejoin g member
        → LeavesOthers g (rejoined_by g member) member }
{}

/// A member that rejoins is granted what it was assigned.
pub fn rejoin_grants_what_is_assigned()
    ensures { (g : GroupState) (member : ℕ) → IsAcceptedRejoin g member
        → LeavesRejoined g (rejoined_by g member) member }
{}

/// A leave leaves all other members.
pub fn leave_preserves_others()
    ensures { (g : GroupState) (member : ℕ) → IsValidGroup g → leave_answer g member ≡ Ok tt
        → LeavesOthers g (left_by g member) member }
{}

/// A member that has left is not present.
pub fn leave_removes_the_member()
    ensures { (g : GroupState) (member : ℕ) → IsValidGroup g → leave_answer g member ≡ Ok tt
        → is_present (left_by g member) member ≡ false }
{}

/// A sync leaves all other members.
pub fn sync_preserves_others()
    ensures { (g : GroupState) (member : ℕ) → LeavesOthers g (synced_by g member) member }
{}

/// A present member that syncs has synced then. Nothing else of it changes.
pub fn sync_sets_the_flag()
    ensures { (g : GroupState) (member : ℕ) → LeavesSynced g (synced_by g member) member }
{}

/// The end of a rebalance after a join does not depend on the flags before it.
pub fn join_result_ignores_flags()
    ensures { (g : GroupState) (name : List ℕ) → IsValidGroup g
        → rebalance_result (joined_by g name)
        ≡ rebalance_result (joined_by (without_flags g) name) }
{}

/// The end of a rebalance after a leave or a loss does not depend on the flags before it.
pub fn leave_result_ignores_flags()
    ensures { (g : GroupState) (member : ℕ) → IsValidGroup g
        → rebalance_result (left_by g member)
        ≡ rebalance_result (left_by (without_flags g) member) }
{}

/// A rebalance never lowers the generation, and adds at most two.
pub fn rebalance_adds_at_most_two_generations()
    ensures sorted { (g : GroupState) → g.generation ≤ final_generation g }
    ensures bound { (g : GroupState) → final_generation g ≤ g.generation + 2 }
{}

/// A rebalance changes neither who is present nor any name.
pub fn rebalance_preserves_membership()
    ensures names { (g : GroupState) → names (rebalance_result g) ≡ names g }
    ensures present { (g : GroupState) (m : ℕ)
        → is_present (rebalance_result g) m ≡ is_present g m }
{}

/// A join appends its name. All members stay present, and so is the new one.
pub fn join_appends_its_name()
    ensures names { (g : GroupState) (name : List ℕ)
        → names (joined_by g name) ≡ names g ++ name ∷ [] }
    ensures present { (g : GroupState) (name : List ℕ) (m : ℕ) → is_present g m ≡ true
        → is_present (joined_by g name) m ≡ true }
    ensures newcomer { (g : GroupState) (name : List ℕ)
        → is_present (joined_by g name) (length g.slots + 1) ≡ true }
{}

/// A leave or a loss changes no name, and not whether another member is present.
pub fn leave_changes_one_member()
    ensures names { (g : GroupState) (member : ℕ) → names (left_by g member) ≡ names g }
    ensures others { (g : GroupState) (member m : ℕ) → (m ≡ member → ⊥)
        → is_present (left_by g member) m ≡ is_present g m }
{}

/// Each name in use has a number: the last one with this name.
pub fn name_has_its_last_number()
    ensures { (g : GroupState) (name : List ℕ) (i : ℕ) → slice_get (names g) i ≡ Some name
        → HasNumber g name }
{}
