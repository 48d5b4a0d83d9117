//! Laws of the consumer group: theorems about any sequence of its steps, for the crates above. Each
//! is a function without a body, whose contract is the law. `driver_tests` runs such sequences.
//!
//! - The end of a rebalance does not depend on the order of syncs and rejoins, nor on the flags of
//!   the members when one joins or leaves. A rebalance adds at most two generations.
//! - Four passes over the members settle any valid group that has one, and all have synced then.
//! - No partition goes to two members.
//! - A step about one member leaves all others as they were, or in the next generation.
//! - A take-over starts no rebalance: the new member number has the seat of the old one.
#![tactic(auto)]

mod laws;

pub use laws::{
    each_partition_has_one_taker, four_passes_settle, join_adds_a_member, join_appends_its_name,
    join_preserves_others, join_result_ignores_flags, leave_changes_one_member,
    leave_preserves_others, leave_removes_the_member, leave_result_ignores_flags,
    name_has_its_last_number, rebalance_adds_at_most_two_generations,
    rebalance_preserves_membership, rejoin_grants_what_is_assigned, rejoin_preserves_others,
    rejoin_preserves_result, static_join_is_a_join, sync_preserves_others, sync_preserves_result,
    sync_sets_the_flag, take_over_moves_the_seat, take_over_preserves_result,
    take_over_starts_no_rebalance, turn_preserves_result, two_rounds_settle,
};
