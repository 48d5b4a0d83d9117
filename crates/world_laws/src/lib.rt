//! Laws of a world: what holds whatever list of events happens in it, for those who ask what the
//! coordinator guarantees. Each is a function without a body, whose contract is the law.
//!
//! - No two present members have the same name.
//! - Generations and committed offsets never fall; logs, keys, names and moves lose no entry.
//! - Commits of members that are out, and of generations that are over, are never accepted again.
//! - Each record's key is counted by exactly one accepted commit.
//! - Only a join, a leave or a loss unsettles a group. A refused event changes nothing in the
//!   cluster.
//!
//! An event whose memory is refused changes nothing, so it is as if it were not in the list.
//!
//! Tests: `driver_tests` runs such lists of events.
#![tactic(auto)]

mod laws;

pub use laws::{
    each_record_is_counted_once, names_stay_different, nothing_is_lost,
    only_members_unsettle_a_group, past_commits_stay_refused, refused_events_change_nothing,
};
