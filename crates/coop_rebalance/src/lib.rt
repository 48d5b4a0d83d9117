//! Cooperative rebalancing (KIP-429): the old owner revokes a partition before the new one gets it.
//!
//! - [`withhold`] returns each member's target row without what any other member is granted.
//!   [`withhold_in_place`] does the same to the given rows. [`to_give`] and [`added`] are the
//!   differences between granted and assigned sets, and [`is_final`] their equality.
//! - Laws: a second round retains all that the first one assigned and withholds nothing; what a
//!   round assigns lies within its balanced target; granted and newly assigned sets stay disjoint.
//!
//! Tests: `cluster_tests`.
#![tactic(auto)]

mod laws;
mod withholding;

pub use laws::{assigned_stays_disjoint, round_lies_in_balanced, second_round_settles};
pub use withholding::{added, is_final, to_give, withhold, withhold_in_place};
