//! How often key numbers occur: counts of one list, and counters that such counts are added to.
//!
//! It promises:
//! - A `Partial` is a list with its plain counts, for any list.
//! - `Table::merge` raises each counter by the plain count of its number, changes nothing else and
//!   allocates nothing. `Table::add_list` does the same for a borrowed list.
//!
//! Tests: `cluster_tests`.
#![tactic(auto)]

mod partial;
mod table;

pub use partial::Partial;
pub use table::Table;
