//! Sets of partitions without heap memory, and tables of such sets by member number.
//!
//! What it promises:
//! - Each call of `Plane`, a bit set over 1 to 4096 partitions, returns the set that its name says.
//!   Over one number of partitions, planes with the same elements are equal. No call allocates.
//! - A `PlaneRows` maps member numbers, in rising order, to planes. `put` and `remove_from` change
//!   the row of one member alone.
//!
//! Tests: `cluster_tests`, which also compares each call with a reference implementation.
#![tactic(auto)]

mod bits;
mod elements;
mod laws;
mod plane;
mod rows;

pub use elements::Elements;
pub use laws::{rows_equal_by_look_up, sets_equal_by_elements};
pub use plane::Plane;
pub use rows::{Members, PlaneRows, Rows};
