//! Keys counted while they are read: a hash table that a thread takes from chunk to chunk.
//!
//! It promises:
//! - `KeyCounter` takes keys as they are read, and counts each record once, under its key; its
//!   `KeyCounts` are the keys that it looked up.
//! - Its entries bring the keys in the order of their first appearance. A key can have more than
//!   one entry, if the table lost sight of it: that costs time and memory, and changes no total.
//! - `Merging` merges the entries of several workers: their distinct keys, in the order of first
//!   appearance, and the totals of these, as a whole or in parts that need not wait for each other.
//!   It looks up only the keys that may have a twin.
//!
//! Tests: `log_tests`.
#![tactic(auto)]

mod classes;
mod counter;
mod counts;
mod entry;
mod filter;
mod hashes;
mod merging;
mod slots;
mod twins;
mod waiting;
mod walk;

pub use counter::KeyCounter;
pub use counts::KeyCounts;
pub use merging::{Merged, Merging, Segment, are_counted};
