//! Committed offsets and counts by key, which change together or not at all.
//!
//! What it promises:
//! - `Store::commit` moves the offset and raises the counters by the plain counts of its records,
//!   or returns the first refusal that applies, in a fixed order, and changes nothing.
//! - A store stays exact over its logs (`IsExact`), whatever is committed, appended or added.
//! - A law: if the ends of all logs are committed, each counter is the number of records appended
//!   with its key.
//!
//! Tests: `cluster_tests`.
#![tactic(auto)]

mod laws;
mod store;

pub use laws::{append_stays_exact, full_commit_counts_all_records};
pub use store::Store;
