//! Rows as text: the CSV writer that every report uses, the rows of a count, of all keys or of the
//! top, and those of a replay and of a run. Promises:
//! - Each call appends exactly its rows to what the writer has written before.
//! - Without topics a row names a partition by its number, and with topics by the name of its topic
//!   and its number there.
//! - Only an allocation can fail (`Memory`).
//!
//! Tests: `report_tests`.
#![tactic(auto)]

mod committed_rows;
pub mod count_rows;
pub mod replay_rows;
pub mod rows;
pub mod top_rows;
