//! The report of a trace: what a script does, event by event. Promises:
//! - `trace_text` appends to the sink the report that the bytes of both files and the options
//!   define: all of it, a prefix of it after `WriteFailed`, and nothing after any other refusal.
//!   Its faults, and their order, are those of a replay.
//! - The report is a header, and a row for each step of the script (`replay_steps`), those that
//!   `settle` and `drain` choose included. By a law it ends in the world whose owners and offsets a
//!   replay of the same script reports.
//! - No row is ever the result of a failed allocation: if one fails, nothing is written.
//!
//! Tests: `report_tests`.
#![tactic(auto)]

mod cells;
mod laws;
mod rows;
mod sets;
mod texts;
mod trace;

pub use laws::a_trace_ends_where_its_replay_ends;
pub use trace::trace_text;
