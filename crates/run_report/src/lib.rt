//! The report of a run, from the bytes of a file and of a plan to those of its rows. Promises:
//! - `run_text` appends to the sink the report that the bytes of both files and the options define,
//!   whatever the gate and the schedule of the threads: all of it, a prefix of it after
//!   `WriteFailed`, and nothing after any other refusal. A fault is the first one by that
//!   definition.
//! - `GateLimit` and `Differs` come only if the report is a text, of which nothing is then written.
//! - A failed read or write is reported only if the device failed during the call. The plan is not
//!   read if the file has a bad record.
//!
//! No proof says that a run ends: that is up to its threads and its gate. Tests: `report_tests`.
#![tactic(auto)]

mod run;

pub use run::run_text;
