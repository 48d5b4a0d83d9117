//! The report of a count, from the bytes of a file to the bytes of its rows. Promises:
//! - `count_text` appends to the sink the report that the file's bytes and the options define: all
//!   of it, a prefix of it after `WriteFailed`, and nothing after any other refusal. A fault is the
//!   first one by that definition.
//! - A failed read or write is reported only if the device failed during the call.
//!
//! Tests: `report_tests`.
#![tactic(auto)]

mod count;

pub use count::count_text;
