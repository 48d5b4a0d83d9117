//! The report of a replay, from the bytes of a file and of a script to those of its rows. Promises:
//! - `replay_text` appends to the sink the report that the bytes of both files and the options
//!   define: all of it, a prefix of it after `WriteFailed`, and nothing after any other refusal. A
//!   fault is the first one by that definition, which is the world's own, line by line.
//! - No row is ever the result of a failed allocation: if one fails, nothing is written.
//! - A failed read or write is reported only if the device failed during the call. The script is
//!   not read if the file has a bad record.
//!
//! Tests: `report_tests`.
#![tactic(auto)]

mod replay;

pub use replay::{read_lines, replay_text, script_lines, world_of};
