//! From a file to its logs: what every report begins with. Promises:
//! - `file_records` returns the records that the file's bytes define, or the fault of the first bad
//!   one. It reports a failed read only if the source failed during the call.
//! - `logs_of` returns logs of exactly these records, in order, or the fault of the first record
//!   that can't be appended.
//! - `count_file` counts the records of a source to its end, in the memory of its distinct keys, and
//!   returns why the first that can't be appended can't. It reports a failed read only if the source
//!   failed during the call.
//! - `partition_counts` returns the number of partitions of each topic that the options name.
//!
//! `specs/Reports.antt` has what all three reports say of the bytes that they read and write.
//! Tests: `report_tests`.
#![tactic(auto)]

mod columns;
mod counted;
mod limits;
mod reading;
mod records;
mod windows;

pub use counted::count_file;
pub use reading::partition_counts;
pub use records::{FileRecords, file_records, logs_of, window_for};
