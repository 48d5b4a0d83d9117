//! The report of a check: what is wrong with a file, and with a script, and where. Promises:
//! - `check_text` and `check_both_text` append to the sink the table that the bytes of the files
//!   and the options define: all of it, a prefix of it after `WriteFailed`, and nothing after any
//!   other refusal. They return whether there is a fault.
//! - A failed read or write is reported only if the device failed during the call.
//! - By two laws the place that is told of a record is where it begins.
//!
//! Tests: `report_tests`, and `blackbox/parts/checks.py`.
#![tactic(auto)]

mod check;
mod findings;
mod laws;
mod places;
mod record_findings;
mod records;
mod script_findings;
mod suggestions;
mod warnings;

pub use check::{check_both_text, check_text};
pub use laws::{a_place_a_record, records_begin_at_their_places};
