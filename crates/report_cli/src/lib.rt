//! The facade of `keycount`: from the words of a command line to rows, lines of faults and an exit
//! status. Promises:
//! - `run_program` does what the words ask for: which files it reads, what it writes to standard
//!   output and to standard error, and its status are a stated function of the words and the bytes
//!   of the files that they name.
//! - `fault_line` writes the line of a fault and `status` returns its exit status; neither
//!   allocates.
//! - `explain_text` writes what a refusal means, or a line for each.
//! - `reads_input_twice` says whether both files of a job are standard input, and
//!   `asks_for_two_tables` whether a place has options that exclude each other.
//! - The other calls are those of `command_line`, `byte_io` and the reports.
//!
//! Tests: `report_tests`, and the program's black-box tests.
#![tactic(auto)]

mod explain;
mod faults;
mod input;
mod jobs;
mod opened;
mod program;
mod system;

pub use byte_io::{DeviceFailed, FromRead, FromWrite, Sink, Source};
pub use check_report::{check_both_text, check_text};
pub use command_line::{
    CheckOptions, Job, Options, PlaceOptions, Usage, read_words, refusal_with_code,
};
pub use count_report::count_text;
pub use draw_report::draw_text;
pub use explain::explain_text;
pub use faults::{fault_line, status};
pub use input::{asks_for_two_tables, reads_input_twice};
pub use place_report::place_text;
pub use program::{NoWords, run_program};
pub use replay_report::replay_text;
pub use run_report::run_text;
pub use system::System;
pub use trace_report::trace_text;
