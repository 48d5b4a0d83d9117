//! The command line: the program's arguments become a job, help, or a usage error.
//!
//! `read_words` returns a job exactly as clap parses the words: the subcommand with its files, and
//! options within their bounds. Words that clap rejects never give a job, nor does a list of topics
//! or a column that is not valid. The text of `--help` is in `help`.
//!
//! `explanation_of` returns what a refusal means, and `list_text` a line for each, as their
//! definitions say. Each refusal is listed, and its explanation begins with its number.
//!
//! By a law, `limits_are`, each limit and default of an option has the number that the documents
//! say.
//!
//! Tests: `command_tests`, `report_tests/src/explanations.rt`, and the rows of
//! `blackbox/`.
#![tactic(auto)]

mod columns;
mod delimiters;
mod explanations;
mod help;
mod laws;
mod options;
mod topics;
mod words;

pub use explanations::{REFUSALS, explanation_of, list_text, refusal_with_code};
pub use help::{
    AFTER_CHECK, AFTER_COUNT, AFTER_DRAW, AFTER_EXPLAIN, AFTER_KEYCOUNT, AFTER_PLACE, AFTER_REPLAY,
    AFTER_RUN, AFTER_TRACE,
};
pub use laws::{each_refusal_is_explained, limits_are};
pub use options::{CheckOptions, Column, LAST_COLUMN, Options, PlaceOptions};
pub use words::{Job, Usage, read_words};
