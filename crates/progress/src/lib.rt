//! How far a long read has come, on a line of a terminal.
//!
//! It promises:
//! - A `Watched` source gives the bytes of the source that it watches, and fails where that fails.
//! - `progress_text` is the text that is shown: the bytes read, of how many, and the rate.
//!
//! When it is shown is tested, and not proved.
//!
//! Tests: the part `progress` of the black-box tests.
#![tactic(auto)]

mod line;
mod text;
mod watched;

pub use line::ProgressLine;
pub use text::{Progress, progress_text};
pub use watched::{Watched, Watcher};
