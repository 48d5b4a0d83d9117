//! The report of `draw`: a replay as a picture, from the bytes of a file and of a script to those
//! of the SVG. Promises:
//! - `draw_text` appends to the sink the picture that the bytes of both files and the options
//!   define: all of it, a prefix of it after `WriteFailed`, and nothing after any other refusal.
//!   Its faults, and their order, are those of a replay.
//! - The picture is a function of the timeline (`timeline_svg`), and the timeline one of the steps
//!   of the script (`timeline_recorder`, `replay_steps`), which `trace` lists.
//! - No picture is ever the result of a failed allocation: if one fails, nothing is written.
//!
//! Tests: `report_tests`.
#![tactic(auto)]

mod draw;

pub use draw::draw_text;
