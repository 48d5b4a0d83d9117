//! The timeline of a replay: what a picture of it shows. It has a column for each step that shows,
//! with the generation that begins in it and what was polled, sent, delivered or refused; the
//! course of each partition, which is a list of spans with a holder; the members' names; the
//! commits that were sent; and sums. Promises:
//! - A `Timeline` has exactly the parts that it was made of.
//! - Holders and courses are compared exactly.
//!
//! Tests: `report_tests`, through `draw_report`.
#![tactic(auto)]

mod holders;
mod parts;
mod timeline;

pub use holders::{are_same_spans, is_read, is_same_holder};
pub use parts::{Column, End, Figures, Holder, Mark, Records, Sent, Span};
pub use timeline::Timeline;
