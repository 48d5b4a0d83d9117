//! The keys of a file that is read as a stream, in rounds.
//!
//! It promises:
//! - `Window` has the bytes that were read and not yet taken, and `refill` reads on.
//! - `Counting::split` splits a text into chunks, and `take_and_read` counts them in several
//!   threads, or a short text in the calling thread: what is counted are the keys of the bytes that
//!   were taken, and a fault is that of the file's first bad record. It also reads on into the
//!   next window.
//! - `Counters::totals` returns the distinct keys in the order of their first appearance, and how
//!   often each occurs.
//!
//! Tests: `report_tests`.
#![tactic(auto)]

mod ahead;
mod counting;
mod round;
mod settling;
mod source;
mod tally;
mod window;
mod worker;

pub use ahead::take_and_read;
pub use counting::{Counting, Split};
pub use round::Round;
pub use source::refill;
pub use tally::Counters;
pub use window::Window;
pub use worker::{Layout, Worker};
