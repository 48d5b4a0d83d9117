//! Records the timeline of a replay, step by step. Promises:
//! - A `Recorder` is an observer of the steps of a script (`replay_steps`). It has recorded exactly
//!   what the definition says of the steps that it was shown (`specs/Recording.antt`), in order.
//! - A partition is read by the present member that it is granted to, if its consumer holds it
//!   (`specs/Courses.antt`). By a law no other present member's consumer holds it. What a step
//!   marks is in `specs/Marks.antt`.
//! - `finished` adds the sums of all: among them how many records were read more than once
//!   (`specs/Reads.antt`).
//! - Only an allocation can fail.
//!
//! Tests: `report_tests`, through `draw_report`, and the black-box tests.
#![tactic(auto)]

mod courses;
mod laws;
mod marks;
mod reads;
mod recorder;

pub use laws::whoever_holds_a_partition_reads_it;
pub use recorder::Recorder;
