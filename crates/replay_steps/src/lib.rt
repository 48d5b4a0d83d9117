//! The steps of a script: what each line does to a world, event by event. Promises:
//! - `perform_lines` performs the lines of a script and shows each step to an observer: each event,
//!   those that `settle` and `drain` choose included, with the reply and the world afterwards, and
//!   then the `settle` or `drain` itself. `perform_line` does so with one line.
//! - What is shown is defined by the world, the lines and the batch alone. A line that would pass
//!   the last generation ends the script with `GenerationsOver`.
//!
//! So reports of a replay that tell more or less of it are functions of the same steps.
//!
//! Tests: `report_tests`, through the reports.
#![tactic(auto)]

mod laws;
mod perform;
mod reasons;
mod step;
mod walk;

pub use laws::a_line_ends_with_its_last_step;
pub use perform::{perform_line, perform_lines};
pub use reasons::reason_of;
pub use step::{Step, StepEvent, StepObserver, Unshown};
pub use walk::name_of_member;
