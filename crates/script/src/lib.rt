//! Parses scripts: the commands of a replay, and the plan of a run.
//!
//! - `read_replay`, and `read_replay_topics` with topics, returns the commands of all lines with
//!   their line numbers, or the number of the first line that is not valid. By two laws, exactly
//!   the lines in a form of an action parse, and they parse to that action. `FORMS` are the forms
//!   as they are shown; by a third law each action has one.
//! - `read_plan` returns the changes of all lines, or the fault of the first line that has one. In
//!   a `Plan` each line may follow those before it, and after each line somebody is present.
//! - `first_line`, `parse_action`, `parse_change` and a `Roster` do the same line by line.
//! - Either may instead fail with `Memory`.
//! - By a law, `limits_are`, each limit has the number that the documents say.
//!
//! Tests: `driver_tests`, modules `scripts` and `plans`.
#![tactic(auto)]

mod action;
mod forms;
mod laws;
mod limits;
mod lines;
mod plan;
mod replay;
mod topics;
mod words;

pub use action::{Action, Key};
pub use forms::{FORMS, Form, PLAN_FORMS};
pub use laws::{a_plan_is_short, forms_are_read, forms_are_shown, no_others_are_read};
pub use limits::{LONGEST_LINE, MOST_DIGITS, NO_PARTITION, limits_are};
pub use lines::{first_line, parse_action};
pub use partitioner::Topic;
pub use plan::{Change, Plan, Roster, parse_change, read_plan};
pub use replay::{Line, read_replay, read_replay_topics};
pub use words::first_word;
