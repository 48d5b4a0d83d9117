//! A world: a cluster, the consumers of its members, and the commits that they sent, under any
//! schedule of events. Commits may be delivered late, again, or without an answer.
//!
//! `step` is one event, with its reply and the world after it. The invariant (`specs/Valid.antt`)
//! holds whatever the schedule. `settle` and `drain` make the events that their definitions list,
//! up to the first refusal. If they succeed, the rebalance has ended as it had to, and `drain` has
//! committed all logs to their ends. Whenever all are, each key's count is the number of its
//! records, however late, often or unanswered the commits were delivered. By a law, `limits_are`,
//! the limit on the commits under way has the number that the documents say.
//!
//! Tests: `driver_tests`, module `worlds`, and `oom_stories`, which refuse memory.
#![tactic(auto)]

mod event;
mod laws;
mod observer;
mod parts;
mod world;

pub use event::{Event, MOST_COMMITS, Reply};
pub use laws::{full_commit_counts_all_records, limits_are};
pub use observer::{Observer, Unobserved};
pub use world::World;
