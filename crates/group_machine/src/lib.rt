//! The cluster: a consumer group, the logs that it reads, and the committed offsets and counts.
//!
//! `Cluster` is a deterministic state machine without timers: each event is a call, and each call
//! that changes it is exactly the step that `specs/Steps.antt` and `specs/Cluster.antt` define. A
//! refusal is the first that applies, in order, and changes nothing. Invariant
//! (`specs/Valid.antt`): no partition is granted to two present members; what a member is assigned
//! is granted to it; a settled assignment is balanced; the store is exact over the logs.
//!
//! `group_laws` states what follows for sequences of steps. Tests: `driver_tests`.
#![tactic(auto)]

mod cluster;
mod commit;
mod group;
mod lease;

pub use cluster::{Cluster, NextStep};
pub use commit::Commit;
pub use group::{Members, Move, Phase};
pub use lease::Lease;
pub use partitioner::Name;
