//! Runs a plan: members join, leave and get lost, and each reads and commits in its own thread.
//!
//! Each call of `Planned` is one step of the cluster, so whatever the threads do under the lock is
//! a sequence of proved steps; the rebalance under way ends in the state that the applied lines
//! determine. If `run_cluster` succeeds, the cluster has the given logs, all committed to their
//! ends, each counter is the number of records of its key, and generation, owners and moves are
//! those of the plan.
//!
//! That a run ends, and that its workers run in parallel, is tested and not proved: in
//! `driver_tests`, modules `plans` and `runs`.
#![tactic(auto)]

mod fault;
mod gate;
mod planned;
mod reader;
mod run;

pub use gate::{Gate, GateAnswer};
pub use planned::Planned;
pub use run::{Outcome, run_cluster};
