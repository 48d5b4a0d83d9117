//! The coordinator as a C library: clusters and consumers behind handles, and a call for each step.
//!
//! It promises, of every call, whatever its arguments and the handles' states are:
//! - It makes exactly the step of `Cluster` or `Consumer` that its name says, returns 0, and writes
//!   its outputs. Or it returns a number that says why not, and changes nothing; but a mismatch
//!   tells the committed offset, and a list that has no room its length. A call without a handle
//!   has the result of `partitioner`, `sticky_assignor` or `coop_rebalance` instead.
//! - It requires nothing: what these crates require is tested here.
//!
//! `Calls`, `Consumers`, `Members`, `Places` and `Owners` in `specs/` have the forms of these
//! clauses. Tests: those of the bindings, over the built library.
#![tactic(auto)]

mod answers;
mod cluster;
mod lists;
mod member;
mod owners;
mod places;
mod seed;
