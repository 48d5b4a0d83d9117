//! Gates, which decide when a worker may commit.

/// A gate's answer to a worker that is about to commit.
#[derive(Clone, Copy, Debug, PartialEq, Eq)]
pub enum GateAnswer {
    /// The worker commits.
    Go,
    /// The worker does not commit, and goes on with its turn. Records that it has not committed
    /// when it gives up their partition are read again by the next owner.
    NotNow,
    /// The run ends with `GateLimit`.
    Stop,
}

/// Asked before each commit of a run, with no lock held: a test can hold one worker back while the
/// others go on.
pub trait Gate {
    /// Whether this member may commit now, with its lease of this generation.
    fn ask(&self, member: u32, generation: u32) -> GateAnswer;
}
