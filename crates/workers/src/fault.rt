//! Why a run fails.

ghost use Rattle.workers.specs.Runs.{IsRunRefusal};

use lane_words::{Memory, Refusal};

/// Why a run fails.
#[derive(Clone, Copy, Debug, PartialEq, Eq)]
pub enum Fault {
    /// Out of memory, or a thread could not be started.
    Memory,
    /// The gate answered `Stop`.
    GateLimit,
    /// The logs or the plan under the lock differ from the given ones, or the workers ended early.
    Differs,
}

impl Fault {
    /// The refusal that reports it.
    pub fn refusal(self) -> Refusal
        ensures { IsRunRefusal result }
    {
        match self {
            Fault::Memory => Refusal::Memory,
            Fault::GateLimit => Refusal::GateLimit,
            Fault::Differs => Refusal::Differs,
        }
    }
}

impl From<Memory> for Fault {
    fn from(_error: Memory) -> Fault {
        Fault::Memory
    }
}
