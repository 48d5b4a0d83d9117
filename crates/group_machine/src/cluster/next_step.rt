//! What a member does next.

ghost use Rattle.std.specs.Prelude.{◌≡◌};
ghost use Rattle.group_machine.specs.NextSteps.{next_step};

use super::Cluster;
use crate::group::{Phase, slots};

/// What a present member does next to follow its group.
#[derive(Clone, Copy, Debug, PartialEq, Eq)]
pub enum NextStep {
    /// It syncs: it has neither joined nor synced.
    Sync,
    /// It rejoins: it has partitions to give up, or a generation is being prepared.
    Rejoin,
    /// It reads the partitions that it is assigned.
    Read,
}

impl Cluster {
    /// What a member does next. A member that is not present has no flags, so its next step is
    /// `Sync`, which is refused with `UnknownMember`.
    pub fn next_step(&self, member: u32) -> NextStep
        ensures { result ≡ next_step self.now.group member }
    {
        let Some(seat) = slots::seat_of(&self.group.slots, member) else {
            return NextStep::Sync;
        };
        if seat.joined {
            return NextStep::Read;
        }
        if !seat.synced {
            return NextStep::Sync;
        }
        if self.group.phase == Phase::Stable && seat.granted.same(&seat.assigned) {
            return NextStep::Read;
        }
        NextStep::Rejoin
    }
}
