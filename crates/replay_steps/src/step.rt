//! A step, and who is shown it.

ghost use Rattle.std.specs.Prelude.{◌≡◌, ◌∷◌, [], ◌++◌, List, OnOk};
ghost use Rattle.replay_steps.specs.Steps.{StepTaken, taken};

use lane_words::{Memory, Refusal};
use world::{Reply, World};

/// What happens in a step. The member and its name are fields of the step.
#[derive(Clone, Copy, Debug)]
pub enum StepEvent {
    /// A record is appended.
    Append,
    /// A member joins.
    Join,
    /// A static member joins.
    Keep,
    /// A new member takes over the seat of a static one.
    Return,
    /// The member joins the rebalance.
    Rejoin,
    /// The member takes its lease.
    Sync,
    /// The member leaves.
    Leave,
    /// The member is lost.
    Lose,
    /// The member reads a partition.
    Poll { partition: u32 },
    /// The member sends a commit of a partition.
    Send { partition: u32 },
    /// The sent commit of this number, from 1, is delivered.
    Deliver(u32),
    /// The sent commit of this number is delivered, and the reply is lost.
    Unanswered(u32),
    /// The group has settled: the line itself, after the events that it chose.
    Settle,
    /// All logs are drained: the line itself, after the events that it chose.
    Drain,
}

/// A step of a script: an event, or the end of a `settle` or a `drain`.
#[derive(Clone, Copy, Debug)]
pub struct Step<'a> {
    /// The number of its line, from 1.
    pub line: u64,
    /// Its number among the steps of its line, from 1.
    pub number: u64,
    /// What happens.
    pub event: StepEvent,
    /// The number of the member that it is about: that of the name, or of the sender of the commit
    /// that is delivered. It is 0 if there is none, and for appends, joins, `settle` and `drain`.
    pub member: u32,
    /// The name that the line gives, also of nobody who ever joined; else the member's name, which
    /// is empty if there is none.
    pub name: &'a [u8],
    /// The reply to the event; nothing for a `settle` or a `drain`.
    pub reply: Option<Reply>,
    /// The refusal, if it was refused.
    pub answer: Result<(), Refusal>,
}

/// Is shown the steps of a script, one after the other.
pub trait StepObserver: Drop {
    // The second is the first after it was shown these steps, in order.
    ghost Shows: { Self → List StepTaken → Self → Type 0 };

    /// Is shown a step, and the world after it. An error is `Memory`, and ends the script.
    fn show(&mut self, step: &Step<'_>, world: &World) -> Result<(), Memory>
        ensures { OnOk result (Shows self.old (taken step.now world.now ∷ []) self.new) };

    ghost shows_nothing: { (o : Self) → Shows o [] o };

    ghost shows_more: { (a b c : Self) (first second : List StepTaken)
        → Shows a first b → Shows b second c → Shows a (first ++ second) c };
}

/// Is shown nothing.
#[derive(Drop)]
pub struct Unshown;

impl StepObserver for Unshown {
    ghost Shows = { λ a steps b. Unit {0} };

    fn show(&mut self, _step: &Step<'_>, _world: &World) -> Result<(), Memory> {
        Ok(())
    }

    ghost shows_nothing = { λ o. tt };

    ghost shows_more = { λ a b c first second x y. tt };
}
