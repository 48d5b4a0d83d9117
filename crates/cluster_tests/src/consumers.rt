//! A consumer on its own: each call that needs no cluster, once. `driver_tests` covers leases,
//! polls and sends.

ghost use Rattle.std.specs.Prelude.{◌≤◌};

use consumer::Consumer;
use lane_words::{MOST_PARTITIONS, Memory, Refusal};
use std::alloc::Global;

/// A call on a consumer, or a check of its state.
#[derive(Clone, Copy)]
enum Step {
    /// It has joined as this member.
    Joined(u32),
    /// It gives up what it is not assigned.
    GiveUp,
    /// It drops all.
    DropAll,
    /// It takes the reply to a commit of the first partition.
    Answered(Result<u32, Refusal>),
    /// Its member number.
    Is(Option<u32>),
    /// It is out, in generation 0, with this many partitions.
    IsNew(u32),
    /// Whether a partition has pending records.
    Sendable(u32, Result<(), Refusal>),
    /// It claims nothing, and does not hold the first partition.
    HoldsNothing,
}

/// The steps for a consumer of this many partitions.
fn steps(partitions: u32) -> [Step; 15] {
    [
        Step::IsNew(partitions),
        Step::Sendable(0, Err(Refusal::OutOfGroup)),
        Step::Joined(7),
        Step::Is(Some(7)),
        Step::Sendable(partitions, Err(Refusal::NotHeld)),
        Step::HoldsNothing,
        Step::GiveUp,
        Step::Answered(Ok(5)),
        Step::Answered(Err(Refusal::StaleGeneration)),
        Step::Is(Some(7)),
        Step::Answered(Err(Refusal::UnknownMember)),
        Step::Is(None),
        Step::Joined(8),
        Step::DropAll,
        Step::Is(None),
    ]
}

/// Makes the call of a step, or returns whether its check holds.
fn holds_after(consumer: &mut Consumer, step: &Step) -> bool {
    match step {
        Step::Joined(member) => consumer.joined(*member),
        Step::GiveUp => consumer.give_up(),
        Step::DropAll => consumer.drop_all(),
        Step::Answered(reply) => consumer.answered(0, *reply),
        step => return check_holds(consumer, step),
    }
    true
}

/// Whether the check of a step holds.
fn check_holds(consumer: &Consumer, step: &Step) -> bool {
    match step {
        Step::Is(member) => consumer.member() == *member,
        Step::IsNew(partitions) => {
            consumer.member().is_none()
                && consumer.generation() == 0
                && consumer.partitions() == *partitions
        }
        Step::Sendable(p, answer) => consumer.sendable(*p) == *answer,
        Step::HoldsNothing => {
            consumer.claim().count() == 0
                && !consumer.holds(0)
                && consumer.base(0) == 0
                && consumer.position(0) == 0
        }
        _ => false,
    }
}

/// The first step whose check fails.
fn first_other(consumer: &mut Consumer, steps: &[Step]) -> Option<usize> {
    for (index, step) in steps.iter().enumerate() {
        if !holds_after(consumer, step) {
            return Some(index);
        }
    }
    None
}

/// The first step whose check fails, for a consumer of this many partitions.
fn first_other_of(alloc: Global, partitions: u32) -> Result<Option<usize>, Memory>
    requires { (1 ≤ partitions) × (partitions ≤ MOST_PARTITIONS) }
{
    let mut consumer = Consumer::new(alloc, partitions)?;
    Ok(first_other(&mut consumer, &steps(partitions)))
}

#[test]
fn one_that_is_out_holds_nothing(rt: HostRuntime) {
    for partitions in [1, 4, 4096] {
        let other = first_other_of(rt.alloc(), partitions);
        assert_eq!(rt; other, Ok(None), "{partitions} partitions");
    }
}
