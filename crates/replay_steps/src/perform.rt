//! Performs the lines of a script.

ghost use Rattle.std.specs.Prelude.{◌≡◌, ◌≤◌, ◌⊎◌, ℕ, IfOk, IfErr, OnOk, ◌≢◌, ◌∷◌, [], Err};
ghost use Rattle.lane_words.specs.declared.Refusal.TheVariants as refusal;
ghost use Rattle.world.specs.Courses.{outcome_of};
ghost use Rattle.world.specs.Draining.{draining};
ghost use Rattle.world.specs.Settling.{settling};
ghost use Rattle.replay_steps.specs.Lines.{number_named, outcome_of_action, outcome_of_course, outcome_of_event, outcome_of_line, steps_of_lines};
ghost use Rattle.replay_steps.specs.Private.Walks.{IsEvent, IsEventOf, Performs, name_for};
ghost use Rattle.replay_steps.specs.Shown.{AreShown, IsLineFault, IsScriptFault, IsShownLine};
ghost use Rattle.replay_steps.specs.Steps.{closing_step, member_of, step_event};
ghost use Rattle.replay_steps.specs.declared.step.StepEvent.TheVariants as what;

use crate::step::{StepEvent, StepObserver};
use crate::walk::{self, Walk};
use group_machine::Name;
use lane_words::{Memory, Refusal};
use script::{Action, Line};
use world::{Event, World};

/// The number of the member of this name, or 0, which is no member's number.
fn number_named(world: &World, name: &Name) -> u32
    ensures { result ≡ number_named world.now.cluster.group name.now }
{
    world.cluster().member_named(name).unwrap_or(0)
}

/// The event that a line stands for.
#[tactic(auto, unfolding(crate::specs::Lines::outcome_of_action))]
fn event_of<'a>(world: &World, action: &'a Action) -> Event<'a>
    requires { IsEvent action.now }
    ensures { IsEventOf world.now action.now result }
{
    match action {
        Action::Append(key) => Event::Append(key.bytes()),
        Action::AppendIn { topic, key } => Event::AppendIn(*topic, key.bytes()),
        Action::Join(name) => Event::Join(name),
        Action::Keep(name) => Event::JoinKept(name),
        Action::Return(name) => Event::TakeOver(name),
        Action::Rejoin(name) => Event::Rejoin(number_named(world, name)),
        Action::Sync(name) => Event::Sync(number_named(world, name)),
        Action::Leave(name) => Event::Leave(number_named(world, name)),
        Action::Lose(name) => Event::Lose(number_named(world, name)),
        Action::Poll {
            name,
            partition,
            most,
        } => Event::Poll {
            member: number_named(world, name),
            partition: *partition,
            records: *most,
        },
        Action::Send { name, partition } => Event::Send {
            member: number_named(world, name),
            partition: *partition,
        },
        Action::Deliver(number) => Event::Deliver(*number),
        Action::Unanswered(number) => Event::DeliverUnanswered(*number),
        Action::Settle | Action::Drain => unreachable!(),
    }
}

/// The name that an action gives; else that of the member, in the world afterwards.
fn name_for<'a>(world: &'a World, action: &'a Action, member: u32) -> &'a [u8]
    ensures { result.now ≡ name_for world.now action.now member }
{
    match action {
        Action::Join(name) | Action::Keep(name) | Action::Return(name) => name.text(),
        Action::Rejoin(name) | Action::Sync(name) => name.text(),
        Action::Leave(name) | Action::Lose(name) => name.text(),
        Action::Poll { name, .. } | Action::Send { name, .. } => name.text(),
        Action::Deliver(_) | Action::Unanswered(_) => walk::name_of_member(world, member),
        _ => b"",
    }
}

/// Performs a line that is one event, and shows its step.
fn perform_event<O: StepObserver>(
    world: &mut World,
    action: &Action,
    walk: &mut Walk<O>,
) -> Result<Result<(), Refusal>, Memory>
    requires event { IsEvent action.now }
    requires start { walk.old.next ≡ 1 }
    ensures { (batch : ℕ) → Performs O.Shows
        (outcome_of_action batch world.old walk.old.line action.now)
        walk.old.observer result world.new walk.new.observer }
{
    let event = event_of(world, action);
    let reply = world.step(event);
    let answer = reply.answer();
    if answer == Err(Refusal::Memory) {
        return Err(Memory);
    }
    let member = walk::member_of(world, event);
    let name = name_for(world, action, member);
    walk.show_event(walk::step_event(event), member, name, reply, world)?;
    Ok(answer)
}

/// Shows the end of a line that settled or drained.
fn end_course<O: StepObserver>(
    world: &World,
    event: StepEvent,
    answer: Result<(), Refusal>,
    walk: &mut Walk<O>,
) -> Result<Result<(), Refusal>, Memory>
    ensures value { IfOk result (λ value. value ≡ answer) }
    ensures shown { OnOk result (O.Shows walk.old.observer
        (closing_step walk.old.line walk.old.next event answer world.now ∷ [])
        walk.new.observer) }
    ensures kind { OnOk result (answer ≢ Err refusal.Memory) }
{
    if answer == Err(Refusal::Memory) {
        return Err(Memory);
    }
    walk.show_end(event, answer, world)?;
    Ok(answer)
}

/// Performs a line that settles, and shows its steps.
fn perform_settle<O: StepObserver>(
    world: &mut World,
    walk: &mut Walk<O>,
) -> Result<Result<(), Refusal>, Memory>
    requires { walk.old.next ≡ 1 }
    ensures { Performs O.Shows
        (outcome_of_course walk.old.line what.Settle world.old (settling world.old))
        walk.old.observer result world.new walk.new.observer }
{
    let answer = world.settle_observed(walk);
    end_course(world, StepEvent::Settle, answer, walk)
}

/// Performs a line that drains, and shows its steps.
fn perform_drain<O: StepObserver>(
    world: &mut World,
    batch: u32,
    walk: &mut Walk<O>,
) -> Result<Result<(), Refusal>, Memory>
    requires batch { 1 ≤ batch }
    requires start { walk.old.next ≡ 1 }
    ensures { Performs O.Shows
        (outcome_of_course walk.old.line what.Drain world.old (draining batch world.old))
        walk.old.observer result world.new walk.new.observer }
{
    let answer = world.drain_observed(batch, walk);
    end_course(world, StepEvent::Drain, answer, walk)
}

/// Performs an action of a line, and shows its steps.
#[tactic(auto, unfolding(crate::specs::Lines::outcome_of_action))]
fn perform_action<O: StepObserver>(
    world: &mut World,
    action: &Action,
    batch: u32,
    walk: &mut Walk<O>,
) -> Result<Result<(), Refusal>, Memory>
    requires batch { 1 ≤ batch }
    requires start { walk.old.next ≡ 1 }
    ensures { Performs O.Shows (outcome_of_action batch world.old walk.old.line action.now)
        walk.old.observer result world.new walk.new.observer }
{
    match action {
        Action::Settle => perform_settle(world, walk),
        Action::Drain => perform_drain(world, batch, walk),
        _ => perform_event(world, action, walk),
    }
}

/// Performs a line, and shows its steps. Fails if it would pass the last generation.
fn perform<O: StepObserver>(
    world: &mut World,
    line: &Line,
    batch: u32,
    walk: &mut Walk<O>,
) -> Result<Result<(), Refusal>, Refusal>
    requires { 1 ≤ batch }
    ensures line { IfOk result (λ answer. IsShownLine O.Shows
        (outcome_of_line batch world.old line.now)
        walk.old.observer answer world.new walk.new.observer) }
    ensures fault { IfErr result (IsLineFault (outcome_of_line batch world.old line.now).answer) }
{
    walk.begin(line.number);
    let answer = perform_action(world, &line.action, batch, walk)?;
    if answer == Err(Refusal::GenerationsOver) {
        return Err(Refusal::GenerationsOver);
    }
    Ok(answer)
}

/// Performs a line of a script, and shows its steps to an observer, which is returned with the
/// line's answer.
///
/// The errors are those that end the whole script: `GenerationsOver` if the line would pass the
/// last generation, and `Memory` if an allocation failed or the observer did.
pub fn perform_line<O: StepObserver>(
    world: &mut World,
    line: &Line,
    batch: u32,
    observer: O,
) -> Result<(O, Result<(), Refusal>), Refusal>
    requires { 1 ≤ batch }
    ensures line { IfOk result (λ shown. IsShownLine O.Shows
        (outcome_of_line batch world.old line.now) observer shown.1 world.new shown.0) }
    ensures fault { IfErr result (IsLineFault (outcome_of_line batch world.old line.now).answer) }
{
    let mut walk = Walk::new(observer);
    let answer = perform(world, line, batch, &mut walk)?;
    Ok((walk.observer, answer))
}

/// Performs the lines of a script, and shows all steps to an observer, which is returned.
///
/// Errors: `GenerationsOver` if a line would pass the last generation, and `Memory` if an
/// allocation failed or the observer did.
pub fn perform_lines<O: StepObserver>(
    world: &mut World,
    lines: &[Line],
    batch: u32,
    observer: O,
) -> Result<O, Refusal>
    requires { 1 ≤ batch }
    ensures steps { IfOk result (AreShown O.Shows (steps_of_lines batch world.old lines.now)
        world.old observer world.new) }
    ensures fault { IfErr result (IsScriptFault (steps_of_lines batch world.old lines.now)) }
{
    let mut walk = Walk::new(observer);
    for line in lines {
        // The answer is among the steps.
        let _ = perform(world, line, batch, &mut walk)?;
    }
    Ok(walk.observer)
}
