//! Numbers the steps of a line and shows them.

ghost use Rattle.std.specs.Prelude.{◌≡◌, ◌+◌, ◌∷◌, [], length, OnOk};
ghost use Rattle.replay_steps.specs.Private.Walks.{ShowsOfLine};
ghost use Rattle.replay_steps.specs.Steps.{closing_step, member_of, name_of_member, sender_of, step_event, step_replied, steps_of_seen};
ghost use Rattle.replay_steps.specs.Private.ShownLaws.{shows_of_none, shows_of_more};

use crate::step::{Step, StepEvent, StepObserver};
use lane_words::{Memory, Refusal};
use world::{Event, Observer, Reply, World};

/// Shows the steps of one line after the other to an observer.
#[derive(Drop)]
pub struct Walk<O> {
    /// Who is shown the steps.
    pub observer: O,
    /// The number of the line.
    pub line: u64,
    /// The number of its next step, from 1.
    pub next: u64,
}

impl<O: StepObserver> Walk<O> {
    /// A walk before its first line.
    pub fn new(observer: O) -> Walk<O>
        ensures { result.observer ≡ observer }
    {
        Walk {
            observer,
            line: 0,
            next: 1,
        }
    }

    /// Begins a line.
    pub fn begin(&mut self, line: u64)
        ensures line { self.new.line ≡ line }
        ensures start { self.new.next ≡ 1 }
        ensures same { self.new.observer ≡ self.old.observer }
    {
        self.line = line;
        self.next = 1;
    }

    /// Shows an event, about this member under this name.
    pub fn show_event(
        &mut self,
        event: StepEvent,
        member: u32,
        name: &[u8],
        reply: Reply,
        world: &World,
    ) -> Result<(), Memory>
        ensures shown { OnOk result (O.Shows self.old.observer
            (step_replied self.old.line self.old.next event member name.now reply world.now ∷ [])
            self.new.observer) }
        ensures same_line { self.new.line ≡ self.old.line }
        ensures same_next { self.new.next ≡ self.old.next }
    {
        let step = Step {
            line: self.line,
            number: self.next,
            event,
            member,
            name,
            reply: Some(reply),
            answer: reply.answer(),
        };
        self.observer.show(&step, world)
    }

    /// Shows the end of a line that settles or drains.
    pub fn show_end(
        &mut self,
        event: StepEvent,
        answer: Result<(), Refusal>,
        world: &World,
    ) -> Result<(), Memory>
        ensures { OnOk result (O.Shows self.old.observer
            (closing_step self.old.line self.old.next event answer world.now ∷ [])
            self.new.observer) }
    {
        let step = Step {
            line: self.line,
            number: self.next,
            event,
            member: 0,
            name: b"",
            reply: None,
            answer,
        };
        self.observer.show(&step, world)
    }
}

impl<O: StepObserver> Observer for Walk<O> {
    ghost Sees = { λ a seen b. ShowsOfLine O.Shows a.line a.next a.observer seen b.line b.next
        b.observer };

    fn see(&mut self, event: Event<'_>, reply: Reply, world: &World) -> Result<(), Memory> {
        let member = member_of(world, event);
        let name = name_of_member(world, member);
        self.show_event(step_event(event), member, name, reply, world)?;
        // More steps than a u64 counts do not fit into memory.
        let Some(next) = self.next.checked_add(1) else {
            return Err(Memory);
        };
        self.next = next;
        Ok(())
    }

    ghost sees_nothing = { λ a. shows_of_none O.Shows O.shows_nothing a.line a.next a.observer };

    ghost sees_more = { λ a b c first second x y. shows_of_more O.Shows O.shows_more
        a.line a.next a.observer first b.line b.next b.observer second c.line c.next c.observer
        x y };
}

/// What happens in an event.
pub fn step_event(event: Event<'_>) -> StepEvent
    ensures { result ≡ step_event event.entry }
{
    match event {
        Event::Append(_) | Event::AppendIn(..) => StepEvent::Append,
        Event::Join(_) => StepEvent::Join,
        Event::JoinKept(_) => StepEvent::Keep,
        Event::TakeOver(_) => StepEvent::Return,
        Event::Sync(_) => StepEvent::Sync,
        Event::Rejoin(_) => StepEvent::Rejoin,
        Event::Leave(_) => StepEvent::Leave,
        Event::Lose(_) => StepEvent::Lose,
        Event::Poll { partition, .. } => StepEvent::Poll { partition },
        Event::Send { partition, .. } => StepEvent::Send { partition },
        Event::Deliver(number) => StepEvent::Deliver(number),
        Event::DeliverUnanswered(number) => StepEvent::Unanswered(number),
    }
}

/// The number of the member that sent a commit of the mail, or 0 if there is no such commit.
pub fn sender_of(world: &World, commit: u32) -> u32
    ensures { result ≡ sender_of world.now commit }
{
    if commit == 0 {
        return 0;
    }
    match world.mail().get(commit as usize - 1) {
        Some(commit) => commit.member(),
        None => 0,
    }
}

/// The number of the member that an event is about, or 0 if there is none.
pub fn member_of(world: &World, event: Event<'_>) -> u32
    ensures { result ≡ member_of world.now event.entry }
{
    match event {
        Event::Sync(member) | Event::Rejoin(member) | Event::Leave(member) => member,
        Event::Lose(member) => member,
        Event::Poll { member, .. } | Event::Send { member, .. } => member,
        Event::Deliver(number) | Event::DeliverUnanswered(number) => sender_of(world, number),
        _ => 0,
    }
}

/// The name of a member, or nothing if there is none of this number.
pub fn name_of_member(world: &World, member: u32) -> &[u8]
    ensures { result.now ≡ name_of_member world.now member }
{
    match world.cluster().name(member) {
        Some(name) => name.text(),
        None => b"",
    }
}
