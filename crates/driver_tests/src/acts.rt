//! The events of schedules, as tables have them: a constant cannot borrow a `Name`.

use group_machine::Name;
use lane_words::Memory;
use std::alloc::Global;
use std::process::Abort;
use world::{Event, Reply, World};

fn name(rt: &impl Abort, text: &[u8]) -> Name {
    Name::new(text).expect(rt, "a name")
}

/// Eight names of one letter.
pub fn eight_names(rt: &impl Abort, alloc: Global) -> Result<Vec<Name>, Memory> {
    let mut names = Vec::with_capacity(alloc, 8)?;
    for letter in b"ABCDEFGH" {
        names.push(name(rt, &[*letter]))?;
    }
    Ok(names)
}

/// An event of a schedule. A name is given by its index among the eight.
#[derive(Clone, Copy)]
pub enum Act<'a> {
    Join(usize),
    JoinKept(usize),
    TakeOver(usize),
    Append(&'a [u8]),
    AppendIn(u32, &'a [u8]),
    Sync(u32),
    Rejoin(u32),
    Leave(u32),
    Lose(u32),
    Poll {
        member: u32,
        partition: u32,
        records: u32,
    },
    Send {
        member: u32,
        partition: u32,
    },
    Deliver(u32),
    DeliverUnanswered(u32),
}

/// The event with these names, if the index of its name is below eight.
pub fn event_of<'a>(act: &Act<'a>, names: &'a [Name]) -> Option<Event<'a>> {
    let event = match act {
        Act::Join(n) => Event::Join(names.get(*n)?),
        Act::JoinKept(n) => Event::JoinKept(names.get(*n)?),
        Act::TakeOver(n) => Event::TakeOver(names.get(*n)?),
        act => nameless(act)?,
    };
    Some(event)
}

/// The event, if it has no name.
fn nameless<'a>(act: &Act<'a>) -> Option<Event<'a>> {
    let event = match act {
        Act::Append(key) => Event::Append(key),
        Act::AppendIn(topic, key) => Event::AppendIn(*topic, key),
        Act::Sync(member) => Event::Sync(*member),
        Act::Rejoin(member) => Event::Rejoin(*member),
        Act::Leave(member) => Event::Leave(*member),
        Act::Lose(member) => Event::Lose(*member),
        Act::Poll {
            member,
            partition,
            records,
        } => Event::Poll {
            member: *member,
            partition: *partition,
            records: *records,
        },
        Act::Send { member, partition } => Event::Send {
            member: *member,
            partition: *partition,
        },
        Act::Deliver(commit) => Event::Deliver(*commit),
        Act::DeliverUnanswered(commit) => Event::DeliverUnanswered(*commit),
        _ => return None,
    };
    Some(event)
}

/// A world's reply to an event with these names.
pub fn reply_to(world: &mut World, act: &Act<'_>, names: &[Name]) -> Option<Reply> {
    let event = event_of(act, names)?;
    Some(reply_of(world, event))
}

/// The reply to an event, without the contract of the call.
pub fn reply_of(world: &mut World, event: Event) -> Reply {
    world.step(event)
}
