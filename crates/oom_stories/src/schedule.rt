//! Stories of calls on a world.

ghost use Rattle.std.specs.Prelude.{◌<◌, ◌≡◌, true};
ghost use Rattle.partitioner.specs.Place.{AreTopics};

use crate::group::name;
use crate::stage::Stage;
use crate::{readers, state};
use anyhow::Result;
use lane_words::{Memory, Refusal};
use std::alloc::Global;
use std::io::Write;
use std::random::RandomSource;
use std::thread::Threads;
use world::{Event, Reply, World};

/// An event, with the text of its name or key.
#[derive(Clone, Copy, Debug)]
pub enum Call<'a> {
    Append(&'a str),
    Join(&'a str),
    JoinKept(&'a str),
    TakeOver(&'a str),
    Sync(u32),
    Rejoin(u32),
    Leave(u32),
    Lose(u32),
    /// A member, a partition, and the most records to read.
    Poll(u32, u32, u32),
    /// A member and a partition.
    Send(u32, u32),
    Deliver(u32),
    DeliverUnanswered(u32),
}

/// Each event at least once: joins, rejoins, losses and leaves with their completions.
const STEPS: [Call; 27] = [
    Call::Append("21"),
    Call::Append("21"),
    Call::Append("foobar"),
    Call::Join("A"),
    Call::Sync(1),
    Call::Poll(1, 0, 2),
    Call::Send(1, 0),
    Call::Deliver(1),
    Call::Join("B"),
    Call::Rejoin(1),
    Call::Sync(1),
    Call::Poll(1, 2, 1),
    Call::Send(1, 2),
    Call::DeliverUnanswered(2),
    Call::Rejoin(1),
    Call::Sync(2),
    Call::Rejoin(2),
    Call::Sync(2),
    Call::Join("C"),
    Call::Rejoin(2),
    Call::Leave(1),
    Call::Join("D"),
    Call::Sync(3),
    Call::Rejoin(3),
    Call::Lose(2),
    Call::JoinKept("E"),
    Call::TakeOver("E"),
];

/// Five records of four keys, each of which has a partition of its own among four.
const FIVE: [&[u8]; 5] = [b"21", b"4", b"foobar", b"abc", b"21"];

/// The topics of the records, if there are two topics.
const TOPICS: [u8; 5] = [0, 1, 1, 0, 1];

/// One record is read.
const READ: Event = Event::Poll {
    member: 1,
    partition: 0,
    records: 1,
};

/// Events that take no memory themselves.
const RUN: [Event; 4] = [READ, Event::Deliver(1), READ, Event::Deliver(1)];

/// A member that has read of two partitions, and another one that joins.
const TWO_MEMBERS: [Call; 5] = [
    Call::Join("A"),
    Call::Sync(1),
    Call::Poll(1, 2, 5),
    Call::Poll(1, 0, 1),
    Call::Join("B"),
];

/// A story of a world.
#[derive(Clone, Copy)]
pub enum Story {
    /// One event after the other.
    Steps,
    /// A run of events that take no memory themselves.
    Run,
    /// A load. After a refusal, the records that are left are loaded.
    Load,
    /// A load of records of two topics.
    LoadIn,
    /// Settles, with a commit of what the first member gives up.
    Settle,
    /// Drains all logs to their ends.
    Drain,
    /// Sends what a member has read.
    Send,
}

/// Prints a story of a world, and the world at its end.
pub fn report<R: RandomSource + Threads + Sync, W: Write>(
    rt: &R,
    stage: &mut Stage<W>,
    story: Story,
) -> Result<()> {
    let mut world = new_world(rt, stage.alloc, story)?;
    report_in(rt, stage, &mut world, story)
}

/// The world at the start of a story.
fn new_world<R: RandomSource>(rt: &R, alloc: Global, story: Story) -> Result<World, Memory> {
    match story {
        Story::LoadIn => World::with_topics(rt, alloc, &[2, 3]),
        _ => World::new(rt, alloc, 4),
    }
}

/// Prints a story of a new world. It does not own the world: each `?` of an owner is proved
/// together with the code that drops the world.
fn report_in<R: Threads + Sync, W: Write>(
    rt: &R,
    stage: &mut Stage<W>,
    world: &mut World,
    story: Story,
) -> Result<()> {
    make_ready(rt, world, story)?;
    match story {
        Story::Steps => report_steps(stage, world),
        Story::Run => stage.call("run", world, |world| run(world)),
        Story::Load => report_load(rt, stage, world),
        Story::LoadIn => report_load_in(rt, stage, world),
        Story::Settle => stage.call("settle", world, |world| settle(world)),
        Story::Drain => stage.call("drain", world, |world| drain(world, 500)),
        Story::Send => readers::report_sent(stage, world),
    }
    state::report_world(stage, world);
    Ok(())
}

/// Makes the events before the calls of a story.
fn make_ready<R: Threads + Sync>(rt: &R, world: &mut World, story: Story) -> Result<(), Refusal> {
    match story {
        Story::Steps | Story::Load | Story::LoadIn => Ok(()),
        Story::Run => {
            share(rt, world)?;
            all_accepted(world, &[Call::Send(1, 2)])
        }
        Story::Settle | Story::Drain => share(rt, world),
        Story::Send => all_accepted(world, &readers::BEFORE),
    }
}

/// Makes one event after the other.
fn report_steps<W: Write>(stage: &mut Stage<W>, world: &mut World) {
    for call in &STEPS {
        stage.call(
            format_args!("{call:?}"),
            world,
            |world| reply_of(world, *call),
        );
    }
}

/// Loads records; after a refusal, the records that are left.
fn report_load<R: Threads + Sync, W: Write>(rt: &R, stage: &mut Stage<W>, world: &mut World) {
    let mut done = 0;
    stage.call("load", world, |world| load_left(rt, world, &mut done));
}

/// The same, with records of two topics.
fn report_load_in<R: Threads + Sync, W: Write>(rt: &R, stage: &mut Stage<W>, world: &mut World) {
    let mut done = 0;
    stage.call("load_in", world, |world| load_left_in(rt, world, &mut done));
}

/// Loads the records that are not loaded yet, and counts all that are loaded then.
fn load_left<R: Threads + Sync>(
    rt: &R,
    world: &mut World,
    done: &mut usize,
) -> Result<(), Refusal> {
    let left = &FIVE[FIVE.len().min(*done)..];
    match load(rt, world, left) {
        Ok(()) => Ok(()),
        Err((before, why)) => {
            *done = done.saturating_add(before as usize);
            Err(why)
        }
    }
}

/// The same, with records in their topics.
fn load_left_in<R: Threads + Sync>(
    rt: &R,
    world: &mut World,
    done: &mut usize,
) -> Result<(), Refusal> {
    let from = FIVE.len().min(*done);
    match load_in(rt, world, &TOPICS[from..], &FIVE[from..]) {
        Ok(()) => Ok(()),
        Err((before, why)) => {
            *done = done.saturating_add(before as usize);
            Err(why)
        }
    }
}

/// Makes a world of five records, a member that has read two of them, and another one that has
/// joined.
fn share<R: Threads + Sync>(rt: &R, world: &mut World) -> Result<(), Refusal> {
    if let Err((_, why)) = load(rt, world, &FIVE) {
        return Err(why);
    }
    all_accepted(world, &TWO_MEMBERS)
}

/// Makes events, none of which is refused.
pub fn all_accepted(world: &mut World, calls: &[Call]) -> Result<(), Refusal> {
    for call in calls {
        reply_of(world, *call)?;
    }
    Ok(())
}

// The calls of a world, without their contracts: a function of several calls would otherwise be
// proved over all that these say.

fn step(world: &mut World, event: Event) -> Reply {
    world.step(event)
}

fn run(world: &mut World) -> Result<Vec<Reply>, Refusal> {
    Ok(world.run(&RUN)?)
}

fn load<R: Threads + Sync>(
    rt: &R,
    world: &mut World,
    keys: &[&[u8]],
) -> Result<(), (u64, Refusal)> {
    world.load(rt, keys)
}

fn load_in<R: Threads + Sync>(
    rt: &R,
    world: &mut World,
    topics: &[u8],
    keys: &[&[u8]],
) -> Result<(), (u64, Refusal)> {
    if !are_topics(world.cluster().topics(), keys.len(), topics) {
        return Err((0, Refusal::NoSuchTopic { nth: 0 }));
    }
    world.load_in(rt, topics, keys)
}

/// Whether there is a topic below `count` for each of `keys` keys.
fn are_topics(count: usize, keys: usize, topics: &[u8]) -> bool
    ensures { result ≡ true → AreTopics count keys topics.now }
{
    topics.len() == keys && topics.iter().all(|topic| (*topic as usize) < count)
}

fn settle(world: &mut World) -> Result<(), Refusal> {
    world.settle()
}

fn drain(world: &mut World, batch: u32) -> Result<(), Refusal>
    requires { 0 < batch }
{
    world.drain(batch)
}

/// The reply to an event, or why it is refused.
pub fn reply_of(world: &mut World, call: Call) -> Result<Reply, Refusal> {
    let reply = match call {
        Call::Append(key) => step(world, Event::Append(key.as_bytes())),
        Call::Join(text) => step(world, Event::Join(&name(text)?)),
        Call::JoinKept(text) => step(world, Event::JoinKept(&name(text)?)),
        Call::TakeOver(text) => step(world, Event::TakeOver(&name(text)?)),
        Call::Sync(member) => step(world, Event::Sync(member)),
        Call::Rejoin(member) => step(world, Event::Rejoin(member)),
        Call::Leave(member) => step(world, Event::Leave(member)),
        Call::Lose(member) => step(world, Event::Lose(member)),
        Call::Poll(member, partition, records) => step(
            world,
            Event::Poll {
                member,
                partition,
                records,
            },
        ),
        Call::Send(member, partition) => step(world, Event::Send { member, partition }),
        Call::Deliver(number) => step(world, Event::Deliver(number)),
        Call::DeliverUnanswered(number) => step(world, Event::DeliverUnanswered(number)),
    };
    match reply {
        Reply::Refused(why) => Err(why),
        _ => Ok(reply),
    }
}
