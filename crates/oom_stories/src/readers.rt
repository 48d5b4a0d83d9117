//! Stories of consumers: a new one, and one that sends.

use crate::schedule::{self, Call, Story};
use crate::stage::Stage;
use crate::state::Terms;
use anyhow::Result;
use consumer::Consumer;
use group_machine::Commit;
use lane_words::Refusal;
use std::alloc::Global;
use std::fmt;
use std::io::Write;
use std::random::RandomSource;
use std::thread::Threads;
use world::World;

/// A commit that was sent.
#[derive(Drop)]
struct CommitSent(Commit);

impl fmt::Debug for CommitSent {
    fn fmt<W: fmt::Write>(&self, f: &mut fmt::Formatter<W>) -> fmt::Result {
        let terms = Terms(&self.0);
        write!(f, "{terms}")
    }
}

/// The events before: a member reads two records.
pub const BEFORE: [Call; 5] = [
    Call::Append("21"),
    Call::Append("21"),
    Call::Join("A"),
    Call::Sync(1),
    Call::Poll(1, 0, 2),
];

/// Makes a consumer, and lets the consumer of a world send what it has read.
pub fn report<R: RandomSource + Threads + Sync, W: Write>(
    rt: &R,
    stage: &mut Stage<W>,
) -> Result<()> {
    let mut alloc = stage.alloc;
    stage.call("Consumer::new", &mut alloc, |alloc| made(*alloc));
    schedule::report(rt, stage, Story::Send)
}

/// The number of partitions of a new consumer.
fn made(alloc: Global) -> Result<u32, Refusal> {
    Ok(Consumer::new(alloc, 4)?.partitions())
}

/// Lets the consumer of a world send what it has read.
pub fn report_sent<W: Write>(stage: &mut Stage<W>, world: &mut World) {
    stage.call("send", world, |world| sent(world));
}

/// The commit of the records of partition 0 that member 1 has read.
fn sent(world: &World) -> Result<CommitSent, Refusal> {
    let Some(consumer) = world.consumer(1) else {
        return Err(Refusal::UnknownMember);
    };
    Ok(CommitSent(consumer.send(world.cluster().logs(), 0)?))
}
