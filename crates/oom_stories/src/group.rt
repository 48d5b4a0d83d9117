//! Stories of calls on a cluster.

use crate::stage::Stage;
use crate::state;
use anyhow::Result;
use bit_planes::Plane;
use group_machine::{Cluster, Commit, Name};
use keyed_table::Partial;
use lane_words::Refusal;
use std::alloc::{AllocError, Global};
use std::io::Write;
use std::random::RandomSource;
use world::Reply;

const PARTITIONS: u32 = 4;

/// A call on a cluster. Its reply is the one of a world.
#[derive(Clone, Copy, Debug)]
pub enum Call<'a> {
    Append(&'a str),
    Join(&'a str),
    JoinKept(&'a str),
    TakeOver(&'a str),
    Sync(u32),
    /// A member, a generation, and the claim.
    Rejoin(u32, u32, &'a [u32]),
    Leave(u32),
    Lose(u32),
    /// A member, a generation, a partition, an offset, and the key ids from there on.
    Commit(u32, u32, u32, u32, &'a [u32]),
}

/// Members that are out of date or lost, and commits and claims that are not theirs.
pub const ZOMBIES: [Call; 15] = [
    Call::Append("21"),
    Call::Append("21"),
    Call::Join("A"),
    Call::Sync(1),
    Call::Join("B"),
    Call::Commit(2, 1, 0, 0, &[0, 0]),
    Call::Commit(1, 1, 0, 0, &[0, 1]),
    Call::Rejoin(1, 1, &[0, 1]),
    Call::Rejoin(1, 0, &[0, 1, 2, 3]),
    Call::Rejoin(2, 1, &[]),
    Call::Lose(1),
    Call::Commit(1, 1, 0, 0, &[0, 0]),
    Call::Commit(2, 1, 0, 0, &[0, 0]),
    Call::Commit(2, 2, 0, 0, &[0, 0]),
    Call::Commit(2, 2, 0, 0, &[0, 0]),
];

/// Two members share partitions in two rounds, a third is left with all of them, and a fourth takes
/// over its seat.
pub const TWO_ROUNDS: [Call; 17] = [
    Call::Append("abc"),
    Call::Join("A"),
    Call::Join("B"),
    Call::Sync(1),
    Call::Rejoin(1, 1, &[0, 1, 2, 3]),
    Call::Sync(1),
    Call::Rejoin(1, 2, &[0, 1]),
    Call::Sync(2),
    Call::Rejoin(2, 2, &[]),
    Call::Leave(1),
    Call::Sync(2),
    Call::Rejoin(2, 3, &[2, 3]),
    Call::Join("C"),
    Call::Leave(2),
    Call::Lose(3),
    Call::JoinKept("D"),
    Call::TakeOver("D"),
];

/// Makes the calls, and prints the cluster.
pub fn report<R: RandomSource, W: Write>(
    rt: &R,
    stage: &mut Stage<W>,
    calls: &[Call],
) -> Result<()> {
    let mut cluster = Cluster::new(rt, stage.alloc, PARTITIONS)?;
    report_in(stage, &mut cluster, calls)
}

/// Makes the calls on a new cluster.
fn report_in<W: Write>(stage: &mut Stage<W>, cluster: &mut Cluster, calls: &[Call]) -> Result<()> {
    for call in calls {
        report_call(stage, cluster, *call)?;
    }
    state::report_cluster(stage, cluster);
    Ok(())
}

/// Makes one call. The partial counts of a commit are made before it.
fn report_call<W: Write>(stage: &mut Stage<W>, cluster: &mut Cluster, call: Call) -> Result<()> {
    let commit = &commit_of(stage.alloc, call)?;
    stage.call(format_args!("{call:?}"), cluster, |cluster| match commit {
        Some(commit) => committed(cluster, commit),
        None => reply_of(cluster, call),
    });
    Ok(())
}

/// The partial counts that a call commits, if it is a commit.
fn commit_of(alloc: Global, call: Call) -> Result<Option<Commit>> {
    let Call::Commit(member, generation, partition, from, ids) = call else {
        return Ok(None);
    };
    let partial = partial_of(alloc, ids)?;
    Ok(Some(Commit::new(member, generation, partition, from, partial)))
}

/// Commits to the cluster.
fn committed(cluster: &mut Cluster, commit: &Commit) -> Result<Reply, Refusal> {
    Ok(Reply::Committed(cluster.commit(commit)?))
}

/// Key ids with their counts.
fn partial_of(alloc: Global, ids: &[u32]) -> Result<Partial> {
    Ok(Partial::of(Vec::from_slice(alloc, ids)?))
}

/// Makes a call that is not a commit.
fn reply_of(cluster: &mut Cluster, call: Call) -> Result<Reply, Refusal> {
    match call {
        Call::Append(key) => {
            let (partition, offset) = cluster.append(key.as_bytes())?;
            Ok(Reply::Appended(partition, offset))
        }
        Call::Join(text) => cluster.join(name(text)?).map(Reply::Joined),
        Call::JoinKept(text) => cluster.join_kept(name(text)?).map(Reply::Joined),
        Call::TakeOver(text) => cluster.take_over(&name(text)?).map(Reply::TakenOver),
        Call::Sync(member) => Ok(Reply::Leased(cluster.sync(member)?.generation())),
        Call::Rejoin(member, generation, claim) => cluster
            .rejoin(member, generation, &set_of(claim))
            .and(Ok(Reply::Rejoined)),
        Call::Leave(member) => cluster.leave(member).and(Ok(Reply::Left)),
        Call::Lose(member) => cluster.lose(member).and(Ok(Reply::Lost)),
        Call::Commit(..) => Ok(Reply::Unanswered),
    }
}

/// The name of this text. A text that is no name is refused like a bad line.
pub fn name(text: &str) -> Result<Name, Refusal> {
    Name::new(text.as_bytes()).ok_or(Refusal::BadLine { line: 1 })
}

/// The set of these partitions.
fn set_of(elements: &[u32]) -> Plane {
    let mut set = Plane::new(PARTITIONS);
    for q in elements {
        if *q < PARTITIONS {
            set.insert(*q);
        }
    }
    set
}
