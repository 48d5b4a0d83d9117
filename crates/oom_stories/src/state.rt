//! Prints the state at the end of a story.

use crate::stage::Stage;
use bit_planes::Plane;
use consumer::Consumer;
use group_machine::{Cluster, Commit, Move, Name};
use partition_log::{LogRead, Logs};
use std::io::Write;
use std::{fmt, str};
use world::World;

/// A set, printed as its elements.
#[derive(Drop)]
pub struct Elements<'a>(pub &'a Plane);

impl fmt::Display for Elements<'_> {
    fn fmt<W: fmt::Write>(&self, f: &mut fmt::Formatter<W>) -> fmt::Result {
        for q in self.0.iter() {
            write!(f, " {q}")?;
        }
        Ok(())
    }
}

/// A commit, printed as member, generation, partition, first offset and key ids.
#[derive(Drop)]
pub struct Terms<'a>(pub &'a Commit);

impl fmt::Display for Terms<'_> {
    fn fmt<W: fmt::Write>(&self, f: &mut fmt::Formatter<W>) -> fmt::Result {
        let Terms(commit) = self;
        let member = commit.member();
        let generation = commit.generation();
        let partition = commit.partition();
        let from = commit.from();
        let ids = commit.partial().ids();
        write!(f, "{member} {generation} {partition} {from} {ids:?}")
    }
}

/// What a consumer holds: the base and the position of each partition.
#[derive(Drop)]
struct Holdings<'a>(&'a Consumer);

impl fmt::Display for Holdings<'_> {
    fn fmt<W: fmt::Write>(&self, f: &mut fmt::Formatter<W>) -> fmt::Result {
        let Holdings(consumer) = self;
        for p in 0..consumer.partitions() {
            if consumer.holds(p) {
                let base = consumer.base(p);
                let position = consumer.position(p);
                write!(f, " {p}:{base}-{position}")?;
            }
        }
        Ok(())
    }
}

/// Prints logs: the key ids of each log, and the keys.
pub fn report_logs<W: Write>(stage: &mut Stage<W>, logs: &Logs) {
    for p in 0..logs.partitions() {
        let ids = logs.ids(p, 0, logs.len(p));
        stage.report(format_args!("log {p} {ids:?}"));
    }
    report_keys(stage, logs);
}

/// Prints the keys of logs, in the order of their ids.
fn report_keys<W: Write>(stage: &mut Stage<W>, logs: &Logs) {
    for id in 0..logs.keys() {
        let key = str::from_utf8(logs.key(id)).unwrap_or("other than text");
        stage.report(format_args!("key {id} {key:?}"));
    }
}

/// Prints a cluster: its group, moves and logs, and what is committed and counted.
pub fn report_cluster<W: Write>(stage: &mut Stage<W>, cluster: &Cluster) {
    report_group(stage, cluster);
    for step in cluster.moves() {
        report_move(stage, *step);
    }
    report_logs(stage, cluster.logs());
    report_counts(stage, cluster);
}

/// Prints a group: its generation, its phase, and its members.
fn report_group<W: Write>(stage: &mut Stage<W>, cluster: &Cluster) {
    let generation = cluster.generation();
    let phase = cluster.phase();
    stage.report(format_args!("generation {generation} {phase:?}"));
    for member in cluster.members() {
        report_member(stage, cluster, member);
    }
}

fn report_move<W: Write>(stage: &mut Stage<W>, step: Move) {
    let generation = step.generation;
    let partition = step.partition;
    let last = step.last;
    let holder = step.holder;
    stage.report(format_args!("move {generation} {partition} {last:?} {holder}"));
}

/// Prints what is committed and counted.
fn report_counts<W: Write>(stage: &mut Stage<W>, cluster: &Cluster) {
    let offsets = cluster.store().offsets();
    let counts = cluster.store().counts();
    stage.report(format_args!("committed {offsets:?} counted {counts:?}"));
}

/// Prints a member: its name, what it is granted and assigned, and its flags.
fn report_member<W: Write>(stage: &mut Stage<W>, cluster: &Cluster, member: u32) {
    report_name(stage, cluster.name(member), member);
    report_set(stage, "granted", cluster.granted(member));
    report_set(stage, "assigned", cluster.assigned(member));
    let is_joined = cluster.is_joined(member);
    let is_synced = cluster.is_synced(member);
    let is_kept = cluster.is_kept(member);
    stage.report(format_args!("joined {is_joined} synced {is_synced} kept {is_kept}"));
}

/// Prints a member's name, if it has one.
fn report_name<W: Write>(stage: &mut Stage<W>, name: Option<&Name>, member: u32) {
    let Some(name) = name else {
        return;
    };
    let name = str::from_utf8(name.text()).unwrap_or("other than text");
    stage.report(format_args!("member {member} {name}"));
}

/// Prints a set after a title, if there is one.
fn report_set<W: Write>(stage: &mut Stage<W>, what: &str, set: Option<&Plane>) {
    let Some(set) = set else {
        return;
    };
    stage.report(format_args!("{what}{}", Elements(set)));
}

/// Prints a world: its cluster, its consumers, and its mail.
pub fn report_world<W: Write>(stage: &mut Stage<W>, world: &World) {
    report_cluster(stage, world.cluster());
    report_consumers(stage, world);
    for commit in world.mail() {
        report_commit(stage, commit);
    }
}

/// Prints the consumers of a world, member by member.
fn report_consumers<W: Write>(stage: &mut Stage<W>, world: &World) {
    for member in 1..u32::MAX {
        let Some(consumer) = world.consumer(member) else {
            break;
        };
        report_consumer(stage, member, consumer);
    }
}

/// Prints a consumer: its member, its generation, and what it holds.
fn report_consumer<W: Write>(stage: &mut Stage<W>, member: u32, consumer: &Consumer) {
    let now = consumer.member();
    let generation = consumer.generation();
    let holdings = Holdings(consumer);
    stage.report(format_args!("consumer {member} {now:?} {generation}{holdings}"));
}

fn report_commit<W: Write>(stage: &mut Stage<W>, commit: &Commit) {
    let terms = Terms(commit);
    stage.report(format_args!("commit {terms}"));
}
