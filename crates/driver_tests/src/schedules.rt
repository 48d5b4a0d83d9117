//! A long pseudo-random schedule, after each event of which the world is checked.

ghost use Rattle.std.specs.Prelude.{◌<◌};

use crate::acts::{Act, eight_names, reply_to};
use bit_planes::Plane;
use consumer::Consumer;
use group_machine::{Cluster, Commit, Name};
use lane_words::Memory;
use partition_log::LogRead;
use std::alloc::Global;
use std::process::Abort;
use std::random::RandomSource;
use world::{Reply, World};

/// The numbers that choose the events: x' = 1664525 x + 1013904223, modulo 2^32.
#[derive(Drop)]
struct Chosen {
    x: u32,
}

impl Chosen {
    /// A number below `n`.
    fn below(&mut self, n: u32) -> u32
        requires { 0 < n }
        ensures { result < n }
    {
        self.x = self.x.wrapping_mul(1_664_525).wrapping_add(1_013_904_223);
        (self.x >> 8) % n
    }

    /// A member number, where `given` members exist: one of these, the next one or 0.
    fn member(&mut self, given: u32) -> u32 {
        self.below(given % 64 + 2)
    }

    /// The number of a commit: mostly one of the latest, or any, late or never sent.
    fn commit(&mut self, sent: u32) -> u32 {
        if self.below(3) == 0 {
            self.below(1000)
        } else {
            sent.saturating_sub(self.below(2))
        }
    }
}

/// A kind of event, and an event of it.
fn chosen_event<'a>(
    chosen: &mut Chosen,
    sent: u32,
    given: u32,
    keys: &'a [&'a [u8]; 8],
) -> (usize, Act<'a>)
    ensures { result.0 < 12 }
{
    match chosen.below(1024) {
        0..=1 => (0, Act::Lose(chosen.member(given))),
        2..=3 => (1, Act::Leave(chosen.member(given))),
        4..=9 => (2, Act::Join(chosen.below(8) as usize)),
        10..=15 => (10, Act::JoinKept(chosen.below(8) as usize)),
        16..=19 => (11, Act::TakeOver(chosen.below(8) as usize)),
        20..=119 => (3, Act::Append(keys[chosen.below(8) as usize])),
        120..=319 => (4, Act::Sync(chosen.member(given))),
        320..=469 => (5, Act::Rejoin(chosen.member(given))),
        470..=679 => {
            let member = chosen.member(given);
            let partition = chosen.below(6);
            let records = chosen.below(4);
            let poll = Act::Poll {
                member,
                partition,
                records,
            };
            (6, poll)
        }
        680..=859 => {
            let member = chosen.member(given);
            let partition = chosen.below(6);
            (7, Act::Send { member, partition })
        }
        860..=969 => (8, Act::Deliver(chosen.commit(sent))),
        _ => (9, Act::DeliverUnanswered(chosen.commit(sent))),
    }
}

/// Counts a member as an owner of each partition that it is granted.
fn count_owner(owners: &mut [u32; 5], granted: &Plane) {
    for p in 0..5 {
        if granted.contains(p as u32) {
            owners[p] = owners[p].saturating_add(1);
        }
    }
}

/// The number of owners of each partition.
fn owners_of(cluster: &Cluster) -> [u32; 5] {
    let mut owners = [0u32; 5];
    for member in cluster.members() {
        if let Some(granted) = cluster.granted(member) {
            count_owner(&mut owners, granted);
        }
    }
    owners
}

/// Whether no partition has two owners, and each has one if the group is settled.
fn are_right(owners: &[u32; 5], is_settled: bool) -> bool {
    for n in owners {
        if *n > 1 || (is_settled && *n == 0) {
            return false;
        }
    }
    true
}

/// Whether no member is granted two more partitions than another one.
fn is_even(cluster: &Cluster) -> bool {
    let (mut least, mut most) = (u32::MAX, 0);
    for member in cluster.members() {
        if let Some(granted) = cluster.granted(member) {
            least = least.min(granted.count());
            most = most.max(granted.count());
        }
    }
    most <= least.saturating_add(1)
}

/// No partition has two owners. In a settled group each has one, and no member has two more than
/// another one.
fn grants_are_right(rt: &impl Abort, cluster: &Cluster) {
    let (owners, is_settled) = (owners_of(cluster), cluster.is_settled());
    assert!(rt; are_right(&owners, is_settled), "{owners:?}");
    assert!(rt; !is_settled || is_even(cluster));
}

/// The keys of a partition's records from one offset to another, if the log has these.
fn records_of(cluster: &Cluster, p: u32, from: u32, end: u32) -> Option<&[u32]> {
    let logs = cluster.logs();
    if p < logs.partitions() && from <= end && end <= logs.len(p) {
        Some(logs.ids(p, from, end))
    } else {
        None
    }
}

/// The keys of a partition's records below its committed offset.
fn committed_of(cluster: &Cluster, p: u32) -> Option<&[u32]> {
    match cluster.store().offsets().get(p as usize) {
        Some(committed) => records_of(cluster, p, 0, *committed),
        None => None,
    }
}

/// Counts each of these keys, of eight.
fn count_ids(counts: &mut [u64; 8], ids: &[u32]) -> bool {
    for id in ids {
        if *id >= 8 {
            return false;
        }
        counts[*id as usize] = counts[*id as usize].saturating_add(1);
    }
    true
}

/// Counts the keys of a partition's records below its committed offset, if the log has these.
fn count_committed(counts: &mut [u64; 8], cluster: &Cluster, p: u32) -> bool {
    match committed_of(cluster, p) {
        Some(ids) => count_ids(counts, ids),
        None => false,
    }
}

/// The first of five partitions whose log does not have these.
fn first_not_counted(counts: &mut [u64; 8], cluster: &Cluster) -> Option<u32> {
    for p in 0..5 {
        if !count_committed(counts, cluster, p) {
            return Some(p);
        }
    }
    None
}

/// Each key's count is the number of its records below the committed offsets.
fn counts_are_exact(rt: &impl Abort, cluster: &Cluster) {
    let mut plain = [0u64; 8];
    let not_counted = first_not_counted(&mut plain, cluster);
    assert_eq!(rt; (cluster.logs().partitions(), not_counted), (5, None));
    let counts = cluster.store().counts();
    assert!(rt; plain.starts_with(counts), "{counts:?}, and not {plain:?}");
}

/// Whether a consumer is not ahead of the cluster in a partition.
fn is_behind(cluster: &Cluster, consumer: &Consumer, p: u32) -> bool {
    let logs = cluster.logs();
    let (base, position) = (consumer.base(p), consumer.position(p));
    match cluster.store().offsets().get(p as usize) {
        Some(committed) => {
            base <= *committed
                && base <= position
                && p < logs.partitions()
                && position <= logs.len(p)
        }
        None => false,
    }
}

/// The first of five partitions in which it is ahead.
fn first_ahead(cluster: &Cluster, consumer: &Consumer) -> Option<u32> {
    for p in 0..5 {
        if !is_behind(cluster, consumer, p) {
            return Some(p);
        }
    }
    None
}

/// Whether a consumer is its member's, and of the cluster's generation if the member has synced,
/// else of an older one.
fn is_of_member(cluster: &Cluster, member: u32, consumer: &Consumer) -> bool {
    consumer.member() == Some(member)
        && consumer.generation() <= cluster.generation()
        && (consumer.generation() == cluster.generation()) == cluster.is_synced(member)
}

/// The first of five partitions that a consumer holds and its member is not granted.
fn first_not_granted(consumer: &Consumer, granted: &Plane) -> Option<u32> {
    for p in 0..5 {
        if consumer.holds(p) && !granted.contains(p) {
            return Some(p);
        }
    }
    None
}

/// Whether a consumer claims a partition exactly if it is assigned, and then holds it.
fn follows(consumer: &Consumer, assigned: &Plane, p: u32) -> bool {
    let is_assigned = assigned.contains(p);
    consumer.claim().contains(p) == is_assigned && (!is_assigned || consumer.holds(p))
}

/// The first of five partitions in which it does not.
fn first_not_followed(consumer: &Consumer, assigned: &Plane) -> Option<u32> {
    for p in 0..5 {
        if !follows(consumer, assigned, p) {
            return Some(p);
        }
    }
    None
}

/// The same, if its member has synced.
fn first_not_leased(consumer: &Consumer, assigned: &Plane, is_synced: bool) -> Option<u32> {
    if is_synced {
        first_not_followed(consumer, assigned)
    } else {
        None
    }
}

/// A consumer holds only what its member is granted, follows its lease, and is never ahead of the
/// cluster.
fn consumer_is_in_step(rt: &impl Abort, cluster: &Cluster, member: u32, consumer: &Consumer) {
    let ahead = first_ahead(cluster, consumer);
    assert_eq!(rt; (cluster.logs().partitions(), ahead), (5, None));
    let (Some(granted), Some(assigned)) = (cluster.granted(member), cluster.assigned(member)) else {
        return;
    };
    assert!(rt; is_of_member(cluster, member, consumer));
    let not_granted = first_not_granted(consumer, granted);
    let not_leased = first_not_leased(consumer, assigned, cluster.is_synced(member));
    assert_eq!(rt; (not_granted, not_leased), (None, None));
}

/// The records of a commit, if there is at least one and the log has them.
fn sent_of<'a>(cluster: &'a Cluster, commit: &Commit) -> Option<&'a [u32]> {
    let records = commit.partial().ids().len();
    match u32::try_from(records) {
        Ok(n) if n > 0 => {
            let end = commit.from().saturating_add(n);
            records_of(cluster, commit.partition(), commit.from(), end)
        }
        _ => None,
    }
}

/// A commit of the mail has the records of its log.
fn commit_is_valid(rt: &impl Abort, cluster: &Cluster, commit: &Commit) {
    assert_eq!(rt; sent_of(cluster, commit), Some(commit.partial().ids()));
}

/// What holds after each event, checked by plain lists.
fn world_is_valid(rt: &impl Abort, world: &World) {
    let cluster = world.cluster();
    grants_are_right(rt, cluster);
    counts_are_exact(rt, cluster);
    for member in 1..33 {
        if let Some(consumer) = world.consumer(member) {
            consumer_is_in_step(rt, cluster, member, consumer);
        }
    }
    if let Some(commit) = world.mail().last() {
        commit_is_valid(rt, cluster, commit);
    }
}

/// The numbers of events of each kind that were accepted and refused.
#[derive(Drop)]
struct Tally {
    accepted: [u32; 12],
    refused: [u32; 12],
}

impl Tally {
    /// The number of members that ever joined.
    fn given(&self) -> u32 {
        let joined = self.accepted[2].saturating_add(self.accepted[10]);
        joined.saturating_add(self.accepted[11])
    }

    /// Counts one more event of a kind.
    fn count(&mut self, kind: usize, is_refused: bool)
        requires { kind < 12 }
    {
        let counts = if is_refused {
            &mut self.refused
        } else {
            &mut self.accepted
        };
        counts[kind] = counts[kind].saturating_add(1);
    }
}

/// The number of sent commits.
fn sent_in(world: &World) -> u32 {
    u32::try_from(world.mail().len()).unwrap_or(0)
}

/// Makes one more event, and counts its kind and reply.
fn next_event(
    rt: &impl Abort,
    world: &mut World,
    names: &[Name],
    keys: &[&[u8]; 8],
    chosen: &mut Chosen,
    tally: &mut Tally,
) {
    let (kind, act) = chosen_event(chosen, sent_in(world), tally.given(), keys);
    let reply = reply_to(world, &act, names).expect(rt, "a name");
    tally.count(kind, matches!(reply, Reply::Refused(_)));
}

/// The counts of 10,000 events, after each of which the world is valid.
fn tally_of(rt: &impl Abort, world: &mut World, names: &[Name], keys: &[&[u8]; 8]) -> Tally {
    let mut chosen = Chosen { x: 1 };
    let mut tally = Tally {
        accepted: [0; 12],
        refused: [0; 12],
    };
    for _ in 0..10_000 {
        next_event(rt, world, names, keys, &mut chosen, &mut tally);
        world_is_valid(rt, world);
    }
    tally
}

/// All commits of the mail are valid.
fn mail_is_valid(rt: &impl Abort, world: &World) {
    for commit in world.mail() {
        commit_is_valid(rt, world.cluster(), commit);
    }
}

/// Whether there are some of each kind.
fn are_some(counts: &[u32; 12]) -> bool {
    for n in counts {
        if *n == 0 {
            return false;
        }
    }
    true
}

/// A world stays valid over the long schedule, in which each kind of event is accepted and refused.
fn stays_valid(rt: &impl Abort, world: &mut World, names: &[Name], keys: &[&[u8]; 8]) {
    let tally = tally_of(rt, world, names, keys);
    mail_is_valid(rt, world);
    let (accepted, refused) = (tally.accepted, tally.refused);
    assert!(rt; are_some(&accepted), "accepted: {accepted:?}");
    assert!(rt; are_some(&refused), "refused: {refused:?}");
    assert!(rt; world.cluster().generation() > 8);
}

/// The same, for a new world with these names and keys.
fn new_stays_valid<R: Abort + RandomSource>(
    rt: &R,
    alloc: Global,
    names: &[Name],
    keys: &[&[u8]; 8],
) -> Result<(), Memory> {
    let mut world = World::new(rt, alloc, 5)?;
    stays_valid(rt, &mut world, names, keys);
    Ok(())
}

/// The same, for a new world with seven keys and this one, which is too long.
fn stays_valid_with<R: Abort + RandomSource>(
    rt: &R,
    alloc: Global,
    long: &[u8],
) -> Result<(), Memory> {
    let keys: [&[u8]; 8] = [b"21", b"4", b"foobar", b"abc", b"", b"34", b"1234", long];
    let names = eight_names(rt, alloc)?;
    new_stays_valid(rt, alloc, names.as_slice(), &keys)
}

#[test]
fn a_long_schedule_keeps_the_world_valid(rt: HostRuntime) -> Result<(), Memory> {
    let long = vec![in rt.alloc(); 0u8; 65_536]?;
    stays_valid_with(&rt, rt.alloc(), long.as_slice())
}
