//! Tests of worlds: worked rows, also at real sizes.

ghost use Rattle.std.specs.Prelude.{◌<◌};

use crate::acts::{Act, eight_names, event_of, reply_of, reply_to};
use crate::groups::FIVE;
use group_machine::{Commit, Name, Phase};
use lane_words::{Memory, Refusal};
use partition_log::LogRead;
use std::alloc::Global;
use std::process::Abort;
use std::random::RandomSource;
use std::thread::Threads;
use world::{Event, Reply, World};

// The calls, without their contracts: a test of many calls would otherwise be proved over all that
// these say.

fn settle(world: &mut World) -> Result<(), Refusal> {
    world.settle()
}

fn drain(world: &mut World, batch: u32) -> Result<(), Refusal>
    requires { 0 < batch }
{
    world.drain(batch)
}

fn load<R: Threads + Sync>(
    rt: &R,
    world: &mut World,
    keys: &[&[u8]],
) -> Result<(), (u64, Refusal)> {
    world.load(rt, keys)
}

/// The index of the first event that has another reply.
fn first_other(world: &mut World, names: &[Name], acts: &[(Act<'static>, Reply)]) -> Option<usize> {
    for (index, (act, reply)) in acts.iter().enumerate() {
        if reply_to(world, act, names) != Some(*reply) {
            return Some(index);
        }
    }
    None
}

/// Adds the events of a schedule.
fn add_events<'a>(
    events: &mut Vec<Event<'a>>,
    names: &'a [Name],
    acts: &[(Act<'static>, Reply)],
) -> Result<(), Memory> {
    for (act, _) in acts {
        if let Some(event) = event_of(act, names) {
            events.push(event)?;
        }
    }
    Ok(())
}

/// The events of a schedule.
fn events_of<'a>(
    alloc: Global,
    names: &'a [Name],
    acts: &[(Act<'static>, Reply)],
) -> Result<Vec<Event<'a>>, Memory> {
    let mut events = Vec::new(alloc);
    let done = add_events(&mut events, names, acts);
    done.and(Ok(events))
}

/// Whether these are the replies of a schedule.
fn are_replies(replies: &[Reply], acts: &[(Act<'static>, Reply)]) -> bool {
    for (reply, act) in replies.iter().zip(acts) {
        if *reply != act.1 {
            return false;
        }
    }
    replies.len() == acts.len()
}

/// Whether one run of a schedule has these replies.
fn run_is<'a>(
    alloc: Global,
    world: &mut World,
    names: &'a [Name],
    acts: &[(Act<'static>, Reply)],
) -> Result<bool, Memory> {
    let events = events_of(alloc, names, acts)?;
    replies_are(world, events.as_slice(), acts)
}

/// Whether one run of these events has the replies of a schedule.
fn replies_are(
    world: &mut World,
    events: &[Event<'_>],
    acts: &[(Act<'static>, Reply)],
) -> Result<bool, Memory> {
    let replies = world.run(events)?;
    Ok(are_replies(replies.as_slice(), acts))
}

/// The number of replies of a run.
fn replies_of(world: &mut World, events: &[Event]) -> Result<usize, Memory> {
    let replies = world.run(events)?;
    Ok(replies.len())
}

/// The number of replies of a run of `records` records of one key.
fn replies_of_many(alloc: Global, world: &mut World, records: usize) -> Result<usize, Memory> {
    let events = vec![in alloc; Event::Append(b"4"); records]?;
    replies_of(world, events.as_slice())
}

/// A schedule with its replies, a call on a world with its answer, or a check of the world.
#[derive(Clone, Copy)]
enum Step<'a> {
    /// A load of records of these keys has this answer.
    Load(&'a [&'a [u8]], Result<(), (u64, Refusal)>),
    /// Records of the keys in `LOADED` are loaded into two topics.
    LoadInTopics,
    /// This event has this reply.
    One(Act<'static>, Reply),
    /// These events have these replies.
    Acts(&'a [(Act<'static>, Reply)]),
    /// One run of these events has these replies.
    Run(&'a [(Act<'static>, Reply)]),
    /// A run of this many records of one key has as many replies.
    RunMany(usize),
    /// One record is appended to 100,000 of one key, and all are committed.
    OneMore,
    /// The group is settled.
    Settle,
    /// The world is drained by polls of this many records.
    Drain(u32, Result<(), Refusal>),
    /// The group is settled, and each of the five records is committed and counted.
    Drained,
    /// The first key has this count, and this many commits were sent.
    Counted(u64, usize),
    /// This many records of the first partition are committed.
    Committed(u32),
    /// The three commits of `TWO_SENT` were sent, of which the first member has committed two
    /// records.
    TwoSent,
    /// The generation and the phase.
    GroupIs(u32, Phase),
    /// The seat of this member was taken over under that number.
    TakenOver(u32, u32),
    /// The number of keys.
    Keys(u32),
    /// This member has no consumer.
    NoConsumer(u32),
}

/// Makes a step, and returns whether it goes as expected.
fn goes<R: Threads + Sync>(
    rt: &R,
    alloc: Global,
    world: &mut World,
    names: &[Name],
    step: &Step<'_>,
) -> bool {
    match step {
        Step::Load(keys, answer) => load(rt, world, keys) == *answer,
        Step::LoadInTopics => takes_in_topics(rt, world),
        Step::One(act, reply) => reply_to(world, act, names) == Some(*reply),
        Step::Acts(acts) => first_other(world, names, acts).is_none(),
        Step::Run(acts) => run_is(alloc, world, names, acts) == Ok(true),
        Step::RunMany(count) => replies_of_many(alloc, world, *count) == Ok(*count),
        Step::OneMore => takes_one_more(world, names),
        Step::Settle => settle(world) == Ok(()),
        Step::Drain(batch, answer) => *batch > 0 && drain(world, *batch) == *answer,
        step => check_holds(world, step),
    }
}

/// Whether a check of the world, which changes nothing, holds.
fn check_holds(world: &World, step: &Step<'_>) -> bool {
    let cluster = world.cluster();
    match step {
        Step::Drained => is_drained(world),
        Step::Counted(count, sent) => has_counted(world, *count, *sent),
        Step::Committed(records) => cluster.store().offsets().first() == Some(records),
        Step::TwoSent => are_three(world.mail()) && is_past_two(world),
        Step::GroupIs(generation, phase) => {
            cluster.generation() == *generation && cluster.phase() == *phase
        }
        Step::TakenOver(old, new) => cluster.is_kept(*new) && !cluster.is_present(*old),
        Step::Keys(keys) => cluster.logs().keys() == *keys,
        Step::NoConsumer(member) => world.consumer(*member).is_none(),
        _ => false,
    }
}

/// The index of the first step that does not go as expected.
fn first_not_so<R: Threads + Sync>(
    rt: &R,
    alloc: Global,
    world: &mut World,
    names: &[Name],
    steps: &[Step<'_>],
) -> Option<usize> {
    for (index, step) in steps.iter().enumerate() {
        if !goes(rt, alloc, world, names, step) {
            return Some(index);
        }
    }
    None
}

/// The world at the start of a test.
#[derive(Clone, Copy)]
enum Opening {
    /// Four partitions.
    Four,
    /// The largest number of partitions.
    Most,
    /// Two topics, of two partitions and of three.
    Topics,
}

/// A new world of this kind.
fn opened(rt: &impl RandomSource, alloc: Global, opening: Opening) -> Result<World, Memory> {
    match opening {
        Opening::Four => World::new(rt, alloc, 4),
        Opening::Most => World::new(rt, alloc, 4096),
        Opening::Topics => World::with_topics(rt, alloc, &[2, 3]),
    }
}

// Each of these functions owns one thing alone, and a test owns nothing: each `?` and each
// assertion is proved together with the code that drops what is owned, above all a world.

/// The index of the first step that does not go as expected, in a new world, with these names.
fn first_not_so_under<R: RandomSource + Threads + Sync>(
    rt: &R,
    alloc: Global,
    names: &[Name],
    opening: Opening,
    steps: &[Step<'_>],
) -> Result<Option<usize>, Memory> {
    let mut world = opened(rt, alloc, opening)?;
    Ok(first_not_so(rt, alloc, &mut world, names, steps))
}

/// The same, with the eight names.
fn first_not_so_of<R: Abort + RandomSource + Threads + Sync>(
    rt: &R,
    alloc: Global,
    opening: Opening,
    steps: &[Step<'_>],
) -> Result<Option<usize>, Memory> {
    let names = eight_names(rt, alloc)?;
    first_not_so_under(rt, alloc, names.as_slice(), opening, steps)
}

/// The load of the five records.
const LOAD: Step<'static> = Step::Load(&FIVE, Ok(()));

/// Whether a world with the five records has the replies of a schedule in one run, and another one
/// event by event, for which this check then holds.
fn are_both_so<'a, R: Abort + RandomSource + Threads + Sync>(
    rt: &R,
    alloc: Global,
    acts: &'a [(Act<'static>, Reply)],
    check: Step<'a>,
) -> Result<bool, Memory> {
    let one_by_one = [LOAD, Step::Acts(acts), check];
    let other = first_not_so_of(rt, alloc, Opening::Four, &one_by_one)?;
    let in_one_run = first_not_so_of(rt, alloc, Opening::Four, &[LOAD, Step::Run(acts)])?;
    Ok(other.is_none() && in_one_run.is_none())
}

/// The first member polls two records of the first partition.
const POLL: Act = Act::Poll {
    member: 1,
    partition: 0,
    records: 2,
};

/// It polls one.
const POLL_ONE: Act = Act::Poll {
    member: 1,
    partition: 0,
    records: 1,
};

/// It sends what is pending of the first partition.
const SEND: Act = Act::Send {
    member: 1,
    partition: 0,
};

/// The answer to a commit from another offset, with two records committed.
const TWO_COMMITTED: Reply = Reply::Refused(Refusal::OffsetMismatch { committed: 2 });

/// The same with one record committed.
const ONE_COMMITTED: Reply = Reply::Refused(Refusal::OffsetMismatch { committed: 1 });

// A function that names a table is proved with each row and each list in it, at each of its
// statements: so a function that names one does nothing else.

/// A commit is delivered twice.
const TWICE: &[(Act<'static>, Reply)] = &[
    (Act::Join(0), Reply::Joined(1)),
    (Act::Sync(1), Reply::Leased(1)),
    (POLL, Reply::Polled(2)),
    (SEND, Reply::Sent(1)),
    (Act::Deliver(1), Reply::Committed(2)),
    (Act::Deliver(1), TWO_COMMITTED),
    (Act::Deliver(2), Reply::Refused(Refusal::NoSuchCommit)),
];

fn twice() -> &'static [(Act<'static>, Reply)] {
    TWICE
}

/// Whether the first key has this count, and this many commits were sent.
fn has_counted(world: &World, count: u64, sent: usize) -> bool {
    let first = world.cluster().store().counts().first().copied();
    first == Some(count) && world.mail().len() == sent
}

#[test]
fn a_commit_is_accepted_once(rt: HostRuntime) {
    let are_so = are_both_so(&rt, rt.alloc(), twice(), Step::Counted(2, 1));
    assert_eq!(rt; are_so, Ok(true));
}

/// A member is lost before its commit arrives.
const LOST: &[(Act<'static>, Reply)] = &[
    (Act::Join(0), Reply::Joined(1)),
    (Act::Sync(1), Reply::Leased(1)),
    (POLL, Reply::Polled(2)),
    (SEND, Reply::Sent(1)),
    (Act::Lose(1), Reply::Lost),
    (Act::Deliver(1), Reply::Refused(Refusal::UnknownMember)),
    (POLL_ONE, Reply::Refused(Refusal::OutOfGroup)),
];

fn lost() -> &'static [(Act<'static>, Reply)] {
    LOST
}

#[test]
fn a_lost_members_commit_is_refused(rt: HostRuntime) {
    let are_so = are_both_so(&rt, rt.alloc(), lost(), Step::Committed(0));
    assert_eq!(rt; are_so, Ok(true));
}

/// The answer to a commit is lost.
const UNANSWERED: &[(Act<'static>, Reply)] = &[
    (Act::Join(0), Reply::Joined(1)),
    (Act::Sync(1), Reply::Leased(1)),
    (POLL, Reply::Polled(2)),
    (SEND, Reply::Sent(1)),
    (Act::DeliverUnanswered(1), Reply::Unanswered),
    (SEND, Reply::Sent(2)),
    (Act::Deliver(2), TWO_COMMITTED),
    (SEND, Reply::Refused(Refusal::EmptyCommit)),
];

fn unanswered() -> &'static [(Act<'static>, Reply)] {
    UNANSWERED
}

#[test]
fn an_unanswered_commit_is_not_accepted_again(rt: HostRuntime) {
    let are_so = are_both_so(&rt, rt.alloc(), unanswered(), Step::Committed(2));
    assert_eq!(rt; are_so, Ok(true));
}

/// Two commits are sent before the first one is answered; the second one then comes too late.
const TWO_SENT: &[(Act<'static>, Reply)] = &[
    (Act::Join(0), Reply::Joined(1)),
    (Act::Sync(1), Reply::Leased(1)),
    (POLL_ONE, Reply::Polled(1)),
    (SEND, Reply::Sent(1)),
    (POLL_ONE, Reply::Polled(1)),
    (SEND, Reply::Sent(2)),
    (Act::Deliver(1), Reply::Committed(1)),
    (Act::Deliver(2), ONE_COMMITTED),
    (SEND, Reply::Sent(3)),
    (Act::Deliver(3), Reply::Committed(2)),
];

fn two_sent() -> &'static [(Act<'static>, Reply)] {
    TWO_SENT
}

/// Whether the second of three commits has both records, and the third one the second record alone.
fn are_three(sent: &[Commit]) -> bool {
    match sent {
        [_, both, second] => both.partial().ids() == [0, 0].as_slice() && second.from() == 1,
        _ => false,
    }
}

/// Whether the first member has committed two records in the first generation.
fn is_past_two(world: &World) -> bool {
    match world.consumer(1) {
        Some(consumer) => {
            consumer.base(0) == 2 && consumer.position(0) == 2 && consumer.generation() == 1
        }
        None => false,
    }
}

#[test]
fn an_answer_moves_the_base(rt: HostRuntime) {
    let are_so = are_both_so(&rt, rt.alloc(), two_sent(), Step::TwoSent);
    assert_eq!(rt; are_so, Ok(true));
}

/// A seat is taken over, and the old consumer goes on until it learns of it.
const RETURNS: &[(Act<'static>, Reply)] = &[
    (Act::JoinKept(0), Reply::Joined(1)),
    (Act::Sync(1), Reply::Leased(1)),
    (POLL, Reply::Polled(2)),
    (SEND, Reply::Sent(1)),
    (Act::TakeOver(1), Reply::Refused(Refusal::NotKept)),
    (Act::TakeOver(0), Reply::TakenOver(2)),
    (SEND, Reply::Sent(2)),
    (Act::Deliver(1), Reply::Refused(Refusal::UnknownMember)),
    (POLL, Reply::Refused(Refusal::OutOfGroup)),
    (Act::Sync(2), Reply::Leased(1)),
    (
        Act::Poll {
            member: 2,
            partition: 0,
            records: 2,
        },
        Reply::Polled(2),
    ),
    (
        Act::Send {
            member: 2,
            partition: 0,
        },
        Reply::Sent(3),
    ),
    (Act::Deliver(3), Reply::Committed(2)),
    (Act::Deliver(2), Reply::Refused(Refusal::UnknownMember)),
    (Act::JoinKept(0), Reply::Refused(Refusal::NameUsed)),
];

fn returns() -> &'static [(Act<'static>, Reply)] {
    RETURNS
}

#[test]
fn a_seat_is_taken_over(rt: HostRuntime) {
    let are_so = are_both_so(&rt, rt.alloc(), returns(), Step::TakenOver(1, 2));
    assert_eq!(rt; are_so, Ok(true));
}

/// The group settles after a static member has joined, and again after another one has joined and
/// the seat was taken over within the rebalance. Then the world is drained.
const SETTLES_TWICE: &[Step<'static>] = &[
    LOAD,
    Step::One(Act::JoinKept(0), Reply::Joined(1)),
    Step::Settle,
    Step::One(Act::Join(1), Reply::Joined(2)),
    Step::One(Act::TakeOver(0), Reply::TakenOver(3)),
    Step::Settle,
    Step::GroupIs(3, Phase::Stable),
    Step::Drain(500, Ok(())),
    Step::Drained,
];

fn settles_twice() -> &'static [Step<'static>] {
    SETTLES_TWICE
}

#[test]
fn a_seat_is_taken_over_in_a_rebalance(rt: HostRuntime) {
    let other = first_not_so_of(&rt, rt.alloc(), Opening::Four, settles_twice());
    assert_eq!(rt; other, Ok(None));
}

/// The partition of the next record of key 21, after `records` records.
fn partition_after(world: &mut World, records: u32) -> Option<u32> {
    match reply_of(world, Event::Append(b"21")) {
        Reply::Appended(partition, offset) if offset == records => Some(partition),
        _ => None,
    }
}

/// The first member polls all 100,001 records of a partition, and commits them.
fn commits_all(world: &mut World, names: &[Name], partition: u32) -> bool {
    let poll = Act::Poll {
        member: 1,
        partition,
        records: 1_000_000,
    };
    let send = Act::Send {
        member: 1,
        partition,
    };
    first_other(world, names, joined()).is_none()
        && reply_to(world, &poll, names) == Some(Reply::Polled(100_001))
        && reply_to(world, &send, names) == Some(Reply::Sent(1))
        && reply_of(world, Event::Deliver(1)) == Reply::Committed(100_001)
}

/// A member joins and syncs.
const JOINED: &[(Act<'static>, Reply)] = &[
    (Act::Join(0), Reply::Joined(1)),
    (Act::Sync(1), Reply::Leased(1)),
];

fn joined() -> &'static [(Act<'static>, Reply)] {
    JOINED
}

/// Whether one more record is the last of 100,001 in its partition, and all are then committed.
fn takes_one_more(world: &mut World, names: &[Name]) -> bool {
    match partition_after(world, 100_000) {
        Some(partition) => commits_all(world, names, partition),
        None => false,
    }
}

/// The index of the first step that does not go as expected, with 100,000 records of one key.
fn first_not_so_of_many<R: Abort + RandomSource + Threads + Sync>(
    rt: &R,
    alloc: Global,
) -> Result<Option<usize>, Memory> {
    let keys: Vec<&[u8]> = vec![in alloc; b"21".as_slice(); 100_000]?;
    let steps = [Step::Load(keys.as_slice(), Ok(())), Step::OneMore];
    first_not_so_of(rt, alloc, Opening::Most, &steps)
}

#[test]
fn reads_and_sends_at_real_sizes(rt: HostRuntime) {
    assert_eq!(rt; first_not_so_of_many(&rt, rt.alloc()), Ok(None));
}

/// A run of 70,000 records of one key follows the five records.
const RUNS_MANY: &[Step<'static>] = &[LOAD, Step::RunMany(70_000), Step::Keys(4)];

fn runs_many() -> &'static [Step<'static>] {
    RUNS_MANY
}

#[test]
fn runs_at_real_sizes(rt: HostRuntime) {
    let other = first_not_so_of(&rt, rt.alloc(), Opening::Four, runs_many());
    assert_eq!(rt; other, Ok(None));
}

/// The index of the first step that does not go as expected, if a load of these keys stops at the
/// third one.
fn first_not_so_at_third<'a, R: Abort + RandomSource + Threads + Sync>(
    rt: &R,
    alloc: Global,
    keys: &'a [&'a [u8]],
) -> Result<Option<usize>, Memory> {
    let steps = [
        Step::Load(keys, Err((2, Refusal::KeyTooLong))),
        Step::Keys(2),
        Step::NoConsumer(1),
    ];
    first_not_so_of(rt, alloc, Opening::Four, &steps)
}

/// The same, if this key is the third one, which is too long.
fn first_not_so_at<R: Abort + RandomSource + Threads + Sync>(
    rt: &R,
    alloc: Global,
    long: &[u8],
) -> Result<Option<usize>, Memory> {
    let keys: [&[u8]; 4] = [b"21", b"4", long, b"abc"];
    first_not_so_at_third(rt, alloc, &keys)
}

/// The same, for a key of 65,536 bytes.
fn first_not_so_at_long<R: Abort + RandomSource + Threads + Sync>(
    rt: &R,
    alloc: Global,
) -> Result<Option<usize>, Memory> {
    let long = vec![in alloc; 0u8; 65_536]?;
    first_not_so_at(rt, alloc, long.as_slice())
}

#[test]
fn a_load_stops_at_the_first_key_that_is_refused(rt: HostRuntime) {
    assert_eq!(rt; first_not_so_at_long(&rt, rt.alloc()), Ok(None));
}

/// A second member joins and leaves. Once it is out, the first one rejoins.
const OUT_OF_GROUP: &[(Act<'static>, Reply)] = &[
    (Act::Join(0), Reply::Joined(1)),
    (Act::Sync(1), Reply::Leased(1)),
    (Act::Join(1), Reply::Joined(2)),
    (Act::Rejoin(1), Reply::Rejoined),
    (Act::Leave(2), Reply::Left),
    (Act::Leave(2), Reply::Refused(Refusal::OutOfGroup)),
    (Act::Sync(3), Reply::Refused(Refusal::UnknownMember)),
];

fn out_of_group() -> &'static [(Act<'static>, Reply)] {
    OUT_OF_GROUP
}

#[test]
fn an_absent_member_learns_of_it(rt: HostRuntime) {
    let group_is = Step::GroupIs(2, Phase::Preparing);
    assert_eq!(rt;
        are_both_so(&rt, rt.alloc(), out_of_group(), group_is),
        Ok(true)
    );
}

/// Whether the group is settled, and each of the five records is committed and counted.
fn is_drained(world: &World) -> bool {
    let cluster = world.cluster();
    cluster.is_settled()
        && cluster.store().offsets() == [2, 1, 1, 1].as_slice()
        && cluster.store().counts() == [2, 1, 1, 1].as_slice()
}

/// A world is drained once a member is there to drain it.
const DRAINS: &[Step<'static>] = &[
    LOAD,
    Step::Drain(500, Err(Refusal::NobodyPresent)),
    Step::One(Act::Join(0), Reply::Joined(1)),
    Step::Drain(500, Ok(())),
    Step::Drained,
];

fn drains() -> &'static [Step<'static>] {
    DRAINS
}

#[test]
fn a_drain_commits_all(rt: HostRuntime) {
    let other = first_not_so_of(&rt, rt.alloc(), Opening::Four, drains());
    assert_eq!(rt; other, Ok(None));
}

/// A settled member sends the records of two partitions, and a second member joins. The world is
/// drained while all that is pending.
const DRAINS_PENDING: &[Step<'static>] = &[
    LOAD,
    Step::One(Act::Join(0), Reply::Joined(1)),
    Step::Settle,
    Step::One(POLL, Reply::Polled(2)),
    Step::One(SEND, Reply::Sent(1)),
    Step::One(
        Act::Poll {
            member: 1,
            partition: 2,
            records: 1,
        },
        Reply::Polled(1),
    ),
    Step::One(
        Act::Send {
            member: 1,
            partition: 2,
        },
        Reply::Sent(2),
    ),
    Step::One(Act::Join(1), Reply::Joined(2)),
    Step::Drain(1, Ok(())),
    Step::Drained,
];

fn drains_pending() -> &'static [Step<'static>] {
    DRAINS_PENDING
}

#[test]
fn a_drain_continues_with_what_is_pending(rt: HostRuntime) {
    let other = first_not_so_of(&rt, rt.alloc(), Opening::Four, drains_pending());
    assert_eq!(rt; other, Ok(None));
}

/// There is no topic of this index.
const NO_TOPIC: Reply = Reply::Refused(Refusal::NoSuchTopic { nth: 0 });

/// Records of two topics, of two partitions and of three.
const OF_TOPICS: &[(Act<'static>, Reply)] = &[
    (Act::AppendIn(0, b"21"), Reply::Appended(0, 0)),
    (Act::AppendIn(1, b"abc"), Reply::Appended(2, 0)),
    (Act::AppendIn(1, b"21"), Reply::Appended(2, 1)),
    (Act::AppendIn(0, b"4"), Reply::Appended(1, 0)),
    (Act::AppendIn(1, b"4"), Reply::Appended(3, 0)),
    (Act::AppendIn(1, b"abc"), Reply::Appended(2, 2)),
    (Act::AppendIn(2, b"abc"), NO_TOPIC),
    (Act::Append(b"21"), Reply::Appended(0, 1)),
];

fn of_topics() -> &'static [(Act<'static>, Reply)] {
    OF_TOPICS
}

#[test]
fn appends_in_topics(rt: HostRuntime) {
    let steps = [Step::Acts(of_topics())];
    let other = first_not_so_under(&rt, rt.alloc(), &[], Opening::Topics, &steps);
    assert_eq!(rt; other, Ok(None));
}

/// Records that follow those of a load.
const AFTER_A_LOAD: &[(Act<'static>, Reply)] = &[
    (Act::AppendIn(1, b"abc"), Reply::Appended(2, 2)),
    (Act::AppendIn(2, b"abc"), NO_TOPIC),
    (Act::Append(b"21"), Reply::Appended(0, 1)),
];

fn after_a_load() -> &'static [(Act<'static>, Reply)] {
    AFTER_A_LOAD
}

/// The keys of that load.
const LOADED: [&[u8]; 5] = [b"21", b"abc", b"21", b"4", b"4"];

/// Whether two topics take them, each key in its partition.
fn takes_in_topics<R: Threads + Sync>(rt: &R, world: &mut World) -> bool {
    world.cluster().logs().topics() == 2 && world.load_in(rt, &[0, 1, 1, 0, 1], &LOADED) == Ok(())
}

#[test]
fn loads_in_topics(rt: HostRuntime) {
    let steps = [Step::LoadInTopics, Step::Acts(after_a_load())];
    let other = first_not_so_under(&rt, rt.alloc(), &[], Opening::Topics, &steps);
    assert_eq!(rt; other, Ok(None));
}
