//! The rows of clusters, worked by hand.

ghost use Rattle.std.specs.Prelude.{◌≤◌};

use crate::two_topics::topic;
use csv::Writer;
use group_machine::{Cluster, Commit, Name};
use keyed_table::Partial;
use lane_words::{MOST_PARTITIONS, Memory, Refusal};
use partitioner::Topic;
use report_rows::replay_rows::{closing_text, write_moves, write_refused};
use report_rows::rows;
use std::alloc::Global;
use std::process::Abort;
use std::random::RandomSource;
use std::thread::Threads;

/// A call on a cluster that must succeed, or the rows that it must have then.
///
/// A test is a list of steps for one loop. A sequence of calls is proved over the contracts of all
/// the calls before each, which takes minutes.
#[derive(Clone, Copy)]
enum Step<'a> {
    /// A member joins under this name and gets this number.
    Join(&'a [u8], u32),
    /// A member is lost.
    Lose(u32),
    /// A record of this key is appended.
    Append(&'a [u8]),
    /// Member 1 commits, in generation 1, records of these keys from the start of a log.
    Commit(u32, &'a [u32]),
    /// The rows of the moves from an index on.
    Moves(usize, &'a [u8]),
    /// The closing rows.
    Closing(&'a [u8]),
    /// The closing rows, if at most so many keys are listed.
    Top(u32, &'a [u8]),
}

/// Whether a member joins under this name and gets this number.
fn joins(rt: &impl Abort, cluster: &mut Cluster, name: &[u8], number: u32) -> bool {
    let name = Name::new(name).expect(rt, "a name");
    cluster.join(name) == Ok(number)
}

/// Whether a step succeeds, or the cluster has these rows.
fn succeeds<R: Abort + Threads + Sync>(
    rt: &R,
    alloc: Global,
    topics: &[Topic],
    cluster: &mut Cluster,
    step: &Step<'_>,
) -> Result<bool, Memory> {
    let succeeds = match step {
        Step::Join(text, number) => joins(rt, cluster, text, *number),
        Step::Append(key) => cluster.append(key).is_ok(),
        Step::Lose(member) => cluster.lose(*member) == Ok(()),
        Step::Commit(partition, ids) => commit(alloc, cluster, *partition, ids)?,
        Step::Moves(from, wanted) => has_moves(alloc, topics, cluster, *from, wanted)?,
        Step::Closing(wanted) => has_closing(rt, alloc, topics, None, cluster, wanted)?,
        Step::Top(most, wanted) => has_closing(rt, alloc, topics, Some(*most), cluster, wanted)?,
    };
    Ok(succeeds)
}

/// The index of the first step that fails.
fn first_other<R: Abort + Threads + Sync>(
    rt: &R,
    alloc: Global,
    topics: &[Topic],
    cluster: &mut Cluster,
    steps: &[Step<'_>],
) -> Result<Option<usize>, Memory> {
    for (index, step) in steps.iter().enumerate() {
        if !succeeds(rt, alloc, topics, cluster, step)? {
            return Ok(Some(index));
        }
    }
    Ok(None)
}

fn has_text(writer: Writer<Vec<u8>>, wanted: &[u8]) -> Result<bool, Memory> {
    let text = rows::text_of(writer)?;
    Ok(text.as_slice() == wanted)
}

/// Whether these are the rows of a cluster's moves from an index on.
fn has_moves(
    alloc: Global,
    topics: &[Topic],
    cluster: &Cluster,
    from: usize,
    wanted: &[u8],
) -> Result<bool, Memory> {
    let mut writer = rows::new_writer(alloc);
    write_moves(&mut writer, topics, cluster, from)?;
    has_text(writer, wanted)
}

/// Whether these are the closing rows of a cluster.
fn has_closing<R: Threads + Sync>(
    rt: &R,
    alloc: Global,
    topics: &[Topic],
    top: Option<u32>,
    cluster: &Cluster,
    wanted: &[u8],
) -> Result<bool, Memory> {
    let writer = rows::new_writer(alloc);
    let text = closing_text(rt, alloc, writer, topics, top, cluster)?;
    Ok(text.as_slice() == wanted)
}

/// The commit of member 1 in generation 1 of records of these keys from the start of a log.
fn sent(alloc: Global, partition: u32, ids: &[u32]) -> Result<Commit, Memory> {
    let ids = Vec::from_slice(alloc, ids)?;
    let partial = Partial::of(ids);
    Ok(Commit::new(1, 1, partition, 0, partial))
}

/// Whether a cluster accepts a commit and then has committed this many records.
fn takes(cluster: &mut Cluster, sent: &Commit, records: usize) -> bool {
    matches!(cluster.commit(sent), Ok(end) if end as usize == records)
}

/// Whether member 1 commits records of these keys, in generation 1 and from the start of a log.
fn commit(
    alloc: Global,
    cluster: &mut Cluster,
    partition: u32,
    ids: &[u32],
) -> Result<bool, Memory> {
    let sent = sent(alloc, partition, ids)?;
    Ok(takes(cluster, &sent, ids.len()))
}

/// The index of the first step that fails on a new cluster with this many partitions. No other
/// function owns a cluster: every `?` and assertion is proved together with the drops of what is
/// owned.
fn first_other_of<R: Abort + RandomSource + Threads + Sync>(
    rt: &R,
    alloc: Global,
    topics: &[Topic],
    partitions: u32,
    steps: &[Step<'_>],
) -> Result<Option<usize>, Memory>
    requires { (1 ≤ partitions) × (partitions ≤ MOST_PARTITIONS) }
{
    let mut cluster = Cluster::new(rt, alloc, partitions)?;
    first_other(rt, alloc, topics, &mut cluster, steps)
}

const FIRST_MOVES: &[u8] = b"move,1,0,,A\nmove,1,1,,A\nmove,1,2,,A\nmove,1,3,,A\n";

const FIRST_CLOSING: &[u8] = b"owner,0,A\nowner,1,A\nowner,2,A\nowner,3,A\n\
    offset,0,0,0\noffset,1,0,0\noffset,2,0,0\noffset,3,0,0\ntotal,0,0\n";

/// A member joins, with four partitions.
const ONE_JOINS: [Step; 6] = [
    Step::Moves(0, b""),
    Step::Join(b"A", 1),
    Step::Moves(0, FIRST_MOVES),
    Step::Moves(3, b"move,1,3,,A\n"),
    Step::Moves(9, b""),
    Step::Closing(FIRST_CLOSING),
];

#[test]
fn a_first_member_is_given_all_partitions(rt: HostRuntime) {
    let other = first_other_of(&rt, rt.alloc(), &[], 4, &ONE_JOINS);
    assert_eq!(rt; other, Ok(None));
}

const NOBODYS_CLOSING: &[u8] = b"owner,0,\nowner,1,\noffset,0,0,0\noffset,1,0,0\ntotal,0,0\n";

const SECOND_MOVES: &[u8] = b"move,2,0,A,worker-2_B\nmove,2,1,A,worker-2_B\n";

/// A member joins, with two partitions, is lost, and another one joins.
const ONE_FOLLOWS: [Step; 5] = [
    Step::Join(b"A", 1),
    Step::Lose(1),
    Step::Closing(NOBODYS_CLOSING),
    Step::Join(b"worker-2_B", 2),
    Step::Moves(2, SECOND_MOVES),
];

#[test]
fn a_move_names_the_last_holder(rt: HostRuntime) {
    let other = first_other_of(&rt, rt.alloc(), &[], 2, &ONE_FOLLOWS);
    assert_eq!(rt; other, Ok(None));
}

const TOP_CLOSING: &[u8] = b"owner,0,A\nowner,1,A\nowner,2,A\nowner,3,A\n\
    offset,0,2,2\noffset,1,0,1\noffset,2,0,1\noffset,3,1,1\n\
    count,21,2\ntotal,3,5\n";

const COUNTED_CLOSING: &[u8] = b"owner,0,A\nowner,1,A\nowner,2,A\nowner,3,A\n\
    offset,0,2,2\noffset,1,0,1\noffset,2,0,1\noffset,3,1,1\n\
    count,21,2\ncount,abc,1\ntotal,3,5\n";

/// A member commits three of the five records.
const THREE_COMMITTED: [Step; 11] = [
    Step::Append(b"21"),
    Step::Append(b"4"),
    Step::Append(b"foobar"),
    Step::Append(b"abc"),
    Step::Append(b"21"),
    Step::Join(b"A", 1),
    Step::Commit(0, &[0, 0]),
    Step::Commit(3, &[3]),
    Step::Closing(COUNTED_CLOSING),
    Step::Top(1, TOP_CLOSING),
    Step::Top(3, COUNTED_CLOSING),
];

#[test]
fn committed_keys_are_counted(rt: HostRuntime) {
    let other = first_other_of(&rt, rt.alloc(), &[], 4, &THREE_COMMITTED);
    assert_eq!(rt; other, Ok(None));
}

const TOPIC_MOVES: &[u8] = b"move,1,a,0,,A\nmove,1,a,1,,A\nmove,1,b,0,,A\n";

const TOPIC_CLOSING: &[u8] = b"owner,a,0,A\nowner,a,1,A\nowner,b,0,A\n\
    offset,a,0,0,0\noffset,a,1,0,0\noffset,b,0,0,0\ntotal,0,0\n";

/// The topics a with two partitions and b with one.
fn a_and_b(rt: &impl Abort) -> [Topic; 2] {
    [topic(rt, b"a", 2), topic(rt, b"b", 1)]
}

/// A member joins, with three partitions of two topics.
const OF_TOPICS: [Step; 3] = [
    Step::Join(b"A", 1),
    Step::Moves(0, TOPIC_MOVES),
    Step::Closing(TOPIC_CLOSING),
];

#[test]
fn a_partition_is_named_by_its_topic(rt: HostRuntime) {
    let topics = a_and_b(&rt);
    let other = first_other_of(&rt, rt.alloc(), &topics, 3, &OF_TOPICS);
    assert_eq!(rt; other, Ok(None));
}

/// Writes the rows of two refused lines.
fn write_two_refused(writer: &mut Writer<Vec<u8>>) -> Result<(), Memory> {
    write_refused(writer, 7, &Refusal::StaleGeneration)?;
    write_refused(writer, u64::MAX, &Refusal::OffsetMismatch { committed: 5 })
}

/// Whether these are the rows of those two lines.
fn are_refused(alloc: Global, wanted: &[u8]) -> Result<bool, Memory> {
    let mut writer = rows::new_writer(alloc);
    write_two_refused(&mut writer)?;
    has_text(writer, wanted)
}

#[test]
fn a_refused_line_is_reported_by_its_number(rt: HostRuntime) {
    let wanted = b"refused,7,2\nrefused,18446744073709551615,11\n";
    assert_eq!(rt; are_refused(rt.alloc(), wanted), Ok(true));
}
