//! The rows of a replay and of a run: moves, refusals, owners, offsets, counts and totals.

ghost use Rattle.std.specs.Prelude.{◌≡◌, ◌<◌, ◌∷◌, ◌++◌, [], ℕ, IfNone, IfOk, IfSome, List, OnOk, decimal, drop, flat_map, length, vec_items};
ghost use Rattle.lane_words.specs.Refusal.{code_of};
ghost use Rattle.report_rows.specs.Rows.{AddsRows, HasText, total_row};
ghost use Rattle.report_rows.specs.ReplayRows.{appended_total, closing_rows, committed_total, listed_committed_rows, move_row, move_rows, name_or_empty, offset_row, offset_rows, owner_row, owner_rows, partition_fields, refused_row};

use crate::committed_rows::committed_texts;
use crate::count_rows::with_total;
use crate::rows;
use crate::top_rows::top_text;
use csv::Writer;
use group_machine::{Cluster, Move};
use itoa::Buffer;
use lane_words::{Memory, Refusal};
use partition_log::LogRead;
use partitioner::Topic;
use std::alloc::Global;
use std::thread::Threads;

/// The name of a member, or nothing if there is none.
fn name_or_empty(cluster: &Cluster, member: Option<u32>) -> &[u8]
    ensures { result.now ≡ name_or_empty cluster.now.group member }
{
    let Some(number) = member else {
        return b"";
    };
    match cluster.name(number) {
        Some(name) => name.text(),
        None => b"",
    }
}

/// The name of a partition's topic and the partition's number in it. Without topics there is no
/// name, and the number is the partition's own.
pub fn partition_among(topics: &[Topic], partition: u32) -> (Option<&[u8]>, u32)
    ensures found { IfSome result.0 (λ name. partition_fields topics.now partition
        ≡ name.now ∷ decimal result.1 ∷ []) }
    ensures none { IfNone result.0
        (partition_fields topics.now partition ≡ decimal result.1 ∷ []) }
{
    let mut number = partition;
    for topic in topics {
        if number < topic.partitions {
            return (Some(topic.name.text()), number);
        }
        number -= topic.partitions;
    }
    (None, number)
}

fn write_move(
    writer: &mut Writer<Vec<u8>>,
    topics: &[Topic],
    cluster: &Cluster,
    made: &Move,
) -> Result<(), Memory>
    ensures { OnOk result
        (AddsRows writer.old writer.new (move_row topics.now cluster.now.group made.now)) }
{
    let (mut first, mut second) = (Buffer::new(), Buffer::new());
    let (topic, number) = partition_among(topics, made.partition);
    let generation = first.format(made.generation).as_bytes();
    let partition = second.format(number).as_bytes();
    let last = name_or_empty(cluster, made.last);
    let holder = name_or_empty(cluster, Some(made.holder));
    match topic {
        Some(name) => rows::write_row(
            writer,
            &[b"move", generation, name, partition, last, holder],
        ),
        None => rows::write_row(writer, &[b"move", generation, partition, last, holder]),
    }
}

/// Writes the rows of the moves of a cluster from this index on. With topics, a partition is named
/// by its topic and its number there.
pub fn write_moves(
    writer: &mut Writer<Vec<u8>>,
    topics: &[Topic],
    cluster: &Cluster,
    from: usize,
) -> Result<(), Memory>
    ensures { OnOk result (AddsRows writer.old writer.new
        (move_rows topics.now cluster.now.group (drop from cluster.now.group.moves))) }
{
    let moves = cluster.moves();
    for i in from..moves.len() {
        write_move(writer, topics, cluster, &moves[i])?;
    }
    Ok(())
}

/// Writes the row of a refused line of a script.
pub fn write_refused(
    writer: &mut Writer<Vec<u8>>,
    line: u64,
    refusal: &Refusal,
) -> Result<(), Memory>
    ensures { OnOk result
        (AddsRows writer.old writer.new (refused_row line (code_of refusal.now))) }
{
    let (mut number, mut code) = (Buffer::new(), Buffer::new());
    rows::write_row(
        writer,
        &[
            b"refused",
            number.format(line).as_bytes(),
            code.format(refusal.code()).as_bytes(),
        ],
    )
}

fn write_owner(
    writer: &mut Writer<Vec<u8>>,
    topics: &[Topic],
    cluster: &Cluster,
    p: u32,
) -> Result<(), Memory>
    ensures { OnOk result
        (AddsRows writer.old writer.new (owner_row topics.now cluster.now.group p)) }
{
    let mut digits = Buffer::new();
    let (topic, number) = partition_among(topics, p);
    let partition = digits.format(number).as_bytes();
    let owner = name_or_empty(cluster, cluster.owner(p));
    match topic {
        Some(name) => rows::write_row(writer, &[b"owner", name, partition, owner]),
        None => rows::write_row(writer, &[b"owner", partition, owner]),
    }
}

fn write_owners(
    writer: &mut Writer<Vec<u8>>,
    topics: &[Topic],
    cluster: &Cluster,
) -> Result<(), Memory>
    ensures { OnOk result
        (AddsRows writer.old writer.new (owner_rows topics.now cluster.now.group)) }
{
    for p in 0..cluster.partitions() {
        write_owner(writer, topics, cluster, p)?;
    }
    Ok(())
}

fn write_offset(
    writer: &mut Writer<Vec<u8>>,
    topics: &[Topic],
    p: u32,
    committed: u32,
    end: u32,
) -> Result<(), Memory>
    ensures { OnOk result (AddsRows writer.old writer.new (offset_row topics.now p committed end)) }
{
    let (mut digits, mut first, mut second) = (Buffer::new(), Buffer::new(), Buffer::new());
    let (topic, number) = partition_among(topics, p);
    let partition = digits.format(number).as_bytes();
    let committed = first.format(committed).as_bytes();
    let end = second.format(end).as_bytes();
    match topic {
        Some(name) => rows::write_row(writer, &[b"offset", name, partition, committed, end]),
        None => rows::write_row(writer, &[b"offset", partition, committed, end]),
    }
}

/// Writes the row of each partition, its committed offset and its end offset.
fn write_offsets(
    writer: &mut Writer<Vec<u8>>,
    topics: &[Topic],
    cluster: &Cluster,
) -> Result<(), Memory>
    ensures { OnOk result (AddsRows writer.old writer.new (offset_rows topics.now cluster.now)) }
{
    let (store, logs) = (cluster.store(), cluster.logs());
    for p in 0..cluster.partitions() {
        write_offset(writer, topics, p, store.committed(p), logs.len(p))?;
    }
    Ok(())
}

/// The number of records committed: the sum of the committed offsets.
pub fn committed_total(cluster: &Cluster) -> u64
    ensures { result ≡ committed_total cluster.now }
{
    let store = cluster.store();
    let mut total = 0;
    for p in 0..cluster.partitions() {
        total += u64::from(store.committed(p));
    }
    total
}

/// The number of records appended: the sum of the lengths of the logs.
pub fn appended_total(cluster: &Cluster) -> u64
    ensures { result ≡ appended_total cluster.now }
{
    let logs = cluster.logs();
    let mut total = 0;
    for p in 0..cluster.partitions() {
        total += u64::from(logs.len(p));
    }
    total
}

/// The rows of all keys with a count above 0, or of those of the top, and the row of the totals, in
/// texts to be written one after another.
fn texts_of_counts<R: Threads + Sync>(
    rt: &R,
    alloc: Global,
    top: Option<u32>,
    cluster: &Cluster,
) -> Result<Vec<Vec<u8>>, Memory>
    ensures { let s = cluster.now in IfOk result (λ texts. flat_map vec_items texts.items
        ≡ listed_committed_rows top s.logs.keys s.store.counts
        ++ total_row (committed_total s) (appended_total s)) }
{
    let (keys, counts) = (cluster.logs().dictionary(), cluster.store().counts());
    let (committed, appended) = (committed_total(cluster), appended_total(cluster));
    let Some(most) = top else {
        let texts = committed_texts(rt, alloc, keys, counts)?;
        return with_total(alloc, texts, committed, appended);
    };
    let mut texts = Vec::new(alloc);
    texts.push(top_text(alloc, keys, counts, most, committed, appended)?)?;
    Ok(texts)
}

/// Adds texts to another, one after another.
fn add_texts(all: &mut Vec<u8>, texts: Vec<Vec<u8>>) -> Result<(), Memory>
    ensures { OnOk result (all.new.items ≡ all.old.items ++ flat_map vec_items texts.items) }
{
    for text in texts {
        all.extend_from_slice(text.as_slice())?;
    }
    Ok(())
}

/// What was written, and behind it the rows after the last line of a script or of a plan. With
/// topics, a partition is named by its topic and its number there. With `top`, only so many keys
/// with the highest counts have rows. Those of many keys are made in parallel.
pub fn closing_text<R: Threads + Sync>(
    rt: &R,
    alloc: Global,
    writer: Writer<Vec<u8>>,
    topics: &[Topic],
    top: Option<u32>,
    cluster: &Cluster,
) -> Result<Vec<u8>, Memory>
    ensures { (text : List ℕ) → HasText writer text → IfOk result (λ all. all.items
        ≡ text ++ closing_rows topics.now top cluster.now) }
{
    let mut writer = writer;
    write_owners(&mut writer, topics, cluster)?;
    write_offsets(&mut writer, topics, cluster)?;
    let mut all = rows::text_of(writer)?;
    let texts = texts_of_counts(rt, alloc, top, cluster)?;
    add_texts(&mut all, texts)?;
    Ok(all)
}
