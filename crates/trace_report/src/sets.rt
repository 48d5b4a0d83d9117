//! The cells that name partitions and who may read them.

ghost use Rattle.std.specs.Prelude.{◌&&◌, ◌==◌, ◌||◌, nat_le, nat_lt, suc, ◌≡◌, ◌≢◌, ◌≤◌, ◌+◌, ◌++◌, ◌∷◌, [], ℕ, List, true, false, drop, IfOk, OnOk};
ghost use Rattle.lane_words.specs.declared.limits.TheConstants.{MOST_PARTITIONS};
ghost use Rattle.bit_planes.specs.PartitionSet.{is_in, partitions_of};
ghost use Rattle.partitioner.specs.Topic.{partitions_in};
ghost use Rattle.trace_report.specs.Private.Runs.{IsNextAmong, IsNextRun, IsReadSet, run_texts};
ghost use Rattle.trace_report.specs.Sets.{each_after, granted_cell, granted_entry, numbers_within, range_text, range_texts, reads, set_texts, texts_of_topic, texts_of_topics, unread, unread_cell};
ghost use Rattle.trace_report.specs.declared.texts.TheConstants.{SEMICOLON, SPACE};

use crate::texts::{self, SEMICOLON, SPACE};
use bit_planes::Plane;
use itoa::Buffer;
use lane_words::Memory;
use partitioner::Topic;
use replay_steps::name_of_member;
use world::World;

/// Appends a space and a range, by its first and its last number.
fn push_range(text: &mut Vec<u8>, range: (u32, u32)) -> Result<(), Memory>
    ensures { OnOk result (text.new.items ≡ text.old.items ++ SPACE ∷ range_text range) }
{
    let (mut first, mut last) = (Buffer::new(), Buffer::new());
    texts::push_after(text, SPACE, first.format(range.0).as_bytes())?;
    if range.0 == range.1 {
        return Ok(());
    }
    texts::push_after(text, b'-', last.format(range.1).as_bytes())
}

/// Whether a number comes next after the last of a range.
fn comes_next(last: u32, number: u32) -> bool
    ensures { result ≡ (suc last == number) }
{
    last < number && number - last == 1
}

/// Takes a number after a range that may still grow: returns the range that it then belongs to, and
/// appends the one before if it has ended.
fn push_number(
    text: &mut Vec<u8>,
    range: Option<(u32, u32)>,
    number: u32,
) -> Result<Option<(u32, u32)>, Memory>
    ensures { IfOk result (IsNextRun text.old.items text.new.items range number) }
{
    let Some((first, last)) = range else {
        return Ok(Some((number, number)));
    };
    if comes_next(last, number) {
        return Ok(Some((first, number)));
    }
    push_range(text, (first, last))?;
    Ok(Some((number, number)))
}

/// Appends a range that has ended, if there is one.
fn push_last(text: &mut Vec<u8>, range: Option<(u32, u32)>) -> Result<(), Memory>
    ensures { OnOk result (text.new.items ≡ text.old.items ++ run_texts range []) }
{
    match range {
        Some(range) => push_range(text, range),
        None => Ok(()),
    }
}

/// Whether a number is from one on and below another.
fn is_within(number: u32, from: u32, to: u32) -> bool
    ensures { result ≡ (nat_le from number && nat_lt number to) }
{
    from <= number && number < to
}

/// Takes an element of a set after a range that may still grow: as `push_number`, if it is from one
/// number on and below another, with the first taken off.
fn push_element(
    text: &mut Vec<u8>,
    range: Option<(u32, u32)>,
    element: u32,
    from: u32,
    to: u32,
) -> Result<Option<(u32, u32)>, Memory>
    ensures { IfOk result (IsNextAmong from to text.old.items text.new.items range element) }
{
    if is_within(element, from, to) {
        push_number(text, range, element - from)
    } else {
        Ok(range)
    }
}

/// Appends the ranges of a set's elements from one number on and below another, less the first.
fn push_within(text: &mut Vec<u8>, set: &Plane, from: u32, to: u32) -> Result<(), Memory>
    ensures { OnOk result (text.new.items
        ≡ text.old.items ++ each_after SPACE (range_texts (numbers_within set.now from to))) }
{
    let mut range = None;
    for p in set.iter() {
        range = push_element(text, range, p, from, to)?;
    }
    push_last(text, range)
}

/// Whether a set has an element from one number on and below another.
fn has_within(set: &Plane, from: u32, to: u32) -> bool
    ensures if_true { result ≡ true → numbers_within set.now from to ≢ [] }
    ensures if_false { result ≡ false → numbers_within set.now from to ≡ [] }
{
    for p in set.iter() {
        if is_within(p, from, to) {
            return true;
        }
    }
    false
}

/// Appends a topic's name and the ranges of its partitions, if the set has any of them.
fn push_topic(
    text: &mut Vec<u8>,
    name: &[u8],
    set: &Plane,
    from: u32,
    to: u32,
) -> Result<(), Memory>
    ensures { OnOk result (text.new.items ≡ text.old.items
        ++ each_after SPACE (texts_of_topic name.now (numbers_within set.now from to))) }
{
    if !has_within(set, from, to) {
        return Ok(());
    }
    texts::push_after(text, SPACE, name)?;
    push_within(text, set, from, to)
}

/// Appends the texts of a set in all topics.
fn push_topics(text: &mut Vec<u8>, topics: &[Topic], set: &Plane) -> Result<(), Memory>
    requires { partitions_in topics.now ≤ MOST_PARTITIONS }
    ensures { OnOk result (text.new.items
        ≡ text.old.items ++ each_after SPACE (texts_of_topics topics.now 0 set.now)) }
{
    let mut from = 0;
    for topic in topics {
        let to = from + topic.partitions;
        push_topic(text, topic.name.text(), set, from, to)?;
        from = to;
    }
    Ok(())
}

/// Appends the texts of a set, each after a space.
fn push_set(text: &mut Vec<u8>, topics: &[Topic], set: &Plane) -> Result<(), Memory>
    requires { partitions_in topics.now ≤ MOST_PARTITIONS }
    ensures { OnOk result (text.new.items
        ≡ text.old.items ++ each_after SPACE (set_texts topics.now set.now)) }
{
    if topics.is_empty() {
        push_within(text, set, 0, set.partitions())
    } else {
        push_topics(text, topics, set)
    }
}

/// Appends a member and the partitions that it is granted, after a semicolon.
fn push_granted(
    text: &mut Vec<u8>,
    topics: &[Topic],
    world: &World,
    member: u32,
) -> Result<(), Memory>
    requires { partitions_in topics.now ≤ MOST_PARTITIONS }
    ensures { OnOk result (text.new.items
        ≡ text.old.items ++ SEMICOLON ∷ granted_entry topics.now world.now member) }
{
    texts::push_after(text, SEMICOLON, name_of_member(world, member))?;
    match world.cluster().granted(member) {
        Some(granted) => push_set(text, topics, granted),
        None => Ok(()),
    }
}

/// Writes the cell of what members are granted, with a semicolon before it.
pub fn write_granted(text: &mut Vec<u8>, topics: &[Topic], world: &World) -> Result<(), Memory>
    requires { partitions_in topics.now ≤ MOST_PARTITIONS }
    ensures { OnOk result (drop 1 text.new.items ≡ granted_cell topics.now world.now) }
{
    text.clear();
    for member in world.cluster().members() {
        push_granted(text, topics, world, member)?;
    }
    Ok(())
}

/// Adds the partitions that a member's consumer holds.
fn add_held(read: &mut Plane, world: &World, member: u32)
    requires { partitions_of read.old ≡ world.now.cluster.group.partitions }
    ensures partitions { partitions_of read.new ≡ partitions_of read.old }
    ensures elements { (p : ℕ) → is_in read.new p ≡ (is_in read.old p || reads world.now p member) }
{
    if let Some(consumer) = world.consumer(member) {
        read.insert_all(consumer.holding());
    }
}

/// The partitions that some present member's consumer holds.
fn read_by_members(world: &World) -> Plane
    ensures { IsReadSet world.now result }
{
    let cluster = world.cluster();
    let mut read = Plane::new(cluster.partitions());
    for member in cluster.members() {
        add_held(&mut read, world, member);
    }
    read
}

/// The partitions that nobody reads.
fn unread(world: &World) -> Plane
    ensures { result ≡ unread world.now }
{
    let mut unread = Plane::full(world.cluster().partitions());
    unread.remove_all(&read_by_members(world));
    unread
}

/// Writes the cell of what nobody reads, with a space before it.
pub fn write_unread(text: &mut Vec<u8>, topics: &[Topic], world: &World) -> Result<(), Memory>
    requires { partitions_in topics.now ≤ MOST_PARTITIONS }
    ensures { OnOk result (drop 1 text.new.items ≡ unread_cell topics.now world.now) }
{
    text.clear();
    push_set(text, topics, &unread(world))
}
