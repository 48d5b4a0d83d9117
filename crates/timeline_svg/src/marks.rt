//! What is marked in a column: polls, commits and refusals.

ghost use Rattle.std.specs.Prelude.{◌≡◌, ◌++◌, MatchOption, None, OnOk, Some};
ghost use Rattle.timeline_svg.specs.Marks.{arc_shape, cross_shape, delivery_text, end_shape, mark_text, poll_open, poll_shape, poll_text, records_attributes, records_text, refusal_shape, send_class, send_shape, send_text, sent_of, tick_shape};

use crate::layout::{column_x, lane_y, middle_x};
use crate::pieces::Piece::{Number, Text};
use crate::pieces::put;
use crate::places::{lane_of, place_of};
use crate::words::{colour_of, end_class, end_words, is_accepted, name_of};
use lane_words::Memory;
use partitioner::Topic;
use replay_steps::reason_of;
use timeline::{End, Mark, Records, Sent, Timeline};

/// Appends the attributes that name a member, a partition and a range of its offsets.
#[tactic(auto, unfolding(crate::specs::Marks::records_attributes))]
fn put_attributes<'a>(
    out: &mut Vec<u8>,
    name: &'a [u8],
    topic: &'a [u8],
    number: usize,
    records: &Records,
) -> Result<(), Memory>
    ensures { OnOk result (out.new.items
        ≡ out.old.items ++ records_attributes name.now topic.now number records.now) }
{
    put(
        out,
        &[
            Text(b" data-member=\""),
            Text(name),
            Text(b"\" data-topic=\""),
            Text(topic),
            Text(b"\" data-partition=\""),
            Number(number as u128),
            Text(b"\" data-from=\""),
            Number(records.from as u128),
            Text(b"\" data-to=\""),
            Number(records.to as u128),
            Text(b"\""),
        ],
    )
}

fn put_records(
    out: &mut Vec<u8>,
    topics: &[Topic],
    timeline: &Timeline,
    records: &Records,
) -> Result<(), Memory>
    ensures { OnOk result (out.new.items
        ≡ out.old.items ++ records_text topics.now timeline.now records.now) }
{
    let place = place_of(topics, records.partition as usize);
    let name = name_of(timeline.names(), records.member);
    put_attributes(out, name, place.topic, place.number, records)
}

/// Appends the box of a poll, its partition and its offsets.
fn put_poll_shape(
    out: &mut Vec<u8>,
    lane: usize,
    column: usize,
    number: usize,
    records: &Records,
) -> Result<(), Memory>
    ensures { OnOk result (out.new.items
        ≡ out.old.items ++ poll_shape lane column number records.now) }
{
    put(
        out,
        &[
            Text(b"><rect class=\"m"),
            Number(colour_of(records.member)),
            Text(b"\" x=\""),
            Number(column_x(column) + 11),
            Text(b"\" y=\""),
            Number(lane_y(lane) + 20),
            Text(b"\" width=\"6\" height=\"8\"/><text class=\"offsets\" x=\""),
            Number(middle_x(column)),
            Text(b"\" y=\""),
            Number(lane_y(lane) + 38),
            Text(b"\">"),
            Number(number as u128),
            Text(b":"),
            Number(records.from as u128),
            Text(b"-"),
            Number(records.to as u128),
            Text(b"</text></g>"),
        ],
    )
}

#[tactic(auto, unfolding(crate::specs::Marks::poll_open))]
fn put_poll_open(out: &mut Vec<u8>) -> Result<(), Memory>
    ensures { OnOk result (out.new.items ≡ out.old.items ++ poll_open) }
{
    out.extend_from_slice(b"<g class=\"poll\"")?;
    Ok(())
}

/// Appends a poll.
fn put_poll(
    out: &mut Vec<u8>,
    topics: &[Topic],
    timeline: &Timeline,
    starts: &[usize],
    column: usize,
    records: &Records,
) -> Result<(), Memory>
    ensures { OnOk result (out.new.items ≡ out.old.items
        ++ poll_text topics.now timeline.now starts.now column records.now) }
{
    let number = place_of(topics, records.partition as usize).number;
    let lane = lane_of(starts, records.partition as usize);
    put_poll_open(out)?;
    put_records(out, topics, timeline, records)?;
    put_poll_shape(out, lane, column, number, records)
}

fn put_send_class(out: &mut Vec<u8>, member: u32) -> Result<(), Memory>
    ensures { OnOk result (out.new.items ≡ out.old.items ++ send_class member) }
{
    put(
        out,
        &[
            Text(b"<circle class=\"send m"),
            Number(colour_of(member)),
            Text(b"\""),
        ],
    )
}

fn put_send_shape(out: &mut Vec<u8>, lane: usize, commit: u32, column: usize) -> Result<(), Memory>
    ensures { OnOk result (out.new.items ≡ out.old.items ++ send_shape lane commit column) }
{
    put(
        out,
        &[
            Text(b" data-commit=\""),
            Number(commit as u128),
            Text(b"\" cx=\""),
            Number(middle_x(column)),
            Text(b"\" cy=\""),
            Number(lane_y(lane) + 47),
            Text(b"\" r=\"4\"/>"),
        ],
    )
}

/// Appends the dot of a sent commit.
fn put_send(
    out: &mut Vec<u8>,
    topics: &[Topic],
    timeline: &Timeline,
    starts: &[usize],
    commit: u32,
    sent: &Sent,
) -> Result<(), Memory>
    ensures { OnOk result (out.new.items ≡ out.old.items
        ++ send_text topics.now timeline.now starts.now commit sent.now) }
{
    let lane = lane_of(starts, sent.records.partition as usize);
    put_send_class(out, sent.records.member)?;
    put_records(out, topics, timeline, &sent.records)?;
    put_send_shape(out, lane, commit, sent.column)
}

/// Appends the arc of a delivery, from the column of the commit's sending.
fn put_arc(
    out: &mut Vec<u8>,
    name: &[u8],
    lane: usize,
    column: usize,
    commit: u32,
    sent: usize,
    end: End,
) -> Result<(), Memory>
    ensures { OnOk result (out.new.items
        ≡ out.old.items ++ arc_shape name.now lane column commit sent end) }
{
    let words = end_words(end);
    let length = column_x(column.saturating_sub(sent));
    put(
        out,
        &[
            Text(b"<g class=\"commit "),
            Text(end_class(end)),
            Text(b"\" data-commit=\""),
            Number(commit as u128),
            Text(b"\" data-sent=\""),
            Number(sent as u128),
            Text(b"\" data-reason=\""),
            Text(words),
            Text(b"\"><title>commit "),
            Number(commit as u128),
            Text(b" of "),
            Text(name),
            Text(b": "),
            Text(words),
            Text(b"</title><path class=\"arc\" d=\"M"),
            Number(middle_x(sent)),
            Text(b" "),
            Number(lane_y(lane) + 47),
            Text(b"c0 12 "),
            Number(length),
            Text(b" 12 "),
            Number(length),
            Text(b" 0\"/>"),
        ],
    )
}

fn put_tick(out: &mut Vec<u8>, lane: usize, column: usize) -> Result<(), Memory>
    ensures { OnOk result (out.new.items ≡ out.old.items ++ tick_shape lane column) }
{
    put(
        out,
        &[
            Text(b"<path class=\"tick\" d=\"M"),
            Number(column_x(column) + 9),
            Text(b" "),
            Number(lane_y(lane) + 47),
            Text(b"l4 5 7 -11\"/></g>"),
        ],
    )
}

fn put_cross(out: &mut Vec<u8>, lane: usize, column: usize, words: &[u8]) -> Result<(), Memory>
    ensures { OnOk result (out.new.items ≡ out.old.items ++ cross_shape lane column words.now) }
{
    put(
        out,
        &[
            Text(b"<path class=\"cross\" d=\"M"),
            Number(column_x(column) + 10),
            Text(b" "),
            Number(lane_y(lane) + 43),
            Text(b"l8 8m0 -8l-8 8\"/><text class=\"reason\" x=\""),
            Number(middle_x(column)),
            Text(b"\" y=\""),
            Number(lane_y(lane) + 67),
            Text(b"\">"),
            Text(words),
            Text(b"</text></g>"),
        ],
    )
}

/// Appends the end of a delivery: a tick if it was accepted, else a cross and why.
fn put_end(out: &mut Vec<u8>, lane: usize, column: usize, end: End) -> Result<(), Memory>
    ensures { OnOk result (out.new.items ≡ out.old.items ++ end_shape lane column end) }
{
    if is_accepted(end) {
        put_tick(out, lane, column)
    } else {
        put_cross(out, lane, column, end_words(end))
    }
}

/// Appends the delivery of a commit.
fn put_delivery(
    out: &mut Vec<u8>,
    timeline: &Timeline,
    starts: &[usize],
    column: usize,
    commit: u32,
    end: End,
    sent: &Sent,
) -> Result<(), Memory>
    ensures { OnOk result (out.new.items ≡ out.old.items
        ++ delivery_text timeline.now starts.now column commit end sent.now) }
{
    let name = name_of(timeline.names(), sent.records.member);
    let lane = lane_of(starts, sent.records.partition as usize);
    put_arc(out, name, lane, column, commit, sent.column, end)?;
    put_end(out, lane, column, end)
}

/// Appends the refusal of an event or of a line.
fn put_refusal(out: &mut Vec<u8>, column: usize, words: &[u8]) -> Result<(), Memory>
    ensures { OnOk result (out.new.items ≡ out.old.items ++ refusal_shape column words.now) }
{
    put(
        out,
        &[
            Text(b"<g class=\"refusal\" data-reason=\""),
            Text(words),
            Text(b"\"><path class=\"cross\" d=\"M"),
            Number(column_x(column) + 10),
            Text(b" 155l8 8m0 -8l-8 8\"/><text transform=\"translate("),
            Number(column_x(column) + 22),
            Text(b" 148) rotate(-45)\">"),
            Text(words),
            Text(b"</text></g>"),
        ],
    )
}

/// A commit by its number, from 1.
fn sent_of(commits: &[Sent], commit: u32) -> Option<&Sent>
    ensures { MatchOption result (sent_of commits.now commit ≡ None)
        (λ sent. sent_of commits.now commit ≡ Some sent.now) }
{
    commits.get(commit.saturating_sub(1) as usize)
}

/// Appends what is marked in a column.
#[tactic(auto, unfolding(crate::specs::Marks::mark_text))]
pub fn put_mark(
    out: &mut Vec<u8>,
    topics: &[Topic],
    timeline: &Timeline,
    starts: &[usize],
    column: usize,
    mark: Mark,
) -> Result<(), Memory>
    ensures { OnOk result (out.new.items
        ≡ out.old.items ++ mark_text topics.now timeline.now starts.now column mark) }
{
    match mark {
        Mark::Empty => Ok(()),
        Mark::Poll(records) => put_poll(out, topics, timeline, starts, column, &records),
        Mark::Send(commit) => match sent_of(timeline.commits(), commit) {
            Some(sent) => put_send(out, topics, timeline, starts, commit, sent),
            None => Ok(()),
        },
        Mark::Delivery { commit, end } => match sent_of(timeline.commits(), commit) {
            Some(sent) => put_delivery(out, timeline, starts, column, commit, end, sent),
            None => Ok(()),
        },
        Mark::Refused(why) => put_refusal(out, column, reason_of(&why)),
    }
}
