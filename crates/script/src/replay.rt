//! Parses the script of a replay.

ghost use Rattle.lane_words.specs.Answers.{Answers};
ghost use Rattle.script.specs.Replay.{lines_seen, read_answer, read_answer_in};
ghost use Rattle.partitioner.specs.Topic.{AreTopics, MayBeTopics};

use crate::action::Action;
use crate::lines;
use lane_words::Refusal;
use partitioner::Topic;
use std::alloc::Global;

/// A line with an action.
#[derive(Debug, Drop)]
pub struct Line {
    /// The line's number, from 1. Empty lines and comments count too.
    pub number: u64,
    /// The action.
    pub action: Action,
}

/// Parses a script, and returns its lines with an action, in order.
///
/// Fails with `BadLine` for the first line that is not valid, and with `Memory` if memory runs out.
pub fn read_replay(alloc: Global, bytes: &[u8]) -> Result<Vec<Line>, Refusal>
    ensures { Answers (read_answer bytes.now) (lines_seen result) }
{
    lines_in(alloc, &[], bytes)
}

/// Parses a script with topics. An `append` names a topic before its key, and a `poll` or a `send`
/// before its partition, which is then one of this topic. In the action, partitions are counted
/// over all topics; a partition that the topic does not have is `NO_PARTITION`.
///
/// Fails as `read_replay` does. A line that names no topic of these is not valid.
pub fn read_replay_topics(
    alloc: Global,
    bytes: &[u8],
    topics: &[Topic],
) -> Result<Vec<Line>, Refusal>
    requires { AreTopics topics.now }
    ensures { Answers (read_answer_in topics.now bytes.now) (lines_seen result) }
{
    lines_in(alloc, topics, bytes)
}

/// Parses a script. `topics` is empty for a script without topics.
fn lines_in(alloc: Global, topics: &[Topic], bytes: &[u8]) -> Result<Vec<Line>, Refusal>
    requires { MayBeTopics topics.now }
    ensures { Answers (read_answer_in topics.now bytes.now) (lines_seen result) }
{
    let mut lines = Vec::new(alloc);
    let mut rest = bytes;
    let mut number = 0;
    while !rest.is_empty() {
        let (line, after) = lines::first_line(rest);
        number += 1;
        if let Some(action) = lines::parse_action(alloc, topics, number, line)? {
            lines.push(Line { number, action })?;
        }
        rest = after;
    }
    Ok(lines)
}
