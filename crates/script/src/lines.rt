//! The lines of a script, of a replay or of a plan.

ghost use Rattle.std.specs.Prelude.{◌≡◌, ℕ, ◌+◌, ◌-◌, ◌∷◌, ◌<◌, length};
ghost use Rattle.std.specs.Str.Lines.{strip_carriage_return};
ghost use Rattle.lane_words.specs.Answers.{Answers};
ghost use Rattle.script.specs.Grammar.{line_starts, lines_from, split_lines};
ghost use Rattle.script.specs.Replay.{parse_action_answer};
ghost use Rattle.partitioner.specs.Topic.{MayBeTopics};

use crate::action::{self, Action};
use crate::limits::LONGEST_LINE;
use crate::words;
use lane_words::Refusal;
use partitioner::Topic;
use std::alloc::Global;

/// The first line, without its line end, and the bytes after it.
pub fn first_line(bytes: &[u8]) -> (&[u8], &[u8])
    requires { 0 < length bytes.now }
    ensures lines { (n : ℕ)
        → lines_from n bytes.now ≡ (n, result.0.now) ∷ lines_from (n + 1) result.1.now }
    ensures starts { (first : ℕ) → line_starts first bytes.now ≡ first
        ∷ line_starts (first + (length bytes.now - length result.1.now)) result.1.now }
    ensures bound { length result.1.now < length bytes.now }
{
    let (line, rest) = split_line(bytes);
    (without_carriage_return(line), rest)
}

/// The first line, without its line feed, and the bytes after it.
fn split_line(bytes: &[u8]) -> (&[u8], &[u8])
    requires { 0 < length bytes.now }
    ensures lines { split_lines bytes.now ≡ result.0.now ∷ split_lines result.1.now }
    ensures starts { (first : ℕ) → line_starts first bytes.now ≡ first
        ∷ line_starts (first + (length bytes.now - length result.1.now)) result.1.now }
    ensures bound { length result.1.now < length bytes.now }
{
    match words::first_index(bytes, b'\n') {
        Some(end) => (&bytes[..end], &bytes[end + 1..]),
        None => (bytes, &[]),
    }
}

/// A line without one carriage return at its end.
fn without_carriage_return(line: &[u8]) -> &[u8]
    ensures { result.now ≡ strip_carriage_return line.now }
{
    match line {
        [text @ .., b'\r'] => text,
        _ => line,
    }
}

/// Parses the line of this number. A comment or an empty line has no action; a line that is not
/// valid is refused with `BadLine`.
pub fn parse_action(
    alloc: Global,
    topics: &[Topic],
    number: u64,
    line: &[u8],
) -> Result<Option<Action>, Refusal>
    requires { MayBeTopics topics.now }
    ensures { Answers (parse_action_answer topics.now (number, line.now)) result }
{
    if line.len() > LONGEST_LINE {
        return Err(Refusal::BadLine { line: number });
    }
    if line.is_empty() || line[0] == b'#' {
        return Ok(None);
    }
    let Some(action) = action::action_of(alloc, topics, line)? else {
        return Err(Refusal::BadLine { line: number });
    };
    Ok(Some(action))
}
