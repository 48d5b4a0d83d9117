//! The value of `--topics`: a list of topics.

ghost use Rattle.std.specs.Prelude.{◌≡◌, ◌≤◌, ◌↔◌, IfOk, IsTrue, List, ℕ};
ghost use Rattle.std.specs.Char.{is_ascii_digit};
ghost use Rattle.std.specs.List.{list_all};
ghost use Rattle.partitioner.specs.Topic.{MayBeTopics, partitions_in};
ghost use Rattle.command_line.specs.Private.Topics.{IsNew, MayFollow, AreParsedTopics, count_of};
ghost use Rattle.command_line.specs.Topics.{topic_of};

use lane_words::{MOST_PARTITIONS, MOST_TOPICS};
use partitioner::{Name, Topic};
use std::alloc::{AllocError, Global};

/// The maximum number of digits of a number of partitions.
const MOST_DIGITS: usize = 4;

/// Parses a list `NAME:N,NAME:N`; `None` where it is not valid.
pub fn parse_topics(alloc: Global, list: &str) -> Result<Option<Vec<Topic>>, AllocError>
    ensures { IfOk result (AreParsedTopics list.now) }
{
    let mut topics = Vec::with_capacity(alloc, MOST_TOPICS)?;
    for item in list.split(',') {
        let Some(topic) = topic_of(item) else {
            return Ok(None);
        };
        if !may_follow(topics.as_slice(), &topic) {
            return Ok(None);
        }
        topics.push(topic)?;
    }
    Ok(Some(topics))
}

/// Parses an item `NAME:N`.
#[tactic(auto, unfolding(crate::specs::Topics::topic_of))]
fn topic_of(item: &str) -> Option<Topic>
    ensures { result ≡ topic_of item.now }
{
    let (name, digits) = item.split_once(':')?;
    let name = Name::new(name.as_bytes())?;
    let partitions = count_of(digits)?;
    Some(Topic { name, partitions })
}

/// Parses a number of partitions, from 1 to `MOST_PARTITIONS`.
fn count_of(digits: &str) -> Option<u32>
    ensures { result ≡ count_of digits.now }
{
    if digits.len() > MOST_DIGITS || !is_all_digits(digits) {
        return None;
    }
    let Ok(number) = digits.parse::<u32>() else {
        return None;
    };
    (1..=MOST_PARTITIONS).contains(&number).then_some(number)
}

/// Whether a text has no character but digits.
pub fn is_all_digits(text: &str) -> bool
    ensures { result ≡ list_all is_ascii_digit text.now }
{
    text.as_bytes().iter().all(|byte| byte.is_ascii_digit())
}

/// Whether a topic may follow these: they are fewer than `MOST_TOPICS`, none has its name, and all
/// together have at most `MOST_PARTITIONS` partitions.
fn may_follow(topics: &[Topic], topic: &Topic) -> bool
    requires topics { MayBeTopics topics.now }
    requires bound { topic.now.partitions ≤ MOST_PARTITIONS }
    ensures { IsTrue result ↔ MayFollow topics.now topic.now }
{
    topics.len() < MOST_TOPICS
        && is_new(topics, &topic.name)
        && partitions_in(topics) + topic.partitions <= MOST_PARTITIONS
}

fn is_new(topics: &[Topic], name: &Name) -> bool
    ensures { IsTrue result ↔ IsNew topics.now name.now }
{
    topics.iter().all(|topic| topic.name.text() != name.text())
}

fn partitions_in(topics: &[Topic]) -> u32
    requires { MayBeTopics topics.now }
    ensures { result ≡ partitions_in topics.now }
{
    topics.iter().map(|topic| topic.partitions).sum()
}
