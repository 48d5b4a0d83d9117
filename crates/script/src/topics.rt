//! The topics that lines name.

ghost use Rattle.std.specs.Prelude.{◌≡◌, ◌≤◌, ℕ, length, take, IfSome, IfNone};
ghost use Rattle.script.specs.Grammar.{parse_topic};
ghost use Rattle.partitioner.specs.Topic.{MayBeTopics, partitions_in};
ghost use Rattle.script.specs.Topics.{partition_at, topic_named};

use crate::limits::NO_PARTITION;
use crate::words;
use partitioner::Topic;

/// Splits the name of a topic from the text after it, and returns the topic's index and the text.
/// Without topics there is no index, and the text is returned as it is.
#[tactic(auto, unfolding(crate::specs::Grammar::parse_topic, crate::specs::Grammar::topic_before))]
pub fn parse_topic<'a>(topics: &[Topic], text: &'a [u8]) -> Option<(Option<u32>, &'a [u8])>
    requires { MayBeTopics topics.now }
    ensures found { IfSome result
        (λ parsed. parse_topic topics.now text.now ≡ Some (parsed.0, parsed.1.now)) }
    ensures none { IfNone result (parse_topic topics.now text.now ≡ None) }
{
    if topics.is_empty() {
        return Some((None, text));
    }
    let (name, rest) = words::split_word(text)?;
    let topic = index_named(topics, name)?;
    Some((Some(topic), rest))
}

/// The index of the topic of this name.
#[tactic(auto, unfolding(crate::specs::Topics::topic_named))]
fn index_named(topics: &[Topic], name: &[u8]) -> Option<u32>
    requires { MayBeTopics topics.now }
    ensures { result ≡ topic_named topics.now name.now }
{
    match index_in(topics, name) {
        Some(index) => Some(index as u32),
        None => None,
    }
}

/// The index of the topic of this name in the slice.
#[tactic(auto, unfolding(crate::specs::Topics::topic_named))]
fn index_in(topics: &[Topic], name: &[u8]) -> Option<usize>
    ensures { result ≡ topic_named topics.now name.now }
{
    topics.iter().position(|topic| topic.name.text() == name)
}

/// A partition of the topic of this index, counted over all topics, or `NO_PARTITION` if the topic
/// does not have it. Without a topic the partition is returned as it is.
#[tactic(auto, unfolding(crate::specs::Topics::partition_at))]
pub fn partition_at(topics: &[Topic], topic: Option<u32>, partition: u32) -> u32
    requires { MayBeTopics topics.now }
    ensures { result ≡ partition_at topics.now topic partition }
{
    let Some(index) = topic else {
        return partition;
    };
    let index = index as usize;
    if index < topics.len() && partition < topics[index].partitions {
        partitions_before(topics, index) + partition
    } else {
        NO_PARTITION
    }
}

/// The number of partitions of the topics before this index.
fn partitions_before(topics: &[Topic], index: usize) -> u32
    requires topics { MayBeTopics topics.now }
    requires bound { index ≤ length topics.now }
    ensures { result ≡ partitions_in (take index topics.now) }
{
    let mut partitions = 0;
    for topic in &topics[..index] {
        partitions += topic.partitions;
    }
    partitions
}
