//! The actions of a script, and the grammar of their lines.

ghost use Rattle.std.specs.Prelude.{◌≡◌, Some, IfOk};
ghost use Rattle.script.specs.Grammar.{action_of, append_action, command_action, mail_action, member_action, nullary_action, poll_action, send_action, single_action};
ghost use Rattle.partitioner.specs.Topic.{MayBeTopics};

use crate::{topics, words};
use group_machine::Name;
use lane_words::Memory;
use partitioner::Topic;
use std::alloc::Global;
use std::marker::Model;

/// The key of an appended record.
#[derive(Debug, Drop)]
pub struct Key {
    /// The bytes of the key.
    bytes: Vec<u8>,
}

impl Model for Key {
    ghost use Rattle.std.specs.Prelude.{List, ℕ};

    ghost Value = { List ℕ };

    ghost view = { λ key. key.bytes.items };
}

impl Key {
    /// The key of these bytes.
    pub fn new(bytes: Vec<u8>) -> Key
        ensures { result ≡ bytes.items }
    {
        Key { bytes }
    }

    /// The bytes of the key.
    pub fn bytes(&self) -> &[u8]
        ensures { result.now ≡ self.now }
    {
        &self.bytes
    }

    /// The bytes of the key, which is consumed.
    pub fn into_bytes(self) -> Vec<u8>
        ensures { result.items ≡ self }
    {
        self.bytes
    }
}

/// The action of a line: one event, or a command that makes many.
#[derive(Debug, Drop)]
pub enum Action {
    /// A record with this key is appended, to the only topic.
    Append(Key),
    /// A record with this key is appended to the topic of this index.
    AppendIn {
        topic: u32,
        key: Key,
    },
    /// A member of this name joins.
    Join(Name),
    /// A static member of this name joins: it keeps its seat under the name.
    Keep(Name),
    /// A new member takes over the seat of the static member of this name.
    Return(Name),
    /// The member joins the rebalance.
    Rejoin(Name),
    /// The member takes its lease.
    Sync(Name),
    /// The member leaves.
    Leave(Name),
    /// The member is lost.
    Lose(Name),
    /// The member reads at most `most` records of a partition.
    Poll {
        name: Name,
        partition: u32,
        most: u32,
    },
    /// The member sends a commit of what it read of a partition.
    Send {
        name: Name,
        partition: u32,
    },
    /// The sent commit of this number, from 1, is delivered.
    Deliver(u32),
    /// The sent commit of this number is delivered, and the reply is lost.
    Unanswered(u32),
    /// The group settles.
    Settle,
    /// All logs are read and committed to their ends.
    Drain,
}

/// The action of a line, if the line is valid. `topics` is empty for a script without topics.
#[tactic(auto, unfolding(crate::specs::Grammar::action_of))]
pub fn action_of(alloc: Global, topics: &[Topic], line: &[u8]) -> Result<Option<Action>, Memory>
    requires { MayBeTopics topics.now }
    ensures { IfOk result (λ action. action ≡ action_of topics.now line.now) }
{
    match words::split_word(line) {
        Some((command, text)) => command_action(alloc, topics, command, text),
        None => Ok(nullary_action(line)),
    }
}

/// A command and the text after it.
#[tactic(auto, unfolding(crate::specs::Grammar::command_action))]
fn command_action(
    alloc: Global,
    topics: &[Topic],
    command: &[u8],
    text: &[u8],
) -> Result<Option<Action>, Memory>
    requires { MayBeTopics topics.now }
    ensures { IfOk result (λ action. action ≡ command_action topics.now command.now text.now) }
{
    if command == b"append".as_slice() {
        append_action(alloc, topics, text)
    } else if command == b"send".as_slice() {
        Ok(send_action(topics, text))
    } else if command == b"poll".as_slice() {
        Ok(poll_action(topics, text))
    } else {
        Ok(single_action(command, text))
    }
}

/// `append KEY`, and with topics `append TOPIC KEY`.
#[tactic(auto, unfolding(crate::specs::Grammar::append_action))]
fn append_action(alloc: Global, topics: &[Topic], text: &[u8]) -> Result<Option<Action>, Memory>
    requires { MayBeTopics topics.now }
    ensures { IfOk result (λ action. action ≡ append_action topics.now text.now) }
{
    let Some((topic, key)) = topics::parse_topic(topics, text) else {
        return Ok(None);
    };
    let key = Key::new(key.to_vec(alloc)?);
    match topic {
        Some(topic) => Ok(Some(Action::AppendIn { topic, key })),
        None => Ok(Some(Action::Append(key))),
    }
}

/// `settle` and `drain`.
#[tactic(auto, unfolding(crate::specs::Grammar::nullary_action))]
fn nullary_action(command: &[u8]) -> Option<Action>
    ensures { result ≡ nullary_action command.now }
{
    if command == b"settle".as_slice() {
        Some(Action::Settle)
    } else if command == b"drain".as_slice() {
        Some(Action::Drain)
    } else {
        None
    }
}

/// A command with one argument: a name or a number.
#[tactic(auto, unfolding(crate::specs::Grammar::single_action, crate::specs::Grammar::name_of))]
fn single_action(command: &[u8], argument: &[u8]) -> Option<Action>
    ensures { result ≡ single_action command.now argument.now }
{
    if let Some(name) = Name::new(argument)
        && let Some(action) = member_action(command, name)
    {
        return Some(action);
    }
    mail_action(command, words::number_of(argument)?)
}

/// A command of a member.
#[tactic(auto, unfolding(crate::specs::Grammar::member_action))]
fn member_action(command: &[u8], name: Name) -> Option<Action>
    ensures { result ≡ member_action command.now name }
{
    if command == b"join".as_slice() {
        Some(Action::Join(name))
    } else if command == b"keep".as_slice() {
        Some(Action::Keep(name))
    } else if command == b"return".as_slice() {
        Some(Action::Return(name))
    } else if command == b"rejoin".as_slice() {
        Some(Action::Rejoin(name))
    } else if command == b"sync".as_slice() {
        Some(Action::Sync(name))
    } else if command == b"leave".as_slice() {
        Some(Action::Leave(name))
    } else if command == b"lose".as_slice() {
        Some(Action::Lose(name))
    } else {
        None
    }
}

/// A command for a sent commit, by its number.
#[tactic(auto, unfolding(crate::specs::Grammar::mail_action))]
fn mail_action(command: &[u8], commit: u32) -> Option<Action>
    ensures { result ≡ mail_action command.now commit }
{
    if command == b"deliver".as_slice() {
        Some(Action::Deliver(commit))
    } else if command == b"unanswered".as_slice() {
        Some(Action::Unanswered(commit))
    } else {
        None
    }
}

/// `send NAME P`, and with topics `send NAME TOPIC P`.
#[tactic(auto, unfolding(crate::specs::Grammar::send_action, crate::specs::Grammar::name_of))]
fn send_action(topics: &[Topic], text: &[u8]) -> Option<Action>
    requires { MayBeTopics topics.now }
    ensures { result ≡ send_action topics.now text.now }
{
    let (name, rest) = words::split_word(text)?;
    let name = Name::new(name)?;
    let (topic, number) = topics::parse_topic(topics, rest)?;
    let partition = topics::partition_at(topics, topic, words::number_of(number)?);
    Some(Action::Send { name, partition })
}

/// `poll NAME P N`, and with topics `poll NAME TOPIC P N`.
#[tactic(auto, unfolding(crate::specs::Grammar::poll_action, crate::specs::Grammar::name_of))]
fn poll_action(topics: &[Topic], text: &[u8]) -> Option<Action>
    requires { MayBeTopics topics.now }
    ensures { result ≡ poll_action topics.now text.now }
{
    let (name, rest) = words::split_word(text)?;
    let name = Name::new(name)?;
    let (topic, rest) = topics::parse_topic(topics, rest)?;
    let (number, most) = words::split_word(rest)?;
    let partition = topics::partition_at(topics, topic, words::number_of(number)?);
    let most = words::number_of(most)?;
    Some(Action::Poll {
        name,
        partition,
        most,
    })
}
