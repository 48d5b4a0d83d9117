//! What is taken of each record of a file.

ghost use Rattle.std.specs.Prelude.{◌≡◌, ◌≤◌, ◌<◌, ◌^◌, Ok, Err, Some, None, IfOk, IfErr, IfSome, ◌+◌, length, map};
ghost use Rattle.std.specs.List.{position_from};
ghost use Rattle.std.specs.Str.{bytes_eq};
ghost use Rattle.csv.specs.Records.{fields_of};
ghost use Rattle.csv_ingest.specs.KeyFile.{key_in, lack_at};
ghost use Rattle.csv_ingest.specs.Private.Wanted.{taking};
ghost use Rattle.csv_ingest.specs.Sinks.{item};

use crate::lack::Lack;
use csv::ByteRecord;
use lane_words::Refusal;
use std::marker::Model;

/// Where a record has its topic, and which topics there are.
#[derive(Clone, Copy)]
struct Topics<'a> {
    /// The column of the topic's name, counted from 1.
    column: u32,
    /// The names of all topics, at most 256.
    names: &'a [&'a [u8]],
}

/// What is taken of each record of a file: its key, and of a file of several topics the index of
/// its topic.
#[derive(Drop)]
pub struct Wanted<'a> {
    /// The key's column, counted from 1.
    column: u32,
    /// The topics, if the file has a column of them.
    topics: Option<Topics<'a>>,
}

impl<'a> Model for Wanted<'a> {
    ghost use Rattle.std.specs.Prelude.{◌≤◌, ℕ, List, Option};
    ghost use Rattle.csv_ingest.specs.Private.Wanted.{AreValidTopics, topics_view};

    ghost Value = { ℕ × Option (ℕ × List (List ℕ)) };

    ghost view = { λ s. (s.column, topics_view s.topics) };

    ghost invariant = { λ s. (1 ≤ s.column) × AreValidTopics s.topics };
}

/// What is taken of one record.
#[derive(Clone, Copy)]
pub struct Taken<'r> {
    /// The index of its topic, in a file of several topics.
    pub topic: Option<u8>,
    /// Its key.
    pub key: &'r [u8],
}

/// The refusal of record number nth, which lacks this.
pub fn lack_at(nth: u64, lack: Lack) -> Refusal
    ensures { result ≡ lack_at nth lack }
{
    match lack {
        Lack::Column => Refusal::NoSuchColumn { nth },
        Lack::Topic => Refusal::NoSuchTopic { nth },
    }
}

/// The index of a topic among the names of all, if it is one of them.
fn index_of(names: &[&[u8]], topic: &[u8]) -> Option<u8>
    requires { length names.now ≤ 2 ^ 8 }
    ensures { result ≡ position_from (bytes_eq topic.now) 0 (map (λ name. name.now) names.now) }
{
    for i in 0..names.len() {
        if topic == names[i] {
            return Some(i as u8);
        }
    }
    None
}

impl<'a> Wanted<'a> {
    /// The key alone.
    pub fn key(column: u32) -> Wanted<'a>
        requires { 1 ≤ column }
        ensures { result ≡ (column, None) }
    {
        Wanted {
            column,
            topics: None,
        }
    }

    /// The topic and the key.
    pub fn topic_and_key(column: u32, topic_column: u32, names: &'a [&'a [u8]]) -> Wanted<'a>
        requires columns { (1 ≤ column) × (1 ≤ topic_column) }
        requires names { length names.now ≤ 2 ^ 8 }
        ensures { result ≡ (column, Some (topic_column, map (λ name. name.now) names.now)) }
    {
        let topics = Topics {
            column: topic_column,
            names,
        };
        Wanted {
            column,
            topics: Some(topics),
        }
    }

    /// The key's column, counted from 0, where nothing but the key is taken.
    pub fn key_column(&self) -> Option<usize>
        ensures { IfSome result (λ column. taking self.now ≡ key_in (column + 1)) }
    {
        if self.topics.is_some() {
            return None;
        }
        Some(self.column as usize - 1)
    }

    /// What is taken of a record, or what it lacks.
    pub fn of<'r>(&self, row: &'r ByteRecord) -> Result<Taken<'r>, Lack>
        ensures value { IfOk result
            (λ taken. taking self.now (fields_of row.now) ≡ Ok (item taken.topic taken.key.now)) }
        ensures fault { IfErr result (λ lack. taking self.now (fields_of row.now) ≡ Err lack) }
    {
        let Some(key) = row.get(self.column as usize - 1) else {
            return Err(Lack::Column);
        };
        let Some(topics) = self.topics else {
            return Ok(Taken { topic: None, key });
        };
        let Some(topic) = row.get(topics.column as usize - 1) else {
            return Err(Lack::Column);
        };
        let Some(index) = index_of(topics.names, topic) else {
            return Err(Lack::Topic);
        };
        Ok(Taken {
            topic: Some(index),
            key,
        })
    }
}
