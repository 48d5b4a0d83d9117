//! The options of a job, and their bounds.

use partitioner::Topic;

/// A column of a file.
#[derive(Debug, Drop)]
pub enum Column {
    /// Its number, from 1 to `LAST_COLUMN`.
    Number(u32),
    /// Its name in the header: it is the first field of that name.
    Named(Vec<u8>),
}

/// The options of a job. The type does not check the bounds; `read_words` does.
#[derive(Debug, Drop)]
pub struct Options {
    /// The number of partitions, from 1 to 4096; unused with topics.
    pub partitions: u32,
    /// The column of the key. It has a name only if there is a header.
    pub column: Column,
    /// Whether the first record is a header, which is not counted.
    pub header: bool,
    /// The delimiter of the file's fields: ASCII, and no quote, line feed or carriage return.
    pub delimiter: u8,
    /// The maximum number of records per poll, from 1 to `MOST_BATCH`.
    pub batch: u32,
    /// The topics, each with its own partitions; empty without `--topics`.
    pub topics: Vec<Topic>,
    /// The column of the topic, likewise; unused without topics.
    pub topic_column: Column,
    /// The maximum number of keys whose counts are reported, from 1: those with the most records.
    /// `None` for all; unused by `trace` and `draw`.
    pub top: Option<u32>,
}

/// What `place` tells of a file: a row for each partition, if neither of these is given. The type
/// does not check the bounds; `read_words` does.
#[derive(Clone, Copy, Debug)]
pub struct PlaceOptions {
    /// Whether there is a row for each key instead.
    pub keys: bool,
    /// The column that has the partition in which a record lies, from 1 to `LAST_COLUMN`: then
    /// there is a row for each record that does not belong there.
    pub given: Option<u32>,
}

/// The default of `--delimiter`.
pub const DEFAULT_DELIMITER: u8 = b',';

/// What `check` tells of a file and a script. The type does not check the bounds; `read_words`
/// does.
#[derive(Clone, Copy, Debug)]
pub struct CheckOptions {
    /// Whether the script is a plan.
    pub plan: bool,
    /// How many faults of each input are told at most, from 1.
    pub most: u32,
}

/// The default of `--most`.
pub const DEFAULT_MOST: u32 = 20;

/// The default of `--batch`: that of Kafka's `max.poll.records`.
pub const DEFAULT_BATCH: u32 = 500;

/// The largest `--batch`.
pub const MOST_BATCH: u32 = 1_000_000;

/// The largest number of a refusal.
pub const LAST_CODE: u32 = 90;

/// The last column that can be read: the largest number of `--column` and `--topic-column`.
pub const LAST_COLUMN: u32 = 65_535;

/// The largest `--top` and `--most`.
pub const MOST_ROWS: u32 = 4_294_967_295;
