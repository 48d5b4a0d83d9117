//! What is read of a file.

ghost use Rattle.std.specs.Prelude.{◌≡◌, ◌≤◌, IfOk, map};
ghost use Rattle.csv_ingest.specs.Private.Wanted.{taking};
ghost use Rattle.partition_log.specs.Logs.{AreCounts};
ghost use Rattle.ingest.specs.Private.Counted.{TakesColumns, TakesTopics};
ghost use Rattle.ingest.specs.Records.{names_topics, partition_counts};
ghost use Rattle.ingest.specs.Reports.{AreInRange};

use command_line::Options;
use csv_ingest::Wanted;
use lane_words::Memory;
use partitioner::Topic;
use std::alloc::Global;

/// The number of partitions of each of these topics.
fn counts_among(alloc: Global, topics: &[Topic]) -> Result<Vec<u32>, Memory>
    ensures { IfOk result (λ counts. counts.items ≡ map (λ topic. topic.partitions) topics.now) }
{
    let mut counts = Vec::with_capacity(alloc, topics.len())?;
    for topic in topics {
        counts.push(topic.partitions)?;
    }
    Ok(counts)
}

/// The number of partitions of each topic. Options without topics stand for one topic.
pub fn partition_counts(alloc: Global, options: &Options) -> Result<Vec<u32>, Memory>
    requires { AreInRange options.now }
    ensures value { IfOk result (λ counts. counts.items ≡ partition_counts options.now) }
    ensures valid { AreCounts (partition_counts options.now) }
{
    let topics = options.topics.as_slice();
    if topics.is_empty() {
        Ok(Vec::from_slice(alloc, &[options.partitions])?)
    } else {
        counts_among(alloc, topics)
    }
}

/// The names of these topics.
pub fn names_of<'a>(alloc: Global, topics: &'a [Topic]) -> Result<Vec<&'a [u8]>, Memory>
    ensures { IfOk result (λ names. map (λ name. name.now) names.items
        ≡ map (λ topic. topic.name) topics.now) }
{
    let mut names = Vec::with_capacity(alloc, topics.len())?;
    for topic in topics {
        names.push(topic.name.text())?;
    }
    Ok(names)
}

/// What is taken of each record of a file: the key in this column, and with topics, whose names
/// these are, the topic in that one.
pub fn wanted_among<'a>(
    options: &Options,
    column: u32,
    topic_column: u32,
    names: &'a [&'a [u8]],
) -> Wanted<'a>
    requires options { AreInRange options.now }
    requires columns { (1 ≤ column) × (1 ≤ topic_column) }
    requires names { map (λ name. name.now) names.now
        ≡ map (λ topic. topic.name) options.now.topics.items }
    ensures records { TakesColumns options.now column topic_column (taking result) }
    ensures topics { TakesTopics (taking result) (partition_counts options.now)
        (names_topics options.now) }
{
    let topics = options.topics.as_slice();
    if topics.is_empty() {
        Wanted::key(column)
    } else {
        Wanted::topic_and_key(column, topic_column, names)
    }
}
