//! Tests of the reports, of their rows, and of what they read and write, by public calls. They have
//! a crate of their own, since a crate with tests is proved twice.
#![tactic(auto)]

ghost use Rattle.std.specs.Prelude.{◌≡◌, ◌≤◌};
ghost use Rattle.ingest.specs.Reports.{AreInRange};

#[cfg(test)]
mod checks;
#[cfg(test)]
mod cluster_rows;
#[cfg(test)]
mod count_rows;
#[cfg(test)]
mod counts;
#[cfg(test)]
mod device_calls;
#[cfg(test)]
mod explanations;
#[cfg(test)]
mod faults;
#[cfg(test)]
mod pictures;
#[cfg(test)]
mod places;
#[cfg(test)]
mod programs;
#[cfg(test)]
mod replays;
#[cfg(test)]
mod runs;
#[cfg(test)]
mod slow;
#[cfg(test)]
mod streams;
#[cfg(test)]
mod traces;
#[cfg(test)]
mod two_topics;

use command_line::{Column, Options};
use lane_words::MOST_PARTITIONS;
use std::alloc::Global;

/// Five records of four keys.
pub const FILE: &[u8] = b"21\n4\nfoobar\nabc\n21\n";

/// Five records of two topics.
pub const TOPIC_FILE: &[u8] = b"21,a\nabc,b\n21,b\n4,a\n4,b\n";

/// Options without topics, with this many partitions.
pub fn options(alloc: Global, partitions: u32) -> Options
    requires { (1 ≤ partitions) × (partitions ≤ MOST_PARTITIONS) }
    ensures range { AreInRange result }
    ensures partitions { result.partitions ≡ partitions }
{
    Options {
        partitions,
        column: Column::Number(1),
        header: false,
        delimiter: b',',
        batch: 500,
        topics: Vec::new(alloc),
        topic_column: Column::Number(2),
        top: None,
    }
}
