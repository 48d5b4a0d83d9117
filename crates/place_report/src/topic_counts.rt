//! The records of each key in each topic.

ghost use Rattle.std.specs.Prelude.{◌≡◌, ◌≤◌, IfOk};
ghost use Rattle.partition_log.specs.Logs.{IsValidLogs};
ghost use Rattle.place_report.specs.Private.KeyCounts.{AreCountsBetween, HaveTopicCounts};

use crate::ids::all_ids;
use keyed_table::Table;
use lane_words::Memory;
use partition_log::{LogRead, Logs};
use std::alloc::Global;

/// How often each key number occurs in the logs from `from` on, below `to`.
fn counts_between(alloc: Global, logs: &Logs, from: u32, to: u32) -> Result<Table, Memory>
    requires valid { IsValidLogs logs.now }
    requires range { (from ≤ to) × (to ≤ logs.now.partitions) }
    ensures { IfOk result (λ table. AreCountsBetween logs.now from to table.counts) }
{
    let mut table = Table::zeros(alloc, logs.keys())?;
    for p in from..to {
        table.add_list(all_ids(logs, p));
    }
    Ok(table)
}

/// How often each key number occurs in the logs of each topic, given the topics' numbers of
/// partitions.
pub fn topic_counts(alloc: Global, logs: &Logs, counts: &[u32]) -> Result<Vec<Table>, Memory>
    requires valid { IsValidLogs logs.now }
    requires counts { counts.now ≡ logs.now.counts }
    ensures { IfOk result (λ tables. HaveTopicCounts logs.now tables.items) }
{
    let mut tables = Vec::with_capacity(alloc, counts.len())?;
    let mut from = 0;
    for t in 0..counts.len() {
        let to = from + counts[t];
        tables.push(counts_between(alloc, logs, from, to)?)?;
        from = to;
    }
    Ok(tables)
}
