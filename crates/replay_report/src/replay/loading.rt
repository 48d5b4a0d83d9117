//! The world in which a replay begins.

ghost use Rattle.std.specs.Prelude.{◌≡◌, IfOk};
ghost use Rattle.ingest.specs.RecordFaults.{TakesRecords};
ghost use Rattle.ingest.specs.Counted.{AreReadFor};
ghost use Rattle.ingest.specs.Records.{partition_counts, records_in};
ghost use Rattle.ingest.specs.Reports.{AreInRange};
ghost use Rattle.replay_report.specs.ReplayReport.{loaded, opening_world};
ghost use Rattle.world.specs.Valid.{IsValidWorld};

use command_line::Options;
use ingest::{FileRecords, logs_of};
use lane_words::Refusal;
use std::alloc::Global;
use std::random::RandomSource;
use std::thread::Threads;
use world::World;

/// A new world with the records of a file appended in order. The records are dropped, since the
/// logs have a copy of each key. Fails with the fault of the first record that can't be appended,
/// and with `Memory` if an allocation failed or the system had no random bytes.
pub fn world_of<R: Threads + Sync + RandomSource>(
    rt: &R,
    alloc: Global,
    records: FileRecords,
    options: &Options,
) -> Result<World, Refusal>
    requires options { AreInRange options.now }
    requires topics { AreReadFor options.now records }
    ensures world { IfOk result (λ world. world
        ≡ loaded (opening_world (partition_counts options.now)) (records_in records)) }
    ensures valid { IfOk result IsValidWorld }
    ensures answer { TakesRecords (partition_counts options.now) (records_in records) result }
{
    let logs = logs_of(rt, alloc, &records, options)?;
    records.drop_parallel(rt);
    Ok(World::over(alloc, logs)?)
}
