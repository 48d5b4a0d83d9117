//! A trace, from two sources to a sink.

ghost use Rattle.std.specs.Prelude.{◌≡◌, ◌≤◌, ◌+◌, IfErr};
ghost use Rattle.byte_io.specs.Devices.{CanStillFail};
ghost use Rattle.ingest.specs.Counted.{AreReadFor};
ghost use Rattle.ingest.specs.Records.{records_in, records_of};
ghost use Rattle.ingest.specs.Reports.{AreInRange, CountsFailures, IsFaultOf, IsNoDeviceFault, IsNoWrite, MakesIfKnown, ReadsFileFirst, WritesAtEndAlone, WritesIfKnown, failed_writes, text_seen};
ghost use Rattle.lane_words.specs.Answers.{Answers};
ghost use Rattle.lane_words.specs.declared.limits.TheConstants.{MOST_PARTITIONS};
ghost use Rattle.partitioner.specs.Topic.{partitions_in};
ghost use Rattle.trace_report.specs.TraceReport.{report_of_trace, trace_of_lines, trace_of_records};

use crate::rows as trace_rows;
use byte_io::{Sink, Source, write_all};
use command_line::Options;
use ingest::{FileRecords, file_records};
use lane_words::Refusal;
use partitioner::Topic;
use replay_report::{script_lines, world_of};
use replay_steps::perform_lines;
use report_rows::rows;
use script::Line;
use std::alloc::Global;
use std::random::RandomSource;
use std::thread::Threads;
use world::World;

/// The text of a trace of these lines in a world.
#[tactic(auto, unfolding(crate::specs::TraceReport::trace_of_lines))]
fn text_of_lines(
    alloc: Global,
    topics: &[Topic],
    world: &mut World,
    lines: &[Line],
    batch: u32,
) -> Result<Vec<u8>, Refusal>
    requires batch { 1 ≤ batch }
    requires topics { partitions_in topics.now ≤ MOST_PARTITIONS }
    ensures answer { Answers (trace_of_lines topics.now batch world.old lines.now)
        (text_seen result) }
    ensures kind { IfErr result IsNoDeviceFault }
{
    let begun = trace_rows::begun(alloc, topics)?;
    let written = perform_lines(world, lines, batch, begun)?;
    Ok(rows::text_of(written.writer)?)
}

/// The text of a trace of these lines over these records.
#[tactic(auto, unfolding(crate::specs::TraceReport::trace_of_records))]
fn text_of_records<R: Threads + Sync + RandomSource>(
    rt: &R,
    alloc: Global,
    records: FileRecords,
    lines: &[Line],
    options: &Options,
) -> Result<Vec<u8>, Refusal>
    requires options { AreInRange options.now }
    requires topics { AreReadFor options.now records }
    ensures answer { Answers (trace_of_records options.now (records_in records) lines.now)
        (text_seen result) }
    ensures kind { IfErr result IsNoDeviceFault }
{
    let mut world = world_of(rt, alloc, records, options)?;
    let topics = options.topics.as_slice();
    text_of_lines(alloc, topics, &mut world, lines, options.batch)
}

/// The text of a trace of a script over a file.
fn text_of_devices<R: Threads + Sync + RandomSource, S: Source, T: Source>(
    rt: &R,
    alloc: Global,
    file: &mut S,
    script: &mut T,
    options: &Options,
) -> Result<Vec<u8>, Refusal>
    requires file { CanStillFail (S.failures file.old) }
    requires script { CanStillFail (T.failures script.old) }
    requires options { AreInRange options.now }
    ensures report { MakesIfKnown IsFaultOf (report_of_trace options.now)
        (S.left file.old) (T.left script.old) result }
    ensures kind { IfErr result IsNoWrite }
    ensures reads { CountsFailures (S.failures file.old) (S.failures file.new)
        (T.failures script.old) (T.failures script.new) result }
    ensures order { ReadsFileFirst (records_of options.now) (S.left file.old)
        (S.failures file.old) (S.failures file.new) script.old script.new result }
{
    let records = file_records(rt, alloc, file, options)?;
    let lines = script_lines(alloc, options.topics.as_slice(), script)?;
    text_of_records(rt, alloc, records, lines.as_slice(), options)
}

/// Traces a script over the keys of a CSV file: writes a header, and a row for each event of each
/// line, with the group afterwards. A line that settles or drains has a row for each event that it
/// chooses, and then one of its own. With topics, the script and the rows name a partition by its
/// topic and its number there.
///
/// Files are read, and the text is written, as by `replay_text`. So are the errors, in this order:
/// - `ReadFailed`: a read failed.
/// - The first bad record: `BadCsv` if it has another number of fields than the first record,
///   `NoSuchColumn` if it lacks a column, `NoSuchTopic` if its topic is none of those given. The
///   script is then not read.
/// - `BadLine`: the first line that is not a valid script line.
/// - The first record that can't be appended: `KeyTooLong`, `LogFull`.
/// - `GenerationsOver`: a line would pass the last generation.
/// - `WriteFailed`: a write failed.
/// - `Memory`, at any point: an allocation failed, or the system had no random bytes.
pub fn trace_text<R: Threads + Sync + RandomSource, S: Source, T: Source, K: Sink>(
    rt: &R,
    alloc: Global,
    file: &mut S,
    script: &mut T,
    options: &Options,
    out: &mut K,
) -> Result<(), Refusal>
    requires file { CanStillFail (S.failures file.old) }
    requires script { CanStillFail (T.failures script.old) }
    requires sink { CanStillFail (K.failures out.old) }
    requires options { AreInRange options.now }
    ensures report { WritesIfKnown (report_of_trace options.now)
        (S.left file.old) (T.left script.old) (K.written out.old) (K.written out.new) result }
    ensures end { WritesAtEndAlone (K.written out.old) (K.written out.new) result }
    ensures reads { CountsFailures (S.failures file.old) (S.failures file.new)
        (T.failures script.old) (T.failures script.new) result }
    ensures order { ReadsFileFirst (records_of options.now) (S.left file.old)
        (S.failures file.old) (S.failures file.new) script.old script.new result }
    ensures writes { K.failures out.new ≡ K.failures out.old + failed_writes result }
{
    let text = text_of_devices(rt, alloc, file, script, options)?;
    write_all(out, text.as_slice())
}
