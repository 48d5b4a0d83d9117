//! A replay, from two sources to a sink.

ghost use Rattle.std.specs.Prelude.{◌≡◌, ◌<◌, ◌+◌, ◌-◌, Ok, IfOk, IfErr, IfSome};
ghost use Rattle.byte_io.specs.Devices.{CanStillFail};
ghost use Rattle.ingest.specs.Counted.{AreReadFor};
ghost use Rattle.ingest.specs.Records.{records_in, records_of};
ghost use Rattle.ingest.specs.Reports.{AreInRange, MakesIfKnown, CountsFailures, IsFaultOf, IsNoDeviceFault, IsNoWrite, ReadsFileFirst, WritesAtEndAlone, WritesIfKnown, failed_reads, failed_writes, text_seen};
ghost use Rattle.replay_report.specs.ReplayReport.{report_of_lines, report_of_replay};
ghost use Rattle.lane_words.specs.Answers.{Answers};
ghost use Rattle.script.specs.Replay.{lines_seen, read_answer_in};
ghost use Rattle.partitioner.specs.Topic.{MayBeTopics};

mod lines;
mod loading;

use byte_io::{Sink, Source, read_all, write_all};
use command_line::Options;
use ingest::{FileRecords, file_records};
use lane_words::Refusal;
use lines::{Reporting, text_of_lines};
pub use loading::world_of;
use script::{Line, Topic, read_replay, read_replay_topics};
use std::alloc::Global;
use std::random::RandomSource;
use std::thread::Threads;

/// The lines of a script with these topics, or without topics.
///
/// Errors: `BadLine` for the first line that is not valid, and `Memory` if an allocation failed.
pub fn read_lines(alloc: Global, topics: &[Topic], bytes: &[u8]) -> Result<Vec<Line>, Refusal>
    requires { MayBeTopics topics.now }
    ensures { Answers (read_answer_in topics.now bytes.now) (lines_seen result) }
{
    if topics.is_empty() {
        read_replay(alloc, bytes)
    } else {
        read_replay_topics(alloc, bytes, topics)
    }
}

/// Reads a script to its end, and returns its lines.
///
/// Errors: `ReadFailed` if a read failed, `BadLine` for the first line that is not valid, and
/// `Memory` if an allocation failed.
pub fn script_lines<S: Source>(
    alloc: Global,
    topics: &[Topic],
    script: &mut S,
) -> Result<Vec<Line>, Refusal>
    requires source { CanStillFail (S.failures script.old) }
    requires topics { MayBeTopics topics.now }
    ensures lines { IfOk result (λ lines. IfSome (S.left script.old)
        (λ bytes. read_answer_in topics.now bytes ≡ Ok lines.items)) }
    ensures fault { IfErr result (λ e. IfSome (S.left script.old)
        (λ bytes. IsFaultOf (read_answer_in topics.now bytes) e)) }
    ensures kind { IfErr result IsNoWrite }
    ensures reads { S.failures script.new ≡ S.failures script.old + failed_reads result }
{
    let bytes = read_all(alloc, script)?;
    read_lines(alloc, topics, bytes.as_slice())
}

/// The text of a replay of these lines over these records.
#[tactic(auto, unfolding(crate::specs::ReplayReport::report_of_lines))]
fn report_of_lines<R: Threads + Sync + RandomSource>(
    rt: &R,
    alloc: Global,
    records: FileRecords,
    lines: &[Line],
    options: &Options,
) -> Result<Vec<u8>, Refusal>
    requires options { AreInRange options.now }
    requires topics { AreReadFor options.now records }
    ensures answer { Answers (report_of_lines options.now (records_in records) lines.now)
        (text_seen result) }
    ensures kind { IfErr result IsNoDeviceFault }
{
    let mut world = world_of(rt, alloc, records, options)?;
    let reporting = Reporting {
        topics: options.topics.as_slice(),
        top: options.top,
        batch: options.batch,
    };
    text_of_lines(rt, alloc, reporting, &mut world, lines)
}

/// The text of a replay of a script over a file.
fn devices_report<R: Threads + Sync + RandomSource, S: Source, T: Source>(
    rt: &R,
    alloc: Global,
    file: &mut S,
    script: &mut T,
    options: &Options,
) -> Result<Vec<u8>, Refusal>
    requires file { CanStillFail (S.failures file.old) }
    requires script { CanStillFail (T.failures script.old) }
    requires options { AreInRange options.now }
    ensures report { MakesIfKnown IsFaultOf (report_of_replay options.now)
        (S.left file.old) (T.left script.old) result }
    ensures kind { IfErr result IsNoWrite }
    ensures reads { CountsFailures (S.failures file.old) (S.failures file.new)
        (T.failures script.old) (T.failures script.new) result }
    ensures order { ReadsFileFirst (records_of options.now) (S.left file.old)
        (S.failures file.old) (S.failures file.new) script.old script.new result }
{
    let records = file_records(rt, alloc, file, options)?;
    let lines = script_lines(alloc, options.topics.as_slice(), script)?;
    report_of_lines(rt, alloc, records, lines.as_slice(), options)
}

/// Replays a script over the keys of a CSV file, and writes a row for each partition that a line
/// moves and for each line that is refused, and then the closing rows. With topics, the script and
/// the rows name a partition by its topic and its number there. With `top`, only so many keys have
/// count rows: those with the most committed records.
///
/// The whole file is read and parsed before the script is, and the whole text is made before the
/// first write. So after `WriteFailed` a prefix of the text is written, and after any other refusal
/// nothing.
///
/// Errors, in this order:
/// - `ReadFailed`: a read failed.
/// - The first bad record: `BadCsv` if it has another number of fields than the first record,
///   `NoSuchColumn` if it lacks a column, `NoSuchTopic` if its topic is none of those given. The
///   script is then not read.
/// - `BadLine`: the first line that is not a valid script line.
/// - The first record that can't be appended: `KeyTooLong`, `LogFull`.
/// - `GenerationsOver`: a line would pass the last generation.
/// - `WriteFailed`: a write failed.
/// - `Memory`, at any point: an allocation failed, or the system had no random bytes.
pub fn replay_text<R: Threads + Sync + RandomSource, S: Source, T: Source, K: Sink>(
    rt: &R,
    alloc: Global,
    file: &mut S,
    script: &mut T,
    options: &Options,
    out: &mut K,
) -> Result<(), Refusal>
    requires file { CanStillFail (S.failures file.old) }
    requires script { CanStillFail (T.failures script.old) }
    requires sink { CanStillFail (K.failures out.old) }
    requires options { AreInRange options.now }
    ensures report { WritesIfKnown (report_of_replay options.now)
        (S.left file.old) (T.left script.old) (K.written out.old) (K.written out.new) result }
    ensures end { WritesAtEndAlone (K.written out.old) (K.written out.new) result }
    ensures reads { CountsFailures (S.failures file.old) (S.failures file.new)
        (T.failures script.old) (T.failures script.new) result }
    ensures order { ReadsFileFirst (records_of options.now) (S.left file.old)
        (S.failures file.old) (S.failures file.new) script.old script.new result }
    ensures writes { K.failures out.new ≡ K.failures out.old + failed_writes result }
{
    let text = devices_report(rt, alloc, file, script, options)?;
    write_all(out, text.as_slice())
}
