//! A picture of a replay, from two sources to a sink.

ghost use Rattle.std.specs.Prelude.{◌≡◌, ◌≤◌, ◌+◌, Ok, IfOk, IfErr, IfSome};
ghost use Rattle.byte_io.specs.Devices.{CanStillFail};
ghost use Rattle.draw_report.specs.DrawReport.{picture_of_lines, picture_of_records, report_of_draw, timeline_of_lines};
ghost use Rattle.ingest.specs.Counted.{AreReadFor};
ghost use Rattle.ingest.specs.Records.{records_in, records_of};
ghost use Rattle.ingest.specs.Reports.{AreInRange, MakesIfKnown, CountsFailures, IsFaultOf, IsNoDeviceFault, IsNoWrite, ReadsFileFirst, WritesAtEndAlone, WritesIfKnown, failed_reads, failed_writes, text_seen};
ghost use Rattle.lane_words.specs.Answers.{Answers};
ghost use Rattle.partitioner.specs.Topic.{MayBeTopics};
ghost use Rattle.script.specs.Replay.{read_answer_in};

use byte_io::{Sink, Source, read_all, write_all};
use command_line::Options;
use ingest::{FileRecords, file_records};
use lane_words::Refusal;
use replay_report::{read_lines, world_of};
use replay_steps::perform_lines;
use script::{Line, Topic};
use std::alloc::Global;
use std::random::RandomSource;
use std::thread::Threads;
use timeline::Timeline;
use timeline_recorder::Recorder;
use timeline_svg::picture_of;
use world::World;

/// Reads a script to its end, and returns its text and its lines.
fn read_script<S: Source>(
    alloc: Global,
    topics: &[Topic],
    script: &mut S,
) -> Result<(Vec<u8>, Vec<Line>), Refusal>
    requires source { CanStillFail (S.failures script.old) }
    requires topics { MayBeTopics topics.now }
    ensures text { IfOk result (λ read. IfSome (S.left script.old)
        (λ bytes. read.0.items ≡ bytes)) }
    ensures lines { IfOk result (λ read. IfSome (S.left script.old)
        (λ bytes. read_answer_in topics.now bytes ≡ Ok read.1.items)) }
    ensures fault { IfErr result (λ e. IfSome (S.left script.old)
        (λ bytes. IsFaultOf (read_answer_in topics.now bytes) e)) }
    ensures kind { IfErr result IsNoWrite }
    ensures reads { S.failures script.new ≡ S.failures script.old + failed_reads result }
{
    let text = read_all(alloc, script)?;
    match read_lines(alloc, topics, text.as_slice()) {
        Ok(lines) => Ok((text, lines)),
        Err(fault) => Err(fault),
    }
}

/// The timeline of a script's lines in a world.
#[tactic(auto, unfolding(crate::specs::DrawReport::timeline_of_lines))]
fn timeline_of_lines(
    alloc: Global,
    world: &mut World,
    lines: &[Line],
    batch: u32,
) -> Result<Timeline, Refusal>
    requires { 1 ≤ batch }
    ensures answer { Answers (timeline_of_lines batch world.old lines.now) result }
    ensures kind { IfErr result IsNoDeviceFault }
{
    let recorder = Recorder::new(alloc, world.cluster().partitions())?;
    let recorder = perform_lines(world, lines, batch, recorder)?;
    Ok(recorder.finished(alloc, world.cluster())?)
}

/// The picture of a script's lines in a world. `script` is their text.
#[tactic(auto, unfolding(crate::specs::DrawReport::picture_of_lines))]
fn picture_of_lines(
    alloc: Global,
    topics: &[Topic],
    script: &[u8],
    world: &mut World,
    lines: &[Line],
    batch: u32,
) -> Result<Vec<u8>, Refusal>
    requires { 1 ≤ batch }
    ensures answer { Answers
        (picture_of_lines topics.now script.now batch world.old lines.now) (text_seen result) }
    ensures kind { IfErr result IsNoDeviceFault }
{
    let timeline = timeline_of_lines(alloc, world, lines, batch)?;
    Ok(picture_of(alloc, topics, script, &timeline)?)
}

/// The picture of a script over these records.
fn picture_of_records<R: Threads + Sync + RandomSource>(
    rt: &R,
    alloc: Global,
    records: FileRecords,
    script: &[u8],
    lines: &[Line],
    options: &Options,
) -> Result<Vec<u8>, Refusal>
    requires options { AreInRange options.now }
    requires topics { AreReadFor options.now records }
    ensures answer { Answers
        (picture_of_records options.now script.now (records_in records) lines.now)
        (text_seen result) }
    ensures kind { IfErr result IsNoDeviceFault }
{
    let mut world = world_of(rt, alloc, records, options)?;
    let topics = options.topics.as_slice();
    picture_of_lines(alloc, topics, script, &mut world, lines, options.batch)
}

/// The picture of a script over a file.
fn devices_report<R: Threads + Sync + RandomSource, S: Source, T: Source>(
    rt: &R,
    alloc: Global,
    file: &mut S,
    script: &mut T,
    options: &Options,
) -> Result<Vec<u8>, Refusal>
    requires file { CanStillFail (S.failures file.old) }
    requires script { CanStillFail (T.failures script.old) }
    requires options { AreInRange options.now }
    ensures report { MakesIfKnown IsFaultOf (report_of_draw options.now)
        (S.left file.old) (T.left script.old) result }
    ensures kind { IfErr result IsNoWrite }
    ensures reads { CountsFailures (S.failures file.old) (S.failures file.new)
        (T.failures script.old) (T.failures script.new) result }
    ensures order { ReadsFileFirst (records_of options.now) (S.left file.old)
        (S.failures file.old) (S.failures file.new) script.old script.new result }
{
    let records = file_records(rt, alloc, file, options)?;
    let (text, lines) = read_script(alloc, options.topics.as_slice(), script)?;
    picture_of_records(rt, alloc, records, &text, &lines, options)
}

/// Performs a script over the keys of a CSV file, and writes a picture of what it does, as SVG.
/// With topics, the script and the picture name a partition by its topic and its number there.
///
/// The whole file is read and parsed before the script is, and the whole text is made before the
/// first write. So after `WriteFailed` a prefix of the text is written, and after any other refusal
/// nothing.
///
/// Errors, in this order:
/// - `ReadFailed`: a read failed.
/// - The first bad record: `BadCsv` if it has another number of fields than the first record,
///   `NoSuchColumn` if it lacks a column, `NoSuchTopic` if its topic is none of those given. The
///   script is then not read.
/// - `BadLine`: the first line that is not a valid script line.
/// - The first record that can't be appended: `KeyTooLong`, `LogFull`.
/// - `GenerationsOver`: a line would pass the last generation.
/// - `WriteFailed`: a write failed.
/// - `Memory`, at any point: an allocation failed, or the system had no random bytes.
pub fn draw_text<R: Threads + Sync + RandomSource, S: Source, T: Source, K: Sink>(
    rt: &R,
    alloc: Global,
    file: &mut S,
    script: &mut T,
    options: &Options,
    out: &mut K,
) -> Result<(), Refusal>
    requires file { CanStillFail (S.failures file.old) }
    requires script { CanStillFail (T.failures script.old) }
    requires sink { CanStillFail (K.failures out.old) }
    requires options { AreInRange options.now }
    ensures report { WritesIfKnown (report_of_draw options.now)
        (S.left file.old) (T.left script.old) (K.written out.old) (K.written out.new) result }
    ensures end { WritesAtEndAlone (K.written out.old) (K.written out.new) result }
    ensures reads { CountsFailures (S.failures file.old) (S.failures file.new)
        (T.failures script.old) (T.failures script.new) result }
    ensures order { ReadsFileFirst (records_of options.now) (S.left file.old)
        (S.failures file.old) (S.failures file.new) script.old script.new result }
    ensures writes { K.failures out.new ≡ K.failures out.old + failed_writes result }
{
    let text = devices_report(rt, alloc, file, script, options)?;
    write_all(out, text.as_slice())
}
