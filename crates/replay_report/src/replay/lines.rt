//! The rows of the lines of a script.

ghost use Rattle.std.specs.Prelude.{◌≡◌, ◌≢◌, ◌≤◌, Ok, Err, IfOk, IfErr, OnOk};
ghost use Rattle.lane_words.specs.Answers.{Answers};
ghost use Rattle.lane_words.specs.declared.Refusal.TheVariants as refusal;
ghost use Rattle.replay_report.specs.Private.Replay.{line_rows};
ghost use Rattle.ingest.specs.Reports.{IsNoDeviceFault, text_seen};
ghost use Rattle.report_rows.specs.Rows.{AddsRows};
ghost use Rattle.replay_report.specs.ReplayReport.{rows_of_answer, text_of_lines};
ghost use Rattle.replay_steps.specs.Lines.{outcome_of_line};
ghost use Rattle.replay_steps.specs.Shown.{IsLineFault};

use csv::Writer;
use lane_words::{Memory, Refusal};
use replay_steps::{Unshown, perform_line};
use report_rows::{replay_rows, rows};
use script::{Line, Topic};
use std::alloc::Global;
use std::thread::Threads;
use world::World;

/// How a replay is performed and reported.
#[derive(Clone, Copy)]
pub struct Reporting<'a> {
    /// The topics, which name partitions; none without topics.
    pub topics: &'a [Topic],
    /// How many keys have count rows, those with the highest counts; `None` for all.
    pub top: Option<u32>,
    /// The maximum number of records per poll.
    pub batch: u32,
}

/// Writes the row of a refusal, if the line was refused.
fn write_answer(
    writer: &mut Writer<Vec<u8>>,
    line: u64,
    answer: Result<(), Refusal>,
) -> Result<(), Memory>
    ensures { OnOk result (AddsRows writer.old writer.new (rows_of_answer line answer)) }
{
    match answer {
        Ok(()) => Ok(()),
        Err(why) => replay_rows::write_refused(writer, line, &why),
    }
}

/// Applies a line and writes its rows: its moves, and its refusal.
fn write_line(
    writer: &mut Writer<Vec<u8>>,
    topics: &[Topic],
    world: &mut World,
    line: &Line,
    batch: u32,
) -> Result<(), Refusal>
    requires { 1 ≤ batch }
    ensures world { OnOk result (world.new
        ≡ (outcome_of_line batch world.old line.now).after) }
    ensures rows { OnOk result
        (AddsRows writer.old writer.new (line_rows topics.now batch world.old line.now)) }
    ensures ok { OnOk result ((outcome_of_line batch world.old line.now).answer
        ≢ Err refusal.GenerationsOver) }
    ensures fault { IfErr result (IsLineFault (outcome_of_line batch world.old line.now).answer) }
{
    let from = world.cluster().moves().len();
    let (_, answer) = perform_line(world, line, batch, Unshown)?;
    replay_rows::write_moves(writer, topics, world.cluster(), from)?;
    write_answer(writer, line.number, answer)?;
    Ok(())
}

/// The text of a script's lines in a world: their rows, and the closing rows. With topics, a
/// partition is named by its topic and its number there.
pub fn text_of_lines<R: Threads + Sync>(
    rt: &R,
    alloc: Global,
    reporting: Reporting<'_>,
    world: &mut World,
    lines: &[Line],
) -> Result<Vec<u8>, Refusal>
    requires { 1 ≤ reporting.batch }
    ensures answer { let how = reporting.entry in Answers
        (text_of_lines how.topics.now how.top how.batch world.old lines.now) (text_seen result) }
    ensures kind { IfErr result IsNoDeviceFault }
{
    let Reporting { topics, top, batch } = reporting;
    let mut writer = rows::new_writer(alloc);
    for line in lines {
        write_line(&mut writer, topics, world, line, batch)?;
    }
    let cluster = world.cluster();
    Ok(replay_rows::closing_text(rt, alloc, writer, topics, top, cluster)?)
}
