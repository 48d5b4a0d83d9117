//! The jobs, from the paths of their files.

ghost use Rattle.std.specs.Prelude.{Some, None, option_map};
ghost use Rattle.lane_words.specs.Refusal.{code_of};
ghost use Rattle.byte_io.specs.Devices.{CanStillFail};
ghost use Rattle.command_line.specs.Options.{AreInRange, IsCheckInRange, IsPlaceInRange};
ghost use Rattle.command_line.specs.declared.words.Job.TheVariants as job;
ghost use Rattle.report_cli.specs.Program.{HasAnswer, change};

use crate::explain::explain_text;
use crate::opened::{open_file, open_input};
use crate::system::System;
use byte_io::Sink;
use check_report::{check_both_text, check_text};
use command_line::{CheckOptions, Options, PlaceOptions};
use count_report::count_text;
use draw_report::draw_text;
use lane_words::Refusal;
use place_report::place_text;
use replay_report::replay_text;
use run_report::run_text;
use std::alloc::Global;
use std::random::RandomSource;
use std::sync::Wait;
use std::thread::Threads;
use trace_report::trace_text;
use workers::{Gate, GateAnswer};

/// A gate that lets every worker commit at once.
struct OpenGate;

impl Gate for OpenGate {
    fn ask(&self, _member: u32, _generation: u32) -> GateAnswer {
        GateAnswer::Go
    }
}

/// Counts the keys of a file.
pub fn count<R: Threads + Sync + RandomSource, Y: System, K: Sink>(
    rt: &R,
    alloc: Global,
    system: &Y,
    file: &str,
    options: &Options,
    out: &mut K,
) -> Result<bool, Refusal>
    requires sink { CanStillFail (K.failures out.old) }
    requires options { AreInRange options.now }
    ensures { HasAnswer (Y.files system.now) (job.Count file.entry options.now)
        (change K.written K.failures out.old out.new) result }
{
    let mut file = open_file(system, file)?;
    count_text(rt, alloc, &mut file, options, out)?;
    Ok(false)
}

/// Tells where the records of a file go. It finds something if a record is misplaced.
pub fn place<R: Threads + Sync + RandomSource, Y: System, K: Sink>(
    rt: &R,
    alloc: Global,
    system: &Y,
    file: &str,
    options: &Options,
    with: &PlaceOptions,
    out: &mut K,
) -> Result<bool, Refusal>
    requires sink { CanStillFail (K.failures out.old) }
    requires options { AreInRange options.now }
    requires place { IsPlaceInRange with.now }
    ensures { HasAnswer (Y.files system.now) (job.Place file.entry options.now with.now)
        (change K.written K.failures out.old out.new) result }
{
    let mut file = open_file(system, file)?;
    place_text(rt, alloc, &mut file, options, with, out)
}

/// Checks a file. It finds something if there is a fault in it.
pub fn check<Y: System, K: Sink>(
    alloc: Global,
    system: &Y,
    file: &str,
    options: &Options,
    with: &CheckOptions,
    out: &mut K,
) -> Result<bool, Refusal>
    requires sink { CanStillFail (K.failures out.old) }
    requires options { AreInRange options.now }
    requires check { IsCheckInRange with.now }
    ensures { HasAnswer (Y.files system.now) (job.Check file.entry None options.now with.now)
        (change K.written K.failures out.old out.new) result }
{
    let mut file = open_file(system, file)?;
    check_text(alloc, &mut file, options, with, out)
}

/// Checks a file and a script. It finds something if there is a fault in either.
pub fn check_both<Y: System, K: Sink>(
    alloc: Global,
    system: &Y,
    file: &str,
    script: &str,
    options: &Options,
    with: &CheckOptions,
    out: &mut K,
) -> Result<bool, Refusal>
    requires sink { CanStillFail (K.failures out.old) }
    requires options { AreInRange options.now }
    requires check { IsCheckInRange with.now }
    ensures { HasAnswer (Y.files system.now)
        (job.Check file.entry (Some script.entry) options.now with.now)
        (change K.written K.failures out.old out.new) result }
{
    let mut file = open_file(system, file)?;
    let mut script = open_input(system, script)?;
    check_both_text(alloc, &mut file, &mut script, options, with, out)
}

/// Replays a script over the keys of a file. Both are opened before either is read.
pub fn replay<R: Threads + Sync + RandomSource, Y: System, K: Sink>(
    rt: &R,
    alloc: Global,
    system: &Y,
    file: &str,
    script: &str,
    options: &Options,
    out: &mut K,
) -> Result<bool, Refusal>
    requires sink { CanStillFail (K.failures out.old) }
    requires options { AreInRange options.now }
    ensures { HasAnswer (Y.files system.now) (job.Replay file.entry script.entry options.now)
        (change K.written K.failures out.old out.new) result }
{
    let mut file = open_file(system, file)?;
    let mut script = open_input(system, script)?;
    replay_text(rt, alloc, &mut file, &mut script, options, out)?;
    Ok(false)
}

/// Traces a script over the keys of a file. Both are opened before either is read.
pub fn trace<R: Threads + Sync + RandomSource, Y: System, K: Sink>(
    rt: &R,
    alloc: Global,
    system: &Y,
    file: &str,
    script: &str,
    options: &Options,
    out: &mut K,
) -> Result<bool, Refusal>
    requires sink { CanStillFail (K.failures out.old) }
    requires options { AreInRange options.now }
    ensures { HasAnswer (Y.files system.now) (job.Trace file.entry script.entry options.now)
        (change K.written K.failures out.old out.new) result }
{
    let mut file = open_file(system, file)?;
    let mut script = open_input(system, script)?;
    trace_text(rt, alloc, &mut file, &mut script, options, out)?;
    Ok(false)
}

/// Draws what a script does over the keys of a file. Both are opened before either is read.
pub fn draw<R: Threads + Sync + RandomSource, Y: System, K: Sink>(
    rt: &R,
    alloc: Global,
    system: &Y,
    file: &str,
    script: &str,
    options: &Options,
    out: &mut K,
) -> Result<bool, Refusal>
    requires sink { CanStillFail (K.failures out.old) }
    requires options { AreInRange options.now }
    ensures { HasAnswer (Y.files system.now) (job.Draw file.entry script.entry options.now)
        (change K.written K.failures out.old out.new) result }
{
    let mut file = open_file(system, file)?;
    let mut script = open_input(system, script)?;
    draw_text(rt, alloc, &mut file, &mut script, options, out)?;
    Ok(false)
}

/// Runs a plan over the keys of a file. Both are opened before either is read.
pub fn run<R: Threads + Wait + RandomSource + Sync, Y: System, K: Sink>(
    rt: &R,
    alloc: Global,
    system: &Y,
    file: &str,
    script: &str,
    options: &Options,
    out: &mut K,
) -> Result<bool, Refusal>
    requires sink { CanStillFail (K.failures out.old) }
    requires options { AreInRange options.now }
    ensures { HasAnswer (Y.files system.now) (job.Run file.entry script.entry options.now)
        (change K.written K.failures out.old out.new) result }
{
    let mut file = open_file(system, file)?;
    let mut script = open_input(system, script)?;
    run_text(rt, alloc, &mut file, &mut script, options, &OpenGate, out)?;
    Ok(false)
}

/// Explains the refusal of a number, or lists all.
pub fn explain<Y: System, K: Sink>(
    alloc: Global,
    system: &Y,
    refusal: Option<Refusal>,
    out: &mut K,
) -> Result<bool, Refusal>
    requires sink { CanStillFail (K.failures out.old) }
    ensures { HasAnswer (Y.files system.now) (job.Explain (option_map code_of refusal))
        (change K.written K.failures out.old out.new) result }
{
    explain_text(alloc, refusal, out)?;
    Ok(false)
}
