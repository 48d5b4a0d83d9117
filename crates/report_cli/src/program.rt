//! The program, from the words of its command line to its exit status.

ghost use Rattle.std.specs.Prelude.{◌≡◌, IfNone, IfOk, IfSome};
ghost use Rattle.byte_io.specs.Devices.{CanStillFail};
ghost use Rattle.command_line.specs.declared.words.Job.TheVariants as job;
ghost use Rattle.report_cli.specs.Input.{HasNoCode};
ghost use Rattle.report_cli.specs.Private.Jobs.{IsDone, IsJobInRange};
ghost use Rattle.report_cli.specs.Program.{Does, DoesIfUsable, Ends, Obeys, Prints, Refuses, RunsProgram, change, lent_texts, texts_of};

use crate::faults::{fault_line, status};
use crate::input::{asks_for_two_tables, reads_input_twice};
use crate::jobs;
use crate::system::System;
use byte_io::{Sink, write_all};
use command_line::{Job, Usage, read_words, refusal_with_code};
use lane_words::Refusal;
use std::alloc::Global;
use std::random::RandomSource;
use std::sync::Wait;
use std::thread::Threads;

/// The exit status of a program that is called in a wrong way.
const USAGE_STATUS: u8 = 2;

/// The error if FILE and SCRIPT are both `-`.
const TWO_STANDARD_INPUTS: &str = "error: only one of FILE and SCRIPT can be standard input\n";

/// The error if a place has both options.
const TWO_TABLES: &str = "error: --keys and --given cannot be used together\n";

/// The error if no refusal has the number CODE.
const NO_SUCH_CODE: &str =
    "error: no refusal or fault has this number; keycount explain lists all of them\n";

/// The error if there are no words that are text.
const NOT_TEXT: &str = "error: a word of the command line is not UTF-8 text\n";

/// Why the program has no words.
#[derive(Clone, Copy, Debug)]
pub enum NoWords {
    /// A word is not UTF-8 text.
    NotText,
    /// Out of memory.
    Memory,
}

/// Prints on standard error what is wrong with the words.
fn usage_error<E: Sink>(err: &mut E, text: &str) -> u8
    requires { CanStillFail (E.failures err.old) }
    ensures prints { Prints text.now (change E.written E.failures err.old err.new) }
    ensures status { result ≡ 2 }
{
    // If standard error fails, there is still the status.
    let _ = write_all(err, text.as_bytes());
    USAGE_STATUS
}

/// The exit status of an answer. The line of a fault is printed.
fn end<E: Sink>(answer: &Result<bool, Refusal>, err: &mut E) -> u8
    requires { CanStillFail (E.failures err.old) }
    ensures { Ends answer.now (change E.written E.failures err.old err.new) result }
{
    match answer {
        Ok(true) => 1,
        Ok(false) => 0,
        Err(fault) => {
            // If standard error fails too, there is still the status.
            let _ = fault_line(fault, err);
            status(fault)
        }
    }
}

/// Explains the refusal of a number, if there is one, or without a number lists all.
fn explain<Y: System, K: Sink>(
    alloc: Global,
    system: &Y,
    code: Option<u32>,
    out: &mut K,
) -> Option<Result<bool, Refusal>>
    requires { CanStillFail (K.failures out.old) }
    ensures done { IfSome result (IsDone (Y.files system.now) (job.Explain code)
        (change K.written K.failures out.old out.new)) }
    ensures none { IfNone result (HasNoCode (job.Explain code) × (out.new ≡ out.old)) }
{
    let Some(code) = code else {
        return Some(jobs::explain(alloc, system, None, out));
    };
    let refusal = refusal_with_code(code)?;
    Some(jobs::explain(alloc, system, Some(refusal), out))
}

/// Does a job, except one that is to explain the refusal of a number that none has.
fn do_job<R: Threads + Wait + RandomSource + Sync, Y: System, K: Sink>(
    rt: &R,
    alloc: Global,
    system: &Y,
    job: &Job<'_>,
    out: &mut K,
) -> Option<Result<bool, Refusal>>
    requires sink { CanStillFail (K.failures out.old) }
    requires job { IsJobInRange job.now }
    ensures done { IfSome result (IsDone (Y.files system.now) job.now
        (change K.written K.failures out.old out.new)) }
    ensures none { IfNone result (HasNoCode job.now × (out.new ≡ out.old)) }
{
    match job {
        Job::Count { file, options } => Some(jobs::count(rt, alloc, system, file, options, out)),
        Job::Place {
            file,
            options,
            place,
        } => Some(jobs::place(rt, alloc, system, file, options, place, out)),
        Job::Check {
            file,
            script: None,
            options,
            check,
        } => Some(jobs::check(alloc, system, file, options, check, out)),
        Job::Check {
            file,
            script: Some(script),
            options,
            check,
        } => Some(jobs::check_both(alloc, system, file, script, options, check, out)),
        Job::Replay {
            file,
            script,
            options,
        } => Some(jobs::replay(rt, alloc, system, file, script, options, out)),
        Job::Trace {
            file,
            script,
            options,
        } => Some(jobs::trace(rt, alloc, system, file, script, options, out)),
        Job::Draw {
            file,
            script,
            options,
        } => Some(jobs::draw(rt, alloc, system, file, script, options, out)),
        Job::Run {
            file,
            script,
            options,
        } => Some(jobs::run(rt, alloc, system, file, script, options, out)),
        Job::Explain { code } => explain(alloc, system, *code, out),
    }
}

/// Does a job, or prints why it can't be done.
fn run_job<R: Threads + Wait + RandomSource + Sync, Y: System, K: Sink, E: Sink>(
    rt: &R,
    alloc: Global,
    system: &Y,
    job: &Job<'_>,
    out: &mut K,
    err: &mut E,
) -> u8
    requires out { CanStillFail (K.failures out.old) }
    requires err { CanStillFail (E.failures err.old) }
    requires job { IsJobInRange job.now }
    ensures { DoesIfUsable (Y.files system.now) job.now
        (change K.written K.failures out.old out.new)
        (change E.written E.failures err.old err.new) result }
{
    if reads_input_twice(job) {
        return usage_error(err, TWO_STANDARD_INPUTS);
    }
    if asks_for_two_tables(job) {
        return usage_error(err, TWO_TABLES);
    }
    match do_job(rt, alloc, system, job, out) {
        Some(answer) => end(&answer, err),
        None => usage_error(err, NO_SUCH_CODE),
    }
}

/// Prints why there is no job.
fn refuse<K: Sink, E: Sink>(usage: &Usage, out: &mut K, err: &mut E) -> u8
    requires out { CanStillFail (K.failures out.old) }
    requires err { CanStillFail (E.failures err.old) }
    ensures { Refuses usage.now (change K.written K.failures out.old out.new)
        (change E.written E.failures err.old err.new) result }
{
    match usage {
        Usage::Help(text) => {
            let _ = write_all(out, text.as_bytes());
            0
        }
        Usage::Bad(text) => usage_error(err, text.as_str()),
        Usage::Memory => end(&Err(Refusal::Memory), err),
    }
}

/// Does the job that was read, or prints why there is none.
fn run_read<R: Threads + Wait + RandomSource + Sync, Y: System, K: Sink, E: Sink>(
    rt: &R,
    alloc: Global,
    system: &Y,
    read: &Result<Job<'_>, Usage>,
    out: &mut K,
    err: &mut E,
) -> u8
    requires out { CanStillFail (K.failures out.old) }
    requires err { CanStillFail (E.failures err.old) }
    requires job { IfOk read.now IsJobInRange }
    ensures { Does (Y.files system.now) read.now
        (change K.written K.failures out.old out.new)
        (change E.written E.failures err.old err.new) result }
{
    match read {
        Ok(job) => run_job(rt, alloc, system, job, out, err),
        Err(usage) => refuse(usage, out, err),
    }
}

/// Does what the words ask for.
fn run_words<R: Threads + Wait + RandomSource + Sync, Y: System, K: Sink, E: Sink>(
    rt: &R,
    alloc: Global,
    system: &Y,
    words: &[&str],
    out: &mut K,
    err: &mut E,
) -> u8
    requires out { CanStillFail (K.failures out.old) }
    requires err { CanStillFail (E.failures err.old) }
    ensures { Obeys (Y.files system.now) (lent_texts words.now)
        (change K.written K.failures out.old out.new)
        (change E.written E.failures err.old err.new) result }
{
    let read = read_words(alloc, words);
    run_read(rt, alloc, system, &read, out, err)
}

/// The program: does what the words of its command line ask for, and returns its exit status.
///
/// Only the files that the words name are read: FILE, and SCRIPT if there is one, each of which may
/// be `-` for standard input. What a job writes goes to `out`, and the line of a fault or a usage
/// error to `err`. The status is 0, or 1 if a place found a misplaced record, a check a fault, or
/// a job a fault in its input; 2 after a usage error; and 3 after any other fault.
pub fn run_program<R: Threads + Wait + RandomSource + Sync, Y: System, K: Sink, E: Sink>(
    rt: &R,
    alloc: Global,
    system: &Y,
    words: Result<&[&str], NoWords>,
    out: &mut K,
    err: &mut E,
) -> u8
    requires out { CanStillFail (K.failures out.old) }
    requires err { CanStillFail (E.failures err.old) }
    ensures { RunsProgram (Y.files system.now) (texts_of words.entry)
        (change K.written K.failures out.old out.new)
        (change E.written E.failures err.old err.new) result }
{
    match words {
        Ok(words) => run_words(rt, alloc, system, words, out, err),
        Err(NoWords::NotText) => usage_error(err, NOT_TEXT),
        Err(NoWords::Memory) => end(&Err(Refusal::Memory), err),
    }
}
