//! `keycount`: counts the keys of a CSV file, tells where they go, checks it, replays, traces or
//! draws a script over it, runs a plan over it with a thread for each member, or explains a
//! refusal. What it writes, and where, and its exit status are a promise of `run_program` of
//! `report_cli`, to which it lends the system.
//!
//! Tests: the example in `data`, `stdin` and `stdout`, `report_tests`, and the black-box tests.
#![tactic(auto)]

use progress::ProgressLine;
use report_cli::{DeviceFailed, FromRead, FromWrite, NoWords, System, run_program};
use std::fs::File;
use std::io::{ErrorKind, IsTerminal, Stderr, Stdin};
use std::process::ExitCode;
use std::random::RandomSource;
use std::sync::Wait;
use std::thread::Threads;
use std::{env, io};

/// The system, as the C library gives it.
#[derive(Drop)]
struct Host<'a> {
    rt: &'a HostRuntime,
}

impl<'a> System for Host<'a> {
    ghost use Rattle.std.specs.Prelude.{None};

    ghost files = { λ s. record { bytes_at = λ path. None; HasFailed = Unit {0} } };

    type File = FromRead<File>;

    type Stdin = FromRead<Stdin>;

    type Watcher = Option<ProgressLine<&'a HostRuntime, Stderr>>;

    fn open(&self, path: &str) -> Result<FromRead<File>, DeviceFailed> {
        let Ok(file) = File::open(self.rt, path) else {
            return Err(DeviceFailed);
        };
        let expected = match file.metadata() {
            Ok(metadata) => metadata.len() as usize,
            Err(_) => 0,
        };
        Ok(FromRead::expecting(file, expected))
    }

    fn stdin(&self) -> FromRead<Stdin> {
        FromRead::new(self.rt.stdin())
    }

    fn watcher(&self, expected: usize) -> Option<ProgressLine<&'a HostRuntime, Stderr>> {
        let rt = self.rt;
        let terminal = rt.stderr();
        if terminal.is_terminal() {
            Some(ProgressLine::new(rt, terminal, rt.alloc(), expected as u64))
        } else {
            None
        }
    }

    ghost failed_file_is_failure = { λ s file failed. tt };

    ghost failed_stdin_is_failure = { λ s stdin failed. tt };
}

/// Why a word could not be read.
fn no_words(error: io::Error) -> NoWords {
    match error.kind() {
        ErrorKind::OutOfMemory => NoWords::Memory,
        _ => NoWords::NotText,
    }
}

/// The words behind the program's name.
fn owned_words(rt: &HostRuntime) -> Result<Vec<String>, NoWords> {
    let args = match env::args(rt) {
        Ok(args) => args,
        Err(error) => return Err(no_words(error)),
    };
    let Ok(words): Result<Vec<String>, _> = args.skip(1).collect(rt.alloc()) else {
        return Err(NoWords::Memory);
    };
    Ok(words)
}

/// The words as string slices.
fn as_slices<'a>(rt: &HostRuntime, owned: &'a [String]) -> Result<Vec<&'a str>, NoWords> {
    let mut words = Vec::new(rt.alloc());
    for word in owned {
        if words.push(word.as_str()).is_err() {
            return Err(NoWords::Memory);
        }
    }
    Ok(words)
}

/// Runs the program. The threads are the runtime's, which only `main` can lend.
fn run<R: Threads + Wait + RandomSource + Sync>(
    rt: &HostRuntime,
    threads: &R,
    words: Result<&[&str], NoWords>,
) -> ExitCode {
    let host = Host { rt };
    let mut out = FromWrite::new(rt.stdout());
    let mut err = FromWrite::new(rt.stderr());
    ExitCode::from(run_program(threads, rt.alloc(), &host, words, &mut out, &mut err))
}

fn main(rt: HostRuntime) -> ExitCode {
    let owned = match owned_words(&rt) {
        Ok(owned) => owned,
        Err(why) => return run(&rt, &rt, Err(why)),
    };
    match as_slices(&rt, owned.as_slice()) {
        Ok(words) => run(&rt, &rt, Ok(words.as_slice())),
        Err(why) => run(&rt, &rt, Err(why)),
    }
}
