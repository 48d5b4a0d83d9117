//! Jobs that clap accepts, and that cannot be done.

ghost use Rattle.std.specs.Prelude.{◌≡◌, ◌↔◌, IsTrue, codes};
ghost use Rattle.report_cli.specs.Input.{AsksForTwoTables, ReadsInputTwice};

use command_line::Job;

/// Whether a path is `-`, which stands for standard input.
pub fn is_standard_input(path: &str) -> bool
    ensures { IsTrue result ↔ (path.now ≡ codes "-") }
{
    path == "-"
}

/// Whether both files of a job are standard input, which can be read only once.
pub fn reads_input_twice(job: &Job) -> bool
    ensures { IsTrue result ↔ ReadsInputTwice job.now }
{
    match job {
        Job::Count { .. }
        | Job::Place { .. }
        | Job::Check { script: None, .. }
        | Job::Explain { .. } => false,
        Job::Check {
            file,
            script: Some(script),
            ..
        }
        | Job::Replay { file, script, .. }
        | Job::Trace { file, script, .. }
        | Job::Draw { file, script, .. }
        | Job::Run { file, script, .. } => { is_standard_input(file) && is_standard_input(script) }
    }
}

/// Whether a job is a place with both `--keys` and `--given`, which ask for different tables.
pub fn asks_for_two_tables(job: &Job) -> bool
    ensures { IsTrue result ↔ AsksForTwoTables job.now }
{
    match job {
        Job::Place { place, .. } => place.keys && place.given.is_some(),
        _ => false,
    }
}
