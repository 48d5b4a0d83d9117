//! Makes calls that take memory, one at a time, so that each allocation of each call can be made to
//! fail from outside (fault injection). The argument names a story, which is a list of calls.
//!
//! For each call the program prints a line that begins with `>`, makes the call, and prints `<`: an
//! allocation between these two lines is the call's. Then it prints the answer, or, if that is
//! `Memory`, `refused`, and makes the call again. At the end it prints the state. The lines of each
//! story are compared with a model of the rules.
#![tactic(auto)]

mod appends;
mod group;
mod readers;
mod schedule;
mod sets;
mod stage;
mod state;

use anyhow::{Result, bail};
use schedule::Story;
use stage::Stage;
use std::env;
use std::io::Write;
use std::random::RandomSource;
use std::thread::Threads;

/// Plays the story of this name.
fn report<R: RandomSource + Threads + Sync, W: Write>(
    rt: &R,
    stage: &mut Stage<W>,
    story: &str,
) -> Result<()> {
    match story {
        "appends" => appends::report_appends(rt, stage),
        "places" => appends::report_partitions(rt, stage),
        "pieces" => appends::report_chunks(rt, stage),
        "sets" => sets::report(stage),
        "zombies" => group::report(rt, stage, &group::ZOMBIES),
        "group" => group::report(rt, stage, &group::TWO_ROUNDS),
        "readers" => readers::report(rt, stage),
        "steps" => schedule::report(rt, stage, Story::Steps),
        "run" => schedule::report(rt, stage, Story::Run),
        "load" => schedule::report(rt, stage, Story::Load),
        "load_in" => schedule::report(rt, stage, Story::LoadIn),
        "settle" => schedule::report(rt, stage, Story::Settle),
        "drain" => schedule::report(rt, stage, Story::Drain),
        _ => bail!("there is no story {story:?}"),
    }
}

fn main(rt: HostRuntime) -> Result<()> {
    let mut stage = Stage::new(rt.alloc(), rt.stdout());
    let Some(story) = env::args(&rt)?.nth(1) else {
        bail!("a story is to be named");
    };
    let status = report(&rt, &mut stage, story.as_str());
    // A line that could not be printed comes before any other failure of the story.
    stage.end()?;
    status
}
