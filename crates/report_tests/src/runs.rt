//! Runs worked by hand, and gates that hold workers back.

ghost use Rattle.std.specs.Prelude.{◌≤◌};
ghost use Rattle.ingest.specs.Reports.{AreInRange};
ghost use Rattle.command_line.specs.declared.options.TheConstants.{MOST_BATCH};

use crate::two_topics::options_of_two;
use crate::{FILE, TOPIC_FILE};
use byte_io::{FromRead, FromWrite};
use command_line::{Column, Options};
use lane_words::{Memory, Refusal};
use run_report::run_text;
use std::alloc::Global;
use std::process::Abort;
use std::random::RandomSource;
use std::sync::Wait;
use std::sync::atomic::{AtomicBool, AtomicU32, Ordering};
use std::thread::Threads;
use workers::GateAnswer::{Go, NotNow, Stop};
use workers::{Gate, GateAnswer};

const TWO: &[u8] = b"join A\njoin B\n";

const TWO_TEXT: &[u8] = b"move,1,0,,A\nmove,1,1,,A\nmove,1,2,,A\nmove,1,3,,A\n\
    move,3,2,A,B\nmove,3,3,A,B\nowner,0,A\nowner,1,A\nowner,2,B\nowner,3,B\n\
    offset,0,2,2\noffset,1,1,1\noffset,2,1,1\noffset,3,1,1\n\
    count,21,2\ncount,4,1\ncount,foobar,1\ncount,abc,1\ntotal,5,5\n";

const LEFT_TEXT: &[u8] = b"move,1,0,,A\nmove,1,1,,A\nmove,1,2,,A\nmove,1,3,,A\n\
    move,3,2,A,B\nmove,3,3,A,B\nmove,4,0,A,B\nmove,4,1,A,B\n\
    owner,0,B\nowner,1,B\nowner,2,B\nowner,3,B\n\
    offset,0,2,2\noffset,1,1,1\noffset,2,1,1\noffset,3,1,1\n\
    count,21,2\ncount,4,1\ncount,foobar,1\ncount,abc,1\ntotal,5,5\n";

/// A gate with one answer.
#[derive(Drop)]
struct Always(GateAnswer);

impl Gate for Always {
    fn ask(&self, _member: u32, _generation: u32) -> GateAnswer {
        self.0
    }
}

/// The answer of a run of a plan over a file with these options and this gate, into this text.
fn ran_into<R: Threads + Wait + RandomSource + Sync, G: Gate + Sync>(
    rt: &R,
    alloc: Global,
    devices: (&[u8], &[u8]),
    options: &Options,
    gate: &G,
    text: &mut Vec<u8>,
) -> Result<(), Refusal>
    requires { AreInRange options.now }
{
    let (mut file, mut plan) = (FromRead::new(devices.0), FromRead::new(devices.1));
    let mut sink = FromWrite::new(text);
    run_text(rt, alloc, &mut file, &mut plan, options, gate, &mut sink)
}

fn options_of_batch(alloc: Global, batch: u32) -> Options
    requires { (1 ≤ batch) × (batch ≤ MOST_BATCH) }
    ensures { AreInRange result }
{
    Options {
        partitions: 4,
        column: Column::Number(1),
        header: false,
        delimiter: b',',
        batch,
        topics: Vec::new(alloc),
        topic_column: Column::Number(2),
        top: None,
    }
}

/// The answer of a run of a plan over the five records, and whether it has written this text.
fn ran<R: Threads + Wait + RandomSource + Sync, G: Gate + Sync>(
    rt: &R,
    alloc: Global,
    plan: &[u8],
    batch: u32,
    gate: &G,
    wanted: &[u8],
) -> (Result<(), Refusal>, bool)
    requires { (1 ≤ batch) × (batch ≤ MOST_BATCH) }
{
    let options = options_of_batch(alloc, batch);
    let mut text = Vec::new(alloc);
    let answer = ran_into(rt, alloc, (FILE, plan), &options, gate, &mut text);
    (answer, text.as_slice() == wanted)
}

const TOPIC_TEXT: &[u8] = b"move,1,a,0,,A\nmove,1,a,1,,A\nmove,1,b,0,,A\nmove,1,b,1,,A\n\
    move,1,b,2,,A\nmove,3,b,1,A,B\nmove,3,b,2,A,B\n\
    owner,a,0,A\nowner,a,1,A\nowner,b,0,A\nowner,b,1,B\nowner,b,2,B\n\
    offset,a,0,1,1\noffset,a,1,1,1\noffset,b,0,2,2\noffset,b,1,1,1\noffset,b,2,0,0\n\
    count,21,2\ncount,abc,1\ncount,4,2\ntotal,5,5\n";

/// The answer of a run of two members over a file with the two topics, and whether it has written
/// this text.
fn ran_in_topics<R: Threads + Wait + RandomSource + Sync + Abort>(
    rt: &R,
    alloc: Global,
    file: &[u8],
    wanted: &[u8],
) -> Result<(Result<(), Refusal>, bool), Memory> {
    let options = options_of_two(rt, alloc)?;
    let mut text = Vec::new(alloc);
    let answer = ran_into(rt, alloc, (file, TWO), &options, &Always(Go), &mut text);
    Ok((answer, text.as_slice() == wanted))
}

#[test]
fn two_members_share_the_partitions(rt: HostRuntime) {
    for batch in [1, 500] {
        let ran = ran(&rt, rt.alloc(), TWO, batch, &Always(Go), TWO_TEXT);
        assert_eq!(rt; ran, (Ok(()), true));
    }
}

#[test]
fn two_members_share_two_topics(rt: HostRuntime) {
    let rows: [(&[u8], &[u8], Result<(), Refusal>); 2] = [
        (TOPIC_FILE, TOPIC_TEXT, Ok(())),
        (b"21,c\n", b"", Err(Refusal::NoSuchTopic { nth: 1 })),
    ];
    for (file, wanted, answer) in rows {
        let ran = ran_in_topics(&rt, rt.alloc(), file, wanted);
        assert_eq!(rt; ran, Ok((answer, true)));
    }
}

#[test]
fn one_of_two_members_leaves(rt: HostRuntime) {
    let plan = b"join A\njoin B\nleave A\n";
    for batch in [1, 500] {
        let ran = ran(&rt, rt.alloc(), plan, batch, &Always(Go), LEFT_TEXT);
        assert_eq!(rt; ran, (Ok(()), true));
    }
}

#[test]
fn a_plan_that_leaves_nobody_is_refused(rt: HostRuntime) {
    let plans: [(&[u8], Refusal); 5] = [
        (b"join A\nlose A\n", Refusal::NobodyLeft { line: 2 }),
        (b"", Refusal::NobodyLeft { line: 0 }),
        (b"# nobody\n\n", Refusal::NobodyLeft { line: 0 }),
        (b"join A\nsettle\n", Refusal::BadLine { line: 2 }),
        (b"join A\njoin A\n", Refusal::BadLine { line: 2 }),
    ];
    for (plan, why) in plans {
        let ran = ran(&rt, rt.alloc(), plan, 500, &Always(Go), b"");
        assert_eq!(rt; ran, (Err(why), true));
    }
}

#[test]
fn a_stopped_run_writes_nothing(rt: HostRuntime) {
    let ran = ran(&rt, rt.alloc(), TWO, 500, &Always(Stop), b"");
    assert_eq!(rt; ran, (Err(Refusal::GateLimit), true));
}

/// What a gate remembers of a worker.
#[derive(Drop)]
struct Worker {
    asked: AtomicU32,
    flag: AtomicBool,
}

impl Worker {
    fn new() -> Worker {
        Worker {
            asked: AtomicU32::new(0),
            flag: AtomicBool::new(false),
        }
    }

    /// The number of questions before this one. The second question raises the flag.
    fn question(&self) -> u32 {
        let question = self.asked.fetch_add(1, Ordering::SeqCst);
        if question == 1 {
            self.flag.store(true, Ordering::SeqCst);
        }
        question
    }

    fn is_flag_up(&self) -> bool {
        self.flag.load(Ordering::SeqCst)
    }

    /// Answers once the flag is up.
    fn wait(&self) -> GateAnswer {
        for _ in 0..1_000_000_000u64 {
            if self.is_flag_up() {
                return Go;
            }
        }
        Stop
    }
}

/// Makes each of two workers wait for the other. Below generation 3 nobody commits. Then a member's
/// second question raises its flag; the second member's first question waits for the flag of the
/// first, and the first member's second question for the flag of the second.
#[derive(Drop)]
struct Handshake {
    first: Worker,
    second: Worker,
}

impl Handshake {
    fn new() -> Handshake {
        Handshake {
            first: Worker::new(),
            second: Worker::new(),
        }
    }

    /// Whether the flags are up.
    fn are_flags_up(&self) -> (bool, bool) {
        (self.first.is_flag_up(), self.second.is_flag_up())
    }
}

impl Gate for Handshake {
    fn ask(&self, member: u32, generation: u32) -> GateAnswer {
        if generation < 3 {
            return NotNow;
        }
        let question = match member {
            1 => self.first.question(),
            2 => self.second.question(),
            _ => return Go,
        };
        match (member, question) {
            (2, 0) => self.first.wait(),
            (1, 1) => self.second.wait(),
            _ => Go,
        }
    }
}

#[test]
fn other_worker_held(rt: HostRuntime) {
    let gate = Handshake::new();
    let ran = ran(&rt, rt.alloc(), TWO, 500, &gate, TWO_TEXT);
    assert_eq!(rt; (ran, gate.are_flags_up()), ((Ok(()), true), (true, true)));
}
