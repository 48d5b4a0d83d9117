//! The program over files in memory: what it writes to which stream, and its status.

ghost use Rattle.std.specs.Prelude.{◌≡◌, ◌≢◌, Some, codes, if◌then◌else◌};
ghost use Rattle.std.specs.Str.{bytes_eq};

use crate::FILE;
use crate::slow::Page;
use byte_io::{DeviceFailed, FromRead};
use progress::Watcher;
use report_cli::{NoWords, System, run_program};
use std::alloc::Global;
use std::random::RandomSource;
use std::sync::Wait;
use std::thread::Threads;

/// A file at the path `keys`, another at every other path but `missing`, and standard input.
#[derive(Drop)]
struct Memory<'a> {
    keys: &'a [u8],
    other: &'a [u8],
    input: &'a [u8],
}

/// Watches nothing.
#[derive(Drop)]
struct Nobody;

impl Watcher for Nobody {
    fn read(&mut self, _bytes: usize) {}

    fn ended(&mut self) {}
}

impl<'a> System for Memory<'a> {
    ghost use Rattle.std.specs.Prelude.{◌≢◌, Some, codes, if◌then◌else◌};
    ghost use Rattle.std.specs.Str.{bytes_eq};

    ghost files = { λ s. record {
      bytes_at = λ path. if bytes_eq path (codes "-") then Some s.input.now
          else if bytes_eq path (codes "keys") then Some s.keys.now else Some s.other.now;
      HasFailed = Unit {0};
    } };

    type File = FromRead<&'a [u8]>;

    type Stdin = FromRead<&'a [u8]>;

    type Watcher = Nobody;

    fn open(&self, path: &str) -> Result<FromRead<&'a [u8]>, DeviceFailed> {
        match path {
            "keys" => Ok(FromRead::new(self.keys)),
            "missing" => Err(DeviceFailed),
            _ => Ok(FromRead::new(self.other)),
        }
    }

    fn stdin(&self) -> FromRead<&'a [u8]> {
        FromRead::new(self.input)
    }

    fn watcher(&self, _expected: usize) -> Nobody {
        Nobody
    }

    ghost failed_file_is_failure = { λ s file failed. tt };

    ghost failed_stdin_is_failure = { λ s stdin failed. tt };
}

/// What a program did: the texts of its two streams, and its status.
#[derive(Drop)]
struct Outcome {
    out: Page,
    err: Page,
    status: u8,
}

/// What the program does with words, where standard output fails after so many writes.
fn outcome_of<R: Threads + Wait + RandomSource + Sync>(
    rt: &R,
    alloc: Global,
    words: &[&str],
    input: &[u8],
    writes: u64,
) -> Outcome {
    let system = Memory {
        keys: FILE,
        other: SCRIPT,
        input,
    };
    let mut out = Page::new(alloc, writes);
    let mut err = Page::new(alloc, 100);
    let status = run_program(rt, alloc, &system, Ok(words), &mut out, &mut err);
    Outcome { out, err, status }
}

/// The script, and as a file the keys of one record too few.
const SCRIPT: &[u8] = b"join A\n";

const COUNTED: &[u8] = b"count,21,2\ncount,4,1\ncount,foobar,1\ncount,abc,1\ntotal,5,5\n";

const REPLAYED: &[u8] = b"move,1,0,,A\nmove,1,1,,A\nmove,1,2,,A\nmove,1,3,,A\n\
    owner,0,A\nowner,1,A\nowner,2,A\nowner,3,A\n\
    offset,0,0,2\noffset,1,0,1\noffset,2,0,1\noffset,3,0,1\ntotal,0,5\n";

const TWICE: &[u8] = b"error: only one of FILE and SCRIPT can be standard input\n";

const TWO_TABLES: &[u8] = b"error: --keys and --given cannot be used together\n";

const NO_CODE: &[u8] =
    b"error: no refusal or fault has this number; keycount explain lists all of them\n";

/// Words and standard input, with both texts and the status.
type Case = (
    &'static [&'static str],
    &'static [u8],
    &'static [u8],
    &'static [u8],
    u8,
);

const CASES: [Case; 17] = [
    (&["count", "keys"], b"", COUNTED, b"", 0),
    (&["count", "-"], FILE, COUNTED, b"", 0),
    (&["replay", "keys", "script"], b"", REPLAYED, b"", 0),
    (&["replay", "-", "script"], FILE, REPLAYED, b"", 0),
    (&["replay", "keys", "-"], SCRIPT, REPLAYED, b"", 0),
    (
        &["replay", "script", "keys"],
        b"",
        b"",
        b"fault 22 at line 1\n",
        1,
    ),
    (&["count", "missing"], b"", b"", b"fault 25\n", 3),
    (&["replay", "keys", "missing"], b"", b"", b"fault 25\n", 3),
    (&["run", "missing", "script"], b"", b"", b"fault 25\n", 3),
    (
        &["count", "-"],
        b"a,b\nc\n",
        b"",
        b"fault 24 at record 2\n",
        1,
    ),
    (
        &["count", "--column", "2", "keys"],
        b"",
        b"",
        b"fault 23 at record 1\n",
        1,
    ),
    (
        &["place", "--given", "2", "-"],
        b"4,1\n",
        b"record,key,given,place\n",
        b"",
        0,
    ),
    (
        &["place", "--given", "2", "-"],
        b"4,1\nabc,x\n",
        b"record,key,given,place\n2,abc,x,3\n",
        b"",
        1,
    ),
    (
        &["check", "-"],
        b"a,b\nc\n",
        b"input,code,record,line,byte,problem\nfile,24,2,2,4,\"1 field, the first record has 2\"\n",
        b"",
        1,
    ),
    (&["trace", "-", "-"], FILE, b"", TWICE, 2),
    (
        &["place", "--keys", "--given", "2", "keys"],
        b"",
        b"",
        TWO_TABLES,
        2,
    ),
    (&["explain", "34"], b"", b"", NO_CODE, 2),
];

/// Whether the program does this.
fn does<R: Threads + Wait + RandomSource + Sync>(rt: &R, alloc: Global, case: &Case) -> bool {
    let (words, input, out, err, status) = *case;
    let done = outcome_of(rt, alloc, words, input, 1000);
    done.status == status && done.out.text.as_slice() == out && done.err.text.as_slice() == err
}

/// The index of the first case that is otherwise.
fn first_other<R: Threads + Wait + RandomSource + Sync>(rt: &R, alloc: Global) -> Option<usize> {
    for (i, case) in CASES.iter().enumerate() {
        if !does(rt, alloc, case) {
            return Some(i);
        }
    }
    None
}

#[test]
fn words_are_done(rt: HostRuntime) {
    assert_eq!(rt; first_other(&rt, rt.alloc()), None);
}

/// Whether a count ends so where standard output takes two writes of four bytes.
fn cut<R: Threads + Wait + RandomSource + Sync>(rt: &R, alloc: Global) -> bool {
    let done = outcome_of(rt, alloc, &["count", "keys"], b"", 2);
    done.status == 3
        && done.out.text.as_slice() == b"count,21".as_slice()
        && done.err.text.as_slice() == b"fault 26\n".as_slice()
}

#[test]
fn a_failed_write_is_a_fault(rt: HostRuntime) {
    assert!(rt; cut(&rt, rt.alloc()));
}

/// Whether help goes to standard output, and a usage error to standard error.
fn streams<R: Threads + Wait + RandomSource + Sync>(rt: &R, alloc: Global) -> (bool, bool) {
    let help = outcome_of(rt, alloc, &["count", "--help"], b"", 10000);
    let bad = outcome_of(rt, alloc, &["count"], b"", 10000);
    (
        help.status == 0 && help.out.text.len() > 100 && help.err.text.is_empty(),
        bad.status == 2 && bad.out.text.is_empty() && bad.err.text.len() > 20,
    )
}

#[test]
fn help_and_usage_go_to_their_streams(rt: HostRuntime) {
    assert_eq!(rt; streams(&rt, rt.alloc()), (true, true));
}

/// The statuses without words, and whether each line is as it should be.
fn without_words<R: Threads + Wait + RandomSource + Sync>(rt: &R, alloc: Global) -> bool {
    let system = Memory {
        keys: FILE,
        other: SCRIPT,
        input: b"",
    };
    let mut out = Page::new(alloc, 100);
    let (mut text, mut memory) = (Page::new(alloc, 100), Page::new(alloc, 100));
    let not_text = run_program(
        rt,
        alloc,
        &system,
        Err(NoWords::NotText),
        &mut out,
        &mut text,
    );
    let no_memory = run_program(
        rt,
        alloc,
        &system,
        Err(NoWords::Memory),
        &mut out,
        &mut memory,
    );
    (not_text, no_memory) == (2, 3)
        && text.text.as_slice()
            == b"error: a word of the command line is not UTF-8 text\n".as_slice()
        && memory.text.as_slice() == b"fault 90\n".as_slice()
        && out.text.is_empty()
}

#[test]
fn no_words_are_a_usage_error_or_a_fault(rt: HostRuntime) {
    assert!(rt; without_words(&rt, rt.alloc()));
}
