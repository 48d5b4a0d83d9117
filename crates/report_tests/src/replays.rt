//! Replays worked by hand.

ghost use Rattle.ingest.specs.Reports.{AreInRange};

use crate::two_topics::options_of_two;
use crate::{FILE, TOPIC_FILE, options};
use byte_io::{FromRead, FromWrite};
use command_line::Options;
use lane_words::{Memory, Refusal};
use replay_report::replay_text;
use std::alloc::Global;
use std::io::Write;
use std::process::Abort;
use std::random::RandomSource;
use std::thread::Threads;

/// The answer of a replay of a script over a file with these options, into this writer.
fn replayed<R: Threads + Sync + RandomSource, W: Write + Drop>(
    rt: &R,
    alloc: Global,
    file: &[u8],
    script: &[u8],
    options: &Options,
    writer: W,
) -> Result<(), Refusal>
    requires { AreInRange options.now }
{
    let (mut file, mut script) = (FromRead::new(file), FromRead::new(script));
    let mut sink = FromWrite::new(writer);
    replay_text(rt, alloc, &mut file, &mut script, options, &mut sink)
}

/// The answer of a replay over the five records with four partitions, into this writer.
fn replayed_in_four<R: Threads + Sync + RandomSource, W: Write + Drop>(
    rt: &R,
    alloc: Global,
    script: &[u8],
    writer: W,
) -> Result<(), Refusal> {
    let options = options(alloc, 4);
    replayed(rt, alloc, FILE, script, &options, writer)
}

#[test]
fn a_join_is_reported_by_its_moves(rt: HostRuntime) {
    const TEXT: &[u8] = b"move,1,0,,A\nmove,1,1,,A\nmove,1,2,,A\nmove,1,3,,A\n\
        owner,0,A\nowner,1,A\nowner,2,A\nowner,3,A\n\
        offset,0,0,2\noffset,1,0,1\noffset,2,0,1\noffset,3,0,1\ntotal,0,5\n";
    let mut text = [0u8; TEXT.len()];
    let answer = replayed_in_four(&rt, rt.alloc(), b"join A", text.as_mut_slice());
    assert_eq!(rt; (answer, text.as_slice()), (Ok(()), TEXT));
}

#[test]
fn a_repeated_commit_is_reported_as_refused(rt: HostRuntime) {
    const SCRIPT: &[u8] = b"join A\nsettle\npoll A 0 2\nsend A 0\ndeliver 1\ndeliver 1\n";
    const TEXT: &[u8] = b"move,1,0,,A\nmove,1,1,,A\nmove,1,2,,A\nmove,1,3,,A\nrefused,6,11\n\
        owner,0,A\nowner,1,A\nowner,2,A\nowner,3,A\n\
        offset,0,2,2\noffset,1,0,1\noffset,2,0,1\noffset,3,0,1\n\
        count,21,2\ntotal,2,5\n";
    let mut text = [0u8; TEXT.len()];
    let answer = replayed_in_four(&rt, rt.alloc(), SCRIPT, text.as_mut_slice());
    assert_eq!(rt; (answer, text.as_slice()), (Ok(()), TEXT));
}

#[test]
fn a_bad_line_is_reported_and_nothing_is_written(rt: HostRuntime) {
    let mut text = Vec::new(rt.alloc());
    let answer = replayed_in_four(&rt, rt.alloc(), b"jion A", &mut text);
    assert_eq!(rt;
        (answer, text.len()),
        (Err(Refusal::BadLine { line: 1 }), 0)
    );
}

const DRAINED: &[u8] = b"move,1,a,0,,A\nmove,1,a,1,,A\nmove,1,b,0,,A\nmove,1,b,1,,A\n\
    move,1,b,2,,A\nmove,3,b,1,A,B\nmove,3,b,2,A,B\n\
    owner,a,0,A\nowner,a,1,A\nowner,b,0,A\nowner,b,1,B\nowner,b,2,B\n\
    offset,a,0,1,1\noffset,a,1,1,1\noffset,b,0,2,2\noffset,b,1,1,1\noffset,b,2,0,0\n\
    count,21,2\ncount,abc,1\ncount,4,2\ntotal,5,5\n";

const APPENDED: &[u8] = b"refused,2,1\nowner,a,0,\nowner,a,1,\nowner,b,0,\nowner,b,1,\nowner,b,2,\n\
    offset,a,0,0,1\noffset,a,1,0,1\noffset,b,0,0,3\noffset,b,1,0,1\noffset,b,2,0,0\n\
    total,0,6\n";

/// The answer of a replay over a file with the two topics, and whether it has written this text.
fn replayed_in_topics<R: Threads + Sync + RandomSource + Abort>(
    rt: &R,
    alloc: Global,
    row: &Row<'_>,
) -> Result<(Result<(), Refusal>, bool), Memory> {
    let options = options_of_two(rt, alloc)?;
    let mut text = Vec::new(alloc);
    let answer = replayed(rt, alloc, row.0, row.1, &options, &mut text);
    Ok((answer, text.as_slice() == row.2))
}

/// A file, a script, the text of the replay, and its answer.
type Row<'a> = (&'a [u8], &'a [u8], &'a [u8], Result<(), Refusal>);

#[test]
fn a_file_of_two_topics_is_replayed(rt: HostRuntime) {
    let none = b"".as_slice();
    let rows: [Row<'_>; 4] = [
        (
            TOPIC_FILE,
            b"join A\nsettle\njoin B\ndrain",
            DRAINED,
            Ok(()),
        ),
        (TOPIC_FILE, b"append b abc\npoll A b 0 1", APPENDED, Ok(())),
        (
            TOPIC_FILE,
            b"append c abc",
            none,
            Err(Refusal::BadLine { line: 1 }),
        ),
        (
            b"21,c\n",
            b"jion A",
            none,
            Err(Refusal::NoSuchTopic { nth: 1 }),
        ),
    ];
    for row in &rows {
        let replayed = replayed_in_topics(&rt, rt.alloc(), row);
        assert_eq!(rt; replayed, Ok((row.3, true)));
    }
}
