//! Traces worked by hand.

ghost use Rattle.ingest.specs.Reports.{AreInRange};

use crate::two_topics::options_of_two;
use crate::{FILE, TOPIC_FILE, options};
use byte_io::{FromRead, FromWrite};
use command_line::Options;
use lane_words::{Memory, Refusal};
use std::alloc::Global;
use std::process::Abort;
use std::random::RandomSource;
use std::thread::Threads;
use trace_report::trace_text;

/// The answer of a trace of a script over a file with these options, into this text.
fn traced<R: Threads + Sync + RandomSource>(
    rt: &R,
    alloc: Global,
    file: &[u8],
    script: &[u8],
    options: &Options,
    text: &mut Vec<u8>,
) -> Result<(), Refusal>
    requires { AreInRange options.now }
{
    let (mut file, mut script) = (FromRead::new(file), FromRead::new(script));
    let mut sink = FromWrite::new(text);
    trace_text(rt, alloc, &mut file, &mut script, options, &mut sink)
}

/// A file, a script, the text of the trace, and its answer.
type Row<'a> = (&'a [u8], &'a [u8], &'a [u8], Result<(), Refusal>);

const HEADER: &[u8] = b"line,step,event,member,partition,from,to,commit,code,reason,generation,\
    phase,waiting,granted,unread,lag\n";

const LOSS: &[u8] = b"join A\njoin B\nsettle\npoll A 0 2\nsend A 0\nlose A\ndeliver 1\ndrain\n\
    deliver 1\n";

const LOST: &[u8] = b"line,step,event,member,partition,from,to,commit,code,reason,generation,\
    phase,waiting,granted,unread,lag\n\
    1,1,join,A,,,,,,,1,stable,,A 0-3,0-3,5\n\
    2,1,join,B,,,,,,,1,preparing,A,A 0-3;B,0-3,5\n\
    3,1,sync,A,,,,,,,1,preparing,A,A 0-3;B,,5\n\
    3,2,rejoin,A,,,,,,,2,stable,,A 0-3;B,,5\n\
    3,3,sync,B,,,,,,,2,stable,,A 0-3;B,,5\n\
    3,4,sync,A,,,,,,,2,stable,,A 0-3;B,,5\n\
    3,5,rejoin,A,,,,,,,2,preparing,B,A 0-1;B,2-3,5\n\
    3,6,rejoin,B,,,,,,,3,stable,,A 0-1;B 2-3,2-3,5\n\
    3,7,sync,A,,,,,,,3,stable,,A 0-1;B 2-3,2-3,5\n\
    3,8,sync,B,,,,,,,3,stable,,A 0-1;B 2-3,,5\n\
    3,9,settle,,,,,,,,3,stable,,A 0-1;B 2-3,,5\n\
    4,1,poll,A,0,0,2,,,,3,stable,,A 0-1;B 2-3,,5\n\
    5,1,send,A,0,0,2,1,,,3,stable,,A 0-1;B 2-3,,5\n\
    6,1,lose,A,,,,,,,3,preparing,B,B 2-3,0-1,5\n\
    7,1,deliver,A,0,0,2,1,1,not a member,3,preparing,B,B 2-3,0-1,5\n\
    8,1,rejoin,B,,,,,,,4,stable,,B 0-3,0-1,5\n\
    8,2,sync,B,,,,,,,4,stable,,B 0-3,,5\n\
    8,3,poll,B,0,0,2,,,,4,stable,,B 0-3,,5\n\
    8,4,send,B,0,0,2,2,,,4,stable,,B 0-3,,5\n\
    8,5,deliver,B,0,0,2,2,,,4,stable,,B 0-3,,3\n\
    8,6,poll,B,1,0,1,,,,4,stable,,B 0-3,,3\n\
    8,7,send,B,1,0,1,3,,,4,stable,,B 0-3,,3\n\
    8,8,deliver,B,1,0,1,3,,,4,stable,,B 0-3,,2\n\
    8,9,poll,B,2,0,1,,,,4,stable,,B 0-3,,2\n\
    8,10,send,B,2,0,1,4,,,4,stable,,B 0-3,,2\n\
    8,11,deliver,B,2,0,1,4,,,4,stable,,B 0-3,,1\n\
    8,12,poll,B,3,0,1,,,,4,stable,,B 0-3,,1\n\
    8,13,send,B,3,0,1,5,,,4,stable,,B 0-3,,1\n\
    8,14,deliver,B,3,0,1,5,,,4,stable,,B 0-3,,0\n\
    8,15,drain,,,,,,,,4,stable,,B 0-3,,0\n\
    9,1,deliver,A,0,0,2,1,1,not a member,4,stable,,B 0-3,,0\n";

const REFUSED: &[u8] = b"line,step,event,member,partition,from,to,commit,code,reason,generation,\
    phase,waiting,granted,unread,lag\n\
    2,1,settle,,,,,,19,nobody present,0,empty,,,0-3,5\n\
    3,1,poll,A,,,,,1,not a member,0,empty,,,0-3,5\n\
    4,1,unanswered,,,,,7,17,no such commit,0,empty,,,0-3,5\n\
    5,1,return,A,,,,,33,no static member of that name,0,empty,,,0-3,5\n\
    6,1,append,,0,2,3,,,,0,empty,,,0-3,6\n";

#[test]
fn a_script_is_traced_event_by_event(rt: HostRuntime) {
    let options = options(rt.alloc(), 4);
    let rows: [Row<'_>; 5] = [
        (FILE, LOSS, LOST, Ok(())),
        (FILE, b"", HEADER, Ok(())),
        (
            FILE,
            b"# no event\nsettle\npoll A 4 1\nunanswered 7\nreturn A\nappend 21",
            REFUSED,
            Ok(()),
        ),
        (FILE, b"jion A", b"", Err(Refusal::BadLine { line: 1 })),
        (
            b"21\n4,a\n",
            b"jion A",
            b"",
            Err(Refusal::BadCsv { nth: 2 }),
        ),
    ];
    for row in &rows {
        let mut text = Vec::new(rt.alloc());
        let answer = traced(&rt, rt.alloc(), row.0, row.1, &options, &mut text);
        assert_eq!(rt; (answer, text.as_slice()), (row.3, row.2));
    }
}

const IN_TOPICS: &[u8] = b"line,step,event,member,topic,partition,from,to,commit,code,reason,\
    generation,phase,waiting,granted,unread,lag\n\
    1,1,join,A,,,,,,,,1,stable,,A a 0-1 b 0-2,a 0-1 b 0-2,5\n\
    2,1,sync,A,,,,,,,,1,stable,,A a 0-1 b 0-2,,5\n\
    2,2,settle,,,,,,,,,1,stable,,A a 0-1 b 0-2,,5\n\
    3,1,join,B,,,,,,,,1,preparing,A,A a 0-1 b 0-2;B,,5\n\
    4,1,rejoin,A,,,,,,,,2,stable,,A a 0-1 b 0-2;B,,5\n\
    4,2,sync,B,,,,,,,,2,stable,,A a 0-1 b 0-2;B,,5\n\
    4,3,sync,A,,,,,,,,2,stable,,A a 0-1 b 0-2;B,,5\n\
    4,4,rejoin,A,,,,,,,,2,preparing,B,A a 0-1 b 0;B,b 1-2,5\n\
    4,5,rejoin,B,,,,,,,,3,stable,,A a 0-1 b 0;B b 1-2,b 1-2,5\n\
    4,6,sync,A,,,,,,,,3,stable,,A a 0-1 b 0;B b 1-2,b 1-2,5\n\
    4,7,sync,B,,,,,,,,3,stable,,A a 0-1 b 0;B b 1-2,,5\n\
    4,8,settle,,,,,,,,,3,stable,,A a 0-1 b 0;B b 1-2,,5\n";

/// The answer of a trace over the records of two topics, and whether it has written this text.
fn traced_in_topics<R: Threads + Sync + RandomSource + Abort>(
    rt: &R,
    alloc: Global,
    script: &[u8],
    expected: &[u8],
) -> Result<(Result<(), Refusal>, bool), Memory> {
    let options = options_of_two(rt, alloc)?;
    let mut text = Vec::new(alloc);
    let answer = traced(rt, alloc, TOPIC_FILE, script, &options, &mut text);
    Ok((answer, text.as_slice() == expected))
}

#[test]
fn a_script_over_two_topics_is_traced(rt: HostRuntime) {
    let script = b"join A\nsettle\njoin B\nsettle\n".as_slice();
    let traced = traced_in_topics(&rt, rt.alloc(), script, IN_TOPICS);
    assert_eq!(rt; traced, Ok((Ok(()), true)));
}
