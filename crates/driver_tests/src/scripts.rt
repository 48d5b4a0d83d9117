//! Tests of scripts, by the lines that they parse to.

ghost use Rattle.std.specs.Prelude.{◌≡◌, true};
ghost use Rattle.partitioner.specs.Name.{is_name};
ghost use Rattle.partitioner.specs.Topic.{AreTopics, MayBeTopics};

use crate::longer;
use group_machine::Name;
use lane_words::{Memory, Refusal};
use script::{Action, Key, Line, Topic, read_replay, read_replay_topics};
use std::alloc::Global;
use std::process::Abort;

/// The command of a line.
#[derive(Clone, Copy, PartialEq, Eq)]
enum Command {
    Append,
    AppendIn,
    Join,
    Keep,
    Return,
    Rejoin,
    Sync,
    Leave,
    Lose,
    Poll,
    Send,
    Deliver,
    Unanswered,
    Settle,
    Drain,
}

/// A parsed line: its number, its command, its name or key, and its numbers, 0 where it has none.
type Parsed<'a> = (u64, Command, &'a [u8], u32, u32);

/// The expected result of parsing a script, with topics or without.
///
/// A test is a table of scripts that one loop parses: a sequence of calls would be proved over the
/// contracts of all of them, which takes minutes.
#[derive(Clone, Copy)]
enum Read<'a> {
    /// This line alone.
    One(Parsed<'a>),
    /// These lines.
    Lines(&'a [Parsed<'a>]),
    /// It is refused at this line.
    Bad(u64),
}

/// A script and the expected result.
type Row<'a> = (&'a [u8], Read<'a>);

// The calls, without their contracts.

fn lines_of(alloc: Global, topics: &[Topic], script: &[u8]) -> Result<Vec<Line>, Refusal>
    requires { MayBeTopics topics.now }
{
    if topics.is_empty() {
        read_replay(alloc, script)
    } else {
        read_replay_topics(alloc, script, topics)
    }
}

/// The command of an action, its name or key, and its numbers.
fn parts(action: &Action) -> (Command, &[u8], u32, u32) {
    match action {
        Action::Append(key) => (Command::Append, key.bytes(), 0, 0),
        Action::AppendIn { topic, key } => (Command::AppendIn, key.bytes(), *topic, 0),
        Action::Join(name) => (Command::Join, name.text(), 0, 0),
        Action::Keep(name) => (Command::Keep, name.text(), 0, 0),
        Action::Return(name) => (Command::Return, name.text(), 0, 0),
        Action::Rejoin(name) => (Command::Rejoin, name.text(), 0, 0),
        Action::Sync(name) => (Command::Sync, name.text(), 0, 0),
        Action::Leave(name) => (Command::Leave, name.text(), 0, 0),
        Action::Lose(name) => (Command::Lose, name.text(), 0, 0),
        Action::Poll {
            name,
            partition,
            most,
        } => (Command::Poll, name.text(), *partition, *most),
        Action::Send { name, partition } => (Command::Send, name.text(), *partition, 0),
        Action::Deliver(commit) => (Command::Deliver, b"", *commit, 0),
        Action::Unanswered(commit) => (Command::Unanswered, b"", *commit, 0),
        Action::Settle => (Command::Settle, b"", 0, 0),
        Action::Drain => (Command::Drain, b"", 0, 0),
    }
}

/// Whether a line is this one.
fn is_line(line: &Line, parsed: &Parsed<'_>) -> bool {
    let (command, text, first, second) = parts(&line.action);
    line.number == parsed.0
        && command == parsed.1
        && text == parsed.2
        && first == parsed.3
        && second == parsed.4
}

/// Whether lines are these.
fn are_lines(lines: &[Line], parsed: &[Parsed<'_>]) -> bool {
    for (line, parsed) in lines.iter().zip(parsed) {
        if !is_line(line, parsed) {
            return false;
        }
    }
    lines.len() == parsed.len()
}

/// Whether a script parses as expected.
fn is_read(alloc: Global, topics: &[Topic], script: &[u8], read: &Read<'_>) -> bool
    requires { MayBeTopics topics.now }
{
    match lines_of(alloc, topics, script) {
        Ok(lines) => are_lines_read(&lines, read),
        Err(why) => is_refusal(why, read),
    }
}

/// Whether lines are the expected ones.
fn are_lines_read(lines: &[Line], read: &Read<'_>) -> bool {
    match read {
        Read::One(parsed) => lines.len() == 1 && is_line(&lines[0], parsed),
        Read::Lines(parsed) => are_lines(lines, parsed),
        Read::Bad(_) => false,
    }
}

fn is_refusal(why: Refusal, read: &Read<'_>) -> bool {
    match (why, read) {
        (Refusal::BadLine { line }, Read::Bad(number)) => line == *number,
        _ => false,
    }
}

/// The index of the first script that does not parse as expected.
fn first_other(alloc: Global, topics: &[Topic], rows: &[Row<'_>]) -> Option<usize>
    requires { MayBeTopics topics.now }
{
    for (index, (script, read)) in rows.iter().enumerate() {
        if !is_read(alloc, topics, script, read) {
            return Some(index);
        }
    }
    None
}

// A function that names a table is proved with each row and each list in it, at each of its
// statements: so a function that names one does nothing else.

const FORMS: &[u8] = b"append a key, \xff\njoin A\nrejoin B-1\nsync c_2\nleave D\nlose E\n\
    poll A 0 500\nsend A 3\ndeliver 1\nunanswered 2\nsettle\ndrain\nkeep F\nreturn F\n";

const PARSED: &[Parsed<'static>] = &[
    (1, Command::Append, b"a key, \xff", 0, 0),
    (2, Command::Join, b"A", 0, 0),
    (3, Command::Rejoin, b"B-1", 0, 0),
    (4, Command::Sync, b"c_2", 0, 0),
    (5, Command::Leave, b"D", 0, 0),
    (6, Command::Lose, b"E", 0, 0),
    (7, Command::Poll, b"A", 0, 500),
    (8, Command::Send, b"A", 3, 0),
    (9, Command::Deliver, b"", 1, 0),
    (10, Command::Unanswered, b"", 2, 0),
    (11, Command::Settle, b"", 0, 0),
    (12, Command::Drain, b"", 0, 0),
    (13, Command::Keep, b"F", 0, 0),
    (14, Command::Return, b"F", 0, 0),
];

const ENDS: &[Row<'static>] = &[
    (FORMS, Read::Lines(PARSED)),
    (b"", Read::Lines(&[])),
    (b"\n\r\n\n", Read::Lines(&[])),
    (b"\r", Read::Lines(&[])),
    (
        b"# x\r\njoin A\r\n",
        Read::One((2, Command::Join, b"A", 0, 0)),
    ),
    (b"join A\r", Read::One((1, Command::Join, b"A", 0, 0))),
    (
        b"\n#\n\njoin A\n\nsettle",
        Read::Lines(&[
            (4, Command::Join, b"A", 0, 0),
            (6, Command::Settle, b"", 0, 0),
        ]),
    ),
    (
        b"#\x80 not\ttext\ndrain",
        Read::One((2, Command::Drain, b"", 0, 0)),
    ),
    (
        b"append \nappend  a b \n",
        Read::Lines(&[
            (1, Command::Append, b"", 0, 0),
            (2, Command::Append, b" a b ", 0, 0),
        ]),
    ),
    (
        b"append \r\r\n",
        Read::One((1, Command::Append, b"\r", 0, 0)),
    ),
];

fn ends() -> &'static [Row<'static>] {
    ENDS
}

const NUMBERS: &[Row<'static>] = &[
    (b"poll A 00 01", Read::One((1, Command::Poll, b"A", 0, 1))),
    (
        b"deliver 0000000001",
        Read::One((1, Command::Deliver, b"", 1, 0)),
    ),
    (
        b"deliver 4294967295",
        Read::One((1, Command::Deliver, b"", 4_294_967_295, 0)),
    ),
    (b"poll A 0 4294967296", Read::Bad(1)),
    (b"deliver 00000000001", Read::Bad(1)),
    (b"deliver 9999999999", Read::Bad(1)),
    (b"deliver +1", Read::Bad(1)),
    (b"deliver -1", Read::Bad(1)),
    (b"deliver 1a", Read::Bad(1)),
    (b"deliver \xd9\xa1", Read::Bad(1)),
    (b"deliver ", Read::Bad(1)),
    (b"deliver", Read::Bad(1)),
];

fn numbers() -> &'static [Row<'static>] {
    NUMBERS
}

const BAD: &[Row<'static>] = &[
    (b"join  A", Read::Bad(1)),
    (b" join A", Read::Bad(1)),
    (b"join A ", Read::Bad(1)),
    (b"join\tA", Read::Bad(1)),
    (b"join A\r\r", Read::Bad(1)),
    (b"join \x80", Read::Bad(1)),
    (b"join ", Read::Bad(1)),
    (b"join", Read::Bad(1)),
    (b"join A B", Read::Bad(1)),
    (b"JOIN A", Read::Bad(1)),
    (b"joins A", Read::Bad(1)),
    (b"keep", Read::Bad(1)),
    (b"return A B", Read::Bad(1)),
    (b"append", Read::Bad(1)),
    (b"appended", Read::Bad(1)),
    (b"settle ", Read::Bad(1)),
    (b"settle A", Read::Bad(1)),
    (b"send A", Read::Bad(1)),
    (b"send A B", Read::Bad(1)),
    (b"poll A 0", Read::Bad(1)),
    (b"poll A 0 1 2", Read::Bad(1)),
    (b"poll A 0 1 ", Read::Bad(1)),
    (b"deliver A", Read::Bad(1)),
    (b" # x", Read::Bad(1)),
    (b" ", Read::Bad(1)),
    (b"\xef\xbb\xbfjoin A", Read::Bad(1)),
    (
        b"# x\n\njoin A\r\nsettle\nnothing\ndrain\nnothing",
        Read::Bad(5),
    ),
    (b"join A\n\r\r\n", Read::Bad(2)),
    (b"join A\n\n\nx", Read::Bad(4)),
];

fn bad() -> &'static [Row<'static>] {
    BAD
}

/// A topic of this valid name and this many partitions.
fn topic(rt: &impl Abort, name: &[u8], partitions: u32) -> Topic
    ensures { result ≡ record { name = name.now; partitions = partitions } }
{
    let name = Name::new(name).expect(rt, "a name");
    Topic { name, partitions }
}

/// Topic a of two partitions, and topic b of three.
fn a_and_b(rt: &impl Abort) -> [Topic; 2]
    ensures { AreTopics result }
{
    [topic(rt, b"a", 2), topic(rt, b"b", 3)]
}

/// Appends with topics.
const APPENDS: &[Row<'static>] = &[
    (b"append a x", Read::One((1, Command::AppendIn, b"x", 0, 0))),
    (
        b"append b  x",
        Read::One((1, Command::AppendIn, b" x", 1, 0)),
    ),
    (
        b"append a x y ",
        Read::One((1, Command::AppendIn, b"x y ", 0, 0)),
    ),
    (b"append a ", Read::One((1, Command::AppendIn, b"", 0, 0))),
    (b"append a a", Read::One((1, Command::AppendIn, b"a", 0, 0))),
    (b"append a", Read::Bad(1)),
    (b"append", Read::Bad(1)),
    (b"append ", Read::Bad(1)),
    (b"append x", Read::Bad(1)),
    (b"append  a x", Read::Bad(1)),
    (b"append c x", Read::Bad(1)),
    (b"append A x", Read::Bad(1)),
    (b"append aa x", Read::Bad(1)),
    (
        b"# a\n\nappend b k\njoin A\nappend c x\nappend c x",
        Read::Bad(5),
    ),
];

fn appends() -> &'static [Row<'static>] {
    APPENDS
}

/// Polls with topics.
const POLLS: &[Row<'static>] = &[
    (b"poll A a 0 5", Read::One((1, Command::Poll, b"A", 0, 5))),
    (b"poll A a 1 5", Read::One((1, Command::Poll, b"A", 1, 5))),
    (
        b"poll A a 2 5",
        Read::One((1, Command::Poll, b"A", 4_294_967_295, 5)),
    ),
    (b"poll A b 0 5", Read::One((1, Command::Poll, b"A", 2, 5))),
    (b"poll A b 2 0", Read::One((1, Command::Poll, b"A", 4, 0))),
    (
        b"poll A b 3 5",
        Read::One((1, Command::Poll, b"A", 4_294_967_295, 5)),
    ),
    (
        b"poll A b 4294967295 5",
        Read::One((1, Command::Poll, b"A", 4_294_967_295, 5)),
    ),
    (b"poll A b 4294967296 5", Read::Bad(1)),
    (b"poll A 0 5", Read::Bad(1)),
    (b"poll A c 0 5", Read::Bad(1)),
    (b"poll A b 0", Read::Bad(1)),
    (b"poll A b 0 5 6", Read::Bad(1)),
    (b"poll A  b 0 5", Read::Bad(1)),
    (b"poll A. b 0 5", Read::Bad(1)),
];

fn polls() -> &'static [Row<'static>] {
    POLLS
}

/// Sends with topics, and lines without one.
const SENDS: &[Row<'static>] = &[
    (b"send A b 2", Read::One((1, Command::Send, b"A", 4, 0))),
    (b"send A a 00", Read::One((1, Command::Send, b"A", 0, 0))),
    (
        b"send A a 2",
        Read::One((1, Command::Send, b"A", 4_294_967_295, 0)),
    ),
    (b"send A 0", Read::Bad(1)),
    (b"send A b", Read::Bad(1)),
    (b"send A b ", Read::Bad(1)),
    (b"send A b 2 ", Read::Bad(1)),
    (b"send A b +2", Read::Bad(1)),
    (b"send A c 0", Read::Bad(1)),
    (b"send b 2", Read::Bad(1)),
    (
        b"join A\r\nrejoin A\nsync a\nleave b\nlose E\ndeliver 1\nunanswered 2\nsettle\ndrain",
        Read::Lines(&[
            (1, Command::Join, b"A", 0, 0),
            (2, Command::Rejoin, b"A", 0, 0),
            (3, Command::Sync, b"a", 0, 0),
            (4, Command::Leave, b"b", 0, 0),
            (5, Command::Lose, b"E", 0, 0),
            (6, Command::Deliver, b"", 1, 0),
            (7, Command::Unanswered, b"", 2, 0),
            (8, Command::Settle, b"", 0, 0),
            (9, Command::Drain, b"", 0, 0),
        ]),
    ),
];

fn sends() -> &'static [Row<'static>] {
    SENDS
}

#[test]
fn a_topic_comes_before_keys_and_partitions(rt: HostRuntime) {
    let topics = a_and_b(&rt);
    let append = first_other(rt.alloc(), &topics, appends());
    let poll = first_other(rt.alloc(), &topics, polls());
    let send = first_other(rt.alloc(), &topics, sends());
    assert_eq!(rt; (append, poll, send), (None, None, None));
}

/// A text, a number of bytes of one kind after it, and the expected result.
type LongerRow<'a> = (&'a [u8], u8, usize, Read<'a>);

/// Whether a text with `count` bytes of one kind after it parses as expected.
fn is_longer_read(alloc: Global, topics: &[Topic], row: &LongerRow<'_>) -> Result<bool, Memory>
    requires { MayBeTopics topics.now }
{
    let (text, byte, count, read) = row;
    let script = longer(alloc, text, *byte, *count)?;
    Ok(is_read(alloc, topics, &script, read))
}

/// The index of the first such text that does not parse as expected.
fn first_other_longer(
    alloc: Global,
    topics: &[Topic],
    rows: &[LongerRow<'_>],
) -> Result<Option<usize>, Memory>
    requires { MayBeTopics topics.now }
{
    for (index, row) in rows.iter().enumerate() {
        if !is_longer_read(alloc, topics, row)? {
            return Ok(Some(index));
        }
    }
    Ok(None)
}

/// With topics, a key and a name that are too long, and the longest key.
const LONG_AMONG: &[LongerRow<'static>] = &[
    (b"append b ", b'k', 248, Read::Bad(1)),
    (b"join ", b'x', 33, Read::Bad(1)),
    (
        b"append b ",
        b'k',
        247,
        Read::One((1, Command::AppendIn, &[b'k'; 247], 1, 0)),
    ),
];

fn long_among() -> &'static [LongerRow<'static>] {
    LONG_AMONG
}

#[test]
fn lengths_are_the_same_with_topics(rt: HostRuntime) {
    let topics = a_and_b(&rt);
    let other = first_other_longer(rt.alloc(), &topics, long_among());
    assert_eq!(rt; other, Ok(None));
}

#[test]
fn each_form_is_read(rt: HostRuntime) {
    assert_eq!(rt; first_other(rt.alloc(), &[], ends()), None);
}

#[test]
fn numbers_have_one_to_ten_digits(rt: HostRuntime) {
    assert_eq!(rt; first_other(rt.alloc(), &[], numbers()), None);
}

#[test]
fn the_first_invalid_line_is_refused(rt: HostRuntime) {
    assert_eq!(rt; first_other(rt.alloc(), &[], bad()), None);
}

/// The longest name, and one that is too long.
const LONG_NAMES: &[LongerRow<'static>] = &[
    (
        b"join ",
        b'x',
        32,
        Read::One((1, Command::Join, &[b'x'; 32], 0, 0)),
    ),
    (b"join ", b'x', 33, Read::Bad(1)),
];

fn long_names() -> &'static [LongerRow<'static>] {
    LONG_NAMES
}

#[test]
fn a_name_has_32_bytes_at_most(rt: HostRuntime) {
    let other = first_other_longer(rt.alloc(), &[], long_names());
    assert_eq!(rt; other, Ok(None));
}

/// Whether the longest line parses, also with a carriage return at its end.
fn is_longest_read(alloc: Global, longest: &[u8], read: Read<'_>) -> Result<bool, Memory> {
    let is_ended_read = is_longer_read(alloc, &[], &(longest, b'\r', 1, read))?;
    Ok(is_ended_read && is_read(alloc, &[], longest, &read))
}

/// Whether a command with this many bytes of a key parses, also with that end.
fn is_append_read(alloc: Global, count: usize, read: Read<'_>) -> Result<bool, Memory> {
    let line = longer(alloc, b"append ", b'k', count)?;
    is_longest_read(alloc, &line, read)
}

/// The result of the longest line.
const LONGEST: Read<'static> = Read::One((1, Command::Append, &[b'k'; 249], 0, 0));

/// A line that is too long, the longest comment, and one that is too long.
const LONG_LINES: &[LongerRow<'static>] = &[
    (b"append ", b'k', 250, Read::Bad(1)),
    (b"#", b'#', 255, Read::Lines(&[])),
    (b"#", b'#', 256, Read::Bad(1)),
];

fn long_lines() -> &'static [LongerRow<'static>] {
    LONG_LINES
}

#[test]
fn a_line_has_256_bytes_at_most(rt: HostRuntime) {
    let longest = is_append_read(rt.alloc(), 249, LONGEST);
    let other = first_other_longer(rt.alloc(), &[], long_lines());
    assert_eq!(rt; (longest, other), (Ok(true), Ok(None)));
}

/// Adds 20,000 lines.
fn add_many(script: &mut Vec<u8>) -> Result<(), Memory> {
    for _ in 0..10_000 {
        script.extend_from_slice(b"append k\njoin A\n")?;
    }
    Ok(())
}

/// A script of these lines.
fn long_script(alloc: Global) -> Result<Vec<u8>, Memory> {
    let mut script = Vec::new(alloc);
    let done = add_many(&mut script);
    done.and(Ok(script))
}

/// The number of the last of some lines.
fn last_number(lines: &[Line]) -> Option<u64> {
    match lines.last() {
        Some(line) => Some(line.number),
        None => None,
    }
}

/// The number of lines of a script, and the number of the last one.
fn count_and_last(alloc: Global, script: &[u8]) -> Result<(usize, Option<u64>), Refusal> {
    let lines = lines_of(alloc, &[], script)?;
    Ok((lines.len(), last_number(&lines)))
}

/// The same, for that script.
fn long_count_and_last(alloc: Global) -> Result<(usize, Option<u64>), Refusal> {
    let script = long_script(alloc)?;
    count_and_last(alloc, &script)
}

#[test]
fn a_long_script_is_read(rt: HostRuntime) {
    let lines_and_last = long_count_and_last(rt.alloc());
    assert_eq!(rt; lines_and_last, Ok((20_000, Some(20_000))));
}

/// Whether a key has these bytes, borrowed and moved out of it.
fn lends_and_gives(key: Key, bytes: &[u8]) -> (bool, bool) {
    let lends = key.bytes() == bytes;
    (lends, key.into_bytes().as_slice() == bytes)
}

/// The same, for a key of these bytes.
fn key_of(alloc: Global, bytes: &[u8]) -> Result<(bool, bool), Memory> {
    let copy = bytes.to_vec(alloc)?;
    Ok(lends_and_gives(Key::new(copy), bytes))
}

#[test]
fn a_key_gives_its_bytes(rt: HostRuntime) {
    assert_eq!(rt; key_of(rt.alloc(), b"k 1"), Ok((true, true)));
}
