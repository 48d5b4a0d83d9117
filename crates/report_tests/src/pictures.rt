//! Pictures worked by hand from the layout's rules: a column is 28 wide and begins at 28 times its
//! number, and a lane begins at 168 and is 76 high.

ghost use Rattle.ingest.specs.Reports.{AreInRange};

use crate::two_topics::options_of_two;
use crate::{FILE, TOPIC_FILE, options};
use byte_io::{FromRead, FromWrite};
use command_line::Options;
use draw_report::draw_text;
use lane_words::{Memory, Refusal};
use std::alloc::Global;
use std::io::Write;
use std::process::Abort;
use std::random::RandomSource;
use std::thread::Threads;

/// The answer of a picture of a script over a file with these options, into this writer.
fn drawn<R: Threads + Sync + RandomSource, W: Write + Drop>(
    rt: &R,
    alloc: Global,
    file: &[u8],
    script: &[u8],
    options: &Options,
    writer: W,
) -> Result<(), Refusal>
    requires { AreInRange options.now }
{
    let (mut file, mut script) = (FromRead::new(file), FromRead::new(script));
    let mut sink = FromWrite::new(writer);
    draw_text(rt, alloc, &mut file, &mut script, options, &mut sink)
}

/// Whether a text has this part.
fn has_part(text: &[u8], part: &[u8]) -> bool {
    for i in 0..text.len() {
        if text[i..].starts_with(part) {
            return true;
        }
    }
    false
}

/// Whether the picture of a script over the five records in one partition has this part.
fn has_in_one<R: Threads + Sync + RandomSource>(
    rt: &R,
    alloc: Global,
    script: &[u8],
    part: &[u8],
) -> bool {
    let options = options(alloc, 1);
    let mut text = Vec::new(alloc);
    let answer = drawn(rt, alloc, FILE, script, &options, &mut text);
    answer == Ok(()) && has_part(text.as_slice(), part)
}

/// A lane without a span, and the figures of five records.
const EMPTY: &[u8] = b"<rect class=\"paper\" width=\"100%\" height=\"100%\"/>\n\
    <g transform=\"translate(112 0)\">\n\
    <g class=\"lane\" data-topic=\"\" data-first=\"0\" data-last=\"0\">\n\
    <text class=\"label\" x=\"-8\" y=\"183\">0</text>\n</g>\n\
    <text class=\"label\" x=\"-8\" y=\"260\">generation</text>\n</g>\n\
    <g class=\"figures\" transform=\"translate(16 300)\">\n\
    <text class=\"figure unread-lines\" data-topic=\"\" data-first=\"0\" data-last=\"0\" y=\"0\">\
    No reader of 0: never</text>\n\
    <text class=\"figure read-again\" y=\"18\">Records read more than once: 0</text>\n\
    <text class=\"figure counted\" y=\"36\">Records counted: 0 of 5, none twice</text>\n\
    <text class=\"figure moves\" y=\"54\">Moves: 0</text>\n";

/// A member that takes its lease, reads, and commits twice, the second time in vain.
const SCRIPT: &[u8] = b"join A\nsettle\npoll A 0 2\nsend A 0\ndeliver 1\nunanswered 1\nappend <\n";

const OPENED: &[u8] = b"<svg xmlns=\"http://www.w3.org/2000/svg\" width=\"508\" height=\"462\" \
    viewBox=\"0 0 508 462\" role=\"graphics-document document\" aria-labelledby=\"title desc\">\n\
    <title id=\"title\">Who reads which partition: 1 members, 1 partitions</title>\n";

const HEADING: &[u8] = b"<g class=\"line\" data-line=\"7\" data-column=\"6\">\
    <title>append &lt;</title><path class=\"rule\" d=\"M168 152V244\"/>\
    <text transform=\"translate(176 148) rotate(-45)\"><tspan class=\"number\">7</tspan> \
    append &lt;</text></g>\n";

const LANE: &[u8] =
    b"<rect class=\"span m1 unread\" data-from=\"0\" data-to=\"1\" data-member=\"A\" \
    x=\"0\" y=\"168\" width=\"28\" height=\"20\"><title>nobody reads, granted to A</title></rect>\n\
    <text class=\"name on1 unread\" x=\"4\" y=\"182\">A</text>\n\
    <rect class=\"span m1\" data-from=\"1\" data-to=\"7\" data-member=\"A\" \
    x=\"28\" y=\"168\" width=\"168\" height=\"20\"><title>read by A</title></rect>\n\
    <text class=\"name on1\" x=\"32\" y=\"182\">A</text>\n</g>\n\
    <g class=\"column\" data-column=\"0\" data-line=\"1\" data-step=\"1\">\
    <path class=\"generation\" d=\"M0 152V244\"/><text class=\"offsets\" x=\"0\" y=\"260\">1</text>\
    </g>\n";

const COMMITS: &[u8] = b"<g class=\"column\" data-column=\"2\" data-line=\"3\" data-step=\"1\">\
    <g class=\"poll\" data-member=\"A\" data-topic=\"\" data-partition=\"0\" data-from=\"0\" \
    data-to=\"2\"><rect class=\"m1\" x=\"67\" y=\"188\" width=\"6\" height=\"8\"/>\
    <text class=\"offsets\" x=\"70\" y=\"206\">0:0-2</text></g></g>\n\
    <g class=\"column\" data-column=\"3\" data-line=\"4\" data-step=\"1\">\
    <circle class=\"send m1\" data-member=\"A\" data-topic=\"\" data-partition=\"0\" \
    data-from=\"0\" data-to=\"2\" data-commit=\"1\" cx=\"98\" cy=\"215\" r=\"4\"/></g>\n\
    <g class=\"column\" data-column=\"4\" data-line=\"5\" data-step=\"1\">\
    <g class=\"commit accepted\" data-commit=\"1\" data-sent=\"3\" data-reason=\"accepted\">\
    <title>commit 1 of A: accepted</title><path class=\"arc\" d=\"M98 215c0 12 28 12 28 0\"/>\
    <path class=\"tick\" d=\"M121 215l4 5 7 -11\"/></g></g>\n\
    <g class=\"column\" data-column=\"5\" data-line=\"6\" data-step=\"1\">\
    <g class=\"commit refused unanswered\" data-commit=\"1\" data-sent=\"3\" \
    data-reason=\"refused, unanswered\"><title>commit 1 of A: refused, unanswered</title>\
    <path class=\"arc\" d=\"M98 215c0 12 56 12 56 0\"/>\
    <path class=\"cross\" d=\"M150 211l8 8m0 -8l-8 8\"/>\
    <text class=\"reason\" x=\"154\" y=\"235\">refused, unanswered</text></g></g>\n";

/// Two reads of the same records, and a lost member.
const AGAIN: &[u8] = b"join A\nsettle\npoll A 0 2\nlose A\njoin B\ndrain";

const REREAD: &[u8] = b">No reader of 0: lines 1 4-5</text>\n\
    <text class=\"figure read-again\" y=\"18\">Records read more than once: 2</text>\n\
    <text class=\"figure counted\" y=\"36\">Records counted: 5 of 5, none twice</text>\n\
    <text class=\"figure moves\" y=\"54\">Moves: 2</text>\n";

/// A refused line.
const REFUSED: &[u8] = b"<g class=\"column\" data-column=\"0\" data-line=\"2\" data-step=\"1\">\
    <g class=\"refusal\" data-reason=\"nobody present\">\
    <path class=\"cross\" d=\"M10 155l8 8m0 -8l-8 8\"/>\
    <text transform=\"translate(22 148) rotate(-45)\">nobody present</text></g></g>\n";

#[test]
fn a_picture_has_its_parts(rt: HostRuntime) {
    let parts: [(&[u8], &[u8]); 7] = [
        (b"", EMPTY),
        (SCRIPT, OPENED),
        (SCRIPT, HEADING),
        (SCRIPT, LANE),
        (SCRIPT, COMMITS),
        (AGAIN, REREAD),
        (b"# a comment\nsettle", REFUSED),
    ];
    for (script, part) in &parts {
        assert!(rt; has_in_one(&rt, rt.alloc(), script, part));
    }
}

/// The lanes of two topics.
const TOPIC_LANES: &[u8] = b"<g class=\"lane\" data-topic=\"b\" data-first=\"0\" data-last=\"0\">\n\
    <text class=\"label\" x=\"-8\" y=\"259\">b 0</text>\n";

/// The answer of a picture over a file with the two topics, whether it has the part, and whether
/// it is empty.
fn drawn_in_topics<R: Threads + Sync + RandomSource + Abort>(
    rt: &R,
    alloc: Global,
    file: &[u8],
    script: &[u8],
) -> Result<(Result<(), Refusal>, bool, bool), Memory> {
    let options = options_of_two(rt, alloc)?;
    let mut text = Vec::new(alloc);
    let answer = drawn(rt, alloc, file, script, &options, &mut text);
    Ok((
        answer,
        has_part(text.as_slice(), TOPIC_LANES),
        text.is_empty(),
    ))
}

/// A file, a script, and what is known of the picture.
type Row<'a> = (&'a [u8], &'a [u8], (Result<(), Refusal>, bool, bool));

#[test]
fn a_fault_is_told_and_nothing_is_drawn(rt: HostRuntime) {
    let rows: [Row<'_>; 3] = [
        (
            TOPIC_FILE,
            b"join A\nsettle\njoin B\nsettle",
            (Ok(()), true, false),
        ),
        (
            TOPIC_FILE,
            b"append c abc",
            (Err(Refusal::BadLine { line: 1 }), false, true),
        ),
        (
            b"21,c\n",
            b"jion A",
            (Err(Refusal::NoSuchTopic { nth: 1 }), false, true),
        ),
    ];
    for row in &rows {
        let drawn = drawn_in_topics(&rt, rt.alloc(), row.0, row.1);
        assert_eq!(rt; drawn, Ok(row.2));
    }
}
