//! Tests of plans and of the rules of their lines.

use crate::longer;
use group_machine::Name;
use lane_words::{Memory, Refusal};
use script::{Change, Plan, read_plan};
use std::alloc::{AllocError, Global};

/// A change: its command and its name.
type Parsed<'a> = (&'a [u8], &'a [u8]);

/// The expected result of parsing a script as a plan.
///
/// A test is a table of scripts that one loop parses: a sequence of calls would be proved over the
/// contracts of all of them, which takes minutes.
#[derive(Clone, Copy)]
enum Read<'a> {
    /// A plan of these changes and this many members.
    Plan(&'a [Parsed<'a>], u32),
    /// It is refused with this number, at the line of this number.
    Refused(u8, u64),
}

/// A script and the expected result.
type Row<'a> = (&'a [u8], Read<'a>);

// The calls, without their contracts.

pub fn plan_of(alloc: Global, script: &[u8]) -> Result<Plan, Refusal> {
    read_plan(alloc, script)
}

fn changes(plan: &Plan) -> &[Change] {
    plan.lines()
}

fn members(plan: &Plan) -> u32 {
    plan.members()
}

fn copied(alloc: Global, plan: &Plan) -> Result<Plan, Refusal> {
    Ok(plan.copy(alloc)?)
}

fn is_same(plan: &Plan, other: &Plan) -> bool {
    plan.same(other)
}

/// The command of a change, and its name.
fn parts(change: &Change) -> (&[u8], &[u8]) {
    match change {
        Change::Join(name) => (b"join", name.text()),
        Change::Leave(name) => (b"leave", name.text()),
        Change::Lose(name) => (b"lose", name.text()),
    }
}

/// Whether a change is this one.
fn is_change(change: &Change, parsed: &Parsed<'_>) -> bool {
    let (command, name) = parts(change);
    command == parsed.0 && name == parsed.1
}

/// Whether a plan has these changes, in order.
fn has_changes(plan: &Plan, parsed: &[Parsed<'_>]) -> bool {
    let lines = changes(plan);
    for (change, parsed) in lines.iter().zip(parsed) {
        if !is_change(change, parsed) {
            return false;
        }
    }
    lines.len() == parsed.len()
}

/// Whether a script parses as expected.
fn is_read(alloc: Global, script: &[u8], read: &Read<'_>) -> bool {
    match plan_of(alloc, script) {
        Ok(plan) => is_plan_read(&plan, read),
        Err(why) => is_refusal(why, read),
    }
}

/// Whether a plan is the expected one.
fn is_plan_read(plan: &Plan, read: &Read<'_>) -> bool {
    match read {
        Read::Plan(parsed, count) => members(plan) == *count && has_changes(plan, parsed),
        Read::Refused(..) => false,
    }
}

fn is_refusal(why: Refusal, read: &Read<'_>) -> bool {
    match (why, read) {
        (Refusal::BadLine { line } | Refusal::NobodyLeft { line }, Read::Refused(code, number)) =>
            why.code() == *code && line == *number,
        _ => false,
    }
}

/// The index of the first script that does not parse as expected.
fn first_other(alloc: Global, rows: &[Row<'_>]) -> Option<usize> {
    for (index, (script, read)) in rows.iter().enumerate() {
        if !is_read(alloc, script, read) {
            return Some(index);
        }
    }
    None
}

/// Adds a line: a command and a name with a number.
fn add_line(out: &mut Vec<u8>, command: &[u8], number: &[u8]) -> Result<(), AllocError> {
    out.extend_from_slice(command)?;
    out.extend_from_slice(number)?;
    out.extend_from_slice(b"\n")
}

/// Adds a line for each number from 0 on.
fn add_lines(out: &mut Vec<u8>, command: &[u8], count: u32) -> Result<(), AllocError> {
    for i in 0..count {
        let number = i.to_string(*out.allocator())?;
        add_line(out, command, number.as_bytes())?;
    }
    Ok(())
}

/// Whether this is the change of this index in a plan of `joins` joins and then leaves.
fn is_in_order(change: &Change, index: usize, joins: usize) -> bool {
    match change {
        Change::Join(name) => index < joins && is_numbered(name, index),
        Change::Leave(name) => joins <= index && is_numbered(name, index - joins),
        Change::Lose(_) => false,
    }
}

/// Whether a plan consists of this many joins and then this many leaves, with names in order.
fn are_all(plan: &Plan, joins: usize, leaves: usize) -> bool {
    let lines = changes(plan);
    for (index, change) in lines.iter().enumerate() {
        if !is_in_order(change, index, joins) {
            return false;
        }
    }
    joins <= lines.len() && lines.len() - joins == leaves
}

fn digit(n: usize) -> u8 {
    b'0'.wrapping_add((n % 10) as u8)
}

/// Whether a name is `m` and a number below 1,000, without leading zeros.
fn is_numbered(name: &Name, number: usize) -> bool {
    let text = name.text();
    let digits = [b'm', digit(number / 100), digit(number / 10), digit(number)];
    let front = if number < 10 {
        3
    } else if number < 100 {
        2
    } else {
        1
    };
    text.first() == Some(&b'm') && text[1..] == digits[front..]
}

const CHANGES: &[Parsed<'static>] = &[
    (b"join", b"A"),
    (b"join", b"B-1"),
    (b"leave", b"A"),
    (b"join", b"c_2"),
    (b"lose", b"B-1"),
];

const PLANS: &[Row<'static>] = &[
    (
        b"# x\n\njoin A\r\njoin B-1\n\r\nleave A\njoin c_2\nlose B-1",
        Read::Plan(CHANGES, 3),
    ),
    (
        b"join A\njoin B-1\nleave A\njoin c_2\nlose B-1\n",
        Read::Plan(CHANGES, 3),
    ),
];

const FAULTS: &[Row<'static>] = &[
    (b"", Read::Refused(27, 0)),
    (b"# x\n\n\r\n#", Read::Refused(27, 0)),
    (b"join A\nlose A", Read::Refused(27, 2)),
    (b"join A\nleave A\njoin B", Read::Refused(27, 2)),
    (b"join A\nlose A\njunk", Read::Refused(27, 2)),
    (b"join A\njunk\nlose A", Read::Refused(22, 2)),
    (b"join A\njoin A", Read::Refused(22, 2)),
    (b"leave A", Read::Refused(22, 1)),
    (b"lose A", Read::Refused(22, 1)),
    (b"join A\nleave B", Read::Refused(22, 2)),
    (b"join A\n\n# x\r\n\r\nlose B", Read::Refused(22, 5)),
    (b"join A\njoin B\nlose A\nlose A", Read::Refused(22, 4)),
    (b"join A\njoin B\nleave A\nlose A", Read::Refused(22, 4)),
    (b"join A\njoin B\nleave A\njoin A", Read::Refused(22, 4)),
    (
        b"join A\njoin B\nlose A\nlose B\njoin A",
        Read::Refused(27, 4),
    ),
];

const OTHERS: &[Row<'static>] = &[
    (b"settle", Read::Refused(22, 1)),
    (b"drain", Read::Refused(22, 1)),
    (b"append x", Read::Refused(22, 1)),
    (b"append ", Read::Refused(22, 1)),
    (b"append", Read::Refused(22, 1)),
    (b"poll A 0 1", Read::Refused(22, 1)),
    (b"send A 0", Read::Refused(22, 1)),
    (b"rejoin A", Read::Refused(22, 1)),
    (b"sync A", Read::Refused(22, 1)),
    (b"keep A", Read::Refused(22, 1)),
    (b"return A", Read::Refused(22, 1)),
    (b"deliver 1", Read::Refused(22, 1)),
    (b"unanswered 1", Read::Refused(22, 1)),
    (b"join", Read::Refused(22, 1)),
    (b"join A B", Read::Refused(22, 1)),
    (b"join  A", Read::Refused(22, 1)),
    (b"join A ", Read::Refused(22, 1)),
    (b" join A", Read::Refused(22, 1)),
    (b"join A\r\r", Read::Refused(22, 1)),
    (b"join \xc3\xa4", Read::Refused(22, 1)),
];

#[test]
fn changes_are_read(rt: HostRuntime) {
    assert_eq!(rt; first_other(rt.alloc(), PLANS), None);
}

#[test]
fn the_first_fault_is_reported(rt: HostRuntime) {
    assert_eq!(rt; first_other(rt.alloc(), FAULTS), None);
}

#[test]
fn other_lines_are_refused(rt: HostRuntime) {
    assert_eq!(rt; first_other(rt.alloc(), OTHERS), None);
}

/// Whether a join and a comment of `marks` bytes parse as expected.
fn is_read_commented(alloc: Global, marks: usize, read: &Read<'_>) -> Result<bool, Memory> {
    let script = longer(alloc, b"join A\n", b'#', marks)?;
    Ok(is_read(alloc, &script, read))
}

#[test]
fn a_line_has_256_bytes_at_most(rt: HostRuntime) {
    let longest = is_read_commented(rt.alloc(), 256, &Read::Plan(&[(b"join", b"A")], 1));
    let over = is_read_commented(rt.alloc(), 257, &Read::Refused(22, 2));
    assert_eq!(rt; (longest, over), (Ok(true), Ok(true)));
}

/// Adds 512 joins, `leaves` leaves and a last line.
fn add_all(script: &mut Vec<u8>, leaves: u32, last: &[u8]) -> Result<(), AllocError> {
    add_lines(script, b"join m", 512)?;
    add_lines(script, b"leave m", leaves)?;
    script.extend_from_slice(last)
}

/// A script of these lines.
fn script_of(alloc: Global, leaves: u32, last: &[u8]) -> Result<Vec<u8>, AllocError> {
    let mut script = Vec::new(alloc);
    let done = add_all(&mut script, leaves, last);
    done.and(Ok(script))
}

/// Whether a plan equals its copy.
fn is_copied(alloc: Global, plan: &Plan) -> Result<bool, Refusal> {
    Ok(is_same(plan, &copied(alloc, plan)?))
}

/// Whether a plan consists of 512 joins and then `leaves` leaves, and equals its copy.
fn has_all(alloc: Global, plan: &Plan, leaves: usize) -> Result<bool, Refusal> {
    Ok(members(plan) == 512 && are_all(plan, 512, leaves) && is_copied(alloc, plan)?)
}

/// Whether a script is such a plan.
fn is_plan(alloc: Global, script: &[u8], leaves: usize) -> Result<bool, Refusal> {
    let plan = plan_of(alloc, script)?;
    has_all(alloc, &plan, leaves)
}

/// Whether `leaves` leaves can follow 512 joins.
fn may_leave(alloc: Global, leaves: u32) -> Result<bool, Refusal> {
    let script = script_of(alloc, leaves, b"")?;
    is_plan(alloc, &script, leaves as usize)
}

/// Whether this line after them is refused as expected.
fn is_refused_after(
    alloc: Global,
    leaves: u32,
    last: &[u8],
    expected: &Read<'_>,
) -> Result<bool, Refusal> {
    let script = script_of(alloc, leaves, last)?;
    Ok(is_read(alloc, &script, expected))
}

#[test]
fn at_most_512_join(rt: HostRuntime) {
    let join = may_leave(rt.alloc(), 0);
    let expected = Read::Refused(22, 513);
    let is_refused = is_refused_after(rt.alloc(), 0, b"join m512\n", &expected);
    assert_eq!(rt; (join, is_refused), (Ok(true), Ok(true)));
}

#[test]
fn all_but_one_of_512_leave(rt: HostRuntime) {
    let leave = may_leave(rt.alloc(), 511);
    let expected = Read::Refused(27, 1024);
    let is_refused = is_refused_after(rt.alloc(), 511, b"lose m511\n", &expected);
    assert_eq!(rt; (leave, is_refused), (Ok(true), Ok(true)));
}

const UNLIKE: &[&[u8]] = &[
    b"join A\njoin B\nlose A",
    b"join A\njoin B\nleave B",
    b"join A\njoin C\nleave A",
    b"join B\njoin A\nleave A",
    b"join A\njoin B",
    b"join A\njoin B\nleave A\njoin C",
];

/// Whether two plans differ, compared both ways.
fn are_unlike(plan: &Plan, other: &Plan) -> bool {
    !is_same(plan, other) && !is_same(other, plan)
}

/// Whether a plan differs from that of a script.
fn differs_from(alloc: Global, plan: &Plan, script: &[u8]) -> Result<bool, Refusal> {
    let other = plan_of(alloc, script)?;
    Ok(are_unlike(plan, &other))
}

/// The index of the first of those scripts whose plan does not differ.
fn first_alike(alloc: Global, plan: &Plan) -> Result<Option<usize>, Refusal> {
    for (index, script) in UNLIKE.iter().enumerate() {
        if !differs_from(alloc, plan, script)? {
            return Ok(Some(index));
        }
    }
    Ok(None)
}

/// Whether a plan equals another one, compared both ways, which has these changes.
fn is_like(plan: &Plan, other: &Plan, parsed: &[Parsed<'_>]) -> bool {
    is_same(plan, other) && is_same(other, plan) && has_changes(other, parsed)
}

/// Whether a plan equals its copy, which has these changes.
fn is_like_copy(alloc: Global, plan: &Plan, parsed: &[Parsed<'_>]) -> Result<bool, Refusal> {
    let copy = copied(alloc, plan)?;
    Ok(is_like(plan, &copy, parsed))
}

/// Whether a plan equals itself and its copy, and differs from all of those scripts.
fn is_compared(alloc: Global, plan: &Plan, parsed: &[Parsed<'_>]) -> Result<bool, Refusal> {
    Ok(
        is_same(plan, plan)
            && is_like_copy(alloc, plan, parsed)?
            && first_alike(alloc, plan)?.is_none(),
    )
}

/// The same, for the plan of a script, which has these changes.
fn is_plan_compared(alloc: Global, script: &[u8], parsed: &[Parsed<'_>]) -> Result<bool, Refusal> {
    let plan = plan_of(alloc, script)?;
    is_compared(alloc, &plan, parsed)
}

/// The changes of the plan that is compared with those scripts.
const COMPARED: [Parsed<'static>; 3] = [(b"join", b"A"), (b"join", b"B"), (b"leave", b"A")];

#[test]
fn plans_are_compared(rt: HostRuntime) {
    let is_so = is_plan_compared(rt.alloc(), b"join A\njoin B\nleave A", &COMPARED);
    assert_eq!(rt; is_so, Ok(true));
}
