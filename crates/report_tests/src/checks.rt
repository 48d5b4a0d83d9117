//! What is found in files and scripts, worked by hand, and devices that fail.

ghost use Rattle.std.specs.Prelude.{◌≤◌, ◌<◌, ◌-◌, ◌^◌};
ghost use Rattle.command_line.specs.Options.{IsCheckInRange};

use crate::options;
use crate::slow::{Drip, Page};
use byte_io::{FromRead, FromWrite};
use check_report::{check_both_text, check_text};
use command_line::CheckOptions;
use lane_words::Refusal;
use std::alloc::Global;

const SCRIPT: CheckOptions = CheckOptions {
    plan: false,
    most: 20,
};

const PLAN: CheckOptions = CheckOptions {
    plan: true,
    most: 20,
};

/// A file whose second record is too short.
const SHORT: &[u8] = b"21,a\n4\n";

const SHORT_ROWS: &[u8] = b"input,code,record,line,byte,problem\n\
    file,24,2,2,5,\"1 field, the first record has 2\"\n";

/// The answer of a check of a file, and whether it has written this text.
fn checked(alloc: Global, file: &[u8], wanted: &[u8]) -> (Result<bool, Refusal>, bool) {
    let options = options(alloc, 4);
    let mut text = Vec::new(alloc);
    let (mut file, mut sink) = (FromRead::new(file), FromWrite::new(&mut text));
    let answer = check_text(alloc, &mut file, &options, &SCRIPT, &mut sink);
    (answer, text.as_slice() == wanted)
}

/// The same of a good file and a script.
fn checked_both(
    alloc: Global,
    script: &[u8],
    check: &CheckOptions,
    wanted: &[u8],
) -> (Result<bool, Refusal>, bool)
    requires { IsCheckInRange check.now }
{
    let options = options(alloc, 4);
    let mut text = Vec::new(alloc);
    let file: &[u8] = b"21\n";
    let (mut file, mut script) = (FromRead::new(file), FromRead::new(script));
    let mut sink = FromWrite::new(&mut text);
    let answer = check_both_text(alloc, &mut file, &mut script, &options, check, &mut sink);
    (answer, text.as_slice() == wanted)
}

#[test]
fn a_bad_record_has_a_row(rt: HostRuntime) {
    assert_eq!(rt; checked(rt.alloc(), SHORT, SHORT_ROWS), (Ok(true), true));
}

#[test]
fn a_warning_is_no_fault(rt: HostRuntime) {
    let wanted = b"input,code,record,line,byte,problem\nfile,,,,,the file is empty\n";
    assert_eq!(rt; checked(rt.alloc(), b"", wanted), (Ok(false), true));
}

#[test]
fn a_bad_line_has_a_row(rt: HostRuntime) {
    let wanted = b"input,code,record,line,byte,problem\n\
        script,22,,2,7,no such line: 'jion B'; did you mean 'join NAME'?\n";
    let checked = checked_both(rt.alloc(), b"join A\njion B\n", &SCRIPT, wanted);
    assert_eq!(rt; checked, (Ok(true), true));
}

#[test]
fn a_line_that_leaves_nobody_has_a_row(rt: HostRuntime) {
    let wanted = b"input,code,record,line,byte,problem\n\
        script,27,,2,7,nobody is present after this line\n";
    let checked = checked_both(rt.alloc(), b"join A\nlose A\n", &PLAN, wanted);
    assert_eq!(rt; checked, (Ok(true), true));
}

/// The answer of a check of the file, read byte by byte up to the read that fails, into this page.
fn checked_slowly(alloc: Global, fails_at: usize, page: &mut Page) -> Result<bool, Refusal>
    requires { page.old.failures < 2 ^ 64 - 1 }
{
    let mut drip = Drip::new(alloc, SHORT, fails_at)?;
    let options = options(alloc, 4);
    check_text(alloc, &mut drip, &options, &SCRIPT, page)
}

#[test]
fn a_failed_read_is_reported_and_nothing_is_written(rt: HostRuntime) {
    for fails_at in 0..=SHORT.len() {
        let mut page = Page::new(rt.alloc(), 100);
        let answer = checked_slowly(rt.alloc(), fails_at, &mut page);
        assert_eq!(rt; (answer, page.text.len()), (Err(Refusal::ReadFailed), 0));
    }
}

#[test]
fn a_failed_write_leaves_a_prefix(rt: HostRuntime) {
    let mut page = Page::new(rt.alloc(), 3);
    let answer = checked_slowly(rt.alloc(), 100, &mut page);
    assert_eq!(rt;
        (answer, page.text.as_slice()),
        (Err(Refusal::WriteFailed), &SHORT_ROWS[..12])
    );
}
