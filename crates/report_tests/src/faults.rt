//! The lines and the exit statuses of faults, as users see them.

use crate::slow::Page;
use lane_words::Refusal;
use report_cli::{fault_line, status};
use std::alloc::Global;

/// Faults, with their lines and statuses.
const FAULTS: [(Refusal, &[u8], u8); 9] = [
    (Refusal::KeyTooLong, b"fault 20\n", 1),
    (Refusal::BadLine { line: 1 }, b"fault 22 at line 1\n", 1),
    (
        Refusal::NoSuchColumn { nth: 10 },
        b"fault 23 at record 10\n",
        1,
    ),
    (Refusal::BadCsv { nth: 2 }, b"fault 24 at record 2\n", 1),
    (
        Refusal::NobodyLeft { line: u64::MAX },
        b"fault 27 at line 18446744073709551615\n",
        1,
    ),
    (
        Refusal::NoSuchTopic { nth: 6 },
        b"fault 32 at record 6\n",
        1,
    ),
    (Refusal::UnknownMember, b"fault 1\n", 3),
    (Refusal::NotKept, b"fault 33\n", 3),
    (Refusal::Memory, b"fault 90\n", 3),
];

/// The answer of a page of this many writes to the line of a fault, whether it then has this text,
/// and its number of failures.
fn written(
    alloc: Global,
    fault: &Refusal,
    calls: u64,
    text: &[u8],
) -> (Result<(), Refusal>, bool, u64) {
    let mut page = Page::new(alloc, calls);
    let answer = fault_line(fault, &mut page);
    (answer, page.text.as_slice() == text, page.failures)
}

#[test]
fn a_fault_has_its_line_and_status(rt: HostRuntime) {
    for (fault, line, code) in &FAULTS {
        let reported = (written(rt.alloc(), fault, 100, line), status(fault));
        assert_eq!(rt; reported, ((Ok(()), true, 0), *code));
    }
}

#[test]
fn a_failed_write_of_a_line_is_reported(rt: HostRuntime) {
    let reported = written(rt.alloc(), &Refusal::BadLine { line: 7 }, 2, b"fault 22");
    assert_eq!(rt; reported, (Err(Refusal::WriteFailed), true, 1));
}
