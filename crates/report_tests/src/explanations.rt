//! Codes with their refusals, and what is explained of them.

use crate::slow::Page;
use lane_words::Refusal;
use report_cli::{explain_text, refusal_with_code};
use std::alloc::Global;

/// Numbers, with a refusal that has them.
const CODES: [(u32, Option<Refusal>); 12] = [
    (0, None),
    (1, Some(Refusal::UnknownMember)),
    (10, Some(Refusal::NotOwner)),
    (11, Some(Refusal::OffsetMismatch { committed: 0 })),
    (22, Some(Refusal::BadLine { line: 0 })),
    (32, Some(Refusal::NoSuchTopic { nth: 0 })),
    (33, Some(Refusal::NotKept)),
    (34, None),
    (89, None),
    (90, Some(Refusal::Memory)),
    (91, None),
    (u32::MAX, None),
];

#[test]
fn codes_have_their_refusals(rt: HostRuntime) {
    for (code, refusal) in &CODES {
        assert_eq!(rt; refusal_with_code(*code), *refusal);
    }
}

/// Refusals to explain, or none for the list, with how the text begins and ends.
const TEXTS: [(Option<Refusal>, &[u8], &[u8]); 3] = [
    (
        Some(Refusal::NotOwner),
        b"10 NotOwner: the partition is not granted to the member\n\nJobs: ",
        b"the broker does not check who owns the partition.\n",
    ),
    (
        Some(Refusal::BadLine { line: 7 }),
        b"22 BadLine: line N is not a valid script line",
        b"Remedy:  The help of the job lists the valid lines.\n",
    ),
    (
        None,
        b"1 UnknownMember: the member is not in the group\n2 StaleGeneration: ",
        b"\n90 Memory: out of memory, or a thread could not be started\n",
    ),
];

/// The answer of a page of this many writes, and whether its text begins and ends like this.
fn explained(
    alloc: Global,
    refusal: Option<Refusal>,
    calls: u64,
    begin: &[u8],
    end: &[u8],
) -> (Result<(), Refusal>, bool, u64) {
    let mut page = Page::new(alloc, calls);
    let answer = explain_text(alloc, refusal, &mut page);
    let text = page.text.as_slice();
    let is_between = text.starts_with(begin) && text.ends_with(end);
    (answer, is_between, page.failures)
}

#[test]
fn a_refusal_is_explained(rt: HostRuntime) {
    for (refusal, begin, end) in &TEXTS {
        let reported = explained(rt.alloc(), *refusal, 10_000, begin, end);
        assert_eq!(rt; reported, (Ok(()), true, 0));
    }
}

#[test]
fn a_failed_write_of_an_explanation_is_reported(rt: HostRuntime) {
    let refusal = Some(Refusal::NotOwner);
    let reported = explained(rt.alloc(), refusal, 3, b"10 NotOwner:", b"10 NotOwner:");
    assert_eq!(rt; reported, (Err(Refusal::WriteFailed), true, 1));
}
