//! Logs of several topics, against an outside source.

use lane_words::Refusal;
use partition_log::{LogRead, Logs};
use std::test::Fail;

fn append_in(logs: &mut Logs, topic: u8, key: &[u8]) -> Result<(u32, u32), Refusal> {
    if (topic as usize) < logs.topics() {
        logs.append_in(topic, key)
    } else {
        Err(Refusal::NoSuchTopic { nth: 0 })
    }
}

/// The key numbers of a log, if there is one.
fn ids(logs: &Logs, p: u32) -> &[u32] {
    if p < logs.partitions() {
        logs.ids(p, 0, logs.len(p))
    } else {
        &[]
    }
}

/// Topics and keys, each with the partition and the offset of its record in two topics with two and
/// three partitions.
const APPENDS: [(u8, &[u8], u32, u32); 6] = [
    (0, b"21", 0, 0),
    (1, b"abc", 2, 0),
    (1, b"21", 2, 1),
    (0, b"4", 1, 0),
    (1, b"4", 3, 0),
    (1, b"abc", 2, 2),
];

/// The key numbers of each log after those appends.
const NUMBERS: [(u32, &[u32]); 5] = [(0, &[0]), (1, &[2]), (2, &[1, 0, 1]), (3, &[2]), (4, &[])];

/// The first of those appends that goes to another partition or offset.
fn first_other(logs: &mut Logs) -> Option<usize> {
    for (index, (topic, key, place, offset)) in APPENDS.iter().enumerate() {
        if append_in(logs, *topic, key) != Ok((*place, *offset)) {
            return Some(index);
        }
    }
    None
}

/// Whether logs have those three keys, with those numbers in each log.
fn are_interned(logs: &Logs) -> bool {
    for (p, numbers) in &NUMBERS {
        if ids(logs, *p) != *numbers {
            return false;
        }
    }
    logs.keys() == 3
}

/// Whether logs of those two topics number keys over both, and append to the first if none is
/// named.
fn number_over_all(logs: &mut Logs) -> bool {
    logs.topics() == 2
        && logs.partitions() == 5
        && first_other(logs).is_none()
        && are_interned(logs)
        && logs.append(b"4") == Ok((1, 1))
}

#[test]
fn keys_have_one_number_in_all_topics(rt: HostRuntime) -> Result<(), Fail> {
    let mut logs = Logs::with_topics(&rt, rt.alloc(), &[2, 3])?;
    assert!(rt; number_over_all(&mut logs));
    Ok(())
}
