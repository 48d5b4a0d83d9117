//! The rows of a count, with RFC 4180 quoting.

use lane_words::{Memory, Refusal};
use partition_log::{LogRead, Logs};
use report_rows::count_rows::{count_rows_text, with_total};
use std::alloc::Global;
use std::random::RandomSource;
use std::thread::Threads;

/// Appends a record of each key.
fn append_each(logs: &mut Logs, keys: &[&[u8]]) -> Result<(), Refusal> {
    for key in keys {
        logs.append(key)?;
    }
    Ok(())
}

/// The number of keys in the logs, and whether this one text is the report of these counts.
fn reported(
    alloc: Global,
    logs: &Logs,
    counts: &[u64],
    wanted: &[u8],
) -> Result<(u32, bool), Memory> {
    let keys = logs.keys();
    if keys as usize != counts.len() {
        return Ok((keys, false));
    }
    let rows = count_rows_text(alloc, logs.dictionary(), counts)?;
    let mut texts = Vec::new(alloc);
    texts.push(rows)?;
    let texts = with_total(alloc, texts, 12, 18)?;
    Ok((keys, texts.len() == 1 && texts[0].as_slice() == wanted))
}

/// The same for new logs with a record of each key.
fn reported_of_keys<R: Threads + Sync + RandomSource>(
    rt: &R,
    alloc: Global,
    keys: &[&[u8]],
    counts: &[u64],
    wanted: &[u8],
) -> Result<(u32, bool), Refusal> {
    let mut logs = Logs::new(rt, alloc, 1)?;
    append_each(&mut logs, keys)?;
    Ok(reported(alloc, &logs, counts, wanted)?)
}

#[test]
fn a_count_is_rows_of_text(rt: HostRuntime) {
    let keys = [b"plain".as_slice(), b"a,\"b", b""];
    let rows = b"count,plain,7\ncount,\"a,\"\"b\",1\ncount,,10\ntotal,12,18\n";
    let reported = reported_of_keys(&rt, rt.alloc(), &keys, &[7, 1, 10], rows);
    assert_eq!(rt; reported, Ok((3, true)));
}
