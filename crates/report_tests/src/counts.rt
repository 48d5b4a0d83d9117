//! Counts worked by hand, over devices that transfer a few bytes at a time, and that fail.

ghost use Rattle.std.specs.Prelude.{◌≡◌, ◌≤◌, ◌<◌, ◌-◌, ◌^◌};
ghost use Rattle.ingest.specs.Reports.{AreInRange};

use crate::slow::{Drip, Page};
use crate::two_topics::options_of_two;
use crate::{FILE, TOPIC_FILE, options};
use byte_io::{FromRead, FromWrite};
use command_line::{Column, Options};
use count_report::count_text;
use itoa::Buffer;
use lane_words::{MOST_PARTITIONS, Memory, Refusal};
use std::alloc::Global;
use std::io::Write;
use std::process::Abort;
use std::random::RandomSource;
use std::test::Fail;
use std::thread::Threads;

const TOPIC_TEXT: &[u8] = b"count,21,2\ncount,abc,1\ncount,4,2\ntotal,5,5\n";

const TEXT: &[u8] = b"count,21,2\ncount,4,1\ncount,foobar,1\ncount,abc,1\ntotal,5,5\n";

// Each count is called in a function without a contract that owns little. An assertion is proved
// over the contracts of all the calls before it, together with the drops of what is owned.

/// The answer of a count of a file with these options, into this writer.
fn counted<R: Threads + Sync + RandomSource, W: Write + Drop>(
    rt: &R,
    alloc: Global,
    file: &[u8],
    options: &Options,
    writer: W,
) -> Result<(), Refusal>
    requires { AreInRange options.now }
{
    let (mut file, mut sink) = (FromRead::new(file), FromWrite::new(writer));
    count_text(rt, alloc, &mut file, options, &mut sink)
}

/// The answer of a count of a file without topics, with this many partitions, into this text.
fn counted_over<R: Threads + Sync + RandomSource>(
    rt: &R,
    alloc: Global,
    file: &[u8],
    partitions: u32,
    text: &mut [u8],
) -> Result<(), Refusal>
    requires { (1 ≤ partitions) × (partitions ≤ MOST_PARTITIONS) }
{
    let options = options(alloc, partitions);
    counted(rt, alloc, file, &options, text)
}

#[test]
fn a_file_is_counted_whatever_the_partitions(rt: HostRuntime) {
    for partitions in [1, 4, 5, 4096] {
        let mut text = [0u8; TEXT.len()];
        let answer = counted_over(&rt, rt.alloc(), FILE, partitions, text.as_mut_slice());
        assert_eq!(rt; (answer, text.as_slice()), (Ok(()), TEXT));
    }
}

/// The answer of a count of a file with the two topics, and whether it has written this text.
fn counted_in_topics<R: Threads + Sync + RandomSource + Abort>(
    rt: &R,
    alloc: Global,
    file: &[u8],
    wanted: &[u8],
) -> Result<(Result<(), Refusal>, bool), Memory> {
    let options = options_of_two(rt, alloc)?;
    let mut text = Vec::new(alloc);
    let answer = counted(rt, alloc, file, &options, &mut text);
    Ok((answer, text.as_slice() == wanted))
}

#[test]
fn a_file_of_two_topics_is_counted(rt: HostRuntime) {
    let rows: [(&[u8], &[u8], Result<(), Refusal>); 4] = [
        (TOPIC_FILE, TOPIC_TEXT, Ok(())),
        (b"21,c\n", b"", Err(Refusal::NoSuchTopic { nth: 1 })),
        (b"21,a\n21\n", b"", Err(Refusal::BadCsv { nth: 2 })),
        (b"21\n", b"", Err(Refusal::NoSuchColumn { nth: 1 })),
    ];
    for (file, wanted, answer) in rows {
        let counted = counted_in_topics(&rt, rt.alloc(), file, wanted);
        assert_eq!(rt; counted, Ok((answer, true)));
    }
}

/// The answer of a count of which at most so many keys are listed, and whether it has written this
/// text.
fn counted_to_top<R: Threads + Sync + RandomSource>(
    rt: &R,
    alloc: Global,
    file: &[u8],
    most: u32,
    wanted: &[u8],
) -> (Result<(), Refusal>, bool)
    requires { 1 ≤ most }
{
    let mut options = options(alloc, 4);
    options.top = Some(most);
    let mut text = Vec::new(alloc);
    let answer = counted(rt, alloc, file, &options, &mut text);
    (answer, text.as_slice() == wanted)
}

#[test]
fn of_equal_counts_the_first_key_is_listed_first(rt: HostRuntime) {
    const TIES: &[u8] = b"c\nb\na\na\nb\nd\n";
    const ALL: &[u8] = b"count,b,2\ncount,a,2\ncount,c,1\ncount,d,1\ntotal,6,6\n";
    let rows: [(&[u8], u32, &[u8]); 5] = [
        (TIES, 1, b"count,b,2\ntotal,6,6\n"),
        (TIES, 3, b"count,b,2\ncount,a,2\ncount,c,1\ntotal,6,6\n"),
        (TIES, 4, ALL),
        (TIES, u32::MAX, ALL),
        (b"", 1, b"total,0,0\n"),
    ];
    for (file, most, wanted) in rows {
        let counted = counted_to_top(&rt, rt.alloc(), file, most, wanted);
        assert_eq!(rt; counted, (Ok(()), true));
    }
}

/// The answer of a count of the column with this name, and whether it has written this text.
fn counted_by_name<R: Threads + Sync + RandomSource>(
    rt: &R,
    alloc: Global,
    file: &[u8],
    name: &[u8],
    wanted: &[u8],
) -> Result<(Result<(), Refusal>, bool), Memory> {
    let mut options = options(alloc, 4);
    options.header = true;
    options.column = Column::Named(Vec::from_slice(alloc, name)?);
    let mut text = Vec::new(alloc);
    let answer = counted(rt, alloc, file, &options, &mut text);
    Ok((answer, text.as_slice() == wanted))
}

#[test]
fn a_name_is_looked_up_in_the_header(rt: HostRuntime) {
    const FILE: &[u8] = b"\xef\xbb\xbf\r\nid,\"a \"\"b\"\"\",id,\r\n1,x,2,\r\n1,y,3,z\r\n";
    let lacks = Err(Refusal::NoSuchColumn { nth: 1 });
    let rows: [(&[u8], &[u8], &[u8], Result<(), Refusal>); 9] = [
        (FILE, b"id", b"count,1,2\ntotal,2,2\n", Ok(())),
        (
            FILE,
            b"a \"b\"",
            b"count,x,1\ncount,y,1\ntotal,2,2\n",
            Ok(()),
        ),
        (FILE, b"", b"count,,1\ncount,z,1\ntotal,2,2\n", Ok(())),
        (FILE, b"ID", b"", lacks),
        (FILE, b"1", b"", lacks),
        (b"a,b\n1\n", b"c", b"", lacks),
        (b"a,b\n1\n", b"b", b"", Err(Refusal::BadCsv { nth: 2 })),
        (b"h\n", b"h", b"total,0,0\n", Ok(())),
        (b"\n\n", b"h", b"total,0,0\n", Ok(())),
    ];
    for (file, name, wanted, answer) in rows {
        let counted = counted_by_name(&rt, rt.alloc(), file, name, wanted);
        assert_eq!(rt; counted, Ok((answer, true)));
    }
}

/// The same of the two topics, whose column has this name.
fn counted_by_topic_name<R: Threads + Sync + RandomSource + Abort>(
    rt: &R,
    alloc: Global,
    file: &[u8],
    name: &[u8],
    wanted: &[u8],
) -> Result<(Result<(), Refusal>, bool), Memory> {
    let mut options = options_of_two(rt, alloc)?;
    options.header = true;
    options.topic_column = Column::Named(Vec::from_slice(alloc, name)?);
    let mut text = Vec::new(alloc);
    let answer = counted(rt, alloc, file, &options, &mut text);
    Ok((answer, text.as_slice() == wanted))
}

#[test]
fn the_topic_has_a_column_with_a_name(rt: HostRuntime) {
    const FILE: &[u8] = b"key,x,topic\n21,c,a\n4,c,b\n";
    let rows: [(&[u8], &[u8], Result<(), Refusal>); 3] = [
        (b"topic", b"count,21,1\ncount,4,1\ntotal,2,2\n", Ok(())),
        (b"x", b"", Err(Refusal::NoSuchTopic { nth: 2 })),
        (b"y", b"", Err(Refusal::NoSuchColumn { nth: 1 })),
    ];
    for (name, wanted, answer) in rows {
        let counted = counted_by_topic_name(&rt, rt.alloc(), FILE, name, wanted);
        assert_eq!(rt; counted, Ok((answer, true)));
    }
}

/// The answer of a count of the file, read byte by byte up to the read that fails, into this page.
fn counted_slowly<R: Threads + Sync + RandomSource>(
    rt: &R,
    alloc: Global,
    fails_at: usize,
    page: &mut Page,
) -> Result<(), Refusal>
    requires { page.old.failures < 2 ^ 64 - 1 }
{
    let mut drip = Drip::new(alloc, FILE, fails_at)?;
    let options = options(alloc, 4);
    count_text(rt, alloc, &mut drip, &options, page)
}

#[test]
fn a_failed_read_is_reported_and_nothing_is_written(rt: HostRuntime) {
    for fails_at in 0..=FILE.len() {
        let mut page = Page::new(rt.alloc(), 100);
        let answer = counted_slowly(&rt, rt.alloc(), fails_at, &mut page);
        assert_eq!(rt; (answer, page.text.len()), (Err(Refusal::ReadFailed), 0));
    }
    let mut page = Page::new(rt.alloc(), 100);
    let answer = counted_slowly(&rt, rt.alloc(), 100, &mut page);
    assert_eq!(rt; (answer, page.text.as_slice()), (Ok(()), TEXT));
}

/// A number of writes before one fails, the answer, and the prefix of the text that is written.
fn beginning(calls: u8) -> (Result<(), Refusal>, &'static [u8]) {
    let taken = (4 * usize::from(calls)).min(TEXT.len());
    if taken == TEXT.len() {
        (Ok(()), TEXT)
    } else {
        (Err(Refusal::WriteFailed), &TEXT[..taken])
    }
}

#[test]
fn a_failed_write_leaves_a_prefix(rt: HostRuntime) {
    for calls in 0..=20_u8 {
        let mut page = Page::new(rt.alloc(), u64::from(calls));
        let answer = counted_slowly(&rt, rt.alloc(), 100, &mut page);
        assert_eq!(rt; (answer, page.text.as_slice()), beginning(calls));
    }
}

/// Appends a number in decimal between these two texts.
fn add(text: &mut Vec<u8>, before: &[u8], number: u32, after: &[u8]) -> Result<(), Memory> {
    let mut digits = Buffer::new();
    text.extend_from_slice(before)?;
    text.extend_from_slice(digits.format(number).as_bytes())?;
    text.extend_from_slice(after)?;
    Ok(())
}

/// Appends 300000 records of 200000 keys.
fn add_records(file: &mut Vec<u8>) -> Result<(), Memory> {
    for i in 0..300_000_u32 {
        add(file, b"", i % 200_000, b",some more text\n")?;
    }
    Ok(())
}

/// Appends the rows of their count.
fn add_rows(text: &mut Vec<u8>) -> Result<(), Memory> {
    for i in 0..200_000_u32 {
        let count = if i < 100_000 { b",2\n" } else { b",1\n" };
        add(text, b"count,", i, count)?;
    }
    text.extend_from_slice(b"total,300000,300000\n")?;
    Ok(())
}

/// The answer of a count of a file with those records, into this text.
fn records_counted<R: Threads + Sync + RandomSource>(
    rt: &R,
    alloc: Global,
    text: &mut [u8],
) -> Result<(), Refusal> {
    let mut file = Vec::new(alloc);
    add_records(&mut file)?;
    counted_over(rt, alloc, file.as_slice(), 4096, text)
}

/// Whether a text begins with the rows of their count, and the byte after them.
fn begins_with_rows(alloc: Global, text: &[u8]) -> Result<(bool, Option<u8>), Memory> {
    let mut rows = Vec::new(alloc);
    add_rows(&mut rows)?;
    Ok((
        text.starts_with(rows.as_slice()),
        text.get(rows.len()).copied(),
    ))
}

#[test]
fn a_file_of_a_few_megabytes_is_counted(rt: HostRuntime) -> Result<(), Fail> {
    let mut text = vec![in rt.alloc(); 0_u8; 8 << 20]?;
    let answer = records_counted(&rt, rt.alloc(), text.as_mut_slice());
    let begins = begins_with_rows(rt.alloc(), text.as_slice());
    assert_eq!(rt; (answer, begins), (Ok(()), Ok((true, Some(0)))));
    Ok(())
}
