//! Files and their keys, from RFC 4180 and written by hand.

ghost use Rattle.std.specs.Prelude.{◌≤◌};

use csv_ingest::{Wanted, read_keys};
use lane_words::{Memory, Refusal};
use std::alloc::Global;
use std::test::Fail;

/// The topic names of a file that has topics.
pub const NAMES: [&[u8]; 2] = [b"a", b"b"];

/// How a file is read.
#[derive(Clone, Copy)]
pub struct Reading<'a> {
    /// The delimiter of its fields.
    pub delimiter: u8,
    /// What is taken of each record.
    pub wanted: &'a Wanted<'a>,
    /// Whether that is a topic, too.
    pub has_topics: bool,
    /// Whether there is a header.
    pub header: bool,
}

/// Adds a key and a semicolon to a text; before the key its topic's index as a digit, if the key
/// stands behind one.
pub fn add_item(text: &mut Vec<u8>, item: &[u8], has_topics: bool) -> Result<(), Memory> {
    if has_topics && !item.is_empty() {
        text.push(b'0'.wrapping_add(item[0]))?;
        text.extend_from_slice(&item[1..])?;
    } else {
        text.extend_from_slice(item)?;
    }
    text.push(b';')?;
    Ok(())
}

/// Adds keys to a text.
fn add_items(text: &mut Vec<u8>, items: &Vec<Vec<u8>>, has_topics: bool) -> Result<(), Memory> {
    for i in 0..items.len() {
        add_item(text, items[i].as_slice(), has_topics)?;
    }
    Ok(())
}

/// Keys in one text.
pub fn text_of(alloc: Global, items: &Vec<Vec<u8>>, has_topics: bool) -> Result<Vec<u8>, Memory> {
    let mut text = Vec::new(alloc);
    let added = add_items(&mut text, items, has_topics);
    added.and(Ok(text))
}

/// The keys of a file that is read as a whole, in one text.
pub fn text_whole(alloc: Global, file: &[u8], reading: &Reading<'_>) -> Result<Vec<u8>, Refusal> {
    let keys = read_keys(
        alloc,
        file,
        reading.delimiter,
        reading.wanted,
        reading.header,
    )?;
    Ok(text_of(alloc, &keys, reading.has_topics)?)
}

/// The keys of a column of a file, in one text.
fn text_of_column(
    alloc: Global,
    file: &[u8],
    delimiter: u8,
    column: u32,
    header: bool,
) -> Result<Vec<u8>, Refusal>
    requires { 1 ≤ column }
{
    let reading = Reading {
        delimiter,
        wanted: &Wanted::key(column),
        has_topics: false,
        header,
    };
    text_whole(alloc, file, &reading)
}

/// Files, their delimiter, the column of their keys, whether they have a header, and their keys in
/// one text.
const KEYS: [(&[u8], u8, u32, bool, &[u8]); 8] = [
    (b"a,b\nc,d\n", b',', 1, false, b"a;c;"),
    (b"a,b\r\nc,d", b',', 2, true, b"d;"),
    (b"\"a,\"\"b\",\"\n\"\n", b',', 1, false, b"a,\"b;"),
    (b"only\n", b',', 2, true, b""),
    (b"a,b\tc\nd\te\n", b'\t', 1, false, b"a,b;d;"),
    (b"a|\"b|\"\"\nc\"\r\n|d", b'|', 2, false, b"b|\"\nc;d;"),
    (b"x,\"ycz\nwc\"v\"\n", b'c', 1, false, b"x,\"y;w;"),
    (b"a b\n\nc d\n", b' ', 2, true, b"d;"),
];

/// Whether a file has these keys.
fn has_keys(
    alloc: Global,
    file: &[u8],
    delimiter: u8,
    column: u32,
    header: bool,
    keys: &[u8],
) -> bool {
    if column == 0 {
        return false;
    }
    match text_of_column(alloc, file, delimiter, column, header) {
        Ok(text) => text.as_slice() == keys,
        Err(_) => false,
    }
}

#[test]
fn a_file_has_the_keys_of_its_column(rt: HostRuntime) {
    for (file, delimiter, column, header, keys) in KEYS {
        assert!(rt; has_keys(rt.alloc(), file, delimiter, column, header, keys));
    }
}

/// Files, the column of their keys, whether they have a header, and their first fault.
const FAULTS: [(&[u8], u32, bool, Refusal); 4] = [
    (b"a,b\nc\nd,e\n", 1, false, Refusal::BadCsv { nth: 2 }),
    (b"a,b\nc\n", 3, true, Refusal::BadCsv { nth: 2 }),
    (b"a,b\nc\n", 3, false, Refusal::NoSuchColumn { nth: 1 }),
    (b"a,b\nc,d\n", 3, true, Refusal::NoSuchColumn { nth: 2 }),
];

/// The first fault of a file, if it has one.
fn fault_of(alloc: Global, file: &[u8], column: u32, header: bool) -> Option<Refusal> {
    if column == 0 {
        return None;
    }
    text_of_column(alloc, file, b',', column, header).err()
}

#[test]
fn the_first_invalid_record_is_reported(rt: HostRuntime) {
    for (file, column, header, fault) in FAULTS {
        assert_eq!(rt; fault_of(rt.alloc(), file, column, header), Some(fault));
    }
}

/// The topics and keys of a file whose keys are in the first column, in one text.
fn topics_in(
    alloc: Global,
    file: &[u8],
    topic_column: u32,
    header: bool,
) -> Result<Vec<u8>, Refusal>
    requires { 1 ≤ topic_column }
{
    let reading = Reading {
        delimiter: b',',
        wanted: &Wanted::topic_and_key(1, topic_column, &NAMES),
        has_topics: true,
        header,
    };
    text_whole(alloc, file, &reading)
}

/// Files, the column of their topics, whether they have a header, and their first fault.
const TOPIC_FAULTS: [(&[u8], u32, bool, Refusal); 6] = [
    (b"21,c\n", 2, false, Refusal::NoSuchTopic { nth: 1 }),
    (b"21\n", 2, false, Refusal::NoSuchColumn { nth: 1 }),
    (b"21,c\n", 3, false, Refusal::NoSuchColumn { nth: 1 }),
    (b"1,a\n2\n3,c\n", 2, false, Refusal::BadCsv { nth: 2 }),
    (b"1,a\n2,b,c\n", 2, false, Refusal::BadCsv { nth: 2 }),
    (
        b"key,topic\n2,b\n3, a\n",
        2,
        true,
        Refusal::NoSuchTopic { nth: 3 },
    ),
];

/// The first fault of a file with topics, if it has one.
fn topic_fault_of(alloc: Global, file: &[u8], topic_column: u32, header: bool) -> Option<Refusal> {
    if topic_column == 0 {
        return None;
    }
    topics_in(alloc, file, topic_column, header).err()
}

#[test]
fn a_file_has_its_topics_or_its_first_fault(rt: HostRuntime) -> Result<(), Fail> {
    let file = b"21,a\nabc,b\n21,b\n4,a\n4,b\n";
    let text = topics_in(rt.alloc(), file, 2, false)?;
    assert_eq!(rt; text.as_slice(), b"021;1abc;121;04;14;".as_slice());
    for (file, topic_column, header, fault) in TOPIC_FAULTS {
        assert_eq!(rt;
            topic_fault_of(rt.alloc(), file, topic_column, header),
            Some(fault)
        );
    }
    Ok(())
}
