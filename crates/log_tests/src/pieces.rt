//! Files read in pieces compared with files read as a whole.

ghost use Rattle.std.specs.Prelude.{◌≡◌, ◌≤◌, false};
ghost use Rattle.csv_ingest.specs.Stand.{is_line_end};

use crate::drawn::{Random, rows, scraps, topic_rows};
use crate::files::{NAMES, Reading, add_item, text_of, text_whole};
use csv_ingest::{
    KeySink, Sizes, Wanted, is_plain, pieces_of, read_keys, take_chunk, width_behind,
};
use key_counts::{KeyCounter, KeyCounts};
use lane_words::{Memory, Refusal};
use std::alloc::Global;
use std::hash::RandomState;
use std::random::RandomSource;
use std::test::Fail;

/// Numbers of pieces that a file is read in.
const COUNTS: [usize; 4] = [0, 1, 2, 5];

/// The text of a file, or its fault.
type Text = Result<Vec<u8>, Refusal>;

/// A fault of a record before which there are `earlier` records more.
fn later(fault: Refusal, earlier: u64) -> Refusal {
    match fault {
        Refusal::BadCsv { nth } => Refusal::BadCsv {
            nth: nth.wrapping_add(earlier),
        },
        Refusal::NoSuchColumn { nth } => Refusal::NoSuchColumn {
            nth: nth.wrapping_add(earlier),
        },
        Refusal::NoSuchTopic { nth } => Refusal::NoSuchTopic {
            nth: nth.wrapping_add(earlier),
        },
        other => other,
    }
}

/// Takes the keys of pieces of a file, one piece after another.
fn take_pieces<K: KeySink>(
    alloc: Global,
    keys: &mut K,
    pieces: &[&[u8]],
    reading: &Reading<'_>,
) -> Result<(), Refusal> {
    let mut width = None;
    let mut earlier = 0_u64;
    for i in 0..pieces.len() {
        let Reading {
            delimiter,
            wanted,
            header,
            ..
        } = *reading;
        match take_chunk(alloc, keys, pieces[i], delimiter, wanted, header, width) {
            Ok(taken) => earlier = earlier.wrapping_add(taken),
            Err(fault) => return Err(later(fault, earlier)),
        }
        let behind = width_behind(alloc, pieces[i], delimiter, width)?;
        if header && width.is_none() && behind.is_some() {
            earlier = earlier.wrapping_add(1);
        }
        width = behind;
    }
    Ok(())
}

/// A file in so many pieces of one length.
fn pieces_in<'f>(
    alloc: Global,
    file: &'f [u8],
    delimiter: u8,
    count: usize,
) -> Result<Vec<&'f [u8]>, Memory>
    requires { is_line_end delimiter ≡ false }
{
    let sizes = Sizes {
        most: count,
        step: file.len() / count.max(1),
        left: 0,
    };
    pieces_of(alloc, file, delimiter, sizes, is_plain(file))
}

/// The keys of a file that is read in so many pieces, in one text.
fn text_in_pieces(
    alloc: Global,
    file: &[u8],
    reading: &Reading<'_>,
    count: usize,
) -> Result<Vec<u8>, Refusal>
    requires { is_line_end reading.now.delimiter ≡ false }
{
    let pieces = pieces_in(alloc, file, reading.delimiter, count)?;
    let mut keys: Vec<Vec<u8>> = Vec::new(alloc);
    take_pieces(alloc, &mut keys, pieces.as_slice(), reading)?;
    Ok(text_of(alloc, &keys, reading.has_topics)?)
}

/// Adds the keys of records that were counted to a text.
fn add_records(text: &mut Vec<u8>, counts: &KeyCounts, has_topics: bool) -> Result<(), Memory> {
    let codes = counts.codes();
    for i in 0..codes.len() {
        let code = codes[i] as usize;
        if code < counts.len() {
            add_item(text, counts.key(code), has_topics)?;
        }
    }
    Ok(())
}

/// The keys of records that were counted, in one text.
fn text_of_records(alloc: Global, counts: &KeyCounts, has_topics: bool) -> Result<Vec<u8>, Memory> {
    let mut text = Vec::new(alloc);
    let added = add_records(&mut text, counts, has_topics);
    added.and(Ok(text))
}

/// Counts the keys of pieces of a file.
fn count_pieces(
    alloc: Global,
    counter: &mut KeyCounter,
    pieces: &[&[u8]],
    reading: &Reading<'_>,
) -> Result<(), Refusal> {
    take_pieces(alloc, counter, pieces, reading)?;
    Ok(counter.settle()?)
}

/// The keys of a file that are counted as it is read in so many pieces, in one text.
fn text_of_counted(
    alloc: Global,
    hasher: RandomState,
    file: &[u8],
    reading: &Reading<'_>,
    count: usize,
) -> Result<Vec<u8>, Refusal>
    requires { is_line_end reading.now.delimiter ≡ false }
{
    let pieces = pieces_in(alloc, file, reading.delimiter, count)?;
    let mut counter = KeyCounter::new(alloc, hasher, true)?;
    count_pieces(alloc, &mut counter, pieces.as_slice(), reading)?;
    let counts = counter.into_counts();
    Ok(text_of_records(alloc, &counts, reading.has_topics)?)
}

/// Whether a file has the same keys, or the same fault, when read as a whole and in these numbers of
/// pieces, kept and counted.
fn are_keys_same(
    rt: &impl RandomSource,
    alloc: Global,
    file: &[u8],
    reading: &Reading<'_>,
    counts: &[usize],
) -> bool
    requires { is_line_end reading.now.delimiter ≡ false }
{
    let Ok(hasher) = RandomState::new(rt) else {
        return false;
    };
    let whole = text_whole(alloc, file, reading);
    for count in counts.iter().copied() {
        if text_in_pieces(alloc, file, reading, count) != whole
            || text_of_counted(alloc, hasher, file, reading, count) != whole
        {
            return false;
        }
    }
    true
}

/// The same, of the keys of a column.
fn is_column_same(
    rt: &impl RandomSource,
    alloc: Global,
    file: &[u8],
    delimiter: u8,
    column: u32,
    header: bool,
    counts: &[usize],
) -> bool
    requires delimiter { is_line_end delimiter ≡ false }
    requires column { 1 ≤ column }
{
    let reading = Reading {
        delimiter,
        wanted: &Wanted::key(column),
        has_topics: false,
        header,
    };
    are_keys_same(rt, alloc, file, &reading, counts)
}

/// The delimiter of a file: a comma, or a byte that its fields have, too.
fn delimiter_of(n: u64) -> u8
    ensures { is_line_end result ≡ false }
{
    match n {
        0 => b',',
        1 => b'a',
        _ => b'c',
    }
}

#[test]
fn any_bytes_are_read_alike_in_pieces(rt: HostRuntime) -> Result<(), Fail> {
    let mut random = Random { state: 1 };
    for _ in 0..60 {
        let file = scraps(rt.alloc(), &mut random)?;
        let column = 1 + random.below(2) as u32;
        let header = random.below(2) == 0;
        let delimiter = delimiter_of(random.below(3));
        assert!(rt; is_column_same(&rt, rt.alloc(), &file, delimiter, column, header, &COUNTS));
    }
    Ok(())
}

#[test]
fn a_fault_in_any_piece_is_reported_alike(rt: HostRuntime) -> Result<(), Fail> {
    let mut random = Random { state: 2 };
    for _ in 0..60 {
        let file = rows(rt.alloc(), &mut random)?;
        let column = 1 + random.below(3) as u32;
        let header = random.below(2) == 0;
        let delimiter = delimiter_of(random.below(3));
        assert!(rt; is_column_same(&rt, rt.alloc(), &file, delimiter, column, header, &COUNTS));
    }
    Ok(())
}

/// Adds a record whose key is 70,000 times this byte, and a short one.
fn add_long_key(file: &mut Vec<u8>, byte: u8) -> Result<(), Memory> {
    file.push(b'"')?;
    for _ in 0..70_000 {
        file.push(byte)?;
    }
    file.extend_from_slice(b"\",b\nc,d\n")?;
    Ok(())
}

/// A file of three long keys.
fn long_keys(alloc: Global) -> Result<Vec<u8>, Memory> {
    let mut file = Vec::new(alloc);
    for byte in [b'a', b'\n', b','] {
        add_long_key(&mut file, byte)?;
    }
    Ok(file)
}

#[test]
fn long_keys_are_read_alike_in_pieces(rt: HostRuntime) -> Result<(), Fail> {
    let file = long_keys(rt.alloc())?;
    assert!(rt; is_column_same(&rt, rt.alloc(), &file, b',', 1, false, &COUNTS));
    Ok(())
}

/// Adds record i, which has a line feed in its key.
fn add_record(file: &mut Vec<u8>, i: u64) -> Result<(), Memory> {
    file.extend_from_slice(b"7,\"key\n")?;
    for power in [1, 10, 100, 1000, 10_000] {
        file.push(b'0'.wrapping_add((i / power % 10) as u8))?;
    }
    file.extend_from_slice(b"\"\r\n")?;
    Ok(())
}

/// A file of this many records.
fn file_of(alloc: Global, records: u64) -> Result<Vec<u8>, Memory> {
    let mut file = Vec::new(alloc);
    for i in 0..records {
        add_record(&mut file, i)?;
    }
    Ok(file)
}

/// How many keys a file has in its second column below its header.
fn keys_in(alloc: Global, file: &[u8]) -> Result<usize, Refusal> {
    let keys = read_keys(alloc, file, b',', &Wanted::key(2), true)?;
    Ok(keys.len())
}

#[test]
fn a_file_of_a_few_mebibytes_has_all_keys(rt: HostRuntime) -> Result<(), Fail> {
    let file = file_of(rt.alloc(), 200_000)?;
    assert!(rt; file.len() > 2 << 20);
    assert_eq!(rt; keys_in(rt.alloc(), &file), Ok(199_999));
    assert!(rt; is_column_same(&rt, rt.alloc(), &file, b',', 2, true, &[3]));
    Ok(())
}

/// The text of keys, each behind the index of its topic, from columns that were read separately.
fn add_columns(
    text: &mut Vec<u8>,
    topics: &Vec<Vec<u8>>,
    keys: &Vec<Vec<u8>>,
    header: bool,
) -> Result<(), Refusal> {
    let mut nth = if header { 2_u64 } else { 1 };
    for i in 0..topics.len().min(keys.len()) {
        let digit = match topics[i].as_slice() {
            b"a" => b'0',
            b"b" => b'1',
            _ => return Err(Refusal::NoSuchTopic { nth }),
        };
        if text.push(digit).is_err() {
            return Err(Refusal::Memory);
        }
        add_item(text, keys[i].as_slice(), false)?;
        nth = nth.wrapping_add(1);
    }
    Ok(())
}

/// Those topics and keys in one text.
fn text_of_columns(
    alloc: Global,
    topics: &Vec<Vec<u8>>,
    keys: &Vec<Vec<u8>>,
    header: bool,
) -> Text {
    let mut text = Vec::new(alloc);
    let added = add_columns(&mut text, topics, keys, header);
    added.and(Ok(text))
}

/// Whether a file has this text, or this fault, if each of its two columns can be read, and
/// otherwise some fault.
fn has_text_of_columns(alloc: Global, file: &[u8], column: u32, header: bool, whole: &Text) -> bool
    requires { 1 ≤ column }
{
    match (
        read_keys(alloc, file, b',', &Wanted::key(2), header),
        read_keys(alloc, file, b',', &Wanted::key(column), header),
    ) {
        (Ok(topics), Ok(keys)) => text_of_columns(alloc, &topics, &keys, header) == *whole,
        _ => whole.is_err(),
    }
}

/// Whether a file has the same topics and keys, or the same fault, when read as a whole, in pieces,
/// and as both columns have them.
fn are_topics_same(
    rt: &impl RandomSource,
    alloc: Global,
    file: &[u8],
    column: u32,
    header: bool,
) -> bool
    requires { 1 ≤ column }
{
    let reading = Reading {
        delimiter: b',',
        wanted: &Wanted::topic_and_key(column, 2, &NAMES),
        has_topics: true,
        header,
    };
    let whole = text_whole(alloc, file, &reading);
    are_keys_same(rt, alloc, file, &reading, &COUNTS)
        && has_text_of_columns(alloc, file, column, header, &whole)
}

#[test]
fn topics_are_read_alike_in_pieces(rt: HostRuntime) -> Result<(), Fail> {
    let mut random = Random { state: 3 };
    for _ in 0..60 {
        let file = topic_rows(rt.alloc(), &mut random)?;
        let column = 1 + random.below(3) as u32;
        let header = random.below(2) == 0;
        assert!(rt; are_topics_same(&rt, rt.alloc(), &file, column, header));
    }
    Ok(())
}
