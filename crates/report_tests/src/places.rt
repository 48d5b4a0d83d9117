//! Tables of places, worked by hand from the partitions of the keys, and devices that fail.

ghost use Rattle.std.specs.Prelude.{◌≡◌, ◌≤◌, ◌<◌, ◌-◌, ◌^◌};
ghost use Rattle.command_line.specs.Options.{IsPlaceInRange};
ghost use Rattle.ingest.specs.Reports.{AreInRange};

use crate::slow::{Drip, Page};
use crate::two_topics::options_of_two;
use crate::{FILE, TOPIC_FILE, options};
use byte_io::{FromRead, FromWrite};
use command_line::{Options, PlaceOptions};
use lane_words::{Memory, Refusal};
use place_report::place_text;
use std::alloc::Global;
use std::io::Write;
use std::process::Abort;
use std::random::RandomSource;
use std::thread::Threads;

const PARTITIONS: PlaceOptions = PlaceOptions {
    keys: false,
    given: None,
};

const KEYS: PlaceOptions = PlaceOptions {
    keys: true,
    given: None,
};

const GIVEN: PlaceOptions = PlaceOptions {
    keys: false,
    given: Some(2),
};

/// The answer of a place of a file with these options, into this writer.
fn placed<R: Threads + Sync + RandomSource, W: Write + Drop>(
    rt: &R,
    alloc: Global,
    file: &[u8],
    options: &Options,
    place: &PlaceOptions,
    writer: W,
) -> Result<bool, Refusal>
    requires options { AreInRange options.now }
    requires place { IsPlaceInRange place.now }
{
    let (mut file, mut sink) = (FromRead::new(file), FromWrite::new(writer));
    place_text(rt, alloc, &mut file, options, place, &mut sink)
}

/// The answer of a place of a file over four partitions, and whether it has written this text.
fn placed_over_four<R: Threads + Sync + RandomSource>(
    rt: &R,
    alloc: Global,
    file: &[u8],
    place: &PlaceOptions,
    wanted: &[u8],
) -> (Result<bool, Refusal>, bool)
    requires { IsPlaceInRange place.now }
{
    let options = options(alloc, 4);
    let mut text = Vec::new(alloc);
    let answer = placed(rt, alloc, file, &options, place, &mut text);
    (answer, text.as_slice() == wanted)
}

const PARTITION_ROWS: &[u8] = b"partition,records,keys,largest,records_of_largest\n\
    0,2,1,21,2\n1,1,1,4,1\n2,1,1,foobar,1\n3,1,1,abc,1\n";

const TOPIC_ROWS: &[u8] = b"topic,partition,records,keys,largest,records_of_largest\n\
    a,0,1,1,21,1\na,1,1,1,4,1\nb,0,2,2,abc,1\nb,1,1,1,4,1\nb,2,0,0,,0\n";

#[test]
fn each_partition_has_a_row(rt: HostRuntime) {
    let placed = placed_over_four(&rt, rt.alloc(), FILE, &PARTITIONS, PARTITION_ROWS);
    assert_eq!(rt; placed, (Ok(false), true));
}

#[test]
fn each_key_has_a_row(rt: HostRuntime) {
    let wanted = b"key,partition,records\n21,0,2\n4,1,1\nfoobar,2,1\nabc,3,1\n";
    let placed = placed_over_four(&rt, rt.alloc(), FILE, &KEYS, wanted);
    assert_eq!(rt; placed, (Ok(false), true));
}

#[test]
fn misplaced_records_have_rows(rt: HostRuntime) {
    let rows: [(&[u8], &[u8], Result<bool, Refusal>); 4] = [
        (
            b"21,0\n4,2\nabc,3\n21,00\n",
            b"record,key,given,place\n2,4,2,1\n4,21,00,0\n",
            Ok(true),
        ),
        (b"21,0\n4,1\n", b"record,key,given,place\n", Ok(false)),
        (FILE, b"", Err(Refusal::NoSuchColumn { nth: 1 })),
        (b"21,0\n4\n", b"", Err(Refusal::BadCsv { nth: 2 })),
    ];
    for (file, wanted, answer) in rows {
        let placed = placed_over_four(&rt, rt.alloc(), file, &GIVEN, wanted);
        assert_eq!(rt; placed, (answer, true));
    }
}

/// The answer of a place of a file of the two topics, and whether it has written this text.
fn placed_in_topics<R: Threads + Sync + RandomSource + Abort>(
    rt: &R,
    alloc: Global,
    place: &PlaceOptions,
    wanted: &[u8],
) -> Result<(Result<bool, Refusal>, bool), Memory>
    requires { IsPlaceInRange place.now }
{
    let options = options_of_two(rt, alloc)?;
    let mut text = Vec::new(alloc);
    let answer = placed(rt, alloc, TOPIC_FILE, &options, place, &mut text);
    Ok((answer, text.as_slice() == wanted))
}

#[test]
fn partitions_of_two_topics_have_rows(rt: HostRuntime) {
    let placed = placed_in_topics(&rt, rt.alloc(), &PARTITIONS, TOPIC_ROWS);
    assert_eq!(rt; placed, Ok((Ok(false), true)));
}

#[test]
fn keys_of_two_topics_have_rows(rt: HostRuntime) {
    let wanted = b"key,topic,partition,records\n21,a,0,1\n21,b,0,1\nabc,b,0,1\n4,a,1,1\n4,b,1,1\n";
    let placed = placed_in_topics(&rt, rt.alloc(), &KEYS, wanted);
    assert_eq!(rt; placed, Ok((Ok(false), true)));
}

/// The answer of a place of the file, read byte by byte up to the read that fails, into this page.
fn placed_slowly<R: Threads + Sync + RandomSource>(
    rt: &R,
    alloc: Global,
    fails_at: usize,
    place: &PlaceOptions,
    page: &mut Page,
) -> Result<bool, Refusal>
    requires place { IsPlaceInRange place.now }
    requires page { page.old.failures < 2 ^ 64 - 1 }
{
    let mut drip = Drip::new(alloc, FILE, fails_at)?;
    let options = options(alloc, 4);
    place_text(rt, alloc, &mut drip, &options, place, page)
}

#[test]
fn a_failed_read_is_reported_and_nothing_is_written(rt: HostRuntime) {
    for place in [PARTITIONS, GIVEN] {
        for fails_at in 0..=FILE.len() {
            let mut page = Page::new(rt.alloc(), 100);
            let answer = placed_slowly(&rt, rt.alloc(), fails_at, &place, &mut page);
            assert_eq!(rt; (answer, page.text.len()), (Err(Refusal::ReadFailed), 0));
        }
    }
}

#[test]
fn a_failed_write_leaves_a_prefix(rt: HostRuntime) {
    let mut page = Page::new(rt.alloc(), 3);
    let answer = placed_slowly(&rt, rt.alloc(), 100, &PARTITIONS, &mut page);
    assert_eq!(rt;
        (answer, page.text.as_slice()),
        (Err(Refusal::WriteFailed), &PARTITION_ROWS[..12])
    );
    let mut page = Page::new(rt.alloc(), 100);
    let answer = placed_slowly(&rt, rt.alloc(), 100, &PARTITIONS, &mut page);
    assert_eq!(rt; (answer, page.text.as_slice()), (Ok(false), PARTITION_ROWS));
}
