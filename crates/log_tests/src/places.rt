//! Partitions from a table of another program, and parallel placement against its reference.

ghost use Rattle.std.specs.Prelude.{◌<◌, IfOk};
ghost use Rattle.partitioner.specs.Place.{AreTopics};

use crate::reference_places;
use partitioner::Partitions;
use std::alloc::Global;
use std::test::Fail;
use std::thread::Threads;

#[test]
fn places_of_the_table(rt: HostRuntime) {
    let table: [(&[u8], u32, u32); 8] = [
        (b"", 1, 1),
        (b"4", 1, 3),
        (b"34", 2, 0),
        (b"1234", 0, 0),
        (b"21", 0, 0),
        (b"abc", 3, 2),
        (b"foobar", 2, 1),
        (&[0xff], 3, 3),
    ];
    for (key, of_four, of_five) in table {
        assert_eq!(rt; Partitions::new(4).place(key), of_four, "{key:?}");
        assert_eq!(rt; Partitions::new(5).place(key), of_five, "{key:?}");
    }
}

#[test]
fn places_all_in_their_order(rt: HostRuntime) -> Result<(), Fail> {
    let keys: [&[u8]; 10] = [
        b"21", b"34", b"21", b"34", b"", b"21", b"34", b"21", b"34", b"21",
    ];
    let places = Partitions::new(4).place_all(&rt, rt.alloc(), &keys)?;
    assert_eq!(rt;
        places.as_slice(),
        [0, 2, 0, 2, 1, 0, 2, 0, 2, 0].as_slice()
    );
    Ok(())
}

#[test]
fn places_in_topics(rt: HostRuntime) -> Result<(), Fail> {
    let partitions = Partitions::with_topics(&[2, 3]);
    let keys: [&[u8]; 5] = [b"21", b"abc", b"21", b"4", b"4"];
    let places = partitions.place_all_in(&rt, rt.alloc(), &[0, 1, 1, 0, 1], &keys)?;
    assert_eq!(rt; places.as_slice(), [0, 2, 2, 1, 3].as_slice());
    assert_eq!(rt; partitions.place_in(1, b"abc"), 2);
    assert_eq!(rt; partitions.place(b"4"), 1);
    assert_eq!(rt; (partitions.topics(), partitions.count()), (2, 5));
    assert!(rt; Partitions::with_topics(&[4]).same(&Partitions::new(4)));
    Ok(())
}

/// Topics assigned in rotation: each of the eight has every eighth key.
fn rotating_topics(alloc: Global, count: usize) -> Result<Vec<u8>, Fail>
    ensures { IfOk result (λ topics. AreTopics 8 count topics.items) }
{
    let mut topics = Vec::with_capacity(alloc, count)?;
    for i in 0..count {
        topics.push((i % 8) as u8)?;
    }
    Ok(topics)
}

#[test]
fn pieces_and_one_by_one_in_topics(rt: HostRuntime) -> Result<(), Fail> {
    let bytes = bytes_of_keys();
    let partitions = Partitions::with_topics(&[1, 2, 500, 4, 512, 3000, 7, 70]);
    for count in [0, 1, 9, 4097, 70_000] {
        let mut keys: Vec<&[u8]> = Vec::new(rt.alloc());
        for i in 0..count {
            keys.push(window(&bytes, i % 199, i / 3 % 70))?;
        }
        let topics = rotating_topics(rt.alloc(), keys.len())?;
        let places = partitions.place_all_in(&rt, rt.alloc(), &topics, &keys)?;
        let plain = reference_places::place_all_in(partitions, rt.alloc(), &topics, &keys)?;
        assert!(rt; places == plain, "{count} keys");
    }
    Ok(())
}

/// Bytes that keys are windows of, some from 0x80 on.
fn bytes_of_keys() -> [u8; 300] {
    let mut bytes = [0; 300];
    for i in 0..bytes.len() {
        bytes[i] = 0x80 ^ (i * 37 % 251) as u8;
    }
    bytes
}

/// One of their windows.
fn window(bytes: &[u8; 300], start: usize, len: usize) -> &[u8]
    requires start { start < 200 }
    requires len { len < 100 }
{
    &bytes[start..start + len]
}

/// Whether keys get the same partitions in parallel batches, in sequential batches, and one by one.
fn are_placed_alike<R: Threads + Sync>(
    rt: &R,
    alloc: Global,
    keys: &[&[u8]],
) -> Result<bool, Fail> {
    let partitions = Partitions::new(4096);
    let places = partitions.place_all(rt, alloc, keys)?;
    let sequential = reference_places::place_sequential(partitions, rt, alloc, keys)?;
    let plain = reference_places::place_all(partitions, alloc, keys)?;
    Ok(places == plain && sequential == plain)
}

#[test]
fn eights_and_one_by_one_of_one_length(rt: HostRuntime) -> Result<(), Fail> {
    let bytes = bytes_of_keys();
    for len in 0..10 {
        for count in [0, 1, 7, 8, 9, 17] {
            let mut keys: Vec<&[u8]> = Vec::new(rt.alloc());
            for i in 0..count {
                keys.push(window(&bytes, i % 200, len))?;
            }
            let alike = are_placed_alike(&rt, rt.alloc(), &keys)?;
            assert!(rt; alike, "{count} keys of {len} bytes");
        }
    }
    Ok(())
}

#[test]
fn eights_and_one_by_one_of_mixed_lengths(rt: HostRuntime) -> Result<(), Fail> {
    let bytes = bytes_of_keys();
    for count in [2047, 2048, 2049, 4095, 4096, 4097, 10_000, 70_000] {
        let mut keys: Vec<&[u8]> = Vec::new(rt.alloc());
        for i in 0..count {
            keys.push(window(&bytes, i % 199, i / 3 % 70))?;
        }
        let alike = are_placed_alike(&rt, rt.alloc(), &keys)?;
        assert!(rt; alike, "{count} keys");
    }
    Ok(())
}
