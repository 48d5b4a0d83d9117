//! Each call once with ample memory, over keys whose partitions among four are known from outside.

ghost use Rattle.std.specs.Prelude.{◌≤◌};

use lane_words::{LAST_GENERATION, MOST_PARTITIONS, MOST_RECORDS, Memory, Refusal};
use partition_log::{LogRead, Logs, SealedLogs};
use std::alloc::Global;
use std::random::RandomSource;
use std::test::Fail;
use std::thread::Threads;

// Wrappers without contracts: a test of many calls would otherwise be proved over the contracts of
// all of them. And whoever owns logs makes few calls, since each `?` is proved together with the
// drops of everything that is owned there.

fn append(logs: &mut Logs, key: &[u8]) -> Result<(u32, u32), Refusal> {
    logs.append(key)
}

fn append_each(logs: &mut Logs, keys: &[&[u8]]) -> Result<(), Refusal> {
    for key in keys {
        append(logs, key)?;
    }
    Ok(())
}

/// Sealed logs of four partitions with records of these keys.
fn sealed_of(rt: &impl RandomSource, alloc: Global, keys: &[&[u8]]) -> Result<SealedLogs, Refusal> {
    let mut logs = Logs::new(rt, alloc, 4)?;
    append_each(&mut logs, keys)?;
    Ok(logs.seal())
}

fn is_key<L: LogRead>(logs: &L, number: u32, key: &[u8]) -> bool {
    number < logs.keys() && logs.key(number) == key
}

fn is_length<L: LogRead>(logs: &L, p: u32, records: u32) -> bool {
    p < logs.partitions() && logs.len(p) == records
}

fn are_ids<L: LogRead>(logs: &L, p: u32, ids: &[u32]) -> bool {
    p < logs.partitions() && logs.ids(p, 0, logs.len(p)) == ids
}

/// Whether a key goes to this partition, and its record gets this offset there.
fn comes_to(logs: &mut Logs, key: &[u8], place: u32, offset: u32) -> bool {
    logs.place_of(key) == place && append(logs, key) == Ok((place, offset))
}

/// Whether logs have the keys and the key numbers of those five records.
fn are_of_five(logs: &Logs) -> bool {
    let ids: [(u32, &[u32]); 4] = [(0, &[0, 0]), (1, &[1]), (2, &[2]), (3, &[3])];
    logs.keys() == 4
        && is_key(logs, 0, b"21")
        && is_key(logs, 3, b"abc")
        && ids.iter().all(|(p, numbers)| are_ids(logs, *p, numbers))
}

/// Those records, each with its partition and its offset there.
const FIVE: [(&[u8], u32, u32); 5] = [
    (b"21", 0, 0),
    (b"4", 1, 0),
    (b"foobar", 2, 0),
    (b"abc", 3, 0),
    (b"21", 0, 1),
];

/// Whether logs of four partitions accept them.
fn takes_five(logs: &mut Logs) -> bool {
    for (key, place, offset) in &FIVE {
        if !comes_to(logs, key, *place, *offset) {
            return false;
        }
    }
    logs.partitions() == 4 && are_of_five(logs)
}

#[test]
fn appends_in_order_of_place(rt: HostRuntime) -> Result<(), Fail> {
    let mut logs = Logs::new(&rt, rt.alloc(), 4)?;
    assert!(rt; takes_five(&mut logs));
    Ok(())
}

/// Whether a copy has a third record of the first key, and the original does not.
fn are_copied(sealed: &SealedLogs, copy: &Logs, second: &[u8]) -> bool {
    sealed.partitions() == 4
        && copy.partitions() == 4
        && is_length(sealed, 0, 2)
        && is_length(copy, 0, 3)
        && sealed.keys() == 2
        && copy.keys() == 2
        && is_key(sealed, 1, second)
        && is_key(copy, 1, second)
        && are_ids(sealed, 0, &[0, 0])
}

/// Whether a third record of the first key goes to its partition.
fn takes_third(logs: &mut Logs) -> bool {
    append(logs, b"21") == Ok((0, 2))
}

/// Whether a copy accepts a third record of the first key, and the original stays as it is.
fn copy_takes<R: Threads + Sync + RandomSource>(
    rt: &R,
    sealed: &SealedLogs,
    alloc: Global,
    second: &[u8],
) -> Result<bool, Refusal> {
    let mut copy = sealed.copy(rt, alloc)?;
    Ok(takes_third(&mut copy) && are_copied(sealed, &copy, second))
}

/// A key that is not stored inline.
const LONG: &[u8] = b"a key of more than 22 bytes";

#[test]
fn a_copy_of_sealed_logs_numbers_keys_as_they_do(rt: HostRuntime) -> Result<(), Fail> {
    let sealed = sealed_of(&rt, rt.alloc(), &[b"21", LONG, b"21"])?;
    assert_eq!(rt; copy_takes(&rt, &sealed, rt.alloc(), LONG), Ok(true));
    Ok(())
}

/// Appends records of these keys of one byte.
fn append_bytes(logs: &mut Logs, keys: &[u8]) -> Result<(), Refusal> {
    for key in keys {
        append(logs, &[*key])?;
    }
    Ok(())
}

/// Logs of this many partitions with records of these one-byte keys.
fn logs_of(
    rt: &impl RandomSource,
    alloc: Global,
    partitions: u32,
    keys: &[u8],
) -> Result<Logs, Refusal>
    requires { (1 ≤ partitions) × (partitions ≤ MOST_PARTITIONS) }
{
    let mut logs = Logs::new(rt, alloc, partitions)?;
    append_bytes(&mut logs, keys)?;
    Ok(logs)
}

/// Whether sealed logs of these keys in one partition equal these logs.
fn is_same_sealed<R: Threads + Sync + RandomSource>(
    rt: &R,
    alloc: Global,
    keys: &[u8],
    logs: &Logs,
) -> Result<bool, Refusal> {
    let sealed = logs_of(rt, alloc, 1, keys)?.seal();
    Ok(sealed.same(rt, logs))
}

/// Whether logs of these keys in one partition equal logs of the other keys in this many.
fn are_same<R: Threads + Sync + RandomSource>(
    rt: &R,
    alloc: Global,
    keys: &[u8],
    partitions: u32,
    others: &[u8],
) -> Result<bool, Refusal>
    requires { (1 ≤ partitions) × (partitions ≤ MOST_PARTITIONS) }
{
    let logs = logs_of(rt, alloc, partitions, others)?;
    is_same_sealed(rt, alloc, keys, &logs)
}

/// The same records; then one more record, another key, the keys in another order, other records of
/// the same keys.
const PAIRS: [(&[u8], &[u8], bool); 5] = [
    (b"aba", b"aba", true),
    (b"aba", b"abaa", false),
    (b"aba", b"aca", false),
    (b"aba", b"bab", false),
    (b"aba", b"abb", false),
];

#[test]
fn same_detects_differences(rt: HostRuntime) {
    for (keys, others, same) in &PAIRS {
        assert_eq!(rt;
            are_same(&rt, rt.alloc(), keys, 1, others),
            Ok(*same),
            "{others:?}"
        );
    }
    // Another number of partitions.
    assert_eq!(rt; are_same(&rt, rt.alloc(), b"", 2, b""), Ok(false));
}

/// Whether the longest key and the shortest are accepted, and a longer one is not.
fn takes_longest(logs: &mut Logs, longest: &[u8], longer: &[u8]) -> bool {
    append(logs, longest) == Ok((0, 0))
        && append(logs, longer) == Err(Refusal::KeyTooLong)
        && append(logs, b"") == Ok((0, 1))
        && logs.keys() == 2
        && is_key(logs, 0, longest)
        && is_key(logs, 1, b"")
}

/// Whether they accept all bytes but the last of a key, and not all.
fn takes_all_but_one(logs: &mut Logs, longer: &[u8]) -> bool {
    match longer.split_last() {
        Some((_, longest)) => takes_longest(logs, longest, longer),
        None => false,
    }
}

/// Whether new logs of one partition do.
fn new_takes_longest(rt: &impl RandomSource, alloc: Global, longer: &[u8]) -> Result<bool, Memory> {
    let mut logs = Logs::new(rt, alloc, 1)?;
    Ok(takes_all_but_one(&mut logs, longer))
}

#[test]
fn takes_keys_up_to_the_longest(rt: HostRuntime) -> Result<(), Fail> {
    let bytes = vec![in rt.alloc(); 0xff_u8; 65_536]?;
    assert_eq!(rt; new_takes_longest(&rt, rt.alloc(), &bytes), Ok(true));
    Ok(())
}

/// Contracts read these limits from the code, and no test is long enough to meet them.
#[test]
fn limits_that_no_test_meets(rt: HostRuntime) {
    assert_eq!(rt; MOST_RECORDS, 4_294_967_295);
    assert_eq!(rt; LAST_GENERATION, 4_294_967_295);
}

/// Sealed logs of the largest number of partitions, with records of ten thousand keys.
fn many_sealed(rt: &impl RandomSource, alloc: Global) -> Result<SealedLogs, Refusal> {
    let mut logs = Logs::new(rt, alloc, MOST_PARTITIONS)?;
    append_numbers(&mut logs, 10_000)?;
    Ok(logs.seal())
}

/// Appends records of the numbers below this one.
fn append_numbers(logs: &mut Logs, records: u32) -> Result<(), Refusal> {
    for i in 0..records {
        append(logs, &i.to_le_bytes())?;
    }
    Ok(())
}

/// Whether logs equal others until those have one more record.
fn is_same_till_a_record<R: Threads + Sync>(rt: &R, sealed: &SealedLogs, other: &mut Logs) -> bool {
    sealed.same(rt, other) && append(other, &[0; 4]).is_ok() && !sealed.same(rt, other)
}

/// Whether logs equal a copy of them until it has one more record.
fn are_same_till_a_record<R: Threads + Sync + RandomSource>(
    rt: &R,
    alloc: Global,
    sealed: &SealedLogs,
) -> Result<bool, Refusal> {
    let mut copy = sealed.copy(rt, alloc)?;
    Ok(is_same_till_a_record(rt, sealed, &mut copy))
}

#[test]
fn same_over_as_many_logs_as_there_may_be(rt: HostRuntime) -> Result<(), Fail> {
    let sealed = many_sealed(&rt, rt.alloc())?;
    assert_eq!(rt; are_same_till_a_record(&rt, rt.alloc(), &sealed), Ok(true));
    Ok(())
}

/// Whether there are as many logs as allowed, all of them empty.
fn are_all_empty(logs: &Logs) -> bool {
    logs.partitions() == MOST_PARTITIONS && (0..MOST_PARTITIONS).all(|p| is_length(logs, p, 0))
}

#[test]
fn makes_as_many_logs_as_there_may_be(rt: HostRuntime) -> Result<(), Fail> {
    let logs = Logs::new(&rt, rt.alloc(), MOST_PARTITIONS)?;
    assert!(rt; are_all_empty(&logs));
    Ok(())
}

/// The number of records in a log, if there is one.
fn length<L: LogRead>(logs: &L, p: u32) -> u32 {
    if p < logs.partitions() {
        logs.len(p)
    } else {
        0
    }
}

/// Whether a short key is appended, and then a long one with the same number to the partition it
/// goes to.
fn takes_two(logs: &mut Logs, number: u32) -> bool {
    let mut long = [0_u8; 30];
    long[..4].copy_from_slice(&number.to_le_bytes());
    let place = logs.place_of(&long);
    let short = append(logs, &number.to_le_bytes());
    let at = append(logs, &long);
    short.is_ok() && at.is_ok_and(|at| at.0 == place)
}

/// Whether logs accept 70,000 keys twice, and one more record of the first.
fn takes_many(logs: &mut Logs) -> bool {
    for i in 0..70_000_u32 {
        if !takes_two(logs, i) {
            return false;
        }
    }
    append(logs, &[0; 4]).is_ok() && logs.keys() == 140_000
}

/// Whether logs have those keys and records.
fn has_many(logs: &Logs) -> bool {
    let (first, second) = (length(logs, 0), length(logs, 1));
    logs.keys() == 140_000
        && logs.partitions() == 2
        && u64::from(first) + u64::from(second) == 140_001
        && first > 65_536
        && second > 65_536
        && is_key(logs, 139_998, &69_999_u32.to_le_bytes())
}

/// Whether new logs of two partitions accept all that, and what their sealed form holds.
fn many_taken(rt: &impl RandomSource, alloc: Global) -> Result<(bool, SealedLogs), Memory> {
    let mut logs = Logs::new(rt, alloc, 2)?;
    let are_taken = takes_many(&mut logs);
    Ok((are_taken, logs.seal()))
}

/// Whether a copy has them.
fn copy_has_many<R: Threads + Sync + RandomSource>(
    rt: &R,
    alloc: Global,
    sealed: &SealedLogs,
) -> Result<bool, Refusal> {
    Ok(has_many(&sealed.copy(rt, alloc)?))
}

#[test]
fn takes_and_copies_more_records_and_keys_than_16_bits_number(rt: HostRuntime) -> Result<(), Fail> {
    let (are_taken, sealed) = many_taken(&rt, rt.alloc())?;
    let are_copied = copy_has_many(&rt, rt.alloc(), &sealed);
    assert_eq!(rt; (are_taken, are_copied), (true, Ok(true)));
    Ok(())
}
