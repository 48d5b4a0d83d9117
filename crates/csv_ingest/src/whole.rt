//! The keys of a file that is read in one piece.

ghost use Rattle.std.specs.Prelude.{◌≡◌, ◌+◌, ◌<◌, ◌^◌, ◌⊎◌, Ok, Err, IfOk, IfErr, OnOk, map, vec_items};
ghost use Rattle.csv.specs.Records.{fields_of};
ghost use Rattle.csv_ingest.specs.KeyFile.{IsFileFault, keys_from, keys_of_records, taken_of};
ghost use Rattle.csv_ingest.specs.Private.KeyFile.{IsFaultAt};
ghost use Rattle.csv_ingest.specs.Private.Sinks.{TakesRecord};
ghost use Rattle.csv_ingest.specs.Private.Wanted.{taking};
ghost use Rattle.csv_ingest.specs.Records.{ReadsRecords, records_left};
ghost use Rattle.csv_ingest.specs.Sinks.{TakesFound};
ghost use Rattle.lane_words.specs.declared.Refusal.TheVariants as refusal;

use crate::records::{next_record, records_of};
use crate::sink::KeySink;
use crate::wanted::{Wanted, lack_at};
use csv::{ByteRecord, Reader};
use lane_words::Refusal;
use std::alloc::Global;
use std::io::Read;

/// Takes the key of record number nth, which has to be as long as the first.
pub fn take_record<K: KeySink>(
    keys: &mut K,
    row: &ByteRecord,
    wanted: &Wanted<'_>,
    width: usize,
    nth: u64,
) -> Result<(), Refusal>
    ensures ok { OnOk result
        (TakesRecord K.Takes (taking wanted.now) width keys.old keys.new (fields_of row.now)) }
    ensures kind { IfErr result IsFileFault }
    ensures fault { IfErr result
        (λ e. (e ≡ refusal.Memory)
        ⊎ IsFaultAt (taking wanted.now) width nth (fields_of row.now) e) }
{
    if row.len() != width {
        return Err(Refusal::BadCsv { nth });
    }
    match wanted.of(row) {
        Ok(taken) => Ok(keys.take(taken.topic, taken.key)?),
        Err(lack) => Err(lack_at(nth, lack)),
    }
}

/// Takes the keys of the records that are left, which are numbered from this one on and have to be
/// `width` fields long, and returns how many there are.
///
/// It owns nothing, as `take_all`: who owns the keys, the reader and the row returns in few places.
pub fn take_rest<K: KeySink>(
    keys: &mut K,
    reader: &mut Reader<&[u8]>,
    row: &mut ByteRecord,
    wanted: &Wanted<'_>,
    width: usize,
    from: u64,
) -> Result<u64, Refusal>
    requires reads { ReadsRecords ⟦<&'static [u8] as Read>⟧.remaining reader.old }
    ensures keys { TakesFound K.Takes (keys_from (taking wanted.now) width from
        (records_left ⟦<&'static [u8] as Read>⟧.remaining reader.old)) keys.old keys.new result }
    ensures kind { IfErr result IsFileFault }
    ensures bound { IfOk result (λ n. from + n < 2 ^ 64) }
{
    for nth in from..u64::MAX {
        let Ok(found) = next_record(reader, row) else {
            return Err(Refusal::Memory);
        };
        if !found {
            return Ok(nth - from);
        }
        take_record(keys, row, wanted, width, nth)?;
    }
    Err(Refusal::Memory)
}

/// Takes the keys of all records, which are as long as the first, and returns how many there are.
fn take_all<K: KeySink>(
    keys: &mut K,
    reader: &mut Reader<&[u8]>,
    row: &mut ByteRecord,
    wanted: &Wanted<'_>,
    header: bool,
) -> Result<u64, Refusal>
    requires reads { ReadsRecords ⟦<&'static [u8] as Read>⟧.remaining reader.old }
    ensures keys { TakesFound K.Takes (keys_of_records (taking wanted.now) header
        (records_left ⟦<&'static [u8] as Read>⟧.remaining reader.old)) keys.old keys.new result }
    ensures kind { IfErr result IsFileFault }
{
    let Ok(found) = next_record(reader, row) else {
        return Err(Refusal::Memory);
    };
    if !found {
        return Ok(0);
    }
    let width = row.len();
    if header {
        return take_rest(keys, reader, row, wanted, width, 2);
    }
    take_record(keys, row, wanted, width, 1)?;
    let rest = take_rest(keys, reader, row, wanted, width, 2)?;
    Ok(rest + 1)
}

/// Takes the keys of the records of a file, as `read_keys` has them, and returns how many there
/// are.
pub fn take_file<K: KeySink>(
    alloc: Global,
    keys: &mut K,
    file: &[u8],
    delimiter: u8,
    wanted: &Wanted<'_>,
    header: bool,
) -> Result<u64, Refusal>
    ensures keys { TakesFound K.Takes (taken_of delimiter (taking wanted.now) header file.now)
        keys.old keys.new result }
    ensures kind { IfErr result IsFileFault }
{
    let mut reader = records_of(alloc, file, delimiter);
    let mut row = ByteRecord::new(alloc);
    take_all(keys, &mut reader, &mut row, wanted, header)
}

/// What is taken of the records of a file with this delimiter, in their order: of each its key,
/// behind the index of its topic where the file has topics.
///
/// Columns are counted from 1, and so are records, a header among them. The header is the first
/// record, and is dropped before its column is looked at. A record of another length than the first
/// is refused with `BadCsv`, whatever its columns, one that lacks a column with `NoSuchColumn`, then
/// one whose topic has none of the names with `NoSuchTopic`, and only a refused growth with
/// `Memory`.
pub fn read_keys(
    alloc: Global,
    file: &[u8],
    delimiter: u8,
    wanted: &Wanted<'_>,
    header: bool,
) -> Result<Vec<Vec<u8>>, Refusal>
    ensures keys { IfOk result (λ keys. taken_of delimiter (taking wanted.now) header file.now
        ≡ Ok (map vec_items keys.items)) }
    ensures kind { IfErr result IsFileFault }
    ensures fault { IfErr result
        (λ e. (e ≡ refusal.Memory)
        ⊎ (taken_of delimiter (taking wanted.now) header file.now ≡ Err e)) }
{
    let mut keys = Vec::new(alloc);
    match take_file(alloc, &mut keys, file, delimiter, wanted, header) {
        Ok(_) => Ok(keys),
        Err(fault) => Err(fault),
    }
}
