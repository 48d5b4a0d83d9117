//! The records of a file, one by one.

ghost use Rattle.std.specs.Prelude.{◌≡◌, IfOk};
ghost use Rattle.csv.specs.Records.{fields_of};
ghost use Rattle.csv_ingest.specs.Pieces.{file_records};
ghost use Rattle.csv_ingest.specs.Records.{ReadsRecords, TakesNext, records_left};

use csv::{ByteRecord, Reader, ReaderBuilder};
use lane_words::Memory;
use std::alloc::Global;
use std::io::Read;

/// Reads the next record, and tells whether there was one.
///
/// A read of bytes that are in memory fails for want of memory alone: the reader takes records of
/// any length, and does not ask whether fields are text.
pub fn next_record<R: Read>(reader: &mut Reader<R>, row: &mut ByteRecord) -> Result<bool, Memory>
    requires { ReadsRecords R.remaining reader.old }
    ensures reads { IfOk result (TakesNext R.remaining reader.old reader.new (fields_of row.new)) }
{
    let Ok(found) = reader.read_byte_record(row) else {
        return Err(Memory);
    };
    Ok(found)
}

/// A reader of the records of a file with this delimiter.
pub fn records_of(alloc: Global, file: &[u8], delimiter: u8) -> Reader<&[u8]>
    ensures reads { ReadsRecords ⟦<&'static [u8] as Read>⟧.remaining result }
    ensures left { records_left ⟦<&'static [u8] as Read>⟧.remaining result
        ≡ file_records delimiter file.now }
{
    ReaderBuilder::new()
        .has_headers(false)
        .flexible(true)
        .delimiter(delimiter)
        .from_reader(alloc, file)
}
