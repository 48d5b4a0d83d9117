//! The records of a file, one by one, and where each begins.

ghost use Rattle.std.specs.Prelude.{◌≡◌, IfOk};
ghost use Rattle.check_report.specs.Private.PlacedRecords.{IsReading, TakesRecord, records_left};
ghost use Rattle.check_report.specs.RecordFindings.{placed};

use crate::places::{Place, Places};
use csv::{ByteRecord, Reader};
use csv_ingest::{next_record, records_of};
use lane_words::Memory;
use std::alloc::Global;

/// The records of a file that were not read yet, and the one read last.
#[derive(Drop)]
pub struct Records<'a> {
    /// Where those that were not read yet begin.
    pub places: Places<'a>,
    /// What reads them.
    pub reader: Reader<&'a [u8]>,
    /// The one read last.
    pub row: ByteRecord,
}

impl<'a> Records<'a> {
    /// All records of a file with this delimiter.
    pub fn of(alloc: Global, file: &'a [u8], delimiter: u8) -> Records<'a>
        ensures reads { IsReading result }
        ensures left { records_left result ≡ placed delimiter file.now }
    {
        Records {
            places: Places::of(file, delimiter),
            reader: records_of(alloc, file, delimiter),
            row: ByteRecord::new(alloc),
        }
    }

    /// Reads the next record and returns its place, if there is one.
    pub fn next(&mut self) -> Result<Option<Place>, Memory>
        requires { IsReading self.old }
        ensures { IfOk result (λ place. TakesRecord self.old self.new place) }
    {
        let Some(place) = self.places.next() else {
            return Ok(None);
        };
        if next_record(&mut self.reader, &mut self.row)? {
            Ok(Some(place))
        } else {
            Ok(None)
        }
    }
}
