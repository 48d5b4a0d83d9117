//! The keys of one piece of a file.

ghost use Rattle.std.specs.Prelude.{◌≡◌, ◌∷◌, [], IfOk, IfErr, MatchOption};
ghost use Rattle.csv_ingest.specs.KeyFile.{IsFileFault};
ghost use Rattle.csv_ingest.specs.Pieces.{file_records, piece_keys};
ghost use Rattle.csv_ingest.specs.Private.Pieces.{IsWidthOf};
ghost use Rattle.csv_ingest.specs.Private.Wanted.{taking};
ghost use Rattle.csv_ingest.specs.Sinks.{TakesFound};

use crate::records::{next_record, records_of};
use crate::sink::KeySink;
use crate::wanted::Wanted;
use crate::whole::take_rest;
use csv::ByteRecord;
use lane_words::{Memory, Refusal};
use std::alloc::Global;

/// How many fields the first record of a file has, if it has a record.
pub fn first_width(alloc: Global, file: &[u8], delimiter: u8) -> Result<Option<usize>, Memory>
    ensures { IfOk result (λ found. MatchOption found (file_records delimiter file.now ≡ [])
        (λ width. IsWidthOf width (file_records delimiter file.now))) }
{
    let mut reader = records_of(alloc, file, delimiter);
    let mut row = ByteRecord::new(alloc);
    let found = next_record(&mut reader, &mut row)?;
    if found { Ok(Some(row.len())) } else { Ok(None) }
}

/// Takes the keys of one piece of a file, whose records have to be `width` fields long, and returns
/// how many there are. Of a fault the number counts from the piece's own first record.
pub fn take_piece<K: KeySink>(
    alloc: Global,
    keys: &mut K,
    piece: &[u8],
    delimiter: u8,
    wanted: &Wanted<'_>,
    width: usize,
) -> Result<u64, Refusal>
    ensures keys { TakesFound K.Takes (piece_keys delimiter (taking wanted.now) width piece.now)
        keys.old keys.new result }
    ensures kind { IfErr result IsFileFault }
{
    let mut reader = records_of(alloc, piece, delimiter);
    let mut row = ByteRecord::new(alloc);
    take_rest(keys, &mut reader, &mut row, wanted, width, 1)
}
