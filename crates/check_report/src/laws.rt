//! Laws of the places of records.

ghost use Rattle.std.specs.Prelude.{◌≡◌, IfSome, List, ℕ, map, slice_get};
ghost use Rattle.csv_ingest.specs.Pieces.{file_records};
ghost use Rattle.check_report.specs.Places.{IsPlaceOf};
ghost use Rattle.check_report.specs.RecordFindings.{placed};

/// Each record of a file has a place, and nothing else has one.
pub fn a_place_a_record()
    ensures { (delimiter : ℕ) (file : List ℕ)
        → map (λ at. at.1) (placed delimiter file) ≡ file_records delimiter file }
{}

/// The place of a record is where it begins: the bytes before are those of the records before it,
/// and the bytes from there on those of this and the later ones.
pub fn records_begin_at_their_places()
    ensures { (delimiter i : ℕ) (file : List ℕ)
        → IfSome (slice_get (placed delimiter file) i) (λ at. IsPlaceOf delimiter file i at.0) }
{}
