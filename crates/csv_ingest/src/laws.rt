//! Laws of files that are read in pieces, and of where records begin.

ghost use Rattle.std.specs.Prelude.{◌≡◌, ◌≢◌, ◌+◌, ◌++◌, ◌∷◌, [], false, Bool, IfSome, List, ℕ, Ok, All, flat_map, length, map, slice_get};
ghost use Rattle.csv.specs.Reading.{records, strip_bom};
ghost use Rattle.csv_ingest.specs.KeyFile.{Record, Taking, dialect, keys_from, taken_of};
ghost use Rattle.csv_ingest.specs.Pieces.{ArePieces, file_records, joined, later_keys, piece_keys, then_keys};
ghost use Rattle.csv_ingest.specs.Rounds.{IsSplitPoint, chunk_keys, width_of};
ghost use Rattle.csv_ingest.specs.Stand.{IsCut, in_quotes, is_line_end, stand_after};
ghost use Rattle.csv_ingest.specs.Starts.{BeginsAt, starts};
ghost use Rattle.csv_ingest.specs.declared.stand.Stand.{Stand};
ghost use Rattle.csv_ingest.specs.declared.stand.Stand.TheVariants as stand;

/// Behind a line feed, where no double quote stands before it, a file can be cut.
pub fn cut_without_quotes()
    ensures { (delimiter : ℕ) (a b : List ℕ) → is_line_end delimiter ≡ false → All (λ c. c ≢ 34) a
        → records (dialect delimiter) ((a ++ 10 ∷ []) ++ b)
        ≡ records (dialect delimiter) (a ++ 10 ∷ []) ++ records (dialect delimiter) b }
{}

/// Behind bytes after which a reader is at the start of a record, a file can be cut.
pub fn cut_behind_a_record()
    ensures { (delimiter : ℕ) (a b : List ℕ) → stand_after delimiter stand.Record a ≡ stand.Record
        → records (dialect delimiter) (a ++ b)
        ≡ records (dialect delimiter) a ++ records (dialect delimiter) b }
{}

/// Before a line feed that ends a record, a file can be cut.
pub fn cut_before_a_line_feed()
    ensures { (delimiter : ℕ) (a b : List ℕ) → IsCut delimiter a
        → records (dialect delimiter) (a ++ 10 ∷ b)
        ≡ records (dialect delimiter) a ++ records (dialect delimiter) (10 ∷ b) }
{}

/// The same of files, from which a byte order mark is dropped: each piece is then a file of its
/// own, and no piece but the first has a mark to drop.
pub fn cut_file()
    ensures { (delimiter : ℕ) (a b : List ℕ) → IsCut delimiter (strip_bom a)
        → file_records delimiter (a ++ 10 ∷ b)
        ≡ file_records delimiter a ++ file_records delimiter (10 ∷ b) }
{}

/// A line feed that no quotes protect ends a record.
pub fn line_feed_ends_a_record()
    ensures { (delimiter : ℕ) (s : Stand) (a : List ℕ) → is_line_end delimiter ≡ false
        → in_quotes (stand_after delimiter s a) ≡ false
        → stand_after delimiter s (a ++ 10 ∷ []) ≡ stand.Record }
{}

/// Where a reader stands after two texts.
pub fn stand_after_two()
    ensures { (delimiter : ℕ) (s : Stand) (a b : List ℕ)
        → stand_after delimiter s (a ++ b) ≡ stand_after delimiter (stand_after delimiter s a) b }
{}

/// Without a double quote nothing comes to stand in quotes.
pub fn outside_without_quotes()
    ensures { (delimiter : ℕ) (s : Stand) (a : List ℕ) → All (λ c. c ≢ 34) a
        → in_quotes s ≡ false → in_quotes (stand_after delimiter s a) ≡ false }
{}

/// The keys of two lists of records: those of the first, and then those of the second, whose
/// numbers go on.
pub fn keys_of_two_pieces()
    ensures { (wanted : Taking) (width nth : ℕ) (xs ys : List Record)
        → keys_from wanted width nth (xs ++ ys)
        ≡ then_keys (keys_from wanted width nth xs) (keys_from wanted width (nth + length xs) ys) }
{}

/// Where records have no fault, there are as many keys.
pub fn a_key_a_record()
    ensures { (wanted : Taking) (width nth : ℕ) (xs : List Record) (keys : List (List ℕ))
        → keys_from wanted width nth xs ≡ Ok keys → length keys ≡ length xs }
{}

/// Records that stand later have the same keys, and their faults later numbers.
pub fn keys_later()
    ensures { (wanted : Taking) (width nth earlier : ℕ) (xs : List Record)
        → keys_from wanted width (nth + earlier) xs
        ≡ later_keys earlier (keys_from wanted width nth xs) }
{}

/// A file in pieces has the records of its pieces.
pub fn records_of_pieces()
    ensures { (delimiter : ℕ) (file : List ℕ) (pieces : List (List ℕ))
        → ArePieces delimiter file pieces
        → file_records delimiter file ≡ flat_map (file_records delimiter) pieces }
{}

/// The keys of a file in pieces, of which the first has a record: those of the first piece, and
/// then those of the others, whose records all have the length of the very first one, and whose
/// faults count on.
pub fn keys_of_pieces()
    ensures { (delimiter : ℕ) (wanted : Taking) (header : Bool) (file piece : List ℕ)
        (pieces : List (List ℕ)) (first : Record) (more : List Record)
        → ArePieces delimiter file (piece ∷ pieces) → file_records delimiter piece ≡ first ∷ more
        → taken_of delimiter wanted header file
        ≡ then_keys (taken_of delimiter wanted header piece)
        (joined (length (first ∷ more)) (map (piece_keys delimiter wanted (length first)) pieces)) }
{}

/// The keys of a file that is split in two: those of the first part, and then those of the second,
/// whose faults count on.
pub fn keys_of_two_chunks()
    ensures { (delimiter : ℕ) (wanted : Taking) (header : Bool) (read chunk : List ℕ)
        → IsSplitPoint delimiter read chunk
        → taken_of delimiter wanted header (read ++ chunk)
        ≡ then_keys (taken_of delimiter wanted header read)
        (later_keys (length (file_records delimiter read))
        (chunk_keys delimiter wanted header (width_of (file_records delimiter read)) chunk)) }
{}

/// A file has a start for each record.
pub fn a_start_a_record()
    ensures { (delimiter : ℕ) (file : List ℕ)
        → length (starts delimiter file) ≡ length (file_records delimiter file) }
{}

/// At each start the record of this number begins.
pub fn records_begin_at_starts()
    ensures { (delimiter i : ℕ) (file : List ℕ)
        → IfSome (slice_get (starts delimiter file) i) (BeginsAt delimiter file i) }
{}
