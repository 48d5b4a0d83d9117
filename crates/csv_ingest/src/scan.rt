//! The keys of a piece, scanned field by field. `csv` says what its fields are; of all but one of
//! each record nothing is wanted here but the end.

ghost use Rattle.std.specs.Prelude.{◌≡◌, ◌≢◌, ◌≤◌, ◌<◌, ◌+◌, ◌-◌, ◌^◌, ◌⊎◌, ◌∷◌, ◌++◌, [], ℕ, IfErr, IfOk, List, Ok, OnOk, Err, get_or, length, slice_range, true, false};
ghost use Rattle.csv.specs.declared.parser.State.TheVariants as st;
ghost use Rattle.csv_ingest.specs.KeyFile.{IsFileFault, Record, key_in, taken_of};
ghost use Rattle.csv_ingest.specs.Pieces.{bom_length, file_records, piece_keys};
ghost use Rattle.csv_ingest.specs.Private.FieldEnds.{AreEnds};
ghost use Rattle.csv_ingest.specs.Private.Fields.{EndsField, IsRow, IsWhole, ReadsField, ReadsKey, ReadsRow, kept, key_of};
ghost use Rattle.csv_ingest.specs.Private.Pieces.{IsWidthOf};
ghost use Rattle.csv_ingest.specs.Private.KeyFile.{IsFaultAt};
ghost use Rattle.csv_ingest.specs.Private.Wanted.{taking};
ghost use Rattle.csv_ingest.specs.Sinks.{TakesFound};
ghost use Rattle.lane_words.specs.declared.Refusal.TheVariants as refusal;

use crate::byte_search::find_quote;
use crate::cuts::mark_length;
use crate::field_ends::FieldEnds;
use crate::piece::take_piece;
use crate::sink::KeySink;
use crate::stand::is_line_end;
use crate::wanted::Wanted;
use crate::whole::take_file;
use lane_words::{Memory, Refusal};
use std::alloc::Global;

/// Whether there is this byte here.
fn is_at(text: &[u8], at: usize, byte: u8) -> bool
    ensures if_true { result ≡ true → (at < length text.now) × (get_or text.now at 0 ≡ byte) }
    ensures if_false { result ≡ false → at < length text.now → get_or text.now at 0 ≡ byte → ⊥ }
{
    at < text.len() && text[at] == byte
}

/// Where a field that goes on here without quotes ends.
#[inline(always)]
fn bare_end(text: &[u8], delimiter: u8, ends: &mut FieldEnds, at: usize) -> usize
    requires at { at ≤ length text.now }
    requires ends { AreEnds delimiter text.now ends.old }
    ensures field { EndsField delimiter st.InField text.now at result
        (slice_range text.now at result) }
    ensures ends { AreEnds delimiter text.now ends.new }
{
    ends.first_from(text, delimiter, at)
}

/// Keeps bytes of a field where they are wanted.
fn keep(bytes: &[u8], wanted: bool, key: &mut Vec<u8>) -> Result<(), Memory>
    ensures { OnOk result (key.new.items ≡ kept wanted key.old.items bytes.now) }
{
    if wanted {
        key.extend_from_slice(bytes)?;
    }
    Ok(())
}

/// Reads on to the end of a field that goes on here without quotes.
fn read_bare(
    text: &[u8],
    delimiter: u8,
    ends: &mut FieldEnds,
    at: usize,
    wanted: bool,
    key: &mut Vec<u8>,
) -> Result<usize, Memory>
    requires at { at ≤ length text.now }
    requires ends { AreEnds delimiter text.now ends.old }
    ensures field { IfOk result
        (λ end. ReadsField delimiter st.InField text.now at end wanted key.old.items key.new.items) }
    ensures ends { AreEnds delimiter text.now ends.new }
{
    let end = bare_end(text, delimiter, ends, at);
    keep(&text[at..end], wanted, key)?;
    Ok(end)
}

/// Reads on to the end of a field that goes on here in quotes. Of two double quotes one is a byte
/// of the field, and behind a single one it goes on without quotes.
fn read_quoted(
    text: &[u8],
    delimiter: u8,
    ends: &mut FieldEnds,
    start: usize,
    wanted: bool,
    key: &mut Vec<u8>,
) -> Result<usize, Memory>
    requires start { start ≤ length text.now }
    requires ends { AreEnds delimiter text.now ends.old }
    ensures field { IfOk result
        (λ end. ReadsField delimiter st.InQuoted text.now start end wanted
        key.old.items key.new.items) }
    ensures ends { AreEnds delimiter text.now ends.new }
{
    let mut at = start;
    'quotes: while let Some(more) = find_quote(&text[at..]) {
        let quote = at + more;
        if !is_at(text, quote + 1, b'"') {
            keep(&text[at..quote], wanted, key)?;
            return read_bare(text, delimiter, ends, quote + 1, wanted, key);
        }
        keep(&text[at..quote + 1], wanted, key)?;
        at = quote + 2;
    }
    keep(&text[at..], wanted, key)?;
    Ok(text.len())
}

/// Where the key of the record at hand is.
#[derive(Clone, Copy)]
enum Place<'t> {
    /// In the text, as it stands.
    Text(&'t [u8]),
    /// In the buffer of the row.
    Buffer,
}

/// The record at hand.
#[derive(Drop)]
struct Row<'t> {
    /// How many fields come before the one at hand.
    count: usize,
    /// Where the bytes of the key are, as far as they were read.
    place: Place<'t>,
    /// The bytes of a key in quotes. It keeps its memory from record to record.
    buffer: Vec<u8>,
}

impl<'t> Row<'t> {
    /// A record of which nothing was read.
    fn new(alloc: Global) -> Row<'t>
        ensures none { result.count ≡ 0 }
        ensures row { (column : ℕ) → IsRow column result [] }
    {
        Row {
            count: 0,
            place: Place::Text(&[]),
            buffer: Vec::new(alloc),
        }
    }

    /// The bytes of the key, as far as they were read.
    fn key(&self) -> &[u8]
        ensures { result.now ≡ key_of self.now }
    {
        match self.place {
            Place::Text(key) => key,
            Place::Buffer => self.buffer.as_slice(),
        }
    }

    /// Reads the field at hand, which starts here with a double quote, and tells where it ends.
    fn read_in_quotes(
        &mut self,
        text: &'t [u8],
        delimiter: u8,
        ends: &mut FieldEnds,
        at: usize,
        wanted: bool,
    ) -> Result<usize, Memory>
        requires at { (at < length text.now) × (get_or text.now at 0 ≡ 34) }
        requires ends { AreEnds delimiter text.now ends.old }
        ensures count { OnOk result (self.new.count ≡ self.old.count) }
        ensures key { IfOk result
            (λ end. ReadsKey delimiter text.now at end wanted self.old self.new) }
        ensures ends { AreEnds delimiter text.now ends.new }
    {
        if wanted {
            self.place = Place::Buffer;
            self.buffer.clear();
            return read_quoted(text, delimiter, ends, at + 1, true, &mut self.buffer);
        }
        read_quoted(text, delimiter, ends, at + 1, false, &mut self.buffer)
    }

    /// Reads the field at hand, which starts here without quotes, and tells where it ends.
    #[inline(always)]
    fn read_without(
        &mut self,
        text: &'t [u8],
        delimiter: u8,
        ends: &mut FieldEnds,
        at: usize,
        wanted: bool,
    ) -> usize
        requires at { (at < length text.now) × (get_or text.now at 0 ≢ 34) }
        requires ends { AreEnds delimiter text.now ends.old }
        ensures count { self.new.count ≡ self.old.count }
        ensures key { ReadsKey delimiter text.now at result wanted self.old self.new }
        ensures ends { AreEnds delimiter text.now ends.new }
    {
        let end = bare_end(text, delimiter, ends, at);
        if wanted {
            self.place = Place::Text(&text[at..end]);
        }
        end
    }

    /// Reads the field at hand, which starts here, and tells where it ends.
    #[inline(always)]
    fn read_field(
        &mut self,
        text: &'t [u8],
        delimiter: u8,
        ends: &mut FieldEnds,
        at: usize,
        column: usize,
    ) -> Result<usize, Memory>
        requires at { at < length text.now }
        requires ends { AreEnds delimiter text.now ends.old }
        ensures count { OnOk result (self.new.count ≡ self.old.count) }
        ensures field { IfOk result
            (λ end. ReadsRow delimiter text.now at end column self.old self.new) }
        ensures ends { AreEnds delimiter text.now ends.new }
    {
        let wanted = self.count == column;
        if text[at] == b'"' {
            self.read_in_quotes(text, delimiter, ends, at, wanted)
        } else {
            Ok(self.read_without(text, delimiter, ends, at, wanted))
        }
    }

    /// Goes on to the next field.
    fn go_on(&mut self)
        requires { self.old.count < 2 ^ 64 - 1 }
        ensures count { self.new.count ≡ self.old.count + 1 }
        ensures row { (column : ℕ) (fields : Record) → IsWhole column self.old fields
            → IsRow column self.new fields }
    {
        self.count += 1;
    }

    /// Begins a new record.
    fn start_over(&mut self)
        ensures none { self.new.count ≡ 0 }
        ensures row { (column : ℕ) → IsRow column self.new [] }
    {
        self.count = 0;
        self.place = Place::Text(&[]);
    }

    /// Takes the key of this record, which was read to its end, as that of record number nth, which
    /// has to be `width` fields long.
    #[inline(always)]
    fn give_to<K: KeySink>(
        &self,
        keys: &mut K,
        column: usize,
        width: usize,
        nth: u64,
    ) -> Result<(), Refusal>
        requires { self.now.count < 2 ^ 64 - 1 }
        ensures key { OnOk result (K.Takes keys.old (key_of self.now ∷ []) keys.new) }
        ensures count { OnOk result ((self.now.count + 1 ≡ width) × (column ≤ self.now.count)) }
        ensures kind { IfErr result IsFileFault }
        ensures fault { IfErr result (λ e. (e ≡ refusal.Memory)
            ⊎ ((fields : Record) → IsWhole column self.now fields
            → IsFaultAt (key_in (column + 1)) width nth fields e)) }
    {
        if self.count + 1 != width {
            return Err(Refusal::BadCsv { nth });
        }
        if self.count < column {
            return Err(Refusal::NoSuchColumn { nth });
        }
        Ok(keys.take(None, self.key())?)
    }
}

/// Takes the keys of a piece without a byte order mark, of each record the field in this column,
/// which is counted from 0, and returns how many there are.
fn scan<K: KeySink>(
    keys: &mut K,
    alloc: Global,
    text: &[u8],
    delimiter: u8,
    column: usize,
    width: usize,
) -> Result<u64, Refusal>
    requires unmarked { bom_length text.now ≡ 0 }
    ensures keys { TakesFound K.Takes (piece_keys delimiter (key_in (column + 1)) width text.now)
        keys.old keys.new result }
    ensures kind { IfErr result IsFileFault }
{
    let mut row = Row::new(alloc);
    let mut ends = FieldEnds::none();
    let mut at = 0;
    let mut taken = 0;
    while at < text.len() {
        if row.count == 0 && is_line_end(text[at]) {
            at += 1;
        } else {
            let end = row.read_field(text, delimiter, &mut ends, at, column)?;
            if is_at(text, end, delimiter) {
                row.go_on();
            } else {
                row.give_to(keys, column, width, taken + 1)?;
                row.start_over();
                taken += 1;
            }
            at = end + 1;
        }
    }
    // Behind a last delimiter there is one field more.
    if row.count > 0 {
        row.give_to(keys, column, width, taken + 1)?;
        taken += 1;
    }
    Ok(taken)
}

/// Takes the keys of one piece of a file, as `take_piece` does, which is asked where more than the
/// key is wanted, or where there is a byte order mark.
pub fn take_keys<K: KeySink>(
    alloc: Global,
    keys: &mut K,
    piece: &[u8],
    delimiter: u8,
    wanted: &Wanted<'_>,
    width: usize,
) -> Result<u64, Refusal>
    ensures keys { TakesFound K.Takes (piece_keys delimiter (taking wanted.now) width piece.now)
        keys.old keys.new result }
    ensures kind { IfErr result IsFileFault }
{
    match wanted.key_column() {
        Some(column) if mark_length(piece) == 0 => {
            scan(keys, alloc, piece, delimiter, column, width)
        }
        _ => take_piece(alloc, keys, piece, delimiter, wanted, width),
    }
}

/// Takes the keys of the first piece of a file, whose first record is `width` fields long, and
/// returns how many there are.
pub fn take_first_keys<K: KeySink>(
    alloc: Global,
    keys: &mut K,
    piece: &[u8],
    delimiter: u8,
    wanted: &Wanted<'_>,
    header: bool,
    width: usize,
) -> Result<u64, Refusal>
    requires { IsWidthOf width (file_records delimiter piece.now) }
    ensures keys { TakesFound K.Takes (taken_of delimiter (taking wanted.now) header piece.now)
        keys.old keys.new result }
    ensures kind { IfErr result IsFileFault }
{
    if header {
        take_file(alloc, keys, piece, delimiter, wanted, header)
    } else {
        take_keys(alloc, keys, piece, delimiter, wanted, width)
    }
}
