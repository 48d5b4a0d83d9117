//! Where the records of a file begin.

ghost use Rattle.std.specs.Prelude.{◌≡◌, ◌≤◌, ◌<◌, ◌+◌, ◌∷◌, [], ℕ, false, IfNone, IfSome, drop, get_or, length};
ghost use Rattle.csv_ingest.specs.Stand.{is_line_end};
ghost use Rattle.csv_ingest.specs.Starts.{starts_from};
ghost use Rattle.csv_ingest.specs.declared.stand.Stand.TheVariants as stand;
ghost use Rattle.check_report.specs.Places.{line_at, places};

use csv_ingest::{Stand, is_line_end, mark_length};
use std::marker::Model;

/// Where a record begins.
#[derive(Clone, Copy, Debug)]
pub struct Place {
    /// The number of the record, from 1.
    pub nth: u64,
    /// The line that it begins on, from 1.
    pub line: u64,
    /// Its first byte, from 0.
    pub byte: u64,
}

/// The first byte from `at` on that ends no line, or the end of the file.
fn record_start(file: &[u8], at: usize) -> usize
    requires { at ≤ length file.now }
    ensures range { (at ≤ result) × (result ≤ length file.now) }
    ensures starts { (delimiter : ℕ) → starts_from delimiter stand.Record at (drop at file.now)
        ≡ starts_from delimiter stand.Record result (drop result file.now) }
    ensures byte { result < length file.now → is_line_end (get_or file.now result 0) ≡ false }
{
    for i in at..file.len() {
        if !is_line_end(file[i]) {
            return i;
        }
    }
    file.len()
}

/// The end of the record that begins here: what is behind the byte that ends its line.
fn record_end(file: &[u8], delimiter: u8, start: usize) -> usize
    requires range { start < length file.now }
    requires byte { is_line_end (get_or file.now start 0) ≡ false }
    ensures range { (start < result) × (result ≤ length file.now) }
    ensures starts { starts_from delimiter stand.Record start (drop start file.now)
        ≡ start ∷ starts_from delimiter stand.Record result (drop result file.now) }
{
    let mut stand = Stand::Record.next(file[start], delimiter);
    for i in start + 1..file.len() {
        if stand == Stand::Record {
            return i;
        }
        stand = stand.next(file[i], delimiter);
    }
    file.len()
}

/// The line of byte `to`, if byte `from` is on this line.
pub fn line_of(file: &[u8], line: u64, from: usize, to: usize) -> u64
    requires range { (from ≤ to) × (to ≤ length file.now) }
    requires line { line ≡ line_at file.now from }
    ensures { result ≡ line_at file.now to }
{
    let mut line = line;
    for i in from..to {
        if file[i] == b'\n' {
            line += 1;
        }
    }
    line
}

/// The records of a file that are not passed yet.
#[derive(Drop)]
pub struct Places<'a> {
    /// The file.
    file: &'a [u8],
    /// What ends a field.
    delimiter: u8,
    /// The end of the record passed last, or where the first can begin.
    at: usize,
    /// The line of that byte.
    line: u64,
    /// The number of the next record.
    nth: u64,
}

impl<'a> Model for Places<'a> {
    ghost use Rattle.std.specs.Prelude.{◌≡◌, ◌≤◌, ◌+◌, List, drop, length};
    ghost use Rattle.csv_ingest.specs.Starts.{starts_from};
    ghost use Rattle.csv_ingest.specs.declared.stand.Stand.TheVariants as stand;
    ghost use Rattle.check_report.specs.Places.{line_at, places_from};
    ghost use Rattle.check_report.specs.declared.places.Place.{Place};

    ghost Value = { List Place };

    ghost view = { λ s. places_from s.file.now s.nth
        (starts_from s.delimiter stand.Record s.at (drop s.at s.file.now)) };

    ghost invariant = { λ s. (s.at ≤ length s.file.now) × (s.nth ≤ s.at + 1)
        × (s.line ≡ line_at s.file.now s.at) };
}

impl<'a> Places<'a> {
    /// All records of a file with this delimiter.
    pub fn of(file: &'a [u8], delimiter: u8) -> Places<'a>
        ensures { result ≡ places delimiter file.now }
    {
        let at = mark_length(file);
        Places {
            file,
            delimiter,
            at,
            line: line_of(file, 1, 0, at),
            nth: 1,
        }
    }

    /// Passes the next record and returns its place, if there is one.
    pub fn next(&mut self) -> Option<Place>
        ensures found { IfSome result (λ place. self.old ≡ place ∷ self.new) }
        ensures none { IfNone result (self.old ≡ []) }
    {
        let start = record_start(self.file, self.at);
        if start == self.file.len() {
            return None;
        }
        let line = line_of(self.file, self.line, self.at, start);
        let end = record_end(self.file, self.delimiter, start);
        let place = Place {
            nth: self.nth,
            line,
            byte: start as u64,
        };
        self.line = line_of(self.file, line, start, end);
        self.at = end;
        self.nth += 1;
        Some(place)
    }
}
