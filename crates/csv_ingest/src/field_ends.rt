//! Where fields without quotes end. The ends among 64 bytes are found together, and kept for the
//! fields that follow.

ghost use Rattle.std.specs.Prelude.{◌≤◌, List, ℕ, length};
ghost use Rattle.csv_ingest.specs.Private.ByteSearch.{IsFirstFrom};
ghost use Rattle.csv_ingest.specs.Private.FieldEnds.{AreEnds};

use crate::byte_search::{first_of, marks_among};

/// How many bytes are looked at together.
const LANES: usize = 64;

/// The ends of fields among 64 bytes of a text.
#[derive(Drop)]
pub struct FieldEnds {
    /// Where these bytes begin.
    from: usize,
    /// Which of them end a field, as a bit for each; 0 if none were looked at.
    marks: u64,
}

impl FieldEnds {
    /// No ends are known.
    pub fn none() -> FieldEnds
        ensures { (delimiter : ℕ) (text : List ℕ) → AreEnds delimiter text result }
    {
        FieldEnds { from: 0, marks: 0 }
    }

    /// Where a field that goes on here without quotes ends: at a delimiter, at the end of a line or
    /// of the text.
    #[inline(always)]
    pub fn first_from(&mut self, text: &[u8], delimiter: u8, at: usize) -> usize
        requires at { at ≤ length text.now }
        requires ends { AreEnds delimiter text.now self.old }
        ensures first { IsFirstFrom delimiter 13 10 text.now at result }
        ensures ends { AreEnds delimiter text.now self.new }
    {
        if self.from <= at && at - self.from < LANES {
            let later = self.marks >> (at - self.from);
            if later != 0 {
                return at + later.trailing_zeros() as usize;
            }
        }
        self.look_from(text, delimiter, at)
    }

    /// Looks for the first end from here on, and keeps those close behind it.
    #[inline(never)]
    fn look_from(&mut self, text: &[u8], delimiter: u8, start: usize) -> usize
        requires { start ≤ length text.now }
        ensures first { IsFirstFrom delimiter 13 10 text.now start result }
        ensures ends { AreEnds delimiter text.now self.new }
    {
        let mut at = start;
        while at + LANES <= text.len() {
            let marks = marks_among::<LANES>(text, at, delimiter, b'\r', b'\n');
            if marks != 0 {
                self.from = at;
                self.marks = marks;
                return at + marks.trailing_zeros() as usize;
            }
            at += LANES;
        }
        self.marks = 0;
        first_of(text, at, delimiter, b'\r', b'\n')
    }
}
