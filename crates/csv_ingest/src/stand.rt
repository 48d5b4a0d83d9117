//! Where a reader stands.

ghost use Rattle.std.specs.Prelude.{◌≡◌, ◌≢◌, All, false, true};
ghost use Rattle.csv_ingest.specs.Stand.{field_begun, in_quotes, is_line_end, stand_after, stand_next, unquoted};
ghost use Rattle.csv_ingest.specs.declared.stand.Stand.TheVariants as stands;

use memchr::memchr;

/// Where a reader of csv's default dialect, with some delimiter, stands between two bytes.
#[derive(Clone, Copy, Debug, PartialEq, Eq)]
pub enum Stand {
    /// At the start of a record.
    Record,
    /// At the start of a field that is not the first, or behind a quote in a quoted field: a quote
    /// opens quotes.
    Fresh,
    /// In a field without quotes, where a quote is a byte like another.
    Bare,
    /// In a field in quotes.
    Quoted,
}

/// Whether a byte is one of those that end a line.
pub fn is_line_end(byte: u8) -> bool
    ensures { result ≡ is_line_end byte }
{
    byte == b'\r' || byte == b'\n'
}

/// Where a reader stands after a byte that quotes do not protect, and that is no quote that opens
/// or closes.
fn after_unquoted(byte: u8, delimiter: u8) -> Stand
    ensures { result ≡ unquoted delimiter byte }
{
    if byte == delimiter {
        Stand::Fresh
    } else if is_line_end(byte) {
        Stand::Record
    } else {
        Stand::Bare
    }
}

/// Where a reader stands after a byte at the start of a field.
fn after_start(byte: u8, delimiter: u8) -> Stand
    ensures { result ≡ field_begun delimiter byte }
{
    if byte == b'"' {
        Stand::Quoted
    } else {
        after_unquoted(byte, delimiter)
    }
}

impl Stand {
    /// Whether quotes protect the next byte.
    pub fn is_quoted(self) -> bool
        ensures { result ≡ in_quotes self }
    {
        matches!(self, Stand::Quoted)
    }

    /// Whether a record starts here.
    pub fn is_record(self) -> bool
        ensures if_true { result ≡ true → self ≡ stands.Record }
        ensures if_false { result ≡ false → self ≢ stands.Record }
    {
        matches!(self, Stand::Record)
    }

    /// Where a reader stands after one byte more.
    pub fn next(self, byte: u8, delimiter: u8) -> Stand
        ensures { result ≡ stand_next delimiter self byte }
    {
        match self {
            Stand::Quoted => {
                if byte == b'"' {
                    Stand::Fresh
                } else {
                    Stand::Quoted
                }
            }
            Stand::Bare => after_unquoted(byte, delimiter),
            Stand::Fresh => after_start(byte, delimiter),
            Stand::Record => {
                if is_line_end(byte) {
                    Stand::Record
                } else {
                    after_start(byte, delimiter)
                }
            }
        }
    }
}

/// Whether there is no double quote in a text.
pub fn is_plain(text: &[u8]) -> bool
    ensures if_true { result ≡ true → All (λ c. c ≢ 34) text.now }
    ensures if_false { result ≡ false → All (λ c. c ≢ 34) text.now → ⊥ }
{
    memchr(b'"', text).is_none()
}

/// Where a reader stands behind bytes among which there is no double quote.
fn plain_behind(from: Stand, bytes: &[u8], delimiter: u8) -> Stand
    requires delimiter { is_line_end delimiter ≡ false }
    requires unquoted { All (λ c. c ≢ 34) bytes.now }
    ensures { result ≡ stand_after delimiter from bytes.now }
{
    if from.is_quoted() || bytes.is_empty() {
        return from;
    }
    after_unquoted(bytes[bytes.len() - 1], delimiter)
}

/// Where a reader stands behind these bytes. `plain` says that there is no double quote among them.
///
/// Between two double quotes only the last byte matters, so it goes from quote to quote.
pub fn stand_behind(from: Stand, bytes: &[u8], delimiter: u8, plain: bool) -> Stand
    requires delimiter { is_line_end delimiter ≡ false }
    requires plain { plain ≡ true → All (λ c. c ≢ 34) bytes.now }
    ensures { result ≡ stand_after delimiter from bytes.now }
{
    if plain {
        return plain_behind(from, bytes, delimiter);
    }
    let mut stand = from;
    let mut rest = bytes;
    'runs: while let Some(at) = memchr(b'"', rest) {
        let there = plain_behind(stand, &rest[..at], delimiter);
        stand = there.next(b'"', delimiter);
        rest = &rest[at + 1..];
    }
    plain_behind(stand, rest, delimiter)
}
