//! The value of `--delimiter`: the word `tab`, or a character.

ghost use Rattle.std.specs.Prelude.{◌≡◌};
ghost use Rattle.command_line.specs.Delimiters.{delimiter_in, is_delimiter, only_delimiter};

/// Parses a delimiter: the word `tab`, or one character of ASCII other than quote, line feed and
/// carriage return. `None` where it is not valid.
pub fn parse_delimiter(text: &str) -> Option<u8>
    ensures { result ≡ delimiter_in text.now }
{
    if text == "tab" {
        Some(b'\t')
    } else {
        only_delimiter(text.as_bytes())
    }
}

/// The only byte of a text, if it can be a delimiter.
fn only_delimiter(text: &[u8]) -> Option<u8>
    ensures { result ≡ only_delimiter text.now }
{
    if text.len() == 1 && is_delimiter(text[0]) {
        Some(text[0])
    } else {
        None
    }
}

/// Whether a byte can be a delimiter.
fn is_delimiter(byte: u8) -> bool
    ensures { result ≡ is_delimiter byte }
{
    byte < 128 && !matches!(byte, b'"' | b'\n' | b'\r')
}
