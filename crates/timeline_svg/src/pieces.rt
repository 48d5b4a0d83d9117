//! Markup, piece by piece.

ghost use Rattle.std.specs.Prelude.{◌≡◌, ◌++◌, OnOk, decimal};
ghost use Rattle.timeline_svg.specs.Markup.{escaped, escaped_text, markup, piece_text, range_text};

use itoa::Buffer;
use lane_words::Memory;
use std::slice;

/// A piece of markup.
#[derive(Clone, Copy, Debug)]
pub enum Piece<'a> {
    /// Text as it is.
    Text(&'a [u8]),
    /// Text as character data.
    Escaped(&'a [u8]),
    /// A number in decimal.
    Number(u128),
    /// Two numbers that bound a range, or the one that is both.
    Range(u128, u128),
}

/// A byte as character data.
fn escaped(byte: &u8) -> &[u8]
    ensures { result.now ≡ escaped byte.now }
{
    match *byte {
        b'&' => b"&amp;",
        b'<' => b"&lt;",
        b'>' => b"&gt;",
        b'"' => b"&quot;",
        b' '..=b'~' => slice::from_ref(byte),
        _ => b".",
    }
}

fn put_escaped(out: &mut Vec<u8>, text: &[u8]) -> Result<(), Memory>
    ensures { OnOk result (out.new.items ≡ out.old.items ++ escaped_text text.now) }
{
    for byte in text {
        out.extend_from_slice(escaped(byte))?;
    }
    Ok(())
}

fn put_number(out: &mut Vec<u8>, number: u128) -> Result<(), Memory>
    ensures { OnOk result (out.new.items ≡ out.old.items ++ decimal number) }
{
    let mut digits = Buffer::new();
    out.extend_from_slice(digits.format(number).as_bytes())?;
    Ok(())
}

fn put_range(out: &mut Vec<u8>, first: u128, last: u128) -> Result<(), Memory>
    ensures { OnOk result (out.new.items ≡ out.old.items ++ range_text first last) }
{
    put_number(out, first)?;
    if first != last {
        out.extend_from_slice(b"-")?;
        put_number(out, last)?;
    }
    Ok(())
}

fn put_piece(out: &mut Vec<u8>, piece: Piece<'_>) -> Result<(), Memory>
    ensures { OnOk result (out.new.items ≡ out.old.items ++ piece_text piece.entry) }
{
    match piece {
        Piece::Text(text) => out.extend_from_slice(text)?,
        Piece::Escaped(text) => put_escaped(out, text)?,
        Piece::Number(number) => put_number(out, number)?,
        Piece::Range(first, last) => put_range(out, first, last)?,
    }
    Ok(())
}

/// Appends pieces, one after the other.
pub fn put(out: &mut Vec<u8>, pieces: &[Piece<'_>]) -> Result<(), Memory>
    ensures { OnOk result (out.new.items ≡ out.old.items ++ markup pieces.now) }
{
    for piece in pieces {
        put_piece(out, *piece)?;
    }
    Ok(())
}
