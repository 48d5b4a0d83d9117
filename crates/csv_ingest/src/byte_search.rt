//! Where the first of up to three bytes is, found 16 bytes at a time: most are close.

ghost use Rattle.std.specs.Prelude.{◌≡◌, ◌≤◌, ◌+◌, IfNone, IfSome, length};
ghost use Rattle.csv_ingest.specs.Private.ByteSearch.{HasMarks, HasNone, IsFirstFrom, is_any};
ghost use Rattle.memchr.specs.Find.{IsFirstByte, is_byte};

use std::simd::prelude::*;

/// How many bytes are looked at together.
const LANES: usize = 16;

/// Whether a byte is one of three.
fn is_any(byte: u8, a: u8, b: u8, c: u8) -> bool
    ensures { result ≡ is_any a b c byte }
{
    byte == a || byte == b || byte == c
}

/// Which of the `N` bytes from here on are one of three, as a bit for each.
#[inline(always)]
pub fn marks_among<const N: usize>(text: &[u8], at: usize, a: u8, b: u8, c: u8) -> u64
    requires text { at + N ≤ length text.now }
    requires lanes { N ≤ 64 }
    ensures { HasMarks N a b c text.now at result }
{
    let bytes = Simd::<u8, N>::from_slice(&text[at..]);
    let marks = bytes.simd_eq(Simd::<u8, N>::splat(a))
        | bytes.simd_eq(Simd::<u8, N>::splat(b))
        | bytes.simd_eq(Simd::<u8, N>::splat(c));
    marks.to_bitmask()
}

/// Where the first of the 16 bytes from here on is that is one of three, if one is.
#[inline(always)]
fn first_among(text: &[u8], at: usize, a: u8, b: u8, c: u8) -> Option<usize>
    requires { at + 16 ≤ length text.now }
    ensures found { IfSome result (λ first. IsFirstFrom a b c text.now at first) }
    ensures none { IfNone result (HasNone a b c text.now at (at + 16)) }
{
    let marks = marks_among::<LANES>(text, at, a, b, c);
    if marks == 0 {
        return None;
    }
    Some(at + marks.trailing_zeros() as usize)
}

/// Where the first of three bytes is from here on, or else the end of the text, byte by byte.
fn first_by_bytes(text: &[u8], at: usize, a: u8, b: u8, c: u8) -> usize
    requires { at ≤ length text.now }
    ensures { IsFirstFrom a b c text.now at result }
{
    for i in at..text.len() {
        if is_any(text[i], a, b, c) {
            return i;
        }
    }
    text.len()
}

/// Where the first of three bytes is from here on, or else the end of the text.
#[inline(always)]
pub fn first_of(text: &[u8], start: usize, a: u8, b: u8, c: u8) -> usize
    requires { start ≤ length text.now }
    ensures { IsFirstFrom a b c text.now start result }
{
    let mut at = start;
    while at + LANES <= text.len() {
        if let Some(first) = first_among(text, at, a, b, c) {
            return first;
        }
        at += LANES;
    }
    first_by_bytes(text, at, a, b, c)
}

/// Where the first double quote is, if there is one.
#[inline(always)]
pub fn find_quote(text: &[u8]) -> Option<usize>
    ensures { IsFirstByte (is_byte 34) text.now result }
{
    let quote = first_of(text, 0, b'"', b'"', b'"');
    if quote == text.len() {
        return None;
    }
    Some(quote)
}
