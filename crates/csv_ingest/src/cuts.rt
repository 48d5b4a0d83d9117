//! Where a file can be cut.

ghost use Rattle.std.specs.Prelude.{◌≡◌, ◌≢◌, ◌≤◌, ◌<◌, ◌++◌, All, false, length, slice_index, take, true, IfOk, IfSome};
ghost use Rattle.csv.specs.Reading.{is_bom, strip_bom};
ghost use Rattle.csv_ingest.specs.Pieces.{ArePieces, bom_length};
ghost use Rattle.csv_ingest.specs.Private.Cuts.{AlwaysEndsRecord};
ghost use Rattle.csv_ingest.specs.Private.Pieces.{lent};
ghost use Rattle.csv_ingest.specs.Stand.{EndsRecord, IsCut, is_line_end};

use crate::stand::{Stand, stand_behind};
use lane_words::Memory;
use memchr::memchr;
use std::alloc::Global;

/// How many bytes a byte order mark takes.
const MARK: usize = 3;

/// Whether these are the bytes of a byte order mark.
fn is_mark(a: u8, b: u8, c: u8) -> bool
    ensures { result ≡ is_bom a b c }
{
    a == 0xEF && b == 0xBB && c == 0xBF
}

/// How many bytes a byte order mark takes at the start of a file.
pub fn mark_length(file: &[u8]) -> usize
    ensures value { result ≡ bom_length file.now }
    ensures bound { result ≤ length file.now }
{
    if file.len() < 3 {
        0
    } else if is_mark(file[0], file[1], file[2]) {
        3
    } else {
        0
    }
}

/// The first line feed that ends a record, where a reader stands here before the bytes.
fn open_cut(bytes: &[u8], from: Stand, delimiter: u8) -> Option<usize>
    ensures range { IfSome result (λ cut. cut < length bytes.now) }
    ensures cut { IfSome result (λ cut. (slice_index bytes.now cut ≡ 10)
        × EndsRecord delimiter from (take cut bytes.now)) }
{
    let mut stand = from;
    for i in 0..bytes.len() {
        let byte = bytes[i];
        let next = stand.next(byte, delimiter);
        if byte == b'\n' && next.is_record() {
            return Some(i);
        }
        stand = next;
    }
    None
}

/// The first line feed before `to` that ends a record, wherever a reader stands before the bytes.
///
/// Behind a few quoted fields a reader mostly stands at the same place wherever it began. Without a
/// double quote it stays in quotes if it began there.
fn synced_cut(bytes: &[u8], to: usize, delimiter: u8) -> Option<usize>
    requires delimiter { is_line_end delimiter ≡ false }
    requires to { to ≤ length bytes.now }
    ensures range { IfSome result (λ cut. cut < length bytes.now) }
    ensures cut { IfSome result (λ cut. (slice_index bytes.now cut ≡ 10)
        × AlwaysEndsRecord delimiter (take cut bytes.now)) }
{
    memchr(b'"', &bytes[..to])?;
    let mut fresh = Stand::Record;
    let mut bare = Stand::Bare;
    let mut quoted = Stand::Quoted;
    for i in 0..to {
        let byte = bytes[i];
        fresh = fresh.next(byte, delimiter);
        bare = bare.next(byte, delimiter);
        quoted = quoted.next(byte, delimiter);
        if byte == b'\n' && quoted.is_record() && fresh.is_record() && bare.is_record() {
            return Some(i);
        }
    }
    None
}

/// How many bytes are looked at for a cut that does not depend on the bytes before.
const WINDOW: usize = 1 << 14;

/// Where bytes that follow the first ones of a file can be cut: before the first line feed that is
/// seen to end a record. Behind fewer than three bytes there is no cut, since they may begin a byte
/// order mark. `plain` says that there is no double quote among the first ones.
pub fn cut_behind(before: &[u8], next: &[u8], delimiter: u8, plain: bool) -> Option<usize>
    requires delimiter { is_line_end delimiter ≡ false }
    requires plain { plain ≡ true → All (λ c. c ≢ 34) before.now }
    ensures range { IfSome result (λ cut. cut < length next.now) }
    ensures cut { IfSome result (λ cut. (slice_index next.now cut ≡ 10)
        × IsCut delimiter (strip_bom (before.now ++ take cut next.now))) }
{
    if before.len() < MARK {
        return None;
    }
    // Without double quotes what the bytes before end in is known at once.
    let seen = if plain { 0 } else { WINDOW.min(next.len()) };
    if let Some(cut) = synced_cut(next, seen, delimiter) {
        return Some(cut);
    }
    let start = mark_length(before);
    let stand = stand_behind(Stand::Record, &before[start..], delimiter, plain);
    open_cut(next, stand, delimiter)
}

/// In how many pieces a file is cut, and how long these are.
#[derive(Clone, Copy)]
pub struct Sizes {
    /// The largest number of pieces; 0 is one.
    pub most: usize,
    /// About how many bytes a piece has that is not the last.
    pub step: usize,
    /// About how many bytes the last piece has at least.
    pub left: usize,
}

/// A file in pieces of these sizes. `plain` says that there is no double quote in it: otherwise it is
/// read from its start, since what stands in quotes does not end a record.
pub fn pieces_of(
    alloc: Global,
    file: &[u8],
    delimiter: u8,
    sizes: Sizes,
    plain: bool,
) -> Result<Vec<&[u8]>, Memory>
    requires delimiter { is_line_end delimiter ≡ false }
    requires plain { plain ≡ true → All (λ c. c ≢ 34) file.now }
    ensures { IfOk result (λ found. ArePieces delimiter file.now (lent found.items)) }
{
    let mut found = Vec::new(alloc);
    let mut rest = file;
    for _piece in 1..sizes.most {
        let aim = sizes
            .step
            .max(MARK)
            .min(rest.len().saturating_sub(sizes.left));
        let Some(more) = cut_behind(&rest[..aim], &rest[aim..], delimiter, plain) else {
            break;
        };
        let cut = aim + more;
        found.push(&rest[..cut])?;
        rest = &rest[cut..];
    }
    found.push(rest)?;
    Ok(found)
}
