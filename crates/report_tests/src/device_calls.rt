//! Whole reads and writes over devices that transfer a few bytes at a time, and that fail.

ghost use Rattle.std.specs.Prelude.{◌<◌, ◌-◌, ◌^◌};

use crate::slow::{Drip, Page};
use byte_io::{FromRead, FromWrite, Source, read_all, write_all, write_texts};
use lane_words::{Memory, Refusal};
use std::alloc::Global;
use std::test::Fail;

/// Whether a source is read to its end as these bytes.
fn gives<S: Source>(alloc: Global, source: &mut S, bytes: &[u8]) -> Result<bool, Refusal>
    requires { S.failures source.old < 2 ^ 64 - 1 }
{
    let all = read_all(alloc, source)?;
    Ok(all.as_slice() == bytes)
}

/// Whether a source that yields one byte a read, and fails at one, is read as these bytes, and its
/// number of failures.
fn drips(
    alloc: Global,
    bytes: &[u8],
    fails_at: usize,
) -> Result<(Result<bool, Refusal>, u64), Memory> {
    let mut drip = Drip::new(alloc, bytes, fails_at)?;
    let answer = gives(alloc, &mut drip, bytes);
    Ok((answer, drip.failures))
}

#[test]
fn a_source_is_read_to_its_end(rt: HostRuntime) {
    assert_eq!(rt; drips(rt.alloc(), b"one\ntwo\n", 100), Ok((Ok(true), 0)));
    let mut file = FromRead::new(b"three".as_slice());
    assert_eq!(rt; gives(rt.alloc(), &mut file, b"three"), Ok(true));
}

#[test]
fn a_failed_read_is_reported(rt: HostRuntime) {
    let reported = drips(rt.alloc(), b"one", 2);
    assert_eq!(rt; reported, Ok((Err(Refusal::ReadFailed), 1)));
}

#[test]
fn a_text_is_written_in_several_writes(rt: HostRuntime) {
    let mut page = Page::new(rt.alloc(), 3);
    let answer = write_all(&mut page, b"0123456789");
    assert_eq!(rt;
        (answer, page.text.as_slice(), page.failures),
        (Ok(()), b"0123456789".as_slice(), 0)
    );
}

/// Three texts, one of them empty.
fn three_texts(alloc: Global) -> Result<Vec<Vec<u8>>, Memory> {
    let mut texts = Vec::new(alloc);
    let added = add_three(alloc, &mut texts);
    added.and(Ok(texts))
}

/// Appends those.
fn add_three(alloc: Global, texts: &mut Vec<Vec<u8>>) -> Result<(), Memory> {
    for text in [b"01234".as_slice(), b"", b"56789"] {
        texts.push(Vec::from_slice(alloc, text)?)?;
    }
    Ok(())
}

/// The answer of a page of four writes to these texts, whether it then has this text, its answer to
/// the same texts again, and its number of failures.
fn written_twice(
    alloc: Global,
    texts: &[Vec<u8>],
    text: &[u8],
) -> (Result<(), Refusal>, bool, Result<(), Refusal>, u64) {
    let mut page = Page::new(alloc, 4);
    let first = write_texts(&mut page, texts);
    let is_written = page.text.as_slice() == text;
    let second = write_texts(&mut page, texts);
    (first, is_written, second, page.failures)
}

#[test]
fn texts_are_written_one_after_another(rt: HostRuntime) -> Result<(), Fail> {
    let texts = three_texts(rt.alloc())?;
    let reported = written_twice(rt.alloc(), texts.as_slice(), b"0123456789");
    assert_eq!(rt; reported, (Ok(()), true, Err(Refusal::WriteFailed), 1));
    Ok(())
}

#[test]
fn a_failed_write_is_reported(rt: HostRuntime) {
    let mut page = Page::new(rt.alloc(), 1);
    let answer = write_all(&mut page, b"0123456789");
    assert_eq!(rt;
        (answer, page.text.as_slice(), page.failures),
        (Err(Refusal::WriteFailed), b"0123".as_slice(), 1)
    );
}

// A slice takes only the bytes that fit.
#[test]
fn a_full_writer_has_failed(rt: HostRuntime) {
    let mut buffer = [0u8; 3];
    let mut full = FromWrite::new(buffer.as_mut_slice());
    assert_eq!(rt; write_all(&mut full, b"abcd"), Err(Refusal::WriteFailed));
}
