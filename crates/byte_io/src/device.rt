//! The traits `Source` and `Sink`, their adapters over std, and whole reads and writes.

ghost use Rattle.std.specs.Prelude.{◌≡◌, ◌≤◌, ◌<◌, ◌+◌, ◌-◌, ◌^◌, ℕ, List, Option, Err, Ok, true, IfOk, IfErr, OnOk, OnErr, IfSome, MatchResult, flat_map, length, is_ok, take, vec_items, if◌then◌else◌};
ghost use Rattle.std.specs.Io.{ReadsAtMost, WritesAtMost};
ghost use Rattle.std.specs.Io.KnownBytes.{ReadConsumes, WriteAppends, IsAtEnd, Appends, Consumes};
ghost use Rattle.byte_io.specs.Devices.{AppendsPrefix, CanStillFail, IsReadFault};
ghost use Rattle.lane_words.specs.declared.Refusal.TheVariants as refusal;

use lane_words::Refusal;
use std::alloc::Global;
use std::io::{Read, Write};

/// A read or a write failed.
#[derive(Clone, Copy, Debug, PartialEq, Eq)]
pub struct DeviceFailed;

/// A source of bytes. It must not be read again once 2^64 - 1 reads have failed.
pub trait Source {
    // The bytes not read yet, if they are known.
    ghost left: { Self → Option (List ℕ) };

    // The number of reads that have failed.
    ghost failures: { Self → ℕ };

    /// An estimate of the number of bytes left, or 0 if there is none, as of a pipe. It decides what
    /// is told of the progress, and whether a thread of its own waits for reads; nothing else.
    fn expected(&self) -> usize {
        0
    }

    /// Reads bytes into the front of `buf` and returns their number, which is 0 only at the end or
    /// for an empty `buf`. A failed read consumes nothing.
    fn read(&mut self, buf: &mut [u8]) -> Result<usize, DeviceFailed>
        requires { CanStillFail (failures self.old) }
        ensures bound { ReadsAtMost result buf.new }
        ensures bytes { ReadConsumes (left self.old) (left self.new) result buf.new }
        ensures failures { failures self.new
            ≡ failures self.old + (if is_ok result then 0 else 1) };
}

/// A sink of bytes. It must not be written to again once 2^64 - 1 writes have failed.
pub trait Sink {
    // The bytes written so far, if they are known.
    ghost written: { Self → Option (List ℕ) };

    // The number of writes that have failed.
    ghost failures: { Self → ℕ };

    /// Writes a prefix of `bytes` and returns its length, which is at least 1 unless `bytes` is
    /// empty. A failed write writes nothing.
    fn write(&mut self, bytes: &[u8]) -> Result<usize, DeviceFailed>
        requires { CanStillFail (failures self.old) }
        ensures bound { WritesAtMost result bytes.now }
        ensures nonempty { IfOk result (λ n. 0 < length bytes.now → 0 < n) }
        ensures bytes { WriteAppends (written self.old) (written self.new) result bytes.now }
        ensures failures { failures self.new
            ≡ failures self.old + (if is_ok result then 0 else 1) };
}

/// A source over any reader of std. Every error of the reader counts as a failed read.
#[derive(Drop)]
pub struct FromRead<R> {
    reader: R,
    /// The estimate of its length in bytes.
    expected: usize,
    failures: u64,
}

impl<R: Read> FromRead<R> {
    /// A source of the bytes left in the reader, with no estimate of their number.
    pub fn new(reader: R) -> FromRead<R>
        ensures left { ⟦<FromRead<R> as Source>⟧.left result ≡ R.remaining reader }
        ensures failures { ⟦<FromRead<R> as Source>⟧.failures result ≡ 0 }
    {
        FromRead::expecting(reader, 0)
    }

    /// A source of the bytes left in the reader, of which about `expected` are to come.
    pub fn expecting(reader: R, expected: usize) -> FromRead<R>
        ensures left { ⟦<FromRead<R> as Source>⟧.left result ≡ R.remaining reader }
        ensures failures { ⟦<FromRead<R> as Source>⟧.failures result ≡ 0 }
    {
        FromRead {
            reader,
            expected,
            failures: 0,
        }
    }
}

impl<R: Read> Source for FromRead<R> {
    ghost left = { λ s. R.remaining s.reader };

    ghost failures = { λ s. s.failures };

    fn expected(&self) -> usize {
        self.expected
    }

    fn read(&mut self, buf: &mut [u8]) -> Result<usize, DeviceFailed> {
        match self.reader.read(buf) {
            Ok(n) => Ok(n),
            Err(_) => {
                self.failures += 1;
                Err(DeviceFailed)
            }
        }
    }
}

/// A sink over any writer of std. An error of the writer counts as a failed write, and so does a
/// write that takes none of the bytes.
#[derive(Drop)]
pub struct FromWrite<W> {
    writer: W,
    failures: u64,
}

impl<W: Write> FromWrite<W> {
    /// A sink that appends to what the writer holds.
    pub fn new(writer: W) -> FromWrite<W>
        ensures written { ⟦<FromWrite<W> as Sink>⟧.written result ≡ W.contents writer }
        ensures failures { ⟦<FromWrite<W> as Sink>⟧.failures result ≡ 0 }
    {
        FromWrite {
            writer,
            failures: 0,
        }
    }
}

impl<W: Write> Sink for FromWrite<W> {
    ghost written = { λ s. W.contents s.writer };

    ghost failures = { λ s. s.failures };

    fn write(&mut self, bytes: &[u8]) -> Result<usize, DeviceFailed> {
        match self.writer.write(bytes) {
            Ok(n) if n > 0 || bytes.is_empty() => Ok(n),
            _ => {
                self.failures += 1;
                Err(DeviceFailed)
            }
        }
    }
}

/// The number of bytes that one read asks for.
const READ_SIZE: usize = 256 * 1024;

/// Reads a source to its end through a buffer.
fn read_through<S: Source>(
    alloc: Global,
    source: &mut S,
    buffer: &mut [u8],
) -> Result<Vec<u8>, Refusal>
    requires buffer { 0 < length buffer.old }
    requires failures { CanStillFail (S.failures source.old) }
    ensures value { IfOk result (λ all. IfSome (S.left source.old) (λ bytes. all.items ≡ bytes)) }
    ensures end { OnOk result (IsAtEnd (S.left source.new)) }
    ensures no_failures { OnOk result (S.failures source.new ≡ S.failures source.old) }
    ensures failures { IfErr result (IsReadFault (S.failures source.old) (S.failures source.new)) }
{
    let mut all = Vec::new(alloc);
    for _ in 0..u64::MAX {
        match source.read(buffer) {
            Ok(0) => return Ok(all),
            Ok(n) => {
                if all.extend_from_slice(&buffer[..n]).is_err() {
                    return Err(Refusal::Memory);
                }
            }
            Err(DeviceFailed) => return Err(Refusal::ReadFailed),
        }
    }
    unreachable!()
}

/// Reads a source to its end. Fails with `ReadFailed` if a read failed, and with `Memory` if an
/// allocation failed.
pub fn read_all<S: Source>(alloc: Global, source: &mut S) -> Result<Vec<u8>, Refusal>
    requires { CanStillFail (S.failures source.old) }
    ensures value { IfOk result (λ all. IfSome (S.left source.old) (λ bytes. all.items ≡ bytes)) }
    ensures end { OnOk result (IsAtEnd (S.left source.new)) }
    ensures no_failures { OnOk result (S.failures source.new ≡ S.failures source.old) }
    ensures failures { IfErr result (IsReadFault (S.failures source.old) (S.failures source.new)) }
{
    let Ok(mut buffer) = vec![in alloc; 0u8; READ_SIZE] else {
        return Err(Refusal::Memory);
    };
    read_through(alloc, source, buffer.as_mut_slice())
}

/// Reads until the buffer is full or the source is at its end. Returns the number of bytes read.
pub fn fill<S: Source>(source: &mut S, buffer: &mut [u8]) -> Result<usize, Refusal>
    requires { CanStillFail (S.failures source.old) }
    ensures range { IfOk result (λ n. n ≤ length buffer.new) }
    ensures bytes { IfOk result
        (λ n. Consumes (S.left source.old) (S.left source.new) (take n buffer.new)) }
    ensures end { IfOk result (λ n. n < length buffer.new → IsAtEnd (S.left source.new)) }
    ensures no_failures { OnOk result (S.failures source.new ≡ S.failures source.old) }
    ensures failures { IfErr result (IsReadFault (S.failures source.old) (S.failures source.new)) }
{
    let mut filled = 0;
    while filled < buffer.len() {
        let Ok(n) = source.read(&mut buffer[filled..]) else {
            return Err(Refusal::ReadFailed);
        };
        if n == 0 {
            return Ok(filled);
        }
        filled += n;
    }
    Ok(filled)
}

/// Writes all bytes, in as many writes as the sink takes. If a write failed, the error is
/// `WriteFailed`, and a prefix of the bytes is written.
pub fn write_all<K: Sink>(sink: &mut K, bytes: &[u8]) -> Result<(), Refusal>
    requires { CanStillFail (K.failures sink.old) }
    ensures ok { OnOk result (Appends (K.written sink.old) (K.written sink.new) bytes.now) }
    ensures no_failures { OnOk result (K.failures sink.new ≡ K.failures sink.old) }
    ensures kind { IfErr result (λ e. e ≡ refusal.WriteFailed) }
    ensures failures { OnErr result (K.failures sink.new ≡ K.failures sink.old + 1) }
    ensures err { OnErr result
        (AppendsPrefix (K.written sink.old) (K.written sink.new) bytes.now) }
{
    let mut taken = 0;
    while taken < bytes.len() {
        match sink.write(&bytes[taken..]) {
            Ok(n) => taken += n,
            Err(DeviceFailed) => return Err(Refusal::WriteFailed),
        }
    }
    Ok(())
}

/// Writes texts one after another, so that the caller need not concatenate them. If a write failed,
/// the error is `WriteFailed`, and a prefix of the concatenation is written.
pub fn write_texts<K: Sink>(sink: &mut K, texts: &[Vec<u8>]) -> Result<(), Refusal>
    requires { CanStillFail (K.failures sink.old) }
    ensures ok { OnOk result
        (Appends (K.written sink.old) (K.written sink.new) (flat_map vec_items texts.now)) }
    ensures no_failures { OnOk result (K.failures sink.new ≡ K.failures sink.old) }
    ensures kind { IfErr result (λ e. e ≡ refusal.WriteFailed) }
    ensures failures { OnErr result (K.failures sink.new ≡ K.failures sink.old + 1) }
    ensures err { OnErr result (AppendsPrefix
        (K.written sink.old) (K.written sink.new) (flat_map vec_items texts.now)) }
{
    for i in 0..texts.len() {
        write_all(sink, texts[i].as_slice())?;
    }
    Ok(())
}
