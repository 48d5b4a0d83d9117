//! The part of a file that is in memory.

ghost use Rattle.std.specs.Prelude.{◌≡◌, ◌≢◌, ◌≤◌, ◌+◌, ◌<◌, [], All, true, IfOk, IfErr, OnOk, length, take};
ghost use Rattle.std.specs.Io.KnownBytes.{IsAtEnd};
ghost use Rattle.byte_io.specs.Devices.{CanStillFail, IsReadFault};
ghost use Rattle.key_stream.specs.Reading.{Fills};

use byte_io::{Source, fill};
use csv_ingest::is_plain;
use lane_words::{Memory, Refusal};
use std::alloc::Global;
use std::marker::Model;

/// How many bytes a buffer has at first: fresh pages take longer than a short file.
const FIRST_SIZE: usize = 1 << 16;

/// The bytes of a file that were read and not yet taken.
#[derive(Debug, Drop)]
pub struct Window {
    /// The buffer. It is used again, so that the system clears its pages once.
    buffer: Vec<u8>,
    /// How many bytes of the buffer are filled.
    filled: usize,
    /// How long the buffer becomes, unless a record needs more.
    size: usize,
    /// Whether the bytes were looked at behind a read, and there is no double quote among them.
    plain: bool,
}

impl Model for Window {
    ghost use Rattle.std.specs.Prelude.{◌≡◌, ◌≢◌, ◌≤◌, ℕ, All, List, length, take, true};

    ghost Value = { List ℕ };

    ghost view = { λ s. take s.filled s.buffer.items };

    ghost invariant = { λ s. (s.filled ≤ length s.buffer.items)
        × (s.plain ≡ true → All (λ c. c ≢ 34) (take s.filled s.buffer.items)) };
}

/// Copies bytes to the front of a buffer.
fn copy_front(buffer: &mut [u8], bytes: &[u8])
    requires { length bytes.now ≤ length buffer.old }
    ensures bytes { take (length bytes.now) buffer.new ≡ bytes.now }
    ensures len { length buffer.new ≡ length buffer.old }
{
    buffer[..bytes.len()].copy_from_slice(bytes);
}

/// Reads into a buffer behind its first bytes, until it is full or the source is at its end.
fn fill_behind<S: Source>(
    source: &mut S,
    buffer: &mut [u8],
    filled: usize,
) -> Result<usize, Refusal>
    requires failures { CanStillFail (S.failures source.old) }
    requires filled { filled ≤ length buffer.old }
    ensures len { length buffer.new ≡ length buffer.old }
    ensures range { IfOk result (λ n. filled + n ≤ length buffer.old) }
    ensures bytes { IfOk result (λ n. Fills (S.left source.old) (S.left source.new)
        (take filled buffer.old) (take (filled + n) buffer.new)) }
    ensures end { IfOk result
        (λ n. filled + n < length buffer.old → IsAtEnd (S.left source.new)) }
    ensures no_failures { OnOk result (S.failures source.new ≡ S.failures source.old) }
    ensures failures { IfErr result
        (IsReadFault (S.failures source.old) (S.failures source.new)) }
{
    fill(source, &mut buffer[filled..])
}

impl Window {
    /// No bytes yet, and a buffer that grows to this size.
    pub fn new(alloc: Global, size: usize) -> Window
        ensures { result ≡ [] }
    {
        Window {
            buffer: Vec::new(alloc),
            filled: 0,
            size,
            plain: false,
        }
    }

    /// The bytes.
    pub fn text(&self) -> &[u8]
        ensures { result.now ≡ self.now }
    {
        &self.buffer[..self.filled]
    }

    /// Whether it is known that there is no double quote among the bytes.
    pub fn is_plain(&self) -> bool
        ensures { result ≡ true → All (λ c. c ≢ 34) self.now }
    {
        self.plain
    }

    /// Replaces the bytes by these, which come first in the buffer then. It grows if they fill it,
    /// to twice their number.
    pub fn begin_with(&mut self, bytes: &[u8]) -> Result<(), Memory>
        ensures { OnOk result (self.new ≡ bytes.now) }
    {
        if bytes.len() >= self.buffer.len() {
            self.filled = 0;
            self.buffer.resize(bytes.len().saturating_mul(2), 0)?;
        }
        copy_front(self.buffer.as_mut_slice(), bytes);
        self.filled = bytes.len();
        self.plain = false;
        Ok(())
    }

    /// Makes the buffer twice as large.
    pub fn grow(&mut self) -> Result<(), Memory>
        ensures { OnOk result (self.new ≡ self.old) }
    {
        let size = self.buffer.len().saturating_mul(2).max(1);
        self.buffer.resize(size, 0)?;
        Ok(())
    }

    /// Makes the buffer as long as the next read has it: behind the first a quarter of its size, and
    /// then twice its length. Into fresh pages a thread reads some two times as many bytes as four
    /// threads count meanwhile; if it read more, they would wait.
    fn reserve(&mut self) -> Result<(), Memory>
        ensures { self.new ≡ self.old }
    {
        let len = self.buffer.len();
        let next = if len == 0 {
            FIRST_SIZE
        } else {
            len.saturating_mul(2).max(self.size / 4)
        };
        let next = next.min(self.size);
        if len < next {
            self.buffer.resize(next, 0)?;
        }
        Ok(())
    }

    /// Reads on until the buffer is full or the source is at its end, and returns whether it is at
    /// its end.
    pub fn read_on<S: Source>(&mut self, source: &mut S) -> Result<bool, Refusal>
        requires { CanStillFail (S.failures source.old) }
        ensures bytes { OnOk result
            (Fills (S.left source.old) (S.left source.new) self.old self.new) }
        ensures end { IfOk result (λ at_end. at_end ≡ true → IsAtEnd (S.left source.new)) }
        ensures no_failures { OnOk result (S.failures source.new ≡ S.failures source.old) }
        ensures failures { IfErr result
            (IsReadFault (S.failures source.old) (S.failures source.new)) }
    {
        self.reserve()?;
        self.plain = false;
        self.filled += fill_behind(source, self.buffer.as_mut_slice(), self.filled)?;
        // Quotes are looked for here, since the thread that reads does so while others work.
        self.plain = is_plain(self.text());
        Ok(self.filled < self.buffer.len())
    }
}
