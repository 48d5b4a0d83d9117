//! Devices that transfer a few bytes at a time and fail at a given call.

ghost use Rattle.std.specs.Prelude.{◌≡◌, ℕ, IfOk, Some, drop};

use byte_io::{DeviceFailed, Sink, Source};
use lane_words::Memory;
use std::alloc::Global;

/// A source that yields one byte a read and fails at every read from the byte at `fails_at` on.
#[derive(Drop)]
pub(crate) struct Drip {
    bytes: Vec<u8>,
    at: usize,
    fails_at: usize,
    pub(crate) failures: u64,
}

impl Drip {
    /// A source of these bytes without a failure so far.
    pub(crate) fn new(alloc: Global, bytes: &[u8], fails_at: usize) -> Result<Drip, Memory>
        ensures { IfOk result (λ d. d.failures ≡ 0) }
    {
        Ok(Drip {
            bytes: Vec::from_slice(alloc, bytes)?,
            at: 0,
            fails_at,
            failures: 0,
        })
    }
}

impl Source for Drip {
    ghost left = { λ s. Some (drop s.at s.bytes.items) };

    ghost failures = { λ s. s.failures };

    fn read(&mut self, buf: &mut [u8]) -> Result<usize, DeviceFailed> {
        if self.at == self.fails_at {
            self.failures += 1;
            return Err(DeviceFailed);
        }
        if buf.is_empty() || self.at >= self.bytes.len() {
            return Ok(0);
        }
        buf[0] = self.bytes[self.at];
        self.at += 1;
        Ok(1)
    }
}

/// A sink that takes up to four bytes a write and fails after `calls` writes.
#[derive(Drop)]
pub(crate) struct Page {
    pub(crate) text: Vec<u8>,
    calls: u64,
    pub(crate) failures: u64,
}

impl Page {
    /// An empty sink without a failure so far.
    pub(crate) fn new(alloc: Global, calls: u64) -> Page
        ensures { result.failures ≡ 0 }
    {
        Page {
            text: Vec::new(alloc),
            calls,
            failures: 0,
        }
    }
}

impl Sink for Page {
    ghost written = { λ s. Some s.text.items };

    ghost failures = { λ s. s.failures };

    fn write(&mut self, bytes: &[u8]) -> Result<usize, DeviceFailed> {
        let n = if bytes.len() < 4 { bytes.len() } else { 4 };
        if self.calls == 0 || self.text.extend_from_slice(&bytes[..n]).is_err() {
            self.failures += 1;
            return Err(DeviceFailed);
        }
        self.calls -= 1;
        Ok(n)
    }
}
