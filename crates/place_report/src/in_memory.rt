//! A source of bytes that are in memory.

ghost use Rattle.std.specs.Prelude.{Some};

use byte_io::{DeviceFailed, Source};
use std::io::Read;

/// A source of bytes in memory. No read of it fails.
#[derive(Drop)]
pub struct InMemory<'a> {
    /// The bytes not read yet.
    pub left: &'a [u8],
}

impl Source for InMemory<'_> {
    ghost left = { λ s. Some s.left.now };

    ghost failures = { λ s. 0 };

    fn read(&mut self, buf: &mut [u8]) -> Result<usize, DeviceFailed> {
        let Ok(n) = self.left.read(buf) else {
            unreachable!()
        };
        Ok(n)
    }
}
