//! The bytes that the hash seeds of keys are drawn from.

ghost use Rattle.std.specs.Prelude.{◌≡◌, ℕ, ◌<◌, ◌%◌, length, slice_index, IsOk};

use std::io;
use std::random::RandomSource;

/// 32 bytes of the caller's: a static library has no runtime of its own to ask the system.
#[derive(Clone, Copy)]
pub struct Seed {
    /// The bytes.
    bytes: [u8; 32],
}

impl Seed {
    /// A source of these bytes.
    pub fn new(bytes: [u8; 32]) -> Seed
        ensures { result.bytes ≡ bytes }
    {
        Seed { bytes }
    }
}

impl RandomSource for Seed {
    /// The seed's bytes, and again from the first on where `buf` is longer.
    fn fill_bytes(&self, buf: &mut [u8]) -> io::Result<()>
        ensures ok { IsOk result }
        ensures bytes { (k : ℕ) → k < length buf.old
            → slice_index buf.new k ≡ slice_index self.now.bytes (k % 32) }
    {
        for i in 0..buf.len() {
            buf[i] = self.bytes[i % 32];
        }
        Ok(())
    }
}
