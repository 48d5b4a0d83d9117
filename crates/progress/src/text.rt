//! The text of a progress.

ghost use Rattle.std.specs.Prelude.{◌≡◌, ◌/◌, IfOk, max, string_bytes};
ghost use Rattle.progress.specs.Text.{progress_text};

use std::alloc::{AllocError, Global};

/// How far a read has come.
#[derive(Clone, Copy, Debug)]
pub struct Progress {
    /// The number of bytes read.
    pub read: u64,
    /// How many bytes there are, or 0 if that is not known.
    pub expected: u64,
    /// How long it took, in milliseconds.
    pub millis: u64,
}

/// The bytes of a megabyte.
const MEGABYTE: u64 = 1_000_000;

/// The rate of a read in megabytes per second: bytes per millisecond are thousands per second. The
/// first millisecond counts as a whole one.
fn rate_of(read: u64, millis: u64) -> u64
    ensures { result ≡ read / max millis 1 / 1000 }
{
    read / millis.max(1) / 1000
}

/// The text of a progress, for example `120 MB of 3400 MB, 812 MB/s`.
pub fn progress_text(alloc: Global, progress: &Progress) -> Result<String, AllocError>
    ensures { IfOk result (λ text. string_bytes text ≡ progress_text progress.now) }
{
    let Progress {
        read,
        expected,
        millis,
    } = *progress;
    let done = read / MEGABYTE;
    let rate = rate_of(read, millis);
    if expected == 0 {
        format!(in alloc; "{done} MB, {rate} MB/s")
    } else {
        let all = expected / MEGABYTE;
        format!(in alloc; "{done} MB of {all} MB, {rate} MB/s")
    }
}
