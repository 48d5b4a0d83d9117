//! A source that is watched.

ghost use Rattle.std.specs.Prelude.{◌≡◌};

use byte_io::{DeviceFailed, Source};

/// Who watches the reads of a source.
pub trait Watcher {
    /// So many bytes more were read.
    fn read(&mut self, bytes: usize);

    /// There are no more bytes, or a read failed.
    fn ended(&mut self);
}

/// A source, and who watches its reads.
#[derive(Drop)]
pub struct Watched<S, W> {
    source: S,
    watcher: W,
}

impl<S: Source, W: Watcher> Watched<S, W> {
    /// A source of the same bytes, each read of which is shown to a watcher.
    pub fn new(source: S, watcher: W) -> Watched<S, W>
        ensures left { ⟦<Watched<S, W> as Source>⟧.left result ≡ S.left source }
        ensures failures { ⟦<Watched<S, W> as Source>⟧.failures result ≡ S.failures source }
    {
        Watched { source, watcher }
    }
}

impl<S: Source, W: Watcher> Source for Watched<S, W> {
    ghost left = { λ s. S.left s.source };

    ghost failures = { λ s. S.failures s.source };

    fn expected(&self) -> usize {
        self.source.expected()
    }

    fn read(&mut self, buf: &mut [u8]) -> Result<usize, DeviceFailed> {
        let found = self.source.read(buf);
        match found {
            Ok(bytes) if bytes > 0 => self.watcher.read(bytes),
            _ => self.watcher.ended(),
        }
        found
    }
}
