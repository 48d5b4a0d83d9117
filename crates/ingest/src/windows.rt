//! The part of a source that is in memory.

ghost use Rattle.std.specs.Prelude.{◌≡◌, [], false, IfErr, IfOk, OnOk};
ghost use Rattle.byte_io.specs.Devices.{CanStillFail, IsReadFault};
ghost use Rattle.key_stream.specs.Counting.{Refills};

use byte_io::Source;
use key_stream::{Window, refill};
use lane_words::{Memory, Refusal};
use std::alloc::Global;

/// The bytes of a source that are in memory.
#[derive(Debug, Drop)]
pub struct Windows {
    /// Those that were read and not yet taken.
    pub window: Window,
    /// The next window.
    pub spare: Window,
    /// Whether the source is at its end.
    pub at_end: bool,
}

impl Windows {
    /// No bytes yet, and windows of this size.
    pub fn new(alloc: Global, size: usize) -> Windows
        ensures window { result.window ≡ [] }
        ensures end { result.at_end ≡ false }
    {
        Windows {
            window: Window::new(alloc, size),
            spare: Window::new(alloc, size),
            at_end: false,
        }
    }

    /// Reads on until the window is full or the source is at its end.
    pub fn read_on<S: Source>(&mut self, source: &mut S) -> Result<(), Refusal>
        requires { CanStillFail (S.failures source.old) }
        ensures window { OnOk result (Refills self.old.at_end self.new.at_end
            (S.left source.old) (S.left source.new) self.old.window self.new.window) }
        ensures no_failures { OnOk result (S.failures source.new ≡ S.failures source.old) }
        ensures failures { IfErr result
            (IsReadFault (S.failures source.old) (S.failures source.new)) }
    {
        self.at_end = refill(source, &mut self.window, self.at_end)?;
        Ok(())
    }

    /// Makes the window larger, so that more of the source fits behind its bytes.
    pub fn grow(&mut self) -> Result<(), Memory>
        ensures window { OnOk result (self.new.window ≡ self.old.window) }
        ensures end { self.new.at_end ≡ self.old.at_end }
    {
        self.window.grow()
    }
}
