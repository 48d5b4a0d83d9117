//! A round, in which one thread reads ahead.

ghost use Rattle.std.specs.Prelude.{◌≡◌, ◌⊎◌, ◌≤◌, IfErr, IfOk, OnOk, vec_len};
ghost use Rattle.byte_io.specs.Devices.{CanStillFail, IsReadFault};
ghost use Rattle.key_stream.specs.Ahead.{HasReadAhead};
ghost use Rattle.key_stream.specs.Counting.{HasMarks, Refills};
ghost use Rattle.key_stream.specs.Layouts.{HasFaultInSplit, TakesSplitBy};
ghost use Rattle.lane_words.specs.declared.Refusal.TheVariants as refusal;

use crate::counting::{Counting, Split};
use crate::source::refill;
use crate::window::Window;
use crate::worker::Layout;
use byte_io::Source;
use lane_words::Refusal;
use std::alloc::Global;
use std::thread::Threads;

/// What is read while chunks are taken. The code that takes them knows no more of it.
pub trait ReadAhead {
    // It can be read.
    ghost can_read: { Self → Type 0 };

    // It was read, or was refused.
    ghost has_read: { Self → Self → Type 0 };

    /// Reads it.
    fn read(&mut self)
        requires { can_read self.old }
        ensures { has_read self.old self.new };

    /// Reads nothing, for want of memory.
    fn refuse(&mut self) -> Refusal
        ensures fault { result ≡ refusal.Memory }
        ensures state { has_read self.old self.new };
}

/// The next window, and the source that it is filled from.
#[derive(Drop)]
pub struct Ahead<'a, S> {
    /// The source.
    pub source: &'a mut S,
    /// The window.
    pub window: &'a mut Window,
    /// Whether the source is at its end, so that there is nothing to read.
    pub at_end: bool,
    /// Whether it is behind the read, or the read's fault.
    pub read: Result<bool, Refusal>,
}

impl<S: Source> ReadAhead for Ahead<'_, S> {
    ghost can_read = { λ ahead. CanStillFail (S.failures ahead.source.now) };

    ghost has_read = { HasReadAhead S.left S.failures };

    fn read(&mut self) {
        self.read = refill(self.source, self.window, self.at_end);
    }

    fn refuse(&mut self) -> Refusal {
        self.read = Err(Refusal::Memory);
        Refusal::Memory
    }
}

/// Takes the chunks of a split text, while the next window is filled: with the bytes that they
/// leave, and behind these from the source. Returns whether the source is at its end. Fails with
/// the read's fault if it has one, and otherwise with that of the first bad record.
pub fn take_and_read<R: Threads + Sync, S: Source>(
    rt: &R,
    alloc: Global,
    counting: &mut Counting,
    split: &Split<'_>,
    layout: &Layout<'_>,
    source: &mut S,
    next: &mut Window,
) -> Result<bool, Refusal>
    requires failures { CanStillFail (S.failures source.old) }
    requires marks { HasMarks counting.old }
    requires split { split.now.count ≤ vec_len split.now.pieces }
    ensures marks { OnOk result (HasMarks counting.new) }
    ensures len { vec_len counting.new.workers ≡ vec_len counting.old.workers }
    ensures coded { counting.new.coded ≡ counting.old.coded }
    ensures ok { OnOk result (TakesSplitBy layout.now split.now counting.old counting.new) }
    ensures window { IfOk result (λ end. Refills split.now.at_end end
        (S.left source.old) (S.left source.new) split.now.rest.now next.new) }
    ensures no_failures { OnOk result (S.failures source.new ≡ S.failures source.old) }
    ensures err { IfErr result (λ e. IsReadFault (S.failures source.old) (S.failures source.new) e
        ⊎ ((S.failures source.new ≡ S.failures source.old)
        × ((e ≡ refusal.Memory) ⊎ HasFaultInSplit layout.now split.now counting.old e))) }
{
    next.begin_with(split.rest)?;
    let mut ahead = Ahead {
        source,
        window: next,
        at_end: split.at_end,
        read: Err(Refusal::Memory),
    };
    let taken = counting.take(rt, alloc, split, layout, &mut ahead);
    let end = match ahead.read {
        Ok(end) => end,
        Err(fault) => return Err(fault),
    };
    match taken {
        Ok(()) => Ok(end),
        Err(fault) => Err(fault),
    }
}
