//! The handle of a consumer. Each of its functions but `drop` is proved by hand; only `access.rt`
//! calls them.

ghost use Rattle.std.specs.Prelude.{◌≡◌, false, true, MatchOption};
ghost use Rattle.consumer.specs.Consumer.{ConsumerState};
ghost use Rattle.raw_box.specs.Owned.{is_none_at};

use consumer::Consumer;
use raw_box::RawBox;
use std::alloc::Global;
use std::marker::Model;
use std::ptr::null_mut;

/// A consumer, or none, as C holds it: one pointer, since `Global` takes no bytes. C keeps it as a
/// call left it, and in one place.
#[repr(C)]
pub struct ConsumerHandle {
    /// Where the consumer is, or null.
    at: *mut u8,
    /// What its block was allocated from.
    alloc: Global,
    /// The consumer.
    ghost state: { ConsumerState },
}

impl Model for ConsumerHandle {
    ghost use Rattle.consumer.specs.contracts.Consumer.{the_row as consumer};
    ghost use Rattle.raw_box.specs.Owned.{owned};

    ghost also_owns = { λ h. owned consumer h.alloc h.at h.state };
}

// C may pass a handle to another thread, which then makes the calls, one at a time.
unsafe impl Send for ConsumerHandle {}

impl Drop for ConsumerHandle {
    fn drop(self) {
        if let Some(raw) = self.into_raw() {
            drop(raw.into_box());
        }
    }
}

impl ConsumerHandle {
    /// A handle with this consumer.
    pub fn of(raw: RawBox<Consumer, Global>) -> ConsumerHandle
        ensures { (is_none_at result.at ≡ false) × (result.state ≡ raw.value) }
    {
        let RawBox { at, alloc } = raw;
        ConsumerHandle {
            at: at as *mut u8,
            alloc,
        }
    }

    /// The consumer, if there is one.
    pub fn into_raw(self) -> Option<RawBox<Consumer, Global>>
        ensures { MatchOption result (is_none_at self.at ≡ true)
            (λ raw. (is_none_at self.at ≡ false) × (raw.value ≡ self.state)) }
    {
        let ConsumerHandle { at, alloc } = self;
        if at.is_null() {
            None
        } else {
            Some(RawBox {
                at: at as *mut Consumer,
                alloc,
            })
        }
    }

    /// A handle without a consumer.
    pub fn none(alloc: Global) -> ConsumerHandle
        ensures { is_none_at result.at ≡ true }
    {
        ConsumerHandle {
            at: null_mut(),
            alloc,
        }
    }
}
