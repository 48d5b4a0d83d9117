//! The consumer behind a handle, taken and put back: what each call begins and ends with.

ghost use Rattle.std.specs.Prelude.{◌≡◌, None, Some, MatchOption};
ghost use Rattle.keycount_c.specs.Held.{consumer_in};

use super::handle::ConsumerHandle;
use consumer::Consumer;
use raw_box::RawBox;
use std::alloc::Global;
use std::mem;

/// Takes the consumer. The handle has none afterwards.
pub fn take(handle: &mut ConsumerHandle, alloc: Global) -> Option<Box<Consumer>>
    ensures value { MatchOption result (consumer_in handle.old ≡ None)
        (λ consumer. consumer_in handle.old ≡ Some consumer.value) }
    ensures none { consumer_in handle.new ≡ None }
{
    match mem::replace(handle, ConsumerHandle::none(alloc)).into_raw() {
        Some(raw) => Some(raw.into_box()),
        None => None,
    }
}

/// Puts a consumer behind the handle.
pub fn put(handle: &mut ConsumerHandle, consumer: Box<Consumer>)
    ensures { consumer_in handle.new ≡ Some consumer.value }
{
    *handle = ConsumerHandle::of(RawBox::of(consumer));
}
