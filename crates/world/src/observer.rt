//! Observers of the events that a world chooses.

ghost use Rattle.std.specs.Prelude.{◌≡◌, ◌∷◌, [], ◌++◌, List, OnOk};
ghost use Rattle.world.specs.Observing.{Seen};

use crate::event::{Event, Reply};
use crate::world::World;
use lane_words::Memory;

/// Sees events as they come about, one after the other.
pub trait Observer {
    // The second is the first after it has seen these events, in order.
    ghost Sees: { Self → List Seen → Self → Type 0 };

    /// Sees an event, the reply to it and the world afterwards. An error is `Memory`; the observer
    /// is then not used again.
    fn see(&mut self, event: Event<'_>, reply: Reply, world: &World) -> Result<(), Memory>
        ensures { OnOk result (Sees self.old
            (record { event = event.entry; reply = reply; after = world.now } ∷ []) self.new) };

    ghost sees_nothing: { (o : Self) → Sees o [] o };

    ghost sees_more: { (a b c : Self) (first second : List Seen)
        → Sees a first b → Sees b second c → Sees a (first ++ second) c };
}

/// Sees nothing of the events.
#[derive(Drop)]
pub struct Unobserved;

impl Observer for Unobserved {
    ghost Sees = { λ a seen b. Unit {0} };

    fn see(&mut self, _event: Event<'_>, _reply: Reply, _world: &World) -> Result<(), Memory> {
        Ok(())
    }

    ghost sees_nothing = { λ o. tt };

    ghost sees_more = { λ a b c first second x y. tt };
}
