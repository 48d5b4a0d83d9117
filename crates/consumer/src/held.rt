//! The partitions that a consumer holds.

ghost use Rattle.std.specs.Prelude.{◌≡◌, ◌≤◌, ℕ, None, length, map, slice_index_or, if◌then◌else◌};
ghost use Rattle.std.specs.List.{range_with_len};
ghost use Rattle.bit_planes.specs.PartitionSet.{is_in, partitions_of};
ghost use Rattle.consumer.specs.Private.Hold.{IsHolding};
ghost use Rattle.consumer.specs.Consumer.{leased_slot, realigned_held};

use bit_planes::Plane;
use group_machine::Lease;
use lane_words::MOST_PARTITIONS;

/// The offsets of a partition that is held.
#[derive(Clone, Copy, Debug, PartialEq, Eq)]
pub struct Held {
    /// The base: all records below it are known to be committed.
    pub base: u32,
    /// The position: the offset of the next record to read. The records from the base up to it are
    /// pending.
    pub position: u32,
}

impl Held {
    /// The offsets once exactly the records below this offset are known to be committed.
    pub(crate) fn realigned(self, committed: u32) -> Held
        ensures { result ≡ realigned_held self committed }
    {
        let position = if self.base <= committed {
            self.position.max(committed)
        } else {
            committed
        };
        Held {
            base: committed,
            position,
        }
    }
}

/// Holds what is leased and not held yet, from the committed offset on.
pub fn lease(held: &mut [Option<Held>], holding: &mut Plane, lease: &Lease)
    requires bound { length held.old ≤ MOST_PARTITIONS }
    requires len { length held.old ≡ partitions_of lease.now.assigned }
    requires holding { IsHolding holding.old held.old }
    ensures slots { held.new ≡ map (λ p. leased_slot lease.now p (slice_index_or held.old p None))
        (range_with_len 0 (length held.old)) }
    ensures holding { IsHolding holding.new held.new }
{
    for p in lease.assigned().minus(holding).iter() {
        let start = lease.start(p);
        held[p as usize] = Some(Held {
            base: start,
            position: start,
        });
    }
    *holding = holding.union(lease.assigned());
}

/// Drops what is not assigned.
pub fn give_up(held: &mut [Option<Held>], holding: &mut Plane, assigned: &Plane)
    requires bound { length held.old ≤ MOST_PARTITIONS }
    requires len { length held.old ≡ partitions_of assigned.now }
    requires holding { IsHolding holding.old held.old }
    ensures slots { held.new ≡ map
        (λ p. if is_in assigned.now p then slice_index_or held.old p None else None)
        (range_with_len 0 (length held.old)) }
    ensures holding { IsHolding holding.new held.new }
{
    let dropped = holding.minus(assigned);
    for p in dropped.iter() {
        held[p as usize] = None;
    }
    *holding = holding.minus(&dropped);
}
