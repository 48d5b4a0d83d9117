//! Laws of timelines.

ghost use Rattle.std.specs.Prelude.{◌≡◌, ℕ, true};
ghost use Rattle.group_machine.specs.State.{is_present};
ghost use Rattle.timeline.specs.declared.parts.Holder.TheVariants as holder;
ghost use Rattle.timeline_recorder.specs.Courses.{holder_in, is_held_by};
ghost use Rattle.world.specs.Valid.{IsValidWorld};
ghost use Rattle.world.specs.World.{WorldState};

/// If the consumer of a present member holds a partition, the timeline says that this member reads
/// it. So where nobody reads, no present member's consumer holds the partition.
pub fn whoever_holds_a_partition_reads_it()
    ensures { (w : WorldState) (m p : ℕ) → IsValidWorld w
        → is_present w.cluster.group m ≡ true → is_held_by w m p ≡ true
        → holder_in w p ≡ holder.Reading m }
{}
