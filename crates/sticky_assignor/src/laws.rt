//! Laws of the target assignment.

ghost use Rattle.std.specs.Prelude.{◌≡◌, ℕ, List};
ghost use Rattle.bit_planes.specs.PartitionSet.{PartitionSet};
ghost use Rattle.sticky_assignor.specs.Balanced.{AreBelow, AreOwned, IsBalanced};
ghost use Rattle.sticky_assignor.specs.Retained.{RetainsMost};
ghost use Rattle.sticky_assignor.specs.Target.{target};

/// Each target assignment is balanced.
pub fn target_is_balanced()
    ensures { (partitions : ℕ) (owned : List PartitionSet)
        → AreOwned partitions owned
        → IsBalanced partitions (target partitions owned) }
{}

/// No balanced assignment leaves more partitions with their owners.
pub fn target_retains_most()
    ensures { (partitions : ℕ) (owned : List PartitionSet)
        → AreBelow partitions owned → RetainsMost partitions owned (target partitions owned) }
{}

/// Nothing moves if the assignment is balanced already.
pub fn balanced_target_is_unchanged()
    ensures { (partitions : ℕ) (rows : List PartitionSet)
        → AreBelow partitions rows → IsBalanced partitions rows → target partitions rows ≡ rows }
{}
