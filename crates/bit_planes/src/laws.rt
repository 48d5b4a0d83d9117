//! Extensionality of sets and of rows.

ghost use Rattle.std.specs.Prelude.{◌≡◌, ℕ};
ghost use Rattle.bit_planes.specs.PartitionSet.{PartitionSet, partitions_of, is_in};
ghost use Rattle.bit_planes.specs.SetRows.{SetRows, HaveSameRows, IsValidRows};

/// Two sets over the same number of partitions with the same elements are equal.
pub fn sets_equal_by_elements()
    ensures { (s t : PartitionSet) → partitions_of s ≡ partitions_of t
        → ((q : ℕ) → is_in s q ≡ is_in t q) → s ≡ t }
{}

/// Two tables of rows over the same number of partitions are equal where every look-up agrees.
pub fn rows_equal_by_look_up()
    ensures { (r s : SetRows) → IsValidRows r → IsValidRows s
        → r.partitions ≡ s.partitions → HaveSameRows r s → r ≡ s }
{}
