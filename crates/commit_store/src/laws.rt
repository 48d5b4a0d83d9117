//! Laws of a store and its logs.

ghost use Rattle.std.specs.Prelude.{ℕ, List};
ghost use Rattle.commit_store.specs.Commits.{IsValidLogs, AreLogsOf, Commits, HasPlainCounts, IsExact, IsFullyCommitted, IsPlaceOf, Key, Keyed, PartitionLogs, keys_in, with_record_at};

/// Appending a record leaves a store exact: the record is past every committed offset, and the
/// counter of a new key is 0.
pub fn append_stays_exact()
    ensures { (s : Commits) (l : PartitionLogs) (p : ℕ) (key : Key) → IsValidLogs l
        → IsPlaceOf l key p → IsExact s l → IsExact s (with_record_at l p key) }
{}

/// If the ends of all logs are committed, each key's counter is the number of its records.
pub fn full_commit_counts_all_records()
    ensures { (s : Commits) (l : PartitionLogs) (appended : List Keyed)
        → IsFullyCommitted s l → AreLogsOf appended l
        → HasPlainCounts s l (keys_in appended) }
{}
