//! Laws of worlds.

ghost use Rattle.std.specs.Prelude.{List};
ghost use Rattle.partition_log.specs.Keys.{Keyed, keys_in};
ghost use Rattle.commit_store.specs.Commits.{HasPlainCounts};
ghost use Rattle.world.specs.Limits.{AreWorldLimits};
ghost use Rattle.world.specs.Valid.{IsFullyCommitted};
ghost use Rattle.world.specs.World.{WorldState};

/// If all logs are committed to their ends, each key's count is the number of its records.
pub fn full_commit_counts_all_records()
    ensures { (w : WorldState) (appended : List Keyed) → IsFullyCommitted appended w
        → HasPlainCounts w.cluster.store w.cluster.logs (keys_in appended) }
{}

/// The limits have the numbers that the documents say.
pub fn limits_are()
    ensures { AreWorldLimits }
{}
