//! Laws of logs.

ghost use Rattle.std.specs.Prelude.{◌≡◌, List};
ghost use Rattle.partition_log.specs.Keys.{Key, Keyed, keys_in, plain};
ghost use Rattle.partition_log.specs.Logs.{IsValidLogs, AreLogsOf, PartitionLogs, count_in_logs};

/// Each record is in exactly one log: over all logs together a key occurs as often as in the list
/// of the appended records.
pub fn each_record_is_in_one_log()
    ensures { (appended : List Keyed) (l : PartitionLogs) (x : Key) → IsValidLogs l
        → AreLogsOf appended l → count_in_logs l x ≡ plain (keys_in appended) x }
{}
