//! The key numbers of a log.

ghost use Rattle.std.specs.Prelude.{◌≡◌, ◌<◌};
ghost use Rattle.partition_log.specs.Logs.{log_at};

use partition_log::LogRead;

/// The key numbers of all records of a partition, in order.
pub fn all_ids<L: LogRead>(logs: &L, p: u32) -> &[u32]
    requires { p < (L.contents logs.now).partitions }
    ensures { result.now ≡ log_at (L.contents logs.now) p }
{
    logs.ids(p, 0, logs.len(p))
}
