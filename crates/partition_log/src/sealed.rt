//! Read-only logs.

ghost use Rattle.std.specs.Prelude.{◌≡◌, ◌↔◌, IfOk, IsTrue};
ghost use Rattle.partition_log.specs.Logs.{IsValidLogs, PartitionLogs};

use crate::{LogRead, Logs};
use lane_words::Memory;
use std::alloc::Global;
use std::marker::Model;
use std::random::RandomSource;
use std::thread::Threads;

/// Read-only logs: nothing is appended to them any more, so any number of threads may read them.
#[derive(Drop)]
pub struct SealedLogs {
    /// The logs.
    pub(crate) logs: Logs,
}

impl Model for SealedLogs {
    ghost use Rattle.partition_log.specs.Logs.{PartitionLogs};

    ghost Value = { PartitionLogs };

    ghost view = { λ s. s.logs };
}

impl LogRead for SealedLogs {
    ghost contents = { λ l. l };

    fn partitions(&self) -> u32 {
        self.logs.partitions()
    }

    fn len(&self, p: u32) -> u32 {
        self.logs.len(p)
    }

    fn ids(&self, p: u32, from: u32, to: u32) -> &[u32] {
        self.logs.ids(p, from, to)
    }

    fn key(&self, id: u32) -> &[u8] {
        self.logs.key(id)
    }

    fn keys(&self) -> u32 {
        self.logs.keys()
    }
}

impl SealedLogs {
    /// An equal copy with the same key numbers, to which records can be appended. Fails, as
    /// `Logs::new` does, if memory runs out or the random source fails.
    pub fn copy<R: Threads + Sync + RandomSource>(
        &self,
        rt: &R,
        alloc: Global,
    ) -> Result<Logs, Memory>
        ensures value { IfOk result (λ logs. logs ≡ self.now) }
        ensures valid { IfOk result IsValidLogs }
    {
        self.logs.copy(rt, alloc)
    }

    /// Whether other logs are equal: over the same number of partitions in each topic, with the
    /// same keys by the same numbers, and the same key numbers in each log in order. They are
    /// compared in parallel, in time in proportion to the keys' bytes and the records.
    pub fn same<R: Threads + Sync>(&self, rt: &R, other: &Logs) -> bool
        ensures { IsTrue result ↔ (self.now ≡ other.now) }
    {
        self.logs.same(rt, other)
    }
}
