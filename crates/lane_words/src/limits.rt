//! Limits that several crates share.

ghost use Rattle.lane_words.specs.Limits.{AreGroupLimits, AreRecordLimits};

/// The largest number of partitions, over all topics.
pub const MOST_PARTITIONS: u32 = 4096;

/// The largest number of topics.
pub const MOST_TOPICS: usize = 8;

/// The largest number of members that a group can have had, lost ones included.
pub const MOST_MEMBERS: usize = 512;

/// The length of the longest key, in bytes.
pub const LONGEST_KEY: usize = 65_535;

/// The most records in one log, and the most distinct keys: offsets and key numbers have 32 bits.
pub const MOST_RECORDS: u32 = u32::MAX;

/// The number of the last generation of a group.
pub const LAST_GENERATION: u32 = u32::MAX;

/// A law: the limits have the numbers that the documents say.
pub fn limits_are()
    ensures group { AreGroupLimits }
    ensures records { AreRecordLimits }
{}
