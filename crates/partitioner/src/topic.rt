//! Topics.

use crate::name::Name;

/// A topic with partitions of its own. The partitions of several topics are counted over all of
/// them, in the order of the topics.
#[derive(Debug, Drop)]
pub struct Topic {
    /// The name, which no other topic has.
    pub name: Name,
    /// The number of partitions: at least 1, and at most 4096 for all topics together.
    pub partitions: u32,
}
