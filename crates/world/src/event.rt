//! The events of a world, and the replies to them.

ghost use Rattle.std.specs.Prelude.{◌≡◌};
ghost use Rattle.world.specs.Courses.{answer_in};

use group_machine::Name;
use lane_words::Refusal;

/// The most commits that can be sent in a world.
pub const MOST_COMMITS: usize = 65_536;

/// An event. Members and sent commits are named by their numbers, from 1.
#[derive(Clone, Copy, Debug)]
pub enum Event<'a> {
    /// A record of this key is appended to the first topic.
    Append(&'a [u8]),
    /// A record of this key is appended to the topic of this index.
    AppendIn(u32, &'a [u8]),
    /// A member joins under this name, with a consumer of its own.
    Join(&'a Name),
    /// A static member joins: it keeps its seat under this name.
    JoinKept(&'a Name),
    /// A new member, with a consumer of its own, takes over the seat of the static member of this
    /// name. The consumer of the old member does not learn of it.
    TakeOver(&'a Name),
    /// A member's consumer takes a lease.
    Sync(u32),
    /// A member's consumer claims its lease, and gives up all other partitions.
    Rejoin(u32),
    /// A member leaves, and its consumer drops everything.
    Leave(u32),
    /// A member is lost. Its consumer does not learn of it.
    Lose(u32),
    /// A member's consumer reads at most `records` more records of a partition.
    Poll {
        member: u32,
        partition: u32,
        records: u32,
    },
    /// A member's consumer sends a commit of what is pending of a partition. The mail grows by it.
    Send {
        member: u32,
        partition: u32,
    },
    /// A commit of the mail reaches the cluster, and the reply reaches its member's consumer.
    Deliver(u32),
    /// A commit of the mail reaches the cluster, and the reply is lost.
    DeliverUnanswered(u32),
}

/// The reply to an event.
#[derive(Clone, Copy, Debug, PartialEq, Eq)]
pub enum Reply {
    /// The partition and the offset of the record.
    Appended(u32, u32),
    /// The member's number.
    Joined(u32),
    /// The new member's number.
    TakenOver(u32),
    /// The generation of the lease.
    Leased(u32),
    /// The claim was taken.
    Rejoined,
    /// The member has left.
    Left,
    /// The member is lost.
    Lost,
    /// The number of records that were read.
    Polled(u32),
    /// The number of the commit.
    Sent(u32),
    /// The new committed offset.
    Committed(u32),
    /// The commit reached the cluster, which may have accepted or refused it.
    Unanswered,
    /// The event was refused.
    Refused(Refusal),
}

impl Reply {
    /// The refusal, if the event was refused.
    pub fn answer(self) -> Result<(), Refusal>
        ensures { result ≡ answer_in self }
    {
        match self {
            Reply::Refused(why) => Err(why),
            _ => Ok(()),
        }
    }
}
