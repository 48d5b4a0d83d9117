//! The parts of a timeline.

use lane_words::Refusal;

/// Who holds a partition.
#[derive(Clone, Copy, Debug, PartialEq, Eq)]
pub enum Holder {
    /// It is granted to no present member, and nobody reads it.
    Nobody,
    /// It is granted to the member of this number, whose consumer does not hold it: nobody reads
    /// it.
    Granted(u32),
    /// It is granted to the member of this number, whose consumer holds it and reads it.
    Reading(u32),
}

/// A part of the course of a partition in which its holder is the same. It ends where the next one
/// begins, and the last one with the last column.
#[derive(Clone, Copy, Debug, PartialEq, Eq)]
pub struct Span {
    /// The first column, from 0.
    pub from: usize,
    /// Who holds the partition.
    pub holder: Holder,
}

/// Records that a member read, or of which it sent a commit.
#[derive(Clone, Copy, Debug)]
pub struct Records {
    /// The number of the member.
    pub member: u32,
    /// Their partition, counted over all topics.
    pub partition: u32,
    /// The first offset.
    pub from: u32,
    /// The offset after the last.
    pub to: u32,
}

/// How the delivery of a commit ended.
#[derive(Clone, Copy, Debug)]
pub enum End {
    /// It was accepted.
    Accepted,
    /// It was refused.
    Refused(Refusal),
    /// It was accepted, and nobody got the reply.
    AcceptedUnanswered,
    /// It was refused, and nobody got the reply.
    RefusedUnanswered,
}

/// What is marked in a column, besides the spans and the generation that begin in it.
#[derive(Clone, Copy, Debug)]
pub enum Mark {
    /// Nothing.
    Empty,
    /// These records were read.
    Poll(Records),
    /// The commit of this number, from 1, was sent.
    Send(u32),
    /// The commit of this number was delivered.
    Delivery { commit: u32, end: End },
    /// Another event, or a whole line, was refused.
    Refused(Refusal),
}

/// A step of the script that shows.
#[derive(Clone, Copy, Debug)]
pub struct Column {
    /// The line of the script, from 1.
    pub line: u64,
    /// The number of the step in its line, from 1.
    pub step: u64,
    /// The generation, if it began with this step.
    pub generation: Option<u32>,
    /// What the step did.
    pub mark: Mark,
}

/// A commit that was sent.
#[derive(Clone, Copy, Debug)]
pub struct Sent {
    /// The column of its sending.
    pub column: usize,
    /// Its records.
    pub records: Records,
}

/// The sums of a whole timeline.
#[derive(Clone, Copy, Debug)]
pub struct Figures {
    /// How many records were read more than once.
    pub read_again: u128,
    /// How many records are counted: those below the committed offsets.
    pub counted: u64,
    /// How many records were appended.
    pub appended: u64,
    /// How often a partition changed its owner.
    pub moves: u64,
}
