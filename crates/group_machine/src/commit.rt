//! Commits, which members send to a cluster.

ghost use Rattle.std.specs.Prelude.{◌≡◌};
ghost use Rattle.group_machine.specs.Cluster.{CommitTerms};

use keyed_table::Partial;
use std::marker::Model;

/// A commit of the records of a partition from an offset on, by a member in a generation. The
/// records are listed by their key numbers, with a count for each.
#[derive(Debug, Drop)]
pub struct Commit {
    member: u32,
    generation: u32,
    partition: u32,
    from: u32,
    partial: Partial,
}

impl Model for Commit {
    ghost use Rattle.group_machine.specs.Cluster.{CommitTerms};

    ghost Value = { CommitTerms };

    ghost view = { λ c.
        record {
          member = c.member;
          generation = c.generation;
          partition = c.partition;
          from = c.from;
          ids = c.partial;
        } };
}

impl Commit {
    /// Makes a commit. It allocates nothing.
    pub fn new(member: u32, generation: u32, partition: u32, from: u32, partial: Partial) -> Commit
        ensures { result
            ≡ record {
              member = member;
              generation = generation;
              partition = partition;
              from = from;
              ids = partial;
            } }
    {
        Commit {
            member,
            generation,
            partition,
            from,
            partial,
        }
    }

    /// The member that sends it.
    pub fn member(&self) -> u32
        ensures { result ≡ self.now.member }
    {
        self.member
    }

    /// The generation in which it is sent.
    pub fn generation(&self) -> u32
        ensures { result ≡ self.now.generation }
    {
        self.generation
    }

    /// The partition of its records.
    pub fn partition(&self) -> u32
        ensures { result ≡ self.now.partition }
    {
        self.partition
    }

    /// The offset of its first record.
    pub fn from(&self) -> u32
        ensures { result ≡ self.now.from }
    {
        self.from
    }

    /// The key numbers of its records, and their counts.
    pub fn partial(&self) -> &Partial
        ensures { result.now ≡ self.now.ids }
    {
        &self.partial
    }
}
