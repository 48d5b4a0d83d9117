//! Leases, which a cluster returns to a member that syncs.

ghost use Rattle.std.specs.Prelude.{◌≡◌, ◌<◌};
ghost use Rattle.bit_planes.specs.PartitionSet.{partitions_of};
ghost use Rattle.group_machine.specs.Cluster.{LeaseTerms, start_of};

use bit_planes::Plane;
use std::marker::Model;

/// The partitions that a member is assigned in a generation, and the offset to read each from.
#[derive(Debug, Drop)]
pub struct Lease {
    pub(crate) member: u32,
    pub(crate) generation: u32,
    pub(crate) assigned: Plane,
    pub(crate) starts: Vec<u32>,
}

impl Model for Lease {
    ghost use Rattle.std.specs.Prelude.{◌≡◌, length};
    ghost use Rattle.bit_planes.specs.PartitionSet.{partitions_of};
    ghost use Rattle.group_machine.specs.Cluster.{LeaseTerms};

    ghost Value = { LeaseTerms };

    ghost view = { λ l.
        record {
          member = l.member;
          generation = l.generation;
          assigned = l.assigned;
          starts = l.starts.items;
        } };

    ghost invariant = { λ l. length l.starts.items ≡ partitions_of l.assigned };
}

impl Lease {
    /// The member that it is for.
    pub fn member(&self) -> u32
        ensures { result ≡ self.now.member }
    {
        self.member
    }

    /// The generation that it is for.
    pub fn generation(&self) -> u32
        ensures { result ≡ self.now.generation }
    {
        self.generation
    }

    /// The partitions that the member is assigned.
    pub fn assigned(&self) -> &Plane
        ensures { result.now ≡ self.now.assigned }
    {
        &self.assigned
    }

    /// The committed offset of a partition, which is the offset of the next record to read.
    pub fn start(&self, p: u32) -> u32
        requires { p < partitions_of self.now.assigned }
        ensures { result ≡ start_of self.now p }
    {
        self.starts[p as usize]
    }
}
