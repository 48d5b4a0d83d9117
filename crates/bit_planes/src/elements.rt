//! Iteration over the elements of a set.

ghost use Rattle.std.specs.Prelude.{◌≡◌, ◌≤◌, length};
ghost use Rattle.std.specs.Iterator.{YieldsFirst, item_count};
ghost use Rattle.bit_planes.specs.PartitionSet.{elements};

use crate::plane::Plane;
use lane_words::MOST_PARTITIONS;
use std::marker::Model;

/// An iterator over the elements of a set, in rising order.
#[derive(Debug, Drop)]
pub struct Elements<'a> {
    /// The set.
    plane: &'a Plane,
    /// The elements below this have been returned.
    from: u32,
}

impl<'a> Model for Elements<'a> {
    ghost use Rattle.std.specs.Prelude.{List, ℕ};

    ghost Value = { List ℕ };

    ghost use Rattle.bit_planes.specs.Private.ElementsLeft.{elements_left};

    ghost view = { elements_left };
}

impl<'a> Elements<'a> {
    /// Starts at the lowest element.
    pub(crate) fn new(plane: &'a Plane) -> Elements<'a>
        ensures value { result ≡ elements plane.now }
        ensures bound { length result ≤ MOST_PARTITIONS }
    {
        prove!(plane.partitions() <= MOST_PARTITIONS);
        Elements { plane, from: 0 }
    }
}

impl<'a> Iterator for Elements<'a> {
    type Item = u32;

    ghost next_gives = { YieldsFirst (λ s. s) };

    ghost remaining = { item_count (λ s. s) };

    fn next(&mut self) -> Option<u32> {
        let q = self.plane.lowest_from(self.from)?;
        self.from = q + 1;
        Some(q)
    }
}
