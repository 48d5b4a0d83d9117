//! A timeline: what a replay shows, column by column and partition by partition.

ghost use Rattle.std.specs.Prelude.{◌≡◌, length, map, vec_items};
ghost use Rattle.timeline.specs.Timelines.{course_of};

use crate::parts::{Column, Figures, Sent, Span};
use partitioner::Name;
use std::marker::Model;

/// What a replay shows.
#[derive(Debug, Drop)]
pub struct Timeline {
    columns: Vec<Column>,
    lanes: Vec<Vec<Span>>,
    names: Vec<Name>,
    commits: Vec<Sent>,
    figures: Figures,
}

impl Model for Timeline {
    ghost use Rattle.std.specs.Prelude.{map, vec_items};
    ghost use Rattle.timeline.specs.Timelines.{TimelineState};

    ghost Value = { TimelineState };

    ghost view = { λ t.
        record {
          columns = t.columns.items;
          lanes = map vec_items t.lanes.items;
          names = t.names.items;
          commits = t.commits.items;
          figures = t.figures;
        } };
}

impl Timeline {
    /// The timeline of these parts: columns, courses, names, commits and sums.
    pub fn new(
        columns: Vec<Column>,
        lanes: Vec<Vec<Span>>,
        names: Vec<Name>,
        commits: Vec<Sent>,
        figures: Figures,
    ) -> Timeline
        ensures columns { result.columns ≡ columns.items }
        ensures lanes { result.lanes ≡ map vec_items lanes.items }
        ensures names { result.names ≡ names.items }
        ensures commits { result.commits ≡ commits.items }
        ensures figures { result.figures ≡ figures }
    {
        Timeline {
            columns,
            lanes,
            names,
            commits,
            figures,
        }
    }

    /// The steps that show, in order.
    pub fn columns(&self) -> &[Column]
        ensures { result.now ≡ self.now.columns }
    {
        &self.columns
    }

    /// The number of partitions.
    pub fn partitions(&self) -> usize
        ensures { result ≡ length self.now.lanes }
    {
        self.lanes.len()
    }

    /// The course of a partition: its spans, in order. It is empty if there is no such partition.
    pub fn course(&self, partition: usize) -> &[Span]
        ensures { result.now ≡ course_of self.now.lanes partition }
    {
        match self.lanes.get(partition) {
            Some(lane) => lane.as_slice(),
            None => &[],
        }
    }

    /// The name of each member that ever joined, in the order of their numbers.
    pub fn names(&self) -> &[Name]
        ensures { result.now ≡ self.now.names }
    {
        &self.names
    }

    /// The commits that were sent, in the order of their numbers.
    pub fn commits(&self) -> &[Sent]
        ensures { result.now ≡ self.now.commits }
    {
        &self.commits
    }

    /// The sums of all.
    pub fn figures(&self) -> Figures
        ensures { result ≡ self.now.figures }
    {
        self.figures
    }
}
