//! A recorder: the timeline of the steps that it is shown.

ghost use Rattle.std.specs.Prelude.{◌≡◌, ◌≤◌, ◌++◌, if◌then◌else◌, IfOk, OnOk, [], fold, length, map, refl, replicate, vec_items};
ghost use Rattle.replay_steps.specs.Steps.{taken};
ghost use Rattle.timeline_recorder.specs.Courses.{extended_courses};
ghost use Rattle.timeline_recorder.specs.Recording.{column_if, column_of, figures_of, finished, generation_begun, is_marked, is_shown, may_move, opening_recording, recorded};
ghost use Rattle.timeline_recorder.specs.Private.Folds.{recorded_all};

use crate::courses::{extend_courses, is_changed};
use crate::marks::{add_joined, add_sent, counted_by, mark_of};
use crate::reads::read_again;
use group_machine::Cluster;
use lane_words::{MOST_PARTITIONS, Memory};
use partitioner::Name;
use replay_steps::{Step, StepEvent, StepObserver};
use report_rows::replay_rows::{appended_total, committed_total};
use std::alloc::Global;
use std::marker::Model;
use timeline::{Column, Figures, Mark, Sent, Span, Timeline};
use world::World;

/// Records the steps that it is shown.
#[derive(Drop)]
pub struct Recorder {
    columns: Vec<Column>,
    lanes: Vec<Vec<Span>>,
    names: Vec<Name>,
    commits: Vec<Sent>,
    generation: u32,
    counted: u64,
}

impl Model for Recorder {
    ghost use Rattle.std.specs.Prelude.{◌≤◌, length, map, vec_items};
    ghost use Rattle.lane_words.specs.declared.limits.TheConstants.{MOST_PARTITIONS};
    ghost use Rattle.timeline_recorder.specs.Courses.{extended_courses};
    ghost use Rattle.timeline_recorder.specs.Recording.{Recording};

    ghost Value = { Recording };

    ghost view = { λ r.
        record {
          columns = r.columns.items;
          lanes = map vec_items r.lanes.items;
          names = r.names.items;
          commits = r.commits.items;
          generation = r.generation;
          counted = r.counted;
        } };

    ghost invariant = { λ r. length r.lanes.items ≤ MOST_PARTITIONS };
}

/// Whether a partition may have another owner or reader after an event.
fn may_move(event: StepEvent) -> bool
    ensures { result ≡ may_move event }
{
    match event {
        StepEvent::Join | StepEvent::Keep | StepEvent::Return => true,
        StepEvent::Rejoin | StepEvent::Sync => true,
        StepEvent::Leave | StepEvent::Lose => true,
        _ => false,
    }
}

fn generation_begun(before: u32, now: u32) -> Option<u32>
    ensures { result ≡ generation_begun before now }
{
    if before == now { None } else { Some(now) }
}

fn is_marked(mark: &Mark) -> bool
    ensures { result ≡ is_marked mark.now }
{
    match mark {
        Mark::Empty => false,
        _ => true,
    }
}

/// The column of a step, after a generation and so many counted records.
fn column_of(generation: u32, counted: u64, step: &Step<'_>, world: &World) -> Column
    ensures { result ≡ column_of generation counted (taken step.now world.now) }
{
    Column {
        line: step.line,
        step: step.number,
        generation: generation_begun(generation, world.cluster().generation()),
        mark: mark_of(counted, step, world),
    }
}

/// Whether a step has a column: a holder changes in it, it is the first of its line, a generation
/// begins in it, or it has a mark.
fn is_shown(changed: bool, column: &Column) -> bool
    ensures { result ≡ is_shown changed column.now }
{
    changed || column.step == 1 || column.generation.is_some() || is_marked(&column.mark)
}

/// An empty course for each partition.
fn empty_lanes(alloc: Global, partitions: u32) -> Result<Vec<Vec<Span>>, Memory>
    ensures { IfOk result (λ lanes. map vec_items lanes.items ≡ replicate partitions []) }
{
    let mut lanes = Vec::new(alloc);
    for _lane in 0..partitions {
        lanes.push(Vec::new(alloc))?;
    }
    Ok(lanes)
}

/// Goes on with all courses, if they are watched in this step.
fn extend_if(watched: bool, lanes: &mut [Vec<Span>], at: usize, world: &World) -> Result<(), Memory>
    requires { length lanes.old ≤ MOST_PARTITIONS }
    ensures { OnOk result (map vec_items lanes.new ≡
        (if watched then extended_courses at world.now (map vec_items lanes.old)
        else map vec_items lanes.old)) }
{
    if watched {
        extend_courses(lanes, at, world)
    } else {
        Ok(())
    }
}

/// Adds a column, if its step has one.
fn add_column(columns: &mut Vec<Column>, changed: bool, column: Column) -> Result<(), Memory>
    ensures { OnOk result (columns.new.items
        ≡ columns.old.items ++ column_if changed column) }
{
    if is_shown(changed, &column) {
        columns.push(column)?;
    }
    Ok(())
}

/// The sums of a timeline with these columns, in the cluster after its last step.
fn figures_of(
    alloc: Global,
    columns: &[Column],
    partitions: usize,
    cluster: &Cluster,
) -> Result<Figures, Memory>
    ensures { IfOk result (λ figures. figures ≡ figures_of columns.now partitions cluster.now) }
{
    Ok(Figures {
        read_again: read_again(alloc, partitions, columns)?,
        counted: committed_total(cluster),
        appended: appended_total(cluster),
        moves: cluster.moves().len() as u64,
    })
}

impl Recorder {
    /// A recorder before the first step, of this many partitions.
    pub fn new(alloc: Global, partitions: u32) -> Result<Recorder, Memory>
        requires { partitions ≤ MOST_PARTITIONS }
        ensures { IfOk result (λ recorder. recorder ≡ opening_recording partitions) }
    {
        Ok(Recorder {
            columns: Vec::new(alloc),
            lanes: empty_lanes(alloc, partitions)?,
            names: Vec::new(alloc),
            commits: Vec::new(alloc),
            generation: 0,
            counted: 0,
        })
    }

    /// The timeline of the steps that it was shown, which left this cluster.
    pub fn finished(self, alloc: Global, cluster: &Cluster) -> Result<Timeline, Memory>
        ensures { IfOk result (λ timeline. timeline ≡ finished self cluster.now) }
    {
        let figures = figures_of(alloc, &self.columns, self.lanes.len(), cluster)?;
        let Recorder {
            columns,
            lanes,
            names,
            commits,
            ..
        } = self;
        Ok(Timeline::new(columns, lanes, names, commits, figures))
    }
}

impl StepObserver for Recorder {
    ghost Shows = { λ a steps b. b ≡ fold recorded a steps };

    #[tactic(auto, unfolding(crate::specs::Recording::recorded))]
    fn show(&mut self, step: &Step<'_>, world: &World) -> Result<(), Memory> {
        let at = self.columns.len();
        let watched = at == 0 || may_move(step.event);
        let changed = watched && is_changed(&self.lanes, world);
        let column = column_of(self.generation, self.counted, step, world);
        extend_if(watched, &mut self.lanes, at, world)?;
        add_joined(&mut self.names, step)?;
        add_sent(&mut self.commits, at, step, world)?;
        add_column(&mut self.columns, changed, column)?;
        self.counted = counted_by(self.counted, step, world);
        self.generation = world.cluster().generation();
        Ok(())
    }

    ghost shows_nothing = { λ o. refl };

    ghost shows_more = { λ a b c first second x y. recorded_all a b c first second x y };
}
