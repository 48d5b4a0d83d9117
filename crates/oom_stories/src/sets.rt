//! Stories of assignments, and of what is withheld of them.

ghost use Rattle.std.specs.Prelude.{◌≡◌, IfOk};
ghost use Rattle.bit_planes.specs.PartitionSet.{partitions_of};
ghost use Rattle.bit_planes.specs.SetRows.{sets_of};
ghost use Rattle.sticky_assignor.specs.Assigned.{HaveRows};
ghost use Rattle.sticky_assignor.specs.Balanced.{AreDisjoint};
ghost use Rattle.oom_stories.specs.Rows.{of_three, three_members};

use crate::stage::Stage;
use crate::state::Elements;
use anyhow::Result;
use bit_planes::{Plane, PlaneRows};
use coop_rebalance::withhold;
use lane_words::{Memory, Refusal};
use std::alloc::Global;
use std::fmt;
use std::io::Write;
use sticky_assignor::assign;

const PARTITIONS: u32 = 5;

/// Rows, printed as members and elements.
#[derive(Drop)]
struct Rows(PlaneRows);

impl fmt::Debug for Rows {
    fn fmt<W: fmt::Write>(&self, f: &mut fmt::Formatter<W>) -> fmt::Result {
        for (member, row) in self.0.iter() {
            let elements = Elements(row);
            write!(f, "{member}:{elements};")?;
        }
        Ok(())
    }
}

/// Rows of members 1, 2 and 3.
fn rows_of(alloc: Global, first: Plane, second: Plane, third: Plane) -> Result<PlaneRows, Memory>
    requires first { partitions_of first ≡ PARTITIONS }
    requires second { partitions_of second ≡ PARTITIONS }
    requires third { partitions_of third ≡ PARTITIONS }
    ensures partitions { IfOk result (λ rows. rows.partitions ≡ PARTITIONS) }
    ensures value { IfOk result (λ rows. rows ≡ of_three first second third) }
{
    let mut rows = PlaneRows::new(alloc, PARTITIONS);
    rows.put(1, first)?;
    rows.put(2, second)?;
    rows.put(3, third)?;
    Ok(rows)
}

/// Rows in which the first member has all partitions.
fn all_of_the_first(alloc: Global) -> Result<PlaneRows, Memory>
    ensures partitions { IfOk result (λ rows. rows.partitions ≡ PARTITIONS) }
    ensures rows { IfOk result (λ rows. HaveRows rows three_members) }
    ensures disjoint { IfOk result (λ rows. AreDisjoint (sets_of rows three_members)) }
{
    rows_of(
        alloc,
        Plane::full(PARTITIONS),
        Plane::new(PARTITIONS),
        Plane::new(PARTITIONS),
    )
}

/// The assignment, if the first member has all partitions.
fn assigned(alloc: Global) -> Result<Rows, Refusal> {
    let owned = all_of_the_first(alloc)?;
    Ok(Rows(assign(alloc, PARTITIONS, &[1, 2, 3], &owned)?))
}

/// The part of an assignment that is not withheld.
fn withheld(alloc: Global) -> Result<Rows, Refusal> {
    let granted = all_of_the_first(alloc)?;
    let target = rows_of(
        alloc,
        Plane::of(PARTITIONS, &[0, 1]),
        Plane::of(PARTITIONS, &[2, 3]),
        Plane::of(PARTITIONS, &[4]),
    )?;
    Ok(Rows(withhold(alloc, &target, &granted)?))
}

/// Assigns partitions, and withholds those that the first member has to give up.
pub fn report<W: Write>(stage: &mut Stage<W>) -> Result<()> {
    let mut alloc = stage.alloc;
    stage.call("assign", &mut alloc, |alloc| assigned(*alloc));
    stage.call("withhold", &mut alloc, |alloc| withheld(*alloc));
    Ok(())
}
