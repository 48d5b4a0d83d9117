//! Laws of traces.

ghost use Rattle.std.specs.Prelude.{ℕ, List, Option};
ghost use Rattle.partitioner.specs.declared.topic.Topic.{Topic};
ghost use Rattle.script.specs.declared.replay.Line.{Line};
ghost use Rattle.trace_report.specs.TraceLaws.{TellsOfReplay};
ghost use Rattle.world.specs.World.{WorldState};

/// Where a script does not end with a fault, its replay ends with the closing rows of the world
/// after the last step of its trace; where it does, replay and trace have the same fault.
pub fn a_trace_ends_where_its_replay_ends()
    ensures { (topics : List Topic) (top : Option ℕ) (batch : ℕ) (w : WorldState)
        (lines : List Line) → TellsOfReplay topics top batch w lines }
{}
