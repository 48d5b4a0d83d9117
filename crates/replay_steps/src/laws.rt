//! Laws of the steps.

ghost use Rattle.std.specs.Prelude.{ℕ};
ghost use Rattle.replay_steps.specs.Lines.{EndsWithItsSteps, outcome_of_line};
ghost use Rattle.script.specs.declared.replay.Line.{Line};
ghost use Rattle.world.specs.World.{WorldState};

/// A line has at least one step. Its answer, and the world after it, are those of the last.
pub fn a_line_ends_with_its_last_step()
    ensures { (batch : ℕ) (w : WorldState) (line : Line)
        → EndsWithItsSteps (outcome_of_line batch w line) }
{}
