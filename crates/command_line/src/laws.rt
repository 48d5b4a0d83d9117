//! Laws of explanations and limits.

ghost use Rattle.command_line.specs.Explanations.{AreAllRefusals, BeginWithCodes, explanation_of};
ghost use Rattle.command_line.specs.Limits.{AreDefaults, AreOptionLimits};
ghost use Rattle.command_line.specs.declared.explanations.TheConstants.{REFUSALS};

/// Each refusal is listed, and its explanation begins with its number.
pub fn each_refusal_is_explained()
    ensures elements { AreAllRefusals REFUSALS }
    ensures start { BeginWithCodes explanation_of }
{}

/// The limits and defaults of options have the numbers that the documents say.
pub fn limits_are()
    ensures limits { AreOptionLimits }
    ensures defaults { AreDefaults }
{}
