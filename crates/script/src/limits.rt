//! The limits of a script.

ghost use Rattle.script.specs.Limits.{AreScriptLimits};

/// The longest line, in bytes, without its line feed and a carriage return before it.
pub const LONGEST_LINE: usize = 256;

/// The most digits of a number.
pub const MOST_DIGITS: usize = 10;

/// What a partition past the last of its topic parses to. No member ever holds it.
pub const NO_PARTITION: u32 = u32::MAX;

/// A law: the limits have the numbers that the documents say.
pub fn limits_are()
    ensures { AreScriptLimits }
{}
