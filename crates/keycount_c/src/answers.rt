//! What a call returns: 0, the number of a refusal, or one of these.

ghost use Rattle.std.specs.Prelude.{◌≡◌};
ghost use Rattle.lane_words.specs.Refusal.{code_of};

use lane_words::Refusal;

/// The call was done.
pub const DONE: u32 = 0;

/// No such member: the number of `Refusal::UnknownMember`.
pub const UNKNOWN_MEMBER: u32 = 1;

/// Out of memory: the number of `Refusal::Memory`.
pub const MEMORY: u32 = 90;

/// The handle has no value.
pub const NO_VALUE: u32 = 101;

/// The handle has a value already.
pub const HAS_VALUE: u32 = 102;

/// An argument is out of range.
pub const BAD_ARGUMENT: u32 = 103;

/// An output is too short.
pub const TOO_SHORT: u32 = 104;

/// The number of a refusal: 1 to 33, or 90.
pub fn number_of(refusal: Refusal) -> u32
    ensures { result ≡ code_of refusal }
{
    u32::from(refusal.code())
}
