//! Names, colours and words.

ghost use Rattle.std.specs.Prelude.{◌≡◌};
ghost use Rattle.timeline_svg.specs.Words.{colour_of, end_class, end_words, is_accepted, member_of, name_of};

use partitioner::Name;
use replay_steps::reason_of;
use timeline::{End, Holder};

/// The number of a member's colour, from 1 to 8.
pub fn colour_of(member: u32) -> u128
    ensures { result ≡ colour_of member }
{
    (member as u128 + 7) % 8 + 1
}

/// The name of a member, or nothing if there is none of this number.
pub fn name_of(names: &[Name], member: u32) -> &[u8]
    ensures { result.now ≡ name_of names.now member }
{
    if member == 0 {
        return b"";
    }
    match names.get(member as usize - 1) {
        Some(name) => name.text(),
        None => b"",
    }
}

/// The member that a partition is granted to, or 0.
pub fn member_of(holder: Holder) -> u32
    ensures { result ≡ member_of holder }
{
    match holder {
        Holder::Nobody => 0,
        Holder::Granted(member) | Holder::Reading(member) => member,
    }
}

/// Whether a delivery was accepted.
pub fn is_accepted(end: End) -> bool
    ensures { result ≡ is_accepted end }
{
    match end {
        End::Accepted | End::AcceptedUnanswered => true,
        End::Refused(_) | End::RefusedUnanswered => false,
    }
}

/// The class of a commit whose delivery ended so.
pub fn end_class(end: End) -> &'static [u8]
    ensures { result.now ≡ end_class end }
{
    match end {
        End::Accepted => b"accepted",
        End::Refused(_) => b"refused",
        End::AcceptedUnanswered => b"accepted unanswered",
        End::RefusedUnanswered => b"refused unanswered",
    }
}

/// How a delivery ended, in words.
pub fn end_words(end: End) -> &'static [u8]
    ensures { result.now ≡ end_words end }
{
    match end {
        End::Accepted => b"accepted",
        End::Refused(why) => reason_of(&why),
        End::AcceptedUnanswered => b"accepted, unanswered",
        End::RefusedUnanswered => b"refused, unanswered",
    }
}
