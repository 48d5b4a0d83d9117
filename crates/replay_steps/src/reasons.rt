//! The words of the refusals.

ghost use Rattle.std.specs.Prelude.{◌≡◌};
ghost use Rattle.replay_steps.specs.Reasons.{reason_of};

use lane_words::Refusal;

/// Why a step was refused, in a few words of ASCII. Refusals that no step meets have words too.
#[tactic(auto, unfolding(crate::specs::Reasons::reason_of))]
pub fn reason_of(refusal: &Refusal) -> &'static [u8]
    ensures { result.now ≡ reason_of refusal.now }
{
    match refusal {
        Refusal::UnknownMember => b"not a member",
        Refusal::StaleGeneration => b"stale generation",
        Refusal::RebalanceInProgress => b"rebalance in progress",
        Refusal::NothingToGive => b"nothing to give up",
        Refusal::SyncFirst => b"not synced",
        Refusal::ClaimDiffers => b"claim differs",
        Refusal::AlreadyJoined => b"already joined",
        Refusal::NameUsed => b"name used before",
        Refusal::TooManyMembers => b"too many members",
        Refusal::NotOwner => b"partition not granted",
        Refusal::OffsetMismatch { .. } => b"not the committed offset",
        Refusal::PastEnd => b"past the end of the log",
        Refusal::WrongRecords => b"not the records of the log",
        Refusal::EmptyCommit => b"nothing pending",
        Refusal::NotHeld => b"partition not held",
        Refusal::OutOfGroup => b"out of the group",
        Refusal::NoSuchCommit => b"no such commit",
        Refusal::NotSettled => b"not settled",
        Refusal::NobodyPresent => b"nobody present",
        Refusal::KeyTooLong => b"key too long",
        Refusal::LogFull => b"log full",
        Refusal::BadLine { .. } => b"bad line",
        Refusal::NoSuchColumn { .. } => b"no such column",
        Refusal::BadCsv { .. } => b"bad record",
        Refusal::ReadFailed => b"read failed",
        Refusal::WriteFailed => b"write failed",
        Refusal::NobodyLeft { .. } => b"nobody left",
        Refusal::Differs => b"differs",
        Refusal::GateLimit => b"gate limit",
        Refusal::MailFull => b"mail full",
        Refusal::GenerationsOver => b"generations over",
        Refusal::NoSuchTopic { .. } => b"no such topic",
        Refusal::NotKept => b"no static member of that name",
        Refusal::Memory => b"out of memory",
    }
}
