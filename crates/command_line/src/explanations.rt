//! What `keycount explain` prints: of each refusal its number, its name and what was the case; then
//! the jobs and steps that report it, why it comes, what it left as it was, what to do about it,
//! and Kafka's own error if there is one.

ghost use Rattle.std.specs.Prelude.{◌≡◌, ◌++◌, IfOk, IfSome, None, OnOk, codes};
ghost use Rattle.std.specs.List.{position};
ghost use Rattle.lane_words.specs.Refusal.{code_of};
ghost use Rattle.command_line.specs.Private.Codes.{has_code};
ghost use Rattle.command_line.specs.Explanations.{IsNoCode, explanation_of, line_of, list_text};

use crate::help::text;
use lane_words::Refusal;
use std::alloc::{AllocError, Global};

/// The refusals, by number. The line or record that one names is of no account here.
pub const REFUSALS: [Refusal; 34] = [
    Refusal::UnknownMember,
    Refusal::StaleGeneration,
    Refusal::RebalanceInProgress,
    Refusal::NothingToGive,
    Refusal::SyncFirst,
    Refusal::ClaimDiffers,
    Refusal::AlreadyJoined,
    Refusal::NameUsed,
    Refusal::TooManyMembers,
    Refusal::NotOwner,
    Refusal::OffsetMismatch { committed: 0 },
    Refusal::PastEnd,
    Refusal::WrongRecords,
    Refusal::EmptyCommit,
    Refusal::NotHeld,
    Refusal::OutOfGroup,
    Refusal::NoSuchCommit,
    Refusal::NotSettled,
    Refusal::NobodyPresent,
    Refusal::KeyTooLong,
    Refusal::LogFull,
    Refusal::BadLine { line: 0 },
    Refusal::NoSuchColumn { nth: 0 },
    Refusal::BadCsv { nth: 0 },
    Refusal::ReadFailed,
    Refusal::WriteFailed,
    Refusal::NobodyLeft { line: 0 },
    Refusal::Differs,
    Refusal::GateLimit,
    Refusal::MailFull,
    Refusal::GenerationsOver,
    Refusal::NoSuchTopic { nth: 0 },
    Refusal::NotKept,
    Refusal::Memory,
];

const UNKNOWN_MEMBER: &str = text!([]
    "1 UnknownMember: the member is not in the group\n\n"
    in_scripts "sync, rejoin, leave, lose, poll, send, deliver\n"
    "Cause:   It never joined, has left, was lost, or another member took over its seat.\n"
    "State:   The group, offsets and counts are as before. A member that gets this answer is\n"
    "         out of the group, and drops what it has not committed.\n"
    "Remedy:  Join under a new name. The next owner reads again what was not committed.\n"
    "Kafka:   UNKNOWN_MEMBER_ID; for the old process of a static member, FENCED_INSTANCE_ID.\n"
);

const STALE_GENERATION: &str = text!([]
    "2 StaleGeneration: the member's generation is not the group's\n\n"
    in_scripts "rejoin, deliver\n"
    "Cause:   A rebalance has completed since the member last synced or sent the commit.\n"
    nothing_changed
    "Remedy:  Sync; then rejoin, or send the commit again.\n"
    "Kafka:   ILLEGAL_GENERATION.\n"
);

const REBALANCE_IN_PROGRESS: &str = text!([]
    "3 RebalanceInProgress: the member has joined a rebalance that is not complete\n\n"
    in_scripts "sync\n"
    "Cause:   Other members have not rejoined yet. A trace shows whom the group waits for.\n"
    nothing_changed
    "Remedy:  Sync again when they have rejoined, or settle.\n"
    "Kafka:   REBALANCE_IN_PROGRESS.\n"
);

const NOTHING_TO_GIVE: &str = text!([]
    "4 NothingToGive: the group is stable, and the member has nothing to give up\n\n"
    in_scripts "rejoin\n"
    "Cause:   It is granted just what it is assigned.\n"
    nothing_changed
    "Remedy:  None is needed.\n"
    "Kafka:   No such error; an unchanged follower that rejoins gets the current generation.\n"
);

const SYNC_FIRST: &str = text!([]
    "5 SyncFirst: the member has not synced in this generation\n\n"
    in_no_job "a rejoin\n"
    "Cause:   The member rejoins before it knows what it is assigned.\n"
    nothing_changed
    "Remedy:  Sync, then rejoin.\n"
    kept_by_client
);

const CLAIM_DIFFERS: &str = text!([]
    "6 ClaimDiffers: the member claims other partitions than it is assigned\n\n"
    in_no_job "a rejoin\n"
    "Cause:   The claim has a partition more, or one less.\n"
    nothing_changed
    "Remedy:  Claim what the last lease assigns.\n"
    "Kafka:   No such error; the assignor believes each claim.\n"
);

const ALREADY_JOINED: &str = text!([]
    "7 AlreadyJoined: the member has already joined this rebalance\n\n"
    in_scripts "rejoin\n"
    "Cause:   Other members have not rejoined yet. A trace shows whom the group waits for.\n"
    nothing_changed
    "Remedy:  None is needed; the rebalance is complete when they have rejoined.\n"
    kept_by_client
);

const NAME_USED: &str = text!([]
    "8 NameUsed: the name was used before\n\n"
    in_scripts "join, keep; in a plan this is fault 22\n"
    "Cause:   A member of this name has joined before. No name is used twice.\n"
    nothing_changed
    "Remedy:  Take a new name, or let a static member that is present return.\n"
    "Kafka:   No such error; the broker generates member ids.\n"
);

const TOO_MANY_MEMBERS: &str = text!([]
    "9 TooManyMembers: the group has had its 512 members\n\n"
    in_scripts "join, keep, return; in a plan this is fault 22\n"
    "Cause:   512 members have joined, counting those that are no longer present.\n"
    nothing_changed
    "Remedy:  Split the script.\n"
    "Kafka:   GROUP_MAX_SIZE_REACHED, which counts the members present at once.\n"
);

const NOT_OWNER: &str = text!([]
    "10 NotOwner: the partition is not granted to the member\n\n"
    in_scripts "deliver\n"
    "Cause:   The member has given up the partition since it sent the commit.\n"
    nothing_changed
    "Remedy:  None is needed; the next owner begins at the committed offset.\n"
    "Kafka:   No such error; the broker does not check who owns the partition.\n"
);

const OFFSET_MISMATCH: &str = text!([]
    "11 OffsetMismatch: the commit does not begin at the committed offset\n\n"
    in_scripts "deliver\n"
    "Cause:   Some of its records are committed already: it has arrived before, or the reply\n"
    "         to an earlier commit was lost.\n"
    "State:   Offsets and counts are as before. The member learns the committed offset.\n"
    "Remedy:  Send again; that commit begins at the committed offset.\n"
    "Kafka:   No such error; the broker does not check where a commit begins.\n"
);

const PAST_END: &str = text!([]
    "12 PastEnd: the commit ends past the end of the log\n\n"
    in_no_job "a commit\n"
    "Cause:   It has more records than the log has from its offset on.\n"
    nothing_changed
    "Remedy:  Commit only what was read.\n"
    commit_accepted
);

const WRONG_RECORDS: &str = text!([]
    "13 WrongRecords: the commit's records are not those of the log\n\n"
    in_no_job "a commit\n"
    "Cause:   The log has other keys at these offsets.\n"
    nothing_changed
    "Remedy:  Commit only what was read.\n"
    commit_accepted
);

const EMPTY_COMMIT: &str = text!([]
    "14 EmptyCommit: there is nothing to commit\n\n"
    in_scripts "send\n"
    "Cause:   The member has read nothing of the partition that it does not know committed.\n"
    nothing_changed
    "Remedy:  Poll first.\n"
    commit_accepted
);

const NOT_HELD: &str = text!([]
    "15 NotHeld: the member does not hold the partition\n\n"
    in_scripts "poll, send\n"
    "Cause:   It has not synced since the partition was assigned to it, has given it up, or\n"
    "         was never assigned it; or there is no such partition.\n"
    nothing_changed
    "Remedy:  Sync first. A trace shows who is granted what, and what nobody reads.\n"
    "Kafka:   The client throws IllegalStateException.\n"
);

const OUT_OF_GROUP: &str = text!([]
    "16 OutOfGroup: the member knows that it is out of the group\n\n"
    in_scripts "sync, rejoin, leave, poll, send\n"
    "Cause:   It has left, or was told by code 1 that it is not a member.\n"
    nothing_changed
    "Remedy:  Join under a new name.\n"
    "Kafka:   The client throws CommitFailedException.\n"
);

const NO_SUCH_COMMIT: &str = text!([]
    "17 NoSuchCommit: no commit of this number was sent\n\n"
    in_scripts "deliver, unanswered\n"
    "Cause:   Commits are numbered from 1 as they are sent; a refused send has no number.\n"
    nothing_changed
    "Remedy:  Take the number from the column commit of a trace.\n"
);

const NOT_SETTLED: &str = text!([]
    "18 NotSettled: the rebalance did not end\n\n"
    "Jobs:    none; settle and drain always end the rebalance\n"
);

const NOBODY_PRESENT: &str = text!([]
    "19 NobodyPresent: the group has no members\n\n"
    in_scripts "settle, drain\n"
    "Cause:   Nobody has joined, or everybody has left or was lost.\n"
    nothing_changed
    "Remedy:  Let a member join.\n"
);

const KEY_TOO_LONG: &str = text!([]
    "20 KeyTooLong: " case_20 "\n\n"
    from_file
    "Cause:   Often a quote that is never closed.\n"
    nothing_printed
    "Remedy:  Close the quote, take another column, or shorten the keys.\n"
    "Kafka:   MESSAGE_TOO_LARGE comes nearest.\n"
);

const LOG_FULL: &str = text!([]
    "21 LogFull: " case_21 "\n\n"
    from_file
    "         replay, trace, draw, as a refusal: append\n"
    "Cause:   Keys, and the records of a partition, are numbered by 32 bits.\n"
    "State:   Nothing was printed. A refused append has changed nothing.\n"
    "Remedy:  Take more partitions, or split the file.\n"
);

const BAD_LINE: &str = text!([]
    "22 BadLine: " case_22 " " case_22_more "\n\n"
    "Jobs:    replay, trace, draw, run; exit status 1\n"
    "Cause:   An action, a name, a number or a topic that is not valid, or more than 256\n"
    "         bytes. In a plan also a join of a name used before, a departure of somebody\n"
    "         who is not present, or a 513th join.\n"
    "State:   Nothing was printed, and no line was performed.\n"
    "Remedy:  The help of the job lists the valid lines.\n"
);

const NO_SUCH_COLUMN: &str = text!([]
    "23 NoSuchColumn: " case_23 "\n\n"
    from_file
    "Cause:   --column or --topic-column names none of its fields.\n"
    nothing_printed
    "Remedy:  Columns are counted from 1, and separated by commas.\n"
);

const BAD_CSV: &str = text!([]
    "24 BadCsv: " case_24 "\n\n"
    from_file
    "Cause:   Often a comma that is not in quotes, or a quote that is never closed.\n"
    nothing_printed
    "Remedy:  Put fields with commas or line feeds into quotes, and double quotes in them.\n"
);

const READ_FAILED: &str = text!([]
    "25 ReadFailed: " case_25 "\n\n"
    "Jobs:    all that read FILE; exit status 3\n"
    "Cause:   There is no such file, you may not read it, or its device failed.\n"
    nothing_printed
    "Remedy:  Check the paths. A file that is named - is ./-.\n"
);

const WRITE_FAILED: &str = text!([]
    "26 WriteFailed: " case_26 "\n\n"
    "Jobs:    all, this one too; exit status 3\n"
    "Cause:   The disk is full, or the reader of a pipe has gone, as head does.\n"
    "State:   The first part of the output was written, or nothing.\n"
    "Remedy:  Write to a file elsewhere, or let the reader read to the end.\n"
);

const NOBODY_LEFT: &str = text!([]
    "27 NobodyLeft: " case_27 "\n\n"
    "Jobs:    run; exit status 1\n"
    "Cause:   The last member that is present leaves or is lost.\n"
    "State:   Nothing was printed, and no line was applied.\n"
    "Remedy:  Let another member join before.\n"
);

const DIFFERS: &str = text!([]
    "28 Differs: " case_28 "\n\n"
    "Jobs:    run; exit status 3\n"
    "Cause:   An error of the program or of the machine; this should never happen.\n"
    nothing_printed
    "Remedy:  Report it, with FILE and the plan.\n"
);

const GATE_LIMIT: &str = text!([]
    "29 GateLimit: the gate stopped the run\n\n"
    in_no_job "a run\n"
    "Cause:   The gate, which the caller passes, has answered Stop.\n"
    "State:   The logs are as before, and nothing is returned.\n"
    "Remedy:  None is needed, if the run was to stop.\n"
);

const MAIL_FULL: &str = text!([]
    "30 MailFull: 65,536 commits have been sent\n\n"
    in_scripts "send, settle, drain\n"
    "Cause:   A script can send 65,536 commits, counting refused deliveries.\n"
    "State:   A refused send changes nothing; what settle or drain did before it stays.\n"
    "Remedy:  Give a drain a larger --batch, or split the script.\n"
);

const GENERATIONS_OVER: &str = text!([]
    "31 GenerationsOver: " case_31 "\n\n"
    "Jobs:    replay, trace, draw; exit status 3\n"
    "Cause:   Each completed rebalance is a generation, numbered by 32 bits.\n"
    nothing_printed
    "Remedy:  Split the script.\n"
);

const NO_SUCH_TOPIC: &str = text!([]
    "32 NoSuchTopic: " case_32 "\n\n"
    from_file
    "Cause:   Topics are compared byte for byte. --topic-column is 2 by default.\n"
    nothing_printed
    "Remedy:  Add the topic to --topics, or correct --topic-column.\n"
);

const NOT_KEPT: &str = text!([]
    "33 NotKept: no static member of this name is present\n\n"
    in_scripts "return\n"
    "Cause:   Nobody of this name has joined by keep, or it has left or was lost.\n"
    nothing_changed
    "Remedy:  Join, or keep, under a new name.\n"
    "Kafka:   No such error; an unknown group.instance.id simply joins.\n"
);

const MEMORY: &str = text!([]
    "90 Memory: " case_90 "\n\n"
    "Jobs:    all; exit status 3\n"
    "Cause:   A limit such as ulimit -v, or a machine that is too small.\n"
    nothing_printed
    "Remedy:  Allow twice the file, 90 bytes for each record and 64 for each different key.\n"
);

/// What `explain` prints of a refusal. It begins with a line of its number, its name and what was
/// the case.
#[tactic(auto, unfolding(crate::specs::Explanations::explanation_of))]
pub fn explanation_of(refusal: &Refusal) -> &'static str
    ensures { result.now ≡ explanation_of refusal.now }
{
    match refusal {
        Refusal::UnknownMember => UNKNOWN_MEMBER,
        Refusal::StaleGeneration => STALE_GENERATION,
        Refusal::RebalanceInProgress => REBALANCE_IN_PROGRESS,
        Refusal::NothingToGive => NOTHING_TO_GIVE,
        Refusal::SyncFirst => SYNC_FIRST,
        Refusal::ClaimDiffers => CLAIM_DIFFERS,
        Refusal::AlreadyJoined => ALREADY_JOINED,
        Refusal::NameUsed => NAME_USED,
        Refusal::TooManyMembers => TOO_MANY_MEMBERS,
        Refusal::NotOwner => NOT_OWNER,
        Refusal::OffsetMismatch { .. } => OFFSET_MISMATCH,
        Refusal::PastEnd => PAST_END,
        Refusal::WrongRecords => WRONG_RECORDS,
        Refusal::EmptyCommit => EMPTY_COMMIT,
        Refusal::NotHeld => NOT_HELD,
        Refusal::OutOfGroup => OUT_OF_GROUP,
        Refusal::NoSuchCommit => NO_SUCH_COMMIT,
        Refusal::NotSettled => NOT_SETTLED,
        Refusal::NobodyPresent => NOBODY_PRESENT,
        Refusal::KeyTooLong => KEY_TOO_LONG,
        Refusal::LogFull => LOG_FULL,
        Refusal::BadLine { .. } => BAD_LINE,
        Refusal::NoSuchColumn { .. } => NO_SUCH_COLUMN,
        Refusal::BadCsv { .. } => BAD_CSV,
        Refusal::ReadFailed => READ_FAILED,
        Refusal::WriteFailed => WRITE_FAILED,
        Refusal::NobodyLeft { .. } => NOBODY_LEFT,
        Refusal::Differs => DIFFERS,
        Refusal::GateLimit => GATE_LIMIT,
        Refusal::MailFull => MAIL_FULL,
        Refusal::GenerationsOver => GENERATIONS_OVER,
        Refusal::NoSuchTopic { .. } => NO_SUCH_TOPIC,
        Refusal::NotKept => NOT_KEPT,
        Refusal::Memory => MEMORY,
    }
}

/// The line of a refusal in the list, without its line feed.
fn line_of(refusal: &Refusal) -> &'static str
    ensures { result.now ≡ line_of refusal.now }
{
    let text = explanation_of(refusal);
    match text.split_once('\n') {
        Some((line, _)) => line,
        None => text,
    }
}

/// Appends the line of a refusal to a list.
fn push_line(list: &mut Vec<u8>, refusal: &Refusal) -> Result<(), AllocError>
    ensures { OnOk result
        (list.new.items ≡ list.old.items ++ (line_of refusal.now ++ codes "\n")) }
{
    list.extend_from_slice(line_of(refusal).as_bytes())?;
    list.push(b'\n')?;
    Ok(())
}

/// What `explain` prints without a code: the first line of each explanation.
pub fn list_text(alloc: Global) -> Result<Vec<u8>, AllocError>
    ensures { IfOk result (λ text. text.items ≡ list_text) }
{
    let mut list = Vec::new(alloc);
    for refusal in REFUSALS.iter() {
        push_line(&mut list, refusal)?;
    }
    Ok(list)
}

#[tactic(auto, unfolding(crate::specs::Private::Codes::has_code))]
fn has_code(refusal: &Refusal, code: u32) -> bool
    ensures { result ≡ has_code code refusal.now }
{
    u32::from(refusal.code()) == code
}

/// The index of the first of these refusals with this number.
fn code_index(refusals: &[Refusal], code: u32) -> Option<usize>
    ensures { result ≡ position (has_code code) refusals.now }
{
    refusals.iter().position(|refusal| has_code(refusal, code))
}

/// A refusal with this number, if there is one.
pub fn refusal_with_code(code: u32) -> Option<Refusal>
    ensures found { IfSome result (λ refusal. code_of refusal ≡ code) }
    ensures absent { result ≡ None → IsNoCode code }
{
    let i = code_index(&REFUSALS, code)?;
    Some(REFUSALS[i])
}
