//! The turns of a round, settled in the order of its chunks.

ghost use Rattle.std.specs.Prelude.{◌≡◌, ◌⊎◌, ◌<◌, ◌≤◌, ◌+◌, true, IfErr, IfSome, OnOk, length, slice_index_or, slice_set, vec_len};
ghost use Rattle.csv_ingest.specs.Pieces.{later_fault};
ghost use Rattle.key_stream.specs.Counting.{HasMarks};
ghost use Rattle.key_stream.specs.Layouts.{FailsBy, SettlesBy};
ghost use Rattle.key_stream.specs.Settling.{AreSettled, HasTurnFault, IsNextTurn, SettlesTurn, records_before, with_segment};
ghost use Rattle.lane_words.specs.declared.Refusal.TheVariants as refusal;

use crate::counting::Counting;
use crate::round::Round;
use crate::worker::{Chunks, Layout, Turn, Worker};
use key_counts::Segment;
use lane_words::{Memory, Refusal};
use std::alloc::Global;

/// A fault of a record before which there are `earlier` more, if their numbers fit a word.
fn later(fault: Refusal, earlier: u64) -> Option<Refusal>
    ensures { IfSome result (λ e. e ≡ later_fault earlier fault) }
{
    match fault {
        Refusal::BadCsv { nth } => Some(Refusal::BadCsv {
            nth: nth.checked_add(earlier)?,
        }),
        Refusal::NoSuchColumn { nth } => Some(Refusal::NoSuchColumn {
            nth: nth.checked_add(earlier)?,
        }),
        Refusal::NoSuchTopic { nth } => Some(Refusal::NoSuchTopic {
            nth: nth.checked_add(earlier)?,
        }),
        other => Some(other),
    }
}

/// The number of records before a chunk, if it fits a word.
fn records_before(width: Option<usize>, header: bool, keys: u64) -> Option<u64>
    ensures { IfSome result (λ records. records ≡ records_before width header keys) }
{
    match width {
        None => Some(0),
        Some(_) if header => keys.checked_add(1),
        Some(_) => Some(keys),
    }
}

/// The fault of a turn, before whose chunk the first record was `width` fields long, if it was
/// read, and there were so many keys. `Memory` if its number does not fit a word.
fn fault_of(fault: Refusal, width: Option<usize>, header: bool, keys: u64) -> Refusal
    ensures { (result ≡ refusal.Memory)
        ⊎ (result ≡ later_fault (records_before width header keys) fault) }
{
    match records_before(width, header, keys) {
        Some(before) => later(fault, before).unwrap_or(Refusal::Memory),
        None => Refusal::Memory,
    }
}

/// Appends a segment of what a worker has behind its mark, if it has more, and marks how much it
/// has now.
fn add_segment(
    segments: &mut Vec<Segment>,
    marks: &mut Vec<usize>,
    worker: usize,
    to: usize,
) -> Result<(), Memory>
    requires { worker < length marks.old.items }
    ensures segments { OnOk result (segments.new.items
        ≡ with_segment segments.old.items worker (slice_index_or marks.old.items worker 0) to) }
    ensures marks { marks.new.items ≡ slice_set marks.old.items worker to }
    ensures len { vec_len marks.new ≡ vec_len marks.old }
{
    let from = marks[worker];
    marks[worker] = to;
    if from == to {
        return Ok(());
    }
    segments.push(Segment { worker, from, to })?;
    Ok(())
}

/// The worker whose next turn, behind those that are settled, has this chunk, and the turn.
fn next_turn(workers: &[Worker], settled: &[usize], chunk: usize) -> Option<(usize, Turn)>
    ensures { IfSome result (λ next. IsNextTurn workers.now settled.now chunk next.0 next.1) }
{
    for w in 0..workers.len().min(settled.len()) {
        if let Some(turn) = workers[w].turns.get(settled[w]) {
            if turn.chunk == chunk {
                return Some((w, *turn));
            }
        }
    }
    None
}

/// Whether so many turns of each worker are all that it has.
fn are_settled(workers: &[Worker], settled: &[usize]) -> bool
    requires { length settled.now ≡ length workers.now }
    ensures { result ≡ true → AreSettled workers.now settled.now }
{
    for w in 0..workers.len() {
        if workers[w].turns.len() > settled[w] {
            return false;
        }
    }
    true
}

impl Counting {
    /// Settles a turn of this worker. The first record was `before` fields long before the chunk,
    /// if it was read, and is `behind` fields long then.
    fn settle_turn(
        &mut self,
        worker: usize,
        turn: Turn,
        before: Option<usize>,
        behind: Option<usize>,
        header: bool,
    ) -> Result<(), Refusal>
        requires marks { worker < vec_len self.old.marks }
        requires ends { worker < vec_len self.old.ends }
        ensures workers { self.new.workers ≡ self.old.workers }
        ensures coded { self.new.coded ≡ self.old.coded }
        ensures marks { vec_len self.new.marks ≡ vec_len self.old.marks }
        ensures ends { vec_len self.new.ends ≡ vec_len self.old.ends }
        ensures ok { OnOk result (SettlesTurn worker turn behind self.old self.new) }
        ensures err { IfErr result (λ e. (e ≡ refusal.Memory)
            ⊎ HasTurnFault turn before header self.old e) }
    {
        let number = match turn.found {
            Ok(number) => number,
            Err(fault) => return Err(fault_of(fault, before, header, self.round.keys)),
        };
        let Some(keys) = self.round.keys.checked_add(number) else {
            return Err(Refusal::Memory);
        };
        self.round = Round {
            width: behind,
            keys,
        };
        add_segment(&mut self.segments, &mut self.marks, worker, turn.entries)?;
        add_segment(&mut self.chunks, &mut self.ends, worker, turn.records)?;
        Ok(())
    }

    /// Settles the turns of these chunks, one chunk after another. Fails with the fault of the first
    /// bad record, and with `Memory` if a chunk was not taken in one turn, as when a worker had no
    /// memory for the turn.
    pub(crate) fn settle(
        &mut self,
        alloc: Global,
        chunks: Chunks<'_>,
        layout: &Layout<'_>,
    ) -> Result<(), Refusal>
        requires marks { HasMarks self.old }
        requires widths { length chunks.widths.now ≡ length chunks.texts.now + 1 }
        ensures workers { self.new.workers ≡ self.old.workers }
        ensures coded { self.new.coded ≡ self.old.coded }
        ensures marks { OnOk result (HasMarks self.new) }
        ensures ok { OnOk result (SettlesBy layout.now chunks.entry self.old self.new) }
        ensures err { IfErr result (FailsBy layout.now chunks.entry self.old) }
    {
        let Ok(mut settled) = vec![in alloc; 0usize; self.workers.len()] else {
            return Err(Refusal::Memory);
        };
        for chunk in 0..chunks.texts.len() {
            let next = next_turn(self.workers.as_slice(), settled.as_slice(), chunk);
            let Some((worker, turn)) = next else {
                return Err(Refusal::Memory);
            };
            let (before, behind) = (chunks.width(chunk), chunks.width(chunk + 1));
            match self.settle_turn(worker, turn, before, behind, layout.header) {
                Ok(()) => {}
                Err(fault) => return Err(fault),
            }
            let Some(turns) = settled[worker].checked_add(1) else {
                return Err(Refusal::Memory);
            };
            settled[worker] = turns;
        }
        if !are_settled(self.workers.as_slice(), settled.as_slice()) {
            return Err(Refusal::Memory);
        }
        Ok(())
    }
}
