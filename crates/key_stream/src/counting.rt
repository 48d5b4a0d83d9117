//! What was counted of a file so far.

ghost use Rattle.std.specs.Prelude.{◌≡◌, ◌⊎◌, ◌≤◌, ◌<◌, ◌^◌, ◌≢◌, [], All, Bool, false, IfErr, IfOk, List, ℕ, OnOk, drop, length, replicate, slice_index_or, true, vec_len};
ghost use Rattle.csv_ingest.specs.KeyFile.{Taking};
ghost use Rattle.csv_ingest.specs.Pieces.{ArePieces};
ghost use Rattle.csv_ingest.specs.Stand.{is_line_end};
ghost use Rattle.csv_ingest.specs.Private.Pieces.{bytes_of, lent};
ghost use Rattle.csv_ingest.specs.Private.Wanted.{taking};
ghost use Rattle.key_counts.specs.Counts.{no_entries};
ghost use Rattle.key_stream.specs.Counting.{HasMarks, IsCounted};
ghost use Rattle.key_stream.specs.Layouts.{HasFaultInSplit, HaveWorkedBy, TakesSplitBy, WorkBy};
ghost use Rattle.key_stream.specs.Rounds.{entries_in};
ghost use Rattle.key_stream.specs.Splits.{IsSplitOf};
ghost use Rattle.key_stream.specs.declared.worker.Worker.{Worker};
ghost use Rattle.lane_words.specs.declared.Refusal.TheVariants as refusal;

use crate::ahead::ReadAhead;
use crate::round::{Round, widths_of};
use crate::worker::{Chunks, Layout, Worker, work_and_read};
use csv_ingest::{Sizes, pieces_of};
use key_counts::{KeyCounter, Segment};
use lane_words::{Memory, Refusal};
use std::alloc::Global;
use std::hash::RandomState;
use std::sync::atomic::AtomicUsize;
use std::thread::Threads;

/// About how many bytes of a window are left to the next one, if more of the file follows.
const LEFT: usize = 1 << 16;

/// About how long a chunk is. With longer ones threads wait longer for the last one.
const CHUNK: usize = 40 << 10;

/// What was counted of a file so far.
#[derive(Drop)]
pub struct Counting {
    /// The workers, each with counters of its own.
    pub workers: Vec<Worker>,
    /// The entries of the workers, in the order in which chunks brought them.
    pub segments: Vec<Segment>,
    /// How many entries each worker had after the last round.
    pub marks: Vec<usize>,
    /// Whether the code of each record's entry is kept.
    pub coded: bool,
    /// The records of the workers, in the order of the chunks, if their codes are kept.
    pub chunks: Vec<Segment>,
    /// How many of them each worker had after the last round.
    pub ends: Vec<usize>,
    /// What the last round found.
    pub round: Round,
    /// The least number of bytes that is worth a thread.
    pub least: usize,
}

/// A text that is split into the chunks of a round.
#[derive(Debug, Drop)]
pub struct Split<'t> {
    /// The pieces of the text, one after another.
    pub pieces: Vec<&'t [u8]>,
    /// How many of them the workers take: the first ones.
    pub count: usize,
    /// In how many threads they are taken.
    pub threads: usize,
    /// How many bytes these have together.
    pub taken: usize,
    /// The bytes behind these.
    pub rest: &'t [u8],
    /// Whether nothing comes behind the text.
    pub at_end: bool,
}

/// Workers that have taken nothing.
fn idle_workers(
    alloc: Global,
    hasher: RandomState,
    count: usize,
    coded: bool,
) -> Result<Vec<Worker>, Memory>
    ensures { IfOk result
        (λ workers. entries_in workers.items ≡ replicate count (no_entries coded)) }
{
    let mut workers = Vec::with_capacity(alloc, count)?;
    for _ in 0..count {
        let counter = KeyCounter::new(alloc, hasher, coded)?;
        workers.push(Worker {
            counter,
            turns: Vec::new(alloc),
        })?;
    }
    Ok(workers)
}

/// How many bytes pieces have together.
fn length_of(pieces: &[&[u8]]) -> usize
    requires { length (bytes_of (lent pieces.now)) < 2 ^ 64 }
    ensures { result ≡ length (bytes_of (lent pieces.now)) }
{
    let mut sum = 0;
    for i in 0..pieces.len() {
        sum += pieces[i].len();
    }
    sum
}

/// The bytes of a text behind the first ones.
fn rest_of(text: &[u8], taken: usize) -> &[u8]
    requires { taken ≤ length text.now }
    ensures { result.now ≡ drop taken text.now }
{
    &text[taken..]
}

/// How many threads a text of this length is worth: one for each `least` bytes that it has, at most
/// one for each worker, and at least one.
fn threads_for(workers: usize, len: usize, least: usize) -> usize
    ensures nonempty { 1 ≤ result }
    ensures value { len < least → result ≡ 1 }
{
    workers.min(len / least.max(1)).max(1)
}

/// How many chunks of a text of this length so many threads take.
fn chunks_for(threads: usize, len: usize) -> usize {
    if threads < 2 {
        return 1;
    }
    threads.max(len / CHUNK)
}

/// A text in so many chunks at most, of one length. If more of the file follows, one piece comes
/// behind them: some `LEFT` bytes, or as many as a chunk if no record ends in these. `plain` says
/// that there is no double quote in the text.
fn pieces_in<'t>(
    alloc: Global,
    text: &'t [u8],
    delimiter: u8,
    chunks: usize,
    at_end: bool,
    plain: bool,
) -> Result<Vec<&'t [u8]>, Memory>
    requires delimiter { is_line_end delimiter ≡ false }
    requires plain { plain ≡ true → All (λ c. c ≢ 34) text.now }
    ensures { IfOk result (λ found. ArePieces delimiter text.now (lent found.items)) }
{
    let most = chunks.saturating_add(usize::from(!at_end)).max(1);
    let left = if at_end {
        0
    } else {
        LEFT.min(text.len() / most)
    };
    let step = (text.len() - left) / chunks.max(1);
    let pieces = pieces_of(alloc, text, delimiter, Sizes { most, step, left }, plain)?;
    if at_end || pieces.len() > 1 {
        return Ok(pieces);
    }
    let sizes = Sizes {
        most,
        step: text.len() / most,
        left: 0,
    };
    pieces_of(alloc, text, delimiter, sizes, plain)
}

/// Forgets the turns of the last round.
fn forget_turns(workers: &mut [Worker])
    ensures len { length workers.new ≡ length workers.old }
    ensures entries { entries_in workers.new ≡ entries_in workers.old }
    ensures turns { (i : ℕ) (d : Worker) → i < length workers.new
        → (slice_index_or workers.new i d).turns.items ≡ [] }
{
    for w in 0..workers.len() {
        workers[w].turns.clear();
    }
}

/// The first so many workers take chunks, and the calling thread reads ahead.
fn work_first<R: Threads + Sync, A: ReadAhead>(
    rt: &R,
    alloc: Global,
    workers: &mut [Worker],
    threads: usize,
    chunks: Chunks<'_>,
    layout: &Layout<'_>,
    ahead: &mut A,
)
    requires ahead { A.can_read ahead.old }
    requires threads { threads ≤ length workers.old }
    requires widths { length chunks.texts.now ≤ length chunks.widths.now }
    ensures len { length workers.new ≡ length workers.old }
    ensures each { WorkBy layout.now chunks.entry workers.old workers.new }
    ensures ahead { A.has_read ahead.old ahead.new }
{
    let next = AtomicUsize::new(0);
    let first = &mut workers[..threads];
    work_and_read(rt, alloc, first, chunks, &next, layout, ahead);
}

/// Workers take chunks in so many threads, and the calling one reads ahead.
fn work_all<R: Threads + Sync, A: ReadAhead>(
    rt: &R,
    alloc: Global,
    workers: &mut [Worker],
    threads: usize,
    chunks: Chunks<'_>,
    layout: &Layout<'_>,
    ahead: &mut A,
)
    requires ahead { A.can_read ahead.old }
    requires widths { length chunks.texts.now ≤ length chunks.widths.now }
    ensures len { length workers.new ≡ length workers.old }
    ensures worked { HaveWorkedBy layout.now chunks.entry (entries_in workers.old) workers.new }
    ensures ahead { A.has_read ahead.old ahead.new }
{
    forget_turns(workers);
    let threads = threads.min(workers.len());
    work_first(rt, alloc, workers, threads, chunks, layout, ahead);
}

impl Counting {
    /// Nothing yet, by this many workers, whose keys are hashed by this hasher. So many bytes as
    /// `least` are worth a thread. If `coded`, the code of each record's entry is kept.
    pub fn new(
        alloc: Global,
        hasher: RandomState,
        workers: usize,
        least: usize,
        coded: bool,
    ) -> Result<Counting, Memory>
        ensures marks { IfOk result HasMarks }
        ensures len { IfOk result (λ c. vec_len c.workers ≡ workers) }
        ensures coded { IfOk result (λ c. c.coded ≡ coded) }
        ensures state { IfOk result
            (λ c. (delimiter : ℕ) (wanted : Taking) (header : Bool)
            → IsCounted delimiter wanted header [] c) }
    {
        Ok(Counting {
            workers: idle_workers(alloc, hasher, workers, coded)?,
            segments: Vec::new(alloc),
            marks: vec![in alloc; 0usize; workers]?,
            coded,
            chunks: Vec::new(alloc),
            ends: vec![in alloc; 0usize; workers]?,
            round: Round {
                width: None,
                keys: 0,
            },
            least,
        })
    }

    /// Splits a text into the chunks of a round; a short text is one chunk. `at_end` says that
    /// nothing comes behind it. Otherwise what is behind the last line feed that is seen to end a
    /// record is left, and no byte is taken if there is none. `plain` says that there is no double
    /// quote in the text.
    pub fn split<'t>(
        &self,
        alloc: Global,
        text: &'t [u8],
        at_end: bool,
        delimiter: u8,
        plain: bool,
    ) -> Result<Split<'t>, Memory>
        requires delimiter { is_line_end delimiter ≡ false }
        requires plain { plain ≡ true → All (λ c. c ≢ 34) text.now }
        ensures { IfOk result
            (IsSplitOf delimiter at_end text.now) }
    {
        let behind = usize::from(!at_end);
        let threads = threads_for(self.workers.len(), text.len(), self.least);
        let chunks = chunks_for(threads, text.len());
        let pieces = pieces_in(alloc, text, delimiter, chunks, at_end, plain)?;
        let count = pieces.len().saturating_sub(behind);
        let taken = length_of(&pieces[..count]);
        Ok(Split {
            pieces,
            count,
            threads,
            taken,
            rest: rest_of(text, taken),
            at_end,
        })
    }

    /// Takes the chunks of a split text in several threads, of which the calling one reads ahead
    /// first. Fails with the fault of the first bad record.
    pub(crate) fn take<R: Threads + Sync, A: ReadAhead>(
        &mut self,
        rt: &R,
        alloc: Global,
        split: &Split<'_>,
        layout: &Layout<'_>,
        ahead: &mut A,
    ) -> Result<(), Refusal>
        requires ahead { A.can_read ahead.old }
        requires marks { HasMarks self.old }
        requires split { split.now.count ≤ vec_len split.now.pieces }
        ensures marks { OnOk result (HasMarks self.new) }
        ensures len { vec_len self.new.workers ≡ vec_len self.old.workers }
        ensures coded { self.new.coded ≡ self.old.coded }
        ensures ok { OnOk result (TakesSplitBy layout.now split.now self.old self.new) }
        ensures err { IfErr result (λ e. (e ≡ refusal.Memory)
            ⊎ HasFaultInSplit layout.now split.now self.old e) }
        ensures ahead { A.has_read ahead.old ahead.new }
    {
        if split.count == 0 {
            ahead.read();
            return Ok(());
        }
        let texts = &split.pieces[..split.count];
        let Ok(widths) = widths_of(alloc, texts, layout.delimiter, self.round.width) else {
            return Err(ahead.refuse());
        };
        let chunks = Chunks {
            texts,
            widths: widths.as_slice(),
        };
        let workers = self.workers.as_mut_slice();
        work_all(rt, alloc, workers, split.threads, chunks, layout, ahead);
        self.settle(alloc, chunks, layout)
    }
}
