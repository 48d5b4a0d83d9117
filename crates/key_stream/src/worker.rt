//! What one thread does.

ghost use Rattle.std.specs.Prelude.{◌≡◌, ◌≤◌, ◌<◌, [], None, length, slice_index_or};
ghost use Rattle.csv_ingest.specs.Private.Pieces.{lent};
ghost use Rattle.csv_ingest.specs.Private.Wanted.{taking};
ghost use Rattle.key_stream.specs.Chunks.{TakesChunk};
ghost use Rattle.key_stream.specs.Layouts.{WorkBy, WorksBy};

use crate::ahead::ReadAhead;
use csv_ingest::{Wanted, take_chunk};
use key_counts::KeyCounter;
use lane_words::{Memory, Refusal};
use parallel::for_each_mut;
use std::alloc::Global;
use std::sync::atomic::{AtomicUsize, Ordering};
use std::thread;
use std::thread::Threads;

/// A chunk that a worker took.
#[derive(Clone, Copy)]
pub struct Turn {
    /// The index of the chunk in its round.
    pub chunk: usize,
    /// How many keys the records in the chunk have, or the fault of the first bad one, whose number
    /// counts from the chunk's first record.
    pub found: Result<u64, Refusal>,
    /// How many entries the worker had then.
    pub entries: usize,
    /// How many of its records had a code.
    pub records: usize,
}

/// A thread's counters, and its turns in the last round.
#[derive(Drop)]
pub struct Worker {
    /// The keys of its chunks, counted. Between two chunks none waits.
    pub counter: KeyCounter,
    /// The chunks that it took in the last round.
    pub turns: Vec<Turn>,
}

/// The chunks of a round. A worker that is ready takes the next one: of threads that have a chunk
/// each, all wait for the slowest.
#[derive(Clone, Copy)]
pub struct Chunks<'a> {
    /// The chunks.
    pub texts: &'a [&'a [u8]],
    /// How long the first record of the file is, if it was read: before each chunk.
    pub widths: &'a [Option<usize>],
}

impl<'a> Chunks<'a> {
    /// The chunk of this index.
    fn text(&self, chunk: usize) -> &'a [u8]
        requires { chunk < length self.now.texts.now }
        ensures { result.now ≡ slice_index_or (lent self.now.texts.now) chunk [] }
    {
        self.texts[chunk]
    }

    /// How long the first record of the file is before the chunk of this index, if it was read.
    pub fn width(&self, chunk: usize) -> Option<usize>
        requires { chunk < length self.now.widths.now }
        ensures { result ≡ slice_index_or self.now.widths.now chunk None }
    {
        self.widths[chunk]
    }
}

/// What the workers of a round have in common.
#[derive(Clone, Copy)]
struct Common<'a> {
    /// The index of the next chunk that none has taken.
    next: &'a AtomicUsize,
    /// How many entries the worker with most of them had before the round.
    most: usize,
}

/// How the chunks of a file are read.
#[derive(Clone, Copy)]
pub struct Layout<'a> {
    /// What ends a field.
    pub delimiter: u8,
    /// What is taken of each record.
    pub wanted: &'a Wanted<'a>,
    /// Whether the first record is a header.
    pub header: bool,
}

/// Takes the keys of a chunk, before which the first record was `width` fields long, if it was
/// read, and returns how many there are.
fn count_chunk(
    counter: &mut KeyCounter,
    alloc: Global,
    chunk: &[u8],
    layout: &Layout<'_>,
    width: Option<usize>,
) -> Result<u64, Refusal>
    ensures { TakesChunk layout.now.delimiter
        (taking layout.now.wanted.now) layout.now.header width chunk.now
        counter.old.entries counter.new.entries result }
{
    // A chunk with a fault may have left some.
    counter.forget_waiting();
    let keys = take_chunk(
        alloc,
        counter,
        chunk,
        layout.delimiter,
        layout.wanted,
        layout.header,
        width,
    )?;
    counter.settle()?;
    Ok(keys)
}

impl Worker {
    /// Takes the chunk of this index, and returns whether it has no fault.
    fn take_turn(
        &mut self,
        alloc: Global,
        chunks: Chunks<'_>,
        chunk: usize,
        layout: &Layout<'_>,
    ) -> Result<bool, Memory>
        requires texts { chunk < length chunks.texts.now }
        requires widths { chunk < length chunks.widths.now }
        ensures { WorksBy layout.now chunks.entry self.old self.new }
    {
        let at = self.turns.len();
        // If there is no memory for the turn, the chunk is not taken.
        self.turns.push(Turn {
            chunk,
            found: Err(Refusal::Memory),
            entries: 0,
            records: 0,
        })?;
        let (text, width) = (chunks.text(chunk), chunks.width(chunk));
        let found = count_chunk(&mut self.counter, alloc, text, layout, width);
        self.turns[at] = Turn {
            chunk,
            found,
            entries: self.counter.len(),
            records: self.counter.counts().codes().len(),
        };
        Ok(found.is_ok())
    }

    /// Takes chunks until there are no more, or one has a fault.
    fn work(&mut self, alloc: Global, chunks: Chunks<'_>, common: Common<'_>, layout: &Layout<'_>)
        requires { length chunks.texts.now ≤ length chunks.widths.now }
        ensures { WorksBy layout.now chunks.entry self.old self.new }
    {
        if self.counter.prepare(common.most).is_err() {
            return;
        }
        for _ in 0..chunks.texts.len() {
            let chunk = common.next.fetch_add(1, Ordering::SeqCst);
            if chunk >= chunks.texts.len() {
                return;
            }
            if !self
                .take_turn(alloc, chunks, chunk, layout)
                .unwrap_or(false)
            {
                return;
            }
        }
    }
}

/// Each worker takes chunks, one after another in this thread.
#[tactic(auto, unfolding(crate::specs::Layouts::WorkBy))]
fn work_sequential<R: Threads + Sync>(
    rt: &R,
    alloc: Global,
    workers: &mut [Worker],
    chunks: Chunks<'_>,
    common: Common<'_>,
    layout: &Layout<'_>,
)
    requires { length chunks.texts.now ≤ length chunks.widths.now }
    ensures len { length workers.new ≡ length workers.old }
    ensures each { WorkBy layout.now chunks.entry workers.old workers.new }
{
    for_each_mut(
        rt,
        workers,
        1,
        &|_, worker: &mut Worker| {
            worker.work(alloc, chunks, common, layout);
        },
    );
}

/// Each worker takes chunks in a thread of its own, and the calling thread, which starts them, reads
/// ahead.
#[cycle(workers)]
fn work_parallel<R: Threads + Sync, A: ReadAhead>(
    rt: &R,
    alloc: Global,
    workers: &mut [Worker],
    chunks: Chunks<'_>,
    common: Common<'_>,
    layout: &Layout<'_>,
    ahead: &mut A,
)
    requires ahead { A.can_read ahead.old }
    requires widths { length chunks.texts.now ≤ length chunks.widths.now }
    ensures len { length workers.new ≡ length workers.old }
    ensures each { WorkBy layout.now chunks.entry workers.old workers.new }
    ensures ahead { A.has_read ahead.old ahead.new }
{
    let Some((worker, workers)) = workers.split_first_mut() else {
        ahead.read();
        return;
    };
    thread::join_mut(
        rt,
        &mut || worker.work(alloc, chunks, common, layout),
        &mut ||
            requires ahead { A.can_read ahead.now }
            requires widths { length chunks.texts.now ≤ length chunks.widths.now }
            ensures len { length workers.exit.now ≡ length workers.entry.now }
            ensures each { WorkBy layout.entry.now chunks.entry workers.entry.now
                workers.exit.now }
            ensures ahead { A.has_read ahead.entry.now ahead.exit.now }
        { work_parallel(rt, alloc, workers, chunks, common, layout, ahead) },
    );
}

/// How many entries the worker with most of them has.
fn most_entries(workers: &[Worker]) -> usize {
    let mut most = 0;
    for i in 0..workers.len() {
        most = workers[i].counter.len().max(most);
    }
    most
}

/// The workers take chunks, and the calling thread reads ahead. It takes no chunk itself, for the
/// reason told at `for_each_mut`; but one worker alone needs no thread, and takes the chunks behind
/// the read.
pub fn work_and_read<R: Threads + Sync, A: ReadAhead>(
    rt: &R,
    alloc: Global,
    workers: &mut [Worker],
    chunks: Chunks<'_>,
    next: &AtomicUsize,
    layout: &Layout<'_>,
    ahead: &mut A,
)
    requires ahead { A.can_read ahead.old }
    requires widths { length chunks.texts.now ≤ length chunks.widths.now }
    ensures len { length workers.new ≡ length workers.old }
    ensures each { WorkBy layout.now chunks.entry workers.old workers.new }
    ensures ahead { A.has_read ahead.old ahead.new }
{
    let most = most_entries(workers);
    let common = Common { next, most };
    if workers.len() > 1 {
        work_parallel(rt, alloc, workers, chunks, common, layout, ahead);
        return;
    }
    ahead.read();
    work_sequential(rt, alloc, workers, chunks, common, layout);
}
