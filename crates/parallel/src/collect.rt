//! A value for each of several indices, from threads that the calling one waits for.

ghost use Rattle.std.specs.Prelude.{◌≡◌, ◌<◌, ℕ, All, IfOk, Ok, length, map, slice_set};
ghost use Rattle.parallel.specs.Private.Done.{ArePlaced, AreResults, IsDone, IsWithin};
ghost use Rattle.parallel.specs.Values.{AreValues};

use crate::each::for_each_mut;
use lane_words::Memory;
use std::alloc::Global;
use std::sync::atomic::{AtomicUsize, Ordering};
use std::thread::Threads;

/// The value of an index.
#[derive(Drop)]
struct Done<T> {
    /// The index.
    index: usize,
    /// Its value.
    value: T,
}

/// A place for the result of each of so many tasks, none of which is there yet.
fn no_results<T: Drop>(alloc: Global, count: usize) -> Result<Vec<Result<T, Memory>>, Memory>
    ensures len { IfOk result (λ found. length found.items ≡ count) }
    ensures none { IfOk result (λ found. AreResults (λ _ _. ⊥) count found.items) }
{
    let mut found = Vec::with_capacity(alloc, count)?;
    for _task in 0..count {
        found.push(Err(Memory))?;
    }
    Ok(found)
}

/// The values of these results, in order. Fails with `Memory` if one of the results is an error, or
/// if the list of values cannot be allocated.
fn collected<T: Drop>(alloc: Global, results: Vec<Result<T, Memory>>) -> Result<Vec<T>, Memory>
    ensures { IfOk result (λ values. results.items ≡ map Ok values.items) }
{
    let mut values = Vec::with_capacity(alloc, results.len())?;
    for one in results {
        values.push(one?)?;
    }
    Ok(values)
}

/// Calls `f` with one index after another that no thread has taken, until there are no more. Fails
/// if a call fails.
fn values_by_turns<T: Drop, F: Fn(usize) -> Result<T, Memory>>(
    alloc: Global,
    f: &F,
    next: &AtomicUsize,
    count: usize,
) -> Result<Vec<Done<T>>, Memory>
    requires { (i : ℕ) → i < count → F.pre f.now i }
    ensures { IfOk result (λ done. All (IsDone F.Fn f.now count) done.items) }
{
    let mut done = Vec::new(alloc);
    for _turn in 0..count {
        let index = next.fetch_add(1, Ordering::SeqCst);
        if index >= count {
            return Ok(done);
        }
        let value = f(index)?;
        done.push(Done { index, value })?;
    }
    Ok(done)
}

/// Puts a value at a place.
fn place<T: Drop>(places: &mut Vec<Result<T, Memory>>, done: Done<T>)
    requires { done.index < length places.old.items }
    ensures { places.new.items ≡ slice_set places.old.items done.index (Ok done.value) }
{
    let Done { index, value } = done;
    places[index] = Ok(value);
}

/// Puts each value at the place of its index.
fn place_all<T: Drop>(places: &mut Vec<Result<T, Memory>>, done: Vec<Done<T>>)
    requires { All (IsWithin (length places.old.items)) done.items }
    ensures len { length places.new.items ≡ length places.old.items }
    ensures places { ArePlaced done.items places.old.items places.new.items }
{
    for one in done {
        place(places, one);
    }
}

/// Calls `f` with each index below `count` in so many threads, and returns what each thread has.
fn values_by_threads<R: Threads + Sync, T: Send + Drop, F: Fn(usize) -> Result<T, Memory> + Sync>(
    rt: &R,
    alloc: Global,
    count: usize,
    threads: usize,
    f: &F,
) -> Result<Vec<Result<Vec<Done<T>>, Memory>>, Memory>
    requires { (i : ℕ) → i < count → F.pre f.now i }
    ensures { IfOk result (λ lists. All
        (λ list. IfOk list (λ own. All (IsDone F.Fn f.now count) own.items)) lists.items) }
{
    let next = AtomicUsize::new(0);
    let mut lists = no_results(alloc, threads)?;
    for_each_mut(
        rt,
        &mut lists,
        threads,
        &|_, own: &mut Result<Vec<Done<T>>, Memory>| {
            *own = values_by_turns(alloc, f, &next, count);
        },
    );
    Ok(lists)
}

/// The values of `f` with each index below `count`, in the order of the indices. It is called in so
/// many threads at most, and whichever is ready takes the next index: of threads that have a share
/// each, all would wait for the one that started last. Fails with `Memory` if a call does, or if an
/// allocation failed.
pub fn collect_each<R: Threads + Sync, T: Send + Drop, F: Fn(usize) -> Result<T, Memory> + Sync>(
    rt: &R,
    alloc: Global,
    count: usize,
    threads: usize,
    f: &F,
) -> Result<Vec<T>, Memory>
    requires { (i : ℕ) → i < count → F.pre f.now i }
    ensures len { IfOk result (λ values. length values.items ≡ count) }
    ensures each { IfOk result (λ values. AreValues F.Fn f.now count values.items) }
{
    let lists = values_by_threads(rt, alloc, count, threads.min(count).max(1), f)?;
    let mut places = no_results(alloc, count)?;
    for list in lists {
        place_all(&mut places, list?);
    }
    collected(alloc, places)
}
