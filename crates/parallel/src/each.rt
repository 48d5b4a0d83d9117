//! A call for each of several items, in threads that the calling one waits for.

ghost use Rattle.std.specs.Prelude.{◌≡◌, ◌≤◌, ◌<◌, ◌+◌, ◌^◌, length};
ghost use Rattle.std.specs.Fork.{AcceptsAt, AcceptsEach, ChangesAt, ChangesEach};
ghost use Rattle.parallel.specs.Private.Each.{AllFrom, ChangesFrom};
ghost use denote.Param.Send.{IsSend, IsSync};

use std::thread;
use std::thread::Threads;

/// Calls `f` with an item and its index.
fn call_one<T, F: Fn(usize, &mut T)>(f: &F, index: usize, item: &mut T)
    requires { AcceptsAt F.Fn f.now index item.old }
    ensures { ChangesAt F.Fn f.now index item.old item.new }
{
    f(index, item);
}

/// Calls `f` with each of these items and its index: one after another, the first of which is
/// `from`.
fn call_each<T, F: Fn(usize, &mut T)>(f: &F, from: usize, items: &mut [T])
    requires indices { from + length items.old < 2 ^ 64 }
    requires accepts { AllFrom (AcceptsAt F.Fn f.now) from items.old }
    ensures { ChangesFrom (ChangesAt F.Fn f.now) from items.old items.new }
{
    for k in 0..items.len() {
        call_one(f, from + k, &mut items[k]);
    }
}

/// Calls `f` with each of these items and its index, `size` items in a thread.
#[cycle(slices)]
fn call_slices<R: Threads + Sync, T: Send, F: Fn(usize, &mut T) + Sync>(
    rt: &R,
    f: &F,
    from: usize,
    size: usize,
    items: &mut [T],
)
    requires size { 0 < size }
    requires indices { from + length items.old < 2 ^ 64 }
    requires accepts { AllFrom (AcceptsAt F.Fn f.now) from items.old }
    ensures { ChangesFrom (ChangesAt F.Fn f.now) from items.old items.new }
{
    if items.is_empty() {
        return;
    }
    let count = size.min(items.len());
    let (first, others) = items.split_at_mut(count);
    call_both(rt, f, size, from, first, from + count, others);
}

/// Calls `f` with each item of a slice, in a thread of its own, and of those behind it, `size` in a
/// thread. It is a function of its own, so that what the closures require is what it is given.
#[cycle(slices)]
fn call_both<R: Threads + Sync, T: Send, F: Fn(usize, &mut T) + Sync>(
    rt: &R,
    f: &F,
    size: usize,
    from: usize,
    first: &mut [T],
    behind: usize,
    others: &mut [T],
)
    requires size { 0 < size }
    requires first_indices { from + length first.old < 2 ^ 64 }
    requires indices { behind + length others.old < 2 ^ 64 }
    requires first { AllFrom (AcceptsAt F.Fn f.now) from first.old }
    requires others { AllFrom (AcceptsAt F.Fn f.now) behind others.old }
    ensures first { ChangesFrom (ChangesAt F.Fn f.now) from first.old first.new }
    ensures others { ChangesFrom (ChangesAt F.Fn f.now) behind others.old others.new }
{
    let mut one = ||
        requires { IsSync F.row × IsSend T.row × (from + length first.now < 2 ^ 64)
            × AllFrom (AcceptsAt F.Fn f.now) from first.now }
        ensures { ChangesFrom (ChangesAt F.Fn f.entry.now) from first.entry.now first.exit.now }
    { call_each(f, from, first) };
    let mut rest = ||
        requires { IsSync R.row × IsSync F.row × IsSend T.row × (0 < size)
            × (behind + length others.now < 2 ^ 64)
            × AllFrom (AcceptsAt F.Fn f.now) behind others.now }
        ensures { ChangesFrom (ChangesAt F.Fn f.entry.now) behind others.entry.now
            others.exit.now }
    { call_slices(rt, f, behind, size, others) };
    thread::join_mut(rt, &mut one, &mut rest);
}

/// Calls `f` with each item and its index, in so many threads at most; with less than two, in the
/// calling one.
///
/// Otherwise the calling thread starts the others, one after another, and waits. If it worked as
/// well, a scheduler that puts one of the others on its processor would leave them both there while
/// another processor idles; a processor whose thread waits takes over the work of others.
pub fn for_each_mut<R: Threads + Sync, T: Send, F: Fn(usize, &mut T) + Sync>(
    rt: &R,
    items: &mut [T],
    threads: usize,
    f: &F,
)
    requires { AcceptsEach F.Fn f.now items.old }
    ensures { ChangesEach F.Fn f.now items.old items.new }
{
    if threads < 2 {
        call_each(f, 0, items);
        return;
    }
    let size = items.len().div_ceil(threads).max(1);
    call_slices(rt, f, 0, size, items);
}
