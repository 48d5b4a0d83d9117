//! Lists of numbers that are copied in parallel.

ghost use Rattle.std.specs.Prelude.{◌≡◌, ◌<◌, [], IfOk, length, map, slice_index_or, vec_items};

use crate::collect::collect_each;
use crate::{LEAST_KEYS, processors};
use lane_words::Memory;
use std::alloc::Global;
use std::thread::Threads;

/// A copy of the list of this index.
fn list_copy(alloc: Global, lists: &[Vec<u32>], i: usize) -> Result<Vec<u32>, Memory>
    requires { i < length lists.now }
    ensures { IfOk result (λ copy. copy.items ≡ slice_index_or (map vec_items lists.now) i []) }
{
    Ok(Vec::from_slice(alloc, lists[i].as_slice())?)
}

/// In how many threads lists are copied: few numbers in one.
fn threads_for(rt: &impl Threads, lists: &[Vec<u32>]) -> usize {
    let mut numbers: usize = 0;
    for i in 0..lists.len() {
        numbers = numbers.saturating_add(lists[i].len());
    }
    if numbers < LEAST_KEYS {
        return 1;
    }
    processors(rt)
}

/// Copies of these lists; those of many numbers are made in as many threads as there are
/// processors. Fails only if an allocation failed.
pub fn copy_lists<R: Threads + Sync>(
    rt: &R,
    alloc: Global,
    lists: &[Vec<u32>],
) -> Result<Vec<Vec<u32>>, Memory>
    ensures { IfOk result (λ copies. map vec_items copies.items ≡ map vec_items lists.now) }
{
    let threads = threads_for(rt, lists);
    collect_each(
        rt,
        alloc,
        lists.len(),
        threads,
        &|i| list_copy(alloc, lists, i),
    )
}
