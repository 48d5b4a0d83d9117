//! Work on several threads: calls, collecting results, dropping, and how much work is worth a
//! thread.
//!
//! It promises:
//! - `for_each_mut` calls a function with each of several items, once.
//! - `collect_each` has the value of a function for each of several indices, in order. It fails where
//!   a call, or the list, ran out of memory.
//! - `copy_lists` has the numbers of each of several lists.
//! - `drop_each` drops every item, which no contract can say.
//! - `processors` is at least one.
//! - The thresholds (`LEAST_KEYS`, `LEAST_BYTES`, `LEAST_DROPS`) decide how long a call takes,
//!   never what it returns: below them, starting threads takes longer than the work itself.
//!
//! Tests: `log_tests`, through the crates that call it.
#![tactic(auto)]

ghost use Rattle.std.specs.Prelude.{◌≤◌};

mod collect;
mod each;
mod lists;

pub use collect::collect_each;
pub use each::for_each_mut;
use lane_words::Memory;
pub use lists::copy_lists;
use std::alloc::Global;
use std::thread;
use std::thread::Threads;

/// Fewer keys than these are hashed, placed and appended by the calling thread alone. It is also
/// the number of keys that a thread takes at a time.
pub const LEAST_KEYS: usize = 4096;

/// The least number of bytes of a file that is worth a thread to read.
pub const LEAST_BYTES: usize = 1 << 18;

/// Fewer keys than these are dropped by the calling thread alone.
pub const LEAST_DROPS: usize = 1 << 16;

/// In how many threads items are dropped.
const DROP_THREADS: usize = 4;

/// How many processors there are: one if it can't be told.
pub fn processors(rt: &impl Threads) -> usize
    ensures { 1 ≤ result }
{
    match thread::available_parallelism(rt) {
        Ok(count) => count.get(),
        Err(_) => 1,
    }
}

/// Items that can be dropped one by one.
fn droppable<T: Drop>(items: Vec<T>) -> Result<Vec<Option<T>>, Memory> {
    let mut found = Vec::with_capacity(*items.allocator(), items.len())?;
    for item in items {
        found.push(Some(item))?;
    }
    Ok(found)
}

/// Drops all items, in `DROP_THREADS` threads.
///
/// It has no contract. A clause speaks of values: the items are gone when it returns, and that
/// their memory was freed is no value. A body that leaks them would be proved as well.
pub fn drop_each<R: Threads + Sync, T: Send + Drop>(rt: &R, items: Vec<T>) {
    // If the list cannot be allocated, the items are dropped here.
    if let Ok(mut items) = droppable(items) {
        for_each_mut(
            rt,
            &mut items,
            DROP_THREADS,
            &|_, item: &mut Option<T>| {
                *item = None;
            },
        );
    }
}
