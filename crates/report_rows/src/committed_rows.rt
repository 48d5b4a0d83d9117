//! The rows of committed counts, those of many keys in parallel.

ghost use Rattle.std.specs.Prelude.{◌≡◌, ◌<◌, ◌≤◌, ◌+◌, ◌*◌, ◌^◌, IfOk, OnOk, flat_map, length, vec_items};
ghost use Rattle.report_rows.specs.Private.Slices.{IsTextOfSlice, committed_between, slice_start};
ghost use Rattle.report_rows.specs.ReplayRows.{committed_count_rows};
ghost use Rattle.report_rows.specs.Rows.{AddsRows};

use crate::{rows, top_rows};
use csv::Writer;
use key_index::KeyDictionary;
use lane_words::Memory;
use parallel::{LEAST_KEYS, collect_each, processors};
use std::alloc::Global;
use std::thread::Threads;

/// How many keys have their rows in one text: a thread makes one at a time.
const SLICE: usize = LEAST_KEYS;

/// The number of the first key of a slice, of so many keys.
fn slice_start(keys: u32, slice: usize) -> u32
    ensures { result ≡ slice_start keys slice }
{
    slice.saturating_mul(SLICE).min(keys as usize) as u32
}

/// Writes the rows of the keys from one number on, below another.
fn write_between(
    writer: &mut Writer<Vec<u8>>,
    keys: &KeyDictionary,
    counts: &[u64],
    from: u32,
    to: u32,
) -> Result<(), Memory>
    requires len { length keys.now ≡ length counts.now }
    requires order { from ≤ to }
    requires within { to ≤ length counts.now }
    ensures { OnOk result (AddsRows writer.old writer.new
        (committed_between keys.now counts.now from to)) }
{
    for id in from..to {
        top_rows::write_counted(writer, keys.key(id), counts[id as usize])?;
    }
    Ok(())
}

/// The rows of the keys of a slice.
fn text_of_slice(
    alloc: Global,
    keys: &KeyDictionary,
    counts: &[u64],
    slice: usize,
) -> Result<Vec<u8>, Memory>
    requires len { length keys.now ≡ length counts.now }
    requires bound { slice + 1 < 2 ^ 64 }
    ensures { IfOk result (IsTextOfSlice keys.now counts.now slice) }
{
    let count = keys.count();
    let from = slice_start(count, slice);
    let to = slice_start(count, slice + 1);
    let mut writer = rows::new_writer(alloc);
    write_between(&mut writer, keys, counts, from, to)?;
    rows::text_of(writer)
}

/// The rows of the keys with a count above 0, in the order of the keys, in texts to be written one
/// after another: those of each slice, made in as many threads as there are processors.
pub fn committed_texts<R: Threads + Sync>(
    rt: &R,
    alloc: Global,
    keys: &KeyDictionary,
    counts: &[u64],
) -> Result<Vec<Vec<u8>>, Memory>
    requires { length keys.now ≡ length counts.now }
    ensures { IfOk result (λ texts. flat_map vec_items texts.items
        ≡ committed_count_rows keys.now counts.now) }
{
    let slices = (keys.count() as usize).div_ceil(SLICE);
    collect_each(
        rt,
        alloc,
        slices,
        processors(rt),
        &|slice| { text_of_slice(alloc, keys, counts, slice) },
    )
}
