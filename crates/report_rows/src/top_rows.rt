//! The rows of the keys with the highest counts.

ghost use Rattle.std.specs.Prelude.{◌≡◌, ◌<◌, ◌++◌, All, IfOk, OnOk, length};
ghost use Rattle.report_rows.specs.CountRows.{counted_row, top_rows};
ghost use Rattle.report_rows.specs.Private.Ranked.{AreRanked};
ghost use Rattle.report_rows.specs.Rows.{AddsRows, total_row};

use crate::{count_rows, rows};
use csv::Writer;
use key_index::KeyList;
use lane_words::Memory;
use std::alloc::Global;
use std::cmp::Reverse;

/// A key number behind its count, so that they compare by count, the highest first, and then by
/// number.
type Numbered = (Reverse<u64>, usize);

/// The numbers of all keys with their counts, the highest first.
fn ranked(alloc: Global, counts: &[u64]) -> Result<Vec<Numbered>, Memory>
    ensures value { IfOk result (λ ranked. AreRanked counts.now ranked.items) }
    ensures bound { IfOk result
        (λ ranked. All (λ numbered. numbered.1 < length counts.now) ranked.items) }
{
    let mut ranked = Vec::with_capacity(alloc, counts.len())?;
    for id in 0..counts.len() {
        ranked.push((Reverse(counts[id]), id))?;
    }
    ranked.sort_unstable();
    Ok(ranked)
}

/// Writes the row of a key with its count, or nothing if the count is 0.
pub fn write_counted(writer: &mut Writer<Vec<u8>>, key: &[u8], count: u64) -> Result<(), Memory>
    ensures { OnOk result (AddsRows writer.old writer.new (counted_row key.now count)) }
{
    if count == 0 {
        return Ok(());
    }
    count_rows::write_count(writer, key, count)
}

/// Writes the rows of the `most` keys with the highest counts, the highest first; of equal counts,
/// the key that came first. A key with count 0 has no row.
pub fn write_top<K: KeyList>(
    writer: &mut Writer<Vec<u8>>,
    alloc: Global,
    keys: &K,
    counts: &[u64],
    most: u32,
) -> Result<(), Memory>
    requires { length (K.keys keys.now) ≡ length counts.now }
    ensures { OnOk result (AddsRows writer.old writer.new
        (top_rows most (K.keys keys.now) counts.now)) }
{
    let ranked = ranked(alloc, counts)?;
    let shown = ranked.len().min(most as usize);
    for i in 0..shown {
        let (count, id) = ranked[i];
        write_counted(writer, keys.key(id), count.0)?;
    }
    Ok(())
}

/// The text of a count of which the `most` keys with the highest counts are listed: a row for each
/// of them, and the row of the totals, which are those of all keys.
pub fn top_text<K: KeyList>(
    alloc: Global,
    keys: &K,
    counts: &[u64],
    most: u32,
    committed: u64,
    appended: u64,
) -> Result<Vec<u8>, Memory>
    requires { length (K.keys keys.now) ≡ length counts.now }
    ensures { IfOk result (λ text. text.items
        ≡ top_rows most (K.keys keys.now) counts.now ++ total_row committed appended) }
{
    let mut writer = rows::new_writer(alloc);
    write_top(&mut writer, alloc, keys, counts, most)?;
    rows::write_total(&mut writer, committed, appended)?;
    rows::text_of(writer)
}
