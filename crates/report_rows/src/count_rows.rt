//! The rows of a count.

ghost use Rattle.std.specs.Prelude.{◌≡◌, ◌<◌, ◌++◌, IfOk, OnOk, flat_map, length, vec_items};
ghost use Rattle.report_rows.specs.CountRows.{count_row, count_rows};
ghost use Rattle.report_rows.specs.Rows.{AddsRows, total_row};

use crate::rows;
use csv::Writer;
use itoa::Buffer;
use key_index::KeyList;
use lane_words::Memory;
use std::alloc::Global;

/// Writes the row of a key with its count.
pub fn write_count(writer: &mut Writer<Vec<u8>>, key: &[u8], count: u64) -> Result<(), Memory>
    ensures { OnOk result (AddsRows writer.old writer.new (count_row key.now count)) }
{
    let mut digits = Buffer::new();
    rows::write_row(writer, &[b"count", key, digits.format(count).as_bytes()])
}

/// Writes the row of each key with its count.
fn write_counts<K: KeyList>(
    writer: &mut Writer<Vec<u8>>,
    keys: &K,
    counts: &[u64],
) -> Result<(), Memory>
    requires { length (K.keys keys.now) ≡ length counts.now }
    ensures { OnOk result (AddsRows writer.old writer.new
        (count_rows (K.keys keys.now) counts.now)) }
{
    for id in 0..counts.len() {
        write_count(writer, keys.key(id), counts[id])?;
    }
    Ok(())
}

/// How many bytes the row of a key with its count takes, unless the key needs quotes.
fn row_len(key: &[u8], count: u64) -> usize {
    let digits = count.checked_ilog10().unwrap_or(0) as usize + 1;
    b"count,,\n".len() + key.len() + digits
}

/// The most bytes that the row of the totals takes.
const MOST_TOTAL: usize = b"total,,\n".len() + 2 * 20;

/// How many bytes these rows take with the row of the totals, if no key needs quotes. It only
/// decides how much memory is reserved: a text that grows takes twice its length.
fn rows_len<K: KeyList>(keys: &K, counts: &[u64]) -> usize
    requires { length (K.keys keys.now) ≡ length counts.now }
{
    let mut len = MOST_TOTAL;
    for id in 0..counts.len() {
        len = len.saturating_add(row_len(keys.key(id), counts[id]));
    }
    len
}

/// The row of each key with its count, as a text.
pub fn count_rows_text<K: KeyList>(
    alloc: Global,
    keys: &K,
    counts: &[u64],
) -> Result<Vec<u8>, Memory>
    requires { length (K.keys keys.now) ≡ length counts.now }
    ensures { IfOk result (λ text. text.items ≡ count_rows (K.keys keys.now) counts.now) }
{
    let mut writer = rows::writer_for(alloc, rows_len(keys, counts))?;
    write_counts(&mut writer, keys, counts)?;
    rows::text_of(writer)
}

/// The row of the totals, as a text.
fn total_text(alloc: Global, committed: u64, appended: u64) -> Result<Vec<u8>, Memory>
    ensures { IfOk result (λ text. text.items ≡ total_row committed appended) }
{
    let mut writer = rows::new_writer(alloc);
    rows::write_total(&mut writer, committed, appended)?;
    rows::text_of(writer)
}

/// Texts with `end` appended to the last of them.
fn with_end(texts: Vec<Vec<u8>>, end: Vec<u8>) -> Result<Vec<Vec<u8>>, Memory>
    ensures { IfOk result (λ all. flat_map vec_items all.items
        ≡ flat_map vec_items texts.items ++ end.items) }
{
    let mut all = texts;
    let last = match all.pop() {
        Some(text) => {
            let mut text = text;
            text.extend_from_slice(end.as_slice())?;
            text
        }
        None => end,
    };
    all.push(last)?;
    Ok(all)
}

/// These texts and the row of the totals, to be written one after another.
pub fn with_total(
    alloc: Global,
    texts: Vec<Vec<u8>>,
    committed: u64,
    appended: u64,
) -> Result<Vec<Vec<u8>>, Memory>
    ensures { IfOk result (λ all. flat_map vec_items all.items
        ≡ flat_map vec_items texts.items ++ total_row committed appended) }
{
    with_end(texts, total_text(alloc, committed, appended)?)
}
