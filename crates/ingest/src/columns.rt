//! The columns of a file, found before its first record is counted.

ghost use Rattle.std.specs.Prelude.{◌≡◌, ◌⊎◌, ◌≤◌, ◌+◌, [], false, IfErr, IfOk, OnOk};
ghost use Rattle.byte_io.specs.Devices.{CanStillFail};
ghost use Rattle.command_line.specs.Options.{IsColumnIn};
ghost use Rattle.csv_ingest.specs.KeyFile.{IsFileFault};
ghost use Rattle.csv_ingest.specs.Stand.{is_line_end};
ghost use Rattle.lane_words.specs.Answers.{Answers};
ghost use Rattle.lane_words.specs.declared.Refusal.TheVariants as refusal;
ghost use Rattle.ingest.specs.Private.Columns.{FindsColumns, FoundColumns, IsRecordsFault, KnowsColumns, ReadsHeader, is_named};
ghost use Rattle.ingest.specs.Private.Counted.{IsCountFault};
ghost use Rattle.ingest.specs.Records.{column_in, topic_column_in};
ghost use Rattle.ingest.specs.Reports.{AreInRange, failed_reads};

use crate::windows::Windows;
use byte_io::Source;
use command_line::{Column, LAST_COLUMN, Options};
use csv_ingest::{column_named_in, has_header};
use lane_words::Refusal;
use std::alloc::Global;

/// The columns that are read of each record, counted from 1.
#[derive(Clone, Copy)]
pub struct Columns {
    /// The key's.
    pub key: u32,
    /// The topic's. Without topics none is read, and it is the first.
    pub topic: u32,
}

/// Whether a column has a name.
fn is_named(column: &Column) -> bool
    ensures { result ≡ is_named column.now }
{
    match column {
        Column::Number(_) => false,
        Column::Named(_) => true,
    }
}

/// Whether a column has a name, of those that options have.
fn names_columns(options: &Options) -> bool
    ensures key { result ≡ false → is_named options.now.column ≡ false }
    ensures topic { result ≡ false → is_named options.now.topic_column ≡ false }
{
    is_named(&options.column) || is_named(&options.topic_column)
}

/// A column of a file, counted from 1, by first bytes of the file that have its header.
fn column_of(alloc: Global, text: &[u8], column: &Column, options: &Options) -> Result<u32, Refusal>
    requires { IsColumnIn options.now.header column.now }
    ensures answer { Answers (column_in options.now.delimiter text.now column.now) result }
    ensures range { IfOk result (λ column. 1 ≤ column) }
    ensures kind { IfErr result IsFileFault }
{
    match column {
        Column::Number(number) => Ok(*number),
        Column::Named(name) => {
            column_named_in(alloc, text, options.delimiter, name.as_slice(), LAST_COLUMN)
        }
    }
}

/// The column of the topic; without topics none is read, and it is the first.
fn topic_column_of(alloc: Global, text: &[u8], options: &Options) -> Result<u32, Refusal>
    requires { AreInRange options.now }
    ensures answer { Answers (topic_column_in options.now.delimiter text.now
        options.now.topics.items options.now.topic_column) result }
    ensures range { IfOk result (λ column. 1 ≤ column) }
    ensures kind { IfErr result IsFileFault }
{
    if options.topics.is_empty() {
        return Ok(1);
    }
    column_of(alloc, text, &options.topic_column, options)
}

/// The columns that options have, by first bytes of a file that have its header. Fails with
/// `NoSuchColumn` for record 1, if the header does not have a name: the key's column comes first.
fn columns_of(alloc: Global, text: &[u8], options: &Options) -> Result<Columns, Refusal>
    requires { AreInRange options.now }
    ensures answer { FindsColumns options.now text.now result }
    ensures range { IfOk result (λ columns. (1 ≤ columns.key) × (1 ≤ columns.topic)) }
    ensures kind { IfErr result IsFileFault }
{
    let key = column_of(alloc, text, &options.column, options)?;
    let topic = topic_column_of(alloc, text, options)?;
    Ok(Columns { key, topic })
}

/// Reads on until the window has the header of the file, or the source is at its end. The window
/// grows where its first record is longer than it.
fn read_header<S: Source>(
    alloc: Global,
    source: &mut S,
    windows: &mut Windows,
    delimiter: u8,
) -> Result<(), Refusal>
    requires failures { CanStillFail (S.failures source.old) }
    requires delimiter { is_line_end delimiter ≡ false }
    requires empty { windows.old.window ≡ [] }
    requires end { windows.old.at_end ≡ false }
    ensures ok { OnOk result (ReadsHeader delimiter windows.new.at_end
        (S.left source.old) (S.left source.new) windows.new.window) }
    ensures err { IfErr result (λ e. (e ≡ refusal.Memory) ⊎ (e ≡ refusal.ReadFailed)) }
    ensures reads { S.failures source.new ≡ S.failures source.old + failed_reads result }
{
    for _ in 0..u64::MAX {
        windows.read_on(source)?;
        if windows.at_end {
            return Ok(());
        }
        if has_header(alloc, windows.window.text(), delimiter)? {
            return Ok(());
        }
        windows.grow()?;
    }
    Err(Refusal::Memory)
}

/// Reads the header, if a column has a name.
fn read_names<S: Source>(
    alloc: Global,
    source: &mut S,
    windows: &mut Windows,
    options: &Options,
) -> Result<(), Refusal>
    requires failures { CanStillFail (S.failures source.old) }
    requires options { AreInRange options.now }
    requires empty { windows.old.window ≡ [] }
    requires end { windows.old.at_end ≡ false }
    ensures ok { OnOk result (KnowsColumns options.now windows.new.at_end
        (S.left source.old) (S.left source.new) windows.new.window) }
    ensures err { IfErr result (λ e. (e ≡ refusal.Memory) ⊎ (e ≡ refusal.ReadFailed)) }
    ensures reads { S.failures source.new ≡ S.failures source.old + failed_reads result }
{
    if !names_columns(options) {
        return Ok(());
    }
    read_header(alloc, source, windows, options.delimiter)
}

/// The columns that options have, of the file that a source has. If a column has a name, the
/// header is read into the window; otherwise nothing is. Fails with `NoSuchColumn` for record 1, if
/// the header does not have a name, with `ReadFailed` if a read failed, and with `Memory`.
pub fn find_columns<S: Source>(
    alloc: Global,
    source: &mut S,
    windows: &mut Windows,
    options: &Options,
) -> Result<Columns, Refusal>
    requires failures { CanStillFail (S.failures source.old) }
    requires options { AreInRange options.now }
    requires empty { windows.old.window ≡ [] }
    requires end { windows.old.at_end ≡ false }
    ensures ok { IfOk result (FoundColumns options.now windows.new.at_end
        (S.left source.old) (S.left source.new) windows.new.window) }
    ensures range { IfOk result (λ columns. (1 ≤ columns.key) × (1 ≤ columns.topic)) }
    ensures err { IfErr result (λ e. (e ≡ refusal.Memory) ⊎ ((e ≡ refusal.ReadFailed)
        ⊎ IsRecordsFault options.now (S.left source.old) e)) }
    ensures kind { IfErr result IsCountFault }
    ensures reads { S.failures source.new ≡ S.failures source.old + failed_reads result }
{
    match read_names(alloc, source, windows, options) {
        Ok(()) => columns_of(alloc, windows.window.text(), options),
        Err(fault) => Err(fault),
    }
}
