//! A check, from its sources to a sink.

ghost use Rattle.std.specs.Prelude.{◌≡◌, ◌+◌, IfOk, None, option_map};
ghost use Rattle.byte_io.specs.Devices.{CanStillFail};
ghost use Rattle.command_line.specs.Options.{IsCheckInRange};
ghost use Rattle.ingest.specs.Reports.{AreInRange, CountsFailures, WritesAtEndAlone, WritesIfFileKnown, failed_reads, failed_writes, written};
ghost use Rattle.check_report.specs.CheckReport.{TellsFaultOfBoth, TellsFaultOfFile, WritesCheckOfBoth, findings_of, report_of_check, script_findings};
ghost use Rattle.check_report.specs.Findings.{finding_table, has_fault};

use crate::findings::{Finding, has_fault, table_of};
use crate::record_findings::findings_of_file;
use crate::script_findings::findings_of_script;
use crate::warnings::add_warnings;
use byte_io::{Sink, Source, read_all, write_all};
use command_line::{CheckOptions, Options};
use lane_words::{Memory, Refusal};
use std::alloc::Global;

/// What a check found.
#[derive(Drop)]
struct Told {
    /// The text of the table.
    text: Vec<u8>,
    /// Whether there is a fault.
    faulty: bool,
}

/// The findings of a script, if there is one.
fn script_findings(
    alloc: Global,
    script: Option<&[u8]>,
    options: &Options,
    check: &CheckOptions,
) -> Result<Vec<Finding>, Memory>
    requires options { AreInRange options.now }
    requires check { IsCheckInRange check.now }
    ensures { IfOk result (λ found. found.items
        ≡ script_findings options.now check.now (option_map (λ s. s.now) script.entry)) }
{
    match script {
        Some(script) => {
            let topics = options.topics.as_slice();
            findings_of_script(alloc, topics, check.plan, script, check.most as usize)
        }
        None => Ok(Vec::new(alloc)),
    }
}

/// What is found in a file, and in a script if there is one.
#[tactic(auto, unfolding(crate::specs::CheckReport::findings_of))]
fn findings_of(
    alloc: Global,
    file: &[u8],
    script: Option<&[u8]>,
    options: &Options,
    check: &CheckOptions,
) -> Result<Vec<Finding>, Memory>
    requires options { AreInRange options.now }
    requires check { IsCheckInRange check.now }
    ensures { IfOk result (λ found. found.items
        ≡ findings_of options.now check.now file.now (option_map (λ s. s.now) script.entry)) }
{
    let mut found = findings_of_file(alloc, file, options, check.most as usize)?;
    let mut of_script = script_findings(alloc, script, options, check)?;
    found.append(&mut of_script)?;
    add_warnings(alloc, &mut found, file, options.delimiter)?;
    Ok(found)
}

/// The table of what is found in a file, and in a script if there is one.
fn checked(
    alloc: Global,
    file: &[u8],
    script: Option<&[u8]>,
    options: &Options,
    check: &CheckOptions,
) -> Result<Told, Memory>
    requires options { AreInRange options.now }
    requires check { IsCheckInRange check.now }
    ensures text { IfOk result (λ told. told.text.items ≡ finding_table
        (findings_of options.now check.now file.now (option_map (λ s. s.now) script.entry))) }
    ensures faulty { IfOk result (λ told. told.faulty ≡ has_fault
        (findings_of options.now check.now file.now (option_map (λ s. s.now) script.entry))) }
{
    let found = findings_of(alloc, file, script, options, check)?;
    Ok(Told {
        text: table_of(alloc, found.as_slice())?,
        faulty: has_fault(found.as_slice()),
    })
}

/// Checks a CSV file: writes a header, and a row for each record that a job could not use, of the
/// first `most`, with its number, line and byte and what is wrong with it, and then a row for what
/// may be wrong: another format, another delimiter, quotes that are never closed. Returns whether
/// there is a record that a job could not use.
///
/// The whole file is read and the whole text is made before the first write. So after `WriteFailed`
/// a prefix of the text is written, and after any other refusal nothing.
///
/// Errors: `ReadFailed` if a read failed, `WriteFailed` if a write failed, and `Memory` if an
/// allocation failed.
pub fn check_text<S: Source, K: Sink>(
    alloc: Global,
    file: &mut S,
    options: &Options,
    check: &CheckOptions,
    out: &mut K,
) -> Result<bool, Refusal>
    requires source { CanStillFail (S.failures file.old) }
    requires sink { CanStillFail (K.failures out.old) }
    requires options { AreInRange options.now }
    requires check { IsCheckInRange check.now }
    ensures report { WritesIfFileKnown
        (λ bytes. report_of_check options.now check.now bytes None)
        (S.left file.old) (K.written out.old) (K.written out.new) (written result) }
    ensures faulty { TellsFaultOfFile options.now check.now (S.left file.old) result }
    ensures end { WritesAtEndAlone (K.written out.old) (K.written out.new) (written result) }
    ensures reads { S.failures file.new ≡ S.failures file.old + failed_reads result }
    ensures writes { K.failures out.new ≡ K.failures out.old + failed_writes (written result) }
{
    let bytes = read_all(alloc, file)?;
    let told = checked(alloc, bytes.as_slice(), None, options, check)?;
    write_all(out, told.text.as_slice())?;
    Ok(told.faulty)
}

/// Checks a CSV file and a script, or with `plan` a plan: writes what `check_text` does, and before
/// the warnings a row for each bad line, of the first `most`. The file is read before the script.
///
/// Errors: as those of `check_text`.
pub fn check_both_text<S: Source, T: Source, K: Sink>(
    alloc: Global,
    file: &mut S,
    script: &mut T,
    options: &Options,
    check: &CheckOptions,
    out: &mut K,
) -> Result<bool, Refusal>
    requires file { CanStillFail (S.failures file.old) }
    requires script { CanStillFail (T.failures script.old) }
    requires sink { CanStillFail (K.failures out.old) }
    requires options { AreInRange options.now }
    requires check { IsCheckInRange check.now }
    ensures report { WritesCheckOfBoth options.now check.now (S.left file.old)
        (T.left script.old) (K.written out.old) (K.written out.new) result }
    ensures faulty { TellsFaultOfBoth options.now check.now (S.left file.old)
        (T.left script.old) result }
    ensures end { WritesAtEndAlone (K.written out.old) (K.written out.new) (written result) }
    ensures reads { CountsFailures (S.failures file.old) (S.failures file.new)
        (T.failures script.old) (T.failures script.new) result }
    ensures writes { K.failures out.new ≡ K.failures out.old + failed_writes (written result) }
{
    let bytes = read_all(alloc, file)?;
    let lines = read_all(alloc, script)?;
    let told = checked(
        alloc,
        bytes.as_slice(),
        Some(lines.as_slice()),
        options,
        check,
    )?;
    write_all(out, told.text.as_slice())?;
    Ok(told.faulty)
}
