//! What a check finds, and its row.

ghost use Rattle.std.specs.Prelude.{◌≡◌, ◌++◌, IfOk, OnOk, flat_map, take};
ghost use Rattle.report_rows.specs.Rows.{AddsRows};
ghost use Rattle.check_report.specs.Findings.{finding_header, finding_row, finding_table, has_fault, input_text, number_text, shown};

use csv::Writer;
use itoa::Buffer;
use lane_words::Memory;
use report_rows::rows;
use std::alloc::Global;
use std::marker::Model;

/// How many bytes of a text are shown at most.
pub const MOST_SHOWN: usize = 80;

/// One thing that is wrong, or may be.
#[derive(Debug, Drop)]
pub struct Finding {
    /// Whether it is in the script.
    pub in_script: bool,
    /// The code of the fault that a job would end with; `None` of a warning.
    pub code: Option<u64>,
    /// The number of the record, from 1.
    pub nth: Option<u64>,
    /// The line, from 1.
    pub line: Option<u64>,
    /// The byte, from 0.
    pub byte: Option<u64>,
    /// What is wrong.
    pub words: Vec<u8>,
}

impl Model for Finding {
    ghost use Rattle.check_report.specs.Findings.{Finding};

    ghost Value = { Finding };

    ghost view = { λ s. record {
      in_script = s.in_script;
      code = s.code;
      nth = s.nth;
      line = s.line;
      byte = s.byte;
      words = s.words.items;
    } };
}

/// The digits of a number, or nothing.
fn digits(buffer: &mut Buffer, number: Option<u64>) -> &[u8]
    ensures { result.now ≡ number_text number }
{
    match number {
        Some(number) => buffer.format(number).as_bytes(),
        None => b"",
    }
}

/// The name of the input of a finding.
fn input_of(finding: &Finding) -> &[u8]
    ensures { result.now ≡ input_text finding.now.in_script }
{
    if finding.in_script {
        b"script"
    } else {
        b"file"
    }
}

/// Writes the row of a finding.
fn write_finding(writer: &mut Writer<Vec<u8>>, finding: &Finding) -> Result<(), Memory>
    ensures { OnOk result (AddsRows writer.old writer.new (finding_row finding.now)) }
{
    let (mut first, mut second) = (Buffer::new(), Buffer::new());
    let (mut third, mut fourth) = (Buffer::new(), Buffer::new());
    let input = input_of(finding);
    let code = digits(&mut first, finding.code);
    let nth = digits(&mut second, finding.nth);
    let line = digits(&mut third, finding.line);
    let byte = digits(&mut fourth, finding.byte);
    let words = finding.words.as_slice();
    rows::write_row(writer, &[input, code, nth, line, byte, words])
}

/// Writes the first row.
#[tactic(auto, unfolding(crate::specs::Findings::finding_header))]
fn write_header(writer: &mut Writer<Vec<u8>>) -> Result<(), Memory>
    ensures { OnOk result (AddsRows writer.old writer.new finding_header) }
{
    rows::write_row(
        writer,
        &[b"input", b"code", b"record", b"line", b"byte", b"problem"],
    )
}

/// Writes the rows of findings.
fn write_findings(writer: &mut Writer<Vec<u8>>, findings: &[Finding]) -> Result<(), Memory>
    ensures { OnOk result
        (AddsRows writer.old writer.new (flat_map finding_row findings.now)) }
{
    for i in 0..findings.len() {
        write_finding(writer, &findings[i])?;
    }
    Ok(())
}

/// The table of findings.
pub fn table_of(alloc: Global, findings: &[Finding]) -> Result<Vec<u8>, Memory>
    ensures { IfOk result (λ text. text.items ≡ finding_table findings.now) }
{
    let mut writer = rows::new_writer(alloc);
    write_header(&mut writer)?;
    write_findings(&mut writer, findings)?;
    rows::text_of(writer)
}

/// Whether one of these findings is a fault.
pub fn has_fault(findings: &[Finding]) -> bool
    ensures { result ≡ has_fault findings.now }
{
    findings.iter().any(|finding| finding.code.is_some())
}

/// The first bytes of a text, as many as are shown.
fn first_bytes(text: &[u8]) -> &[u8]
    ensures { result.now ≡ take MOST_SHOWN text.now }
{
    if text.len() > MOST_SHOWN {
        &text[..MOST_SHOWN]
    } else {
        text
    }
}

/// These words, and then a text as it is shown: its first bytes, in single quotes.
pub fn with_shown(alloc: Global, words: &[u8], text: &[u8]) -> Result<Vec<u8>, Memory>
    ensures { IfOk result (λ all. all.items ≡ words.now ++ shown text.now) }
{
    let mut all = words.to_vec(alloc)?;
    all.extend_from_slice(b"'")?;
    all.extend_from_slice(first_bytes(text))?;
    all.extend_from_slice(b"'")?;
    Ok(all)
}
