//! The line and the exit status of a fault.

ghost use Rattle.std.specs.Prelude.{◌≡◌, ◌≤◌, ◌<◌, ◌+◌, ◌-◌, ◌++◌, OnOk, OnErr, IfErr, decimal, drop, length};
ghost use Rattle.std.specs.Io.KnownBytes.{Appends};
ghost use Rattle.lane_words.specs.declared.Refusal.TheVariants as refusal;
ghost use Rattle.byte_io.specs.Devices.{AppendsPrefix, CanStillFail};
ghost use Rattle.report_cli.specs.Faults.{fault_text, location_text, status_of};

use byte_io::{Sink, write_all};
use itoa::write_digits;
use lane_words::Refusal;

/// The size of the buffer for a line. The longest line takes 41 bytes: it has a code of 3 digits
/// and a location of 20.
const LINE_BUFFER_SIZE: usize = 48;

/// Puts bytes before `end` and returns their start. A line is built from its end to its start.
fn put_before(line: &mut [u8], end: usize, bytes: &[u8]) -> usize
    requires { (length bytes.now ≤ end) × (end ≤ length line.old) }
    ensures start { result + length bytes.now ≡ end }
    ensures line { drop result line.new ≡ bytes.now ++ drop end line.old }
{
    let start = end - bytes.len();
    line[start..end].copy_from_slice(bytes);
    start
}

/// Puts a location before `end`: what is counted, and its number. Returns the start.
fn put_location(line: &mut [u8], end: usize, counted: &[u8], number: u64) -> usize
    requires { (length counted.now + 20 ≤ end) × (end ≤ length line.old) }
    ensures start { result + length counted.now + length (decimal number) ≡ end }
    ensures capacity { end ≤ result + length counted.now + 20 }
    ensures line { drop result line.new ≡ counted.now ++ decimal number ++ drop end line.old }
{
    let start = write_digits(number, line, end);
    put_before(line, start, counted)
}

/// Puts the location of a fault, if it has one, before `end`. Returns the start.
fn put_location_of(line: &mut [u8], end: usize, fault: &Refusal) -> usize
    requires { (31 ≤ end) × (end ≤ length line.old) }
    ensures start { result + length (location_text fault.now) ≡ end }
    ensures capacity { end ≤ result + 31 }
    ensures line { drop result line.new ≡ location_text fault.now ++ drop end line.old }
{
    match fault {
        Refusal::NoSuchColumn { nth } => put_location(line, end, b" at record ", *nth),
        Refusal::BadCsv { nth } => put_location(line, end, b" at record ", *nth),
        Refusal::NoSuchTopic { nth } => put_location(line, end, b" at record ", *nth),
        Refusal::BadLine { line: number } => put_location(line, end, b" at line ", *number),
        Refusal::NobodyLeft { line: number } => put_location(line, end, b" at line ", *number),
        _ => end,
    }
}

/// Puts the line of a fault at the end of a buffer and returns its start.
fn put_fault(line: &mut [u8; LINE_BUFFER_SIZE], fault: &Refusal) -> usize
    ensures start { result ≤ 48 }
    ensures line { drop result line.new ≡ fault_text fault.now }
{
    line[LINE_BUFFER_SIZE - 1] = b'\n';
    let end = put_location_of(line, LINE_BUFFER_SIZE - 1, fault);
    let code = write_digits(fault.code() as u64, line, end);
    put_before(line, code, b"fault ")
}

/// Writes the line of a fault: `fault` and its code, then ` at record` or ` at line` and a number
/// if the fault has a location in a file, and a line feed. Does not allocate. If a write failed,
/// the error is `WriteFailed`, and a prefix of the line is written.
pub fn fault_line<K: Sink>(fault: &Refusal, out: &mut K) -> Result<(), Refusal>
    requires { CanStillFail (K.failures out.old) }
    ensures ok { OnOk result
        (Appends (K.written out.old) (K.written out.new) (fault_text fault.now)) }
    ensures no_failures { OnOk result (K.failures out.new ≡ K.failures out.old) }
    ensures kind { IfErr result (λ e. e ≡ refusal.WriteFailed) }
    ensures failures { OnErr result (K.failures out.new ≡ K.failures out.old + 1) }
    ensures err { OnErr result
        (AppendsPrefix (K.written out.old) (K.written out.new) (fault_text fault.now)) }
{
    let mut line = [0u8; LINE_BUFFER_SIZE];
    let start = put_fault(&mut line, fault);
    write_all(out, &line[start..])
}

/// The exit status of a program that ends with a fault: 1 if it is in the input, 3 otherwise.
pub fn status(fault: &Refusal) -> u8
    ensures { result ≡ status_of fault.now }
{
    match fault.code() {
        20..=24 | 27 | 32 => 1,
        _ => 3,
    }
}
