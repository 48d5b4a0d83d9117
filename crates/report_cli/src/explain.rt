//! What `keycount explain` prints.

ghost use Rattle.std.specs.Prelude.{◌≡◌, ◌+◌, IfErr, Ok};
ghost use Rattle.byte_io.specs.Devices.{CanStillFail};
ghost use Rattle.command_line.specs.Explanations.{explained};
ghost use Rattle.ingest.specs.Reports.{WritesReport, failed_writes};
ghost use Rattle.report_cli.specs.Explain.{IsWriteOrMemory};

use byte_io::{Sink, write_all};
use command_line::{explanation_of, list_text};
use lane_words::Refusal;
use std::alloc::Global;

/// Writes what a refusal means, or without one a line for each. If a write failed, the error is
/// `WriteFailed`, and a prefix of the text is written; only the list takes memory.
pub fn explain_text<K: Sink>(
    alloc: Global,
    refusal: Option<Refusal>,
    out: &mut K,
) -> Result<(), Refusal>
    requires { CanStillFail (K.failures out.old) }
    ensures report { WritesReport (Ok (explained refusal)) (K.written out.old) (K.written out.new)
        result }
    ensures kind { IfErr result IsWriteOrMemory }
    ensures failures { K.failures out.new ≡ K.failures out.old + failed_writes result }
{
    match refusal {
        Some(refusal) => write_all(out, explanation_of(&refusal).as_bytes()),
        None => write_all(out, list_text(alloc)?.as_slice()),
    }
}
