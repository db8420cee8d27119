//! The report of a closed log.
ghost use Rattle.std.specs.Prelude.{◌≡◌, ◌↔◌, true, IfOk, IfErr, OnOk};
ghost use Rattle.std.specs.Result.{IsErrOf};
ghost use Rattle.trace_report.specs.Reports.{AreNamed};
ghost use Rattle.closed_report.specs.Closed.{IsReportOf};
ghost use Rattle.closed_report.specs.Unnamed.{IsReason, TellsUnnamed};

use crate::naming::all_named;
use live_monitor::Closed;
use rapid_text::{Kind, Names, Output};
use thiserror::Error;
use trace_report::{Summary, report};

/// Why a closed log was not reported.
#[derive(Clone, Copy, Debug, PartialEq, Eq, Error)]
pub enum ReportFault {
    /// A thread, lock, variable or site of the log has no name. The event is the first of which a number has
    /// none, by its index, which counts from 0.
    #[error("{kind:?} {number}: the number has no name, at index {event} of the log")]
    Unnamed { kind: Kind, number: u32, event: u64 },
    /// The report was not written whole. How much of it was written is not known.
    #[error("the report could not be written")]
    Write,
}

/// Writes the report of the closed log, as `wcp replay` writes that of a trace. Its lines count events from
/// 1, where indices and `Racy` count from 0. It takes no memory. The fault is `Unnamed`, with nothing
/// written, where a number has no name, and `Write` where the writer failed.
pub fn report_closed<W: Output>(
    writer: &mut W,
    closed: &Closed,
    names: &Names,
) -> Result<Summary, ReportFault>
    // What is written is the report, with the definition's verdict on each event, and nothing else.
    ensures ok { IfOk result (λ summary.
        IsReportOf names.now closed.now.log (W.written writer.old) (W.written writer.new) summary) }
    // It answers that a number has no name exactly where one has none, and then nothing is written.
    ensures unnamed { TellsUnnamed result ↔ (AreNamed names.now closed.now.log → ⊥) }
    ensures first { IfErr result (IsReason names.now closed.now.log) }
    ensures quiet { TellsUnnamed result → writer.new ≡ writer.old }
    ensures healthy { OnOk result (W.failed writer.new ≡ W.failed writer.old) }
    // It fails to write only where the writer did.
    ensures failed { IsErrOf result ReportFault.Write → W.failed writer.new ≡ true }
{
    let log = closed.log();
    all_named(names, log)?;
    match report(writer, log, closed.verdicts(), names) {
        Ok(summary) => Ok(summary),
        Err(_) => Err(ReportFault::Write),
    }
}
