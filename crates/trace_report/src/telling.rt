//! What is written of a text once it has ended: the report of its log, or the line of its fault.
ghost use Rattle.std.specs.Prelude.{◌≡◌, ◌≢◌, ◌⊎◌, Ok, Err, true, false, IfErr};
ghost use Rattle.std.specs.Io.KnownBytes.{Appends};
ghost use Rattle.trace_report.specs.Reports.{AreNamed};
ghost use Rattle.trace_report.specs.Replayed.{answer_gives_up, fault_text, gives_up, replay_fault};
ghost use Rattle.trace_report.specs.Replayed.{says_nothing, Told};

use crate::faults::{ReplayFault, TraceFault};
use crate::reporting::report;
use crate::summary::Summary;
use rapid_text::{Names, Output, WriteFault, write_fault};
use seq_monitor::Monitor;

/// Writes the report of the monitor's log.
pub fn tell_trace<W: Output>(
    writer: &mut W,
    monitor: &Monitor,
    names: &Names,
) -> Result<Summary, ReplayFault>
    requires named { AreNamed names.now monitor.now.log }
    ensures tells { answer_gives_up result ≡ false → Told (W.written writer.old) (W.written writer.new)
        (Ok (record { names = names.now; log = monitor.now.log })) result }
    ensures only { IfErr result (λ f. f ≡ ReplayFault.Write) }
    ensures healthy { result ≢ Err ReplayFault.Write → W.failed writer.new ≡ W.failed writer.old }
    ensures failed { result ≡ Err ReplayFault.Write → W.failed writer.new ≡ true }
{
    match report(writer, monitor.log(), monitor.verdicts(), names) {
        Ok(summary) => Ok(summary),
        Err(WriteFault) => Err(ReplayFault::Write),
    }
}

/// Writes the one line that tells the fault, and answers it; nothing is written where it says nothing of the
/// text.
#[tactic(auto, using(crate::proofs::TellsTextProperties::same_fault))]
pub fn tell_failure<W: Output>(writer: &mut W, fault: TraceFault) -> ReplayFault
    ensures answers { (result ≡ replay_fault fault) ⊎ (result ≡ ReplayFault.Write) }
    ensures tells { says_nothing result ≡ false → (result ≡ replay_fault fault) × (gives_up fault ≡ false)
        × Appends (W.written writer.old) (W.written writer.new) (fault_text fault) }
    ensures quiet { says_nothing result ≡ true → result ≢ ReplayFault.Write → writer.new ≡ writer.old }
    ensures healthy { result ≢ ReplayFault.Write → W.failed writer.new ≡ W.failed writer.old }
    ensures failed { result ≡ ReplayFault.Write → W.failed writer.new ≡ true }
{
    let Some((line, word)) = fault.line_and_word() else {
        return fault.replay_fault();
    };
    let Ok(()) = write_fault(writer, line, word) else {
        return ReplayFault::Write;
    };
    fault.replay_fault()
}
