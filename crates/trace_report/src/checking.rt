//! The check of a trace, from the bytes of a reader to its one line.
ghost use Rattle.std.specs.Prelude.{◌≡◌, ◌≢◌, ◌≤◌, Err, true, false};
ghost use Rattle.rapid_text.specs.Turns.{most_turns};
ghost use Rattle.trace_report.specs.Replayed.{answer_gives_up, IfFound};
ghost use Rattle.trace_report.specs.Judging.{HasRead, RanOut, ReachesLine};
ghost use Rattle.trace_report.specs.Checked.{ChecksText};

use crate::counts::Counts;
use crate::faults::ReplayFault;
use crate::telling::tell_failure;
use crate::whole_text::judge_text;
use event_core::Limits;
use rapid_text::{Input, Output, WriteFault};
use std::alloc::Global;
use traced_mem::Memory;

/// Judges the trace that the reader has left, and writes one line: the counts of a legal trace, or the first
/// line that is no event or whose event is refused. The lines before are known by the memory alone, and no
/// log is kept. Each turn is one pull of up to 65,536 bytes, and there may be 2^44 turns.
///
/// Nothing is written where the text could not be read to its end, or a growth was refused. The first has
/// the cause `Read`, and the second the cause or the refusal `OutOfMemory`.
pub fn check<I: Input, O: Output>(
    alloc: Global,
    reader: &mut I,
    writer: &mut O,
    limits: Limits,
    turns: u64,
) -> Result<Counts, ReplayFault>
    requires turns { turns ≤ most_turns }
    requires reads { I.failed reader.old ≡ false }
    requires writes { O.failed writer.old ≡ false }
    // The answer is what the whole text comes to, read or left unread. The line that tells it is written, and
    // nothing else. A reader that does not tell its text had some text left of which this holds.
    ensures checks { answer_gives_up result ≡ false → ChecksText limits (I.left reader.old)
        (O.written writer.old) (O.written writer.new) result }
    // Nothing is written where the answer says nothing of the text.
    ensures quiet { answer_gives_up result ≡ true → result ≢ Err ReplayFault.Write → writer.new ≡ writer.old }
    // A read fault is at the line whose end was not seen, of which at most 1,025 bytes came, since with one
    // more it is too long. No line before has a fault or a refused event.
    ensures reads { HasRead limits (I.left reader.old) (I.left reader.new) turns (I.failed reader.new)
        (I.pulls reader.old) (I.pulls reader.new) result }
    // Memory ran out at a line with an event. No event of a line before is refused, nor is the line's own
    // unless memory ran out for its names.
    ensures memory { IfFound result (λ f. RanOut f → ReachesLine limits (I.left reader.old) f) }
    // It is a fault of the writer exactly where the writer failed or took no byte.
    ensures write_fault { result ≡ Err ReplayFault.Write → O.failed writer.new ≡ true }
    ensures written { result ≢ Err ReplayFault.Write → O.failed writer.new ≡ false }
{
    let memory = Memory::new(alloc, limits).unwrap();
    let text = match judge_text(alloc, reader, memory, limits, turns) {
        Ok(text) => text,
        Err(fault) => return Err(tell_failure(writer, fault)),
    };
    let counts = Counts::of(text.judge.len(), &text.names);
    match counts.write(writer) {
        Ok(()) => Ok(counts),
        Err(WriteFault) => Err(ReplayFault::Write),
    }
}
