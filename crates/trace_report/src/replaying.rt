//! The replay of a trace, from the bytes of a reader to its report.
ghost use Rattle.std.specs.Prelude.{◌≡◌, ◌≢◌, ◌⊎◌, ◌≤◌, Err, true, false};
ghost use Rattle.rapid_text.specs.Turns.{most_turns};
ghost use Rattle.trace_report.specs.Replayed.{answer_gives_up, IfFound, TellsText};
ghost use Rattle.trace_report.specs.Judging.{HasRead, RanOut, ReachesLine, line_of};

use crate::faults::ReplayFault;
use crate::summary::Summary;
use crate::telling::{tell_failure, tell_trace};
use crate::whole_text::judge_text;
use event_core::{Limits, Refusal};
use rapid_text::{Input, Output};
use seq_monitor::Monitor;
use std::alloc::Global;

/// Replays the trace that the reader has left, and writes what it comes to: the report of a legal trace, or
/// one line for the first line that is no event or whose event is refused. Each turn is one pull of up to
/// 65,536 bytes, and there may be 2^44 turns.
///
/// Nothing is written before the text has ended or a fault is met, nor where the text could not be read to
/// its end or a growth was refused.
pub fn replay<I: Input, O: Output>(
    alloc: Global,
    reader: &mut I,
    writer: &mut O,
    limits: Limits,
    turns: u64,
) -> Result<Summary, ReplayFault>
    requires turns { turns ≤ most_turns }
    requires reads { I.failed reader.old ≡ false }
    requires writes { O.failed writer.old ≡ false }
    // What is written, and nothing else, tells what the whole text comes to, read or left unread, and so does
    // the answer. A reader that does not tell its text had some text left of which this holds.
    ensures tells { answer_gives_up result ≡ false → TellsText limits (I.left reader.old)
        (O.written writer.old) (O.written writer.new) result }
    // Nothing is written where the answer says nothing of the text.
    ensures quiet { answer_gives_up result ≡ true → result ≢ Err ReplayFault.Write → writer.new ≡ writer.old }
    // A read fault is at the line whose end was not seen, of which at most 1,025 bytes came, since with one
    // more it is too long. No line before has a fault or a refused event.
    ensures reads { HasRead limits (I.left reader.old) (I.left reader.new) turns (I.failed reader.new)
        (I.pulls reader.old) (I.pulls reader.new) result }
    // Memory ran out at a line with an event. No event of a line before is refused, nor is the line's own
    // unless memory ran out for its names. Or it ran out at line 1, before the first read.
    ensures memory { IfFound result (λ f. RanOut f → ReachesLine limits (I.left reader.old) f
        ⊎ ((line_of f ≡ 1) × (reader.new ≡ reader.old))) }
    // It is a fault of the writer exactly where the writer failed or took no byte.
    ensures write_fault { result ≡ Err ReplayFault.Write → O.failed writer.new ≡ true }
    ensures written { result ≢ Err ReplayFault.Write → O.failed writer.new ≡ false }
{
    let Ok(monitor) = Monitor::new(alloc, limits) else {
        return Err(ReplayFault::Refused {
            line: 1,
            refusal: Refusal::OutOfMemory,
        });
    };
    let text = match judge_text(alloc, reader, monitor, limits, turns) {
        Ok(text) => text,
        Err(fault) => return Err(tell_failure(writer, fault)),
    };
    let answer = tell_trace(writer, &text.judge, &text.names);
    drop(text);
    answer
}
