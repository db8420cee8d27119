//! Witnesses for the races of a trace, from the bytes of a reader to what is written.
ghost use Rattle.std.specs.Prelude.{◌≡◌, ◌≢◌, ◌≤◌, Ok, Err, IfErr, IsSome, true, false};
ghost use Rattle.rapid_text.specs.Turns.{most_turns};
ghost use Rattle.trace_report.specs.Replayed.{answer_gives_up};
ghost use Rattle.trace_report.specs.Reports.{AreNamed};
ghost use Rattle.trace_report.specs.Judging.{HasRead};
ghost use Rattle.witness_report.specs.Showing.{AnswersText, HasAnswered, is_silent};

use crate::events::show_event;
use crate::shown::Shown;
use crate::table::show_pairs;
use event_core::{Limits, Refusal};
use rapid_text::{Input, Names, Output};
use seq_monitor::Monitor;
use std::alloc::Global;
use trace_report::{ReplayFault, judge_text, tell_failure};

/// Writes a witness for the race of the event with the number, or else a line for each pair of locations.
fn show<W: Output>(
    alloc: Global,
    writer: &mut W,
    monitor: &Monitor,
    names: &Names,
    event: Option<u32>,
) -> Result<Shown, ReplayFault>
    requires named { AreNamed names.now monitor.now.log }
    ensures answers { answer_gives_up result ≡ false → HasAnswered monitor.now.limits event
        (W.written writer.old) (W.written writer.new)
        (Ok (record { names = names.now; log = monitor.now.log })) result }
    ensures only { IfErr result (λ f. f ≡ ReplayFault.Write) }
    ensures silent { is_silent result ≡ true → writer.new ≡ writer.old }
    ensures event { result ≡ Ok Shown.NoRace → IsSome event }
    ensures healthy { result ≢ Err ReplayFault.Write → W.failed writer.new ≡ W.failed writer.old }
    ensures failed { result ≡ Err ReplayFault.Write → W.failed writer.new ≡ true }
{
    match event {
        Some(number) => show_event(alloc, writer, monitor, names, number),
        None => show_pairs(alloc, writer, monitor, names),
    }
}

/// Looks for witnesses in the trace that the reader has left. With the number of an event, counted from 1, it
/// writes the trace of a witness for the event's race, the two accesses last, or the line `none`. Without
/// one it writes the line of counts of a replay, and a line for each pair of locations of its report. Of a
/// text that is no legal trace it writes the line of the first fault, as a replay does. It reads up to 65,536
/// bytes for each turn, and there may be 2^44 turns.
///
/// Nothing is written where the event does not race, where the text could not be read to its end, or where a
/// growth was refused.
#[tactic(auto, using(crate::proofs::ShowingProperties::silent_fault))]
pub fn show_trace<I: Input, O: Output>(
    alloc: Global,
    reader: &mut I,
    writer: &mut O,
    limits: Limits,
    turns: u64,
    event: Option<u32>,
) -> Result<Shown, ReplayFault>
    requires turns { turns ≤ most_turns }
    requires reads { I.failed reader.old ≡ false }
    requires writes { O.failed writer.old ≡ false }
    // What is written, and nothing else, is for the whole text, read or left unread, and so is the answer. A
    // reader whose contract does not give its text had some text left of which this holds.
    ensures answers { answer_gives_up result ≡ false → AnswersText limits event (I.left reader.old)
        (O.written writer.old) (O.written writer.new) result }
    // Nothing is written where the event does not race, or where the answer says nothing of the text.
    ensures silent { is_silent result ≡ true → writer.new ≡ writer.old }
    // That an event does not race is answered only where one is named.
    ensures event { result ≡ Ok Shown.NoRace → IsSome event }
    // A read fault is at the line whose end was not seen, of which at most 1,025 bytes came. No line before
    // has a fault or a refused event.
    ensures reads { HasRead limits (I.left reader.old) (I.left reader.new) turns (I.failed reader.new)
        (I.pulls reader.old) (I.pulls reader.new) result }
    // It is a fault of the writer exactly where the writer failed or took no byte.
    ensures write_fault { result ≡ Err ReplayFault.Write → O.failed writer.new ≡ true }
    ensures written { result ≢ Err ReplayFault.Write → O.failed writer.new ≡ false }
{
    let Ok(monitor) = Monitor::new(alloc, limits) else {
        return Err(ReplayFault::Refused {
            line: 1,
            refusal: Refusal::OutOfMemory,
        });
    };
    let text = match judge_text(alloc, reader, monitor, limits, turns) {
        Ok(text) => text,
        Err(fault) => return Err(tell_failure(writer, fault)),
    };
    let shown = show(alloc, writer, &text.judge, &text.names, event);
    drop(text);
    shown
}
