//! A text that is judged whole, from an input.
ghost use Rattle.std.specs.Prelude.{◌≡◌, ◌≤◌, [], true, IfErr, IfOk, OnOk};
ghost use Rattle.rapid_text.specs.Feeding.{WithinTurns};
ghost use Rattle.rapid_text.specs.Turns.{most_turns, IsCutShort, PulledWithin};
ghost use Rattle.trace_report.specs.Judging.{FindsTrace, FindsFault, IsTruncatedAt, is_read_fault};

use crate::faults::TraceFault;
use crate::judge::Judge;
use crate::judged_text::JudgedText;
use event_core::Limits;
use rapid_text::{Cause, Input, TextFault, take_text};
use std::alloc::Global;

/// Judges the text that the reader has left. Each turn is one pull. The judge is before any event.
pub fn judge_text<I: Input, J: Judge + Drop>(
    alloc: Global,
    reader: &mut I,
    judge: J,
    limits: Limits,
    turns: u64,
) -> Result<JudgedText<J>, TraceFault>
    requires begins { J.is_after judge limits [] }
    requires turns { turns ≤ most_turns }
    // The text is a legal trace, and the judge is as after its log.
    ensures trace { IfOk result (λ t.
        FindsTrace limits (I.left reader.old) (J.is_after t.judge limits) t.names) }
    // The fault is what the text comes to, unless it could not be read to its end or a growth was refused,
    // which is at a line that is reached.
    ensures fault { IfErr result (FindsFault limits (I.left reader.old)) }
    ensures truncated { IfErr result (λ f. is_read_fault f ≡ true
        → IsTruncatedAt limits (I.left reader.old) (I.left reader.new)
        (IsCutShort turns (I.failed reader.new) (I.pulls reader.old) (I.pulls reader.new)) f) }
    ensures pulls { PulledWithin turns (I.pulls reader.old) (I.pulls reader.new) }
    ensures few { WithinTurns turns (I.left reader.old) (I.left reader.new) }
    ensures healthy { OnOk result (I.failed reader.new ≡ I.failed reader.old) }
{
    let mut text = JudgedText::new(alloc, limits, judge);
    let cut_at = match take_text(reader, &mut text, turns) {
        Ok(cut_at) => cut_at,
        Err(fault) => {
            drop(text);
            return Err(fault);
        }
    };
    if let Some(line) = cut_at {
        drop(text);
        return Err(TraceFault::Text(TextFault {
            line,
            cause: Cause::Read,
        }));
    }
    Ok(text)
}
