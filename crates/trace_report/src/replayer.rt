//! A text that is replayed in pieces, however it is cut.
ghost use Rattle.std.specs.Prelude.{◌≡◌, ◌≢◌, ◌⊎◌, ℕ, ◌+◌, ◌↔◌, ◌++◌, [], List, length, Err, None, Some};
ghost use Rattle.std.specs.Prelude.{true, false, IfOk, IfErr, IfSome, IsTrue, OnOk, ◌<◌};
ghost use Rattle.rapid_text.specs.Cutting.{judged, most};
ghost use Rattle.rapid_text.specs.Taking.{Advances, cutter_place};
ghost use Rattle.rapid_text.specs.declared.causes.Cause.TheVariants.{Read};
ghost use Rattle.trace_report.specs.Replayed.{fault_gives_up, answer_gives_up, replay_fault, IfFound, Told};
ghost use Rattle.trace_report.specs.Replaying.{unfed, after, cutting_of, EndsLegal, ReachesIn, TakesPiece};
ghost use Rattle.trace_report.specs.Judging.{RanOut, Says, is_read_fault};

use crate::faults::{ReplayFault, TraceFault};
use crate::judged_text::JudgedText;
use crate::summary::Summary;
use crate::telling::{tell_failure, tell_trace};
use event_core::{Limits, OutOfMemory};
use rapid_line::LineCutter;
use rapid_text::{Cause, Output, TextFault, feed_lines, finish_lines};
use seq_monitor::Monitor;
use std::alloc::Global;
use std::marker::Model;

/// The fault of a read that failed, at the line whose end was not seen.
fn read_fault(lines: &LineCutter) -> TraceFault
    ensures { result ≡ TraceFault.Text (record { line = lines.now.unfinished; cause = Read }) }
{
    TraceFault::Text(TextFault {
        line: lines.unfinished(),
        cause: Cause::Read,
    })
}

/// Takes the lines that end in the piece, up to the first that has no event or whose event is refused.
fn feed_piece(
    lines: &mut LineCutter,
    text: &mut JudgedText<Monitor>,
    piece: &[u8],
) -> Result<(), TraceFault>
    ensures ok { OnOk result (TakesPiece text.old.judge.limits text.old.judge.log
        (cutting_of text.old.names lines.old) piece.now text.new.judge.limits text.new.judge.log
        (cutting_of text.new.names lines.new)) }
    ensures fault { IfErr result (λ f. (more : List ℕ) → Says text.old.judge.limits text.old.judge.log
        (judged (cutting_of text.old.names lines.old) (piece.now ++ more)) f) }
    ensures read { IfErr result (λ f. is_read_fault f ≡ true → most < lines.old.taken + length piece.now) }
{
    if !lines.has_room(piece) {
        return Err(read_fault(lines));
    }
    if let Err(fault) = feed_lines(lines, text, piece) {
        return Err(fault);
    }
    Ok(())
}

/// Ends the text, where no fault stands: the line whose end was not seen is the last one.
fn end_text(
    lines: &mut LineCutter,
    text: &mut JudgedText<Monitor>,
    fault: Option<TraceFault>,
) -> Result<(), TraceFault>
    ensures ok { OnOk result (EndsLegal text.old.judge.limits text.old.judge.log
        (cutting_of text.old.names lines.old) text.new.names text.new.judge.log) }
    ensures fault { fault ≡ None → IfErr result (Says text.old.judge.limits text.old.judge.log
        (judged (cutting_of text.old.names lines.old) [])) }
    ensures whole { IfErr result (λ f. is_read_fault f ≡ true → fault ≡ Some f) }
    ensures stands { OnOk result (fault ≡ None) }
    ensures answered { IfErr result (λ f. IfSome fault (λ g. f ≡ g)) }
{
    if let Some(fault) = fault {
        return Err(fault);
    }
    if let Err(fault) = finish_lines(lines, text) {
        return Err(fault);
    }
    Ok(())
}

/// Replays a text that comes in pieces. It holds the names, the log, and the line whose end was not seen.
#[derive(Drop)]
pub struct Replayer {
    text: JudgedText<Monitor>,
    lines: LineCutter,
    /// The first fault.
    fault: Option<TraceFault>,
}

impl Model for Replayer {
    ghost use Rattle.std.specs.Prelude.{◌≡◌, None};
    ghost use Rattle.trace_report.specs.Reports.{AreNamed};
    ghost use Rattle.trace_report.specs.Replaying.{Replaying, cutting_of};

    ghost Value = { Replaying };

    ghost view = { λ r. record {
      text = cutting_of r.text.names r.lines;
      limits = r.text.judge.limits;
      log = r.text.judge.log;
      fault = r.fault;
    } };

    ghost invariant = { λ r. r.fault ≡ None → AreNamed r.text.names r.text.judge.log };
}

impl Replayer {
    /// A replayer before the first byte; `OutOfMemory` where a growth was refused.
    pub fn new(alloc: Global, limits: Limits) -> Result<Replayer, OutOfMemory>
        ensures { IfOk result (λ r. r ≡ unfed limits) }
    {
        let monitor = Monitor::new(alloc, limits)?;
        Ok(Replayer {
            text: JudgedText::new(alloc, limits, monitor),
            lines: LineCutter::new(),
            fault: None,
        })
    }

    /// Takes a piece of the text. It answers whether no fault stands; with a fault it takes nothing.
    pub fn feed(&mut self, piece: &[u8]) -> bool
        // Whatever follows, the text comes to the same as before, unless a read or a growth failed.
        ensures law { fault_gives_up self.new.fault ≡ false
            → (more : List ℕ) → after self.new more ≡ after self.old (piece.now ++ more) }
        ensures stands { IsTrue result ↔ (self.new.fault ≡ None) }
        ensures again { self.old.fault ≢ None → self.new ≡ self.old }
        // It is a read fault only where the pieces have more bytes than a cutter takes.
        ensures read { self.old.fault ≡ None → IfSome self.new.fault (λ f. is_read_fault f ≡ true
            → most < self.old.text.taken + length piece.now) }
        // Memory ran out at a line still to be judged, which has an event, whatever follows. No event of a
        // line before is refused, nor is the line's own unless memory ran out for its names.
        ensures memory { self.old.fault ≡ None → IfSome self.new.fault (λ f. RanOut f
            → (more : List ℕ) → ReachesIn self.old (piece.now ++ more) f) }
        ensures advances { self.new.fault ≡ None
            → Advances (cutter_place self.old.text) piece.now [] (cutter_place self.new.text) }
    {
        if self.fault.is_some() {
            return false;
        }
        if let Err(fault) = feed_piece(&mut self.lines, &mut self.text, piece) {
            self.fault = Some(fault);
            return false;
        }
        true
    }

    /// Stands for a read that failed, at the line whose end was not seen. It is without effect where a fault
    /// stands.
    pub fn read_failed(&mut self)
        ensures fault { self.old.fault ≡ None → self.new.fault
            ≡ Some (TraceFault.Text (record { line = self.old.text.unfinished; cause = Read })) }
        ensures again { self.old.fault ≢ None → self.new ≡ self.old }
        ensures log { self.new.log ≡ self.old.log }
    {
        if self.fault.is_none() {
            self.fault = Some(read_fault(&self.lines));
        }
    }

    /// Ends the text and writes what it comes to: its report, or the one line of its first fault. Nothing is
    /// written where a read failed or a growth was refused.
    pub fn finish<W: Output>(self, writer: &mut W) -> Result<Summary, ReplayFault>
        // What is written, and nothing else, tells what the text comes to, and so does the answer.
        ensures tells { answer_gives_up result ≡ false
            → Told (W.written writer.old) (W.written writer.new) (after self []) result }
        ensures quiet { answer_gives_up result ≡ true → result ≢ Err ReplayFault.Write
            → writer.new ≡ writer.old }
        // A read fault is answered only where one stands.
        ensures read { IfFound result (λ f. is_read_fault f ≡ true → self.fault ≡ Some f) }
        // Memory ran out at the last line, which has an event, or its fault stands.
        ensures memory { self.fault ≡ None → IfFound result (λ f. RanOut f → ReachesIn self [] f) }
        // A fault that stands is the answer, unless its line could not be written.
        ensures answered { IfSome self.fault (λ f. (result ≡ Err (replay_fault f))
            ⊎ (result ≡ Err ReplayFault.Write)) }
        // It is a fault of the writer exactly where the writer failed or took no byte.
        ensures healthy { result ≢ Err ReplayFault.Write → W.failed writer.new ≡ W.failed writer.old }
        ensures failed { result ≡ Err ReplayFault.Write → W.failed writer.new ≡ true }
    {
        let Replayer {
            mut text,
            mut lines,
            fault,
        } = self;
        if let Err(fault) = end_text(&mut lines, &mut text, fault) {
            drop(text);
            return Err(tell_failure(writer, fault));
        }
        let answer = tell_trace(writer, &text.judge, &text.names);
        drop(text);
        answer
    }
}
