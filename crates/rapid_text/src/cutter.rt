//! A text, which comes in pieces, read as events.
//!
//! It is cut into lines, and each is judged where it lies. So memory grows with new names, and not with
//! the text.
//!
//! The path of a line that lies whole in a piece is inlined from here to its event, since an answer that is
//! returned through memory costs more than the judgement. Rare cases have functions of their own.
ghost use Rattle.std.specs.Prelude.{◌≡◌, ℕ, ◌+◌, ◌<◌, ◌≤◌, length, IfOk, IfErr, OnOk, Ok, None, Some, IsOk};
ghost use Rattle.std.specs.Prelude.{[], IfSome, unwrap_or};
ghost use Rattle.std.specs.Result.{IsErrOf};
ghost use Rattle.rapid_line.specs.Cut.{Lacks};
ghost use Rattle.rapid_line.specs.Lines.{most_kept, IsKnownCut, text_of};
ghost use Rattle.rapid_text.specs.Tables.{TablesGrow};
ghost use Rattle.rapid_text.specs.Events.{IsOfNames};
ghost use Rattle.rapid_text.specs.Cutting.{Cutting, most, begun, Pushes, FailsAt, Closes, ClosesAt};
ghost use Rattle.rapid_text.specs.Cutting.{failed_at, judged, JudgedUpTo};
ghost use Rattle.rapid_text.specs.Texts.{BeginsAt};
ghost use Rattle.rapid_text.specs.declared.causes.Cause.TheVariants.{Read};

use crate::causes::{Cause, TextFault};
use crate::event_lines::line_event;
use crate::names::Names;
use event_core::{Event, Limits, OutOfMemory};
use rapid_line::{CutLine, LineCutter, LineFault, LineTooLong};
use std::alloc::Global;
use std::marker::Model;

/// Gives the events of a text, which comes in pieces.
#[derive(Drop)]
pub struct Cutter {
    names: Names,
    lines: LineCutter,
    /// The line of the last answer.
    line: u64,
    /// The line of the first fault, if there was one.
    failed: Option<u64>,
}

impl Model for Cutter {
    ghost Value = { Cutting };

    ghost view = { λ s. record {
      names = s.names;
      line = s.line;
      unfinished = unwrap_or s.failed s.lines.unfinished;
      kept = s.lines.kept;
      taken = s.lines.taken;
      failed = s.failed;
    } };

    ghost invariant = { λ s. Lacks 10 s.lines.kept × (length s.lines.kept ≤ most_kept)
        × ((n : ℕ) → s.failed ≡ Some n → s.line ≡ n) };
}

/// The fault, at whose line a cutter fails from now on.
#[inline(never)]
fn fail(answered: &mut u64, failed: &mut Option<u64>, line: u64, cause: Cause) -> TextFault
    ensures fault { result ≡ record { line = line; cause = cause } }
    ensures answered { answered.new ≡ line }
    ensures failed { failed.new ≡ Some line }
{
    *answered = line;
    *failed = Some(line);
    TextFault { line, cause }
}

impl Cutter {
    /// A cutter before the first byte of a text. It takes no memory, and so succeeds.
    pub fn new(alloc: Global, limits: Limits) -> Result<Cutter, OutOfMemory>
        ensures succeeds { IsOk result }
        ensures begun { IfOk result (λ s. s ≡ begun limits) }
    {
        Ok(Cutter {
            names: Names::new(alloc, limits),
            lines: LineCutter::new(),
            line: 0,
            failed: None,
        })
    }

    /// Takes bytes up to the end of the first line with an event, or all of them where no line with an event
    /// ends, and says how many. The fault of a line has its number. A piece with which the text
    /// would pass 2^60 bytes is answered `Read`, a refused growth of the names `OutOfMemory`, at the line
    /// whose event would be the next answer, and each call after a fault `Failed`.
    #[inline(always)]
    pub fn push(&mut self, piece: &[u8]) -> Result<(usize, Option<Event>), TextFault>
        // What is still to be judged is the same text without the event.
        ensures ok { IfOk result (λ r. Pushes self.old self.new piece.now r.0 r.1) }
        // A fault is the one at which the text stops, whatever follows. A growth is refused at the first line
        // with an event, and no line before has a fault.
        ensures fault { IfErr result (λ f. FailsAt self.old piece.now f f.cause) }
        // A piece with which the text would pass 2^60 bytes is `Read`.
        ensures full { self.old.failed ≡ None → most < self.old.taken + length piece.now →
            IsErrOf result (record { line = self.old.unfinished; cause = Read }) }
        // No line before it has an event or a fault, and their names are numbered.
        ensures before { IfErr result (λ f. JudgedUpTo self.old piece.now f.line self.new.names) }
        // After a fault it fails from then on, and nothing changes.
        ensures again { (n : ℕ) → self.old.failed ≡ Some n →
            IsErrOf result (failed_at n) × (self.new ≡ self.old) }
        ensures failed { IfErr result (λ f. self.new.failed ≡ Some f.line) }
        ensures line { IfErr result (λ f. self.new.line ≡ f.line) }
        // Names were only added, and the event's numbers have names.
        ensures grows { TablesGrow self.old.names self.new.names }
        ensures named { IfOk result (λ r. IfSome r.1 (IsOfNames self.new.names)) }
        // No more than this is kept of a line whose end was not seen, and no LF.
        ensures kept { length self.new.kept ≤ most_kept }
        ensures unfinished { Lacks 10 self.new.kept }
    {
        if let Some(line) = self.failed {
            return Err(TextFault {
                line,
                cause: Cause::Failed,
            });
        }
        if !self.lines.has_room(piece) {
            let line = self.lines.unfinished();
            return Err(fail(&mut self.line, &mut self.failed, line, Cause::Read));
        }
        let mut rest = piece;
        'lines: loop {
            let (line, after) = match self.lines.next_line(rest) {
                Ok(Some(cut)) => cut,
                Ok(None) => return Ok((piece.len(), None)),
                Err(LineTooLong) => {
                    let line = self.lines.unfinished();
                    return Err(fail(
                        &mut self.line,
                        &mut self.failed,
                        line,
                        Cause::Line(LineFault::LineTooLong),
                    ));
                }
            };
            rest = after;
            match line_event(&mut self.names, self.lines.line(line)) {
                Ok(None) => {}
                Ok(Some(event)) => {
                    self.line = line.number;
                    return Ok((piece.len() - rest.len(), Some(event)));
                }
                Err(cause) => return Err(fail(
                    &mut self.line,
                    &mut self.failed,
                    line.number,
                    cause,
                )),
            }
        }
    }

    /// Judges what is left, as the last line. It fails as `push` does.
    #[inline(never)]
    pub fn finish(&mut self) -> Result<Option<Event>, TextFault>
        ensures ok { IfOk result (Closes self.old self.new) }
        ensures fault { IfErr result (λ f. ClosesAt self.old f f.cause) }
        ensures before { IfErr result (λ f. BeginsAt f.line self.new.names (judged self.old [])) }
        ensures again { (n : ℕ) → self.old.failed ≡ Some n →
            IsErrOf result (failed_at n) × (self.new ≡ self.old) }
        ensures failed { IfErr result (λ f. self.new.failed ≡ Some f.line) }
        ensures line { IfErr result (λ f. self.new.line ≡ f.line) }
        ensures grows { TablesGrow self.old.names self.new.names }
        ensures named { IfOk result (λ e. IfSome e (IsOfNames self.new.names)) }
        ensures kept { length self.new.kept ≤ most_kept }
    {
        if let Some(line) = self.failed {
            return Err(TextFault {
                line,
                cause: Cause::Failed,
            });
        }
        let Some(line) = self.lines.last_line() else {
            return Ok(None);
        };
        match line_event(&mut self.names, self.lines.line(line)) {
            Ok(None) => Ok(None),
            Ok(Some(event)) => {
                self.line = line.number;
                Ok(Some(event))
            }
            Err(cause) => Err(fail(&mut self.line, &mut self.failed, line.number, cause)),
        }
    }

    /// The fault of a reader that failed, at the line whose end was not seen.
    pub fn read_failed(&mut self) -> TextFault
        ensures fault { self.old.failed ≡ None →
            result ≡ record { line = self.old.unfinished; cause = Read } }
        ensures failed { self.old.failed ≡ None →
            self.new ≡ record self.old { line = self.old.unfinished; failed = Some self.old.unfinished } }
        ensures again { (n : ℕ) → self.old.failed ≡ Some n → (result ≡ failed_at n) × (self.new ≡ self.old) }
    {
        if let Some(line) = self.failed {
            return TextFault {
                line,
                cause: Cause::Failed,
            };
        }
        let line = self.lines.unfinished();
        fail(&mut self.line, &mut self.failed, line, Cause::Read)
    }

    /// The line of the first fault, if there was one.
    pub fn failed(&self) -> Option<u64>
        ensures is { result ≡ self.now.failed }
        ensures line { IfSome result (λ n. self.now.line ≡ n) }
        ensures unfinished { IfSome result (λ n. self.now.unfinished ≡ n) }
    {
        self.failed
    }

    /// The number of the last answer's line: of the last event, or of the first fault once there is one;
    /// 0 before the first answer. An answer without an event has no line.
    pub fn line(&self) -> u64
        ensures { result ≡ self.now.line }
    {
        self.line
    }

    /// The number of the line whose end was not seen.
    pub fn unfinished(&self) -> u64
        ensures { result ≡ self.now.unfinished }
    {
        if let Some(line) = self.failed {
            return line;
        }
        self.lines.unfinished()
    }

    /// The names so far.
    pub fn names(&self) -> &Names
        ensures { result.now ≡ self.entry.now.names }
    {
        &self.names
    }
}
