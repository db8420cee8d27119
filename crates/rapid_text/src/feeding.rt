//! A text whose lines are taken one after another, however it is cut into pieces: its beginning, its end, or
//! all of it from an input.
//!
//! The path of a line that lies whole in a piece is inlined from here to its sink.
ghost use Rattle.std.specs.Prelude.{◌≡◌, ◌+◌, ◌≤◌, [], length, IfErr, IfNone, IfOk, IfSome, OnErr, OnOk};
ghost use Rattle.rapid_line.specs.Lines.{most, to_come};
ghost use Rattle.rapid_text.specs.Folds.{Folds, FaultAmong, FoldsAll, FaultIn};
ghost use Rattle.rapid_text.specs.Feeding.{FoldsEnded, OfText, StopsIn, Takes, WithinTurns};
ghost use Rattle.rapid_text.specs.Taking.{Truncates};
ghost use Rattle.rapid_text.specs.Turns.{most_turns, IsCutShort, PulledWithin};

use crate::input::Input;
use crate::line_sink::LineSink;
use rapid_line::{LineCutter, LineTooLong};

/// How many bytes are pulled at once.
const PIECE: usize = 65536;

/// Takes the lines that end in the piece, up to the first at which the sink stops.
pub fn feed_lines<S: LineSink>(
    cutter: &mut LineCutter,
    sink: &mut S,
    piece: &[u8],
) -> Result<(), S::Fault>
    requires room { cutter.old.taken + length piece.now ≤ most }
    // The lines that ended are folded, and whatever follows, the others are still to come.
    ensures ok { OnOk result (Takes S.takes sink.old cutter.old piece.now [] sink.new cutter.new) }
    // Whatever follows, the fault is that of the first line at which the sink stops.
    ensures fault { IfErr result (StopsIn S.takes S.stops sink.old cutter.old piece.now) }
{
    let mut rest = piece;
    'lines: loop {
        let (line, after) = match cutter.next_line(rest) {
            Ok(Some(cut)) => cut,
            Ok(None) => return Ok(()),
            Err(LineTooLong) => return Err(sink.too_long(cutter.unfinished())),
        };
        if let Err(fault) = sink.take(line.number, cutter.line(line)) {
            return Err(fault);
        }
        rest = after;
    }
}

/// Ends the text: takes the line whose end was not seen as the last one.
pub fn finish_lines<S: LineSink>(cutter: &mut LineCutter, sink: &mut S) -> Result<(), S::Fault>
    ensures ok { OnOk result (Folds S.takes cutter.old.unfinished sink.old (to_come cutter.old []) sink.new) }
    ensures fault { IfErr result
        (FaultAmong S.takes S.stops cutter.old.unfinished sink.old (to_come cutter.old [])) }
{
    let Some(line) = cutter.last_line() else {
        return Ok(());
    };
    if let Err(fault) = sink.take(line.number, cutter.line(line)) {
        return Err(fault);
    }
    Ok(())
}

/// Takes the lines of the text that the input has left, which is pulled in pieces of up to 65,536 bytes. Each
/// takes a turn, and there may be 2^44 turns. Where the text could not be read to its end, the answer is the
/// number of the line whose end was not seen.
pub fn take_text<I: Input, S: LineSink>(
    input: &mut I,
    sink: &mut S,
    turns: u64,
) -> Result<Option<u64>, S::Fault>
    requires turns { turns ≤ most_turns }
    // All lines of the text were taken, in order.
    ensures whole { IfOk result (λ r. IfNone r
        (OfText (I.left input.old) (λ text. FoldsAll S.takes sink.old text sink.new))) }
    // The lines before one were taken, and the sink stops at that one with the fault.
    ensures fault { IfErr result (λ f.
        OfText (I.left input.old) (λ text. FaultIn S.takes S.stops sink.old text f)) }
    // A pull failed, or as many were made as there are turns. Each line that came whole was taken, and at
    // most 1,025 bytes came of the line whose end was not seen, since with one more it is too long.
    ensures truncated { IfOk result (λ r. IfSome r (λ n. Truncates (I.left input.old) (I.left input.new)
        (IsCutShort turns (I.failed input.new) (I.pulls input.old) (I.pulls input.new)) n
        (λ came. FoldsEnded S.takes sink.old came n sink.new))) }
    // However it ends, no more pulls were made than there are turns, and each gave at most 65,536 bytes.
    ensures pulls { PulledWithin turns (I.pulls input.old) (I.pulls input.new) }
    ensures few { WithinTurns turns (I.left input.old) (I.left input.new) }
    // No failure of the input is passed over.
    ensures healthy { IfOk result (λ r. IfNone r (I.failed input.new ≡ I.failed input.old)) }
    ensures told { OnErr result (I.failed input.new ≡ I.failed input.old) }
{
    let mut cutter = LineCutter::new();
    let mut piece = [0; PIECE];
    'pulls: for _ in 0..turns {
        let Ok(count) = input.pull(&mut piece) else {
            return Ok(Some(cutter.unfinished()));
        };
        if count == 0 {
            if let Err(fault) = finish_lines(&mut cutter, sink) {
                return Err(fault);
            }
            return Ok(None);
        }
        if let Err(fault) = feed_lines(&mut cutter, sink, &piece[..count]) {
            return Err(fault);
        }
    }
    Ok(Some(cutter.unfinished()))
}
