//! A text, which comes in pieces, cut into lines.
//!
//! A line that lies whole in a piece stays where it is. At most 1,025 bytes are kept of a line whose end was
//! not seen. With one byte more the line is too long: a content has at most 1,024 bytes, and a CR may follow
//! it. So a text takes no memory, however long it is.
//!
//! The path of a line that lies whole in a piece is inlined, since an answer that is returned through memory
//! costs more than the cut. Rare cases have functions of their own.
ghost use Rattle.std.specs.Prelude.{◌≡◌, ◌≢◌, ◌+◌, ◌<◌, ◌≤◌, ◌↔◌, ◌++◌, [], length, option_map, None, IsTrue};
ghost use Rattle.std.specs.Prelude.{IfOk, IfSome, IfNone, OnOk, OnErr};
ghost use Rattle.rapid_line.specs.Cut.{Lacks, cut};
ghost use Rattle.rapid_line.specs.Marks.{IsKnown};
ghost use Rattle.rapid_line.specs.Lines.{Lines, no_bytes, most, text_of, whole_or, IsKnownCut, Cuts, Keeps};
ghost use Rattle.rapid_line.specs.Lines.{most_kept, IsLastLine, IsTooLong};

use crate::bytes::cut_at;
use crate::marks::{Line, first_line};
use arrayvec::ArrayVec;
use std::marker::Model;

/// The most bytes of an unfinished line that may still end as a content of 1,024 bytes: those and a CR.
const MOST_KEPT: usize = 1025;

/// The most bytes that a cutter takes, 2 to the 60th, so that no number of a line or of bytes overflows.
const MOST_BYTES: u64 = 1152921504606846976;

/// A line has more than 1,025 bytes, and so more than 1,024 of content.
#[derive(Clone, Copy, Debug, PartialEq, Eq)]
pub struct LineTooLong;

/// A line that ended.
#[derive(Clone, Copy, Debug)]
pub struct CutLine<'a> {
    /// Its number. Lines are numbered from 1.
    pub number: u64,
    /// Where it lies whole in its piece; none, where the cutter has joined its parts.
    whole: Option<Line<'a>>,
}

/// A line whose bars are not known.
fn unmarked(bytes: &[u8]) -> Line<'_>
    ensures bytes { result.bytes.now ≡ bytes.now }
    ensures known { IsKnown result }
{
    Line { bytes, bars: None }
}

/// The bytes before the first LF, with their bars where one look finds them, and the bytes after it.
#[inline(always)]
fn cut_line(bytes: &[u8]) -> Option<(Line<'_>, &[u8])>
    ensures cut { option_map (λ p. (p.0.bytes.now, p.1.now)) result ≡ cut 10 bytes.now }
    ensures known { IfSome result (λ p. IsKnown p.0) }
{
    if let Some(found) = first_line::<32>(bytes) {
        return Some(found);
    }
    search_line(bytes)
}

/// The same, where a look at 32 bytes does not find them.
#[inline(never)]
fn search_line(bytes: &[u8]) -> Option<(Line<'_>, &[u8])>
    ensures cut { option_map (λ p. (p.0.bytes.now, p.1.now)) result ≡ cut 10 bytes.now }
    ensures known { IfSome result (λ p. IsKnown p.0) }
{
    if let Some(found) = first_line::<64>(bytes) {
        return Some(found);
    }
    let (line, rest) = cut_at(bytes, b'\n')?;
    Some((unmarked(line), rest))
}

/// Adds the bytes to those that are kept.
#[inline(never)]
fn keep(kept: &mut ArrayVec<u8, MOST_KEPT>, bytes: &[u8]) -> Result<(), LineTooLong>
    ensures ok { OnOk result (kept.new.items ≡ kept.old.items ++ bytes.now) }
    ensures short { OnOk result (length kept.new.items ≤ most_kept) }
    ensures long { OnErr result (most_kept < length (kept.old.items ++ bytes.now)) }
    ensures err { OnErr result (kept.new ≡ kept.old) }
{
    let Ok(()) = kept.try_extend_from_slice(bytes) else {
        return Err(LineTooLong);
    };
    Ok(())
}

/// The line that ends with these bytes: the bytes themselves where nothing was kept, else the joined line.
#[inline(always)]
fn whole_line<'a>(
    kept: &mut ArrayVec<u8, MOST_KEPT>,
    joined: &mut ArrayVec<u8, MOST_KEPT>,
    end: Line<'a>,
) -> Result<Option<Line<'a>>, LineTooLong>
    requires { IsKnown end }
    ensures line { IfOk result (λ l. whole_or joined.new.items l ≡ kept.old.items ++ end.entry.bytes.now) }
    ensures known { IfOk result (λ l. IfSome l IsKnown) }
    ensures empty { OnOk result (kept.new.items ≡ []) }
    ensures parted { OnErr result (kept.old.items ≢ []) }
    ensures long { OnErr result (most_kept < length (kept.old.items ++ end.entry.bytes.now)) }
    ensures err { OnErr result ((kept.new ≡ kept.old) × (joined.new ≡ joined.old)) }
{
    if kept.is_empty() {
        return Ok(Some(end));
    }
    join(kept, joined, end.bytes)?;
    Ok(None)
}

/// Joins the end of a line to what was kept of it.
#[inline(never)]
fn join(
    kept: &mut ArrayVec<u8, MOST_KEPT>,
    joined: &mut ArrayVec<u8, MOST_KEPT>,
    end: &[u8],
) -> Result<(), LineTooLong>
    ensures line { OnOk result (joined.new.items ≡ kept.old.items ++ end.now) }
    ensures empty { OnOk result (kept.new.items ≡ []) }
    ensures long { OnErr result (most_kept < length (kept.old.items ++ end.now)) }
    ensures err { OnErr result ((kept.new ≡ kept.old) × (joined.new ≡ joined.old)) }
{
    keep(kept, end)?;
    *joined = kept.take();
    Ok(())
}

/// Cuts a text into lines.
#[derive(Drop)]
pub struct LineCutter {
    /// The number of the line whose end was not seen.
    unfinished: u64,
    /// Its bytes.
    kept: ArrayVec<u8, MOST_KEPT>,
    /// The last line that did not lie whole in a piece.
    joined: ArrayVec<u8, MOST_KEPT>,
    /// How many bytes came.
    taken: u64,
}

impl Model for LineCutter {
    ghost Value = { Lines };

    ghost view = { λ s. record {
      unfinished = s.unfinished;
      kept = s.kept.items;
      joined = s.joined.items;
      taken = s.taken;
    } };

    ghost invariant = { λ s. Lacks 10 s.kept.items × (length s.kept.items ≤ most_kept) × (s.taken ≤ most)
        × (s.unfinished + length s.kept.items ≤ s.taken + 1) };
}

impl LineCutter {
    /// A cutter before the first byte of a text.
    pub fn new() -> LineCutter
        ensures { result ≡ no_bytes }
    {
        LineCutter {
            unfinished: 1,
            kept: ArrayVec::new(),
            joined: ArrayVec::new(),
            taken: 0,
        }
    }

    /// Whether the cutter takes the bytes of the piece, besides those that came.
    #[inline(always)]
    pub fn has_room(&self, piece: &[u8]) -> bool
        ensures { IsTrue result ↔ (self.now.taken + length piece.now ≤ most) }
    {
        piece.len() as u64 <= MOST_BYTES - self.taken
    }

    /// The first line that ends in the piece, with what was kept of it, and the rest of the piece; none,
    /// where no line ends in the piece, and then all of it is kept. A line that lies whole in the piece may
    /// have any length; the answers of `line` for earlier lines no longer hold after the call.
    #[inline(always)]
    #[tactic(auto, using(crate::proofs::LinesProperties::next_lines))]
    pub fn next_line<'a>(
        &mut self,
        piece: &'a [u8],
    ) -> Result<Option<(CutLine<'a>, &'a [u8])>, LineTooLong>
        requires room { self.old.taken + length piece.now ≤ most }
        // Whatever follows, it is the next line of the text.
        ensures line { IfOk result (λ r. IfSome r (λ p.
            Cuts self.old piece.entry.now (text_of self.new p.0) p.1.now self.new)) }
        ensures number { IfOk result (λ r. IfSome r (λ p. p.0.number ≡ self.old.unfinished)) }
        ensures known { IfOk result (λ r. IfSome r (λ p. IsKnownCut p.0)) }
        ensures none { IfOk result (λ r. IfNone r (Keeps self.old piece.entry.now self.new)) }
        // It is too long only where more than 1,025 bytes came of it, and then nothing changes.
        ensures too_long { OnErr result (IsTooLong self.old piece.entry.now) }
        ensures err { OnErr result (self.new ≡ self.old) }
        // It does not lie whole in the piece: bytes of it were kept, or its end was not seen.
        ensures parted { OnErr result (self.old.kept ≡ [] → Lacks 10 piece.entry.now) }
        // Of a line whose end was not seen no more is kept than this, and no LF.
        ensures kept { length self.new.kept ≤ most_kept }
        ensures unended { Lacks 10 self.new.kept }
    {
        let Some((line, rest)) = cut_line(piece) else {
            keep(&mut self.kept, piece)?;
            self.taken += piece.len() as u64;
            return Ok(None);
        };
        let whole = whole_line(&mut self.kept, &mut self.joined, line)?;
        let number = self.unfinished;
        self.unfinished += 1;
        self.taken += line.bytes.len() as u64 + 1;
        Ok(Some((CutLine { number, whole }, rest)))
    }

    /// The last line of the text, where that ends without an LF; none, where nothing is kept.
    #[tactic(auto, using(crate::proofs::LinesProperties::last_line))]
    pub fn last_line(&mut self) -> Option<CutLine<'static>>
        ensures line { IfSome result (λ l. IsLastLine self.old (text_of self.new l) self.new) }
        ensures number { IfSome result (λ l. l.number ≡ self.old.unfinished) }
        ensures known { IfSome result IsKnownCut }
        ensures none { result ≡ None → (self.old.kept ≡ []) × (self.new ≡ self.old) }
    {
        if self.kept.is_empty() {
            return None;
        }
        self.joined = self.kept.take();
        let number = self.unfinished;
        self.unfinished += 1;
        Some(CutLine {
            number,
            whole: None,
        })
    }

    /// The bytes of the line that was cut last, with their bars where these are known.
    #[inline(always)]
    pub fn line<'a>(&'a self, cut: CutLine<'a>) -> Line<'a>
        requires { IsKnownCut cut }
        ensures bytes { result.bytes.now ≡ text_of self.entry.now cut.entry }
        ensures known { IsKnown result }
    {
        if let Some(line) = cut.whole {
            return line;
        }
        unmarked(self.joined.as_slice())
    }

    /// The number of the line whose end was not seen.
    pub fn unfinished(&self) -> u64
        ensures { result ≡ self.now.unfinished }
    {
        self.unfinished
    }
}
