//! What takes the lines of a text.
ghost use Rattle.std.specs.Prelude.{ℕ, List, ◌<◌, length, OnOk, IfErr};
ghost use Rattle.rapid_line.specs.Cut.{Lacks};
ghost use Rattle.rapid_line.specs.Lines.{most_kept};
ghost use Rattle.rapid_line.specs.Marks.{IsKnown};

use rapid_line::Line;

/// What takes the lines of a text, one after another, up to the first at which it stops.
pub trait LineSink {
    /// Why it stops at a line.
    type Fault;

    /// It took the line of this number, and is then so.
    ghost takes: { Self → ℕ → List ℕ → Self → Type 0 };

    /// It stops at the line of this number, with this fault.
    ghost stops: { Self → ℕ → List ℕ → Self.Fault → Type 0 };

    /// Takes the next line, which stands without its LF.
    fn take(&mut self, number: u64, line: Line<'_>) -> Result<(), Self::Fault>
        requires lf { Lacks 10 line.bytes.now }
        requires known { IsKnown line }
        ensures takes { OnOk result (takes self.old number line.entry.bytes.now self.new) }
        ensures stops { IfErr result (stops self.old number line.entry.bytes.now) };

    /// The fault of a line with more than 1,025 bytes, and so more than 1,024 of content.
    fn too_long(&self, number: u64) -> Self::Fault
        ensures { (line : List ℕ) → most_kept < length line → stops self.now number line result };
}
