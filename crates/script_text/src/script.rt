//! Scripts that were read.
ghost use Rattle.std.specs.Prelude.{◌≡◌, ◌≢◌, ℕ, ◌≤◌, length, IfOk, IfErr, IfSome, OnOk, Ok, false};
ghost use Rattle.rapid_text.specs.Feeding.{WithinTurns};
ghost use Rattle.rapid_text.specs.Turns.{most_turns, IsCutShort, PulledWithin};
ghost use Rattle.script_text.specs.Scripts.{Parsed, IsScript, IsFirstUnreached, IsDraft, script_of};
ghost use Rattle.script_text.specs.Readings.{IsFault, Incomplete};

use crate::causes::{ScriptCause, ScriptFault};
use crate::reached::{first_unmarked, reached_threads};
use crate::readings::read_lines;
use crate::stored_lines::StoredLine;
use event_core::Limits;
use rapid_text::{Input, Kind, Names};
use std::alloc::Global;
use std::marker::Model;

fn no_memory() -> ScriptFault
    ensures { result ≡ record { line = 1; cause = ScriptCause.OutOfMemory } }
{
    ScriptFault {
        line: 1,
        cause: ScriptCause::OutOfMemory,
    }
}

/// Whether forks lead from thread 0 to each thread that a line names.
fn check_forks(alloc: Global, names: &Names, lines: &[StoredLine]) -> Result<(), ScriptFault>
    requires { IsDraft (record { names = names.now; lines = lines.now }) }
    ensures ok { OnOk result (IsScript (record { names = names.now; lines = lines.now })) }
    ensures fault { IfErr result (λ f. Incomplete lines.now f) }
{
    let Ok(marks) = reached_threads(alloc, lines, names.count(Kind::Thread)) else {
        return Err(no_memory());
    };
    if let Some(line) = first_unmarked(lines, marks.as_slice()) {
        return Err(ScriptFault {
            line,
            cause: ScriptCause::NoFork,
        });
    }
    Ok(())
}

/// A script without fault: its names, and its lines in order.
///
/// The first line is one of thread 0, forks lead from it to each thread that a line names, and no thread is
/// forked or joined twice.
pub struct Script {
    names: Names,
    lines: Vec<StoredLine>,
}

// By hand, so that a crate that drops one does not prove the drop of each type within again.
impl Drop for Script {
    fn drop(self) {
        let Script { names: _, lines: _ } = self;
    }
}

impl Model for Script {
    ghost Value = { Parsed };

    ghost view = { λ s. record { names = s.names; lines = s.lines.items } };

    ghost invariant = { λ s. IsScript (record { names = s.names; lines = s.lines.items }) };
}

impl Script {
    /// Reads the script that the reader gives. Each turn is one pull of up to 65,536 bytes, and there may be
    /// 2^44 turns. It keeps no more of the text than one piece and one line. The fault is the first line that
    /// has a cause, `Read` at the line whose end was not seen, or `OutOfMemory`.
    pub fn read<I: Input>(
        alloc: Global,
        reader: &mut I,
        limits: Limits,
        turns: u64,
    ) -> Result<Script, ScriptFault>
        requires turns { turns ≤ most_turns }
        requires works { I.failed reader.old ≡ false }
        // The script is that of the text.
        ensures ok { IfOk result (λ s. IfSome (I.left reader.old) (λ text. script_of limits text ≡ Ok s)) }
        // Forks lead from thread 0 to each thread, and no thread is forked or joined twice.
        ensures script { IfOk result (λ s. IsScript s) }
        // The fault is the first of the text, or a growth was refused at no later line, or a read failed, or
        // as many pulls were made as there are turns. A read fault is at the line whose end was not seen.
        // Each line that came whole is without a cause, and at most 1,025 bytes came of that line, since with
        // one more it is too long.
        ensures fault { IfErr result (λ f. IsFault limits (I.left reader.old) (I.left reader.new)
            (IsCutShort turns (I.failed reader.new) (I.pulls reader.old) (I.pulls reader.new)) f f.cause) }
        // However it ends, no more pulls were made than there are turns, and each gave at most 65,536 bytes.
        ensures pulls { PulledWithin turns (I.pulls reader.old) (I.pulls reader.new) }
        ensures few { WithinTurns turns (I.left reader.old) (I.left reader.new) }
        // A failure of the reader is never passed over: it is answered `Read`.
        ensures healthy { OnOk result (I.failed reader.new ≡ false) }
        ensures told { IfErr result (λ f. f.cause ≢ ScriptCause.Read → I.failed reader.new ≡ false) }
    {
        let (names, lines) = read_lines(alloc, reader, limits, turns)?;
        if let Err(fault) = check_forks(alloc, &names, lines.as_slice()) {
            return Err(fault);
        }
        Ok(Script { names, lines })
    }

    /// The names of its threads, locks, variables and locations. A line's location is its number in decimal
    /// (`numbered_line`).
    pub fn names(&self) -> &Names
        ensures { result.now ≡ self.entry.now.names }
    {
        &self.names
    }

    /// How many threads it names. They are numbered from 0 in the order of their first appearance.
    pub fn threads(&self) -> u32
        ensures is { result ≡ length self.now.names.threads.names }
        ensures script { IsScript self.now }
    {
        self.names.count(Kind::Thread)
    }

    /// All lines in their order.
    pub fn lines(&self) -> &[StoredLine]
        ensures { result.now ≡ self.entry.now.lines }
    {
        self.lines.as_slice()
    }
}
