//! A script that is read line by line, however it is cut into pieces.
ghost use Rattle.std.specs.Prelude.{◌≡◌, ◌≢◌, ◌≤◌, false, Ok, IfErr, IfOk, IfSome, OnOk};
ghost use Rattle.rapid_text.specs.Feeding.{WithinTurns};
ghost use Rattle.rapid_text.specs.Turns.{most_turns, IsCutShort, PulledWithin};
ghost use Rattle.script_text.specs.Scripts.{IsDraft, script_of};
ghost use Rattle.script_text.specs.Readings.{IsFault};

use crate::causes::{ScriptCause, ScriptFault};
use crate::draft::add_line;
use crate::stored_lines::StoredLine;
use event_core::Limits;
use rapid_line::{Line, without_cr};
use rapid_text::{Input, LineSink, Names, take_text};
use std::alloc::Global;
use std::marker::Model;

/// What was read of a script.
#[derive(Drop)]
struct Draft {
    names: Names,
    lines: Vec<StoredLine>,
}

impl Model for Draft {
    ghost use Rattle.script_text.specs.Scripts.{Parsed};

    ghost Value = { Parsed };

    ghost view = { λ d. record { names = d.names; lines = d.lines.items } };
}

impl LineSink for Draft {
    ghost use Rattle.script_text.specs.Readings.{Reads, Stops};

    type Fault = ScriptFault;

    ghost takes = { λ s n line t. Reads s n line t };

    ghost stops = { λ s n line f. Stops s n line f };

    #[tactic(auto, using(crate::proofs::ReadsProperties::long_stops))]
    fn too_long(&self, number: u64) -> ScriptFault {
        ScriptFault {
            line: number,
            cause: ScriptCause::LineTooLong,
        }
    }

    fn take(&mut self, number: u64, line: Line<'_>) -> Result<(), ScriptFault> {
        match add_line(
            &mut self.names,
            &mut self.lines,
            number,
            without_cr(line.bytes),
        ) {
            Ok(()) => Ok(()),
            Err(cause) => Err(ScriptFault {
                line: number,
                cause,
            }),
        }
    }
}

/// The names and the lines of the text that the reader has left, which is taken to its end.
pub fn read_lines<I: Input>(
    alloc: Global,
    reader: &mut I,
    limits: Limits,
    turns: u64,
) -> Result<(Names, Vec<StoredLine>), ScriptFault>
    requires turns { turns ≤ most_turns }
    requires works { I.failed reader.old ≡ false }
    ensures ok { IfOk result (λ r. IfSome (I.left reader.old) (λ text.
        script_of limits text ≡ Ok (record { names = r.0; lines = r.1.items }))) }
    ensures draft { IfOk result (λ r. IsDraft (record { names = r.0; lines = r.1.items })) }
    ensures fault { IfErr result (λ f. IsFault limits (I.left reader.old) (I.left reader.new)
        (IsCutShort turns (I.failed reader.new) (I.pulls reader.old) (I.pulls reader.new)) f f.cause) }
    ensures pulls { PulledWithin turns (I.pulls reader.old) (I.pulls reader.new) }
    ensures few { WithinTurns turns (I.left reader.old) (I.left reader.new) }
    ensures healthy { OnOk result (I.failed reader.new ≡ false) }
    ensures told { IfErr result (λ f. f.cause ≢ ScriptCause.Read → I.failed reader.new ≡ false) }
{
    let mut draft = Draft {
        names: Names::new(alloc, limits),
        lines: Vec::new(alloc),
    };
    let cut_at = match take_text(reader, &mut draft, turns) {
        Ok(cut_at) => cut_at,
        Err(fault) => return Err(fault),
    };
    if let Some(line) = cut_at {
        return Err(ScriptFault {
            line,
            cause: ScriptCause::Read,
        });
    }
    Ok((draft.names, draft.lines))
}
