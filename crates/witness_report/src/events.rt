//! The witness for one event's race.
ghost use Rattle.std.specs.Prelude.{◌≡◌, ◌≢◌, Ok, Err, IfErr, IfOk, IfSome, IsNone, OnErr, OnOk, true, false};
ghost use Rattle.std.specs.Prelude.{Some};
ghost use Rattle.std.specs.Io.KnownBytes.{Appends};
ghost use Rattle.event_core.specs.Refusal.{WellFormed};
ghost use Rattle.trace_report.specs.Reports.{AreNamed};
ghost use Rattle.trace_report.specs.Replayed.{answer_gives_up};
ghost use Rattle.witness.specs.Witness.{IsWitness};
ghost use Rattle.witness_report.specs.Found.{IsRaceOf, IsNoRace, none_line};
ghost use Rattle.witness_report.specs.Showing.{HasAnswered, is_silent};

use crate::lines::write_lines;
use crate::shown::Shown;
use event_core::laws::verdict_is_unique;
use event_core::{Limits, Log, OutOfMemory, Verdict};
use rapid_text::{Names, Output, WriteFault, write_all};
use seq_monitor::{Monitor, Race};
use std::alloc::Global;
use trace_report::ReplayFault;
use witness::{Searcher, Witness};

/// The race of the event with the number, counted from 1, if it has one.
fn race_of(monitor: &Monitor, number: u32) -> Option<Race>
    ensures some { IfSome result (IsRaceOf monitor.now.log number) }
    ensures none { IsNone result → IsNoRace monitor.now.log number }
{
    verdict_is_unique();
    let number = u64::from(number);
    if number == 0 || monitor.log().len() < number {
        return None;
    }
    let event = number - 1;
    match monitor.verdict_at(event) {
        Verdict::Racy(with) => Some(Race { event, with }),
        Verdict::Clear => None,
    }
}

/// A witness for the race, if one is found.
fn find_witness(
    alloc: Global,
    limits: Limits,
    log: &Log,
    race: Race,
) -> Result<Option<Witness>, OutOfMemory>
    requires { WellFormed limits log.now.events }
    ensures { IfOk result (λ found. IfSome found (λ w.
        IsWitness limits log.now.events race.with race.event w.events.items)) }
{
    let mut searcher = Searcher::new(alloc, limits, log)?;
    searcher.witness(race.with, race.event)
}

/// Writes the line `none`.
fn write_none<W: Output>(writer: &mut W) -> Result<(), WriteFault>
    ensures ok { OnOk result (Appends (W.written writer.old) (W.written writer.new) none_line) }
    ensures healthy { OnOk result (W.failed writer.new ≡ W.failed writer.old) }
    ensures failed { OnErr result (W.failed writer.new ≡ true) }
{
    write_all(writer, b"none\n")
}

/// Writes the trace of a witness for the race of the event with the number, counted from 1, or the line
/// `none`. Nothing is written where the event does not race, or memory ran out.
pub fn show_event<W: Output>(
    alloc: Global,
    writer: &mut W,
    monitor: &Monitor,
    names: &Names,
    number: u32,
) -> Result<Shown, ReplayFault>
    requires named { AreNamed names.now monitor.now.log }
    ensures answers { answer_gives_up result ≡ false → HasAnswered monitor.now.limits (Some number)
        (W.written writer.old) (W.written writer.new)
        (Ok (record { names = names.now; log = monitor.now.log })) result }
    ensures only { IfErr result (λ f. f ≡ ReplayFault.Write) }
    ensures silent { is_silent result ≡ true → writer.new ≡ writer.old }
    ensures healthy { result ≢ Err ReplayFault.Write → W.failed writer.new ≡ W.failed writer.old }
    ensures failed { result ≡ Err ReplayFault.Write → W.failed writer.new ≡ true }
{
    let Some(race) = race_of(monitor, number) else {
        return Ok(Shown::NoRace);
    };
    let log = monitor.log();
    let Ok(found) = find_witness(alloc, monitor.limits(), log, race) else {
        return Ok(Shown::OutOfMemory);
    };
    let Some(witness) = found else {
        let Ok(()) = write_none(writer) else {
            return Err(ReplayFault::Write);
        };
        return Ok(Shown::NoWitness);
    };
    let written = write_lines(writer, log, names, &witness.events, race.with, race.event);
    drop(witness);
    let Ok(()) = written else {
        return Err(ReplayFault::Write);
    };
    Ok(Shown::Witness)
}
