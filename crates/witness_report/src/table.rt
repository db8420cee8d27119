//! A line for each pair of locations of a report.
ghost use Rattle.std.specs.Prelude.{◌≡◌, ◌≢◌, Ok, Err, All, IfErr, IfOk, IfSome, IsTrue, None, true, false};
ghost use Rattle.event_core.specs.Refusal.{WellFormed};
ghost use Rattle.trace_report.specs.Reports.{AreNamed};
ghost use Rattle.trace_report.specs.Replayed.{answer_gives_up};
ghost use Rattle.witness_report.specs.Found.{AreRows, HasWitness, IsRow, IsShown, IsWithin, pairs_in};
ghost use Rattle.witness_report.specs.Found.{race_in, row_line, row_word};
ghost use Rattle.witness_report.specs.Showing.{HasAnswered, is_silent};

use crate::pairs::{Pair, is_same, pairs_of, sites_of};
use crate::shown::Shown;
use event_core::{Limits, Log, OutOfMemory};
use rapid_text::{Names, Output, Page, WriteFault};
use seq_monitor::{Monitor, Race};
use std::alloc::Global;
use trace_report::{Line, ReplayFault, Summary, put_count, put_race, write_lines};
use witness::Searcher;

/// At how many races of a pair of locations a witness is looked for.
const MOST_TRIES: u64 = 200;

/// A pair of locations, and the race between them for which there is a witness, if one was found.
#[derive(Clone, Copy)]
pub struct Row {
    pub pair: Pair,
    pub shown: Option<Race>,
}

/// The first word of a row's line.
fn word_for(shown: Option<Race>) -> &'static str
    ensures { result.now ≡ row_word shown }
{
    match shown {
        Some(_) => "witness ",
        None => "none ",
    }
}

/// Whether a witness for the race is found.
fn has_witness(searcher: &mut Searcher<'_>, race: Race) -> Result<bool, OutOfMemory>
    ensures witness { IfOk result (λ found. IsTrue found
        → HasWitness searcher.old.limits searcher.old.log race) }
    ensures same { searcher.new ≡ searcher.old }
{
    match searcher.witness(race.with, race.event)? {
        Some(witness) => {
            drop(witness);
            Ok(true)
        }
        None => Ok(false),
    }
}

/// The first of the races at the pair of locations for which a witness is found, of as many as are tried.
fn shown_at(
    searcher: &mut Searcher<'_>,
    log: &Log,
    races: &[Race],
    pair: Pair,
) -> Result<Option<Race>, OutOfMemory>
    requires { searcher.old.log ≡ log.now.events }
    ensures shown { IfOk result (λ shown. IfSome shown
        (IsShown searcher.old.limits log.now.events races.now pair.sites)) }
    ensures same { searcher.new ≡ searcher.old }
{
    let mut tries = 0;
    for race in races {
        if tries >= MOST_TRIES {
            return Ok(None);
        }
        if is_same(sites_of(log, *race), pair.sites) {
            tries += 1;
            if has_witness(searcher, *race)? {
                return Ok(Some(*race));
            }
        }
    }
    Ok(None)
}

/// A row for each pair of locations.
fn rows_of(
    alloc: Global,
    searcher: &mut Searcher<'_>,
    log: &Log,
    races: &[Race],
    pairs: &[Pair],
) -> Result<Vec<Row>, OutOfMemory>
    requires { searcher.old.log ≡ log.now.events }
    ensures pairs { IfOk result (λ rows. pairs_in rows.items ≡ pairs.now) }
    ensures each { IfOk result (λ rows.
        All (IsRow searcher.old.limits log.now.events races.now) rows.items) }
{
    let mut rows = Vec::new(alloc);
    for pair in pairs {
        let shown = shown_at(searcher, log, races, *pair)?;
        rows.push(Row { pair: *pair, shown })?;
    }
    Ok(rows)
}

/// The rows of the races of a log.
fn find_rows(
    alloc: Global,
    limits: Limits,
    log: &Log,
    races: &[Race],
) -> Result<Vec<Row>, OutOfMemory>
    requires { WellFormed limits log.now.events }
    ensures { IfOk result (λ rows. AreRows limits log.now.events races.now rows.items) }
{
    let pairs = pairs_of(alloc, log, races)?;
    let mut searcher = Searcher::new(alloc, limits, log)?;
    rows_of(alloc, &mut searcher, log, races, &pairs)
}

impl<W: Output> Line<W> for Row {
    ghost line = { row_line };

    ghost is_within = { λ log row. IsWithin log (race_in row) };

    fn put(
        &self,
        page: &mut Page,
        writer: &mut W,
        log: &Log,
        names: &Names,
    ) -> Result<(), WriteFault> {
        put_count(page, writer, word_for(self.shown), self.pair.races)?;
        page.put(writer, b" ")?;
        put_race(
            page,
            writer,
            log,
            names,
            self.shown.unwrap_or(self.pair.first),
        )
    }
}

/// Writes the line of counts, and a line for each pair of locations of the report. Nothing is written where
/// memory ran out.
pub fn show_pairs<W: Output>(
    alloc: Global,
    writer: &mut W,
    monitor: &Monitor,
    names: &Names,
) -> Result<Shown, ReplayFault>
    requires named { AreNamed names.now monitor.now.log }
    ensures answers { answer_gives_up result ≡ false → HasAnswered monitor.now.limits None
        (W.written writer.old) (W.written writer.new)
        (Ok (record { names = names.now; log = monitor.now.log })) result }
    ensures only { IfErr result (λ f. f ≡ ReplayFault.Write) }
    ensures silent { is_silent result ≡ true → writer.new ≡ writer.old }
    ensures all { result ≢ Ok Shown.NoRace }
    ensures healthy { result ≢ Err ReplayFault.Write → W.failed writer.new ≡ W.failed writer.old }
    ensures failed { result ≡ Err ReplayFault.Write → W.failed writer.new ≡ true }
{
    let log = monitor.log();
    let verdicts = monitor.verdicts();
    let Ok(rows) = find_rows(alloc, monitor.limits(), log, verdicts.races()) else {
        return Ok(Shown::OutOfMemory);
    };
    let summary = Summary::of(log, verdicts, names);
    let written = write_lines(writer, log, names, &summary, &rows);
    drop(rows);
    let Ok(()) = written else {
        return Err(ReplayFault::Write);
    };
    Ok(Shown::Pairs(summary))
}
