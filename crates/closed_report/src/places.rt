//! Races by their places: which sites race, in place of which events.
ghost use Rattle.std.specs.Prelude.{◌≡◌, ℕ, ◌+◌, ◌<◌, ◌^◌, ◌↔◌, Some, IfErr, IfOk, OnErr, OnOk, length, true};
ghost use Rattle.std.specs.Prelude.{◌++◌, position, slice_get};
ghost use Rattle.std.specs.Io.KnownBytes.{Appends};
ghost use Rattle.std.specs.Result.{IsErrOf};
ghost use Rattle.rapid_text.specs.Pages.{Puts};
ghost use Rattle.trace_report.specs.Reports.{AreNamed, summary_line};
ghost use Rattle.closed_report.specs.Places.{place_of, same_place, site_at, var_at, var_of};
ghost use Rattle.closed_report.specs.Places.{place_line, place_lines, with_race, ArePlaces, IsPlaceReportOf};
ghost use Rattle.closed_report.specs.Unnamed.{IsReason, TellsUnnamed};

use crate::naming::all_named;
use crate::reporting::ReportFault;
use event_core::{Event, Log, Op, OutOfMemory, SiteId, VarId};
use live_monitor::{Closed, Race};
use rapid_text::{Names, Output, Page, WriteFault};
use std::alloc::Global;
use trace_report::{Summary, put_count, put_race, put_summary};

/// Where a race is: the site of the event that races, that of the earlier event, and the variable.
#[derive(Clone, Copy, Debug, PartialEq, Eq)]
pub struct Place {
    pub site: SiteId,
    pub with: SiteId,
    pub var: VarId,
}

/// A place, how many events race there, and the first of them.
#[derive(Clone, Copy, Debug, PartialEq, Eq)]
pub struct PlaceRaces {
    pub place: Place,
    pub races: u64,
    pub first: Race,
}

/// The variable that an operation accesses.
fn var_of(op: Op) -> VarId
    ensures { result ≡ var_of op }
{
    match op {
        Op::Load(var) | Op::Store(var) => var,
        _ => VarId(0),
    }
}

/// The variable of an event.
fn var_at(event: Option<Event>) -> VarId
    ensures { result ≡ var_at event }
{
    match event {
        Some(event) => var_of(event.op),
        None => VarId(0),
    }
}

/// The site of an event.
fn site_at(event: Option<Event>) -> SiteId
    ensures { result ≡ site_at event }
{
    match event {
        Some(event) => event.site,
        None => SiteId(0),
    }
}

/// The place of a race.
fn place_of(log: &Log, race: Race) -> Place
    ensures { result ≡ place_of log.now.events race }
{
    let event = log.get(race.event);
    let with = log.get(race.with);
    Place {
        site: site_at(event),
        with: site_at(with),
        var: var_at(event),
    }
}

/// Whether the sites and the variables are the same.
fn is_same(one: Place, other: Place) -> bool
    ensures { result ≡ same_place one other }
{
    one.site.0 == other.site.0 && one.with.0 == other.with.0 && one.var.0 == other.var.0
}

/// Where the place stands among those that were found.
fn index_of(found: &[PlaceRaces], place: Place) -> Option<usize>
    ensures { result ≡ position (λ (q : PlaceRaces). same_place q.place place) found.now }
{
    found.iter().position(|known| is_same(known.place, place))
}

/// Counts a race at the place.
fn add_race(found: &mut Vec<PlaceRaces>, place: Place, race: Race) -> Result<(), OutOfMemory>
    requires few { (i : ℕ) (q : PlaceRaces) → slice_get found.old.items i ≡ Some q → q.races + 1 < 2 ^ 64 }
    ensures ok { OnOk result (found.new.items ≡ with_race place race found.old.items) }
{
    if let Some(at) = index_of(found, place) {
        found[at].races += 1;
        return Ok(());
    }
    found.push(PlaceRaces {
        place,
        races: 1,
        first: race,
    })?;
    Ok(())
}

/// The places of the races, each once, in the order of their first races. It fails only where a growth of
/// memory was refused.
pub fn races_by_place(alloc: Global, closed: &Closed) -> Result<Vec<PlaceRaces>, OutOfMemory>
    ensures { IfOk result (λ found. ArePlaces closed.now.log found.items) }
{
    let log = closed.log();
    let mut found = Vec::new(alloc);
    for race in closed.verdicts().races() {
        add_race(&mut found, place_of(log, *race), *race)?;
    }
    Ok(found)
}

/// Puts the line of a place.
fn put_place<W: Output>(
    page: &mut Page,
    writer: &mut W,
    log: &Log,
    names: &Names,
    place: PlaceRaces,
) -> Result<(), WriteFault>
    requires within { place.first.event < length log.now.events }
    requires earlier { place.first.with < length log.now.events }
    requires named { AreNamed names.now log.now.events }
    ensures ok { OnOk result (Puts (W.written writer.old) page.old (W.written writer.new) page.new
        (place_line names.now log.now.events place)) }
    ensures healthy { OnOk result (W.failed writer.new ≡ W.failed writer.old) }
    ensures failed { OnErr result (W.failed writer.new ≡ true) }
{
    put_count(page, writer, "races ", place.races)?;
    page.put(writer, b" first ")?;
    put_race(page, writer, log, names, place.first)
}

/// Puts a line for each place.
fn put_places<W: Output>(
    page: &mut Page,
    writer: &mut W,
    log: &Log,
    names: &Names,
    places: &[PlaceRaces],
) -> Result<(), WriteFault>
    requires places { ArePlaces log.now.events places.now }
    requires named { AreNamed names.now log.now.events }
    ensures ok { OnOk result (Puts (W.written writer.old) page.old (W.written writer.new) page.new
        (place_lines names.now log.now.events places.now)) }
    ensures healthy { OnOk result (W.failed writer.new ≡ W.failed writer.old) }
    ensures failed { OnErr result (W.failed writer.new ≡ true) }
{
    for place in places {
        put_place(page, writer, log, names, *place)?;
    }
    Ok(())
}

/// Writes the report of places: the line of counts, and for each place a line
/// `races R first i|thread|operation(variable)|location with j|thread|operation(variable)|location`.
fn write_places<W: Output>(
    writer: &mut W,
    log: &Log,
    names: &Names,
    summary: &Summary,
    places: &[PlaceRaces],
) -> Result<(), WriteFault>
    requires places { ArePlaces log.now.events places.now }
    requires named { AreNamed names.now log.now.events }
    ensures ok { OnOk result (Appends (W.written writer.old) (W.written writer.new)
        (summary_line summary.now ++ place_lines names.now log.now.events places.now)) }
    ensures healthy { OnOk result (W.failed writer.new ≡ W.failed writer.old) }
    ensures failed { OnErr result (W.failed writer.new ≡ true) }
{
    let mut page = Page::new();
    put_summary(&mut page, writer, summary)?;
    put_places(&mut page, writer, log, names, places)?;
    page.flush(writer)
}

/// Writes the report of the closed log by places: the line of counts, and a line for each of the places that
/// `races_by_place` gave of it, `races R first ` and the line of the first race. It takes no memory. The
/// faults are those of `report_closed`.
pub fn report_places<W: Output>(
    writer: &mut W,
    closed: &Closed,
    places: &[PlaceRaces],
    names: &Names,
) -> Result<Summary, ReportFault>
    requires places { ArePlaces closed.now.log places.now }
    // What is written is the line of counts and a line for each place, and nothing else.
    ensures ok { IfOk result (λ summary. IsPlaceReportOf names.now closed.now.log places.now
        (W.written writer.old) (W.written writer.new) summary) }
    // It answers that a number has no name exactly where one has none, and then nothing is written.
    ensures unnamed { TellsUnnamed result ↔ (AreNamed names.now closed.now.log → ⊥) }
    ensures first { IfErr result (IsReason names.now closed.now.log) }
    ensures quiet { TellsUnnamed result → writer.new ≡ writer.old }
    ensures healthy { OnOk result (W.failed writer.new ≡ W.failed writer.old) }
    // It fails to write only where the writer did.
    ensures failed { IsErrOf result ReportFault.Write → W.failed writer.new ≡ true }
{
    let log = closed.log();
    all_named(names, log)?;
    let summary = Summary::of(log, closed.verdicts(), names);
    match write_places(writer, log, names, &summary, places) {
        Ok(()) => Ok(summary),
        Err(_) => Err(ReportFault::Write),
    }
}
