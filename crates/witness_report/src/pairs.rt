//! Races by the two locations of their events.
ghost use Rattle.std.specs.Prelude.{◌≡◌, ◌+◌, ◌<◌, ◌^◌, ℕ, IfOk, OnOk, Some, position, slice_get};
ghost use Rattle.witness_report.specs.Pairs.{same_sites, with_race, pairs_of as pairs_for};
ghost use Rattle.witness_report.specs.Pairs.{site_at as site_in, sites_of as sites_for};

use event_core::{Event, Log, OutOfMemory};
use seq_monitor::Race;
use std::alloc::Global;

/// Two locations, the one with the lesser number first.
#[derive(Clone, Copy)]
pub struct Sites {
    pub lesser: u32,
    pub greater: u32,
}

/// Two locations, how many races there are between them, and the first of these.
#[derive(Clone, Copy)]
pub struct Pair {
    pub sites: Sites,
    pub races: u64,
    pub first: Race,
}

/// The number of an event's location.
fn site_at(event: Option<Event>) -> u32
    ensures { result ≡ site_in event }
{
    match event {
        Some(event) => event.site.0,
        None => 0,
    }
}

/// The locations of the two events of a race.
pub fn sites_of(log: &Log, race: Race) -> Sites
    ensures { result ≡ sites_for log.now.events race }
{
    let one = site_at(log.get(race.with));
    let other = site_at(log.get(race.event));
    Sites {
        lesser: one.min(other),
        greater: one.max(other),
    }
}

/// Whether they are the same.
pub fn is_same(one: Sites, other: Sites) -> bool
    ensures { result ≡ same_sites one other }
{
    one.lesser == other.lesser && one.greater == other.greater
}

/// Which of the pairs has the locations.
fn index_of(pairs: &[Pair], sites: Sites) -> Option<usize>
    ensures { result ≡ position (λ (p : Pair). same_sites p.sites sites) pairs.now }
{
    pairs.iter().position(|pair| is_same(pair.sites, sites))
}

/// Counts a race between the locations, which may be a new pair.
fn add_race(pairs: &mut Vec<Pair>, sites: Sites, race: Race) -> Result<(), OutOfMemory>
    requires few { (i : ℕ) (p : Pair) → slice_get pairs.old.items i ≡ Some p → p.races + 1 < 2 ^ 64 }
    ensures ok { OnOk result (pairs.new.items ≡ with_race sites race pairs.old.items) }
{
    if let Some(at) = index_of(pairs, sites) {
        pairs[at].races += 1;
        return Ok(());
    }
    pairs.push(Pair {
        sites,
        races: 1,
        first: race,
    })?;
    Ok(())
}

/// The pairs of locations of the races, in the order of their first races.
pub fn pairs_of(alloc: Global, log: &Log, races: &[Race]) -> Result<Vec<Pair>, OutOfMemory>
    ensures { IfOk result (λ pairs. pairs.items ≡ pairs_for log.now.events races.now) }
{
    let mut pairs = Vec::new(alloc);
    for race in races {
        add_race(&mut pairs, sites_of(log, *race), *race)?;
    }
    Ok(pairs)
}
