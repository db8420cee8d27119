//! What is kept of a log, so that each test of a witness takes constant time.
ghost use Rattle.std.specs.Prelude.{◌≡◌, ◌<◌, ◌≤◌, ◌^◌, length, slice_get, slice_index};
ghost use Rattle.std.specs.Prelude.{Some, IfOk};
ghost use Rattle.event_core.specs.declared.bounds.Limits.{Limits};
ghost use Rattle.event_core.specs.Refusal.{WellFormed};
ghost use Rattle.witness.specs.Walks.{ArePlaces, AreTotals, AreReads, AreForks, AreTables};

use crate::links::{leave, link_for};
use crate::marks::{count_of, count_one, note_fork, note_store};
use event_core::{Event, Log, Op, OutOfMemory};
use std::alloc::Global;

/// The tables of a log, by event or by thread.
#[derive(Drop)]
pub struct Tables {
    /// Of each event, how many events of its thread are before it.
    pub places: Vec<u32>,
    /// How many events each thread has.
    pub totals: Vec<u64>,
    /// Of each event, what it leads to.
    pub links: Vec<u32>,
    /// The fork of each thread.
    pub forks: Vec<Option<u32>>,
    /// How many variables are stored to: each number is below.
    pub vars: usize,
}

impl Tables {
    /// The tables of the log.
    pub fn new(alloc: Global, log: &Log) -> Result<Tables, OutOfMemory>
        requires few { length log.now.events ≤ 2 ^ 32 }
        requires formed { (m : Limits) × WellFormed m log.now.events }
        ensures { IfOk result (λ t. AreTables log.now.events t) }
    {
        let (places, totals) = find_places(alloc, log)?;
        let links = find_links(alloc, log)?;
        let forks = find_forks(alloc, log)?;
        Ok(Tables {
            places,
            totals,
            links,
            forks,
            vars: count_vars(log),
        })
    }

    /// How many events of its thread are before the event at the index.
    pub fn place_at(&self, index: u64) -> u64
        ensures is { result ≡ slice_index self.now.places.items index }
        ensures few { result < 2 ^ 32 }
    {
        let at = index as usize;
        if at < self.places.len() {
            self.places[at] as u64
        } else {
            0
        }
    }
}

// The event at the index.
fn event_at(log: &Log, index: u64) -> Event
    requires { index < length log.now.events }
    ensures { slice_get log.now.events index ≡ Some result }
{
    log.get(index).unwrap()
}

// Of each event its place among those of its thread, and how many each thread has.
fn find_places(alloc: Global, log: &Log) -> Result<(Vec<u32>, Vec<u64>), OutOfMemory>
    requires { length log.now.events ≤ 2 ^ 32 }
    ensures places { IfOk result (λ t. ArePlaces log.now.events t.0.items) }
    ensures totals { IfOk result (λ t. AreTotals log.now.events t.1.items) }
{
    let mut places = Vec::new(alloc);
    let mut counts = Vec::new(alloc);
    places.reserve_exact(log.len() as usize)?;
    'events: for index in 0..log.len() {
        let event = event_at(log, index);
        places.push(count_of(&counts, event.thread) as u32)?;
        count_one(&mut counts, event.thread)?;
    }
    Ok((places, counts))
}

// Of each event what it leads to.
fn find_links(alloc: Global, log: &Log) -> Result<Vec<u32>, OutOfMemory>
    requires { length log.now.events ≤ 2 ^ 32 }
    ensures { IfOk result (λ t. AreReads log.now.events t.items) }
{
    let mut links = Vec::new(alloc);
    let mut stores = Vec::new(alloc);
    let mut holds = Vec::new(alloc);
    links.reserve_exact(log.len() as usize)?;
    'events: for index in 0..log.len() {
        let event = event_at(log, index);
        let link = link_for(&stores, &mut holds, event.op, index as u32)?;
        links.push(link)?;
        note_store(&mut stores, event.op, index as u32)?;
        leave(&mut holds, &mut links, event.op, index as u32);
    }
    Ok(links)
}

// The fork of each thread.
fn find_forks(alloc: Global, log: &Log) -> Result<Vec<Option<u32>>, OutOfMemory>
    requires few { length log.now.events ≤ 2 ^ 32 }
    requires formed { (m : Limits) × WellFormed m log.now.events }
    ensures { IfOk result (λ t. AreForks log.now.events t.items) }
{
    let mut forks = Vec::new(alloc);
    'events: for index in 0..log.len() {
        let event = event_at(log, index);
        note_fork(&mut forks, event.op, index as u32)?;
    }
    Ok(forks)
}

// How many variables are stored to, by the greatest number.
fn count_vars(log: &Log) -> usize {
    let mut vars = 0;
    for index in 0..log.len() {
        if let Some(event) = log.get(index) {
            if let Op::Store(var) = event.op {
                vars = vars.max(var.0 as usize + 1);
            }
        }
    }
    vars
}
