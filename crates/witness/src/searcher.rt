//! Witnesses for the races of one log.
ghost use Rattle.std.specs.Prelude.{◌≡◌, IfOk, IfSome};
ghost use Rattle.event_core.specs.Refusal.{WellFormed};
ghost use Rattle.witness.specs.Witness.{IsWitness};

use crate::search::Search;
use crate::tables::Tables;
use crate::thread_events::ThreadEvents;
use crate::walk::is_witness;
use event_core::laws::slots_are_kept;
use event_core::{Limits, Log, OutOfMemory};
use std::alloc::Global;
use std::marker::Model;

/// The events of a witness, by their indices in the log, in order.
#[derive(Drop)]
pub struct Witness {
    pub events: Vec<u32>,
}

/// What is kept of a log to look for witnesses of its races. Contracts see the log and its limits.
///
/// It takes 12 bytes an event, and more for each thread and lock.
#[derive(Drop)]
pub struct Searcher<'a> {
    alloc: Global,
    limits: Limits,
    log: &'a Log,
    tables: Tables,
    own: ThreadEvents,
    search: Search,
}

impl<'a> Model for Searcher<'a> {
    ghost use Rattle.std.specs.Prelude.{◌≤◌, ◌^◌, length};
    ghost use Rattle.witness.specs.Searched.{Searched};
    ghost use Rattle.witness.specs.Walks.{AreTables};

    ghost Value = { Searched };

    ghost view = { λ s. record { limits = s.limits; log = s.log.now.events } };

    ghost invariant = { λ s. AreTables s.log.now.events s.tables × (length s.log.now.events ≤ 2 ^ 32) };
}

impl<'a> Searcher<'a> {
    /// Prepares the search in the log, which is well formed under the limits.
    pub fn new(alloc: Global, limits: Limits, log: &'a Log) -> Result<Searcher<'a>, OutOfMemory>
        requires { WellFormed limits log.now.events }
        ensures limits { IfOk result (λ s. s.limits ≡ limits) }
        ensures log { IfOk result (λ s. s.log ≡ log.now.events) }
    {
        slots_are_kept();
        let _events = limits.events();
        let tables = Tables::new(alloc, log)?;
        let own = ThreadEvents::new(alloc, log, &tables)?;
        let search = Search::new(alloc, &tables)?;
        Ok(Searcher {
            alloc,
            limits,
            log,
            tables,
            own,
            search,
        })
    }

    /// A witness for the events i and j, if one is found. What it gives is one. Where it gives none there may
    /// still be one: only orders that keep the order of each lock's sections are looked for.
    pub fn witness(&mut self, i: u64, j: u64) -> Result<Option<Witness>, OutOfMemory>
        ensures witness { IfOk result (λ found. IfSome found (λ w.
            IsWitness self.old.limits self.old.log i j w.events.items)) }
        ensures same { self.new ≡ self.old }
    {
        let Some(events) = self
            .search
            .propose(self.alloc, self.log, &self.tables, &self.own, i, j)?
        else {
            return Ok(None);
        };
        let passed = is_witness(
            self.alloc,
            self.limits,
            self.log,
            &self.tables,
            &events,
            i,
            j,
        )?;
        if !passed {
            return Ok(None);
        }
        Ok(Some(Witness { events }))
    }
}
