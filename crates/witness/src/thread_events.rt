//! The events of each thread, in order.
ghost use Rattle.std.specs.Prelude.{◌≤◌, ◌^◌, length};

use crate::marks::count_of;
use crate::tables::Tables;
use event_core::{Log, OutOfMemory, ThreadId};
use std::alloc::Global;

/// The events of each thread, in order.
#[derive(Drop)]
pub struct ThreadEvents {
    /// The events of thread 0, then those of thread 1, and so on.
    own: Vec<u32>,
    /// Where the events of each thread begin.
    starts: Vec<u64>,
}

impl ThreadEvents {
    /// Those of the log.
    pub fn new(alloc: Global, log: &Log, tables: &Tables) -> Result<ThreadEvents, OutOfMemory>
        requires { length log.now.events ≤ 2 ^ 32 }
    {
        let starts = find_starts(alloc, &tables.totals)?;
        let own = find_own(alloc, log, tables, &starts)?;
        Ok(ThreadEvents { own, starts })
    }

    /// The thread's event at the place.
    pub fn event_of(&self, thread: ThreadId, place: u64) -> Option<u32> {
        let at = count_of(&self.starts, thread).checked_add(place)?;
        self.own.get(at as usize).copied()
    }
}

// Where the events of each thread begin.
fn find_starts(alloc: Global, totals: &[u64]) -> Result<Vec<u64>, OutOfMemory> {
    let mut starts = Vec::new(alloc);
    let mut start: u64 = 0;
    for total in totals {
        starts.push(start)?;
        start = start.saturating_add(*total);
    }
    Ok(starts)
}

// The events of each thread after those of the threads before it.
fn find_own(
    alloc: Global,
    log: &Log,
    tables: &Tables,
    starts: &[u64],
) -> Result<Vec<u32>, OutOfMemory>
    requires { length log.now.events ≤ 2 ^ 32 }
{
    let mut own = vec![in alloc; 0u32; log.len() as usize]?;
    for index in 0..log.len() {
        if let Some(event) = log.get(index) {
            let place = tables.place_at(index);
            let at = count_of(starts, event.thread).saturating_add(place) as usize;
            if at < own.len() {
                own[at] = index as u32;
            }
        }
    }
    Ok(own)
}
