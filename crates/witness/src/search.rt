//! The search for a witness: the least set of events that a witness needs, if it may have them.
//!
//! The set has what precedes both accesses in their threads. With an event it also has its thread's events
//! before, the fork of its thread, all of the thread that it joins, the store that it reads; and, of two
//! outer acquires of one lock in the set, the release that ends the earlier one's section. It is kept as a
//! number for each thread, grown to a fixed point. Where it takes in one of the accesses, or a section that
//! never ends, there is none; else the set, in the order of the log, is proposed. So sections keep their
//! order: the search is that of "sync-preserving" races (Mathur, Pavlogiannis and Viswanathan, POPL 2021).
//! Nothing is promised of it: what it proposes is tested.
ghost use Rattle.std.specs.Prelude.{◌≤◌, ◌^◌, length};

use crate::links::{link_back, link_on};
use crate::marks::{count_of, index_at};
use crate::tables::Tables;
use crate::thread_events::ThreadEvents;
use event_core::{LockId, Log, Op, OutOfMemory, ThreadId, grow_to};
use std::alloc::Global;

/// A thread's first events that may be taken: as many as this.
#[derive(Clone, Copy)]
struct Bound {
    thread: ThreadId,
    most: u64,
}

/// The set so far.
#[derive(Drop)]
pub struct Search {
    /// How many events of each thread are taken, with all that they need wanted.
    taken: Vec<u64>,
    /// How many events of each thread are to be taken.
    wanted: Vec<u64>,
    /// The newest outer acquire of each lock that is taken.
    newest: Vec<Option<u32>>,
    /// The locks of which one is.
    entered: Vec<LockId>,
    /// The threads of which more is wanted than was taken.
    work: Vec<ThreadId>,
}

impl Search {
    /// Nothing is taken.
    pub fn new(alloc: Global, tables: &Tables) -> Result<Search, OutOfMemory> {
        let threads = tables.totals.len();
        Ok(Search {
            taken: vec![in alloc; 0u64; threads]?,
            wanted: vec![in alloc; 0u64; threads]?,
            newest: Vec::new(alloc),
            entered: Vec::new(alloc),
            work: Vec::new(alloc),
        })
    }

    // Begins anew.
    fn clear(&mut self) {
        self.taken.fill(0);
        self.wanted.fill(0);
        for lock in &self.entered {
            let at = lock.0 as usize;
            if at < self.newest.len() {
                self.newest[at] = None;
            }
        }
        self.entered.clear();
        self.work.clear();
    }

    // Wants so many events of the thread, and answers whether that many may be taken.
    fn want(
        &mut self,
        bounds: &[Bound],
        thread: ThreadId,
        count: u64,
    ) -> Result<bool, OutOfMemory> {
        let at = thread.0 as usize;
        if self.wanted.len() <= at || count <= self.wanted[at] {
            return Ok(true);
        }
        if bounds
            .iter()
            .any(|bound| bound.thread.0 == thread.0 && bound.most < count)
        {
            return Ok(false);
        }
        self.wanted[at] = count;
        self.work.push(thread)?;
        Ok(true)
    }

    // Wants the event, if there is one.
    fn want_event(
        &mut self,
        bounds: &[Bound],
        log: &Log,
        tables: &Tables,
        index: Option<u32>,
    ) -> Result<bool, OutOfMemory> {
        let Some(index) = index else {
            return Ok(true);
        };
        let Some(event) = log.get(index as u64) else {
            return Ok(true);
        };
        self.want(bounds, event.thread, tables.place_at(index as u64) + 1)
    }

    // Of two outer acquires of the lock, wants the end of the earlier one's section.
    fn enter(
        &mut self,
        bounds: &[Bound],
        log: &Log,
        tables: &Tables,
        lock: LockId,
        index: u32,
    ) -> Result<bool, OutOfMemory> {
        let at = lock.0 as usize;
        grow_to(&mut self.newest, at + 1, || None)?;
        let Some(other) = self.newest[at] else {
            self.newest[at] = Some(index);
            self.entered.push(lock)?;
            return Ok(true);
        };
        self.newest[at] = Some(index.max(other));
        match link_on(&tables.links, index.min(other)) {
            Some(release) => self.want_event(bounds, log, tables, Some(release)),
            None => Ok(false),
        }
    }

    // Wants what the event needs.
    fn want_for(
        &mut self,
        bounds: &[Bound],
        log: &Log,
        tables: &Tables,
        index: u32,
    ) -> Result<bool, OutOfMemory> {
        let Some(event) = log.get(index as u64) else {
            return Ok(true);
        };
        let back = link_back(&tables.links, index);
        match event.op {
            Op::Load(_) => self.want_event(bounds, log, tables, back),
            Op::Acquire(lock) if back.is_none() => self.enter(bounds, log, tables, lock, index),
            Op::Join(child) => Ok(
                self.want_fork(bounds, log, tables, child)?
                    && self.want(bounds, child, count_of(&tables.totals, child))?,
            ),
            _ => Ok(true),
        }
    }

    // Wants the thread's fork, if there is one.
    fn want_fork(
        &mut self,
        bounds: &[Bound],
        log: &Log,
        tables: &Tables,
        thread: ThreadId,
    ) -> Result<bool, OutOfMemory> {
        self.want_event(bounds, log, tables, index_at(&tables.forks, thread.0))
    }

    // Takes the thread's events, up to as many as are wanted, the latest first: these are the likeliest to
    // need what may not be taken, so that a search without a witness ends soon.
    fn take(
        &mut self,
        bounds: &[Bound],
        log: &Log,
        tables: &Tables,
        own: &ThreadEvents,
        thread: ThreadId,
    ) -> Result<bool, OutOfMemory> {
        if !self.want_fork(bounds, log, tables, thread)? {
            return Ok(false);
        }
        let least = count_of(&self.taken, thread);
        let most = count_of(&self.wanted, thread);
        let at = thread.0 as usize;
        if self.taken.len() <= at || most <= least {
            return Ok(true);
        }
        self.taken[at] = most;
        'events: for place in (least..most).rev() {
            let Some(index) = own.event_of(thread, place) else {
                return Ok(false);
            };
            if !self.want_for(bounds, log, tables, index)? {
                return Ok(false);
            }
        }
        Ok(true)
    }

    // Wants what precedes the access in its thread.
    fn want_before(
        &mut self,
        bounds: &[Bound],
        log: &Log,
        tables: &Tables,
        access: Bound,
    ) -> Result<bool, OutOfMemory> {
        Ok(
            self.want(bounds, access.thread, access.most)?
                && self.want_fork(bounds, log, tables, access.thread)?,
        )
    }

    // Grows the set to a fixed point, and answers whether there is one.
    fn grow(
        &mut self,
        bounds: &[Bound],
        log: &Log,
        tables: &Tables,
        own: &ThreadEvents,
    ) -> Result<bool, OutOfMemory> {
        for access in bounds {
            if !self.want_before(bounds, log, tables, *access)? {
                return Ok(false);
            }
        }
        'threads: for _turn in 0..u64::MAX {
            let Some(thread) = self.work.pop() else {
                return Ok(true);
            };
            if !self.take(bounds, log, tables, own, thread)? {
                return Ok(false);
            }
        }
        Ok(false)
    }

    /// Proposes events for the accesses, in order, if there is a fixed point without both.
    pub fn propose(
        &mut self,
        alloc: Global,
        log: &Log,
        tables: &Tables,
        own: &ThreadEvents,
        i: u64,
        j: u64,
    ) -> Result<Option<Vec<u32>>, OutOfMemory>
        requires { length log.now.events ≤ 2 ^ 32 }
    {
        self.clear();
        let (Some(first), Some(second)) = (log.get(i), log.get(j)) else {
            return Ok(None);
        };
        let bounds = [
            Bound {
                thread: first.thread,
                most: tables.place_at(i),
            },
            Bound {
                thread: second.thread,
                most: tables.place_at(j),
            },
        ];
        if !self.grow(&bounds, log, tables, own)? {
            return Ok(None);
        }
        Ok(Some(in_order(alloc, log, tables, &self.taken)?))
    }
}

// How many events are taken.
fn sum_of(taken: &[u64]) -> u64 {
    let mut sum: u64 = 0;
    for count in taken {
        sum = sum.saturating_add(*count);
    }
    sum
}

// The events that are taken, in the order of the log.
fn in_order(
    alloc: Global,
    log: &Log,
    tables: &Tables,
    taken: &[u64],
) -> Result<Vec<u32>, OutOfMemory>
    requires { length log.now.events ≤ 2 ^ 32 }
{
    let mut order = Vec::new(alloc);
    order.reserve_exact(sum_of(taken) as usize)?;
    for index in 0..log.len() {
        if let Some(event) = log.get(index) {
            if tables.place_at(index) < count_of(taken, event.thread) {
                order.push(index as u32)?;
            }
        }
    }
    Ok(order)
}
