//! The clocks of program order and of happens-before (vector clocks, after Fidge and Mattern), with
//! locks that may be acquired again by their holder: outer acquires and releases alone carry an edge.
//!
//! A thread's clock counts what is below its latest event, or below its fork before its first event:
//! a fork gives its clocks to the child at once. A lock's clock counts what is below its latest outer
//! release. The log itself is not kept.
ghost use Rattle.std.specs.Prelude.{◌≡◌, ℕ, ◌+◌, ◌<◌, ◌≤◌, ◌^◌, ◌↔◌, List, [], ◌∷◌, ◌++◌, length, IfOk};
ghost use Rattle.std.specs.Prelude.{IsTrue, IsOk, OnOk};
ghost use Rattle.event_core.specs.declared.events.Event.{Event};
ghost use Rattle.event_core.specs.declared.events.Op.{Op};
ghost use Rattle.event_core.specs.declared.ids.ThreadId.{ThreadId};
ghost use Rattle.event_core.specs.declared.bounds.Limits.{Limits};
ghost use Rattle.event_core.specs.Order.{Po, Hb};
ghost use Rattle.event_core.specs.Refusal.{WellFormed};
ghost use Rattle.event_core.specs.Rows.{join, Counted};
ghost use Rattle.hb_clocks.specs.Counts.{counts_of};
ghost use Rattle.hb_clocks.specs.Marks.{IsLatest, Names};
ghost use Rattle.hb_clocks.specs.Work.{more_joins};
ghost use Rattle.hb_clocks.specs.State.{empty, after, effect, joins_of, latest_mark};
ghost use Rattle.hb_clocks.specs.Standing.{StandsFor, Admits, IsFew};
ghost use Rattle.hb_clocks.specs.Tables.{no_tables, state_of, IsReady, KeepsRoom, IsWithin, HasThread};
ghost use Rattle.hb_clocks.specs.Tables.{GrownFor, SameMemory, IsThreadFor, IsLockOf, threads_for, locks_for};
ghost use Rattle.hb_clocks.specs.Rows.{IsMade};

use crate::clock::Clock;
use crate::holds::{Hold, NO_HOLD, may_enter};
use crate::mark::Mark;
use crate::release::ReleaseClocks;
use crate::rows::{is_made, make_row, row_or};
use crate::step::advance_tables;
use crate::work::Work;
use event_core::{Event, Limits, LockId, Op, OutOfMemory, ThreadId, grow_to};
use std::alloc::Global;
use std::marker::Model;

/// The clocks of all threads and locks.
///
/// Its tables grow with the threads and locks that are named, and a clock is made when `prepare`
/// first names it. Each call but `new`, `prepare` and `prepare_for` takes no memory.
#[derive(Drop)]
pub struct HbClocks {
    width: usize,
    alloc: Global,
    // Lent for a thread whose clocks were not made.
    zeros: Clock,
    po: Vec<Clock>,
    hb: Vec<Clock>,
    locks: Vec<Clock>,
    holds: Vec<Hold>,
}

impl Model for HbClocks {
    ghost use Rattle.std.specs.Prelude.{max, vec_capacity};
    ghost use Rattle.hb_clocks.specs.Tables.{ClockTables, AreTables};

    ghost Value = { ClockTables };

    ghost view = { λ c. record {
      width = c.width;
      po = c.po.items;
      hb = c.hb.items;
      lock = c.locks.items;
      holds = c.holds.items;
      thread_room = max (vec_capacity c.po) (vec_capacity c.hb);
      lock_room = max (vec_capacity c.locks) (vec_capacity c.holds);
    } };

    ghost invariant = { λ c. AreTables c.width c.zeros c.po.items c.hb.items c.locks.items };
}

impl HbClocks {
    /// The clocks of the empty log, of the width of the limit of threads. No thread or lock has a clock yet.
    /// Beside them the one `Work` and the one list of the clocks of releases.
    pub fn new(
        alloc: Global,
        limits: Limits,
    ) -> Result<(HbClocks, Work, ReleaseClocks), OutOfMemory>
        ensures width { IfOk result (λ made. made.0.width ≡ limits.threads) }
        ensures unmade { IfOk result (λ made. made.0 ≡ no_tables limits.threads) }
        ensures empty { IfOk result (λ made. state_of made.0 ≡ empty) }
        ensures stands { IfOk result (λ made. StandsFor [] (state_of made.0)) }
        ensures work { IfOk result (λ made. made.1 ≡ record { comparisons = 0; joins = 0 }) }
        ensures releases { IfOk result (λ made. made.2.numbers ≡ []) }
    {
        let width = limits.threads() as usize;
        let zeros = Clock::new(alloc, width)?;
        let clocks = HbClocks {
            width,
            alloc,
            zeros,
            po: Vec::new(alloc),
            hb: Vec::new(alloc),
            locks: Vec::new(alloc),
            holds: Vec::new(alloc),
        };
        Ok((clocks, Work::new(), ReleaseClocks::new(alloc)))
    }

    /// Makes room for the event, whose threads are below the width. No number changes, whether there is
    /// memory or not. Where there is room nothing changes, and none is needed.
    #[inline]
    pub fn prepare(&mut self, event: &Event) -> Result<(), OutOfMemory>
        requires { IsWithin self.old.width event.now.thread event.now.op }
        ensures same { state_of self.new ≡ state_of self.old }
        ensures ready { OnOk result (IsReady self.new event.now.thread event.now.op) }
        ensures again { IsReady self.old event.now.thread event.now.op
            → IsOk result × (self.new ≡ self.old) }
        ensures kept { KeepsRoom self.old self.new }
        ensures grown { GrownFor self.old self.new event.now.thread event.now.op }
        ensures width { self.new.width ≡ self.old.width }
    {
        self.prepare_for(event.thread, event.op)
    }

    /// Whether there is room for the event. What is ready for an acquire is ready for its release too.
    #[inline]
    pub fn ready(&self, event: &Event) -> bool
        ensures { IsTrue result ↔ IsReady self.now event.now.thread event.now.op }
    {
        self.ready_for(event.thread, event.op)
    }

    /// As `prepare`, for an event of the thread with the operation. Room depends on no more of an event.
    pub fn prepare_for(&mut self, thread: ThreadId, op: Op) -> Result<(), OutOfMemory>
        requires { IsWithin self.old.width thread op }
        ensures same { state_of self.new ≡ state_of self.old }
        ensures ready { OnOk result (IsReady self.new thread op) }
        ensures again { IsReady self.old thread op → IsOk result × (self.new ≡ self.old) }
        ensures kept { KeepsRoom self.old self.new }
        ensures grown { GrownFor self.old self.new thread op }
        ensures width { self.new.width ≡ self.old.width }
    {
        if self.ready_for(thread, op) {
            return Ok(());
        }
        self.make_thread(thread)?;
        match op {
            Op::Fork(child) | Op::Join(child) => self.make_thread(child),
            Op::Acquire(lock) | Op::Release(lock) => self.make_lock(lock),
            Op::Load(_) | Op::Store(_) => Ok(()),
        }
    }

    /// As `ready`, for an event of the thread with the operation.
    pub fn ready_for(&self, thread: ThreadId, op: Op) -> bool
        ensures { IsTrue result ↔ IsReady self.now thread op }
    {
        self.has_thread(thread)
            && match op {
                Op::Fork(child) | Op::Join(child) => self.has_thread(child),
                Op::Acquire(lock) | Op::Release(lock) => self.has_lock(lock),
                Op::Load(_) | Op::Store(_) => true,
            }
    }

    /// Whether `advance` may take the thread's operation: no other thread holds the lock that it acquires,
    /// and it forks or joins another thread than its own.
    pub fn admits(&self, thread: ThreadId, op: Op) -> bool
        ensures { IsTrue result ↔ Admits (state_of self.now) thread op }
    {
        match op {
            Op::Acquire(lock) => may_enter(&self.holds, lock.0 as usize, thread),
            Op::Fork(child) | Op::Join(child) => child != thread,
            Op::Load(_) | Op::Store(_) | Op::Release(_) => true,
        }
    }

    /// The event joins the log that the clocks stand for. An outer acquire is one join and a join of a
    /// thread two, and nothing else is one.
    #[inline(always)]
    pub fn advance(&mut self, event: &Event, work: &mut Work)
        requires ready { IsReady self.old event.now.thread event.now.op }
        requires admits { Admits (state_of self.old) event.now.thread event.now.op }
        requires few { IsFew (state_of self.old) }
        requires work { work.old.joins < 2 ^ 62 }
        ensures exact { state_of self.new ≡ after event.now (state_of self.old) }
        ensures stands { (limits : Limits) (log : List Event) → WellFormed limits (log ++ event.now ∷ [])
            → StandsFor log (state_of self.old) → StandsFor (log ++ event.now ∷ []) (state_of self.new) }
        ensures kept { KeepsRoom self.old self.new }
        ensures memory { SameMemory self.old self.new }
        ensures width { self.new.width ≡ self.old.width }
        ensures work { work.new ≡ more_joins (joins_of (effect event.now (state_of self.old))) work.old }
    {
        advance_tables(
            &mut self.po,
            &mut self.hb,
            &mut self.locks,
            &mut self.holds,
            event,
            work,
        );
    }

    /// The thread's clock of program order.
    pub fn po(&self, thread: ThreadId) -> &Clock
        ensures width { length result.now ≡ self.now.width }
        ensures exact { counts_of result.now ≡ (state_of self.now).po thread.0 }
        ensures at { (u : ℕ) → counts_of result.now u ≡ (state_of self.now).po thread.0 u }
        ensures latest { (limits : Limits) (log : List Event) (j : ℕ) → WellFormed limits log
            → StandsFor log (state_of self.now) → IsLatest log thread j
            → Counted log (λ i. Po log i j) (counts_of result.now) }
    {
        row_or(&self.po, thread.0 as usize, &self.zeros)
    }

    /// The thread's clock of happens-before.
    pub fn hb(&self, thread: ThreadId) -> &Clock
        ensures width { length result.now ≡ self.now.width }
        ensures exact { counts_of result.now ≡ (state_of self.now).hb.thread thread.0 }
        ensures latest { (limits : Limits) (log : List Event) (j : ℕ) → WellFormed limits log
            → StandsFor log (state_of self.now) → IsLatest log thread j
            → Counted log (λ i. Hb log i j) (counts_of result.now) }
    {
        row_or(&self.hb, thread.0 as usize, &self.zeros)
    }

    /// The mark of the thread's latest event.
    pub fn mark(&self, thread: ThreadId) -> Mark
        requires some { 0 < (state_of self.now).hb.thread thread.0 thread.0 }
        requires few { (state_of self.now).hb.thread thread.0 thread.0 ≤ 2 ^ 32 }
        ensures exact { result ≡ latest_mark thread (state_of self.now) }
        ensures names { (log : List Event) (j : ℕ) → StandsFor log (state_of self.now)
            → IsLatest log thread j → Names log result thread j }
    {
        let row = &self.hb[thread.0 as usize];
        Mark::new(thread, (row.at(thread) - 1) as u32)
    }

    /// How often the thread holds the lock.
    pub fn depth(&self, thread: ThreadId, lock: LockId) -> u64
        ensures { result ≡ (state_of self.now).depth thread.0 lock.0 }
    {
        let at = lock.0 as usize;
        if at < self.holds.len() && self.holds[at].holder == thread.0 {
            self.holds[at].depth
        } else {
            0
        }
    }

    // Makes both clocks of the thread.
    fn make_thread(&mut self, thread: ThreadId) -> Result<(), OutOfMemory>
        requires { thread.0 < self.old.width }
        ensures same { state_of self.new ≡ state_of self.old }
        ensures made { OnOk result (HasThread self.new.width self.new.po self.new.hb thread.0) }
        ensures kept { KeepsRoom self.old self.new }
        ensures grown { (t : ThreadId) (o : Op) → thread.0 < threads_for t o
            → IsThreadFor t o thread.0 → GrownFor self.old self.new t o }
        ensures width { self.new.width ≡ self.old.width }
    {
        make_row(&mut self.po, self.alloc, self.width, thread.0 as usize)?;
        make_row(&mut self.hb, self.alloc, self.width, thread.0 as usize)
    }

    // Makes the lock's clock and its hold.
    fn make_lock(&mut self, lock: LockId) -> Result<(), OutOfMemory>
        ensures same { state_of self.new ≡ state_of self.old }
        ensures made { OnOk result ((lock.0 < length self.new.holds)
            × IsMade self.new.width self.new.lock lock.0) }
        ensures kept { KeepsRoom self.old self.new }
        ensures grown { (t : ThreadId) (o : Op) → lock.0 < locks_for o → IsLockOf o lock.0
            → GrownFor self.old self.new t o }
        ensures width { self.new.width ≡ self.old.width }
    {
        let at = lock.0 as usize;
        grow_to(&mut self.holds, at + 1, || NO_HOLD)?;
        make_row(&mut self.locks, self.alloc, self.width, at)
    }

    fn has_thread(&self, thread: ThreadId) -> bool
        ensures { IsTrue result ↔ HasThread self.now.width self.now.po self.now.hb thread.0 }
    {
        let at = thread.0 as usize;
        at < self.width && is_made(&self.po, self.width, at) && is_made(&self.hb, self.width, at)
    }

    fn has_lock(&self, lock: LockId) -> bool
        ensures { IsTrue result
            ↔ ((lock.0 < length self.now.holds) × IsMade self.now.width self.now.lock lock.0) }
    {
        let at = lock.0 as usize;
        at < self.holds.len() && is_made(&self.locks, self.width, at)
    }
}
