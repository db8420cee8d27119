//! The clocks of the strict relation: a row for each thread and each lock.
ghost use Rattle.std.specs.Prelude.{◌≡◌, ◌≢◌, ℕ, ◌+◌, ◌*◌, ◌<◌, ◌≤◌, ◌^◌, ◌↔◌, length, IfOk, OnOk, IsTrue};
ghost use Rattle.event_core.specs.Rows.{join, with_row, no_rows};
ghost use Rattle.hb_clocks.specs.Counts.{counts_of};
ghost use Rattle.hb_clocks.specs.Released.{before_of, clock_of};
ghost use Rattle.hb_clocks.specs.Rows.{row_at};
ghost use Rattle.wcp_clocks.specs.StrictRows.{strict_of, HasThread, HasLock, KeepsRoom, SameRoom};
ghost use Rattle.wcp_clocks.specs.StrictRows.{SameClocks, IsReady, HasMade, GrownFor};

use event_core::{LockId, Op, OutOfMemory, ThreadId};
use hb_clocks::rows::{
    copy_row, copy_rows, is_made, join_row, join_row_release, join_rows, make_row, row_or,
};
use hb_clocks::{Clock, ReleaseClock, Work};
use std::alloc::Global;
use std::marker::Model;

/// The clocks of the strict relation. Only `new` and the calls that make room take memory.
#[derive(Drop)]
pub(crate) struct StrictRows {
    width: usize,
    alloc: Global,
    // Lent for a thread whose clocks were not made.
    zeros: Clock,
    // What strictly precedes the thread's latest event.
    threads: Vec<Clock>,
    // What strictly precedes the lock's latest outer release.
    locks: Vec<Clock>,
}

impl Model for StrictRows {
    ghost use Rattle.std.specs.Prelude.{vec_capacity};
    ghost use Rattle.wcp_clocks.specs.StrictRows.{StrictTables, AreTables};

    ghost Value = { StrictTables };

    ghost view = { λ c. record {
      width = c.width;
      thread = c.threads.items;
      lock = c.locks.items;
      thread_room = vec_capacity c.threads;
      lock_room = vec_capacity c.locks;
    } };

    ghost invariant = { λ c. AreTables c.width c.zeros c.threads.items c.locks.items };
}

impl StrictRows {
    // No clock counts anything.
    pub(crate) fn new(alloc: Global, width: usize) -> Result<StrictRows, OutOfMemory>
        requires { 0 < width }
        ensures width { IfOk result (λ made. made.width ≡ width) }
        ensures strict { IfOk result (λ made. strict_of made ≡ no_rows) }
        ensures no_thread { IfOk result (λ made. (t : ℕ) → HasThread made t → ⊥) }
        ensures no_lock { IfOk result (λ made. (l : ℕ) → HasLock made l → ⊥) }
    {
        let zeros = Clock::new(alloc, width)?;
        Ok(StrictRows {
            width,
            alloc,
            zeros,
            threads: Vec::new(alloc),
            locks: Vec::new(alloc),
        })
    }

    // Makes the clocks of the thread and of what the operation names, where they were not made.
    pub(crate) fn prepare(&mut self, thread: ThreadId, op: Op) -> Result<(), OutOfMemory>
        ensures same { SameClocks self.old self.new }
        ensures kept { KeepsRoom self.old self.new }
        ensures ready { OnOk result (IsReady self.new thread op) }
        ensures grown { GrownFor self.old self.new thread op }
    {
        self.make_thread(thread)?;
        match op {
            Op::Acquire(lock) | Op::Release(lock) => self.make_lock(lock),
            Op::Fork(child) | Op::Join(child) => self.make_thread(child),
            Op::Load(_) | Op::Store(_) => Ok(()),
        }
    }

    // Whether the clocks of the thread and of what the operation names were made.
    #[inline(always)]
    pub(crate) fn ready(&self, thread: ThreadId, op: Op) -> bool
        ensures { IsTrue result ↔ IsReady self.now thread op }
    {
        self.has_thread(thread)
            && match op {
                Op::Acquire(lock) | Op::Release(lock) => self.has_lock(lock),
                Op::Fork(child) | Op::Join(child) => self.has_thread(child),
                Op::Load(_) | Op::Store(_) => true,
            }
    }

    // Makes the clock of the thread.
    fn make_thread(&mut self, thread: ThreadId) -> Result<(), OutOfMemory>
        ensures same { SameClocks self.old self.new }
        ensures kept { KeepsRoom self.old self.new }
        ensures made { OnOk result (HasThread self.new thread.0) }
        ensures grown { HasMade (λ t. t ≡ thread.0) (λ l. ⊥) (thread.0 + 1) 0 self.old self.new }
    {
        make_row(&mut self.threads, self.alloc, self.width, thread.0 as usize)
    }

    // Makes the clock of the lock.
    fn make_lock(&mut self, lock: LockId) -> Result<(), OutOfMemory>
        ensures same { SameClocks self.old self.new }
        ensures kept { KeepsRoom self.old self.new }
        ensures made { OnOk result (HasLock self.new lock.0) }
        ensures grown { HasMade (λ t. ⊥) (λ l. l ≡ lock.0) 0 (lock.0 + 1) self.old self.new }
    {
        make_row(&mut self.locks, self.alloc, self.width, lock.0 as usize)
    }

    // Whether the clock of the thread was made.
    #[inline(always)]
    fn has_thread(&self, thread: ThreadId) -> bool
        ensures { IsTrue result ↔ HasThread self.now thread.0 }
    {
        is_made(&self.threads, self.width, thread.0 as usize)
    }

    // Whether the clock of the lock was made.
    #[inline(always)]
    fn has_lock(&self, lock: LockId) -> bool
        ensures { IsTrue result ↔ HasLock self.now lock.0 }
    {
        is_made(&self.locks, self.width, lock.0 as usize)
    }

    // The thread's strict clock.
    pub(crate) fn strict(&self, thread: ThreadId) -> &Clock
        ensures width { length result.now ≡ self.now.width }
        ensures counts { counts_of result.now ≡ (strict_of self.now).thread thread.0 }
        ensures at { (u : ℕ) → counts_of result.now u ≡ (strict_of self.now).thread thread.0 u }
        ensures row { HasThread self.now thread.0 → result.now ≡ row_at self.now.thread thread.0 }
    {
        row_or(&self.threads, thread.0 as usize, &self.zeros)
    }

    // The thread's strict clock takes the greater numbers of the release, and counts it. It is one join.
    #[inline(never)]
    pub(crate) fn take_release(
        &mut self,
        thread: ThreadId,
        release: &ReleaseClock<'_>,
        work: &mut Work,
    )
        requires room { HasThread self.old thread.0 }
        requires within { length (before_of release.now) ≤ self.old.width }
        requires few { work.old.joins < 2 ^ 63 }
        ensures threads { (strict_of self.new).thread ≡ with_row thread.0
            (join ((strict_of self.old).thread thread.0) (clock_of release.now))
            (strict_of self.old).thread }
        ensures locks { (strict_of self.new).lock ≡ (strict_of self.old).lock }
        ensures kept { SameRoom self.old self.new }
        ensures work { work.new ≡ record work.old { joins = work.old.joins + 1 } }
    {
        join_row_release(&mut self.threads, thread.0 as usize, release, work);
    }

    // The thread's strict clock takes the greater numbers of the lock's. It is one join.
    pub(crate) fn take_lock(&mut self, thread: ThreadId, lock: LockId, work: &mut Work)
        requires room { HasThread self.old thread.0 }
        requires lock_room { HasLock self.old lock.0 }
        requires few { work.old.joins < 2 ^ 63 }
        ensures threads { (strict_of self.new).thread ≡ with_row thread.0
            (join ((strict_of self.old).thread thread.0) ((strict_of self.old).lock lock.0))
            (strict_of self.old).thread }
        ensures locks { (strict_of self.new).lock ≡ (strict_of self.old).lock }
        ensures kept { SameRoom self.old self.new }
        ensures work { work.new ≡ record work.old { joins = work.old.joins + 1 } }
    {
        join_row(
            &mut self.threads,
            thread.0 as usize,
            &self.locks[lock.0 as usize],
            work,
        );
    }

    // The thread's strict clock takes the greater numbers of another thread's. It is one join.
    pub(crate) fn take_thread(&mut self, thread: ThreadId, other: ThreadId, work: &mut Work)
        requires room { HasThread self.old thread.0 }
        requires other_room { HasThread self.old other.0 }
        requires apart { other.0 ≢ thread.0 }
        requires few { work.old.joins < 2 ^ 63 }
        ensures threads { (strict_of self.new).thread ≡ with_row thread.0
            (join ((strict_of self.old).thread thread.0) ((strict_of self.old).thread other.0))
            (strict_of self.old).thread }
        ensures locks { (strict_of self.new).lock ≡ (strict_of self.old).lock }
        ensures kept { SameRoom self.old self.new }
        ensures work { work.new ≡ record work.old { joins = work.old.joins + 1 } }
    {
        join_rows(&mut self.threads, thread.0 as usize, other.0 as usize, work);
    }

    // A forked thread has the strict clock of the thread that forked it.
    pub(crate) fn give_thread(&mut self, thread: ThreadId, child: ThreadId)
        requires room { HasThread self.old thread.0 }
        requires child_room { HasThread self.old child.0 }
        requires apart { thread.0 ≢ child.0 }
        ensures threads { (strict_of self.new).thread ≡ with_row child.0
            ((strict_of self.old).thread thread.0) (strict_of self.old).thread }
        ensures locks { (strict_of self.new).lock ≡ (strict_of self.old).lock }
        ensures kept { SameRoom self.old self.new }
    {
        copy_rows(&mut self.threads, child.0 as usize, thread.0 as usize);
    }

    // The lock has the strict clock of the thread that released it.
    pub(crate) fn give_lock(&mut self, thread: ThreadId, lock: LockId)
        requires room { HasThread self.old thread.0 }
        requires lock_room { HasLock self.old lock.0 }
        ensures threads { (strict_of self.new).thread ≡ (strict_of self.old).thread }
        ensures locks { (strict_of self.new).lock ≡ with_row lock.0 ((strict_of self.old).thread thread.0)
            (strict_of self.old).lock }
        ensures kept { SameRoom self.old self.new }
    {
        copy_row(
            &mut self.locks,
            lock.0 as usize,
            &self.threads[thread.0 as usize],
        );
    }
}
