//! Room: it is made before a call, and asked for.
ghost use Rattle.std.specs.Prelude.{◌≡◌, ℕ, ◌<◌, ◌≤◌, ◌↔◌, IsTrue, IsOk, OnOk, List, length};
ghost use Rattle.event_core.specs.declared.events.Event.{Event};
ghost use Rattle.event_core.specs.declared.events.Op.{Op};
ghost use Rattle.event_core.specs.declared.ids.LockId.{LockId};
ghost use Rattle.event_core.specs.declared.ids.ThreadId.{ThreadId};
ghost use Rattle.event_core.specs.declared.ids.VarId.{VarId};
ghost use Rattle.traced_mem.specs.Tables.{meaning, Allows};
ghost use Rattle.traced_mem.specs.Room.{HasRoom, IsReady, IsReadyToSwap, GrownFor};
ghost use Rattle.traced_mem.specs.Standing.{StandsFor};

use crate::growth::grow;
use crate::memory::Memory;
use event_core::{Call, Event, Op, OutOfMemory, ThreadId};

impl Memory {
    /// Makes room for the call, or answers `OutOfMemory`. Nothing else changes, and what was ready stays so.
    /// A table that grows has memory for at most twice what the call needs.
    #[inline]
    pub fn prepare(&mut self, call: &Call) -> Result<(), OutOfMemory>
        ensures same { meaning self.new ≡ meaning self.old }
        ensures limits { self.new.limits ≡ self.old.limits }
        ensures ready { OnOk result (IsReady self.new call.now.thread call.now.op) }
        ensures again { IsReady self.old call.now.thread call.now.op → IsOk result }
        ensures kept { (u : ThreadId) (o : Op) → IsReady self.old u o → IsReady self.new u o }
        ensures grown { GrownFor self.old self.new call.now.thread call.now.op }
        ensures stands { (log : List Event) → StandsFor log self.old → StandsFor log self.new }
    {
        self.prepare_for(call.thread, call.op)
    }

    /// Makes room for both events of a swap, its load and its store, as `prepare` does for a call.
    #[inline]
    pub fn prepare_swap(&mut self, load: &Event, store: &Event) -> Result<(), OutOfMemory>
        ensures same { meaning self.new ≡ meaning self.old }
        ensures limits { self.new.limits ≡ self.old.limits }
        ensures ready { OnOk result (IsReadyToSwap self.new load.now store.now) }
        ensures again { IsReadyToSwap self.old load.now store.now → IsOk result }
        ensures kept { (u : ThreadId) (o : Op) → IsReady self.old u o → IsReady self.new u o }
        ensures grown { (var : VarId) → load.now.op ≡ Op.Load var
            → store.now.op ≡ Op.Store var → load.now.thread ≡ store.now.thread
            → GrownFor self.old self.new store.now.thread store.now.op }
        ensures stands { (log : List Event) → StandsFor log self.old → StandsFor log self.new }
    {
        self.prepare_for(load.thread, load.op)?;
        self.prepare_for(store.thread, store.op)
    }

    /// Makes room for each call of the thread with the operation, as `prepare` does for one.
    pub fn prepare_for(&mut self, thread: ThreadId, op: Op) -> Result<(), OutOfMemory>
        ensures same { meaning self.new ≡ meaning self.old }
        ensures limits { self.new.limits ≡ self.old.limits }
        ensures ready { OnOk result (IsReady self.new thread op) }
        ensures again { IsReady self.old thread op → IsOk result }
        ensures kept { (u : ThreadId) (o : Op) → IsReady self.old u o → IsReady self.new u o }
        ensures grown { GrownFor self.old self.new thread op }
        ensures stands { (log : List Event) → StandsFor log self.old → StandsFor log self.new }
    {
        if self.ready_for(thread, op) {
            return Ok(());
        }
        grow(
            &mut self.threads,
            &mut self.locks,
            &mut self.cells,
            self.alloc,
            thread,
            op,
        )
    }

    /// Whether there is room for the call. There is for each release that is allowed.
    #[inline(always)]
    pub fn ready(&self, call: &Call) -> bool
        ensures room { IsTrue result ↔ IsReady self.now call.now.thread call.now.op }
        ensures release { (lock : LockId) → call.now.op ≡ Op.Release lock
            → Allows self.now call.now.thread call.now.op → IsTrue result }
    {
        self.ready_for(call.thread, call.op)
    }

    /// Whether there is room for both events of a swap, its load and its store.
    #[inline]
    pub fn ready_swap(&self, load: &Event, store: &Event) -> bool
        ensures { IsTrue result ↔ IsReadyToSwap self.now load.now store.now }
    {
        self.ready_for(load.thread, load.op) && self.ready_for(store.thread, store.op)
    }

    /// Whether there is room for each call of the thread with the operation, as `ready` answers for one.
    #[inline(always)]
    pub fn ready_for(&self, thread: ThreadId, op: Op) -> bool
        ensures room { IsTrue result ↔ IsReady self.now thread op }
        ensures release { (lock : LockId) → op ≡ Op.Release lock
            → Allows self.now thread op → IsTrue result }
    {
        (thread.0 as usize) < self.threads.len() && self.has_room_for(thread, op)
    }

    // Whether the tables have room for what the operation names; the thread has a row.
    #[inline(always)]
    fn has_room_for(&self, thread: ThreadId, op: Op) -> bool
        requires { thread.0 < length self.now.threads }
        ensures { IsTrue result
            ↔ HasRoom self.now.threads (length self.now.locks) self.now.room thread op }
    {
        match op {
            Op::Load(_) => true,
            Op::Store(var) => (var.0 as usize) < self.cells.capacity(),
            Op::Acquire(lock) => (lock.0 as usize) < self.locks.len()
                && {
                    let held = &self.threads[thread.0 as usize].held;
                    held.len() < held.capacity()
                },
            Op::Release(lock) => (lock.0 as usize) < self.locks.len(),
            Op::Fork(child) | Op::Join(child) => (child.0 as usize) < self.threads.len(),
        }
    }
}
