//! The state of a traced program. Contracts see what it means, and for which calls there is room.
ghost use Rattle.std.specs.Prelude.{◌≡◌, [], ◌∷◌, ◌++◌, false, IsOk, IfOk, List};
ghost use Rattle.event_core.specs.declared.events.Event.{Event};
ghost use Rattle.event_core.specs.declared.events.Op.{Op};
ghost use Rattle.event_core.specs.declared.ids.ThreadId.{ThreadId};
ghost use Rattle.event_core.specs.Refusal.{value_of, event_of};
ghost use Rattle.traced_mem.specs.Meaning.{nothing};
ghost use Rattle.traced_mem.specs.After.{after, value_at, holds_after};
ghost use Rattle.traced_mem.specs.Tables.{meaning, Allows};
ghost use Rattle.traced_mem.specs.Room.{IsReady, SameMemory, HoldsFit, takes_place};
ghost use Rattle.traced_mem.specs.Standing.{StandsFor};

mod permission;
mod queries;
mod room;

use crate::rows::{LockRow, ThreadRow};
use crate::step::apply_rows;
use event_core::{Call, Limits, Op, OutOfMemory};
use std::alloc::Global;
use std::marker::Model;

/// The state of a traced program: its threads, locks and variables, and how full its log is.
pub struct Memory {
    alloc: Global,
    limits: Limits,
    /// How many events there were.
    length: u64,
    /// How many acquires are still to be released: so many slots of the log are kept.
    holds: u64,
    /// By number, up to the greatest that was used. So are the locks, and the cells up to the greatest that
    /// was stored to.
    threads: Vec<ThreadRow>,
    locks: Vec<LockRow>,
    cells: Vec<u64>,
}

// By hand, so that a crate that drops one does not prove the drop of each type within again.
impl Drop for Memory {
    fn drop(self) {
        let Memory {
            alloc: _,
            limits: _,
            length: _,
            holds: _,
            threads: _,
            locks: _,
            cells: _,
        } = self;
    }
}

impl Model for Memory {
    ghost use Rattle.std.specs.Prelude.{vec_capacity};
    ghost use Rattle.traced_mem.specs.Tables.{MemoryTables, AreTables};

    ghost Value = { MemoryTables };

    ghost view = { λ a. record {
      limits = a.limits;
      length = a.length;
      holds = a.holds;
      threads = a.threads.items;
      locks = a.locks.items;
      cells = a.cells.items;
      thread_room = vec_capacity a.threads;
      lock_room = vec_capacity a.locks;
      room = vec_capacity a.cells;
    } };

    ghost invariant = { λ a. AreTables a.limits a.length a.holds a.threads.items a.locks.items };
}

impl Memory {
    /// A memory before any event: no lock is held, and each variable has the value 0. It takes no
    /// memory, and so succeeds.
    pub fn new(alloc: Global, limits: Limits) -> Result<Memory, OutOfMemory>
        ensures succeeds { IsOk result }
        ensures limits { IfOk result (λ memory. memory.limits ≡ limits) }
        ensures means { IfOk result (λ memory. meaning memory ≡ nothing) }
        ensures stands { IfOk result (λ memory. StandsFor [] memory) }
    {
        Ok(Memory {
            alloc,
            limits,
            length: 0,
            holds: 0,
            threads: Vec::new(alloc),
            locks: Vec::new(alloc),
            cells: Vec::new(alloc),
        })
    }

    /// Performs a call that is allowed and ready, and answers its event's value. It takes no memory.
    #[inline(always)]
    pub fn apply(&mut self, call: &Call) -> u64
        requires allowed { Allows self.old call.now.thread call.now.op }
        requires ready { IsReady self.old call.now.thread call.now.op }
        ensures value { result ≡ value_at (meaning self.old) call.now.op call.now.arg }
        ensures means { meaning self.new ≡ after call.now.thread call.now.op call.now.arg (meaning self.old) }
        ensures limits { self.new.limits ≡ self.old.limits }
        // an acquire may use up the place that was made for another one by its thread
        ensures kept { (u : ThreadId) (o : Op) → takes_place call.now.thread call.now.op u o ≡ false
            → IsReady self.old u o → IsReady self.new u o }
        ensures memory { SameMemory self.old self.new call.now.op }
        ensures last { (log : List Event) → StandsFor log self.old
            → result ≡ value_of log call.now.op call.now.arg }
        ensures stands { (log : List Event) → StandsFor log self.old
            → StandsFor (log ++ event_of log call.now ∷ []) self.new }
    {
        // No log has more events than this, so the counts below are within their range.
        let _events = self.limits.events();
        let value = match call.op {
            Op::Load(var) => self.value(var),
            Op::Store(_) => call.arg,
            _ => 0,
        };
        self.holds = self.count_holds(call.op);
        apply_rows(&mut self.threads, &mut self.locks, &mut self.cells, call);
        self.length += 1;
        value
    }

    // How many acquires are still to be released after the operation: each needs a slot of the log.
    #[inline(always)]
    fn count_holds(&self, op: Op) -> u64
        requires { HoldsFit self.now.holds op }
        ensures { result ≡ holds_after op self.now.holds }
    {
        match op {
            Op::Acquire(_) => self.holds + 1,
            Op::Release(_) => self.holds - 1,
            _ => self.holds,
        }
    }
}
