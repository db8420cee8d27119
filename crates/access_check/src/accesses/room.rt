//! Room: it is made before an event, and asked for.
ghost use Rattle.std.specs.Prelude.{◌≡◌, ◌<◌, ◌↔◌, IsTrue, IsOk, OnOk};
ghost use Rattle.event_core.specs.declared.events.Op.{Op};
ghost use Rattle.event_core.specs.declared.ids.VarId.{VarId};
ghost use Rattle.event_core.specs.Effect.{access_of};
ghost use Rattle.access_check.specs.Tables.{IsReady, IsReadyAt, IsReadyToSwap, Grown, GrownFor};

use crate::accesses::Accesses;
use crate::tables::prepare_at;
use event_core::{AccessKind, Event, Op, OutOfMemory, ThreadId, VarId, grow_to};

impl Accesses {
    /// Makes room for the event, whose thread's number is within the limits. Nothing else changes.
    #[inline]
    pub fn make_room(&mut self, event: &Event) -> Result<(), OutOfMemory>
        requires { event.now.thread.0 < self.old.limits.threads }
        ensures same { Grown self.old self.new }
        ensures grown { GrownFor self.old self.new event.now.thread event.now.op }
        ensures room { OnOk result (IsReady self.new event.now.thread event.now.op) }
        ensures again { IsReady self.old event.now.thread event.now.op → IsOk result }
    {
        self.make_room_for(event.thread, event.op)
    }

    /// Makes room for both events of a swap, its load and its store, as `make_room` does for one.
    #[inline]
    pub fn make_room_swap(&mut self, load: &Event, store: &Event) -> Result<(), OutOfMemory>
        requires load { load.now.thread.0 < self.old.limits.threads }
        requires store { store.now.thread.0 < self.old.limits.threads }
        ensures same { Grown self.old self.new }
        ensures grown { (var : VarId) → load.now.op ≡ Op.Load var
            → store.now.op ≡ Op.Store var → load.now.thread ≡ store.now.thread
            → GrownFor self.old self.new store.now.thread store.now.op }
        ensures room { OnOk result (IsReadyToSwap self.new load.now store.now) }
        ensures again { IsReadyToSwap self.old load.now store.now → IsOk result }
    {
        self.make_room_for(load.thread, load.op)?;
        self.make_room_for(store.thread, store.op)
    }

    /// Makes room for each event of the thread with the operation, as `make_room` does for one.
    pub fn make_room_for(&mut self, thread: ThreadId, op: Op) -> Result<(), OutOfMemory>
        requires { thread.0 < self.old.limits.threads }
        ensures same { Grown self.old self.new }
        ensures grown { GrownFor self.old self.new thread op }
        ensures room { OnOk result (IsReady self.new thread op) }
        ensures again { IsReady self.old thread op → IsOk result }
    {
        match op {
            Op::Load(var) => self.prepare_access(thread, var, AccessKind::Read),
            Op::Store(var) => self.prepare_access(thread, var, AccessKind::Write),
            _ => grow_to(&mut self.counts, thread.0 as usize + 1, || 0),
        }
    }

    fn prepare_access(
        &mut self,
        thread: ThreadId,
        var: VarId,
        kind: AccessKind,
    ) -> Result<(), OutOfMemory>
        requires { thread.0 < self.old.limits.threads }
        ensures same { Grown self.old self.new }
        ensures grown { GrownFor self.old self.new thread (access_of var kind) }
        ensures room { OnOk result (IsReady self.new thread (access_of var kind)) }
        ensures again { IsReady self.old thread (access_of var kind) → IsOk result }
    {
        grow_to(&mut self.counts, thread.0 as usize + 1, || 0)?;
        prepare_at(&mut self.vars, self.alloc, var.0 as usize, thread, kind)
    }

    /// Whether there is room for each event of the thread with the operation.
    #[inline(always)]
    pub fn ready_for(&self, thread: ThreadId, op: Op) -> bool
        ensures { IsTrue result ↔ IsReady self.now thread op }
    {
        (thread.0 as usize) < self.counts.len()
            && match op {
                Op::Load(var) => self.ready_at(thread, var, AccessKind::Read),
                Op::Store(var) => self.ready_at(thread, var, AccessKind::Write),
                _ => true,
            }
    }

    #[inline(always)]
    fn ready_at(&self, thread: ThreadId, var: VarId, kind: AccessKind) -> bool
        ensures { IsTrue result ↔ IsReadyAt self.now.vars thread var.0 kind }
    {
        let var = var.0 as usize;
        var < self.vars.len() && self.vars[var].ready(thread, kind)
    }
}
