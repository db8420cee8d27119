//! Room: it is made before an event, and asked for.
ghost use Rattle.std.specs.Prelude.{◌≡◌, ◌↔◌, IsOk, OnOk, IsTrue};
ghost use Rattle.event_core.specs.declared.events.Op.TheVariants.{Load, Store};
ghost use Rattle.event_core.specs.declared.ids.VarId.{VarId};
ghost use Rattle.hb_clocks.specs.Standing.{IsHeldRelease};
ghost use Rattle.wcp_clocks.specs.Parts.{hb_of, IsReady, IsReadyToSwap, KeepsReady, SameLimits, SameNumbers};
ghost use Rattle.wcp_clocks.specs.Parts.{IsWithin};
ghost use Rattle.wcp_clocks.specs.Growth.{GrownFor, MadeFor};

use crate::clocks::WcpClocks;
use crate::room::{places_ready, prepare_clocks, prepare_places};
use event_core::{Event, Op, OutOfMemory, ThreadId};

impl WcpClocks {
    /// Makes room for the event, whose numbers are within the limits. No number changes, whether there is
    /// memory or not. Where there is room, as for each release by a holder, it is not refused. Then nothing
    /// changes that a caller can tell: an `advance` that comes next does not search again for the places of
    /// an access.
    #[inline]
    pub fn prepare(&mut self, event: &Event) -> Result<(), OutOfMemory>
        requires { IsWithin self.old event.now.thread event.now.op }
        ensures same { SameNumbers self.old self.new }
        ensures ready { OnOk result (IsReady self.new event.now.thread event.now.op) }
        ensures again { IsReady self.old event.now.thread event.now.op
            → IsOk result × (self.new ≡ self.old) }
        ensures releases { IsHeldRelease (hb_of self.old) event.now.thread event.now.op → IsOk result }
        ensures kept { KeepsReady self.old self.new }
        ensures grown { GrownFor self.old self.new event.now.thread event.now.op }
        ensures made { MadeFor self.old self.new event.now.thread event.now.op }
        ensures limits { SameLimits self.old self.new }
    {
        self.prepare_for(event.thread, event.op)
    }

    /// Whether there is room for the event. There is for each release by a holder.
    #[inline]
    pub fn ready(&self, event: &Event) -> bool
        ensures ready { IsTrue result ↔ IsReady self.now event.now.thread event.now.op }
        ensures releases { IsHeldRelease (hb_of self.now) event.now.thread event.now.op → IsTrue result }
    {
        self.ready_for(event.thread, event.op)
    }

    /// Makes room for both events of a swap, its load and its store, as `prepare` does for one. Both need the
    /// same room.
    #[inline]
    pub fn prepare_swap(&mut self, load: &Event, store: &Event) -> Result<(), OutOfMemory>
        requires load { IsWithin self.old load.now.thread load.now.op }
        requires store { IsWithin self.old store.now.thread store.now.op }
        ensures same { SameNumbers self.old self.new }
        ensures ready { OnOk result (IsReadyToSwap self.new load.now store.now) }
        ensures again { IsReadyToSwap self.old load.now store.now → IsOk result × (self.new ≡ self.old) }
        ensures kept { KeepsReady self.old self.new }
        ensures grown { (var : VarId) → load.now.op ≡ Load var → store.now.op ≡ Store var
            → load.now.thread ≡ store.now.thread
            → GrownFor self.old self.new store.now.thread store.now.op }
        ensures made { (var : VarId) → load.now.op ≡ Load var → store.now.op ≡ Store var
            → load.now.thread ≡ store.now.thread
            → MadeFor self.old self.new store.now.thread store.now.op }
        ensures limits { SameLimits self.old self.new }
    {
        self.prepare_for(load.thread, load.op)?;
        self.prepare_for(store.thread, store.op)
    }

    /// Whether there is room for both events of a swap, its load and its store.
    #[inline]
    pub fn ready_swap(&self, load: &Event, store: &Event) -> bool
        ensures { IsTrue result ↔ IsReadyToSwap self.now load.now store.now }
    {
        self.ready_for(load.thread, load.op) && self.ready_for(store.thread, store.op)
    }

    /// As `prepare`, for an event of the thread with the operation. Room depends on no more of an event.
    #[inline(always)]
    pub fn prepare_for(&mut self, thread: ThreadId, op: Op) -> Result<(), OutOfMemory>
        requires { IsWithin self.old thread op }
        ensures same { SameNumbers self.old self.new }
        ensures ready { OnOk result (IsReady self.new thread op) }
        ensures again { IsReady self.old thread op → IsOk result × (self.new ≡ self.old) }
        ensures releases { IsHeldRelease (hb_of self.old) thread op → IsOk result }
        ensures kept { KeepsReady self.old self.new }
        ensures grown { GrownFor self.old self.new thread op }
        ensures made { MadeFor self.old self.new thread op }
        ensures limits { SameLimits self.old self.new }
    {
        if self.rows.ready(thread, op) {
            return prepare_places(&mut self.sums, &mut self.queues, &mut self.held, thread, op);
        }
        self.grow(thread, op)
    }

    // The same, where a clock is to be made.
    #[cold]
    #[inline(never)]
    fn grow(&mut self, thread: ThreadId, op: Op) -> Result<(), OutOfMemory>
        requires { IsWithin self.old thread op }
        ensures same { SameNumbers self.old self.new }
        ensures ready { OnOk result (IsReady self.new thread op) }
        ensures kept { KeepsReady self.old self.new }
        ensures grown { GrownFor self.old self.new thread op }
        ensures made { MadeFor self.old self.new thread op }
        ensures limits { SameLimits self.old self.new }
    {
        prepare_clocks(&mut self.hb, &mut self.rows, thread, op)?;
        prepare_places(&mut self.sums, &mut self.queues, &mut self.held, thread, op)
    }

    /// As `ready`, for an event of the thread with the operation.
    #[inline(always)]
    pub fn ready_for(&self, thread: ThreadId, op: Op) -> bool
        ensures ready { IsTrue result ↔ IsReady self.now thread op }
        ensures releases { IsHeldRelease (hb_of self.now) thread op → IsTrue result }
    {
        self.rows.ready(thread, op)
            && places_ready(&self.sums, &self.queues, &self.held, thread, op)
    }
}
