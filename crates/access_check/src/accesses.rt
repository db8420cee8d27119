//! Who touched which variable last.
mod room;

use crate::last_accesses::Access;
use crate::tables::{count_event, note_access, verdict_at_var};
use crate::variable_accesses::VariableAccesses;
use event_core::{AccessKind, Event, Limits, Op, OutOfMemory, Verdict};
use hb_clocks::VectorTime;
use std::alloc::Global;
use std::marker::Model;

/// The last accesses of each variable. Contracts see the tables.
#[derive(Drop)]
pub struct Accesses {
    alloc: Global,
    limits: Limits,
    counts: Vec<u64>,
    vars: Vec<VariableAccesses>,
}

impl Model for Accesses {
    ghost use Rattle.std.specs.Prelude.{length, vec_capacity};
    ghost use Rattle.access_check.specs.Tables.{AccessTables, AreTables};

    ghost Value = { AccessTables };

    ghost view = { λ a. record {
      limits = a.limits;
      counts = a.counts.items;
      vars = a.vars.items;
      count_room = vec_capacity a.counts;
      var_room = vec_capacity a.vars;
    } };

    ghost invariant = { λ a. AreTables a.limits.threads (length a.counts.items) a.vars.items };
}

impl Accesses {
    ghost use Rattle.std.specs.Prelude.{◌≡◌, ℕ, ◌<◌, ◌^◌, ◌∷◌, ◌++◌, [], length, IfOk, IsOk, List};
    ghost use Rattle.event_core.specs.declared.events.Event.{Event};
    ghost use Rattle.event_core.specs.Rows.{Counted};
    ghost use Rattle.event_core.specs.Wcp.{Below};
    ghost use Rattle.event_core.specs.Refusal.{WellFormed};
    ghost use Rattle.event_core.specs.Verdict.{IsVerdict};
    ghost use Rattle.hb_clocks.specs.Counts.{counts_of};
    ghost use Rattle.access_check.specs.Tables.{IsReady, KeepsReady, SameMemory, Notes};
    ghost use Rattle.access_check.specs.Tables.{count_at, no_tables, verdict_of};
    ghost use Rattle.access_check.specs.Standing.{StandsFor};

    /// The accesses of the empty log. It takes no memory, and so succeeds.
    pub fn new(alloc: Global, limits: Limits) -> Result<Accesses, OutOfMemory>
        ensures succeeds { IsOk result }
        ensures exact { IfOk result (λ made. made ≡ no_tables limits) }
        ensures stands { IfOk result (λ made. StandsFor [] made) }
    {
        Ok(Accesses {
            alloc,
            limits,
            counts: Vec::new(alloc),
            vars: Vec::new(alloc),
        })
    }

    #[inline(always)]
    fn find<T: VectorTime>(&self, event: &Event, clock: &T) -> Verdict
        requires { length (T.numbers clock.now) ≡ self.now.limits.threads }
        ensures { result ≡ verdict_of self.now.vars event.now.thread event.now.op
            (counts_of (T.numbers clock.now)) }
    {
        match event.op {
            Op::Load(var) => verdict_at_var(
                &self.vars,
                var.0 as usize,
                event.thread,
                AccessKind::Read,
                clock,
            ),
            Op::Store(var) => verdict_at_var(
                &self.vars,
                var.0 as usize,
                event.thread,
                AccessKind::Write,
                clock,
            ),
            _ => Verdict::Clear,
        }
    }

    /// The verdict on the event that is next, by a clock of what is ordered before it: the greatest index of
    /// an earlier access that conflicts with it and is not counted. The clock is that of the finished event,
    /// a `Clock` or two that are read as one. It takes no memory.
    #[inline(always)]
    pub fn verdict<T: VectorTime>(&self, event: &Event, clock: &T) -> Verdict
        requires { length (T.numbers clock.now) ≡ self.now.limits.threads }
        ensures exact { result
            ≡ verdict_of self.now.vars event.now.thread event.now.op (counts_of (T.numbers clock.now)) }
        ensures verdict { (log : List Event) → StandsFor log self.now
            → Counted (log ++ event.now ∷ []) (λ i. Below (log ++ event.now ∷ []) i (length log))
            (counts_of (T.numbers clock.now))
            → IsVerdict (log ++ event.now ∷ []) (length log) result }
    {
        self.find(event, clock)
    }

    /// The event stands in the log at the index, and this is the verdict on it: after a store that does not
    /// race, the earlier accesses of its variable are forgotten, since they are ordered before it, and so
    /// whatever one of them races with later, the store races with too, at a greater index. It is called for
    /// every event, so that positions are counted. It takes no memory, and no room that was made for its
    /// thread's other events.
    #[inline(always)]
    pub fn note(&mut self, event: &Event, index: u64, verdict: Verdict)
        requires room { IsReady self.old event.now.thread event.now.op }
        requires index { index < 2 ^ 32 }
        requires few { count_at self.old.counts event.now.thread.0 < 2 ^ 32 }
        ensures exact { Notes self.old self.new event.now index verdict }
        ensures stands { (log : List Event) → StandsFor log self.old → index ≡ length log
            → WellFormed self.old.limits (log ++ event.now ∷ [])
            → IsVerdict (log ++ event.now ∷ []) (length log) verdict
            → StandsFor (log ++ event.now ∷ []) self.new }
        ensures kept { KeepsReady self.old self.new event.now.thread }
        ensures memory { SameMemory self.old self.new event.now.op }
    {
        let position = count_event(&mut self.counts, event.thread.0 as usize);
        note_access(&mut self.vars, event, Access { index, position }, verdict);
    }
}
