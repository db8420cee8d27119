//! The clocks of weak causal precedence (Kini, Mathur and Viswanathan, "Dynamic Race Prediction in
//! Linear Time", PLDI 2017): after each event, of each thread how many events of each other thread
//! strictly precede what it does next.
//!
//! An access takes, by rule (a), the releases of other threads' sections with an access in conflict,
//! under each lock that its thread holds. A release takes, by rule (b), that of the latest section on
//! its lock whose acquire is strictly below it. All else is handed on as happens-before is: by forks and
//! joins, and from a release to a later acquire. The log itself is not kept.
ghost use Rattle.std.specs.Prelude.{◌≡◌, ℕ, ◌<◌, ◌≤◌, ◌+◌, List, [], ◌∷◌, ◌++◌, length, max, IfOk};
ghost use Rattle.event_core.specs.declared.events.Event.{Event};
ghost use Rattle.event_core.specs.declared.bounds.Limits.{Limits};
ghost use Rattle.event_core.specs.Log.{depth};
ghost use Rattle.event_core.specs.Refusal.{WellFormed};
ghost use Rattle.event_core.specs.Count.{Counts};
ghost use Rattle.event_core.specs.Rows.{Counted, join};
ghost use Rattle.event_core.specs.Wcp.{Strict, Below};
ghost use Rattle.hb_clocks.specs.Counts.{counts_of};
ghost use Rattle.hb_clocks.specs.Marks.{IsLatest};
ghost use Rattle.hb_clocks.specs.State.{after as hb_after};
ghost use Rattle.section_sum.specs.Paired.{IsBelowPaired};
ghost use Rattle.section_sum.specs.Sources.{most_sources};
ghost use Rattle.section_sum.specs.Standing.{IsAccessBy};
ghost use Rattle.wcp_laws.specs.State.{empty};
ghost use Rattle.wcp_laws.specs.Step.{after, effect};
ghost use Rattle.wcp_laws.specs.Conditions.{found_at};
ghost use Rattle.wcp_clocks.specs.Parts.{hb_of, state_of, width_of, limits_of, work_of, found_in};
ghost use Rattle.wcp_clocks.specs.Parts.{IsReady, Fits, KeepsReady, SameLimits, most_joins};
ghost use Rattle.wcp_clocks.specs.Parts.{joins_at, FewComparisons, NoFewer, IsAccess};
ghost use Rattle.wcp_clocks.specs.MetReleases.{rest, most_threads, together, IsBelowSource};
ghost use Rattle.wcp_clocks.specs.Growth.{SameMemory};
ghost use Rattle.wcp_clocks.specs.Standing.{StandsFor};

mod effects;
mod room;

use crate::holdings::Holdings;
use crate::source_clocks::SourceClocks;
use crate::sources::sources_under;
use crate::strict::StrictRows;
use event_core::{AccessKind, Event, Limits, LockId, OutOfMemory, ThreadId, VarId};
use hb_clocks::{HbClocks, JoinedClocks, Work};
use lock_queues::Queues;
use section_sum::Summaries;
use std::alloc::Global;
use std::marker::Model;

/// The clocks of the strict relation, and of all that it stands on.
///
/// Each call but `new`, `prepare`, `prepare_swap` and `prepare_for` takes no memory.
#[derive(Drop)]
pub struct WcpClocks {
    // Those of program order and of happens-before.
    hb: HbClocks,
    // Those of the strict relation.
    rows: StrictRows,
    // What the accesses in closed sections were.
    sums: Summaries,
    queues: Queues,
    held: Holdings,
    work: Work,
}

impl Model for WcpClocks {
    ghost use Rattle.wcp_clocks.specs.Parts.{Parts, parts_of, AreParts};

    ghost Value = { Parts };

    ghost view = { λ c. parts_of c.hb c.rows c.sums c.queues c.held c.work };

    ghost invariant = { λ c. AreParts (parts_of c.hb c.rows c.sums c.queues c.held c.work) };
}

impl WcpClocks {
    /// The clocks of the empty log. A refused growth is answered by `OutOfMemory`.
    pub fn new(alloc: Global, limits: Limits) -> Result<WcpClocks, OutOfMemory>
        ensures width { IfOk result (λ made. width_of made ≡ limits.threads) }
        ensures limits { IfOk result (λ made. limits_of made ≡ limits) }
        ensures empty { IfOk result (λ made. state_of made ≡ empty) }
        ensures stands { IfOk result (λ made. StandsFor [] made) }
        ensures no_work { IfOk result (λ made. work_of made ≡ record { comparisons = 0; joins = 0 }) }
    {
        let rows = StrictRows::new(alloc, limits.threads() as usize)?;
        let (hb, work, releases) = HbClocks::new(alloc, limits)?;
        let queues = Queues::new(alloc, limits, releases)?;
        let sums = Summaries::new(alloc, limits)?;
        Ok(WcpClocks {
            hb,
            rows,
            sums,
            queues,
            held: Holdings::new(alloc),
            work,
        })
    }

    /// The event joins the log that the clocks stand for.
    ///
    /// It takes at most three joins of clocks, or at an access two for each lock that its thread holds: one
    /// for each release that the rules name, and no join goes uncounted. A release that ends a section makes
    /// a comparison for each section that it newly finds below it, and at most one more; nothing else makes
    /// one.
    #[inline(always)]
    pub fn advance(&mut self, event: &Event)
        requires ready { IsReady self.old event.now.thread event.now.op }
        requires fits { Fits event.now self.old }
        ensures exact { state_of self.new ≡ after event.now (state_of self.old) }
        ensures happens_before { hb_of self.new ≡ hb_after event.now (hb_of self.old) }
        ensures found { found_in self.new ≡ found_at event.now.thread (effect event.now (state_of self.old))
            (state_of self.old) (found_in self.old) }
        ensures stands { (limits : Limits) (log : List Event) → WellFormed limits (log ++ event.now ∷ [])
            → StandsFor log self.old → StandsFor (log ++ event.now ∷ []) self.new }
        ensures joins { (work_of self.new).joins ≤ (work_of self.old).joins
            + most_joins (effect event.now (state_of self.old))
            (length ((state_of self.old).held event.now.thread.0)) }
        ensures joins_exact { (work_of self.new).joins ≡ (work_of self.old).joins
            + joins_at event.now.thread (effect event.now (state_of self.old)) self.old }
        ensures comparisons { FewComparisons event.now.thread (effect event.now (state_of self.old)) self.old
            self.new }
        ensures no_fewer { NoFewer event.now.thread (effect event.now (state_of self.old)) self.old
            self.new }
        ensures kept { IsAccess event.now.op → KeepsReady self.old self.new }
        ensures memory { SameMemory self.old self.new event.now.op }
        ensures limits { SameLimits self.old self.new }
    {
        self.step(event);
    }

    /// The clocks of the releases that an access of the thread meets under the lock: of the newest section by
    /// another thread with a store, and for a store also of the newest with a load. Where the thread holds
    /// the lock, they count together exactly what happens before the releases of other threads that rule (a)
    /// of weak causal precedence pairs with the access (Kini, Mathur and Viswanathan, "Dynamic Race
    /// Prediction in Linear Time", PLDI 2017). It takes no memory.
    #[inline]
    pub fn sources(
        &self,
        thread: ThreadId,
        lock: LockId,
        var: VarId,
        kind: AccessKind,
    ) -> SourceClocks<'_>
        ensures paired { (log : List Event) (e : Event) → IsAccessBy thread var kind e
            → 0 < depth log thread lock → StandsFor log self.now
            → Counted log (IsBelowPaired log e lock) (together (rest result)) }
        ensures counted { (log : List Event) → StandsFor log self.now
            → Counted log (IsBelowSource log lock var kind thread) (together (rest result)) }
        ensures at_most { length (rest result) ≤ most_sources kind }
        ensures threads { most_threads result ≡ width_of self.now }
    {
        sources_under(&self.sums, &self.queues, thread, lock, var, kind)
    }

    /// How many events of `other` strictly precede the thread's latest event.
    pub fn strict(&self, thread: ThreadId, other: ThreadId) -> u64
        requires { other.0 < width_of self.now }
        ensures exact { result ≡ (state_of self.now).strict.thread thread.0 other.0 }
        ensures latest { (limits : Limits) (log : List Event) (j : ℕ) → WellFormed limits log
            → StandsFor log self.now → IsLatest log thread j
            → Counts log other (λ i. Strict log i j) result }
    {
        self.rows.strict(thread).at(other)
    }

    /// How many events of `other` are below the thread's latest event: strictly, or by program order.
    pub fn below(&self, thread: ThreadId, other: ThreadId) -> u64
        requires { other.0 < width_of self.now }
        ensures exact { result
            ≡ max ((state_of self.now).strict.thread thread.0 other.0)
            ((hb_of self.now).po thread.0 other.0) }
        ensures latest { (limits : Limits) (log : List Event) (j : ℕ) → WellFormed limits log
            → StandsFor log self.now → IsLatest log thread j
            → Counts log other (λ i. Below log i j) result }
    {
        self.strict(thread, other).max(self.hb.po(thread).at(other))
    }

    /// The thread's clock, which counts the events that are below its latest one. It is lent as the join of
    /// the strict clock and that of program order.
    #[inline(always)]
    pub fn clock(&self, thread: ThreadId) -> JoinedClocks<'_>
        ensures width { length result ≡ width_of self.now }
        ensures exact { counts_of result
            ≡ join ((state_of self.now).strict.thread thread.0) ((hb_of self.now).po thread.0) }
        ensures latest { (limits : Limits) (log : List Event) (j : ℕ) → WellFormed limits log
            → StandsFor log self.now → IsLatest log thread j
            → Counted log (λ i. Below log i j) (counts_of result) }
    {
        JoinedClocks::new(self.rows.strict(thread), self.hb.po(thread))
    }
}
