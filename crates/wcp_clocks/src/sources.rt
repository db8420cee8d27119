//! Rule (a) of weak causal precedence at an access: under each lock that its thread holds, the releases
//! of other threads' sections with an access in conflict strictly precede it (Kini, Mathur and
//! Viswanathan, "Dynamic Race Prediction in Linear Time", PLDI 2017).
ghost use Rattle.std.specs.Prelude.{◌≡◌, ℕ, ◌+◌, ◌*◌, ◌<◌, ◌≤◌, ◌^◌, length, map};
ghost use Rattle.event_core.specs.Rows.{join, with_row};
ghost use Rattle.lock_queues.specs.Queues.{closed_of};
ghost use Rattle.section_sum.specs.Sources.{most_sources};
ghost use Rattle.section_sum.specs.Sums.{sources_of};
ghost use Rattle.wcp_laws.specs.Step.{join_all};
ghost use Rattle.wcp_clocks.specs.HeldLists.{numbers_of};
ghost use Rattle.wcp_clocks.specs.Met.{met_clocks, met_under, joins_under, AreNumbers};
ghost use Rattle.wcp_clocks.specs.MetReleases.{rest, most_threads, released_at};
ghost use Rattle.wcp_clocks.specs.StrictRows.{strict_of, HasThread, SameRoom};

use crate::source_clocks::SourceClocks;
use crate::strict::StrictRows;
use event_core::{AccessKind, LockId, ThreadId, VarId};
use hb_clocks::Work;
use lock_queues::Queues;
use section_sum::Summaries;

// The releases that the thread's access meets under the lock.
#[inline(always)]
pub(crate) fn sources_under<'a>(
    sums: &Summaries,
    queues: &'a Queues,
    thread: ThreadId,
    lock: LockId,
    var: VarId,
    kind: AccessKind,
) -> SourceClocks<'a>
    requires { AreNumbers sums.now (closed_of queues.now) }
    ensures rest { rest result ≡ map (released_at (closed_of queues.now lock.0))
        (sources_of sums.now lock.0 var.0 kind thread.0) }
    ensures at_most { length (rest result) ≤ most_sources kind }
    ensures threads { most_threads result ≡ queues.now.limits.threads }
{
    SourceClocks::new(queues, lock, sums.sources(thread, lock, var, kind))
}

// The thread's strict clock takes what its access meets under the lock, at most two clocks.
#[inline(always)]
fn take_under(
    rows: &mut StrictRows,
    sums: &Summaries,
    queues: &Queues,
    thread: ThreadId,
    lock: LockId,
    var: VarId,
    kind: AccessKind,
    work: &mut Work,
)
    requires room { HasThread rows.old thread.0 }
    requires wide { queues.now.limits.threads ≡ rows.old.width }
    requires few { work.old.joins + 2 < 2 ^ 63 }
    requires numbers { AreNumbers sums.now (closed_of queues.now) }
    ensures threads { (strict_of rows.new).thread ≡ with_row thread.0
        (join ((strict_of rows.old).thread thread.0)
        (met_under (met_clocks sums.now (closed_of queues.now)) var.0 kind thread.0 lock.0))
        (strict_of rows.old).thread }
    ensures locks { (strict_of rows.new).lock ≡ (strict_of rows.old).lock }
    ensures kept { SameRoom rows.old rows.new }
    ensures joins { work.new.joins ≤ work.old.joins + 2 }
    ensures joins_exact { work.new.joins ≡ work.old.joins
        + length (sources_of sums.now lock.0 var.0 kind thread.0) }
    ensures comparisons { work.new.comparisons ≡ work.old.comparisons }
{
    for release in sources_under(sums, queues, thread, lock, var, kind) {
        rows.take_release(thread, &release, work);
    }
}

// The thread's strict clock takes what its access meets under each of the locks.
#[inline(always)]
pub(crate) fn take_sources(
    rows: &mut StrictRows,
    sums: &Summaries,
    queues: &Queues,
    thread: ThreadId,
    held: &[LockId],
    var: VarId,
    kind: AccessKind,
    work: &mut Work,
)
    requires room { HasThread rows.old thread.0 }
    requires wide { queues.now.limits.threads ≡ rows.old.width }
    requires few { work.old.joins + 2 * length held.now < 2 ^ 63 }
    requires numbers { AreNumbers sums.now (closed_of queues.now) }
    ensures threads { (strict_of rows.new).thread ≡ with_row thread.0
        (join ((strict_of rows.old).thread thread.0)
        (join_all (met_under (met_clocks sums.now (closed_of queues.now)) var.0 kind thread.0)
        (numbers_of held.now)))
        (strict_of rows.old).thread }
    ensures locks { (strict_of rows.new).lock ≡ (strict_of rows.old).lock }
    ensures kept { SameRoom rows.old rows.new }
    ensures joins { work.new.joins ≤ work.old.joins + 2 * length held.now }
    ensures joins_exact { work.new.joins ≡ work.old.joins
        + joins_under sums.now var.0 kind thread.0 (numbers_of held.now) }
    ensures comparisons { work.new.comparisons ≡ work.old.comparisons }
{
    for lock in held {
        take_under(rows, sums, queues, thread, *lock, var, kind, work);
    }
}
