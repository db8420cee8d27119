//! Work on the tables: of each thread how many events it has, and of each variable who touched it last.
ghost use Rattle.std.specs.Prelude.{◌≡◌, ℕ, ◌+◌, ◌<◌, ◌≤◌, ◌^◌, length, OnOk, OnErr, IsOk, cond, nat_eq, max};
ghost use Rattle.std.specs.Prelude.{◌*◌, vec_capacity};
ghost use Rattle.event_core.specs.declared.ids.ThreadId.{ThreadId};
ghost use Rattle.event_core.specs.declared.events.AccessKind.{AccessKind};
ghost use Rattle.event_core.specs.declared.events.Op.{Op};
ghost use Rattle.hb_clocks.specs.Counts.{counts_of};
ghost use Rattle.access_check.specs.LastAccesses.{AreNarrow, IsPackable};
ghost use Rattle.access_check.specs.VariableAccesses.{kept, latest_racing, kept_after};
ghost use Rattle.access_check.specs.Tables.{last_of, count_at, accesses_at, accesses_after, verdict_at};
ghost use Rattle.access_check.specs.Tables.{IsReadyAt, IsReadyFor, IsOther, LastsAt, SameLasts};

use crate::last_accesses::{Access, LastAccess};
use crate::variable_accesses::VariableAccesses;
use event_core::{AccessKind, Event, Op, OutOfMemory, ThreadId, Verdict, grow_to};
use hb_clocks::VectorTime;
use std::alloc::Global;

// So many variables get a table at once.
const VARS_AT_ONCE: usize = 64;

// The variable has a table, and so have the next ones: mostly the variables that are met first have the next
// numbers.
#[inline(never)]
fn grow_vars(vars: &mut Vec<VariableAccesses>, alloc: Global, var: usize) -> Result<(), OutOfMemory>
    requires { var < 2 ^ 32 }
    ensures same { (x : ℕ) → accesses_at vars.new.items x ≡ accesses_at vars.old.items x }
    ensures more { length vars.old.items ≤ length vars.new.items }
    ensures most { length vars.new.items ≤ max (length vars.old.items) (var + 64) }
    ensures memory { vec_capacity vars.new ≤ max (vec_capacity vars.old) (2 * (var + 64)) }
    ensures ok { OnOk result (var < length vars.new.items) }
{
    grow_to(vars, var + VARS_AT_ONCE, || VariableAccesses::new(alloc))
}

/// The variable has a table, with room for an access of that kind by the thread.
pub(crate) fn prepare_at(
    vars: &mut Vec<VariableAccesses>,
    alloc: Global,
    var: usize,
    thread: ThreadId,
    kind: AccessKind,
) -> Result<(), OutOfMemory>
    requires { var < 2 ^ 32 }
    ensures same { (x : ℕ) (k : AccessKind)
        → kept k (accesses_at vars.new.items x) ≡ kept k (accesses_at vars.old.items x) }
    ensures more { (t : ThreadId) (x : ℕ) (k : AccessKind) → IsReadyAt vars.old.items t x k
        → IsReadyAt vars.new.items t x k }
    ensures most { length vars.new.items ≤ max (length vars.old.items) (var + 64) }
    ensures memory { vec_capacity vars.new ≤ max (vec_capacity vars.old) (2 * (var + 64)) }
    ensures lasts { LastsAt var vars.old.items vars.new.items }
    ensures room { OnOk result (IsReadyAt vars.new.items thread var kind) }
    ensures again { IsReadyAt vars.old.items thread var kind → IsOk result }
{
    if vars.len() <= var {
        grow_vars(vars, alloc, var)?;
    }
    vars[var].prepare(thread, kind)
}

// An access, on which there was that verdict, is noted at its variable.
#[inline(always)]
fn note_at(
    vars: &mut [VariableAccesses],
    var: usize,
    kind: AccessKind,
    last: LastAccess,
    verdict: Verdict,
)
    requires packable { IsPackable last }
    requires room { IsReadyAt vars.old last.thread var kind }
    ensures room { (x : ℕ) (k : AccessKind) → IsReadyAt vars.old last.thread x k
        → IsReadyAt vars.new last.thread x k }
    ensures accesses { (x : ℕ) (k : AccessKind) → kept k (accesses_at vars.new x)
        ≡ cond (nat_eq x var) (kept_after verdict kind last k (accesses_at vars.old x))
        (kept k (accesses_at vars.old x)) }
    ensures memory { SameLasts vars.old vars.new }
    ensures as_many { length vars.new ≡ length vars.old }
{
    let accesses = &mut vars[var];
    accesses.note(kind, last, verdict);
}

/// The verdict on the thread's access of that kind.
#[inline(always)]
pub(crate) fn verdict_at_var<T: VectorTime>(
    vars: &[VariableAccesses],
    var: usize,
    thread: ThreadId,
    kind: AccessKind,
    clock: &T,
) -> Verdict
    requires { (x : ℕ) (k : AccessKind)
        → AreNarrow (length (T.numbers clock.now)) (kept k (accesses_at vars.now x)) }
    ensures { result ≡ verdict_at
        (latest_racing thread kind (counts_of (T.numbers clock.now)) (accesses_at vars.now var)) }
{
    if vars.len() <= var {
        return Verdict::Clear;
    }
    let accesses = &vars[var];
    match accesses.latest_racing(thread, kind, clock) {
        Some(index) => Verdict::Racy(index),
        None => Verdict::Clear,
    }
}

/// One more event of the thread: its position.
#[inline(always)]
pub(crate) fn count_event(counts: &mut [u64], thread: usize) -> u64
    requires within { thread < length counts.old }
    requires few { count_at counts.old thread + 1 < 2 ^ 64 }
    ensures position { result ≡ count_at counts.old thread + 1 }
    ensures counts { (u : ℕ) → count_at counts.new u
        ≡ cond (nat_eq u thread) (count_at counts.old u + 1) (count_at counts.old u) }
    ensures as_many { length counts.new ≡ length counts.old }
{
    let count = &mut counts[thread];
    *count += 1;
    *count
}

/// The event, on which there was that verdict, is noted where it is an access.
#[inline(always)]
#[tactic(auto, using(crate::proofs::IsReadyForProperties::room_for))]
pub(crate) fn note_access(
    vars: &mut [VariableAccesses],
    event: &Event,
    access: Access,
    verdict: Verdict,
)
    requires packable { IsPackable (last_of event.now.thread access) }
    requires room { IsReadyFor vars.old event.now.thread event.now.op }
    ensures accesses { (x : ℕ) (k : AccessKind) → kept k (accesses_at vars.new x)
        ≡ accesses_after verdict event.now.thread event.now.op access x k (accesses_at vars.old x) }
    ensures narrow { (width : ℕ) → event.now.thread.0 < width
        → ((x : ℕ) (k : AccessKind) → AreNarrow width (kept k (accesses_at vars.old x)))
        → (x : ℕ) (k : AccessKind) → AreNarrow width (kept k (accesses_at vars.new x)) }
    ensures kept { (o : Op) → IsReadyFor vars.old event.now.thread o
        → IsReadyFor vars.new event.now.thread o }
    ensures memory { SameLasts vars.old vars.new }
    ensures as_many { length vars.new ≡ length vars.old }
    ensures others { IsOther event.now.op → vars.new ≡ vars.old }
{
    let last = LastAccess {
        thread: event.thread,
        access,
    };
    match event.op {
        Op::Load(var) => note_at(vars, var.0 as usize, AccessKind::Read, last, verdict),
        Op::Store(var) => note_at(vars, var.0 as usize, AccessKind::Write, last, verdict),
        _ => {}
    }
}
