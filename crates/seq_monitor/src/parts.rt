//! What is made of the parts of a monitor.
ghost use Rattle.std.specs.Prelude.{◌≡◌, ◌+◌, ◌<◌, ◌≤◌, ◌↔◌, List, [], ◌∷◌, ◌++◌, length, IsOk, IsTrue, OnOk};
ghost use Rattle.event_core.specs.declared.bounds.Limits.{Limits};
ghost use Rattle.event_core.specs.declared.events.Event.{Event};
ghost use Rattle.event_core.specs.declared.events.Op.{Op};
ghost use Rattle.event_core.specs.declared.ids.LockId.{LockId};
ghost use Rattle.event_core.specs.Refusal.{WellFormed};
ghost use Rattle.event_core.specs.Verdict.{IsVerdict};
ghost use Rattle.access_check.specs.Standing.{StandsFor as AccessesStand};
ghost use Rattle.wcp_clocks.specs.Parts.{width_of, SameLimits, IsAccess, KeepsReady, Fits};
ghost use Rattle.wcp_clocks.specs.Parts.{IsWithin, IsReady};
ghost use Rattle.wcp_clocks.specs.Growth.{SameMemory};
ghost use Rattle.wcp_clocks.specs.Standing.{StandsFor as ClocksStandFor};
ghost use Rattle.wcp_clocks.specs.WorkWithin.{IsWorkOf};
ghost use Rattle.seq_monitor.specs.Monitored.{slots_for, HasRoomFor};
ghost use Rattle.seq_monitor.specs.Grown.{HasGrown, HasOtherRoom, IsKeptRelease};
ghost use Rattle.seq_monitor.specs.Growth.{GrownFor, TablesGrownFor};

use access_check::Accesses;
use event_core::{Event, Log, MOST_EVENTS, Op, OutOfMemory, Reply, ThreadId, Verdict};
use traced_mem::Memory;
use verdict_list::Verdicts;
use wcp_clocks::WcpClocks;

/// What a monitor keeps: its log with the verdicts, and the parts that stand for the log.
#[derive(Drop)]
pub(crate) struct Parts {
    pub(crate) log: Log,
    pub(crate) verdicts: Verdicts,
    pub(crate) memory: Memory,
    pub(crate) clocks: WcpClocks,
    pub(crate) accesses: Accesses,
}

/// The reply to the call of the event, which has the index and the verdict.
#[inline(always)]
pub(crate) fn reply_with(index: u64, event: &Event, verdict: Verdict) -> Reply
    ensures { result ≡ record { index = index; value = event.now.value; verdict = verdict } }
{
    Reply {
        index,
        value: event.value,
        verdict,
    }
}

/// How many slots are to be there for the operation and for all releases to come.
#[inline(always)]
pub(crate) fn count_slots(holds: u64, op: Op) -> usize
    requires { holds ≤ MOST_EVENTS }
    ensures exact { result ≡ slots_for holds op }
    ensures few { result ≤ holds + 2 }
{
    let holds = holds as usize;
    match op {
        Op::Acquire(_) => holds + 2,
        Op::Release(_) => holds,
        _ => holds + 1,
    }
}

// The verdict on the last event of the log that the clocks stand for, while the accesses stand for the log
// without it.
#[inline(always)]
fn verdict_on_last(clocks: &WcpClocks, accesses: &Accesses, event: &Event) -> Verdict
    requires { width_of clocks.now ≡ accesses.now.limits.threads }
    ensures { (limits : Limits) (past : List Event) → WellFormed limits (past ++ event.now ∷ [])
        → ClocksStandFor (past ++ event.now ∷ []) clocks.now → AccessesStand past accesses.now
        → IsVerdict (past ++ event.now ∷ []) (length past) result }
{
    accesses.verdict(event, &clocks.clock(event.thread))
}

/// The event is the next one of the log that the clocks and the accesses stand for. The clocks advance by it,
/// and the verdict is by its thread's clock after that.
#[inline(always)]
pub(crate) fn judge(clocks: &mut WcpClocks, accesses: &Accesses, event: &Event) -> Verdict
    requires ready { IsReady clocks.old event.now.thread event.now.op }
    requires fits { Fits event.now clocks.old }
    requires width { width_of clocks.old ≡ accesses.now.limits.threads }
    ensures verdict { (limits : Limits) (past : List Event) → WellFormed limits (past ++ event.now ∷ [])
        → ClocksStandFor past clocks.old → AccessesStand past accesses.now
        → IsVerdict (past ++ event.now ∷ []) (length past) result }
    ensures stands { (limits : Limits) (past : List Event) → WellFormed limits (past ++ event.now ∷ [])
        → ClocksStandFor past clocks.old → ClocksStandFor (past ++ event.now ∷ []) clocks.new }
    ensures work { IsWorkOf event.now clocks.old clocks.new }
    ensures kept { IsAccess event.now.op → KeepsReady clocks.old clocks.new }
    ensures memory { SameMemory clocks.old clocks.new event.now.op }
    ensures limits { SameLimits clocks.old clocks.new }
{
    clocks.advance(event);
    verdict_on_last(clocks, accesses, event)
}

/// Whether each part has room for the thread's operation, and the lists for so many events. There is for each
/// release that was kept room for.
#[inline(always)]
pub(crate) fn ready(parts: &Parts, thread: ThreadId, op: Op, slots: usize) -> bool
    ensures ready { IsTrue result ↔ HasRoomFor parts.now thread op slots }
    ensures release { IsKeptRelease parts.now thread op slots → IsTrue result }
{
    parts.clocks.ready_for(thread, op) && others_ready(parts, thread, op, slots)
}

// The same of each part but the clocks.
#[inline(always)]
fn others_ready(parts: &Parts, thread: ThreadId, op: Op, slots: usize) -> bool
    ensures ready { IsTrue result ↔ HasOtherRoom parts.now thread op slots }
    ensures release { IsKeptRelease parts.now thread op slots → IsTrue result }
{
    if !parts.memory.ready_for(thread, op) {
        return false;
    }
    if !parts.accesses.ready_for(thread, op) {
        return false;
    }
    if !parts.log.has_room(slots) {
        return false;
    }
    parts.verdicts.has_room(slots)
}

/// Makes room in all parts for the thread's operation, and in the lists for so many events, and no more than
/// that. Nothing else changes. Where there is room nothing does, and for a release room was kept.
#[inline(always)]
pub(crate) fn prepare(
    parts: &mut Parts,
    thread: ThreadId,
    op: Op,
    slots: usize,
) -> Result<(), OutOfMemory>
    requires clocks { IsWithin parts.old.clocks thread op }
    requires width { width_of parts.old.clocks ≡ parts.old.accesses.limits.threads }
    requires release { (lock : LockId) → op ≡ Op.Release lock → IsKeptRelease parts.old thread op slots }
    ensures grown { HasGrown parts.old parts.new }
    ensures within { GrownFor parts.old parts.new thread op slots }
    ensures ready { OnOk result (HasRoomFor parts.new thread op slots) }
    ensures again { HasRoomFor parts.old thread op slots → IsOk result × (parts.new ≡ parts.old) }
    ensures release { (lock : LockId) → op ≡ Op.Release lock → IsOk result × (parts.new ≡ parts.old) }
{
    if let Op::Release(_) = op {
        // Asked for its clause alone: there is room.
        let _ready = ready(parts, thread, op, slots);
        return Ok(());
    }
    parts.clocks.prepare_for(thread, op)?;
    if others_ready(parts, thread, op, slots) {
        return Ok(());
    }
    grow_others(parts, thread, op, slots)
}

// Makes the room of each part but the clocks, where one has none.
#[cold]
#[inline(never)]
fn grow_others(parts: &mut Parts, thread: ThreadId, op: Op, slots: usize) -> Result<(), OutOfMemory>
    requires { thread.0 < parts.old.accesses.limits.threads }
    ensures grown { HasGrown parts.old parts.new }
    ensures within { TablesGrownFor parts.old parts.new thread op slots }
    ensures clocks { parts.new.clocks ≡ parts.old.clocks }
    ensures ready { OnOk result (HasOtherRoom parts.new thread op slots) }
{
    parts.memory.prepare_for(thread, op)?;
    parts.accesses.make_room_for(thread, op)?;
    parts.log.reserve(slots)?;
    parts.verdicts.reserve(slots)
}
