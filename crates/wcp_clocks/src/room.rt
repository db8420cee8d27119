//! Room for an operation, part by part.
ghost use Rattle.std.specs.Prelude.{◌≡◌, ◌↔◌, IsOk, OnOk, IsTrue};
ghost use Rattle.hb_clocks.specs.Tables as hb;
ghost use Rattle.section_sum.specs.Sums.{LocksGrownFor};
ghost use Rattle.wcp_clocks.specs.HeldLists.{list_at};
ghost use Rattle.wcp_clocks.specs.StrictRows.{IsReady, GrownFor as RowsGrownFor};
ghost use Rattle.wcp_clocks.specs.Parts.{HasPlaces};
ghost use Rattle.wcp_clocks.specs.Growth.{ClocksHaveGrown, SumsHaveGrown, QueuesHaveGrown, HoldsHaveGrown};
ghost use Rattle.wcp_clocks.specs.Growth.{AccessesGrownFor, SectionsGrownFor, HoldsGrownFor};

use crate::holdings::Holdings;
use crate::strict::StrictRows;
use event_core::{Op, OutOfMemory, ThreadId};
use hb_clocks::HbClocks;
use lock_queues::Queues;
use section_sum::Summaries;

// Makes the clocks of the thread and of what the operation names, those of happens-before first.
pub(crate) fn prepare_clocks(
    order: &mut HbClocks,
    rows: &mut StrictRows,
    thread: ThreadId,
    op: Op,
) -> Result<(), OutOfMemory>
    requires { hb.IsWithin order.old.width thread op }
    ensures grown { ClocksHaveGrown order.old order.new rows.old rows.new }
    ensures order { hb.GrownFor order.old order.new thread op }
    ensures rows { RowsGrownFor rows.old rows.new thread op }
    ensures ready { OnOk result (IsReady rows.new thread op) }
{
    order.prepare_for(thread, op)?;
    rows.prepare(thread, op)
}

// Makes room for what the operation needs beside clocks.
#[inline(always)]
pub(crate) fn prepare_places(
    sums: &mut Summaries,
    queues: &mut Queues,
    held: &mut Holdings,
    thread: ThreadId,
    op: Op,
) -> Result<(), OutOfMemory>
    ensures sums { SumsHaveGrown sums.old sums.new }
    ensures queues { QueuesHaveGrown queues.old queues.new }
    ensures held { HoldsHaveGrown held.old held.new }
    ensures accesses { AccessesGrownFor sums.old sums.new (list_at held.old thread.0).locks op }
    ensures locks { LocksGrownFor sums.old sums.new (list_at held.old thread.0).locks }
    ensures sections { SectionsGrownFor queues.old queues.new thread op }
    ensures holds { HoldsGrownFor held.old held.new thread op }
    ensures ready { OnOk result (HasPlaces sums.new queues.new held.new thread op) }
    ensures again { HasPlaces sums.old queues.old held.old thread op
        → IsOk result × (sums.new ≡ sums.old) × (queues.new ≡ queues.old) × (held.new ≡ held.old) }
{
    match op {
        Op::Load(var) | Op::Store(var) => {
            let locks = held.of(thread);
            if locks.is_empty() {
                return Ok(());
            }
            sums.make_room_for(locks, var)
        }
        Op::Acquire(lock) => {
            held.prepare(thread)?;
            queues.make_room(thread, lock)
        }
        Op::Release(_) | Op::Fork(_) | Op::Join(_) => Ok(()),
    }
}

// Whether there is room for what the operation needs beside clocks.
#[inline(always)]
pub(crate) fn places_ready(
    sums: &Summaries,
    queues: &Queues,
    held: &Holdings,
    thread: ThreadId,
    op: Op,
) -> bool
    ensures { IsTrue result ↔ HasPlaces sums.now queues.now held.now thread op }
{
    match op {
        Op::Load(var) | Op::Store(var) => sums.ready(held.of(thread), var),
        Op::Acquire(lock) => queues.ready(thread, lock) && held.ready(thread),
        Op::Release(_) | Op::Fork(_) | Op::Join(_) => true,
    }
}
