//! The step of an event on the tables: what is brought to its thread's clocks, the event itself, and
//! what it hands on.
ghost use Rattle.std.specs.Prelude.{◌≡◌, ◌+◌, ◌<◌, ◌^◌, length};
ghost use Rattle.event_core.specs.Rows.{join, with_row, brought, to_child, to_lock};
ghost use Rattle.hb_clocks.specs.Holds.{effect_by, holds_after, HasHold};
ghost use Rattle.hb_clocks.specs.State.{without_locks, joins_of, after, effect};
ghost use Rattle.hb_clocks.specs.Work.{more_joins};
ghost use Rattle.hb_clocks.specs.Standing.{Admits, IsApart, IsFew};
ghost use Rattle.hb_clocks.specs.Tables.{hb_rows, state_from, HasThread, HasClocks};
ghost use Rattle.hb_clocks.specs.Rows.{rows_of, widths_of};

use crate::clock::Clock;
use crate::holds::{Hold, count_depth};
use crate::rows::{bump_row, copy_row, copy_rows, join_row, join_rows};
use crate::work::Work;
use event_core::{Event, Op, ThreadId};

// An outer acquire takes the clock of the lock's latest outer release, and a join the clocks of the
// thread that it names.
#[inline(always)]
fn take(
    po: &mut [Clock],
    hb: &mut [Clock],
    locks: &[Clock],
    thread: ThreadId,
    op: Op,
    outer: bool,
    work: &mut Work,
)
    requires thread { HasThread (widths_of po.old thread.0) po.old hb.old thread.0 }
    requires clocks { HasClocks (widths_of po.old thread.0) po.old hb.old locks.now op }
    requires apart { IsApart thread op }
    requires few { work.old.joins < 2 ^ 62 }
    ensures po { rows_of po.new ≡ with_row thread.0
        (join (rows_of po.old thread.0) (brought (effect_by op outer) (without_locks (rows_of po.old))))
        (rows_of po.old) }
    ensures hb { rows_of hb.new ≡ with_row thread.0
        (join (rows_of hb.old thread.0) (brought (effect_by op outer) (hb_rows hb.old locks.now)))
        (rows_of hb.old) }
    ensures po_widths { widths_of po.new ≡ widths_of po.old }
    ensures hb_widths { widths_of hb.new ≡ widths_of hb.old }
    ensures work { work.new ≡ more_joins (joins_of (effect_by op outer)) work.old }
{
    let at = thread.0 as usize;
    match op {
        Op::Acquire(lock) => {
            if outer {
                join_row(hb, at, &locks[lock.0 as usize], work);
            }
        }
        Op::Join(child) => {
            let from = child.0 as usize;
            join_rows(po, at, from, work);
            join_rows(hb, at, from, work);
        }
        _ => {}
    }
}

// A fork gives its thread's clocks to the child, and an outer release leaves its clock at the lock.
#[inline(always)]
fn give(
    po: &mut [Clock],
    hb: &mut [Clock],
    locks: &mut [Clock],
    thread: ThreadId,
    op: Op,
    outer: bool,
)
    requires thread { HasThread (widths_of po.old thread.0) po.old hb.old thread.0 }
    requires clocks { HasClocks (widths_of po.old thread.0) po.old hb.old locks.old op }
    requires apart { IsApart thread op }
    ensures po { rows_of po.new ≡ to_child (effect_by op outer) (rows_of po.old thread.0) (rows_of po.old) }
    ensures hb { rows_of hb.new ≡ to_child (effect_by op outer) (rows_of hb.old thread.0) (rows_of hb.old) }
    ensures lock { rows_of locks.new
        ≡ to_lock (effect_by op outer) (rows_of hb.old thread.0) (rows_of locks.old) }
    ensures po_widths { widths_of po.new ≡ widths_of po.old }
    ensures hb_widths { widths_of hb.new ≡ widths_of hb.old }
    ensures lock_widths { widths_of locks.new ≡ widths_of locks.old }
{
    let at = thread.0 as usize;
    match op {
        Op::Release(lock) => {
            if outer {
                copy_row(locks, lock.0 as usize, &hb[at]);
            }
        }
        Op::Fork(child) => {
            let to = child.0 as usize;
            copy_rows(po, to, at);
            copy_rows(hb, to, at);
        }
        _ => {}
    }
}

// The step of an event.
#[inline(always)]
pub(crate) fn advance_tables(
    po: &mut [Clock],
    hb: &mut [Clock],
    locks: &mut [Clock],
    holds: &mut [Hold],
    event: &Event,
    work: &mut Work,
)
    requires thread { HasThread (widths_of po.old event.now.thread.0) po.old hb.old event.now.thread.0 }
    requires clocks { HasClocks (widths_of po.old event.now.thread.0) po.old hb.old locks.old event.now.op }
    requires hold { HasHold (length holds.old) event.now.op }
    requires admits { Admits (state_from po.old hb.old locks.old holds.old) event.now.thread event.now.op }
    requires few { IsFew (state_from po.old hb.old locks.old holds.old) }
    requires work { work.old.joins < 2 ^ 62 }
    ensures exact { state_from po.new hb.new locks.new holds.new ≡ after event.now
        (state_from po.old hb.old locks.old holds.old) }
    ensures holds { holds.new ≡ holds_after event.now.thread.0 event.now.op holds.old }
    ensures po_widths { widths_of po.new ≡ widths_of po.old }
    ensures hb_widths { widths_of hb.new ≡ widths_of hb.old }
    ensures lock_widths { widths_of locks.new ≡ widths_of locks.old }
    ensures work { work.new
        ≡ more_joins (joins_of (effect event.now (state_from po.old hb.old locks.old holds.old))) work.old }
{
    let outer = count_depth(holds, event.thread, event.op);
    take(po, hb, locks, event.thread, event.op, outer, work);
    bump_row(po, event.thread);
    bump_row(hb, event.thread);
    give(po, hb, locks, event.thread, event.op, outer);
}
