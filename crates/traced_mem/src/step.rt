//! One accepted event, on all tables.
ghost use Rattle.std.specs.Prelude.{◌≡◌, ℕ, ◌<◌, ◌≤◌, length, max, vec_capacity};
ghost use Rattle.traced_mem.specs.After.{
  updated,
  mentioned_again,
  threads_after,
  locks_after,
  cells_after,
  holds_after,
};
ghost use Rattle.traced_mem.specs.Tables.{threads_of, locks_of, cells_of, thread_at, total, HeldBelow};
ghost use Rattle.traced_mem.specs.Room.{HasRoom, DepthFits, cells_for};

use crate::rows::{LockRow, ThreadRow, deepen, gain, lessen, lose, mention, write};
use event_core::{Call, Op};

/// The call's step, on the tables. They have room for it.
#[inline(always)]
pub fn apply_rows(
    threads: &mut [ThreadRow],
    locks: &mut [LockRow],
    cells: &mut Vec<u64>,
    call: &Call,
)
    requires caller { call.now.thread.0 < length threads.old }
    requires room { HasRoom threads.old (length locks.old) (vec_capacity cells.old) call.now.thread
        call.now.op }
    requires fits { DepthFits locks.old call.now.op }
    ensures threads { threads_of threads.new
        ≡ threads_after call.now.thread call.now.op (locks_of locks.old)
        (updated call.now.thread.0 (mentioned_again (threads_of threads.old call.now.thread.0))
        (threads_of threads.old)) }
    ensures locks { locks_of locks.new ≡ locks_after call.now.thread call.now.op (locks_of locks.old) }
    ensures cells { cells_of cells.new.items
        ≡ cells_after call.now.op call.now.arg (cells_of cells.old.items) }
    ensures same_threads { length threads.new ≡ length threads.old }
    ensures same_locks { length locks.new ≡ length locks.old }
    ensures same_cells { vec_capacity cells.new ≡ vec_capacity cells.old }
    ensures most_cells { length cells.new.items ≤ max (length cells.old.items) (cells_for call.now.op) }
    ensures same_room { (u : ℕ)
        → (thread_at threads.new u).held.capacity ≡ (thread_at threads.old u).held.capacity }
    ensures total { total locks.new ≡ holds_after call.now.op (total locks.old) }
    ensures below { HeldBelow (length threads.old) locks.old → HeldBelow (length threads.new) locks.new }
{
    let thread = call.thread.0 as usize;
    mention(threads, thread, false, false);
    match call.op {
        Op::Load(_) => {}
        Op::Store(var) => write(cells, var.0 as usize, call.arg),
        Op::Acquire(lock) => {
            let at = lock.0 as usize;
            let before = locks[at].depth;
            gain(threads, thread, lock, before);
            deepen(locks, at, call.thread);
        }
        Op::Release(lock) => {
            let at = lock.0 as usize;
            let left = locks[at].depth - 1;
            lose(threads, thread, lock, left);
            lessen(locks, at);
        }
        Op::Fork(child) => mention(threads, child.0 as usize, true, false),
        Op::Join(child) => mention(threads, child.0 as usize, false, true),
    }
}
