//! Growth of the tables: only as far as the numbers that are used, and before any change.
ghost use Rattle.std.specs.Prelude.{◌≡◌, ◌+◌, ◌*◌, ℕ, ◌<◌, ◌≤◌, length, max, cond, nat_eq};
ghost use Rattle.std.specs.Prelude.{OnOk, vec_capacity};
ghost use Rattle.smallvec.specs.SmallVec.{HasRoomFor};
ghost use Rattle.traced_mem.specs.Tables.{blank_thread, thread_at, lock_at, total};
ghost use Rattle.traced_mem.specs.Room.{Grown, HasRoom, HeldFor, threads_for, locks_for, cells_for};

use crate::rows::{LockRow, ThreadRow};
use event_core::{Op, OutOfMemory, ThreadId, grow_to, reserve_to};
use smallvec::SmallVec;
use std::alloc::Global;

// Nothing was done to the thread yet.
fn blank_row(alloc: Global) -> ThreadRow
    ensures { result ≡ blank_thread }
{
    ThreadRow {
        forked: false,
        joined: false,
        mentioned: false,
        held: SmallVec::new(alloc),
    }
}

/// Makes so many rows for threads.
pub fn more_threads(
    threads: &mut Vec<ThreadRow>,
    alloc: Global,
    count: usize,
) -> Result<(), OutOfMemory>
    ensures grown { Grown threads.old.items threads.new.items }
    ensures most { length threads.new.items ≤ max (length threads.old.items) count }
    ensures room { vec_capacity threads.new ≤ max (vec_capacity threads.old) (2 * count) }
    ensures held { (u : ℕ) → thread_at threads.new.items u ≡ thread_at threads.old.items u }
    ensures ok { OnOk result (count ≤ length threads.new.items) }
{
    grow_to(threads, count, || blank_row(alloc))
}

/// Makes so many rows for locks.
pub fn more_locks(locks: &mut Vec<LockRow>, count: usize) -> Result<(), OutOfMemory>
    ensures same { lock_at locks.new.items ≡ lock_at locks.old.items }
    ensures sum { total locks.new.items ≡ total locks.old.items }
    ensures more { length locks.old.items ≤ length locks.new.items }
    ensures most { length locks.new.items ≤ max (length locks.old.items) count }
    ensures room { vec_capacity locks.new ≤ max (vec_capacity locks.old) (2 * count) }
    ensures ok { OnOk result (count ≤ length locks.new.items) }
{
    let blank = LockRow {
        by: ThreadId(0),
        depth: 0,
    };
    grow_to(locks, count, || blank)
}

/// Makes place for one more lock that the thread holds.
pub fn more_held(threads: &mut [ThreadRow], thread: usize) -> Result<(), OutOfMemory>
    requires { thread < length threads.old }
    ensures grown { Grown threads.old threads.new }
    ensures same { length threads.new ≡ length threads.old }
    ensures held { (v : ℕ) → (thread_at threads.new v).held.capacity
        ≤ max (thread_at threads.old v).held.capacity
        (2 * cond (nat_eq thread v) (length (thread_at threads.old v).held.items + 1) 0) }
    ensures ok { OnOk result (HasRoomFor (thread_at threads.new thread).held 1) }
{
    let held = &mut threads[thread].held;
    if held.len() == held.capacity() {
        held.reserve_exact(held.len().max(1))?;
    }
    Ok(())
}

// The greatest number of a thread that the caller's operation names.
fn last_thread(caller: ThreadId, op: Op) -> usize
    ensures { result + 1 ≡ threads_for caller op }
{
    match op {
        Op::Fork(child) | Op::Join(child) => caller.0.max(child.0) as usize,
        _ => caller.0 as usize,
    }
}

/// Makes room for the thread's operation. No table means anything else.
pub fn grow(
    threads: &mut Vec<ThreadRow>,
    locks: &mut Vec<LockRow>,
    cells: &mut Vec<u64>,
    alloc: Global,
    caller: ThreadId,
    op: Op,
) -> Result<(), OutOfMemory>
    ensures threads { Grown threads.old.items threads.new.items }
    ensures locks { lock_at locks.new.items ≡ lock_at locks.old.items }
    ensures cells { cells.new.items ≡ cells.old.items }
    ensures total { total locks.new.items ≡ total locks.old.items }
    ensures more_locks { length locks.old.items ≤ length locks.new.items }
    ensures more_cells { vec_capacity cells.old ≤ vec_capacity cells.new }
    ensures most_threads { length threads.new.items ≤ max (length threads.old.items) (threads_for caller op) }
    ensures most_locks { length locks.new.items ≤ max (length locks.old.items) (locks_for op) }
    ensures thread_room { vec_capacity threads.new
        ≤ max (vec_capacity threads.old) (2 * threads_for caller op) }
    ensures lock_room { vec_capacity locks.new ≤ max (vec_capacity locks.old) (2 * locks_for op) }
    ensures cell_room { vec_capacity cells.new ≤ max (vec_capacity cells.old) (2 * cells_for op) }
    ensures held { HeldFor threads.old.items threads.new.items caller op }
    ensures caller { OnOk result (caller.0 < length threads.new.items) }
    ensures room { OnOk result
        (HasRoom threads.new.items (length locks.new.items) (vec_capacity cells.new) caller op) }
{
    more_threads(threads, alloc, last_thread(caller, op) + 1)?;
    grow_for(threads, locks, cells, caller, op)
}

// Makes room for what the operation needs beside rows for threads, which are there.
#[tactic(auto, using(crate::proofs::GrownProperties::grown_none))]
fn grow_for(
    threads: &mut [ThreadRow],
    locks: &mut Vec<LockRow>,
    cells: &mut Vec<u64>,
    caller: ThreadId,
    op: Op,
) -> Result<(), OutOfMemory>
    requires { threads_for caller op ≤ length threads.old }
    ensures threads { Grown threads.old threads.new }
    ensures as_many { length threads.new ≡ length threads.old }
    ensures locks { lock_at locks.new.items ≡ lock_at locks.old.items }
    ensures cells { cells.new.items ≡ cells.old.items }
    ensures total { total locks.new.items ≡ total locks.old.items }
    ensures more_locks { length locks.old.items ≤ length locks.new.items }
    ensures more_cells { vec_capacity cells.old ≤ vec_capacity cells.new }
    ensures most_locks { length locks.new.items ≤ max (length locks.old.items) (locks_for op) }
    ensures lock_room { vec_capacity locks.new ≤ max (vec_capacity locks.old) (2 * locks_for op) }
    ensures cell_room { vec_capacity cells.new ≤ max (vec_capacity cells.old) (2 * cells_for op) }
    ensures held { HeldFor threads.old threads.new caller op }
    ensures room { OnOk result
        (HasRoom threads.new (length locks.new.items) (vec_capacity cells.new) caller op) }
{
    match op {
        // For at most twice as many cells, so that few stores find no room.
        Op::Store(var) => reserve_to(cells, var.0 as usize + 1),
        Op::Release(lock) => more_locks(locks, lock.0 as usize + 1),
        Op::Acquire(lock) => {
            more_locks(locks, lock.0 as usize + 1)?;
            more_held(threads, caller.0 as usize)
        }
        _ => Ok(()),
    }
}
