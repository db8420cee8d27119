//! The rows of the tables, and what one event changes in one row.
ghost use Rattle.std.specs.Prelude.{◌≡◌, ℕ, ◌+◌, ◌<◌, ◌≤◌, ◌^◌, length, max, nat_eq, vec_capacity, true};
ghost use Rattle.std.specs.Prelude.{◌||◌};
ghost use Rattle.std.specs.List.{position};
ghost use Rattle.smallvec.specs.SmallVec.{HasRoomFor};
ghost use Rattle.event_core.specs.declared.ids.LockId.{LockId};
ghost use Rattle.traced_mem.specs.After.{
  updated,
  gains,
  loses,
  without,
  deeper,
  shallower,
};
ghost use Rattle.traced_mem.specs.Tables.{
  threads_of,
  locks_of,
  cells_of,
  thread_at,
  lock_at,
  total,
  HeldBelow,
};

use event_core::{LockId, ThreadId};
use smallvec::SmallVec;

/// What was done to a thread, and the locks that it holds, in the order of their outer acquires.
#[derive(Drop)]
pub struct ThreadRow {
    pub forked: bool,
    pub joined: bool,
    pub mentioned: bool,
    pub held: SmallVec<LockId, 4>,
}

/// A lock is free at depth 0. Else `by` holds it, and has acquired it `depth` times more than released.
/// Each hold keeps a slot of the log beside its own event's, and a log has at most 2^32, so that a depth
/// is below 2^32.
#[derive(Clone, Copy)]
pub struct LockRow {
    pub by: ThreadId,
    pub depth: u32,
}

/// The thread has to do with an event, which forks it or joins it where these say so.
#[inline(always)]
pub fn mention(threads: &mut [ThreadRow], thread: usize, forked: bool, joined: bool)
    requires { thread < length threads.old }
    ensures rows { threads_of threads.new ≡ updated thread (record (threads_of threads.old thread) {
      forked = forked || (threads_of threads.old thread).forked;
      joined = joined || (threads_of threads.old thread).joined;
      mentioned = true;
    }) (threads_of threads.old) }
    ensures same { length threads.new ≡ length threads.old }
    ensures room { (u : ℕ) → (thread_at threads.new u).held ≡ (thread_at threads.old u).held }
{
    let row = &mut threads[thread];
    row.forked = forked || row.forked;
    row.joined = joined || row.joined;
    row.mentioned = true;
}

/// The thread holds the lock too, if it had depth 0 before.
pub fn gain(threads: &mut [ThreadRow], thread: usize, lock: LockId, before: u32)
    requires within { thread < length threads.old }
    requires room { HasRoomFor (thread_at threads.old thread).held 1 }
    ensures rows { threads_of threads.new
        ≡ updated thread (gains lock before (threads_of threads.old thread)) (threads_of threads.old) }
    ensures same { length threads.new ≡ length threads.old }
    ensures capacity { (u : ℕ)
        → (thread_at threads.new u).held.capacity ≡ (thread_at threads.old u).held.capacity }
{
    let row = &mut threads[thread];
    if before == 0 {
        row.held.push_reserved(lock);
    }
}

/// The thread no longer holds the lock, if its depth is 0 now.
pub fn lose(threads: &mut [ThreadRow], thread: usize, lock: LockId, left: u32)
    requires { thread < length threads.old }
    ensures rows { threads_of threads.new
        ≡ updated thread (loses lock left (threads_of threads.old thread)) (threads_of threads.old) }
    ensures same { length threads.new ≡ length threads.old }
    ensures capacity { (u : ℕ)
        → (thread_at threads.new u).held.capacity ≡ (thread_at threads.old u).held.capacity }
{
    let row = &mut threads[thread];
    if left == 0 {
        remove_lock(&mut row.held, lock);
    }
}

/// Takes the lock out of the list.
fn remove_lock(held: &mut SmallVec<LockId, 4>, lock: LockId)
    ensures items { held.new.items ≡ without lock held.old.items }
    ensures capacity { held.new.capacity ≡ held.old.capacity }
{
    if let Some(at) = position_of(held.as_slice(), lock) {
        let _ = held.remove(at);
    }
}

/// Where the lock stands first.
fn position_of(held: &[LockId], lock: LockId) -> Option<usize>
    ensures { result ≡ position (λ (other : LockId). nat_eq other.0 lock.0) held.now }
{
    held.iter().position(|other| other.0 == lock.0)
}

/// The thread has acquired the lock once more.
pub fn deepen(locks: &mut [LockRow], lock: usize, by: ThreadId)
    requires within { lock < length locks.old }
    requires few { (lock_at locks.old lock).depth + 1 < 2 ^ 32 }
    ensures rows { locks_of locks.new
        ≡ updated lock (deeper by (locks_of locks.old lock)) (locks_of locks.old) }
    ensures same { length locks.new ≡ length locks.old }
    ensures sum { total locks.new ≡ total locks.old + 1 }
    ensures below { (n : ℕ) → HeldBelow n locks.old → by.0 < n → HeldBelow n locks.new }
{
    let row = &mut locks[lock];
    row.by = by;
    row.depth += 1;
}

/// The lock's holder has released it once more.
pub fn lessen(locks: &mut [LockRow], lock: usize)
    requires within { lock < length locks.old }
    requires held { 0 < (lock_at locks.old lock).depth }
    ensures rows { locks_of locks.new
        ≡ updated lock (shallower (locks_of locks.old lock)) (locks_of locks.old) }
    ensures same { length locks.new ≡ length locks.old }
    ensures sum { total locks.new + 1 ≡ total locks.old }
    ensures below { (n : ℕ) → HeldBelow n locks.old → HeldBelow n locks.new }
{
    let row = &mut locks[lock];
    row.depth -= 1;
}

/// The variable has the value. It takes no memory.
#[inline(always)]
pub fn write(cells: &mut Vec<u64>, cell: usize, value: u64)
    requires { cell < vec_capacity cells.old }
    ensures rows { cells_of cells.new.items ≡ updated cell value (cells_of cells.old.items) }
    ensures room { vec_capacity cells.new ≡ vec_capacity cells.old }
    ensures most { length cells.new.items ≤ max (length cells.old.items) (cell + 1) }
{
    lengthen(cells, cell);
    cells[cell] = value;
}

// The list reaches to the cell.
#[inline(always)]
fn lengthen(cells: &mut Vec<u64>, cell: usize)
    requires { cell < vec_capacity cells.old }
    ensures same { cells_of cells.new.items ≡ cells_of cells.old.items }
    ensures room { vec_capacity cells.new ≡ vec_capacity cells.old }
    ensures most { length cells.new.items ≤ max (length cells.old.items) (cell + 1) }
    ensures there { cell < length cells.new.items }
{
    'growing: while cells.len() <= cell {
        cells.push_reserved(0);
    }
}
