//! What is kept of all locks. A lock of which nothing is kept saw no access.
ghost use Rattle.std.specs.Prelude.{◌≡◌, ℕ, length, true};
ghost use Rattle.section_sum.specs.LockSums.{AreKept, IsFitted};
ghost use Rattle.section_sum.specs.Entries.{entries_of, sources_on, IsAlone};
ghost use Rattle.section_sum.specs.Sums.{is_held};
ghost use Rattle.section_sum.specs.Locks.{HaveNoted, HaveClosed};
ghost use Rattle.section_sum.specs.Sources.{left};

use crate::cell::sources;
use crate::cells::Cells;
use crate::lock::Lock;
use crate::sources::Sources;
use event_core::{AccessKind, LockId, ThreadId, VarId};

/// Whether accesses to the variable need no memory under the lock.
pub fn ready_under(cells: &Cells, locks: &[Lock], lock: LockId, var: VarId) -> bool
    requires kept { AreKept cells.now locks.now }
    ensures { result ≡ (entries_of cells.now locks.now lock.0).ready var.0 }
{
    let at = lock.0 as usize;
    at < locks.len() && locks[at].find(cells, lock, var).is_some()
}

/// The access is noted under each of the locks.
#[inline(always)]
pub fn note_held(
    cells: &mut Cells,
    locks: &mut Vec<Lock>,
    thread: ThreadId,
    held: &[LockId],
    var: VarId,
    kind: AccessKind,
)
    requires kept { AreKept cells.old locks.old.items }
    requires ready { (l : ℕ) → is_held held.now l ≡ true
        → (entries_of cells.old locks.old.items l).ready var.0 ≡ true }
    requires alone { (l : ℕ) → is_held held.now l ≡ true
        → IsAlone (entries_of cells.old locks.old.items l) thread.0 }
    ensures kept { AreKept cells.new locks.new.items }
    ensures noted { HaveNoted thread.0 held.now var.0 kind (entries_of cells.old locks.old.items)
        (entries_of cells.new locks.new.items) }
    ensures places { cells.new.places ≡ cells.old.places }
    ensures count { length locks.new.items ≡ length locks.old.items }
    ensures fitted { IsFitted locks.old → IsFitted locks.new }
{
    for lock in held {
        let kept = &mut locks[lock.0 as usize];
        kept.note(cells, thread, *lock, var, kind);
    }
}

/// The thread's section on the lock with the number ends.
pub fn close_under(
    cells: &mut Cells,
    locks: &mut Vec<Lock>,
    thread: ThreadId,
    lock: LockId,
    number: u32,
)
    requires kept { AreKept cells.old locks.old.items }
    ensures kept { AreKept cells.new locks.new.items }
    ensures closed { HaveClosed thread.0 lock.0 number (entries_of cells.old locks.old.items)
        (entries_of cells.new locks.new.items) }
    ensures places { cells.new.places ≡ cells.old.places }
    ensures count { length locks.new.items ≡ length locks.old.items }
    ensures fitted { IsFitted locks.old → IsFitted locks.new }
{
    let at = lock.0 as usize;
    if at < locks.len() {
        let kept = &mut locks[at];
        if kept.by() == thread {
            kept.close(cells, lock, number);
        }
    }
}

/// The sections that such an access meets under the lock.
#[inline(always)]
pub fn sources_under(
    cells: &Cells,
    locks: &[Lock],
    thread: ThreadId,
    lock: LockId,
    var: VarId,
    kind: AccessKind,
) -> Sources
    requires kept { AreKept cells.now locks.now }
    ensures { left result ≡ sources_on (entries_of cells.now locks.now lock.0) var.0 kind thread.0 }
{
    let at = lock.0 as usize;
    if at >= locks.len() {
        return Sources::none();
    }
    let Some(found) = locks[at].find(cells, lock, var) else {
        return Sources::none();
    };
    sources(cells.get(found), thread, kind)
}
