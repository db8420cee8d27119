//! What is asked of a memory: values, holders, depths, and the locks of a thread.
ghost use Rattle.std.specs.Prelude.{◌≡◌, ◌≤◌, List, length};
ghost use Rattle.event_core.specs.declared.events.Event.{Event};
ghost use Rattle.event_core.specs.Refusal.{last_value, lock_depth, open_acquires, holder as holder_of};
ghost use Rattle.traced_mem.specs.Tables.{meaning};
ghost use Rattle.traced_mem.specs.Standing.{StandsFor};
ghost use Rattle.traced_mem.specs.Held.{AreHeld};

use crate::memory::Memory;
use event_core::{LockId, ThreadId, VarId};

impl Memory {
    /// How many events there were.
    pub fn len(&self) -> u64
        ensures means { result ≡ (meaning self.now).length }
        ensures count { (log : List Event) → StandsFor log self.now → result ≡ length log }
    {
        self.length
    }

    /// The value of the variable's last store, and 0 before any.
    #[inline(always)]
    pub fn value(&self, var: VarId) -> u64
        ensures means { result ≡ (meaning self.now).cell var.0 }
        ensures last { (log : List Event) → StandsFor log self.now → result ≡ last_value log var }
    {
        self.find_value(var)
    }

    /// Who holds the lock, if anyone does.
    pub fn holder(&self, lock: LockId) -> Option<ThreadId>
        ensures means { result ≡ ((meaning self.now).lock lock.0).holder }
        ensures holds { (log : List Event) → StandsFor log self.now → result ≡ holder_of log lock }
    {
        self.find_holder(lock)
    }

    /// How many times its holder has acquired the lock and not released it: 0 where nobody holds it.
    pub fn depth(&self, lock: LockId) -> u64
        ensures means { result ≡ ((meaning self.now).lock lock.0).depth }
        ensures depth { (log : List Event) → StandsFor log self.now → result ≡ lock_depth log lock }
    {
        self.find_depth(lock)
    }

    /// How many acquires are still to be released: so many slots of a log are kept.
    #[inline(always)]
    pub fn holds(&self) -> u64
        ensures means { result ≡ (meaning self.now).holds }
        ensures few { result ≤ self.now.limits.events }
        ensures open { (log : List Event) → StandsFor log self.now → result ≡ open_acquires log }
    {
        self.holds
    }

    /// The locks that the thread holds, in the order of their outer acquires.
    pub fn held(&self, thread: ThreadId) -> &[LockId]
        ensures means { result.now ≡ ((meaning self.now).thread thread.0).held }
        ensures held { (log : List Event) → StandsFor log self.now → AreHeld log thread result.now }
    {
        self.find_held(thread)
    }

    #[inline(always)]
    fn find_value(&self, var: VarId) -> u64
        ensures { result ≡ (meaning self.now).cell var.0 }
    {
        let at = var.0 as usize;
        if at < self.cells.len() {
            self.cells[at]
        } else {
            0
        }
    }

    fn find_holder(&self, lock: LockId) -> Option<ThreadId>
        ensures { result ≡ ((meaning self.now).lock lock.0).holder }
    {
        let at = lock.0 as usize;
        if at < self.locks.len() {
            let row = self.locks[at];
            if 0 < row.depth { Some(row.by) } else { None }
        } else {
            None
        }
    }

    fn find_depth(&self, lock: LockId) -> u64
        ensures { result ≡ ((meaning self.now).lock lock.0).depth }
    {
        let at = lock.0 as usize;
        if at < self.locks.len() {
            let row = self.locks[at];
            row.depth as u64
        } else {
            0
        }
    }

    fn find_held(&self, thread: ThreadId) -> &[LockId]
        ensures { result.now ≡ ((meaning self.now).thread thread.0).held }
    {
        let at = thread.0 as usize;
        if at < self.threads.len() {
            self.threads[at].held.as_slice()
        } else {
            &[]
        }
    }
}
