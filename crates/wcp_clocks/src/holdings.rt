//! The locks that each thread holds, in the order of their outer acquires.
ghost use Rattle.std.specs.Prelude.{◌≡◌, ℕ, ◌+◌, ◌-◌, ◌<◌, ◌≤◌, ◌↔◌, ◌∷◌, ◌++◌, [], length, OnOk, IsTrue};
ghost use Rattle.std.specs.Prelude.{◌≢◌, ◌*◌, max, vec_capacity, vec_len, IsOk};
ghost use Rattle.event_core.specs.Rows.{with_row};
ghost use Rattle.wcp_laws.specs.Step.{without};
ghost use Rattle.wcp_clocks.specs.HeldLists.{list_at, held_of, room_at, numbers_of, without_lock};
ghost use Rattle.wcp_clocks.specs.HeldLists.{KeepsPlaces, SamePlaces, HaveGrownFor, places_at};

use event_core::{LockId, OutOfMemory, ThreadId, grow_to, reserve};
use std::alloc::Global;
use std::marker::Model;

// The lock is taken out of the list.
fn take_out(locks: &mut Vec<LockId>, lock: LockId)
    ensures locks { locks.new.items ≡ without_lock lock locks.old.items }
    ensures room { vec_capacity locks.old - vec_len locks.old ≤ vec_capacity locks.new - vec_len locks.new }
    ensures memory { vec_capacity locks.new ≡ vec_capacity locks.old }
{
    locks.retain(|held| *held != lock);
}

/// The locks that one thread holds. Contracts see them, and for how many more there is room.
#[derive(Drop)]
pub struct Holding {
    locks: Vec<LockId>,
}

impl Model for Holding {
    ghost use Rattle.std.specs.Prelude.{◌-◌, vec_len, vec_capacity};
    ghost use Rattle.wcp_clocks.specs.HeldLists.{HeldList};

    ghost Value = { HeldList };

    ghost view = { λ h. record { locks = h.locks.items; room = vec_capacity h.locks - vec_len h.locks } };
}

impl Holding {
    ghost use Rattle.std.specs.Prelude.{◌≡◌, ◌+◌, ◌*◌, ◌<◌, ◌≤◌, ◌∷◌, ◌++◌, [], length, max, nat_lt, OnOk};
    ghost use Rattle.wcp_clocks.specs.HeldLists.{nothing_held, without_lock};

    fn new(alloc: Global) -> Holding
        ensures { result ≡ nothing_held }
    {
        Holding {
            locks: Vec::new(alloc),
        }
    }

    fn locks(&self) -> &[LockId]
        ensures { result.now ≡ self.now.locks }
    {
        &self.locks
    }

    // Makes room for one lock more.
    fn prepare(&mut self) -> Result<(), OutOfMemory>
        ensures same { self.new.locks ≡ self.old.locks }
        ensures more { self.old.room ≤ self.new.room }
        ensures room { OnOk result (0 < self.new.room) }
        ensures most { length self.new.locks + self.new.room
            ≤ max (length self.old.locks + self.old.room) (2 * (length self.old.locks + 1)) }
    {
        reserve(&mut self.locks, 1)
    }

    fn ready(&self) -> bool
        ensures { result ≡ nat_lt 0 self.now.room }
    {
        self.locks.len() < self.locks.capacity()
    }

    // One lock more.
    fn add(&mut self, lock: LockId)
        requires { 0 < self.old.room }
        ensures locks { self.new.locks ≡ self.old.locks ++ lock ∷ [] }
        ensures places { length self.new.locks + self.new.room ≡ length self.old.locks + self.old.room }
    {
        self.locks.push_reserved(lock);
    }

    // The lock is no longer held.
    fn remove(&mut self, lock: LockId)
        ensures locks { self.new.locks ≡ without_lock lock self.old.locks }
        ensures room { self.old.room ≤ self.new.room }
        ensures places { length self.new.locks + self.new.room ≡ length self.old.locks + self.old.room }
    {
        take_out(&mut self.locks, lock);
    }
}

/// The locks that each thread holds. There is memory for at most twice as many lists as there are.
#[derive(Drop)]
pub struct Holdings {
    alloc: Global,
    lists: Vec<Holding>,
}

impl Model for Holdings {
    ghost use Rattle.std.specs.Prelude.{◌*◌, ◌≤◌, List, length, vec_capacity};
    ghost use Rattle.wcp_clocks.specs.HeldLists.{HeldList};

    ghost Value = { List HeldList };

    ghost view = { λ h. h.lists.items };

    ghost invariant = { λ h. vec_capacity h.lists ≤ 2 * length h.lists.items };
}

impl Holdings {
    // No thread holds a lock.
    pub(crate) fn new(alloc: Global) -> Holdings
        ensures { result ≡ [] }
    {
        Holdings {
            alloc,
            lists: Vec::new(alloc),
        }
    }

    // The locks that the thread holds.
    pub(crate) fn of(&self, thread: ThreadId) -> &[LockId]
        ensures { result.now ≡ (list_at self.now thread.0).locks }
    {
        let at = thread.0 as usize;
        if self.lists.len() <= at {
            return &[];
        }
        self.lists[at].locks()
    }

    // Makes room for one lock more of the thread.
    #[inline(always)]
    pub(crate) fn prepare(&mut self, thread: ThreadId) -> Result<(), OutOfMemory>
        ensures same { held_of self.new ≡ held_of self.old }
        ensures kept { KeepsPlaces self.old self.new }
        ensures room { OnOk result (0 < room_at self.new thread.0) }
        ensures grown { HaveGrownFor self.old self.new thread.0 }
        ensures again { 0 < room_at self.old thread.0 → IsOk result × (self.new ≡ self.old) }
    {
        if self.ready(thread) {
            return Ok(());
        }
        self.grow(thread)
    }

    // The same, where there is none.
    #[cold]
    #[inline(never)]
    fn grow(&mut self, thread: ThreadId) -> Result<(), OutOfMemory>
        ensures same { held_of self.new ≡ held_of self.old }
        ensures kept { KeepsPlaces self.old self.new }
        ensures room { OnOk result (0 < room_at self.new thread.0) }
        ensures grown { HaveGrownFor self.old self.new thread.0 }
    {
        let at = thread.0 as usize;
        let alloc = self.alloc;
        grow_to(&mut self.lists, at + 1, || Holding::new(alloc))?;
        prepare_at(&mut self.lists, at)
    }

    // Whether there is room for one lock more of the thread.
    pub(crate) fn ready(&self, thread: ThreadId) -> bool
        ensures { IsTrue result ↔ (0 < room_at self.now thread.0) }
    {
        let at = thread.0 as usize;
        at < self.lists.len() && self.lists[at].ready()
    }

    // The thread holds one lock more.
    pub(crate) fn add(&mut self, thread: ThreadId, lock: LockId)
        requires { 0 < room_at self.old thread.0 }
        ensures held { held_of self.new
            ≡ with_row thread.0 (held_of self.old thread.0 ++ lock.0 ∷ []) (held_of self.old) }
        ensures places { SamePlaces self.old self.new }
    {
        add_at(&mut self.lists, thread.0 as usize, lock);
    }

    // The thread no longer holds the lock.
    pub(crate) fn remove(&mut self, thread: ThreadId, lock: LockId)
        ensures held { held_of self.new
            ≡ with_row thread.0 (without lock.0 (held_of self.old thread.0)) (held_of self.old) }
        ensures kept { KeepsPlaces self.old self.new }
        ensures places { SamePlaces self.old self.new }
    {
        remove_at(&mut self.lists, thread.0 as usize, lock);
    }
}

fn prepare_at(lists: &mut [Holding], at: usize) -> Result<(), OutOfMemory>
    requires { at < length lists.old }
    ensures same { held_of lists.new ≡ held_of lists.old }
    ensures kept { KeepsPlaces lists.old lists.new }
    ensures ok { OnOk result (0 < room_at lists.new at) }
    ensures as_many { length lists.new ≡ length lists.old }
    ensures places { places_at lists.new at
        ≤ max (places_at lists.old at) (2 * (length (list_at lists.old at).locks + 1)) }
    ensures others { (u : ℕ) → u ≢ at → list_at lists.new u ≡ list_at lists.old u }
{
    let list = &mut lists[at];
    list.prepare()
}

fn add_at(lists: &mut [Holding], at: usize, lock: LockId)
    requires room { 0 < room_at lists.old at }
    ensures held { held_of lists.new
        ≡ with_row at (held_of lists.old at ++ lock.0 ∷ []) (held_of lists.old) }
    ensures places { SamePlaces lists.old lists.new }
{
    let list = &mut lists[at];
    list.add(lock);
}

fn remove_at(lists: &mut [Holding], at: usize, lock: LockId)
    ensures held { held_of lists.new
        ≡ with_row at (without lock.0 (held_of lists.old at)) (held_of lists.old) }
    ensures kept { KeepsPlaces lists.old lists.new }
    ensures places { SamePlaces lists.old lists.new }
{
    if lists.len() <= at {
        return;
    }
    let list = &mut lists[at];
    list.remove(lock);
}
