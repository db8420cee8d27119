//! The last accesses of one kind to a variable, thread by thread. Most variables are accessed by one thread
//! alone, or by one until a store by another: so the first of them stands in the variable's own record, and
//! takes no memory beside it.
ghost use Rattle.std.specs.Prelude.{◌≡◌, ◌<◌, ◌-◌, ◌||◌, length, nat_lt, vec_len, vec_capacity, IsTrue};
ghost use Rattle.std.specs.List.{list_any, position};
ghost use Rattle.hb_clocks.specs.Counts.{counts_of};
ghost use Rattle.access_check.specs.LastAccesses.{is_of, later, racing, latest_from, put, AreNarrow};

use crate::packed::PackedAccess;
use event_core::{OutOfMemory, ThreadId, reserve};
use hb_clocks::VectorTime;
use std::alloc::Global;
use std::marker::Model;

/// An access: its index in the log, and its position among its thread's events, from 1.
#[derive(Clone, Copy, Debug, PartialEq, Eq)]
pub struct Access {
    pub index: u64,
    pub position: u64,
}

/// The last access of one kind by the thread.
#[derive(Clone, Copy, Debug, PartialEq, Eq)]
pub struct LastAccess {
    pub thread: ThreadId,
    pub access: Access,
}

/// The greater index.
pub fn greater(first: Option<u64>, second: Option<u64>) -> Option<u64>
    ensures { result ≡ later first second }
{
    match (first, second) {
        (None, other) => other,
        (other, None) => other,
        (Some(one), Some(two)) => Some(if one < two { two } else { one }),
    }
}

// The access's index, where it is of another thread, and the clock does not count it.
#[inline(always)]
fn racing_index<T: VectorTime>(last: &PackedAccess, thread: ThreadId, clock: &T) -> Option<u64>
    requires { last.now.thread.0 < length (T.numbers clock.now) }
    ensures { result ≡ racing thread (counts_of (T.numbers clock.now)) last.now }
{
    if last.thread() == thread {
        return None;
    }
    if clock.at(last.thread()) <= last.before() {
        return Some(last.index());
    }
    None
}

// The greater of the index that was found before and that of the access, where it races.
#[tactic(auto, using(crate::proofs::LatestRacingProperties::later_none))]
fn with_racing<T: VectorTime>(
    found: Option<u64>,
    last: &PackedAccess,
    thread: ThreadId,
    clock: &T,
) -> Option<u64>
    requires { last.now.thread.0 < length (T.numbers clock.now) }
    ensures { result ≡ later found (racing thread (counts_of (T.numbers clock.now)) last.now) }
{
    // Mostly none races.
    match racing_index(last, thread, clock) {
        None => found,
        index => greater(found, index),
    }
}

// The latest racing access of all, and of the one that was found before.
#[inline(never)]
fn latest_racing<T: VectorTime>(
    before: Option<u64>,
    lasts: &[PackedAccess],
    thread: ThreadId,
    clock: &T,
) -> Option<u64>
    requires { AreNarrow (length (T.numbers clock.now)) lasts.now }
    ensures { result ≡ latest_from before thread (counts_of (T.numbers clock.now)) lasts.now }
{
    let mut found = before;
    for last in lasts {
        found = with_racing(found, last, thread, clock);
    }
    found
}

// Where the thread's last access stands, if there is one.
fn find(lasts: &[PackedAccess], thread: ThreadId) -> Option<usize>
    ensures { result ≡ position (is_of thread) lasts.now }
{
    lasts.iter().position(|last| last.thread() == thread)
}

// Whether there is an access by the thread.
fn has(lasts: &[PackedAccess], thread: ThreadId) -> bool
    ensures { result ≡ list_any (is_of thread) lasts.now }
{
    lasts.iter().any(|last| last.thread() == thread)
}

// Whether there is a place for the thread's access, or memory for one more.
fn has_place(lasts: &Vec<PackedAccess>, thread: ThreadId) -> bool
    ensures { result ≡ (list_any (is_of thread) lasts.now.items
        || nat_lt 0 (vec_capacity lasts.now - vec_len lasts.now)) }
{
    lasts.len() < lasts.capacity() || has(lasts, thread)
}

// The access is its thread's last one.
fn put(lasts: &mut Vec<PackedAccess>, last: PackedAccess)
    requires { IsTrue (list_any (is_of last.thread) lasts.old.items
        || nat_lt 0 (vec_capacity lasts.old - vec_len lasts.old)) }
    ensures items { lasts.new.items ≡ put last lasts.old.items }
    ensures memory { vec_capacity lasts.new ≡ vec_capacity lasts.old }
{
    match find(lasts, last.thread()) {
        Some(at) => lasts[at] = last,
        None => lasts.push_reserved(last),
    }
}

/// The last accesses of one kind. Contracts see them, and for how many more threads there is room.
#[derive(Drop)]
pub struct LastAccesses {
    first: Option<PackedAccess>,
    // Those of further threads.
    rest: Vec<PackedAccess>,
}

impl Model for LastAccesses {
    ghost use Rattle.std.specs.Prelude.{◌-◌, vec_len, vec_capacity};
    ghost use Rattle.access_check.specs.LastAccesses.{LastList, FollowFirst, items_of, room_of};

    ghost Value = { LastList };

    ghost view = { λ l. record {
      items = items_of l.first l.rest.items;
      room = room_of l.first (vec_capacity l.rest - vec_len l.rest);
      reserved = vec_capacity l.rest;
    } };

    ghost invariant = { λ l. FollowFirst l.first l.rest.items };
}

impl LastAccesses {
    ghost use Rattle.std.specs.Prelude.{◌≡◌, ◌+◌, ◌*◌, ◌≤◌, [], length, max, IsTrue, IsOk, OnOk};
    ghost use Rattle.event_core.specs.declared.ids.ThreadId.{ThreadId};
    ghost use Rattle.hb_clocks.specs.Counts.{counts_of};
    ghost use Rattle.access_check.specs.LastAccesses.{latest, put, is_ready, no_last_accesses};
    ghost use Rattle.access_check.specs.LastAccesses.{AreNarrow, IsPackable};

    /// There was no access. There is room for one thread.
    pub fn new(alloc: Global) -> LastAccesses
        ensures { result ≡ no_last_accesses }
    {
        LastAccesses {
            first: None,
            rest: Vec::new(alloc),
        }
    }

    /// Makes room for an access by the thread.
    pub fn prepare(&mut self, thread: ThreadId) -> Result<(), OutOfMemory>
        ensures same { self.new.items ≡ self.old.items }
        ensures more { (t : ThreadId) → IsTrue (is_ready t self.old) → IsTrue (is_ready t self.new) }
        ensures room { OnOk result (IsTrue (is_ready thread self.new)) }
        ensures most { self.new.reserved ≤ max self.old.reserved (2 * (length self.old.items + 1)) }
        ensures again { IsTrue (is_ready thread self.old) → IsOk result }
    {
        if self.ready(thread) {
            return Ok(());
        }
        reserve(&mut self.rest, 1)
    }

    /// Whether there is room for an access by the thread.
    #[inline(always)]
    pub fn ready(&self, thread: ThreadId) -> bool
        ensures { result ≡ is_ready thread self.now }
    {
        match &self.first {
            None => true,
            Some(first) => first.thread() == thread || has_place(&self.rest, thread),
        }
    }

    /// The access is its thread's last one. There is room for the thread's next one.
    #[inline(always)]
    pub fn note(&mut self, last: LastAccess)
        requires packable { IsPackable last }
        requires room { IsTrue (is_ready last.thread self.old) }
        ensures items { self.new.items ≡ put last self.old.items }
        ensures room { IsTrue (is_ready last.thread self.new) }
        ensures memory { self.new.reserved ≡ self.old.reserved }
    {
        self.put(PackedAccess::new(last));
    }

    #[inline(always)]
    fn put(&mut self, last: PackedAccess)
        requires { IsTrue (is_ready last.thread self.old) }
        ensures items { self.new.items ≡ put last self.old.items }
        ensures memory { self.new.reserved ≡ self.old.reserved }
    {
        match &self.first {
            Some(first) if first.thread() != last.thread() => put(&mut self.rest, last),
            _ => self.first = Some(last),
        }
    }

    /// Forgets all accesses, and keeps the room for each thread that had some.
    #[inline(always)]
    pub fn clear(&mut self)
        ensures items { self.new.items ≡ [] }
        ensures kept { (t : ThreadId) → IsTrue (is_ready t self.old) → IsTrue (is_ready t self.new) }
        ensures memory { self.new.reserved ≡ self.old.reserved }
    {
        self.first = None;
        self.rest.clear();
    }

    /// The greatest index of an access that races with one by the thread.
    #[inline(always)]
    pub fn latest_racing<T: VectorTime>(&self, thread: ThreadId, clock: &T) -> Option<u64>
        requires { AreNarrow (length (T.numbers clock.now)) self.now.items }
        ensures { result ≡ latest thread (counts_of (T.numbers clock.now)) self.now.items }
    {
        let Some(first) = &self.first else {
            return None;
        };
        let found = racing_index(first, thread, clock);
        if self.rest.is_empty() {
            return found;
        }
        latest_racing(found, &self.rest, thread, clock)
    }
}
