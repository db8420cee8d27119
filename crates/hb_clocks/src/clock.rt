//! Vector clocks of a fixed width.
//!
//! A clock keeps beside its numbers how far it is in use, so that a join and a copy go no further
//! than the threads that there are, however many there may be.
ghost use Rattle.std.specs.Prelude.{◌≡◌, ◌+◌, ◌<◌, ◌≤◌, ◌^◌, [], length, max, replicate, slice_set, IfOk};
ghost use Rattle.event_core.specs.Rows.{join, with_row};
ghost use Rattle.hb_clocks.specs.Counts.{counts_of, IsUnusedFrom};
ghost use Rattle.hb_clocks.specs.Released.{before_of, clock_of};

use crate::release::ReleaseClock;
use crate::work::Work;
use event_core::{OutOfMemory, ThreadId};
use std::alloc::Global;
use std::marker::Model;

/// A number for each thread below the clock's width.
#[derive(Drop)]
pub struct Clock {
    counts: Vec<u64>,
    // From this thread on, each number is 0.
    used: usize,
}

impl Model for Clock {
    ghost use Rattle.std.specs.Prelude.{List, ℕ};
    ghost use Rattle.hb_clocks.specs.Counts.{IsUnusedFrom};

    ghost Value = { List ℕ };

    ghost view = { λ c. c.counts.items };

    ghost invariant = { λ c. IsUnusedFrom c.counts.items c.used };
}

impl Clock {
    /// A clock of this width with zeros. It is the only call that takes memory.
    pub fn new(alloc: Global, width: usize) -> Result<Clock, OutOfMemory>
        ensures { IfOk result (λ clock. clock ≡ replicate width 0) }
    {
        let counts = vec![in alloc; 0; width]?;
        Ok(Clock { counts, used: 0 })
    }

    /// The number of a thread.
    pub fn at(&self, thread: ThreadId) -> u64
        requires { thread.0 < length self.now }
        ensures { result ≡ counts_of self.now thread.0 }
    {
        self.counts[thread.0 as usize]
    }

    /// Takes the greater number of each thread. It is one join.
    pub fn join(&mut self, other: &Clock, work: &mut Work)
        requires widths { length self.old ≡ length other.now }
        requires few { work.old.joins < 2 ^ 63 }
        ensures width { length self.new ≡ length self.old }
        ensures greater { counts_of self.new ≡ join (counts_of self.old) (counts_of other.now) }
        ensures work { work.new ≡ record work.old { joins = work.old.joins + 1 } }
    {
        work.add_join();
        self.raise(other.counts());
    }

    // The numbers of the threads in use, from thread 0 on. Beyond them each number is 0.
    pub(crate) fn counts(&self) -> &[u64]
        ensures counts { counts_of result.now ≡ counts_of self.now }
        ensures within { length result.now ≤ length self.now }
    {
        &self.counts[..self.used]
    }

    /// Takes the greater number of each thread from the clock of a release. It is one join.
    pub fn join_release(&mut self, release: &ReleaseClock<'_>, work: &mut Work)
        requires within { length (before_of release.now) ≤ length self.old }
        requires few { work.old.joins < 2 ^ 63 }
        ensures width { length self.new ≡ length self.old }
        ensures greater { counts_of self.new ≡ join (counts_of self.old) (clock_of release.now) }
        ensures work { work.new ≡ record work.old { joins = work.old.joins + 1 } }
    {
        work.add_join();
        let before = release.counts_before();
        let by = release.by();
        self.raise_before(before);
        self.count_release(by, before[by.0 as usize]);
    }

    /// Takes the other clock's numbers.
    pub fn copy_from(&mut self, other: &Clock)
        requires widths { length self.old ≡ length other.now }
        ensures { self.new ≡ other.now }
    {
        copy_counts(&mut self.counts, &other.counts, self.used.max(other.used));
        self.used = other.used;
    }

    // A clock that was not made: it has no numbers, and takes no memory.
    pub(crate) fn unmade(alloc: Global) -> Clock
        ensures { result ≡ [] }
    {
        Clock {
            counts: Vec::new(alloc),
            used: 0,
        }
    }

    // How many threads it has numbers for.
    pub(crate) fn width(&self) -> usize
        ensures { result ≡ length self.now }
    {
        self.counts.len()
    }

    // Takes the greater number of each thread from a list of numbers, beyond which each is 0.
    fn raise(&mut self, counts: &[u64])
        requires within { length counts.now ≤ length self.old }
        ensures width { length self.new ≡ length self.old }
        ensures greater { counts_of self.new ≡ join (counts_of self.old) (counts_of counts.now) }
    {
        take_greater(&mut self.counts, counts);
        self.used = self.used.max(counts.len());
    }

    // The same from a list of short numbers.
    fn raise_before(&mut self, before: &[u32])
        requires within { length before.now ≤ length self.old }
        ensures width { length self.new ≡ length self.old }
        ensures greater { counts_of self.new ≡ join (counts_of self.old) (counts_of before.now) }
    {
        take_greater_of_short(&mut self.counts, before);
        self.used = self.used.max(before.len());
    }

    // Counts a release by the thread, before which the thread has so many events.
    fn count_release(&mut self, by: ThreadId, before: u32)
        requires { by.0 < length self.old }
        ensures width { length self.new ≡ length self.old }
        ensures greater { counts_of self.new ≡ with_row by.0
            (max (counts_of self.old by.0) (before + 1)) (counts_of self.old) }
    {
        let count = before as u64 + 1;
        if self.at(by) < count {
            self.set(by, count);
        }
    }

    // Sets the number of a thread.
    pub(crate) fn set(&mut self, thread: ThreadId, count: u64)
        requires { thread.0 < length self.old }
        ensures { self.new ≡ slice_set self.old thread.0 count }
    {
        let at = thread.0 as usize;
        self.counts[at] = count;
        if self.used <= at {
            self.used = at + 1;
        }
    }
}

// The greater of both numbers, as far as the others go: beyond, they are 0. In the loop both lists are of one
// length, so that no place is tested, and it goes over several numbers at a time. The write is unconditional:
// a branch in its place costs five to ten times as much.
fn take_greater(mine: &mut [u64], theirs: &[u64])
    requires within { length theirs.now ≤ length mine.old }
    ensures { counts_of mine.new ≡ join (counts_of mine.old) (counts_of theirs.now) }
{
    let mine = &mut mine[..theirs.len()];
    for u in 0..theirs.len() {
        mine[u] = mine[u].max(theirs[u]);
    }
}

// The same from short numbers.
fn take_greater_of_short(mine: &mut [u64], theirs: &[u32])
    requires within { length theirs.now ≤ length mine.old }
    ensures { counts_of mine.new ≡ join (counts_of mine.old) (counts_of theirs.now) }
{
    let mine = &mut mine[..theirs.len()];
    for u in 0..theirs.len() {
        mine[u] = mine[u].max(theirs[u] as u64);
    }
}

// The numbers of the threads in use, beyond which both have zeros.
fn copy_counts(mine: &mut [u64], theirs: &[u64], used: usize)
    requires widths { length mine.old ≡ length theirs.now }
    requires mine { IsUnusedFrom mine.old used }
    requires theirs { IsUnusedFrom theirs.now used }
    ensures { mine.new ≡ theirs.now }
{
    mine[..used].copy_from_slice(&theirs[..used]);
}
