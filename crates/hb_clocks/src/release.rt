//! Clocks of releases, kept one after another.
//!
//! A clock is kept whole, as far as it is in use, and what is lent is one of them. So who joins the clock of
//! a release joins one that stood. Each number is that from just before the release, which is one more event
//! of its own thread: so all fit in 32 bits, since a log has at most 2^32 events.
ghost use Rattle.std.specs.Prelude.{◌≡◌, ◌<◌, length};
ghost use Rattle.hb_clocks.specs.Counts.{counts_of};

use crate::before::push_before;
use crate::clock::Clock;
use event_core::{OutOfMemory, ThreadId, reserve};
use std::alloc::Global;
use std::marker::Model;

/// The clocks of releases. A monitor keeps all of its own in one list, which is made with its clocks of
/// happens-before.
#[derive(Drop)]
pub struct ReleaseClocks {
    numbers: Vec<u32>,
}

impl Model for ReleaseClocks {
    ghost use Rattle.std.specs.Prelude.{vec_capacity};
    ghost use Rattle.hb_clocks.specs.Releases.{KeptNumbers};

    ghost Value = { KeptNumbers };

    ghost view = { λ r. record { numbers = r.numbers.items; most = vec_capacity r.numbers } };
}

/// Which of the clocks: from which number on, and how many numbers.
#[derive(Clone, Copy)]
pub struct ReleasePlace {
    width: u32,
    start: usize,
}

impl Model for ReleasePlace {
    ghost use Rattle.hb_clocks.specs.Releases.{Place};

    ghost Value = { Place };

    ghost view = { λ p. record { width = p.width; start = p.start } };

    ghost inverse = { λ p. record { width = p.width; start = p.start } };
}

/// The clock of one release: its thread, and of each thread how many events happened before it. The release
/// is one more event of its own thread. Beyond the numbers each is 0.
///
/// Contracts alone see the numbers. A clock can join them, and nothing else asks for them: a join is counted.
#[derive(Clone, Copy)]
pub struct ReleaseClock<'a> {
    by: ThreadId,
    before: &'a [u32],
    ghost marked: { by.0 < length before.now },
}

impl ReleaseClocks {
    ghost use Rattle.std.specs.Prelude.{◌≡◌, ℕ, ◌+◌, ◌*◌, ◌<◌, ◌≤◌, ◌^◌, [], length, max, OnOk};
    ghost use Rattle.std.specs.Prelude.{IsOk};
    ghost use Rattle.hb_clocks.specs.Counts.{counts_of};
    ghost use Rattle.hb_clocks.specs.Released.{thread_of, before_of};
    ghost use Rattle.hb_clocks.specs.Releases.{before, numbers_at, IsReadable, IsAdded};

    // None are kept. It takes no memory.
    pub(crate) fn new(alloc: Global) -> ReleaseClocks
        ensures { result.numbers ≡ [] }
    {
        ReleaseClocks {
            numbers: Vec::new(alloc),
        }
    }

    /// Makes room for so many numbers more, where there is none. A clock has a number for each thread up to
    /// its width at most. A refused growth is answered by `OutOfMemory`.
    pub fn prepare(&mut self, more: usize) -> Result<(), OutOfMemory>
        ensures same { self.new.numbers ≡ self.old.numbers }
        ensures larger { self.old.most ≤ self.new.most }
        ensures ok { OnOk result (length self.new.numbers + more ≤ self.new.most) }
        ensures most { self.new.most ≤ max self.old.most (2 * (length self.old.numbers + more)) }
        ensures again { length self.old.numbers + more ≤ self.old.most → IsOk result }
    {
        reserve(&mut self.numbers, more)
    }

    /// How many numbers there is memory for.
    pub fn capacity(&self) -> usize
        ensures exact { result ≡ self.now.most }
        ensures bounded { result < 2 ^ 63 }
    {
        self.numbers.capacity()
    }

    /// Keeps the clock of a release by the thread, which it counts, and tells where. Just before it no thread
    /// has 2^32 events.
    pub fn push(&mut self, by: ThreadId, release: &Clock) -> ReleasePlace
        requires room { length self.old.numbers + length release.now ≤ self.old.most }
        requires small { length release.now < 2 ^ 32 }
        requires counted { 0 < counts_of release.now by.0 }
        requires few { (u : ℕ) → before by.0 (counts_of release.now) u < 2 ^ 32 }
        ensures added { IsAdded self.old.numbers self.new.numbers by.0 result (length release.now)
            (counts_of release.now) }
        ensures most { self.old.most ≤ self.new.most }
    {
        let counts = release.counts();
        let start = self.numbers.len();
        push_before(&mut self.numbers, counts, by);
        ReleasePlace {
            width: counts.len() as u32,
            start,
        }
    }

    /// The clock at the place, of a release by the thread.
    #[inline(always)]
    pub fn at(&self, by: ThreadId, place: &ReleasePlace) -> ReleaseClock<'_>
        requires readable { IsReadable self.now.numbers place.now }
        requires marked { by.0 < place.now.width }
        ensures by { thread_of result ≡ by }
        ensures before { before_of result ≡ numbers_at self.now.numbers place.now }
    {
        let numbers = &self.numbers;
        let end = place.start + place.width as usize;
        ReleaseClock {
            by,
            before: &numbers[place.start..end],
        }
    }
}

impl<'a> ReleaseClock<'a> {
    ghost use Rattle.std.specs.Prelude.{◌≡◌, ◌<◌, length};
    ghost use Rattle.hb_clocks.specs.Released.{thread_of, before_of};

    /// The thread whose release it is.
    pub fn by(&self) -> ThreadId
        ensures thread { result ≡ thread_of self.now }
        ensures within { result.0 < length (before_of self.now) }
    {
        self.by
    }

    // Of each thread how many events happened before it, from thread 0 on. Beyond them each number is 0.
    pub(crate) fn counts_before(&self) -> &[u32]
        ensures { result.now ≡ before_of self.now }
    {
        self.before
    }
}
