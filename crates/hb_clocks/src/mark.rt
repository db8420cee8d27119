//! Marks: an event by its thread and its position, which a clock counts or not (the epochs of
//! FastTrack).
ghost use Rattle.std.specs.Prelude.{◌≡◌, ◌+◌, ◌<◌, ◌^◌, ◌≤◌, ◌↔◌, length, IsTrue};
ghost use Rattle.hb_clocks.specs.Counts.{counts_of};

use crate::clock::Clock;
use crate::work::Work;
use event_core::ThreadId;
use std::marker::Model;
use std::mem::size_of;

/// An event, by its thread and its position among that thread's events, from 1. A log has at most 2^32
/// events, so the number of those before it takes 32 bits.
#[derive(Clone, Copy)]
pub struct Mark {
    thread: u32,
    before: u32,
}

// There is one for each closed section, and a search goes over them.
const _: () = prove!(size_of::<Mark>() == 8);

impl Model for Mark {
    ghost use Rattle.std.specs.Prelude.{◌+◌, ◌-◌};
    ghost use Rattle.hb_clocks.specs.Marks.{MarkedEvent};

    ghost Value = { MarkedEvent };

    ghost view = { λ m. record { thread = m.thread; position = m.before + 1 } };

    ghost inverse = { λ n. record { thread = n.thread; before = n.position - 1 } };
}

impl Mark {
    // The mark of the thread's event before which the thread has so many.
    pub(crate) fn new(thread: ThreadId, before: u32) -> Mark
        ensures { result ≡ record { thread = thread.0; position = before + 1 } }
    {
        Mark {
            thread: thread.0,
            before,
        }
    }

    /// The thread whose event it is.
    pub fn thread(&self) -> ThreadId
        ensures { result.0 ≡ self.now.thread }
    {
        ThreadId(self.thread)
    }

    /// Whether the clock counts the event. It is one comparison.
    pub fn counted(&self, clock: &Clock, work: &mut Work) -> bool
        requires within { self.now.thread < length clock.now }
        requires few { work.old.comparisons < 2 ^ 63 }
        ensures counted { IsTrue result ↔ (self.now.position ≤ counts_of clock.now self.now.thread) }
        ensures work { work.new ≡ record work.old { comparisons = work.old.comparisons + 1 } }
    {
        work.add_comparison();
        (self.before as u64) < clock.at(ThreadId(self.thread))
    }
}
