//! What is read of a vector clock.
ghost use Rattle.std.specs.Prelude.{◌≡◌, ℕ, ◌<◌, List, length};
ghost use Rattle.hb_clocks.specs.Counts.{counts_of};

use crate::clock::Clock;
use crate::joined::JoinedClocks;
use event_core::ThreadId;

/// A number for each thread: a clock, or two clocks that are read as one. Contracts see the numbers.
pub trait VectorTime {
    ghost numbers: { Self → List ℕ };

    /// The number of a thread.
    fn at(&self, thread: ThreadId) -> u64
        requires { thread.0 < length (numbers self.now) }
        ensures { result ≡ counts_of (numbers self.now) thread.0 };
}

impl VectorTime for Clock {
    ghost numbers = { λ clock. clock };

    #[inline(always)]
    fn at(&self, thread: ThreadId) -> u64 {
        Clock::at(self, thread)
    }
}

impl<'a> VectorTime for JoinedClocks<'a> {
    ghost numbers = { λ clocks. clocks };

    #[inline(always)]
    fn at(&self, thread: ThreadId) -> u64 {
        JoinedClocks::at(self, thread)
    }
}
