//! The two newest sections of different threads.
//!
//! On one lock each release's clock is at or above those before it. So of the sections by other threads
//! than one the newest says all, and that is the newest of all or the newest by another thread than that
//! one's.
ghost use Rattle.std.specs.Prelude.{◌≡◌};
ghost use Rattle.std.specs.Option.{option_to_list};
ghost use Rattle.section_sum.specs.Newest.{no_sections, others_at, closed_two, section};

use event_core::ThreadId;

/// The numbers of the newest section and of the newest by another thread than that one's: 0 where there
/// is none.
#[derive(Clone, Copy)]
pub struct Newest {
    pub thread: ThreadId,
    pub newest: u32,
    pub other: u32,
}

impl Newest {
    /// No sections.
    pub fn new() -> Newest
        ensures { result ≡ no_sections }
    {
        Newest {
            thread: ThreadId(0),
            newest: 0,
            other: 0,
        }
    }

    /// The thread closes the section with the number, which is greater than those before.
    pub fn close(&mut self, thread: ThreadId, number: u32)
        ensures exact { self.new ≡ closed_two thread.0 number self.old }
    {
        if self.thread != thread {
            self.other = self.newest;
            self.thread = thread;
        }
        self.newest = number;
    }

    /// The newest section by another thread.
    pub fn source(&self, thread: ThreadId) -> Option<u32>
        ensures { option_to_list result ≡ section (others_at self.now thread.0) }
    {
        let number = if self.thread == thread {
            self.other
        } else {
            self.newest
        };
        if number == 0 {
            return None;
        }
        Some(number)
    }
}
