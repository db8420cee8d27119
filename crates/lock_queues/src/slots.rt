//! The slots that threads have for their sections on one lock.
ghost use Rattle.std.specs.Prelude.{◌≡◌, ℕ, ◌<◌, length, Some};
ghost use Rattle.lock_queues.specs.Slots.{place_in};

use event_core::ThreadId;
use hb_clocks::Mark;

/// What a thread has for its next section on the lock, with the mark of the acquire once it is entered.
#[derive(Drop)]
pub(crate) struct Slot {
    pub(crate) thread: ThreadId,
    pub(crate) opened: Option<Mark>,
}

impl Slot {
    // The thread's section is open from the event on.
    pub(crate) fn enter(&mut self, mark: Mark)
        ensures thread { self.new.thread ≡ self.old.thread }
        ensures opened { self.new.opened ≡ Some mark }
    {
        self.opened = Some(mark);
    }
}

// Where the thread's slot stands, or how many slots there are if it has none.
#[tactic(auto, using(crate::proofs::PlaceInProperties::place_is))]
pub(crate) fn find(slots: &[Slot], thread: ThreadId) -> usize
    ensures { result ≡ place_in slots.now thread.0 }
{
    let mut at = 0;
    'finding: while at < slots.len() {
        let slot = &slots[at];
        if slot.thread.0 == thread.0 {
            break;
        }
        at += 1;
    }
    at
}
