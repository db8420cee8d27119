//! Steps: what a thread does at once.
ghost use Rattle.std.specs.Prelude.{◌≡◌, length};
ghost use Rattle.event_core.specs.Steps.{by, child_of, step_events};

use crate::events::{Event, Op};
use crate::ids::ThreadId;

/// One atomic step: an event, or the load and the store of a swap.
#[derive(Clone, Copy, Debug, PartialEq, Eq)]
pub enum Step {
    One(Event),
    Swap(Event, Event),
}

impl Step {
    /// Whose step it is.
    pub fn thread(&self) -> ThreadId
        ensures { result ≡ by self.now }
    {
        match self {
            Step::One(event) => event.thread,
            Step::Swap(load, _) => load.thread,
        }
    }

    /// The thread that it forks, if it forks one.
    pub fn child(&self) -> Option<ThreadId>
        ensures { result ≡ child_of self.now }
    {
        match self {
            Step::One(event) => match event.op {
                Op::Fork(child) => Some(child),
                _ => None,
            },
            Step::Swap(..) => None,
        }
    }

    /// How many events it has.
    pub fn count(&self) -> u64
        ensures { result ≡ length (step_events self.now) }
    {
        match self {
            Step::One(_) => 1,
            Step::Swap(..) => 2,
        }
    }
}
