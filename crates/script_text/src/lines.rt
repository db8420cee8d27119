//! A line of a script: what its thread does, with its names numbered.
ghost use Rattle.std.specs.Prelude.{◌≡◌};
ghost use Rattle.script_text.specs.Lines.{thread_of, fork_of, join_of, is_of};

use event_core::{Act, Op, ThreadId};

/// What a line says that its thread does, and the number of the line. Lines are numbered from 1.
#[derive(Clone, Copy, Debug, PartialEq, Eq)]
pub struct ScriptLine {
    pub act: Act,
    pub line: u64,
}

impl ScriptLine {
    /// The thread whose line it is.
    pub fn thread(&self) -> ThreadId
        ensures { result ≡ thread_of self.now }
    {
        match self.act {
            Act::One(call) => call.thread,
            Act::Swap { thread, .. } => thread,
        }
    }

    /// Whether it is the thread's.
    pub fn is_of(&self, thread: ThreadId) -> bool
        ensures { result ≡ is_of thread.0 self.now }
    {
        self.thread().0 == thread.0
    }

    /// The thread that it forks, if it forks one.
    pub fn fork(&self) -> Option<ThreadId>
        ensures { result ≡ fork_of self.now }
    {
        match self.act {
            Act::One(call) => match call.op {
                Op::Fork(child) => Some(child),
                _ => None,
            },
            Act::Swap { .. } => None,
        }
    }

    /// The thread that it joins, if it joins one.
    pub fn join(&self) -> Option<ThreadId>
        ensures { result ≡ join_of self.now }
    {
        match self.act {
            Act::One(call) => match call.op {
                Op::Join(target) => Some(target),
                _ => None,
            },
            Act::Swap { .. } => None,
        }
    }
}
