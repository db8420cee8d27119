//! A last access in twelve bytes.
ghost use Rattle.std.specs.Prelude.{◌≡◌, ◌+◌};
ghost use Rattle.access_check.specs.LastAccesses.{IsPackable};

use crate::last_accesses::LastAccess;
use event_core::ThreadId;
use std::marker::Model;
use std::mem::size_of;

/// A last access as it is kept. A log has at most 2^32 events, so an index takes 32 bits, and so does the
/// number of its thread's events before it.
#[derive(Clone, Copy)]
pub struct PackedAccess {
    thread: ThreadId,
    index: u32,
    before: u32,
}

// There is one for each thread that loads a variable, and one for each that stores to it.
const _: () = prove!(size_of::<PackedAccess>() == 12);

impl Model for PackedAccess {
    ghost use Rattle.std.specs.Prelude.{◌+◌, ◌-◌};
    ghost use Rattle.access_check.specs.declared.last_accesses.LastAccess.{LastAccess};

    ghost Value = { LastAccess };

    ghost view = { λ p. record {
      thread = p.thread;
      access = record { index = p.index; position = p.before + 1 };
    } };

    ghost inverse = { λ l. record {
      thread = l.thread;
      index = l.access.index;
      before = l.access.position - 1;
    } };
}

impl PackedAccess {
    pub(crate) fn new(last: LastAccess) -> PackedAccess
        requires { IsPackable last }
        ensures { result ≡ last }
    {
        PackedAccess {
            thread: last.thread,
            index: last.access.index as u32,
            before: (last.access.position - 1) as u32,
        }
    }

    // The thread whose access it is.
    pub(crate) fn thread(&self) -> ThreadId
        ensures { result ≡ self.now.thread }
    {
        self.thread
    }

    // The index in the log.
    pub(crate) fn index(&self) -> u64
        ensures { result ≡ self.now.access.index }
    {
        self.index as u64
    }

    // How many events its thread had before it.
    pub(crate) fn before(&self) -> u64
        ensures { result + 1 ≡ self.now.access.position }
    {
        self.before as u64
    }
}
