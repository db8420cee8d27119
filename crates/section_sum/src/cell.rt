//! What is kept of a variable under a lock: of each kind of access, whether the open section has one,
//! and the newest closed sections with one.
ghost use Rattle.std.specs.Prelude.{◌≡◌, not};
ghost use Rattle.section_sum.specs.Cell.{closed_side, closed, marked, is_noted, no_cell, sources_in};
ghost use Rattle.section_sum.specs.Sources.{left};

use crate::newest::Newest;
use crate::sources::Sources;
use event_core::{AccessKind, ThreadId};
use std::mem::size_of;

/// Whether the open section has an access of a kind, and the newest closed ones with such an access.
#[derive(Clone, Copy)]
pub struct Side {
    pub noted: bool,
    pub newest: Newest,
}

/// What is kept of a variable under a lock.
#[derive(Clone, Copy)]
pub struct Cell {
    pub reads: Side,
    pub writes: Side,
}

// A variable takes so many bytes under a lock.
const _: () = prove!(size_of::<Cell>() == 32);

/// No accesses.
pub fn new_cell() -> Cell
    ensures { result ≡ no_cell }
{
    let side = Side {
        noted: false,
        newest: Newest::new(),
    };
    Cell {
        reads: side,
        writes: side,
    }
}

// The thread's section with the number ends.
fn close_side(side: &mut Side, thread: ThreadId, number: u32)
    ensures { side.new ≡ closed_side thread.0 number side.old }
{
    if side.noted {
        side.newest.close(thread, number);
        side.noted = false;
    }
}

/// The thread's section with the number ends.
pub fn close_cell(cell: &mut Cell, thread: ThreadId, number: u32)
    ensures exact { cell.new ≡ closed thread.0 number cell.old }
{
    close_side(&mut cell.reads, thread, number);
    close_side(&mut cell.writes, thread, number);
}

/// The open section has such an access. Answers whether it is its first of the variable.
pub fn mark_cell(cell: &mut Cell, kind: AccessKind) -> bool
    ensures exact { cell.new ≡ marked kind cell.old }
    ensures first { result ≡ not (is_noted cell.old) }
{
    let first = !cell.reads.noted && !cell.writes.noted;
    match kind {
        AccessKind::Read => cell.reads.noted = true,
        AccessKind::Write => cell.writes.noted = true,
    }
    first
}

/// The sections that such an access meets: the newest by another thread with a store, and for a store
/// also that with a load.
#[tactic(auto, unfolding(crate::specs::Sources::left))]
pub fn sources(cell: &Cell, thread: ThreadId, kind: AccessKind) -> Sources
    ensures { left result ≡ sources_in cell.now kind thread.0 }
{
    let stores = cell.writes.newest.source(thread);
    match kind {
        AccessKind::Read => Sources {
            first: stores,
            second: None,
        },
        AccessKind::Write => Sources {
            first: stores,
            second: cell.reads.newest.source(thread),
        },
    }
}
