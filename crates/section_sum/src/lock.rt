//! What is kept of a lock beside its cells.
//!
//! The cells with an access in the open section are listed, so that its end goes over them alone and
//! allocates nothing: a list never has more cells than the lock has, and room for all is made with each cell.
ghost use Rattle.std.specs.Prelude.{◌≡◌, ℕ, ◌<◌, ◌≤◌, length, nat_eq, true, is_ok, MatchOption};
ghost use Rattle.section_sum.specs.Cell.{cell_at, closed_as, marked_as};
ghost use Rattle.section_sum.specs.Cells.{cell_place, lock_at, has_cell, HasGrown};
ghost use Rattle.section_sum.specs.LockSums.{no_kept, shown, IsSought, IsKept};

use crate::cells::Cells;
use event_core::{AccessKind, LockId, OutOfMemory, ThreadId, VarId, reserve_to};
use std::alloc::Global;
use std::marker::Model;

/// How many cells a lock has, and which of them have an access in its open section, which is that of one
/// thread.
#[derive(Drop)]
pub struct Lock {
    by: ThreadId,
    count: usize,
    listed: Vec<usize>,
    // What was looked up last, if it was found since a variable joined.
    sought: Option<Sought>,
}

/// A variable, and where its cell stands.
#[derive(Clone, Copy)]
pub struct Sought {
    pub(crate) var: u32,
    pub(crate) at: usize,
}

impl Model for Lock {
    ghost use Rattle.std.specs.Prelude.{vec_capacity};
    ghost use Rattle.section_sum.specs.LockSums.{LockSum};

    ghost Value = { LockSum };

    ghost view = { λ a. record {
      by = a.by.0;
      count = a.count;
      listed = a.listed.items;
      most = vec_capacity a.listed;
      sought = a.sought;
    } };
}

impl Lock {
    /// A lock without cells. Takes no memory.
    pub fn new(alloc: Global) -> Lock
        ensures { result ≡ no_kept }
    {
        Lock {
            by: ThreadId(0),
            count: 0,
            listed: Vec::new(alloc),
            sought: None,
        }
    }

    /// The thread of the open section, where that has an access.
    pub fn by(&self) -> ThreadId
        ensures { result.0 ≡ self.now.by }
    {
        self.by
    }

    /// Where the variable's cell stands: it was sought before, or is found by one hash.
    #[inline(always)]
    pub fn find(&self, cells: &Cells, lock: LockId, var: VarId) -> Option<usize>
        requires sought { IsSought lock.0 cells.now.places self.now.sought }
        ensures { MatchOption result (length cells.now.places ≤ cell_place cells.now.places lock.0 var.0)
            (λ i. (i ≡ cell_place cells.now.places lock.0 var.0) × (i < length cells.now.places)) }
    {
        if let Some(known) = self.sought {
            if known.var == var.0 {
                return Some(known.at);
            }
        }
        cells.find(lock, var)
    }

    /// Makes room for accesses to the variable in sections on the lock, and for the ends of those sections.
    /// Where there is room it takes no memory. The next calls for the variable find its cell by no hash.
    #[inline(always)]
    pub fn prepare(
        &mut self,
        cells: &mut Cells,
        lock: LockId,
        var: VarId,
    ) -> Result<(), OutOfMemory>
        requires kept { IsKept lock.0 cells.old self.old }
        ensures kept { IsKept lock.0 cells.new self.new }
        ensures by { self.new.by ≡ self.old.by }
        ensures grown { HasGrown lock.0 var.0 cells.old cells.new }
        ensures ready { is_ok result ≡ has_cell cells.new lock.0 var.0 }
        ensures again { has_cell cells.old lock.0 var.0 ≡ true → shown self.new ≡ shown self.old }
    {
        if let Some(known) = self.sought {
            if known.var == var.0 {
                return Ok(());
            }
        }
        if let Some(at) = cells.find(lock, var) {
            self.sought = Some(Sought { var: var.0, at });
            return Ok(());
        }
        let count = self.count + 1;
        reserve_to(&mut self.listed, count)?;
        let at = cells.add(lock, var)?;
        self.count = count;
        self.sought = Some(Sought { var: var.0, at });
        Ok(())
    }

    /// The thread's open section on the lock has such an access.
    #[inline(always)]
    pub fn note(
        &mut self,
        cells: &mut Cells,
        thread: ThreadId,
        lock: LockId,
        var: VarId,
        kind: AccessKind,
    )
        requires kept { IsKept lock.0 cells.old self.old }
        requires ready { cell_place cells.old.places lock.0 var.0 < length cells.old.places }
        ensures kept { IsKept lock.0 cells.new self.new }
        ensures by { self.new.by ≡ thread.0 }
        ensures places { cells.new.places ≡ cells.old.places }
        ensures exact { (i : ℕ) → cell_at cells.new.cells i
            ≡ marked_as (nat_eq i (cell_place cells.old.places lock.0 var.0)) kind
            (cell_at cells.old.cells i) }
    {
        self.by = thread;
        if let Some(at) = self.find(cells, lock, var) {
            if cells.mark(at, kind) {
                self.listed.push_reserved(at);
            }
        }
    }

    /// The open section on the lock ends and has the number.
    pub fn close(&mut self, cells: &mut Cells, lock: LockId, number: u32)
        requires kept { IsKept lock.0 cells.old self.old }
        ensures kept { IsKept lock.0 cells.new self.new }
        ensures by { self.new.by ≡ self.old.by }
        ensures places { cells.new.places ≡ cells.old.places }
        ensures exact { (i : ℕ) → cell_at cells.new.cells i
            ≡ closed_as (nat_eq (lock_at cells.old.places i) lock.0) self.old.by number
            (cell_at cells.old.cells i) }
    {
        'closing: while let Some(at) = self.listed.pop() {
            cells.close(at, self.by, number);
        }
    }
}
