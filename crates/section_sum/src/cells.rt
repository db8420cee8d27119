//! The cells of all locks, one for each variable that was accessed in a section on a lock.
//!
//! A cell's number is its place among those pairs of a lock and a variable. It is found by one hash.
ghost use Rattle.std.specs.Prelude.{◌≡◌, ℕ, ◌<◌, ◌≤◌, length, not, nat_eq, MatchOption, MatchResult};
ghost use Rattle.section_sum.specs.Cell.{cell_at, closed_as, marked_as, is_noted};
ghost use Rattle.section_sum.specs.Cells.{cell_place, no_cells, with_place};

use crate::cell::{Cell, close_cell, mark_cell, new_cell};
use event_core::{AccessKind, LockId, OutOfMemory, ThreadId, VarId, reserve};
use indexmap::IndexSet;
use std::alloc::Global;
use std::marker::Model;

/// A variable under a lock.
#[derive(Clone, Copy, PartialEq, Eq, Hash)]
pub struct Place {
    pub lock: LockId,
    pub var: VarId,
}

/// A cell for each variable that was accessed in a section on a lock.
#[derive(Drop)]
pub struct Cells {
    places: IndexSet<Place>,
    cells: Vec<Cell>,
}

impl Model for Cells {
    ghost use Rattle.std.specs.Prelude.{◌≡◌, ◌+◌, ◌*◌, ◌≤◌, length, vec_capacity};
    ghost use Rattle.section_sum.specs.Cells.{Stored};

    ghost Value = { Stored };

    ghost view = { λ a. record { places = a.places.keys; cells = a.cells.items } };

    ghost invariant = { λ a. (length a.cells.items ≡ length a.places.keys)
        × (vec_capacity a.cells ≤ 2 * (length a.cells.items + 1)) };
}

impl Cells {
    /// No cells. Takes no memory.
    pub fn new(alloc: Global) -> Cells
        ensures { result ≡ no_cells }
    {
        Cells {
            places: IndexSet::new(alloc),
            cells: Vec::new(alloc),
        }
    }

    /// Where the variable's cell under the lock stands.
    pub fn find(&self, lock: LockId, var: VarId) -> Option<usize>
        ensures { MatchOption result (length self.now.places ≤ cell_place self.now.places lock.0 var.0)
            (λ i. (i ≡ cell_place self.now.places lock.0 var.0) × (i < length self.now.places)) }
    {
        self.places.get_index_of(&Place { lock, var })
    }

    /// A variable without a cell under the lock gets one. Answers its number.
    pub fn add(&mut self, lock: LockId, var: VarId) -> Result<usize, OutOfMemory>
        requires new { cell_place self.old.places lock.0 var.0 ≡ length self.old.places }
        ensures { MatchResult result
            (λ at. (at ≡ length self.old.places) × (self.new ≡ with_place self.old lock.0 var.0))
            (λ _. self.new ≡ self.old) }
    {
        let at = self.cells.len();
        reserve(&mut self.cells, 1)?;
        self.places.insert(Place { lock, var })?;
        self.cells.push_reserved(new_cell());
        Ok(at)
    }

    /// The cell with the number.
    pub fn get(&self, at: usize) -> &Cell
        requires within { at < length self.now.places }
        ensures { result.now ≡ cell_at self.now.cells at }
    {
        &self.cells[at]
    }

    /// The open section has such an access to the cell. Answers whether it is its first.
    #[tactic(auto, using(crate::proofs::CellProperties::marked_at))]
    pub fn mark(&mut self, at: usize, kind: AccessKind) -> bool
        requires within { at < length self.old.places }
        ensures first { result ≡ not (is_noted (cell_at self.old.cells at)) }
        ensures places { self.new.places ≡ self.old.places }
        ensures same { length self.new.cells ≡ length self.new.places }
        ensures exact { (i : ℕ) → cell_at self.new.cells i
            ≡ marked_as (nat_eq i at) kind (cell_at self.old.cells i) }
    {
        mark_cell(&mut self.cells[at], kind)
    }

    /// The thread's section with the number ends, for the cell.
    #[tactic(auto, using(crate::proofs::CellProperties::closed_at))]
    pub fn close(&mut self, at: usize, thread: ThreadId, number: u32)
        requires within { at < length self.old.places }
        ensures places { self.new.places ≡ self.old.places }
        ensures same { length self.new.cells ≡ length self.new.places }
        ensures exact { (i : ℕ) → cell_at self.new.cells i
            ≡ closed_as (nat_eq i at) thread.0 number (cell_at self.old.cells i) }
    {
        close_cell(&mut self.cells[at], thread, number);
    }
}
