//! The walk over a list of events that tests each point of the definition of a witness.
ghost use Rattle.std.specs.Prelude.{◌≡◌, ℕ, ◌∷◌, ◌++◌, [], List, IsTrue, IfOk, None, slice_index_or};
ghost use Rattle.std.specs.Prelude.{slice_get, Some};
ghost use Rattle.event_core.specs.declared.events.Event.{Event};
ghost use Rattle.event_core.specs.declared.events.Op.{Op};
ghost use Rattle.event_core.specs.declared.ids.VarId.{VarId};
ghost use Rattle.witness.specs.Witness.{IsNext, ReadsAlike, IsWitness};
ghost use Rattle.witness.specs.Links.{back_at};
ghost use Rattle.witness.specs.Walks.{AreTables};
ghost use Rattle.witness.specs.Standing.{IsWalk};

use crate::links::link_back;
use crate::marks::{count_one, index_at, note_store};
use crate::memory_step::perform;
use crate::next::is_next;
use crate::tables::Tables;
use event_core::{Event, Limits, Log, Op, OutOfMemory};
use std::alloc::Global;
use traced_mem::Memory;

/// What a walk over some events of a log has come to.
#[derive(Drop)]
pub struct Walk {
    memory: Memory,
    /// How many events of each thread there were.
    counts: Vec<u64>,
    /// The last store to each variable.
    stores: Vec<Option<u32>>,
}

// Whether a load reads the store that it reads in the log.
fn reads_alike(tables: &Tables, stores: &[Option<u32>], op: Op, index: u32) -> bool
    ensures { IsTrue result → (x : VarId) → op ≡ Op.Load x
        → slice_index_or stores.now x.0 None ≡ back_at tables.now.links.items index }
{
    match op {
        Op::Load(var) => index_at(stores, var.0) == link_back(&tables.links, index),
        _ => true,
    }
}

// Takes the event, and answers whether it may come next.
fn admit(walk: &mut Walk, log: &Log, tables: &Tables, index: u32) -> Result<bool, OutOfMemory>
    requires { AreTables log.now.events tables.now }
    ensures next { IfOk result (λ admitted. IsTrue admitted → (before : List ℕ)
        → IsWalk log.now.events before walk.old → IsNext log.now.events before index) }
    ensures reads { IfOk result (λ admitted. IsTrue admitted → (before : List ℕ)
        → IsWalk log.now.events before walk.old → ReadsAlike log.now.events before index) }
    ensures walk { IfOk result (λ admitted. IsTrue admitted → (before : List ℕ)
        → IsWalk log.now.events before walk.old → IsWalk log.now.events (before ++ index ∷ []) walk.new) }
    ensures limits { walk.new.memory.limits ≡ walk.old.memory.limits }
{
    let Some(event) = log.get(index as u64) else {
        return Ok(false);
    };
    if !is_next(log, tables, &walk.counts, index as u64) {
        return Ok(false);
    }
    if !reads_alike(tables, &walk.stores, event.op, index) {
        return Ok(false);
    }
    if !perform(&mut walk.memory, &event)? {
        return Ok(false);
    }
    count_one(&mut walk.counts, event.thread)?;
    note_store(&mut walk.stores, event.op, index)?;
    Ok(true)
}

/// Whether the events are a witness for i and j.
pub fn is_witness(
    alloc: Global,
    limits: Limits,
    log: &Log,
    tables: &Tables,
    order: &[u32],
    i: u64,
    j: u64,
) -> Result<bool, OutOfMemory>
    requires { AreTables log.now.events tables.now }
    ensures { IfOk result (λ passed. IsTrue passed → IsWitness limits log.now.events i j order.now) }
{
    let mut walk = Walk {
        memory: Memory::new(alloc, limits)?,
        counts: Vec::new(alloc),
        stores: Vec::with_capacity(alloc, tables.vars)?,
    };
    'events: for index in order {
        if !admit(&mut walk, log, tables, *index)? {
            return Ok(false);
        }
    }
    if !is_next(log, tables, &walk.counts, i) {
        return Ok(false);
    }
    Ok(is_next(log, tables, &walk.counts, j))
}
