//! What an event leads to, as one index for each: a load leads back to the store that it reads, an outer
//! acquire on to the release that ends its section, an inner acquire back to the outer one, and an event
//! that leads to no other to itself.
ghost use Rattle.std.specs.Prelude.{◌≡◌, ◌<◌, ℕ, None, Some, IfOk, length, slice_index, slice_index_or};
ghost use Rattle.event_core.specs.declared.events.Op.{Op};
ghost use Rattle.event_core.specs.declared.ids.VarId.{VarId};
ghost use Rattle.witness.specs.Links.{back, back_at};

use crate::marks::index_at;
use event_core::{LockId, Op, OutOfMemory, grow_to};

/// The earlier event that the event at the index leads to.
pub fn link_back(links: &[u32], index: u32) -> Option<u32>
    ensures { result ≡ back_at links.now index }
{
    let at = index as usize;
    let link = if at < links.len() { links[at] } else { 0 };
    if link < index { Some(link) } else { None }
}

/// The later event that the event at the index leads to.
pub fn link_on(links: &[u32], index: u32) -> Option<u32> {
    let link = links.get(index as usize).copied()?;
    if index < link { Some(link) } else { None }
}

/// A lock on the way through a log: how often it is held, and since which outer acquire.
#[derive(Clone, Copy)]
pub struct Hold {
    depth: u64,
    since: u32,
}

/// What the event leads to, as far as it is known before the events that follow.
pub fn link_for(
    stores: &[Option<u32>],
    holds: &mut Vec<Hold>,
    op: Op,
    index: u32,
) -> Result<u32, OutOfMemory>
    ensures { IfOk result (λ link. (x : VarId) → op ≡ Op.Load x
        → ((s : ℕ) → slice_index_or stores.now x.0 None ≡ Some s → s < index)
        → back link index ≡ slice_index_or stores.now x.0 None) }
{
    match op {
        Op::Load(var) => Ok(index_at(stores, var.0).unwrap_or(index)),
        Op::Acquire(lock) => enter(holds, lock, index),
        _ => Ok(index),
    }
}

// An acquire of the lock, which opens a section if it is an outer one: the outer acquire of its section.
fn enter(holds: &mut Vec<Hold>, lock: LockId, index: u32) -> Result<u32, OutOfMemory> {
    let at = lock.0 as usize;
    grow_to(holds, at + 1, || Hold { depth: 0, since: 0 })?;
    let hold = &mut holds[at];
    hold.depth = hold.depth.saturating_add(1);
    if hold.depth == 1 {
        hold.since = index;
    }
    Ok(hold.since)
}

/// Ends the section that is open, if the operation is an outer release.
pub fn leave(holds: &mut [Hold], links: &mut Vec<u32>, op: Op, index: u32)
    ensures back { (k : ℕ) → back_at links.new.items k ≡ back_at links.old.items k }
    ensures long { length links.new.items ≡ length links.old.items }
{
    let Op::Release(lock) = op else {
        return;
    };
    let at = lock.0 as usize;
    if holds.len() <= at {
        return;
    }
    let hold = &mut holds[at];
    hold.depth = hold.depth.saturating_sub(1);
    if hold.depth == 0 {
        end_section(links, hold.since, index);
    }
}

// Ends the section that the acquire opened.
fn end_section(links: &mut Vec<u32>, acquire: u32, release: u32)
    ensures back { (k : ℕ) → back_at links.new.items k ≡ back_at links.old.items k }
    ensures long { length links.new.items ≡ length links.old.items }
{
    let at = acquire as usize;
    if at < links.len() && links[at] == acquire && acquire < release {
        links[at] = release;
    }
}
