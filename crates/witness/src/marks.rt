//! Lists of numbers and of indices, by threads and by variables, that grow with what is named.
ghost use Rattle.std.specs.Prelude.{◌≡◌, ◌<◌, ◌^◌, ℕ, None, Some, OnOk, slice_index, slice_index_or};
ghost use Rattle.std.specs.Prelude.{if◌then◌else◌};
ghost use Rattle.event_core.specs.declared.ids.ThreadId.{ThreadId};
ghost use Rattle.event_core.specs.declared.ids.VarId.{VarId};
ghost use Rattle.event_core.specs.Refusal.{op_stores, op_forks};
ghost use Rattle.event_core.specs.Rows.{bump};
ghost use Rattle.traced_mem.specs.After.{updated};

use event_core::{Op, OutOfMemory, ThreadId, grow_to};

/// How many events of the thread are counted.
pub fn count_of(counts: &[u64], thread: ThreadId) -> u64
    ensures { result ≡ slice_index counts.now thread.0 }
{
    let at = thread.0 as usize;
    if at < counts.len() { counts[at] } else { 0 }
}

/// Counts one more event of the thread.
pub fn count_one(counts: &mut Vec<u64>, thread: ThreadId) -> Result<(), OutOfMemory>
    requires { slice_index counts.old.items thread.0 < 2 ^ 63 }
    ensures { OnOk result ((u : ℕ) → slice_index counts.new.items u
        ≡ bump thread.0 (slice_index counts.old.items) u) }
{
    let at = thread.0 as usize;
    grow_to(counts, at + 1, || 0)?;
    counts[at] += 1;
    Ok(())
}

/// The index that is kept for the number.
pub fn index_at(list: &[Option<u32>], number: u32) -> Option<u32>
    ensures { result ≡ slice_index_or list.now number None }
{
    let at = number as usize;
    if at < list.len() { list[at] } else { None }
}

// Keeps the index for the number.
fn keep(list: &mut Vec<Option<u32>>, number: u32, index: u32) -> Result<(), OutOfMemory>
    ensures { OnOk result ((n : ℕ) → slice_index_or list.new.items n None
        ≡ updated number (Some index) (λ m. slice_index_or list.old.items m None) n) }
{
    let at = number as usize;
    grow_to(list, at + 1, || None)?;
    list[at] = Some(index);
    Ok(())
}

/// Keeps the index of a store for its variable.
pub fn note_store(stores: &mut Vec<Option<u32>>, op: Op, index: u32) -> Result<(), OutOfMemory>
    ensures { OnOk result ((x : VarId) → slice_index_or stores.new.items x.0 None
        ≡ (if op_stores x op then Some index else slice_index_or stores.old.items x.0 None)) }
{
    match op {
        Op::Store(var) => keep(stores, var.0, index),
        _ => Ok(()),
    }
}

/// Keeps the index of a fork for its thread.
pub fn note_fork(forks: &mut Vec<Option<u32>>, op: Op, index: u32) -> Result<(), OutOfMemory>
    ensures { OnOk result ((u : ThreadId) → slice_index_or forks.new.items u.0 None
        ≡ (if op_forks u op then Some index else slice_index_or forks.old.items u.0 None)) }
{
    match op {
        Op::Fork(child) => keep(forks, child.0, index),
        _ => Ok(()),
    }
}
