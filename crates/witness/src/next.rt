//! Whether an event is next after some others: they have all that precedes it in program order, and not it.
ghost use Rattle.std.specs.Prelude.{◌≡◌, ℕ, ◌<◌, ◌^◌, List, Some, IsTrue, slice_get, slice_index};
ghost use Rattle.event_core.specs.declared.events.Event.{Event};
ghost use Rattle.event_core.specs.declared.events.Op.{Op};
ghost use Rattle.event_core.specs.declared.ids.ThreadId.{ThreadId};
ghost use Rattle.event_core.specs.Log.{Does, Of};
ghost use Rattle.event_core.specs.Closed.{Has};
ghost use Rattle.witness.specs.Walks.{AreTables, IsCount, HasFork, HasAll, IsNextOf};

use crate::marks::{count_of, index_at};
use crate::tables::Tables;
use event_core::{Log, Op, ThreadId};

// Whether the event is among those that are counted.
fn has(log: &Log, tables: &Tables, counts: &[u64], index: u32) -> bool
    requires { AreTables log.now.events tables.now }
    ensures { IsTrue result → (before : List ℕ) → IsCount log.now.events before (slice_index counts.now)
        → Has index before }
{
    let Some(event) = log.get(index as u64) else {
        return false;
    };
    tables.place_at(index as u64) < count_of(counts, event.thread)
}

// Whether the thread's fork is among them, if the log has one.
fn has_fork(log: &Log, tables: &Tables, counts: &[u64], thread: ThreadId) -> bool
    requires { AreTables log.now.events tables.now }
    ensures { IsTrue result → (before : List ℕ) → IsCount log.now.events before (slice_index counts.now)
        → HasFork log.now.events before thread }
{
    match index_at(&tables.forks, thread.0) {
        Some(fork) => has(log, tables, counts, fork),
        None => true,
    }
}

// Whether all events of the thread are among them.
fn has_all(log: &Log, tables: &Tables, counts: &[u64], thread: ThreadId) -> bool
    requires { AreTables log.now.events tables.now }
    ensures { IsTrue result → (before : List ℕ) → IsCount log.now.events before (slice_index counts.now)
        → HasAll log.now.events before thread }
{
    let _events = log.len();
    count_of(&tables.totals, thread) <= count_of(counts, thread)
}

// Whether all of the thread that the operation joins is among them.
fn may_join(log: &Log, tables: &Tables, counts: &[u64], op: Op) -> bool
    requires { AreTables log.now.events tables.now }
    ensures { IsTrue result → (before : List ℕ) → IsCount log.now.events before (slice_index counts.now)
        → (u : ThreadId) → op ≡ Op.Join u
        → HasAll log.now.events before u × HasFork log.now.events before u }
{
    match op {
        Op::Join(child) => {
            has_all(log, tables, counts, child) && has_fork(log, tables, counts, child)
        }
        _ => true,
    }
}

/// Whether the event is next after those that are counted.
pub fn is_next(log: &Log, tables: &Tables, counts: &[u64], index: u64) -> bool
    requires { AreTables log.now.events tables.now }
    ensures few { IsTrue result → (event : Event) → slice_get log.now.events index ≡ Some event
        → slice_index counts.now event.thread.0 < 2 ^ 32 }
    ensures next { IsTrue result → (before : List ℕ)
        → IsCount log.now.events before (slice_index counts.now)
        → IsNextOf log.now.events before (slice_index counts.now) index }
{
    let Some(event) = log.get(index) else {
        return false;
    };
    let place = tables.place_at(index);
    if count_of(counts, event.thread) != place {
        return false;
    }
    has_fork(log, tables, counts, event.thread) && may_join(log, tables, counts, event.op)
}
