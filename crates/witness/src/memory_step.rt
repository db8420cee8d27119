//! One event of a list that is to be a well-formed log.
ghost use Rattle.std.specs.Prelude.{◌≡◌, ◌∷◌, ◌++◌, [], List, IsTrue, IfOk};
ghost use Rattle.event_core.specs.declared.events.Event.{Event};
ghost use Rattle.traced_mem.specs.Standing.{StandsFor};

use event_core::{Call, Event, OutOfMemory};
use traced_mem::Memory;

/// Performs the event, and answers whether it is legal, its value included.
pub fn perform(memory: &mut Memory, event: &Event) -> Result<bool, OutOfMemory>
    ensures stands { IfOk result (λ legal. IsTrue legal → (log : List Event) → StandsFor log memory.old
        → StandsFor (log ++ event.now ∷ []) memory.new) }
    ensures limits { memory.new.limits ≡ memory.old.limits }
{
    let call = Call {
        thread: event.thread,
        op: event.op,
        site: event.site,
        arg: event.value,
    };
    if memory.permit(&call).is_err() {
        return Ok(false);
    }
    memory.prepare(&call)?;
    let value = memory.apply(&call);
    Ok(value == event.value)
}
