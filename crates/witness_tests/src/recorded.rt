//! Logs of calls that memory permits.
ghost use Rattle.std.specs.Prelude.{◌≡◌};
ghost use Rattle.traced_mem.specs.Standing.{StandsFor};

use event_core::{Call, Event, Limits, Log, OutOfMemory, Roots};
use std::alloc::Global;
use std::marker::Model;
use std::process::Abort;
use traced_mem::Memory;
use witness::Searcher;

/// A log, and the memory that permitted its calls.
#[derive(Drop)]
pub struct Recorded {
    log: Log,
    memory: Memory,
    limits: Limits,
}

impl Model for Recorded {
    ghost use Rattle.std.specs.Prelude.{◌≡◌, List};
    ghost use Rattle.event_core.specs.declared.events.Event.{Event};
    ghost use Rattle.traced_mem.specs.Standing.{StandsFor};

    ghost Value = { List Event };

    ghost view = { λ r. r.log.events };

    ghost invariant = { λ r. StandsFor r.log.events r.memory × (r.memory.limits ≡ r.limits) };
}

// Makes the call, if it is permitted, and answers whether it was.
fn perform(log: &mut Log, memory: &mut Memory, call: &Call) -> Result<bool, OutOfMemory>
    ensures stands { StandsFor log.old.events memory.old → StandsFor log.new.events memory.new }
    ensures limits { memory.new.limits ≡ memory.old.limits }
{
    if memory.permit(call).is_err() {
        return Ok(false);
    }
    log.reserve(1)?;
    memory.prepare(call)?;
    let value = memory.apply(call);
    log.push(call.event_with(value));
    Ok(true)
}

impl Recorded {
    /// No events, under small limits.
    pub fn new(rt: &impl Abort, alloc: Global, roots: Roots) -> Recorded {
        let limits = Limits::new(4, 4, 4, 64, roots).expect(rt, "small limits");
        Recorded {
            log: Log::new(alloc),
            memory: Memory::new(alloc, limits).unwrap(),
            limits,
        }
    }

    /// Makes the call, if it is permitted, and answers whether it was. Where memory is refused it is made
    /// again.
    pub fn make(&mut self, call: &Call) -> bool {
        for _trial in 0..2 {
            if let Ok(made) = perform(&mut self.log, &mut self.memory, call) {
                return made;
            }
        }
        false
    }

    /// How many events there are.
    pub fn len(&self) -> u64 {
        self.log.len()
    }

    /// A searcher of the log.
    pub fn searcher(&self, alloc: Global) -> Result<Searcher, OutOfMemory> {
        Searcher::new(alloc, self.limits, &self.log)
    }

    /// The events of the log.
    pub fn events(&self, alloc: Global) -> Vec<Event> {
        let mut events = Vec::new(alloc);
        for index in 0..self.log.len() {
            if let Some(event) = self.log.get(index) {
                let _ = events.push(event);
            }
        }
        events
    }
}
