//! A log whose events a memory permits.
ghost use Rattle.std.specs.Prelude.{◌≡◌, ◌++◌, ◌∷◌, [], List, None};
ghost use Rattle.event_core.specs.Refusal.{Legal};
ghost use Rattle.event_core.specs.Steps.{forked_by, log_of};
ghost use Rattle.event_core.specs.declared.bounds.Roots.TheVariants.{OnlyMain};
ghost use Rattle.event_core.specs.declared.events.Event.{Event};
ghost use Rattle.traced_mem.specs.Standing.{StandsFor};

use event_core::{Event, Limits, Op, Roots, Step, ThreadId};
use log_pass::{Keeper, Name, Pass, Published};
use std::alloc::Global;
use std::process::Abort;
use test_logs::call;
use traced_mem::Memory;

/// Nine threads, one variable, 256 events.
pub fn limits() -> Limits
    ensures { result.roots ≡ OnlyMain }
{
    let Ok(limits) = Limits::new(9, 1, 1, 256, Roots::OnlyMain) else {
        unreachable!()
    };
    limits
}

/// The memory before any event.
pub fn memory(alloc: Global, limits: Limits) -> Memory
    ensures limits { result.limits ≡ limits }
    ensures stands { StandsFor [] result }
{
    let Ok(memory) = Memory::new(alloc, limits) else {
        unreachable!()
    };
    memory
}

/// The event of the thread's call, which has to be permitted.
pub fn make<R: Abort>(rt: &R, memory: &mut Memory, thread: ThreadId, op: Op, arg: u64) -> Event
    ensures limits { memory.new.limits ≡ memory.old.limits }
    ensures legal { (log : List Event) → StandsFor log memory.old → Legal memory.old.limits log result }
    ensures stands { (log : List Event) → StandsFor log memory.old
        → StandsFor (log ++ result ∷ []) memory.new }
    ensures thread { result.thread ≡ thread }
    ensures op { result.op ≡ op }
    ensures site { result.site ≡ record { 0 = 0 } }
{
    let call = call(thread, op, arg);
    memory.permit(&call).expect(rt, "permitted");
    memory.prepare(&call).expect(rt, "memory");
    let value = memory.apply(&call);
    call.event_with(value)
}

/// The pass after a call of its thread, as under a lock, except a fork.
pub fn perform<N: Name, R: Abort>(
    rt: &R,
    published: &Published<N>,
    keeper: &mut Keeper<N>,
    memory: &mut Memory,
    pass: Pass<N>,
    op: Op,
    arg: u64,
) -> Pass<N>
    requires no_fork { forked_by op ≡ None }
    requires holds_none { keeper.old.held ≡ None }
    requires limits { memory.old.limits ≡ N.limits }
    requires stands { StandsFor (log_of keeper.old.steps) memory.old }
    ensures holds_none { keeper.new.held ≡ None }
    ensures limits { memory.new.limits ≡ N.limits }
    ensures stands { StandsFor (log_of keeper.new.steps) memory.new }
{
    let event = make(rt, memory, pass.thread(), op, arg);
    published.publish(keeper, pass, Step::One(event))
}

/// The pass after its thread forked the child, and the child's pass.
pub fn perform_fork<N: Name, R: Abort>(
    rt: &R,
    published: &Published<N>,
    keeper: &mut Keeper<N>,
    memory: &mut Memory,
    pass: Pass<N>,
    child: ThreadId,
) -> (Pass<N>, Pass<N>)
    requires holds_none { keeper.old.held ≡ None }
    requires limits { memory.old.limits ≡ N.limits }
    requires stands { StandsFor (log_of keeper.old.steps) memory.old }
    ensures child { result.1.thread ≡ child }
    ensures holds_none { keeper.new.held ≡ None }
    ensures limits { memory.new.limits ≡ N.limits }
    ensures stands { StandsFor (log_of keeper.new.steps) memory.new }
{
    let event = make(rt, memory, pass.thread(), Op::Fork(child), 0);
    published.publish_fork(keeper, pass, event)
}
