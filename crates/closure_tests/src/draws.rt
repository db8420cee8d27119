//! Random calls, the same in each run.
use crate::templates::{Cast, LOCKS, THREADS, VARS, templates};
use event_core::{Act, Call, LockId, Op, SiteId, ThreadId, VarId};
use std::alloc::Global;
use std::process::Abort;
use test_logs::{Generator, add, call, call_at, count_lines};

// How many acts there are after a template. A monitor refuses most of them.
const TAIL: u32 = 64;

// A call by any thread. A monitor may refuse it.
fn draw_call(generator: &mut Generator) -> Call {
    let thread = ThreadId(generator.below(THREADS));
    let child = ThreadId(generator.below(THREADS));
    let lock = LockId(generator.below(LOCKS));
    let var = VarId(generator.below(VARS));
    let op = match generator.below(64) {
        0..=3 => Op::Load(var),
        4..=11 => Op::Store(var),
        12..=23 => Op::Acquire(lock),
        24..=61 => Op::Release(lock),
        62 => Op::Fork(child),
        _ => Op::Join(child),
    };
    call(thread, op, 0)
}

/// So many calls.
pub fn draw_calls(generator: &mut Generator, alloc: Global, count: u32) -> Vec<Act> {
    let mut acts = Vec::new(alloc);
    for _call in 0..count {
        add(&mut acts, Act::One(draw_call(generator)));
    }
    acts
}

// The call, or a swap in place of some of the stores.
fn vary(generator: &mut Generator, call: Call) -> Act {
    let is_swap = generator.below(4) == 0;
    match call.op {
        Op::Store(var) if is_swap => Act::Swap {
            thread: call.thread,
            var,
            site: SiteId(0),
            arg: 0,
        },
        _ => Act::One(call),
    }
}

// An act by any thread.
fn draw_act(generator: &mut Generator) -> Act {
    let call = draw_call(generator);
    vary(generator, call)
}

/// The acts of one of the templates, before each of them perhaps another, and a tail of others. Any threads,
/// locks and variables stand for those of the template.
pub fn draw_acts(rt: &impl Abort, generator: &mut Generator, alloc: Global) -> Vec<Act> {
    let mut acts = Vec::new(alloc);
    let cast = Cast {
        thread: generator.below(THREADS),
        lock: generator.below(LOCKS),
        var: generator.below(VARS),
    };
    let number = generator.below(5) as usize;
    let text = templates().get(number).expect(rt, "a template");
    for index in 0..count_lines(text) {
        let line = call_at(text, index).expect(rt, "a call");
        if generator.below(4) == 0 {
            add(&mut acts, draw_act(generator));
        }
        let made = call(cast.thread(line.thread), cast.op(line.op), 0);
        add(&mut acts, vary(generator, made));
    }
    for _act in 0..TAIL {
        add(&mut acts, draw_act(generator));
    }
    acts
}
