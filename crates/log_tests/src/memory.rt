//! Worked cases: calls by `permit`, `prepare` and `apply`, and what they are answered.
use crate::expected::expect;
use event_core::{Act, Call, Limits, LockId, Op, Refusal, Roots, ThreadId, VarId};
use std::alloc::Global;
use std::process::Abort;
use test_doubles::rows;
use test_logs::{CALLS, Case, L, Line, SWAPS, T0, T1, X, Y, call};
use traced_mem::Memory;

type Answer = Result<u64, Refusal>;

/// What a memory holds after so many lines of a case.
struct Look {
    case: &'static str,
    lines: usize,
    /// The holder of lock 0, and its depth.
    holder: Option<ThreadId>,
    depth: u64,
    /// The locks that thread 0 holds, in the order of their outer acquires.
    held: &'static [LockId],
    /// The values of variables 0 and 1.
    values: [u64; 2],
}

const NOTHING: Look = Look {
    case: "",
    lines: 0,
    holder: None,
    depth: 0,
    held: &[],
    values: [0, 0],
};

const LOOKS: &[Look] = rows! {
    Look { case: "each hold keeps a slot", lines: 2, holder: Some(T0), depth: 2, held: &[L], ..NOTHING };
    Look { case: "each hold keeps a slot", lines: 5, holder: Some(T0), depth: 1, held: &[L], ..NOTHING };
    Look { case: "each hold keeps a slot", lines: 8, ..NOTHING };
    Look { case: "a load reads the last store", lines: 7, values: [18446744073709551615, 0], ..NOTHING };
    Look { case: "locks are held in the order of outer acquires", lines: 10,
        held: &[LockId(3), LockId(1), LockId(4), LockId(2)], ..NOTHING };
    Look { case: "a swap is a load and a store", lines: 4, values: [5, 0], ..NOTHING };
};

fn make_once(memory: &mut Memory, call: &Call) -> Answer {
    memory.permit(call)?;
    if memory.prepare(call).is_err() {
        return Err(Refusal::OutOfMemory);
    }
    Ok(memory.apply(call))
}

// What a swap is answered: its load's value. Room for both events is made before the first.
fn swap_once(memory: &mut Memory, thread: ThreadId, var: VarId, arg: u64) -> Answer {
    let load = call(thread, Op::Load(var), 0);
    let store = call(thread, Op::Store(var), arg);
    memory.permit_swap(thread, var)?;
    let made = memory.prepare_swap(&load.event_with(0), &store.event_with(arg));
    if made.is_err() {
        return Err(Refusal::OutOfMemory);
    }
    let value = make_once(memory, &load)?;
    make_once(memory, &store)?;
    Ok(value)
}

fn act_once(memory: &mut Memory, act: &Act) -> Answer {
    match *act {
        Act::One(call) => make_once(memory, &call),
        Act::Swap {
            thread,
            var,
            arg,
            ..
        } => swap_once(memory, thread, var, arg),
    }
}

// The answer to the act, which is made once more where it is out of memory and is to be asked again.
fn make(memory: &mut Memory, act: &Act, asks_again: bool) -> Answer {
    match act_once(memory, act) {
        Err(Refusal::OutOfMemory) if asks_again => act_once(memory, act),
        answer => answer,
    }
}

fn expect_look(rt: &impl Abort, memory: &Memory, look: &Look) {
    let place = (look.case, look.lines);
    expect(rt, &place, memory.holder(L), look.holder);
    expect(rt, &place, memory.depth(L), look.depth);
    expect(rt, &place, memory.held(T0), look.held);
    expect(rt, &place, [memory.value(X), memory.value(Y)], look.values);
}

// A new memory gives the answers of the case, one after another.
fn expect_case(rt: &impl Abort, alloc: Global, case: &Case, asks_again: bool) {
    let limits = case.limits().expect(rt, case.name);
    let Ok(mut memory) = Memory::new(alloc, limits) else {
        unreachable!()
    };
    for index in 0..case.count() {
        let Line { act, answer, value } = case.line(index).expect(rt, case.name);
        let came = make(&mut memory, &act, asks_again);
        expect(rt, &(case.name, index), came, answer.and(Ok(value)));
        for look in LOOKS {
            if look.case == case.name && look.lines == index + 1 {
                expect_look(rt, &memory, look);
            }
        }
    }
    drop(memory);
}

fn expect_all(rt: &impl Abort, alloc: Global, asks_again: bool) {
    for cases in [CALLS, SWAPS] {
        for case in cases {
            expect_case(rt, alloc, case, asks_again);
        }
    }
}

/// The room is there once it was made, and a release finds its own.
#[test]
fn room_that_was_made_is_there(rt: HostRuntime) {
    let limits = Limits::new(2, 1, 1, 8, Roots::Free).expect(&rt, "small limits");
    let mut memory = Memory::new(rt.alloc(), limits).expect(&rt, "no memory is taken");
    let acquire = call(T1, Op::Acquire(L), 0);
    let load = call(T1, Op::Load(X), 0).event_with(0);
    let store = call(T1, Op::Store(X), 5);
    let fork = Op::Fork(T0);
    expect(&rt, &"prepare", memory.prepare(&acquire).is_ok(), true);
    expect(&rt, &"ready", memory.ready(&acquire), true);
    expect(&rt, &"made", make_once(&mut memory, &acquire), Ok(0));
    let release = call(T1, Op::Release(L), 0);
    expect(&rt, &"release", memory.ready(&release), true);
    let both = store.event_with(5);
    let made = memory.prepare_swap(&load, &both);
    expect(&rt, &"swap", made.is_ok(), true);
    expect(&rt, &"both", memory.ready_swap(&load, &both), true);
    expect(&rt, &"store", memory.ready(&store), true);
    let made = memory.prepare_for(T1, fork);
    expect(&rt, &"fork", made.is_ok(), true);
    expect(&rt, &"row", memory.ready_for(T1, fork), true);
    drop(memory);
}

#[test]
fn calls_and_swaps_are_answered(rt: HostRuntime) {
    expect_all(&rt, rt.alloc(), false);
}

#[test]
fn calls_and_swaps_are_answered_where_memory_is_refused(rt: HostRuntime) {
    expect_all(&rt, rt.alloc(), true);
}
