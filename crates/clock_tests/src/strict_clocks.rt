//! Strict clocks of small logs.
//!
//! How many events of each thread strictly precede an event is worked out by hand from the paper's rules. A
//! memory permits each call, so the events are legal.
ghost use Rattle.std.specs.Prelude.{◌≡◌, ◌++◌, ◌∷◌, [], List};
ghost use Rattle.event_core.specs.declared.events.Event.{Event};
ghost use Rattle.traced_mem.specs.Standing.{StandsFor};
ghost use Rattle.wcp_clocks.specs.Parts.{IsReady, IsWithin, SameLimits, SameNumbers, width_of};
ghost use Rattle.clock_tests.specs.OneLog.{small, StandForOneLog};

use crate::clocks::{event, numbers_of};
use crate::expected::expect;
use AccessKind::{Read, Write};
use event_core::{AccessKind, Call, Event, Limits, LockId, Op, Roots, ThreadId, VarId};
use std::alloc::Global;
use std::process::Abort;
use test_doubles::rows;
use test_logs::{
    M, NESTED_SECTIONS, RELEASES_OF_ONE_THREAD, T0, T1, T2, X, Y, call_at, count_lines,
};
use traced_mem::Memory;
use wcp_clocks::WcpClocks;

/// A log, and what its strict clocks count.
struct Case {
    name: &'static str,
    text: &'static str,
    /// `(9, T1, [5, 0, 0])`: from event 9 on, five events of T0 strictly precede each event of T1, and none
    /// of T1 and T2. Before its first entry no events precede a thread's events.
    strict: &'static [(usize, ThreadId, [u64; 3])],
    /// The thread of the last event, and how many are below it.
    last: (ThreadId, [u64; 3]),
    met: &'static [Met],
}

/// After so many events, the thread's access under the lock to the variable meets releases: of each its
/// thread, and of each thread how many events happened before it, which is one of them.
type Met = (
    usize,
    ThreadId,
    LockId,
    VarId,
    AccessKind,
    &'static [(ThreadId, [u64; 3])],
);

const CASES: &[Case] = rows! {
    // T1's load takes the release of m, T0's fifth event, and with it the acquire of T0's section on l. So
    // T1's release of l takes T0's release of l, its seventh event.
    Case {
        name: "rule (b) adds the earlier release at the later one",
        text: NESTED_SECTIONS,
        strict: &[(9, T1, [5, 0, 0]), (12, T1, [7, 0, 0])],
        last: (T1, [7, 6, 0]),
        // T1 has acquired m. T0's store to x is in the section on m that T0's fifth event ended.
        met: rows! {
            8, T1, M, X, Read, &[(T0, [5, 0, 0])];
            8, T1, M, X, Write, &[(T0, [5, 0, 0])];
            // its own, and another variable
            8, T0, M, X, Write, &[];
            8, T1, M, Y, Write, &[];
        },
    };
    // T1's load takes T0's release of m, and with it the acquire of T0's first section on l. The lock k
    // brings that to T0. So T0's second release of l takes the first, T0's ninth event, and the three events
    // of T2 that happen before it.
    Case {
        name: "rule (b) orders the releases of one thread",
        text: RELEASES_OF_ONE_THREAD,
        strict: &[(14, T1, [6, 0, 0]), (18, T0, [6, 0, 0]), (21, T0, [9, 0, 3])],
        last: (T0, [14, 0, 3]),
        // A store meets the newest store and the newest load. On m T0's section with a store to x ended at
        // T0's sixth event, and T1's with a load of x at T1's third, before which T0's six happened.
        met: rows! {
            15, T2, M, X, Read, &[(T0, [6, 0, 0])];
            15, T2, M, X, Write, &[(T0, [6, 0, 0]), (T1, [6, 3, 0])];
        },
    };
    // The section on l ends before the store to y, and the section on k after it.
    Case {
        name: "a release ends the section of its own lock",
        text: "T0|fork(T1)|1\nT0|acq(l)|2\nT0|acq(k)|3\nT0|w(x)|4\nT0|rel(l)|5\nT0|w(y)|6\nT0|rel(k)|7\n\
            T1|acq(l)|8\nT1|r(x)|9\nT1|r(y)|10\nT1|rel(l)|11\nT1|acq(k)|12\nT1|r(y)|13\nT1|rel(k)|14\n\
            T0|join(T1)|15\n",
        strict: &[(9, T1, [5, 0, 0]), (13, T1, [7, 0, 0]), (15, T0, [7, 0, 0])],
        last: (T0, [8, 7, 0]),
        met: &[],
    };
    // T0's sections on l and on m overlap, and the store to x is in the first alone. So by rule (a) T1's load
    // of x takes T0's release of l, its fifth event, and no more. T0's acquire of m, its fourth event,
    // happens before that release, so it strictly precedes the load, which is in T1's section on m. So by
    // rule (b) T1's release of m takes T0's release of m, its seventh event. Its release of l does not.
    Case {
        name: "rule (b) orders the releases of overlapping sections",
        text: "T0|fork(T1)|1\nT0|acq(l)|2\nT0|w(x)|3\nT0|acq(m)|4\nT0|rel(l)|5\nT0|w(y)|6\nT0|rel(m)|7\n\
            T1|acq(l)|8\nT1|acq(m)|9\nT1|r(x)|10\nT1|rel(l)|11\nT1|rel(m)|12\nT1|r(y)|13\n",
        strict: &[(10, T1, [5, 0, 0]), (12, T1, [7, 0, 0])],
        last: (T1, [7, 6, 0]),
        met: &[],
    };
    // Both stores come after an inner release, and are in the sections of the outer acquires. The outer
    // release is T0's sixth event.
    Case {
        name: "an inner release ends no section",
        text: "T0|fork(T1)|1\nT0|acq(l)|2\nT0|acq(l)|3\nT0|rel(l)|4\nT0|w(x)|5\nT0|rel(l)|6\nT1|acq(l)|7\n\
            T1|acq(l)|8\nT1|rel(l)|9\nT1|w(x)|10\nT1|rel(l)|11\n",
        strict: &[(10, T1, [6, 0, 0])],
        last: (T1, [6, 5, 0]),
        met: &[],
    };
};

// A test that names the table itself is proved over each of its bytes.
fn cases() -> &'static [Case] {
    CASES
}

fn small_limits(rt: &impl Abort) -> Limits
    ensures { result ≡ small }
{
    Limits::new(3, 4, 3, 64, Roots::OnlyMain).expect(rt, "small limits")
}

// Makes room for the event.
fn prepare(rt: &impl Abort, clocks: &mut WcpClocks, event: &Event)
    requires { IsWithin clocks.old event.now.thread event.now.op }
    ensures same { SameNumbers clocks.old clocks.new }
    ensures limits { SameLimits clocks.old clocks.new }
    ensures ready { IsReady clocks.new event.now.thread event.now.op }
{
    assert!(rt; clocks.prepare(event).is_ok(), "memory");
}

// The event of the call, which has to be permitted.
fn make(rt: &impl Abort, memory: &mut Memory, call: &Call) -> Event
    ensures limits { memory.new.limits ≡ memory.old.limits }
    ensures stands { (log : List Event) → StandsFor log memory.old
        → StandsFor (log ++ result ∷ []) memory.new }
{
    memory.permit(call).expect(rt, "permitted");
    memory.prepare(call).expect(rt, "memory");
    let value = memory.apply(call);
    call.event_with(value)
}

// Takes the event of the call.
fn take(rt: &impl Abort, memory: &mut Memory, clocks: &mut WcpClocks, call: &Call)
    requires { StandForOneLog memory.old clocks.old }
    ensures { StandForOneLog memory.new clocks.new }
{
    let event = make(rt, memory, call);
    prepare(rt, clocks, &event);
    clocks.advance(&event);
}

// The last event has so many of each thread below it, which its thread's clock counts.
fn expect_below(rt: &impl Abort, clocks: &WcpClocks, case: &Case)
    requires { width_of clocks.now ≡ 3 }
{
    let (thread, wanted) = case.last;
    let below = [
        clocks.below(thread, T0),
        clocks.below(thread, T1),
        clocks.below(thread, T2),
    ];
    expect(rt, &(case.name, "below"), below, wanted);
    let clock = clocks.clock(thread);
    let counted = [clock.at(T0), clock.at(T1), clock.at(T2)];
    expect(rt, &(case.name, "clock"), counted, wanted);
}

// The access meets its releases.
fn expect_met(rt: &impl Abort, alloc: Global, clocks: &WcpClocks, name: &str, met: &Met)
    requires { width_of clocks.now ≡ 3 }
{
    let (_after, thread, lock, var, kind, wanted) = *met;
    let mut sources = clocks.sources(thread, lock, var, kind);
    for row in wanted {
        let release = sources.next().expect(rt, "a release");
        let came = (release.by(), numbers_of(rt, alloc, &release));
        expect(rt, &(name, thread, var, kind), came, *row);
    }
    assert!(rt; sources.next().is_none());
    drop(sources);
}

// The strict numbers of the thread's event with the number.
fn strict_numbers(case: &Case, thread: ThreadId, number: usize) -> [u64; 3] {
    let mut numbers = [0; 3];
    for (from, of, those) in case.strict {
        if *from <= number && *of == thread {
            numbers = *those;
        }
    }
    numbers
}

// What the clocks count after the thread's event with the number.
fn look(
    rt: &impl Abort,
    alloc: Global,
    clocks: &WcpClocks,
    case: &Case,
    thread: ThreadId,
    number: usize,
)
    requires { width_of clocks.now ≡ 3 }
{
    let strict = [
        clocks.strict(thread, T0),
        clocks.strict(thread, T1),
        clocks.strict(thread, T2),
    ];
    let wanted = strict_numbers(case, thread, number);
    expect(rt, &(case.name, number), strict, wanted);
    for met in case.met {
        if met.0 == number {
            expect_met(rt, alloc, clocks, case.name, met);
        }
    }
}

fn follow(rt: &impl Abort, alloc: Global, case: &Case) {
    let limits = small_limits(rt);
    let mut memory = Memory::new(alloc, limits).expect(rt, "no memory is taken");
    let mut clocks = WcpClocks::new(alloc, limits).expect(rt, "memory");
    for index in 0..count_lines(case.text) {
        let call = call_at(case.text, index).expect(rt, case.name);
        take(rt, &mut memory, &mut clocks, &call);
        look(rt, alloc, &clocks, case, call.thread, index + 1);
    }
    expect_below(rt, &clocks, case);
    drop(memory);
    drop(clocks);
}

#[test]
fn each_log_has_its_strict_numbers(rt: HostRuntime) {
    for case in cases() {
        follow(&rt, rt.alloc(), case);
    }
}

#[test]
fn room_for_a_swap_serves_its_load_and_its_store(rt: HostRuntime) {
    let limits = small_limits(&rt);
    let mut clocks = WcpClocks::new(rt.alloc(), limits).expect(&rt, "memory");
    let load = event(T0, Op::Load(Y));
    let store = event(T0, Op::Store(Y));
    assert!(rt; !clocks.ready_swap(&load, &store));
    assert!(rt; clocks.prepare_swap(&load, &store).is_ok(), "memory");
    assert!(rt; clocks.ready_swap(&load, &store));
    assert!(rt; clocks.ready(&load));
    assert!(rt; clocks.ready(&store));
    drop(clocks);
}
