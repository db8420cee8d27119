//! Which limits are taken, how a log grows, and what a step tells.
use crate::clocks::event;
use crate::expected::expect;
use LimitFault::{Events, Locks, Threads, Vars};
use Roots::{Free, OnlyMain};
use event_core::{Event, LimitFault, Limits, Log, Op, Roots, SiteId, Step, ThreadId};
use std::alloc::Global;
use std::process::Abort;
use test_doubles::rows;
use test_logs::{T1, X, add, call_at, count_lines, line_at};

const LAST: u32 = 4294967295;

// Numbers of threads, locks, variables and events, which threads run from the beginning, and the first number
// that is out of its bounds.
const LIMITS: &[(u32, u32, u32, u64, Roots, Option<LimitFault>)] = rows! {
    1, 1, 1, 1, OnlyMain, None;
    1024, 1048576, 1048575, 4294967296, Free, None;
    0, 0, 0, 0, Free, Some(Threads);
    1025, 0, 0, 0, Free, Some(Threads);
    1, 0, 0, 0, Free, Some(Locks);
    1, 1048577, 0, 0, Free, Some(Locks);
    1, 1, 0, 0, Free, Some(Vars);
    1, 1, LAST, 0, Free, Some(Vars);
    1, 1, 1, 0, Free, Some(Events);
    1, 1, 1, 4294967297, Free, Some(Events);
};

// What a log has in common with its events, and their text.
const LOGS: &[(&str, &str)] = rows! {
    "a log grows where there is room", "T0|fork(T1)|1\nT1|r(x)|2\n";
    "each event has its own value", "T0|fork(T1)|1\nT1|w(x)|2|7\nT1|r(x)|3\nT1|w(x)|4|9\n";
};

// Events of small numbers, and of numbers that take more than a row of a log has for them.
const ANY_NUMBERS: &str = "T0|fork(T1)|1\nT1|w(x)|2|4294967300\nT1023|r(1048575)|3\nT1|acq(7)|4\n\
    T1|rel(7)|5\nT5000|w(3)|6\nT2|r(1048576)|7\nT4294967295|acq(4294967295)|8\nT1|w(x)|9|9\n\
    T0|join(T1)|10\n";

#[test]
fn limits_are_taken_up_to_the_greatest_and_else_the_first_fault_is_told(rt: HostRuntime) {
    for (row, (threads, locks, vars, events, roots, fault)) in LIMITS.iter().enumerate() {
        let made = Limits::new(*threads, *locks, *vars, *events, *roots);
        expect(&rt, &row, made.err(), *fault);
        if let Ok(made) = &made {
            let came = (
                made.threads(),
                made.locks(),
                made.vars(),
                made.events(),
                made.roots(),
            );
            expect(&rt, &row, came, (*threads, *locks, *vars, *events, *roots));
        }
    }
}

// A log of the events.
fn log_of(rt: &impl Abort, alloc: Global, events: &[Event]) -> Log {
    let mut log = Log::new(alloc);
    assert!(rt; log.len() == 0 && log.get(0).is_none());
    assert!(rt; log.reserve(events.len()).is_ok(), "memory");
    assert!(rt; log.has_room(events.len()));
    for event in events {
        assert!(rt; log.has_room(1), "what was reserved is there");
        log.push(*event);
    }
    log
}

// The log has the events, and none beyond them.
fn expect_given_back(rt: &impl Abort, alloc: Global, name: &str, events: &[Event]) {
    let log = log_of(rt, alloc, events);
    for (row, event) in events.iter().enumerate() {
        expect(rt, &(name, row), log.get(row as u64), Some(*event));
    }
    let end = (log.len(), log.get(log.len()), log.get(4294967296));
    expect(rt, &name, end, (events.len() as u64, None, None));
    drop(log);
}

fn event_at(rt: &impl Abort, text: &str, index: usize) -> Event {
    let line = line_at(text, index).expect(rt, "a line");
    call_at(text, index)
        .expect(rt, "a call")
        .event_with(line.value)
}

#[test]
fn each_event_of_a_log_is_given_back(rt: HostRuntime) {
    for (name, text) in LOGS {
        let mut events = Vec::new(rt.alloc());
        for index in 0..count_lines(text) {
            add(&mut events, event_at(&rt, text, index));
        }
        expect_given_back(&rt, rt.alloc(), name, &events);
        drop(events);
    }
}

// A log gives an event back at each place where it was added, and another one between.
#[test]
fn an_event_of_any_numbers_is_given_back(rt: HostRuntime) {
    let load = event(T1, Op::Load(X));
    for index in 0..count_lines(ANY_NUMBERS) {
        for site in [0, 2147483647, LAST] {
            let given = Event {
                site: SiteId(site),
                ..event_at(&rt, ANY_NUMBERS, index)
            };
            expect_given_back(&rt, rt.alloc(), "any numbers", &[given, load, given]);
        }
    }
}

#[test]
fn more_room_than_there_can_be_is_refused(rt: HostRuntime) {
    let mut log = log_of(&rt, rt.alloc(), &[event(T1, Op::Store(X))]);
    assert!(rt; log.reserve(usize::MAX).is_err());
    assert!(rt; log.len() == 1 && !log.has_room(usize::MAX));
    drop(log);
}

#[test]
fn a_step_tells_its_thread_its_child_and_its_events(rt: HostRuntime) {
    let (third, fourth, child) = (ThreadId(3), ThreadId(4), ThreadId(5));
    let swap = Step::Swap(event(fourth, Op::Load(X)), event(fourth, Op::Store(X)));
    let steps: &[(Step, ThreadId, Option<ThreadId>, u64)] = rows! {
        Step::One(event(third, Op::Fork(child))), third, Some(child), 1;
        Step::One(event(third, Op::Join(child))), third, None, 1;
        swap, fourth, None, 2;
    };
    for (row, (step, thread, child, count)) in steps.iter().enumerate() {
        let came = (step.thread(), step.child(), step.count());
        expect(&rt, &row, came, (*thread, *child, *count));
    }
}
