//! Four threads that call the monitor at once.
ghost use Rattle.std.specs.Prelude.{◌≡◌};

use crate::calls::{Ask, SITE, begin, expect, fork, join, make};
use event_core::{
    Call, Event, Limits, LockId, Log, Op, Reply, Roots, SiteId, ThreadId, VarId, Verdict,
};
use live_monitor::{Closed, Tries, Unnamed, start};
use log_pass::Name;
use seq_monitor::Monitor;
use std::alloc::Global;
use std::marker::Brand;
use std::process::Abort;
use std::sync::Wait;
use std::thread::{Threads, for_each_mut};
use traced_thread::TracedThread;

/// How many rounds each thread makes.
const ROUNDS: u32 = 50;

/// A round's events: a load, a store, a section that holds nothing, and the two of a swap.
const ROUND: [Op; 6] = [
    Op::Load(VarId(0)),
    Op::Store(VarId(0)),
    Op::Acquire(LockId(0)),
    Op::Release(LockId(0)),
    Op::Load(VarId(1)),
    Op::Store(VarId(1)),
];

/// How often a refused acquire is tried.
const PATIENCE: u32 = 1_000_000;

/// Asks, and is to be accepted.
fn must<N: Name, R: Wait + Abort>(rt: &R, thread: &mut TracedThread<N>, ask: Ask, site: SiteId) {
    let asked = format_args!(
        "{ask:?} of thread {} in round {}",
        thread.thread().0,
        site.0
    );
    expect(rt, asked, make(rt, thread, ask, site).err(), None);
}

/// The values that a thread's swaps read.
type Values = [u64; 50];

/// Makes a round, at a site of its own. It swaps in the value, and gives the one that it read.
fn make_round<N: Name, R: Wait + Abort>(
    rt: &R,
    thread: &mut TracedThread<N>,
    round: u32,
    value: u64,
) -> u64 {
    let site = SiteId(round);
    must(rt, thread, Ask::Load(0), site);
    must(rt, thread, Ask::Store(0, 7), site);
    let acquired = thread.acquire_within(rt, LockId(0), site, &mut Tries::of(PATIENCE));
    expect(rt, "an acquire", acquired.err(), None);
    must(rt, thread, Ask::Release(0), site);
    let swapped = thread.swap(rt, VarId(1), value, site);
    swapped.expect(rt, "a swap").value
}

/// The value that the thread swaps in in its first round: of thread 1 it is 1, and of each later one 50 more.
fn first_value(thread: ThreadId) -> u64 {
    (50 * u64::from(thread.0)).saturating_sub(49)
}

/// Makes all rounds. The values that it swaps in are no other thread's.
fn make_rounds<N: Name, R: Wait + Abort>(rt: &R, thread: &mut TracedThread<N>) -> Values {
    let first = first_value(thread.thread());
    let mut values = [0; 50];
    for (round, read) in (0u32..).zip(&mut values) {
        *read = make_round(rt, thread, round, first.saturating_add(u64::from(round)));
    }
    values
}

/// The value is among 201, and was not read before.
fn note<R: Abort>(rt: &R, is_read: &mut [bool; 201], value: u64) {
    let place = value as usize;
    let was_read = is_read.get(place).copied();
    let asked = format_args!("whether {value} was read before");
    expect(rt, asked, was_read, Some(false));
    if place < 201 {
        is_read[place] = true;
    }
}

/// Threads 1 to 4 make their rounds at once. Of 201 values none is read twice, so each is read once.
fn make_all<N: Name + Send + Sync, R: Threads + Wait + Abort + Sync>(
    rt: &R,
    main: &mut TracedThread<N>,
) {
    let mut crew = [
        (fork(rt, main, ThreadId(1), false).0, [0; 50]),
        (fork(rt, main, ThreadId(2), false).0, [0; 50]),
        (fork(rt, main, ThreadId(3), false).0, [0; 50]),
        (fork(rt, main, ThreadId(4), false).0, [0; 50]),
    ];
    for_each_mut(rt, &mut crew, 4, &|_, it| it.1 = make_rounds(rt, &mut it.0));
    let mut is_read = [false; 201];
    for (thread, values) in crew {
        for value in values {
            note(rt, &mut is_read, value);
        }
        join(rt, main, thread, false);
    }
    let last = make(rt, main, Ask::Load(1), SITE).expect(rt, "a load");
    note(rt, &mut is_read, last.value);
}

/// The closed log of threads 1 to 4.
fn four_threads<N: Name + Send + Sync, R: Threads + Wait + Abort + Sync>(
    rt: &R,
    unnamed: Unnamed,
) -> Closed
    requires table { unnamed.table ≡ N.table }
    requires limits { unnamed.limits ≡ N.limits }
{
    let (shared, pass) = start::<N>(unnamed);
    let mut main = TracedThread::new(&shared, pass);
    make_all(rt, &mut main);
    let pass = main.into_pass();
    shared.close(pass)
}

/// Five threads, one lock and two variables.
fn limits<R: Abort>(rt: &R) -> Limits {
    Limits::new(5, 1, 2, 2048, Roots::OnlyMain).expect(rt, "limits")
}

fn run<R: Threads + Wait + Abort + Sync>(rt: &R, alloc: Global) -> Closed {
    four_threads::<Brand, _>(rt, begin(rt, alloc, limits(rt), false))
}

/// The event is the one of its thread's rounds that has so many before it, with the value that it stores.
fn expect_event<R: Abort>(rt: &R, event: &Event, before: usize) {
    let round = before / 6;
    let value = match before % 6 {
        1 => 7,
        5 => first_value(event.thread).saturating_add(round as u64),
        _ => event.value,
    };
    let asked = format_args!("event {before} of thread {}", event.thread.0);
    let came = (event.op, event.site.0 as usize, event.value);
    expect(rt, asked, came, (ROUND[before % 6], round, value));
}

/// The events of the thread are its rounds, each once and in order.
fn expect_rounds<R: Abort>(rt: &R, log: &Log, thread: ThreadId) {
    let mut count: usize = 0;
    for index in 0..log.len() {
        if let Some(event) = log.get(index)
            && event.thread == thread
        {
            expect_event(rt, &event, count);
            count = count.saturating_add(1);
        }
    }
    let asked = format_args!("events of thread {}", thread.0);
    expect(rt, asked, count, 6 * ROUNDS as usize);
}

/// The monitor accepts the call of the event as the next one, with the verdict.
fn expect_step<R: Abort>(rt: &R, monitor: &mut Monitor, event: Event, verdict: Verdict) {
    let index = monitor.log().len();
    let answer = monitor.step(Call {
        thread: event.thread,
        op: event.op,
        site: event.site,
        arg: event.value,
    });
    let reply = Reply {
        index,
        value: event.value,
        verdict,
    };
    let asked = format_args!("event {index}, replayed");
    expect(rt, asked, answer, Ok(reply));
}

/// The same calls, taken by a sequential monitor, are accepted with the same verdicts.
fn expect_replayed<R: Abort>(rt: &R, alloc: Global, closed: &Closed) {
    let mut monitor = Monitor::new(alloc, limits(rt)).expect(rt, "a monitor");
    for index in 0..closed.len() {
        if let Some(event) = closed.log().get(index) {
            expect_step(rt, &mut monitor, event, closed.verdict_at(index));
        }
    }
    let (ours, theirs) = (monitor.verdicts(), closed.verdicts());
    expect(rt, "verdicts of the replay", ours.len(), theirs.len());
    expect(rt, "races of the replay", ours.races(), theirs.races());
    drop(monitor);
}

/// The closed log has each thread's calls in order, with the verdicts of a sequential monitor. And of the
/// values that swaps store, and the first, each comes out once.
#[test]
fn four_threads_share_one_log(rt: HostRuntime) {
    let closed = run(&rt, rt.alloc());
    expect(&rt, "events of all threads", closed.len(), 4 * 300 + 9);
    for thread in 1..5 {
        expect_rounds(&rt, closed.log(), ThreadId(thread));
    }
    expect_replayed(&rt, rt.alloc(), &closed);
    drop(closed);
}
