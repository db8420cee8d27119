//! Random logs: for each pair of conflicting accesses, the searcher and the judge.
use crate::expected::expect;
use crate::judge::{Order, Orders, conflict, has_witness, is_next, may_follow};
use crate::recorded::Recorded;
use event_core::{Event, LockId, Op, Roots, ThreadId, VarId};
use std::alloc::Global;
use std::process::Abort;
use test_logs::{Generator, call};
use witness::Searcher;

const LOGS: usize = 500;

// How many events a log has.
const EVENTS: u64 = 8;

// How many calls are tried for one.
const CALLS: usize = 400;

// What some thread may do.
fn draw_op(generator: &mut Generator) -> Op {
    let lock = LockId(generator.below(2));
    let var = VarId(generator.below(2));
    let child = ThreadId(generator.below(3));
    match generator.below(32) {
        0..=4 => Op::Load(var),
        5..=12 => Op::Store(var),
        13..=19 => Op::Acquire(lock),
        20..=29 => Op::Release(lock),
        30 => Op::Fork(child),
        _ => Op::Join(child),
    }
}

// Makes calls until the log has its events.
fn fill(generator: &mut Generator, recorded: &mut Recorded) {
    for _call in 0..CALLS {
        if EVENTS <= recorded.len() {
            return;
        }
        let thread = ThreadId(generator.below(3));
        recorded.make(&call(thread, draw_op(generator), 0));
    }
}

// Whether the events are a witness for both accesses, by the judge.
fn is_witness(events: &[Event], proposed: &[u32], i: usize, j: usize) -> bool {
    let mut order = Order::NONE;
    for index in proposed {
        let index = *index as usize;
        let Some(event) = events.get(index) else {
            return false;
        };
        if index == i || index == j || !may_follow(events, &order, index, Orders::All) {
            return false;
        }
        order = order.with(index, event);
    }
    is_next(events, &order, i) && is_next(events, &order, j)
}

// Compares the searcher's answer on the pair with the judge's. Answers whether it was a witness.
fn compare(
    rt: &impl Abort,
    searcher: &mut Searcher,
    events: &[Event],
    number: usize,
    i: usize,
    j: usize,
) -> bool {
    let found = searcher.witness(i as u64, j as u64).ok();
    let most = EVENTS as u32;
    match found.expect(rt, "memory") {
        Some(witness) => {
            let any = has_witness(events, &Order::NONE, i, j, Orders::All, most);
            let is = is_witness(events, &witness.events, i, j);
            expect(rt, &("a witness", number, i, j), (any, is), (true, true));
            true
        }
        None => {
            let kept = has_witness(events, &Order::NONE, i, j, Orders::OfSections, most);
            expect(rt, &("a witness is missed", number, i, j), kept, false);
            false
        }
    }
}

// Compares them on all pairs of the log. Answers how many have a witness, and how many have none.
fn compare_log(rt: &impl Abort, alloc: Global, recorded: &Recorded, number: usize) -> (u32, u32) {
    let (mut given, mut none): (u32, u32) = (0, 0);
    let events = recorded.events(alloc);
    let mut searcher = recorded.searcher(alloc).ok().expect(rt, "memory");
    for (j, second) in events.iter().enumerate() {
        for (i, first) in events.iter().enumerate() {
            if i < j && conflict(first, second) {
                if compare(rt, &mut searcher, &events, number, i, j) {
                    given = given.saturating_add(1);
                } else {
                    none = none.saturating_add(1);
                }
            }
        }
    }
    (given, none)
}

#[test]
fn the_searcher_and_the_judge_answer_alike(rt: HostRuntime) {
    let mut generator = Generator::new(78);
    let (mut given, mut none): (u32, u32) = (0, 0);
    for number in 0..LOGS {
        let roots = if number % 2 == 0 {
            Roots::Free
        } else {
            Roots::OnlyMain
        };
        let mut recorded = Recorded::new(&rt, rt.alloc(), roots);
        fill(&mut generator, &mut recorded);
        let seen = compare_log(&rt, rt.alloc(), &recorded, number);
        given = given.saturating_add(seen.0);
        none = none.saturating_add(seen.1);
    }
    expect(&rt, &("with a witness", given), 200 <= given, true);
    expect(&rt, &("with none", none), 100 <= none, true);
}
