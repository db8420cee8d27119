//! The comparison on random logs.
use crate::closure::Closure;
use crate::draws::draw_calls;
use crate::expected::expect;
use crate::sections::is_inner_acquire;
use crate::told::{Told, Trial, Way, tell};
use event_core::{Limits, Roots, Verdict};
use std::process::Abort;
use test_logs::Generator;

const LOGS: usize = 500;

// Of each kind of thing at least so many are wanted in all logs together.
pub const FEWEST: u64 = 20;

const EVENTS: u64 = 24;

// Enough calls that so many are accepted.
const CALLS: u32 = 512;

// What is counted: pairs that are strictly ordered, beyond program order; pairs that happens-before orders,
// and weak causal precedence does not; events that race; and acquires of locks that are held.
const COUNTED: [&str; 4] = [
    "strict pairs",
    "unordered pairs",
    "racy verdicts",
    "inner acquires",
];

pub fn increase(count: &mut u64, more: u64) {
    *count = count.saturating_add(more);
}

/// Ends the test unless there are enough.
pub fn expect_enough(rt: &impl Abort, what: &str, count: u64) {
    expect(rt, &(what, count), FEWEST <= count, true);
}

fn count(counts: &mut [u64; 4], told: &Told, closure: &Closure) {
    let strict = closure.strict.without(&closure.program_order);
    let happens_before = closure.happens_before.without(&closure.program_order);
    increase(&mut counts[0], strict.count());
    increase(
        &mut counts[1],
        happens_before.without(&closure.strict).count(),
    );
    for verdict in &told.verdicts {
        increase(&mut counts[2], u64::from(*verdict != Verdict::Clear));
    }
    for (index, event) in told.log.iter().enumerate() {
        let is_inner = is_inner_acquire(&told.log[..index], event);
        increase(&mut counts[3], u64::from(is_inner));
    }
}

#[test]
fn the_monitor_and_the_closure_judge_alike(rt: HostRuntime) {
    let alloc = rt.alloc();
    let limits = Limits::new(3, 4, 3, 64, Roots::Free).expect(&rt, "small limits");
    let mut generator = Generator::new(204);
    let mut counts = [0; 4];
    for number in 0..LOGS {
        let trial = Trial {
            case: "random log",
            number,
            way: Way::Steps(EVENTS),
            tries: 1,
        };
        let acts = draw_calls(&mut generator, alloc, CALLS);
        let told = tell(&rt, alloc, limits, &acts, trial);
        expect(&rt, &trial, told.log.len() as u64, EVENTS);
        count(&mut counts, &told, &told.compare(&rt, alloc, trial));
        drop(told);
        drop(acts);
    }
    for (what, count) in COUNTED.iter().zip(counts) {
        expect_enough(&rt, what, count);
    }
}
