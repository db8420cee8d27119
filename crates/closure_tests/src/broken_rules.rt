//! Logs in which each rule tells.
//!
//! Each log is drawn from a template with nested sections on two locks, and ends in random events. The
//! monitor and the closure judge them alike. Where one rule of the closure is broken, it judges some event of
//! at least 20 of the 500 logs otherwise: so many tell the rules apart. At least 20 forks, joins and swaps
//! are wanted too. How many there are of each, only a run can tell: with this generator 97 forks, 321 joins
//! and 794 swaps, and logs for the broken rules, in their order, 126, 55, 62, 71, 307 and 66.
use crate::closure::Closure;
use crate::draws::draw_acts;
use crate::expected::expect;
use crate::pairs::MOST_EVENTS;
use crate::random_logs::{expect_enough, increase};
use crate::rules::Rules;
use crate::told::{Told, Trial, Way, tell};
use event_core::{Done, Limits, Op, Roots};
use std::alloc::Global;
use test_doubles::rows;
use test_logs::Generator;

const LOGS: usize = 500;

// The broken rules.
const BROKEN: &[(Rules, &str)] = rows! {
    // Accesses that only releases of one lock order race.
    Rules::WithoutB, "rule (b) is left out";
    // Accesses that only releases of one thread order race.
    Rules::BWithoutOwnThread, "(b) without own thread";
    // What an idle child's fork and join order races.
    Rules::WithoutForkToJoin, "no fork below its join";
    // Races with accesses before the conflicting one are missed.
    Rules::AToAcquire, "(a) ends at the acquire";
    // The conflicting accesses race.
    Rules::AToRelease, "(a) ends at the release";
    // Races with what is before accesses of one thread are missed.
    Rules::AWithOwnThread, "(a) with own thread";
};

// What is counted of the acts that are accepted.
const ACTS: [&str; 3] = ["forks", "joins", "swaps"];

fn count_acts(counts: &mut [u64; 3], told: &Told) {
    for event in &told.log {
        increase(&mut counts[0], u64::from(matches!(event.op, Op::Fork(_))));
        increase(&mut counts[1], u64::from(matches!(event.op, Op::Join(_))));
    }
    for done in &told.answers {
        increase(&mut counts[2], u64::from(matches!(done, Done::Swap(_))));
    }
}

// Counts for each of the broken rules whether it judges the log otherwise.
fn count_changed(counts: &mut [u64; 6], alloc: Global, told: &Told) {
    for (count, (rules, _name)) in counts.iter_mut().zip(BROKEN) {
        let closure = Closure::of(alloc, &told.log, *rules);
        let is_same = closure.has_verdicts(&told.log, &told.verdicts);
        increase(count, u64::from(!is_same));
    }
}

#[test]
fn each_broken_rule_changes_verdicts(rt: HostRuntime) {
    let alloc = rt.alloc();
    let limits = Limits::new(3, 2, 2, MOST_EVENTS as u64, Roots::Free).expect(&rt, "small limits");
    let mut generator = Generator::new(2017);
    let (mut accepted, mut changed) = ([0; 3], [0; 6]);
    for number in 0..LOGS {
        let trial = Trial {
            case: "log of a template",
            number,
            way: Way::Steps(u64::MAX),
            tries: 1,
        };
        let acts = draw_acts(&rt, &mut generator, alloc);
        let told = tell(&rt, alloc, limits, &acts, trial);
        expect(&rt, &trial, told.answers.len(), acts.len());
        told.compare(&rt, alloc, trial);
        count_acts(&mut accepted, &told);
        count_changed(&mut changed, alloc, &told);
        drop(told);
        drop(acts);
    }
    for (what, count) in ACTS.iter().zip(accepted) {
        expect_enough(&rt, what, count);
    }
    for (count, (_, name)) in changed.iter().zip(BROKEN) {
        expect_enough(&rt, name, *count);
    }
}
