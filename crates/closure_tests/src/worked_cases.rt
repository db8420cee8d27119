//! Worked cases: a monitor answers each by each way to make its acts, and the closure judges alike.
use crate::expected::expect;
use crate::told::{Told, Trial, Way, tell};
use event_core::{Act, Done, Reply, SwapReply, Verdict};
use std::alloc::Global;
use std::process::Abort;
use test_logs::{CALLS, Case, LOGS, Line, SWAPS, add};

const FOR_CALLS: &[Way] = &[Way::Steps(u64::MAX), Way::Prepared, Way::Run, Way::RunActs];

const FOR_SWAPS: &[Way] = &[Way::Steps(u64::MAX), Way::RunActs];

fn verdict(case: &Case, index: u64) -> Verdict {
    for race in case.races {
        if race.event == index {
            return Verdict::Racy(race.with);
        }
    }
    Verdict::Clear
}

// What a monitor answers.
fn done(case: &Case, line: Line) -> Done {
    match (line.answer, line.act) {
        (Err(refusal), _) => Done::Refused(refusal),
        (Ok(index), Act::One(_)) => Done::One(Reply {
            index,
            value: line.value,
            verdict: verdict(case, index),
        }),
        (Ok(index), Act::Swap { .. }) => Done::Swap(SwapReply {
            index,
            value: line.value,
            load: verdict(case, index),
            store: verdict(case, index.wrapping_add(1)),
        }),
    }
}

fn count_events(done: Done) -> usize {
    match done {
        Done::One(_) => 1,
        Done::Swap(_) => 2,
        Done::Refused(_) => 0,
    }
}

fn expect_told(rt: &impl Abort, case: &Case, told: &Told, trial: Trial) {
    let mut events: usize = 0;
    for index in 0..case.count() {
        let wanted = done(case, case.line(index).expect(rt, case.name));
        let came = told.answers.get(index).copied();
        expect(rt, &(trial, "answer", index), came, Some(wanted));
        events = events.saturating_add(count_events(wanted));
    }
    expect(rt, &(trial, "answers"), told.answers.len(), case.count());
    expect(rt, &(trial, "events"), told.log.len(), events);
    expect(rt, &(trial, "races"), told.races.as_slice(), case.races);
}

fn expect_all(rt: &impl Abort, alloc: Global, cases: &[Case], ways: &[Way], tries: u32) {
    for case in cases {
        let mut acts = Vec::new(alloc);
        for index in 0..case.count() {
            add(&mut acts, case.line(index).expect(rt, case.name).act);
        }
        for way in ways {
            let trial = Trial {
                case: case.name,
                number: 0,
                way: *way,
                tries,
            };
            let told = tell(rt, alloc, case.limits().expect(rt, case.name), &acts, trial);
            expect_told(rt, case, &told, trial);
            told.compare(rt, alloc, trial);
            drop(told);
        }
        drop(acts);
    }
}

#[test]
fn each_log_has_its_races(rt: HostRuntime) {
    expect_all(&rt, rt.alloc(), LOGS, FOR_CALLS, 1);
}

#[test]
fn each_log_has_its_races_where_memory_is_refused(rt: HostRuntime) {
    expect_all(&rt, rt.alloc(), LOGS, FOR_CALLS, 2);
}

#[test]
fn each_call_has_its_outcome(rt: HostRuntime) {
    expect_all(&rt, rt.alloc(), CALLS, FOR_CALLS, 1);
}

#[test]
fn each_call_has_its_outcome_where_memory_is_refused(rt: HostRuntime) {
    expect_all(&rt, rt.alloc(), CALLS, FOR_CALLS, 2);
}

#[test]
fn each_swap_is_answered(rt: HostRuntime) {
    expect_all(&rt, rt.alloc(), SWAPS, FOR_SWAPS, 1);
}

#[test]
fn each_swap_is_answered_where_memory_is_refused(rt: HostRuntime) {
    expect_all(&rt, rt.alloc(), SWAPS, FOR_SWAPS, 2);
}
