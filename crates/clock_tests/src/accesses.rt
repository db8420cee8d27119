//! Worked logs of accesses, and the verdicts on them by clocks of other logs.
ghost use Rattle.std.specs.Prelude.{◌≡◌, ℕ, ◌≤◌, length};
ghost use Rattle.access_check.specs.Tables.{count_at};

use crate::clocks::{Run, event};
use crate::expected::expect;
use access_check::Accesses;
use event_core::{Event, Limits, Op, Roots, Verdict};
use hb_clocks::{Clock, JoinedClocks};
use std::alloc::Global;
use std::process::Abort;
use test_doubles::rows;
use test_logs::{ACCESS_BEFORE_CONFLICT, T0, T1, THREE_STORES, X, call_at, count_lines};

/// What a case shows, a log by three threads, of each event how many events of another log's thread 0 are
/// ordered before it, and the indices of events that race, with those of the events that they race with.
type Case = (
    &'static str,
    &'static str,
    &'static [u32],
    &'static [(usize, u64)],
);

const CASES: &[Case] = rows! {
    "the greatest racing index is named", THREE_STORES, &[2, 2, 2, 2, 2], &[(3, 2), (4, 3)];
    "what is ordered before the access does not race",
        ACCESS_BEFORE_CONFLICT, &[1, 1, 1, 1, 1, 1, 1, 5, 5], &[(6, 1)];
    "loads do not conflict with loads",
        "T0|r(x)|1\nT1|r(x)|2\nT2|w(x)|3\nT0|r(x)|4\n", &[0, 0, 0, 0], &[(2, 1), (3, 2)];
    // The last store races, and so it forgets nothing.
    "a store without a race stands for what was before it",
        "T0|r(x)|1\nT1|w(x)|2\nT0|w(x)|3\nT2|r(x)|4\nT2|w(x)|5\n",
        &[0, 1, 0, 0, 2], &[(2, 1), (3, 2), (4, 1)];
    "accesses of one thread, or of different variables, do not conflict",
        "T1|w(x)|1\nT1|r(x)|2\nT1|w(x)|3\nT2|w(y)|4\n", &[0, 0, 0, 0], &[];
};

// A test that names the table itself is proved over each of its bytes.
fn cases() -> &'static [Case] {
    CASES
}

/// The accesses of a log of so many events by three threads.
#[derive(Drop)]
struct Log {
    limits: Limits,
    accesses: Accesses,
    length: u64,
    ghost width: { limits.threads ≡ 3 },
    ghost limits_of: { accesses.limits ≡ limits },
    ghost few: { (u : ℕ) → count_at accesses.counts u ≤ length },
}

impl Log {
    // It takes no memory.
    fn new(rt: &impl Abort, alloc: Global) -> Log {
        let limits = Limits::new(3, 1, 2, 64, Roots::Free).expect(rt, "small limits");
        let accesses = Accesses::new(alloc, limits).expect(rt, "no memory is taken");
        Log {
            limits,
            accesses,
            length: 0,
        }
    }

    // The verdict on the event, where the clock counts what is ordered before it: by the clock, and by it and
    // itself read as one.
    fn step(&mut self, rt: &impl Abort, event: &Event, clock: &Clock) -> [Verdict; 2]
        requires { length clock.now ≡ 3 }
    {
        assert!(rt; event.thread.0 < self.limits.threads());
        assert!(rt; self.accesses.make_room(event).is_ok(), "memory");
        assert!(rt; self.accesses.ready_for(event.thread, event.op));
        assert!(rt; self.length < 64);
        let joined = self
            .accesses
            .verdict(event, &JoinedClocks::new(clock, clock));
        let verdict = self.accesses.verdict(event, clock);
        self.accesses.note(event, self.length, verdict);
        self.length += 1;
        [verdict, joined]
    }
}

// The clocks of a log of so many events of thread 0 and of no others.
fn clocks_of(rt: &impl Abort, alloc: Global, count: u32) -> Run {
    let mut run = Run::new(rt, alloc);
    for _ in 0..count {
        run.take(rt, &event(T0, Op::Load(X)));
    }
    run
}

fn verdict_on(races: &[(usize, u64)], index: usize) -> Verdict {
    for (event, with) in races {
        if *event == index {
            return Verdict::Racy(*with);
        }
    }
    Verdict::Clear
}

#[test]
fn each_access_has_its_verdict(rt: HostRuntime) {
    for (name, text, counts, races) in cases() {
        let mut log = Log::new(&rt, rt.alloc());
        expect(&rt, name, count_lines(text), counts.len());
        for (index, count) in counts.iter().enumerate() {
            let call = call_at(text, index).expect(&rt, *name);
            let run = clocks_of(&rt, rt.alloc(), *count);
            let verdicts = log.step(&rt, &call.event_with(0), run.clocks.po(T0));
            let wanted = [verdict_on(races, index); 2];
            expect(&rt, &(*name, index), verdicts, wanted);
            drop(run);
        }
        drop(log);
    }
}

#[test]
fn a_swap_gets_room_for_both_its_events(rt: HostRuntime) {
    let mut log = Log::new(&rt, rt.alloc());
    let load = event(T1, Op::Load(X));
    let store = event(T1, Op::Store(X));
    assert!(rt;
        log.accesses.make_room_swap(&load, &store).is_ok(),
        "memory"
    );
    assert!(rt; log.accesses.ready_for(T1, Op::Load(X)));
    assert!(rt; log.accesses.ready_for(T1, Op::Store(X)));
    drop(log);
}
