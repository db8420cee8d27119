//! Gates that hold lines back.
use crate::scripts::{EVENTS, PATIENCE, expect_answer};
use event_core::ThreadId;
use script_drive::Gate;
use std::sync::atomic::{AtomicU64, AtomicUsize, Ordering};
use std::test::*;
use test_doubles::rows;

/// Never lets a line go ahead. It counts how often it is asked.
#[derive(Drop)]
pub struct Shut {
    pub asked: AtomicU64,
}

impl Gate for Shut {
    fn enter(&self, _thread: ThreadId, _line: u64) -> bool {
        self.asked.fetch_add(1, Ordering::SeqCst);
        false
    }

    fn done(&self, _thread: ThreadId, _line: u64) {}
}

#[test]
fn a_shut_gate_is_asked_as_often_as_patience_allows(rt: HostRuntime) {
    let gate = Shut {
        asked: AtomicU64::new(0),
    };
    let case = (
        "m r x\n",
        EVENTS,
        3,
        "Stuck { thread: ThreadId(0), line: 1 }",
    );
    expect_answer(&rt, rt.alloc(), &gate, case);
    let asked = gate.asked.load(Ordering::SeqCst);
    assert_eq!(&rt; asked, 3, "so often the gate was asked");
}

/// Lets each line go ahead once those before it in the order were done, and is told that it is.
#[derive(Drop)]
struct InOrder {
    lines: &'static [(ThreadId, u64)],
    /// How many times a line of the order went ahead or was done, in order, and how many others were done.
    heard: AtomicUsize,
    others: AtomicUsize,
}

impl InOrder {
    fn of(lines: &'static [(ThreadId, u64)]) -> InOrder {
        InOrder {
            lines,
            heard: AtomicUsize::new(0),
            others: AtomicUsize::new(0),
        }
    }

    // Whether this comes next. A line is done just after it went ahead.
    fn hears(&self, line: (ThreadId, u64), is_done: bool) -> bool {
        let heard = self.heard.load(Ordering::SeqCst);
        let is_next = self.lines.get(heard / 2) == Some(&line) && (heard % 2 == 1) == is_done;
        if is_next {
            self.heard.fetch_add(1, Ordering::SeqCst);
        }
        is_next
    }
}

impl Gate for InOrder {
    fn enter(&self, thread: ThreadId, line: u64) -> bool {
        self.hears((thread, line), false)
    }

    fn done(&self, thread: ThreadId, line: u64) {
        if !self.hears((thread, line), true) {
            self.others.fetch_add(1, Ordering::SeqCst);
        }
    }
}

const M: ThreadId = ThreadId(0);

const A: ThreadId = ThreadId(1);

/// A section of the main thread and one of its child, which both store.
const SECTIONS: &str =
    "m fork a\nm acq l\nm w x 1\nm rel l\na acq l\na w x 2\na rel l\nm join a\nm r x\n";

/// A script, in which order its lines are run, how often a line went ahead or was done, and the answer.
const ORDERS: &[(&str, &[(ThreadId, u64)], usize, &str)] = rows! {
    SECTIONS, &[(M, 1), (M, 2), (M, 3), (M, 4), (A, 5), (A, 6), (A, 7), (M, 8), (M, 9)], 18,
        "9 events, 0 races\nT0 Fork(ThreadId(1)) at 0: 0\n\
        T0 Acquire(LockId(0)) at 1: 0\nT0 Store(VarId(0)) at 2: 1\nT0 Release(LockId(0)) at 3: 0\n\
        T1 Acquire(LockId(0)) at 4: 0\nT1 Store(VarId(0)) at 5: 2\nT1 Release(LockId(0)) at 6: 0\n\
        T0 Join(ThreadId(1)) at 7: 0\nT0 Load(VarId(0)) at 8: 2";
    SECTIONS, &[(M, 1), (A, 5), (A, 6), (A, 7), (M, 2), (M, 3), (M, 4), (M, 8), (M, 9)], 18,
        "9 events, 0 races\nT0 Fork(ThreadId(1)) at 0: 0\n\
        T1 Acquire(LockId(0)) at 4: 0\nT1 Store(VarId(0)) at 5: 2\nT1 Release(LockId(0)) at 6: 0\n\
        T0 Acquire(LockId(0)) at 1: 0\nT0 Store(VarId(0)) at 2: 1\nT0 Release(LockId(0)) at 3: 0\n\
        T0 Join(ThreadId(1)) at 7: 0\nT0 Load(VarId(0)) at 8: 1";
    // a release that is refused, and so never done
    "m fork a\na r x\nm join a\nm rel l\n", &[(M, 1), (A, 2), (M, 3), (M, 4)], 7,
        "Refused { thread: ThreadId(0), line: 4, refusal: NotHolder }";
};

#[test]
fn a_gate_decides_the_order_of_the_lines_and_is_told_of_those_that_are_done(rt: HostRuntime) {
    for (text, lines, count, answer) in ORDERS {
        let gate = InOrder::of(*lines);
        expect_answer(&rt, rt.alloc(), &gate, (*text, EVENTS, PATIENCE, *answer));
        let heard = gate.heard.load(Ordering::SeqCst);
        let others = gate.others.load(Ordering::SeqCst);
        assert_eq!(&rt;
            (heard, others),
            (*count, 0),
            "what the gate of {text:?} was told"
        );
    }
}
