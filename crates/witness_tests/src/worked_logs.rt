//! Worked logs, each with two accesses and the events of their witness, or that there is none.
use crate::expected::expect;
use crate::recorded::Recorded;
use event_core::{OutOfMemory, Roots};
use std::alloc::Global;
use std::process::Abort;
use test_doubles::rows;
use test_logs::{
    ACCESS_BEFORE_CONFLICT, NESTED_SECTIONS, SECTIONS_IN_CONFLICT, SECTIONS_WITHOUT_CONFLICT,
    call_at, count_lines,
};
use witness::Witness;

/// What a case shows, a log, the indices of two accesses, and the events of their witness.
type Case = (
    &'static str,
    &'static str,
    (u64, u64),
    Option<&'static [u32]>,
);

const LOGS: &[Case] = rows! {
    "a store and a load with nothing before", "T0|w(x)|1\nT1|r(x)|2\n", (0, 1), Some(&[]);
    "a load and a store with nothing before", "T0|r(x)|1\nT1|w(x)|2\n", (0, 1), Some(&[]);
    "a store before the fork", "T0|w(x)|1\nT0|fork(T1)|2\nT1|r(x)|3\n", (0, 2), None;
    "two sections that conflict", SECTIONS_IN_CONFLICT, (2, 5), None;
    "a later section with no access", SECTIONS_WITHOUT_CONFLICT, (1, 7), Some(&[0, 5, 6]);
    "the order begins at the access", ACCESS_BEFORE_CONFLICT, (1, 6), Some(&[0, 5]);
    "releases ordered by what their sections hold", NESTED_SECTIONS, (5, 12), None;
    "a fork inside a section",
        "T0|acq(l)|1\nT0|fork(T1)|2\nT0|w(x)|3\nT0|rel(l)|4\nT1|acq(l)|5\nT1|rel(l)|6\nT1|r(x)|7\n",
        (2, 6), None;
    "a load reads the store of another thread",
        "T0|w(y)|1\nT1|r(y)|2\nT1|w(x)|3\nT2|r(x)|4\n", (2, 3), Some(&[0, 1]);
    "a load between reads the first access", "T0|w(x)|1\nT1|r(x)|2\nT1|w(x)|3\n", (0, 2), None;
    "a section has to end that neither access is after",
        "T0|acq(l)|1\nT0|w(y)|2\nT0|rel(l)|3\nT1|acq(l)|4\nT1|rel(l)|5\nT1|w(x)|6\nT2|r(y)|7\n\
        T2|r(x)|8\n", (5, 7), Some(&[0, 1, 2, 3, 4, 6]);
    // The later section could come first, but such orders are not looked for.
    "only another order of the sections would be a witness",
        "T0|acq(l)|1\nT0|w(x)|2\nT0|rel(l)|3\nT1|acq(l)|4\nT1|rel(l)|5\nT1|w(x)|6\n", (1, 5), None;
    "a lock is held to the end of the log", "T0|w(x)|1\nT1|acq(l)|2\nT1|r(x)|3\n", (0, 2), Some(&[1]);
    "an inner release does not end the section",
        "T0|acq(l)|1\nT0|acq(l)|2\nT0|rel(l)|3\nT0|w(x)|4\nT0|rel(l)|5\nT1|acq(l)|6\nT1|w(x)|7\n",
        (3, 6), None;
    "a lock that is acquired again",
        "T0|acq(l)|1\nT0|acq(l)|2\nT0|rel(l)|3\nT0|rel(l)|4\nT0|w(x)|5\nT1|acq(l)|6\nT1|rel(l)|7\n\
        T1|w(x)|8\n", (4, 7), Some(&[0, 1, 2, 3, 5, 6]);
    "forks and a join on the way",
        "T0|fork(T1)|1\nT1|w(y)|2\nT0|join(T1)|3\nT0|fork(T2)|4\nT0|w(x)|5\nT2|r(x)|6\n",
        (4, 5), Some(&[0, 1, 2, 3]);
    "a join after the other access", "T0|fork(T1)|1\nT1|w(x)|2\nT0|join(T1)|3\nT0|r(x)|4\n", (1, 3), None;
};

// A test that names the table itself is proved over each of its bytes.
fn logs() -> &'static [Case] {
    LOGS
}

fn is_wanted(found: Result<Option<Witness>, OutOfMemory>, wanted: Option<&[u32]>) -> bool {
    match (found, wanted) {
        (Ok(Some(witness)), Some(events)) => witness.events.as_slice() == events,
        (Ok(None), None) => true,
        _ => false,
    }
}

// Whether the searcher gives the witness that is wanted, for the accesses in both orders.
fn is_found(
    alloc: Global,
    recorded: &Recorded,
    (i, j): (u64, u64),
    wanted: Option<&[u32]>,
) -> bool {
    let Ok(mut searcher) = recorded.searcher(alloc) else {
        return false;
    };
    is_wanted(searcher.witness(i, j), wanted) && is_wanted(searcher.witness(j, i), wanted)
}

fn expect_all(rt: &impl Abort, alloc: Global, tries: u32) {
    for (name, text, pair, wanted) in logs() {
        let mut recorded = Recorded::new(rt, alloc, Roots::Free);
        for index in 0..count_lines(text) {
            let call = call_at(text, index).expect(rt, *name);
            expect(rt, &(*name, call), recorded.make(&call), true);
        }
        let mut is = false;
        for _trial in 0..tries {
            is = is || is_found(alloc, &recorded, *pair, *wanted);
        }
        expect(rt, &(*name, "the wanted witness"), is, true);
    }
}

#[test]
fn each_worked_log_has_its_witness(rt: HostRuntime) {
    expect_all(&rt, rt.alloc(), 1);
}

#[test]
fn each_worked_log_has_its_witness_where_memory_is_refused(rt: HostRuntime) {
    expect_all(&rt, rt.alloc(), 2);
}
