//! Worked cases, whose lines may go ahead at once.
use crate::scripts::{Case, EVENTS, PATIENCE, expect_answer, expect_answer_in_the_end};
use script_drive::FreeGate;
use std::alloc::Global;
use std::test::*;
use test_doubles::rows;

const CASES: &[Case<'static>] = rows! {
    "", EVENTS, PATIENCE, "0 events, 0 races";
    // a thread without lines, and one that is not joined
    "m fork a\nm join a\nm fork b\nb r x\n", EVENTS, PATIENCE, "4 events, 0 races";
    // the lines of all threads
    "m fork a\na w x 5\nm join a\nm r x\n", EVENTS, PATIENCE,
        "4 events, 0 races\nT0 Fork(ThreadId(1)) at 0: 0\nT1 Store(VarId(0)) at 1: 5\n\
        T0 Join(ThreadId(1)) at 2: 0\nT0 Load(VarId(0)) at 3: 5";
    // each join gets the pass of the thread that its line names
    "m fork a\nm fork b\nm join a\nm join b\n", EVENTS, PATIENCE,
        "4 events, 0 races\nT0 Fork(ThreadId(1)) at 0: 0\nT0 Fork(ThreadId(2)) at 1: 0\n\
        T0 Join(ThreadId(1)) at 2: 0\nT0 Join(ThreadId(2)) at 3: 0";
    // whichever store comes second races
    "m fork a\nm w x 1\na w x 2\n", EVENTS, PATIENCE, "3 events, 1 races\nT0 Fork(ThreadId(1)) at 0: 0";
    // a lock that its holder acquires again
    "m acq l\nm acq l\n", EVENTS, PATIENCE, "2 events, 0 races";
    // a swap has two events
    "m fork a\na swap x 4\nm join a\nm swap x 5\n", EVENTS, PATIENCE, "6 events, 0 races";
    // a lock that another thread holds at first
    "m acq l\nm fork a\na acq l\nm rel l\na rel l\nm join a\n", EVENTS, PATIENCE, "6 events, 0 races";
    // a release of a lock that nobody holds, and of another thread's lock
    "m rel l\n", EVENTS, PATIENCE, "Refused { thread: ThreadId(0), line: 1, refusal: NotHolder }";
    "m acq l\nm fork a\na rel l\nm join a\n", EVENTS, PATIENCE,
        "Refused { thread: ThreadId(1), line: 3, refusal: NotHolder }";
    // a lock that is never released
    "m acq l\nm fork a\na acq l\nm join a\n", EVENTS, 100, "Stuck { thread: ThreadId(1), line: 3 }";
    // of two stuck threads the one with the lesser line, which is a, and then b
    "m acq l\nm fork a\nm fork b\na acq l\nb acq l\nm join a\n", EVENTS, 100,
        "Stuck { thread: ThreadId(1), line: 4 }";
    "m acq l\nm fork a\nm fork b\nb acq l\na acq l\nm join a\n", EVENTS, 100,
        "Stuck { thread: ThreadId(2), line: 4 }";
    // no slot for the fork, and none for the join
    "m r x\nm fork a\n", 1, PATIENCE, "Refused { thread: ThreadId(0), line: 2, refusal: LogFull }";
    "m fork a\nm r x\nm join a\n", 2, PATIENCE,
        "Refused { thread: ThreadId(0), line: 3, refusal: LogFull }";
    // who waits for a thread that ended by a fault has none, whose line is after it, or before it
    "m fork a\nm fork b\na rel l\nb join a\nm join b\n", EVENTS, PATIENCE,
        "Refused { thread: ThreadId(1), line: 3, refusal: NotHolder }";
    "m fork a\nm join a\na rel l\n", EVENTS, PATIENCE,
        "Refused { thread: ThreadId(1), line: 3, refusal: NotHolder }";
    // nor has a thread whose fork then never comes
    "m fork a\nm fork b\na join b\na fork c\nc r x\nb rel l\n", EVENTS, PATIENCE,
        "Refused { thread: ThreadId(2), line: 6, refusal: NotHolder }";
};

fn cases() -> &'static [Case<'static>] {
    CASES
}

#[test]
fn scripts_are_run_to_their_end_or_a_fault(rt: HostRuntime) {
    for case in cases() {
        expect_answer(&rt, rt.alloc(), &FreeGate, *case);
    }
}

#[test]
fn scripts_are_run_to_their_end_or_a_fault_where_memory_is_refused(rt: HostRuntime) {
    for case in cases() {
        expect_answer_in_the_end(&rt, rt.alloc(), &FreeGate, *case);
    }
}

/// A script whose main thread forks 199 threads before it joins the first.
pub fn two_hundred(alloc: Global) -> Result<String, Fail> {
    let mut text = String::new(alloc);
    for child in 1..200 {
        writeln!(text, "m fork t{child}")?;
    }
    for child in 1..200 {
        writeln!(text, "t{child} r x\nm join t{child}")?;
    }
    Ok(text)
}

#[test]
pub fn two_hundred_workers_run_at_once(rt: HostRuntime) -> Result<(), Fail> {
    let text = two_hundred(rt.alloc())?;
    let case = (text.as_str(), EVENTS, PATIENCE, "597 events, 0 races");
    expect_answer(&rt, rt.alloc(), &FreeGate, case);
    Ok(())
}
