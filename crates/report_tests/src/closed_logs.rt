//! The log that a script's threads leave: its events, written line by line with the names of the script.
use crate::runs::{Answer, Host, REPLAY, Run, SCRIPT, expect};
use closed_report::is_named;
use event_core::{Limits, Roots, ThreadId};
use live_monitor::Closed;
use rapid_text::{Device, Names, write_event};
use script_drive::{DriveFault, FreeGate, Gate, drive};
use script_text::Script;
use std::sync::atomic::{AtomicBool, Ordering};
use std::thread;
use test_doubles::{Page, Room, Text, rows};

/// A script, the logs that its threads may leave, and their report.
#[derive(Clone, Copy)]
struct Case {
    script: &'static str,
    patience: u32,
    logs: &'static [&'static str],
    report: &'static str,
}

const CASES: &[Case] = rows! {
    Case { script: "m fork a\na w x 5\nm join a\nm r x\n", patience: 1000000,
        logs: &["m|fork(a)|1\na|w(x)|2\nm|join(a)|3\nm|r(x)|4\n"],
        report: "events 4 threads 2 locks 0 variables 1 races 0\n" };
    // The events of a swap stand at one place.
    Case { script: "m fork a\na swap x 4\nm join a\nm swap x 5\n", patience: 1000000,
        logs: &["m|fork(a)|1\na|r(x)|2\na|w(x)|2\nm|join(a)|3\nm|r(x)|4\nm|w(x)|4\n"],
        report: "events 6 threads 2 locks 0 variables 1 races 0\n" };
    Case { script: "\nm acq l\r\nm acq l\nm rel l", patience: 1000000,
        logs: &["m|acq(l)|2\nm|acq(l)|3\nm|rel(l)|4\n"],
        report: "events 3 threads 1 locks 1 variables 0 races 0\n" };
};

/// Lines 2 and 3 may come in either order.
const OVERLAP: Case = Case {
    script: "m fork a\nm r x\na r y\n",
    patience: 1,
    logs: &[
        "m|fork(a)|1\nm|r(x)|2\na|r(y)|3\n",
        "m|fork(a)|1\na|r(y)|3\nm|r(x)|2\n",
    ],
    report: "events 3 threads 2 locks 0 variables 2 races 0\n",
};

/// Writes the lines of the events: whether all are written.
fn write_events(page: &mut Page, closed: &Closed, names: &Names) -> bool {
    for index in 0..closed.len() {
        let Some(event) = closed.log().get(index) else {
            return false;
        };
        if !is_named(names, &event) || write_event(page, &event, names).is_err() {
            return false;
        }
    }
    true
}

/// Reads the script, runs it, and writes its log: whether it is written.
fn write_log(
    rt: &impl Host,
    case: &Case,
    gate: &(impl Gate + Sync),
    page: &mut Page,
) -> Result<bool, DriveFault> {
    let limits = Limits::new(2, 1, 2, 64, Roots::OnlyMain).expect(rt, "limits");
    let mut reader = Device::new(case.script.as_bytes());
    let script = Script::read(rt.alloc(), &mut reader, limits, 100).expect(rt, "a script");
    let written = match drive(rt, rt.alloc(), &script, limits, gate, case.patience) {
        Ok(closed) => {
            let is_written = write_events(page, &closed, script.names());
            drop(closed);
            Ok(is_written)
        }
        Err(fault) => Err(fault),
    };
    drop(script);
    written
}

/// The log is written, it is one of those that are known, and a replay of its lines prints the report.
fn expect_log(rt: &impl Host, case: &Case, gate: &(impl Gate + Sync)) {
    let mut page = Page::blank(Room::AMPLE);
    let written = write_log(rt, case, gate, &mut page);
    let log = page.text();
    let came = (written, log, case.logs.contains(&log));
    expect(rt, case.script, &came, &(Ok(true), log, true));
    let run = Run::of(REPLAY, Text::whole(page.bytes()));
    run.expect(rt, Answer::of(case.report, 0));
}

/// And so does a run of the script.
#[test]
fn a_closed_log_is_replayed_to_the_report_of_its_script(rt: HostRuntime) {
    for case in CASES {
        expect_log(&rt, case, &FreeGate);
        let run = Run::of(SCRIPT, Text::whole(case.script.as_bytes()));
        run.expect(&rt, Answer::of(case.report, 0));
    }
}

/// Lets line 2 and line 3 each go ahead only where the other is asked for during the one call.
#[derive(Drop)]
struct Meeting {
    second: AtomicBool,
    third: AtomicBool,
}

fn sees(flag: &AtomicBool) -> bool {
    for _ in 0..10_000_000 {
        if flag.load(Ordering::SeqCst) {
            return true;
        }
        thread::yield_now();
    }
    false
}

impl Gate for Meeting {
    fn enter(&self, _thread: ThreadId, line: u64) -> bool {
        match line {
            2 => {
                self.second.store(true, Ordering::SeqCst);
                sees(&self.third)
            }
            3 => {
                self.third.store(true, Ordering::SeqCst);
                sees(&self.second)
            }
            _ => true,
        }
    }

    fn done(&self, _thread: ThreadId, _line: u64) {}
}

#[test]
fn two_lines_that_wait_for_each_other_are_reported_whole(rt: HostRuntime) {
    for _ in 0..100 {
        let gate = Meeting {
            second: AtomicBool::new(false),
            third: AtomicBool::new(false),
        };
        expect_log(&rt, &OVERLAP, &gate);
    }
}
