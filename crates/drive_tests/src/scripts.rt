//! Runs of scripts that stand as text, and what they answer.
ghost use Rattle.std.specs.Prelude.{◌≡◌};
ghost use Rattle.event_core.specs.declared.bounds.Roots.TheVariants.{OnlyMain};

use event_core::{Limits, Roots};
use live_monitor::Closed;
use rapid_text::Device;
use script_drive::{Gate, Script, ScriptFault, drive};
use std::alloc::Global;
use std::process::Abort;
use std::sync::Wait;
use std::thread::Threads;
use test_doubles::{Page, Room, event_text};

/// A script, how many events the log may have, how often a line is tried, and the answer: how many events
/// the run logs, how many of them race, and the first of them, a line each; or the fault.
pub type Case<'t> = (&'t str, u64, u32, &'static str);

/// More events than the scripts have, and more tries than they need.
pub const EVENTS: u64 = 1024;

pub const PATIENCE: u32 = 100_000_000;

/// 256 threads, 4 locks, 4 variables.
pub fn limits<R: Abort>(rt: &R, events: u64) -> Limits
    ensures { result.roots ≡ OnlyMain }
{
    match Limits::new(256, 4, 4, events, Roots::OnlyMain) {
        Ok(limits) => limits,
        Err(_) => panic!(rt; "the limits are within their bounds"),
    }
}

pub fn read(alloc: Global, text: &str, limits: Limits) -> Result<Script, ScriptFault> {
    Script::read(alloc, &mut Device::new(text.as_bytes()), limits, 100)
}

/// Prints how many events the log has and how many of them race, and as many of its events as the answer has.
fn print_log(page: &mut Page, closed: Closed, answer: &str) {
    let races = closed.verdicts().races().len();
    page.print(format_args!("{} events, {races} races", closed.len()));
    for (index, _) in (0u64..).zip(answer.lines().skip(1)) {
        page.keep(b"\n");
        match closed.log().get(index) {
            Some(event) => page.print(event_text(&event).as_str()),
            None => page.keep(b"no event"),
        }
    }
    drop(closed);
}

/// Runs the script of the case. The page has what it came to.
pub fn run<G: Gate + Sync, R: Threads + Wait + Abort + Sync>(
    rt: &R,
    alloc: Global,
    gate: &G,
    (text, events, patience, answer): Case<'_>,
) -> Page {
    let mut page = Page::blank(Room::AMPLE);
    let limits = limits(rt, events);
    match read(alloc, text, limits) {
        Ok(script) => {
            let ran = drive(rt, alloc, &script, limits, gate, patience);
            drop(script);
            match ran {
                Ok(closed) => print_log(&mut page, closed, answer),
                Err(fault) => page.print(format_args!("{fault:?}")),
            }
        }
        Err(fault) => page.print(format_args!("line {}: {:?}", fault.line, fault.cause)),
    }
    page
}

/// Ends the test unless the page has the answer of the case.
fn expect(rt: &impl Abort, page: &Page, (text, _, _, answer): Case<'_>) {
    let came = page.text();
    assert!(rt;
        came == answer,
        "{text:?}: expected {answer:?}, came {came:?}"
    );
}

/// Runs the script of the case, which is to answer so.
pub fn expect_answer<G: Gate + Sync, R: Threads + Wait + Abort + Sync>(
    rt: &R,
    alloc: Global,
    gate: &G,
    case: Case<'_>,
) {
    expect(rt, &run(rt, alloc, gate, case), case);
}

/// So it answers once memory is not refused any more, and before that by want of it, for a worker's too.
pub fn expect_answer_in_the_end<G: Gate + Sync, R: Threads + Wait + Abort + Sync>(
    rt: &R,
    alloc: Global,
    gate: &G,
    case: Case<'_>,
) {
    let page = run(rt, alloc, gate, case);
    if page.text().ends_with("OutOfMemory") || page.text().starts_with("NoWorker") {
        expect_answer(rt, alloc, gate, case);
    } else {
        expect(rt, &page, case);
    }
}
