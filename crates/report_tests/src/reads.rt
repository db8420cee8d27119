//! What a check and a replay answer of a text that comes in so many reads, and where a read fails.
ghost use Rattle.std.specs.Prelude.{◌≡◌, false};

use crate::runs::{Answer, counts_of, expect};
use event_core::{Limits, Roots};
use rapid_text::{Cause, TextFault};
use std::alloc::Global;
use std::process::Abort;
use test_doubles::{Page, Pieces, Room, Text};
use trace_report::{Counts, ReplayFault, Summary, replay};
use wcp_tool::check;

#[derive(Clone, Copy)]
pub enum Command {
    Check,
    Replay,
}

/// Names for two threads, one lock and two variables.
fn limits(rt: &impl Abort) -> Limits {
    Limits::new(2, 1, 2, 64, Roots::Free).expect(rt, "limits")
}

impl Command {
    /// The fault of the text. What is written goes to the page.
    pub fn fault_of(
        self,
        rt: &impl Abort,
        alloc: Global,
        text: Text<'_>,
        turns: u32,
        page: &mut Page,
    ) -> Option<ReplayFault>
        requires { page.old.failed ≡ false }
    {
        let limits = limits(rt);
        let mut reader = Pieces::of(text);
        let turns = u64::from(turns);
        match self {
            Command::Check => check(alloc, &mut reader, page, limits, turns).err(),
            Command::Replay => replay(alloc, &mut reader, page, limits, turns).err(),
        }
    }
}

/// Wherever the text is cut in two, a check of it writes the counts, or the line of the fault, of the answer.
pub fn expect_wherever_cut(rt: &impl Abort, alloc: Global, text: Text<'_>, answer: Answer<'_>) {
    let counts = counts_of(answer.output);
    for first in 1..text.bytes.len() {
        let mut page = Page::blank(Room::AMPLE);
        let fault = Command::Check.fault_of(rt, alloc, Text { first, ..text }, 100, &mut page);
        let came = (fault.is_none(), page.text());
        let wanted = (answer.status <= 1, counts.as_str());
        expect(rt, text.name(), &came, &wanted);
    }
}

/// Stores and loads of two threads, 234 bytes.
const LONG: &[u8] = b"main|fork(worker)|10\nmain|w(queue.first)|main.c:12\n\
    main|w(queue.last)|main.c:13\nworker|r(queue.first)|31\nworker|r(queue.last)|32\n\
    worker|w(queue.first)|33\nmain|join(worker)|20\n\
    main|r(queue.first)|main.c:21\nmain|r(queue.last)|main.c:22\n";

const LONG_REPORT: &str = "events 9 threads 2 locks 0 variables 2 races 3\n\
    4|worker|r(queue.first)|31 with 2|main|w(queue.first)|main.c:12\n\
    5|worker|r(queue.last)|32 with 3|main|w(queue.last)|main.c:13\n\
    6|worker|w(queue.first)|33 with 2|main|w(queue.first)|main.c:12\n";

const STORE: &[u8] = b"T0|w(x)|1\n";

const STORE_REPORT: &str = "events 1 threads 1 locks 0 variables 1 races 0\n";

const LFS: &[u8] = &[b'\n'; 2000];

const LETTERS: &[u8] = &[b'a'; 1025];

const ALL: usize = usize::MAX;

/// A text, how many bytes of it a read gives, whether a read at its end fails, how many reads there may be,
/// the line that could not be read to its end, or 0, and the report.
type Case = (&'static [u8], usize, bool, u32, u64, &'static str);

/// The read that finds the end takes a turn too. Nothing is written where a line is not read to its end.
const CASES: &[Case] = &[
    (LONG, ALL, false, 2, 0, LONG_REPORT),
    (LONG, ALL, false, 1, 10, ""),
    (STORE, 1, false, 11, 0, STORE_REPORT),
    (STORE, 1, false, 10, 2, ""),
    (STORE, 1, false, 0, 1, ""),
    (LFS, 1, false, 1000, 1001, ""),
    // A read that fails has the number of the line whose end was not read.
    (b"", 1, true, 2000, 1, ""),
    (LETTERS, 1, true, 2000, 1, ""),
    (STORE, 1, true, 2000, 2, ""),
    (b"T0|w(x)|1\n\r\nT0|rel", 1, true, 2000, 3, ""),
];

/// The fault of a text whose line could not be read to its end.
fn fault_at(line: u64) -> Option<ReplayFault> {
    let cause = Cause::Read;
    (line > 0).then_some(ReplayFault::Text(TextFault { line, cause }))
}

#[test]
fn a_text_is_read_to_its_end_in_as_many_turns_as_it_takes(rt: HostRuntime) {
    for (text, most, fails, turns, line, report) in CASES {
        let text = Text::cut(text, *most, *most).failing(*fails);
        let counts = counts_of(report);
        for (command, output) in [
            (Command::Check, counts.as_str()),
            (Command::Replay, *report),
        ] {
            let mut page = Page::blank(Room::AMPLE);
            let fault = command.fault_of(&rt, rt.alloc(), text, *turns, &mut page);
            let came = (fault, page.text());
            expect(&rt, text.name(), &came, &(fault_at(*line), output));
        }
    }
}

#[test]
fn what_is_counted_is_answered(rt: HostRuntime) {
    let counted = Counts {
        events: 9,
        threads: 2,
        locks: 0,
        vars: 2,
    };
    let summed = Summary {
        events: 9,
        threads: 2,
        locks: 0,
        vars: 2,
        races: 3,
    };
    let (text, limits) = (Text::whole(LONG), limits(&rt));
    let mut page = Page::blank(Room::AMPLE);
    let counts = check(rt.alloc(), &mut Pieces::of(text), &mut page, limits, 2);
    expect(&rt, "a check", &counts, &Ok(counted));
    let mut page = Page::blank(Room::AMPLE);
    let summary = replay(rt.alloc(), &mut Pieces::of(text), &mut page, limits, 2);
    expect(&rt, "a replay", &summary, &Ok(summed));
}
