//! Texts that a replayer is fed, whole, byte by byte, and cut in two at each place.
ghost use Rattle.std.specs.Prelude.{◌≡◌, false};

use crate::runs::{Answer, expect};
use event_core::{Limits, Refusal, Roots, ThreadId};
use rapid_text::{Cause, Kind, TextFault};
use std::alloc::Global;
use std::process::Abort;
use test_doubles::{Page, Room, Text, rows};
use trace_report::{ReplayFault, Replayer, refusal_word};

/// The fault of a new replayer that is fed the text in its pieces, an empty one before each, and an LF after
/// a read has failed; none where there was no memory for one. The page has what it wrote.
pub fn fault_of(
    alloc: Global,
    text: Text<'_>,
    threads: u32,
    page: &mut Page,
) -> Option<Option<ReplayFault>>
    requires { page.old.failed ≡ false }
{
    let limits = Limits::new(threads, 8, 8, 64, Roots::Free).ok()?;
    let mut replayer = Replayer::new(alloc, limits).ok()?;
    let (head, rest) = text.bytes.split_at(text.first.min(text.bytes.len()));
    replayer.feed(head);
    for piece in rest.chunks(text.others.max(1)) {
        replayer.feed(b"");
        replayer.feed(piece);
    }
    if text.fails {
        replayer.read_failed();
        replayer.feed(b"\n");
    }
    Some(replayer.finish(page).err())
}

/// A replayer that is fed the text so writes the output of the answer, and has no fault where its status is
/// that of a report.
pub fn expect_told(rt: &impl Abort, alloc: Global, text: Text<'_>, answer: Answer<'_>) {
    let mut page = Page::blank(Room::AMPLE);
    let fault = fault_of(alloc, text, 8, &mut page).expect(rt, "no memory for a replayer");
    let came = (fault.is_none(), page.text());
    expect(rt, text.name(), &came, &(answer.status <= 1, answer.output));
}

/// However the bytes are fed, they come to this.
pub fn expect_however_fed(rt: &impl Abort, alloc: Global, text: Text<'_>, answer: Answer<'_>) {
    let by_one = Text {
        first: 0,
        others: 1,
        ..text
    };
    expect_told(rt, alloc, by_one, answer);
    for first in 0..=text.bytes.len() {
        expect_told(rt, alloc, Text { first, ..text }, answer);
    }
}

/// The ending of a line comes in two pieces.
#[test]
fn a_cr_and_an_lf_may_be_fed_one_after_the_other(rt: HostRuntime) {
    let bytes = b"T0|w(x)|1\r\n".as_slice();
    let answer = Answer::of("events 1 threads 1 locks 0 variables 1 races 0\n", 0);
    expect_told(&rt, rt.alloc(), Text::cut(bytes, 9, 1), answer);
    expect_however_fed(&rt, rt.alloc(), Text::whole(bytes), answer);
}

/// A text, whether a read fails after it, how many threads it may name, what is written, and the fault.
const FAULTS: &[(&[u8], bool, u32, &str, ReplayFault)] = rows! {
    b"T0|w(x)|1", true, 8, "", ReplayFault::Text(TextFault { line: 1, cause: Cause::Read });
    b"T0|w(x)|1\n", true, 8, "", ReplayFault::Text(TextFault { line: 2, cause: Cause::Read });
    b"T0|rel(l)|1\n", true, 8, "line 1: NotHolder\n",
        ReplayFault::Refused { line: 1, refusal: Refusal::NotHolder };
    b"T0|fork(T1)|1", false, 1, "line 1: TooManyNames\n",
        ReplayFault::Text(TextFault { line: 1, cause: Cause::TooManyNames(Kind::Thread) });
};

#[test]
fn the_fault_of_a_text_is_answered_however_it_is_fed(rt: HostRuntime) {
    for (bytes, fails, threads, output, fault) in FAULTS {
        for cut in 0..=bytes.len() {
            let text = Text::however_cut(bytes, cut).failing(*fails);
            let mut page = Page::blank(Room::AMPLE);
            let came = fault_of(rt.alloc(), text, *threads, &mut page);
            let wanted = (Some(Some(*fault)), *output);
            expect(&rt, text.name(), &(came, page.text()), &wanted);
        }
    }
}

const WORDS: &[(Refusal, &str)] = &[
    (Refusal::ThreadRange, "ThreadRange"),
    (Refusal::NotStarted, "NotStarted"),
    (Refusal::Ended, "Ended"),
    (Refusal::TargetRange, "TargetRange"),
    (Refusal::Held { by: ThreadId(3) }, "Held"),
    (Refusal::NotHolder, "NotHolder"),
    (Refusal::SelfTarget, "SelfTarget"),
    (Refusal::AlreadyStarted, "AlreadyStarted"),
    (Refusal::TargetNotStarted, "TargetNotStarted"),
    (Refusal::LogFull, "LogFull"),
    (Refusal::OutOfMemory, "OutOfMemory"),
];

#[test]
fn each_refusal_has_its_word(rt: HostRuntime) {
    for (refusal, word) in WORDS {
        expect(&rt, word, &refusal_word(*refusal), word);
    }
}
