//! Texts with a fault, each with the line and the cause.
use super::readers::{Case, expect, expect_all, expect_answers};
use rapid_text::{Cause, Kind, LineFault, NamedLine, Word, read_line};
use test_doubles::{Page, Room, Text, letters, rows};

const CASES: &[Case] = rows! {
    // each cause, and where two apply the first in their order
    b"T0|w(x\ry)|1|2", "1: Line(StrayCr)";
    b"T0|w(x\ry", "1: Line(StrayCr)";
    b"T0|acq(l", "1: Line(FewFields)";
    b"T0|begin(x)|1|", "1: Line(ManyFields)";
    b"|W(x)|1", "1: Line(BadOp)";
    b"T0|w(x)y|1", "1: Line(BadOp)";
    b"T0|w|1", "1: Line(BadOp)";
    b"|w(x)|1", "1: Line(EmptyName)";
    b"T0|w()|1", "1: Line(EmptyName)";
    // the events before the fault come first, and after it the reader fails for good
    b"\r\nT0|w(x)|1\nT0|r(x)|2\n\nT0|begin(x)|3\nT0|r(x)|",
        "2: T0 Store(VarId(0)) at 0: 0\n3: T0 Load(VarId(0)) at 1: 0\n5: Line(BadOp)\n5: Failed\n5: Failed";
    // a new name past the limit of its kind is one too many
    b"T0|fork(T1)|\nT2|w(x)|", "1: T0 Fork(ThreadId(1)) at 0: 0\n2: TooManyNames(Thread)";
    b"T0|acq(l)|\nT0|acq(m)|", "1: T0 Acquire(LockId(0)) at 0: 0\n2: TooManyNames(Lock)";
    b"T0|w(x)|\nT0|r(y)|", "1: T0 Store(VarId(0)) at 0: 0\n2: TooManyNames(Variable)";
    // the kinds in the order of the line
    b"T0|fork(T1)|\nT0|w(x)|\nT2|r(y)|",
        "1: T0 Fork(ThreadId(1)) at 0: 0\n2: T0 Store(VarId(0)) at 0: 0\n3: TooManyNames(Thread)";
};

fn cases() -> &'static [Case] {
    CASES
}

#[test]
fn the_first_fault_is_told_in_its_turn(rt: HostRuntime) {
    expect_all(&rt, cases());
}

/// So many times the letter a and then an end, whether the reader fails after it, and the answer. A name of
/// 255 bytes and a content of 1,024 bytes are the longest. Of a line whose end was not seen, 1,025 bytes may
/// still end well, by a CR.
const LONG_LINES: &[(usize, &str, bool, &str)] = rows! {
    255, "|w(x)|", false, "1: T0 Store(VarId(0)) at 0: 0";
    256, "|w(x)|", false, "1: Line(LongName)";
    256, "|w()|", false, "1: Line(EmptyName)";
    1024, "\n", false, "1: Line(FewFields)";
    1024, "\r\n", false, "1: Line(FewFields)";
    1025, "\n", false, "1: Line(LineTooLong)";
    1025, "\r\n", false, "1: Line(LineTooLong)";
    1025, "\ra\n", false, "1: Line(LineTooLong)";
    1026, "", false, "1: Line(LineTooLong)";
    1025, "", true, "1: Read";
    1026, "", true, "1: Line(LineTooLong)";
};

/// So many letters, and then the end.
pub fn letters_and(count: usize, end: &str) -> Page {
    let mut text = Page::blank(Room::AMPLE);
    text.keep(letters(count));
    text.keep(end.as_bytes());
    text
}

#[test]
fn lines_and_names_have_a_greatest_length(rt: HostRuntime) {
    for (len, end, fails, answer) in LONG_LINES {
        let page = letters_and(*len, end);
        for piece in [1, 1000, 4096] {
            let text = Text::cut(page.bytes(), piece, piece).failing(*fails);
            expect_answers(&rt, text, 2000, answer);
        }
    }
}

fn is_release_of_m(line: &NamedLine<'_>) -> bool {
    line.thread == b"T0".as_slice()
        && line.word == Word::Release
        && line.argument == b"m(1)".as_slice()
        && line.location == b"a:7".as_slice()
}

#[test]
fn a_content_is_read_by_itself(rt: HostRuntime) {
    let line = read_line(b"T0|rel(m(1))|a:7").expect(&rt, "a line");
    assert!(rt; is_release_of_m(&line));
    let spelled = Word::Release.spelled();
    expect(&rt, b"a release", &spelled, &b"rel".as_slice());
}

const NAMES_OF_CAUSES: &[(Cause, &str)] = &[
    (Cause::Line(LineFault::LineTooLong), "LineTooLong"),
    (Cause::Line(LineFault::StrayCr), "StrayCr"),
    (Cause::Line(LineFault::FewFields), "FewFields"),
    (Cause::Line(LineFault::ManyFields), "ManyFields"),
    (Cause::Line(LineFault::BadOp), "BadOp"),
    (Cause::Line(LineFault::EmptyName), "EmptyName"),
    (Cause::Line(LineFault::LongName), "LongName"),
    (Cause::TooManyNames(Kind::Site), "TooManyNames"),
    (Cause::OutOfMemory, "OutOfMemory"),
    (Cause::Read, "Read"),
    (Cause::Failed, "Failed"),
];

#[test]
fn causes_have_their_names(rt: HostRuntime) {
    for (cause, name) in NAMES_OF_CAUSES {
        expect(&rt, name.as_bytes(), &cause.word(), name);
    }
}
