//! Names and lines of the greatest length, and longer ones, cut in two at each place.
use crate::fed::expect_however_fed;
use crate::reads::expect_wherever_cut;
use crate::runs::{Answer, READ_FAULT, expect_both};
use test_doubles::{Page, Room, Text, letters};

/// So many letters, and what follows them.
type Part = (usize, &'static str);

/// The parts of a text, whether its reader fails after it, what a replay prints, and the status.
type Case = (&'static [Part], bool, &'static str, u8);

/// One event of one thread is printed so.
const STORE: &str = "events 1 threads 1 locks 0 variables 1 races 0\n";

const FORK: &str = "events 1 threads 2 locks 0 variables 0 races 0\n";

const LONG_NAME: &str = "line 1: LongName\n";

const FEW_FIELDS: &str = "line 1: FewFields\n";

const TOO_LONG: &str = "line 1: LineTooLong\n";

const CASES: &[Case] = &[
    // A name has at most 255 bytes: a thread, a variable, a location.
    (&[(255, "|w(x)|")], false, STORE, 0),
    (&[(255, "|w(x)|\n")], false, STORE, 0),
    (&[(256, "|w(x)|")], false, LONG_NAME, 3),
    (&[(256, "|w(x)|\n")], false, LONG_NAME, 3),
    (&[(0, "T0|w("), (255, ")|1\r\n")], false, STORE, 0),
    (&[(0, "T0|w("), (256, ")|1\r\n")], false, LONG_NAME, 3),
    (&[(0, "T0|w(x)|"), (255, "")], false, STORE, 0),
    (&[(0, "T0|w(x)|"), (256, "")], false, LONG_NAME, 3),
    // The longest line that has no fault.
    (LONGEST, false, FORK, 0),
    // A content has at most 1,024 bytes, and its ending is no part of it.
    (&[(1024, "\n")], false, FEW_FIELDS, 3),
    (&[(1024, "\r\n")], false, FEW_FIELDS, 3),
    (&[(1025, "\n")], false, TOO_LONG, 3),
    (&[(1025, "\r\n")], false, TOO_LONG, 3),
    // Of a line whose end was not seen, 1,025 bytes may still end well, by a CR.
    (&[(1025, "")], true, "", 4),
    (&[(1026, "")], true, TOO_LONG, 3),
];

const LONGEST: &[Part] = &[(255, "|fork(b"), (254, ")|"), (255, "\r\n")];

fn cases() -> &'static [Case] {
    CASES
}

fn text_of(parts: &[Part]) -> Page {
    let mut text = Page::blank(Room::AMPLE);
    for (count, rest) in parts {
        text.keep(letters(*count));
        text.keep(rest.as_bytes());
    }
    text
}

/// The answer of a replay. Nothing is printed where a read fails.
fn answer_of(report: &'static str, status: u8) -> Answer<'static> {
    if status == 4 {
        READ_FAULT
    } else {
        Answer::of(report, status)
    }
}

#[test]
fn long_lines_are_judged_whole_and_byte_by_byte(rt: HostRuntime) {
    for (parts, fails, report, status) in cases() {
        let page = text_of(parts);
        for most in [usize::MAX, 1] {
            let text = Text::cut(page.bytes(), most, most).failing(*fails);
            expect_both(&rt, text, answer_of(report, *status));
        }
    }
}

/// A check comes to the same wherever the text is cut in two, and a replay however it is fed.
#[test]
fn long_lines_are_judged_wherever_they_are_cut(rt: HostRuntime) {
    for (parts, fails, report, status) in cases() {
        let page = text_of(parts);
        let text = Text::whole(page.bytes()).failing(*fails);
        let answer = answer_of(report, *status);
        expect_wherever_cut(&rt, rt.alloc(), text, answer);
        expect_however_fed(&rt, rt.alloc(), text, answer);
    }
}
