//! Texts without a fault, however they are cut.
use super::readers::{Case, Host, expect_all, expect_answers};
use std::fmt::{InlineText, Write};
use test_doubles::{Page, Room, Text, rows};

const CASES: &[Case] = rows! {
    // each operation
    b"T0|fork(T1)|1\nT1|acq(l)|2\nT1|w(x)|2\nT1|rel(l)|3\nT0|join(T1)|1\nT0|r(x)|\n",
        "1: T0 Fork(ThreadId(1)) at 0: 0\n\
        2: T1 Acquire(LockId(0)) at 1: 0\n\
        3: T1 Store(VarId(0)) at 1: 0\n\
        4: T1 Release(LockId(0)) at 2: 0\n\
        5: T0 Join(ThreadId(1)) at 0: 0\n\
        6: T0 Load(VarId(0)) at 3: 0\nend\nend";
    // lines end by LF, by CR LF or by the end of the text
    b"\r\nT0|w(a(b))|\r\n\n\nT0|r(a(b))|9\r",
        "2: T0 Store(VarId(0)) at 0: 0\n5: T0 Load(VarId(0)) at 1: 0\nend";
    b"", "end";
    b"\n\r\n", "end";
    // names are bytes: blanks, parentheses and what is no UTF-8 are part of them
    b" T|w())|\xff\x00\n T|rel( )|\xfe\nT|r())|\xff\x00",
        "1: T0 Store(VarId(0)) at 0: 0\n2: T0 Release(LockId(0)) at 1: 0\n3: T1 Load(VarId(0)) at 0: 0\nend";
};

fn cases() -> &'static [Case] {
    CASES
}

#[test]
fn texts_without_a_fault_are_read_to_their_end(rt: HostRuntime) {
    expect_all(&rt, cases());
}

/// After so many empty lines the line of an event lies across the end of a piece of 4,096 bytes, at each of
/// its places.
#[test]
fn a_line_may_lie_across_pieces(rt: HostRuntime) {
    for line in 4081..4101u64 {
        let mut text = Page::blank(Room::AMPLE);
        for _ in 1..line {
            text.keep(b"\n");
        }
        text.keep(b"T0|w(x)|7\r\nT0|r(x)|8");
        let next = line + 1;
        let answers: InlineText<128> = InlineText::of(format_args!(
            "{line}: T0 Store(VarId(0)) at 0: 0\n{next}: T0 Load(VarId(0)) at 1: 0\nend"
        ));
        expect_answers(&rt, Text::whole(text.bytes()), 100, answers.as_str());
    }
}

/// The answers for a thousand lines: stores by one thread at one place.
fn stores(rt: &impl Host) -> String {
    let mut answers = String::new(rt.alloc());
    for line in 1..1001 {
        writeln!(answers, "{line}: T0 Store(VarId(0)) at 0: 0").expect(rt, "memory for a line");
    }
    answers
}

/// A thousand lines of ten bytes take three pieces of 4,096 bytes, and as many in pieces of other lengths.
#[test]
fn a_long_text_is_read_to_its_end(rt: HostRuntime) {
    let mut text = Page::blank(Room::AMPLE);
    for _ in 0..1000 {
        text.keep(b"T0|w(x)|7\n");
    }
    let answers = stores(&rt);
    for first in [4096, 4095, 33] {
        let text = Text::cut(text.bytes(), first, 4096);
        expect_answers(&rt, text, 100, answers.as_str());
    }
    drop(answers);
}
