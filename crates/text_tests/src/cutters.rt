//! A cutter whose text comes piece by piece.
use super::readers::{expect, limits};
use event_core::Event;
use rapid_text::{Cutter, TextFault};
use std::fmt::InlineText;
use std::process::Abort;
use test_doubles::{event_text, rows};

/// What a cutter is given.
enum Given {
    Piece(&'static [u8]),
    /// The end of the text.
    End,
    /// A read failed.
    ReadFailed,
}

use Given::{End, Piece, ReadFailed};

/// What is given, and what is answered: how many bytes were taken, and up to the end of which event; or the
/// line and the cause of a fault. Then the line of the last answer, and the number of the line whose end was
/// not seen.
type Step = (Given, &'static str, u64, u64);

const IN_PIECES: &[Step] = rows! {
    Piece(b"\nT0|rel(l"), "took 9", 0, 2;
    Piece(b""), "took 0", 0, 2;
    Piece(b")|\r"), "took 3", 0, 2;
    Piece(b"\nT1|"), "took 1: T0 Release(LockId(0)) at 0: 0", 2, 3;
    Piece(b"T1|w(x)|7"), "took 9", 2, 3;
    End, "took 0: T1 Store(VarId(0)) at 1: 0", 3, 4;
    End, "took 0", 3, 4;
};

/// An unfinished line is judged at the end.
const UNFINISHED: &[Step] = rows! {
    Piece(b"T0|w(x"), "took 6", 0, 1;
    End, "1: Line(FewFields)", 1, 1;
    End, "1: Failed", 1, 1;
    Piece(b"T0|w(x)|\n"), "1: Failed", 1, 1;
};

/// A cutter whose reader failed stays failed.
const FAILED: &[Step] = rows! {
    ReadFailed, "1: Read", 1, 1;
    ReadFailed, "1: Failed", 1, 1;
};

/// The bytes that were taken and the event, or the fault.
fn give(cutter: &mut Cutter, given: &Given) -> Result<(usize, Option<Event>), TextFault> {
    match given {
        Piece(piece) => cutter.push(piece),
        End => cutter.finish().map(|event| (0, event)),
        ReadFailed => Err(cutter.read_failed()),
    }
}

/// The answer as text.
fn answer_text(answer: &Result<(usize, Option<Event>), TextFault>) -> InlineText<128> {
    match answer {
        Ok((count, Some(event))) => {
            InlineText::of(format_args!("took {count}: {}", event_text(event).as_str()))
        }
        Ok((count, None)) => InlineText::of(format_args!("took {count}")),
        Err(fault) => InlineText::of(format_args!("{}: {:?}", fault.line, fault.cause)),
    }
}

/// The cutter answers the steps so, one after another. It has failed at the line of a fault that it answers.
fn expect_steps(rt: &impl Abort, cutter: &mut Cutter, steps: &[Step]) {
    for (given, wanted, line, unfinished) in steps {
        let answer = give(cutter, given);
        let text = answer_text(&answer);
        let failed = answer.err().map(|fault| fault.line);
        let (at, open) = (cutter.line(), cutter.unfinished());
        let came = (text.as_str(), cutter.failed(), at, open);
        let expected = (*wanted, failed, *line, *unfinished);
        expect(rt, wanted.as_bytes(), &came, &expected);
    }
}

#[test]
fn a_cutter_answers_each_piece(rt: HostRuntime) {
    for steps in [IN_PIECES, UNFINISHED, FAILED] {
        let mut cutter = Cutter::new(rt.alloc(), limits(&rt)).expect(&rt, "a cutter");
        expect(&rt, b"a new cutter", &cutter.failed(), &None);
        expect_steps(&rt, &mut cutter, steps);
        drop(cutter);
    }
}
