//! What a reader answers, one call after another.
use event_core::{Event, Limits, Roots};
use rapid_text::{Reader, TextFault};
use std::fmt::{Debug, InlineText};
use std::process::Abort;
use test_doubles::{Pieces, Text, event_text};

/// What tests may do.
pub trait Host: Abort + AllocGlobal {}

impl<R: Abort + AllocGlobal> Host for R {}

/// Ends the test, unless what came is what was expected, with the beginning of the case and both.
pub fn expect<T: Debug + PartialEq>(rt: &impl Abort, case: &[u8], came: &T, expected: &T) {
    if came != expected {
        let begins = case[..case.len().min(200)].escape_ascii();
        rt.panic(format_args!("'{begins}': expected {expected:?}, came {came:?}"));
    }
}

/// A text, and what a reader answers of it, a line for each call.
pub type Case = (&'static [u8], &'static str);

/// Limits with names for two threads, one lock and one variable.
pub fn limits(rt: &impl Abort) -> Limits {
    Limits::new(2, 1, 1, 1000, Roots::Free).expect(rt, "limits")
}

/// The answer as text: an event of this line, the end, or the line and the cause of a fault.
fn answer_text(answer: &Result<Option<Event>, TextFault>, line: u64) -> InlineText<128> {
    match answer {
        Ok(Some(event)) => InlineText::of(format_args!("{line}: {}", event_text(event).as_str())),
        Ok(None) => InlineText::of("end"),
        Err(fault) => InlineText::of(format_args!("{}: {:?}", fault.line, fault.cause)),
    }
}

/// What the reader answers first that is not expected, and what is.
pub fn first_other<'a>(
    reader: &mut Reader<Pieces<'_>>,
    answers: &'a str,
) -> Option<(InlineText<128>, &'a str)> {
    for expected in answers.lines() {
        let answer = reader.next();
        let came = answer_text(&answer, reader.line());
        if came.as_str() != expected {
            return Some((came, expected));
        }
    }
    None
}

/// A reader of the text with so many turns gives these answers.
pub fn expect_answers(rt: &impl Host, text: Text<'_>, turns: u32, answers: &str) {
    let made = Reader::new(rt.alloc(), Pieces::of(text), limits(rt), u64::from(turns));
    let mut reader = made.expect(rt, "a reader");
    let other = first_other(&mut reader, answers);
    drop(reader);
    if let Some((came, expected)) = other {
        expect(rt, text.bytes, &came.as_str(), &expected);
    }
}

/// A reader of each text gives its answers: whole, byte by byte, and cut in two at each place.
pub fn expect_all(rt: &impl Host, cases: &[Case]) {
    for (bytes, answers) in cases {
        for first in 1..bytes.len() {
            expect_answers(rt, Text::cut(bytes, first, 4096), 100, answers);
        }
        expect_answers(rt, Text::whole(bytes), 100, answers);
        expect_answers(rt, Text::byte_by_byte(bytes), 10000, answers);
    }
}
