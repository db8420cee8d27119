//! The program on traces, each whole and in pieces.
use crate::fed::expect_however_fed;
use crate::runs::Program::Words;
use crate::runs::{Answer, Host, READ_FAULT, REPLAY, Run, expect, expect_both};
use crate::traces::{legal, nested, refused};
use event_core::{Limits, Roots};
use rapid_text::{Device, Reader, TextFault, write_event};
use std::fmt::InlineText;
use test_doubles::{Page, Room, Text, letters, rows};

/// A check and a replay of the text come to this, whole, byte by byte, and cut in two at each place; and so
/// does a replayer, however it is fed.
fn expect_however_cut(rt: &impl Host, text: &str, answer: Answer<'_>) {
    let bytes = text.as_bytes();
    for cut in 0..=bytes.len().max(1) {
        expect_both(rt, Text::however_cut(bytes, cut), answer);
    }
    expect_however_fed(rt, rt.alloc(), Text::whole(bytes), answer);
}

#[test]
fn legal_traces_have_their_answers_however_they_are_cut(rt: HostRuntime) {
    for (text, report, status) in legal() {
        expect_however_cut(&rt, text, Answer::of(report, *status));
    }
}

/// The line of the refusal is printed. An LF after the text changes nothing.
#[test]
fn the_first_refused_line_is_named_however_a_text_is_cut(rt: HostRuntime) {
    for (text, line) in refused() {
        expect_however_cut(&rt, text, Answer::of(line, 3));
        let mut ended = Page::blank(Room::AMPLE);
        ended.keep(text.as_bytes());
        ended.keep(b"\n");
        expect_both(&rt, Text::whole(ended.bytes()), Answer::of(line, 3));
    }
}

/// The text may end at each byte of the line. An operation is read once its second bar has come, and its
/// location may be cut short.
fn expect_beginnings(rt: &impl Host, text: &mut Page, number: u64, line: &str, report: &str) {
    let fault = InlineText::<64>::of(format_args!("line {number}: FewFields\n"));
    let mut bars: u32 = 0;
    for byte in line.as_bytes() {
        text.keep(&[*byte]);
        bars = bars.saturating_add(u32::from(*byte == b'|'));
        let answer = if bars < 2 {
            Answer::of(fault.as_str(), 3)
        } else {
            Answer::of(report, 0)
        };
        expect_both(rt, Text::whole(text.bytes()), answer);
    }
}

#[test]
fn each_beginning_of_nested_sections_has_its_answer(rt: HostRuntime) {
    let (lines, reports) = nested();
    let mut text = Page::blank(Room::AMPLE);
    for (number, (line, report)) in (1u64..).zip(lines.split_inclusive('\n').zip(reports)) {
        expect_beginnings(&rt, &mut text, number, line, report);
    }
}

#[test]
fn no_part_of_a_trace_is_told_whose_reader_fails(rt: HostRuntime) {
    let text = b"T0|fork(T1)|1\nT0|acq(l)|2\nT1|r(x)|3\nT0|rel(l)|4\n".as_slice();
    for end in 0..text.len() {
        expect_both(&rt, Text::cut(&text[..end], 7, 3).failing(true), READ_FAULT);
    }
}

/// The words of a command, what is printed of a trace that names two threads, and the status.
const THREADS: &[(&str, &str, u8)] = rows! {
    "check --threads 1", "line 1: TooManyNames\n", 3;
    "replay --threads 1", "line 1: TooManyNames\n", 3;
    "check --threads=2", "events 1 threads 2 locks 0 variables 0\n", 0;
    "replay --threads=2", "events 1 threads 2 locks 0 variables 0 races 0\n", 0;
};

#[test]
fn as_many_threads_are_admitted_as_the_option_says(rt: HostRuntime) {
    let text = b"T0|fork(T1)|1";
    for (words, output, status) in THREADS {
        for cut in 0..=text.len() {
            let run = Run::of(Words(words), Text::however_cut(text, cut));
            run.expect(&rt, Answer::of(output, *status));
        }
    }
}

/// A store, and twenty loads by another thread. The lines of the report fill more than a page.
#[test]
fn a_long_report_is_written_whole(rt: HostRuntime) {
    let mut text = Page::blank(Room::AMPLE);
    let mut report = Page::blank(Room::AMPLE);
    text.keep(b"T0|w(x)|1\n");
    report.keep(b"events 21 threads 2 locks 0 variables 1 races 20\n");
    for number in 2..22u32 {
        text.keep(b"T1|r(x)|");
        text.keep(letters(255));
        text.keep(b"\n");
        report.print(number);
        report.keep(b"|T1|r(x)|");
        report.keep(letters(255));
        report.keep(b" with 1|T0|w(x)|1\n");
    }
    expect_both(&rt, Text::whole(text.bytes()), Answer::of(report.text(), 1));
}

/// A thousand lines in pieces that end within them.
#[test]
fn a_thousand_lines_are_judged(rt: HostRuntime) {
    let mut text = Page::blank(Room::AMPLE);
    for _ in 0..250 {
        text.keep(b"T0|acq(l)|1\nT0|w(x)|2\nT0|r(y)|3\nT0|rel(l)|4\n");
    }
    let answer = Answer::of("events 1000 threads 1 locks 1 variables 2 races 0\n", 0);
    expect_both(&rt, Text::cut(text.bytes(), 1001, 4001), answer);
}

/// Writes the line of each event of the text: whether all are written.
fn copy_all(reader: &mut Reader<Device<&[u8]>>, page: &mut Page) -> Result<bool, TextFault> {
    for _ in 0..100 {
        match reader.next()? {
            Some(event) => {
                if write_event(page, &event, reader.names()).is_err() {
                    return Ok(false);
                }
            }
            None => return Ok(true),
        }
    }
    Ok(false)
}

#[test]
fn a_trace_that_is_written_again_has_the_same_report(rt: HostRuntime) {
    let limits = Limits::new(8, 8, 8, 64, Roots::Free).expect(&rt, "limits");
    for (text, report, status) in legal() {
        let device = Device::new(text.as_bytes());
        let mut reader = Reader::new(rt.alloc(), device, limits, 100).expect(&rt, "a reader");
        let mut page = Page::blank(Room::AMPLE);
        expect(&rt, text, &copy_all(&mut reader, &mut page), &Ok(true));
        drop(reader);
        let run = Run::of(REPLAY, Text::whole(page.bytes()));
        run.expect(&rt, Answer::of(report, *status));
    }
}
