//! Writers that fail, or take a part or nothing, by themselves and under a device; and readers under one.
use crate::runs::Program::{Piped, Words};
use crate::runs::{
    ALL, Answer, CHECK, CLOSED, Host, ONE_PUT, READ, REPLAY, Row, Run, WRITE, expect_rows,
};
use test_doubles::{Room, Text};

/// Sections without a conflict.
const TRACE: &str = "T0|fork(T1)|1\nT0|w(y)|2\nT0|acq(l)|3\nT0|w(x)|4\nT0|rel(l)|5\n\
                     T1|acq(l)|6\nT1|rel(l)|7\nT1|r(y)|8\n";

const COUNTS: &str = "events 8 threads 2 locks 1 variables 2\n";

const REPORT: &str =
    "events 8 threads 2 locks 1 variables 2 races 1\n8|T1|r(y)|8 with 2|T0|w(y)|2\n";

const REFUSED: &str = "T0|w(x)|1\nT0|rel(l)|2\n";

const LINE: &str = "line 2: NotHolder\n";

const STORE: &str = "T0|w(x)|1\n";

const BY_SEVEN: (usize, usize) = (7, usize::MAX);

const BY_ONE: (usize, usize) = (1, usize::MAX);

const ROWS: &[Row] = &[
    // A writer that takes the bytes in parts is asked again for what is left.
    (CHECK, TRACE, false, ALL, COUNTS, "", 0),
    (CHECK, TRACE, false, BY_SEVEN, COUNTS, "", 0),
    (CHECK, TRACE, false, BY_ONE, COUNTS, "", 0),
    (REPLAY, TRACE, false, ALL, REPORT, "", 1),
    (REPLAY, TRACE, false, BY_SEVEN, REPORT, "", 1),
    (REPLAY, TRACE, false, BY_ONE, REPORT, "", 1),
    // A writer that takes one put and no more has the whole line of a fault.
    (CHECK, REFUSED, false, ONE_PUT, LINE, "", 3),
    (REPLAY, REFUSED, false, ONE_PUT, LINE, "", 3),
    // A pipe whose reader is gone takes no put.
    (Words("--help"), "", false, CLOSED, "", WRITE, 4),
    (Words("--version"), "", false, CLOSED, "", WRITE, 4),
    (Words("replay --help"), "", false, CLOSED, "", WRITE, 4),
    (CHECK, STORE, false, CLOSED, "", WRITE, 4),
    (REPLAY, STORE, false, CLOSED, "", WRITE, 4),
    (REPLAY, "T0|rel(l)|1\n", false, CLOSED, "", WRITE, 4),
];

fn rows_of_writers() -> &'static [Row] {
    ROWS
}

#[test]
fn a_closed_pipe_ends_with_status_4_and_one_that_takes_a_part_does_not(rt: HostRuntime) {
    expect_rows(&rt, rows_of_writers());
    // The status is the same where nothing can be said of it.
    let closed = Room::of(usize::MAX, 0);
    for program in [CHECK, REPLAY] {
        let run = Run {
            rooms: (closed, closed),
            ..Run::of(program, Text::whole(TRACE.as_bytes()))
        };
        run.expect(&rt, Answer::of("", 4));
    }
}

/// A program whose text comes byte by byte, and whose output is taken so, for so many writes, writes just
/// these bytes.
fn expect_written(
    rt: &impl Host,
    command: &'static str,
    (text, fails): (&str, bool),
    writer_fails: bool,
    answer: Answer<'_>,
) {
    let room = Room {
        most: 1,
        puts: answer.output.len(),
        fails: writer_fails,
    };
    let run = Run {
        program: Piped(command),
        text: Text::byte_by_byte(text.as_bytes()).failing(fails),
        rooms: (room, Room::AMPLE),
    };
    run.expect(rt, answer);
}

/// A text whose reader fails, what is written to standard output and to standard error, and the status.
const BROKEN: &[(&str, &str, &str, u8)] = &[
    ("", "", READ, 4),
    ("T0|w(x)|1\n", "", READ, 4),
    ("T0|w(x)|1", "", READ, 4),
    ("T0|acq(l)|1\nT0|rel(m)|2", "", READ, 4),
    ("T0|rel(l)|1\n", "line 1: NotHolder\n", "", 3),
    ("T0|w(x)|1\n|w(x)|2\n", "line 2: EmptyName\n", "", 3),
];

#[test]
fn a_device_tells_of_a_reader_that_fails(rt: HostRuntime) {
    for command in ["check", "replay"] {
        for (text, output, errors, status) in BROKEN {
            let answer = Answer::new(output, errors, *status);
            expect_written(&rt, command, (text, true), true, answer);
        }
    }
}

/// A command, a text, what is printed of it, and the status.
const PRINTED: &[(&str, &str, &str, u8)] = &[
    ("check", TRACE, COUNTS, 0),
    ("replay", TRACE, REPORT, 1),
    ("check", OTHER, LINE, 3),
    ("replay", OTHER, LINE, 3),
];

const OTHER: &str = "T0|w(y)|1\nT1|rel(l)|2\n";

/// Whichever write fails or takes no byte, the status says so, until none does.
#[test]
fn a_device_tells_of_a_writer_that_takes_no_more(rt: HostRuntime) {
    for fails in [true, false] {
        for (command, text, output, status) in PRINTED {
            for writes in 0..=output.len() {
                let written = str::from_utf8(&output.as_bytes()[..writes]).unwrap_or("");
                let is_cut = writes < output.len();
                let (errors, status) = if is_cut { (WRITE, 4) } else { ("", *status) };
                let answer = Answer::new(written, errors, status);
                expect_written(&rt, command, (text, false), fails, answer);
            }
        }
    }
}
