//! Scripts, and what a run of their threads prints.
use crate::runs::Program::{self, Script, Words};
use crate::runs::{ALL, Answer, ONE_PUT, READ, Ran, Row, Run, SCRIPT, WRITE, expect, expect_rows};
use std::fs;
use std::fs::Files;
use std::process::Abort;
use test_doubles::{Page, Room, Text, letters, rows};

/// A script, what a run of it prints, and the status with which it ends.
const SCRIPTS: &[(&str, &str, u8)] = rows! {
    "", "events 0 threads 0 locks 0 variables 0 races 0\n", 0;
    // a thread that is joined before its store is loaded
    "m fork a\na w x 5\nm join a\nm r x\n", "events 4 threads 2 locks 0 variables 1 races 0\n", 0;
    // a lock that is never released
    "m acq l\nm fork a\na acq l\nm join a\n", "line 3: Stuck\n", 6;
    // a thread that no line forks, or that is forked twice
    "m r x\na r x\n", "line 2: NoFork\n", 6;
    "m fork a\nm fork a\n", "line 2: BadFork\n", 6;
    // a number above the greatest
    "m w x 18446744073709551616\n", "line 1: BadNumber\n", 6;
    // a release of a lock that is free
    "m rel l\n", "line 1: NotHolder\n", 3;
    // a thread that joins itself
    "m fork a\nm join m\n", "line 2: BadJoin\n", 6;
    // two blanks
    "m  r x\n", "line 1: BadLine\n", 6;
    // a thread that is not joined
    "m fork a\nm join a\nm fork b\nb r x\n", "events 4 threads 3 locks 0 variables 1 races 0\n", 0;
    // a lock that its holder acquires again
    "m acq l\nm acq l\n", "events 2 threads 1 locks 1 variables 0 races 0\n", 0;
    // swaps in turn, and a swap of no number
    "m fork a\na swap x 4\nm join a\nm swap x 5\n", "events 6 threads 2 locks 0 variables 1 races 0\n", 0;
    "m swap x -1\n", "line 1: BadNumber\n", 6;
    // a fault that two threads wait for
    "m fork a\nm fork b\na rel l\nb join a\nm join b\n", "line 3: NotHolder\n", 3;
    // loads that nothing orders
    "m fork a\nm r x\na r y\n", "events 3 threads 2 locks 0 variables 2 races 0\n", 0;
    // stores under one lock
    "m fork a\nm acq l\nm w x 1\nm rel l\na acq l\na w x 2\na rel l\nm join a\nm r x\n",
        "events 9 threads 2 locks 1 variables 1 races 0\n", 0;
};

fn scripts() -> &'static [(&'static str, &'static str, u8)] {
    SCRIPTS
}

#[test]
fn the_worked_scripts_have_their_answers(rt: HostRuntime) {
    for (text, output, status) in scripts() {
        let run = Run::of(SCRIPT, Text::cut(text.as_bytes(), 5, 3));
        run.expect(&rt, Answer::of(output, *status));
    }
}

#[test]
fn a_line_of_a_script_that_is_too_long_is_told(rt: HostRuntime) {
    let mut text = Page::blank(Room::AMPLE);
    text.keep(letters(1025));
    text.keep(b"\n");
    let run = Run::of(SCRIPT, Text::whole(text.bytes()));
    run.expect(&rt, Answer::of("line 1: LineTooLong\n", 6));
}

/// Nothing orders the store and the load of `y`, in whichever order they come.
const RACE: &str = "m fork a\nm w y 1\nm acq l\nm w x 1\nm rel l\na acq l\na rel l\na r y\n";

const RACE_COUNTS: &[u8] = b"events 8 threads 2 locks 1 variables 2 races 1\n";

const STUCK: &str = "m acq l\nm fork a\na acq l\n";

/// A line with two blanks, and a release of a lock that is free.
const BAD: &str = "m  r x\n";

const FREE: &str = "m rel l\n";

const GIVEN_UP: &str = "line 3: Stuck\n";

const MISSING: Program = Words("run there/is/no/such/script");

const LESS: &str = "events 8 threads ";

const MORE: &str = "events 8 threads 2 locks 1 variabl";

const ROWS: &[Row] = &[
    // A line is given up as soon as patience says.
    (Script(1), STUCK, false, ALL, GIVEN_UP, "", 6),
    (Script(2), STUCK, false, ALL, GIVEN_UP, "", 6),
    (Script(100), STUCK, false, ALL, GIVEN_UP, "", 6),
    // Whole lines that came before a reader failed are judged first.
    (SCRIPT, "m acq l", true, ALL, "", READ, 4),
    (SCRIPT, "m fork a\na r", true, ALL, "", READ, 4),
    (SCRIPT, BAD, true, ALL, "line 1: BadLine\n", "", 6),
    // A writer that takes one put and no more has the whole line of a fault.
    (SCRIPT, BAD, false, ONE_PUT, "line 1: BadLine\n", "", 6),
    (SCRIPT, FREE, false, ONE_PUT, "line 1: NotHolder\n", "", 3),
    // Whichever write fails, of a report or of a fault, the status says so. The line that a thread was not
    // started has 17 bytes.
    (SCRIPT, RACE, false, (7, 0), "", WRITE, 4),
    (SCRIPT, RACE, false, (17, 1), LESS, WRITE, 4),
    (SCRIPT, RACE, false, (17, 2), MORE, WRITE, 4),
    (SCRIPT, FREE, false, (7, 0), "", WRITE, 4),
    (SCRIPT, FREE, false, (7, 1), "line 1:", WRITE, 4),
    (SCRIPT, FREE, false, (7, 2), "line 1: NotHol", WRITE, 4),
    (SCRIPT, BAD, false, (7, 0), "", WRITE, 4),
    (SCRIPT, BAD, false, (7, 1), "line 1:", WRITE, 4),
    (SCRIPT, BAD, false, (7, 2), "line 1: BadLin", WRITE, 4),
    // A missing file is answered with a read fault.
    (MISSING, "", false, ALL, "", READ, 4),
];

fn rows_of_devices() -> &'static [Row] {
    ROWS
}

#[test]
fn patience_readers_and_writers_bound_a_run_of_a_script(rt: HostRuntime) {
    expect_rows(&rt, rows_of_devices());
}

/// The line of the race. None, one or two calls of the child come before the store, and none, one, two or
/// three calls of the main thread come between the child's section and the load. Or the load comes first.
const RACE_LINES: &[&[u8]] = &[
    b"5|a|r(y)|8 with 2|m|w(y)|2\n",
    b"6|a|r(y)|8 with 2|m|w(y)|2\n",
    b"7|a|r(y)|8 with 2|m|w(y)|2\n",
    b"8|a|r(y)|8 with 2|m|w(y)|2\n",
    b"5|a|r(y)|8 with 3|m|w(y)|2\n",
    b"6|a|r(y)|8 with 3|m|w(y)|2\n",
    b"7|a|r(y)|8 with 3|m|w(y)|2\n",
    b"8|a|r(y)|8 with 3|m|w(y)|2\n",
    b"5|a|r(y)|8 with 4|m|w(y)|2\n",
    b"6|a|r(y)|8 with 4|m|w(y)|2\n",
    b"7|a|r(y)|8 with 4|m|w(y)|2\n",
    b"8|a|r(y)|8 with 4|m|w(y)|2\n",
    b"5|m|w(y)|2 with 4|a|r(y)|8\n",
];

/// Whether the report is the counts and one of the lines.
fn is_race(report: &[u8]) -> bool {
    match report.strip_prefix(RACE_COUNTS) {
        Some(line) => RACE_LINES.contains(&line),
        None => false,
    }
}

/// A race is reported, and nothing else is said.
fn expect_race(rt: &impl Abort, ran: &Ran) {
    let came = (ran.answer(), is_race(ran.output.bytes()));
    let expected = Answer {
        errors: "",
        status: 1,
        ..came.0
    };
    expect(rt, RACE, &came, &(expected, true));
}

#[test]
fn a_race_is_reported_whole_whatever_the_schedule(rt: HostRuntime) {
    for _ in 0..20 {
        let ran = Run::of(SCRIPT, Text::whole(RACE.as_bytes())).ran(&rt);
        expect_race(&rt, &ran);
    }
}

/// Words that run the script in the file, its text, what is printed, and the status.
const IN_A_FILE: &[(&str, &str, &str, u8)] = rows! {
    "run a.script", "m fork a\na w x 5\nm join a\nm r x\n",
        "events 4 threads 2 locks 0 variables 1 races 0\n", 0;
    "run a.script", "m r x\na r x\n", "line 2: NoFork\n", 6;
    "run a.script --patience 1", STUCK, "line 3: Stuck\n", 6;
    "run a.script --threads 1", "m fork a\n", "line 1: TooManyNames\n", 6;
    "run a.script", "m rel l\n", "line 1: NotHolder\n", 3;
};

const FILE: &str = "a.script";

fn write_script<R: Abort + AllocGlobal + Files>(rt: &R, text: &str) {
    fs::write(rt, FILE, text).expect(rt, "a file");
}

#[test]
fn a_script_in_a_file_is_run(rt: HostRuntime) {
    for (words, text, output, status) in IN_A_FILE {
        write_script(&rt, text);
        let ran = Run::of(Words(words), Text::whole(b"")).ran(&rt);
        expect(&rt, text, &ran.answer(), &Answer::of(output, *status));
    }
    write_script(&rt, RACE);
    let run = Run::of(Words("run a.script"), Text::whole(b""));
    expect_race(&rt, &run.ran(&rt));
    fs::remove_file(&rt, FILE).expect(&rt, "a file");
}
