//! Witnesses of small traces, as another program found them and a person checked them.
use crate::memory::expect_whole;
use crate::runs::Program::Words;
use crate::runs::{ALL, Answer, CLOSED, READ, Row, Run, WRITE, expect_rows};
use test_doubles::{Text, rows};

/// A store before the first of two sections, and a load after the second.
const HIDDEN: &str = "T0|fork(T1)|1\nT0|w(y)|2\nT0|acq(l)|3\nT0|w(x)|4\nT0|rel(l)|5\n\
    T1|acq(l)|6\nT1|rel(l)|7\nT1|r(y)|8\n";

/// B loads what M stored in a section before A's.
const LOADED: &str = "M|acq(l)|1\nM|w(y)|2\nM|rel(l)|3\nA|acq(l)|4\nA|rel(l)|5\nA|w(x)|6\n\
    B|r(y)|7\nB|r(x)|8\n";

/// A fork inside a section: the child has to wait for the section's end.
const FORKED: &str = "T0|acq(l)|1\nT0|fork(T1)|2\nT0|w(x)|3\nT0|rel(l)|4\nT1|acq(l)|5\n\
    T1|rel(l)|6\nT1|w(x)|7\n";

/// Two races between one pair of locations, the first as in `FORKED`, the second after both sections.
const TWO_RACES: &str = "T0|acq(l)|1\nT0|fork(T1)|2\nT0|w(x)|a\nT0|rel(l)|4\nT0|w(z)|a\n\
    T1|acq(l)|5\nT1|rel(l)|6\nT1|w(x)|b\nT1|w(z)|b\n";

const NO_RACE: &str = "T0|fork(T1)|1\nT0|w(x)|2\nT0|join(T1)|3\nT0|w(x)|4\n";

/// The words that ask, the trace, what is printed, and the status.
const WITNESSES: &[(&str, &str, &str, u8)] = rows! {
    "witness 8", HIDDEN, "T0|fork(T1)|1\nT1|acq(l)|6\nT1|rel(l)|7\nT0|w(y)|2\nT1|r(y)|8\n", 0;
    // The section that is needed for its store has to end.
    "witness 8", LOADED,
        "M|acq(l)|1\nM|w(y)|2\nM|rel(l)|3\nA|acq(l)|4\nA|rel(l)|5\nB|r(y)|7\nA|w(x)|6\nB|r(x)|8\n", 0;
    // The section of a store need not end.
    "witness 7", LOADED, "M|acq(l)|1\nM|w(y)|2\nB|r(y)|7\n", 0;
    "witness 7", FORKED, "none\n", 1;
    // A lock that is held where the log ends.
    "witness 6", "T0|fork(T1)|1\nT0|acq(l)|2\nT0|rel(l)|3\nT0|w(x)|4\nT1|acq(l)|5\nT1|w(x)|6\n",
        "T0|fork(T1)|1\nT0|acq(l)|2\nT0|rel(l)|3\nT1|acq(l)|5\nT0|w(x)|4\nT1|w(x)|6\n", 0;
    // Forks and a join on the way.
    "witness 6", "T0|fork(T1)|1\nT0|fork(T2)|2\nT1|w(y)|3\nT0|join(T1)|4\nT0|w(x)|5\nT2|r(x)|6\n",
        "T0|fork(T1)|1\nT0|fork(T2)|2\nT1|w(y)|3\nT0|join(T1)|4\nT0|w(x)|5\nT2|r(x)|6\n", 0;
    // A lock that is acquired twice.
    "witness 10",
        "T0|w(x)|1\nT0|acq(l)|2\nT0|acq(l)|3\nT0|rel(l)|4\nT0|rel(l)|5\nT1|acq(l)|6\nT1|acq(l)|7\n\
        T1|rel(l)|8\nT1|rel(l)|9\nT1|r(x)|10\n",
        "T1|acq(l)|6\nT1|acq(l)|7\nT1|rel(l)|8\nT1|rel(l)|9\nT0|w(x)|1\nT1|r(x)|10\n", 0;
    // The load is the earlier of the two.
    "witness 5", "A|r(y)|1\nA|acq(l)|2\nA|rel(l)|3\nB|acq(l)|4\nB|w(y)|5\n",
        "B|acq(l)|4\nA|r(y)|1\nB|w(y)|5\n", 0;
    // Each pair of locations.
    "witness", HIDDEN,
        "events 8 threads 2 locks 1 variables 2 races 1\nwitness 1 8|T1|r(y)|8 with 2|T0|w(y)|2\n", 1;
    "witness", LOADED,
        "events 8 threads 3 locks 1 variables 2 races 2\nwitness 1 7|B|r(y)|7 with 2|M|w(y)|2\n\
        witness 1 8|B|r(x)|8 with 6|A|w(x)|6\n", 1;
    "witness", FORKED,
        "events 7 threads 2 locks 1 variables 1 races 1\nnone 1 7|T1|w(x)|7 with 3|T0|w(x)|3\n", 1;
    "witness", TWO_RACES,
        "events 9 threads 2 locks 1 variables 2 races 2\nwitness 2 9|T1|w(z)|b with 5|T0|w(z)|a\n", 1;
    // The locations in either order are one pair.
    "witness", "A|w(x)|1\nB|w(x)|2\nA|w(x)|1\n",
        "events 3 threads 2 locks 0 variables 1 races 2\nwitness 2 2|B|w(x)|2 with 1|A|w(x)|1\n", 1;
    "witness", NO_RACE, "events 4 threads 2 locks 0 variables 1 races 0\n", 0;
};

fn witnesses() -> &'static [(&'static str, &'static str, &'static str, u8)] {
    WITNESSES
}

#[test]
fn witnesses_are_printed_and_races_without_one_are_named(rt: HostRuntime) {
    for (words, text, output, status) in witnesses() {
        let run = Run::of(Words(words), Text::whole(text.as_bytes()));
        run.expect(&rt, Answer::of(output, *status));
    }
}

#[test]
fn witnesses_are_printed_whole_or_not_at_all_where_memory_is_refused(rt: HostRuntime) {
    for (words, text, output, status) in witnesses() {
        expect_whole(&rt, Words(words), text, Answer::of(output, *status));
    }
}

const NOT_RACING: &str = "the event does not race with an earlier one\n";

const BAD: &str = "T0|rel(l)|1\n";

const LINE: &str = "line 1: NotHolder\n";

const FAULTS: &[Row] = &[
    // An event that does not race, and one that is not there.
    (Words("witness 6"), HIDDEN, false, ALL, "", NOT_RACING, 2),
    (Words("witness 5"), NO_RACE, false, ALL, "", NOT_RACING, 2),
    // Faults of the text and of devices.
    (Words("witness"), BAD, false, ALL, LINE, "", 3),
    (Words("witness 5"), BAD, false, ALL, LINE, "", 3),
    (Words("witness"), HIDDEN, true, ALL, "", READ, 4),
    (Words("witness 8"), HIDDEN, true, ALL, "", READ, 4),
    (Words("witness"), HIDDEN, false, CLOSED, "", WRITE, 4),
    (Words("witness 8"), HIDDEN, false, CLOSED, "", WRITE, 4),
    (Words("witness 7"), FORKED, false, CLOSED, "", WRITE, 4),
];

#[test]
fn faults_are_printed_in_place_of_a_witness(rt: HostRuntime) {
    expect_rows(&rt, FAULTS);
}
