//! Scripts with a fault, each with its line and its cause.
use super::faults::letters_and;
use super::readers::expect;
use super::script_lines::{expect_read, expect_script};
use rapid_text::Kind;
use script_text::ScriptCause;
use test_doubles::{Text, rows};

/// A text, and the line and the cause of its fault.
const FAULTS: &[(&str, &str)] = rows! {
    "m r x\na r x", "2: NoFork";
    "m r x\na r x\nm", "3: BadLine";
    "m r x\na fork b\nb fork a", "2: NoFork";
    "m fork a\nm fork a", "2: BadFork";
    "m fork m", "1: BadFork";
    "m w x 18446744073709551616", "1: BadNumber";
    "m swap x -1", "1: BadNumber";
    "m w x 000000000000000000001", "1: BadNumber";
    "m w x ", "1: BadNumber";
    "m fork a\nm join m", "2: BadJoin";
    "m fork a\na join a", "2: BadJoin";
    "m fork a\nm join a\n\nm join a", "4: BadJoin";
    "m  r x", "1: BadLine";
    "m r x ", "1: BadLine";
    "m w x", "1: BadLine";
    "m w x 5 6", "1: BadLine";
    "m\rr x", "1: BadLine";
    "m r x|y", "1: BadLine";
    "m begin x", "1: BadLine";
    "m fork a\nm fork b\nm fork c", "3: TooManyNames(Thread)";
    "m acq a\nm rel b\nm acq c", "3: TooManyNames(Lock)";
    "m r a\nm w b 1\nm swap c 1", "3: TooManyNames(Variable)";
};

fn faults() -> &'static [(&'static str, &'static str)] {
    FAULTS
}

/// How many letters the text begins with, what follows them, whether the reader then fails, and the line and
/// the cause of the fault.
const PARTS: &[(usize, &str, bool, &str)] = rows! {
    255, " r x\na r x", false, "2: NoFork";
    256, " r x\na r x", false, "1: BadLine";
    1024, "\r\n", false, "1: BadLine";
    1025, "\r\n", false, "1: LineTooLong";
    1025, "", true, "1: Read";
    1026, "", true, "1: LineTooLong";
    // A failed read is reported where it failed. Whole lines that came before the failure are judged first.
    // The fault has the number of the line whose end was not read.
    0, "", true, "1: Read";
    0, "m acq l", true, "1: Read";
    0, "m r x\n", true, "2: Read";
    0, "m r x\nm acq", true, "2: Read";
    0, "m r\nm r x", true, "1: BadLine";
    0, "m r x\na r x\n", true, "3: Read";
};

/// Each read of one byte takes a turn, the one that finds the end too.
const TURNS: &[(u32, &str)] = rows! {
    11, "2: Read";
    12, "2: NoFork";
};

#[test]
fn the_first_cause_is_told(rt: HostRuntime) {
    for (text, fault) in faults() {
        expect_script(&rt, text, fault);
    }
}

#[test]
fn a_line_or_a_name_that_is_too_long_and_a_failed_read_are_told(rt: HostRuntime) {
    for (letters, rest, fails, fault) in PARTS {
        let page = letters_and(*letters, rest);
        let text = Text::whole(page.bytes()).failing(*fails);
        expect_read(&rt, text, 100, fault);
    }
}

#[test]
fn a_reader_is_asked_no_more_often_than_the_turns(rt: HostRuntime) {
    for (turns, fault) in TURNS {
        let text = Text::byte_by_byte(b"m r x\na r x");
        expect_read(&rt, text, *turns, fault);
    }
}

const WORDS: &[(ScriptCause, &str)] = &[
    (ScriptCause::LineTooLong, "LineTooLong"),
    (ScriptCause::BadLine, "BadLine"),
    (ScriptCause::BadNumber, "BadNumber"),
    (ScriptCause::TooManyNames(Kind::Thread), "TooManyNames"),
    (ScriptCause::TooManyNames(Kind::Lock), "TooManyNames"),
    (ScriptCause::TooManyNames(Kind::Variable), "TooManyNames"),
    (ScriptCause::TooManyNames(Kind::Site), "TooManyNames"),
    (ScriptCause::BadFork, "BadFork"),
    (ScriptCause::BadJoin, "BadJoin"),
    (ScriptCause::NoFork, "NoFork"),
    (ScriptCause::Read, "Read"),
    (ScriptCause::OutOfMemory, "OutOfMemory"),
];

#[test]
fn causes_of_scripts_have_their_names(rt: HostRuntime) {
    for (cause, word) in WORDS {
        expect(&rt, word.as_bytes(), &cause.word(), word);
    }
}
