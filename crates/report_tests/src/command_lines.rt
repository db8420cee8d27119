//! Command lines, and what is said of them.
use crate::runs::Program::Words;
use crate::runs::{Run, expect};
use std::fmt::InlineText;
use test_doubles::{Text, rows};
use wcp_tool::settings;

/// Words, and the command, the number of threads and the patience that they ask for.
const TAKEN: &[(&[&str], &str, u32, u32)] = rows! {
    &["check"], "Check", 64, 1000000;
    &["check", "--threads", "1"], "Check", 1, 1000000;
    &["check", "--threads", "64"], "Check", 64, 1000000;
    &["check", "--threads=+7"], "Check", 7, 1000000;
    &["check", "--threads", "1024"], "Check", 1024, 1000000;
    &["replay"], "Replay", 64, 1000000;
    &["replay", "--threads", "2"], "Replay", 2, 1000000;
    &["witness"], "Witness(None)", 64, 1000000;
    &["witness", "8"], "Witness(Some(8))", 64, 1000000;
    &["witness", "--threads=2", "4294967295"], "Witness(Some(4294967295))", 2, 1000000;
    &["run", "a.txt"], "Run(\"a.txt\")", 64, 1000000;
    &["run", "--patience", "1", "a.txt"], "Run(\"a.txt\")", 64, 1;
    &["run", "b", "--patience=4294967295"], "Run(\"b\")", 64, 4294967295;
    &["run", "--threads", "3", "c d", "--patience", "20"], "Run(\"c d\")", 3, 20;
    &["run", "--", "--help"], "Run(\"--help\")", 64, 1000000;
};

/// The trace that help has as its example.
const TRACE: &[u8] = b"A|w(y)|1\nA|acq(l)|2\nA|rel(l)|3\nB|acq(l)|4\nB|r(y)|5\n";

/// Words, a part of what is said, and the status.
const SAID: &[(&str, &str, u8)] = rows! {
    // Help and the version are asked for.
    "--help", "Usage: wcp <COMMAND>", 0;
    "-h", "Exit status:", 0;
    "help", "check", 0;
    "check --help", "Usage: wcp check [OPTIONS] < TRACE", 0;
    "help check", "TooManyNames", 0;
    "replay --help", "Usage: wcp replay [OPTIONS] < TRACE", 0;
    "help replay", "races R", 0;
    "witness --help", "Usage: wcp witness [OPTIONS] [EVENT] < TRACE", 0;
    "help witness", "The number of a racing event", 0;
    "run --help", "Usage: wcp run [OPTIONS] FILE", 0;
    "run -h", "--patience <N>", 0;
    "help run", "Stuck", 0;
    "--version", "wcp 0.1.0\n", 0;
    "-V", "wcp 0.1.0\n", 0;
    // The example of help, and what a run of it prints.
    "check --help", "events 5 threads 2 locks 1 variables 1\n", 0;
    "check", "events 5 threads 2 locks 1 variables 1\n", 0;
    "replay --help", "events 5 threads 2 locks 1 variables 1 races 1\n", 0;
    "replay", "events 5 threads 2 locks 1 variables 1 races 1\n", 1;
    "witness --help", "  B|acq(l)|4\n  A|w(y)|1\n  B|r(y)|5\n", 0;
    "witness 5", "B|acq(l)|4\nA|w(y)|1\nB|r(y)|5\n", 0;
    "--help", "5|B|r(y)|5 with 1|A|w(y)|1\n", 0;
    "replay --help", "5|B|r(y)|5 with 1|A|w(y)|1\n", 0;
    "replay", "5|B|r(y)|5 with 1|A|w(y)|1\n", 1;
    // The words are wrong.
    "", "Usage: wcp <COMMAND>", 2;
    "report", "'report'", 2;
    "run", "<FILE>", 2;
    "run --threads 2", "<FILE>", 2;
    "run a b", "'b'", 2;
    "run a --threads 1025", "1025 is not in 1..=1024", 2;
    "run a --patience 0", "0 is not in 1..=4294967295", 2;
    "run a --patience 4294967296", "4294967296 is not in 1..=4294967295", 2;
    "run a --patience", "a value is required", 2;
    "check --threads 0", "0 is not in 1..=1024", 2;
    "check --threads 1025", "1025 is not in 1..=1024", 2;
    "check --threads x", "'x'", 2;
    "check --threads", "a value is required", 2;
    "check trace.txt", "Usage: wcp check [OPTIONS] < TRACE", 2;
    "replay trace.txt", "wcp replay < trace.txt\n", 2;
    "witness 0", "0 is not in 1..=4294967295", 2;
    "witness 4294967296", "1..=4294967295", 2;
    "witness 5 6", "'6'", 2;
    "witness 4", "the event does not race with an earlier one\n", 2;
    "--threads 2 check", "'--threads'", 2;
    "replay --threads 0", "0 is not in 1..=1024", 2;
    "replay --patience 1", "'--patience'", 2;
};

fn said() -> &'static [(&'static str, &'static str, u8)] {
    SAID
}

#[test]
fn a_command_is_taken_with_its_options(rt: HostRuntime) {
    for (words, command, threads, patience) in TAKEN {
        let got = settings(rt.alloc(), words).expect(&rt, command);
        let met: InlineText<64> = InlineText::of(format_args!("{:?}", got.command));
        let came = (met.as_str(), got.threads, got.patience);
        expect(&rt, command, &came, &(*command, *threads, *patience));
        drop(got);
    }
}

/// Whether no line has more than 80 columns.
fn is_narrow(text: &str) -> bool {
    for line in text.lines() {
        if line.len() > 80 {
            return false;
        }
    }
    true
}

/// What is wrong is printed on standard error, with status 2; all else on standard output, in lines of at
/// most 80 columns. The trace of help is on standard input.
#[test]
fn each_command_line_is_answered(rt: HostRuntime) {
    for (words, part, status) in said() {
        let ran = Run::of(Words(words), Text::whole(TRACE)).ran(&rt);
        let (said, other) = if *status == 2 {
            (ran.errors.text(), ran.output.text())
        } else {
            (ran.output.text(), ran.errors.text())
        };
        expect(&rt, part, &(other, ran.status), &("", *status));
        let is_said = said.contains(part) && (*status == 2 || is_narrow(said));
        expect(&rt, part, &(said, is_said), &(said, true));
    }
}
