//! Runs of the program and of scripts, and what they come to.
use rapid_text::Device;
use std::fmt::{Debug, InlineText};
use std::process::Abort;
use std::sync::Wait;
use std::thread::Threads;
use test_doubles::{Page, Pieces, Room, Text};
use wcp_tool::{Command, ScriptFiles, Settings, run_script, tool};

/// What runs and tests of them may do.
pub trait Host: Abort + AllocGlobal + ScriptFiles + Threads + Wait + Sync {}

impl<R: Abort + AllocGlobal + ScriptFiles + Threads + Wait + Sync> Host for R {}

/// Ends the test, unless what came is what was expected, with the case and both.
pub fn expect<T: Debug + PartialEq>(rt: &impl Abort, case: &str, came: &T, expected: &T) {
    if came != expected {
        rt.panic(format_args!("{case:?}: expected {expected:?}, came {came:?}"));
    }
}

/// What is run: the program over the words of a line, or over one word and with devices of std, or a script,
/// a line of which is tried so often, and at least once.
#[derive(Clone, Copy)]
pub enum Program {
    Words(&'static str),
    Piped(&'static str),
    Script(u32),
}

pub const CHECK: Program = Program::Words("check");

pub const REPLAY: Program = Program::Words("replay");

pub const SCRIPT: Program = Program::Script(1000000);

/// A run, with what it reads, and the room for what it writes to standard output and to standard error.
#[derive(Clone, Copy)]
pub struct Run<'a> {
    pub program: Program,
    pub text: Text<'a>,
    pub rooms: (Room, Room),
}

/// What a run ended with, and what it wrote to standard output and to standard error.
#[derive(Clone, Copy)]
pub struct Ran {
    pub status: u8,
    pub output: Page,
    pub errors: Page,
}

/// What is said of a run: what it wrote to standard output and to standard error, and the exit status.
#[derive(Clone, Copy, Debug, PartialEq)]
pub struct Answer<'a> {
    pub output: &'a str,
    pub errors: &'a str,
    pub status: u8,
}

pub const READ_FAULT: Answer<'static> = Answer {
    output: "",
    errors: "read fault\n",
    status: 4,
};

impl<'a> Answer<'a> {
    pub fn new(output: &'a str, errors: &'a str, status: u8) -> Answer<'a> {
        Answer {
            output,
            errors,
            status,
        }
    }

    /// Nothing is written to standard error.
    pub fn of(output: &'a str, status: u8) -> Answer<'a> {
        Answer::new(output, "", status)
    }
}

impl Ran {
    pub fn answer(&self) -> Answer<'_> {
        Answer::new(self.output.text(), self.errors.text(), self.status)
    }
}

/// The words of a line, of which there are at most eight, and how many there are.
fn words_of(line: &str) -> ([&str; 8], usize) {
    let mut words = [""; 8];
    let mut count: usize = 0;
    for word in line.split_whitespace() {
        if count < 8 {
            words[count] = word;
            count += 1;
        }
    }
    (words, count)
}

impl<'a> Run<'a> {
    /// A run with room for all that is written.
    pub fn of(program: Program, text: Text<'a>) -> Run<'a> {
        Run {
            program,
            text,
            rooms: (Room::AMPLE, Room::AMPLE),
        }
    }

    pub fn ran(&self, rt: &impl Host) -> Ran {
        let mut reader = Pieces::of(self.text);
        let mut output = Page::blank(self.rooms.0);
        let mut errors = Page::blank(self.rooms.1);
        let status = match self.program {
            Program::Words(line) => {
                let (words, count) = words_of(line);
                let words = &words[..count.min(8)];
                tool(rt, words, &mut reader, &mut output, &mut errors)
            }
            Program::Piped(word) => {
                let mut reader = Device::new(reader);
                let mut output = Device::new(&mut output);
                tool(rt, &[word], &mut reader, &mut output, &mut errors)
            }
            Program::Script(patience) => {
                let settings = Settings {
                    command: Command::Check,
                    threads: 64,
                    patience: if patience == 0 { 1 } else { patience },
                };
                let status = run_script(rt, &mut reader, &mut output, &mut errors, &settings);
                drop(settings);
                status
            }
        };
        Ran {
            status,
            output,
            errors,
        }
    }

    /// The run answers so.
    pub fn expect(&self, rt: &impl Host, answer: Answer<'_>) {
        expect(rt, self.text.name(), &self.ran(rt).answer(), &answer);
    }
}

/// What a check prints where a replay prints this: the counts without the races, or the line of a fault.
pub fn counts_of(report: &str) -> InlineText<128> {
    match report.split_once(" races ") {
        Some((counts, _)) => InlineText::of(format_args!("{counts}\n")),
        None => InlineText::of(report),
    }
}

/// A replay of the text answers so, and a check likewise, with its counts in place of the report. A check
/// ends with 0 where a replay reports a race.
pub fn expect_both(rt: &impl Host, text: Text<'_>, replayed: Answer<'_>) {
    let counts = counts_of(replayed.output);
    let status = if replayed.status == 1 {
        0
    } else {
        replayed.status
    };
    let checked = Answer::new(counts.as_str(), replayed.errors, status);
    Run::of(CHECK, text).expect(rt, checked);
    Run::of(REPLAY, text).expect(rt, replayed);
}

/// What is run, the text that it reads, whether the reader then fails, how many bytes a put may have and how
/// many puts to standard output there may be, what the run writes to standard output and to standard error,
/// and the status.
pub type Row = (
    Program,
    &'static str,
    bool,
    (usize, usize),
    &'static str,
    &'static str,
    u8,
);

/// As many puts as the run makes, each of as many bytes as it has.
pub const ALL: (usize, usize) = (usize::MAX, usize::MAX);

/// One put, and no more.
pub const ONE_PUT: (usize, usize) = (usize::MAX, 1);

pub const CLOSED: (usize, usize) = (usize::MAX, 0);

pub const READ: &str = "read fault\n";

pub const WRITE: &str = "write fault\n";

pub fn expect_rows(rt: &impl Host, rows: &[Row]) {
    for (program, text, fails, (most, puts), output, errors, status) in rows {
        let run = Run {
            program: *program,
            text: Text::whole(text.as_bytes()).failing(*fails),
            rooms: (Room::of(*most, *puts), Room::AMPLE),
        };
        run.expect(rt, Answer::new(output, errors, *status));
    }
}
