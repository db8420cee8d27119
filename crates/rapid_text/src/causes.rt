//! Why a text has a fault, and where.
ghost use Rattle.std.specs.Prelude.{◌≡◌};
ghost use Rattle.rapid_text.specs.Faults.{cause_word};

use rapid_line::LineFault;
use thiserror::Error;

/// What a name names.
#[derive(Clone, Copy, Debug, PartialEq, Eq)]
pub enum Kind {
    Thread,
    Lock,
    Variable,
    Site,
}

/// Why a name has no number.
#[derive(Clone, Copy, Debug, PartialEq, Eq, Error)]
pub enum NameFault {
    /// The name is new, and its kind has as many names as its limit.
    #[error("the name is new, and its kind has as many names as its limit")]
    TooMany,
    /// A growth was refused.
    #[error("out of memory")]
    OutOfMemory,
}

/// Why a text has a fault. Each cause has a number, which its comment begins with.
#[derive(Clone, Copy, Debug, PartialEq, Eq)]
pub enum Cause {
    /// 1 to 6, and 10 for a CR in the content: the line is no event.
    Line(LineFault),
    /// 7: the line has a new name, and its kind has as many names as its limit.
    TooManyNames(Kind),
    /// 9: a growth was refused.
    OutOfMemory,
    /// 8: the reader failed, or the turns are used up.
    Read,
    /// 11: a fault was answered before.
    Failed,
}

impl Cause {
    /// The cause's name, as a fault line prints it.
    pub fn word(self) -> &'static str
        ensures { result.now ≡ cause_word self }
    {
        match self {
            Cause::Line(fault) => fault.word(),
            Cause::TooManyNames(_) => "TooManyNames",
            Cause::OutOfMemory => "OutOfMemory",
            Cause::Read => "Read",
            Cause::Failed => "Failed",
        }
    }
}

/// A cause, and the number of its line. Lines are numbered from 1.
#[derive(Clone, Copy, Debug, PartialEq, Eq, Error)]
#[error("line {line}: {word}", word = .cause.word())]
pub struct TextFault {
    pub line: u64,
    pub cause: Cause,
}
