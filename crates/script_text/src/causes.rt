//! Why a script has a fault, and where.
ghost use Rattle.std.specs.Prelude.{◌≡◌};
ghost use Rattle.script_text.specs.Faults.{cause_word};

use rapid_text::Kind;
use thiserror::Error;

/// Why a script has a fault. Each cause has a number, which its comment begins with. Of several at the
/// first line that has one, the first in this order is answered.
#[derive(Clone, Copy, Debug, PartialEq, Eq)]
pub enum ScriptCause {
    /// 1: the content has more than 1,024 bytes.
    LineTooLong,
    /// 2: the line has none of the forms, a CR in its content, or a name that is none.
    BadLine,
    /// 3: the number is not 1 to 20 digits, or above the greatest that a u64 holds.
    BadNumber,
    /// 4: the line has a new name, and its kind has as many names as its limit.
    TooManyNames(Kind),
    /// 5: the line forks thread 0, or a thread that a line before it forks.
    BadFork,
    /// 6: the line joins thread 0, its own thread, or a thread that a line before it joins.
    BadJoin,
    /// 7: the line names a thread to which no forks lead from thread 0. It is answered only where no line has
    /// one of the causes above.
    NoFork,
    /// 8: the reader failed, or the turns are used up.
    Read,
    /// 9: a growth was refused.
    OutOfMemory,
}

impl ScriptCause {
    /// The cause's name, as a fault line prints it.
    pub fn word(self) -> &'static str
        ensures { result.now ≡ cause_word self }
    {
        match self {
            ScriptCause::LineTooLong => "LineTooLong",
            ScriptCause::BadLine => "BadLine",
            ScriptCause::BadNumber => "BadNumber",
            ScriptCause::TooManyNames(_) => "TooManyNames",
            ScriptCause::BadFork => "BadFork",
            ScriptCause::BadJoin => "BadJoin",
            ScriptCause::NoFork => "NoFork",
            ScriptCause::Read => "Read",
            ScriptCause::OutOfMemory => "OutOfMemory",
        }
    }
}

/// A cause, and the number of its line. Lines are numbered from 1.
#[derive(Clone, Copy, Debug, PartialEq, Eq, Error)]
#[error("line {line}: {word}", word = .cause.word())]
pub struct ScriptFault {
    pub line: u64,
    pub cause: ScriptCause,
}
