//! The six operation words, and the causes why a content has no event.
ghost use Rattle.std.specs.Prelude.{◌≡◌, codes};
ghost use Rattle.rapid_line.specs.Grammar.{spelling};
ghost use Rattle.rapid_line.specs.Causes.{fault_word};

/// What an operation's word says.
#[derive(Clone, Copy, Debug, PartialEq, Eq)]
pub enum Word {
    Load,
    Store,
    Acquire,
    Release,
    Fork,
    Join,
}

impl Word {
    /// The word as it is spelled in a line.
    pub fn spelled(self) -> &'static [u8]
        ensures { result.now ≡ spelling self }
    {
        match self {
            Word::Load => b"r",
            Word::Store => b"w",
            Word::Acquire => b"acq",
            Word::Release => b"rel",
            Word::Fork => b"fork",
            Word::Join => b"join",
        }
    }
}

/// Why a content has no named event. Each cause has a number, which its comment begins with. Of several,
/// the first in this order is answered.
#[derive(Clone, Copy, Debug, PartialEq, Eq)]
pub enum LineFault {
    /// 1: the content has more than 1,024 bytes.
    LineTooLong,
    /// 10: a CR stands in the content.
    StrayCr,
    /// 2: there are fewer than two bars.
    FewFields,
    /// 3: there are more than two bars.
    ManyFields,
    /// 4: the field between the bars is no operation word with an argument in parentheses.
    BadOp,
    /// 5: the thread or the argument is empty.
    EmptyName,
    /// 6: the thread, the argument or the location has more than 255 bytes.
    LongName,
}

impl LineFault {
    /// The fault's name, as a fault line prints it.
    pub fn word(self) -> &'static str
        ensures { result.now ≡ fault_word self }
    {
        match self {
            LineFault::LineTooLong => "LineTooLong",
            LineFault::StrayCr => "StrayCr",
            LineFault::FewFields => "FewFields",
            LineFault::ManyFields => "ManyFields",
            LineFault::BadOp => "BadOp",
            LineFault::EmptyName => "EmptyName",
            LineFault::LongName => "LongName",
        }
    }
}
