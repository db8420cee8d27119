//! Why a text has no report.
use crate::words::refusal_word;
use event_core::Refusal;
use rapid_text::{Cause, TextFault};
use thiserror::Error;

/// Why a text is no legal trace, or was not judged to its end.
#[derive(Clone, Copy)]
pub enum TraceFault {
    /// A line is no event, a read failed, or the turns were used up.
    Text(TextFault),
    /// The event of the line is refused.
    Refused { line: u64, refusal: Refusal },
}

/// Why a text has no report.
#[derive(Clone, Copy, Debug, PartialEq, Eq, Error)]
pub enum ReplayFault {
    /// A line is no event, a read failed, or the turns were used up.
    #[error(transparent)]
    Text(TextFault),
    /// The event of the line is refused.
    #[error("line {line}: {refusal}")]
    Refused { line: u64, refusal: Refusal },
    /// A write failed.
    #[error("the report could not be written")]
    Write,
}

impl TraceFault {
    ghost use Rattle.std.specs.Prelude.{◌≡◌, ◌↔◌, true, IsNone, IfSome};
    ghost use Rattle.rapid_text.specs.Faults.{fault_line};
    ghost use Rattle.trace_report.specs.Replayed.{gives_up, fault_text, replay_fault};

    /// The answer of a check or a replay that has this fault.
    pub(crate) fn replay_fault(self) -> ReplayFault
        ensures { result ≡ replay_fault self }
    {
        match self {
            TraceFault::Text(fault) => ReplayFault::Text(fault),
            TraceFault::Refused { line, refusal } => ReplayFault::Refused { line, refusal },
        }
    }

    /// Its line and its name; none, where it says nothing of the text.
    pub(crate) fn line_and_word(self) -> Option<(u64, &'static str)>
        ensures none { IsNone result ↔ (gives_up self ≡ true) }
        ensures some { IfSome result (λ named. fault_line named.0 named.1.now ≡ fault_text self) }
    {
        match self {
            TraceFault::Text(fault) => match fault.cause {
                Cause::Read | Cause::OutOfMemory => None,
                cause => Some((fault.line, cause.word())),
            },
            TraceFault::Refused { line, refusal } => match refusal {
                Refusal::OutOfMemory => None,
                refusal => Some((line, refusal_word(refusal))),
            },
        }
    }
}
