//! The names of refusals, as a fault line prints them.
ghost use Rattle.std.specs.Prelude.{◌≡◌};
ghost use Rattle.trace_report.specs.Words.{refusal_word as word_of_refusal};

use event_core::Refusal;

/// The name of a refusal, without its holder.
pub fn refusal_word(refusal: Refusal) -> &'static str
    ensures { result.now ≡ word_of_refusal refusal }
{
    match refusal {
        Refusal::ThreadRange => "ThreadRange",
        Refusal::NotStarted => "NotStarted",
        Refusal::Ended => "Ended",
        Refusal::TargetRange => "TargetRange",
        Refusal::Held { .. } => "Held",
        Refusal::NotHolder => "NotHolder",
        Refusal::SelfTarget => "SelfTarget",
        Refusal::AlreadyStarted => "AlreadyStarted",
        Refusal::TargetNotStarted => "TargetNotStarted",
        Refusal::LogFull => "LogFull",
        Refusal::OutOfMemory => "OutOfMemory",
    }
}
