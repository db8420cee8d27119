//! How the program ends: its exit status, and what standard error says of it.
ghost use Rattle.std.specs.Prelude.{◌≡◌, ◌≢◌, IsErrAnd, true};
ghost use Rattle.wcp_tool.specs.Endings.{check_ending, fault_ending as for_fault, replay_ending, status_of};
ghost use Rattle.wcp_tool.specs.Endings.{is_unread, summary_ending as for_summary, witness_ending};

use event_core::Refusal;
use rapid_text::{Cause, Output, write_all};
use trace_report::{Counts, ReplayFault, Summary};
use witness_report::Shown;

/// How the program ends.
#[derive(Clone, Copy)]
pub(crate) enum Ending {
    /// What was asked for stands on standard output.
    Done,
    /// A race was found, and the report stands on standard output.
    Races,
    /// The command line is wrong, or names an event that does not race. Standard error says which.
    WrongUsage,
    /// A line of the trace, or a call of the script, is refused.
    Refused,
    /// Standard input or the script could not be read to its end.
    ReadFault,
    /// Standard output could not be written.
    WriteFault,
    /// A growth was refused.
    OutOfMemory,
    /// The script is broken, or one of its threads is stuck or could not be started.
    BrokenScript,
}

impl Ending {
    /// The exit status.
    pub(crate) fn status(self) -> u8
        ensures { result ≡ status_of self }
    {
        match self {
            Ending::Done => 0,
            Ending::Races => 1,
            Ending::WrongUsage => 2,
            Ending::Refused => 3,
            Ending::ReadFault | Ending::WriteFault => 4,
            Ending::OutOfMemory => 5,
            Ending::BrokenScript => 6,
        }
    }

    /// What standard error says of it.
    pub(crate) fn message(self) -> &'static str {
        match self {
            Ending::Done
            | Ending::Races
            | Ending::WrongUsage
            | Ending::Refused
            | Ending::BrokenScript => "",
            Ending::ReadFault => "read fault\n",
            Ending::WriteFault => "write fault\n",
            Ending::OutOfMemory => "out of memory\n",
        }
    }
}

/// Says on standard error what there is to say of the ending, and answers the exit status. A standard error
/// that cannot be written changes nothing.
pub(crate) fn finish<E: Output>(ending: Ending, errors: &mut E) -> u8
    ensures { result ≡ status_of ending }
{
    let _ = write_all(errors, ending.message().as_bytes());
    ending.status()
}

/// How a check or a replay with this fault ends.
fn fault_ending(fault: ReplayFault) -> Ending
    ensures ending { result ≡ for_fault fault }
    ensures unread { result ≡ Ending.ReadFault → is_unread fault ≡ true }
{
    match fault {
        ReplayFault::Text(fault) => match fault.cause {
            Cause::Read => Ending::ReadFault,
            Cause::OutOfMemory => Ending::OutOfMemory,
            Cause::Line(_) | Cause::TooManyNames(_) | Cause::Failed => Ending::Refused,
        },
        ReplayFault::Refused { refusal, .. } => {
            if refusal == Refusal::OutOfMemory {
                Ending::OutOfMemory
            } else {
                Ending::Refused
            }
        }
        ReplayFault::Write => Ending::WriteFault,
    }
}

/// How a check with this answer ends.
pub(crate) fn ending_of_check(answer: Result<Counts, ReplayFault>) -> Ending
    ensures ending { result ≡ check_ending answer }
    ensures unread { result ≡ Ending.ReadFault → IsErrAnd answer (λ f. is_unread f ≡ true) }
{
    match answer {
        Ok(_) => Ending::Done,
        Err(fault) => fault_ending(fault),
    }
}

/// How a run with this report ends.
pub(crate) fn summary_ending(summary: Summary) -> Ending
    ensures ending { result ≡ for_summary summary }
    ensures read { result ≢ Ending.ReadFault }
{
    if summary.races == 0 {
        Ending::Done
    } else {
        Ending::Races
    }
}

/// How a replay with this answer ends.
pub(crate) fn ending_of_replay(answer: Result<Summary, ReplayFault>) -> Ending
    ensures ending { result ≡ replay_ending answer }
    ensures unread { result ≡ Ending.ReadFault → IsErrAnd answer (λ f. is_unread f ≡ true) }
{
    match answer {
        Ok(summary) => summary_ending(summary),
        Err(fault) => fault_ending(fault),
    }
}

/// How a search for witnesses with this answer ends. That the event does not race is said on standard error.
pub(crate) fn ending_of_witness<E: Output>(
    answer: Result<Shown, ReplayFault>,
    errors: &mut E,
) -> Ending
    ensures ending { result ≡ witness_ending answer }
    ensures unread { result ≡ Ending.ReadFault → IsErrAnd answer (λ f. is_unread f ≡ true) }
{
    match answer {
        Ok(Shown::Witness) => Ending::Done,
        Ok(Shown::NoWitness) => Ending::Races,
        Ok(Shown::NoRace) => {
            let _ = write_all(errors, b"the event does not race with an earlier one\n");
            Ending::WrongUsage
        }
        Ok(Shown::Pairs(summary)) => summary_ending(summary),
        Ok(Shown::OutOfMemory) => Ending::OutOfMemory,
        Err(fault) => fault_ending(fault),
    }
}
