//! What a report counts.
ghost use Rattle.std.specs.Prelude.{◌≡◌};

use event_core::Log;
use rapid_text::{Kind, Names};
use verdict_list::Verdicts;

/// How many events, names of each kind and races a report tells. A name counts whether or not an event has
/// its number.
#[derive(Clone, Copy, Debug, PartialEq, Eq)]
pub struct Summary {
    pub events: u64,
    /// How many names of threads.
    pub threads: u32,
    /// How many names of locks.
    pub locks: u32,
    /// How many names of variables.
    pub vars: u32,
    /// How many events race with an earlier one.
    pub races: u64,
}

impl Summary {
    ghost use Rattle.trace_report.specs.Reports.{summary_of};

    /// The counts of a log with these verdicts and names.
    #[tactic(auto, using(crate::proofs::Races::races_counted))]
    pub fn of(log: &Log, verdicts: &Verdicts, names: &Names) -> Summary
        ensures { result ≡ summary_of names.now log.now.events verdicts.now.verdicts }
    {
        Summary {
            events: log.len(),
            threads: names.count(Kind::Thread),
            locks: names.count(Kind::Lock),
            vars: names.count(Kind::Variable),
            races: verdicts.races().len() as u64,
        }
    }
}
