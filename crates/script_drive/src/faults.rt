//! Why a drive ends before its script does.
ghost use Rattle.std.specs.Prelude.{◌≡◌, [], true, None, Contains, IfSome};
ghost use Rattle.live_monitor.specs.Tries.{AreUsedUp};
ghost use Rattle.script_drive.specs.Faults.{own_fault, rank, refused_at, stuck_at, HasToWait};
ghost use Rattle.script_drive.specs.Faults.{IsAnswer, IsEarlier, IsFirst, IsHaltOf};

use crate::drive_names::DriveName;
use event_core::{Refusal, ThreadId};
use live_monitor::Tries;
use log_pass::Name;
use script_text::ScriptLine;
use thiserror::Error;

/// Why a script was not run to its end. Lines are numbered from 1. Each reason has a number, which its
/// comment begins with.
#[derive(Clone, Copy, Debug, PartialEq, Eq, Error)]
pub enum DriveFault {
    /// 1: the line was tried as often as patience allows: its gate did not admit it, another thread held the
    /// lock that it acquires, or the thread that it joins did not end.
    #[error("line {line}: it was tried as often as patience allows")]
    Stuck {
        thread: ThreadId,
        line: u64,
    },
    /// 2: the line's call was refused.
    #[error("line {line}: {refusal}")]
    Refused {
        thread: ThreadId,
        line: u64,
        refusal: Refusal,
    },
    /// 3: no worker could be started for the thread that the line forks.
    #[error("line {line}: no worker could be started for the thread that it forks")]
    NoWorker {
        line: u64,
    },
    /// 4: a growth was refused.
    #[error("out of memory")]
    OutOfMemory,
}

impl DriveFault {
    /// The line's call was refused, for another reason than that another thread holds the lock.
    pub(crate) fn refused(line: &ScriptLine, refusal: Refusal) -> DriveFault
        ensures { result ≡ refused_at line.now refusal }
    {
        match refusal {
            Refusal::OutOfMemory => DriveFault::OutOfMemory,
            refusal => DriveFault::Refused {
                thread: line.thread(),
                line: line.line,
                refusal,
            },
        }
    }

    /// The lesser it is, the earlier the fault is answered: want of memory before all lines.
    fn rank(&self) -> u128
        ensures { result ≡ rank self.now }
    {
        match self {
            DriveFault::OutOfMemory => 0,
            DriveFault::Stuck { line, .. }
            | DriveFault::Refused { line, .. }
            | DriveFault::NoWorker { line } => u128::from(*line) + 1,
        }
    }

    /// Which of the two is answered.
    fn or_earlier(self, other: DriveFault) -> DriveFault
        ensures { IsEarlier self other result }
    {
        if other.rank() < self.rank() {
            other
        } else {
            self
        }
    }
}

/// The first of faults: want of memory, or else one with the least line.
pub(crate) fn first_fault(faults: &[DriveFault]) -> Option<DriveFault>
    ensures none { result ≡ None → faults.now ≡ [] }
    ensures first { IfSome result (IsFirst faults.now) }
{
    let mut first = *faults.first()?;
    for fault in faults {
        first = first.or_earlier(*fault);
    }
    Some(first)
}

/// Why a worker ends before its lines do.
#[derive(Clone, Copy)]
pub(crate) enum Halt {
    /// By a fault of its own.
    Fault(DriveFault),
    /// The thread that this line joins ended before its lines did.
    Abandoned(ScriptLine),
    /// The line with this number, which forks the worker's thread, was not done.
    NotForked(u64),
}

impl Halt {
    /// The line was tried as often as patience allows, as its tries show.
    pub(crate) fn stuck<S: DriveName>(line: &ScriptLine, tries: &Tries) -> Halt
        requires line { Contains S.lines line.now }
        requires patience { tries.now.most ≡ S.patience }
        requires used_up { AreUsedUp tries.now }
        requires waits { S.ahead ≡ true → HasToWait S.limits S.lines line.now }
        ensures stuck { result ≡ Halt.Fault (stuck_at line.now) }
        ensures halt { IsHaltOf S.limits S.ahead S.lines result }
    {
        Halt::Fault(DriveFault::Stuck {
            thread: line.thread(),
            line: line.line,
        })
    }

    /// The worker's own fault. One that ended because another did has none.
    pub(crate) fn fault(self) -> Option<DriveFault>
        ensures { result ≡ own_fault self }
    {
        match self {
            Halt::Fault(fault) => Some(fault),
            Halt::Abandoned(_) => None,
            Halt::NotForked(_) => None,
        }
    }

    /// What is answered where a worker ends so, and this is the first fault of the others.
    pub(crate) fn answer(self, others: Option<DriveFault>) -> DriveFault
        ensures { IsAnswer self others result }
    {
        match (self, others) {
            (Halt::Fault(own), Some(other)) => own.or_earlier(other),
            (Halt::Fault(own), None) => own,
            (Halt::Abandoned(_), Some(other)) => other,
            (Halt::NotForked(_), Some(other)) => other,
            // A worker ends so because of one that has a fault, so this does not occur. No clause tells so.
            (Halt::Abandoned(line), None) => DriveFault::Stuck {
                thread: line.thread(),
                line: line.line,
            },
            (Halt::NotForked(line), None) => DriveFault::NoWorker { line },
        }
    }
}
