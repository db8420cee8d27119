//! What a call is answered.
ghost use Rattle.std.specs.Prelude.{◌≡◌};
ghost use Rattle.event_core.specs.declared.replies.Refusal.TheVariants.{OutOfMemory as ForMemory};

use crate::ids::ThreadId;
use std::alloc::{AllocError, AllocFailed};
use thiserror::Error;

/// Whether an access races with an earlier one, and the greatest index of such a one. Indices count from 0,
/// where the lines of a report count from 1.
#[derive(Clone, Copy, Debug, PartialEq, Eq)]
pub enum Verdict {
    Clear,
    Racy(u64),
}

/// The answer to an accepted call: its event's index in the log, its value and its verdict.
#[derive(Clone, Copy, Debug, PartialEq, Eq)]
pub struct Reply {
    pub index: u64,
    pub value: u64,
    pub verdict: Verdict,
}

/// The answer to an accepted swap. The index and the value are those of its load, and the index of
/// its store is one more.
#[derive(Clone, Copy, Debug, PartialEq, Eq)]
pub struct SwapReply {
    pub index: u64,
    pub value: u64,
    pub load: Verdict,
    pub store: Verdict,
}

/// Why a call is refused. Each reason has a number, which its comment begins with; they are looked at in
/// that order.
#[derive(Clone, Copy, Debug, PartialEq, Eq, Error)]
pub enum Refusal {
    /// 1: the caller's number is not below the limit of threads.
    #[error("the thread's number is not below the limit of threads")]
    ThreadRange,
    /// 2: no fork of the caller is in the log, and it did not run from the beginning.
    #[error("the thread has not been forked")]
    NotStarted,
    /// 3: a join of the caller is in the log.
    #[error("the thread has been joined")]
    Ended,
    /// 4: the lock, variable or thread that is named is not below its limit.
    #[error("the number of the lock, variable or thread is not below its limit")]
    TargetRange,
    /// 5: another thread holds the lock that is to be acquired.
    #[error("thread {by} holds the lock")]
    Held { by: ThreadId },
    /// 6: the caller does not hold the lock that it releases.
    #[error("the thread does not hold the lock")]
    NotHolder,
    /// 7: a thread forks or joins itself.
    #[error("a thread cannot fork or join itself")]
    SelfTarget,
    /// 8: the thread that is to be forked has started already.
    #[error("the thread to be forked has started already")]
    AlreadyStarted,
    /// 9: the thread that is to be joined has not started.
    #[error("the thread to be joined has not started")]
    TargetNotStarted,
    /// 10: the log has no slot for the event beside those that are kept for releases.
    #[error("the log is full")]
    LogFull,
    /// 11: a growth was refused.
    #[error("out of memory")]
    OutOfMemory,
}

/// What became of a call.
#[derive(Clone, Copy, Debug, PartialEq, Eq)]
pub enum Outcome {
    Accepted(Reply),
    Refused(Refusal),
}

/// What became of an act.
#[derive(Clone, Copy, Debug, PartialEq, Eq)]
pub enum Done {
    One(Reply),
    Swap(SwapReply),
    Refused(Refusal),
}

/// A growth was refused.
#[derive(Clone, Copy, Debug, PartialEq, Eq, Error)]
#[error("out of memory")]
pub struct OutOfMemory;

impl From<AllocError> for OutOfMemory {
    ghost from_gives = { λ _ e. e ≡ record {} };

    fn from(_refused: AllocError) -> OutOfMemory {
        OutOfMemory
    }
}

impl<T: Drop> From<AllocFailed<T>> for OutOfMemory {
    ghost from_gives = { λ _ e. e ≡ record {} };

    fn from(_refused: AllocFailed<T>) -> OutOfMemory {
        OutOfMemory
    }
}

impl From<OutOfMemory> for Refusal {
    ghost from_gives = { λ _ r. r ≡ ForMemory };

    fn from(_refused: OutOfMemory) -> Refusal {
        Refusal::OutOfMemory
    }
}
