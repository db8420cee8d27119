//! The limits of a monitor: how many threads, locks, variables and events it admits.
ghost use Rattle.std.specs.Prelude.{◌≡◌, ◌<◌, ◌≤◌};

use std::marker::Model;
use thiserror::Error;

/// Which threads run from the beginning.
#[derive(Clone, Copy, Debug, PartialEq, Eq)]
pub enum Roots {
    /// Thread 0 alone. Each other thread starts with its fork.
    OnlyMain,
    /// Each thread that first appears otherwise than as the target of a fork.
    Free,
}

/// The greatest number of threads, 2^10: each clock has a number for each of them, and a row of the log has
/// 10 bits for its thread.
pub const MOST_THREADS: u32 = 1024;

/// The greatest number of locks, 2^20: a row of the log has 20 bits for the lock.
pub const MOST_LOCKS: u32 = 1048576;

/// The greatest number of variables, 2^20: a row of the log has 20 bits for the variable.
pub const MOST_VARS: u32 = 1048576;

/// The greatest number of events, 2^32: the index of an event has 32 bits.
pub const MOST_EVENTS: u64 = 4294967296;

/// The limits of a monitor, each from 1 to its greatest number.
#[derive(Clone, Copy, Debug, PartialEq, Eq)]
pub struct Limits {
    threads: u32,
    locks: u32,
    vars: u32,
    events: u64,
    roots: Roots,
}

impl Model for Limits {
    ghost use Rattle.event_core.specs.Bounds.{Bounds, AreBounded};

    ghost Value = { Bounds };

    ghost view = { λ l. record {
      threads = l.threads;
      locks = l.locks;
      vars = l.vars;
      events = l.events;
      roots = l.roots;
    } };

    ghost invariant = { λ l. AreBounded l.threads l.locks l.vars l.events };

    ghost inverse = { λ b. record {
      threads = b.threads;
      locks = b.locks;
      vars = b.vars;
      events = b.events;
      roots = b.roots;
    } };
}

/// The first number that is 0 or above its greatest.
#[derive(Clone, Copy, Debug, PartialEq, Eq, Error)]
pub enum LimitFault {
    #[error("the number of threads is not from 1 to {most}", most = MOST_THREADS)]
    Threads,
    #[error("the number of locks is not from 1 to {most}", most = MOST_LOCKS)]
    Locks,
    #[error("the number of variables is not from 1 to {most}", most = MOST_VARS)]
    Vars,
    #[error("the number of events is not from 1 to {most}", most = MOST_EVENTS)]
    Events,
}

impl Limits {
    ghost use Rattle.std.specs.Prelude.{◌≡◌, ◌<◌, ◌≤◌};
    ghost use Rattle.event_core.specs.Bounds.{limits_of};

    /// The limits with these numbers: 1 to 1,024 threads, 1 to 1,048,576 locks, as many variables, and 1 to
    /// 4,294,967,296 events. Else the first number, in this order, that is out of its bounds.
    pub fn new(
        threads: u32,
        locks: u32,
        vars: u32,
        events: u64,
        roots: Roots,
    ) -> Result<Limits, LimitFault>
        ensures { result ≡ limits_of threads locks vars events roots }
    {
        if threads < 1 || MOST_THREADS < threads {
            return Err(LimitFault::Threads);
        }
        if locks < 1 || MOST_LOCKS < locks {
            return Err(LimitFault::Locks);
        }
        if vars < 1 || MOST_VARS < vars {
            return Err(LimitFault::Vars);
        }
        if events < 1 || MOST_EVENTS < events {
            return Err(LimitFault::Events);
        }
        Ok(Limits {
            threads,
            locks,
            vars,
            events,
            roots,
        })
    }

    /// How many threads there may be.
    pub fn threads(&self) -> u32
        ensures is { result ≡ self.now.threads }
        ensures bounded { (0 < result) × (result ≤ 1024) }
    {
        self.threads
    }

    /// How many locks there may be.
    pub fn locks(&self) -> u32
        ensures is { result ≡ self.now.locks }
        ensures bounded { (0 < result) × (result ≤ 1048576) }
    {
        self.locks
    }

    /// How many variables there may be.
    pub fn vars(&self) -> u32
        ensures is { result ≡ self.now.vars }
        ensures bounded { (0 < result) × (result ≤ 1048576) }
    {
        self.vars
    }

    /// How many events the log may have.
    pub fn events(&self) -> u64
        ensures is { result ≡ self.now.events }
        ensures bounded { (0 < result) × (result ≤ 4294967296) }
    {
        self.events
    }

    /// Which threads run from the beginning.
    pub fn roots(&self) -> Roots
        ensures { result ≡ self.now.roots }
    {
        self.roots
    }
}
