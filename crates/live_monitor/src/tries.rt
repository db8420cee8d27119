//! Trying again: how often, with a wait in between.
ghost use Rattle.std.specs.Prelude.{◌≡◌, ◌<◌, IsTrue, IsFalse};
ghost use Rattle.live_monitor.specs.Tries.{one_more, AreUsedUp};

use crossbeam_utils::Backoff;
use std::fmt;
use std::marker::Model;

/// How many tries there may be, and how many of them were made. Contracts see both as `most` and `made`. By
/// default there may be none.
#[derive(Debug, Drop)]
pub struct Tries {
    most: u32,
    made: u32,
    backoff: Backoff,
}

impl Model for Tries {
    ghost use Rattle.std.specs.Prelude.{◌≤◌};
    ghost use Rattle.live_monitor.specs.Tries.{Tried};

    ghost Value = { Tried };

    ghost view = { λ t. record { most = t.most; made = t.made } };

    ghost invariant = { λ t. t.made ≤ t.most };
}

impl Tries {
    /// So many, of which none was made.
    pub fn of(most: u32) -> Tries
        ensures { result ≡ record { most = most; made = 0 } }
    {
        Tries {
            most,
            made: 0,
            backoff: Backoff::new(),
        }
    }

    /// How many were made.
    pub fn made(&self) -> u32
        ensures { result ≡ self.now.made }
    {
        self.made
    }

    /// Whether one more may be made. It is then counted, and before each but the first the thread waits a
    /// little.
    pub fn another(&mut self) -> bool
        ensures same_most { self.new.most ≡ self.old.most }
        ensures counted { self.new.made ≡ (one_more self.old).made }
        ensures left { IsTrue result → self.old.made < self.old.most }
        ensures used_up { IsFalse result → AreUsedUp self.old }
    {
        if self.made == self.most {
            return false;
        }
        if self.made > 0 {
            self.backoff.snooze();
        }
        self.made += 1;
        true
    }
}

impl Default for Tries {
    ghost is_default = { λ t. t ≡ record { most = 0; made = 0 } };

    fn default() -> Tries {
        Tries::of(0)
    }
}

impl fmt::Display for Tries {
    fn fmt<W: fmt::Write>(&self, f: &mut fmt::Formatter<W>) -> fmt::Result {
        write!(f, "{} of {} tries", self.made, self.most)
    }
}
