//! The work that a monitor does on clocks, as its bounds count it.
ghost use Rattle.std.specs.Prelude.{◌≡◌, ◌+◌, ◌<◌, ◌^◌};

use std::marker::Model;

/// How many comparisons of a mark with a clock and how many joins of clocks were made.
///
/// Contracts alone see the numbers. A monitor counts all its work into one, which is made with its clocks of
/// happens-before.
#[derive(Drop)]
pub struct Work {
    comparisons: u64,
    joins: u64,
}

impl Model for Work {
    ghost use Rattle.hb_clocks.specs.Work.{Done};

    ghost Value = { Done };

    ghost view = { λ w. record { comparisons = w.comparisons; joins = w.joins } };
}

impl Work {
    // None were made.
    pub(crate) fn new() -> Work
        ensures { result ≡ record { comparisons = 0; joins = 0 } }
    {
        Work {
            comparisons: 0,
            joins: 0,
        }
    }

    pub(crate) fn add_comparison(&mut self)
        requires { self.old.comparisons < 2 ^ 63 }
        ensures { self.new ≡ record self.old { comparisons = self.old.comparisons + 1 } }
    {
        self.comparisons += 1;
    }

    pub(crate) fn add_join(&mut self)
        requires { self.old.joins < 2 ^ 63 }
        ensures { self.new ≡ record self.old { joins = self.old.joins + 1 } }
    {
        self.joins += 1;
    }
}
