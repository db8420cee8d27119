//! Two clocks that are read as one.
ghost use Rattle.std.specs.Prelude.{◌≡◌, ◌<◌, length};
ghost use Rattle.event_core.specs.Rows.{join};
ghost use Rattle.hb_clocks.specs.Counts.{counts_of};

use crate::clock::Clock;
use event_core::ThreadId;
use std::marker::Model;

/// The join of two clocks of one width: of each thread the greater number. It is lent, and no number is
/// copied.
#[derive(Drop)]
pub struct JoinedClocks<'a> {
    first: &'a Clock,
    second: &'a Clock,
}

impl<'a> Model for JoinedClocks<'a> {
    ghost use Rattle.std.specs.Prelude.{◌≡◌, List, ℕ, length, max};
    ghost use Rattle.std.specs.Simd.Lanes.{zip2};

    ghost Value = { List ℕ };

    ghost view = { λ c. zip2 max c.first.now c.second.now };

    ghost invariant = { λ c. length c.first.now ≡ length c.second.now };
}

impl<'a> JoinedClocks<'a> {
    /// The join of both clocks.
    pub fn new(first: &'a Clock, second: &'a Clock) -> JoinedClocks<'a>
        requires { length first.now ≡ length second.now }
        ensures width { length result ≡ length first.now }
        ensures counts { counts_of result ≡ join (counts_of first.now) (counts_of second.now) }
    {
        JoinedClocks { first, second }
    }

    /// The number of a thread.
    #[tactic(auto, using(crate::proofs::JoinProperties::joined_at))]
    pub fn at(&self, thread: ThreadId) -> u64
        requires { thread.0 < length self.now }
        ensures { result ≡ counts_of self.now thread.0 }
    {
        self.first.at(thread).max(self.second.at(thread))
    }
}
