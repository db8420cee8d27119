//! What a handle comes to see of the log without a step of its own.
ghost use Rattle.std.specs.Prelude.{◌≡◌, ◌⊎◌, length, slice_get};
ghost use mathlib.Core.List.{IsPrefix};
ghost use Rattle.event_core.specs.Steps.{log_of};
ghost use Rattle.live_monitor.specs.Calls.{HasComeTo};

use crate::handle::{TracedThread, take};
use event_core::Event;
use log_pass::Name;
use std::sync::Wait;

impl<'m, N: Name> TracedThread<'m, N> {
    /// How many events the handle has then seen, never fewer than before. It takes no lock and no memory, and
    /// returns. No clause tells how new the length is.
    pub fn look(&mut self) -> u64
        ensures later { HasComeTo N.limits self.old self.new }
        ensures same_mine { self.new.mine ≡ self.old.mine }
        ensures count { result ≡ length (log_of self.new.seen) }
    {
        let (pass, count) = self.monitor.look(take(&mut self.pass));
        self.pass = Some(pass);
        count
    }

    /// The event at the index of what the handle has then seen, or none past its end. It takes the monitor's
    /// lock, and `&mut` since the handle sees more by it.
    pub fn event_at<R: Wait>(&mut self, rt: &R, index: u64) -> Option<Event>
        ensures later { HasComeTo N.limits self.old self.new }
        ensures same_mine { self.new.mine ≡ self.old.mine }
        ensures is { result ≡ slice_get (log_of self.new.seen) index }
    {
        let (pass, event) = self.monitor.event_at(rt, take(&mut self.pass), index);
        self.pass = Some(pass);
        event
    }

    /// Each of both handles has then seen what either had: of their logs one begins the other. It takes no
    /// lock and no memory, and returns.
    pub fn meet(&mut self, other: &mut TracedThread<'m, N>)
        ensures later { HasComeTo N.limits self.old self.new }
        ensures other_later { HasComeTo N.limits other.old other.new }
        ensures same_mine { self.new.mine ≡ self.old.mine }
        ensures other_mine { other.new.mine ≡ other.old.mine }
        ensures one { IsPrefix self.old.seen other.old.seen ⊎ IsPrefix other.old.seen self.old.seen }
        ensures both { self.new.seen ≡ other.new.seen }
        ensures longer { (self.new.seen ≡ self.old.seen) ⊎ (self.new.seen ≡ other.old.seen) }
    {
        let first = take(&mut self.pass);
        let second = take(&mut other.pass);
        let (first, second) = self.monitor.meet(first, second);
        self.pass = Some(first);
        other.pass = Some(second);
    }
}
