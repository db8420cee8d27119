//! What threads do under a monitor, and the log of it.
ghost use Rattle.std.specs.Prelude.{◌≡◌};

use live_monitor::{Closed, Unnamed, start};
use log_pass::Name;
use std::marker::Brand;
use std::process::Abort;
use std::sync::Wait;
use traced_thread::TracedThread;

/// What the main thread does, and the threads that it forks.
pub trait Play<R: Wait + Abort> {
    fn play<N: Name>(&self, rt: &R, main: &mut TracedThread<N>);
}

/// The log of the play, by a monitor that `N` names.
fn closed_as<N: Name, R: Wait + Abort, P: Play<R>>(rt: &R, unnamed: Unnamed, play: &P) -> Closed
    requires table { unnamed.table ≡ N.table }
    requires limits { unnamed.limits ≡ N.limits }
{
    let (shared, pass) = start::<N>(unnamed);
    let mut main = TracedThread::new(&shared, pass);
    play.play(rt, &mut main);
    let pass = main.into_pass();
    shared.close(pass)
}

/// The log of the play.
pub fn closed_after<R: Wait + Abort, P: Play<R>>(rt: &R, unnamed: Unnamed, play: &P) -> Closed {
    closed_as::<Brand, R, P>(rt, unnamed, play)
}
