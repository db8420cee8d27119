//! A join that is not accepted, as an error.
ghost use Rattle.std.specs.Prelude.{◌≡◌};

use crate::handle::TracedThread;
use event_core::Refusal;
use log_pass::Name;
use std::fmt;
use thiserror::Error;

/// A join was not accepted: why, and the child's handle as it was. `?` makes it the refusal, or an error of
/// the program.
#[derive(Drop, Error)]
#[error("{refusal}")]
pub struct NotJoined<'m, N: Name> {
    pub refusal: Refusal,
    pub child: TracedThread<'m, N>,
}

impl<'m, N: Name> fmt::Debug for NotJoined<'m, N> {
    fn fmt<W: fmt::Write>(&self, f: &mut fmt::Formatter<W>) -> fmt::Result {
        write!(f, "NotJoined({:?})", self.refusal)
    }
}

impl<'m, N: Name> From<NotJoined<'m, N>> for Refusal {
    ghost from_gives = { λ left refusal. refusal ≡ left.refusal };

    fn from(left: NotJoined<'m, N>) -> Refusal {
        left.refusal
    }
}
