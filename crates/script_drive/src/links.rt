//! The ends of channels by which a worker reaches the threads that it forks and joins.
ghost use Rattle.std.specs.Prelude.{◌≡◌, ◌<◌, ◌∷◌, ◌++◌, [], length, OnErr, OnOk};

use crate::drive_names::{DriveName, FirstPasses, LastPasses};
use event_core::ThreadId;
use log_pass::Name;
use pass_channel::{PassReceiver, PassSender};
use std::alloc::{AllocError, Global};
use std::marker::Model;

/// A worker's ends, in the order of its lines. Contracts see whom it is still to fork, and whom to join.
pub(crate) struct Links<S: DriveName> {
    forks: Vec<PassSender<S, FirstPasses<S>>>,
    joins: Vec<PassReceiver<S, LastPasses<S>>>,
}

// By hand, so that each function that drops one does not drop both queues.
impl<S: DriveName> Drop for Links<S> {
    fn drop(self) {
        let Links { forks: _, joins: _ } = self;
    }
}

impl<S: DriveName> Model for Links<S> {
    ghost use Rattle.std.specs.Prelude.{map};
    ghost use Rattle.script_drive.specs.Workers.{Reach};

    ghost Value = { Reach };

    ghost view = { λ k. record {
      forks = map (λ sender. sender.to) k.forks.items;
      joins = map (λ receiver. receiver.to) k.joins.items;
    } };
}

impl<S: DriveName> Links<S> {
    pub(crate) fn new(alloc: Global) -> Links<S>
        ensures forks { result.forks ≡ [] }
        ensures joins { result.joins ≡ [] }
    {
        Links {
            forks: Vec::new(alloc),
            joins: Vec::new(alloc),
        }
    }

    /// Adds the end for one more thread that is forked.
    pub(crate) fn add_fork(
        &mut self,
        sender: PassSender<S, FirstPasses<S>>,
    ) -> Result<(), AllocError>
        ensures forks { OnOk result (self.new.forks ≡ self.old.forks ++ sender.to ∷ []) }
        ensures joins { self.new.joins ≡ self.old.joins }
    {
        self.forks.push(sender)?;
        Ok(())
    }

    /// Adds the end for one more thread that is joined.
    pub(crate) fn add_join(
        &mut self,
        receiver: PassReceiver<S, LastPasses<S>>,
    ) -> Result<(), AllocError>
        ensures forks { self.new.forks ≡ self.old.forks }
        ensures joins { OnOk result (self.new.joins ≡ self.old.joins ++ receiver.to ∷ []) }
    {
        self.joins.push(receiver)?;
        Ok(())
    }

    /// Takes out the end for the thread that is forked next.
    pub(crate) fn next_fork(&mut self) -> PassSender<S, FirstPasses<S>>
        requires { 0 < length self.old.forks }
        ensures forks { self.old.forks ≡ result.to ∷ self.new.forks }
        ensures joins { self.new.joins ≡ self.old.joins }
    {
        self.forks.remove(0)
    }

    /// Takes out the end for the thread that is joined next.
    pub(crate) fn next_join(&mut self) -> PassReceiver<S, LastPasses<S>>
        requires { 0 < length self.old.joins }
        ensures forks { self.new.forks ≡ self.old.forks }
        ensures joins { self.old.joins ≡ result.to ∷ self.new.joins }
    {
        self.joins.remove(0)
    }
}
