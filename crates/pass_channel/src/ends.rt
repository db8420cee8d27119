//! The two ends of a channel.
ghost use Rattle.std.specs.Prelude.{◌≡◌, ◌+◌, IfOk, IfSome, OnErr, OnOk, Some};
ghost use Rattle.crossbeam_channel.specs.Claims.{view, IsSeatAt};
ghost use Rattle.crossbeam_channel.specs.Ends.{receives_on, sends_on};
ghost use Rattle.pass_channel.specs.Posts.{somebody};

use crate::rule::{Address, Addressed, Addressee, Receives, Ruled, Sends, Terms};
use crossbeam_channel::{RuledReceiver, RuledSender, TryRecvError, bounded_with};
use event_core::ThreadId;
use log_pass::{Name, Pass};
use std::alloc::{AllocError, Global};
use std::marker::Brand;
use std::sync::Wait;

/// The right to use one end, with what it knows of the channel.
type Ticket<N> = crossbeam_channel::Pass<Pass<N>, Address>;

/// The end into which the pass for a thread goes. Who waits at the other end learns when it is let go.
pub struct PassSender<N: Name, T: Terms> {
    pub to: ThreadId,
    sender: RuledSender<Pass<N>, Address, Ruled<T>>,
    ticket: Ticket<N>,
    ghost seated: { IsSeatAt (sends_on sender) ticket },
    ghost knows: { view ticket ≡ somebody to },
}

/// The end out of which the pass for a thread comes.
pub struct PassReceiver<N: Name, T: Terms> {
    pub to: ThreadId,
    receiver: RuledReceiver<Pass<N>, Address, Ruled<T>>,
    ticket: Ticket<N>,
    ghost seated: { IsSeatAt (receives_on receiver) ticket },
    ghost knows: { (view ticket).to ≡ Some to },
}

// By hand, so that a crate that drops an end does not prove the drop of each type within again.
impl<N: Name, T: Terms> Drop for PassSender<N, T> {
    fn drop(self) {
        let PassSender {
            to: _,
            sender: _,
            ticket: _,
        } = self;
    }
}

impl<N: Name, T: Terms> Drop for PassReceiver<N, T> {
    fn drop(self) {
        let PassReceiver {
            to: _,
            receiver: _,
            ticket: _,
        } = self;
    }
}

/// A channel for one pass to the thread. It takes memory, and neither sending nor receiving does.
pub fn pass_channel<N: Name, T: Terms>(
    alloc: Global,
    to: ThreadId,
) -> Result<(PassSender<N, T>, PassReceiver<N, T>), AllocError>
    ensures sender { IfOk result (λ ends. ends.0.to ≡ to) }
    ensures receiver { IfOk result (λ ends. ends.1.to ≡ to) }
{
    channel_to::<N, T, Brand>(alloc, to)
}

// K is the thread, for the step that tells both ends of it.
fn channel_to<N: Name, T: Terms, K: Addressee>(
    alloc: Global,
    to: ThreadId,
) -> Result<(PassSender<N, T>, PassReceiver<N, T>), AllocError>
    requires { K.thread ≡ to }
    ensures sender { IfOk result (λ ends. ends.0.to ≡ to) }
    ensures receiver { IfOk result (λ ends. ends.1.to ≡ to) }
{
    let (sender, receiver, mut ticket) = bounded_with::<Pass<N>, Address, Ruled<T>, Global>(
        alloc, 1,
    )?;
    let other = sender.another::<Addressed<K>>(&mut ticket);
    Ok((
        PassSender { to, sender, ticket },
        PassReceiver {
            to,
            receiver,
            ticket: other,
        },
    ))
}

impl<N: Name, T: Terms> PassSender<N, T> {
    /// Sends the pass. Where the other end was let go, the pass is let go too.
    pub fn send<R: Wait>(self, rt: &R, pass: Pass<N>)
        requires { T.good self.to pass }
    {
        let PassSender {
            to: _,
            sender,
            mut ticket,
        } = self;
        let _ = sender.send_as::<Sends, R>(rt, &mut ticket, pass);
    }
}

impl<N: Name, T: Terms> PassReceiver<N, T> {
    ghost use Rattle.pass_channel.specs.Ends.{taken};

    /// Waits for the pass. There is none where the other end was let go without one; no clause tells
    /// when that is.
    pub fn receive<R: Wait>(self, rt: &R) -> Option<Pass<N>>
        ensures { IfSome result (λ pass. T.good self.to pass) }
    {
        let PassReceiver {
            to: _,
            receiver,
            mut ticket,
        } = self;
        receiver.recv_as::<Receives<T>, R>(rt, &mut ticket).ok()
    }

    /// Looks once whether the pass has come. `Empty` is the answer where it has not yet, and `Disconnected`
    /// where the other end was let go without a pass; no clause tells which. With either answer no pass was
    /// taken.
    pub fn look<R: Wait>(&mut self, rt: &R) -> Result<Pass<N>, TryRecvError>
        ensures to { self.new.to ≡ self.old.to }
        ensures good { IfOk result (λ pass. T.good self.old.to pass) }
        ensures one { OnOk result (taken self.new ≡ taken self.old + 1) }
        ensures none { OnErr result (taken self.new ≡ taken self.old) }
    {
        self.receiver
            .try_recv_as::<Receives<T>, R>(rt, &mut self.ticket)
    }
}
