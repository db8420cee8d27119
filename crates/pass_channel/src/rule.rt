//! The rule of a channel: all its ends know for which thread it is, and each pass in it may go there.
use crossbeam_channel::protocol::{Lesson, Outcome, Protocol, Split};
use event_core::ThreadId;
use log_pass::{Name, Pass};
use std::marker::{Brand, PhantomData};

/// What an end knows: for which thread the channel is, once that is known, and how many passes came out by
/// it. It is for contracts and proofs alone: no value of it is made.
pub struct Address {
    pub to: Option<ThreadId>,
    pub taken: u64,
}

/// Which passes may go to a thread.
pub trait Terms {
    ghost use Rattle.event_core.specs.declared.ids.ThreadId.{ThreadId};
    ghost use Rattle.log_pass.specs.declared.views.PassView.{PassView};

    ghost good: { ThreadId → PassView → Type 0 };
}

/// The rule of a channel under these terms.
pub struct Ruled<T: Terms> {
    terms: PhantomData<T>,
}

impl<N: Name, T: Terms> Protocol<Pass<N>, Address> for Ruled<T> {
    ghost use Rattle.pass_channel.specs.Posts.{nobody, Posted};

    ghost holds = { Posted T.good };

    ghost first = { nobody };
}

/// A thread. Each call that makes a channel picks it.
pub trait Addressee {
    ghost use Rattle.event_core.specs.declared.ids.ThreadId.{ThreadId};

    ghost thread: { ThreadId };
}

impl Addressee for Brand {
    ghost use Rattle.log_pass.specs.Passes.{main};

    ghost thread = { main };
}

/// The one end that there is becomes two, which know that the channel is for `K`.
pub(crate) struct Addressed<K: Addressee> {
    addressee: PhantomData<K>,
}

impl<K: Addressee> Split<Address> for Addressed<K> {
    ghost use Rattle.pass_channel.specs.Posts.{somebody};

    ghost left = { λ v. somebody K.thread };

    ghost right = { λ v. somebody K.thread };
}

/// A pass goes in.
pub(crate) struct Sends;

impl<N: Name> Outcome<Pass<N>, Address> for Sends {
    ghost use Rattle.std.specs.Prelude.{◌≡◌};

    ghost then = { λ v x w. w ≡ v };
}

impl<N: Name> Lesson<Pass<N>, Address> for Sends {
    ghost use Rattle.std.specs.Prelude.{⊤};

    ghost fact = { λ v items. ⊤ };
}

/// A pass comes out. It is one that may go to the channel's thread.
pub(crate) struct Receives<T: Terms> {
    terms: PhantomData<T>,
}

impl<N: Name, T: Terms> Outcome<Pass<N>, Address> for Receives<T> {
    ghost use Rattle.std.specs.Prelude.{◌≡◌};
    ghost use Rattle.pass_channel.specs.Posts.{one_more, MayGo};

    ghost then = { λ v x w. (w ≡ one_more v) × MayGo T.good v.to x };
}

impl<N: Name, T: Terms> Lesson<Pass<N>, Address> for Receives<T> {
    ghost use Rattle.std.specs.Prelude.{⊤};

    ghost fact = { λ v items. ⊤ };
}
