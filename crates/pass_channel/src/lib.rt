//! Channels by which passes go from thread to thread. Each is for one thread and carries one pass. Under
//! its rule only such a pass goes in as the channel's terms allow for that thread, so the one that comes
//! out is known to meet them.
#![tactic(auto)]

mod ends;
mod rule;

pub use crossbeam_channel::TryRecvError;
pub use ends::{PassReceiver, PassSender, pass_channel};
pub use rule::Terms;
