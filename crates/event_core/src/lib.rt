//! The words of the race monitor: what threads do, what is answered, and what it all means.
#![tactic(auto)]

mod bounds;
mod events;
mod ids;
pub mod laws;
mod logs;
mod packed;
mod replies;
mod rows;
mod steps;
mod tables;

pub use bounds::{LimitFault, Limits, MOST_EVENTS, MOST_LOCKS, MOST_THREADS, MOST_VARS, Roots};
pub use events::{AccessKind, Act, Call, Event, Op};
pub use ids::{LockId, SiteId, ThreadId, VarId};
pub use logs::Log;
pub use replies::{Done, OutOfMemory, Outcome, Refusal, Reply, SwapReply, Verdict};
pub use steps::Step;
pub use tables::{grow_to, reserve, reserve_to};
