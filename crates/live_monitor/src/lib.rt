//! The monitor that running threads share.
//!
//! Each thread has a pass, through which it makes its calls. A call takes the lock, and there the
//! sequential monitor judges it. Then the pass comes to the keeper of the one list of steps, and where
//! the call was accepted the event is published by one addition to the one shared word, the length of the
//! log. Then the pass, which has seen all steps and this one, parts again. A fork gives a second pass, a
//! join spends one. Who only wants to know how far the log has come looks at the word, without the lock.
//!
//! What is proved of every schedule: the accepted calls of all passes that meet stand, each once and in
//! each caller's order, in one well-formed log; each reply is the sequential monitor's at its place; a load
//! gives the last value stored; and an access is marked racy exactly when an earlier conflicting event
//! of the log is not below it in the least weak causal precedence. It is not proved that a call which takes
//! the lock returns, nor who gets the lock.
//!
//! # Example
//!
//! A thread's pass goes into each of its calls and comes out again. Sites are the caller's own numbers of
//! places in its code.
//!
//! ```
//! use event_core::{Refusal, SiteId, ThreadId, VarId};
//! use live_monitor::{Closed, Unnamed, start};
//! use log_pass::Name;
//! use std::sync::Wait;
//! use std::thread::{Threads, join};
//!
//! /// Thread 0 forks thread 1, both store to one variable at once, and thread 0 joins thread 1.
//! fn two_stores<N: Name + Send + Sync, R: Threads + Wait + Sync>(
//!     rt: &R,
//!     unnamed: Unnamed,
//! ) -> Result<Closed, Refusal>
//!     requires table { unnamed.table ≡ N.table }
//!     requires limits { unnamed.limits ≡ N.limits }
//! {
//!     let (shared, main) = start::<N>(unnamed);
//!     let (main, forked) = shared.fork(rt, main, ThreadId(1), SiteId(1));
//!     let (child, _) = forked?;
//!     let ((child, by_child), (main, by_main)) = join(
//!         rt,
//!         || shared.store(rt, child, VarId(0), 7, SiteId(2)),
//!         || shared.store(rt, main, VarId(0), 5, SiteId(3)),
//!     );
//!     by_child?;
//!     by_main?;
//!     let (main, joined) = shared.join(rt, main, child, SiteId(4));
//!     joined.map_err(|(refusal, _)| refusal)?;
//!     Ok(shared.close(main))
//! }
//! ```
//!
//! The caller makes the monitor with `Unnamed::new(alloc, limits)`, where `limits` are of two threads, one
//! variable and four events or more, say `Limits::new(2, 1, 1, 16, Roots::OnlyMain)`. It calls
//! `two_stores::<Brand, _>(rt, unnamed)`, and names the monitor in its `Invariants.antt`:
//!
//! ```text
//! abbrev pub ghosts-two_stores : goal.ghosts-two_stores
//! ghosts-two_stores g a = record { table = a.unnamed.table; limits = a.unnamed.limits }
//! ```
//!
//! The closed log has the fork, the two stores and the join. Whichever store comes second, the verdicts tell
//! of one race: `closed.verdict_at(2)` is `Racy(1)`, and `closed.verdicts().races()` has it alone.
#![tactic(auto)]

mod book;
mod closed;
mod rule;
mod shared;
mod tries;
mod unnamed;

pub use book::Book;
pub use closed::Closed;
pub use rule::{AnyLog, LogRule};
pub use seq_monitor::{Race, Verdicts};
pub use shared::Shared;
pub use tries::Tries;
pub use unnamed::{StartFault, Unnamed, start, start_under};
