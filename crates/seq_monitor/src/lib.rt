//! The sequential monitor: a log, and after each event the verdict on it by weak causal precedence.
//!
//! A call is first judged by the memory, which refuses what is not legal. Then room for its event is made in
//! all parts, and only then the call is performed: the memory gives its value, the clocks take the event, and
//! the accesses tell the verdict by the clock of the finished event. So where a growth is refused, nothing
//! has changed. While a lock is held, room is kept for its release.
#![tactic(auto)]

mod monitor;
mod parts;
mod runs;

pub use monitor::Monitor;
pub use verdict_list::{Race, Verdicts};
