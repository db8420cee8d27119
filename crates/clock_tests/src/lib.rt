//! Tests of the clocks that a monitor stands on: the limits, the log and the steps of `event_core`, the
//! clocks of happens-before and of weak causal precedence, the closed sections that these stand on, and the
//! verdicts on accesses.
//!
//! The crate has tests alone, and they see no more of those crates than any caller does. They stand here
//! and not in the crates themselves since a crate is proved once more with its tests. Want of memory fails
//! them.
#![tactic(auto)]

#[cfg(test)]
mod accesses;
#[cfg(test)]
mod cases;
#[cfg(test)]
mod clocks;
#[cfg(test)]
mod expected;
#[cfg(test)]
mod logs;
#[cfg(test)]
mod queues;
#[cfg(test)]
mod strict_clocks;
#[cfg(test)]
mod summaries;
