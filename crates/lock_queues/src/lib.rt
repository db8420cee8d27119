//! The closed critical sections of each lock: for rule (b) of weak causal precedence the latest that a
//! clock counts, and by their numbers those that rule (a) asks for.
#![tactic(auto)]

pub mod laws;
mod queue;
mod queues;
mod sections;
mod slots;

pub use queues::Queues;
