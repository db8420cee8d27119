//! What the definitions say of small logs, and that logs without re-entrance keep their meaning.
//!
//! Each statement is the contract of a function that does nothing, so the check proves it over the
//! definitions alone. No crate uses this one.
#![tactic(auto)]

pub mod examples;
pub mod laws;
