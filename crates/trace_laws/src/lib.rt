//! The laws of traces that their users rely on: what the race of another detector is to this one, and what of
//! a trace a recorder may leave out or write in another order.
//!
//! Each law is the contract of a function that does nothing, so the check proves it over the definitions
//! alone. The statements stand in `specs`, under the names that the contracts cite.
#![tactic(auto)]

pub mod laws;
