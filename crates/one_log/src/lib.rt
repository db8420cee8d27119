//! The laws of the one log that running threads share: the headline, as theorems over all of their passes.
//!
//! Each law is the contract of a function that does nothing, so the check proves it over the definitions
//! alone. The statements stand in `specs`, under the names that the contracts cite.
#![tactic(auto)]

pub mod laws;
