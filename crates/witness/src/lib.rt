//! Witnesses of races: for two conflicting accesses of a log, another order of its events that the same
//! threads could have made, at whose end both accesses are next.
//!
//! `specs/Witness.antt` has the definition. A search, of which nothing is promised, proposes a list of
//! events; a walk over it tests each point of the definition, and what it passes is a witness.
#![tactic(auto)]

pub mod laws;
mod links;
mod marks;
mod memory_step;
mod next;
mod search;
mod searcher;
mod tables;
mod thread_events;
mod walk;

pub use searcher::{Searcher, Witness};
