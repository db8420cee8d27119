//! Witnesses for the races of a trace, from the bytes of a reader to the lines that are printed.
//!
//! For one racing event the trace of its witness is written; else a line for each pair of locations of the
//! report, which has the race that a witness was found for.
#![tactic(auto)]

mod events;
mod lines;
mod pairs;
mod shown;
mod table;
mod traces;

pub use shown::Shown;
pub use traces::show_trace;
