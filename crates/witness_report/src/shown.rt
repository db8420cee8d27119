//! What is written of a legal trace.
use trace_report::Summary;

/// What was written of a legal trace.
#[derive(Clone, Copy)]
pub enum Shown {
    /// The trace of a witness for the race of the event.
    Witness,
    /// The line `none`: no witness for the race of the event was found.
    NoWitness,
    /// Nothing: the event does not race with an earlier one.
    NoRace,
    /// The line of counts, and a line for each pair of locations.
    Pairs(Summary),
    /// Nothing: a growth of memory was refused.
    OutOfMemory,
}
