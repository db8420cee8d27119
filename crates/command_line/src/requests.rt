//! What the program is asked to do.
use thiserror::Error;

/// What the program is to do.
#[derive(Debug, Drop, PartialEq, Eq)]
pub enum Command {
    /// Say whether the trace on standard input is legal.
    Check,
    /// Report the races of the trace on standard input.
    Replay,
    /// Write a witness for the race of the event with this number of the trace on standard input; without a
    /// number, whether each pair of locations has one.
    Witness(Option<u32>),
    /// Run the threads of the script at this path, and report their races.
    Run(String),
}

/// What the words of a command line ask for.
#[derive(Debug, Drop, PartialEq, Eq)]
pub struct Settings {
    /// What to do.
    pub command: Command,
    /// How many threads may be named, from 1 to 1,024.
    pub threads: u32,
    /// How often a line of a script is tried before its thread is stuck, from 1 to 4,294,967,295. Where no
    /// script is run it is 1,000,000.
    pub patience: u32,
}

/// Why the words of a command line ask for no run.
#[derive(Debug, Drop, Error)]
pub enum UsageFault {
    /// They ask for help or for the version, and this is its text.
    #[error("{0}")]
    Help(String),
    /// They are none that the program takes, and this says why.
    #[error("{0}")]
    Usage(String),
    /// A growth was refused.
    #[error("out of memory")]
    OutOfMemory,
}
