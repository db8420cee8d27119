//! The command line of the program `wcp`: what its words ask for, and what help says.
#![tactic(auto)]

mod commands;
mod help_texts;
mod options;
mod requests;
mod words;

pub use requests::{Command, Settings, UsageFault};
pub use words::settings;
