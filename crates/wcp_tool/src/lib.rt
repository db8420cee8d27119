//! The program `wcp`: what it prints, and how it ends.
#![tactic(auto)]

mod bounds;
mod endings;
mod running;
mod script_files;
mod scripts;

pub use command_line::{Command, Settings, UsageFault, settings};
pub use running::{program, tool};
pub use script_files::ScriptFiles;
pub use scripts::run_script;
/// Why a check has no counts.
pub use trace_report::{Counts, ReplayFault as CheckFault, check};
