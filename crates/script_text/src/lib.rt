//! Scripts: what threads are to do, a line for each step, as text.
//!
//! A line is `thread word argument` or `thread word argument number`, with one blank between. A script is
//! read whole before any of it is done. Each line is judged as it comes, and the forks of the threads at the
//! end.
#![tactic(auto)]

mod causes;
mod draft;
mod forms;
mod lines;
mod numbers;
mod reached;
mod readings;
mod script;
mod stored_lines;

pub use causes::{ScriptCause, ScriptFault};
pub use lines::ScriptLine;
pub use script::Script;
pub use stored_lines::StoredLine;
