//! A thread's handle of a shared monitor.
//!
//! A handle is the pass of one thread beside the monitor that it belongs to. Its calls take it by `&mut` and
//! answer, so that `?` loses nothing: a call that is refused leaves the handle as it was, except what it has
//! seen. What is proved of the calls of a pass is said here of the handle. No call asks for anything.
//!
//! Contracts see a handle as its pass: the `thread`, the steps that it has `seen`, and its own as `mine`.
#![tactic(auto)]

mod calls;
mod forks;
mod handle;
mod looks;
mod refused_joins;
mod sections;

pub use handle::TracedThread;
pub use refused_joins::NotJoined;
pub use sections::Section;
