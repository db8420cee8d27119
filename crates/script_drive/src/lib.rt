//! Runs a script: each of its threads by a worker of its own, over one shared monitor.
//!
//! Thread 0's worker is the calling thread. All others are started before its first line, and wait for the
//! pass that their fork gives. A worker makes the calls of its own lines in order, each once its gate admits
//! it. At its end it sends its pass to the worker that joins it, or gives it back. The channels by which
//! passes go have a rule: what comes out is the first pass of a thread that was forked, or the pass of one
//! that has made the calls of all its lines. So has the monitor's log: it is a run of the script.
//!
//! What is proved of every schedule: the closed log is well formed, and its events of each thread are the
//! first of that thread's lines in order; those of thread 0, of each thread that no line joins, and of each
//! thread that is joined from one of these, by itself or through others, are all of them; the gate admitted
//! each line and was told of it; and a fault is one of a line of the script, after such a log.
//! It is not proved that a drive returns, nor which of the script's faults it meets.
#![tactic(auto)]

mod drive_names;
mod driving;
mod faults;
mod gate;
mod lines;
mod links;
mod workers;

pub use driving::drive;
pub use faults::DriveFault;
pub use gate::{FreeGate, Gate};
pub use script_text::{Script, ScriptCause, ScriptFault};
