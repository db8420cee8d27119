//! The memory of traced programs: which calls may be made, and what they read.
//!
//! A `Memory` keeps no log. It keeps what the log comes to: who holds each lock and how often, which
//! threads were forked, joined or mentioned, the last value of each variable, and how many slots of the
//! log are taken or kept for releases. From these alone it answers what the definitions say of the log.
#![tactic(auto)]

mod growth;
mod memory;
mod rows;
mod step;

pub use memory::Memory;
