//! Tests of what a log allows and of what is known of it: the memory of traced programs (`traced_mem`), the
//! list of verdicts (`verdict_list`), and the passes over a shared log (`log_pass`).
//!
//! The crate has tests alone, and they see no more of those crates than any caller does. They fail where
//! memory is refused, except those whose names say so: these ask once more, and expect the same answers.
#![tactic(auto)]

#[cfg(test)]
mod expected;
#[cfg(test)]
mod logged;
#[cfg(test)]
mod memory;
#[cfg(test)]
mod passes;
#[cfg(test)]
mod threads;
#[cfg(test)]
mod verdicts;
