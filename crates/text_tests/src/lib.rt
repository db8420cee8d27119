//! Tests of traces and scripts as text: what readers, cutters and names of `rapid_text` answer, what scripts
//! are read as, whatever the pieces are in which a text comes, what is written, and inputs and outputs that
//! fail.
//! The lines are those of `rapid_line` and of `script_text`.
//!
//! The crate has tests alone, and they see no more of those crates than any caller does. They expect ample
//! memory, except for those whose names say that memory is refused.
#![tactic(auto)]

#[cfg(test)]
mod cutters;
#[cfg(test)]
mod devices;
#[cfg(test)]
mod faultless;
#[cfg(test)]
mod faults;
#[cfg(test)]
mod memory;
#[cfg(test)]
mod names;
#[cfg(test)]
mod readers;
#[cfg(test)]
mod script_faults;
#[cfg(test)]
mod script_lines;
#[cfg(test)]
mod written;
