//! Tests of the reports and of the program: a trace goes in, and what is written and answered comes out.
//!
//! The crate has tests alone, and they see no more of `trace_report` and `wcp_tool` than any caller does.
//! They stand here and not in the crates themselves since a crate is proved once more with its tests. They
//! expect ample memory, except those whose names say that memory is refused.
#![tactic(auto)]

#[cfg(test)]
mod closed_logs;
#[cfg(test)]
mod command_lines;
#[cfg(test)]
mod devices;
#[cfg(test)]
mod fed;
#[cfg(test)]
mod long_lines;
#[cfg(test)]
mod memory;
#[cfg(test)]
mod reads;
#[cfg(test)]
mod runs;
#[cfg(test)]
mod scripts;
#[cfg(test)]
mod traces;
#[cfg(test)]
mod witnesses;
#[cfg(test)]
mod worked_cases;
