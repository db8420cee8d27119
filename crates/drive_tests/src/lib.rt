//! Tests of scripts that real threads run: what stands in the closed log, and which fault is answered.
//!
//! The crate has tests alone, and they see no more of `script_drive` than any caller does.
#![tactic(auto)]

#[cfg(test)]
mod gates;
#[cfg(test)]
mod patience;
#[cfg(test)]
mod runs;
#[cfg(test)]
mod scripts;
#[cfg(test)]
mod shortage;
