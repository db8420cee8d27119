//! Clocks of weak causal precedence, one event at a time.
#![tactic(auto)]

mod clocks;
mod holdings;
pub mod laws;
mod room;
mod source_clocks;
mod sources;
mod strict;

pub use clocks::WcpClocks;
pub use source_clocks::SourceClocks;
