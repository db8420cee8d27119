//! Tests of the monitor that threads share: worked cases with the handles in one hand, threads that call it
//! at once, and the reports of closed logs.
//!
//! The crate has tests alone, and they see no more of the monitor than any caller does. They fail where
//! memory is refused, except those whose names say so.
#![tactic(auto)]

#[cfg(test)]
mod calls;
#[cfg(test)]
mod example;
#[cfg(test)]
mod name_lists;
#[cfg(test)]
mod plays;
#[cfg(test)]
mod releases;
#[cfg(test)]
mod report_cases;
#[cfg(test)]
mod reports;
#[cfg(test)]
mod sections;
#[cfg(test)]
mod threads;
#[cfg(test)]
mod turn_cases;
#[cfg(test)]
mod turns;
