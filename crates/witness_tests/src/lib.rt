//! Witnesses, compared with a slow judge.
//!
//! The crate has tests alone. The worked logs have, for two accesses each, the events of their witness, or
//! that there is none. For each pair of conflicting accesses of random logs a judge tries all orders of the
//! other events, by the definition alone; it shares nothing with the searcher but the words of events. No
//! witness may be given where there is none, and none be missed that keeps the order of each lock's sections.
#![tactic(auto)]

#[cfg(test)]
mod expected;
#[cfg(test)]
mod judge;
#[cfg(test)]
mod random_logs;
#[cfg(test)]
mod recorded;
#[cfg(test)]
mod worked_logs;
