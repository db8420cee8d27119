//! Weak causal precedence by its rules, compared with the sequential monitor.
//!
//! The crate has tests alone. They close the relation of a whole log slowly, as a set of pairs of events, by
//! the three rules as they are written (Kini, Mathur, Viswanathan, "Dynamic Race Prediction in Linear Time",
//! PLDI 2017), and look for each event's race among all earlier events. Nothing is shared with the monitor
//! but the words of events. Each verdict has to be the one that the monitor's `step` answered.
//!
//! Beside them stand the worked cases of the monitor's calls, runs and swaps: what each is answered.
#![tactic(auto)]

#[cfg(test)]
mod broken_rules;
#[cfg(test)]
mod closure;
#[cfg(test)]
mod draws;
#[cfg(test)]
mod expected;
#[cfg(test)]
mod orders;
#[cfg(test)]
mod pairs;
#[cfg(test)]
mod random_logs;
#[cfg(test)]
mod room;
#[cfg(test)]
mod rules;
#[cfg(test)]
mod sections;
#[cfg(test)]
mod templates;
#[cfg(test)]
mod told;
#[cfg(test)]
mod worked_cases;
