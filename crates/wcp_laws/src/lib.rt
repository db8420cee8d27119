//! What one event makes of the clocks of weak causal precedence, as a pure step on numbers, and the laws of
//! that step. Code that keeps the numbers stands above.
//!
//! The step is that of the vector clock algorithm of Kini, Mathur and Viswanathan ("Dynamic Race Prediction
//! in Linear Time", PLDI 2017): an access takes the clocks of rule (a), a release takes those of rule (b),
//! and forks, joins and acquires hand on what rule (c) adds. Forks and joins, re-entrant locks and sections
//! that need not nest are this project's. Its proof follows the recurrence of event_core
//! (`specs/Recurrence`).
#![tactic(auto)]

pub mod laws;
