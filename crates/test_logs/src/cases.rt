//! Worked cases.
use crate::text::{Line, count_lines, line_at};
use event_core::{LimitFault, Limits, Roots};
use verdict_list::Race;

/// What threads ask for in turn, and what becomes of it.
#[derive(Clone, Copy)]
pub struct Case {
    pub name: &'static str,
    /// How many threads, locks, variables and events there may be.
    pub limits: (u32, u32, u32, u64),
    pub roots: Roots,
    /// The calls and swaps, in the notation of `text`.
    pub text: &'static str,
    /// All races of the log, by the indices of the events.
    pub races: &'static [Race],
}

impl Case {
    pub fn limits(&self) -> Result<Limits, LimitFault> {
        let (threads, locks, vars, events) = self.limits;
        Limits::new(threads, locks, vars, events, self.roots)
    }

    /// How many lines its text has.
    pub fn count(&self) -> usize {
        count_lines(self.text)
    }

    /// The line of its text at the index.
    pub fn line(&self, index: usize) -> Option<Line> {
        line_at(self.text, index)
    }
}
