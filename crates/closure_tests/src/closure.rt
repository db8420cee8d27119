//! Weak causal precedence of one log, closed under its rules.
use crate::orders::{happens_before, program_order};
use crate::pairs::{MOST_EVENTS, MOST_PAIRS, Pairs};
use crate::rules::Rules;
use crate::sections::{Section, sections};
use event_core::{Event, Op, VarId, Verdict};
use std::alloc::Global;

/// The relations of a log of at most `MOST_EVENTS` events.
#[derive(Clone, Copy)]
pub struct Closure {
    pub program_order: Pairs,
    pub happens_before: Pairs,
    /// The least relation that is closed under the three rules.
    pub strict: Pairs,
}

// The variable that an access touches.
fn variable(op: Op) -> Option<VarId> {
    match op {
        Op::Load(var) | Op::Store(var) => Some(var),
        _ => None,
    }
}

// Whether the events are accesses of one variable, at least one of them a store.
fn touch(one: &Event, other: &Event) -> bool {
    variable(one.op).is_some()
        && variable(one.op) == variable(other.op)
        && (matches!(one.op, Op::Store(_)) || matches!(other.op, Op::Store(_)))
}

// Whether they are such accesses by different threads.
fn conflict(one: &Event, other: &Event) -> bool {
    one.thread != other.thread && touch(one, other)
}

// Whether an event of the section conflicts with the access.
fn has_conflict(log: &[Event], section: &Section, access: &Event, rules: Rules) -> bool {
    if section.thread == access.thread && !rules.has_own_conflicts() {
        return false;
    }
    for (index, event) in log.iter().enumerate() {
        if section.has(event.thread, index) && touch(event, access) {
            return true;
        }
    }
    false
}

impl Closure {
    /// Closes the relations of the log.
    pub fn of(alloc: Global, log: &[Event], rules: Rules) -> Closure {
        let sections = sections(alloc, log);
        let program_order = program_order(log, rules);
        let mut closure = Closure {
            program_order,
            happens_before: happens_before(program_order, &sections),
            strict: Pairs::new(),
        };
        closure.order_conflicts(log, &sections, rules);
        // Each round but the last adds a pair.
        for _round in 0..MOST_PAIRS {
            if !closure.order_sections(log, &sections, rules) {
                break;
            }
        }
        closure
    }

    // Rule (a): a release is below a later access inside a section on its lock, where the release's own
    // section has an event that conflicts with the access.
    fn order_conflicts(&mut self, log: &[Event], sections: &[Section], rules: Rules) {
        for (index, access) in log.iter().enumerate() {
            for ended in sections {
                for around in sections {
                    if let (Some(release), Some(end)) = (
                        ended.release,
                        rules.end_of_a(around, index),
                    )
                        && release < end
                        && ended.lock == around.lock
                        && around.has(access.thread, index)
                        && has_conflict(log, ended, access, rules)
                    {
                        self.order(release, end);
                    }
                }
            }
        }
    }

    // Rule (b): of two sections on one lock the earlier's release is below the later's, where some event of
    // the earlier section is strictly below some event of the later one. Answers whether it added a pair.
    fn order_sections(&mut self, log: &[Event], sections: &[Section], rules: Rules) -> bool {
        let mut added = false;
        for earlier in sections {
            for later in sections {
                if let (Some(first), Some(second)) = (earlier.release, later.release)
                    && earlier.lock == later.lock
                    && first < second
                    && rules.has_b(earlier, later)
                    && self.is_below(log, earlier, later)
                    && self.order(first, second)
                {
                    added = true;
                }
            }
        }
        added
    }

    // Whether an event of the one section is strictly below an event of the other.
    fn is_below(&self, log: &[Event], one: &Section, other: &Section) -> bool {
        for (first, earlier) in log.iter().enumerate() {
            for (second, later) in log.iter().enumerate() {
                if self.strict.contains(first, second)
                    && one.has(earlier.thread, first)
                    && other.has(later.thread, second)
                {
                    return true;
                }
            }
        }
        false
    }

    // Orders the two events and, by rule (c), each that happens before the first and each that happens after
    // the second. Answers whether they were not ordered yet.
    fn order(&mut self, first: usize, second: usize) -> bool {
        if self.strict.contains(first, second) {
            return false;
        }
        for before in 0..MOST_EVENTS {
            if self.happens_before.contains(before, first) {
                self.strict.insert_all(before, second, &self.happens_before);
            }
        }
        true
    }

    // Whether the first event is strictly below the second, or below it by program order.
    fn is_ordered(&self, first: usize, second: usize) -> bool {
        self.strict.contains(first, second) || self.program_order.contains(first, second)
    }

    /// The verdict on the event at the index: the greatest earlier index of a conflicting event that is not
    /// ordered before it.
    pub fn verdict(&self, log: &[Event], index: usize) -> Verdict {
        let mut verdict = Verdict::Clear;
        if let Some(access) = log.get(index) {
            for (earlier, event) in log[..index].iter().enumerate() {
                if conflict(event, access) && !self.is_ordered(earlier, index) {
                    verdict = Verdict::Racy(earlier as u64);
                }
            }
        }
        verdict
    }

    /// Whether it has these verdicts on the events.
    pub fn has_verdicts(&self, log: &[Event], verdicts: &[Verdict]) -> bool {
        let mut has_verdicts = true;
        for (index, verdict) in verdicts.iter().enumerate() {
            has_verdicts = has_verdicts && self.verdict(log, index) == *verdict;
        }
        has_verdicts
    }
}
