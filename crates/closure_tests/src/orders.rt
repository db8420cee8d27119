//! Program order and happens-before, both reflexive.
use crate::pairs::Pairs;
use crate::rules::Rules;
use crate::sections::Section;
use event_core::{Event, Op};

// Whether program order has a step from the first event to the second, which is later.
fn is_step(first: &Event, second: &Event, rules: Rules) -> bool {
    first.thread == second.thread
        || first.op == Op::Fork(second.thread)
        || second.op == Op::Join(first.thread)
        || rules.has_fork_to_join() && is_fork_to_join(first.op, second.op)
}

// Whether the operations fork and join one thread.
fn is_fork_to_join(first: Op, second: Op) -> bool {
    matches!((first, second), (Op::Fork(child), Op::Join(ended)) if child == ended)
}

/// The order of each thread's events, with what forks and joins order.
pub fn program_order(log: &[Event], rules: Rules) -> Pairs {
    let mut order = Pairs::new();
    for (second, later) in log.iter().enumerate() {
        order.insert(second, second);
        for (first, earlier) in log[..second].iter().enumerate() {
            if is_step(earlier, later, rules) {
                order.insert(first, second);
            }
        }
    }
    order.close();
    order
}

/// Program order, and each release below each later acquire of its lock.
pub fn happens_before(program_order: Pairs, sections: &[Section]) -> Pairs {
    let mut order = program_order;
    for earlier in sections {
        for later in sections {
            if let Some(release) = earlier.release
                && earlier.lock == later.lock
                && release < later.acquire
            {
                order.insert(release, later.acquire);
            }
        }
    }
    order.close();
    order
}
