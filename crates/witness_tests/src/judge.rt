//! The slow judge: whether two accesses have a witness, by trying all orders.
use event_core::{Event, LockId, Op, SiteId, ThreadId, VarId};

// How many events an order may have.
const MOST: usize = 8;

// What stands where an order has no event.
const NO_EVENT: Event = Event {
    thread: ThreadId(0),
    op: Op::Load(VarId(0)),
    site: SiteId(0),
    value: 0,
};

/// Some events of a log, each with its index, in an order.
#[derive(Clone, Copy)]
pub struct Order {
    events: [(usize, Event); MOST],
    count: usize,
}

impl Order {
    /// No events.
    pub const NONE: Order = Order {
        events: [(0, NO_EVENT); MOST],
        count: 0,
    };

    fn events(&self) -> &[(usize, Event)] {
        &self.events[..self.count.min(MOST)]
    }

    /// The order with one more event at its end.
    pub fn with(&self, index: usize, event: &Event) -> Order {
        let mut longer = *self;
        if longer.count < MOST {
            longer.events[longer.count] = (index, *event);
            longer.count += 1;
        }
        longer
    }

    fn has(&self, index: usize) -> bool {
        for (other, _event) in self.events() {
            if *other == index {
                return true;
            }
        }
        false
    }
}

// The events before the index, in the order of the log.
fn below(events: &[Event], index: usize) -> Order {
    let mut order = Order::NONE;
    for (earlier, event) in events.iter().enumerate() {
        if earlier < index {
            order = order.with(earlier, event);
        }
    }
    order
}

/// Which orders are tried.
#[derive(Clone, Copy, PartialEq)]
pub enum Orders {
    All,
    /// Those in which the sections on each lock are in the order of the log.
    OfSections,
}

// Whether an edge of program order leads from the event to the later one.
fn is_edge(first: &Event, later: &Event) -> bool {
    let is_joined = match later.op {
        Op::Join(child) => first.thread == child || first.op == Op::Fork(child),
        _ => false,
    };
    first.thread == later.thread || first.op == Op::Fork(later.thread) || is_joined
}

/// Whether the order has all that is before the event in program order, and not itself.
pub fn is_next(events: &[Event], order: &Order, index: usize) -> bool {
    let Some(event) = events.get(index) else {
        return false;
    };
    for (other, earlier) in events.iter().enumerate() {
        if other < index && is_edge(earlier, event) && !order.has(other) {
            return false;
        }
    }
    !order.has(index)
}

// The last event of the order that stores to the variable.
fn last_store(order: &Order, var: VarId) -> Option<usize> {
    let mut last = None;
    for (index, event) in order.events() {
        if event.op == Op::Store(var) {
            last = Some(*index);
        }
    }
    last
}

// Whether no other thread holds the lock after the order.
fn is_free_for(order: &Order, thread: ThreadId, lock: LockId) -> bool {
    let mut depth: u64 = 0;
    for (_index, event) in order.events() {
        if event.thread != thread && event.op == Op::Acquire(lock) {
            depth = depth.saturating_add(1);
        }
        if event.thread != thread && event.op == Op::Release(lock) {
            depth = depth.saturating_sub(1);
        }
    }
    depth == 0
}

// Whether the order has a later acquire of the lock.
fn has_later(order: &Order, lock: LockId, index: usize) -> bool {
    for (other, event) in order.events() {
        if index < *other && event.op == Op::Acquire(lock) {
            return true;
        }
    }
    false
}

/// Whether the event may come next in a witness.
pub fn may_follow(events: &[Event], order: &Order, index: usize, orders: Orders) -> bool {
    if !is_next(events, order, index) {
        return false;
    }
    let Some(event) = events.get(index) else {
        return false;
    };
    match event.op {
        Op::Load(var) => last_store(order, var) == last_store(&below(events, index), var),
        Op::Acquire(lock) => {
            is_free_for(order, event.thread, lock)
                && (orders == Orders::All || !has_later(order, lock, index))
        }
        _ => true,
    }
}

/// Whether some order that begins with this one, and has at most so many events more, is a witness.
pub fn has_witness(
    events: &[Event],
    order: &Order,
    i: usize,
    j: usize,
    orders: Orders,
    more: u32,
) -> bool {
    if is_next(events, order, i) && is_next(events, order, j) {
        return true;
    }
    if more == 0 {
        return false;
    }
    for (index, event) in events.iter().enumerate() {
        if index != i && index != j && may_follow(events, order, index, orders) {
            let longer = order.with(index, event);
            if has_witness(events, &longer, i, j, orders, more - 1) {
                return true;
            }
        }
    }
    false
}

/// Whether the accesses conflict.
pub fn conflict(first: &Event, second: &Event) -> bool {
    let same = match (first.op, second.op) {
        (Op::Load(x), Op::Store(y)) | (Op::Store(x), Op::Load(y) | Op::Store(y)) => x == y,
        _ => false,
    };
    same && first.thread != second.thread
}
