//! Sets of pairs of events. An event is named by its index in the log.

/// How many events a log may have: as many as a row has bits.
pub const MOST_EVENTS: usize = 32;

/// How many pairs there may be.
pub const MOST_PAIRS: usize = 1024;

/// A set of pairs of events.
#[derive(Clone, Copy)]
pub struct Pairs {
    // A row for each event. The bit of an index says that the event there is paired with it.
    rows: [u32; MOST_EVENTS],
}

impl Pairs {
    /// The set without pairs.
    pub fn new() -> Pairs {
        Pairs {
            rows: [0; MOST_EVENTS],
        }
    }

    /// Whether the pair is in the set.
    pub fn contains(&self, first: usize, second: usize) -> bool {
        first < MOST_EVENTS && second < MOST_EVENTS && self.rows[first] & (1 << second) != 0
    }

    /// Adds the pair.
    pub fn insert(&mut self, first: usize, second: usize) {
        if first < MOST_EVENTS && second < MOST_EVENTS {
            self.rows[first] |= 1 << second;
        }
    }

    /// Pairs the first event with each that the other set pairs with the middle one.
    pub fn insert_all(&mut self, first: usize, middle: usize, other: &Pairs) {
        if first < MOST_EVENTS && middle < MOST_EVENTS {
            self.rows[first] |= other.rows[middle];
        }
    }

    /// Adds what follows from the pairs by any number of steps from one to the next.
    pub fn close(&mut self) {
        for middle in 0..MOST_EVENTS {
            let old = *self;
            for first in 0..MOST_EVENTS {
                if old.contains(first, middle) {
                    self.insert_all(first, middle, &old);
                }
            }
        }
    }

    /// The pairs that are not in the other set.
    pub fn without(&self, other: &Pairs) -> Pairs {
        let mut left = *self;
        for first in 0..MOST_EVENTS {
            left.rows[first] &= !other.rows[first];
        }
        left
    }

    /// How many pairs there are.
    pub fn count(&self) -> u64 {
        let mut count: u64 = 0;
        for row in &self.rows {
            count = count.saturating_add(u64::from(row.count_ones()));
        }
        count
    }
}
