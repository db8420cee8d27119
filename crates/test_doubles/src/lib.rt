//! Readers and writers that tests share: a text that comes in pieces, and a page that keeps what it takes.
//! They take no memory.
#![tactic(auto)]

/// A table: rows of values, each of which ends by a semicolon.
#[macro_export]
macro_rules! rows {
    ($($($value:expr),+;)*) => {
        &[$(($($value),+)),*]
    };
}

mod events;
mod pages;
mod texts;

pub use events::event_text;
pub use pages::{Page, Room};
pub use texts::{Pieces, Text, letters};
