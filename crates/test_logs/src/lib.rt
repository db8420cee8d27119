//! The worked logs that tests share, each once, and what tests of logs have in common.
//!
//! A log stands as a trace: a line of its text is an event. [`line_at`] reads it.
#![tactic(auto)]

mod calls;
mod cases;
mod ids;
mod lists;
mod logs;
mod random;
mod text;

pub use calls::{CALLS, SWAPS};
pub use cases::Case;
pub use ids::{K, L, M, N, T0, T1, T2, X, Y, Z};
pub use lists::add;
pub use logs::{
    ACCESS_BEFORE_CONFLICT, IDLE_CHILD, INNER_RELEASE, LOGS, NESTED_SECTIONS,
    RELEASES_OF_ONE_THREAD, SECTIONS_IN_CONFLICT, SECTIONS_WITHOUT_CONFLICT, THREE_STORES,
};
pub use random::Generator;
pub use text::{Line, call, call_at, count_lines, line_at};
