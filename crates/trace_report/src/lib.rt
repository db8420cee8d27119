//! The check and the replay of a trace, whole or in pieces, and its report: its counts, and a line for each
//! race.
#![tactic(auto)]

mod checking;
mod counts;
mod faults;
mod judge;
mod judged_text;
pub mod laws;
mod lines;
mod listing;
mod replayer;
mod replaying;
mod reporting;
mod summary;
mod telling;
mod whole_text;
mod words;

pub use checking::check;
pub use counts::Counts;
pub use faults::{ReplayFault, TraceFault};
pub use judge::Judge;
pub use judged_text::JudgedText;
pub use lines::{put_count, put_race, put_summary};
pub use listing::{Line, write_lines};
pub use replayer::Replayer;
pub use replaying::replay;
pub use reporting::report;
pub use summary::Summary;
pub use telling::tell_failure;
pub use whole_text::judge_text;
pub use words::refusal_word;
