//! Vector clocks: of each thread, how many of its events are in a set. The clocks of program order and of
//! happens-before, the clocks of releases, marks of events, and the work that is done on all of them.
#![tactic(auto)]

mod before;
mod clock;
mod hb;
mod holds;
mod joined;
pub mod laws;
mod mark;
mod release;
pub mod rows;
mod search;
mod step;
mod vector_time;
mod work;

pub use clock::Clock;
pub use hb::HbClocks;
pub use joined::JoinedClocks;
pub use mark::Mark;
pub use release::{ReleaseClock, ReleaseClocks, ReleasePlace};
pub use search::search_marks;
pub use vector_time::VectorTime;
pub use work::Work;
