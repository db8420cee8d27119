//! Passes over the published length of one log. The log itself is nowhere stored here: what is shared is
//! one word, the number of its events, under a rule that ties it to what the keeper and every pass know.
//! So a pass can look without waiting, and all passes see beginnings of one list of steps, in which each
//! thread's are just its own.
#![tactic(auto)]

mod blank;
mod keeper;
mod kinds;
mod name;
mod pass;
mod published;
mod rule;
mod views;

pub use blank::{Blank, NoRoom};
pub use keeper::Keeper;
pub use name::Name;
pub use pass::Pass;
pub use published::Published;
