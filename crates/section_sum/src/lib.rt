//! What closed critical sections read and wrote.
//!
//! By rule (a) of weak causal precedence an access in a critical section comes after each earlier release
//! of its lock that ends another thread's section with a conflicting access (Kini, Mathur, Viswanathan,
//! "Dynamic Race Prediction in Linear Time", PLDI 2017). So for each lock, variable and kind of access the
//! summaries name to each thread the newest section by the others with such an access.
//!
//! The two newest sections of different threads suffice: on one lock each release's clock is at or above
//! those before it. Sections need not nest, and an access counts in each section that is open at it.
//!
//! A closed section is named by its number: its place in the order of its lock's releases, counted from 1.
//! What is known of it, as the clock of its release, is kept once for all summaries that name it, and not
//! here. So a variable has a cell of one size under each lock, whatever the number of threads.
//!
//! Contracts speak of numbers: which open section has which access (`noted_of`), the newest of the other
//! threads' closed sections (`others_of`, 0 where there is none), and where there is room (`is_ready`). And
//! they say what the numbers mean for a log (`Stands`), which each call keeps: no log is stored.
#![tactic(auto)]

mod cell;
mod cells;
pub mod laws;
mod lock;
mod locks;
mod newest;
mod sources;
mod summaries;

pub use sources::Sources;
pub use summaries::Summaries;
