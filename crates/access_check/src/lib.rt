//! The verdict on an access: the latest earlier access that conflicts with it and is not ordered before it.
//!
//! Of each variable and thread at most the last load and the last store are kept, and nothing else of the
//! log. A clock that counts what is ordered before an event counts of each thread its first events. So where
//! a thread's last conflicting access is counted, all its earlier ones are, and where it is not, it is that
//! thread's latest one that races: the verdict is the greatest index of those.
//!
//! After a store that does not race, nothing else is kept of its variable: all earlier accesses are ordered
//! before the store, so whatever races with one of them races with the store, which has the greater index.
#![tactic(auto)]

mod accesses;
mod last_accesses;
mod packed;
mod tables;
mod variable_accesses;

pub use accesses::Accesses;
