//! What a seat at the table knows, for contracts and proofs alone: no value of these types is made,
//! and a clause reads an array of theirs as a list of any length.
use event_core::{Step, ThreadId};

/// What one pass knows: the steps that it has seen, and those of them that its thread made.
pub struct PassView {
    pub thread: ThreadId,
    pub seen: [Step; 0],
    pub mine: [Step; 0],
}

/// What one seat knows: the keeper's list, if the keeper sits here, the passes that are here, and the
/// lists that these had seen when they came.
pub struct SeatView {
    pub kept: [[Step; 0]; 0],
    pub passes: [PassView; 0],
    pub told: [[Step; 0]; 0],
}
