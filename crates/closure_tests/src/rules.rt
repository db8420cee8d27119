//! The rules by which a log is closed, and ways to break one of them.
use crate::sections::Section;

/// By which rules a log is closed.
#[derive(Clone, Copy)]
pub enum Rules {
    /// By all of them, as they are written.
    Whole,
    /// Rule (b) is left out.
    WithoutB,
    /// Rule (b) orders no two releases of one thread.
    BWithoutOwnThread,
    /// Program order has no step from a fork to the join of its child.
    WithoutForkToJoin,
    /// Rule (a) orders the release before the acquire of the section that the access is in.
    AToAcquire,
    /// Rule (a) orders the release before the release of the section that the access is in.
    AToRelease,
    /// Rule (a) takes accesses of one thread for a conflict, too.
    AWithOwnThread,
}

impl Rules {
    /// Whether rule (b) speaks of the two sections.
    pub fn has_b(self, earlier: &Section, later: &Section) -> bool {
        match self {
            Rules::WithoutB => false,
            Rules::BWithoutOwnThread => earlier.thread != later.thread,
            _ => true,
        }
    }

    /// Whether a fork is below the join of its child.
    pub fn has_fork_to_join(self) -> bool {
        !matches!(self, Rules::WithoutForkToJoin)
    }

    /// The event before which rule (a) orders a release, for an access in the section.
    pub fn end_of_a(self, section: &Section, access: usize) -> Option<usize> {
        match self {
            Rules::AToAcquire => Some(section.acquire),
            Rules::AToRelease => section.release,
            _ => Some(access),
        }
    }

    /// Whether rule (a) takes accesses of one thread for a conflict.
    pub fn has_own_conflicts(self) -> bool {
        matches!(self, Rules::AWithOwnThread)
    }
}
