//! Laws of summaries that stand for a log, each a contract of a function without a body.
ghost use Rattle.section_sum.specs.Laws.{OthersLeaveThem, HoldersAreAlone, SourcesCount};

/// An event that is no access and ends no section leaves the summaries as they are.
pub fn others_leave_them()
    ensures { OthersLeaveThem }
{}

/// No other thread has an open section on a lock that the thread holds, as `note` asks.
pub fn holders_are_alone()
    ensures { HoldersAreAlone }
{}

/// The clocks of the sections that `sources` names count together what happens before the releases that rule
/// (a) pairs with the access, whatever clocks the releases have.
pub fn sources_count()
    ensures { SourcesCount }
{}
