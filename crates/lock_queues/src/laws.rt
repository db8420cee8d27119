//! Laws of queues that stand for a log, each a contract of a function without a body.
ghost use Rattle.lock_queues.specs.Laws.{
  SameStand,
  OthersLeaveThem,
  HoldersHaveEntered,
  StrictClocksMayAsk,
  FindingKeepsThem,
  ReleasesAreAbove,
};

/// Queues that hold the same stand for the same log, as before and after `make_room`.
pub fn same_stand()
    ensures { SameStand }
{}

/// An event that neither opens nor ends a section leaves the queues as they are.
pub fn others_leave_them()
    ensures { OthersLeaveThem }
{}

/// A thread that holds a lock has entered its section, as `last_below` and `leave` ask.
pub fn holders_have_entered()
    ensures { HoldersHaveEntered }
{}

/// The clock that counts what strictly precedes a thread's events meets what `last_below` asks of it.
pub fn strict_clocks_may_ask()
    ensures { StrictClocksMayAsk }
{}

/// What `last_below` finds by that clock, once its answer is let go, keeps what the queues stand for.
pub fn finding_keeps_them()
    ensures { FindingKeepsThem }
{}

/// The clock of a release is at or above those of the sections on its lock, as `leave` asks.
pub fn releases_are_above()
    ensures { ReleasesAreAbove }
{}
