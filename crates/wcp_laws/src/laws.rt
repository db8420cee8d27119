//! The laws of one event's step, each a contract of a function without a body.
ghost use Rattle.wcp_laws.specs.Conditions.{BelowIsLatest, CountedEarlier, ReleasesAbove, StrictIsLatest};
ghost use Rattle.wcp_laws.specs.Standing.{StepStands};

/// The step of a legal event keeps the meaning.
pub fn step_stands()
    ensures { StepStands }
{}

/// A closing release's clock is at or above those that are kept of its lock.
pub fn releases_above()
    ensures { ReleasesAbove }
{}

/// A strict clock that counts a closed section counts the earlier ones of its lock.
pub fn counted_earlier()
    ensures { CountedEarlier }
{}

/// A thread's strict clock counts what strictly precedes its latest event.
pub fn strict_is_latest()
    ensures { StrictIsLatest }
{}

/// With the clock of program order it counts what is below that event.
pub fn below_is_latest()
    ensures { BelowIsLatest }
{}
