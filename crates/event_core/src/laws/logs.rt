//! The laws of well-formed logs and of lists of steps.
ghost use Rattle.event_core.specs.LogLaws.{
  GrowsByLegalEvents,
  SlotsAreKept,
  OpenAcquiresAreDepths,
  HoldersMayRelease,
  JoinedHoldersHaveEnded,
  InsideByReleases,
  EndedThreadsRest,
  OwnStepsAreOwnEvents,
  OwnEventsAreCounted,
  SectionsAreNumbered,
};

/// A log grows by legal events, and by nothing else.
pub fn grows_by_legal_events()
    ensures { GrowsByLegalEvents }
{}

/// A slot of the log is kept for the release of each hold of a lock.
pub fn slots_are_kept()
    ensures { SlotsAreKept }
{}

/// The depths of all held locks come to the acquires less the releases of the log.
pub fn open_acquires_are_depths()
    ensures { OpenAcquiresAreDepths }
{}

/// A release by the lock's holder is not refused, unless the holder has been joined.
///
/// So a thread that has not ended can always give back what it holds, however full the log is.
pub fn holders_may_release()
    ensures { HoldersMayRelease }
{}

/// A release by a holder that has been joined is refused as `Ended`.
pub fn joined_holders_have_ended()
    ensures { JoinedHoldersHaveEnded }
{}

/// An event is inside a section exactly when no outer release stands between.
pub fn inside_by_releases()
    ensures { InsideByReleases }
{}

/// A thread that has been joined has no more events.
pub fn ended_threads_rest()
    ensures { EndedThreadsRest }
{}

/// The log of a thread's steps is the thread's events of the log.
pub fn own_steps_are_own_events()
    ensures { OwnStepsAreOwnEvents }
{}

/// A thread has as many events as stand in the list of them.
pub fn own_events_are_counted()
    ensures { OwnEventsAreCounted }
{}

/// The sections on each lock are numbered from 1, in the order of their releases.
pub fn sections_are_numbered()
    ensures { SectionsAreNumbered }
{}
