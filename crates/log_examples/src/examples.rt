//! What the definitions say of small logs. Each example is the contract of a function that does nothing.
//!
//! The logs and the statements stand in `specs`. A reader who doubts a definition finds here what it orders,
//! and what it leaves unordered.
ghost use Rattle.log_examples.specs.Examples.{
  ConflictingSectionsAreOrdered,
  HappensBeforeIsNotEnough,
  OrderPassesThroughSections,
  OrderBeginsAtTheAccess,
  RuleBOrdersReleases,
  RuleBWithinOneThread,
  ReleaseEndsItsOwnSection,
  InnerReleaseEndsNoSection,
  ForkIsBelowJoin,
  LatestRaceIsTold,
  InnerReleaseKeepsTheLock,
  ASlotIsKeptForTheRelease,
  EachHoldKeepsASlot,
  TheFirstReasonIsTold,
};

/// A store in a section is ordered before the conflicting store of a later section on its lock.
pub fn conflicting_sections_are_ordered()
    ensures { ConflictingSectionsAreOrdered }
{}

/// A store and a load that happens-before orders, and weak causal precedence does not, are a race.
pub fn happens_before_is_not_enough()
    ensures { HappensBeforeIsNotEnough }
{}

/// What comes before a section is ordered before what comes after the conflicting access of a later one.
pub fn order_passes_through_sections()
    ensures { OrderPassesThroughSections }
{}

/// The order begins at the conflicting access, and not at the acquire before it.
pub fn order_begins_at_the_access()
    ensures { OrderBeginsAtTheAccess }
{}

/// Two sections with no conflict are ordered where an event of the first strictly precedes one of the second.
pub fn rule_b_orders_releases()
    ensures { RuleBOrdersReleases }
{}

/// Rule (b) orders releases of one thread too.
pub fn rule_b_within_one_thread()
    ensures { RuleBWithinOneThread }
{}

/// A release ends the section of its own lock, and not the newest one.
pub fn release_ends_its_own_section()
    ensures { ReleaseEndsItsOwnSection }
{}

/// An inner release ends no section.
pub fn inner_release_ends_no_section()
    ensures { InnerReleaseEndsNoSection }
{}

/// The fork of a thread is below its join, also where the thread has no event.
pub fn fork_is_below_join()
    ensures { ForkIsBelowJoin }
{}

/// Of the accesses that race with one, the latest is reported.
pub fn latest_race_is_told()
    ensures { LatestRaceIsTold }
{}

/// An inner release leaves the lock to its holder.
pub fn inner_release_keeps_the_lock()
    ensures { InnerReleaseKeepsTheLock }
{}

/// While a lock is held, a slot of the log is kept for its release.
pub fn a_slot_is_kept_for_the_release()
    ensures { ASlotIsKeptForTheRelease }
{}

/// Each hold of a lock keeps a slot, also the inner ones.
pub fn each_hold_keeps_a_slot()
    ensures { EachHoldKeepsASlot }
{}

/// A refused call is answered the first reason that speaks against it.
pub fn the_first_reason_is_told()
    ensures { TheFirstReasonIsTold }
{}
