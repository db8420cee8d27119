//! The laws of counted sets, by which every clock takes its steps, and what is below a new event.
ghost use Rattle.std.specs.Prelude.{ℕ};
ghost use Rattle.event_core.specs.CountLaws.{
  CountIsUnique,
  JoinIsUnion,
  NewEventAddsOne,
  LongerLogKeepsCounts,
  EqualSetsHaveEqualCounts,
  HbOfNewEvent,
  StrictOfNewEvent,
};

/// A set of indices.
pub trait Set {
    /// Which are in it.
    ghost has: { ℕ → Type 0 };
}

/// A set has one count.
pub fn count_is_unique<P: Set>()
    ensures { CountIsUnique P.has }
{}

/// Join is union: the greater of two counts counts both sets together.
pub fn join_is_union<P: Set, Q: Set>()
    ensures { JoinIsUnion P.has Q.has }
{}

/// A new event adds one to its own thread's count of a set that has all of the thread's events, and nothing
/// to the others'.
pub fn new_event_adds_one<P: Set>()
    ensures { NewEventAddsOne P.has }
{}

/// A longer log changes no count of a set of the events before.
pub fn longer_log_keeps_counts<P: Set>()
    ensures { LongerLogKeepsCounts P.has }
{}

/// Sets with the same events of a thread have the same counts of it.
pub fn equal_sets_have_equal_counts<P: Set, Q: Set>()
    ensures { EqualSetsHaveEqualCounts P.has Q.has }
{}

/// What happens before a new event, in the sets of the log before it.
pub fn hb_of_new_event()
    ensures { HbOfNewEvent }
{}

/// In a well-formed log, what strictly precedes a new event, in the sets of the log before it.
pub fn strict_of_new_event()
    ensures { StrictOfNewEvent }
{}
