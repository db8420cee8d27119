//! The laws of traces. A law's function does nothing, and its clause is the law.
ghost use Rattle.trace_laws.specs.AccessLaws.{
  PrivateAccessesChangeNothing,
  WellFormedIsOrdered,
  RepeatedAccessesChangeNoPair,
};
ghost use Rattle.trace_laws.specs.Exchanges.{ExchangesChangeNoRace, FirstRaceStands};
ghost use Rattle.trace_laws.specs.HbLaws.{StrictIsWithinHb, HbRacesAreRaces};

/// In a well-formed log, what strictly precedes an event happens before it.
pub fn strict_is_within_hb()
    ensures { StrictIsWithinHb }
{}

/// In a well-formed log, conflicting accesses that happens-before leaves unordered race. So what a detector
/// of races by happens-before finds in a trace, this one finds there too.
pub fn hb_races_are_races()
    ensures { HbRacesAreRaces }
{}

/// The accesses to variables that one thread alone accesses may be left out of a well-formed log. The log is
/// then well formed too, its relations and races are the same, and each event that stays has the verdict that
/// it had. Only the indices move down, each by as many events as are left out before it.
pub fn private_accesses_change_nothing()
    ensures { PrivateAccessesChangeNothing }
{}

/// The locks, forks and joins of a well-formed log are in order.
pub fn well_formed_is_ordered()
    ensures { WellFormedIsOrdered }
{}

/// An access that its thread made before, by the same operation, may be left out of a log whose locks, forks
/// and joins are in order, where the thread has made accesses alone since. They stay in order, so another may
/// be left out then. The same two threads race by the same operations, and no others. Which of a thread's
/// accesses a race is with may change, and which of the two comes first. Values do not matter.
pub fn repeated_accesses_change_no_pair()
    ensures { RepeatedAccessesChangeNoPair }
{}

/// In a log whose locks, forks and joins are in order, two events side by side may be exchanged, if they are
/// of different threads, at least one is an access, and neither forks or joins the other's thread. However
/// often that is done, the locks, forks and joins stay in order, and the relations and the races are the
/// same. Only the indices change, and which access of a race comes first. Values do not matter.
pub fn exchanges_change_no_race()
    ensures { ExchangesChangeNoRace }
{}

/// Conflicting accesses that have changed their order by such exchanges race. So those before the first event
/// that races have kept it, and the races of this event are races in the other order too.
pub fn first_race_stands()
    ensures { FirstRaceStands }
{}
