//! What a race at the end of a log is to each relation. A law's function does nothing, and its clause is the
//! law.
ghost use Rattle.witness.specs.EndLaws.{NeighborsRace, ShowsRace};

/// In a well-formed log, happens-before does not order two conflicting accesses with nothing between them. So
/// they race, and the verdict on the later one names the earlier one.
pub fn neighbors_race()
    ensures { NeighborsRace }
{}

/// The events of a witness, followed by the two accesses in either order, a load with the value that it then
/// reads, are a well-formed log. In it the accesses race by happens-before, and so by weak causal precedence,
/// and the verdict on the last event names the one before.
pub fn shows_race()
    ensures { ShowsRace }
{}
