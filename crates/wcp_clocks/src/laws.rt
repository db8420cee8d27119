//! Laws of the clocks, each a contract of a function without a body.
ghost use Rattle.wcp_clocks.specs.Standing.{SameStand, FitsWhereLegal};
ghost use Rattle.wcp_clocks.specs.WorkWithin.{NoWork, SameWork, WorkStep, LittleWork, FewComparisonsInAll};

/// Clocks with the same numbers stand for the same log.
#[tactic(auto, using(crate::proofs::StandsForProperties::same_stand))]
pub fn same_stand()
    ensures { SameStand }
{}

/// A legal event finds the numbers as `advance` asks.
pub fn fits_where_legal()
    ensures { FitsWhereLegal }
{}

/// Clocks that have done no work are within the bounds of the empty log.
#[tactic(auto, using(crate::proofs::WorkLaws::no_work))]
pub fn no_work()
    ensures { NoWork }
{}

/// Clocks that have done the same work are within the same bounds.
#[tactic(auto, using(crate::proofs::WorkLaws::same_work))]
pub fn same_work()
    ensures { SameWork }
{}

/// A legal event keeps the work within its bounds.
pub fn work_step()
    ensures { WorkStep }
{}

/// Within those bounds the work is little at each legal event.
pub fn little_work()
    ensures { LittleWork }
{}

/// A log of n events by k threads takes at most n * k + n comparisons.
pub fn few_comparisons()
    ensures { FewComparisonsInAll }
{}
