//! Laws of the clocks, each a contract of a function without a body.
ghost use Rattle.hb_clocks.specs.Standing.{StepStands, AdmitsLegal, FewInLog};

/// The step of a legal event keeps the meaning.
pub fn step_stands()
    ensures { StepStands }
{}

/// A legal event is admitted.
pub fn admits_legal()
    ensures { AdmitsLegal }
{}

/// In a log within the greatest number of events the numbers are few.
pub fn few_in_log()
    ensures { FewInLog }
{}
