//! The laws of verdicts, outcomes, runs and swaps.
ghost use Rattle.event_core.specs.RunLaws.{
  VerdictIsUnique,
  VerdictsStay,
  OutcomeIsUnique,
  RunIsUnique,
  RunsKeepLogsWellFormed,
  ActOutcomeIsUnique,
  ActRunIsUnique,
  ActRunsKeepLogsWellFormed,
  SwapIsRefusedAsItsLoad,
  SwapNeedsTwoSlots,
  SwapMeetsFullLog,
  SwapsAreLegal,
  SwapsKeepLogsWellFormed,
};

/// An event has one verdict.
pub fn verdict_is_unique()
    ensures { VerdictIsUnique }
{}

/// A verdict is the same in every longer log.
pub fn verdicts_stay()
    ensures { VerdictsStay }
{}

/// A call has one outcome.
pub fn outcome_is_unique()
    ensures { OutcomeIsUnique }
{}

/// A list of calls has one run.
pub fn run_is_unique()
    ensures { RunIsUnique }
{}

/// The log at the end of a run after a well-formed log is well formed.
pub fn runs_keep_logs_well_formed()
    ensures { RunsKeepLogsWellFormed }
{}

/// An act has one outcome.
pub fn act_outcome_is_unique()
    ensures { ActOutcomeIsUnique }
{}

/// A list of acts has one run.
pub fn act_run_is_unique()
    ensures { ActRunIsUnique }
{}

/// The log at the end of a run of acts after a well-formed log is well formed.
pub fn act_runs_keep_logs_well_formed()
    ensures { ActRunsKeepLogsWellFormed }
{}

/// Except for a full log, a swap is refused exactly as its load would be.
pub fn swap_is_refused_as_its_load()
    ensures { SwapIsRefusedAsItsLoad }
{}

/// A swap is not refused exactly when its load would not be and two slots are left.
pub fn swap_needs_two_slots()
    ensures { SwapNeedsTwoSlots }
{}

/// The log is full for a swap exactly when nothing else speaks against its load and two slots are not left.
pub fn swap_meets_full_log()
    ensures { SwapMeetsFullLog }
{}

/// The two events of a swap that is accepted after a well-formed log are legal, one after the other.
pub fn swaps_are_legal()
    ensures { SwapsAreLegal }
{}

/// The log after a swap that is accepted after a well-formed log is well formed.
pub fn swaps_keep_logs_well_formed()
    ensures { SwapsKeepLogsWellFormed }
{}
