//! The laws of the one log. A law's function does nothing, and its clause is the law.
ghost use Rattle.one_log.specs.Laws.{
  PassesStandInOneLog,
  JoinedPassesStandInClosedLog,
  MetPassesStandInOneLog,
};

/// Under the rule of the published word there is one well-formed log: the keeper's, whose events the word
/// counts. All passes stand in it, and all that were joined into one of them, directly or through others: it
/// begins with what the pass has seen, and the pass's own steps are exactly its thread's, in order. No two
/// passes at the table share a thread. And each accepted call has its place in the log, with the reply that
/// the sequential monitor gives there.
pub fn passes_stand_in_one_log()
    ensures { PassesStandInOneLog }
{}

/// What `Shared::close` states of the closing pass holds of all that were joined into it, directly or through
/// others: the closed log begins with what the pass has seen, and has of its thread exactly its own events,
/// in order. And each accepted call of theirs has its place in the log, with its reply.
pub fn joined_passes_stand_in_closed_log()
    ensures { JoinedPassesStandInClosedLog }
{}

/// Where any two of some passes meet, all of them stand in one well-formed log.
pub fn met_passes_stand_in_one_log()
    ensures { MetPassesStandInOneLog }
{}
