//! The laws on logs in which no lock is acquired again by its holder.
ghost use Rattle.log_examples.specs.PlainLaws.{PlainLogsKeepTheirMeaning, PlainLogsHaveNoInnerAcquire};

/// A log that is well formed by the rule without re-entrance is so by the rule with it, and means the same.
pub fn plain_logs_keep_their_meaning()
    ensures { PlainLogsKeepTheirMeaning }
{}

/// Such logs are exactly the well-formed ones whose acquires are all outer.
pub fn plain_logs_have_no_inner_acquire()
    ensures { PlainLogsHaveNoInnerAcquire }
{}
