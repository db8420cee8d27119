//! An acquire that is tried again.
ghost use Rattle.event_core.specs.Steps.{log_of};
ghost use Rattle.live_monitor.specs.Calls.{acquire_by, Answers};
ghost use Rattle.live_monitor.specs.Rules.{MayAdd};
ghost use Rattle.live_monitor.specs.Tries.{CountsTries};

use crate::rule::LogRule;
use crate::shared::Shared;
use crate::tries::Tries;
use event_core::{LockId, Refusal, Reply, SiteId};
use log_pass::{Name, Pass};
use std::sync::Wait;

impl<N: Name, K: LogRule> Shared<N, K> {
    /// Acquires the lock. It is tried once at least, and again while another thread holds it and tries are
    /// left. `Held` is the answer only where all are counted, and one is counted at least where one was left.
    /// No clause tells that as many are made as are counted.
    #[tactic(auto, using(crate::proofs::RetryLaws::may_add_again, crate::proofs::RetryLaws::answers_all))]
    pub fn acquire_within<R: Wait>(
        &self,
        rt: &R,
        pass: Pass<N>,
        lock: LockId,
        site: SiteId,
        tries: &mut Tries,
    ) -> (Pass<N>, Result<Reply, Refusal>)
        requires keeps { MayAdd K.keeps pass (acquire_by pass.thread lock site) }
        ensures keeps { K.keeps (log_of result.0.seen) }
        ensures answers { Answers N.limits (acquire_by pass.thread lock site) pass result.0 result.1 }
        ensures tries { CountsTries tries.old tries.new result.1 }
    {
        let mut pass = pass;
        // The first try is made in any case.
        tries.another();
        'tries: loop {
            match self.acquire(rt, pass, lock, site) {
                (next, Err(Refusal::Held { .. })) if tries.another() => pass = next,
                answer => return answer,
            }
        }
    }
}
