//! Runs: lists of calls, and lists of acts, one after another.
ghost use Rattle.std.specs.Prelude.{◌≡◌, ◌-◌, OnOk, OnErr, IfOk, vec_capacity, vec_len};
ghost use Rattle.event_core.specs.declared.events.Act.TheVariants.{One};
ghost use Rattle.event_core.specs.Verdict.{IsOutcome, IsRun, log_after};
ghost use Rattle.event_core.specs.Acts.{IsActRun, IsDone, log_after_act};
ghost use Rattle.seq_monitor.specs.Monitored.{HasBoundedWork};
ghost use Rattle.seq_monitor.specs.RunAnswers.{Ran, RanSome, MayWantMemory};

use crate::monitor::Monitor;
use event_core::{Act, Call, Done, OutOfMemory, Outcome, Refusal};

impl Monitor {
    /// Takes the calls in order, and adds their outcomes. Room for all outcomes is made first, and where
    /// that is refused nothing has changed. It stops at the first call that wants memory: then the outcomes
    /// that were added, and the monitor, are those of the calls before it. That call is no release, and the
    /// definition does not refuse it.
    pub fn run(&mut self, calls: &[Call], outcomes: &mut Vec<Outcome>) -> Result<(), OutOfMemory>
        ensures all { OnOk result (Ran (IsRun self.old.limits self.old.log) calls.now
            outcomes.old.items outcomes.new.items self.new.log) }
        ensures some { OnErr result (RanSome (IsRun self.old.limits self.old.log) self.old.limits One
            calls.now (vec_capacity outcomes.old - vec_len outcomes.old)
            outcomes.old.items outcomes.new.items self.new.log) }
        ensures limits { self.new.limits ≡ self.old.limits }
        ensures work { HasBoundedWork self.new }
    {
        self.bounded_work();
        if outcomes.reserve(calls.len()).is_err() {
            return Err(OutOfMemory);
        }
        for call in calls {
            let outcome = self.take(*call)?;
            outcomes.push_reserved(outcome);
        }
        Ok(())
    }

    // The call's outcome. Where there is none, for want of memory, the call is no release, the definition
    // does not refuse it, and nothing has changed.
    fn take(&mut self, call: Call) -> Result<Outcome, OutOfMemory>
        ensures outcome { IfOk result (λ outcome. IsOutcome self.old.limits self.old.log call outcome) }
        ensures log { IfOk result (λ outcome. self.new.log ≡ log_after self.old.log call outcome) }
        ensures memory { OnErr result (MayWantMemory self.old.limits self.old.log (One call)) }
        ensures same { OnErr result (self.new.log ≡ self.old.log) }
        ensures limits { self.new.limits ≡ self.old.limits }
        ensures work { HasBoundedWork self.new }
    {
        match self.step(call) {
            Ok(reply) => Ok(Outcome::Accepted(reply)),
            Err(Refusal::OutOfMemory) => Err(OutOfMemory),
            Err(refusal) => Ok(Outcome::Refused(refusal)),
        }
    }

    /// Takes the acts in order, and adds what becomes of them. Room for all answers is made first, and where
    /// that is refused nothing has changed. It stops at the first act that wants memory: then the answers
    /// that were added, and the monitor, are those of the acts before it. That act is no release, and the
    /// definition does not refuse it.
    pub fn run_acts(&mut self, acts: &[Act], answers: &mut Vec<Done>) -> Result<(), OutOfMemory>
        ensures all { OnOk result (Ran (IsActRun self.old.limits self.old.log) acts.now
            answers.old.items answers.new.items self.new.log) }
        ensures some { OnErr result (RanSome (IsActRun self.old.limits self.old.log) self.old.limits
            (λ act. act) acts.now (vec_capacity answers.old - vec_len answers.old)
            answers.old.items answers.new.items self.new.log) }
        ensures limits { self.new.limits ≡ self.old.limits }
        ensures work { HasBoundedWork self.new }
    {
        self.bounded_work();
        if answers.reserve(acts.len()).is_err() {
            return Err(OutOfMemory);
        }
        for act in acts {
            let done = self.take_act(*act)?;
            answers.push_reserved(done);
        }
        Ok(())
    }

    // What becomes of the act. Where it wants memory, it is no release, the definition does not refuse it,
    // and nothing has changed.
    fn take_act(&mut self, act: Act) -> Result<Done, OutOfMemory>
        ensures done { IfOk result (λ done. IsDone self.old.limits self.old.log act done) }
        ensures log { IfOk result (λ done. self.new.log ≡ log_after_act self.old.log act done) }
        ensures memory { OnErr result (MayWantMemory self.old.limits self.old.log act) }
        ensures same { OnErr result (self.new.log ≡ self.old.log) }
        ensures limits { self.new.limits ≡ self.old.limits }
        ensures work { HasBoundedWork self.new }
    {
        match act {
            Act::One(call) => match self.step(call) {
                Ok(reply) => Ok(Done::One(reply)),
                Err(Refusal::OutOfMemory) => Err(OutOfMemory),
                Err(refusal) => Ok(Done::Refused(refusal)),
            },
            Act::Swap {
                thread,
                var,
                site,
                arg,
            } => match self.swap(thread, var, arg, site) {
                Ok(reply) => Ok(Done::Swap(reply)),
                Err(Refusal::OutOfMemory) => Err(OutOfMemory),
                Err(refusal) => Ok(Done::Refused(refusal)),
            },
        }
    }
}
