//! Accesses and locks.
ghost use Rattle.std.specs.Prelude.{◌≡◌, Some, IfErr};
ghost use Rattle.event_core.specs.Refusal.{refusal};
ghost use Rattle.event_core.specs.Steps.{log_of};
ghost use Rattle.event_core.specs.declared.events.Act.TheVariants.{Swap as SwapAct};
ghost use Rattle.event_core.specs.declared.replies.Done.TheVariants.{Swap as Swapped};
ghost use Rattle.live_monitor.specs.Calls.{
  load_by,
  store_by,
  acquire_by,
  release_by,
  Answers,
  AnswersAct,
};
ghost use Rattle.live_monitor.specs.Tries.{CountsTries};
ghost use Rattle.traced_thread.specs.Sections.{HoldsLock, HasEnded};

use crate::handle::{TracedThread, take};
use event_core::{LockId, Op, Refusal, Reply, SiteId, SwapReply, VarId};
use live_monitor::Tries;
use log_pass::Name;
use std::sync::Wait;

impl<'m, N: Name> TracedThread<'m, N> {
    /// Loads the variable: the reply has the last value that was stored to it, or 0.
    #[inline(always)]
    pub fn load<R: Wait>(&mut self, rt: &R, var: VarId, site: SiteId) -> Result<Reply, Refusal>
        ensures { Answers N.limits (load_by self.old.thread var site) self.old self.new result }
    {
        let pass = take(&mut self.pass);
        let (pass, answer) = self.monitor.perform(rt, pass, Op::Load(var), 0, site);
        self.pass = Some(pass);
        answer
    }

    /// Stores the value to the variable.
    #[inline(always)]
    pub fn store<R: Wait>(
        &mut self,
        rt: &R,
        var: VarId,
        value: u64,
        site: SiteId,
    ) -> Result<Reply, Refusal>
        ensures { Answers N.limits (store_by self.old.thread var value site) self.old self.new result }
    {
        let pass = take(&mut self.pass);
        let (pass, answer) = self.monitor.perform(rt, pass, Op::Store(var), value, site);
        self.pass = Some(pass);
        answer
    }

    /// Loads the variable and stores the value to it, as one step: no other thread's event stands between.
    pub fn swap<R: Wait>(
        &mut self,
        rt: &R,
        var: VarId,
        value: u64,
        site: SiteId,
    ) -> Result<SwapReply, Refusal>
        ensures { AnswersAct N.limits (SwapAct self.old.thread var site value) Swapped
            self.old self.new result }
    {
        let (pass, answer) = self
            .monitor
            .swap(rt, take(&mut self.pass), var, value, site);
        self.pass = Some(pass);
        answer
    }

    /// Acquires the lock. It is refused while another thread holds it.
    #[inline(always)]
    pub fn acquire<R: Wait>(&mut self, rt: &R, lock: LockId, site: SiteId) -> Result<Reply, Refusal>
        ensures { Answers N.limits (acquire_by self.old.thread lock site) self.old self.new result }
    {
        let pass = take(&mut self.pass);
        let (pass, answer) = self.monitor.perform(rt, pass, Op::Acquire(lock), 0, site);
        self.pass = Some(pass);
        answer
    }

    /// Acquires the lock. It is tried once at least, and again while another thread holds it and tries are
    /// left. `Held` is the answer only where all are counted, and one is counted at least where one was left.
    /// No clause tells that as many are made as are counted.
    pub fn acquire_within<R: Wait>(
        &mut self,
        rt: &R,
        lock: LockId,
        site: SiteId,
        tries: &mut Tries,
    ) -> Result<Reply, Refusal>
        ensures answers { Answers N.limits (acquire_by self.old.thread lock site) self.old self.new result }
        ensures tries { CountsTries tries.old tries.new result }
    {
        let pass = take(&mut self.pass);
        let (pass, answer) = self.monitor.acquire_within(rt, pass, lock, site, tries);
        self.pass = Some(pass);
        answer
    }

    /// Releases the lock. It is never refused for want of memory, and to a thread that holds the lock only
    /// once that was joined.
    #[inline(always)]
    pub fn release<R: Wait>(&mut self, rt: &R, lock: LockId, site: SiteId) -> Result<Reply, Refusal>
        ensures answers { Answers N.limits (release_by self.old.thread lock site) self.old self.new result }
        ensures refused { IfErr result (λ answer.
            refusal N.limits (log_of self.new.seen) (release_by self.old.thread lock site) ≡ Some answer) }
        ensures ended { IfErr result (λ answer.
            HoldsLock N.limits lock self.old → HasEnded self.old.thread self.new answer) }
    {
        let pass = take(&mut self.pass);
        let (pass, answer) = self.monitor.perform(rt, pass, Op::Release(lock), 0, site);
        self.pass = Some(pass);
        answer
    }
}
