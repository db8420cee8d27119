//! Which calls are refused, and why: the first reason of the list that applies.
ghost use Rattle.std.specs.Prelude.{◌≡◌, ◌≤◌, List, None, OnOk};
ghost use Rattle.event_core.specs.declared.events.Event.{Event};
ghost use Rattle.event_core.specs.declared.events.Op.{Op};
ghost use Rattle.event_core.specs.Refusal.{refusal, in_range};
ghost use Rattle.event_core.specs.Acts.{swap_refusal};
ghost use Rattle.traced_mem.specs.After.{after};
ghost use Rattle.traced_mem.specs.Refusals.{
  forked_at,
  known_at,
  caller_refusal,
  target_refusal,
  full_at,
  log_full_at,
  refusal_at,
  swap_refusal_at,
  answer,
};
ghost use Rattle.traced_mem.specs.Tables.{meaning, Allows, AllowsSwap};
ghost use Rattle.traced_mem.specs.Standing.{StandsFor};

use crate::memory::Memory;
use event_core::{Call, Op, Refusal, Roots, ThreadId, VarId};

impl Memory {
    /// Why the call is refused, if it is. It takes no memory.
    #[inline(always)]
    pub fn permit(&self, call: &Call) -> Result<(), Refusal>
        ensures means { result
            ≡ answer (refusal_at self.now.limits (meaning self.now) call.now.thread call.now.op) }
        ensures allowed { OnOk result (Allows self.now call.now.thread call.now.op) }
        ensures refusal { (log : List Event) → StandsFor log self.now
            → result ≡ answer (refusal self.now.limits log call.now) }
    {
        self.decide(call.thread, call.op)
    }

    /// Why a swap of the variable is refused, if it is. It takes no memory. Where the swap is allowed
    /// so is its load, and so is its store after the load.
    pub fn permit_swap(&self, thread: ThreadId, var: VarId) -> Result<(), Refusal>
        ensures means { result ≡ answer (swap_refusal_at self.now.limits (meaning self.now) thread var) }
        ensures allowed { OnOk result (AllowsSwap self.now thread var) }
        ensures load { OnOk result (Allows self.now thread (Op.Load var)) }
        ensures store { OnOk result
            (refusal_at self.now.limits (after thread (Op.Load var) 0 (meaning self.now)) thread
            (Op.Store var)
            ≡ None) }
        ensures refusal { (log : List Event) → StandsFor log self.now
            → result ≡ answer (swap_refusal self.now.limits log thread var) }
    {
        self.decide_swap(thread, var)
    }

    #[inline(always)]
    #[tactic(auto, unfolding(crate::specs::Refusals::refusal_at))]
    fn decide(&self, thread: ThreadId, op: Op) -> Result<(), Refusal>
        ensures { result ≡ answer (refusal_at self.now.limits (meaning self.now) thread op) }
    {
        if let Some(refusal) = self.against_caller(thread) {
            return Err(refusal);
        }
        if !self.is_in_range(op) {
            return Err(Refusal::TargetRange);
        }
        if let Some(refusal) = self.against_target(thread, op) {
            return Err(refusal);
        }
        if let Some(refusal) = self.against_log(op) {
            return Err(refusal);
        }
        Ok(())
    }

    #[tactic(auto, unfolding(crate::specs::Refusals::swap_refusal_at))]
    fn decide_swap(&self, thread: ThreadId, var: VarId) -> Result<(), Refusal>
        ensures { result ≡ answer (swap_refusal_at self.now.limits (meaning self.now) thread var) }
    {
        if let Some(refusal) = self.against_caller(thread) {
            return Err(refusal);
        }
        if !self.is_in_range(Op::Load(var)) {
            return Err(Refusal::TargetRange);
        }
        if let Some(refusal) = self.against_slots(2) {
            return Err(refusal);
        }
        Ok(())
    }

    #[inline(always)]
    fn is_forked(&self, thread: ThreadId) -> bool
        ensures { result ≡ forked_at self.now.limits.roots (meaning self.now) thread }
    {
        match self.limits.roots() {
            Roots::Free => true,
            Roots::OnlyMain => {
                let at = thread.0 as usize;
                at == 0 || (at < self.threads.len() && self.threads[at].forked)
            }
        }
    }

    fn is_known(&self, thread: ThreadId) -> bool
        ensures { result ≡ known_at self.now.limits.roots (meaning self.now) thread }
    {
        let at = thread.0 as usize;
        match self.limits.roots() {
            Roots::Free => at < self.threads.len() && self.threads[at].mentioned,
            Roots::OnlyMain => self.is_forked(thread),
        }
    }

    #[inline(always)]
    fn is_joined(&self, thread: ThreadId) -> bool
        ensures { result ≡ ((meaning self.now).thread thread.0).joined }
    {
        let at = thread.0 as usize;
        at < self.threads.len() && self.threads[at].joined
    }

    #[inline(always)]
    fn is_in_range(&self, op: Op) -> bool
        ensures { result ≡ in_range self.now.limits op }
    {
        match op {
            Op::Load(var) | Op::Store(var) => var.0 < self.limits.vars(),
            Op::Acquire(lock) | Op::Release(lock) => lock.0 < self.limits.locks(),
            Op::Fork(child) | Op::Join(child) => child.0 < self.limits.threads(),
        }
    }

    #[inline(always)]
    fn against_caller(&self, thread: ThreadId) -> Option<Refusal>
        ensures { result ≡ caller_refusal self.now.limits (meaning self.now) thread }
    {
        if self.limits.threads() <= thread.0 {
            Some(Refusal::ThreadRange)
        } else if !self.is_forked(thread) {
            Some(Refusal::NotStarted)
        } else if self.is_joined(thread) {
            Some(Refusal::Ended)
        } else {
            None
        }
    }

    #[inline(always)]
    fn against_target(&self, thread: ThreadId, op: Op) -> Option<Refusal>
        ensures { result ≡ target_refusal self.now.limits (meaning self.now) thread op }
    {
        match op {
            Op::Load(_) | Op::Store(_) => None,
            Op::Acquire(lock) => match self.holder(lock) {
                Some(by) if by.0 != thread.0 => Some(Refusal::Held { by }),
                _ => None,
            },
            Op::Release(lock) => match self.holder(lock) {
                Some(by) if by.0 == thread.0 => None,
                _ => Some(Refusal::NotHolder),
            },
            Op::Fork(child) => {
                if child.0 == thread.0 {
                    Some(Refusal::SelfTarget)
                } else if self.is_known(child) {
                    Some(Refusal::AlreadyStarted)
                } else {
                    None
                }
            }
            Op::Join(child) => {
                if child.0 == thread.0 {
                    Some(Refusal::SelfTarget)
                } else if self.is_forked(child) {
                    None
                } else {
                    Some(Refusal::TargetNotStarted)
                }
            }
        }
    }

    #[inline(always)]
    fn against_log(&self, op: Op) -> Option<Refusal>
        ensures { result ≡ log_full_at self.now.limits (meaning self.now) op }
    {
        match op {
            Op::Release(_) => None,
            Op::Acquire(_) => self.against_slots(2),
            _ => self.against_slots(1),
        }
    }

    #[inline(always)]
    fn against_slots(&self, needed: u64) -> Option<Refusal>
        requires { needed ≤ 2 }
        ensures { result ≡ full_at self.now.limits (meaning self.now) needed }
    {
        let room = self.limits.events() - self.length - self.holds;
        if room < needed {
            Some(Refusal::LogFull)
        } else {
            None
        }
    }
}
