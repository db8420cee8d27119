//! Sections: a lock that is held until its guard is dropped.
ghost use Rattle.std.specs.Prelude.{◌≡◌, IfOk, IfErr};
ghost use Rattle.event_core.specs.declared.events.Act.TheVariants.{Swap as SwapAct};
ghost use Rattle.event_core.specs.declared.replies.Done.TheVariants.{Swap as Swapped};
ghost use Rattle.live_monitor.specs.Calls.{load_by, store_by, Answers, AnswersAct, HasComeTo};
ghost use Rattle.live_monitor.specs.Tries.{CountsTries};
ghost use Rattle.traced_thread.specs.Sections.{handle_of, left_of, lock_of, pass_of, site_of, thread_of};
ghost use Rattle.traced_thread.specs.Sections.{HasBegun, IsReleased, IsSectionOf, WasRefused};

use crate::handle::TracedThread;
use event_core::{LockId, Refusal, Reply, SiteId, SwapReply, ThreadId, VarId};
use live_monitor::Tries;
use log_pass::Name;
use std::sync::Wait;

/// A critical section: the lock is held until this is dropped, by `?` too. The drop releases the lock at the
/// site of its acquire. Meanwhile the thread makes its calls by this in place of its handle.
pub struct Section<'h, 'm, N: Name, R: Wait> {
    rt: &'h R,
    thread: &'h mut TracedThread<'m, N>,
    lock: LockId,
    site: SiteId,
}

impl<'h, 'm, N: Name, R: Wait> Drop for Section<'h, 'm, N, R> {
    fn drop(self)
        ensures later { HasComeTo N.limits (pass_of self.entry) (left_of self.exit) }
        ensures released { IsReleased N.limits (lock_of self.entry) (site_of self.entry)
            (pass_of self.entry) (left_of self.exit) }
    {
        let Section {
            rt,
            thread,
            lock,
            site,
        } = self;
        let _answer = thread.release(rt, lock, site);
    }
}

impl<'h, 'm, N: Name, R: Wait> Section<'h, 'm, N, R> {
    // The section of the lock that the handle has acquired.
    #[inline(always)]
    fn new(rt: &'h R, thread: &'h mut TracedThread<'m, N>, lock: LockId, site: SiteId) -> Self
        ensures same_reference { handle_of result ≡ thread.entry.ghost_name }
        ensures same_pass { pass_of result ≡ thread.old }
        ensures same_lock { IsSectionOf lock site result }
    {
        Section {
            rt,
            thread,
            lock,
            site,
        }
    }

    /// Whose section it is.
    pub fn thread(&self) -> ThreadId
        ensures { result ≡ thread_of self.now }
    {
        self.thread.thread()
    }

    /// Loads the variable: the reply has the last value that was stored to it, or 0.
    #[inline(always)]
    pub fn load(&mut self, var: VarId, site: SiteId) -> Result<Reply, Refusal>
        ensures same_reference { handle_of self.new ≡ handle_of self.old }
        ensures same_lock { IsSectionOf (lock_of self.old) (site_of self.old) self.new }
        ensures answers { Answers N.limits (load_by (thread_of self.old) var site)
            (pass_of self.old) (pass_of self.new) result }
    {
        self.thread.load(self.rt, var, site)
    }

    /// Stores the value to the variable.
    #[inline(always)]
    pub fn store(&mut self, var: VarId, value: u64, site: SiteId) -> Result<Reply, Refusal>
        ensures same_reference { handle_of self.new ≡ handle_of self.old }
        ensures same_lock { IsSectionOf (lock_of self.old) (site_of self.old) self.new }
        ensures answers { Answers N.limits (store_by (thread_of self.old) var value site)
            (pass_of self.old) (pass_of self.new) result }
    {
        self.thread.store(self.rt, var, value, site)
    }

    /// Loads the variable and stores the value to it, as one step: no other thread's event stands between.
    pub fn swap(&mut self, var: VarId, value: u64, site: SiteId) -> Result<SwapReply, Refusal>
        ensures same_reference { handle_of self.new ≡ handle_of self.old }
        ensures same_lock { IsSectionOf (lock_of self.old) (site_of self.old) self.new }
        ensures answers { AnswersAct N.limits (SwapAct (thread_of self.old) var site value) Swapped
            (pass_of self.old) (pass_of self.new) result }
    {
        self.thread.swap(self.rt, var, value, site)
    }

    /// Begins a section within this one, and waits for no lock.
    #[inline(always)]
    pub fn lock(&mut self, lock: LockId, site: SiteId) -> Result<Section<'_, 'm, N, R>, Refusal>
        ensures begun { IfOk result (HasBegun N.limits lock site (pass_of self.old)) }
        ensures declined { IfErr result (WasRefused N.limits lock site (pass_of self.old)) }
    {
        self.thread.acquire(self.rt, lock, site)?;
        Ok(Section::new(self.rt, self.thread, lock, site))
    }

    /// Begins a section within this one, and tries again while another thread holds the lock and tries are
    /// left.
    pub fn lock_within(
        &mut self,
        lock: LockId,
        site: SiteId,
        tries: &mut Tries,
    ) -> Result<Section<'_, 'm, N, R>, Refusal>
        ensures begun { IfOk result (HasBegun N.limits lock site (pass_of self.old)) }
        ensures declined { IfErr result (WasRefused N.limits lock site (pass_of self.old)) }
        ensures tries { CountsTries tries.old tries.new result }
    {
        self.thread.acquire_within(self.rt, lock, site, tries)?;
        Ok(Section::new(self.rt, self.thread, lock, site))
    }
}

impl<'m, N: Name> TracedThread<'m, N> {
    /// Begins a section. It is refused while another thread holds the lock, after what the handle had then
    /// seen. No clause says that it has seen that afterwards, or that it made no step; those of `acquire` do.
    #[inline(always)]
    pub fn lock<'h, R: Wait>(
        &'h mut self,
        rt: &'h R,
        lock: LockId,
        site: SiteId,
    ) -> Result<Section<'h, 'm, N, R>, Refusal>
        ensures same_reference { IfOk result (λ section. handle_of section ≡ self.entry.ghost_name) }
        ensures begun { IfOk result (HasBegun N.limits lock site self.old) }
        ensures declined { IfErr result (WasRefused N.limits lock site self.old) }
    {
        self.acquire(rt, lock, site)?;
        Ok(Section::new(rt, self, lock, site))
    }

    /// Begins a section, and tries again while another thread holds the lock and tries are left. `Held` is
    /// the answer only where all are counted, as of `acquire_within`.
    pub fn lock_within<'h, R: Wait>(
        &'h mut self,
        rt: &'h R,
        lock: LockId,
        site: SiteId,
        tries: &mut Tries,
    ) -> Result<Section<'h, 'm, N, R>, Refusal>
        ensures same_reference { IfOk result (λ section. handle_of section ≡ self.entry.ghost_name) }
        ensures begun { IfOk result (HasBegun N.limits lock site self.old) }
        ensures declined { IfErr result (WasRefused N.limits lock site self.old) }
        ensures tries { CountsTries tries.old tries.new result }
    {
        self.acquire_within(rt, lock, site, tries)?;
        Ok(Section::new(rt, self, lock, site))
    }
}
