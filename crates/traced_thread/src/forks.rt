//! Forks and joins: a thread's handle is made, or taken back.
ghost use Rattle.std.specs.Prelude.{◌≡◌, true, IfOk, IfErr, OnOk};
ghost use Rattle.std.specs.List.{list_any};
ghost use mathlib.Core.List.{IsPrefix};
ghost use Rattle.event_core.specs.Refusal.{joins};
ghost use Rattle.event_core.specs.Steps.{log_of, own, own_events};
ghost use Rattle.log_pass.specs.Passes.{new_pass};
ghost use Rattle.live_monitor.specs.Calls.{fork_by, join_by, Accepted, Declined, HasComeTo};

use crate::handle::{TracedThread, take};
use crate::refused_joins::NotJoined;
use event_core::{Refusal, Reply, SiteId, ThreadId};
use log_pass::Name;
use std::sync::Wait;

impl<'m, N: Name> TracedThread<'m, N> {
    /// Forks the child, and gives its handle, which has seen as much and has made no step. The caller starts
    /// the thread, and hands it over.
    pub fn fork<R: Wait>(
        &mut self,
        rt: &R,
        child: ThreadId,
        site: SiteId,
    ) -> Result<(TracedThread<'m, N>, Reply), Refusal>
        ensures later { HasComeTo N.limits self.old self.new }
        ensures accepted { IfOk result
            (λ made. Accepted N.limits (fork_by self.old.thread child site) self.old self.new made.1) }
        ensures child { IfOk result (λ made. made.0 ≡ new_pass child self.new.seen) }
        ensures declined { IfErr result
            (λ answer. Declined N.limits (fork_by self.old.thread child site) self.old self.new answer) }
    {
        let monitor = self.monitor;
        let (pass, forked) = monitor.fork(rt, take(&mut self.pass), child, site);
        self.pass = Some(pass);
        let (born, reply) = forked?;
        Ok((TracedThread::new(monitor, born), reply))
    }

    /// Joins the child, whose handle is spent: what this one has seen begins with what the child's had, and
    /// has of the child just its own steps. Where the join is not accepted, the child's handle comes back as
    /// it was.
    pub fn join<R: Wait>(
        &mut self,
        rt: &R,
        child: TracedThread<'m, N>,
        site: SiteId,
    ) -> Result<Reply, NotJoined<'m, N>>
        ensures later { HasComeTo N.limits self.old self.new }
        ensures child_begins { OnOk result (IsPrefix child.entry.seen self.new.seen) }
        ensures accepted { IfOk result (λ reply.
            Accepted N.limits (join_by self.old.thread child.entry.thread site) self.old self.new reply) }
        ensures child_own { OnOk result (child.entry.mine ≡ own child.entry.thread self.new.seen) }
        ensures child_events { OnOk result
            (log_of child.entry.mine ≡ own_events child.entry.thread (log_of self.new.seen)) }
        ensures joined { OnOk result (list_any (joins child.entry.thread) (log_of self.new.seen) ≡ true) }
        ensures declined { IfErr result (λ left. Declined N.limits
            (join_by self.old.thread child.entry.thread site) self.old self.new left.refusal) }
        ensures back { IfErr result (λ left. left.child ≡ child.entry) }
    {
        let child = child.into_pass();
        let (pass, joined) = self.monitor.join(rt, take(&mut self.pass), child, site);
        self.pass = Some(pass);
        match joined {
            Ok(reply) => Ok(reply),
            Err((refusal, back)) => Err(NotJoined {
                refusal,
                child: TracedThread::new(self.monitor, back),
            }),
        }
    }
}
