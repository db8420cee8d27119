//! The step of an event, by what the event is to the clocks.
ghost use Rattle.std.specs.Prelude.{◌≡◌, ◌+◌, ◌<◌, ◌≤◌, ◌^◌, length};
ghost use Rattle.event_core.specs.declared.events.Op.TheVariants.{Acquire, Release};
ghost use Rattle.event_core.specs.Effect.{Accesses, Opens, Closes, Forks, Joins, Inner};
ghost use Rattle.wcp_clocks.specs.Met.{joins_latest};
ghost use Rattle.wcp_clocks.specs.Parts.{IsReady, Fits};
ghost use Rattle.wcp_clocks.specs.Stepping.{IsDue, IsStepBy, IsStep};
ghost use Rattle.event_core.specs.Rows.{join, with_row};
ghost use Rattle.event_core.specs.Closed.{below_closed, number_counted};
ghost use Rattle.lock_queues.specs.Sections.{latest_counted};
ghost use Rattle.lock_queues.specs.Queues.{closed_of, opened_of, found_of, SameMemory};
ghost use Rattle.lock_queues.specs.Searched.{CoversEarlier, FindsCounted};
ghost use Rattle.wcp_clocks.specs.StrictRows.{strict_of, HasThread, SameRoom};

use crate::clocks::WcpClocks;
use crate::sources::take_sources;
use crate::strict::StrictRows;
use event_core::{AccessKind, Event, LockId, Op, ThreadId, VarId};
use hb_clocks::Work;
use lock_queues::Queues;

impl WcpClocks {
    // The step of the event.
    #[inline(always)]
    pub(crate) fn step(&mut self, event: &Event)
        requires ready { IsReady self.old event.now.thread event.now.op }
        requires fits { Fits event.now self.old }
        ensures { IsStep event.now self.old self.new }
    {
        match event.op {
            Op::Load(var) => self.access(event, var, AccessKind::Read),
            Op::Store(var) => self.access(event, var, AccessKind::Write),
            Op::Acquire(lock) => self.acquire(event, lock),
            Op::Release(lock) => self.release(event, lock),
            Op::Fork(child) => self.fork(event, child),
            Op::Join(child) => self.join(event, child),
        }
    }

    // An acquire. The outer one opens a section.
    fn acquire(&mut self, event: &Event, lock: LockId)
        requires op { event.now.op ≡ Acquire lock }
        requires ready { IsReady self.old event.now.thread event.now.op }
        requires fits { Fits event.now self.old }
        ensures { IsStep event.now self.old self.new }
    {
        if self.hb.depth(event.thread, lock) == 0 {
            // The same event; so the compiler knows its operation in what follows.
            let event = &Event {
                op: Op::Acquire(lock),
                ..*event
            };
            self.open(event, lock);
        } else {
            self.count_inner(event);
        }
    }

    // A release. The outer one closes its section.
    fn release(&mut self, event: &Event, lock: LockId)
        requires op { event.now.op ≡ Release lock }
        requires ready { IsReady self.old event.now.thread event.now.op }
        requires fits { Fits event.now self.old }
        ensures { IsStep event.now self.old self.new }
    {
        if self.hb.depth(event.thread, lock) == 1 {
            // The same event; so the compiler knows its operation in what follows.
            let event = &Event {
                op: Op::Release(lock),
                ..*event
            };
            self.close(event, lock);
        } else {
            self.count_inner(event);
        }
    }

    // An access: by rule (a) its strict clock takes the sources under each lock that its thread holds, it is
    // noted in the open section on each, and its thread counts it.
    #[inline(always)]
    fn access(&mut self, event: &Event, var: VarId, kind: AccessKind)
        requires { IsDue event.now (Accesses var kind) self.old }
        ensures { IsStepBy event.now (Accesses var kind) self.old self.new }
    {
        let thread = event.thread;
        let held = self.held.of(thread);
        take_sources(
            &mut self.rows,
            &self.sums,
            &self.queues,
            thread,
            held,
            var,
            kind,
            &mut self.work,
        );
        self.sums.note(thread, held, var, kind);
        self.hb.advance(event, &mut self.work);
    }

    // An outer acquire: its clocks take those of the lock, and a section is opened.
    fn open(&mut self, event: &Event, lock: LockId)
        requires { IsDue event.now (Opens lock) self.old }
        ensures { IsStepBy event.now (Opens lock) self.old self.new }
    {
        let thread = event.thread;
        self.rows.take_lock(thread, lock, &mut self.work);
        self.hb.advance(event, &mut self.work);
        self.queues.enter(thread, lock, self.hb.mark(thread));
        self.held.add(thread, lock);
    }

    // An outer release: by rule (b) its strict clock takes the release of the latest section on the lock
    // whose acquire it counts, and its own section is closed.
    fn close(&mut self, event: &Event, lock: LockId)
        requires { IsDue event.now (Closes lock) self.old }
        ensures { IsStepBy event.now (Closes lock) self.old self.new }
    {
        let thread = event.thread;
        take_closed(
            &mut self.rows,
            &mut self.queues,
            thread,
            lock,
            &mut self.work,
        );
        self.hb.advance(event, &mut self.work);
        self.rows.give_lock(thread, lock);
        let clock = self.hb.hb(thread);
        self.queues.leave(thread, lock, clock);
        self.sums.close(thread, lock, self.queues.count(lock));
        self.held.remove(thread, lock);
    }

    // A fork hands its clocks to the child.
    fn fork(&mut self, event: &Event, child: ThreadId)
        requires { IsDue event.now (Forks child) self.old }
        ensures { IsStepBy event.now (Forks child) self.old self.new }
    {
        let thread = event.thread;
        self.hb.advance(event, &mut self.work);
        self.rows.give_thread(thread, child);
    }

    // A join of a thread: its clocks take those of the thread that it names.
    fn join(&mut self, event: &Event, child: ThreadId)
        requires { IsDue event.now (Joins child) self.old }
        ensures { IsStepBy event.now (Joins child) self.old self.new }
    {
        let thread = event.thread;
        self.rows.take_thread(thread, child, &mut self.work);
        self.hb.advance(event, &mut self.work);
    }

    // An inner acquire or release is its thread's next event, and nothing else.
    fn count_inner(&mut self, event: &Event)
        requires { IsDue event.now Inner self.old }
        ensures { IsStepBy event.now Inner self.old self.new }
    {
        self.hb.advance(event, &mut self.work);
    }
}

// The thread's strict clock takes the release clock of the latest section on the lock whose acquire it
// counts, if there is one.
fn take_closed(
    rows: &mut StrictRows,
    queues: &mut Queues,
    thread: ThreadId,
    lock: LockId,
    work: &mut Work,
)
    requires room { HasThread rows.old thread.0 }
    requires entered { 0 < opened_of queues.old thread.0 lock.0 }
    requires wide { queues.old.limits.threads ≡ rows.old.width }
    requires before { found_of queues.old lock.0 thread.0
        ≤ number_counted ((strict_of rows.old).thread thread.0) (closed_of queues.old lock.0) }
    requires earlier { CoversEarlier ((strict_of rows.old).thread thread.0) (closed_of queues.old lock.0) }
    requires few { work.old.comparisons + length (closed_of queues.old lock.0) < 2 ^ 63 }
    requires few_joins { work.old.joins < 2 ^ 62 }
    ensures threads { (strict_of rows.new).thread ≡ with_row thread.0
        (join ((strict_of rows.old).thread thread.0)
        (below_closed ((strict_of rows.old).thread thread.0) (closed_of queues.old lock.0)))
        (strict_of rows.old).thread }
    ensures locks { (strict_of rows.new).lock ≡ (strict_of rows.old).lock }
    ensures kept { SameRoom rows.old rows.new }
    ensures found { FindsCounted queues.old queues.new thread.0 lock.0
        (number_counted ((strict_of rows.old).thread thread.0) (closed_of queues.old lock.0)) }
    ensures memory { SameMemory queues.old queues.new }
    ensures joins { work.new.joins ≤ work.old.joins + 1 }
    ensures joins_exact { work.new.joins ≡ work.old.joins
        + joins_latest
        (latest_counted ((strict_of rows.old).thread thread.0) (closed_of queues.old lock.0)) }
    ensures comparisons { work.new.comparisons + found_of queues.old lock.0 thread.0
        ≤ work.old.comparisons
        + number_counted ((strict_of rows.old).thread thread.0) (closed_of queues.old lock.0) + 1 }
    ensures no_fewer { work.old.comparisons
        + number_counted ((strict_of rows.old).thread thread.0) (closed_of queues.old lock.0)
        ≤ work.new.comparisons + found_of queues.old lock.0 thread.0 }
{
    let latest = queues.last_below(thread, lock, rows.strict(thread), work);
    if let Some(release) = latest {
        rows.take_release(thread, &release, work);
    }
}
