//! Closed sections: what no clause says, that there can be memory, and that the conditions can be met.
//!
//! On each lock at most one section is closed, and at most one release asks for it.
ghost use Rattle.std.specs.Prelude.{◌≡◌, ℕ, ◌<◌, ◌≤◌, length};
ghost use Rattle.hb_clocks.specs.Counts.{counts_of};
ghost use Rattle.lock_queues.specs.Queues.{closed_of, found_of, SameMeaning};

use crate::cases::{Case, Row, cases};
use crate::clocks::{Place, Run, no_work, numbers_of};
use crate::expected::expect;
use event_core::{Event, Limits, LockId, Roots, ThreadId};
use hb_clocks::{Clock, HbClocks, Mark, Work};
use lock_queues::Queues;
use std::alloc::Global;
use std::process::Abort;
use test_logs::{L, T0, T1, call_at};

/// The sections of three threads on two locks, and the clocks of those threads.
#[derive(Drop)]
struct Sections {
    alloc: Global,
    queues: Queues,
    run: Run,
    ghost threads: { queues.limits.threads ≡ 3 },
    ghost locks: { queues.limits.locks ≡ 2 },
    ghost few: { (l : ℕ) → length (closed_of queues l) ≤ 1 },
    ghost found: { found_of queues ≡ (λ _ _. 0) },
}

fn expect_none(rt: &impl Abort, queues: &Queues, lock: LockId)
    requires { length (closed_of queues.now lock.0) ≤ 1 }
    ensures { length (closed_of queues.now lock.0) ≡ 0 }
{
    assert!(rt; queues.count(lock) == 0);
}

// The thread has the first section on the lock, which is closed with the clock.
fn close_first(
    rt: &impl Abort,
    queues: &mut Queues,
    thread: ThreadId,
    lock: LockId,
    mark: Mark,
    clock: &Clock,
)
    requires own { mark.thread ≡ thread.0 }
    requires marked { 0 < mark.position }
    requires width { length clock.now ≡ queues.old.limits.threads }
    requires counted { 0 < counts_of clock.now thread.0 }
    requires counts { (u : ℕ) → counts_of clock.now u ≤ 100 }
    requires few { (l : ℕ) → length (closed_of queues.old l) ≤ 1 }
    ensures few { (l : ℕ) → length (closed_of queues.new l) ≤ 1 }
    ensures found { found_of queues.new ≡ found_of queues.old }
    ensures limits { queues.new.limits ≡ queues.old.limits }
{
    assert!(rt; queues.ready(thread, lock));
    expect_none(rt, queues, lock);
    queues.enter(thread, lock, mark);
    queues.leave(thread, lock, clock);
}

// What a release of the thread finds by the clock, which ends its section from the mark on: a thread and the
// numbers of its release.
fn find(
    rt: &impl Abort,
    alloc: Global,
    queues: &mut Queues,
    thread: ThreadId,
    lock: LockId,
    mark: Mark,
    clock: &Clock,
    work: &mut Work,
) -> Option<(ThreadId, [u64; 3])>
    requires own { mark.thread ≡ thread.0 }
    requires marked { 0 < mark.position }
    requires width { length clock.now ≡ queues.old.limits.threads }
    requires threads { queues.old.limits.threads ≡ 3 }
    requires few { length (closed_of queues.old lock.0) ≤ 1 }
    requires found { found_of queues.old ≡ (λ _ _. 0) }
    requires work { work.old.comparisons ≡ 0 }
{
    assert!(rt; queues.ready(thread, lock));
    queues.enter(thread, lock, mark);
    let below = queues.last_below(thread, lock, clock, work)?;
    Some((below.by(), numbers_of(rt, alloc, &below)))
}

impl Sections {
    fn new(rt: &impl Abort, alloc: Global) -> Sections {
        let limits = Limits::new(3, 2, 1, 8, Roots::Free).expect(rt, "small limits");
        let (_clocks, _work, releases) = HbClocks::new(alloc, limits).expect(rt, "memory");
        Sections {
            alloc,
            queues: Queues::new(alloc, limits, releases).expect(rt, "no memory is taken"),
            run: Run::new(rt, alloc),
        }
    }

    fn take(&mut self, rt: &impl Abort, event: &Event) {
        self.run.take(rt, event);
    }

    fn make_room(&mut self, rt: &impl Abort, thread: ThreadId, lock: LockId) {
        assert!(rt; self.queues.make_room(thread, lock).is_ok(), "memory");
    }

    fn close(&mut self, rt: &impl Abort, thread: ThreadId, lock: LockId) {
        self.make_room(rt, thread, lock);
        let mark = self.run.latest(rt, thread);
        let clock = self.run.happened(rt, thread);
        close_first(rt, &mut self.queues, thread, lock, mark, clock);
    }

    fn expect_section(
        &self,
        rt: &impl Abort,
        place: Place,
        lock: LockId,
        number: u32,
        wanted: (ThreadId, [u64; 3]),
    ) {
        assert!(rt; 0 < number);
        assert!(rt; number <= self.queues.count(lock));
        let section = self.queues.section(lock, number);
        let found = (section.by(), numbers_of(rt, self.alloc, &section));
        expect(rt, &place, found, wanted);
    }

    fn join_release(&mut self, rt: &impl Abort, lock: LockId, number: u32) {
        assert!(rt; 0 < number);
        assert!(rt; number <= self.queues.count(lock));
        self.run
            .join_release(rt, &self.queues.section(lock, number));
    }

    // What a release of the thread finds on the lock, by the clock of the other thread.
    fn found(
        mut self,
        rt: &impl Abort,
        thread: ThreadId,
        lock: LockId,
        other: ThreadId,
    ) -> Option<(ThreadId, [u64; 3])> {
        self.make_room(rt, thread, lock);
        let Sections {
            alloc,
            mut queues,
            run,
        } = self;
        let mark = run.latest(rt, thread);
        let clock = run.clocks.hb(other);
        let mut work = no_work(rt, alloc);
        find(rt, alloc, &mut queues, thread, lock, mark, clock, &mut work)
    }

    fn follow(&mut self, rt: &impl Abort, place: Place, row: &Row) {
        match row {
            Row::Close(thread, lock) => self.close(rt, *thread, *lock),
            Row::Count(lock, wanted) => expect(rt, &place, self.queues.count(*lock), *wanted),
            Row::Section(lock, number, by, wanted) => {
                self.expect_section(rt, place, *lock, *number, (*by, *wanted));
            }
            Row::JoinRelease(lock, number) => self.join_release(rt, *lock, *number),
            _ => self.run.follow(rt, place, row),
        }
    }
}

fn follow_all(rt: &impl Abort, alloc: Global, case: &Case) -> Sections {
    let (name, text, rows) = *case;
    let mut sections = Sections::new(rt, alloc);
    let mut taken = 0;
    for (at, (events, row)) in rows.iter().enumerate() {
        for index in taken..*events {
            let call = call_at(text, index).expect(rt, name);
            sections.take(rt, &call.event_with(0));
        }
        taken = *events;
        sections.follow(rt, (name, at), row);
    }
    sections
}

#[test]
fn each_log_has_the_numbers_of_its_clocks_and_sections(rt: HostRuntime) {
    for case in cases() {
        drop(follow_all(&rt, rt.alloc(), case));
    }
}

#[test]
fn another_thread_finds_the_section(rt: HostRuntime) {
    let closed: Case = (
        "a closed section",
        "T0|r(x)|1\nT1|r(x)|2\n",
        &[(2, Row::Close(T0, L))],
    );
    let sections = follow_all(&rt, rt.alloc(), &closed);
    assert_eq!(rt; sections.found(&rt, T1, L, T0), Some((T0, [1, 0, 0])));
}
