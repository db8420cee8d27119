//! The clocks of worked logs.
ghost use Rattle.std.specs.Prelude.{◌≡◌, ℕ, ◌<◌, ◌≤◌, ◌↔◌, length, IsTrue};
ghost use Rattle.hb_clocks.specs.Counts.{counts_of};
ghost use Rattle.hb_clocks.specs.Released.{before_of};
ghost use Rattle.hb_clocks.specs.Standing.{IsAtMost};
ghost use Rattle.hb_clocks.specs.Tables.{state_of, IsWithin};

use crate::cases::Row;
use crate::expected::expect;
use event_core::{Event, Limits, Op, Roots, ThreadId};
use hb_clocks::{Clock, HbClocks, JoinedClocks, Mark, ReleaseClock, Work};
use std::alloc::Global;
use std::process::Abort;
use test_logs::{T0, T1, T2, call};

/// The clocks of three threads after some events, and one beside them.
#[derive(Drop)]
pub struct Run {
    alloc: Global,
    pub clocks: HbClocks,
    beside: Clock,
    marked: Option<Mark>,
    events: u64,
    ghost width: { clocks.width ≡ 3 },
    ghost beside_width: { length beside ≡ 3 },
    ghost few: { IsAtMost events (state_of clocks) },
    ghost short: { events ≤ 100 },
}

pub fn event(thread: ThreadId, op: Op) -> Event
    ensures thread { result.thread ≡ thread }
    ensures op { result.op ≡ op }
{
    call(thread, op, 0).event_with(0)
}

// Whether the threads that the event names are below 3.
fn is_within(event: &Event) -> bool
    ensures { IsTrue result ↔ IsWithin 3 event.now.thread event.now.op }
{
    event.thread.0 < 3
        && match event.op {
            Op::Fork(child) | Op::Join(child) => child.0 < 3,
            _ => true,
        }
}

// The case and the row that is looked at.
pub type Place = (&'static str, usize);

fn expect_numbers(rt: &impl Abort, place: Place, clock: &Clock, wanted: &[u64; 3])
    requires { length clock.now ≡ 3 }
{
    expect(
        rt,
        &place,
        [clock.at(T0), clock.at(T1), clock.at(T2)],
        *wanted,
    );
}

// A count for one call, which has no work yet.
pub fn no_work(rt: &impl Abort, alloc: Global) -> Work
    ensures { result ≡ record { comparisons = 0; joins = 0 } }
{
    let limits = Limits::new(1, 1, 1, 1, Roots::Free).expect(rt, "small limits");
    let (_clocks, work, _releases) = HbClocks::new(alloc, limits).expect(rt, "memory");
    work
}

// The numbers of the clock of a release, which a clock of zeros has once it joined them.
pub fn numbers_of(rt: &impl Abort, alloc: Global, release: &ReleaseClock) -> [u64; 3]
    requires { length (before_of release.now) ≤ 3 }
{
    let mut clock = Clock::new(alloc, 3).expect(rt, "memory");
    let mut work = no_work(rt, alloc);
    clock.join_release(release, &mut work);
    [clock.at(T0), clock.at(T1), clock.at(T2)]
}

impl Run {
    pub fn new(rt: &impl Abort, alloc: Global) -> Run {
        let limits = Limits::new(3, 2, 2, 64, Roots::Free).expect(rt, "small limits");
        let (clocks, _work, _releases) = HbClocks::new(alloc, limits).expect(rt, "memory");
        Run {
            alloc,
            clocks,
            beside: Clock::new(alloc, 3).expect(rt, "memory"),
            marked: None,
            events: 0,
        }
    }

    // Makes room for the event, and takes it.
    pub fn take(&mut self, rt: &impl Abort, event: &Event) {
        let mut work = no_work(rt, self.alloc);
        assert!(rt; self.events < 100);
        assert!(rt; is_within(event));
        assert!(rt; self.clocks.prepare(event).is_ok(), "memory");
        assert!(rt; self.clocks.ready(event));
        assert!(rt; self.clocks.admits(event.thread, event.op));
        self.clocks.advance(event, &mut work);
        self.events += 1;
    }

    // The mark of the thread's latest event.
    pub fn latest(&self, rt: &impl Abort, thread: ThreadId) -> Mark
        ensures own { result.thread ≡ thread.0 }
        ensures marked { 0 < result.position }
    {
        assert!(rt; thread.0 < 3);
        assert!(rt; 0 < self.clocks.hb(thread).at(thread));
        self.clocks.mark(thread)
    }

    // The clock of happens-before of a thread that has events.
    pub fn happened(&self, rt: &impl Abort, thread: ThreadId) -> &Clock
        ensures width { length result.now ≡ 3 }
        ensures counted { 0 < counts_of result.now thread.0 }
        ensures counts { (u : ℕ) → counts_of result.now u ≤ 100 }
    {
        assert!(rt; thread.0 < 3);
        let clock = self.clocks.hb(thread);
        assert!(rt; 0 < clock.at(thread));
        clock
    }

    fn expect_counts(&self, rt: &impl Abort, place: Place, thread: ThreadId, wanted: &[bool; 2]) {
        let mark = self.marked.expect(rt, "a mark is kept");
        assert!(rt; mark.thread().0 < 3);
        let mut work = no_work(rt, self.alloc);
        let by_po = mark.counted(self.clocks.po(thread), &mut work);
        let by_hb = mark.counted(self.clocks.hb(thread), &mut work);
        expect(rt, &place, [by_po, by_hb], *wanted);
    }

    fn join(&mut self, rt: &impl Abort, thread: ThreadId) {
        let mut work = no_work(rt, self.alloc);
        self.beside.join(self.clocks.hb(thread), &mut work);
    }

    // The clock beside the others takes the greater numbers of the release.
    pub fn join_release(&mut self, rt: &impl Abort, release: &ReleaseClock)
        requires { length (before_of release.now) ≤ 3 }
    {
        let mut work = no_work(rt, self.alloc);
        self.beside.join_release(release, &mut work);
    }

    // The numbers of both threads' clocks of program order, read as one.
    fn joined(&self, first: ThreadId, second: ThreadId) -> [u64; 3] {
        let joined = JoinedClocks::new(self.clocks.po(first), self.clocks.po(second));
        [joined.at(T0), joined.at(T1), joined.at(T2)]
    }

    // Does what the row says of clocks.
    pub fn follow(&mut self, rt: &impl Abort, place: Place, row: &Row) {
        match row {
            Row::Po(thread, wanted) => expect_numbers(rt, place, self.clocks.po(*thread), wanted),
            Row::Hb(thread, wanted) => expect_numbers(rt, place, self.clocks.hb(*thread), wanted),
            Row::Depth(thread, lock, wanted) => {
                expect(rt, &place, self.clocks.depth(*thread, *lock), *wanted);
            }
            Row::Admits(thread, op, wanted) => {
                expect(rt, &place, self.clocks.admits(*thread, *op), *wanted);
            }
            Row::Mark(thread) => self.marked = Some(self.latest(rt, *thread)),
            Row::Counts(thread, wanted) => self.expect_counts(rt, place, *thread, wanted),
            Row::Copy(thread) => self.beside.copy_from(self.clocks.po(*thread)),
            Row::Join(thread) => self.join(rt, *thread),
            Row::Clock(wanted) => expect_numbers(rt, place, &self.beside, wanted),
            Row::Joined(first, second, wanted) => {
                expect(rt, &place, self.joined(*first, *second), *wanted);
            }
            _ => {}
        }
    }
}
