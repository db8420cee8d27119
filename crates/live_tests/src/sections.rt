//! Sections of a thread's handle.
use crate::calls::{begin, expect, fork};
use crate::plays::{Play, closed_after};
use event_core::{Event, Limits, LockId, Op, Refusal, Roots, SiteId, ThreadId, VarId};
use live_monitor::Tries;
use log_pass::Name;
use std::process::Abort;
use std::sync::Wait;
use traced_thread::TracedThread;

const OUTER: SiteId = SiteId(3);

const INNER: SiteId = SiteId(4);

/// Begins a section within another, and loads a variable that is not there, which leaves both.
fn leave_both<N: Name, R: Wait>(rt: &R, child: &mut TracedThread<N>) -> Result<(), Refusal> {
    let mut outer = child.lock(rt, LockId(0), OUTER)?;
    let mut inner = outer.lock_within(LockId(1), INNER, &mut Tries::of(3))?;
    inner.store(VarId(0), 9, INNER)?;
    inner.load(VarId(1), INNER)?;
    Ok(())
}

/// The release of the lock by thread 1.
fn release(lock: u32, site: SiteId) -> Option<Event> {
    Some(Event {
        thread: ThreadId(1),
        op: Op::Release(LockId(lock)),
        site,
        value: 0,
    })
}

/// Thread 1 leaves both sections. Then the releases stand in the log, the inner one first, each at the site
/// of its acquire, and thread 0 has the lock at once.
struct Left;

impl<R: Wait + Abort> Play<R> for Left {
    fn play<N: Name>(&self, rt: &R, main: &mut TracedThread<N>) {
        let (mut child, _) = fork(rt, main, ThreadId(1), false);
        let left = leave_both(rt, &mut child);
        expect(rt, "a section that fails", left, Err(Refusal::TargetRange));
        expect(rt, "event 4", main.event_at(rt, 4), release(1, INNER));
        expect(rt, "event 5", main.event_at(rt, 5), release(0, OUTER));
        let acquired = main.acquire(rt, LockId(0), OUTER);
        let index = acquired.map(|reply| reply.index);
        expect(rt, "the acquire after it", index, Ok(6));
    }
}

#[test]
fn a_section_that_an_error_leaves_releases_its_lock(rt: HostRuntime) {
    let limits = Limits::new(2, 2, 1, 16, Roots::OnlyMain).expect(&rt, "limits");
    let unnamed = begin(&rt, rt.alloc(), limits, false);
    drop(closed_after(&rt, unnamed, &Left));
}
