//! The calls that the tests make by a thread's handle. Where `asks_again` holds, a call that is out of memory
//! is made once more. The answers are then those of ample memory where one growth is refused.
use event_core::{Limits, LockId, Refusal, Reply, SiteId, ThreadId, VarId};
use live_monitor::{StartFault, Unnamed};
use log_pass::Name;
use std::alloc::Global;
use std::fmt::{Debug, Display};
use std::process::Abort;
use std::sync::Wait;
use traced_thread::{NotJoined, TracedThread};

/// Ends the test unless what came is what was expected, and prints both after what was asked.
pub fn expect<T: Copy + PartialEq + Debug>(
    rt: &impl Abort,
    asked: impl Display + Drop,
    came: T,
    expected: T,
) {
    assert!(rt;
        came == expected,
        "{asked}: expected {expected:?}, came {came:?}"
    );
}

/// Where the calls stand that have no site of their own.
pub const SITE: SiteId = SiteId(7);

/// Which of two threads asks.
#[derive(Clone, Copy)]
pub enum By {
    Main,
    Child,
}

/// What a thread asks for, except swaps, forks and joins.
#[derive(Clone, Copy, Debug)]
pub enum Ask {
    Load(u32),
    Store(u32, u64),
    Acquire(u32),
    Release(u32),
}

pub type Answer = Result<Reply, Refusal>;

/// A monitor with these limits.
pub fn begin<R: Abort>(rt: &R, alloc: Global, limits: Limits, asks_again: bool) -> Unnamed {
    let made = match Unnamed::new(alloc, limits) {
        Err(StartFault::NoRoom) if asks_again => Unnamed::new(alloc, limits),
        made => made,
    };
    made.expect(rt, "a monitor")
}

/// Asks once, at the site.
pub fn make<N: Name, R: Wait>(
    rt: &R,
    thread: &mut TracedThread<N>,
    ask: Ask,
    site: SiteId,
) -> Answer {
    match ask {
        Ask::Load(var) => thread.load(rt, VarId(var), site),
        Ask::Store(var, value) => thread.store(rt, VarId(var), value, site),
        Ask::Acquire(lock) => thread.acquire(rt, LockId(lock), site),
        Ask::Release(lock) => thread.release(rt, LockId(lock), site),
    }
}

/// Forks the child, which is to be accepted.
pub fn fork<'m, N: Name, R: Wait + Abort>(
    rt: &R,
    main: &mut TracedThread<'m, N>,
    child: ThreadId,
    asks_again: bool,
) -> (TracedThread<'m, N>, Reply) {
    let forked = match main.fork(rt, child, SITE) {
        Err(Refusal::OutOfMemory) if asks_again => main.fork(rt, child, SITE),
        forked => forked,
    };
    forked.expect(rt, "a fork")
}

/// Joins the child, which is to be accepted.
pub fn join<'m, N: Name, R: Wait + Abort>(
    rt: &R,
    main: &mut TracedThread<'m, N>,
    child: TracedThread<'m, N>,
    asks_again: bool,
) -> Reply {
    let joined = match main.join(rt, child, SITE) {
        Err(
            NotJoined {
                refusal: Refusal::OutOfMemory,
                child,
            },
        ) if asks_again => main.join(rt, child, SITE),
        joined => joined,
    };
    joined.expect(rt, "a join")
}
