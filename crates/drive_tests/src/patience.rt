//! How often an acquire and a join are tried.
ghost use Rattle.std.specs.Prelude.{◌≡◌};

use crate::scripts::{EVENTS, PATIENCE, expect_answer, limits, run};
use event_core::{LockId, SiteId, ThreadId};
use live_monitor::{Tries, Unnamed, start};
use log_pass::Name;
use pass_channel::{Terms, TryRecvError, pass_channel};
use script_drive::Gate;
use std::alloc::Global;
use std::marker::Brand;
use std::process::Abort;
use std::sync::Wait;
use std::sync::atomic::{AtomicBool, Ordering};
use std::test::*;
use std::thread;
use std::thread::Threads;
use test_doubles::rows;

/// For how many yields a line is kept back at first, and how often these are doubled.
const YIELDS: u32 = 256;

const ROUNDS: u32 = 16;

/// Waits until the other thread has begun, and then so many yields.
fn wait_for(begun: &AtomicBool, yields: u32) {
    for _ in 0..PATIENCE {
        if begun.load(Ordering::SeqCst) {
            break;
        }
        thread::yield_now();
    }
    for _ in 0..yields {
        thread::yield_now();
    }
}

/// Keeps line `later` back until line `first` was asked for, and then for so many yields. It does so during
/// one call, so that it takes no patience.
#[derive(Drop)]
struct After {
    first: u64,
    later: u64,
    yields: u32,
    asked: AtomicBool,
}

impl Gate for After {
    fn enter(&self, _thread: ThreadId, line: u64) -> bool {
        if line == self.first {
            self.asked.store(true, Ordering::SeqCst);
        }
        if line == self.later {
            wait_for(&self.asked, self.yields);
        }
        true
    }

    fn done(&self, _thread: ThreadId, _line: u64) {}
}

impl After {
    fn of(first: u64, later: u64, yields: u32) -> After {
        After {
            first,
            later,
            yields,
            asked: AtomicBool::new(false),
        }
    }
}

/// A script, the line that waits, the line that it waits for, and what is answered where it is tried once,
/// too early, and where it is tried on.
const WAITING: &[(&str, u64, u64, &str, &str)] = rows! {
    // an acquire of a lock that another thread releases later
    "m acq l\nm fork a\na acq l\nm rel l\nm join a\n", 3, 4, "Stuck { thread: ThreadId(1), line: 3 }",
        "5 events, 0 races\nT0 Acquire(LockId(0)) at 0: 0\nT0 Fork(ThreadId(1)) at 1: 0\n\
        T0 Release(LockId(0)) at 3: 0\nT1 Acquire(LockId(0)) at 2: 0\nT0 Join(ThreadId(1)) at 4: 0";
    // a join of a thread that ends later
    "m fork a\na r x\nm join a\n", 3, 2, "Stuck { thread: ThreadId(0), line: 3 }",
        "3 events, 0 races\nT0 Fork(ThreadId(1)) at 0: 0\nT1 Load(VarId(0)) at 1: 0\n\
        T0 Join(ThreadId(1)) at 2: 0";
};

/// The line is tried once, and is stuck where it is tried too early. Where it was not, the other line is kept
/// back longer. For how many yields it then was.
fn yields_until_stuck<R: Threads + Wait + Abort + Sync>(
    rt: &R,
    alloc: Global,
    (text, line, other, stuck): (&'static str, u64, u64, &'static str),
) -> u32 {
    let case = (text, EVENTS, 1, stuck);
    let mut yields = YIELDS;
    for _ in 0..ROUNDS {
        if run(rt, alloc, &After::of(line, other, yields), case).text() == stuck {
            return yields;
        }
        yields = yields.saturating_mul(2);
    }
    expect_answer(rt, alloc, &After::of(line, other, yields), case);
    yields
}

#[test]
fn an_acquire_and_a_join_are_tried_again_as_long_as_patience_allows(rt: HostRuntime) {
    for (text, line, other, stuck, answer) in WAITING {
        let yields = yields_until_stuck(&rt, rt.alloc(), (*text, *line, *other, *stuck));
        let gate = After::of(*line, *other, yields);
        expect_answer(&rt, rt.alloc(), &gate, (*text, EVENTS, PATIENCE, *answer));
    }
}

const LOCK: LockId = LockId(0);

const SITE: SiteId = SiteId(7);

/// The main thread releases a lock so many yields after its child began to acquire it. How often the child
/// tried until it had the lock.
fn tries_made<N: Name + Send + Sync, R: Threads + Wait + Sync>(
    rt: &R,
    unnamed: Unnamed,
    yields: u32,
) -> Option<u32>
    requires table { unnamed.table ≡ N.table }
    requires limits { unnamed.limits ≡ N.limits }
{
    let (shared, main) = start::<N>(unnamed);
    let (main, _) = shared.acquire(rt, main, LOCK, SITE);
    let (main, forked) = shared.fork(rt, main, ThreadId(1), SITE);
    let (child, _) = forked.ok()?;
    let begun = AtomicBool::new(false);
    let (made, _) = thread::join(
        rt,
        || {
            let mut tries = Tries::of(PATIENCE);
            begun.store(true, Ordering::SeqCst);
            let (_, answer) = shared.acquire_within(rt, child, LOCK, SITE, &mut tries);
            answer.ok().map(|_| tries.made())
        },
        || {
            wait_for(&begun, yields);
            shared.release(rt, main, LOCK, SITE)
        },
    );
    made
}

/// The same over a new monitor.
fn tries_after<R: Threads + Wait + Abort + Sync>(rt: &R, alloc: Global, yields: u32) -> u32 {
    let unnamed = Unnamed::new(alloc, limits(rt, EVENTS)).expect(rt, "a monitor");
    tries_made::<Brand, R>(rt, unnamed, yields).expect(rt, "the lock is acquired")
}

#[test]
fn an_acquire_that_met_the_holder_has_the_lock_in_the_end(rt: HostRuntime) {
    let mut yields = YIELDS;
    for _ in 0..ROUNDS {
        if tries_after(&rt, rt.alloc(), yields) > 1 {
            return;
        }
        yields = yields.saturating_mul(2);
    }
    panic!(&rt; "after {yields} yields no try of the acquire had met the holder");
}

/// Each pass may go to each thread.
struct Any;

impl Terms for Any {
    ghost use Rattle.std.specs.Prelude.{⊤};

    ghost good = { λ _ _. ⊤ };
}

#[test]
fn a_look_tells_whether_the_other_end_was_let_go(rt: HostRuntime) -> Result<(), Fail> {
    let (sender, mut receiver) = pass_channel::<Brand, Any>(rt.alloc(), ThreadId(1))?;
    for _ in 0..3 {
        assert!(&rt; matches!(receiver.look(&rt), Err(TryRecvError::Empty)));
    }
    drop(sender);
    assert!(&rt; matches!(receiver.look(&rt), Err(TryRecvError::Disconnected)));
    Ok(())
}
