//! The example at the head of live_monitor.
ghost use Rattle.std.specs.Prelude.{◌≡◌};

use crate::calls::expect;
use event_core::{Limits, Refusal, Roots, SiteId, ThreadId, VarId};
use live_monitor::{Closed, Unnamed, start};
use log_pass::Name;
use seq_monitor::Race;
use std::alloc::Global;
use std::marker::Brand;
use std::process::Abort;
use std::sync::Wait;
use std::thread::{Threads, join};

/// Thread 0 forks thread 1, both store to one variable at once, and thread 0 joins thread 1.
fn two_stores<N: Name + Send + Sync, R: Threads + Wait + Sync>(
    rt: &R,
    unnamed: Unnamed,
) -> Result<Closed, Refusal>
    requires table { unnamed.table ≡ N.table }
    requires limits { unnamed.limits ≡ N.limits }
{
    let (shared, main) = start::<N>(unnamed);
    let (main, forked) = shared.fork(rt, main, ThreadId(1), SiteId(1));
    let (child, _) = forked?;
    let ((child, by_child), (main, by_main)) = join(
        rt,
        || shared.store(rt, child, VarId(0), 7, SiteId(2)),
        || shared.store(rt, main, VarId(0), 5, SiteId(3)),
    );
    by_child?;
    by_main?;
    let (main, joined) = shared.join(rt, main, child, SiteId(4));
    joined.map_err(|(refusal, _)| refusal)?;
    Ok(shared.close(main))
}

fn run<R: Threads + Wait + Abort + Sync>(rt: &R, alloc: Global) -> Result<Closed, Refusal> {
    let limits = Limits::new(2, 1, 1, 16, Roots::OnlyMain).expect(rt, "limits");
    let unnamed = Unnamed::new(alloc, limits).map_err(|_| Refusal::OutOfMemory)?;
    two_stores::<Brand, _>(rt, unnamed)
}

#[test]
fn of_two_stores_at_once_the_later_races(rt: HostRuntime) {
    let closed = run(&rt, rt.alloc()).expect(&rt, "a log");
    expect(&rt, "events of the example", closed.len(), 4);
    let races = closed.verdicts().races();
    expect(
        &rt,
        "races of the example",
        races,
        &[Race { event: 2, with: 1 }],
    );
    drop(closed);
}
