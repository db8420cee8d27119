//! Calls of two threads after memory was refused.
use crate::calls::{Answer, Ask, By, SITE, expect, make};
use crate::plays::{Play, closed_after};
use Ask::{Acquire, Load, Release, Store};
use By::{Child, Main};
use event_core::{Limits, Refusal, Reply, Roots, ThreadId, Verdict};
use live_monitor::{StartFault, Unnamed};
use log_pass::Name;
use std::process::Abort;
use std::sync::Wait;
use traced_thread::TracedThread;

/// Nested sections, after the fork of the child.
const LINES: &[(By, Ask)] = &[
    (Main, Acquire(0)),
    (Main, Acquire(1)),
    (Main, Store(0, 0)),
    (Main, Release(1)),
    (Main, Store(1, 0)),
    (Main, Release(0)),
    (Child, Acquire(1)),
    (Child, Load(0)),
    (Child, Release(1)),
    (Child, Acquire(0)),
    (Child, Release(0)),
    (Child, Load(1)),
];

/// Whether memory is short after the answer. Until then a call is accepted at its index, and a release is
/// never refused for memory.
fn is_short_after(
    rt: &impl Abort,
    was_short: bool,
    index: u64,
    is_release: bool,
    answer: Answer,
) -> bool {
    let is_short = answer == Err(Refusal::OutOfMemory);
    let may_come = if is_short { !is_release } else { was_short };
    if !may_come {
        let accepted = Reply {
            index,
            value: 0,
            verdict: Verdict::Clear,
        };
        expect(rt, format_args!("event {index}"), answer, Ok(accepted));
    }
    was_short || is_short
}

/// The one or the other asks.
fn answer_to<N: Name, R: Wait>(
    rt: &R,
    main: &mut TracedThread<'_, N>,
    child: &mut TracedThread<'_, N>,
    by: By,
    ask: Ask,
) -> Answer {
    match by {
        Main => make(rt, main, ask, SITE),
        Child => make(rt, child, ask, SITE),
    }
}

/// Makes the calls of both threads. Once one is refused for memory, releases alone are made.
fn make_lines<N: Name, R: Wait + Abort>(
    rt: &R,
    main: &mut TracedThread<'_, N>,
    child: &mut TracedThread<'_, N>,
) {
    let mut is_short = false;
    for (index, (by, ask)) in (1..).zip(LINES) {
        let is_release = matches!(ask, Release(_));
        if is_release || !is_short {
            let answer = answer_to(rt, main, child, *by, *ask);
            is_short = is_short_after(rt, is_short, index, is_release, answer);
        }
    }
}

/// Where there is memory for the fork, both threads make their calls.
struct Calls;

impl<R: Wait + Abort> Play<R> for Calls {
    fn play<N: Name>(&self, rt: &R, main: &mut TracedThread<N>) {
        match main.fork(rt, ThreadId(1), SITE) {
            Ok((mut child, _)) => make_lines(rt, main, &mut child),
            Err(refusal) => expect(rt, "a fork", refusal, Refusal::OutOfMemory),
        }
    }
}

/// Where every growth is refused from just before a release on, that release is accepted at its index.
#[test]
fn no_release_is_refused_where_memory_is_refused(rt: HostRuntime) {
    let limits = Limits::new(2, 2, 2, 64, Roots::OnlyMain).expect(&rt, "limits");
    match Unnamed::new(rt.alloc(), limits) {
        Ok(unnamed) => drop(closed_after(&rt, unnamed, &Calls)),
        Err(fault) => expect(&rt, "a monitor", fault, StartFault::NoRoom),
    }
}
