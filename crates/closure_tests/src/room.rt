//! Calls after memory was refused.
use crate::expected::expect;
use crate::told::step;
use event_core::{Done, Limits, Op, Refusal, Reply, Roots, Verdict};
use seq_monitor::Monitor;
use std::process::Abort;
use std::test::Fail;
use test_logs::{NESTED_SECTIONS, call_at, count_lines};

// The call at the index is accepted. Where there is no room, it may be refused, but not for memory.
fn expect_made(rt: &impl Abort, done: Done, index: usize, is_short: bool) {
    if !is_short || done == Done::Refused(Refusal::OutOfMemory) {
        let wanted = Reply {
            index: index as u64,
            value: 0,
            verdict: Verdict::Clear,
        };
        expect(rt, &("answer", index), done, Done::One(wanted));
    }
}

// Makes room for each call but a release, and then the call at the first try. Once there is no room, releases
// alone are made. They need none.
fn make(rt: &impl Abort, monitor: &mut Monitor) {
    let mut is_short = false;
    for index in 0..count_lines(NESTED_SECTIONS) {
        let call = call_at(NESTED_SECTIONS, index).expect(rt, "a call");
        let is_release = matches!(call.op, Op::Release(_));
        is_short = is_short || !is_release && monitor.prepare(&call).is_err();
        if is_release || !is_short {
            expect_made(rt, step(monitor, call), index, is_short);
        }
    }
}

/// Where every growth is refused from just before a release on, that release is accepted at its index.
#[test]
fn no_release_is_refused_where_memory_is_refused(rt: HostRuntime) -> Result<(), Fail> {
    let limits = Limits::new(2, 2, 2, 64, Roots::OnlyMain)?;
    let mut monitor = Monitor::new(rt.alloc(), limits)?;
    make(&rt, &mut monitor);
    drop(monitor);
    Ok(())
}
