//! Reports of closed logs.
use crate::calls::{By, expect};
use crate::plays::{Play, closed_after};
use crate::report_cases::{A, Act, Case, Form, Line, Logged, cases};
use closed_report::{
    NameLists, Names, PlaceRaces, ReportFault, Summary, names_of, races_by_place, report_closed,
    report_places,
};
use event_core::{Limits, Roots, SiteId, ThreadId, VarId};
use live_monitor::{Closed, Unnamed};
use log_pass::Name;
use std::alloc::Global;
use std::process::Abort;
use std::sync::Wait;
use test_doubles::{Page, Room};
use traced_thread::TracedThread;

/// Makes the call. One that is refused has no event.
fn make_call<N: Name, R: Wait>(
    rt: &R,
    thread: &mut TracedThread<N>,
    act: Act,
    var: VarId,
    site: SiteId,
) {
    match act {
        Act::Load => {
            let _ = thread.load(rt, var, site);
        }
        Act::Store => {
            let _ = thread.store(rt, var, 1, site);
        }
        Act::Swap => {
            let _ = thread.swap(rt, var, 1, site);
        }
    }
}

/// Two threads make the calls, and neither waits for the other.
fn make_lines<N: Name, R: Wait>(rt: &R, main: &mut TracedThread<N>, lines: &[Line]) {
    let Ok((mut child, _)) = main.fork(rt, ThreadId(1), A) else {
        return;
    };
    for (by, act, var, site) in lines {
        match by {
            By::Main => make_call(rt, main, *act, *var, *site),
            By::Child => make_call(rt, &mut child, *act, *var, *site),
        }
    }
    drop(main.join(rt, child, A));
}

impl<R: Wait + Abort> Play<R> for Logged {
    fn play<N: Name>(&self, rt: &R, main: &mut TracedThread<N>) {
        if !self.lines.is_empty() {
            make_lines(rt, main, self.lines);
        }
    }
}

/// The log is reported by its places, which are as expected; none where memory ran out.
fn report_by_place<R: Abort>(
    rt: &R,
    alloc: Global,
    expected: &'static [PlaceRaces],
    closed: &Closed,
    names: &Names,
    page: &mut Page,
) -> Option<Result<Summary, ReportFault>> {
    let places = races_by_place(alloc, closed).ok()?;
    expect(rt, "places", places.as_slice(), expected);
    let answer = report_places(page, closed, &places, names);
    drop(places);
    Some(answer)
}

/// What is answered where the log is reported as the case says; none where memory ran out.
fn report<R: Abort>(
    rt: &R,
    alloc: Global,
    limits: Limits,
    (form, lists): (Form, &NameLists<'static>),
    closed: &Closed,
    page: &mut Page,
) -> Option<Result<Summary, ReportFault>> {
    let names = names_of(alloc, limits, lists).ok()?;
    let answer = match form {
        Form::ByEvent => Some(report_closed(page, closed, &names)),
        Form::ByPlace(places) => report_by_place(rt, alloc, places, closed, &names, page),
    };
    drop(names);
    answer
}
/// What is answered of the log of the case; none where memory ran out.
fn reported<R: Wait + Abort>(
    rt: &R,
    alloc: Global,
    (log, form, lists): (&'static Logged, Form, &NameLists<'static>),
    page: &mut Page,
) -> Option<Result<Summary, ReportFault>> {
    let limits = Limits::new(2, 1, log.variables, 16, Roots::OnlyMain).ok()?;
    let unnamed = Unnamed::new(alloc, limits).ok()?;
    let closed = closed_after(rt, unnamed, log);
    let answer = if closed.len() == log.events {
        report(rt, alloc, limits, (form, lists), &closed, page)
    } else {
        None
    };
    drop(closed);
    answer
}

/// The log is reported so, or memory ran out where it may be refused.
fn expect_report<R: Wait + AllocGlobal + Abort>(rt: &R, case: &Case, may_be_refused: bool) {
    let (name, log, form, lists, has_room, wanted, written) = case;
    let mut page = Page::blank(if *has_room {
        Room::AMPLE
    } else {
        Room::of(1, 0)
    });
    let answer = reported(rt, rt.alloc(), (log, *form, lists), &mut page);
    if answer.is_none() && may_be_refused {
        return;
    }
    let came = answer.map(|answer| answer.map(|summary| summary.races));
    expect(rt, *name, came, Some(*wanted));
    expect(rt, *name, page.text(), *written);
}

#[test]
fn a_closed_log_is_reported_with_the_names_of_its_numbers(rt: HostRuntime) {
    for case in cases() {
        expect_report(&rt, case, false);
    }
}

#[test]
fn a_closed_log_is_reported_where_memory_is_refused(rt: HostRuntime) {
    for case in cases() {
        expect_report(&rt, case, true);
    }
}
