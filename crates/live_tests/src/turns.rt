//! Turns of two threads, whose handles are in one hand.
use crate::calls::{Answer, Ask, By, SITE, begin, expect, fork, join, make};
use crate::plays::{Play, closed_after};
use crate::turn_cases::cases;
use By::{Child, Main};
use Deed::{Call, Drop, Fork, Join, JoinInVain, Look, Read, Swap, Try};
use event_core::{Limits, LockId, Refusal, Roots, ThreadId, VarId, Verdict};
use live_monitor::{Closed, StartFault, Tries, Unnamed};
use log_pass::Name;
use std::alloc::Global;
use std::fmt::InlineText;
use std::process::Abort;
use std::sync::Wait;
use test_doubles::{Page, Room, event_text};
use traced_thread::TracedThread;

/// What a thread does.
#[derive(Clone, Copy)]
pub enum Deed {
    Call(Ask),
    /// It swaps the value into variable 0.
    Swap(u64),
    /// So often it asks for lock 0, within so many tries each time.
    Try { times: u32, most: u32 },
    /// It finds so many events.
    Look,
    /// It reads the event at the index.
    Read(u64),
    /// Thread 0 forks or joins thread 1. Or it is refused the join, and has the handle back.
    Fork,
    Join,
    JoinInVain,
    /// The handle of thread 1 is dropped.
    Drop,
}

/// Who does what, and the answer: an index, a value and a verdict; or the refusal.
pub type Turn = (By, Deed, &'static str);

/// What a case shows, how many locks there are, and as many variables, the room for events, what the two
/// threads do, and how many events the log then has, with its races.
pub type Case = (&'static str, u32, u64, &'static [Turn], &'static str);

/// An answer as text.
type AnswerText = InlineText<96>;

fn reply_text(answer: Answer) -> AnswerText {
    match answer {
        Ok(reply) => {
            AnswerText::of(format_args!("{}: {} {:?}", reply.index, reply.value, reply.verdict))
        }
        Err(refusal) => AnswerText::of(format_args!("{refusal:?}")),
    }
}

fn swap<N: Name, R: Wait>(rt: &R, thread: &mut TracedThread<N>, value: u64) -> AnswerText {
    match thread.swap(rt, VarId(0), value, SITE) {
        Ok(reply) => AnswerText::of(format_args!(
            "{}: {} {:?} {:?}",
            reply.index, reply.value, reply.load, reply.store
        )),
        Err(refusal) => AnswerText::of(format_args!("{refusal:?}")),
    }
}

/// Acquires lock 0 within so many tries: the index or the refusal, and how many were made.
fn attempt<N: Name, R: Wait>(rt: &R, thread: &mut TracedThread<N>, most: u32) -> AnswerText {
    let mut tries = Tries::of(most);
    match thread.acquire_within(rt, LockId(0), SITE, &mut tries) {
        Ok(reply) => AnswerText::of(format_args!("{}, {} tries", reply.index, tries.made())),
        Err(refusal) => AnswerText::of(format_args!("{refusal:?}, {tries}")),
    }
}

/// What the thread is answered.
fn answer<N: Name, R: Wait>(rt: &R, thread: &mut TracedThread<N>, deed: Deed) -> AnswerText {
    match deed {
        Call(ask) => reply_text(make(rt, thread, ask, SITE)),
        Swap(value) => swap(rt, thread, value),
        Try { most, .. } => attempt(rt, thread, most),
        Look => AnswerText::of(format_args!("{} events", thread.look())),
        Read(index) => match thread.event_at(rt, index) {
            Some(event) => event_text(&event),
            None => AnswerText::of("none"),
        },
        Fork | Join | JoinInVain | Drop => AnswerText::of("no call"),
    }
}

/// The same, asked once more where that is out of memory and is to be asked again. A release takes no memory.
fn answer_in_the_end<N: Name, R: Wait>(
    rt: &R,
    thread: &mut TracedThread<N>,
    deed: Deed,
    asks_again: bool,
) -> AnswerText {
    let text = answer(rt, thread, deed);
    let is_release = matches!(deed, Call(Ask::Release(_)));
    if asks_again && !is_release && text.as_str().starts_with("OutOfMemory") {
        answer(rt, thread, deed)
    } else {
        text
    }
}

/// The answer of the thread, or the first other one where it asks more than once.
fn take<N: Name, R: Wait>(
    rt: &R,
    thread: &mut TracedThread<N>,
    deed: Deed,
    asks_again: bool,
) -> AnswerText {
    let text = answer_in_the_end(rt, thread, deed, asks_again);
    let times = if let Try { times, .. } = deed {
        times
    } else {
        1
    };
    for _ in 1..times {
        let next = answer_in_the_end(rt, thread, deed, asks_again);
        if next.as_str() != text.as_str() {
            return next;
        }
    }
    text
}

/// The join is refused, and the handle of thread 1 is given back.
fn join_in_vain<'m, N: Name, R: Wait + Abort>(
    rt: &R,
    main: &mut TracedThread<'m, N>,
    child: TracedThread<'m, N>,
) -> AnswerText {
    let left = main.join(rt, child, SITE).err().expect(rt, "a refusal");
    expect(rt, "the handle", left.child.thread(), ThreadId(1));
    let refusal = left.refusal;
    expect(rt, "the refusal", Refusal::from(left), refusal);
    reply_text(Err(refusal))
}

/// Takes the turn. There is a handle of thread 1 while that runs.
fn take_turn<'m, N: Name, R: Wait + Abort>(
    rt: &R,
    main: &mut TracedThread<'m, N>,
    child: Option<TracedThread<'m, N>>,
    (by, deed): (By, Deed),
    asks_again: bool,
) -> (Option<TracedThread<'m, N>>, AnswerText) {
    match (by, deed) {
        (_, Fork) => {
            let (child, reply) = fork(rt, main, ThreadId(1), asks_again);
            (Some(child), reply_text(Ok(reply)))
        }
        (_, Join) => {
            let mut child = child.expect(rt, "the child");
            main.meet(&mut child);
            (None, reply_text(Ok(join(rt, main, child, asks_again))))
        }
        (_, JoinInVain) => (None, join_in_vain(rt, main, child.expect(rt, "the child"))),
        (_, Drop) => {
            drop(child.expect(rt, "the child"));
            (None, AnswerText::of("dropped"))
        }
        (Main, _) => (child, take(rt, main, deed, asks_again)),
        (Child, _) => {
            let mut child = child.expect(rt, "the child");
            let text = take(rt, &mut child, deed, asks_again);
            (Some(child), text)
        }
    }
}

/// The turns of a case.
#[derive(Clone, Copy)]
struct Turns {
    name: &'static str,
    turns: &'static [Turn],
    asks_again: bool,
}

impl<R: Wait + Abort> Play<R> for Turns {
    fn play<N: Name>(&self, rt: &R, main: &mut TracedThread<N>) {
        let mut child = None;
        for (turn, (by, deed, wanted)) in (0u64..).zip(self.turns) {
            let (left, text) = take_turn(rt, main, child, (*by, *deed), self.asks_again);
            child = left;
            let asked = format_args!("{}, turn {turn}", self.name);
            expect(rt, asked, text.as_str(), *wanted);
        }
        drop(child);
    }
}

/// The log has these events and races. The verdicts say the same.
fn expect_closed<R: Abort>(rt: &R, closed: &Closed, name: &'static str, wanted: &str) {
    let mut page = Page::blank(Room::AMPLE);
    page.print(format_args!("{} events", closed.log().len()));
    for race in closed.verdicts().races() {
        page.print(format_args!(", {} with {}", race.event, race.with));
        if race.event < closed.len() {
            let verdict = closed.verdict_at(race.event);
            expect(rt, name, verdict, Verdict::Racy(race.with));
        }
    }
    expect(rt, name, page.text(), wanted);
    expect(rt, name, closed.len(), closed.log().len());
}

fn expect_case<R: Wait + Abort>(
    rt: &R,
    alloc: Global,
    (name, names, room, turns, wanted): Case,
    asks_again: bool,
) {
    let limits = Limits::new(2, names, names, room, Roots::OnlyMain).expect(rt, "limits");
    let unnamed = begin(rt, alloc, limits, asks_again);
    let play = Turns {
        name,
        turns,
        asks_again,
    };
    let closed = closed_after(rt, unnamed, &play);
    expect_closed(rt, &closed, name, wanted);
    drop(closed);
}

#[test]
fn each_turn_of_two_threads_is_answered_as_its_case_says(rt: HostRuntime) {
    for case in cases() {
        expect_case(&rt, rt.alloc(), *case, false);
    }
}

#[test]
fn each_turn_is_answered_as_its_case_says_where_memory_is_refused(rt: HostRuntime) {
    for case in cases() {
        expect_case(&rt, rt.alloc(), *case, true);
    }
}

#[test]
fn only_thread_0_may_run_from_the_beginning(rt: HostRuntime) {
    let limits = Limits::new(2, 1, 1, 16, Roots::Free).expect(&rt, "limits");
    let refused = Unnamed::new(rt.alloc(), limits).err();
    let asked = "a monitor of free roots";
    expect(&rt, asked, refused, Some(StartFault::RootsFree));
}
