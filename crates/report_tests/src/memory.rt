//! Runs where memory is refused: they print what ample ones do, or that memory ran out and nothing else. Run
//! again, they print what ample ones do.
use crate::fed::{expect_told, fault_of};
use crate::runs::{Answer, CHECK, Host, Program, REPLAY, Run, SCRIPT, counts_of, expect};
use crate::traces::legal;
use std::fmt::InlineText;
use test_doubles::{Page, Room, Text};

const OUT_OF_MEMORY: Answer<'static> = Answer {
    output: "",
    errors: "out of memory\n",
    status: 5,
};

const NO_WORKER: Answer<'static> = Answer {
    output: "line 1: NoWorker\n",
    errors: "",
    status: 6,
};

/// The program on the text answers so, or writes that memory ran out and nothing else.
pub fn expect_whole(rt: &impl Host, program: Program, text: &str, expected: Answer<'_>) {
    let run = Run::of(program, Text::whole(text.as_bytes()));
    let ran = run.ran(rt);
    let answer = ran.answer();
    if answer == OUT_OF_MEMORY || answer == NO_WORKER {
        run.expect(rt, expected);
    } else {
        expect(rt, text, &answer, &expected);
    }
}

#[test]
fn a_trace_is_answered_whole_or_not_at_all_where_memory_is_refused(rt: HostRuntime) {
    for (text, report, status) in legal() {
        expect_whole(&rt, CHECK, text, Answer::of(counts_of(report).as_str(), 0));
        expect_whole(&rt, REPLAY, text, Answer::of(report, *status));
    }
}

#[test]
fn a_script_is_run_whole_or_not_at_all_where_memory_is_refused(rt: HostRuntime) {
    let text = "m fork a\na w x 5\nm join a\nm r x\n";
    let report = "events 4 threads 2 locks 0 variables 1 races 0\n";
    expect_whole(&rt, SCRIPT, text, Answer::of(report, 0));
}

#[test]
fn a_trace_is_replayed_whole_or_not_at_all_where_memory_is_refused(rt: HostRuntime) {
    for (bytes, report, _) in legal() {
        let text = Text::cut(bytes.as_bytes(), 7, 3);
        let mut page = Page::blank(Room::AMPLE);
        let came = fault_of(rt.alloc(), text, 8, &mut page);
        let fault: InlineText<128> = InlineText::of(format_args!("{came:?}"));
        let is_refused = came.is_none() || fault.as_str().contains("OutOfMemory");
        if is_refused {
            expect(&rt, bytes, &page.text(), &"");
            expect_told(&rt, rt.alloc(), text, Answer::of(report, 0));
        } else {
            expect(&rt, bytes, &(came, page.text()), &(Some(None), *report));
        }
    }
}
