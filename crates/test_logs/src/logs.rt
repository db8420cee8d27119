//! Worked logs, each with all its races.
use crate::cases::Case;
use event_core::Roots;
use test_doubles::rows;
use verdict_list::Race;

const LOG: Case = Case {
    name: "",
    limits: (3, 4, 3, 64),
    roots: Roots::Free,
    text: "",
    races: &[],
};

pub const SECTIONS_IN_CONFLICT: &str =
    "T0|fork(T1)|1\nT0|acq(l)|2\nT0|w(x)|3\nT0|rel(l)|4\nT1|acq(l)|5\n\
    T1|w(x)|6\n";

pub const SECTIONS_WITHOUT_CONFLICT: &str =
    "T0|fork(T1)|1\nT0|w(y)|2\nT0|acq(l)|3\nT0|w(x)|4\nT0|rel(l)|5\n\
    T1|acq(l)|6\nT1|rel(l)|7\nT1|r(y)|8\n";

pub const ACCESS_BEFORE_CONFLICT: &str =
    "T0|fork(T1)|1\nT0|w(y)|2\nT0|acq(l)|3\nT0|w(x)|4\nT0|rel(l)|5\n\
    T1|acq(l)|6\nT1|r(y)|7\nT1|r(x)|8\nT1|rel(l)|9\n";

pub const NESTED_SECTIONS: &str =
    "T0|fork(T1)|1\nT0|acq(l)|2\nT0|acq(m)|3\nT0|w(x)|4\nT0|rel(m)|5\nT0|w(y)|6\n\
    T0|rel(l)|7\nT1|acq(m)|8\nT1|r(x)|9\nT1|rel(m)|10\nT1|acq(l)|11\nT1|rel(l)|12\nT1|r(y)|13\n";

pub const RELEASES_OF_ONE_THREAD: &str =
    "T0|fork(T1)|1\nT0|fork(T2)|2\nT2|w(z)|3\nT2|acq(n)|4\nT2|rel(n)|5\n\
    T0|acq(l)|6\nT0|acq(m)|7\nT0|w(x)|8\nT0|rel(m)|9\nT0|acq(n)|10\nT0|rel(n)|11\nT0|rel(l)|12\n\
    T1|acq(m)|13\nT1|r(x)|14\nT1|rel(m)|15\nT1|acq(k)|16\nT1|rel(k)|17\nT0|acq(k)|18\nT0|rel(k)|19\n\
    T0|acq(l)|20\nT0|rel(l)|21\nT0|r(z)|22\n";

pub const IDLE_CHILD: &str = "T0|w(x)|1\nT0|fork(T1)|2\nT2|join(T1)|3\nT2|w(x)|4\n";

pub const THREE_STORES: &str = "T0|fork(T1)|1\nT0|fork(T2)|2\nT1|w(x)|3\nT2|w(x)|4\nT0|w(x)|5\n";

pub const INNER_RELEASE: &str =
    "T0|fork(T1)|1\nT0|acq(l)|2\nT0|acq(l)|3\nT0|rel(l)|4\nT0|w(x)|5\nT0|rel(l)|6\n\
    T1|acq(l)|7\nT1|w(x)|8\n";

pub const LOGS: &[Case] = rows! {
    Case { name: "a fork does not cover a store after it", text: "T0|fork(T1)|1\nT0|w(x)|2\nT1|w(x)|3\n",
        races: &[Race { event: 2, with: 1 }], ..LOG };
    Case { name: "a release is below a conflicting access in a later section", text: SECTIONS_IN_CONFLICT,
        ..LOG };
    Case { name: "sections without a conflict order nothing", text: SECTIONS_WITHOUT_CONFLICT,
        races: &[Race { event: 7, with: 1 }], ..LOG };
    Case { name: "sections with a conflict order what surrounds them",
        text: "T0|fork(T1)|1\nT0|w(y)|2\nT0|acq(l)|3\nT0|w(x)|4\nT0|rel(l)|5\nT1|acq(l)|6\nT1|r(x)|7\n\
        T1|rel(l)|8\nT1|r(y)|9\n", ..LOG };
    Case { name: "an access before the conflicting one is not ordered", text: ACCESS_BEFORE_CONFLICT,
        races: &[Race { event: 6, with: 1 }], ..LOG };
    Case { name: "ordered events in two sections order their releases", text: NESTED_SECTIONS, ..LOG };
    Case { name: "an access before the later section is not ordered",
        text: "T0|fork(T1)|1\nT0|acq(l)|2\nT0|acq(m)|3\nT0|w(x)|4\nT0|rel(m)|5\nT0|w(y)|6\nT0|rel(l)|7\n\
        T1|acq(m)|8\nT1|r(x)|9\nT1|rel(m)|10\nT1|r(y)|11\n", races: &[Race { event: 10, with: 5 }], ..LOG };
    Case { name: "two releases of one thread may be ordered strictly", text: RELEASES_OF_ONE_THREAD, ..LOG };
    Case { name: "a fork and a join order what the child does",
        text: "T0|w(x)|1\nT0|fork(T1)|2\nT1|w(x)|3\nT0|join(T1)|4\nT0|w(x)|5\n", ..LOG };
    Case { name: "a thread that no event forks or joins is not ordered",
        text: "T0|fork(T1)|1\nT0|join(T1)|2\nT2|w(x)|3\nT0|r(x)|4\n", races: &[Race { event: 3, with: 2 }],
        ..LOG };
    Case { name: "the fork of an idle child is below its join", text: IDLE_CHILD, ..LOG };
    Case { name: "an access after the release is outside the section",
        text: "T0|fork(T1)|1\nT0|acq(l)|2\nT0|acq(m)|3\nT0|rel(l)|4\nT0|w(x)|5\nT0|rel(m)|6\n\
        T1|acq(l)|7\nT1|w(x)|8\n", races: &[Race { event: 7, with: 4 }], ..LOG };
    Case { name: "the latest racing event is named", text: THREE_STORES,
        races: &[Race { event: 3, with: 2 }, Race { event: 4, with: 3 }], ..LOG };
    Case { name: "an inner release does not end the section", text: INNER_RELEASE, ..LOG };
};
