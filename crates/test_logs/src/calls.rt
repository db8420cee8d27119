//! Worked calls, some of them refused, and swaps. Their values and refusals are those of the memory alone.
use crate::cases::Case;
use event_core::Roots;
use test_doubles::rows;
use verdict_list::Race;

const TWO_THREADS: Case = Case {
    name: "",
    limits: (2, 1, 1, 64),
    roots: Roots::OnlyMain,
    text: "",
    races: &[],
};

const TWO_LOCKS: Case = Case {
    limits: (2, 2, 2, 64),
    ..TWO_THREADS
};

pub const CALLS: &[Case] = rows! {
    Case { name: "a slot is kept for the release", limits: (1, 1, 1, 3),
        text: "T0|r(x)|1\nT0|acq(l)|2\nT0|r(x)|LogFull\nT0|rel(l)|3\nT0|r(x)|LogFull\nT0|rel(l)|NotHolder\n",
        ..TWO_THREADS };
    Case { name: "the first reason is answered", limits: (2, 1, 1, 1),
        text: "T0|r(x)|1\nT0|fork(T0)|SelfTarget\nT0|join(T0)|SelfTarget\nT0|fork(T2)|TargetRange\n\
        T0|join(T1)|TargetNotStarted\nT0|fork(T1)|LogFull\nT0|acq(m)|TargetRange\nT0|acq(l)|LogFull\n\
        T1|r(x)|NotStarted\nT2|r(x)|ThreadRange\n", ..TWO_THREADS };
    Case { name: "each hold keeps a slot", limits: (1, 1, 1, 4),
        text: "T0|acq(l)|1\nT0|acq(l)|2\nT0|r(x)|LogFull\nT0|acq(l)|LogFull\nT0|rel(l)|3\nT0|r(x)|LogFull\n\
        T0|rel(l)|4\nT0|rel(l)|NotHolder\n", ..TWO_THREADS };
    Case { name: "releases of one lock are ordered by an inner section",
        text: "T0|fork(T1)|1\nT0|acq(l)|2\nT0|acq(m)|3\nT0|w(x)|4|3\nT0|rel(m)|5\nT0|w(y)|6|4\nT0|rel(l)|7\n\
        T1|acq(m)|8\nT1|r(x)|9|3\nT1|rel(m)|10\nT1|acq(l)|11\nT1|rel(l)|12\nT1|r(y)|13|4\n", ..TWO_LOCKS };
    Case { name: "before that release the accesses race",
        text: "T0|fork(T1)|1\nT0|acq(l)|2\nT0|acq(m)|3\nT0|w(x)|4|3\nT0|rel(m)|5\nT0|w(y)|6|4\nT0|rel(l)|7\n\
        T1|acq(m)|8\nT1|r(x)|9|3\nT1|rel(m)|10\nT1|r(y)|11|4\n", races: &[Race { event: 10, with: 5 }],
        ..TWO_LOCKS };
    Case { name: "each call of a run has its outcome",
        text: "T0|fork(T1)|1\nT0|w(x)|2|7\nT1|rel(l)|NotHolder\nT1|w(x)|3|8\n",
        races: &[Race { event: 2, with: 1 }], ..TWO_THREADS };
    Case { name: "the greatest numbers are within the limits", limits: (2, 1048576, 1048576, 64),
        text: "T0|w(1048575)|1|5\nT0|r(1048575)|2|5\nT0|r(1048576)|TargetRange\nT0|acq(1048575)|3\n\
        T0|rel(1048575)|4\nT0|acq(1048576)|TargetRange\n", ..TWO_THREADS };
    Case { name: "a thread is forked once, and the main thread never", limits: (3, 1, 1, 16),
        text: "T0|fork(T1)|1\nT0|fork(T1)|AlreadyStarted\nT1|fork(T0)|AlreadyStarted\nT0|join(T1)|2\n\
        T0|fork(T1)|AlreadyStarted\nT0|fork(T2)|3\n", ..TWO_THREADS };
    Case { name: "each release of nested sections is taken", text: crate::logs::NESTED_SECTIONS,
        ..TWO_LOCKS };
    Case { name: "an inner release keeps the lock", limits: (2, 1, 1, 16), roots: Roots::Free,
        text: "T0|fork(T1)|1\nT0|acq(l)|2\nT0|acq(l)|3\nT0|rel(l)|4\nT1|acq(l)|Held by T0\n\
        T1|rel(l)|NotHolder\nT0|rel(l)|5\nT1|acq(l)|6\n", ..TWO_THREADS };
    Case { name: "a load reads the last store", limits: (2, 1, 2, 8),
        text: "T0|w(x)|1|7\nT0|fork(T1)|2\nT1|r(x)|3|7\nT1|w(x)|4|18446744073709551615\n\
        T0|r(x)|5|18446744073709551615\nT0|r(y)|6\nT0|r(z)|TargetRange\n",
        races: &[Race { event: 4, with: 3 }], ..TWO_THREADS };
    Case { name: "a thread that acted is not forked", limits: (2, 1, 1, 16), roots: Roots::Free,
        text: "T0|w(x)|1\nT1|fork(T0)|AlreadyStarted\n", ..TWO_THREADS };
    Case { name: "a joined thread has ended", limits: (3, 1, 1, 16), roots: Roots::Free,
        text: "T0|fork(T1)|1\nT1|acq(l)|2\nT0|join(T1)|3\nT1|r(x)|Ended\nT1|rel(l)|Ended\n\
        T0|acq(l)|Held by T1\nT2|join(T1)|4\n", ..TWO_THREADS };
    Case { name: "locks are held in the order of outer acquires", limits: (1, 6, 1, 64),
        text: "T0|acq(3)|1\nT0|acq(1)|2\nT0|acq(5)|3\nT0|acq(0)|4\nT0|acq(4)|5\nT0|acq(2)|6\nT0|acq(3)|7\n\
        T0|rel(5)|8\nT0|rel(3)|9\nT0|rel(0)|10\n", ..TWO_THREADS };
};

pub const SWAPS: &[Case] = rows! {
    Case { name: "a swap is a load and a store", limits: (2, 1, 1, 5),
        text: "T0|fork(T1)|1\nT1|swap(x)|2|4|0\nT0|swap(x)|4|5|4\nT0|swap(x)|LogFull|6\n",
        races: &[Race { event: 3, with: 2 }, Race { event: 4, with: 2 }], ..TWO_THREADS };
    Case { name: "a swap that is refused adds neither event", limits: (2, 1, 1, 4),
        text: "T0|fork(T1)|1\nT1|swap(x)|2|4|0\nT0|swap(x)|LogFull|5\n", ..TWO_THREADS };
    Case { name: "after it a call takes the next index", limits: (2, 1, 1, 4),
        text: "T0|fork(T1)|1\nT1|swap(x)|2|4|0\nT0|swap(x)|LogFull|5\nT0|r(x)|4|4\n",
        races: &[Race { event: 3, with: 2 }], ..TWO_THREADS };
    Case { name: "a swap by a thread that is not forked is refused", limits: (2, 1, 1, 4),
        text: "T1|swap(x)|NotStarted|4\nT0|fork(T1)|1\nT1|swap(x)|2|4|0\nT0|swap(x)|LogFull|5\nT0|r(x)|4|4\n",
        races: &[Race { event: 3, with: 2 }], ..TWO_THREADS };
    Case { name: "the events of a swap have a verdict each", limits: (2, 1, 1, 9),
        text: "T0|fork(T1)|1\nT1|r(x)|2\nT0|swap(x)|3|5|0\n", races: &[Race { event: 3, with: 1 }],
        ..TWO_THREADS };
};
