//! Sections on two locks, numbered in the order of their releases: which of them an access meets.
ghost use Rattle.std.specs.Prelude.{◌≡◌, ℕ, false};
ghost use Rattle.event_core.specs.declared.events.AccessKind.{AccessKind};
ghost use Rattle.section_sum.specs.Sums.{noted_of};

use crate::expected::expect;
use AccessKind::{Read, Write};
use Row::{Meets, Section};
use event_core::{AccessKind, Limits, LockId, Roots, ThreadId, VarId};
use section_sum::Summaries;
use std::process::Abort;
use test_doubles::rows;
use test_logs::{T0, T1, T2};

const A: LockId = LockId(0);

const B: LockId = LockId(5);

const X: VarId = VarId(7);

const Y: VarId = VarId(3);

const T3: ThreadId = ThreadId(3);

/// What is done, or what is found.
enum Row {
    /// The thread has a section on both locks with such an access, and its releases have this number.
    Section(ThreadId, &'static [LockId; 2], VarId, AccessKind, u32),
    /// Such an access of the thread under the lock meets the sections of these numbers: the newest with a
    /// store, and the newest with a load where it is a store.
    Meets(ThreadId, LockId, VarId, AccessKind, [Option<u32>; 2]),
}

/// What a case shows, and its rows.
type Case = (&'static str, &'static [Row]);

const CASES: &[Case] = rows! {
    "an access meets the sections of other threads", rows! {
        Section(T1, &[A, A], X, Write, 1);
        Meets(T2, A, X, Read, [Some(1), None]);
        Meets(T2, A, X, Write, [Some(1), None]);
        // its own
        Meets(T1, A, X, Read, [None, None]);
        // another lock, and another variable
        Meets(T2, B, X, Read, [None, None]);
        Meets(T2, A, Y, Read, [None, None]);
    };
    "a load meets stores alone", rows! {
        Section(T1, &[A, A], X, Read, 1);
        Meets(T2, A, X, Read, [None, None]);
        Meets(T2, A, X, Write, [Some(1), None]);
        Section(T2, &[A, A], X, Write, 2);
        Meets(T3, A, X, Read, [Some(2), None]);
        Meets(T3, A, X, Write, [Some(2), Some(1)]);
        // except its own load
        Meets(T1, A, X, Write, [Some(2), None]);
    };
    "an access counts in each open section", rows! {
        Section(T1, &[A, B], X, Write, 1);
        Meets(T2, A, X, Read, [Some(1), None]);
        Meets(T2, B, X, Read, [Some(1), None]);
    };
    "a thread meets the newest of another", rows! {
        Section(T1, &[A, A], X, Write, 1);
        Section(T2, &[A, A], X, Write, 2);
        Section(T1, &[A, A], X, Write, 3);
        Meets(T1, A, X, Read, [Some(2), None]);
        Meets(T2, A, X, Read, [Some(3), None]);
        Meets(T0, A, X, Read, [Some(3), None]);
    };
};

// A test that names the table itself is proved over each of its bytes.
fn cases() -> &'static [Case] {
    CASES
}

/// Summaries in which no section is open.
#[derive(Drop)]
struct Sections {
    summaries: Summaries,
    ghost ended: { (t l v : ℕ) (k : AccessKind) → noted_of summaries t l v k ≡ false },
}

// The thread opens sections on both locks, accesses the variable, and ends the first one first. They
// have the number on both.
fn section(
    rt: &impl Abort,
    sections: &mut Sections,
    thread: ThreadId,
    locks: [LockId; 2],
    var: VarId,
    kind: AccessKind,
    number: u32,
) {
    assert!(rt;
        sections
            .summaries
            .make_room(thread, &locks, var, kind)
            .is_ok(),
        "memory"
    );
    sections.summaries.note(thread, &locks, var, kind);
    sections.summaries.close(thread, locks[0], number);
    sections.summaries.close(thread, locks[1], number);
}

// The sections that an access meets.
fn met(
    sections: &Sections,
    thread: ThreadId,
    lock: LockId,
    var: VarId,
    kind: AccessKind,
) -> [Option<u32>; 2] {
    let mut sources = sections.summaries.sources(thread, lock, var, kind);
    let first = sources.next();
    [first, sources.next()]
}

fn follow(rt: &impl Abort, sections: &mut Sections, place: (&str, usize), row: &Row) {
    match row {
        Section(thread, locks, var, kind, number) => {
            section(rt, sections, *thread, **locks, *var, *kind, *number);
        }
        Meets(thread, lock, var, kind, wanted) => {
            let came = met(sections, *thread, *lock, *var, *kind);
            expect(rt, &place, came, *wanted);
        }
    }
}

#[test]
fn each_access_meets_the_newest_sections_of_others(rt: HostRuntime) {
    let limits = Limits::new(4, 6, 8, 64, Roots::Free).expect(&rt, "small limits");
    for (name, rows) in cases() {
        let mut sections = Sections {
            summaries: Summaries::new(rt.alloc(), limits).expect(&rt, "no memory is taken"),
        };
        for (at, row) in rows.iter().enumerate() {
            follow(&rt, &mut sections, (*name, at), row);
        }
        drop(sections);
    }
}
