//! Logs by three threads, with what is found of their clocks and of closed sections.
use Row::{
    Admits, Clock, Close, Copy, Count, Counts, Depth, Hb, Join, JoinRelease, Joined, Mark, Po,
    Section,
};
use event_core::{LockId, Op, ThreadId};
use test_doubles::rows;
use test_logs::{IDLE_CHILD, INNER_RELEASE, L, M, NESTED_SECTIONS, T0, T1, T2};

/// What is done, or what is found.
pub enum Row {
    /// The numbers of the thread's clock of program order.
    Po(ThreadId, [u64; 3]),
    /// The numbers of the thread's clock of happens-before.
    Hb(ThreadId, [u64; 3]),
    /// How often the thread holds the lock.
    Depth(ThreadId, LockId, u64),
    /// Whether the event may come next.
    Admits(ThreadId, Op, bool),
    /// The mark of the thread's latest event is kept.
    Mark(ThreadId),
    /// Whether the thread's clock of program order counts the event of that mark, and that of happens-before.
    Counts(ThreadId, [bool; 2]),
    /// A clock takes the numbers of the thread's clock of program order.
    Copy(ThreadId),
    /// It takes the greater numbers of the thread's clock of happens-before.
    Join(ThreadId),
    /// It takes the greater numbers of the release of the lock's closed section of the number.
    JoinRelease(LockId, u32),
    /// Its numbers.
    Clock([u64; 3]),
    /// The numbers of the threads' clocks of program order, read as one.
    Joined(ThreadId, ThreadId, [u64; 3]),
    /// The thread has the first section on the lock, from its latest event on.
    Close(ThreadId, LockId),
    /// How many closed sections the lock has.
    Count(LockId, u32),
    /// The lock's closed section of the number: its thread, and of each thread how many events happened
    /// before its release, which is one of them.
    Section(LockId, u32, ThreadId, [u64; 3]),
}

/// What a case shows, a log, and rows in turn, each after so many of its events.
pub type Case = (&'static str, &'static str, &'static [(usize, Row)]);

const OF_TWO_THREADS: &str = "T0|w(x)|1\nT0|w(y)|2\nT2|w(x)|3\n";

const CASES: &[Case] = rows! {
    "nested sections hand on their numbers", NESTED_SECTIONS, rows! {
        8, Po(T1, [1, 1, 0]);
        8, Hb(T1, [5, 1, 0]);
        11, Hb(T1, [7, 4, 0]);
        13, Hb(T1, [7, 6, 0]);
        13, Po(T1, [1, 6, 0]);
    };
    "the fork of an empty child is below its join", IDLE_CHILD, rows! {
        2, Po(T1, [2, 0, 0]);
        2, Po(T2, [0, 0, 0]);
        3, Po(T2, [2, 0, 1]);
        3, Hb(T2, [2, 0, 1]);
    };
    "the outer release alone hands on", INNER_RELEASE, rows! {
        3, Depth(T0, L, 2);
        4, Depth(T0, L, 1);
        4, Admits(T1, Op::Acquire(L), false);
        6, Depth(T0, L, 0);
        7, Hb(T1, [6, 1, 0]);
        7, Po(T1, [1, 1, 0]);
    };
    "a mark is counted from its event on", "T0|acq(l)|1\nT1|w(x)|2\nT0|rel(l)|3\nT1|acq(l)|4\n", rows! {
        1, Mark(T0);
        1, Counts(T0, [true, true]);
        2, Counts(T1, [false, false]);
        4, Counts(T1, [false, true]);
    };
    "clocks take the greater numbers", OF_TWO_THREADS, rows! {
        3, Clock([0, 0, 0]);
        3, Copy(T2);
        3, Clock([0, 0, 1]);
        3, Copy(T0);
        3, Clock([2, 0, 0]);
        3, Join(T2);
        3, Clock([2, 0, 1]);
    };
    "two clocks are read as their join", OF_TWO_THREADS, rows! { 3, Joined(T0, T2, [2, 0, 1]); };
    "a closed section is found by its number", "T1|r(x)|1\n", rows! {
        1, Count(L, 0);
        1, Close(T1, L);
        1, Count(L, 1);
        1, Section(L, 1, T1, [0, 1, 0]);
    };
    "a release is one more than the numbers before it",
    "T0|r(x)|1\nT0|r(x)|2\nT1|r(x)|3\nT1|r(x)|4\nT1|r(x)|5\n", rows! {
        5, Close(T1, L);
        5, Section(L, 1, T1, [0, 3, 0]);
        5, Copy(T0);
        5, Clock([2, 0, 0]);
        5, JoinRelease(L, 1);
        5, Clock([2, 3, 0]);
        5, Close(T0, M);
        5, Section(M, 1, T0, [2, 0, 0]);
        5, Copy(T1);
        5, JoinRelease(M, 1);
        5, Clock([2, 3, 0]);
    };
    // Thread 1 has five events at its release and thread 2 six, each one more than before it. The third
    // thread forks both.
    "releases of two threads are joined into the clock of a third",
    "T0|fork(T1)|1\nT1|r(x)|2\nT1|r(x)|3\nT1|r(x)|4\nT1|r(x)|5\nT1|r(x)|6\nT0|r(x)|7\nT0|fork(T2)|8\n\
    T2|r(x)|9\nT2|r(x)|10\nT2|r(x)|11\nT2|r(x)|12\nT2|r(x)|13\nT2|r(x)|14\n", rows! {
        6, Close(T1, L);
        6, Section(L, 1, T1, [1, 5, 0]);
        7, Copy(T0);
        7, Clock([2, 0, 0]);
        7, JoinRelease(L, 1);
        7, Clock([2, 5, 0]);
        14, Close(T2, M);
        14, Section(M, 1, T2, [3, 0, 6]);
        14, JoinRelease(M, 1);
        14, Clock([3, 5, 6]);
    };
};

/// The cases. A test that names the table itself is proved over each of its bytes.
pub fn cases() -> &'static [Case] {
    CASES
}
