//! Templates of logs: threads with nested sections on two locks. Each has a verdict that rests on one rule.
use event_core::{LockId, Op, ThreadId, VarId};
use test_doubles::rows;

pub const THREADS: u32 = 3;

pub const LOCKS: u32 = 2;

pub const VARS: u32 = 2;

const TEMPLATES: &[&str] = rows! {
    // The sections on `m` conflict, and the first one is in a section on `l`. So by rule (b) the releases of
    // `l` are ordered, and with them the store to `y` and its load. Locks that are held are acquired once
    // more.
    "T0|acq(l)|1\nT0|acq(m)|2\nT0|acq(l)|3\nT0|w(x)|4\nT0|rel(m)|5\nT0|w(y)|6\nT0|rel(l)|7\nT0|rel(l)|8\n\
    T1|acq(m)|9\nT1|acq(m)|10\nT1|r(x)|11\nT1|rel(m)|12\nT1|rel(m)|13\nT1|acq(l)|14\nT1|rel(l)|15\n\
    T1|r(y)|16\n";
    // The sections on `l` are of one thread. The store to `x` in the first is below the second by way of the
    // other threads, so by rule (b) the first release is below the second. The store to `y` happens before
    // the first release, and no other rule orders it before its load.
    "T0|acq(l)|1\nT0|acq(m)|2\nT0|w(x)|3\nT0|rel(m)|4\nT1|acq(m)|5\nT1|r(x)|6\nT1|rel(m)|7\nT2|w(y)|8\n\
    T2|acq(m)|9\nT2|rel(m)|10\nT0|acq(m)|11\nT0|rel(m)|12\nT0|rel(l)|13\nT0|acq(l)|14\nT0|rel(l)|15\n\
    T0|r(y)|16\n";
    // The child that is forked and joined does nothing.
    "T0|acq(l)|1\nT0|acq(m)|2\nT0|w(x)|3\nT0|fork(T1)|4\nT0|rel(m)|5\nT0|rel(l)|6\nT2|acq(l)|7\n\
    T2|acq(m)|8\nT2|join(T1)|9\nT2|rel(m)|10\nT2|rel(l)|11\nT2|r(x)|12\n";
    // The sections conflict, and `y` is loaded before the access that conflicts.
    "T0|w(y)|1\nT0|acq(l)|2\nT0|acq(m)|3\nT0|w(x)|4\nT0|rel(m)|5\nT0|rel(l)|6\nT1|acq(l)|7\nT1|r(y)|8\n\
    T1|acq(m)|9\nT1|r(x)|10\nT1|rel(m)|11\nT1|rel(l)|12\n";
    // Two sections of one thread touch `x`. The store to `y` happens before the release of the first one.
    "T1|w(y)|1\nT1|acq(l)|2\nT1|rel(l)|3\nT0|acq(l)|4\nT0|acq(m)|5\nT0|w(x)|6\nT0|rel(m)|7\nT0|acq(m)|8\n\
    T0|w(x)|9\nT0|rel(m)|10\nT0|rel(l)|11\nT0|r(y)|12\n";
};

/// The templates. A function that names the table itself is proved over each of its bytes.
pub fn templates() -> &'static [&'static str] {
    TEMPLATES
}

/// Which threads, locks and variables stand for those of a template: those that are so many further on, round
/// and round.
#[derive(Clone, Copy)]
pub struct Cast {
    pub thread: u32,
    pub lock: u32,
    pub var: u32,
}

impl Cast {
    pub fn thread(self, thread: ThreadId) -> ThreadId {
        ThreadId(thread.0.wrapping_add(self.thread) % THREADS)
    }

    fn lock(self, lock: LockId) -> LockId {
        LockId(lock.0.wrapping_add(self.lock) % LOCKS)
    }

    fn var(self, var: VarId) -> VarId {
        VarId(var.0.wrapping_add(self.var) % VARS)
    }

    pub fn op(self, op: Op) -> Op {
        match op {
            Op::Load(var) => Op::Load(self.var(var)),
            Op::Store(var) => Op::Store(self.var(var)),
            Op::Acquire(lock) => Op::Acquire(self.lock(lock)),
            Op::Release(lock) => Op::Release(self.lock(lock)),
            Op::Fork(child) => Op::Fork(self.thread(child)),
            Op::Join(child) => Op::Join(self.thread(child)),
        }
    }
}
