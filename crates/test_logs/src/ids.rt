//! The threads, locks and variables of worked logs, as their texts name them.
use event_core::{LockId, ThreadId, VarId};

pub const T0: ThreadId = ThreadId(0);

pub const T1: ThreadId = ThreadId(1);

pub const T2: ThreadId = ThreadId(2);

pub const L: LockId = LockId(0);

pub const M: LockId = LockId(1);

pub const N: LockId = LockId(2);

pub const K: LockId = LockId(3);

pub const X: VarId = VarId(0);

pub const Y: VarId = VarId(1);

pub const Z: VarId = VarId(2);
