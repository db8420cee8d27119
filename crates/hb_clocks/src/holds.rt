//! Who holds each lock, and how often. A lock has at most one holder.
ghost use Rattle.std.specs.Prelude.{◌≡◌, ℕ, ◌+◌, ◌<◌, ◌^◌, ◌&&◌, nat_eq, length, slice_set, IsTrue, ◌↔◌};
ghost use Rattle.hb_clocks.specs.Holds.{hold_at, lowered, holds_after, is_outer, HasHold, Alone};

use event_core::{Op, ThreadId};

/// How often a lock is held, and by which thread where it is.
#[derive(Clone, Copy)]
pub struct Hold {
    pub holder: u32,
    pub depth: u64,
}

/// That of a lock which was not acquired.
pub(crate) const NO_HOLD: Hold = Hold {
    holder: 0,
    depth: 0,
};

// Counts an acquire or a release, and tells whether it is an outer one.
#[inline(always)]
pub(crate) fn count_depth(holds: &mut [Hold], thread: ThreadId, op: Op) -> bool
    requires room { HasHold (length holds.old) op }
    requires few { (l : ℕ) → (hold_at holds.old l).depth + 1 < 2 ^ 64 }
    ensures outer { result ≡ is_outer thread.0 op holds.old }
    ensures holds { holds.new ≡ holds_after thread.0 op holds.old }
{
    match op {
        Op::Acquire(lock) => enter(holds, lock.0 as usize, thread),
        Op::Release(lock) => leave(holds, lock.0 as usize, thread),
        _ => false,
    }
}

// The thread acquires the lock. It did not hold it before where that is outer.
fn enter(holds: &mut [Hold], lock: usize, thread: ThreadId) -> bool
    requires room { lock < length holds.old }
    requires few { (hold_at holds.old lock).depth + 1 < 2 ^ 64 }
    ensures outer { result ≡ nat_eq (hold_at holds.old lock).depth 0 }
    ensures holds { holds.new ≡ slice_set holds.old lock
        (record { holder = thread.0; depth = (hold_at holds.old lock).depth + 1 }) }
{
    let depth = holds[lock].depth;
    holds[lock] = Hold {
        holder: thread.0,
        depth: depth + 1,
    };
    depth == 0
}

// The thread releases the lock. It holds it no longer where that is outer.
fn leave(holds: &mut [Hold], lock: usize, thread: ThreadId) -> bool
    requires room { lock < length holds.old }
    ensures outer { result ≡ (nat_eq (hold_at holds.old lock).holder thread.0 && nat_eq
        (hold_at holds.old lock).depth 1) }
    ensures holds { holds.new ≡ slice_set holds.old lock (lowered thread.0 (hold_at holds.old lock)) }
{
    let Hold { holder, depth } = holds[lock];
    if holder != thread.0 {
        return false;
    }
    holds[lock] = Hold {
        holder,
        depth: depth.saturating_sub(1),
    };
    depth == 1
}

// Whether no other thread holds the lock.
pub(crate) fn may_enter(holds: &[Hold], lock: usize, thread: ThreadId) -> bool
    ensures { IsTrue result ↔ Alone holds.now thread.0 lock }
{
    if holds.len() <= lock {
        return true;
    }
    let Hold { holder, depth } = holds[lock];
    depth == 0 || holder == thread.0
}
