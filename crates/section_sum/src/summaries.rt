//! The summaries of all locks.
ghost use Rattle.std.specs.Prelude.{◌≡◌, ℕ, ◌+◌, ◌<◌, ◌≤◌, ◌↔◌, ◌||◌, ◌&&◌, List, [], ◌∷◌, ◌++◌, length};
ghost use Rattle.std.specs.Prelude.{nat_eq, cond, not, false, IfOk, IsOk, OnOk, OnErr, IsTrue};
ghost use Rattle.event_core.specs.declared.events.AccessKind.{AccessKind};
ghost use Rattle.event_core.specs.declared.events.Event.{Event};
ghost use Rattle.event_core.specs.declared.bounds.Limits.{Limits};
ghost use Rattle.event_core.specs.Log.{depth};
ghost use Rattle.event_core.specs.Refusal.{WellFormed};
ghost use Rattle.event_core.specs.Closed.{EndsSection, ended};
ghost use Rattle.section_sum.specs.Sums.{noted_of, others_of, sources_of, is_access, IsReady, IsAlone};
ghost use Rattle.section_sum.specs.Sums.{SameNoted, SameOthers, KeepsReady, GrownFor, LocksGrownFor};
ghost use Rattle.section_sum.specs.Sums.{SameMemory};
ghost use Rattle.section_sum.specs.Sources.{left, most_sources};
ghost use Rattle.section_sum.specs.Standing.{StandsFor, IsAccessBy, AreHeld};
ghost use Rattle.section_sum.specs.Paired.{AreSources};

use crate::cells::Cells;
use crate::lock::Lock;
use crate::locks::{close_under, note_held, ready_under, sources_under};
use crate::sources::Sources;
use event_core::{AccessKind, Limits, LockId, OutOfMemory, ThreadId, VarId, grow_to};
use std::alloc::Global;
use std::marker::Model;

/// For each lock, variable and kind of access: which open section has such an access, and to each
/// thread the newest of the other threads' closed sections with one.
#[derive(Drop)]
pub struct Summaries {
    alloc: Global,
    cells: Cells,
    locks: Vec<Lock>,
}

impl Model for Summaries {
    ghost use Rattle.section_sum.specs.Sums.{Sums};
    ghost use Rattle.section_sum.specs.LockSums.{AreKept, IsFitted, all_shown};

    ghost Value = { Sums };

    ghost view = { λ a. record { cells = a.cells; locks = all_shown a.locks.items } };

    ghost invariant = { λ a. AreKept a.cells a.locks.items × IsFitted a.locks };
}

impl Summaries {
    /// No sections. Takes no memory: its tables grow with the numbers that are used, whatever the limits.
    pub fn new(alloc: Global, limits: Limits) -> Result<Summaries, OutOfMemory>
        ensures made { IsOk result }
        ensures nothing_noted { IfOk result (λ s. (t l v : ℕ) (k : AccessKind) → noted_of s t l v k ≡ false) }
        ensures no_others { IfOk result (λ s. (l v : ℕ) (k : AccessKind) (t : ℕ) → others_of s l v k t ≡ 0) }
        ensures stands { IfOk result (λ s. StandsFor [] s) }
    {
        Ok(Summaries {
            alloc,
            cells: Cells::new(alloc),
            locks: Vec::new(alloc),
        })
    }

    /// Makes room for an access of the thread to the variable in its sections on the locks, and for those
    /// sections' ends. The room serves each thread and both kinds of access. Where there is room it takes no
    /// memory, and nothing changes that a caller can tell. The next calls of `sources` and `note` for the
    /// variable under these locks take no hash. A refused growth is answered by `OutOfMemory`, and the same
    /// call can be made again.
    #[inline]
    pub fn make_room(
        &mut self,
        thread: ThreadId,
        held: &[LockId],
        var: VarId,
        kind: AccessKind,
    ) -> Result<(), OutOfMemory>
        ensures ready { OnOk result (IsReady self.new held.now var.0) }
        ensures refused { OnErr result (IsReady self.new held.now var.0 → ⊥) }
        ensures again { IsReady self.old held.now var.0 → IsOk result × (self.new ≡ self.old) }
        ensures kept { KeepsReady self.old self.new }
        ensures grown { GrownFor self.old self.new held.now var.0 }
        ensures locks { LocksGrownFor self.old self.new held.now }

        // In any case the same is known.
        ensures noted { SameNoted self.old self.new }
        ensures others { SameOthers self.old self.new }
        ensures stands { (log : List Event) → StandsFor log self.old → StandsFor log self.new }
    {
        self.make_room_for(held, var)
    }

    /// As `make_room`, by what the room depends on.
    #[inline(never)]
    pub fn make_room_for(&mut self, held: &[LockId], var: VarId) -> Result<(), OutOfMemory>
        ensures ready { OnOk result (IsReady self.new held.now var.0) }
        ensures refused { OnErr result (IsReady self.new held.now var.0 → ⊥) }
        ensures again { IsReady self.old held.now var.0 → IsOk result × (self.new ≡ self.old) }
        ensures kept { KeepsReady self.old self.new }
        ensures grown { GrownFor self.old self.new held.now var.0 }
        ensures locks { LocksGrownFor self.old self.new held.now }

        // In any case the same is known.
        ensures noted { SameNoted self.old self.new }
        ensures others { SameOthers self.old self.new }
        ensures stands { (log : List Event) → StandsFor log self.old → StandsFor log self.new }
    {
        let alloc = self.alloc;
        for lock in held {
            let at = lock.0 as usize;
            grow_to(&mut self.locks, at + 1, || Lock::new(alloc))?;
            let kept = &mut self.locks[at];
            kept.prepare(&mut self.cells, *lock, var)?;
        }
        Ok(())
    }

    /// Whether such accesses need no memory. Takes none.
    pub fn ready(&self, held: &[LockId], var: VarId) -> bool
        ensures { IsTrue result ↔ IsReady self.now held.now var.0 }
    {
        for lock in held {
            if !ready_under(&self.cells, &self.locks, *lock, var) {
                return false;
            }
        }
        true
    }

    /// The thread, which has open sections on the locks, has such an access in each of them. Takes no memory.
    #[inline(always)]
    pub fn note(&mut self, thread: ThreadId, held: &[LockId], var: VarId, kind: AccessKind)
        requires ready { IsReady self.old held.now var.0 }
        requires alone { IsAlone self.old thread.0 held.now }
        ensures noted { (t l v : ℕ) (k : AccessKind) → noted_of self.new t l v k
            ≡ (noted_of self.old t l v k || is_access thread.0 held.now var.0 kind t l v k) }
        ensures others { SameOthers self.old self.new }
        ensures stands { (limits : Limits) (log : List Event) (e : Event) → WellFormed limits (log ++ e ∷ [])
            → IsAccessBy thread var kind e → AreHeld log thread held.now
            → StandsFor log self.old → StandsFor (log ++ e ∷ []) self.new }
        ensures kept { KeepsReady self.old self.new }
        ensures memory { SameMemory self.old self.new }
    {
        note_held(&mut self.cells, &mut self.locks, thread, held, var, kind);
    }

    /// The thread's section on the lock ends and has the number: where it has an access, it is to the
    /// other threads the newest with one. A lock's sections are numbered from 1 in the order of their
    /// releases. Takes no memory.
    pub fn close(&mut self, thread: ThreadId, lock: LockId, number: u32)
        ensures noted { (t l v : ℕ) (k : AccessKind) → noted_of self.new t l v k
            ≡ (noted_of self.old t l v k && not (nat_eq t thread.0 && nat_eq l lock.0)) }
        ensures others { (l v : ℕ) (k : AccessKind) (t : ℕ) → others_of self.new l v k t
            ≡ cond (nat_eq l lock.0 && (not (nat_eq t thread.0) && noted_of self.old thread.0 l v k))
            number (others_of self.old l v k t) }
        ensures stands { (limits : Limits) (log : List Event) (e : Event) → WellFormed limits (log ++ e ∷ [])
            → EndsSection log thread lock e → number ≡ ended log lock + 1
            → StandsFor log self.old → StandsFor (log ++ e ∷ []) self.new }
        ensures kept { KeepsReady self.old self.new }
        ensures memory { SameMemory self.old self.new }
    {
        close_under(&mut self.cells, &mut self.locks, thread, lock, number);
    }

    /// The numbers of the sections that an access of the kind meets under the lock: the newest by
    /// another thread with a store, and for a store then also the newest with a load. Takes no memory.
    #[inline(always)]
    pub fn sources(&self, thread: ThreadId, lock: LockId, var: VarId, kind: AccessKind) -> Sources
        ensures exact { left result ≡ sources_of self.now lock.0 var.0 kind thread.0 }
        ensures at_most { length (left result) ≤ most_sources kind }
        ensures paired { (log : List Event) (e : Event) → IsAccessBy thread var kind e
            → 0 < depth log thread lock → StandsFor log self.now → AreSources log e lock (left result) }
    {
        sources_under(&self.cells, &self.locks, thread, lock, var, kind)
    }
}
