//! The last accesses of one variable: of each thread the last load and the last store, and after a store that
//! does not race nothing that was before it.
use crate::last_accesses::{LastAccess, LastAccesses, greater};
use event_core::{AccessKind, OutOfMemory, ThreadId, Verdict};
use hb_clocks::VectorTime;
use std::alloc::Global;
use std::mem::size_of;

// A variable takes so many bytes, and no other memory while it is accessed by one thread alone.
const _: () = prove!(size_of::<VariableAccesses>() == 80);

/// The last accesses of one variable, its loads and its stores.
#[derive(Drop)]
pub struct VariableAccesses {
    pub(crate) loads: LastAccesses,
    pub(crate) stores: LastAccesses,
}

impl VariableAccesses {
    ghost use Rattle.std.specs.Prelude.{◌≡◌, ◌+◌, ◌*◌, ◌≤◌, length, max, IsTrue, IsOk, OnOk};
    ghost use Rattle.event_core.specs.declared.ids.ThreadId.{ThreadId};
    ghost use Rattle.event_core.specs.declared.events.AccessKind.{AccessKind};
    ghost use Rattle.hb_clocks.specs.Counts.{counts_of};
    ghost use Rattle.access_check.specs.LastAccesses.{is_ready, AreNarrow, IsPackable};
    ghost use Rattle.access_check.specs.VariableAccesses.{no_accesses, of_kind, kept, latest_racing};
    ghost use Rattle.access_check.specs.VariableAccesses.{kept_after};

    /// No thread has accessed the variable.
    pub fn new(alloc: Global) -> VariableAccesses
        ensures { result ≡ no_accesses }
    {
        VariableAccesses {
            loads: LastAccesses::new(alloc),
            stores: LastAccesses::new(alloc),
        }
    }

    /// Makes room for an access of that kind by the thread.
    pub fn prepare(&mut self, thread: ThreadId, kind: AccessKind) -> Result<(), OutOfMemory>
        ensures same { (k : AccessKind) → kept k self.new ≡ kept k self.old }
        ensures more { (t : ThreadId) (k : AccessKind) → IsTrue (is_ready t (of_kind k self.old))
            → IsTrue (is_ready t (of_kind k self.new)) }
        ensures room { OnOk result (IsTrue (is_ready thread (of_kind kind self.new))) }
        ensures most { (k : AccessKind) → (of_kind k self.new).reserved
            ≤ max (of_kind k self.old).reserved (2 * (length (kept k self.old) + 1)) }
        ensures again { IsTrue (is_ready thread (of_kind kind self.old)) → IsOk result }
    {
        match kind {
            AccessKind::Read => self.loads.prepare(thread),
            AccessKind::Write => self.stores.prepare(thread),
        }
    }

    /// Whether there is room for an access of that kind by the thread.
    #[inline(always)]
    pub fn ready(&self, thread: ThreadId, kind: AccessKind) -> bool
        ensures { result ≡ is_ready thread (of_kind kind self.now) }
    {
        match kind {
            AccessKind::Read => self.loads.ready(thread),
            AccessKind::Write => self.stores.ready(thread),
        }
    }

    /// The access of that kind is its thread's last one. Where it is a store that does not race, all earlier
    /// accesses are ordered before it, and are forgotten. No room is taken but that of its kind.
    #[inline(always)]
    pub fn note(&mut self, kind: AccessKind, last: LastAccess, verdict: Verdict)
        requires packable { IsPackable last }
        requires room { IsTrue (is_ready last.thread (of_kind kind self.old)) }
        ensures accesses { (k : AccessKind) → kept k self.new ≡ kept_after verdict kind last k self.old }
        ensures room { (k : AccessKind) → IsTrue (is_ready last.thread (of_kind k self.old))
            → IsTrue (is_ready last.thread (of_kind k self.new)) }
        ensures memory { (k : AccessKind) → (of_kind k self.new).reserved ≡ (of_kind k self.old).reserved }
    {
        match (kind, verdict) {
            (AccessKind::Read, _) => self.loads.note(last),
            (AccessKind::Write, Verdict::Racy(_)) => self.stores.note(last),
            (AccessKind::Write, Verdict::Clear) => {
                self.loads.clear();
                self.stores.clear();
                self.stores.note(last);
            }
        }
    }

    /// The greatest index of an access that races with one of that kind by the thread.
    #[inline(always)]
    pub fn latest_racing<T: VectorTime>(
        &self,
        thread: ThreadId,
        kind: AccessKind,
        clock: &T,
    ) -> Option<u64>
        requires loads { AreNarrow (length (T.numbers clock.now)) (kept AccessKind.Read self.now) }
        requires stores { AreNarrow (length (T.numbers clock.now)) (kept AccessKind.Write self.now) }
        ensures { result ≡ latest_racing thread kind (counts_of (T.numbers clock.now)) self.now }
    {
        let stores = self.stores.latest_racing(thread, clock);
        match kind {
            AccessKind::Read => stores,
            AccessKind::Write => greater(self.loads.latest_racing(thread, clock), stores),
        }
    }
}
