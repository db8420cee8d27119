//! Closed sections, as they are kept.
//!
//! The clocks of their releases stand one after another in one list for all locks. So a section takes no
//! block of memory of its own, and numbers for no more threads than there were; a release writes where the
//! one before it wrote, whatever its lock; and as the list grows it moves as a whole.
//!
//! The marks of a lock's acquires stand side by side, apart from the places of those clocks: a search reads
//! nothing else, and eight of them in a line of the cache.
ghost use Rattle.std.specs.Prelude.{◌≡◌};

use event_core::{OutOfMemory, reserve};
use hb_clocks::{Mark, ReleasePlace};
use std::alloc::Global;
use std::marker::Model;
use std::mem::size_of;

/// A closed section: the mark of its acquire, and where the clock of its release stands.
#[derive(Clone, Copy)]
pub(crate) struct Entry {
    pub(crate) acquire: Mark,
    pub(crate) place: ReleasePlace,
}

// A closed section takes so many bytes, and beside them 4 for each number of its release.
const _: () = prove!(size_of::<Mark>() + size_of::<ReleasePlace>() == 24);

/// The closed sections of one lock, in the order of their releases.
#[derive(Drop)]
pub(crate) struct ClosedSections {
    acquires: Vec<Mark>,
    places: Vec<ReleasePlace>,
}

impl Model for ClosedSections {
    ghost use Rattle.std.specs.Prelude.{◌≡◌, length, min, max, vec_capacity};
    ghost use Rattle.lock_queues.specs.Sections.{Listed, entries_of};

    ghost Value = { Listed };

    ghost view = { λ s. record {
      entries = entries_of s.acquires.items s.places.items;
      most = min (vec_capacity s.acquires) (vec_capacity s.places);
      reserved = max (vec_capacity s.acquires) (vec_capacity s.places);
    } };

    ghost invariant = { λ s. length s.acquires.items ≡ length s.places.items };
}

impl ClosedSections {
    ghost use Rattle.std.specs.Prelude.{◌≡◌, ◌+◌, ◌*◌, ◌<◌, ◌≤◌, ◌∷◌, ◌++◌, [], length, max, OnOk};
    ghost use Rattle.lock_queues.specs.Sections.{entry_at, acquires_of};

    // None. It takes no memory.
    pub(crate) fn new(alloc: Global) -> ClosedSections
        ensures { result ≡ record { entries = []; most = 0; reserved = 0 } }
    {
        ClosedSections {
            acquires: Vec::new(alloc),
            places: Vec::new(alloc),
        }
    }

    // How many there are.
    #[tactic(auto, using(crate::proofs::EntriesProperties::count_listed))]
    pub(crate) fn len(&self) -> usize
        ensures { result ≡ length self.now.entries }
    {
        self.acquires.len()
    }

    // Makes room for so many more.
    #[tactic(auto, using(crate::proofs::EntriesProperties::count_listed))]
    pub(crate) fn prepare(&mut self, more: usize) -> Result<(), OutOfMemory>
        ensures same { self.new.entries ≡ self.old.entries }
        ensures larger { self.old.most ≤ self.new.most }
        ensures ok { OnOk result (length self.new.entries + more ≤ self.new.most) }
        ensures reserved { self.new.reserved ≤ max self.old.reserved (2 * (length self.old.entries + more)) }
    {
        reserve(&mut self.acquires, more)?;
        reserve(&mut self.places, more)?;
        Ok(())
    }

    // One more, for which there is room.
    #[tactic(auto, using(crate::proofs::EntriesProperties::count_listed))]
    pub(crate) fn push(&mut self, entry: Entry)
        requires { length self.old.entries < self.old.most }
        ensures entries { self.new.entries ≡ self.old.entries ++ entry ∷ [] }
        ensures most { self.old.most ≤ self.new.most }
        ensures reserved { self.new.reserved ≡ self.old.reserved }
    {
        self.acquires.push_reserved(entry.acquire);
        self.places.push_reserved(entry.place);
    }

    // The one at the place.
    #[tactic(auto, using(crate::proofs::EntriesProperties::count_listed))]
    pub(crate) fn at(&self, at: usize) -> Entry
        requires { at < length self.now.entries }
        ensures { result ≡ entry_at self.now.entries at }
    {
        Entry {
            acquire: self.acquires[at],
            place: self.places[at],
        }
    }

    // The marks of their acquires.
    pub(crate) fn acquires(&self) -> &[Mark]
        ensures { result.now ≡ acquires_of self.now.entries }
    {
        &self.acquires
    }
}
