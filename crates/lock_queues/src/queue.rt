//! The closed sections of one lock, and how many of them each thread has found counted.
//!
//! What is kept of a lock grows with the threads that use it: a number for each thread up to the
//! greatest, and a slot for each that is in its section or about to enter it, mostly one. So a slot
//! is found by looking through them.
ghost use Rattle.std.specs.Prelude.{◌≡◌, ◌≤◌, length, max, slice_index, OnOk};

use crate::sections::{ClosedSections, Entry};
use crate::slots::{Slot, find};
use event_core::{OutOfMemory, ThreadId, grow_to, reserve};
use hb_clocks::{Clock, Mark, ReleaseClock, ReleaseClocks, Work, search_marks};
use std::alloc::Global;
use std::marker::Model;

#[derive(Drop)]
pub(crate) struct Queue {
    width: usize,
    // The closed sections, in the order of their releases, whose clocks never go down. There is memory for
    // one more of each slot.
    entries: ClosedSections,
    slots: Vec<Slot>,
    // By the number of the thread, how many of the first closed sections it has found counted.
    found: Vec<usize>,
}

impl Model for Queue {
    ghost use Rattle.std.specs.Prelude.{max, vec_capacity};
    ghost use Rattle.lock_queues.specs.Queue.{OneQueue, IsKept};

    ghost Value = { OneQueue };

    ghost view = { λ q. record {
      width = q.width;
      entries = q.entries.entries;
      slots = q.slots.items;
      found = q.found.items;
      most = q.entries.most;
      reserved = max q.entries.reserved (max (vec_capacity q.slots) (vec_capacity q.found));
    } };

    ghost invariant = { λ q.
        IsKept q.width q.entries.entries q.slots.items q.found.items q.entries.most };
}

impl Queue {
    ghost use Rattle.std.specs.Prelude.{◌≡◌, ℕ, ◌+◌, ◌-◌, ◌*◌, ◌<◌, ◌≤◌, ◌^◌, length, max, cond, true, false};
    ghost use Rattle.std.specs.Prelude.{MatchOption, IsTrue, OnOk, OnErr, slice_index};
    ghost use Rattle.event_core.specs.Rows.{with_row};
    ghost use Rattle.hb_clocks.specs.Counts.{counts_of};
    ghost use Rattle.lock_queues.specs.Slots.{has_slot, opened_in};
    ghost use Rattle.hb_clocks.specs.Releases.{before};
    ghost use Rattle.lock_queues.specs.Sections.{entry_at, section_of, CoversEntry, AreReadable, HasJoined};
    ghost use Rattle.lock_queues.specs.Searched.{IsSection};
    ghost use Rattle.lock_queues.specs.Queue.{SameMeaning, no_queue, places_for};

    // No sections.
    pub(crate) fn new(alloc: Global, width: usize) -> Queue
        ensures { result ≡ record no_queue { width = width } }
    {
        Queue {
            width,
            entries: ClosedSections::new(alloc),
            slots: Vec::new(alloc),
            found: Vec::new(alloc),
        }
    }

    // Whether the thread has a slot.
    pub(crate) fn ready(&self, thread: ThreadId) -> bool
        ensures { result ≡ has_slot self.now.slots thread.0 }
    {
        find(&self.slots, thread) < self.slots.len()
    }

    // Makes a slot for a thread that has none, with memory for its section except the numbers of the release.
    pub(crate) fn prepare(&mut self, thread: ThreadId) -> Result<(), OutOfMemory>
        requires none { has_slot self.old.slots thread.0 ≡ false }
        ensures same { SameMeaning self.old self.new }
        ensures ok { OnOk result
            (has_slot self.new.slots ≡ with_row thread.0 true (has_slot self.old.slots)) }
        ensures more { OnOk result (length self.new.slots ≡ length self.old.slots + 1) }
        ensures err { OnErr result (self.new.slots ≡ self.old.slots) }
        ensures most { length self.new.found ≤ max (length self.old.found) (thread.0 + 1) }
        ensures places { self.new.reserved ≤ max self.old.reserved (2 * places_for self.old thread.0) }
    {
        self.reserve(thread)?;
        reserve(&mut self.slots, 1)?;
        self.slots.push_reserved(Slot {
            thread,
            opened: None,
        });
        Ok(())
    }

    // Memory for what a slot more needs, except the slot itself.
    fn reserve(&mut self, thread: ThreadId) -> Result<(), OutOfMemory>
        ensures same { SameMeaning self.old self.new }
        ensures slots { self.new.slots ≡ self.old.slots }
        ensures most { length self.new.found ≤ max (length self.old.found) (thread.0 + 1) }
        ensures found { OnOk result (thread.0 < length self.new.found) }
        ensures spare { OnOk result
            (length self.new.entries + (length self.new.slots + 1) ≤ self.new.most) }
        ensures places { self.new.reserved ≤ max self.old.reserved (2 * places_for self.old thread.0) }
    {
        grow_to(&mut self.found, thread.0 as usize + 1, || 0)?;
        self.entries.prepare(self.slots.len() + 1)
    }

    // The thread's section is open from the event on.
    pub(crate) fn enter(&mut self, thread: ThreadId, mark: Mark)
        requires slot { IsTrue (has_slot self.old.slots thread.0) }
        requires own { mark.thread ≡ thread.0 }
        ensures opened { opened_in self.new.slots
            ≡ with_row thread.0 mark.position (opened_in self.old.slots) }
        ensures slots { has_slot self.new.slots ≡ has_slot self.old.slots }
        ensures many { length self.new.slots ≡ length self.old.slots }
        ensures entries { self.new.entries ≡ self.old.entries }
        ensures found { self.new.found ≡ self.old.found }
        ensures width { self.new.width ≡ self.old.width }
        ensures reserved { self.new.reserved ≡ self.old.reserved }
    {
        let at = find(&self.slots, thread);
        let slot = &mut self.slots[at];
        slot.enter(mark);
    }

    // The thread's open section is closed with the clock of its release, which joins those of the others.
    pub(crate) fn leave(&mut self, releases: &mut ReleaseClocks, thread: ThreadId, clock: &Clock)
        requires entered { 0 < opened_in self.old.slots thread.0 }
        requires width { length clock.now ≡ self.old.width }
        requires small { self.old.width < 2 ^ 32 }
        requires counted { 0 < counts_of clock.now thread.0 }
        requires few { (u : ℕ) → before thread.0 (counts_of clock.now) u < 2 ^ 32 }
        requires memory { length releases.old.numbers + self.old.width ≤ releases.old.most }
        ensures joined { HasJoined releases.old.numbers releases.new.numbers self.old.entries
            self.new.entries thread.0 (opened_in self.old.slots thread.0) self.old.width
            (counts_of clock.now) }
        ensures opened { opened_in self.new.slots ≡ with_row thread.0 0 (opened_in self.old.slots) }
        ensures slots { has_slot self.new.slots ≡ with_row thread.0 false (has_slot self.old.slots) }
        ensures many { length self.new.slots + 1 ≡ length self.old.slots }
        ensures found { self.new.found ≡ self.old.found }
        ensures width { self.new.width ≡ self.old.width }
        ensures reserved { self.new.reserved ≡ self.old.reserved }
        ensures memory { releases.old.most ≤ releases.new.most }
    {
        let at = find(&self.slots, thread);
        let slot = self.slots.remove(at);
        let acquire = slot.opened.unwrap();
        let place = releases.push(thread, clock);
        self.entries.push(Entry { acquire, place });
    }

    // How many of the sections the clock counts, which the thread then has found.
    pub(crate) fn find_counted(&mut self, thread: ThreadId, clock: &Clock, work: &mut Work) -> usize
        requires slot { IsTrue (has_slot self.old.slots thread.0) }
        requires width { length clock.now ≡ self.old.width }
        requires before { (k : ℕ) → k < slice_index self.old.found thread.0
            → CoversEntry self.old.entries clock.now k }
        requires few { work.old.comparisons + length self.old.entries < 2 ^ 63 }
        ensures counted { (k : ℕ) → k < result → CoversEntry self.old.entries clock.now k }
        ensures stopped { result < length self.old.entries → CoversEntry self.old.entries clock.now result
            → ⊥ }
        ensures within { result ≤ length self.old.entries }
        ensures found { slice_index self.new.found
            ≡ with_row thread.0 result (slice_index self.old.found) }
        ensures entries { self.new.entries ≡ self.old.entries }
        ensures slots { self.new.slots ≡ self.old.slots }
        ensures width { self.new.width ≡ self.old.width }
        ensures reserved { self.new.reserved ≡ self.old.reserved }
        ensures joins { work.new.joins ≡ work.old.joins }
        ensures most { work.new.comparisons + slice_index self.old.found thread.0
            ≤ work.old.comparisons + result + 1 }
        ensures least { work.old.comparisons + result
            ≤ work.new.comparisons + slice_index self.old.found thread.0 }
    {
        let at = thread.0 as usize;
        let acquires = self.entries.acquires();
        let more = search_marks(acquires, self.found[at], clock, work);
        self.found[at] = more;
        more
    }

    // The clock of the release of the latest section that the thread has found.
    pub(crate) fn latest<'a>(
        &self,
        releases: &'a ReleaseClocks,
        thread: ThreadId,
    ) -> Option<ReleaseClock<'a>>
        requires slot { IsTrue (has_slot self.now.slots thread.0) }
        requires readable { AreReadable releases.now.numbers self.now.entries }
        ensures { MatchOption result (slice_index self.now.found thread.0 ≡ 0)
            (λ answer. (0 < slice_index self.now.found thread.0)
            × IsSection answer self.now.width
            (section_of releases.now.numbers
            (entry_at self.now.entries (slice_index self.now.found thread.0 - 1)))) }
    {
        let number = self.found[thread.0 as usize];
        if number == 0 {
            return None;
        }
        Some(self.section(releases, number - 1))
    }

    // How many sections are closed.
    pub(crate) fn count(&self) -> usize
        ensures { result ≡ length self.now.entries }
    {
        self.entries.len()
    }

    // The clock of the release of the closed section at the place.
    pub(crate) fn section<'a>(&self, releases: &'a ReleaseClocks, at: usize) -> ReleaseClock<'a>
        requires within { at < length self.now.entries }
        requires readable { AreReadable releases.now.numbers self.now.entries }
        ensures { IsSection result self.now.width
            (section_of releases.now.numbers (entry_at self.now.entries at)) }
    {
        let entry = self.entries.at(at);
        releases.at(entry.acquire.thread(), &entry.place)
    }
}
