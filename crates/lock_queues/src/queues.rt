//! The closed critical sections of all locks.
//!
//! Rule (b) of weak causal precedence asks, at a release, for the sections on the lock that the
//! thread's strict clock reaches: of two sections on one lock, if some event of the first strictly
//! precedes some event of the second, the first release strictly precedes the second (Kini, Mathur
//! and Viswanathan, "Dynamic Race Prediction in Linear Time", PLDI 2017). Their algorithm keeps a
//! queue for each lock and thread. Here one list a lock serves all threads, each with a cursor: the
//! sections on one lock are ordered, so that a clock which counts one acquire counts all earlier
//! ones, and the latest counted section brings what the others bring.
//!
//! Rule (a) asks for single sections, by their numbers: so what names a section keeps its number alone, and
//! the clock of its release is kept once, here.
ghost use Rattle.std.specs.Prelude.{◌≡◌, ℕ, ◌*◌, ◌≤◌, length, max, vec_capacity, OnOk};
ghost use Rattle.lock_queues.specs.Queue.{AreAlike};
ghost use Rattle.lock_queues.specs.Queues.{AreWide, count_slots};

use crate::queue::Queue;
use event_core::{Limits, LockId, OutOfMemory, ThreadId, grow_to};
use hb_clocks::{Clock, Mark, ReleaseClock, ReleaseClocks, Work};
use std::alloc::Global;
use std::marker::Model;

/// Of each lock its closed critical sections in the order of their releases, and of each thread how
/// many of them it has found counted.
///
/// A section runs from an outer acquire to the matching outer release. A thread's own sections are
/// among those that it asks for.
#[derive(Drop)]
pub struct Queues {
    alloc: Global,
    limits: Limits,
    // By the number of the lock, as far as `make_room` went.
    queues: Vec<Queue>,
    // Of all closed sections. There is memory for those of one more of each slot.
    releases: ReleaseClocks,
    // How many slots there are on all locks.
    slots: usize,
}

impl Model for Queues {
    ghost use Rattle.std.specs.Prelude.{vec_capacity};
    ghost use Rattle.lock_queues.specs.Queues.{AllQueues, AreKept};

    ghost Value = { AllQueues };

    ghost view = { λ a. record {
      limits = a.limits;
      queues = a.queues.items;
      numbers = a.releases.numbers;
      queue_room = vec_capacity a.queues;
      number_room = a.releases.most;
    } };

    ghost invariant = { λ a.
        AreKept a.limits.threads a.queues.items a.releases.numbers a.slots a.releases.most };
}

impl Queues {
    ghost use Rattle.std.specs.Prelude.{◌≡◌, ℕ, ◌+◌, ◌-◌, ◌<◌, ◌≤◌, ◌^◌, ◌∷◌, ◌++◌, [], List, length, true};
    ghost use Rattle.std.specs.Prelude.{false, IfOk, OnOk, OnErr, IsOk, IfSome, IsTrue, IsSomeAnd};
    ghost use Rattle.std.specs.Prelude.{MatchOption};
    ghost use Rattle.std.specs.Borrow.{sem};
    ghost use Rattle.std.specs.Io.BufRead.{Rests};
    ghost use Rattle.event_core.specs.declared.events.Event.{Event};
    ghost use Rattle.event_core.specs.declared.bounds.Limits.{Limits};
    ghost use Rattle.event_core.specs.Refusal.{WellFormed};
    ghost use Rattle.event_core.specs.Order.{Hb};
    ghost use Rattle.event_core.specs.Closed.{OpensSection, EndsSection, below_closed};
    ghost use Rattle.event_core.specs.Rows.{no_clock, with_row, Counted};
    ghost use Rattle.hb_clocks.specs.Counts.{counts_of};
    ghost use Rattle.hb_clocks.specs.Marks.{Names};
    ghost use Rattle.hb_clocks.specs.Released.{thread_of, before_of, clock_of};
    ghost use Rattle.hb_clocks.specs.Releases.{before};
    ghost use Rattle.lock_queues.specs.Queues.{closed_of, opened_of, found_of, is_ready, counted_of};
    ghost use Rattle.lock_queues.specs.Queues.{SameMeaning, GrownFor, SamePlaces, SameMemory};
    ghost use Rattle.lock_queues.specs.Sections.{closed_at, latest_counted};
    ghost use Rattle.lock_queues.specs.Searched.{CoversEarlier, FindsCounted, IsAboveAll, IsLatestBefore};
    ghost use Rattle.lock_queues.specs.Searched.{IsSection};
    ghost use Rattle.lock_queues.specs.Standing.{StandsFor, CountsNone, IsLatest};
    ghost use Rattle.lock_queues.specs.contracts.queues.Queues.{the_row};

    /// No sections, the clocks of whose releases are to be kept in the list. It takes no memory.
    pub fn new(
        alloc: Global,
        limits: Limits,
        releases: ReleaseClocks,
    ) -> Result<Queues, OutOfMemory>
        requires none { releases.numbers ≡ [] }
        ensures made { IsOk result }
        ensures limits { IfOk result (λ v. v.limits ≡ limits) }
        ensures closed { IfOk result (λ v. closed_of v ≡ (λ _. [])) }
        ensures opened { IfOk result (λ v. opened_of v ≡ (λ _ _. 0)) }
        ensures found { IfOk result (λ v. found_of v ≡ (λ _ _. 0)) }
        ensures stands { IfOk result (λ v. StandsFor [] v) }
        ensures ready { IfOk result (λ v. is_ready v ≡ (λ _ _. false)) }
    {
        Ok(Queues {
            alloc,
            limits,
            queues: Vec::new(alloc),
            releases,
            slots: 0,
        })
    }

    /// Makes room for the thread's next section on the lock: to enter it, to ask for the section below it and
    /// to leave it. Where there is room already, nothing changes.
    ///
    /// After a refusal all is as it was, and the call can be made again.
    pub fn make_room(&mut self, thread: ThreadId, lock: LockId) -> Result<(), OutOfMemory>
        ensures same { SameMeaning self.old self.new }
        ensures ok { OnOk result (is_ready self.new
            ≡ with_row thread.0 (with_row lock.0 true (is_ready self.old thread.0)) (is_ready self.old)) }
        ensures err { OnErr result (is_ready self.new ≡ is_ready self.old) }
        ensures again { IsTrue (is_ready self.old thread.0 lock.0) → IsOk result × (self.new ≡ self.old) }
        ensures grown { GrownFor self.old self.new thread.0 lock.0 }
    {
        if self.ready(thread, lock) {
            return Ok(());
        }
        let at = lock.0 as usize;
        let width = self.limits.threads() as usize;
        // Asked for its clause alone: there is memory for each slot's numbers, so those of one more can be
        // counted.
        let _capacity = self.releases.capacity();
        let slots = self.slots + 1;
        self.releases.prepare(slots * width)?;
        grow(&mut self.queues, self.alloc, width, at + 1)?;
        let queue = &mut self.queues[at];
        queue.prepare(thread)?;
        self.slots = slots;
        Ok(())
    }

    /// Whether there is room for the thread's next section on the lock, or for its open one.
    pub fn ready(&self, thread: ThreadId, lock: LockId) -> bool
        ensures ready { result ≡ is_ready self.now thread.0 lock.0 }
        ensures entered { 0 < opened_of self.now thread.0 lock.0 → IsTrue result }
    {
        let at = lock.0 as usize;
        at < self.queues.len() && self.queues[at].ready(thread)
    }

    /// The thread's section on the lock is open, from the event on that the mark names.
    pub fn enter(&mut self, thread: ThreadId, lock: LockId, mark: Mark)
        requires ready { IsTrue (is_ready self.old thread.0 lock.0) }
        requires own { mark.thread ≡ thread.0 }
        ensures opened { opened_of self.new
            ≡ with_row thread.0 (with_row lock.0 mark.position (opened_of self.old thread.0))
            (opened_of self.old) }
        ensures closed { closed_of self.new ≡ closed_of self.old }
        ensures found { found_of self.new ≡ found_of self.old }
        ensures stands { (limits : Limits) (log : List Event) (e : Event)
            → WellFormed limits (log ++ e ∷ []) → OpensSection log thread lock e
            → Names (log ++ e ∷ []) mark thread (length log)
            → StandsFor log self.old → StandsFor (log ++ e ∷ []) self.new }
        ensures ready { is_ready self.new ≡ is_ready self.old }
        ensures limits { self.new.limits ≡ self.old.limits }
        ensures memory { SameMemory self.old self.new }
    {
        let queue = &mut self.queues[lock.0 as usize];
        queue.enter(thread, mark);
    }

    /// The clock of the release of the latest closed section on the lock whose acquire the clock counts, if
    /// there is one. It is asked at the release of the thread's open section, before `leave`.
    ///
    /// The search begins after the sections that the thread has found before, and stops at the first
    /// that is not counted: as many comparisons as sections are newly found, or one more.
    pub fn last_below(
        &mut self,
        thread: ThreadId,
        lock: LockId,
        clock: &Clock,
        work: &mut Work,
    ) -> Option<ReleaseClock<'_>>
        requires entered { 0 < opened_of self.old thread.0 lock.0 }
        requires width { length clock.now ≡ self.old.limits.threads }
        requires before { found_of self.old lock.0 thread.0 ≤ counted_of self.old lock.0 clock.now }
        requires earlier { CoversEarlier (counts_of clock.now) (closed_of self.old lock.0) }
        requires few { work.old.comparisons + length (closed_of self.old lock.0) < 2 ^ 63 }

        // The answer: the latest of the sections that the clock counts, and all that they bring.
        ensures number { MatchOption result (counted_of self.old lock.0 clock.now ≡ 0)
            (λ _. 0 < counted_of self.old lock.0 clock.now) }
        ensures latest { MatchOption result
            (latest_counted (counts_of clock.now) (closed_of self.old lock.0) ≡ None)
            (λ answer. IsSomeAnd (latest_counted (counts_of clock.now) (closed_of self.old lock.0))
            (λ section. (section.thread ≡ (thread_of answer).0) × (section.release ≡ clock_of answer))) }
        ensures below { MatchOption result
            (below_closed (counts_of clock.now) (closed_of self.old lock.0) ≡ no_clock)
            (λ answer. clock_of answer ≡ below_closed (counts_of clock.now) (closed_of self.old lock.0)) }
        ensures in_log { (limits : Limits) (log : List Event) → WellFormed limits log
            → StandsFor log self.old → MatchOption result (CountsNone log lock (counts_of clock.now))
            (λ answer. IsLatest log lock (counts_of clock.now) (thread_of answer) (clock_of answer)) }
        ensures width { IfSome result (λ answer. length (before_of answer) ≤ self.old.limits.threads) }

        // What it costs.
        ensures comparisons { work.new.comparisons + found_of self.old lock.0 thread.0
            ≤ work.old.comparisons + counted_of self.old lock.0 clock.now + 1 }
        ensures no_fewer { work.old.comparisons + counted_of self.old lock.0 clock.now
            ≤ work.new.comparisons + found_of self.old lock.0 thread.0 }
        ensures joins { work.new.joins ≡ work.old.joins }

        // Once the answer is let go, the thread has found the counted sections. It took no memory.
        ensures* after { sem 𝓛 (Rests the_row self.entry (λ new.
            FindsCounted self.old new thread.0 lock.0 (counted_of self.old lock.0 clock.now)
            × SameMemory self.old new)) }
    {
        self.find_counted(thread, lock, clock, work);
        self.latest(thread, lock)
    }

    /// The thread's open section on the lock is closed, and the clock is that of its release, which it
    /// counts too. Just before it no thread has 2^32 events: a log has at most so many with the release.
    pub fn leave(&mut self, thread: ThreadId, lock: LockId, clock: &Clock)
        requires entered { 0 < opened_of self.old thread.0 lock.0 }
        requires width { length clock.now ≡ self.old.limits.threads }
        requires above { IsAboveAll (counts_of clock.now) (closed_of self.old lock.0) }
        requires counted { 0 < counts_of clock.now thread.0 }
        requires few { (u : ℕ) → before thread.0 (counts_of clock.now) u < 2 ^ 32 }
        ensures closed { closed_of self.new
            ≡ with_row lock.0 (closed_of self.old lock.0 ++ record {
              thread = thread.0;
              position = opened_of self.old thread.0 lock.0;
              release = counts_of clock.now;
            } ∷ []) (closed_of self.old) }
        ensures opened { opened_of self.new
            ≡ with_row thread.0 (with_row lock.0 0 (opened_of self.old thread.0)) (opened_of self.old) }
        ensures found { found_of self.new ≡ found_of self.old }
        ensures stands { (limits : Limits) (log : List Event) (e : Event)
            → WellFormed limits (log ++ e ∷ []) → EndsSection log thread lock e
            → Counted (log ++ e ∷ []) (λ i. Hb (log ++ e ∷ []) i (length log)) (counts_of clock.now)
            → StandsFor log self.old → StandsFor (log ++ e ∷ []) self.new }
        ensures ready { is_ready self.new
            ≡ with_row thread.0 (with_row lock.0 false (is_ready self.old thread.0)) (is_ready self.old) }
        ensures limits { self.new.limits ≡ self.old.limits }
        ensures places { SamePlaces self.old self.new }
    {
        // Asked for its clause alone: how many threads there may be at most.
        let _threads = self.limits.threads();
        let queue = &mut self.queues[lock.0 as usize];
        queue.leave(&mut self.releases, thread, clock);
        self.slots -= 1;
    }

    /// How many closed sections the lock has: the number of the newest.
    pub fn count(&self, lock: LockId) -> u32
        requires few { length (closed_of self.now lock.0) < 2 ^ 32 }
        ensures { result ≡ length (closed_of self.now lock.0) }
    {
        let at = lock.0 as usize;
        if at < self.queues.len() {
            self.queues[at].count() as u32
        } else {
            0
        }
    }

    /// The clock of the release of the lock's closed section with the number: its place in the order of their
    /// releases, from 1.
    pub fn section(&self, lock: LockId, number: u32) -> ReleaseClock<'_>
        requires some { 0 < number }
        requires within { number ≤ length (closed_of self.now lock.0) }
        ensures by { (thread_of result).0 ≡ (closed_at (closed_of self.now lock.0) (number - 1)).thread }
        ensures release { clock_of result ≡ (closed_at (closed_of self.now lock.0) (number - 1)).release }
        ensures width { length (before_of result) ≤ self.now.limits.threads }
    {
        let place = number as usize - 1;
        self.queues[lock.0 as usize].section(&self.releases, place)
    }

    // The thread finds how many of the lock's sections the clock counts.
    fn find_counted(&mut self, thread: ThreadId, lock: LockId, clock: &Clock, work: &mut Work)
        requires entered { 0 < opened_of self.old thread.0 lock.0 }
        requires width { length clock.now ≡ self.old.limits.threads }
        requires before { found_of self.old lock.0 thread.0 ≤ counted_of self.old lock.0 clock.now }
        requires earlier { CoversEarlier (counts_of clock.now) (closed_of self.old lock.0) }
        requires few { work.old.comparisons + length (closed_of self.old lock.0) < 2 ^ 63 }
        ensures found { FindsCounted self.old self.new thread.0 lock.0
            (counted_of self.old lock.0 clock.now) }
        ensures memory { SameMemory self.old self.new }
        ensures latest { IsLatestBefore (counts_of clock.now) (closed_of self.old lock.0)
            (counted_of self.old lock.0 clock.now) }
        ensures joins { work.new.joins ≡ work.old.joins }
        ensures comparisons { work.new.comparisons + found_of self.old lock.0 thread.0
            ≤ work.old.comparisons + counted_of self.old lock.0 clock.now + 1 }
        ensures no_fewer { work.old.comparisons + counted_of self.old lock.0 clock.now
            ≤ work.new.comparisons + found_of self.old lock.0 thread.0 }
    {
        let queue = &mut self.queues[lock.0 as usize];
        queue.find_counted(thread, clock, work);
    }

    // The clock of the release of the latest section that the thread has found.
    fn latest(&self, thread: ThreadId, lock: LockId) -> Option<ReleaseClock<'_>>
        requires entered { 0 < opened_of self.now thread.0 lock.0 }
        ensures { MatchOption result (found_of self.now lock.0 thread.0 ≡ 0)
            (λ answer. (0 < found_of self.now lock.0 thread.0)
            × IsSection answer self.now.limits.threads
            (closed_at (closed_of self.now lock.0) (found_of self.now lock.0 thread.0 - 1))) }
    {
        self.queues[lock.0 as usize].latest(&self.releases, thread)
    }
}

// Further locks have no sections.
fn grow(
    queues: &mut Vec<Queue>,
    alloc: Global,
    width: usize,
    count: usize,
) -> Result<(), OutOfMemory>
    requires wide { AreWide width queues.old.items }
    ensures same { AreAlike queues.old.items queues.new.items }
    ensures wide { AreWide width queues.new.items }
    ensures slots { count_slots queues.new.items ≡ count_slots queues.old.items }
    ensures more { length queues.old.items ≤ length queues.new.items }
    ensures most { length queues.new.items ≤ max (length queues.old.items) count }
    ensures room { vec_capacity queues.new ≤ max (vec_capacity queues.old) (2 * count) }
    ensures ok { OnOk result (count ≤ length queues.new.items) }
{
    grow_to(queues, count, || Queue::new(alloc, width))
}
