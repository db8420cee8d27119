//! The search among marks that lie side by side.
ghost use Rattle.std.specs.Prelude.{◌≡◌, ℕ, ◌+◌, ◌<◌, ◌≤◌, ◌^◌, length};
ghost use Rattle.hb_clocks.specs.Marks.{mark_at, Covers};

use crate::clock::Clock;
use crate::mark::Mark;
use crate::work::Work;
use std::mem::replace;

/// How many of the marks the clock counts one after another from the first, of which so many are known to be.
/// The first of the others that is not counted ends the search. Each that is asked for is one comparison.
pub fn search_marks(marks: &[Mark], known: usize, clock: &Clock, work: &mut Work) -> usize
    requires within { known ≤ length marks.now }
    requires widths { (k : ℕ) → k < length marks.now → (mark_at marks.now k).thread < length clock.now }
    requires few { work.old.comparisons + length marks.now < 2 ^ 63 + known }
    requires before { (k : ℕ) → k < known → Covers clock.now (mark_at marks.now k) }
    ensures counted { (k : ℕ) → k < result → Covers clock.now (mark_at marks.now k) }
    ensures stopped { result < length marks.now → Covers clock.now (mark_at marks.now result) → ⊥ }
    ensures within { result ≤ length marks.now }
    ensures joins { work.new.joins ≡ work.old.joins }
    ensures most { work.new.comparisons + known ≤ work.old.comparisons + result + 1 }
    ensures least { work.old.comparisons + result ≤ work.new.comparisons + known }
{
    // The count stands beside the loop, so that no comparison writes to memory.
    let mut done = replace(work, Work::new());
    let mut more = known;
    'searching: while more < marks.len() {
        if !marks[more].counted(clock, &mut done) {
            break;
        }
        more += 1;
    }
    *work = done;
    more
}
