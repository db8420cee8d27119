//! Steps on tables of clocks, a row a thread or a lock. A row without numbers was not made yet.
ghost use Rattle.std.specs.Prelude.{◌≡◌, ◌≢◌, ℕ, ◌+◌, ◌*◌, ◌<◌, ◌^◌, ◌≤◌, ◌↔◌, length, replicate, OnOk};
ghost use Rattle.std.specs.Prelude.{max, IsOk, IsTrue, vec_capacity};
ghost use Rattle.event_core.specs.Rows.{join, bump, with_row};
ghost use Rattle.hb_clocks.specs.Counts.{counts_of};
ghost use Rattle.hb_clocks.specs.Released.{before_of, clock_of};
ghost use Rattle.hb_clocks.specs.Rows.{rows_of, widths_of, IsMade, AreWide};

use crate::clock::Clock;
use crate::release::ReleaseClock;
use crate::work::Work;
use event_core::{OutOfMemory, ThreadId, grow_to};
use std::alloc::Global;

/// The row takes the greater numbers of the other clock, counted as one join.
pub fn join_row(rows: &mut [Clock], at: usize, other: &Clock, work: &mut Work)
    requires room { at < length rows.old }
    requires wide { widths_of rows.old at ≡ length other.now }
    requires few { work.old.joins < 2 ^ 63 }
    ensures rows { rows_of rows.new
        ≡ with_row at (join (rows_of rows.old at) (counts_of other.now)) (rows_of rows.old) }
    ensures widths { widths_of rows.new ≡ widths_of rows.old }
    ensures work { work.new ≡ record work.old { joins = work.old.joins + 1 } }
{
    rows[at].join(other, work);
}

/// The row takes the greater numbers of the clock of a release, counted as one join.
pub fn join_row_release(rows: &mut [Clock], at: usize, release: &ReleaseClock<'_>, work: &mut Work)
    requires room { at < length rows.old }
    requires within { length (before_of release.now) ≤ widths_of rows.old at }
    requires few { work.old.joins < 2 ^ 63 }
    ensures rows { rows_of rows.new
        ≡ with_row at (join (rows_of rows.old at) (clock_of release.now)) (rows_of rows.old) }
    ensures widths { widths_of rows.new ≡ widths_of rows.old }
    ensures work { work.new ≡ record work.old { joins = work.old.joins + 1 } }
{
    rows[at].join_release(release, work);
}

/// The row becomes the clock, uncounted.
pub fn copy_row(rows: &mut [Clock], at: usize, other: &Clock)
    requires room { at < length rows.old }
    requires wide { widths_of rows.old at ≡ length other.now }
    ensures rows { rows_of rows.new ≡ with_row at (counts_of other.now) (rows_of rows.old) }
    ensures widths { widths_of rows.new ≡ widths_of rows.old }
{
    rows[at].copy_from(other);
}

/// One row takes the greater numbers of another, counted as one join.
pub fn join_rows(rows: &mut [Clock], to: usize, from: usize, work: &mut Work)
    requires to { to < length rows.old }
    requires from { from < length rows.old }
    requires apart { from ≢ to }
    requires wide { widths_of rows.old to ≡ widths_of rows.old from }
    requires few { work.old.joins < 2 ^ 63 }
    ensures rows { rows_of rows.new ≡ with_row to (join (rows_of rows.old to) (rows_of rows.old from))
        (rows_of rows.old) }
    ensures widths { widths_of rows.new ≡ widths_of rows.old }
    ensures work { work.new ≡ record work.old { joins = work.old.joins + 1 } }
{
    if from < to {
        let (below, above) = rows.split_at_mut(to);
        join_row(above, 0, &below[from], work);
    } else {
        let (below, above) = rows.split_at_mut(from);
        join_row(below, to, &above[0], work);
    }
}

/// One row becomes as another, uncounted.
pub fn copy_rows(rows: &mut [Clock], to: usize, from: usize)
    requires to { to < length rows.old }
    requires from { from < length rows.old }
    requires apart { from ≢ to }
    requires wide { widths_of rows.old to ≡ widths_of rows.old from }
    ensures rows { rows_of rows.new ≡ with_row to (rows_of rows.old from) (rows_of rows.old) }
    ensures widths { widths_of rows.new ≡ widths_of rows.old }
{
    if from < to {
        let (below, above) = rows.split_at_mut(to);
        copy_row(above, 0, &below[from]);
    } else {
        let (below, above) = rows.split_at_mut(from);
        copy_row(below, to, &above[0]);
    }
}

// A thread's own number grows by one.
pub(crate) fn bump_row(rows: &mut [Clock], thread: ThreadId)
    requires room { thread.0 < length rows.old }
    requires within { thread.0 < widths_of rows.old thread.0 }
    requires few { rows_of rows.old thread.0 thread.0 + 1 < 2 ^ 64 }
    ensures rows { rows_of rows.new
        ≡ with_row thread.0 (bump thread.0 (rows_of rows.old thread.0)) (rows_of rows.old) }
    ensures widths { widths_of rows.new ≡ widths_of rows.old }
{
    let row = &mut rows[thread.0 as usize];
    let count = row.at(thread);
    row.set(thread, count + 1);
}

/// Whether the row's clock was made.
pub fn is_made(rows: &[Clock], width: usize, at: usize) -> bool
    requires { 0 < width }
    ensures { IsTrue result ↔ IsMade width rows.now at }
{
    at < rows.len() && rows[at].width() == width
}

/// The row's clock, or else that of zeros, which have its width.
pub fn row_or<'a>(rows: &'a [Clock], at: usize, zeros: &'a Clock) -> &'a Clock
    requires wide { AreWide (length zeros.now) rows.now }
    requires zeros { zeros.now ≡ replicate (length zeros.now) 0 }
    ensures width { length result.now ≡ length zeros.now }
    ensures counts { counts_of result.now ≡ rows_of rows.now at }
{
    if rows.len() <= at {
        return zeros;
    }
    let row = &rows[at];
    if row.width() == 0 {
        return zeros;
    }
    row
}

/// Makes the row's clock, with zeros, where it was not made, and no other clock. A refused growth is answered
/// by `OutOfMemory`, and changes no number.
pub fn make_row(
    rows: &mut Vec<Clock>,
    alloc: Global,
    width: usize,
    at: usize,
) -> Result<(), OutOfMemory>
    requires wide { AreWide width rows.old.items }
    requires at { at < 2 ^ 32 }
    ensures same { rows_of rows.new.items ≡ rows_of rows.old.items }
    ensures wide { AreWide width rows.new.items }
    ensures kept { (t : ℕ) → IsMade width rows.old.items t → IsMade width rows.new.items t }
    ensures others { (t : ℕ) → t ≢ at → widths_of rows.new.items t ≡ widths_of rows.old.items t }
    ensures most { length rows.new.items ≤ max (length rows.old.items) (at + 1) }
    ensures room { vec_capacity rows.new ≤ max (vec_capacity rows.old) (2 * (at + 1)) }
    ensures made { OnOk result (IsMade width rows.new.items at) }
    ensures again { 0 < width → IsMade width rows.old.items at → IsOk result }
{
    grow_to(rows, at + 1, || Clock::unmade(alloc))?;
    if rows[at].width() == 0 {
        rows[at] = Clock::new(alloc, width)?;
    }
    Ok(())
}
