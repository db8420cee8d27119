//! The numbers of a release's clock from just before it, in 32 bits each.
ghost use Rattle.std.specs.Prelude.{◌≡◌, ℕ, ◌+◌, ◌<◌, ◌≤◌, ◌^◌, ◌++◌, length, vec_capacity};
ghost use Rattle.hb_clocks.specs.Counts.{counts_of};
ghost use Rattle.hb_clocks.specs.Releases.{before, lowered};

use event_core::ThreadId;

// A number of 32 bits is below this.
const NUMBERS: u64 = 4294967296;

// The numbers just before the release by the thread join the others, for which there is memory.
pub(crate) fn push_before(numbers: &mut Vec<u32>, release: &[u64], by: ThreadId)
    requires room { length numbers.old.items + length release.now ≤ vec_capacity numbers.old }
    requires own { by.0 < length release.now }
    requires counted { 0 < counts_of release.now by.0 }
    requires few { (u : ℕ) → before by.0 (counts_of release.now) u < 2 ^ 32 }
    ensures items { numbers.new.items ≡ numbers.old.items ++ lowered by.0 release.now }
    ensures memory { vec_capacity numbers.old ≤ vec_capacity numbers.new }
{
    let start = numbers.len();
    // There is memory for them, so this takes none and succeeds.
    if numbers.resize(start + release.len(), 0).is_ok() {
        write_before(&mut numbers[start..], release, by);
    }
}

// The list becomes the numbers just before the release by the thread.
#[inline(always)]
fn write_before(numbers: &mut [u32], release: &[u64], by: ThreadId)
    requires widths { length numbers.old ≡ length release.now }
    requires own { by.0 < length release.now }
    requires counted { 0 < counts_of release.now by.0 }
    requires few { (u : ℕ) → before by.0 (counts_of release.now) u < 2 ^ 32 }
    ensures { numbers.new ≡ lowered by.0 release.now }
{
    write_low(numbers, release);
    numbers[by.0 as usize] = number_before(release, by);
}

// The list becomes those of the counts that are below 2^32, and any number for another. It is as long as they
// are, so that no place is tested in the loop, and it goes over several numbers at a time.
#[inline(always)]
fn write_low(numbers: &mut [u32], counts: &[u64])
    requires { length numbers.old ≡ length counts.now }
    ensures width { length numbers.new ≡ length counts.now }
    ensures low { (u : ℕ) → u < length counts.now → counts_of counts.now u < 2 ^ 32
        → counts_of numbers.new u ≡ counts_of counts.now u }
{
    for u in 0..counts.len() {
        numbers[u] = (counts[u] % NUMBERS) as u32;
    }
}

// How many events of the thread of the release there were just before it.
fn number_before(release: &[u64], by: ThreadId) -> u32
    requires within { by.0 < length release.now }
    requires counted { 0 < counts_of release.now by.0 }
    requires few { before by.0 (counts_of release.now) by.0 < 2 ^ 32 }
    ensures { result ≡ before by.0 (counts_of release.now) by.0 }
{
    (release[by.0 as usize] - 1) as u32
}
