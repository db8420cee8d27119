//! The first line of a text, found with its bars by one look at 32 or 64 bytes.
ghost use Rattle.std.specs.Prelude.{◌≡◌, ◌≢◌, ℕ, ◌+◌, ◌<◌, ◌≤◌, count_ones, length, Some, IfSome};
ghost use Rattle.std.specs.Int.{bit_at, trailing_zeros, w64};
ghost use Rattle.rapid_line.specs.Cut.{cut};
ghost use Rattle.rapid_line.specs.Marks.{IsMarked, IsKnown, Tell};

use std::simd::prelude::*;

/// Bit k says whether byte k of the text is this byte.
#[inline(always)]
fn places<const SEEN: usize>(text: &[u8], byte: u8) -> u64
    requires few { SEEN ≤ 64 }
    requires long { SEEN ≤ length text.now }
    ensures { Tell SEEN text.now byte result }
{
    Simd::<u8, SEEN>::from_slice(text)
        .simd_eq(Simd::splat(byte))
        .to_bitmask()
}

/// The bits without the lowest that is set.
#[inline(always)]
fn without_lowest(bits: u64) -> u64
    requires { bits ≢ 0 }
    ensures later { (k : ℕ) → bit_at result k ≡ 1 → trailing_zeros w64 bits < k }
    ensures kept { (k : ℕ) → k ≢ trailing_zeros w64 bits → bit_at result k ≡ bit_at bits k }
    ensures fewer { count_ones bits ≡ count_ones result + 1 }
{
    bits & (bits - 1)
}

/// Bit k says whether byte k of the first line is this byte, which is no LF. The places of the LFs are known.
#[inline(always)]
fn places_in_line<const SEEN: usize>(text: &[u8], byte: u8, ends: u64) -> u64
    requires few { SEEN ≤ 64 }
    requires long { SEEN ≤ length text.now }
    requires ends { Tell SEEN text.now 10 ends }
    requires some { ends ≢ 0 }
    requires no_lf { byte ≢ 10 }
    ensures { Tell (trailing_zeros w64 ends) text.now byte result }
{
    // The bits below the lowest LF's, and those of later LFs, which are no such byte.
    places::<SEEN>(text, byte) & (ends - 1)
}

/// Where the two bars of the first line stand, and where it ends.
#[derive(Clone, Copy)]
struct Marks {
    first_bar: usize,
    second_bar: usize,
    end: usize,
}

/// The marks of the first line, where it has two bars and no CR, and so many bytes show them all.
#[inline(always)]
fn marks_of<const SEEN: usize>(text: &[u8]) -> Option<Marks>
    requires { SEEN ≤ 64 }
    ensures { IfSome result (IsMarked text.now) }
{
    if text.len() < SEEN {
        return None;
    }
    let ends = places::<SEEN>(text, b'\n');
    if ends == 0 {
        return None;
    }
    let bars = places_in_line::<SEEN>(text, b'|', ends);
    if bars.count_ones() != 2 || places_in_line::<SEEN>(text, b'\r', ends) != 0 {
        return None;
    }
    Some(Marks {
        first_bar: bars.trailing_zeros() as usize,
        second_bar: without_lowest(bars).trailing_zeros() as usize,
        end: ends.trailing_zeros() as usize,
    })
}

/// A line without its LF, and where its two bars stand, if that is known.
#[derive(Clone, Copy, Debug)]
pub struct Line<'a> {
    pub bytes: &'a [u8],
    pub bars: Option<(usize, usize)>,
}

/// The first line of the text with its bars, and what follows it.
///
/// None, unless the text has so many bytes, and the line ends within these, has two bars and no CR. Another
/// line is found by its LF, and its bars when it is read.
#[inline(always)]
pub(crate) fn first_line<const SEEN: usize>(text: &[u8]) -> Option<(Line<'_>, &[u8])>
    requires { SEEN ≤ 64 }
    ensures cut { IfSome result (λ p. cut 10 text.now ≡ Some (p.0.bytes.now, p.1.now)) }
    ensures known { IfSome result (λ p. IsKnown p.0) }
{
    let marks = marks_of::<SEEN>(text)?;
    let line = Line {
        bytes: &text[..marks.end],
        bars: Some((marks.first_bar, marks.second_bar)),
    };
    Some((line, &text[marks.end + 1..]))
}
