//! A cache of the numbers of names.
//!
//! The set of names is searched by a hash of all the bytes and a comparison of them, through a table of its
//! own. The length and two words identify a name of up to sixteen bytes. So here it has a place by its
//! words, and each place has the entry of one name: most names are found by one read of memory. Where two
//! names have one place, the second goes to a place beside it; where all those are taken, the entry of an
//! earlier name goes. A longer name has no entry.
ghost use Rattle.std.specs.Prelude.{◌≡◌, ◌↔◌, ◌<◌, ◌≤◌, ◌⊎◌, ◌++◌, ◌-◌, ◌/◌, List, [], length};
ghost use Rattle.std.specs.Prelude.{take, drop, IfSome, IsTrue, OnOk};
ghost use Rattle.std.specs.Int.{to_le_bytes, w32, w64};
ghost use Rattle.rapid_text.specs.NumberCache.{IsOneOf, IsEntryOf, IsFound, HoldsNone, Tell, ends_of};
ghost use Rattle.rapid_text.specs.declared.number_cache.Entry.{Entry};

use std::alloc::{AllocError, Global};
use std::marker::Model;

/// How many places there are for the first names.
const FEWEST_PLACES: usize = 256;

/// The most places. Their entries take 1.5 MB.
const MOST_PLACES: usize = 65536;

/// How many places a name may have, which lie side by side.
const STEPS: usize = 4;

/// The most bytes of a name that words tell.
const MOST_HELD: usize = 16;

/// How many bytes a word has.
const WORD: usize = 8;

/// The weight of a word's last four bytes.
const HALF: u64 = 4294967296;

/// Whether a name may have an entry, where those of up to so many bytes may.
#[inline(always)]
fn fits_entry(name: &[u8], most: usize) -> bool
    ensures { IsTrue result ↔ (0 < length name.now) × (length name.now ≤ most) }
{
    // One test: for an empty name the left side is the greatest number.
    name.len().wrapping_sub(1) < most
}

/// The word whose bytes are those of the first and then those of the last.
#[inline(always)]
fn joined(first: u32, last: u32) -> u64
    ensures { to_le_bytes w64 result ≡ to_le_bytes w32 first ++ to_le_bytes w32 last }
{
    first as u64 + last as u64 * HALF
}

/// The word of a name of up to eight bytes: its first four bytes and its last four, which may be partly the
/// same. Of a name with fewer than four, it has the first, the middle and the last.
#[inline(always)]
fn ends_word(name: &[u8]) -> u64
    requires { 0 < length name.now }
    ensures { to_le_bytes w64 result ≡ ends_of name.now }
{
    let n = name.len();
    if n < 4 {
        return u64::from_le_bytes([name[0], name[n / 2], name[n - 1], 0, 0, 0, 0, 0]);
    }
    // Two numbers of four bytes each, since the compiler reads such a number by one load.
    joined(
        u32::from_le_bytes([name[0], name[1], name[2], name[3]]),
        u32::from_le_bytes([name[n - 4], name[n - 3], name[n - 2], name[n - 1]]),
    )
}

/// The word of eight bytes.
#[inline(always)]
fn word(bytes: &[u8; 8]) -> u64
    ensures { to_le_bytes w64 result ≡ bytes.now }
{
    u64::from_le_bytes(*bytes)
}

/// The word of the first eight bytes.
#[inline(always)]
fn first_word(name: &[u8]) -> u64
    requires { 8 ≤ length name.now }
    ensures { to_le_bytes w64 result ≡ take 8 name.now }
{
    word(name.first_chunk().unwrap())
}

/// The word of the last eight bytes.
#[inline(always)]
fn last_word(name: &[u8]) -> u64
    requires { 8 ≤ length name.now }
    ensures { to_le_bytes w64 result ≡ drop (length name.now - 8) name.now }
{
    word(name.last_chunk().unwrap())
}

/// Two words that tell a name of up to sixteen bytes: its first eight bytes and its last eight, which may be
/// partly the same. Of a name of up to eight, the last is 0.
#[derive(Clone, Copy)]
pub struct Words {
    pub(crate) first: u64,
    pub(crate) last: u64,
}

impl Words {
    /// The words of the name, and one word of both. The factor is odd, so that no bit of the last is lost. A
    /// name of up to eight bytes needs no product.
    #[inline(always)]
    fn of(name: &[u8]) -> (Words, u64)
        requires { 0 < length name.now }
        ensures { Tell result.0 name.now }
    {
        if name.len() <= WORD {
            let first = ends_word(name);
            return (Words { first, last: 0 }, first);
        }
        let first = first_word(name);
        let last = last_word(name);
        let mixed = first ^ last.wrapping_mul(0xd6e8_feb8_6659_fd93);
        (Words { first, last }, mixed)
    }
}

/// The place of the one word of a name. The mask is one less than a power of two, that of the places.
#[inline(always)]
fn place_by(mixed: u64, mask: usize) -> usize
    ensures { result ≤ mask }
{
    // The factor has the bits of the golden ratio. Both halves of the product together depend on all of the
    // word, also where its bytes are few digits.
    let product = mixed as u128 * 0x9e37_79b9_7f4a_7c15;
    let high = (product >> 64) as usize;
    let low = (product & 0xffff_ffff_ffff_ffff) as usize;
    (high ^ low) & mask
}

/// A place beside another, or that itself for step 0.
#[inline(always)]
fn beside(place: usize, step: usize, mask: usize) -> usize
    ensures { result ≤ mask }
{
    (place ^ step) & mask
}

/// A short name's number, its length and its words. Where there is no name, the length is 0.
#[derive(Clone, Copy)]
pub struct Entry {
    pub(crate) words: Words,
    pub(crate) number: u32,
    pub(crate) length: u8,
}

impl Entry {
    /// An entry of no name.
    fn none() -> Entry
        ensures { result.length ≡ 0 }
    {
        Entry {
            words: Words { first: 0, last: 0 },
            number: 0,
            length: 0,
        }
    }

    /// Whether it holds a name with the words and the length. Of names of up to eight bytes the last word is
    /// not looked at.
    #[inline(always)]
    fn is_of<const LONG: bool>(&self, words: Words, length: u8) -> bool
        ensures { IsTrue result ↔ (self.now.words.first ≡ words.first) × (self.now.length ≡ length)
            × (IsTrue LONG → self.now.words.last ≡ words.last) }
    {
        self.words.first == words.first
            && self.length == length
            && (!LONG || self.words.last == words.last)
    }
}

/// The number of the name, if an entry of it is found. An entry may be missed.
#[inline(always)]
fn find_among<const LONG: bool>(entries: &[Entry], mask: usize, name: &[u8]) -> Option<u32>
    requires places { mask < length entries.now }
    requires some { 0 < length name.now }
    requires short { length name.now ≤ 16 }
    requires long { 8 < length name.now → IsTrue LONG }
    ensures { IfSome result (λ number. IsFound entries.now number name.now) }
{
    let (words, mixed) = Words::of(name);
    let place = place_by(mixed, mask);
    for step in 0..STEPS {
        let entry = &entries[beside(place, step, mask)];
        if entry.is_of::<LONG>(words, name.len() as u8) {
            return Some(entry.number);
        }
        // An entry goes to the first empty place, so there is none further on.
        if entry.length == 0 {
            return None;
        }
    }
    None
}

/// The same for a name of more than eight bytes. It is a function by itself, so that the path of a line
/// stays small enough to be inlined.
#[inline(never)]
fn find_long(entries: &[Entry], mask: usize, name: &[u8]) -> Option<u32>
    requires places { mask < length entries.now }
    requires some { 0 < length name.now }
    requires short { length name.now ≤ 16 }
    ensures { IfSome result (λ number. IsFound entries.now number name.now) }
{
    find_among::<true>(entries, mask, name)
}

/// Where an entry with the words goes: to the first empty one of their places, or else to the first.
fn place_for(entries: &[Entry], mask: usize, mixed: u64) -> usize
    requires { mask < length entries.now }
    ensures { result < length entries.now }
{
    let place = place_by(mixed, mask);
    for step in 0..STEPS {
        let other = beside(place, step, mask);
        if entries[other].length == 0 {
            return other;
        }
    }
    place
}

/// The entries of names by their places, those that were made last.
#[derive(Drop)]
pub struct NumberCache {
    list: Vec<Entry>,
    /// One less than the number of places.
    mask: usize,
    /// Names of up to so many bytes may have entries: none has one, while there are no places.
    most: usize,
}

impl Model for NumberCache {
    ghost Value = { List Entry };

    ghost view = { λ n. n.list.items };

    ghost invariant = { λ n. (n.most ≤ 16) × (0 < n.most → n.mask < length n.list.items) };
}

impl NumberCache {
    /// A cache with no places.
    pub fn new(alloc: Global) -> NumberCache
        ensures { result ≡ [] }
    {
        NumberCache {
            list: Vec::new(alloc),
            mask: 0,
            most: 0,
        }
    }

    /// The number of the name, if an entry of it is found. An entry may be missed.
    #[inline(always)]
    pub fn find(&self, name: &[u8]) -> Option<u32>
        ensures { IfSome result (λ number. IsFound self.now number name.now) }
    {
        if !fits_entry(name, self.most) {
            return None;
        }
        if name.len() <= WORD {
            find_among::<false>(self.list.as_slice(), self.mask, name)
        } else {
            find_long(self.list.as_slice(), self.mask, name)
        }
    }

    /// Keeps the number of the name, if the name is short. An earlier entry may go for it.
    pub fn put(&mut self, name: &[u8], number: u32)
        ensures { (entry : Entry) → IsOneOf self.new entry
            → IsOneOf self.old entry ⊎ IsEntryOf number name.now entry }
    {
        if !fits_entry(name, self.most) {
            return;
        }
        let (words, mixed) = Words::of(name);
        let place = place_for(&self.list, self.mask, mixed);
        self.list[place] = Entry {
            words,
            number,
            length: name.len() as u8,
        };
    }

    /// Whether there are two places or more for each of so many names, or as many as there may be.
    pub fn has_room(&self, names: usize) -> bool
        ensures { IsTrue result ↔ (65536 ≤ length self.now) ⊎ (names ≤ length self.now / 2) }
    {
        self.list.len() >= MOST_PLACES || self.list.len() / 2 >= names
    }

    /// Makes two places or more for each of so many names, all of them empty.
    pub fn reset(&mut self, alloc: Global, names: u32) -> Result<(), AllocError>
        ensures room { OnOk result (names ≤ length self.new / 2) }
        ensures none { (entry : Entry) → IsOneOf self.new entry → HoldsNone entry }
    {
        let places = (names as usize * 4).next_power_of_two().max(FEWEST_PLACES);
        self.most = 0;
        // The old places go first, so that both are never there at once.
        self.list = Vec::new(alloc);
        self.list = vec![in alloc; Entry::none(); places]?;
        self.mask = places - 1;
        self.most = MOST_HELD;
        Ok(())
    }
}
