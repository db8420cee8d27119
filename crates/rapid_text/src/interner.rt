//! The names of one kind, numbered from 0 in the order of their first appearance.
ghost use Rattle.std.specs.Prelude.{◌≡◌, ◌+◌, ◌<◌, ◌≤◌, ◌^◌, [], length, slice_get, Some, None, IfOk, IfSome};
ghost use Rattle.std.specs.Prelude.{IfErr, OnErr, IsTrue, ◌↔◌};
ghost use Rattle.std.specs.Result.{IsErrOf};
ghost use Rattle.rapid_text.specs.NumberCache.{AreRight};
ghost use Rattle.rapid_text.specs.Numbers.{Numbered, number_of, found_number};

use crate::causes::NameFault;
use crate::number_cache::NumberCache;
use crate::stored_names::{SoughtName, StoredName};
use indexmap::IndexSet;
use std::alloc::{AllocError, Global};
use std::marker::Model;

/// Makes room for the entry of one more name. New places are empty, so all names are put in again.
fn prepare(cache: &mut NumberCache, alloc: Global, names: &[StoredName]) -> Result<(), AllocError>
    requires right { AreRight names.now cache.old }
    requires few { length names.now + 1 < 2 ^ 32 }
    ensures { AreRight names.now cache.new }
{
    let count = names.len();
    if cache.has_room(count + 1) {
        return Ok(());
    }
    cache.reset(alloc, count as u32 + 1)?;
    for number in 0..count {
        cache.put(names[number].as_slice(), number as u32);
    }
    Ok(())
}

/// The names of one kind, each with its number.
pub struct Interner {
    names: IndexSet<StoredName>,
    cache: NumberCache,
    alloc: Global,
    limit: u32,
}

// By hand, so that `Names`, which has four, does not prove the drop of each type within four times.
impl Drop for Interner {
    fn drop(self) {
        let Interner {
            names: _,
            cache: _,
            alloc: _,
            limit: _,
        } = self;
    }
}

impl Model for Interner {
    ghost Value = { Numbered };

    ghost view = { λ s. record { limit = s.limit; names = s.names.keys } };

    ghost invariant = { λ s. (length s.names.keys ≤ s.limit) × AreRight s.names.keys s.cache };
}

impl Interner {
    pub fn new(alloc: Global, limit: u32) -> Interner
        ensures { result ≡ record { limit = limit; names = [] } }
    {
        Interner {
            names: IndexSet::new(alloc),
            cache: NumberCache::new(alloc),
            alloc,
            limit,
        }
    }

    /// How many names there are.
    pub fn count(&self) -> u32
        ensures is { result ≡ length self.now.names }
        ensures within { result ≤ self.now.limit }
    {
        // There are no more names than this, which is a u32.
        let _most = self.limit;
        self.names.len() as u32
    }

    /// The number of the name, where the cache holds it.
    #[inline(always)]
    pub fn find(&self, name: &[u8]) -> Option<u32>
        ensures { IfSome result (λ i. found_number self.now name.now ≡ Some i) }
    {
        // No name stands twice in them.
        let _unique = self.names.as_slice();
        self.cache.find(name)
    }

    /// The number of the name, if it has one. The cache holds it from now on.
    pub fn search(&mut self, name: &[u8]) -> Option<u32>
        ensures is { result ≡ found_number self.old name.now }
        ensures same { self.new ≡ self.old }
    {
        let i = self.names.get_index_of(SoughtName { bytes: name })?;
        self.cache.put(name, i as u32);
        Some(i as u32)
    }

    /// Whether the limit allows for so many names more.
    pub fn allows(&self, more: u32) -> bool
        ensures { IsTrue result ↔ (length self.now.names + more ≤ self.now.limit) }
    {
        self.limit - self.count() >= more
    }

    /// The number of the name in the set, which it joins where it is new. An `Err` changes nothing.
    fn insert(&mut self, name: &[u8]) -> Result<u32, AllocError>
        requires { length self.old.names < self.old.limit }
        ensures ok { IfOk result (λ i. number_of self.old name.now ≡ Some (i, self.new)) }
        ensures err { OnErr result (self.new ≡ self.old) }
    {
        prepare(&mut self.cache, self.alloc, self.names.as_slice())?;
        let stored = StoredName::new(self.alloc, name)?;
        let (number, _) = self.names.insert_full(stored)?;
        self.cache.put(name, number as u32);
        Ok(number as u32)
    }

    /// The number of a name that the cache may lack: the next one, where the name is new. An `Err` changes
    /// nothing.
    #[tactic(auto, unfolding(crate::specs::Numbers::number_of))]
    pub fn search_or_add(&mut self, name: &[u8]) -> Result<u32, NameFault>
        ensures ok { IfOk result (λ i. number_of self.old name.now ≡ Some (i, self.new)) }
        ensures too_many { IsErrOf result NameFault.TooMany → self.old.limit ≤ length self.old.names }
        ensures room { IsErrOf result NameFault.OutOfMemory → length self.old.names < self.old.limit }
        ensures err { OnErr result (self.new ≡ self.old) }
        ensures new_only { OnErr result (found_number self.old name.now ≡ None) }
    {
        if let Some(number) = self.search(name) {
            return Ok(number);
        }
        if !self.allows(1) {
            return Err(NameFault::TooMany);
        }
        self.insert(name).map_err(|_| NameFault::OutOfMemory)
    }

    /// The name of a number.
    pub fn name(&self, number: u32) -> &[u8]
        requires { number < length self.now.names }
        ensures { slice_get self.entry.now.names number ≡ Some result.now }
    {
        let stored: &StoredName = &self.names[number as usize];
        stored.as_slice()
    }
}
