//! A name as the set of names keeps it, and as it is looked up there.
//!
//! A name of up to sixteen bytes lies in the set itself and has no block of memory of its own. Both are
//! hashed by one write of all the bytes.
ghost use Rattle.std.specs.Prelude.{◌≡◌, List, ℕ, [], ◌∷◌, IfOk, bytes_eq};
ghost use Rattle.std.specs.Cmp.{on_equiv, on_per, partial_equiv_from_equiv};
ghost use Rattle.std.specs.Cmp.Lexicographic.{bytes_decides, nat_list_eq_equiv};
ghost use Rattle.std.proofs.Common.{ap};

use indexmap::Equivalent;
use smallvec::SmallVec;
use std::alloc::{AllocError, Global};
use std::hash::{Hash, Hasher};
use std::marker::Model;

/// A name that is kept.
#[derive(Drop)]
pub struct StoredName {
    bytes: SmallVec<u8, 16>,
}

impl Model for StoredName {
    ghost Value = { List ℕ };

    ghost view = { λ n. n.bytes.items };
}

impl StoredName {
    /// A copy of the name.
    pub fn new(alloc: Global, name: &[u8]) -> Result<StoredName, AllocError>
        ensures { IfOk result (λ stored. stored ≡ name.now) }
    {
        let bytes = SmallVec::from_slice(alloc, name)?;
        Ok(StoredName { bytes })
    }

    /// Its bytes.
    pub fn as_slice(&self) -> &[u8]
        ensures { result.now ≡ self.now }
    {
        self.bytes.as_slice()
    }
}

impl PartialEq for StoredName {
    ghost eq = { bytes_eq };

    ghost laws = { partial_equiv_from_equiv nat_list_eq_equiv };

    fn eq(&self, other: &StoredName) -> bool {
        self.as_slice() == other.as_slice()
    }
}

impl Eq for StoredName {
    ghost laws = { nat_list_eq_equiv };
}

impl Hash for StoredName {
    ghost hash_input = { λ bytes. bytes ∷ [] };

    ghost respects_eq = { λ x y same. ap (λ bytes. bytes ∷ []) ((bytes_decides x y).0 same) };

    fn hash<H: Hasher>(&self, state: &mut H) {
        state.write(self.as_slice());
    }
}

/// A name that is looked up.
#[derive(Clone, Copy)]
pub struct SoughtName<'a> {
    pub(crate) bytes: &'a [u8],
}

impl<'a> PartialEq for SoughtName<'a> {
    ghost eq = { λ x y. bytes_eq x.bytes.now y.bytes.now };

    ghost laws = { on_per (λ x. x.bytes.now) (partial_equiv_from_equiv nat_list_eq_equiv) };

    fn eq(&self, other: &SoughtName<'a>) -> bool {
        self.bytes == other.bytes
    }
}

impl<'a> Eq for SoughtName<'a> {
    ghost laws = { on_equiv (λ x. x.bytes.now) nat_list_eq_equiv };
}

impl<'a> Hash for SoughtName<'a> {
    ghost hash_input = { λ x. x.bytes.now ∷ [] };

    ghost respects_eq = { λ x y same. ap (λ bytes. bytes ∷ [])
        ((bytes_decides x.bytes.now y.bytes.now).0 same) };

    fn hash<H: Hasher>(&self, state: &mut H) {
        state.write(self.bytes);
    }
}

impl<'a> Equivalent<StoredName> for SoughtName<'a> {
    ghost equivalent = { λ sought stored. bytes_eq sought.bytes.now stored };

    ghost respects_hash = { λ sought stored same. ap (λ bytes. bytes ∷ [])
        ((bytes_decides sought.bytes.now stored).0 same) };

    ghost respects_eq = { λ sought x y. nat_list_eq_equiv.congr sought.bytes.now x y };

    fn equivalent(&self, key: &StoredName) -> bool {
        self.bytes == key.as_slice()
    }
}
