//! Names in four spaces, numbered from 0 in the order of their first appearance.
ghost use Rattle.std.specs.Prelude.{◌≡◌, ◌↔◌, ℕ, ◌+◌, ◌<◌, ◌≤◌, length, slice_get, Some, None, IfOk, OnErr};
ghost use Rattle.std.specs.Prelude.{IsTrue};
ghost use Rattle.std.specs.Result.{IsErrOf};
ghost use Rattle.rapid_text.specs.Numbers.{found_number};
ghost use Rattle.rapid_text.specs.Tables.{Tables, no_names, space, number_in, IsNameOf, TablesGrow, AreNamed};

use crate::causes::{Kind, NameFault};
use crate::interner::Interner;
use event_core::Limits;
use std::alloc::Global;
use std::marker::Model;

/// The names of a text: of threads, locks, variables and locations.
pub struct Names {
    threads: Interner,
    locks: Interner,
    variables: Interner,
    sites: Interner,
}

// By hand, so that a crate that drops one does not prove the drop of each type within again.
impl Drop for Names {
    fn drop(self) {
        let Names {
            threads: _,
            locks: _,
            variables: _,
            sites: _,
        } = self;
    }
}

impl Model for Names {
    ghost Value = { Tables };

    ghost view = { λ n.
        record { threads = n.threads; locks = n.locks; variables = n.variables; sites = n.sites } };

    ghost invariant = { λ n. AreNamed
        (record { threads = n.threads; locks = n.locks; variables = n.variables; sites = n.sites }) };
}

impl Names {
    /// No names. The limits say how many there may be of each kind, and of locations there may be
    /// 4,294,967,295.
    pub fn new(alloc: Global, limits: Limits) -> Names
        ensures { result ≡ no_names limits }
    {
        Names {
            threads: Interner::new(alloc, limits.threads()),
            locks: Interner::new(alloc, limits.locks()),
            variables: Interner::new(alloc, limits.vars()),
            sites: Interner::new(alloc, u32::MAX),
        }
    }

    /// How many names of the kind there are.
    pub fn count(&self, kind: Kind) -> u32
        ensures is { result ≡ length (space self.now kind).names }
        ensures within { result ≤ (space self.now kind).limit }
    {
        self.space(kind).count()
    }

    // The names of the kind.
    #[inline(always)]
    fn space(&self, kind: Kind) -> &Interner
        ensures { result.now ≡ space self.now kind }
    {
        match kind {
            Kind::Thread => &self.threads,
            Kind::Lock => &self.locks,
            Kind::Variable => &self.variables,
            Kind::Site => &self.sites,
        }
    }

    /// The number of the name, if it has one.
    pub(crate) fn find(&mut self, kind: Kind, name: &[u8]) -> Option<u32>
        ensures is { result ≡ found_number (space self.old kind) name.now }
        ensures same { self.new ≡ self.old }
    {
        match kind {
            Kind::Thread => self.threads.search(name),
            Kind::Lock => self.locks.search(name),
            Kind::Variable => self.variables.search(name),
            Kind::Site => self.sites.search(name),
        }
    }

    /// Whether the limit of the kind allows for so many names more.
    pub(crate) fn allow(&self, kind: Kind, more: u32) -> bool
        ensures { IsTrue result ↔ (length (space self.now kind).names + more ≤ (space self.now kind).limit) }
    {
        self.space(kind).allows(more)
    }

    // The number of a name that the cache may lack: the next one, where the name is new.
    #[inline(never)]
    #[tactic(auto, unfolding(crate::specs::Tables::number_in))]
    fn search_or_add(&mut self, kind: Kind, name: &[u8]) -> Result<u32, NameFault>
        requires { IsNameOf kind name.now }
        ensures ok { IfOk result (λ n. number_in self.old kind name.now ≡ Some (n, self.new)) }
        ensures too_many { IsErrOf result NameFault.TooMany →
            (space self.old kind).limit ≤ length (space self.old kind).names }
        ensures room { IsErrOf result NameFault.OutOfMemory →
            length (space self.old kind).names < (space self.old kind).limit }
        ensures err { OnErr result (self.new ≡ self.old) }
        ensures new_only { OnErr result (found_number (space self.old kind) name.now ≡ None) }
    {
        match kind {
            Kind::Thread => self.threads.search_or_add(name),
            Kind::Lock => self.locks.search_or_add(name),
            Kind::Variable => self.variables.search_or_add(name),
            Kind::Site => self.sites.search_or_add(name),
        }
    }

    /// The number of the name, which is the next one where the name is new. `TooMany` where that passes the
    /// limit of its kind, `OutOfMemory` where memory is refused. An `Err` changes nothing.
    #[inline(always)]
    pub fn number(&mut self, kind: Kind, name: &[u8]) -> Result<u32, NameFault>
        requires { IsNameOf kind name.now }
        ensures ok { IfOk result (λ n. number_in self.old kind name.now ≡ Some (n, self.new)) }
        // It is `TooMany` exactly where the name is new and there are as many as the limit.
        ensures too_many { IsErrOf result NameFault.TooMany ↔ (number_in self.old kind name.now ≡ None) }
        ensures err { OnErr result (self.new ≡ self.old) }
        ensures new_only { OnErr result (found_number (space self.old kind) name.now ≡ None) }
        // The number has this name from now on, and names were only added.
        ensures named { IfOk result (λ n. slice_get (space self.new kind).names n ≡ Some name.now) }
        ensures grows { TablesGrow self.old self.new }
    {
        if let Some(number) = self.space(kind).find(name) {
            return Ok(number);
        }
        self.search_or_add(kind, name)
    }

    /// The name of a number that is below the count of its kind, in the bytes that it had.
    pub fn name(&self, kind: Kind, number: u32) -> &[u8]
        requires { number < length (space self.now kind).names }
        ensures is { slice_get (space self.entry.now kind).names number ≡ Some result.now }
        ensures named { IsNameOf kind result.now }
    {
        // What each space holds are names of its kind.
        let _spaces = &self.threads;
        self.space(kind).name(number)
    }
}
