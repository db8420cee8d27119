//! Names and their numbers from one place.
ghost use Rattle.std.specs.Prelude.{◌≡◌, IfOk, IfErr, OnErr};
ghost use Rattle.rapid_text.specs.declared.causes.Kind.TheVariants as kinds;
ghost use Rattle.rapid_text.specs.Tables.{no_names, space};
ghost use Rattle.closed_report.specs.NameLists.{IsFaultAt, IsNext};

use crate::name_lists::{NamingFault, add_name};
use event_core::{Limits, LockId, SiteId, ThreadId, VarId};
use rapid_text::{Kind, Names};
use std::alloc::Global;
use std::marker::Model;

/// Gives each name the next number of its kind. So no number that it gives lacks a name, and thread 0 is the
/// first that is named. Contracts see the names.
#[derive(Drop)]
pub struct Naming {
    names: Names,
}

impl Model for Naming {
    ghost use Rattle.rapid_text.specs.Tables.{Tables};

    ghost Value = { Tables };

    ghost view = { λ n. n.names };
}

impl Naming {
    /// No names yet. There may be as many threads, locks and variables as the limits say, and 4,294,967,295
    /// sites.
    pub fn new(alloc: Global, limits: Limits) -> Naming
        ensures { result ≡ no_names limits }
    {
        Naming {
            names: Names::new(alloc, limits),
        }
    }

    /// The next thread, under this name.
    pub fn thread(&mut self, name: &str) -> Result<ThreadId, NamingFault>
        ensures ok { IfOk result (λ thread. IsNext self.old kinds.Thread name.now thread.0 self.new) }
        ensures fault { IfErr result (IsFaultAt (space self.old kinds.Thread) kinds.Thread name.now) }
        ensures unchanged { OnErr result (self.new ≡ self.old) }
    {
        let number = add_name(&mut self.names, Kind::Thread, name.as_bytes())?;
        Ok(ThreadId(number))
    }

    /// The next lock, under this name.
    pub fn lock(&mut self, name: &str) -> Result<LockId, NamingFault>
        ensures ok { IfOk result (λ lock. IsNext self.old kinds.Lock name.now lock.0 self.new) }
        ensures fault { IfErr result (IsFaultAt (space self.old kinds.Lock) kinds.Lock name.now) }
        ensures unchanged { OnErr result (self.new ≡ self.old) }
    {
        let number = add_name(&mut self.names, Kind::Lock, name.as_bytes())?;
        Ok(LockId(number))
    }

    /// The next variable, under this name.
    pub fn variable(&mut self, name: &str) -> Result<VarId, NamingFault>
        ensures ok { IfOk result (λ var. IsNext self.old kinds.Variable name.now var.0 self.new) }
        ensures fault { IfErr result (IsFaultAt (space self.old kinds.Variable) kinds.Variable name.now) }
        ensures unchanged { OnErr result (self.new ≡ self.old) }
    {
        let number = add_name(&mut self.names, Kind::Variable, name.as_bytes())?;
        Ok(VarId(number))
    }

    /// The next site, under this name.
    pub fn site(&mut self, name: &str) -> Result<SiteId, NamingFault>
        ensures ok { IfOk result (λ site. IsNext self.old kinds.Site name.now site.0 self.new) }
        ensures fault { IfErr result (IsFaultAt (space self.old kinds.Site) kinds.Site name.now) }
        ensures unchanged { OnErr result (self.new ≡ self.old) }
    {
        let number = add_name(&mut self.names, Kind::Site, name.as_bytes())?;
        Ok(SiteId(number))
    }

    /// The names that were given.
    pub fn into_names(self) -> Names
        ensures { result ≡ self }
    {
        let Naming { names } = self;
        names
    }
}
