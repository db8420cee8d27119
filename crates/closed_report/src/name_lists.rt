//! Names for the numbers that a program chose, by lists.
ghost use Rattle.std.specs.Prelude.{◌≡◌, [], true, ◌↔◌, IfOk, IfErr, OnOk, OnErr, map};
ghost use Rattle.rapid_text.specs.Tables.{IsNameOf, no_names, space, with_space};
ghost use Rattle.closed_report.specs.NameLists.{names_in, numbered, AreNone, IsNext};
ghost use Rattle.closed_report.specs.NameLists.{IsFaultAt, IsFaultIn, IsFaultOf};

use event_core::Limits;
use rapid_line::contains;
use rapid_text::{Kind, NameFault, Names};
use std::alloc::Global;
use thiserror::Error;

/// The names of each kind by their numbers: the first of a list is the name of number 0.
#[derive(Clone, Copy)]
pub struct NameLists<'a> {
    pub threads: &'a [&'a str],
    pub locks: &'a [&'a str],
    pub variables: &'a [&'a str],
    pub sites: &'a [&'a str],
}

/// Why lists give no names.
#[derive(Clone, Copy, Debug, PartialEq, Eq, Error)]
pub enum NamingFault {
    /// The text is no name: it is empty and no site's, it is longer than 255 bytes, or has a bar, an LF or a
    /// CR.
    #[error("{kind:?} {number}: the text is no name")]
    NoName { kind: Kind, number: u32 },
    /// The name is that of an earlier number, too.
    #[error("{kind:?} {number}: the name is given twice")]
    Twice { kind: Kind, number: u32 },
    /// There are more names of the kind than its limit.
    #[error("{kind:?}: more names than the limit")]
    TooMany { kind: Kind },
    /// A growth was refused.
    #[error("out of memory")]
    OutOfMemory,
}

/// Whether the bytes may name a thing of the kind.
fn is_name_of(kind: Kind, bytes: &[u8]) -> bool
    ensures { result ≡ true ↔ IsNameOf kind bytes.now }
{
    (kind == Kind::Site || !bytes.is_empty())
        && bytes.len() <= 255
        && !contains(bytes, b'|')
        && !contains(bytes, b'\n')
        && !contains(bytes, b'\r')
}

/// Adds a name, which gets the next number.
pub fn add_name(names: &mut Names, kind: Kind, name: &[u8]) -> Result<u32, NamingFault>
    ensures ok { IfOk result (λ number. IsNext names.old kind name.now number names.new) }
    ensures unchanged { OnErr result (names.new ≡ names.old) }
    ensures fault { IfErr result (IsFaultAt (space names.old kind) kind name.now) }
{
    let number = names.count(kind);
    if !is_name_of(kind, name) {
        return Err(NamingFault::NoName { kind, number });
    }
    match names.number(kind, name) {
        Ok(given) => {
            if given < number {
                return Err(NamingFault::Twice { kind, number });
            }
            Ok(number)
        }
        Err(NameFault::TooMany) => Err(NamingFault::TooMany { kind }),
        Err(NameFault::OutOfMemory) => Err(NamingFault::OutOfMemory),
    }
}

/// Adds the names of a kind, which get the next numbers in order.
fn add_names(names: &mut Names, kind: Kind, list: &[&str]) -> Result<(), NamingFault>
    requires empty { (space names.old kind).names ≡ [] }
    ensures ok { OnOk result (names.new ≡ with_space names.old kind
        (numbered (space names.old kind).limit (map (λ name. name.now) list.now))) }
    ensures fault { IfErr result
        (IsFaultIn (space names.old kind).limit kind (map (λ name. name.now) list.now)) }
{
    for name in list {
        if let Err(fault) = add_name(names, kind, name.as_bytes()) {
            return Err(fault);
        }
    }
    Ok(())
}

/// Adds the names of each kind.
fn add_lists(names: &mut Names, lists: &NameLists<'_>) -> Result<(), NamingFault>
    requires empty { AreNone names.old }
    ensures ok { OnOk result (names.new ≡ names_in names.old lists.now) }
    ensures fault { IfErr result (IsFaultOf names.old lists.now) }
{
    add_names(names, Kind::Thread, lists.threads)?;
    add_names(names, Kind::Lock, lists.locks)?;
    add_names(names, Kind::Variable, lists.variables)?;
    add_names(names, Kind::Site, lists.sites)
}

/// The names that the lists give: the name at place i of a list is that of number i. There may be as many
/// threads, locks and variables as the limits say, and 4,294,967,295 sites. The fault is one of a list: a
/// text that is no name, a name given twice, or too many names, and not always the first. Or memory ran out.
pub fn names_of(alloc: Global, limits: Limits, lists: &NameLists<'_>) -> Result<Names, NamingFault>
    ensures ok { IfOk result (λ names. names ≡ names_in (no_names limits) lists.now) }
    // A fault is one of a list, or memory ran out.
    ensures fault { IfErr result (IsFaultOf (no_names limits) lists.now) }
{
    let mut names = Names::new(alloc, limits);
    match add_lists(&mut names, lists) {
        Ok(()) => Ok(names),
        Err(fault) => {
            drop(names);
            Err(fault)
        }
    }
}
