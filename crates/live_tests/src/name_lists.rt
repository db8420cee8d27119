//! Lists of names.
use crate::calls::expect;
use crate::report_cases::NAMES;
use NamingFault::{NoName, TooMany, Twice};
use closed_report::{NameLists, NamingFault, names_of};
use event_core::{Limits, Roots};
use rapid_text::Kind;
use std::alloc::Global;
use std::fmt::InlineText;
use test_doubles::rows;

/// Lists that are no names, why, and what the fault says.
const FAULTS: &[(NameLists<'static>, NamingFault, &str)] = rows! {
    NameLists { threads: &["main", "main"], ..NAMES },
        Twice { kind: Kind::Thread, number: 1 }, "Thread 1: the name is given twice";
    NameLists { variables: &[""], ..NAMES },
        NoName { kind: Kind::Variable, number: 0 }, "Variable 0: the text is no name";
    NameLists { sites: &["a", "b|c"], ..NAMES },
        NoName { kind: Kind::Site, number: 1 }, "Site 1: the text is no name";
    NameLists { locks: &["l", "m"], ..NAMES },
        TooMany { kind: Kind::Lock }, "Lock: more names than the limit";
};

/// What is wrong with the lists.
fn naming(alloc: Global, lists: &NameLists<'static>) -> Option<NamingFault> {
    let limits = Limits::new(2, 1, 1, 16, Roots::OnlyMain).ok()?;
    names_of(alloc, limits, lists).err()
}

#[test]
fn lists_that_are_no_names_are_told_with_their_place(rt: HostRuntime) {
    for (lists, fault, said) in FAULTS {
        expect(&rt, *said, naming(rt.alloc(), lists), Some(*fault));
        let text: InlineText<64> = InlineText::of(*fault);
        expect(&rt, "the words of a fault", text.as_str(), *said);
    }
}
