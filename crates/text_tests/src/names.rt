//! Names and their numbers.
use super::readers::{expect, limits};
use event_core::{Limits, Roots};
use rapid_text::{Cause, Cutter, Kind, NameFault, Names, TextFault};
use std::alloc::Global;

/// The numbers of some names, one after another.
fn numbers(names: &mut Names) -> [Result<u32, NameFault>; 5] {
    let y = names.number(Kind::Thread, b"y");
    let x = names.number(Kind::Thread, b"x");
    let again = names.number(Kind::Thread, b"y");
    let lock = names.number(Kind::Lock, b"x");
    [y, x, again, lock, names.number(Kind::Thread, b"z")]
}

/// There is room for two threads.
#[test]
fn names_are_numbered_by_first_appearance(rt: HostRuntime) {
    let mut names = Names::new(rt.alloc(), limits(&rt));
    let wanted = [Ok(0), Ok(1), Ok(0), Ok(0), Err(NameFault::TooMany)];
    expect(&rt, b"y, x, y, lock x, z", &numbers(&mut names), &wanted);
    let has_second = names.count(Kind::Thread) == 2
        && names.name(Kind::Thread, 1) == b"x".as_slice();
    expect(&rt, b"thread x is the second of two", &has_second, &true);
    drop(names);
}

/// What a cutter with one thread answers for a fork that names two; none where there was no memory for one.
fn answer_to_a_fork(alloc: Global) -> Option<Option<TextFault>> {
    let limits = Limits::new(1, 1, 1, 8, Roots::OnlyMain).ok()?;
    let mut cutter = Cutter::new(alloc, limits).ok()?;
    let answer = cutter.push(b"T0|fork(T1)|1\n");
    drop(cutter);
    Some(answer.err())
}

/// A line has a name too many, and another name is new: want of memory is never its answer, whatever is
/// refused (`tests/refuse`).
#[test]
fn a_name_too_many_comes_first_where_memory_is_refused(rt: HostRuntime) {
    let fault = TextFault {
        line: 1,
        cause: Cause::TooManyNames(Kind::Thread),
    };
    let came = answer_to_a_fork(rt.alloc());
    expect(&rt, b"T0|fork(T1)|1", &came, &Some(Some(fault)));
}
