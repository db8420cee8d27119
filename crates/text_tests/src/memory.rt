//! What a caller meets where memory is refused: the right answers, or that memory ran out. Asked again, all
//! are right.
ghost use Rattle.rapid_text.specs.Tables.{IsNameOf};

use super::readers::{Host, expect, expect_answers, first_other, limits};
use super::script_lines::{expect_read, print_reading, scripts};
use rapid_text::{Kind, NameFault, Names, Reader};
use test_doubles::{Page, Pieces, Room, Text};

/// The number of the name, which is asked for again where a growth was refused.
fn number(names: &mut Names, kind: Kind, name: &[u8]) -> Result<u32, NameFault>
    requires { IsNameOf kind name.now }
{
    match names.number(kind, name) {
        Err(NameFault::OutOfMemory) => names.number(kind, name),
        answer => answer,
    }
}

#[test]
fn names_are_numbered_where_memory_is_refused(rt: HostRuntime) {
    let mut names = Names::new(rt.alloc(), limits(&rt));
    let y = number(&mut names, Kind::Thread, b"y");
    let x = number(&mut names, Kind::Thread, b"x");
    let again = number(&mut names, Kind::Thread, b"y");
    let lock = number(&mut names, Kind::Lock, b"x");
    drop(names);
    let wanted = [Ok(0), Ok(1), Ok(0), Ok(0)];
    expect(&rt, b"y, x, y, lock x", &[y, x, again, lock], &wanted);
}

const TEXT: &[u8] = b"T0|fork(T1)|1\nT1|acq(l)|2\nT1|w(x)|3\nT0|r(x)|1\n";

const ANSWERS: &str = "1: T0 Fork(ThreadId(1)) at 0: 0\n2: T1 Acquire(LockId(0)) at 1: 0\n\
    3: T1 Store(VarId(0)) at 2: 0\n4: T0 Load(VarId(0)) at 0: 0\nend";

/// Whether a reader gives all answers. It gives the right ones until memory runs out.
fn is_read(rt: &impl Host) -> bool {
    let source = Pieces::of(Text::whole(TEXT));
    let Ok(mut reader) = Reader::new(rt.alloc(), source, limits(rt), 100) else {
        return false;
    };
    let other = first_other(&mut reader, ANSWERS);
    drop(reader);
    if let Some((came, expected)) = other
        && !came.as_str().ends_with(": OutOfMemory")
    {
        expect(rt, TEXT, &came.as_str(), &expected);
    }
    other.is_none()
}

#[test]
fn a_text_is_read_where_memory_is_refused(rt: HostRuntime) {
    if !is_read(&rt) {
        expect_answers(&rt, Text::whole(TEXT), 100, ANSWERS);
    }
}

#[test]
fn scripts_are_read_where_memory_is_refused(rt: HostRuntime) {
    for (bytes, wanted) in scripts() {
        let text = Text::whole(bytes.as_bytes());
        let mut page = Page::blank(Room::AMPLE);
        print_reading(&rt, text, 100, &mut page);
        if page.text().ends_with(": OutOfMemory") {
            expect_read(&rt, text, 100, wanted);
        } else {
            expect(&rt, text.bytes, &page.text(), wanted);
        }
    }
}
