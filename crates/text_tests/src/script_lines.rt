//! Scripts without a fault, with their lines by thread, and what a text is read as, whole or in pieces.
use super::readers::{Host, expect};
use event_core::{Act, Limits, Roots, ThreadId};
use rapid_text::{Kind, Names};
use script_text::{Script, ScriptLine};
use test_doubles::{Page, Pieces, Room, Text, event_text, rows};

/// A script, and what it is read as: the names of its threads, the lines of each thread with their numbers,
/// how many lines there are, and the names of its locations.
const SCRIPTS: &[(&str, &str)] = rows! {
    // Each form once, with both endings, an empty line, and a last line without an ending.
    "m fork a\r\n\nm acq l\na swap x 4\nm w x 007\nm r y\nm rel l\nm join a",
        "m a \n1: T0 Fork(ThreadId(1)) at 0: 0\n3: T0 Acquire(LockId(0)) at 1: 0\n\
        5: T0 Store(VarId(0)) at 3: 7\n6: T0 Load(VarId(1)) at 4: 0\n7: T0 Release(LockId(0)) at 5: 0\n\
        8: T0 Join(ThreadId(1)) at 6: 0\n4: T1 swap VarId(0) at 2: 4\n7 lines\n1 3 4 5 6 7 8 ";
    // An empty script names no thread.
    "", "\n0 lines\n";
    "\n\r\n", "\n0 lines\n";
    // A forked thread may have no lines.
    "m fork a", "m a \n1: T0 Fork(ThreadId(1)) at 0: 0\n1 lines\n1 ";
    // The greatest number, in a line that comes before the fork of its thread.
    "m r x\na w x 18446744073709551615\nm fork a",
        "m a \n1: T0 Load(VarId(0)) at 0: 0\n3: T0 Fork(ThreadId(1)) at 2: 0\n\
        2: T1 Store(VarId(0)) at 1: 18446744073709551615\n3 lines\n1 2 3 ";
    // A line's location is named by its number.
    "\nm fork a\na acq l\n",
        "m a \n2: T0 Fork(ThreadId(1)) at 0: 0\n3: T1 Acquire(LockId(0)) at 1: 0\n2 lines\n2 3 ";
};

pub fn scripts() -> &'static [(&'static str, &'static str)] {
    SCRIPTS
}

/// The names of the kind in the order of their numbers, with a blank after each.
fn print_names(page: &mut Page, names: &Names, kind: Kind) {
    for number in 0..names.count(kind) {
        page.keep(names.name(kind, number));
        page.keep(b" ");
    }
}

fn print_line(page: &mut Page, line: &ScriptLine) {
    page.print(format_args!("{}: ", line.line));
    match line.act {
        Act::One(call) => page.print(event_text(&call.event_with(call.arg)).as_str()),
        Act::Swap {
            thread,
            var,
            site,
            arg,
        } => page.print(format_args!("T{} swap {var:?} at {}: {arg}", thread.0, site.0)),
    }
    page.keep(b"\n");
}

fn print_script(page: &mut Page, script: &Script) {
    print_names(page, script.names(), Kind::Thread);
    page.keep(b"\n");
    for number in 0..script.threads() {
        for line in script.lines() {
            let line = line.get();
            if line.is_of(ThreadId(number)) {
                print_line(page, &line);
            }
        }
    }
    page.print(format_args!("{} lines\n", script.lines().len()));
    print_names(page, script.names(), Kind::Site);
}

/// What the text is read as, with names for three threads, two locks and two variables: a script, or the line
/// and the cause of a fault.
pub fn print_reading(rt: &impl Host, text: Text<'_>, turns: u32, page: &mut Page) {
    let limits = Limits::new(3, 2, 2, 1000, Roots::OnlyMain).expect(rt, "limits");
    match Script::read(rt.alloc(), &mut Pieces::of(text), limits, u64::from(turns)) {
        Ok(script) => {
            print_script(page, &script);
            drop(script);
        }
        Err(fault) => page.print(format_args!("{}: {:?}", fault.line, fault.cause)),
    }
}

pub fn expect_read(rt: &impl Host, text: Text<'_>, turns: u32, wanted: &str) {
    let mut page = Page::blank(Room::AMPLE);
    print_reading(rt, text, turns, &mut page);
    expect(rt, text.bytes, &page.text(), &wanted);
}

/// The script is read so, whole and byte by byte.
pub fn expect_script(rt: &impl Host, script: &str, wanted: &str) {
    let bytes = script.as_bytes();
    expect_read(rt, Text::whole(bytes), 100, wanted);
    expect_read(rt, Text::byte_by_byte(bytes), 100, wanted);
}

#[test]
fn each_thread_has_its_lines(rt: HostRuntime) {
    for (text, wanted) in scripts() {
        expect_script(&rt, text, wanted);
    }
}
