//! Lines that are written: events as `thread|word(argument)|location`, and faults as `line N: word`.
ghost use Rattle.std.specs.Prelude.{◌≡◌, ◌∷◌, [], ◌++◌, OnOk, OnErr, true};
ghost use Rattle.std.specs.Io.KnownBytes.{Appends};
ghost use Rattle.rapid_line.specs.Grammar.{content_of, IsWellFormed};
ghost use Rattle.rapid_text.specs.Events.{named_by, word_of_op, kind_of, target_of, HasNames};
ghost use Rattle.rapid_text.specs.Faults.{fault_line};
ghost use Rattle.rapid_text.specs.Pages.{Puts};

use crate::causes::Kind;
use crate::names::Names;
use crate::output::{Output, WriteFault};
use crate::page::Page;
use event_core::{Event, LockId, Op, ThreadId, VarId};
use rapid_line::Word;

/// The parts of an operation: its word, what its argument names, and the number of that.
pub fn parts_of(op: Op) -> (Word, Kind, u32)
    ensures word { result.0 ≡ word_of_op op }
    ensures kind { result.1 ≡ kind_of (word_of_op op) }
    ensures number { result.2 ≡ target_of op }
{
    match op {
        Op::Load(VarId(n)) => (Word::Load, Kind::Variable, n),
        Op::Store(VarId(n)) => (Word::Store, Kind::Variable, n),
        Op::Acquire(LockId(n)) => (Word::Acquire, Kind::Lock, n),
        Op::Release(LockId(n)) => (Word::Release, Kind::Lock, n),
        Op::Fork(ThreadId(n)) => (Word::Fork, Kind::Thread, n),
        Op::Join(ThreadId(n)) => (Word::Join, Kind::Thread, n),
    }
}

/// Puts the content of an event's line, `thread|word(argument)|location`. Its numbers have names.
pub fn put_event<W: Output>(
    page: &mut Page,
    w: &mut W,
    event: &Event,
    names: &Names,
) -> Result<(), WriteFault>
    requires { HasNames names.now event.now }
    ensures ok { OnOk result (Puts (W.written w.old) page.old (W.written w.new) page.new
        (content_of (named_by names.now event.now))) }
    // So it is read again as these names and this operation.
    ensures fits { IsWellFormed (named_by names.now event.now) }
    ensures healthy { OnOk result (W.failed w.new ≡ W.failed w.old) }
    // It fails only where the writer did.
    ensures failed { OnErr result (W.failed w.new ≡ true) }
{
    let (word, kind, number) = parts_of(event.op);
    let thread = names.name(Kind::Thread, event.thread.0);
    let argument = names.name(kind, number);
    let location = names.name(Kind::Site, event.site.0);
    page.put(w, thread)?;
    page.put(w, b"|")?;
    page.put(w, word.spelled())?;
    page.put(w, b"(")?;
    page.put(w, argument)?;
    page.put(w, b")|")?;
    page.put(w, location)
}

/// Writes the line of an event, whose numbers have names, or answers `WriteFault` where the writer failed. It
/// takes no memory.
pub fn write_event<W: Output>(w: &mut W, event: &Event, names: &Names) -> Result<(), WriteFault>
    requires { HasNames names.now event.now }
    // What is written is the content of the named event, and an LF.
    ensures ok { OnOk result (Appends (W.written w.old) (W.written w.new)
        (content_of (named_by names.now event.now) ++ 10 ∷ [])) }
    // So it is read again as these names and this operation.
    ensures fits { IsWellFormed (named_by names.now event.now) }
    ensures healthy { OnOk result (W.failed w.new ≡ W.failed w.old) }
    // It fails only where the writer did.
    ensures failed { OnErr result (W.failed w.new ≡ true) }
{
    let mut page = Page::new();
    put_event(&mut page, w, event, names)?;
    page.put(w, b"\n")?;
    page.flush(w)
}

/// Writes `line N: word`, and an LF, or answers `WriteFault` where the writer failed. The writer is given the
/// whole line at once, unless the word has more than 4,000 bytes; no clause tells how it is cut. It takes no
/// memory.
pub fn write_fault<W: Output>(w: &mut W, line: u64, word: &str) -> Result<(), WriteFault>
    ensures ok { OnOk result (Appends (W.written w.old) (W.written w.new) (fault_line line word.now)) }
    ensures healthy { OnOk result (W.failed w.new ≡ W.failed w.old) }
    // It fails only where the writer did.
    ensures failed { OnErr result (W.failed w.new ≡ true) }
{
    let mut digits = itoa::Buffer::new();
    let mut page = Page::new();
    page.put(w, b"line ")?;
    page.put(w, digits.format(line).as_bytes())?;
    page.put(w, b": ")?;
    page.put(w, word.as_bytes())?;
    page.put(w, b"\n")?;
    page.flush(w)
}
