//! What a line comes to: an event with its names numbered, or the cause why it has none.
ghost use Rattle.std.specs.Prelude.{◌≡◌, ◌↔◌, ◌+◌, ◌<◌, IfOk, IfErr, IfSome, IsOk, IsTrue, OnErr, Ok, Err};
ghost use Rattle.std.specs.Prelude.{None, Some, length};
ghost use Rattle.rapid_line.specs.Cut.{Lacks};
ghost use Rattle.rapid_line.specs.Grammar.{IsWellFormed};
ghost use Rattle.rapid_line.specs.Marks.{IsKnown};
ghost use Rattle.rapid_line.specs.Reading.{named_of, line_of, Gives};
ghost use Rattle.rapid_text.specs.declared.causes.Cause.TheVariants.{TooManyNames};
ghost use Rattle.rapid_text.specs.Tables.{IsNameOf, TablesGrow, number_in, space};
ghost use Rattle.rapid_text.specs.Events.{kind_of, op_of, number_or_fault, named_event, content};
ghost use Rattle.rapid_text.specs.Events.{reading, Fails, HasEvent, IsOfNames};
ghost use Rattle.rapid_text.specs.KnownNames.{AddsTwo, AreKnown};

use crate::causes::{Cause, Kind, NameFault};
use crate::names::Names;
use event_core::{Event, LockId, Op, SiteId, ThreadId, VarId};
use rapid_line::{Line, LineFault, NamedLine, Word, read_barred, read_line, without_cr};

/// What the argument of a word names.
pub fn kind_at(word: Word) -> Kind
    ensures { result ≡ kind_of word }
{
    match word {
        Word::Load | Word::Store => Kind::Variable,
        Word::Acquire | Word::Release => Kind::Lock,
        Word::Fork | Word::Join => Kind::Thread,
    }
}

/// The operation that a word says, on the thing with this number.
pub fn op_at(word: Word, number: u32) -> Op
    ensures { result ≡ op_of word number }
{
    match word {
        Word::Load => Op::Load(VarId(number)),
        Word::Store => Op::Store(VarId(number)),
        Word::Acquire => Op::Acquire(LockId(number)),
        Word::Release => Op::Release(LockId(number)),
        Word::Fork => Op::Fork(ThreadId(number)),
        Word::Join => Op::Join(ThreadId(number)),
    }
}

/// The numbers of a line's names that are not new.
#[derive(Clone, Copy)]
struct Known {
    thread: Option<u32>,
    target: Option<u32>,
    site: Option<u32>,
}

/// Whether a name is new, and so many names more pass the limit of its kind.
fn passes_limit(names: &Names, kind: Kind, known: Option<u32>, more: u32) -> bool
    ensures { IsTrue result
        ↔ (known ≡ None) × ((space names.now kind).limit < length (space names.now kind).names + more) }
{
    known.is_none() && !names.allow(kind, more)
}

/// How many names a line adds to those of its argument's kind, where the argument is new.
fn added(line: &NamedLine<'_>, known: Known) -> u32
    ensures two { AddsTwo (named_of line.now) known → result ≡ 2 }
    ensures one { (AddsTwo (named_of line.now) known → ⊥) → result ≡ 1 }
{
    if known.thread.is_none()
        && kind_at(line.word) == Kind::Thread
        && line.argument != line.thread
    {
        return 2;
    }
    1
}

/// The kind of the first new name for which the limit leaves no number.
fn too_many(names: &Names, line: &NamedLine<'_>, known: Known) -> Option<Kind>
    requires { AreKnown names.now (named_of line.now) known }
    ensures some { IfSome result (λ kind.
        named_event names.now (named_of line.now) ≡ Err (TooManyNames kind)) }
    ensures none { result ≡ None → IsOk (named_event names.now (named_of line.now)) }
{
    if passes_limit(names, Kind::Thread, known.thread, 1) {
        return Some(Kind::Thread);
    }
    let kind = kind_at(line.word);
    if passes_limit(names, kind, known.target, added(line, known)) {
        return Some(kind);
    }
    if passes_limit(names, Kind::Site, known.site, 1) {
        return Some(Kind::Site);
    }
    None
}

/// The cause of a line for whose names memory was refused: too many names are the first cause.
#[inline(never)]
fn cause_after_refusal(
    names: &mut Names,
    thread: &[u8],
    word: Word,
    argument: &[u8],
    location: &[u8],
) -> Cause
    ensures fault { Fails result (named_event names.old
        (record { thread = thread.now; word = word; argument = argument.now; location = location.now })) }
    ensures same { names.new ≡ names.old }
{
    let line = NamedLine {
        thread,
        word,
        argument,
        location,
    };
    let known = Known {
        thread: names.find(Kind::Thread, line.thread),
        target: names.find(kind_at(line.word), line.argument),
        site: names.find(Kind::Site, line.location),
    };
    match too_many(names, &line, known) {
        Some(kind) => Cause::TooManyNames(kind),
        None => Cause::OutOfMemory,
    }
}

/// The number of a name in a line, or why it has none, with its kind.
#[inline(always)]
fn number_in_line(names: &mut Names, kind: Kind, name: &[u8]) -> Result<u32, (Kind, NameFault)>
    requires { IsNameOf kind name.now }
    ensures ok { IfOk result (λ n.
        number_or_fault kind (number_in names.old kind name.now) ≡ Ok (n, names.new)) }
    ensures too_many { IfErr result (λ f. f.1 ≡ NameFault.TooMany
        → number_or_fault kind (number_in names.old kind name.now) ≡ Err (TooManyNames f.0)) }
    ensures same { OnErr result (names.new ≡ names.old) }
    ensures grows { TablesGrow names.old names.new }
{
    match names.number(kind, name) {
        Ok(number) => Ok(number),
        Err(fault) => Err((kind, fault)),
    }
}

/// The event of a named event. After an `Err` the names before the one that failed are numbered, so what is
/// read of the line stays the same.
#[inline(always)]
#[tactic(auto, unfolding(crate::specs::Events::named_event))]
fn number_names(names: &mut Names, line: &NamedLine<'_>) -> Result<Event, (Kind, NameFault)>
    requires { IsWellFormed (named_of line.now) }
    ensures ok { IfOk result (λ e. named_event names.old (named_of line.now) ≡ Ok (e, names.new)) }
    ensures too_many { IfErr result (λ f. f.1 ≡ NameFault.TooMany
        → named_event names.old (named_of line.now) ≡ Err (TooManyNames f.0)) }
    ensures same { OnErr result
        (named_event names.new (named_of line.now) ≡ named_event names.old (named_of line.now)) }
    ensures grows { TablesGrow names.old names.new }
{
    let thread = number_in_line(names, Kind::Thread, line.thread)?;
    let target = number_in_line(names, kind_at(line.word), line.argument)?;
    let site = number_in_line(names, Kind::Site, line.location)?;
    Ok(Event {
        thread: ThreadId(thread),
        op: op_at(line.word, target),
        site: SiteId(site),
        value: 0,
    })
}

/// The event of a named event. After an `Err` some of its names may have been numbered.
#[inline(always)]
fn number_line(names: &mut Names, line: &NamedLine<'_>) -> Result<Event, Cause>
    requires { IsWellFormed (named_of line.now) }
    ensures ok { IfOk result (λ e. named_event names.old (named_of line.now) ≡ Ok (e, names.new)) }
    ensures fault { IfErr result (λ f. Fails f (named_event names.old (named_of line.now))) }
    ensures grows { TablesGrow names.old names.new }
{
    match number_names(names, line) {
        Ok(event) => Ok(event),
        Err((kind, NameFault::TooMany)) => Err(Cause::TooManyNames(kind)),
        Err((_, NameFault::OutOfMemory)) => Err(cause_after_refusal(
            names,
            line.thread,
            line.word,
            line.argument,
            line.location,
        )),
    }
}

/// The named event of a line's content, or the first cause why it has none.
#[inline(always)]
fn read_content(line: Line<'_>) -> Result<NamedLine<'_>, LineFault>
    requires lf { Lacks 10 line.bytes.now }
    requires known { IsKnown line }
    ensures found { IfOk result (λ named. IsWellFormed (named_of named)) }
    ensures exact { Gives named_of result (line_of (content line.entry.bytes.now)) }
{
    if let Some((first_bar, second_bar)) = line.bars {
        return read_barred(line.bytes, first_bar, second_bar);
    }
    read_line(without_cr(line.bytes))
}

/// What a line comes to, which stands without its LF.
#[inline(always)]
#[tactic(auto, using(crate::proofs::NewNames::event_read), unfolding(crate::specs::Events::reading))]
pub fn line_event(names: &mut Names, line: Line<'_>) -> Result<Option<Event>, Cause>
    requires lf { Lacks 10 line.bytes.now }
    requires known { IsKnown line }
    ensures ok { IfOk result (λ e. reading names.old (content line.entry.bytes.now) ≡ Ok (e, names.new)) }
    ensures fault { IfErr result (λ f. Fails f (reading names.old (content line.entry.bytes.now))) }
    // Memory runs out only where the line has an event.
    ensures memory { IfErr result (λ f. f ≡ Cause.OutOfMemory →
        HasEvent (reading names.old (content line.entry.bytes.now))) }
    ensures grows { TablesGrow names.old names.new }
    ensures named { IfOk result (λ e. IfSome e (IsOfNames names.new)) }
{
    if line.bars.is_none() && without_cr(line.bytes).is_empty() {
        return Ok(None);
    }
    let named = match read_content(line) {
        Ok(named) => named,
        Err(fault) => return Err(Cause::Line(fault)),
    };
    let event = number_line(names, &named)?;
    Ok(Some(event))
}
