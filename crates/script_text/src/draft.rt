//! The lines of a script, judged one after another.
ghost use Rattle.std.specs.Prelude.{◌≡◌, ◌<◌, ◌^◌, ◌∷◌, [], ◌++◌, IfOk, IfErr, OnOk, Ok, Err, IsTrue};
ghost use Rattle.std.specs.List.{list_any};
ghost use Rattle.rapid_text.specs.Tables.{IsNameOf, number_in};
ghost use Rattle.script_text.specs.Forms.{spelled_by, AreNames, Fails};
ghost use Rattle.script_text.specs.Lines.{forks, joins, thread_of, fork_of, join_of};
ghost use Rattle.script_text.specs.Scripts.{Parsed, kind_of, numbered_line, number_or_cause};
ghost use Rattle.script_text.specs.Scripts.{is_bad_fork, is_bad_join, after_content};

use crate::causes::ScriptCause;
use crate::forms::{NamedAct, Word, read_form};
use crate::lines::ScriptLine;
use crate::stored_lines::StoredLine;
use event_core::ThreadId;
use rapid_text::{Kind, NameFault, Names, kind_at};

/// What the argument of a word names.
fn kind_of(word: Word) -> Kind
    ensures { result ≡ kind_of word }
{
    match word {
        Word::One(word) => kind_at(word),
        Word::Swap => Kind::Variable,
    }
}

/// The number of a name in a line.
fn number_of_name(names: &mut Names, kind: Kind, name: &[u8]) -> Result<u32, ScriptCause>
    requires { IsNameOf kind name.now }
    ensures ok { IfOk result (λ n. number_in names.old kind name.now ≡ Some (n, names.new)) }
    ensures fault { IfErr result (λ f. Fails f (number_or_cause kind (number_in names.old kind name.now))) }
{
    match names.number(kind, name) {
        Ok(number) => Ok(number),
        Err(NameFault::TooMany) => Err(ScriptCause::TooManyNames(kind)),
        Err(NameFault::OutOfMemory) => Err(ScriptCause::OutOfMemory),
    }
}

/// What a line says, with its names numbered. After an `Err` some of its names may have been numbered.
#[tactic(auto, unfolding(crate::specs::Scripts::numbered_line))]
fn store_line(names: &mut Names, line: u64, said: &NamedAct<'_>) -> Result<StoredLine, ScriptCause>
    requires { AreNames (spelled_by said.now) }
    ensures ok { IfOk result (λ l. numbered_line names.old line (spelled_by said.now) ≡ Ok (l, names.new)) }
    ensures fault { IfErr result (λ f. Fails f (numbered_line names.old line (spelled_by said.now))) }
{
    let mut digits = itoa::Buffer::new();
    let thread = number_of_name(names, Kind::Thread, said.thread)?;
    let target = number_of_name(names, kind_of(said.word), said.argument)?;
    let site = number_of_name(names, Kind::Site, digits.format(line).as_bytes())?;
    Ok(StoredLine {
        word: said.word,
        thread,
        target,
        site,
        arg: said.number,
        line,
    })
}

fn is_forked(before: &[StoredLine], thread: ThreadId) -> bool
    ensures { result ≡ list_any (forks thread.0) before.now }
{
    before.iter().any(|line| line.forks(thread))
}

fn is_joined(before: &[StoredLine], thread: ThreadId) -> bool
    ensures { result ≡ list_any (joins thread.0) before.now }
{
    before.iter().any(|line| line.joins(thread))
}

/// Whether the line forks thread 0, or a thread that a line before it forks.
fn is_bad_fork(before: &[StoredLine], line: &ScriptLine) -> bool
    ensures { result ≡ is_bad_fork before.now (fork_of line.now) }
{
    let Some(child) = line.fork() else {
        return false;
    };
    child.0 == 0 || is_forked(before, child)
}

/// Whether the line joins thread 0, its own thread, or a thread that a line before it joins.
fn is_bad_join(before: &[StoredLine], line: &ScriptLine) -> bool
    ensures { result ≡ is_bad_join before.now (thread_of line.now) (join_of line.now) }
{
    let Some(target) = line.join() else {
        return false;
    };
    target.0 == 0 || target.0 == line.thread().0 || is_joined(before, target)
}

/// Judges the content of a line, which stands without its ending. An empty content says nothing. After an
/// `Err` some of its names may have been numbered.
#[tactic(auto, unfolding(crate::specs::Scripts::after_content))]
pub fn add_line(
    names: &mut Names,
    lines: &mut Vec<StoredLine>,
    number: u64,
    content: &[u8],
) -> Result<(), ScriptCause>
    ensures ok { OnOk result
        (after_content (record { names = names.old; lines = lines.old.items }) number content.now
        ≡ Ok (record { names = names.new; lines = lines.new.items })) }
    ensures fault { IfErr result (λ f.
        Fails f (after_content (record { names = names.old; lines = lines.old.items }) number content.now)) }
{
    if content.is_empty() {
        return Ok(());
    }
    let said = read_form(content)?;
    let stored = store_line(names, number, &said)?;
    let line = stored.get();
    if is_bad_fork(lines.as_slice(), &line) {
        return Err(ScriptCause::BadFork);
    }
    if is_bad_join(lines.as_slice(), &line) {
        return Err(ScriptCause::BadJoin);
    }
    if lines.push(stored).is_err() {
        return Err(ScriptCause::OutOfMemory);
    }
    Ok(())
}
