//! A line as a script keeps it.
ghost use Rattle.std.specs.Prelude.{◌≡◌};
ghost use Rattle.script_text.specs.Lines.{is_of, forks, joins};
ghost use Rattle.script_text.specs.Scripts.{act_of};

use crate::forms::Word;
use crate::lines::ScriptLine;
use event_core::{Act, Call, SiteId, ThreadId, VarId};
use rapid_text::op_at;
use std::marker::Model;
use std::mem::size_of;

/// What a word asks a thread to do with the thing of this number.
fn act_at(word: Word, thread: u32, target: u32, site: u32, arg: u64) -> Act
    ensures { result ≡ act_of word thread target site arg }
{
    let thread = ThreadId(thread);
    let site = SiteId(site);
    match word {
        Word::One(word) => Act::One(Call {
            thread,
            op: op_at(word, target),
            site,
            arg,
        }),
        Word::Swap => Act::Swap {
            thread,
            var: VarId(target),
            site,
            arg,
        },
    }
}

/// A line as a script keeps it, with the word in place of what it asks for. Contracts see the line.
#[derive(Drop)]
pub struct StoredLine {
    pub(crate) word: Word,
    pub(crate) thread: u32,
    pub(crate) target: u32,
    pub(crate) site: u32,
    pub(crate) arg: u64,
    pub(crate) line: u64,
}

// A line takes so many bytes.
const _: () = prove!(size_of::<StoredLine>() == 32);

impl Model for StoredLine {
    ghost use Rattle.script_text.specs.declared.lines.ScriptLine.{ScriptLine};
    ghost use Rattle.script_text.specs.Scripts.{act_of};

    ghost Value = { ScriptLine };

    ghost view = { λ l. record { act = act_of l.word l.thread l.target l.site l.arg; line = l.line } };
}

impl StoredLine {
    /// Whether it is the thread's.
    pub fn is_of(&self, thread: ThreadId) -> bool
        ensures { result ≡ is_of thread.0 self.now }
    {
        self.thread == thread.0
    }

    /// Whether it forks the thread.
    pub fn forks(&self, thread: ThreadId) -> bool
        ensures { result ≡ forks thread.0 self.now }
    {
        self.target == thread.0 && self.word == Word::One(rapid_line::Word::Fork)
    }

    /// Whether it joins the thread.
    pub fn joins(&self, thread: ThreadId) -> bool
        ensures { result ≡ joins thread.0 self.now }
    {
        self.target == thread.0 && self.word == Word::One(rapid_line::Word::Join)
    }

    /// The line.
    pub fn get(&self) -> ScriptLine
        ensures { result ≡ self.now }
    {
        ScriptLine {
            act: act_at(self.word, self.thread, self.target, self.site, self.arg),
            line: self.line,
        }
    }
}
