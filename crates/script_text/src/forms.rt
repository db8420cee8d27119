//! The forms of a line: `thread word argument` and `thread word argument number`.
ghost use Rattle.std.specs.Prelude.{◌≡◌, IfOk, IfErr, IsTrue};
ghost use Rattle.std.specs.List.{list_all};
ghost use Rattle.script_text.specs.Forms.{word_of, takes_number, is_name, is_name_byte, line_of, plain};
ghost use Rattle.script_text.specs.Forms.{numbered, form, spelled_by, AreNames, Fails};
ghost use Rattle.rapid_line.specs.Grammar.{IsName};
ghost use Rattle.rapid_line.specs.Reading.{Gives};

use crate::causes::ScriptCause;
use crate::numbers::number;
use rapid_line::{contains, cut_at};

/// What a line asks for.
#[derive(Clone, Copy, Debug, PartialEq, Eq)]
pub enum Word {
    /// What a word of a trace says.
    One(rapid_line::Word),
    Swap,
}

/// What a line says, in its bytes. The number is 0 where the word takes none.
#[derive(Clone, Copy)]
pub struct NamedAct<'a> {
    pub thread: &'a [u8],
    pub word: Word,
    pub argument: &'a [u8],
    pub number: u64,
}

#[tactic(auto, unfolding(crate::specs::Forms::word_of))]
fn script_word(bytes: &[u8]) -> Option<Word>
    ensures { result ≡ word_of bytes.now }
{
    if bytes == b"swap".as_slice() {
        return Some(Word::Swap);
    }
    let word = rapid_line::word_at(bytes)?;
    Some(Word::One(word))
}

impl Word {
    /// Whether a number stands after the argument.
    fn takes_number(self) -> bool
        ensures { result ≡ takes_number self }
    {
        match self {
            Word::One(word) => word == rapid_line::Word::Store,
            Word::Swap => true,
        }
    }
}

/// Whether each byte may stand in a name: any but a blank, a bar, an LF and a CR.
fn are_name_bytes(bytes: &[u8]) -> bool
    ensures { result ≡ list_all is_name_byte bytes.now }
{
    bytes.iter().all(|byte| *byte != b' ' && *byte != b'|' && *byte != b'\n' && *byte != b'\r')
}

/// Whether the bytes are a name: 1 to 255 that may stand in one.
#[tactic(auto, using(crate::proofs::NameBytes::name_bytes_lack))]
fn is_name(bytes: &[u8]) -> bool
    ensures is { result ≡ is_name bytes.now }
    ensures named { IsTrue result → IsName bytes.now }
{
    !bytes.is_empty() && bytes.len() <= 255 && are_name_bytes(bytes)
}

/// A line whose word takes no number.
fn plain_form<'a>(
    thread: &'a [u8],
    word: Word,
    argument: &'a [u8],
) -> Result<NamedAct<'a>, ScriptCause>
    ensures is { Gives spelled_by result (plain thread.now word argument.now) }
    ensures named { IfOk result (λ said. AreNames (spelled_by said)) }
    ensures fault { IfErr result (λ f. Fails f (plain thread.now word argument.now)) }
{
    if !is_name(thread) || !is_name(argument) {
        return Err(ScriptCause::BadLine);
    }
    Ok(NamedAct {
        thread,
        word,
        argument,
        number: 0,
    })
}

/// A line whose word takes a number.
fn numbered_form<'a>(
    thread: &'a [u8],
    word: Word,
    rest: &'a [u8],
) -> Result<NamedAct<'a>, ScriptCause>
    ensures is { Gives spelled_by result (numbered thread.now word rest.now) }
    ensures named { IfOk result (λ said. AreNames (spelled_by said)) }
    ensures fault { IfErr result (λ f. Fails f (numbered thread.now word rest.now)) }
{
    let Some((argument, digits)) = cut_at(rest, b' ') else {
        return Err(ScriptCause::BadLine);
    };
    if !is_name(thread) || !is_name(argument) || contains(digits, b' ') {
        return Err(ScriptCause::BadLine);
    }
    let Some(number) = number(digits) else {
        return Err(ScriptCause::BadNumber);
    };
    Ok(NamedAct {
        thread,
        word,
        argument,
        number,
    })
}

/// What a content says, which stands without its ending, or the first cause why it has none of the forms.
#[tactic(auto, unfolding(crate::specs::Forms::line_of))]
pub fn read_form(bytes: &[u8]) -> Result<NamedAct<'_>, ScriptCause>
    ensures is { Gives spelled_by result (line_of bytes.now) }
    ensures named { IfOk result (λ said. AreNames (spelled_by said)) }
    ensures fault { IfErr result (λ f. Fails f (line_of bytes.now)) }
{
    if bytes.len() > 1024 {
        return Err(ScriptCause::LineTooLong);
    }
    if contains(bytes, b'\r') {
        return Err(ScriptCause::BadLine);
    }
    let Some((thread, rest)) = cut_at(bytes, b' ') else {
        return Err(ScriptCause::BadLine);
    };
    let Some((word, rest)) = cut_at(rest, b' ') else {
        return Err(ScriptCause::BadLine);
    };
    let Some(word) = script_word(word) else {
        return Err(ScriptCause::BadLine);
    };
    if word.takes_number() {
        return numbered_form(thread, word, rest);
    }
    plain_form(thread, word, rest)
}
