//! A content, read from left to right: its length, a stray CR, the two bars, the operation between them,
//! and the lengths of the names. So the first cause in the order of the causes is the first that is met.
ghost use Rattle.std.specs.Prelude.{◌≡◌, ◌≢◌, ◌↔◌, ℕ, List, [], ◌∷◌, IfOk, IfErr, IfSome, Ok, Err, Some};
ghost use Rattle.rapid_line.specs.declared.words.LineFault.{LineFault};
ghost use Rattle.rapid_line.specs.Cut.{Lacks, cut};
ghost use Rattle.rapid_line.specs.Grammar.{NamedEvent, IsWellFormed, content_of, IsNamed, spelling};
ghost use Rattle.rapid_line.specs.Causes.{IsFirstCause};
ghost use Rattle.rapid_line.specs.Reading.{word_of, fields_of, operation_of, line_of, Gives, ok_named};
ghost use Rattle.rapid_line.specs.Reading.{named_of, names_of, and_then, argument_of};
ghost use Rattle.rapid_line.specs.Marks.{IsBarred};

use crate::bytes::{contains, cut_at, strip_last};
use crate::words::{LineFault, Word};

/// A named event, in the bytes of its line.
#[derive(Clone, Copy, Debug)]
pub struct NamedLine<'a> {
    pub thread: &'a [u8],
    pub word: Word,
    pub argument: &'a [u8],
    pub location: &'a [u8],
}

/// The word that is spelled so.
#[tactic(auto, unfolding(crate::specs::Reading::word_of))]
pub fn word_at(bytes: &[u8]) -> Option<Word>
    ensures { result ≡ word_of bytes.now }
{
    if bytes == b"r".as_slice() {
        Some(Word::Load)
    } else if bytes == b"w".as_slice() {
        Some(Word::Store)
    } else if bytes == b"acq".as_slice() {
        Some(Word::Acquire)
    } else if bytes == b"rel".as_slice() {
        Some(Word::Release)
    } else if bytes == b"fork".as_slice() {
        Some(Word::Fork)
    } else if bytes == b"join".as_slice() {
        Some(Word::Join)
    } else {
        None
    }
}

/// The three fields.
fn fields(bytes: &[u8]) -> Result<(&[u8], &[u8], &[u8]), LineFault>
    ensures { Gives (λ f. (f.0.now, f.1.now, f.2.now)) result (fields_of bytes.now) }
{
    let Some((thread, rest)) = cut_at(bytes, b'|') else {
        return Err(LineFault::FewFields);
    };
    let Some((field, location)) = cut_at(rest, b'|') else {
        return Err(LineFault::FewFields);
    };
    if contains(location, b'|') {
        return Err(LineFault::ManyFields);
    }
    Ok((thread, field, location))
}

/// The word of an access that is spelled by one byte.
fn access_word(byte: u8) -> Option<Word>
    ensures { IfSome result (λ word. spelling word ≡ byte ∷ []) }
{
    match byte {
        b'r' => Some(Word::Load),
        b'w' => Some(Word::Store),
        _ => None,
    }
}

/// The word of a lock's operation that is spelled by three bytes.
fn lock_word(first: u8, second: u8, third: u8) -> Option<Word>
    ensures { IfSome result (λ word. spelling word ≡ first ∷ second ∷ third ∷ []) }
{
    if first == b'a' && second == b'c' && third == b'q' {
        return Some(Word::Acquire);
    }
    if first == b'r' && second == b'e' && third == b'l' {
        return Some(Word::Release);
    }
    None
}

/// The word of an access or of a lock's operation, where the field begins with it and a parenthesis, and what
/// follows these.
#[inline(always)]
fn common_word(field: &[u8]) -> Option<(Word, &[u8])>
    ensures { IfSome result (λ r. cut 40 field.now ≡ Some (spelling r.0, r.1.now)) }
{
    if field.len() < 4 {
        return None;
    }
    if field[1] == b'(' {
        let word = access_word(field[0])?;
        return Some((word, &field[2..]));
    }
    if field[3] == b'(' {
        let word = lock_word(field[0], field[1], field[2])?;
        return Some((word, &field[4..]));
    }
    None
}

/// The word, and its argument in what follows the parenthesis.
#[inline(always)]
fn with_argument(word: Word, rest: &[u8]) -> Result<(Word, &[u8]), LineFault>
    ensures { Gives (λ o. (o.0, o.1.now)) result (argument_of word rest.now) }
{
    let Some(argument) = strip_last(rest, b')') else {
        return Err(LineFault::BadOp);
    };
    Ok((word, argument))
}

/// The word and the argument of a field.
#[inline(never)]
fn any_operation(field: &[u8]) -> Result<(Word, &[u8]), LineFault>
    ensures { Gives (λ o. (o.0, o.1.now)) result (operation_of field.now) }
{
    let Some((word, rest)) = cut_at(field, b'(') else {
        return Err(LineFault::BadOp);
    };
    let Some(word) = word_at(word) else {
        return Err(LineFault::BadOp);
    };
    with_argument(word, rest)
}

/// The word and the argument of the field between the bars. Most are common words.
#[inline(always)]
fn operation(field: &[u8]) -> Result<(Word, &[u8]), LineFault>
    ensures { Gives (λ o. (o.0, o.1.now)) result (operation_of field.now) }
{
    if let Some((word, rest)) = common_word(field) {
        return with_argument(word, rest);
    }
    any_operation(field)
}

/// The three fields between bars whose places are known.
#[inline(always)]
#[tactic(auto, using(crate::proofs::IsBarredProperties::fields_barred))]
fn fields_at(bytes: &[u8], first_bar: usize, second_bar: usize) -> (&[u8], &[u8], &[u8])
    requires { IsBarred bytes.now first_bar second_bar }
    ensures { fields_of bytes.now ≡ Ok (result.0.now, result.1.now, result.2.now) }
{
    let rest = &bytes[first_bar + 1..];
    let length = second_bar - first_bar - 1;
    (&bytes[..first_bar], &rest[..length], &rest[length + 1..])
}

/// The named event of three fields.
#[inline(always)]
fn named<'a>(
    thread: &'a [u8],
    field: &'a [u8],
    location: &'a [u8],
) -> Result<NamedLine<'a>, LineFault>
    ensures { Gives named_of result (and_then (operation_of field.now)
        (λ o. names_of thread.now location.now o.0 o.1)) }
{
    let (word, argument) = operation(field)?;
    if thread.is_empty() || argument.is_empty() {
        return Err(LineFault::EmptyName);
    }
    if thread.len() > 255 || argument.len() > 255 || location.len() > 255 {
        return Err(LineFault::LongName);
    }
    Ok(NamedLine {
        thread,
        word,
        argument,
        location,
    })
}

/// The parts of a content.
#[inline(never)]
#[tactic(auto, unfolding(crate::specs::Reading::line_of))]
fn parts(bytes: &[u8]) -> Result<NamedLine<'_>, LineFault>
    ensures { Gives named_of result (line_of bytes.now) }
{
    if bytes.len() > 1024 {
        return Err(LineFault::LineTooLong);
    }
    if contains(bytes, b'\r') {
        return Err(LineFault::StrayCr);
    }
    let (thread, field, location) = fields(bytes)?;
    named(thread, field, location)
}

/// The same as `read_line`, for a content without a CR whose bars are known.
#[inline(always)]
pub fn read_barred(
    bytes: &[u8],
    first_bar: usize,
    second_bar: usize,
) -> Result<NamedLine<'_>, LineFault>
    requires lf { Lacks 10 bytes.now }
    requires barred { IsBarred bytes.now first_bar second_bar }
    ensures found { IfOk result (λ line. IsNamed bytes.now (named_of line)) }
    ensures exact { Gives named_of result (line_of bytes.now) }
{
    let (thread, field, location) = fields_at(bytes, first_bar, second_bar);
    named(thread, field, location)
}

/// The named event of a content, which stands without its ending and so has no LF, or the first cause why
/// it has none. An empty content has too few fields.
pub fn read_line(bytes: &[u8]) -> Result<NamedLine<'_>, LineFault>
    requires { Lacks 10 bytes.now }
    // What is read is the named event of the content.
    ensures found { IfOk result (λ line. IsNamed bytes.now (named_of line)) }
    // A content that has a named event is read as it, and as no other.
    ensures only { (e : NamedEvent) → IsNamed bytes.now e → Gives named_of result (ok_named e) }
    // Which cause it is: the first in their order that applies.
    ensures first { IfErr result (IsFirstCause bytes.now) }
    // The same, as one value.
    ensures exact { Gives named_of result (line_of bytes.now) }
{
    parts(bytes)
}

/// Two named events never share a content.
pub fn one_content()
    ensures { (d e : NamedEvent) → IsWellFormed d → IsWellFormed e → content_of d ≡ content_of e → d ≡ e }
{}

/// The reading from left to right answers a named event exactly for its content, and a cause exactly
/// where it is the first.
pub fn one_reading()
    ensures named { (bytes : List ℕ) (e : NamedEvent) → Lacks 10 bytes →
        (line_of bytes ≡ Ok e) ↔ IsNamed bytes e }
    ensures cause { (bytes : List ℕ) (f : LineFault) → Lacks 10 bytes →
        (line_of bytes ≡ Err f) ↔ IsFirstCause bytes f }
{}
