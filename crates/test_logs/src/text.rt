//! The notation of worked logs: that of traces, `T0|acq(l)|2`, a line for each call.
//!
//! A name has its number by its letter, as in `ids`, or spells it. The third field is the number of the
//! event, from 1 on, or the refusal. A fourth one is the value that is stored or read, else 0. A swap,
//! `T1|swap(x)|2|4|7`, stores the fourth and reads the fifth; its third is the number of its load.
ghost use Rattle.std.specs.Prelude.{◌≡◌};

use event_core::{Act, Call, LockId, Op, Refusal, SiteId, ThreadId, VarId};

const REFUSALS: &[(&str, Refusal)] = &[
    ("ThreadRange", Refusal::ThreadRange),
    ("NotStarted", Refusal::NotStarted),
    ("Ended", Refusal::Ended),
    ("TargetRange", Refusal::TargetRange),
    ("Held by T0", Refusal::Held { by: ThreadId(0) }),
    ("Held by T1", Refusal::Held { by: ThreadId(1) }),
    ("NotHolder", Refusal::NotHolder),
    ("SelfTarget", Refusal::SelfTarget),
    ("AlreadyStarted", Refusal::AlreadyStarted),
    ("TargetNotStarted", Refusal::TargetNotStarted),
    ("LogFull", Refusal::LogFull),
];

/// What a thread asks for, and what becomes of it.
#[derive(Clone, Copy)]
pub struct Line {
    pub act: Act,
    /// The index of its event, or of the first of two, or why there is none.
    pub answer: Result<u64, Refusal>,
    /// The value of that event.
    pub value: u64,
}

/// A call of the thread. The value is that of a store.
pub fn call(thread: ThreadId, op: Op, value: u64) -> Call
    ensures { result ≡ record { thread = thread; op = op; site = record { 0 = 0 }; arg = value } }
{
    Call {
        thread,
        op,
        site: SiteId(0),
        arg: value,
    }
}

// What is before the first such byte, and what is after it.
fn cut(text: &[u8], end: u8) -> (&[u8], &[u8]) {
    for (at, byte) in text.iter().enumerate() {
        if *byte == end {
            return (&text[..at], &text[at + 1..]);
        }
    }
    (text, &[])
}

fn number(digits: &[u8]) -> u64 {
    let mut number: u64 = 0;
    for digit in digits {
        number = number
            .wrapping_mul(10)
            .wrapping_add(u64::from(digit.wrapping_sub(b'0')));
    }
    number
}

fn id(name: &[u8]) -> u32 {
    match name {
        b"l" | b"x" => 0,
        b"m" | b"y" => 1,
        b"n" | b"z" => 2,
        b"k" => 3,
        [b'T', digits @ ..] => (number(digits) % 4294967296) as u32,
        digits => (number(digits) % 4294967296) as u32,
    }
}

fn answer(place: &[u8]) -> Result<u64, Refusal> {
    for (word, refusal) in REFUSALS {
        if word.as_bytes() == place {
            return Err(*refusal);
        }
    }
    Ok(number(place).wrapping_sub(1))
}

fn read(text: &[u8]) -> Option<Line> {
    let (thread, rest) = cut(text, b'|');
    let (form, rest) = cut(rest, b'|');
    let (place, rest) = cut(rest, b'|');
    let (first, second) = cut(rest, b'|');
    let (word, rest) = cut(form, b'(');
    let (name, _end) = cut(rest, b')');
    let thread = ThreadId(id(thread));
    let id = id(name);
    let value = number(first);
    let (op, arg) = match word {
        b"r" => (Op::Load(VarId(id)), 0),
        b"w" => (Op::Store(VarId(id)), value),
        b"acq" => (Op::Acquire(LockId(id)), 0),
        b"rel" => (Op::Release(LockId(id)), 0),
        b"fork" => (Op::Fork(ThreadId(id)), 0),
        b"join" => (Op::Join(ThreadId(id)), 0),
        b"swap" => {
            return Some(Line {
                act: Act::Swap {
                    thread,
                    var: VarId(id),
                    site: SiteId(0),
                    arg: value,
                },
                answer: answer(place),
                value: number(second),
            });
        }
        _ => return None,
    };
    Some(Line {
        act: Act::One(call(thread, op, arg)),
        answer: answer(place),
        value,
    })
}

/// How many lines the text has, each with its ending.
pub fn count_lines(text: &str) -> usize {
    let mut count: usize = 0;
    for byte in text.as_bytes() {
        if *byte == b'\n' {
            count = count.saturating_add(1);
        }
    }
    count
}

/// The line of the text at the index, if there is one.
pub fn line_at(text: &str, index: usize) -> Option<Line> {
    let mut rest = text.as_bytes();
    for _line in 0..index {
        rest = cut(rest, b'\n').1;
    }
    read(cut(rest, b'\n').0)
}

/// The call of the line at the index, if there is one.
pub fn call_at(text: &str, index: usize) -> Option<Call> {
    match line_at(text, index)?.act {
        Act::One(call) => Some(call),
        Act::Swap { .. } => None,
    }
}
