//! A text, and a reader that gives it in pieces.
ghost use Rattle.std.specs.Prelude.{◌≡◌, false, None};

use rapid_text::{Input, ReadFailed};
use std::io;
use std::io::{ErrorKind, Read};

/// A text, and how it comes: first a piece of so many bytes, then all others of another size. At the end of
/// the text the reader says so, or it fails.
#[derive(Clone, Copy)]
pub struct Text<'a> {
    pub bytes: &'a [u8],
    pub first: usize,
    pub others: usize,
    pub fails: bool,
}

impl<'a> Text<'a> {
    pub fn cut(bytes: &'a [u8], first: usize, others: usize) -> Text<'a> {
        Text {
            bytes,
            first,
            others,
            fails: false,
        }
    }

    pub fn whole(bytes: &'a [u8]) -> Text<'a> {
        Text::cut(bytes, usize::MAX, usize::MAX)
    }

    pub fn byte_by_byte(bytes: &'a [u8]) -> Text<'a> {
        Text::cut(bytes, 1, 1)
    }

    /// The bytes one by one, cut in two after so many, or whole where there are no more.
    pub fn however_cut(bytes: &'a [u8], cut: usize) -> Text<'a> {
        if cut == 0 {
            Text::byte_by_byte(bytes)
        } else {
            Text::cut(bytes, cut, usize::MAX)
        }
    }

    /// The text itself, to name a case by.
    pub fn name(&self) -> &'a str {
        str::from_utf8(self.bytes).unwrap_or("bytes that are no UTF-8")
    }

    /// The same text, at whose end the reader fails, or does not.
    pub fn failing(self, fails: bool) -> Text<'a> {
        Text { fails, ..self }
    }
}

/// So many letters, at most 1,048.
pub fn letters(count: usize) -> &'static [u8] {
    const LETTERS: &[u8] = &[b'a'; 1048];
    &LETTERS[..count.min(1048)]
}

/// Gives a text in its pieces.
#[derive(Clone, Copy)]
pub struct Pieces<'a> {
    text: Text<'a>,
    pub failed: bool,
}

impl<'a> Pieces<'a> {
    pub fn of(text: Text<'a>) -> Pieces<'a>
        ensures { result.failed ≡ false }
    {
        Pieces {
            text,
            failed: false,
        }
    }
}

impl Input for Pieces<'_> {
    ghost left = { λ _. None };

    ghost failed = { λ p. p.failed };

    fn pull(&mut self, buf: &mut [u8]) -> Result<usize, ReadFailed> {
        let bytes = self.text.bytes;
        let n = self.text.first.min(bytes.len()).min(buf.len());
        if n == 0 && self.text.fails {
            self.failed = true;
            return Err(ReadFailed);
        }
        buf[..n].copy_from_slice(&bytes[..n]);
        self.text.bytes = &bytes[n..];
        self.text.first = self.text.others;
        Ok(n)
    }
}

impl Read for Pieces<'_> {
    fn read(&mut self, buf: &mut [u8]) -> io::Result<usize> {
        match self.pull(buf) {
            Ok(n) => Ok(n),
            Err(ReadFailed) => Err(ErrorKind::Other.into()),
        }
    }
}
