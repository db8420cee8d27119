//! A writer that keeps what it takes.
ghost use Rattle.std.specs.Prelude.{◌≡◌, false, None};

use rapid_text::{Output, WriteFailed};
use std::fmt::{Display, InlineText};
use std::io;
use std::io::{ErrorKind, Write};

/// How much a page takes: at most so many bytes a put, and no put after so many. A write of std then fails,
/// or it takes nothing.
#[derive(Clone, Copy)]
pub struct Room {
    pub most: usize,
    pub puts: usize,
    pub fails: bool,
}

impl Room {
    pub const AMPLE: Room = Room {
        most: usize::MAX,
        puts: usize::MAX,
        fails: true,
    };

    pub fn of(most: usize, puts: usize) -> Room {
        Room {
            most,
            puts,
            fails: true,
        }
    }
}

/// More bytes than any text of the tests has.
const SIZE: usize = 16384;

/// Keeps what is written to it.
#[derive(Clone, Copy)]
pub struct Page {
    kept: [u8; SIZE],
    len: usize,
    room: Room,
    pub failed: bool,
}

impl Page {
    pub fn blank(room: Room) -> Page
        ensures { result.failed ≡ false }
    {
        Page {
            kept: [0; SIZE],
            len: 0,
            room,
            failed: false,
        }
    }

    pub fn bytes(&self) -> &[u8] {
        &self.kept[..self.len.min(SIZE)]
    }

    pub fn text(&self) -> &str {
        str::from_utf8(self.bytes()).unwrap_or("bytes that are no UTF-8")
    }

    /// Appends the bytes, as far as there is space.
    pub fn keep(&mut self, bytes: &[u8])
        ensures { self.new.failed ≡ self.old.failed }
    {
        let start = self.len.min(SIZE);
        let n = bytes.len().min(SIZE - start);
        self.kept[start..start + n].copy_from_slice(&bytes[..n]);
        self.len = start + n;
    }

    /// Appends the value as text, which has at most 128 bytes.
    pub fn print<D: Display + Drop>(&mut self, value: D)
        ensures { self.new.failed ≡ self.old.failed }
    {
        self.keep(InlineText::<128>::of(value).as_str().as_bytes());
    }
}

impl Output for Page {
    ghost written = { λ _. None };

    ghost failed = { λ p. p.failed };

    fn put(&mut self, bytes: &[u8]) -> Result<usize, WriteFailed> {
        let n = bytes.len().min(self.room.most);
        if self.room.puts == 0 || (n == 0 && !bytes.is_empty()) {
            self.failed = true;
            return Err(WriteFailed);
        }
        self.room.puts -= 1;
        self.keep(&bytes[..n]);
        Ok(n)
    }
}

impl Write for Page {
    fn write(&mut self, bytes: &[u8]) -> io::Result<usize> {
        match self.put(bytes) {
            Ok(n) => Ok(n),
            Err(WriteFailed) if self.room.fails => Err(ErrorKind::Other.into()),
            Err(WriteFailed) => Ok(0),
        }
    }

    fn flush(&mut self) -> io::Result<()> {
        Ok(())
    }
}
