//! A page of fixed size between a text and its writer, so that a short piece of text is no write of its own.
ghost use Rattle.std.specs.Prelude.{◌≡◌, ◌+◌, ◌≤◌, ◌++◌, [], List, ℕ, length, Ok, OnOk, OnErr, true};
ghost use Rattle.rapid_text.specs.Pages.{Puts};

use crate::output::{Output, WriteFault, write_all};
use arrayvec::ArrayVec;
use std::marker::Model;

/// How many bytes may wait.
const ROOM: usize = 4096;

/// The bytes of a text that wait to be written.
#[derive(Drop)]
pub struct Page {
    bytes: ArrayVec<u8, ROOM>,
}

impl Model for Page {
    ghost Value = { List ℕ };

    ghost view = { λ p. p.bytes.items };
}

impl Page {
    /// A page on which nothing waits.
    pub fn new() -> Page
        ensures { result ≡ [] }
    {
        Page {
            bytes: ArrayVec::new(),
        }
    }

    /// Writes all that waits.
    pub fn flush<W: Output>(&mut self, writer: &mut W) -> Result<(), WriteFault>
        ensures ok { OnOk result (Puts (W.written writer.old) self.old (W.written writer.new) self.new []) }
        ensures empty { OnOk result (self.new ≡ []) }
        ensures healthy { OnOk result (W.failed writer.new ≡ W.failed writer.old) }
        ensures failed { OnErr result (W.failed writer.new ≡ true) }
    {
        write_all(writer, self.bytes.as_slice())?;
        self.bytes.clear();
        Ok(())
    }

    /// Adds the bytes at the end of the text. Where they find no room, all that waits is written first.
    // Inlined, so that a piece of one byte is one store.
    #[inline(always)]
    pub fn put<W: Output>(&mut self, writer: &mut W, bytes: &[u8]) -> Result<(), WriteFault>
        ensures ok { OnOk result
            (Puts (W.written writer.old) self.old (W.written writer.new) self.new bytes.now) }
        // Where they find room they wait, and nothing is written.
        ensures waits { length self.old + length bytes.now ≤ 4096 →
            (result ≡ Ok tt) × (self.new ≡ self.old ++ bytes.now) × (writer.new ≡ writer.old) }
        ensures healthy { OnOk result (W.failed writer.new ≡ W.failed writer.old) }
        ensures failed { OnErr result (W.failed writer.new ≡ true) }
    {
        let Err(_) = self.bytes.try_extend_from_slice(bytes) else {
            return Ok(());
        };
        self.flush(writer)?;
        write_all(writer, bytes)
    }
}
