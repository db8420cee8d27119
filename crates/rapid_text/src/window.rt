//! One piece of a text: what was read at once, and how much of it waits to be judged.
ghost use Rattle.std.specs.Prelude.{◌≡◌, ℕ, ◌+◌, ◌-◌, ◌<◌, ◌≤◌, ◌||◌, List, [], length, take, drop, IfOk};
ghost use Rattle.std.specs.Prelude.{OnErr};
ghost use Rattle.std.specs.Result.{is_err};
ghost use Rattle.std.specs.Io.KnownBytes.{Consumes, Keeps, IsAtEnd};
ghost use Rattle.rapid_text.specs.Pulling.{window_size};
ghost use Rattle.rapid_text.specs.Turns.{PulledTimes};

use crate::input::{Input, ReadFailed};
use event_core::OutOfMemory;
use std::alloc::Global;
use std::marker::Model;

/// How many bytes are read at once.
const PIECE: usize = 4096;

/// The part of a piece that waits to be judged.
#[derive(Drop)]
pub struct Window {
    bytes: Vec<u8>,
    from: usize,
    to: usize,
}

impl Model for Window {
    ghost Value = { List ℕ };

    ghost view = { λ w. take (w.to - w.from) (drop w.from w.bytes.items) };

    ghost invariant = { λ w. (w.from ≤ w.to) × (w.to ≤ length w.bytes.items)
        × (length w.bytes.items ≡ window_size) };
}

impl Window {
    /// An empty window, with the memory for a piece.
    pub fn new(alloc: Global) -> Result<Window, OutOfMemory>
        ensures { IfOk result (λ w. w ≡ []) }
    {
        let Ok(bytes) = vec![in alloc; 0u8; PIECE] else {
            return Err(OutOfMemory);
        };
        Ok(Window {
            bytes,
            from: 0,
            to: 0,
        })
    }

    pub fn waiting(&self) -> &[u8]
        ensures { result.now ≡ self.entry.now }
    {
        &self.bytes[self.from..self.to]
    }

    pub fn skip(&mut self, n: usize)
        requires { n ≤ length self.old }
        ensures { self.new ≡ drop n self.old }
    {
        self.from += n;
    }

    /// One read of the next piece.
    pub fn fill<I: Input>(&mut self, input: &mut I) -> Result<usize, ReadFailed>
        requires { self.old ≡ [] }
        ensures bytes { IfOk result (λ n. Consumes (I.left input.old) (I.left input.new) self.new) }
        ensures end { IfOk result (λ n. n ≡ 0 → IsAtEnd (I.left input.new) × (self.new ≡ [])) }
        ensures len { IfOk result (λ n. length self.new ≡ n) }
        ensures short { length self.new ≤ window_size }
        ensures kept { OnErr result (Keeps (I.left input.old) (I.left input.new)) }
        ensures none { OnErr result (self.new ≡ []) }
        ensures failed { I.failed input.new ≡ (I.failed input.old || is_err result) }
        ensures counts { PulledTimes 1 (I.pulls input.old) (I.pulls input.new) }
    {
        let pulled = input.pull(self.bytes.as_mut_slice());
        self.from = 0;
        self.to = 0;
        let n = pulled?;
        self.to = n;
        Ok(n)
    }
}
