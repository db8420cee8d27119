//! What a text is read from.
ghost use Rattle.std.specs.Prelude.{◌≡◌, ℕ, ◌≤◌, ◌||◌, List, Bool, Option, None, length, IfOk};
ghost use Rattle.std.specs.Result.{is_err};
ghost use Rattle.std.specs.Io.KnownBytes.{ReadConsumes};
ghost use Rattle.rapid_text.specs.Turns.{PulledTimes};

/// A read failed.
#[derive(Debug, Drop)]
pub struct ReadFailed;

/// One read at a time. Contracts see the bytes that are left, where they are known, whether a read has
/// failed, and how many reads were made, where they are counted.
pub trait Input {
    ghost left: { Self → Option (List ℕ) };

    ghost failed: { Self → Bool };

    /// How many pulls were made. An input need not count them.
    ghost pulls: { Self → Option ℕ } = { λ _. None };

    /// One read into the buffer: how many bytes it gave. It gives none only at the end of the text, or
    /// where the buffer is empty.
    fn pull(&mut self, buf: &mut [u8]) -> Result<usize, ReadFailed>
        ensures within { IfOk result (λ n. n ≤ length buf.new) }
        ensures bytes { ReadConsumes (left self.old) (left self.new) result buf.new }
        ensures fails { failed self.new ≡ (failed self.old || is_err result) }
        ensures counts { PulledTimes 1 (pulls self.old) (pulls self.new) };
}
