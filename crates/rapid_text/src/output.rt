//! What a text is written to.
ghost use Rattle.std.specs.Prelude.{◌≡◌, ℕ, ◌<◌, ◌≤◌, ◌||◌, List, Bool, true, Option, length, IfOk, OnOk};
ghost use Rattle.std.specs.Prelude.{OnErr};
ghost use Rattle.std.specs.Result.{is_err};
ghost use Rattle.std.specs.Io.KnownBytes.{WriteAppends, Appends};

use thiserror::Error;

/// A write failed, or took none of some bytes.
#[derive(Debug, Drop)]
pub struct WriteFailed;

/// A text was not written whole. How much of it was written is not known.
#[derive(Clone, Copy, Debug, PartialEq, Eq, Error)]
#[error("the text could not be written")]
pub struct WriteFault;

/// One write at a time. Contracts see the bytes that were written, where they are known, and whether a write
/// has failed.
pub trait Output {
    ghost written: { Self → Option (List ℕ) };

    ghost failed: { Self → Bool };

    /// One write: how many of the bytes it took. To take none of some bytes is a failure.
    fn put(&mut self, bytes: &[u8]) -> Result<usize, WriteFailed>
        ensures within { IfOk result (λ n. n ≤ length bytes.now) }
        ensures some { IfOk result (λ n. 0 < length bytes.now → 0 < n) }
        ensures bytes { WriteAppends (written self.old) (written self.new) result bytes.now }
        ensures fails { failed self.new ≡ (failed self.old || is_err result) };
}

/// Writes all of the bytes, or answers `WriteFault` where the writer failed.
pub fn write_all<W: Output>(w: &mut W, bytes: &[u8]) -> Result<(), WriteFault>
    ensures ok { OnOk result (Appends (W.written w.old) (W.written w.new) bytes.now) }
    ensures healthy { OnOk result (W.failed w.new ≡ W.failed w.old) }
    // It fails only where the writer did.
    ensures failed { OnErr result (W.failed w.new ≡ true) }
{
    let mut rest = bytes;
    'puts: while !rest.is_empty() {
        let Ok(taken) = w.put(rest) else {
            return Err(WriteFault);
        };
        rest = &rest[taken..];
    }
    Ok(())
}
