//! Bytes, cut at the first place of a byte.
ghost use Rattle.std.specs.Prelude.{◌≡◌, option_map};
ghost use Rattle.rapid_line.specs.Cut.{has, cut, before_end, content, Lacks};

use memchr::memchr;

/// Whether the byte stands in the bytes.
#[tactic(auto, using(crate::proofs::CutProperties::has_found))]
pub fn contains(bytes: &[u8], byte: u8) -> bool
    ensures { result ≡ has byte bytes.now }
{
    memchr(byte, bytes).is_some()
}

/// What stands before the first such byte, and what after it.
#[tactic(auto, using(crate::proofs::CutProperties::cutting))]
pub fn cut_at(bytes: &[u8], byte: u8) -> Option<(&[u8], &[u8])>
    ensures { option_map (λ p. (p.0.now, p.1.now)) result ≡ cut byte bytes.now }
{
    let at = memchr(byte, bytes)?;
    Some((&bytes[..at], &bytes[at + 1..]))
}

/// What stands before the byte at the end.
pub(crate) fn strip_last(bytes: &[u8], byte: u8) -> Option<&[u8]>
    ensures { option_map (λ p. p.now) result ≡ before_end byte bytes.now }
{
    let len = bytes.len();
    if len == 0 {
        return None;
    }
    if bytes[len - 1] != byte {
        return None;
    }
    Some(&bytes[..len - 1])
}

/// The content of a line, which stands without its LF: the line without the CR at its end.
#[tactic(auto, using(crate::proofs::CutProperties::before_end_lacks))]
pub fn without_cr(line: &[u8]) -> &[u8]
    ensures value { result.now ≡ content line.now }
    ensures lf { Lacks 10 line.now → Lacks 10 result.now }
{
    if let Some(front) = strip_last(line, b'\r') {
        return front;
    }
    line
}
