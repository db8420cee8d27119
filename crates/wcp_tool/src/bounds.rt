//! What a run of a command may take.
ghost use Rattle.std.specs.Prelude.{◌≡◌, ◌≤◌};
ghost use Rattle.wcp_tool.specs.Running.{limits_with};

use event_core::{Limits, MOST_EVENTS, MOST_LOCKS, MOST_VARS, Roots};

/// The most reads that a text may take, 2^44. A piece has at most 65,536 bytes, so that what they give has at
/// most 2^60, and no number of a line overflows.
pub(crate) const TURNS: u64 = 17592186044416;

/// The limits of a run with so many threads, and as many locks, variables and events as there may be.
pub(crate) fn limits_of(threads: u32, roots: Roots) -> Limits
    requires least { 1 ≤ threads }
    requires most { threads ≤ 1024 }
    ensures { result ≡ limits_with threads roots }
{
    Limits::new(threads, MOST_LOCKS, MOST_VARS, MOST_EVENTS, roots).unwrap()
}
