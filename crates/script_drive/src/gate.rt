//! Gates: when a line may be run.
ghost use Rattle.std.specs.Prelude.{◌≡◌, true, IsTrue};

use event_core::ThreadId;

/// Says when a line may go ahead, and hears that it was done. Lines are numbered from 1. It is asked by each
/// worker for its own lines.
pub trait Gate {
    ghost use Rattle.std.specs.Prelude.{Bool, false, ℕ, ⊤};
    ghost use Rattle.event_core.specs.declared.ids.ThreadId.{ThreadId};

    /// Whether it is known to let each line go ahead at once, as [`FreeGate`] does. A gate need not say.
    ghost free: { Bool } = { false };

    /// What is known of a thread's line once `enter` has let it go ahead. A gate need not say.
    ghost admitted: { ThreadId → ℕ → Type 0 } = { λ thread line. ⊤ };

    /// What is known of a thread's line once `done` was called for it. A gate need not say.
    ghost told: { ThreadId → ℕ → Type 0 } = { λ thread line. ⊤ };

    /// Whether the line may go ahead now. Where it may not, it is asked again.
    fn enter(&self, thread: ThreadId, line: u64) -> bool
        ensures free { Self.free ≡ true → result ≡ true }
        ensures admitted { IsTrue result → Self.admitted thread line };

    /// The line's call was accepted.
    fn done(&self, thread: ThreadId, line: u64)
        ensures { Self.told thread line };
}

/// Lets each line go ahead at once.
#[derive(Clone, Copy, Debug)]
pub struct FreeGate;

impl Gate for FreeGate {
    ghost use Rattle.std.specs.Prelude.{true};

    ghost free = { true };

    fn enter(&self, _thread: ThreadId, _line: u64) -> bool {
        true
    }

    fn done(&self, _thread: ThreadId, _line: u64) {}
}
