//! A rule that the log of a shared monitor keeps.

/// What holds of the log at each time. Who makes a call shows that the log still keeps it with what the call
/// adds.
pub trait LogRule {
    ghost use Rattle.std.specs.Prelude.{List};
    ghost use Rattle.event_core.specs.declared.events.Event.{Event};

    ghost keeps: { List Event → Type 0 };
}

/// No rule: every log keeps it.
pub struct AnyLog;

impl LogRule for AnyLog {
    ghost keeps = { λ _. Unit {0} };
}
