//! The laws of weak causal precedence and of the recurrence that computes it.
ghost use Rattle.std.specs.Prelude.{ℕ};
ghost use Rattle.event_core.specs.StrictLaws.{
  StrictGoesForward,
  StrictIsClosed,
  StrictIsLeast,
  StrictIsLeastOfTests,
  FirstAreBelow,
  PremiseOfB,
  EarlierSectionsToo,
  RecurrenceIsLeast,
  RelationsStay,
};

/// Weak causal precedence goes forward in the log.
pub fn strict_goes_forward()
    ensures { StrictGoesForward }
{}

/// Weak causal precedence is closed under its rules.
pub fn strict_is_closed()
    ensures { StrictIsClosed }
{}

/// A relation between indices.
pub trait Pairs {
    /// Which pairs are in it.
    ghost related: { ℕ → ℕ → Type 0 };
}

/// Every relation that is closed under the rules contains weak causal precedence.
pub fn strict_is_least<R: Pairs>()
    ensures { StrictIsLeast R.related }
{}

/// The same of each relation that a test decides.
pub fn strict_is_least_of_tests()
    ensures { StrictIsLeastOfTests }
{}

/// Of each thread's events the first ones are below an event, in all four relations.
pub fn first_are_below()
    ensures { FirstAreBelow }
{}

/// In a well-formed log, rule (b) applies exactly when the earlier acquire strictly precedes the later
/// release.
pub fn premise_of_b()
    ensures { PremiseOfB }
{}

/// In a well-formed log, an acquire that strictly precedes an event brings the earlier ones on its lock.
pub fn earlier_sections_too()
    ensures { EarlierSectionsToo }
{}

/// In a well-formed log, the recurrence gives exactly the least relation.
pub fn recurrence_is_least()
    ensures { RecurrenceIsLeast }
{}

/// The relations are the same in every longer log.
pub fn relations_stay()
    ensures { RelationsStay }
{}
