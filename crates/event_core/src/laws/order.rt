//! The laws of program order and happens-before.
ghost use Rattle.event_core.specs.OrderLaws.{
  PoGoesForward,
  HbGoesForward,
  PoIsOrder,
  HbIsOrder,
  SectionsAreOrdered,
  ReleasesAreOrdered,
  EndsBelow,
  BelowNear,
};

/// Program order goes forward in the log.
pub fn po_goes_forward()
    ensures { PoGoesForward }
{}

/// Happens-before goes forward in the log.
pub fn hb_goes_forward()
    ensures { HbGoesForward }
{}

/// Program order is reflexive and transitive.
pub fn po_is_order()
    ensures { PoIsOrder }
{}

/// Happens-before is reflexive and transitive.
pub fn hb_is_order()
    ensures { HbIsOrder }
{}

/// In a well-formed log, of two sections on one lock the release of the one that ends first is below the
/// other's acquire.
pub fn sections_are_ordered()
    ensures { SectionsAreOrdered }
{}

/// In a well-formed log, of two sections on one lock the release of the one that ends first is below the
/// other's release.
pub fn releases_are_ordered()
    ensures { ReleasesAreOrdered }
{}

/// In a well-formed log, a section whose acquire is below the end of another on its lock ends below it. So
/// rule (b) opens no further premise of itself at the release where it applies.
pub fn ends_below()
    ensures { EndsBelow }
{}

/// In a well-formed log, what is below an event, but the event itself, is below one of the events just below
/// it.
pub fn below_near()
    ensures { BelowNear }
{}
