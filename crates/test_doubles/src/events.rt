//! Events as text, by the numbers of their names.
use event_core::Event;
use std::fmt::InlineText;

/// What a thread did at a site, and the value, such as `T1 Store(VarId(0)) at 2: 5`.
pub fn event_text(event: &Event) -> InlineText<96> {
    let (thread, op, site, value) = (event.thread.0, event.op, event.site.0, event.value);
    InlineText::of(format_args!("T{thread} {op:?} at {site}: {value}"))
}
