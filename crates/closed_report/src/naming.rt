//! Whether each number in a log has a name.
ghost use Rattle.std.specs.Prelude.{◌≡◌, ◌≤◌, ◌↔◌, true, length, IsOk, IfErr, IfSome, IsNone};
ghost use Rattle.rapid_text.specs.Events.{HasNames};
ghost use Rattle.rapid_text.specs.Tables.{space};
ghost use Rattle.trace_report.specs.Reports.{AreNamed};
ghost use Rattle.closed_report.specs.Unnamed.{HasNumber, IsReason, LacksName};

use crate::reporting::ReportFault;
use event_core::{Event, Log};
use rapid_text::{Kind, Names, parts_of};

/// Whether each number of the event has a name. So `write_event` may be asked for its line.
pub fn is_named(names: &Names, event: &Event) -> bool
    ensures { result ≡ true ↔ HasNames names.now event.now }
{
    unnamed_number(names, event).is_none()
}

/// A number of the event that has no name, if there is one: its thread's, its operation's or its site's.
fn unnamed_number(names: &Names, event: &Event) -> Option<(Kind, u32)>
    ensures none { IsNone result ↔ HasNames names.now event.now }
    ensures has { IfSome result (λ of. HasNumber event.now of.0 of.1) }
    ensures unnamed { IfSome result (λ of. length (space names.now of.0).names ≤ of.1) }
{
    let (_, kind, number) = parts_of(event.op);
    if names.count(Kind::Thread) <= event.thread.0 {
        return Some((Kind::Thread, event.thread.0));
    }
    if names.count(kind) <= number {
        return Some((kind, number));
    }
    if names.count(Kind::Site) <= event.site.0 {
        return Some((Kind::Site, event.site.0));
    }
    None
}

/// Whether each number of each event has a name. Else the fault has the first event with a number that has
/// none.
pub fn all_named(names: &Names, log: &Log) -> Result<(), ReportFault>
    ensures named { IsOk result ↔ AreNamed names.now log.now.events }
    ensures unnamed { IfErr result LacksName }
    ensures first { IfErr result (IsReason names.now log.now.events) }
{
    let mut index = 0;
    'events: while index < log.len() {
        let Some(event) = log.get(index) else {
            return Ok(());
        };
        if let Some((kind, number)) = unnamed_number(names, &event) {
            return Err(ReportFault::Unnamed {
                kind,
                number,
                event: index,
            });
        }
        index += 1;
    }
    Ok(())
}
