//! A report that is a line of counts and further lines.
ghost use Rattle.std.specs.Prelude.{◌≡◌, ℕ, ◌++◌, List, All, OnOk, OnErr, true, flat_map};
ghost use Rattle.std.specs.Io.KnownBytes.{Appends};
ghost use Rattle.event_core.specs.declared.events.Event.{Event};
ghost use Rattle.rapid_text.specs.Pages.{Puts};
ghost use Rattle.rapid_text.specs.Tables.{Tables};
ghost use Rattle.trace_report.specs.Reports.{summary_line, AreNamed};

use crate::lines::put_summary;
use crate::summary::Summary;
use event_core::Log;
use rapid_text::{Names, Output, Page, WriteFault};

/// What has a line in a report.
pub trait Line<W: Output> {
    /// The line, by the names of a log's numbers and the log.
    ghost line: { Tables → List Event → Self → List ℕ };

    /// The events that the line shows are of the log.
    ghost is_within: { List Event → Self → Type 0 };

    /// Puts the line.
    fn put(
        &self,
        page: &mut Page,
        writer: &mut W,
        log: &Log,
        names: &Names,
    ) -> Result<(), WriteFault>
        requires within { is_within log.now.events self.now }
        requires named { AreNamed names.now log.now.events }
        ensures ok { OnOk result (Puts (W.written writer.old) page.old (W.written writer.new) page.new
            (line names.now log.now.events self.now)) }
        ensures healthy { OnOk result (W.failed writer.new ≡ W.failed writer.old) }
        ensures failed { OnErr result (W.failed writer.new ≡ true) };
}

/// Puts a line for each of what is shown.
fn put_lines<W: Output, L: Line<W>>(
    page: &mut Page,
    writer: &mut W,
    log: &Log,
    names: &Names,
    shown: &[L],
) -> Result<(), WriteFault>
    requires within { All (L.is_within log.now.events) shown.now }
    requires named { AreNamed names.now log.now.events }
    ensures ok { OnOk result (Puts (W.written writer.old) page.old (W.written writer.new) page.new
        (flat_map (L.line names.now log.now.events) shown.now)) }
    ensures healthy { OnOk result (W.failed writer.new ≡ W.failed writer.old) }
    ensures failed { OnErr result (W.failed writer.new ≡ true) }
{
    for line in shown {
        line.put(page, writer, log, names)?;
    }
    Ok(())
}

/// Writes the line of counts, and a line for each of what is shown.
pub fn write_lines<W: Output, L: Line<W>>(
    writer: &mut W,
    log: &Log,
    names: &Names,
    summary: &Summary,
    shown: &[L],
) -> Result<(), WriteFault>
    requires within { All (L.is_within log.now.events) shown.now }
    requires named { AreNamed names.now log.now.events }
    ensures ok { OnOk result (Appends (W.written writer.old) (W.written writer.new)
        (summary_line summary.now ++ flat_map (L.line names.now log.now.events) shown.now)) }
    ensures healthy { OnOk result (W.failed writer.new ≡ W.failed writer.old) }
    ensures failed { OnErr result (W.failed writer.new ≡ true) }
{
    let mut page = Page::new();
    put_summary(&mut page, writer, summary)?;
    put_lines(&mut page, writer, log, names, shown)?;
    page.flush(writer)
}
