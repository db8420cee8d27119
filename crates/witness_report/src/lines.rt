//! The lines of a witness.
ghost use Rattle.std.specs.Prelude.{◌≡◌, ℕ, ◌<◌, ◌++◌, Some, OnOk, OnErr, length, slice_get, true};
ghost use Rattle.std.specs.Io.KnownBytes.{Appends};
ghost use Rattle.rapid_text.specs.Pages.{Puts};
ghost use Rattle.trace_report.specs.Reports.{AreNamed};
ghost use Rattle.witness_report.specs.Lines.{line_at, lines_at};

use event_core::Log;
use rapid_text::{Names, Output, Page, WriteFault, put_event};

/// Puts the line of the event at the index.
fn put_line<W: Output>(
    page: &mut Page,
    writer: &mut W,
    log: &Log,
    names: &Names,
    index: u64,
) -> Result<(), WriteFault>
    requires named { AreNamed names.now log.now.events }
    ensures ok { OnOk result (Puts (W.written writer.old) page.old (W.written writer.new) page.new
        (line_at names.now log.now.events index)) }
    ensures healthy { OnOk result (W.failed writer.new ≡ W.failed writer.old) }
    ensures failed { OnErr result (W.failed writer.new ≡ true) }
{
    let Some(event) = log.get(index) else {
        return Ok(());
    };
    put_event(page, writer, &event, names)?;
    page.put(writer, b"\n")
}

/// Puts the lines of the events at the indices.
fn put_lines<W: Output>(
    page: &mut Page,
    writer: &mut W,
    log: &Log,
    names: &Names,
    events: &[u32],
) -> Result<(), WriteFault>
    requires named { AreNamed names.now log.now.events }
    ensures ok { OnOk result (Puts (W.written writer.old) page.old (W.written writer.new) page.new
        (lines_at names.now log.now.events events.now)) }
    ensures healthy { OnOk result (W.failed writer.new ≡ W.failed writer.old) }
    ensures failed { OnErr result (W.failed writer.new ≡ true) }
{
    for index in events {
        put_line(page, writer, log, names, *index as u64)?;
    }
    Ok(())
}

/// Writes the lines of the events at the indices, and then those of events i and j.
pub fn write_lines<W: Output>(
    writer: &mut W,
    log: &Log,
    names: &Names,
    events: &[u32],
    i: u64,
    j: u64,
) -> Result<(), WriteFault>
    requires named { AreNamed names.now log.now.events }
    ensures ok { OnOk result (Appends (W.written writer.old) (W.written writer.new)
        (lines_at names.now log.now.events events.now
        ++ line_at names.now log.now.events i
        ++ line_at names.now log.now.events j)) }
    ensures healthy { OnOk result (W.failed writer.new ≡ W.failed writer.old) }
    ensures failed { OnErr result (W.failed writer.new ≡ true) }
{
    let mut page = Page::new();
    put_lines(&mut page, writer, log, names, events)?;
    put_line(&mut page, writer, log, names, i)?;
    put_line(&mut page, writer, log, names, j)?;
    page.flush(writer)
}
