//! The lines of a report, put on a page.
ghost use Rattle.std.specs.Prelude.{◌≡◌, ℕ, ◌+◌, ◌<◌, ◌++◌, ◌∷◌, [], length, decimal, OnOk, OnErr, true};
ghost use Rattle.event_core.specs.declared.replies.Verdict.TheVariants.{Racy};
ghost use Rattle.rapid_text.specs.Pages.{Puts};
ghost use Rattle.trace_report.specs.Reports.{labelled, summary_line, event_at, race_line, AreNamed};

use crate::counts::Counts;
use crate::summary::Summary;
use event_core::Log;
use itoa::Buffer;
use rapid_text::{Names, Output, Page, WriteFault, put_event};
use verdict_list::Race;

/// Puts a label and a number.
pub fn put_count<W: Output>(
    page: &mut Page,
    writer: &mut W,
    label: &str,
    number: u64,
) -> Result<(), WriteFault>
    ensures ok { OnOk result (Puts (W.written writer.old) page.old (W.written writer.new) page.new
        (labelled label.now number)) }
    ensures healthy { OnOk result (W.failed writer.new ≡ W.failed writer.old) }
    ensures failed { OnErr result (W.failed writer.new ≡ true) }
{
    let mut digits = Buffer::new();
    page.put(writer, label.as_bytes())?;
    page.put(writer, digits.format(number).as_bytes())
}

/// Puts the line of counts.
pub fn put_summary<W: Output>(
    page: &mut Page,
    writer: &mut W,
    summary: &Summary,
) -> Result<(), WriteFault>
    ensures ok { OnOk result (Puts (W.written writer.old) page.old (W.written writer.new) page.new
        (summary_line summary.now)) }
    ensures healthy { OnOk result (W.failed writer.new ≡ W.failed writer.old) }
    ensures failed { OnErr result (W.failed writer.new ≡ true) }
{
    let counts = Counts {
        events: summary.events,
        threads: summary.threads,
        locks: summary.locks,
        vars: summary.vars,
    };
    counts.put(page, writer)?;
    put_count(page, writer, " races ", summary.races)?;
    page.put(writer, b"\n")
}

/// Puts the number of the event at an index. Events are numbered from 1.
fn put_number<W: Output>(page: &mut Page, writer: &mut W, index: u64) -> Result<(), WriteFault>
    requires room { index < 18446744073709551615 }
    ensures ok { OnOk result (Puts (W.written writer.old) page.old (W.written writer.new) page.new
        (decimal (index + 1))) }
    ensures healthy { OnOk result (W.failed writer.new ≡ W.failed writer.old) }
    ensures failed { OnErr result (W.failed writer.new ≡ true) }
{
    let mut digits = Buffer::new();
    page.put(writer, digits.format(index + 1).as_bytes())
}

/// Puts the number of an event, counted from 1, and its line without an ending.
fn put_numbered<W: Output>(
    page: &mut Page,
    writer: &mut W,
    log: &Log,
    names: &Names,
    index: u64,
) -> Result<(), WriteFault>
    requires within { index < length log.now.events }
    requires named { AreNamed names.now log.now.events }
    ensures ok { OnOk result (Puts (W.written writer.old) page.old (W.written writer.new) page.new
        (event_at names.now log.now.events index)) }
    ensures healthy { OnOk result (W.failed writer.new ≡ W.failed writer.old) }
    ensures failed { OnErr result (W.failed writer.new ≡ true) }
{
    // Asked for its clause alone: the length, and so the number, fits 64 bits.
    let _most = log.len();
    let Some(event) = log.get(index) else {
        return Ok(());
    };
    put_number(page, writer, index)?;
    page.put(writer, b"|")?;
    put_event(page, writer, &event, names)
}

/// Puts the line of an event that races with an earlier one.
pub fn put_race<W: Output>(
    page: &mut Page,
    writer: &mut W,
    log: &Log,
    names: &Names,
    race: Race,
) -> Result<(), WriteFault>
    requires within { race.event < length log.now.events }
    requires earlier { race.with < length log.now.events }
    requires named { AreNamed names.now log.now.events }
    ensures ok { OnOk result (Puts (W.written writer.old) page.old (W.written writer.new) page.new
        (race_line names.now log.now.events race.event (Racy race.with))) }
    ensures healthy { OnOk result (W.failed writer.new ≡ W.failed writer.old) }
    ensures failed { OnErr result (W.failed writer.new ≡ true) }
{
    put_numbered(page, writer, log, names, race.event)?;
    page.put(writer, b" with ")?;
    put_numbered(page, writer, log, names, race.with)?;
    page.put(writer, b"\n")
}
