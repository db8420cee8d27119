//! The report of a log.
ghost use Rattle.std.specs.Prelude.{◌≡◌, OnOk, OnErr, IfOk, true};
ghost use Rattle.std.specs.Io.KnownBytes.{Appends};
ghost use Rattle.rapid_text.specs.Pages.{Puts};
ghost use Rattle.trace_report.specs.Reports.{report_of, summary_of, AreWithin, AreNamed, race_lines};

use crate::lines::{put_race, put_summary};
use crate::summary::Summary;
use event_core::Log;
use rapid_text::{Names, Output, Page, WriteFault};
use verdict_list::Verdicts;

/// Puts a line for each race.
fn put_races<W: Output>(
    page: &mut Page,
    writer: &mut W,
    log: &Log,
    verdicts: &Verdicts,
    names: &Names,
) -> Result<(), WriteFault>
    requires verdicts { AreWithin log.now.events verdicts.now.verdicts }
    requires named { AreNamed names.now log.now.events }
    ensures ok { OnOk result (Puts (W.written writer.old) page.old (W.written writer.new) page.new
        (race_lines names.now log.now.events 0 verdicts.now.verdicts)) }
    ensures healthy { OnOk result (W.failed writer.new ≡ W.failed writer.old) }
    ensures failed { OnErr result (W.failed writer.new ≡ true) }
{
    for race in verdicts.races() {
        put_race(page, writer, log, names, *race)?;
    }
    Ok(())
}

/// Writes the report of a log: a line of counts, `events E threads T locks L variables V races R`, and for
/// each event whose verdict is a race, in the order of the log, a line
/// `i|thread|operation(variable)|location with j|thread|operation(variable)|location`.
/// Events are numbered from 1, and j is the one that the verdict names. It takes no memory. `WriteFault`
/// tells that the writer failed.
pub fn report<W: Output>(
    writer: &mut W,
    log: &Log,
    verdicts: &Verdicts,
    names: &Names,
) -> Result<Summary, WriteFault>
    requires verdicts { AreWithin log.now.events verdicts.now.verdicts }
    requires named { AreNamed names.now log.now.events }
    // What is written is the report, and nothing else.
    ensures ok { OnOk result (Appends (W.written writer.old) (W.written writer.new)
        (report_of names.now log.now.events verdicts.now.verdicts)) }
    ensures summary { IfOk result (λ s. s ≡ summary_of names.now log.now.events verdicts.now.verdicts) }
    ensures healthy { OnOk result (W.failed writer.new ≡ W.failed writer.old) }
    // It fails only where the writer did.
    ensures failed { OnErr result (W.failed writer.new ≡ true) }
{
    let told = Summary::of(log, verdicts, names);
    let mut page = Page::new();
    put_summary(&mut page, writer, &told)?;
    put_races(&mut page, writer, log, verdicts, names)?;
    page.flush(writer)?;
    Ok(told)
}
