//! What a check of a trace answers, and its line.
ghost use Rattle.std.specs.Prelude.{◌≡◌, OnErr, OnOk, true};
ghost use Rattle.std.specs.Io.KnownBytes.{Appends};

use crate::lines::put_count;
use rapid_text::{Kind, Names, Output, Page, WriteFault};

/// How many events a trace has, and how many threads, locks and variables it names.
#[derive(Clone, Copy, Debug, PartialEq, Eq)]
pub struct Counts {
    pub events: u64,
    pub threads: u32,
    pub locks: u32,
    pub vars: u32,
}

impl Counts {
    ghost use Rattle.trace_report.specs.Checked.{counts_of, counts_text, counts_line};
    ghost use Rattle.rapid_text.specs.Pages.{Puts};

    /// The counts of a trace with so many events and these names.
    pub(crate) fn of(events: u64, names: &Names) -> Counts
        ensures { result ≡ counts_of events names.now }
    {
        Counts {
            events,
            threads: names.count(Kind::Thread),
            locks: names.count(Kind::Lock),
            vars: names.count(Kind::Variable),
        }
    }

    /// Puts the counts, without an ending.
    pub(crate) fn put<W: Output>(&self, page: &mut Page, writer: &mut W) -> Result<(), WriteFault>
        ensures ok { OnOk result (Puts (W.written writer.old) page.old (W.written writer.new) page.new
            (counts_text self.now)) }
        ensures healthy { OnOk result (W.failed writer.new ≡ W.failed writer.old) }
        ensures failed { OnErr result (W.failed writer.new ≡ true) }
    {
        put_count(page, writer, "events ", self.events)?;
        put_count(page, writer, " threads ", u64::from(self.threads))?;
        put_count(page, writer, " locks ", u64::from(self.locks))?;
        put_count(page, writer, " variables ", u64::from(self.vars))
    }

    /// Writes the line of counts. The writer is given the whole line at once, but no clause tells how it is
    /// cut.
    pub(crate) fn write<W: Output>(&self, writer: &mut W) -> Result<(), WriteFault>
        ensures ok { OnOk result
            (Appends (W.written writer.old) (W.written writer.new) (counts_line self.now)) }
        ensures healthy { OnOk result (W.failed writer.new ≡ W.failed writer.old) }
        // It fails only where the writer did.
        ensures failed { OnErr result (W.failed writer.new ≡ true) }
    {
        let mut page = Page::new();
        self.put(&mut page, writer)?;
        page.put(writer, b"\n")?;
        page.flush(writer)
    }
}
