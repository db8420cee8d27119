//! A text whose events are judged, line by line.
ghost use Rattle.std.specs.Prelude.{◌≡◌};
ghost use Rattle.rapid_text.specs.Tables.{no_names};

use crate::faults::TraceFault;
use crate::judge::Judge;
use event_core::Limits;
use rapid_line::{Line, LineFault};
use rapid_text::{Cause, LineSink, Names, TextFault, line_event};
use std::alloc::Global;

/// A text so far: the names of its lines, and what judged their events.
#[derive(Drop)]
pub struct JudgedText<J> {
    pub names: Names,
    pub judge: J,
}

impl<J: Judge> JudgedText<J> {
    /// A text before its first line. It takes no memory.
    pub fn new(alloc: Global, limits: Limits, judge: J) -> JudgedText<J>
        ensures names { result.names ≡ no_names limits }
        ensures judge { result.judge ≡ judge }
    {
        JudgedText {
            names: Names::new(alloc, limits),
            judge,
        }
    }
}

impl<J: Judge> LineSink for JudgedText<J> {
    ghost use Rattle.trace_report.specs.Judging.{Judges, Stops};

    type Fault = TraceFault;

    ghost takes = { λ s n line t. Judges (J.is_after s.judge) (J.is_after t.judge) s.names line t.names };

    ghost stops = { λ s n line f. Stops (J.is_after s.judge) s.names n line f };

    #[inline(always)]
    fn take(&mut self, number: u64, line: Line<'_>) -> Result<(), TraceFault> {
        let event = match line_event(&mut self.names, line) {
            Ok(event) => event,
            Err(cause) => return Err(TraceFault::Text(TextFault {
                line: number,
                cause,
            })),
        };
        let Some(event) = event else {
            return Ok(());
        };
        if let Err(refusal) = self.judge.judge(&event) {
            return Err(TraceFault::Refused {
                line: number,
                refusal,
            });
        }
        Ok(())
    }

    fn too_long(&self, number: u64) -> TraceFault {
        TraceFault::Text(TextFault {
            line: number,
            cause: Cause::Line(LineFault::LineTooLong),
        })
    }
}
