//! What judges the events of a text: the monitor, or legal memory alone, which keeps no log.
ghost use Rattle.std.specs.Prelude.{◌≡◌, ◌++◌, ◌∷◌, [], List, None, OnOk, IfErr};
ghost use Rattle.event_core.specs.declared.bounds.Limits.{Limits};
ghost use Rattle.event_core.specs.declared.events.Event.{Event};
ghost use Rattle.event_core.specs.Refusal.{event_of, refusal};
ghost use Rattle.trace_report.specs.Findings.{call_of};
ghost use Rattle.trace_report.specs.Judging.{Declines};

use event_core::{Call, Event, Refusal};
use seq_monitor::Monitor;
use traced_mem::Memory;

/// What judges the events of a text, one after another.
pub trait Judge {
    /// It has these limits, and is as after this log.
    ghost is_after: { Self → Limits → List Event → Type 0 };

    /// Performs the call of an event, where it is allowed.
    fn judge(&mut self, event: &Event) -> Result<(), Refusal>
        ensures allowed { OnOk result ((m : Limits) (log : List Event) → is_after self.old m log
            → refusal m log (call_of event.now) ≡ None) }
        ensures after { OnOk result ((m : Limits) (log : List Event) → is_after self.old m log
            → is_after self.new m (log ++ event_of log (call_of event.now) ∷ [])) }
        ensures refused { IfErr result (λ r. (m : Limits) (log : List Event) → is_after self.old m log
            → Declines m log event.now r) };
}

/// The call that a line asks for. What a trace stores is 0.
#[inline(always)]
fn call_for(event: &Event) -> Call
    ensures { result ≡ call_of event.now }
{
    Call {
        thread: event.thread,
        op: event.op,
        site: event.site,
        arg: 0,
    }
}

impl Judge for Monitor {
    ghost is_after = { λ monitor m log. (monitor.limits ≡ m) × (monitor.log ≡ log) };

    #[inline(always)]
    fn judge(&mut self, event: &Event) -> Result<(), Refusal> {
        self.step(call_for(event))?;
        Ok(())
    }
}

impl Judge for Memory {
    ghost use Rattle.traced_mem.specs.Standing.{StandsFor};

    ghost is_after = { λ memory m log. (memory.limits ≡ m) × StandsFor log memory };

    #[inline(always)]
    fn judge(&mut self, event: &Event) -> Result<(), Refusal> {
        let call = call_for(event);
        self.permit(&call)?;
        if !self.ready(&call) && self.prepare(&call).is_err() {
            return Err(Refusal::OutOfMemory);
        }
        self.apply(&call);
        Ok(())
    }
}
