//! What a finding says of the log that a text makes. A law's function does nothing, and its clauses are the
//! law.
ghost use Rattle.std.specs.Prelude.{◌≡◌, ◌↔◌, ℕ, List, Ok, Err};
ghost use Rattle.event_core.specs.declared.bounds.Limits.{Limits};
ghost use Rattle.event_core.specs.declared.replies.Refusal.{Refusal};
ghost use Rattle.rapid_text.specs.declared.causes.TextFault.{TextFault};
ghost use Rattle.rapid_text.specs.Tables.{no_names};
ghost use Rattle.rapid_text.specs.Texts.{judgement};
ghost use Rattle.trace_report.specs.declared.faults.TraceFault.TheVariants.{Text, Refused};
ghost use Rattle.trace_report.specs.Findings.{Trace, finding, IsLegalTrace, IsFirstRefused, IsFirstFault};

/// What a text comes to is its first line that has a fault or whose event is refused, and else its trace.
pub fn finding_is_the_first()
    // A trace is found exactly where no line has a fault and the events make a well-formed log.
    ensures trace { (m : Limits) (text : List ℕ) (t : Trace)
        → (finding m text ≡ Ok t) ↔ IsLegalTrace m (judgement (no_names m) text) t }
    // A line is found refused exactly where all events before it make a well-formed log, after which its call
    // is refused.
    ensures refused { (m : Limits) (text : List ℕ) (line : ℕ) (why : Refusal)
        → (finding m text ≡ Err (Refused line why))
        ↔ IsFirstRefused m (judgement (no_names m) text) line why }
    // A fault is found exactly where the text stops with it and all events before it make a well-formed log.
    ensures fault { (m : Limits) (text : List ℕ) (f : TextFault)
        → (finding m text ≡ Err (Text f)) ↔ IsFirstFault m (judgement (no_names m) text) f }
{}
