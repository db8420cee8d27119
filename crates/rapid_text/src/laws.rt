//! Why it does not matter how a text is cut into pieces, and what a fault's line says of the lines before it.
//!
//! Each law is the contract of a function that does nothing, so it is proved of the definitions alone. Its
//! premises are what the contracts of `Cutter` say of each call.
ghost use Rattle.std.specs.Prelude.{◌≡◌, ℕ, ◌≤◌, List, ◌++◌, Option, None, Some, slice_get};
ghost use Rattle.std.specs.List.{concat};
ghost use Rattle.event_core.specs.declared.events.Event.{Event};
ghost use Rattle.event_core.specs.Bounds.{Bounds};
ghost use Rattle.rapid_text.specs.declared.causes.TextFault.{TextFault};
ghost use Rattle.rapid_text.specs.declared.causes.Cause.{Cause};
ghost use Rattle.rapid_text.specs.Tables.{Tables, no_names};
ghost use Rattle.rapid_text.specs.Texts.{Judgement, judgement, StopsAfter, BeginsAt};
ghost use Rattle.rapid_text.specs.Cutting.{Cutting, begun, Stops, Closes, Closed};
ghost use Rattle.rapid_text.specs.Pushing.{answered, Pushed};

/// Pieces that are pushed to a new cutter one after another are judged as the one text that they join to.
pub fn pieces_are_one_text()
    // At the end of the text, its events are those that were answered, and it has no fault.
    ensures ends { (limits : Bounds) (pieces : List (List ℕ)) (events : List (ℕ × Event)) (last end : Cutting)
        (event : Option Event) → Pushed (begun limits) pieces events last → Closes last end event →
        judgement (no_names limits) (concat pieces)
        ≡ record { events = events ++ answered end.line event; fault = None; names = end.names } }
    // Where a push met a fault, the text has that fault after the events answered before, whatever follows.
    ensures stops { (limits : Bounds) (pieces : List (List ℕ)) (events : List (ℕ × Event)) (last : Cutting)
        (piece : List ℕ) (f : TextFault) → Pushed (begun limits) pieces events last → Stops last piece f →
        (more : List ℕ) →
        StopsAfter events f (judgement (no_names limits) (concat pieces ++ (piece ++ more))) }
    // And where the last line has one.
    ensures closes { (limits : Bounds) (pieces : List (List ℕ)) (events : List (ℕ × Event)) (last : Cutting)
        (f : TextFault) → Pushed (begun limits) pieces events last → Closed last f →
        StopsAfter events f (judgement (no_names limits) (concat pieces)) }
{}

/// What is judged from a line on has no event and no fault before that line.
pub fn nothing_before()
    ensures events { (n : ℕ) (names : Tables) (j : Judgement) (i m : ℕ) (e : Event) → BeginsAt n names j →
        slice_get j.events i ≡ Some (m, e) → n ≤ m }
    ensures fault { (n : ℕ) (names : Tables) (j : Judgement) (m : ℕ) (c : Cause) → BeginsAt n names j →
        j.fault ≡ Some (m, c) → n ≤ m }
{}
