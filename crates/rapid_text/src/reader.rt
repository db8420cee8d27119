//! The events of a text, read from an input of its own: a cutter under a loop of pulls.
//!
//! What waits in the window is pushed to the cutter. Where no line with an event ended, the next piece is
//! pulled, for one turn; the end of the text finishes the cutter. So the number of pulls is bounded,
//! however the input behaves, and each line that came whole is judged before a failure is reported.
ghost use Rattle.std.specs.Prelude.{◌≡◌, ◌≢◌, ℕ, ◌+◌, ◌-◌, ◌*◌, ◌≤◌, length, IfOk, IfErr, IfSome, OnOk, Ok};
ghost use Rattle.std.specs.Prelude.{None, Some, true, false};
ghost use Rattle.std.specs.Result.{IsErrOf};
ghost use Rattle.rapid_text.specs.Cutting.{most, failed_at};
ghost use Rattle.rapid_text.specs.Tables.{TablesGrow};
ghost use Rattle.rapid_text.specs.Events.{IsOfNames};
ghost use Rattle.rapid_text.specs.Pulling.{unpulled, Answers, NoAnswer, pulling_of, to_judge};
ghost use Rattle.rapid_text.specs.Pulling.{window_size, TakeBytes, TakeFew};
ghost use Rattle.rapid_text.specs.Turns.{most_turns, PulledTimes};
ghost use Rattle.rapid_text.specs.Texts.{BeginsAt};
ghost use Rattle.rapid_text.specs.Reading.{Reading};

use crate::causes::{Cause, TextFault};
use crate::cutter::Cutter;
use crate::input::Input;
use crate::names::Names;
use crate::window::Window;
use event_core::{Event, Limits, OutOfMemory};
use std::alloc::Global;
use std::marker::Model;

/// The next event, with no more than so many pulls. It sets `ended` at the end of the text.
fn next_event<I: Input>(
    input: &mut I,
    cutter: &mut Cutter,
    window: &mut Window,
    turns: &mut u64,
    ended: &mut bool,
) -> Result<Option<Event>, TextFault>
    requires room { cutter.old.taken + length window.old + window_size * turns.old ≤ most }
    requires live { cutter.old.failed ≡ None }
    requires begun { ended.old ≡ false }
    ensures ok { IfOk result (Answers
        (pulling_of cutter.old window.old turns.old ended.old) (I.left input.old)
        (pulling_of cutter.new window.new turns.new ended.new) (I.left input.new)) }
    ensures fault { IfErr result (λ f. NoAnswer
        (pulling_of cutter.old window.old turns.old ended.old) (I.left input.old)
        (pulling_of cutter.new window.new turns.new ended.new) (I.left input.new)
        (I.failed input.new) f f.cause) }
    ensures before { IfErr result (λ f.
        IfSome (to_judge (pulling_of cutter.old window.old turns.old ended.old) (I.left input.old))
        (BeginsAt f.line cutter.new.names)) }
    ensures failed { IfErr result (λ f. cutter.new.failed ≡ Some f.line) }
    ensures line { IfErr result (λ f. cutter.new.line ≡ f.line) }
    ensures live { OnOk result (cutter.new.failed ≡ None) }
    ensures healthy { OnOk result (I.failed input.new ≡ I.failed input.old) }
    ensures told { IfErr result (λ f. f.cause ≢ Cause.Read → I.failed input.new ≡ I.failed input.old) }
    ensures room { OnOk result (cutter.new.taken + length window.new + window_size * turns.new ≤ most) }
    ensures turns { turns.new ≤ turns.old }
    ensures pulls { PulledTimes (turns.old - turns.new) (I.pulls input.old) (I.pulls input.new) }
    ensures few { TakeFew turns.old (I.left input.old) turns.new (I.left input.new) }
    ensures bytes { OnOk result (ended.new ≡ false
        → TakeBytes turns.old (I.left input.old) turns.new (I.left input.new)) }
    ensures read { IfErr result (λ f. f.cause ≡ Cause.Read → I.failed input.new ≡ false
        → TakeBytes turns.old (I.left input.old) turns.new (I.left input.new)) }
    ensures grows { TablesGrow cutter.old.names cutter.new.names }
    ensures named { IfOk result (λ e. IfSome e (IsOfNames cutter.new.names)) }
    ensures empty { ended.new ≡ true → length cutter.new.kept + length window.new ≡ 0 }
{
    'pulls: loop {
        let (used, event) = cutter.push(window.waiting())?;
        window.skip(used);
        if event.is_some() {
            return Ok(event);
        }
        if *turns == 0 {
            return Err(cutter.read_failed());
        }
        *turns -= 1;
        match window.fill(input) {
            Err(_) => return Err(cutter.read_failed()),
            Ok(0) => {
                let event = cutter.finish()?;
                *ended = true;
                return Ok(event);
            }
            Ok(_) => {}
        }
    }
}

/// Gives the events of a text, which it pulls from its input in pieces of 4,096 bytes.
#[derive(Drop)]
pub struct Reader<I: Input> {
    input: I,
    cutter: Cutter,
    window: Window,
    turns: u64,
    ended: bool,
}

impl<I: Input> Model for Reader<I> {
    ghost Value = { Reading };

    ghost view = { λ r. record {
      text = pulling_of r.cutter r.window r.turns r.ended;
      left = I.left r.input;
      read_failed = I.failed r.input;
      pulls = I.pulls r.input;
    } };

    ghost invariant = { λ r.
        (r.cutter.failed ≡ None → r.cutter.taken + length r.window + window_size * r.turns ≤ most)
        × (r.ended ≡ true → length r.cutter.kept + length r.window ≡ 0) };
}

impl<I: Input> Reader<I> {
    /// A reader before the first pull, with the memory for a piece of 4,096 bytes; `OutOfMemory` where that
    /// is refused. Each pull takes one turn, and there are at most 2^44 turns.
    pub fn new(
        alloc: Global,
        inner: I,
        limits: Limits,
        turns: u64,
    ) -> Result<Reader<I>, OutOfMemory>
    where
        I: Drop,
        requires turns { turns ≤ most_turns }
        requires works { I.failed inner ≡ false }
        ensures { IfOk result (λ r. r ≡ record {
          text = unpulled limits turns;
          left = I.left inner;
          read_failed = false;
          pulls = I.pulls inner;
        }) }
    {
        let window = Window::new(alloc)?;
        let cutter = Cutter::new(alloc, limits)?;
        Ok(Reader {
            input: inner,
            cutter,
            window,
            turns,
            ended: false,
        })
    }

    /// The next event of the text, or that it ended. Events have the value 0. The fault of a line has its
    /// number; a failed read and turns that are used up are `Read`, a refused growth is
    /// `OutOfMemory`, at the line whose event would be the next answer, and each call after a fault is
    /// answered `Failed`.
    pub fn next(&mut self) -> Result<Option<Event>, TextFault>
        // The event is the next of the text that is still to be judged, or that text has none left.
        ensures ok { IfOk result (Answers self.old.text self.old.left self.new.text self.new.left) }
        // The fault is the one at which that text stops, or a read failed, the turns are used up or a growth
        // was refused at the first line with an event, and no line before has a fault.
        ensures fault { IfErr result (λ f.
            NoAnswer self.old.text self.old.left self.new.text self.new.left self.new.read_failed f f.cause) }
        // No line before it has an event or a fault, and their names are numbered.
        ensures before { IfErr result (λ f.
            IfSome (to_judge self.old.text self.old.left) (BeginsAt f.line self.new.text.names)) }
        // After a fault it fails from then on, and nothing changes.
        ensures again { (n : ℕ) → self.old.text.failed ≡ Some n →
            IsErrOf result (failed_at n) × (self.new ≡ self.old) }
        ensures failed { IfErr result (λ f. self.new.text.failed ≡ Some f.line) }
        ensures line { IfErr result (λ f. self.new.text.line ≡ f.line) }
        ensures live { OnOk result (self.new.text.failed ≡ None) }
        // A failure of the input is never passed over: it is answered `Read`.
        ensures healthy { OnOk result (self.new.read_failed ≡ self.old.read_failed) }
        ensures told { IfErr result (λ f.
            f.cause ≢ Cause.Read → self.new.read_failed ≡ self.old.read_failed) }
        // Each pull takes one turn.
        ensures turns { self.new.text.turns ≤ self.old.text.turns }
        ensures pulls { PulledTimes (self.old.text.turns - self.new.text.turns)
            self.old.pulls self.new.pulls }
        // However it ends, no more than 4,096 bytes were pulled for each turn.
        ensures few { TakeFew self.old.text.turns self.old.left self.new.text.turns self.new.left }
        // Each turn took a byte, except one that found the end of the text or a failure.
        ensures bytes { OnOk result (self.new.text.ended ≡ false
            → TakeBytes self.old.text.turns self.old.left self.new.text.turns self.new.left) }
        ensures read { IfErr result (λ f. f.cause ≡ Cause.Read → self.new.read_failed ≡ false
            → TakeBytes self.old.text.turns self.old.left self.new.text.turns self.new.left) }
        // Names were only added, and the event's numbers have names.
        ensures grows { TablesGrow self.old.text.names self.new.text.names }
        ensures named { IfOk result (λ e. IfSome e (IsOfNames self.new.text.names)) }
        // After the end it stays at the end, and nothing is pulled.
        ensures stays { self.old.text.failed ≡ None → self.old.text.ended ≡ true →
            (result ≡ Ok None) × (self.new ≡ self.old) }
    {
        if let Some(line) = self.cutter.failed() {
            return Err(TextFault {
                line,
                cause: Cause::Failed,
            });
        }
        if self.ended {
            return Ok(None);
        }
        next_event(
            &mut self.input,
            &mut self.cutter,
            &mut self.window,
            &mut self.turns,
            &mut self.ended,
        )
    }

    /// The number of the last answer's line: of the last event, or of the first fault once there is one;
    /// 0 before the first answer. The end of the text has no line.
    pub fn line(&self) -> u64
        ensures { result ≡ self.now.text.line }
    {
        self.cutter.line()
    }

    /// The names so far.
    pub fn names(&self) -> &Names
        ensures { result.now ≡ self.entry.now.text.names }
    {
        self.cutter.names()
    }
}
