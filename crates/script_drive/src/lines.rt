//! What a worker does: the calls of its thread's lines, in order.
ghost use Rattle.std.specs.Prelude.{◌≡◌, ◌∷◌, true, Err, List, Contains};
ghost use Rattle.std.specs.Prelude.{IfErr, IfOk, IsErrAnd, IsFalse, IsOk, IsTrue, OnOk};
ghost use Rattle.event_core.specs.declared.ids.ThreadId.{ThreadId};
ghost use Rattle.event_core.specs.declared.replies.Refusal.TheVariants.{Held};
ghost use Rattle.script_text.specs.declared.lines.ScriptLine.{ScriptLine};
ghost use Rattle.script_drive.specs.Faults.{goes_ahead, is_told, refused_at, HasToWait, IsHaltOf, IsNext};
ghost use Rattle.script_text.specs.Lines.{thread_of};
ghost use Rattle.script_drive.specs.Ends.{PassedGate};
ghost use Rattle.script_drive.specs.Lines.{lines_by};
ghost use Rattle.script_drive.specs.Workers.{Does, Done, IsFirst, SawRun, Serves};

use crate::drive_names::{DriveName, LastPasses, RunsScript};
use crate::faults::{DriveFault, Halt};
use crate::gate::Gate;
use crate::links::Links;
use event_core::{Act, Op, Refusal, Reply};
use live_monitor::{Shared, Tries};
use log_pass::{Name, Pass};
use pass_channel::{PassReceiver, TryRecvError};
use script_text::{Script, ScriptLine};
use std::sync::Wait;

/// What the workers of a drive share.
#[derive(Drop)]
pub(crate) struct Drive<'a, S: DriveName, G: Gate, R> {
    pub rt: &'a R,
    pub shared: &'a Shared<S, RunsScript<S>>,
    pub script: &'a Script,
    pub gate: &'a G,
    pub patience: u32,
    ghost of: { script.now.lines ≡ S.lines },
    ghost patient: { patience ≡ S.patience },
    ghost ahead: { S.ahead ≡ goes_ahead G.free S.patience },
}

// Asks the gate for the line, as often as patience allows.
fn enter<S: DriveName, G: Gate, R>(
    drive: &Drive<'_, S, G, R>,
    line: &ScriptLine,
) -> Result<(), Halt>
    requires line { Contains S.lines line.now }
    ensures admitted { IfOk result (λ _. G.admitted (thread_of line.now) line.now.line) }
    ensures halt { IfErr result (IsHaltOf S.limits S.ahead S.lines) }
{
    let mut tries = Tries::of(drive.patience);
    'tries: while tries.another() {
        if drive.gate.enter(line.thread(), line.line) {
            return Ok(());
        }
    }
    Err(Halt::stuck::<S>(line, &tries))
}

// Looks for the pass of the thread that the line joins, as often as patience allows.
fn await_end<S: DriveName, G: Gate, R: Wait>(
    drive: &Drive<'_, S, G, R>,
    receiver: PassReceiver<S, LastPasses<S>>,
    line: &ScriptLine,
) -> Result<Pass<S>, Halt>
    requires line { Contains S.lines line.now }
    requires waits { HasToWait S.limits S.lines line.now }
    ensures done { IfOk result (Done S.lines receiver.to) }
    ensures halt { IfErr result (IsHaltOf S.limits S.ahead S.lines) }
{
    let mut receiver = receiver;
    let mut looks = Tries::of(drive.patience);
    'looks: while looks.another() {
        match receiver.look(drive.rt) {
            Ok(pass) => return Ok(pass),
            Err(TryRecvError::Empty) => {}
            Err(TryRecvError::Disconnected) => return Err(Halt::Abandoned(*line)),
        }
    }
    Err(Halt::stuck::<S>(line, &looks))
}

// Whether the acquire was refused since another thread holds the lock.
fn is_held(answer: &Result<Reply, Refusal>) -> bool
    ensures held { IsTrue result → (by : ThreadId) × (answer.now ≡ Err (Held by)) }
    ensures told { IsFalse result → IfErr answer.now (λ why. is_told why ≡ true) }
{
    matches!(answer, Err(Refusal::Held { .. }))
}

// The pass after a call that was accepted.
fn answered<N: Name, T: Drop>(
    line: &ScriptLine,
    answer: (Pass<N>, Result<T, Refusal>),
) -> Result<Pass<N>, Halt>
    ensures pass { IfOk result (λ pass. pass ≡ answer.0) }
    ensures accepted { IfOk result (λ _. IsOk answer.1) }
    ensures refused { IfErr result (λ halt. IsErrAnd answer.1
        (λ refusal. halt ≡ Halt.Fault (refused_at line.now refusal))) }
{
    match answer {
        (pass, Ok(_)) => Ok(pass),
        (_, Err(refusal)) => Err(Halt::Fault(DriveFault::refused(line, refusal))),
    }
}

// The call of one line.
fn make_call<S: DriveName, G: Gate, R: Wait>(
    drive: &Drive<'_, S, G, R>,
    pass: Pass<S>,
    line: &ScriptLine,
    links: &mut Links<S>,
) -> Result<Pass<S>, Halt>
    requires next { IsNext S.limits S.lines line.now pass }
    requires serves { (later : List ScriptLine) × Serves links.old (line.now ∷ later) }
    ensures does { IfOk result (Does line.now pass) }
    ensures saw { IfOk result (SawRun S.limits S.lines) }
    ensures serves { (later : List ScriptLine) → Serves links.old (line.now ∷ later)
        → OnOk result (Serves links.new later) }
    ensures halt { IfErr result (IsHaltOf S.limits S.ahead S.lines) }
{
    let Drive { rt, shared, .. } = *drive;
    match line.act {
        Act::One(call) => match call.op {
            Op::Acquire(lock) => {
                let mut tries = Tries::of(drive.patience);
                let (pass, answer) = shared.acquire_within(rt, pass, lock, call.site, &mut tries);
                if is_held(&answer) {
                    return Err(Halt::stuck::<S>(line, &tries));
                }
                answered(line, (pass, answer))
            }
            Op::Fork(_) => {
                let sender = links.next_fork();
                match shared.fork(rt, pass, sender.to, call.site) {
                    (pass, Ok((child, _))) => {
                        sender.send(rt, child);
                        Ok(pass)
                    }
                    (_, Err(refusal)) => Err(Halt::Fault(DriveFault::refused(line, refusal))),
                }
            }
            Op::Join(_) => {
                let receiver = links.next_join();
                let child = await_end(drive, receiver, line)?;
                match shared.join(rt, pass, child, call.site) {
                    (pass, Ok(_)) => Ok(pass),
                    (_, Err((refusal, _))) => {
                        Err(Halt::Fault(DriveFault::refused(line, refusal)))
                    }
                }
            }
            op => answered(line, shared.perform(rt, pass, op, call.arg, call.site)),
        },
        Act::Swap { var, site, arg, .. } => answered(line, shared.swap(rt, pass, var, arg, site)),
    }
}

/// Makes the calls of the pass's thread, in the order of its lines.
pub(crate) fn run_lines<S: DriveName, G: Gate, R: Wait>(
    drive: &Drive<'_, S, G, R>,
    pass: Pass<S>,
    links: &mut Links<S>,
) -> Result<Pass<S>, Halt>
    requires first { IsFirst S.lines pass.thread pass }
    requires serves { Serves links.old (lines_by pass.thread S.lines) }
    ensures done { IfOk result (Done S.lines pass.thread) }
    ensures passed { IfOk result (λ _. PassedGate G.admitted G.told (lines_by pass.thread S.lines)) }
    ensures halt { IfErr result (IsHaltOf S.limits S.ahead S.lines) }
{
    let thread = pass.thread();
    let mut pass = pass;
    for line in drive.script.lines() {
        if !line.is_of(thread) {
            continue;
        }
        let line = line.get();
        enter(drive, &line)?;
        pass = make_call(drive, pass, &line, links)?;
        drive.gate.done(line.thread(), line.line);
    }
    Ok(pass)
}
