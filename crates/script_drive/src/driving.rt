//! One worker for each thread of a script.
ghost use Rattle.std.specs.Prelude.{◌≡◌, ◌∷◌, ◌++◌, [], All, IfErr, IfOk, IsOk, OnOk, map};
ghost use Rattle.std.specs.List.{filter_map};
ghost use mathlib.Core.List.{IsPrefix};
ghost use Rattle.event_core.specs.declared.bounds.Roots.TheVariants.{OnlyMain};
ghost use Rattle.event_core.specs.declared.ids.ThreadId.{ThreadId};
ghost use Rattle.event_core.specs.Refusal.{WellFormed};
ghost use Rattle.event_core.specs.Steps.{own_events};
ghost use Rattle.log_pass.specs.Passes.{main, new_pass, seeing};
ghost use Rattle.script_drive.specs.Ends.{end_fault, EndMet, HasEnded, IsThrough, PassedGate};
ghost use Rattle.script_drive.specs.Faults.{goes_ahead, IsAnswered, IsFaultOf, IsHaltOf};
ghost use Rattle.script_drive.specs.Lines.{lines_by, AllMadeFrom, Follows, IsJoinedFrom, IsUnjoined};
ghost use Rattle.script_drive.specs.Runs.{IsRunOf};
ghost use Rattle.script_drive.specs.Workers.{Done, Serves};

use crate::drive_names::{DriveName, RunsScript};
use crate::faults::{DriveFault, Halt, first_fault};
use crate::gate::Gate;
use crate::lines::{Drive, run_lines};
use crate::links::Links;
use crate::workers::{OwnLinks, Worker, all_workers};
use event_core::{Limits, ThreadId};
use live_monitor::{Closed, Shared, Unnamed, start_under};
use log_pass::Pass;
use script_text::Script;
use std::alloc::{AllocError, Global};
use std::marker::{Brand, PhantomData};
use std::sync::Wait;
use std::thread;
use std::thread::{Promise, PromisedHandle, Scope, Threads, join_promised};

// How a worker ends: with its last pass, or without one where it sent that to the worker that joins it; or by
// a halt.
type WorkerEnd<S> = Result<Option<Pass<S>>, Halt>;

// What a worker of the thread promises of its end: all its lines are done, or this is why it ended before.
#[derive(Drop)]
struct EndOf<S: DriveName, G: Gate> {
    thread: ThreadId,
    of: PhantomData<(S, G)>,
}

impl<S: DriveName, G: Gate> Promise<WorkerEnd<S>> for EndOf<S, G> {
    ghost use Rattle.script_drive.specs.Ends.{HasEnded};

    ghost kept_by = { λ of end.
        HasEnded S.limits S.ahead S.lines G.admitted G.told of.thread end };
}

// Waits for the thread's pass, makes the calls of its lines, and sends the pass to who joins the thread. A
// worker that ends before its lines do lets its ends go, which tells those that wait for it.
#[tactic(auto, using(crate::proofs::HasDoneProperties::own_first))]
fn work<S: DriveName, G: Gate, R: Wait>(
    drive: &Drive<'_, S, G, R>,
    worker: Worker<S>,
) -> WorkerEnd<S>
    ensures { HasEnded S.limits S.ahead S.lines G.admitted G.told worker.own.thread result }
{
    let Worker {
        own: OwnLinks {
            thread: _,
            mut links,
        },
        start,
        end,
    } = worker;
    let Some(pass) = start.receiver.receive(drive.rt) else {
        return Err(Halt::NotForked(start.line.number));
    };
    let last = run_lines(drive, pass, &mut links)?;
    match end {
        Some(end) => {
            end.sender.send(drive.rt, last);
            Ok(None)
        }
        None => Ok(Some(last)),
    }
}

// Starts the workers, if all can be started.
fn start_workers<'s, 'e, S: DriveName + Send + Sync, G: Gate + Sync, R: Threads + Wait + Sync>(
    scope: &'s Scope<'s, &'e ()>,
    drive: &'s Drive<'s, S, G, R>,
    alloc: Global,
    workers: Vec<Worker<S>>,
) -> Result<Vec<PromisedHandle<WorkerEnd<S>, EndOf<S, G>>>, DriveFault>
    ensures all { IfOk result (λ started. map (λ handle. handle.promise.thread) started.items
        ≡ map (λ worker. worker.own.thread) workers.items) }
    ensures fault { IfErr result (IsFaultOf S.limits S.ahead S.lines) }
{
    let mut started = Vec::new(alloc);
    for worker in workers {
        let line = worker.start.line.number;
        let promise = EndOf {
            thread: worker.own.thread,
            of: PhantomData,
        };
        let Ok(handle) = scope.spawn_with(promise, move || work(drive, worker)) else {
            return Err(DriveFault::NoWorker { line });
        };
        if started.push(handle).is_err() {
            return Err(DriveFault::OutOfMemory);
        }
    }
    Ok(started)
}

// Adds the worker's own fault, if it ended by one.
fn add_fault<S: DriveName>(
    faults: &mut Vec<DriveFault>,
    end: &WorkerEnd<S>,
) -> Result<(), AllocError>
    ensures { OnOk result
        (faults.new.items ≡ faults.old.items ++ filter_map end_fault (end.now ∷ [])) }
{
    if let Err(halt) = end {
        if let Some(fault) = halt.fault() {
            faults.push(fault)?;
        }
    }
    Ok(())
}

// The workers' own faults.
fn own_faults<S: DriveName>(
    alloc: Global,
    ends: &[WorkerEnd<S>],
) -> Result<Vec<DriveFault>, AllocError>
    ensures { IfOk result (λ faults. faults.items ≡ filter_map end_fault ends.now) }
{
    let mut faults = Vec::new(alloc);
    for end in ends {
        add_fault(&mut faults, end)?;
    }
    Ok(faults)
}

// Thread 0's last pass, or the fault that is answered, where the other workers have these faults.
#[tactic(auto, using(crate::proofs::ScriptFaults::answered_by))]
fn outcome<S: DriveName>(
    main: Result<Pass<S>, Halt>,
    faults: &[DriveFault],
) -> Result<Pass<S>, DriveFault>
    requires halt { IfErr main (IsHaltOf S.limits S.ahead S.lines) }
    requires faults { All (IsFaultOf S.limits S.ahead S.lines) faults.now }
    ensures last { IfOk result (λ last. main ≡ Ok last) }
    ensures none { OnOk result (faults.now ≡ []) }
    ensures first { IfErr result (IsAnswered main faults.now) }
    ensures fault { IfErr result (IsFaultOf S.limits S.ahead S.lines) }
{
    match (main, first_fault(faults)) {
        (Ok(last), None) => Ok(last),
        (Ok(_), Some(fault)) => Err(fault),
        (Err(halt), first) => Err(halt.answer(first)),
    }
}

// Thread 0's pass once it has met the last passes of the other workers. Where none of them has a fault of its
// own, none ended by a halt, so no fault is answered here. No clause tells so.
fn meet_all<S: DriveName>(
    shared: &Shared<S, RunsScript<S>>,
    pass: Pass<S>,
    ends: Vec<WorkerEnd<S>>,
) -> Result<Pass<S>, DriveFault>
    requires halts { All (λ end. IfErr end (IsHaltOf S.limits S.ahead S.lines)) ends.items }
    ensures same { IfOk result (λ last. last ≡ seeing last.seen pass) }
    ensures begins { IfOk result (λ last. IsPrefix pass.seen last.seen) }
    ensures met { IfOk result (λ last. All (EndMet last) ends.items) }
    ensures fault { IfErr result (IsFaultOf S.limits S.ahead S.lines) }
{
    let mut pass = pass;
    for end in ends {
        match end {
            Ok(Some(last)) => (pass, _) = shared.meet(pass, last),
            Ok(None) => {}
            Err(halt) => return Err(halt.answer(None)),
        }
    }
    Ok(pass)
}

// Thread 0's last pass, which has met those of the other workers, or the fault that is answered.
#[tactic(auto, using(crate::proofs::Ends::finished))]
fn finish<S: DriveName>(
    shared: &Shared<S, RunsScript<S>>,
    alloc: Global,
    main_end: Result<Pass<S>, Halt>,
    ends: Vec<WorkerEnd<S>>,
) -> Result<Pass<S>, DriveFault>
    requires done { IfOk main_end (Done S.lines main) }
    requires halt { IfErr main_end (IsHaltOf S.limits S.ahead S.lines) }
    requires halts { All (λ end. IfErr end (IsHaltOf S.limits S.ahead S.lines)) ends.items }
    ensures done { IfOk result (Done S.lines main) }
    ensures ok { OnOk result (IsOk main_end) }
    ensures met { IfOk result (λ last. All (EndMet last) ends.items) }
    ensures fault { IfErr result (IsFaultOf S.limits S.ahead S.lines) }
{
    let Ok(faults) = own_faults::<S>(alloc, ends.as_slice()) else {
        return Err(DriveFault::OutOfMemory);
    };
    let last = outcome::<S>(main_end, faults.as_slice())?;
    meet_all(shared, last, ends)
}

// Each thread makes the calls of its lines, in a worker of its own. The pass and the links are thread 0's.
#[tactic(auto, using(crate::proofs::HasDoneProperties::main_first))]
fn run_all<S: DriveName + Send + Sync, G: Gate + Sync, R: Threads + Wait + Sync>(
    drive: &Drive<'_, S, G, R>,
    alloc: Global,
    pass: Pass<S>,
    links: Links<S>,
    workers: Vec<Worker<S>>,
) -> Result<Pass<S>, DriveFault>
    requires pass { pass ≡ new_pass main [] }
    requires serves { Serves links (lines_by main S.lines) }
    ensures done { IfOk result (Done S.lines main) }
    ensures passed { IfOk result (λ _. PassedGate G.admitted G.told (lines_by main S.lines)) }
    ensures through { IfOk result (λ last. All (IsThrough S.lines G.admitted G.told last)
        (map (λ worker. worker.own.thread) workers.items)) }
    ensures fault { IfErr result (IsFaultOf S.limits S.ahead S.lines) }
{
    thread::scope(
        thread::scope_env(),
        drive.rt,
        move |scope| -> Result<Pass<S>, DriveFault>
            requires pass { pass ≡ new_pass main [] }
            requires serves { Serves links (lines_by main S.lines) }
            ensures done { IfOk result (Done S.lines main) }
            ensures passed { IfOk result
                (λ _. PassedGate G.admitted G.told (lines_by main S.lines)) }
            ensures through { IfOk result (λ last. All (IsThrough S.lines G.admitted G.told last)
                (map (λ worker. worker.own.thread) workers.items)) }
            ensures fault { IfErr result (IsFaultOf S.limits S.ahead S.lines) }
        {
            let started = start_workers(scope, drive, alloc, workers)?;
            let mut links = links;
            let main_end = run_lines(drive, pass, &mut links);
            drop(links);
            let Ok(ends) = join_promised(drive.rt, started) else {
                return Err(DriveFault::OutOfMemory);
            };
            finish(drive.shared, alloc, main_end, ends)
        },
    )
}

// Runs the script over a monitor that has a name.
#[tactic(auto, using(crate::proofs::IsRunOfProperties::nothing_ran))]
fn drive_in<S: DriveName + Send + Sync, G: Gate + Sync, R: Threads + Wait + Sync>(
    rt: &R,
    alloc: Global,
    script: &Script,
    unnamed: Unnamed,
    gate: &G,
    patience: u32,
) -> Result<Closed, DriveFault>
    requires table { unnamed.table ≡ S.table }
    requires limits { unnamed.limits ≡ S.limits }
    requires lines { script.now.lines ≡ S.lines }
    requires patience { patience ≡ S.patience }
    requires ahead { S.ahead ≡ goes_ahead G.free S.patience }
    ensures limits { IfOk result (λ closed. closed.limits ≡ S.limits) }
    ensures well_formed { IfOk result (λ closed. WellFormed S.limits closed.log) }
    ensures main { IfOk result
        (λ closed. Follows (own_events main closed.log) (lines_by main S.lines)) }
    ensures joined { IfOk result (λ closed. (u : ThreadId)
        → IsJoinedFrom S.lines main u
        → Follows (own_events u closed.log) (lines_by u S.lines)) }
    ensures unjoined { IfOk result (λ closed. (t : ThreadId)
        → IsUnjoined S.lines t
        → AllMadeFrom S.lines closed.log t) }
    ensures passed { IfOk result (λ _. PassedGate G.admitted G.told S.lines) }
    ensures run { IfOk result (λ closed. IsRunOf S.lines closed.log) }
    ensures fault { IfErr result (IsFaultOf S.limits S.ahead S.lines) }
{
    let (shared, pass) = start_under::<S, RunsScript<S>>(unnamed);
    let Ok((links, workers)) = all_workers::<S>(alloc, script) else {
        drop(pass);
        drop(shared);
        return Err(DriveFault::OutOfMemory);
    };
    let drive = Drive {
        rt,
        shared: &shared,
        script,
        gate,
        patience,
    };
    match run_all(&drive, alloc, pass, links, workers) {
        Ok(last) => Ok(shared.close(last)),
        Err(fault) => {
            drop(shared);
            Err(fault)
        }
    }
}

/// Runs the script, each of its threads by a worker of its own. A line is tried up to `patience` times: while
/// its gate does not admit it, and then anew while another thread holds the lock that it acquires, or the
/// thread that it joins has not ended.
///
/// The closed log is well formed, and its events of thread 0, and of each thread that is joined from it, are
/// that thread's lines in order. A thread is joined from thread 0 where thread 0 joins it, or joins a thread
/// from which it is joined. The same holds of each thread that no line joins, and of each thread that is
/// joined from it. The closed log is a run of the script: each thread's events are those of the first of its
/// lines, and of all of them once it is joined. The gate admitted each line of the script, and was told of
/// it.
///
/// The fault is one of a line of the script, or want of memory. A refusal is one that the line's call has
/// after some well-formed run of the script in which the line's thread has started, and has made just the
/// calls of its lines before. Where the gate is one that lets each line go ahead at once, and patience is not
/// 0, a line that is stuck joins a thread, or acquires a lock that another thread holds, after some such run.
///
/// No clause tells the rest: how often a line is tried, nor that the run ends. A worker tells its line as
/// stuck only where it counted `patience` tries. Where a worker cannot be started, no call is made. Where
/// workers end by faults, want of memory is answered first, and else the fault with the least line.
pub fn drive<G: Gate + Sync, R: Threads + Wait + Sync>(
    rt: &R,
    alloc: Global,
    script: &Script,
    limits: Limits,
    gate: &G,
    patience: u32,
) -> Result<Closed, DriveFault>
    requires only_main { limits.roots ≡ OnlyMain }
    ensures limits { IfOk result (λ closed. closed.limits ≡ limits) }
    ensures well_formed { IfOk result (λ closed. WellFormed limits closed.log) }
    ensures main { IfOk result
        (λ closed. Follows (own_events main closed.log) (lines_by main script.now.lines)) }
    ensures joined { IfOk result (λ closed. (u : ThreadId)
        → IsJoinedFrom script.now.lines main u
        → Follows (own_events u closed.log) (lines_by u script.now.lines)) }
    ensures unjoined { IfOk result (λ closed. (t : ThreadId)
        → IsUnjoined script.now.lines t
        → AllMadeFrom script.now.lines closed.log t) }
    ensures passed { IfOk result (λ _. PassedGate G.admitted G.told script.now.lines) }
    ensures run { IfOk result (λ closed. IsRunOf script.now.lines closed.log) }
    ensures fault { IfErr result (IsFaultOf limits (goes_ahead G.free patience) script.now.lines) }
{
    let Ok(unnamed) = Unnamed::new(alloc, limits) else {
        return Err(DriveFault::OutOfMemory);
    };
    drive_in::<Brand, G, R>(rt, alloc, script, unnamed, gate, patience)
}
