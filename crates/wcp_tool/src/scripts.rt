//! A run of the threads of a script.
ghost use Rattle.std.specs.Prelude.{◌≡◌, ◌≢◌, ◌⊎◌, ◌≤◌, Err, None, true, false, IfSome};
ghost use Rattle.std.specs.Io.KnownBytes.{Appends};
ghost use Rattle.rapid_text.specs.Faults.{fault_line};
ghost use Rattle.script_text.specs.declared.causes.ScriptFault.{ScriptFault};
ghost use Rattle.script_text.specs.Scripts.{script_of, IsScript};
ghost use Rattle.wcp_tool.specs.Endings.{HasEnded, is_write_fault, status_of};
ghost use Rattle.wcp_tool.specs.Running.{IsUnhindered, IsUnread, TruncatesFile, TruncatesScript};
ghost use Rattle.wcp_tool.specs.Running.{PerformsFile};
ghost use Rattle.wcp_tool.specs.Running.{PerformsRun, limits_with};
ghost use Rattle.trace_report.specs.Reports.{AreNamed};
ghost use Rattle.wcp_tool.specs.ScriptRuns.{BreaksText, Ran, RefusesText, ReportsLog, RunsText};
ghost use Rattle.wcp_tool.specs.ScriptRuns.{TellsFault, TellsRefusal, TellsRefused, TellsStop, TellsStopped};
ghost use Rattle.event_core.specs.declared.bounds.Roots.TheVariants.{OnlyMain};

use crate::bounds::{TURNS, limits_of};
use crate::endings::{Ending, finish, summary_ending};
use crate::script_files::ScriptFiles;
use closed_report::{ReportFault, report_closed};
use command_line::Settings;
use event_core::{Limits, Roots};
use live_monitor::Closed;
use rapid_text::{Input, Names, Output, write_fault};
use script_drive::{DriveFault, FreeGate, drive};
use script_text::{Script, ScriptCause, ScriptFault};
use std::sync::Wait;
use std::thread::Threads;
use trace_report::refusal_word;

/// Writes `line N: WORD`, and ends so.
fn tell<O: Output>(writer: &mut O, line: u64, word: &str, ending: Ending) -> Ending
    requires writes { O.failed writer.old ≡ false }
    requires ending { (ending ≡ Ending.BrokenScript) ⊎ (ending ≡ Ending.Refused) }
    ensures ends { (result ≡ ending) ⊎ (result ≡ Ending.WriteFault) }
    ensures told { result ≢ Ending.WriteFault
        → Appends (O.written writer.old) (O.written writer.new) (fault_line line word.now) }
    ensures fails { O.failed writer.new ≡ is_write_fault result }
{
    match write_fault(writer, line, word) {
        Ok(()) => ending,
        Err(_) => Ending::WriteFault,
    }
}

/// Says why a script was not read.
fn explain_script<O: Output>(writer: &mut O, fault: &ScriptFault) -> Ending
    requires writes { O.failed writer.old ≡ false }
    ensures tells { TellsFault fault.now (O.written writer.old) (O.written writer.new) (status_of result) }
    ensures hindered { (fault.now.cause ≡ ScriptCause.Read) ⊎ (fault.now.cause ≡ ScriptCause.OutOfMemory)
        → (status_of result ≡ 4) ⊎ (status_of result ≡ 5) }
    ensures truncated { result ≡ Ending.ReadFault → fault.now.cause ≡ ScriptCause.Read }
    ensures ends { HasEnded (writer.new ≡ writer.old) (O.failed writer.new) result }
{
    match fault.cause {
        ScriptCause::Read => Ending::ReadFault,
        ScriptCause::OutOfMemory => Ending::OutOfMemory,
        cause => tell(writer, fault.line, cause.word(), Ending::BrokenScript),
    }
}

/// Says why a script was not run to its end.
fn explain_drive<O: Output>(writer: &mut O, fault: &DriveFault) -> Ending
    requires writes { O.failed writer.old ≡ false }
    ensures refused { status_of result ≡ 3 → TellsRefused fault.now (O.written writer.old)
        (O.written writer.new) }
    ensures broken { status_of result ≡ 6 → TellsStopped fault.now (O.written writer.old)
        (O.written writer.new) }
    ensures ran { (status_of result ≢ 0) × (status_of result ≢ 1) }
    ensures whole { result ≢ Ending.ReadFault }
    ensures ends { HasEnded (writer.new ≡ writer.old) (O.failed writer.new) result }
{
    match fault {
        DriveFault::Stuck { line, .. } => tell(writer, *line, "Stuck", Ending::BrokenScript),
        DriveFault::NoWorker { line } => tell(writer, *line, "NoWorker", Ending::BrokenScript),
        DriveFault::Refused { line, refusal, .. } => {
            tell(writer, *line, refusal_word(*refusal), Ending::Refused)
        }
        DriveFault::OutOfMemory => Ending::OutOfMemory,
    }
}

/// Reports what the threads did.
fn tell_report<O: Output>(writer: &mut O, closed: &Closed, names: &Names) -> Ending
    requires writes { O.failed writer.old ≡ false }
    ensures reports { (status_of result ≡ 0) ⊎ (status_of result ≡ 1) → ReportsLog names.now closed.now.log
        (O.written writer.old) (O.written writer.new) (status_of result) }
    ensures refused { status_of result ≢ 3 }
    ensures broken { status_of result ≡ 6 → AreNamed names.now closed.now.log → ⊥ }
    ensures whole { result ≢ Ending.ReadFault }
    ensures ends { HasEnded (writer.new ≡ writer.old) (O.failed writer.new) result }
{
    match report_closed(writer, closed, names) {
        Ok(summary) => summary_ending(summary),
        // The threads made the calls of the script's lines, whose numbers all have names: it does not occur.
        Err(ReportFault::Unnamed { .. }) => Ending::BrokenScript,
        Err(ReportFault::Write) => Ending::WriteFault,
    }
}

/// Runs the threads of the script, and reports what they did.
fn run_threads<R: AllocGlobal + Threads + Wait + Sync, O: Output>(
    rt: &R,
    script: &Script,
    limits: Limits,
    patience: u32,
    writer: &mut O,
) -> Ending
    requires only_main { limits.roots ≡ OnlyMain }
    requires patience { 1 ≤ patience }
    requires script { IsScript script.now }
    requires writes { O.failed writer.old ≡ false }
    ensures ran { (status_of result ≡ 0) ⊎ (status_of result ≡ 1) → Ran limits script.now
        (O.written writer.old) (O.written writer.new) (status_of result) }
    ensures refused { status_of result ≡ 3 → TellsRefusal limits script.now.lines
        (O.written writer.old) (O.written writer.new) }
    ensures broken { status_of result ≡ 6 → TellsStop limits script.now.lines (O.written writer.old)
        (O.written writer.new) }
    ensures whole { result ≢ Ending.ReadFault }
    ensures ends { HasEnded (writer.new ≡ writer.old) (O.failed writer.new) result }
{
    match drive(rt, rt.alloc(), script, limits, &FreeGate, patience) {
        Ok(closed) => {
            let ending = tell_report(writer, &closed, script.names());
            drop(closed);
            ending
        }
        Err(fault) => explain_drive(writer, &fault),
    }
}

/// Runs the script that the reader gives, and reports what its threads did.
fn run_text<R: AllocGlobal + Threads + Wait + Sync, I: Input, O: Output>(
    rt: &R,
    script: &mut I,
    writer: &mut O,
    threads: u32,
    patience: u32,
) -> Ending
    requires threads { (1 ≤ threads) × (threads ≤ 1024) }
    requires patience { 1 ≤ patience }
    requires reads { I.failed script.old ≡ false }
    requires writes { O.failed writer.old ≡ false }
    ensures performs { PerformsRun (limits_with threads OnlyMain) (I.left script.old) (O.written writer.old)
        (O.written writer.new) (status_of result) }
    ensures fault { IfSome (I.left script.old) (λ text. (f : ScriptFault)
        → script_of (limits_with threads OnlyMain) text ≡ Err f
        → TellsFault f (O.written writer.old) (O.written writer.new) (status_of result)) }
    ensures truncated { result ≡ Ending.ReadFault
        → TruncatesScript (limits_with threads OnlyMain) (I.left script.old) (I.left script.new)
        (IsUnread (I.failed script.new) (I.pulls script.old) (I.pulls script.new)) }
    ensures read { (result ≡ Ending.Done) ⊎ (result ≡ Ending.Races) → I.failed script.new ≡ false }
    ensures ends { HasEnded (writer.new ≡ writer.old) (O.failed writer.new) result }
{
    let limits = limits_of(threads, Roots::OnlyMain);
    match Script::read(rt.alloc(), script, limits, TURNS) {
        Ok(script) => {
            let ending = run_threads(rt, &script, limits, patience, writer);
            drop(script);
            ending
        }
        Err(fault) => explain_script(writer, &fault),
    }
}

/// The command `run` over a reader of the script: its threads are run, each line is tried as often as the
/// patience of the settings says, and what the threads did is reported. The answer is the exit status. Of
/// patience the clauses say that no line is stuck but one that has to wait for another thread.
///
/// What the threads did depends on the schedule, and so does the status: of the log it is said only that it
/// is well formed, that it is one that the script's threads can have made, and which events the first thread
/// has, each thread that no line joins, and each thread that is joined from one of these.
pub fn run_script<R: AllocGlobal + Threads + Wait + Sync, I: Input, O: Output, E: Output>(
    rt: &R,
    script: &mut I,
    writer: &mut O,
    errors: &mut E,
    settings: &Settings,
) -> u8
    requires threads { (1 ≤ settings.now.threads) × (settings.now.threads ≤ 1024) }
    requires patience { (1 ≤ settings.now.patience) × (settings.now.patience ≤ 4294967295) }
    requires reads { I.failed script.old ≡ false }
    requires writes { O.failed writer.old ≡ false }
    // With status 0 or 1 it wrote the report of a well-formed log, and nothing else. The log is of the script
    // that the reader had left: the report has the script's names, and the log has of each thread the first
    // of its lines in order, and all of them of the first thread, of each that no line joins, and of each
    // that is joined from one of these.
    ensures ran { (result ≡ 0) ⊎ (result ≡ 1) → RunsText (limits_with settings.now.threads OnlyMain)
        (I.left script.old) (O.written writer.old) (O.written writer.new) result }
    // With status 3 it wrote the one line that says which call of that script is refused, and why. The
    // definition refuses this call so after some log that the script's threads can have made, and in which
    // its thread has made just the calls before.
    ensures refused { result ≡ 3 → RefusesText (limits_with settings.now.threads OnlyMain)
        (I.left script.old) (O.written writer.old) (O.written writer.new) }
    // With status 6 it wrote the one line that says why the text is no script, or which of its lines is
    // stuck or can start no worker. A stuck line joins a thread, or acquires a lock that another thread
    // holds, after some log that the script's threads can have made, and in which its thread has made just
    // the calls before.
    ensures broken { result ≡ 6 → BreaksText (limits_with settings.now.threads OnlyMain)
        (I.left script.old) (O.written writer.old) (O.written writer.new) }
    // It reports the first fault of the script's lines, unless memory ran out or a device failed.
    ensures fault { IfSome (I.left script.old) (λ text. (f : ScriptFault)
        → script_of (limits_with settings.now.threads OnlyMain) text ≡ Err f
        → TellsFault f (O.written writer.old) (O.written writer.new) result) }
    ensures range { result ≤ 6 }
    // The settings are given, so that no word can be wrong.
    ensures usage { result ≢ 2 }
    // Nothing is written to standard output where memory ran out.
    ensures quiet { result ≡ 5 → writer.new ≡ writer.old }
    // Status 4 says that the writer failed or took no byte; or else that the script was not read to its end,
    // since a read failed or 2^44 pulls were made, and then nothing is written. No line that came whole has a
    // cause then, and at most 1,025 bytes came of the line whose end was not seen.
    ensures devices { result ≡ 4 → (O.failed writer.new ≡ true)
        ⊎ ((writer.new ≡ writer.old) × TruncatesScript (limits_with settings.now.threads OnlyMain)
        (I.left script.old) (I.left script.new)
        (IsUnread (I.failed script.new) (I.pulls script.old) (I.pulls script.new))) }
    // It ends with 0 or 1 only where no read failed.
    ensures read { (result ≡ 0) ⊎ (result ≡ 1) → I.failed script.new ≡ false }
    ensures written { result ≢ 4 → O.failed writer.new ≡ false }
{
    let ending = run_text(rt, script, writer, settings.threads, settings.patience);
    finish(ending, errors)
}

/// The command `run` over the path of the script, which is opened and then run.
pub(crate) fn run_file<R: AllocGlobal + ScriptFiles + Threads + Wait + Sync, O: Output, E: Output>(
    rt: &R,
    path: &str,
    writer: &mut O,
    errors: &mut E,
    settings: &Settings,
) -> u8
    requires threads { (1 ≤ settings.now.threads) × (settings.now.threads ≤ 1024) }
    requires patience { (1 ≤ settings.now.patience) × (settings.now.patience ≤ 4294967295) }
    requires writes { O.failed writer.old ≡ false }
    ensures performs { IsUnhindered result → PerformsFile (R.open_gives rt.now path.now) R.Script.left
        (limits_with settings.now.threads OnlyMain) (O.written writer.old) (O.written writer.new) result }
    ensures range { result ≤ 6 }
    ensures usage { result ≢ 2 }
    ensures quiet { result ≡ 5 → writer.new ≡ writer.old }
    ensures devices { result ≡ 4 → (O.failed writer.new ≡ true)
        ⊎ ((writer.new ≡ writer.old) × (R.open_gives rt.now path.now None
        ⊎ TruncatesFile (R.open_gives rt.now path.now) R.Script.left R.Script.failed R.Script.pulls
        (limits_with settings.now.threads OnlyMain))) }
    ensures written { result ≢ 4 → O.failed writer.new ≡ false }
{
    let Some(mut script) = rt.open_script(path) else {
        return finish(Ending::ReadFault, errors);
    };
    let status = run_script(rt, &mut script, writer, errors, settings);
    drop(script);
    status
}
