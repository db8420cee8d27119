//! The program over its words, a reader, and writers for standard output and standard error.
ghost use Rattle.std.specs.Prelude.{◌≡◌, ◌≢◌, ◌⊎◌, ℕ, List, ◌≤◌, Option, IfErr, IfSome, true, false, length};
ghost use Rattle.std.specs.Prelude.{map};
ghost use Rattle.command_line.specs.Requests.{Text, request_of};
ghost use Rattle.wcp_tool.specs.Endings.{is_write_fault};
ghost use Rattle.wcp_tool.specs.Running.{Checks, Replays, Witnesses, Performs, IsTruncated, IsHindered, Runs};
ghost use Rattle.wcp_tool.specs.Running.{
  EndsAs,
  IsUnhindered,
  IsUnread,
  LeavesInput,
  names_event,
  reads_trace,
};

use crate::bounds::{TURNS, limits_of};
use crate::endings::{Ending, ending_of_check, ending_of_replay, ending_of_witness, finish};
use crate::script_files::ScriptFiles;
use crate::scripts::run_file;
use command_line::{Command, Settings, UsageFault, settings};
use event_core::Roots;
use rapid_text::{Input, Output, write_all};
use std::convert::AsStr;
use std::env;
use std::env::Env;
use std::io::ErrorKind;
use std::sync::Wait;
use std::thread::Threads;
use trace_report::{check, replay};
use witness_report::show_trace;

/// Does what the settings ask for.
#[tactic(auto, using(crate::proofs::TraceReads::trace_cut))]
fn run<R: AllocGlobal + ScriptFiles + Threads + Wait + Sync, I: Input, O: Output, E: Output>(
    rt: &R,
    settings: &Settings,
    reader: &mut I,
    writer: &mut O,
    errors: &mut E,
) -> u8
    requires threads { (1 ≤ settings.now.threads) × (settings.now.threads ≤ 1024) }
    requires patience { (1 ≤ settings.now.patience) × (settings.now.patience ≤ 4294967295) }
    requires reads { I.failed reader.old ≡ false }
    requires writes { O.failed writer.old ≡ false }
    ensures performs { IsUnhindered result → Performs (R.open_gives rt.now) R.Script.left
        (request_of settings.now.command) settings.now.threads
        (I.left reader.old) (O.written writer.old) (O.written writer.new) result }
    ensures range { result ≤ 6 }
    ensures usage { result ≡ 2 → names_event (request_of settings.now.command) ≡ true }
    ensures quiet { (result ≡ 2) ⊎ (result ≡ 5) → writer.new ≡ writer.old }
    ensures devices { result ≡ 4 → (O.failed writer.new ≡ true)
        ⊎ ((writer.new ≡ writer.old) × IsTruncated (R.open_gives rt.now) R.Script.left R.Script.failed
        R.Script.pulls (request_of settings.now.command) settings.now.threads (I.left reader.old)
        (I.left reader.new) (IsUnread (I.failed reader.new) (I.pulls reader.old) (I.pulls reader.new))) }
    ensures written { result ≢ 4 → O.failed writer.new ≡ false }
    ensures untouched { reads_trace (request_of settings.now.command) ≡ false → reader.new ≡ reader.old }
    ensures read { (result ≡ 0) ⊎ (result ≡ 1) → I.failed reader.new ≡ false }
{
    match &settings.command {
        Command::Check => {
            let limits = limits_of(settings.threads, Roots::Free);
            let ending = ending_of_check(check(rt.alloc(), reader, writer, limits, TURNS));
            finish(ending, errors)
        }
        Command::Replay => {
            let limits = limits_of(settings.threads, Roots::Free);
            let ending = ending_of_replay(replay(rt.alloc(), reader, writer, limits, TURNS));
            finish(ending, errors)
        }
        Command::Witness(event) => {
            let limits = limits_of(settings.threads, Roots::Free);
            let shown = show_trace(rt.alloc(), reader, writer, limits, TURNS, *event);
            let ending = ending_of_witness(shown, errors);
            finish(ending, errors)
        }
        Command::Run(path) => run_file(rt, path.as_str(), writer, errors, settings),
    }
}

/// Answers words that ask for no run: with help on standard output, or with what is wrong on standard error.
fn explain<O: Output, E: Output>(fault: UsageFault, writer: &mut O, errors: &mut E) -> Ending
    requires { O.failed writer.old ≡ false }
    ensures ends { EndsAs fault result }
    ensures quiet { (result ≡ Ending.WrongUsage) ⊎ (result ≡ Ending.OutOfMemory) → writer.new ≡ writer.old }
    ensures fails { O.failed writer.new ≡ is_write_fault result }
{
    match fault {
        UsageFault::Help(text) => {
            let written = write_all(writer, text.as_str().as_bytes());
            drop(text);
            match written {
                Ok(()) => Ending::Done,
                Err(_) => Ending::WriteFault,
            }
        }
        UsageFault::Usage(text) => {
            let _ = write_all(errors, text.as_str().as_bytes());
            drop(text);
            Ending::WrongUsage
        }
        UsageFault::OutOfMemory => Ending::OutOfMemory,
    }
}

/// The program over the words after its own name. Its answer is the exit status: 0 done, 1 races, 2 the
/// words are wrong or name an event without a race, 3 a line or a call is refused, 4 a read or a write
/// failed, 5 out of memory, 6 the script is broken or stuck.
///
/// No contract says what the texts of help, the version and a usage fault are.
pub fn tool<
    R: AllocGlobal + ScriptFiles + Threads + Wait + Sync,
    S: AsStr,
    I: Input,
    O: Output,
    E: Output,
>(rt: &R, words: &[S], reader: &mut I, writer: &mut O, errors: &mut E) -> u8
    requires reads { I.failed reader.old ≡ false }
    requires writes { O.failed writer.old ≡ false }
    // It performs what the words ask for on the whole text that the reader has left, or that the file of a
    // script has, which was opened at the path that the words name; or it answers the words.
    ensures runs { Runs (R.open_gives rt.now) R.Script.left (map S.text words.now) (I.left reader.old)
        (O.written writer.old) (O.written writer.new) result }
    ensures range { result ≤ 6 }
    // The reader is left alone where the words have a fault, or ask for a run of a script.
    ensures untouched { LeavesInput (map S.text words.now) → reader.new ≡ reader.old }
    // Nothing is written to standard output where the words are wrong, where the event that they name does
    // not race, or where memory ran out.
    ensures quiet { (result ≡ 2) ⊎ (result ≡ 5) → writer.new ≡ writer.old }
    // It ends with 4 only where the writer failed or took no byte, or what the words ask for was not read to
    // its end: a read failed, or 2^44 pulls were made; and no line that came whole has a fault. Or the file
    // of the script could not be opened.
    ensures hindered { result ≡ 4 → IsHindered (R.open_gives rt.now) R.Script.left R.Script.failed
        R.Script.pulls (map S.text words.now) (I.left reader.old) (I.left reader.new)
        (IsUnread (I.failed reader.new) (I.pulls reader.old) (I.pulls reader.new)) (O.failed writer.new) }
    // Where the writer did not fail, nothing is written then.
    ensures devices { result ≡ 4 → (O.failed writer.new ≡ true) ⊎ (writer.new ≡ writer.old) }
    // It ends with 0 or 1 only where no read failed.
    ensures read { (result ≡ 0) ⊎ (result ≡ 1) → I.failed reader.new ≡ false }
    // With any status but 4 all was written that there was to write.
    ensures written { result ≢ 4 → O.failed writer.new ≡ false }
{
    match settings(rt.alloc(), words) {
        Ok(settings) => {
            let status = run(rt, &settings, reader, writer, errors);
            drop(settings);
            status
        }
        Err(fault) => {
            let ending = explain(fault, writer, errors);
            finish(ending, errors)
        }
    }
}

/// The words that the process was started with, without the program's own name. Where they cannot be had, one
/// is no text, which standard error says, or memory ran out.
fn words<R: Env + AllocGlobal, E: Output>(rt: &R, errors: &mut E) -> Result<Vec<String>, Ending>
    ensures { IfErr result (λ e. (e ≡ Ending.WrongUsage) ⊎ (e ≡ Ending.OutOfMemory)) }
{
    let mut all = match env::args(rt) {
        Ok(all) => all,
        Err(error) if error.kind() == ErrorKind::InvalidData => {
            let _ = write_all(errors, b"error: an argument is not UTF-8 text\n");
            return Err(Ending::WrongUsage);
        }
        Err(_) => return Err(Ending::OutOfMemory),
    };
    drop(all.next());
    match all.collect(rt.alloc()) {
        Ok(words) => Ok(words),
        Err(_) => Err(Ending::OutOfMemory),
    }
}

/// The program over the words that the process was started with. No contract says which these are, so the
/// contract of `tool` holds for some words, and which command they ask for stays open. Words that ask for
/// help allow any text with status 0, where nothing is read. Status 2 or 5 without a text is always allowed.
pub fn program<
    R: Env + AllocGlobal + ScriptFiles + Threads + Wait + Sync,
    I: Input,
    O: Output,
    E: Output,
>(rt: &R, reader: &mut I, writer: &mut O, errors: &mut E) -> u8
    requires reads { I.failed reader.old ≡ false }
    requires writes { O.failed writer.old ≡ false }
    // It is a run for some words, or the words could not be had: they are no text, or memory ran out.
    ensures runs { ((words : List Text)
        × Runs (R.open_gives rt.now) R.Script.left words (I.left reader.old) (O.written writer.old)
        (O.written writer.new) result
        × (LeavesInput words → reader.new ≡ reader.old)
        × (result ≡ 4 → IsHindered (R.open_gives rt.now) R.Script.left R.Script.failed R.Script.pulls words
        (I.left reader.old) (I.left reader.new)
        (IsUnread (I.failed reader.new) (I.pulls reader.old) (I.pulls reader.new)) (O.failed writer.new)))
        ⊎ ((result ≡ 2) ⊎ (result ≡ 5)) }
    ensures range { result ≤ 6 }
    // Nothing is written to standard output where the words are wrong or memory ran out.
    ensures quiet { (result ≡ 2) ⊎ (result ≡ 5) → writer.new ≡ writer.old }
    // With status 4 the writer failed or took no byte, or nothing is written.
    ensures devices { result ≡ 4 → (O.failed writer.new ≡ true) ⊎ (writer.new ≡ writer.old) }
    // It ends with 0 or 1 only where no read failed.
    ensures read { (result ≡ 0) ⊎ (result ≡ 1) → I.failed reader.new ≡ false }
    // With any status but 4 all was written that there was to write.
    ensures written { result ≢ 4 → O.failed writer.new ≡ false }
{
    match words(rt, errors) {
        Ok(words) => {
            let status = tool(rt, words.as_slice(), reader, writer, errors);
            drop(words);
            status
        }
        Err(ending) => finish(ending, errors),
    }
}
