//! What the words of a command line ask for.
ghost use Rattle.std.specs.Prelude.{◌≡◌, ◌≤◌, [], Some, IfOk, IfErr, OnOk, true, map};
ghost use Rattle.clap.specs.Words.{found_of, has_subcommand, kind_of, rows_of, subcommand_rows_of};
ghost use Rattle.command_line.specs.Requests.{IsFaultAt, TellsKind, asked, asked_by, asked_in, faults_of};
ghost use Rattle.command_line.specs.Requests.{path_in};

use crate::commands::program;
use crate::options::{DEFAULT_PATIENCE, event_of, patience_of, threads_of};
use crate::requests::{Command, Settings, UsageFault};
use clap::ArgMatches;
use clap::error::ErrorKind;
use std::alloc::{AllocError, Global};
use std::convert::AsStr;

/// The name of the command that was met, and what its options were given.
fn command_met<'a, 'm>(matches: &'m ArgMatches<'a>) -> (&'a str, &'m ArgMatches<'a>)
    requires { has_subcommand matches.now ≡ true }
    ensures { subcommand_rows_of matches.now ≡ Some (result.0.now, rows_of (found_of result.1.now)) }
{
    matches.subcommand().unwrap()
}

/// The path of the script that was given.
fn file_of<'a>(matches: &ArgMatches<'a>) -> &'a str
    ensures { result.now ≡ path_in (rows_of (found_of matches.now)) }
{
    matches.get_str("FILE").unwrap_or("")
}

fn fault_of(alloc: Global, error: &clap::Error) -> UsageFault
    ensures { TellsKind (kind_of error.now) result }
{
    if error.kind() == ErrorKind::OutOfMemory {
        return UsageFault::OutOfMemory;
    }
    let Ok(text) = error.to_string(alloc) else {
        return UsageFault::OutOfMemory;
    };
    if error.use_stderr() {
        UsageFault::Usage(text)
    } else {
        UsageFault::Help(text)
    }
}

/// The settings of a command over a trace.
fn trace_settings(command: Command, threads: u32) -> Settings
    ensures { result ≡ record { command = command; threads = threads; patience = 1000000 } }
{
    Settings {
        command,
        threads,
        patience: DEFAULT_PATIENCE,
    }
}

/// The settings of a parse that met a command. Memory may run out.
fn settings_of(alloc: Global, matches: &ArgMatches<'_>) -> Result<Settings, AllocError>
    requires { has_subcommand matches.now ≡ true }
    ensures threads { IfOk result (λ s. (1 ≤ s.threads) × (s.threads ≤ 1024)) }
    ensures patience { IfOk result (λ s. (1 ≤ s.patience) × (s.patience ≤ 4294967295)) }
    ensures asked { IfOk result (λ s. asked_in (subcommand_rows_of matches.now) ≡ Some (asked_by s)) }
{
    let (name, given) = command_met(matches);
    let threads = threads_of(given);
    if name == "check" {
        return Ok(trace_settings(Command::Check, threads));
    }
    if name == "replay" {
        return Ok(trace_settings(Command::Replay, threads));
    }
    if name == "witness" {
        return Ok(trace_settings(Command::Witness(event_of(given)), threads));
    }
    let file = String::from_str(alloc, file_of(given))?;
    Ok(Settings {
        command: Command::Run(file),
        threads,
        patience: patience_of(given),
    })
}

/// What the words after the program's own name ask for: a command, and how many threads may be named, 64
/// where the words do not say. For a run they have the path of a script, and how often a line is tried before
/// its thread is stuck, 1,000,000 times where they do not say. Else the fault says why there are none: they
/// ask for help or for the version (`Help`), they are wrong (`Usage`), or memory ran out.
pub fn settings<'a, S: AsStr>(alloc: Global, words: &'a [S]) -> Result<Settings, UsageFault>
    ensures threads { IfOk result (λ s. (1 ≤ s.threads) × (s.threads ≤ 1024)) }
    ensures patience { IfOk result (λ s. (1 ≤ s.patience) × (s.patience ≤ 4294967295)) }
    // The settings are those that the words ask for.
    ensures asked { IfOk result (λ s. asked (map S.text words.now) ≡ Some (asked_by s)) }
    // They are answered only where the words have no fault.
    ensures taken { OnOk result (faults_of (map S.text words.now) ≡ []) }
    // A fault is one that the words have, or memory ran out.
    ensures fault { IfErr result (λ f. IsFaultAt (map S.text words.now) f) }
{
    let Ok(command) = program(alloc) else {
        return Err(UsageFault::OutOfMemory);
    };
    let matches = match command.try_get_matches_from(words) {
        Ok(matches) => matches,
        Err(error) => {
            let fault = fault_of(alloc, &error);
            drop(error);
            return Err(fault);
        }
    };
    let settings = settings_of(alloc, &matches);
    drop(matches);
    match settings {
        Ok(settings) => Ok(settings),
        Err(_) => Err(UsageFault::OutOfMemory),
    }
}
