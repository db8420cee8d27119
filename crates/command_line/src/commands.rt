//! The command lines that the program takes, as clap's contracts see them.
ghost use Rattle.std.specs.Prelude.{◌≡◌, IfOk, false};
ghost use Rattle.clap.specs.Words.{app_of, new_app, rule_of, shape_of, with_subcommand};
ghost use Rattle.clap.specs.declared.builder.command.Command.TheViews.{out-Command};
ghost use Rattle.command_line.specs.Commands.{bare, file_argument as file_rule, run_command as run_shape};
ghost use Rattle.command_line.specs.Commands.{trace_command, wcp, witness_command as witness_shape};

use crate::help_texts::{CHECK_TEXTS, PROGRAM_TEXTS, REPLAY_TEXTS, RUN_TEXTS, WITNESS_TEXTS};
use crate::options::{event_argument, patience_option, threads_option};
use clap::{Arg, ArgAction};
use std::alloc::{AllocError, Global};

/// A command before its arguments are added, with what help says of it.
fn bare_command<'a>(
    alloc: Global,
    name: &'a str,
    about: &'a str,
    usage: &'a str,
    texts: &'a str,
) -> clap::Command<'a>
    ensures local { (out-Command result).has_globals ≡ false }
    ensures app { app_of result ≡ new_app name.entry.now }
{
    clap::Command::new(alloc, name)
        .about(about)
        .override_usage(usage)
        .after_help(texts)
}

/// The path of a script.
fn file_argument<'a>(alloc: Global) -> Arg<'a>
    ensures local { result.global ≡ false }
    ensures rule { rule_of result ≡ file_rule }
{
    Arg::new(alloc, "FILE")
        .required(true)
        .action(ArgAction::Set)
        .help("The script")
}

/// The command that runs a script.
fn run_command<'a>(alloc: Global) -> Result<clap::Command<'a>, AllocError>
    ensures local { IfOk result (λ c. (out-Command c).has_globals ≡ false) }
    ensures shape { IfOk result (λ c. shape_of c ≡ run_shape) }
{
    bare_command(
        alloc,
        "run",
        "Runs the threads of a script, and reports their races",
        "wcp run [OPTIONS] FILE",
        RUN_TEXTS,
    )
    .arg(file_argument(alloc))?
    .arg(threads_option(alloc))?
    .arg(patience_option(alloc))
}

/// The command that looks for witnesses.
fn witness_command<'a>(alloc: Global) -> Result<clap::Command<'a>, AllocError>
    ensures local { IfOk result (λ c. (out-Command c).has_globals ≡ false) }
    ensures shape { IfOk result (λ c. shape_of c ≡ witness_shape) }
{
    bare_command(
        alloc,
        "witness",
        "Shows for races of a trace a schedule in which they meet",
        "wcp witness [OPTIONS] [EVENT] < TRACE\n\n  tip: the trace is standard input",
        WITNESS_TEXTS,
    )
    .arg(event_argument(alloc))?
    .arg(threads_option(alloc))
}

/// The program, before its commands are added.
fn bare_program<'a>(alloc: Global) -> Result<clap::Command<'a>, AllocError>
    ensures local { IfOk result (λ c. (out-Command c).has_globals ≡ false) }
    ensures app { IfOk result (λ c. app_of c ≡ bare) }
{
    clap::Command::new(alloc, "wcp")
        .version("0.1.0")
        .about("Finds the data races of programs with threads, locks and variables")
        .after_help(PROGRAM_TEXTS)
        .no_binary_name(true)
        .arg_required_else_help(true)
        .subcommand_required(true)
        .bin_name("wcp")
}

/// The program with one more command over a trace.
fn with_trace_command<'a>(
    program: clap::Command<'a>,
    alloc: Global,
    name: &'a str,
    about: &'a str,
    usage: &'a str,
    texts: &'a str,
) -> Result<clap::Command<'a>, AllocError>
    requires { (out-Command program).has_globals ≡ false }
    ensures local { IfOk result (λ c. (out-Command c).has_globals ≡ false) }
    ensures app { IfOk result (λ c. app_of c
        ≡ with_subcommand (app_of program.entry) (trace_command name.entry.now)) }
{
    let command = bare_command(alloc, name, about, usage, texts);
    program.subcommand(command.arg(threads_option(alloc))?)
}

/// The command lines that the program takes.
pub(crate) fn program<'a>(alloc: Global) -> Result<clap::Command<'a>, AllocError>
    ensures local { IfOk result (λ c. (out-Command c).has_globals ≡ false) }
    ensures app { IfOk result (λ c. app_of c ≡ wcp) }
{
    let none = bare_program(alloc)?;
    let one = with_trace_command(
        none,
        alloc,
        "check",
        "Says whether a trace is legal, or which line is refused and why",
        "wcp check [OPTIONS] < TRACE\n\n  tip: the trace is standard input, as in: wcp check < trace.txt",
        CHECK_TEXTS,
    )?;
    let two = with_trace_command(
        one,
        alloc,
        "replay",
        "Reports the races of a trace",
        "wcp replay [OPTIONS] < TRACE\n\n  tip: the trace is standard input, as in: wcp replay < trace.txt",
        REPLAY_TEXTS,
    )?;
    let three = two.subcommand(witness_command(alloc)?)?;
    three.subcommand(run_command(alloc)?)
}
