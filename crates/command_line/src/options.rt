//! The options of the commands. The value of each is a number.
ghost use Rattle.std.specs.Prelude.{◌≡◌, ◌≤◌, false};
ghost use Rattle.clap.specs.Words.{found_of, rows_of, rule_of};
ghost use Rattle.command_line.specs.Commands.{event_argument as event_rule, number_option as rule_for};
ghost use Rattle.command_line.specs.Commands.{patience_option as patience_rule};
ghost use Rattle.command_line.specs.Commands.{threads_option as threads_rule};
ghost use Rattle.command_line.specs.Requests.{event_in, number_for, patience_in, threads_in};

use clap::builder::ValueParser;
use clap::{Arg, ArgAction, ArgMatches};
use std::alloc::Global;

/// How many threads may be named at most: as many as the limits of a run allow.
const MOST_THREADS: u32 = 1024;

/// How many threads may be named where no number is given.
const DEFAULT_THREADS: u32 = 64;

/// The patience where none is given.
pub(crate) const DEFAULT_PATIENCE: u32 = 1000000;

/// clap's option whose value is a number from 1 to the greatest.
fn number_option<'a>(
    alloc: Global,
    name: &'a str,
    most: u32,
    default: &'a str,
    help: &'a str,
) -> Arg<'a>
    ensures local { result.global ≡ false }
    ensures rule { rule_of result ≡ rule_for name.entry.now most default.entry.now }
{
    Arg::new(alloc, name)
        .long(name)
        .value_name("N")
        .action(ArgAction::Set)
        .value_parser(ValueParser::Signed(1, i64::from(most)))
        .default_value(default)
        .help(help)
}

/// The number that an option was given, or its default.
fn number_of(matches: &ArgMatches<'_>, name: &str, most: u32, default: u32) -> u32
    requires { 1 ≤ most }
    ensures least { 1 ≤ result }
    ensures most { result ≤ most }
    ensures given { result ≡ number_for name.now most default (rows_of (found_of matches.now)) }
{
    let given: Option<u32> = matches.get_one(name);
    given.unwrap_or(default).clamp(1, most)
}

/// clap's option that says how many threads may be named.
pub(crate) fn threads_option<'a>(alloc: Global) -> Arg<'a>
    ensures local { result.global ≡ false }
    ensures rule { rule_of result ≡ threads_rule }
{
    number_option(
        alloc,
        "threads",
        MOST_THREADS,
        "64",
        "How many threads may be named, 1 to 1024",
    )
}

/// How many threads may be named.
pub(crate) fn threads_of(matches: &ArgMatches<'_>) -> u32
    ensures least { 1 ≤ result }
    ensures most { result ≤ 1024 }
    ensures given { result ≡ threads_in (rows_of (found_of matches.now)) }
{
    number_of(matches, "threads", MOST_THREADS, DEFAULT_THREADS)
}

/// clap's option that says how often a line is tried.
pub(crate) fn patience_option<'a>(alloc: Global) -> Arg<'a>
    ensures local { result.global ≡ false }
    ensures rule { rule_of result ≡ patience_rule }
{
    number_option(
        alloc,
        "patience",
        u32::MAX,
        "1000000",
        "Tries of acq and join, 1 to 4294967295",
    )
}

/// How often a line is tried.
pub(crate) fn patience_of(matches: &ArgMatches<'_>) -> u32
    ensures least { 1 ≤ result }
    ensures most { result ≤ 4294967295 }
    ensures given { result ≡ patience_in (rows_of (found_of matches.now)) }
{
    number_of(matches, "patience", u32::MAX, DEFAULT_PATIENCE)
}

/// The number of an event.
pub(crate) fn event_argument<'a>(alloc: Global) -> Arg<'a>
    ensures local { result.global ≡ false }
    ensures rule { rule_of result ≡ event_rule }
{
    Arg::new(alloc, "EVENT")
        .action(ArgAction::Set)
        .value_parser(ValueParser::Signed(1, i64::from(u32::MAX)))
        .help("The number of a racing event in the report of replay")
}

/// The number of the event that was given, if one was.
pub(crate) fn event_of(matches: &ArgMatches<'_>) -> Option<u32>
    ensures { result ≡ event_in (rows_of (found_of matches.now)) }
{
    matches.get_one("EVENT")
}
