//! The options of each command, as tables of `clap`.

ghost use Rattle.std.specs.Prelude.{◌≡◌, IfOk, map, option_map};
ghost use Rattle.clap.specs.Words.{app_of, with_rule};
ghost use Rattle.exi_words.specs.Found.{rows_found};
ghost use Rattle.exi_words.specs.Tables.{bare, flag_rule, given_by, option_rule, stream_table};
ghost use Rattle.exi_words.specs.Tables.{table, with_flags, with_operand, with_options};

use crate::verb::Verb;
use clap::error::ErrorKind;
use clap::{Arg, ArgAction, ArgMatches, Command};
use std::alloc::{AllocError, Global};
use std::convert::AsStr;

/// Each switches an option of the stream on.
static STREAM_FLAGS: [&str; 8] = [
    "strict",
    "fragment",
    "self-contained",
    "byte-aligned",
    "comments",
    "pis",
    "dtd",
    "prefixes",
];

/// The other options of a stream.
static STREAM_OPTIONS: [&str; 4] = [
    "value-max-length",
    "value-partition-capacity",
    "schema",
    "schema-id",
];

/// How a stream is read by workers.
static WORKER_OPTIONS: [&str; 3] = ["hints", "workers", "pages"];

/// What the header of a stream that is written has.
static HEADER_FLAGS: [&str; 2] = ["told", "cookie"];

/// With one flag more.
fn with_flag<'a>(
    alloc: Global,
    command: Command<'a>,
    name: &'a str,
) -> Result<Command<'a>, AllocError>
    ensures { IfOk result (λ c.
        app_of c ≡ with_rule (app_of command.entry) (flag_rule name.entry.now)) }
{
    let flag = Arg::new(alloc, name).long(name).action(ArgAction::SetTrue);
    command.arg(flag)
}

/// With one option more, which takes a value.
fn with_option<'a>(
    alloc: Global,
    command: Command<'a>,
    name: &'a str,
) -> Result<Command<'a>, AllocError>
    ensures { IfOk result (λ c.
        app_of c ≡ with_rule (app_of command.entry) (option_rule name.entry.now)) }
{
    let option = Arg::new(alloc, name).long(name).action(ArgAction::Set);
    command.arg(option)
}

/// With these flags more.
fn with_flags<'a>(
    alloc: Global,
    command: Command<'a>,
    names: &'static [&'static str],
) -> Result<Command<'a>, AllocError>
    ensures { IfOk result (λ c.
        app_of c ≡ with_flags (map (λ n. n.now) names.now) (app_of command.entry)) }
{
    let mut command = command;
    for name in names {
        command = with_flag(alloc, command, *name)?;
    }
    Ok(command)
}

/// With these options more.
fn with_options<'a>(
    alloc: Global,
    command: Command<'a>,
    names: &'static [&'static str],
) -> Result<Command<'a>, AllocError>
    ensures { IfOk result (λ c.
        app_of c ≡ with_options (map (λ n. n.now) names.now) (app_of command.entry)) }
{
    let mut command = command;
    for name in names {
        command = with_option(alloc, command, *name)?;
    }
    Ok(command)
}

/// Without options, flags for help and the version among them.
fn bare<'a>(alloc: Global) -> Command<'a>
    ensures { app_of result ≡ bare }
{
    Command::new(alloc, "exi")
        .disable_help_flag(true)
        .disable_version_flag(true)
}

/// With the word that has to stand.
fn with_operand<'a>(alloc: Global, name: &'a str) -> Result<Command<'a>, AllocError>
    ensures { IfOk result (λ c. app_of c ≡ with_operand name.entry.now) }
{
    let operand = Arg::new(alloc, name).action(ArgAction::Set).required(true);
    bare(alloc).arg(operand)
}

/// The options of a stream.
fn stream_table<'a>(alloc: Global) -> Result<Command<'a>, AllocError>
    ensures { IfOk result (λ c. app_of c ≡ stream_table) }
{
    let command = with_operand(alloc, "FILE")?;
    let command = with_flags(alloc, command, STREAM_FLAGS.as_slice())?;
    with_options(alloc, command, STREAM_OPTIONS.as_slice())
}

/// The table of a command.
fn table<'a>(alloc: Global, verb: Verb) -> Result<Command<'a>, AllocError>
    ensures { IfOk result (λ c. app_of c ≡ table verb) }
{
    match verb {
        Verb::Read => with_options(alloc, stream_table(alloc)?, WORKER_OPTIONS.as_slice()),
        Verb::Index => stream_table(alloc),
        Verb::Write => with_flags(alloc, stream_table(alloc)?, HEADER_FLAGS.as_slice()),
        Verb::Schema => with_operand(alloc, "FILE"),
        Verb::Gen => with_operand(alloc, "N"),
    }
}

/// What the words give, of which the first is the command, where its table takes them.
pub(crate) fn given_by<'a, S: AsStr>(
    alloc: Global,
    verb: Verb,
    words: &'a [S],
) -> Result<Option<ArgMatches<'a>>, AllocError>
    ensures { IfOk result (λ m.
        option_map rows_found m ≡ given_by verb (map S.text words.entry.now)) }
{
    let table = table(alloc, verb)?;
    match table.try_get_matches_from(words) {
        Ok(matches) => Ok(Some(matches)),
        Err(error) => {
            if error.kind() == ErrorKind::OutOfMemory {
                return Err(AllocError);
            }
            Ok(None)
        }
    }
}
