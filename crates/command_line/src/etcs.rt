//! The command line of `etcs`.
ghost use Rattle.std.specs.Prelude.{◌≡◌, IfErr, IfOk, None, Some, map, option_map};
ghost use Rattle.std.specs.String.{string_bytes};
ghost use Rattle.clap.specs.Words.{FailsBy, fault_of, found_of, rows_of, subcommand_of, subcommand_rows_of};
ghost use Rattle.command_line.specs.Arguments.{IsApp};
ghost use Rattle.command_line.specs.EtcsArguments.{values_of, etcs_values, matched_values, named_values};
ghost use Rattle.command_line.specs.EtcsArguments as spec;

use crate::adding::{with_arg, with_subcommand};
use crate::matched::{u32_of, value_of};
use clap::error::ErrorKind;
use clap::{Arg, ArgMatches, Command, Error};
use std::alloc::{AllocError, Global};
use thiserror::Error as ThisError;

/// What the arguments of `etcs` ask for.
#[derive(Clone, Copy)]
pub enum EtcsCommand<'a> {
    /// Decode a telegram.
    Decode { hex: &'a str },
    /// Make an empty journal image of so many blocks.
    Format { image: &'a str, blocks: u32 },
    /// Run a scenario on an image.
    Run { scenario: &'a str, image: &'a str },
    /// List the journal of an image.
    Journal { image: &'a str },
}

/// Why the arguments of `etcs` give no command.
#[derive(Debug, Clone, Copy, Drop, ThisError)]
pub enum EtcsArgsError {
    /// Memory was refused.
    #[error("memory was refused")]
    OutOfMemory,
    /// The arguments are not those of a command.
    #[error("the arguments are not those of a command")]
    Refused,
}

fn decode_app<'a>(alloc: Global) -> Result<Command<'a>, AllocError>
    ensures { IfOk result (IsApp spec.decode_app) }
{
    let hex = Arg::new(alloc, "HEX").required(true);
    with_arg(Ok(Command::new(alloc, "decode")), hex)
}

fn format_app<'a>(alloc: Global) -> Result<Command<'a>, AllocError>
    ensures { IfOk result (IsApp spec.format_app) }
{
    let image = Arg::new(alloc, "IMAGE").required(true);
    let format = with_arg(Ok(Command::new(alloc, "format")), image);
    let blocks = Arg::new(alloc, "BLOCKS").required(true);
    with_arg(format, blocks)
}

fn run_app<'a>(alloc: Global) -> Result<Command<'a>, AllocError>
    ensures { IfOk result (IsApp spec.run_app) }
{
    let scenario = Arg::new(alloc, "SCENARIO").required(true);
    let run = with_arg(Ok(Command::new(alloc, "run")), scenario);
    let image = Arg::new(alloc, "IMAGE").required(true);
    with_arg(run, image)
}

fn journal_app<'a>(alloc: Global) -> Result<Command<'a>, AllocError>
    ensures { IfOk result (IsApp spec.journal_app) }
{
    let image = Arg::new(alloc, "IMAGE").required(true);
    with_arg(Ok(Command::new(alloc, "journal")), image)
}

// The program with no command yet.
fn bare_app<'a>(alloc: Global) -> Command<'a>
    ensures { IsApp spec.bare_app result }
{
    Command::new(alloc, "etcs")
        .no_binary_name(true)
        .disable_help_flag(true)
        .disable_help_subcommand(true)
        .subcommand_required(true)
}

fn etcs_app<'a>(alloc: Global) -> Result<Command<'a>, AllocError>
    ensures { IfOk result (IsApp spec.etcs_app) }
{
    let first = with_subcommand(Ok(bare_app(alloc)), decode_app(alloc));
    let second = with_subcommand(first, format_app(alloc));
    let third = with_subcommand(second, run_app(alloc));
    with_subcommand(third, journal_app(alloc))
}

fn decode_command<'a>(matches: &ArgMatches<'a>) -> Option<EtcsCommand<'a>>
    ensures { option_map values_of result ≡ spec.decode_values (rows_of (found_of matches.now)) }
{
    let hex = value_of(matches, "HEX")?;
    Some(EtcsCommand::Decode { hex })
}

fn format_command<'a>(matches: &ArgMatches<'a>) -> Option<EtcsCommand<'a>>
    ensures { option_map values_of result ≡ spec.format_values (rows_of (found_of matches.now)) }
{
    let image = value_of(matches, "IMAGE")?;
    let blocks = u32_of(value_of(matches, "BLOCKS")?)?;
    Some(EtcsCommand::Format { image, blocks })
}

fn run_command<'a>(matches: &ArgMatches<'a>) -> Option<EtcsCommand<'a>>
    ensures { option_map values_of result ≡ spec.run_values (rows_of (found_of matches.now)) }
{
    let scenario = value_of(matches, "SCENARIO")?;
    let image = value_of(matches, "IMAGE")?;
    Some(EtcsCommand::Run { scenario, image })
}

fn journal_command<'a>(matches: &ArgMatches<'a>) -> Option<EtcsCommand<'a>>
    ensures { option_map values_of result ≡ spec.journal_values (rows_of (found_of matches.now)) }
{
    let image = value_of(matches, "IMAGE")?;
    Some(EtcsCommand::Journal { image })
}

fn named_command<'a>(name: &str, matches: &ArgMatches<'a>) -> Option<EtcsCommand<'a>>
    ensures { option_map values_of result ≡ named_values name.now (rows_of (found_of matches.now)) }
{
    if name == "decode" {
        decode_command(matches)
    } else if name == "format" {
        format_command(matches)
    } else if name == "run" {
        run_command(matches)
    } else if name == "journal" {
        journal_command(matches)
    } else {
        None
    }
}

fn matched_command<'a>(matches: &ArgMatches<'a>) -> Option<EtcsCommand<'a>>
    ensures { option_map values_of result ≡ matched_values (subcommand_rows_of matches.now) }
{
    match matches.subcommand() {
        Some((name, inner)) => named_command(name, inner),
        None => None,
    }
}

fn etcs_matches<'a>(alloc: Global, args: &'a [String]) -> Result<ArgMatches<'a>, Error>
    ensures matches { IfOk result (λ m. subcommand_rows_of m ≡ subcommand_of spec.etcs_app (map string_bytes args.now)) }
    ensures faults { FailsBy (fault_of spec.etcs_app (map string_bytes args.now)) result }
{
    etcs_app(alloc)?.try_get_matches_from(args)
}

/// Parses the arguments of `etcs`, without the program's name.
pub fn parse_etcs<'a>(alloc: Global, args: &'a [String]) -> Result<EtcsCommand<'a>, EtcsArgsError>
    ensures ok { IfOk result (λ command. etcs_values (map string_bytes args.now) ≡ Some (values_of command)) }
    ensures err { IfErr result (λ error. error ≡ EtcsArgsError.Refused → etcs_values (map string_bytes args.now) ≡ None) }
{
    match etcs_matches(alloc, args) {
        Ok(matches) => match matched_command(&matches) {
            Some(command) => Ok(command),
            None => Err(EtcsArgsError::Refused),
        },
        Err(error) => match error.kind() {
            ErrorKind::OutOfMemory => Err(EtcsArgsError::OutOfMemory),
            _ => Err(EtcsArgsError::Refused),
        },
    }
}
