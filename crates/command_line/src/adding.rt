//! Commands with one argument or one subcommand more. A function that makes a command calls one of these for each part,
//! so it has no `?` of its own, and a short proof.
ghost use Rattle.std.specs.Prelude.{IfOk};
ghost use Rattle.clap.specs.Simple.{App, with_rule, with_subcommand};
ghost use Rattle.clap.specs.Walk.{Rule};
ghost use Rattle.command_line.specs.Arguments.{IsApp, IsArg};

use clap::{Arg, Command};
use std::alloc::AllocError;

/// A command with one more argument.
pub(crate) fn with_arg<'a>(
    command: Result<Command<'a>, AllocError>,
    arg: Arg<'a>,
) -> Result<Command<'a>, AllocError>
    ensures { (app : App) (rule : Rule) → IfOk command.entry (IsApp app) → IsArg rule arg.entry → IfOk result (IsApp (with_rule app rule)) }
{
    command?.arg(arg)
}

/// A command with one more subcommand.
pub(crate) fn with_subcommand<'a>(
    command: Result<Command<'a>, AllocError>,
    added: Result<Command<'a>, AllocError>,
) -> Result<Command<'a>, AllocError>
    ensures { (app below : App) → IfOk command.entry (IsApp app) → IfOk added.entry (IsApp below) → IfOk result (IsApp (with_subcommand app below.top)) }
{
    command?.subcommand(added?)
}
