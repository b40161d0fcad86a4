//! The command line that `specs/Program.antt` writes down, built of clap's parts.
ghost use Rattle.std.specs.Prelude.{◌≡◌, IfOk};
ghost use Rattle.clap.specs.Words.{app_of};
ghost use Rattle.command_words.specs.Program.{Builds, BuildsArguments, BuildsCommands, app_by, bare_app, our_app};

use crate::command_line::arguments::{Argument, arg_of};
use crate::command_line::commands::{COMMANDS, CommandRow};
use clap::Command;
use std::alloc::{AllocError, Global};

/// The program with its commands.
pub(crate) fn program<'a>(alloc: Global) -> Result<Command<'a>, AllocError>
    ensures { IfOk result (λ command. app_of command ≡ our_app) }
{
    with_commands(alloc, bare_program(alloc), COMMANDS)
}

/// The program without commands. It does nothing where no command is named.
fn bare_program<'a>(alloc: Global) -> Command<'a>
    ensures { app_of result ≡ bare_app }
{
    Command::new(alloc, "fleetplan").subcommand_required(true)
}

/// The program with these commands too.
fn with_commands<'a>(
    alloc: Global,
    program: Command<'a>,
    commands: &[CommandRow<'a>],
) -> Result<Command<'a>, AllocError>
    ensures { IfOk result (BuildsCommands program.entry commands.now) }
{
    let mut program = program;
    for row in commands {
        let command = command_of(alloc, row)?;
        program = program.subcommand(command)?;
    }
    Ok(program)
}

/// One command.
fn command_of<'a>(alloc: Global, row: &CommandRow<'a>) -> Result<Command<'a>, AllocError>
    ensures { IfOk result (Builds (app_by row.now)) }
{
    let mut command = Command::new(alloc, row.name);
    for group in row.groups {
        command = with_arguments(alloc, command, group)?;
    }
    Ok(command)
}

/// The command with these arguments too.
fn with_arguments<'a>(
    alloc: Global,
    command: Command<'a>,
    arguments: &[Argument<'a>],
) -> Result<Command<'a>, AllocError>
    ensures { IfOk result (BuildsArguments command.entry arguments.now) }
{
    let mut command = command;
    for argument in arguments {
        command = command.arg(arg_of(alloc, *argument))?;
    }
    Ok(command)
}
