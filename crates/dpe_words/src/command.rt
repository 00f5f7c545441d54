//! The command as `clap` knows it.
ghost use Rattle.std.specs.Prelude.{◌≡◌, IfOk};
ghost use Rattle.clap.specs.Words.{app_of};
ghost use Rattle.dpe_words.specs.Command.{command, with_option};

use clap::{Arg, ArgAction, Command};
use std::alloc::{AllocError, Global};

/// The command with one more long option, which takes one value.
fn with_option<'a>(
    alloc: Global,
    command: Command<'a>,
    name: &'a str,
) -> Result<Command<'a>, AllocError>
    ensures { IfOk result (λ c. app_of c ≡ with_option (app_of command.entry) name.entry.now) }
{
    let arg = Arg::new(alloc, name).long(name).action(ArgAction::Set);
    command.arg(arg)
}

/// The command with its eight options. It has no help flag: an unknown argument gets the usage line.
pub fn dpe_command<'a>(alloc: Global) -> Result<Command<'a>, AllocError>
    ensures { IfOk result (λ c. app_of c ≡ command) }
{
    let command = Command::new(alloc, "dpe").disable_help_flag(true);
    let command = with_option(alloc, command, "mode")?;
    let command = with_option(alloc, command, "enumerator")?;
    let command = with_option(alloc, command, "buffer")?;
    let command = with_option(alloc, command, "workers")?;
    let command = with_option(alloc, command, "model")?;
    let command = with_option(alloc, command, "format")?;
    let command = with_option(alloc, command, "stats")?;
    with_option(alloc, command, "number")
}
