// The words of a command, read by `clap`.
ghost use Rattle.std.specs.Prelude.{◌≡◌, IfOk, None, Some, false, codes};
ghost use Rattle.qs_cli.specs.Words.{operand, among, names_of};
ghost use Rattle.qs_cli.specs.Parser.{flat};
ghost use Rattle.qs_cli.specs.Reading.{found_values, options_of, values_in, IsUsage};
ghost use Rattle.clap.specs.Words.{app_of, kind_of};

use crate::commands::CliFault;
use crate::spelling::are_items;
use crate::table::{OPERAND, OptionRule};
use clap::error::ErrorKind;
use clap::{Arg, ArgAction, ArgMatches, Command, Error};
use std::alloc::{AllocError, Global};

fn fault_of_clap(error: &Error) -> CliFault
    ensures { kind_of error.now ≡ ErrorKind.OutOfMemory → result ≡ CliFault.NoMemory }
{
    match error.kind() {
        ErrorKind::OutOfMemory => CliFault::NoMemory,
        _ => CliFault::Usage,
    }
}

/// A command of one operand and these options.
fn flat_command<'a>(alloc: Global, options: &'a [OptionRule]) -> Result<Command<'a>, AllocError>
    ensures { IfOk result (λ c. app_of c ≡ flat (codes "qsc") (options_of options.now)) }
{
    let mut command = Command::new(alloc, "qsc")
        .no_binary_name(true)
        .disable_help_flag(true);
    for option in options {
        let arg = Arg::new(alloc, option.name)
            .long(option.name)
            .action(ArgAction::Set)
            .required(option.required);
        command = command.arg(arg)?;
    }
    let operand = Arg::new(alloc, OPERAND)
        .action(ArgAction::Set)
        .required(true);
    command.arg(operand)
}

/// The values of the words behind a command's name, or Usage where they aren't those of a command
/// with these options.
pub(crate) fn flat_matches<'a>(
    alloc: Global,
    options: &'a [OptionRule],
    words: &'a [String],
) -> Result<ArgMatches<'a>, CliFault>
    requires { among operand (names_of (options_of options.now)) ≡ false }
    ensures ok { IfOk result (λ m. values_in options.now words.entry.now ≡ Some (found_values m)) }
    ensures usage { IsUsage result → values_in options.now words.entry.now ≡ None }
{
    if !are_items(words) {
        return Err(CliFault::Usage);
    }
    let command = flat_command(alloc, options)?;
    match command.try_get_matches_from(words) {
        Ok(matches) => Ok(matches),
        Err(error) => Err(fault_of_clap(&error)),
    }
}
