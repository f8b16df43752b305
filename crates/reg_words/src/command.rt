//! `clap`'s command, of which a command line is read: it is made of a table.

ghost use Rattle.std.specs.Prelude.{IfOk, codes};
ghost use Rattle.clap.specs.Words.{App, new_app, with_subcommand};
ghost use Rattle.reg_words.specs.CommandShapes.{option_rule, flag_rule, short_rule, place_rule, required, regtool as regtool_shape};
ghost use Rattle.reg_words.specs.CommandShapes.{valued_rule, half_rule, whole_rule, count_rule, many_rule};
ghost use Rattle.reg_words.specs.CommandShapes.{list_command as list_shape, get_command as get_shape, find_command as find_shape};
ghost use Rattle.reg_words.specs.CommandShapes.{stream_commands as stream_shape, query_commands as query_shape};
ghost use Rattle.reg_words.specs.CommandShapes.{saving_commands as saved_shape, changing_commands as changed_shape};
ghost use Rattle.reg_words.specs.Internal.Commands.{IsRule, IsCommand, IsMade};
ghost use Rattle.reg_words.specs.Internal.CommandRows.{rule_in, with_rules, app_in};

use crate::builder::CommandBuilder;
use crate::commands::{
    ArgForm, ArgRow, CHECK, COMPLETIONS, COPY, CREATE, CommandRow, DELETE, DIFF, DUMP, EDIT,
    EXPORT, FIND, GET, IMPORT, LIST, MANUAL, NEW, RUN, SET, TIMELINE, VERSION,
};
use clap::{Arg, ArgAction, Command};
use std::alloc::{AllocError, Global};

/// An option without a value.
fn flag_arg<'a>(alloc: Global, row: ArgRow) -> Arg<'a>
    ensures { IsRule (flag_rule row.name.now) result }
{
    Arg::new(alloc, row.name)
        .long(row.name)
        .action(ArgAction::SetTrue)
        .help(row.help)
}

/// An option with one value.
fn option_arg<'a>(alloc: Global, row: ArgRow) -> Arg<'a>
    ensures { IsRule (option_rule row.name.now) result }
{
    Arg::new(alloc, row.name)
        .long(row.name)
        .value_name(row.value)
        .help(row.help)
}

/// An argument by its place.
fn place_arg<'a>(alloc: Global, row: ArgRow, is_required: bool) -> Arg<'a>
    ensures { IsRule (place_rule row.name.now is_required) result }
{
    Arg::new(alloc, row.name)
        .required(is_required)
        .value_name(row.value)
        .help(row.help)
}

/// Arguments by their places, one or more where any is given.
fn many_arg<'a>(alloc: Global, row: ArgRow, is_required: bool) -> Arg<'a>
    ensures { IsRule (many_rule row.name.now is_required) result }
{
    Arg::new(alloc, row.name)
        .value_name(row.value)
        .action(ArgAction::Append)
        .num_args(1..)
        .required(is_required)
        .help(row.help)
}

/// A flag that has a letter, too.
fn letter_arg<'a>(alloc: Global, row: ArgRow, letter: char) -> Arg<'a>
    ensures { IsRule (short_rule row.name.now letter) result }
{
    flag_arg(alloc, row).short(letter)
}

/// An option that may have to be given.
fn valued_arg<'a>(alloc: Global, row: ArgRow, is_required: bool) -> Arg<'a>
    ensures { IsRule (valued_rule row.name.now is_required) result }
{
    option_arg(alloc, row).required(is_required)
}

/// An option with a number of 32 bits.
fn half_arg<'a>(alloc: Global, row: ArgRow) -> Arg<'a>
    ensures { IsRule (half_rule row.name.now) result }
{
    option_arg(alloc, row).value_parser(clap::value_parser!(u32))
}

/// An option with a number of 64 bits.
fn whole_arg<'a>(alloc: Global, row: ArgRow) -> Arg<'a>
    ensures { IsRule (whole_rule row.name.now) result }
{
    option_arg(alloc, row).value_parser(clap::value_parser!(u64))
}

/// An option with a number of hives.
fn count_arg<'a>(alloc: Global, row: ArgRow) -> Arg<'a>
    ensures { IsRule (count_rule row.name.now) result }
{
    option_arg(alloc, row).value_parser(clap::value_parser!(u8).range(1..=16))
}

/// An argument of a row.
fn arg_of<'a>(alloc: Global, row: ArgRow) -> Arg<'a>
    ensures { IsRule (rule_in row) result }
{
    match row.form {
        ArgForm::Flag => flag_arg(alloc, row),
        ArgForm::Letter(letter) => letter_arg(alloc, row, letter),
        ArgForm::Valued { is_required } => valued_arg(alloc, row, is_required),
        ArgForm::Half => half_arg(alloc, row),
        ArgForm::Whole => whole_arg(alloc, row),
        ArgForm::Count => count_arg(alloc, row),
        ArgForm::Place { is_required } => place_arg(alloc, row, is_required),
        ArgForm::Places { is_required } => many_arg(alloc, row, is_required),
    }
}

/// Adds arguments to a command.
fn with_args<'a>(
    alloc: Global,
    command: CommandBuilder<'a>,
    rows: &'static [ArgRow],
) -> CommandBuilder<'a>
    ensures { (app : App) → IsMade app command.entry → IsMade (with_rules app rows.now) result }
{
    let mut command = command;
    for row in rows {
        command = command.arg(arg_of(alloc, *row));
    }
    command
}

/// A command of a row.
fn command_of<'a>(alloc: Global, row: CommandRow) -> CommandBuilder<'a>
    ensures { IsMade (app_in row) result }
{
    let command = CommandBuilder::of(Command::new(alloc, row.name).about(row.about));
    with_args(alloc, command, row.args)
}

/// The whole command, without its subcommands.
fn top_command<'a>(alloc: Global) -> CommandBuilder<'a>
    ensures { IsMade (required (new_app (codes "regtool"))) result }
{
    let top = Command::new(alloc, "regtool").about("Answers registry calls on hives");
    CommandBuilder::of(top.subcommand_required(true))
}

/// The commands that work on the standard streams.
fn stream_commands<'a>(alloc: Global) -> CommandBuilder<'a>
    ensures { IsMade stream_shape result }
{
    top_command(alloc)
        .subcommand(command_of(alloc, RUN))
        .subcommand(command_of(alloc, DUMP))
        .subcommand(command_of(alloc, CHECK))
}

/// These with `ls`, `get` and `find`.
fn looking_commands<'a>(alloc: Global) -> CommandBuilder<'a>
    ensures { IsMade
        (with_subcommand (with_subcommand (with_subcommand stream_shape list_shape.top) get_shape.top) find_shape.top) result }
{
    stream_commands(alloc)
        .subcommand(command_of(alloc, LIST))
        .subcommand(command_of(alloc, GET))
        .subcommand(command_of(alloc, FIND))
}

/// These with all that look into a file.
fn query_commands<'a>(alloc: Global) -> CommandBuilder<'a>
    ensures { IsMade query_shape result }
{
    looking_commands(alloc)
        .subcommand(command_of(alloc, DIFF))
        .subcommand(command_of(alloc, EXPORT))
        .subcommand(command_of(alloc, TIMELINE))
}

/// These with those that make a file or save one, whatever is changed.
fn saving_commands<'a>(alloc: Global) -> CommandBuilder<'a>
    ensures { IsMade saved_shape result }
{
    query_commands(alloc)
        .subcommand(command_of(alloc, NEW))
        .subcommand(command_of(alloc, EDIT))
        .subcommand(command_of(alloc, IMPORT))
}

/// These with those that make one change.
fn changing_commands<'a>(alloc: Global) -> CommandBuilder<'a>
    ensures { IsMade changed_shape result }
{
    saving_commands(alloc)
        .subcommand(command_of(alloc, SET))
        .subcommand(command_of(alloc, CREATE))
        .subcommand(command_of(alloc, DELETE))
        .subcommand(command_of(alloc, COPY))
}

/// The whole command.
pub fn whole_command<'a>(alloc: Global) -> Result<Command<'a>, AllocError>
    ensures { IfOk result (λ command. IsCommand regtool_shape command) }
{
    changing_commands(alloc)
        .subcommand(command_of(alloc, MANUAL))
        .subcommand(command_of(alloc, COMPLETIONS))
        .subcommand(command_of(alloc, VERSION))
        .finish()
}
