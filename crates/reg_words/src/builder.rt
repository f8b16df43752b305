//! A command that is being put together.

ghost use Rattle.std.specs.Prelude.{◌≡◌, IfOk, Ok};
ghost use Rattle.clap.specs.Words.{AddsArg, AddsSubcommand, App, Rule, with_rule, with_subcommand};
ghost use Rattle.clap.specs.declared.builder.command.Command.{Command as AnyCommand};
ghost use Rattle.reg_words.specs.Internal.Commands.{IsRule, IsCommand, IsMade};

use clap::{Arg, Command};
use std::alloc::AllocError;

/// Adds an argument to a command, if there was memory for that.
fn with_arg<'a>(
    made: Result<Command<'a>, AllocError>,
    arg: Arg<'a>,
) -> Result<Command<'a>, AllocError>
    ensures { IfOk result (λ whole. (command : AnyCommand) × (made.entry ≡ Ok command) × AddsArg command arg.entry whole) }
{
    match made {
        Ok(command) => command.arg(arg),
        Err(lack) => Err(lack),
    }
}

/// Adds a subcommand to a command, if there was memory for both.
fn with_subcommand_of<'a>(
    made: Result<Command<'a>, AllocError>,
    other: Result<Command<'a>, AllocError>,
) -> Result<Command<'a>, AllocError>
    ensures { IfOk result (λ whole. (command : AnyCommand) × (sub : AnyCommand) × (made.entry ≡ Ok command) × (other.entry ≡ Ok sub)
        × AddsSubcommand command sub whole) }
{
    match made {
        Ok(command) => with_made(command, other),
        Err(lack) => Err(lack),
    }
}

/// Adds a subcommand, if there was memory for it.
fn with_made<'a>(
    command: Command<'a>,
    made: Result<Command<'a>, AllocError>,
) -> Result<Command<'a>, AllocError>
    ensures { IfOk result (λ whole. (sub : AnyCommand) × (made.entry ≡ Ok sub) × AddsSubcommand command.entry sub whole) }
{
    match made {
        Ok(sub) => command.subcommand(sub),
        Err(error) => Err(error),
    }
}

/// A command, unless memory was refused for a part of it. So whoever puts it together needn't ask after each part.
pub struct CommandBuilder<'a> {
    pub made: Result<Command<'a>, AllocError>,
}

// By hand, so that a step which takes one has no way of its own for each part of a command.
impl<'a> Drop for CommandBuilder<'a> {
    fn drop(self) {
        let CommandBuilder { made: _ } = self;
    }
}

impl<'a> CommandBuilder<'a> {
    /// A command, to which nothing was added yet.
    pub fn of(command: Command<'a>) -> CommandBuilder<'a>
        ensures { result.made ≡ Ok command.entry }
    {
        CommandBuilder { made: Ok(command) }
    }

    /// The command, if there was memory for all of it.
    pub fn finish(self) -> Result<Command<'a>, AllocError>
        ensures { result ≡ self.entry.made }
    {
        let CommandBuilder { made } = self;
        made
    }

    /// The same with one argument more.
    pub fn arg(self, arg: Arg<'a>) -> CommandBuilder<'a>
        ensures { (app : App) → (rule : Rule) → IsMade app self.entry → IsRule rule arg.entry → IsMade (with_rule app rule) result }
    {
        let CommandBuilder { made } = self;
        CommandBuilder {
            made: with_arg(made, arg),
        }
    }

    /// The same with one subcommand more, which was made apart.
    pub fn subcommand(self, other: CommandBuilder<'a>) -> CommandBuilder<'a>
        ensures { (app sub : App) → IsMade app self.entry → IsMade sub other.entry → IsMade (with_subcommand app sub.top) result }
    {
        let CommandBuilder { made } = self;
        CommandBuilder {
            made: with_subcommand_of(made, other.finish()),
        }
    }
}
