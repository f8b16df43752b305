//! The script for fish.

ghost use Rattle.std.specs.Prelude.{◌≡◌, ◌++◌, IfOk, OnOk, string_bytes, flat_map};
ghost use Rattle.reg_words.specs.Completions.{fish_told, fish_short, fish_value, fish_names, fish_line, fish_option, fish_command, fish_text};

use crate::settings::{Setting, push_told, words};
use clap::{Arg, ArgAction, Command};
use std::alloc::{AllocError, Global};

/// What stands before the commands.
pub const FRONT: &str =
    r#"# Completes the words of regtool. Put it, as regtool.fish, in ~/.config/fish/completions, or load it by `source`.
complete -c regtool -n __fish_use_subcommand -f -a help -d 'Tells of the commands'
complete -c regtool -l help -d 'Print help'
"#;

/// What stands before the name of a command in its line.
pub const COMMAND: &str = "complete -c regtool -n __fish_use_subcommand -f -a ";

/// What stands before it in the lines of its options.
pub const OPTION: &str = "complete -c regtool -n '__fish_seen_subcommand_from ";

/// Appends what is said of a command or an option, and ends the line.
#[tactic(auto, unfolding(crate::specs::Completions::fish_told))]
fn push_help(text: &mut String, help: &str) -> Result<(), AllocError>
    ensures { OnOk result (string_bytes text.new ≡ string_bytes text.old ++ fish_told help.now) }
{
    text.push_str(" -d '")?;
    push_told(text, Setting::Fish, help)?;
    text.push_str("'\n")
}

fn push_short(text: &mut String, short: Option<char>) -> Result<(), AllocError>
    ensures { OnOk result (string_bytes text.new ≡ string_bytes text.old ++ fish_short short) }
{
    match short {
        Some(character) => {
            text.push_str(" -s ")?;
            text.push(character)
        }
        None => Ok(()),
    }
}

/// Appends that an option is followed by a value, where it takes one.
fn push_value(text: &mut String, action: ArgAction) -> Result<(), AllocError>
    ensures { OnOk result (string_bytes text.new ≡ string_bytes text.old ++ fish_value action) }
{
    match action {
        ArgAction::SetTrue => Ok(()),
        _ => text.push_str(" -r"),
    }
}

/// Appends the names of an option.
#[tactic(auto, unfolding(crate::specs::Completions::fish_names))]
fn push_names(text: &mut String, short: Option<char>, long: &str) -> Result<(), AllocError>
    ensures { OnOk result (string_bytes text.new ≡ string_bytes text.old ++ fish_names short long.now) }
{
    text.push_str("'")?;
    push_short(text, short)?;
    text.push_str(" -l ")?;
    text.push_str(long)
}

/// Appends the line of an option of a command, which has that long name.
#[tactic(auto, unfolding(crate::specs::Completions::fish_line))]
fn push_line(
    text: &mut String,
    name: &str,
    long: &str,
    argument: &Arg<'_>,
) -> Result<(), AllocError>
    ensures { OnOk result (string_bytes text.new ≡ string_bytes text.old ++ fish_line long.now name.now argument.now) }
{
    text.push_str(OPTION)?;
    text.push_str(name)?;
    push_names(text, argument.get_short(), long)?;
    push_value(text, argument.get_action())?;
    push_help(text, words(argument.get_help()))
}

/// Appends the line of an option of a command; none for an argument by its place.
fn push_option(text: &mut String, name: &str, argument: &Arg<'_>) -> Result<(), AllocError>
    ensures { OnOk result (string_bytes text.new ≡ string_bytes text.old ++ fish_option name.now argument.now) }
{
    match argument.get_long() {
        Some(long) => push_line(text, name, long, argument),
        None => Ok(()),
    }
}

fn push_options(text: &mut String, name: &str, arguments: &[Arg<'_>]) -> Result<(), AllocError>
    ensures { OnOk result (string_bytes text.new ≡ string_bytes text.old ++ flat_map (fish_option name.now) arguments.now) }
{
    for argument in arguments {
        push_option(text, name, argument)?;
    }
    Ok(())
}

/// Appends the lines of a command: its own, and those of its options.
#[tactic(auto, unfolding(crate::specs::Completions::fish_command))]
fn push_command(text: &mut String, command: &Command<'_>) -> Result<(), AllocError>
    ensures { OnOk result (string_bytes text.new ≡ string_bytes text.old ++ fish_command command.now) }
{
    let name = command.get_name();
    text.push_str(COMMAND)?;
    text.push_str(name)?;
    push_help(text, words(command.get_about()))?;
    push_options(text, name, command.get_arguments())
}

fn push_commands(text: &mut String, commands: &[Command<'_>]) -> Result<(), AllocError>
    ensures { OnOk result (string_bytes text.new ≡ string_bytes text.old ++ flat_map fish_command commands.now) }
{
    for command in commands {
        push_command(text, command)?;
    }
    Ok(())
}

/// The script: the commands, with what they do, at the first word, and behind it the command's options, with what they do, and files.
#[tactic(auto, unfolding(crate::specs::Completions::fish_text))]
pub fn script(alloc: Global, command: &Command<'_>) -> Result<String, AllocError>
    ensures { IfOk result (λ text. string_bytes text ≡ fish_text command.now) }
{
    let mut text = String::from_str(alloc, FRONT)?;
    push_commands(&mut text, command.get_subcommands())?;
    Ok(text)
}
