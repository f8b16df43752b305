//! The script for zsh.

ghost use Rattle.std.specs.Prelude.{◌≡◌, ◌++◌, IfOk, OnOk, string_bytes, flat_map};
ghost use Rattle.reg_words.specs.Completions.{zsh_command, zsh_value, zsh_told, zsh_short, zsh_long, zsh_option, zsh_case, zsh_text};

use crate::settings::{Setting, push_told, words};
use clap::{Arg, ArgAction, Command};
use std::alloc::{AllocError, Global};

/// What stands before the commands.
pub const FRONT: &str = r#"#compdef regtool
# Completes the words of regtool. Put it, as _regtool, in a folder of $fpath, or load it by `source` after compinit.
_regtool() {
    local -a commands
    commands=(
"#;

/// What stands between these and the options of each.
pub const MIDDLE: &str = r#"        'help:Tells of the commands'
    )
    if (( CURRENT == 2 )); then
        _describe -t commands 'command' commands
        return
    fi
    shift words
    (( CURRENT-- ))
    case "$words[1]" in
"#;

/// What stands behind the options.
pub const BACK: &str = r#"        *)
            _files
            ;;
    esac
}
if [ "$funcstack[1]" = "_regtool" ]; then
    _regtool "$@"
else
    compdef _regtool regtool
fi
"#;

/// What stands behind the name of an option's value.
pub const FILES: &str = ":_files' \\\n";

/// What stands before a command's name in its case.
pub const CASE: &str = "        ";

/// What stands between that and its options.
pub const OPTIONS: &str = ")\n            _arguments \\\n";

/// What stands behind them.
pub const LAST: &str =
    "                '--help[Print help]' \\\n                '*:file:_files'\n            ;;\n";

/// Appends a command with what it does.
#[tactic(auto, unfolding(crate::specs::Completions::zsh_command))]
fn push_command(text: &mut String, command: &Command<'_>) -> Result<(), AllocError>
    ensures { OnOk result (string_bytes text.new ≡ string_bytes text.old ++ zsh_command command.now) }
{
    text.push_str("        '")?;
    text.push_str(command.get_name())?;
    text.push_str(":")?;
    push_told(text, Setting::Zsh, words(command.get_about()))?;
    text.push_str("'\n")
}

fn push_commands(text: &mut String, commands: &[Command<'_>]) -> Result<(), AllocError>
    ensures { OnOk result (string_bytes text.new ≡ string_bytes text.old ++ flat_map zsh_command commands.now) }
{
    for command in commands {
        push_command(text, command)?;
    }
    Ok(())
}

/// Appends the end of what is said of an option: that a value follows, if it is no flag.
fn push_value(text: &mut String, action: ArgAction, id: &str) -> Result<(), AllocError>
    ensures { OnOk result (string_bytes text.new ≡ string_bytes text.old ++ zsh_value action id.now) }
{
    match action {
        ArgAction::SetTrue => text.push_str("]' \\\n"),
        _ => {
            text.push_str("]:")?;
            text.push_str(id)?;
            text.push_str(FILES)
        }
    }
}

/// Appends what is said of an option behind its name.
#[tactic(auto, unfolding(crate::specs::Completions::zsh_told))]
fn push_help(text: &mut String, argument: &Arg<'_>) -> Result<(), AllocError>
    ensures { OnOk result (string_bytes text.new ≡ string_bytes text.old ++ zsh_told argument.now) }
{
    text.push_str("[")?;
    push_told(text, Setting::Zsh, words(argument.get_help()))?;
    push_value(text, argument.get_action(), argument.get_id())
}

fn push_short(text: &mut String, argument: &Arg<'_>) -> Result<(), AllocError>
    ensures { OnOk result (string_bytes text.new ≡ string_bytes text.old ++ zsh_short argument.now) }
{
    match argument.get_short() {
        Some(character) => {
            text.push_str("                '-")?;
            text.push(character)?;
            push_help(text, argument)
        }
        None => Ok(()),
    }
}

fn push_long(text: &mut String, argument: &Arg<'_>) -> Result<(), AllocError>
    ensures { OnOk result (string_bytes text.new ≡ string_bytes text.old ++ zsh_long argument.now) }
{
    match argument.get_long() {
        Some(name) => {
            text.push_str("                '--")?;
            text.push_str(name)?;
            push_help(text, argument)
        }
        None => Ok(()),
    }
}

fn push_options(text: &mut String, arguments: &[Arg<'_>]) -> Result<(), AllocError>
    ensures { OnOk result (string_bytes text.new ≡ string_bytes text.old ++ flat_map zsh_option arguments.now) }
{
    for argument in arguments {
        push_short(text, argument)?;
        push_long(text, argument)?;
    }
    Ok(())
}

/// Appends the case of a command: its options, and files.
#[tactic(auto, unfolding(crate::specs::Completions::zsh_case))]
fn push_case(text: &mut String, command: &Command<'_>) -> Result<(), AllocError>
    ensures { OnOk result (string_bytes text.new ≡ string_bytes text.old ++ zsh_case command.now) }
{
    text.push_str(CASE)?;
    text.push_str(command.get_name())?;
    text.push_str(OPTIONS)?;
    push_options(text, command.get_arguments())?;
    text.push_str(LAST)
}

fn push_cases(text: &mut String, commands: &[Command<'_>]) -> Result<(), AllocError>
    ensures { OnOk result (string_bytes text.new ≡ string_bytes text.old ++ flat_map zsh_case commands.now) }
{
    for command in commands {
        push_case(text, command)?;
    }
    Ok(())
}

/// The script: the commands, with what they do, at the first word, and behind it the command's options, with what they do, and files.
#[tactic(auto, unfolding(crate::specs::Completions::zsh_text))]
pub fn script(alloc: Global, command: &Command<'_>) -> Result<String, AllocError>
    ensures { IfOk result (λ text. string_bytes text ≡ zsh_text command.now) }
{
    let mut text = String::from_str(alloc, FRONT)?;
    push_commands(&mut text, command.get_subcommands())?;
    text.push_str(MIDDLE)?;
    push_cases(&mut text, command.get_subcommands())?;
    text.push_str(BACK)?;
    Ok(text)
}
