//! The script for bash.

ghost use Rattle.std.specs.Prelude.{◌≡◌, ◌++◌, IfOk, OnOk, string_bytes, flat_map};
ghost use Rattle.reg_words.specs.Settings.{name_of};
ghost use Rattle.reg_words.specs.Completions.{bash_name, bash_short, bash_long, bash_option, bash_case, bash_text};

use clap::{Arg, Command};
use std::alloc::{AllocError, Global};

/// What stands before the names of the commands.
pub const FRONT: &str = r#"# Completes the words of regtool. Load it by `source`.
_regtool() {
    local word="${COMP_WORDS[COMP_CWORD]}" options=""
    COMPREPLY=()
    if [ "$COMP_CWORD" -eq 1 ]; then
        COMPREPLY=($(compgen -W ""#;

/// What stands between these and the options of each.
pub const MIDDLE: &str = r#"help" -- "$word"))
        return
    fi
    case "${COMP_WORDS[1]}" in
"#;

/// What stands behind the options.
pub const BACK: &str = r#"    esac
    case "$word" in
        -*) COMPREPLY=($(compgen -W "$options" -- "$word")) ;;
    esac
}
complete -o bashdefault -o default -F _regtool regtool
"#;

/// What stands before a command's name in its case.
pub const CASE: &str = "        ";

/// What stands between that and its options.
pub const OPTIONS: &str = ") options=\"";

/// What stands behind them.
pub const LAST: &str = "--help\" ;;\n";

fn push_name(text: &mut String, name: &str) -> Result<(), AllocError>
    ensures { OnOk result (string_bytes text.new ≡ string_bytes text.old ++ bash_name name.now) }
{
    text.push_str(name)?;
    text.push_str(" ")
}

fn push_names(text: &mut String, commands: &[Command<'_>]) -> Result<(), AllocError>
    ensures { OnOk result (string_bytes text.new ≡ string_bytes text.old
        ++ flat_map (λ command. bash_name (name_of command)) commands.now) }
{
    for command in commands {
        push_name(text, command.get_name())?;
    }
    Ok(())
}

fn push_short(text: &mut String, short: Option<char>) -> Result<(), AllocError>
    ensures { OnOk result (string_bytes text.new ≡ string_bytes text.old ++ bash_short short) }
{
    match short {
        Some(character) => {
            text.push_str("-")?;
            text.push(character)?;
            text.push_str(" ")
        }
        None => Ok(()),
    }
}

fn push_long(text: &mut String, long: Option<&str>) -> Result<(), AllocError>
    ensures { OnOk result (string_bytes text.new ≡ string_bytes text.old ++ bash_long long.entry) }
{
    match long {
        Some(name) => {
            text.push_str("--")?;
            push_name(text, name)
        }
        None => Ok(()),
    }
}

fn push_options(text: &mut String, arguments: &[Arg<'_>]) -> Result<(), AllocError>
    ensures { OnOk result (string_bytes text.new ≡ string_bytes text.old ++ flat_map bash_option arguments.now) }
{
    for argument in arguments {
        push_short(text, argument.get_short())?;
        push_long(text, argument.get_long())?;
    }
    Ok(())
}

/// Appends the case of a command: its options.
#[tactic(auto, unfolding(crate::specs::Completions::bash_case))]
fn push_case(text: &mut String, command: &Command<'_>) -> Result<(), AllocError>
    ensures { OnOk result (string_bytes text.new ≡ string_bytes text.old ++ bash_case command.now) }
{
    text.push_str(CASE)?;
    text.push_str(command.get_name())?;
    text.push_str(OPTIONS)?;
    push_options(text, command.get_arguments())?;
    text.push_str(LAST)
}

fn push_cases(text: &mut String, commands: &[Command<'_>]) -> Result<(), AllocError>
    ensures { OnOk result (string_bytes text.new ≡ string_bytes text.old ++ flat_map bash_case commands.now) }
{
    for command in commands {
        push_case(text, command)?;
    }
    Ok(())
}

/// The script: the commands' names at the first word, behind it the command's options where a word begins with `-`, and files elsewhere.
#[tactic(auto, unfolding(crate::specs::Completions::bash_text))]
pub fn script(alloc: Global, command: &Command<'_>) -> Result<String, AllocError>
    ensures { IfOk result (λ text. string_bytes text ≡ bash_text command.now) }
{
    let mut text = String::from_str(alloc, FRONT)?;
    push_names(&mut text, command.get_subcommands())?;
    text.push_str(MIDDLE)?;
    push_cases(&mut text, command.get_subcommands())?;
    text.push_str(BACK)?;
    Ok(text)
}
