//! The tool's manual page, made of the command as `clap` reads it.

ghost use Rattle.std.specs.Prelude.{◌≡◌, ◌++◌, IfOk, OnOk, string_bytes, flat_map};
ghost use Rattle.reg_words.specs.Manuals.{value_words, dots, values_words, given_words, argument_words, place_words, short_words, option_item};
ghost use Rattle.reg_words.specs.Manuals.{called_words, command_section, manual_text, IsManual};

use crate::command::whole_command;
use crate::settings::{Setting, push_told, words};
use clap::{Arg, ArgAction, Command};
use std::alloc::{AllocError, Global};

/// What stands in the page before what the tool does.
pub const FRONT: &str = r#".TH REGTOOL 1 2026-11-30 "regtool 1.0.0" "User Commands"
.SH NAME
regtool \- "#;

/// What stands between that and the commands.
pub const MIDDLE: &str = r#"
.SH SYNOPSIS
\fBregtool\fR \fICOMMAND\fR [\fIARGUMENTS\fR]
.SH DESCRIPTION
A hive is a file that holds keys, which have values and subkeys.
\fBregtool\fR makes such files, looks into them, changes them, and runs
scripts of registry calls on them.
A file is read, or saved as a whole, by one command.
.PP
A name, path or pattern that begins with \- stands behind \-\-, and all
options before that.
.SH COMMANDS
"#;

/// What stands behind the commands.
pub const BACK: &str = r#".SH EXIT STATUS
.TP
0
Done.
.TP
1
Refused or faulty; \fBdiff\fR: the hives differ; \fBfind\fR: nothing was found.
.TP
2
The words aren\(aqt understood, or ask for help.
.SH SEE ALSO
.BR hivexsh (1),
.BR hivexregedit (1),
.BR reged (8)
"#;

/// What stands between a command's name and how it is called.
pub const CALL: &str = "\n\\fBregtool ";

/// Appends the name of an argument's value: its own in upper case.
fn push_value(alloc: Global, text: &mut String, id: &str) -> Result<(), AllocError>
    ensures { OnOk result (string_bytes text.new ≡ string_bytes text.old ++ value_words id.now) }
{
    let name = id.to_ascii_uppercase(alloc)?;
    text.push_str("\\fI")?;
    push_told(text, Setting::Page, name.as_str())?;
    text.push_str("\\fR")
}

/// Appends dots, where there may be several values.
fn push_dots(text: &mut String, action: ArgAction) -> Result<(), AllocError>
    ensures { OnOk result (string_bytes text.new ≡ string_bytes text.old ++ dots action) }
{
    match action {
        ArgAction::Append => text.push_str(" ...\\&"),
        _ => Ok(()),
    }
}

/// Appends the value of an argument that takes some.
fn push_values(
    alloc: Global,
    text: &mut String,
    action: ArgAction,
    id: &str,
) -> Result<(), AllocError>
    ensures { OnOk result (string_bytes text.new ≡ string_bytes text.old ++ values_words action id.now) }
{
    push_value(alloc, text, id)?;
    push_dots(text, action)
}

/// Appends the value of an option behind its name; a flag has none.
fn push_given(
    alloc: Global,
    text: &mut String,
    action: ArgAction,
    id: &str,
) -> Result<(), AllocError>
    ensures { OnOk result (string_bytes text.new ≡ string_bytes text.old ++ given_words action id.now) }
{
    match action {
        ArgAction::SetTrue => Ok(()),
        _ => {
            text.push_str(" ")?;
            push_values(alloc, text, action, id)
        }
    }
}

/// Appends an argument: an option by its long name and its value, every other one by its value.
fn push_argument(alloc: Global, text: &mut String, argument: &Arg<'_>) -> Result<(), AllocError>
    ensures { OnOk result (string_bytes text.new ≡ string_bytes text.old ++ argument_words argument.now) }
{
    match argument.get_long() {
        Some(name) => {
            text.push_str("\\fB\\-\\-")?;
            push_told(text, Setting::Page, name)?;
            text.push_str("\\fR")?;
            push_given(alloc, text, argument.get_action(), argument.get_id())
        }
        None => push_values(alloc, text, argument.get_action(), argument.get_id()),
    }
}

/// Appends the line of an argument in its command's synopsis: in brackets where it may be left out.
fn push_place(alloc: Global, text: &mut String, argument: &Arg<'_>) -> Result<(), AllocError>
    ensures { OnOk result (string_bytes text.new ≡ string_bytes text.old ++ place_words argument.now) }
{
    if argument.is_required_set() {
        push_argument(alloc, text, argument)?;
        return text.push_str("\n");
    }
    text.push_str("[")?;
    push_argument(alloc, text, argument)?;
    text.push_str("]\n")
}

fn push_places(alloc: Global, text: &mut String, arguments: &[Arg<'_>]) -> Result<(), AllocError>
    ensures { OnOk result (string_bytes text.new ≡ string_bytes text.old ++ flat_map place_words arguments.now) }
{
    for argument in arguments {
        push_place(alloc, text, argument)?;
    }
    Ok(())
}

/// Appends an option's short name, if it has one.
fn push_short(text: &mut String, short: Option<char>) -> Result<(), AllocError>
    ensures { OnOk result (string_bytes text.new ≡ string_bytes text.old ++ short_words short) }
{
    match short {
        Some(character) => {
            text.push_str("\\fB\\-")?;
            text.push(character)?;
            text.push_str("\\fR, ")
        }
        None => Ok(()),
    }
}

/// Appends what is said of an argument.
fn push_item(alloc: Global, text: &mut String, argument: &Arg<'_>) -> Result<(), AllocError>
    ensures { OnOk result (string_bytes text.new ≡ string_bytes text.old ++ option_item argument.now) }
{
    text.push_str(".TP\n")?;
    push_short(text, argument.get_short())?;
    push_argument(alloc, text, argument)?;
    text.push_str("\n\\&")?;
    push_told(text, Setting::Page, words(argument.get_help()))?;
    text.push_str(".\n")
}

fn push_items(alloc: Global, text: &mut String, arguments: &[Arg<'_>]) -> Result<(), AllocError>
    ensures { OnOk result (string_bytes text.new ≡ string_bytes text.old ++ flat_map option_item arguments.now) }
{
    for argument in arguments {
        push_item(alloc, text, argument)?;
    }
    Ok(())
}

/// Appends how a command is called, below its name.
#[tactic(auto, unfolding(crate::specs::Manuals::called_words))]
fn push_called(alloc: Global, text: &mut String, command: &Command<'_>) -> Result<(), AllocError>
    ensures { OnOk result (string_bytes text.new ≡ string_bytes text.old ++ called_words command.now) }
{
    text.push_str(".SS ")?;
    push_told(text, Setting::Page, command.get_name())?;
    text.push_str(CALL)?;
    push_told(text, Setting::Page, command.get_name())?;
    text.push_str("\\fR\n")?;
    push_places(alloc, text, command.get_arguments())
}

/// Appends what is said of a command.
#[tactic(auto, unfolding(crate::specs::Manuals::command_section))]
fn push_section(alloc: Global, text: &mut String, command: &Command<'_>) -> Result<(), AllocError>
    ensures { OnOk result (string_bytes text.new ≡ string_bytes text.old ++ command_section command.now) }
{
    push_called(alloc, text, command)?;
    text.push_str(".PP\n\\&")?;
    push_told(text, Setting::Page, words(command.get_about()))?;
    text.push_str(".\n")?;
    push_items(alloc, text, command.get_arguments())
}

fn push_sections(
    alloc: Global,
    text: &mut String,
    commands: &[Command<'_>],
) -> Result<(), AllocError>
    ensures { OnOk result (string_bytes text.new ≡ string_bytes text.old ++ flat_map command_section commands.now) }
{
    for command in commands {
        push_section(alloc, text, command)?;
    }
    Ok(())
}

/// The manual page of a command, in the macros of man(7).
#[tactic(auto, unfolding(crate::specs::Manuals::manual_text))]
pub fn manual_of(alloc: Global, command: &Command<'_>) -> Result<String, AllocError>
    ensures { IfOk result (λ text. string_bytes text ≡ manual_text command.now) }
{
    let mut text = String::from_str(alloc, FRONT)?;
    push_told(&mut text, Setting::Page, words(command.get_about()))?;
    text.push_str(MIDDLE)?;
    push_sections(alloc, &mut text, command.get_subcommands())?;
    text.push_str(BACK)?;
    Ok(text)
}

/// The tool's manual page: that of the command by which command lines are read.
pub fn manual(alloc: Global) -> Result<String, AllocError>
    ensures { IfOk result (λ text. IsManual (string_bytes text)) }
{
    let command = whole_command(alloc)?;
    manual_of(alloc, &command)
}
