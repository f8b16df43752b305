//! The scripts by which shells complete the tool's words, made of the command as `clap` reads it.

ghost use Rattle.std.specs.Prelude.{◌≡◌, ◌++◌, IfOk, OnOk, string_bytes, flat_map};
ghost use Rattle.reg_words.specs.Completions.{completions_text, AreCompletions};

mod bash;
mod fish;
mod zsh;

use crate::Shell;
use crate::command::whole_command;
use clap::Command;
use std::alloc::{AllocError, Global};

/// The script by which a shell completes the words of a command.
pub fn completions_of(
    alloc: Global,
    command: &Command<'_>,
    shell: Shell,
) -> Result<String, AllocError>
    ensures { IfOk result (λ text. string_bytes text ≡ completions_text shell command.now) }
{
    match shell {
        Shell::Bash => bash::script(alloc, command),
        Shell::Zsh => zsh::script(alloc, command),
        Shell::Fish => fish::script(alloc, command),
    }
}

/// The script by which a shell completes the tool's words: that of the command by which command lines are read.
pub fn completions(alloc: Global, shell: Shell) -> Result<String, AllocError>
    ensures { IfOk result (λ text. AreCompletions shell (string_bytes text)) }
{
    let command = whole_command(alloc)?;
    completions_of(alloc, &command, shell)
}
