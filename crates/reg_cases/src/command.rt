//! A command line as a shell takes it apart.

use std::alloc::{AllocError, Global};

/// A command line.
#[derive(Drop)]
pub struct CommandLine {
    /// Its words, the command's name first.
    pub words: Vec<String>,
    /// The file that is its standard input.
    pub input: Option<String>,
    /// The file that takes its standard output.
    pub output: Option<String>,
}

/// What a word is to be.
#[derive(Clone, Copy)]
enum Role {
    Word,
    Input,
    Output,
}

/// The parts of a line between blanks, without quotes; blanks between single quotes are letters, and `''` is an empty part.
fn parts_of(alloc: Global, line: &str) -> Result<Vec<String>, AllocError> {
    let mut parts = Vec::new(alloc);
    let mut part = String::new(alloc);
    let mut is_begun = false;
    let mut is_quoted = false;
    for letter in line.chars() {
        if letter == '\'' {
            is_begun = true;
            is_quoted = !is_quoted;
        } else if letter != ' ' || is_quoted {
            is_begun = true;
            part.push(letter)?;
        } else if is_begun {
            parts.push(part)?;
            part = String::new(alloc);
            is_begun = false;
        }
    }
    if is_begun {
        parts.push(part)?;
    }
    Ok(parts)
}

/// Takes a line apart: words, and behind `<` and `>` files.
pub fn read_line(alloc: Global, line: &str) -> Result<CommandLine, AllocError> {
    let mut command = CommandLine {
        words: Vec::new(alloc),
        input: None,
        output: None,
    };
    let mut role = Role::Word;
    for part in parts_of(alloc, line)? {
        match (part.as_str(), role) {
            ("<", _) => role = Role::Input,
            (">", _) => role = Role::Output,
            (_, Role::Word) => command.words.push(part)?,
            (_, Role::Input) => {
                command.input = Some(part);
                role = Role::Word;
            }
            (_, Role::Output) => {
                command.output = Some(part);
                role = Role::Word;
            }
        }
    }
    Ok(command)
}
